#![tactic(auto)]

// AES and CMAC as exported functions. Each call lends everything and keeps nothing; a slice is a pointer and a count of bytes, an array
// a pointer alone. Each answers 0, or 1 where a length is not as it must be, and then leaves everything as it was (specs/Calls.antt).
// For the tests and the benchmark; it is no part of the receiver's own boundary.
//   osnma_aes_expand      the round keys of a key of 16, 24 or 32 bytes, into 240 bytes
//   osnma_aes_encrypt     a block under the 240 bytes of round keys of a key of n bytes, into 16 bytes
//   osnma_cmac            the code of m under a key, into 16 bytes
//   osnma_cmac_key        what is kept of a key, into 273 bytes
//   osnma_cmac_with       the code of m under a kept key, into 16 bytes
//   osnma_cmac_truncate   the first n bits of a code, and zeros; no length can be wrong, and there is no answer
ghost use Rattle.std.specs.Prelude.{◌≡◌};
ghost use Rattle.cmac.specs.Cmac.{truncated};
ghost use Rattle.test_mac.specs.Calls.{
  answer,
  not_key,
  expand_call,
  encrypt_call,
  cmac_call,
  cmac_key_call,
  cmac_with_call,
};

// The answers: numbers, for the functions are C's.
const WRITTEN: u32 = 0;

const REFUSED: u32 = 1;

#[unsafe(no_mangle)]
pub extern "C" fn osnma_aes_expand(key: &[u8], out: &mut [u8]) -> u32
    ensures { answer result out.new ≡ expand_call key.now out.old }
{
    if no_key(key.len()) || out.len() != 240 {
        return REFUSED;
    }
    aes::expand_key(key, out);
    WRITTEN
}

#[unsafe(no_mangle)]
pub extern "C" fn osnma_aes_encrypt(n: usize, w: &[u8], block: &[u8; 16], out: &mut [u8]) -> u32
    ensures { answer result out.new ≡ encrypt_call n w.now block.now out.old }
{
    if no_key(n) || w.len() != 240 || out.len() != 16 {
        return REFUSED;
    }
    out.copy_from_slice(&aes::cipher(aes::rounds_of(n), w, *block));
    WRITTEN
}

#[unsafe(no_mangle)]
pub extern "C" fn osnma_cmac(key: &[u8], m: &[u8], out: &mut [u8]) -> u32
    ensures { answer result out.new ≡ cmac_call key.now m.now out.old }
{
    if no_key(key.len()) || out.len() != 16 {
        return REFUSED;
    }
    out.copy_from_slice(&cmac::cmac(key, m));
    WRITTEN
}

#[unsafe(no_mangle)]
pub extern "C" fn osnma_cmac_key(key: &[u8], kept: &mut [u8; 273]) -> u32
    ensures { answer result kept.new ≡ cmac_key_call key.now kept.old }
{
    if no_key(key.len()) {
        return REFUSED;
    }
    cmac::cmac_key(key, kept);
    WRITTEN
}

#[unsafe(no_mangle)]
pub extern "C" fn osnma_cmac_with(kept: &[u8; 273], m: &[u8], out: &mut [u8]) -> u32
    ensures { answer result out.new ≡ cmac_with_call kept.now m.now out.old }
{
    if out.len() != 16 {
        return REFUSED;
    }
    out.copy_from_slice(&cmac::cmac_with(kept, m));
    WRITTEN
}

#[unsafe(no_mangle)]
pub extern "C" fn osnma_cmac_truncate(code: &mut [u8; 16], n: usize)
    ensures { code.new ≡ truncated n code.old }
{
    *code = cmac::truncate(*code, n);
}

// Whether no key has n bytes.
fn no_key(n: usize) -> bool
    ensures { result ≡ not_key n }
{
    !matches!(n, 16 | 24 | 32)
}
