#![tactic(auto)]

// SHA-256, SHA-3 and HMAC as exported functions. Each call lends everything and keeps nothing; a slice is a pointer and a count of elements.
// Each answers 0, or 1 where a length is not as it must be, and then leaves everything as it was (specs/Calls.antt).
// For the tests and the benchmark; it is no part of the receiver's own boundary.
//   osnma_sha256          the digest of m, into 32 bytes
//   osnma_sha256_of_two   the digest of a and then b, into 32 bytes
//   osnma_sha3_224        the digest of m, into 28 bytes
//   osnma_sha3_256        the digest of m, into 32 bytes
//   osnma_hmac            the code of m under a key, into 32 bytes
//   osnma_hmac_key        what is kept of a key, into 16 words
//   osnma_hmac_with       the code of m under a kept key, into 32 bytes
//   osnma_compress        one block; no length can be wrong, and there is no answer
//   osnma_keccak          the permutation of a state, likewise
ghost use Rattle.std.specs.Prelude.{◌≡◌, length};
ghost use Rattle.sha256.specs.Sha256.{compress};
ghost use Rattle.sha3.specs.Sha3.{keccak_f, sha3_224, sha3_256};
ghost use Rattle.test_hash.specs.Calls.{
  answer,
  sha256_call,
  sha256_of_two_call,
  digest_call,
  hmac_call,
  hmac_key_call,
  hmac_with_call,
  words,
  key_in,
};

// 2 ^ 61 bytes: SHA-256 takes messages of fewer.
const LIMIT: usize = 2305843009213693952;

// The answers, numbers as C gets them.
const WRITTEN: u32 = 0;

const REFUSED: u32 = 1;

#[tactic(auto, using(std::proofs::lemmas::Bool::Decides::nat_tests), unfolding(crate::specs::Calls::sha256_call))]
#[unsafe(no_mangle)]
pub extern "C" fn osnma_sha256(m: &[u8], out: &mut [u8]) -> u32
    ensures { answer result out.new ≡ sha256_call m.now out.old }
{
    if out.len() != 32 || LIMIT <= m.len() {
        return REFUSED;
    }
    let d = sha256::sha256(m);
    out.copy_from_slice(&d);
    WRITTEN
}

#[tactic(auto, using(std::proofs::lemmas::Bool::Decides::nat_tests), unfolding(crate::specs::Calls::sha256_of_two_call))]
#[unsafe(no_mangle)]
pub extern "C" fn osnma_sha256_of_two(a: &[u8], b: &[u8], out: &mut [u8]) -> u32
    ensures { answer result out.new ≡ sha256_of_two_call a.now b.now out.old }
{
    if out.len() != 32 || LIMIT <= a.len() || LIMIT <= b.len() || LIMIT <= a.len() + b.len() {
        return REFUSED;
    }
    let d = sha256::sha256_of_two(a, b);
    out.copy_from_slice(&d);
    WRITTEN
}

#[tactic(auto, using(std::proofs::lemmas::Bool::Decides::nat_tests), unfolding(crate::specs::Calls::digest_call))]
#[unsafe(no_mangle)]
pub extern "C" fn osnma_sha3_224(m: &[u8], out: &mut [u8]) -> u32
    ensures { answer result out.new ≡ digest_call 28 (sha3_224 m.now) out.old }
{
    if out.len() != 28 {
        return REFUSED;
    }
    let d = sha3::sha3_224(m);
    out.copy_from_slice(&d);
    WRITTEN
}

#[tactic(auto, using(std::proofs::lemmas::Bool::Decides::nat_tests), unfolding(crate::specs::Calls::digest_call))]
#[unsafe(no_mangle)]
pub extern "C" fn osnma_sha3_256(m: &[u8], out: &mut [u8]) -> u32
    ensures { answer result out.new ≡ digest_call 32 (sha3_256 m.now) out.old }
{
    if out.len() != 32 {
        return REFUSED;
    }
    let d = sha3::sha3_256(m);
    out.copy_from_slice(&d);
    WRITTEN
}

#[tactic(auto, using(std::proofs::lemmas::Bool::Decides::nat_tests), unfolding(crate::specs::Calls::hmac_call))]
#[unsafe(no_mangle)]
pub extern "C" fn osnma_hmac(key: &[u8], m: &[u8], out: &mut [u8]) -> u32
    ensures { answer result out.new ≡ hmac_call key.now m.now out.old }
{
    if out.len() != 32 || LIMIT <= key.len() || LIMIT - 64 <= m.len() {
        return REFUSED;
    }
    let d = hmac::hmac(key, m);
    out.copy_from_slice(&d);
    WRITTEN
}

#[tactic(auto, using(std::proofs::lemmas::Bool::Decides::nat_tests), unfolding(crate::specs::Calls::hmac_key_call))]
#[unsafe(no_mangle)]
pub extern "C" fn osnma_hmac_key(key: &[u8], state: &mut [u32]) -> u32
    ensures { answer result state.new ≡ hmac_key_call key.now state.old }
{
    if state.len() != 16 || LIMIT <= key.len() {
        return REFUSED;
    }
    put_key(state, hmac::hmac_key(key));
    WRITTEN
}

#[tactic(auto, using(std::proofs::lemmas::Bool::Decides::nat_tests), unfolding(crate::specs::Calls::hmac_with_call))]
#[unsafe(no_mangle)]
pub extern "C" fn osnma_hmac_with(state: &[u32], m: &[u8], out: &mut [u8]) -> u32
    ensures { answer result out.new ≡ hmac_with_call state.now m.now out.old }
{
    if state.len() != 16 || out.len() != 32 || LIMIT - 64 <= m.len() {
        return REFUSED;
    }
    let d = hmac::hmac_with(get_key(state), m);
    out.copy_from_slice(&d);
    WRITTEN
}

#[unsafe(no_mangle)]
pub extern "C" fn osnma_compress(h: &mut [u32; 8], block: &[u8; 64])
    ensures { h.new ≡ compress h.old block.now }
{
    let v = sha256::compress(*h, block);
    *h = v;
}

#[unsafe(no_mangle)]
pub extern "C" fn osnma_keccak(s: &mut [u64; 25])
    ensures { s.new ≡ keccak_f s.old }
{
    let v = sha3::permute(*s);
    *s = v;
}

// A kept key, as sixteen words.
#[tactic(auto, unfolding(crate::specs::Calls::words))]
fn put_key(state: &mut [u32], k: hmac::HmacKey)
    requires { length state.old ≡ 16 }
    ensures { state.new ≡ words k }
{
    let (inner, outer) = state.split_at_mut(8);
    inner.copy_from_slice(&k.inner);
    outer.copy_from_slice(&k.outer);
}

// The kept key of sixteen words.
#[tactic(auto, unfolding(crate::specs::Calls::key_in, laws::specs::Lists::part))]
fn get_key(state: &[u32]) -> hmac::HmacKey
    requires { length state.now ≡ 16 }
    ensures { result ≡ key_in state.now }
{
    let mut inner = [0u32; 8];
    let mut outer = [0u32; 8];
    inner.copy_from_slice(&state[..8]);
    outer.copy_from_slice(&state[8..]);
    hmac::HmacKey { inner, outer }
}
