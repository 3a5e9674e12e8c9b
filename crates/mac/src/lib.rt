#![tactic(auto)]

// The code of a message under the function that a chain's MF names (000, table 11; 02, P1): CMAC-AES for 1, else HMAC-SHA-256. All tags and
// MACSEQ go through here. What is kept of a key is lent: 273 bytes, whichever the function (specs/Kept.antt).
// Public calls:
//   keep       what is kept of a key, made once for all messages under it
//   mac_bits   the first bits of the code of a message under a kept key
ghost use Rattle.std.specs.Prelude.{◌≡◌, List, ℕ, ◌+◌, ◌≤◌, length};
ghost use Rattle.hmac.specs.Hmac.{key_of};
ghost use Rattle.rules.specs.Tags.{mac_bits};
ghost use Rattle.mac.specs.Kept.{kept_of, hmac_kept, words_at};

use hmac::HmacKey;

// The MF of CMAC-AES. MF stays the chain's number, as the contracts of the rules have it: any other number is HMAC-SHA-256.
const CMAC: u8 = 1;

// What is kept of a key.
pub fn keep(mf: u8, key: &[u8], kept: &mut [u8; 273])
    requires { length key.now ≤ 32 }
    ensures { kept.new ≡ kept_of mf key.now }
{
    match mf {
        CMAC => cmac::cmac_key(key, kept),
        _ => put_hmac(hmac::hmac_key(key), kept),
    }
}

// The first n bits of the code of a message, as a number.
pub fn mac_bits(mf: u8, n: usize, kept: &[u8; 273], message: &[u8]) -> u64
    requires { (n ≤ 56) × (length message.now ≤ 76) }
    ensures { (k : List ℕ) → kept.now ≡ kept_of mf k → result ≡ mac_bits mf n k message.now }
{
    match mf {
        CMAC => bitfields::bits_at(&cmac::cmac_with(kept, message), 0, n),
        _ => bitfields::bits_at(&hmac::hmac_with(hmac_key_in(kept), message), 0, n),
    }
}

// ---- HMAC's kept key as bytes

// The two hash values, as bytes, and zeros.
fn put_hmac(k: HmacKey, kept: &mut [u8])
    requires { length kept.old ≡ 273 }
    ensures { kept.new ≡ hmac_kept k }
{
    kept.fill(0);
    kept[..32].copy_from_slice(&sha256::bytes(k.inner));
    kept[32..64].copy_from_slice(&sha256::bytes(k.outer));
}

// The two hash values that were put.
fn hmac_key_in(kept: &[u8; 273]) -> HmacKey
    ensures { (k : List ℕ) → kept.now ≡ hmac_kept (key_of k) → result ≡ key_of k }
{
    HmacKey {
        inner: words_at(kept, 0),
        outer: words_at(kept, 32),
    }
}

// Eight words from place `at`, written out: of the calls in `array::from_fn` its contract does not say that all read the same bytes.
fn words_at(kept: &[u8; 273], at: usize) -> [u32; 8]
    requires { at + 32 ≤ 273 }
    ensures { result ≡ words_at kept.now at }
{
    [
        buffer::get_u32(kept, at),
        buffer::get_u32(kept, at + 4),
        buffer::get_u32(kept, at + 8),
        buffer::get_u32(kept, at + 12),
        buffer::get_u32(kept, at + 16),
        buffer::get_u32(kept, at + 20),
        buffer::get_u32(kept, at + 24),
        buffer::get_u32(kept, at + 28),
    ]
}
