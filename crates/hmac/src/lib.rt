#![tactic(auto)]

// HMAC with SHA-256 (FIPS 198-1), for keys of any length. What each function gives is its definition in specs/Hmac.antt.
// Public calls:
//   hmac        the code of a message under a key
//   hmac_key    what is kept of a key, made once; hmac_with then costs two compressions less for each message
//   hmac_with   the code of a message under a kept key
ghost use Rattle.std.specs.Prelude.{◌≡◌, ◌≤◌, ◌<◌, ◌+◌, ◌^◌, length};
ghost use Rattle.hmac.specs.Hmac as Spec;

// The hash values after a key's two pads: all that has to be known of a key to authenticate any message under it.
#[derive(Clone, Copy)]
pub struct HmacKey {
    pub inner: [u32; 8],
    pub outer: [u32; 8],
}

// The code of the message m under the key k.
pub fn hmac(k: &[u8], m: &[u8]) -> [u8; 32]
    requires { (length k.now < 2 ^ 61) × (64 + length m.now < 2 ^ 61) }
    ensures { result ≡ Spec.hmac k.now m.now }
{
    hmac_with(hmac_key(k), m)
}

// What is kept of the key k.
pub fn hmac_key(k: &[u8]) -> HmacKey
    requires { length k.now < 2 ^ 61 }
    ensures { result ≡ Spec.key_of k.now }
{
    let b = key_block(k);
    let i = xored(b, 0x36);
    let o = xored(b, 0x5c);
    let inner = sha256::compress(sha256::initial(), &i);
    let outer = sha256::compress(sha256::initial(), &o);
    HmacKey { inner, outer }
}

// The code of the message m under a kept key.
pub fn hmac_with(k: HmacKey, m: &[u8]) -> [u8; 32]
    requires { 64 + length m.now < 2 ^ 61 }
    ensures { result ≡ Spec.hmac_with k m.now }
{
    let d = sha256::finish(k.inner, 1, m, b"");
    sha256::finish(k.outer, 1, &d, b"")
}

// The key as a block (steps 1 to 3).
fn key_block(k: &[u8]) -> [u8; 64]
    requires { length k.now < 2 ^ 61 }
    ensures { result ≡ Spec.key_block k.now }
{
    if 64 < k.len() {
        zero_padded(&sha256::sha256(k))
    } else {
        zero_padded(k)
    }
}

// The bytes of b, and zeros.
fn zero_padded(b: &[u8]) -> [u8; 64]
    requires { length b.now ≤ 64 }
    ensures { result ≡ Spec.zero_padded b.now }
{
    let mut d = [0u8; 64];
    buffer::copy_at(&mut d, 0, b);
    d
}

// Each byte of b, exclusive or x.
fn xored(b: [u8; 64], x: u8) -> [u8; 64]
    ensures { result ≡ Spec.xored b x }
{
    let mut d = b;
    for y in d.iter_mut() {
        *y ^= x;
    }
    d
}
