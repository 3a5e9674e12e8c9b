#![tactic(auto)]

// CMAC with AES (NIST SP 800-38B; RFC 4493 for a key of 128 bits), for messages of any length.
// What each function gives is its definition in specs/Cmac.antt.
// Public calls:
//   cmac        the code of a message under a key
//   cmac_key    what is kept of a key, made once
//   cmac_with   the code of a message under a kept key; nothing of the key is expanded again
//   truncate    the first bits of a code
//   laws_of_padding, laws_of_truncation    do nothing; their contracts carry what is shown of both
// A kept key is 273 bytes: the round keys (240), K1 (16), K2 (16), and the number of rounds (1). It is lent as such by C callers and kept
// by the chain's callers, so that it is an array and no struct.
ghost use Rattle.std.specs.Prelude.{◌≡◌, ◌+◌, ◌-◌, ◌≤◌, ◌<◌, length, cond, eqb, [], ◌∷◌, ◌++◌};
ghost use Rattle.laws.specs.Lists.{part, splice};
ghost use Rattle.aes.specs.Aes as Aes;
ghost use Rattle.cmac.specs.Cmac as S;
ghost use Rattle.cmac.specs.Shown.{Padding, Truncation};

// The code of the message m under a key.
pub fn cmac(key: &[u8], m: &[u8]) -> [u8; 16]
    ensures { result ≡ S.cmac key.now m.now }
{
    let mut kept = [0; 273];
    cmac_key(key, &mut kept);
    cmac_with(&kept, m)
}

// What is kept of a key: the round keys, and what comes after them.
pub fn cmac_key(key: &[u8], kept: &mut [u8; 273])
    ensures { kept.new ≡ S.kept_of key.now }
{
    aes::expand_key(key, &mut kept[..240]);
    put_subkeys(aes::rounds_of(key.len()), kept);
}

// The code of the message m under a kept key.
pub fn cmac_with(kept: &[u8; 273], m: &[u8]) -> [u8; 16]
    ensures { result ≡ S.cmac_with kept.now m.now }
{
    chained(rounds_in(kept[272]), kept, m)
}

// K1, K2 and the number of rounds, from the round keys before them.
fn put_subkeys(rounds: usize, kept: &mut [u8])
    requires { ((1 ≤ rounds) × (rounds ≤ 14)) × (length kept.old ≡ 273) }
    ensures { kept.new ≡ splice kept.old 240
        (S.K1 (Aes.cipher rounds (part kept.old 0 240)) ++
        (S.K2 (Aes.cipher rounds (part kept.old 0 240)) ++ (rounds ∷ []))) }
{
    let k1 = doubled(aes::cipher(rounds, &kept[..240], [0; 16]));
    let k2 = doubled(k1);
    kept[240..256].copy_from_slice(&k1);
    kept[256..272].copy_from_slice(&k2);
    kept[272] = rounds as u8;
}

// The blocks of the message m, chained.
fn chained(rounds: usize, kept: &[u8], m: &[u8]) -> [u8; 16]
    requires { ((1 ≤ rounds) × (rounds ≤ 14)) × (length kept.now ≡ 273) }
    ensures { result ≡ S.mac (Aes.cipher rounds (part kept.now 0 240)) (part kept.now 240 16)
        (part kept.now 256 16) m.now }
{
    let mut c = [0; 16];
    for i in 0..blocks(m.len()) {
        c = aes::cipher(rounds, &kept[..240], next(kept, m, i, c));
    }
    c
}

// The number of rounds that the last byte of a kept key says.
fn rounds_in(x: u8) -> usize
    ensures { (result ≡ S.rounds_in x) × ((1 ≤ result) × (result ≤ 14)) }
{
    usize::from(x.clamp(1, 14))
}

// The number of blocks of a message of so many bytes.
fn blocks(len: usize) -> usize
    ensures { result ≡ S.blocks len }
{
    len.div_ceil(16).max(1)
}

// What the cipher takes after i blocks: their chained value c, exclusive or the next block.
fn next(kept: &[u8], m: &[u8], i: usize, c: [u8; 16]) -> [u8; 16]
    requires { (length kept.now ≡ 273) × (i < S.blocks (length m.now)) }
    ensures { result ≡ Aes.xored c (S.block (part kept.now 240 16) (part kept.now 256 16) m.now (i + 1)) }
{
    let rest = &m[16 * i..];
    if 16 < rest.len() {
        xored(c, &rest[..16])
    } else {
        xored(c, &last_block(kept, rest))
    }
}

// The last block, from what is left of the message.
fn last_block(kept: &[u8], rest: &[u8]) -> [u8; 16]
    requires { (length kept.now ≡ 273) × (length rest.now ≤ 16) }
    ensures { result ≡ S.last_block (part kept.now 240 16) (part kept.now 256 16) rest.now }
{
    xored(padded(rest), subkey(kept, rest.len()))
}

// What is left of the message, as a block.
fn padded(rest: &[u8]) -> [u8; 16]
    requires { length rest.now ≤ 16 }
    ensures { result ≡ S.padded rest.now }
{
    let mut b = [0; 16];
    buffer::copy_at(&mut b, 0, rest);
    if rest.len() < 16 {
        b[rest.len()] = 0x80;
    }
    b
}

// The subkey for a last block of n bytes: K1 for a complete one, else K2.
fn subkey(kept: &[u8], n: usize) -> &[u8]
    requires { length kept.now ≡ 273 }
    ensures { result.now ≡ cond (eqb n 16) (part kept.now 240 16) (part kept.now 256 16) }
{
    if n == 16 {
        &kept[240..256]
    } else {
        &kept[256..272]
    }
}

// The block a, exclusive or the 16 bytes of s.
fn xored(a: [u8; 16], s: &[u8]) -> [u8; 16]
    requires { length s.now ≡ 16 }
    ensures { result ≡ Aes.xored a s.now }
{
    let mut d = [0; 16];
    for i in 0..16 {
        d[i] = a[i] ^ s[i];
    }
    d
}

// A subkey from the value before it.
fn doubled(x: [u8; 16]) -> [u8; 16]
    ensures { result ≡ S.doubled x }
{
    let mut d = shifted(x);
    if x[0] / 128 % 2 != 0 {
        d[15] ^= 0x87;
    }
    d
}

// Sixteen bytes, shifted left by a bit.
fn shifted(x: [u8; 16]) -> [u8; 16]
    ensures { result ≡ S.shifted x }
{
    let mut d = [0; 16];
    for i in 0..15 {
        d[i] = (x[i] << 1) | (x[i + 1] >> 7);
    }
    d[15] = x[15] << 1;
    d
}

// The first n bits of a code; the bits after them are zero. The bytes that are kept whole are passed over.
pub fn truncate(code: [u8; 16], n: usize) -> [u8; 16]
    ensures { result ≡ S.truncated n code }
{
    let mut d = code;
    for i in (n / 8).min(16)..16 {
        d[i] = first_bits(code[i], n.saturating_sub(8 * i));
    }
    d
}

// The first n bits of the byte x; the bits after them are zero.
fn first_bits(x: u8, n: usize) -> u8
    ensures { result ≡ S.first_bits n x }
{
    let s = 8 - n.min(8);
    ((u16::from(x) >> s) << s) as u8
}

// Does nothing; that it is proved says what the padding is, for a message of any number of bytes (02, P1).
pub fn laws_of_padding()
    ensures { Padding }
{}

// Does nothing; that it is proved says what a truncated code is, for any number of bits.
pub fn laws_of_truncation()
    ensures { Truncation }
{}
