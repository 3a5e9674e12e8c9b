#![tactic(auto)]

// AES encryption (FIPS 197) for keys of 128, 192 and 256 bits. What each function gives is its definition in specs/Aes.antt.
// Public calls:
//   rounds_of    how many rounds a key of n bytes has
//   expand_key   the round keys of a key, made once
//   cipher       a block under round keys
// A state is worked on as four numbers, its columns, so that one operation serves the four bytes of a column.
ghost use Rattle.std.specs.Prelude.{◌≡◌, List, [], ◌∷◌, ℕ, ◌+◌, ◌-◌, ◌*◌, ◌/◌, ◌%◌, ◌≤◌, ◌<◌, length};
ghost use Rattle.laws.specs.Lists.{part};
ghost use Rattle.laws.specs.Bytes.{be4};
ghost use Rattle.aes.specs.Aes as S;
ghost use Rattle.aes.specs.Steps as C;

// Nr: how many rounds a key of n bytes has.
pub fn rounds_of(n: usize) -> usize
    ensures { result ≡ S.rounds_of n }
{
    words_of(n) + 6
}

// The round keys of a key, and zeros after them (5.2).
pub fn expand_key(key: &[u8], w: &mut [u8])
    requires { length w.old ≡ 240 }
    ensures { w.new ≡ S.expanded key.now }
{
    let nk = words_of(key.len());
    lay_key(key, nk, w);
    let mut x = word_at(w, 4 * (nk - 1));
    for i in nk..4 * (nk + 7) {
        x = word_at(w, 4 * (i - nk)) ^ temp(nk, i, x);
        buffer::put_u32(w, 4 * i, x);
    }
}

// The block after all rounds, with the round keys w (5.1).
pub fn cipher(rounds: usize, w: &[u8], block: [u8; 16]) -> [u8; 16]
    requires { (1 ≤ rounds) × (16 * (rounds + 1) ≤ length w.now) }
    ensures { result ≡ S.cipher rounds w.now block }
{
    let mut s = add_round_key(columns(&block), w, 0);
    for i in 1..rounds {
        s = add_round_key(mix_columns(sub_shift(s)), w, i);
    }
    bytes(add_round_key(sub_shift(s), w, rounds))
}

// b times x (4.2).
fn xtime(b: u8) -> u8
    ensures { result ≡ S.xtime b }
{
    ((b % 128) * 2) ^ ((b / 128) * 27)
}

// ---- 5.1.1: the S-box

static SBOX: [u8; 256] = [
    0x63, 0x7c, 0x77, 0x7b, 0xf2, 0x6b, 0x6f, 0xc5, 0x30, 0x01, 0x67, 0x2b, 0xfe, 0xd7, 0xab, 0x76,
    0xca, 0x82, 0xc9, 0x7d, 0xfa, 0x59, 0x47, 0xf0, 0xad, 0xd4, 0xa2, 0xaf, 0x9c, 0xa4, 0x72, 0xc0,
    0xb7, 0xfd, 0x93, 0x26, 0x36, 0x3f, 0xf7, 0xcc, 0x34, 0xa5, 0xe5, 0xf1, 0x71, 0xd8, 0x31, 0x15,
    0x04, 0xc7, 0x23, 0xc3, 0x18, 0x96, 0x05, 0x9a, 0x07, 0x12, 0x80, 0xe2, 0xeb, 0x27, 0xb2, 0x75,
    0x09, 0x83, 0x2c, 0x1a, 0x1b, 0x6e, 0x5a, 0xa0, 0x52, 0x3b, 0xd6, 0xb3, 0x29, 0xe3, 0x2f, 0x84,
    0x53, 0xd1, 0x00, 0xed, 0x20, 0xfc, 0xb1, 0x5b, 0x6a, 0xcb, 0xbe, 0x39, 0x4a, 0x4c, 0x58, 0xcf,
    0xd0, 0xef, 0xaa, 0xfb, 0x43, 0x4d, 0x33, 0x85, 0x45, 0xf9, 0x02, 0x7f, 0x50, 0x3c, 0x9f, 0xa8,
    0x51, 0xa3, 0x40, 0x8f, 0x92, 0x9d, 0x38, 0xf5, 0xbc, 0xb6, 0xda, 0x21, 0x10, 0xff, 0xf3, 0xd2,
    0xcd, 0x0c, 0x13, 0xec, 0x5f, 0x97, 0x44, 0x17, 0xc4, 0xa7, 0x7e, 0x3d, 0x64, 0x5d, 0x19, 0x73,
    0x60, 0x81, 0x4f, 0xdc, 0x22, 0x2a, 0x90, 0x88, 0x46, 0xee, 0xb8, 0x14, 0xde, 0x5e, 0x0b, 0xdb,
    0xe0, 0x32, 0x3a, 0x0a, 0x49, 0x06, 0x24, 0x5c, 0xc2, 0xd3, 0xac, 0x62, 0x91, 0x95, 0xe4, 0x79,
    0xe7, 0xc8, 0x37, 0x6d, 0x8d, 0xd5, 0x4e, 0xa9, 0x6c, 0x56, 0xf4, 0xea, 0x65, 0x7a, 0xae, 0x08,
    0xba, 0x78, 0x25, 0x2e, 0x1c, 0xa6, 0xb4, 0xc6, 0xe8, 0xdd, 0x74, 0x1f, 0x4b, 0xbd, 0x8b, 0x8a,
    0x70, 0x3e, 0xb5, 0x66, 0x48, 0x03, 0xf6, 0x0e, 0x61, 0x35, 0x57, 0xb9, 0x86, 0xc1, 0x1d, 0x9e,
    0xe1, 0xf8, 0x98, 0x11, 0x69, 0xd9, 0x8e, 0x94, 0x9b, 0x1e, 0x87, 0xe9, 0xce, 0x55, 0x28, 0xdf,
    0x8c, 0xa1, 0x89, 0x0d, 0xbf, 0xe6, 0x42, 0x68, 0x41, 0x99, 0x2d, 0x0f, 0xb0, 0x54, 0xbb, 0x16,
];

fn sub_byte(b: u8) -> u8
    ensures { result ≡ S.sub_byte b }
{
    SBOX[usize::from(b)]
}

// ---- a state as the numbers of its columns

fn word_at(w: &[u8], at: usize) -> u32
    requires { at + 4 ≤ length w.now }
    ensures { be4 result ≡ part w.now at 4 }
{
    buffer::get_u32(w, at)
}

fn columns(b: &[u8; 16]) -> [u32; 4]
    ensures { C.bytes_of result ≡ b.now }
{
    [word_at(b, 0), word_at(b, 4), word_at(b, 8), word_at(b, 12)]
}

fn bytes(s: [u32; 4]) -> [u8; 16]
    ensures { result ≡ C.bytes_of s }
{
    let mut d = [0u8; 16];
    buffer::put_u32(&mut d, 0, s[0]);
    buffer::put_u32(&mut d, 4, s[1]);
    buffer::put_u32(&mut d, 8, s[2]);
    buffer::put_u32(&mut d, 12, s[3]);
    d
}

// ---- 5.1: one round

// SubBytes and ShiftRows of one column: its bytes come from four columns, the first from a, the second from b, and so on.
fn sub_column(a: u32, b: u32, c: u32, d: u32) -> u32
    ensures { be4 result ≡ S.sub_byte (a / 16777216 % 256) ∷ S.sub_byte (b / 65536 % 256) ∷ S.sub_byte (c / 256 % 256) ∷ S.sub_byte (d % 256) ∷ [] }
{
    // A sum, and no `from_be_bytes`: of that the compiler makes vectors of the four columns, and a block takes half as long again.
    u32::from(sub_byte(a.to_be_bytes()[0])) * 0x1000000
        + u32::from(sub_byte(b.to_be_bytes()[1])) * 0x10000
        + u32::from(sub_byte(c.to_be_bytes()[2])) * 0x100
        + u32::from(sub_byte(d.to_be_bytes()[3]))
}

// SubBytes and ShiftRows.
fn sub_shift(s: [u32; 4]) -> [u32; 4]
    ensures { C.bytes_of result ≡ S.shift_rows (S.sub_bytes (C.bytes_of s)) }
{
    let [a, b, c, d] = s;
    [
        sub_column(a, b, c, d),
        sub_column(b, c, d, a),
        sub_column(c, d, a, b),
        sub_column(d, a, b, c),
    ]
}

// Each byte of the column x times x (4.2), the four side by side.
fn doubled(x: u32) -> u32
    ensures { be4 result ≡ C.doubled (be4 x) }
{
    ((x & 0x7f7f7f7f) << 1) ^ ((x >> 7 & 0x01010101) * 27)
}

// MixColumns of one column: twice each byte, three times the next, and the other two.
fn mix_column(x: u32) -> u32
    ensures { be4 result ≡ C.mixed (be4 x) }
{
    let y = doubled(x);
    y ^ (x ^ y).rotate_left(8) ^ x.rotate_left(16) ^ x.rotate_left(24)
}

fn mix_columns(s: [u32; 4]) -> [u32; 4]
    ensures { C.bytes_of result ≡ S.mix_columns (C.bytes_of s) }
{
    s.map(mix_column)
}

// The key of round n, added.
fn add_round_key(s: [u32; 4], w: &[u8], n: usize) -> [u32; 4]
    requires { 16 * n + 16 ≤ length w.now }
    ensures { C.bytes_of result ≡ S.add_round_key (C.bytes_of s) w.now n }
{
    let at = 16 * n;
    [
        s[0] ^ word_at(w, at),
        s[1] ^ word_at(w, at + 4),
        s[2] ^ word_at(w, at + 8),
        s[3] ^ word_at(w, at + 12),
    ]
}

// ---- 5.2: the round keys

// Nk: how many words of a key of n bytes count.
fn words_of(n: usize) -> usize
    ensures { (result ≡ S.nk_of n) × ((4 ≤ result) × (result ≤ 8)) }
{
    match n {
        0..24 => 4,
        24..32 => 6,
        _ => 8,
    }
}

// The bytes of the key that count, and zeros.
fn lay_key(key: &[u8], nk: usize, w: &mut [u8])
    requires { (nk ≡ S.nk_of (length key.now)) × (length w.old ≡ 240) }
    ensures { w.new ≡ C.filled nk (S.key_bytes key.now) 0 }
{
    let n = key.len().min(4 * nk);
    w.fill(0);
    buffer::copy_at(w, 0, &key[..n]);
}

// x^n.
fn x_power(n: usize) -> u8
    ensures { result ≡ S.x_power n }
{
    let mut r: u8 = 1;
    for _ in 0..n {
        r = xtime(r);
    }
    r
}

fn sub_word(x: u32) -> u32
    ensures { be4 result ≡ S.sub_bytes (be4 x) }
{
    sub_column(x, x, x, x)
}

// What is added to word i - Nk, where x is word i - 1.
fn temp(nk: usize, i: usize, x: u32) -> u32
    requires { (0 < nk) × (nk ≤ i) }
    ensures { be4 result ≡ S.temp nk i (be4 x) }
{
    match i % nk {
        0 => sub_word(x.rotate_left(8)) ^ u32::from(x_power(i / nk - 1)) << 24,
        4 if 6 < nk => sub_word(x),
        _ => x,
    }
}
