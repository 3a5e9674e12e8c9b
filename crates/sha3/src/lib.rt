#![tactic(auto)]

// SHA3-224 and SHA3-256 (FIPS 202). What each function gives is its definition in specs/Sha3.antt, which follows the standard's sections.
// Public calls:
//   sha3_224, sha3_256     the digest of a message
//   sponge                 the first 32 bytes of the sponge for a message, at any rate from 32 to 200 bytes
//   one_block              the first 32 bytes for a message of at most 63 bytes, whose caller has begun the padding in a block of 64
//   permute                the permutation of a state
// A state is its 25 lanes by value, so that the compiler keeps them in registers and on the stack, and each step is a function of its own.
// Six lanes are kept inverted from round to round (specs/Mask.antt).
ghost use Rattle.std.specs.Prelude.{◌≡◌, ◌++◌, cond, ◌+◌, ◌-◌, ◌*◌, ◌/◌, ◌%◌, ◌≤◌, ◌<◌, eqb, length, set, take, drop, replicate};
ghost use Rattle.std.specs.Int.Bits.{bit_and};
ghost use Rattle.laws.specs.Lists.{part, splice};
ghost use Rattle.sha3.specs.Sha3 as S;
ghost use Rattle.sha3.specs.Mask as K;

// The digest of a message.
pub fn sha3_224(m: &[u8]) -> [u8; 28]
    ensures { result ≡ S.sha3_224 m.now }
{
    sha3_of(m)
}

pub fn sha3_256(m: &[u8]) -> [u8; 32]
    ensures { result ≡ S.sha3_256 m.now }
{
    sha3_of(m)
}

// The digest of N bytes: the capacity is twice its length (6.1).
fn sha3_of<const N: usize>(m: &[u8]) -> [u8; N]
    requires { (0 < N) × (N ≤ 32) }
    ensures { result ≡ S.sponge (200 - 2 * N) m.now N }
{
    let d = sponge(200 - 2 * N, m);
    let mut r = [0u8; N];
    r.copy_from_slice(&d[..N]);
    r
}

// The first 32 bytes of the sponge for the message m, at a rate in bytes (4).
pub fn sponge(rate: usize, m: &[u8]) -> [u8; 32]
    requires { (32 ≤ rate) × (rate ≤ 200) }
    ensures { result ≡ S.sponge rate m.now 32 }
{
    let blocks = m.len() / rate;
    let mut s = [0u64; 25];
    for i in 0..blocks {
        let d = whole_block(rate, m, i * rate);
        let v = absorb(s, &d);
        s = v;
    }
    let d = last_block(rate, m, blocks * rate);
    digest(absorb(s, &d))
}

// KECCAK-f[1600] (3.4): two rounds a turn.
pub fn permute(a: [u64; 25]) -> [u64; 25]
    ensures { result ≡ S.keccak_f a }
{
    let k = constants();
    let mut s = masked(a);
    for i in 0..12 {
        let v = two_rounds(s, k[2 * i], k[2 * i + 1]);
        s = v;
    }
    masked(s)
}

// ---- 3.2: the steps of a round

const ONES: u64 = u64::MAX;

fn rotl(x: u64, n: u32) -> u64
    requires { (0 < n) × (n < 64) }
    ensures { result ≡ S.rotl n x }
{
    x.rotate_left(n)
}

// The sums of the columns (3.2.1, step 1).
fn columns(s: [u64; 25]) -> [u64; 5]
    ensures { result ≡ S.columns s }
{
    [
        s[0] ^ s[5] ^ s[10] ^ s[15] ^ s[20],
        s[1] ^ s[6] ^ s[11] ^ s[16] ^ s[21],
        s[2] ^ s[7] ^ s[12] ^ s[17] ^ s[22],
        s[3] ^ s[8] ^ s[13] ^ s[18] ^ s[23],
        s[4] ^ s[9] ^ s[14] ^ s[19] ^ s[24],
    ]
}

// What is added to each column (3.2.1, step 2).
fn effects(c: [u64; 5]) -> [u64; 5]
    ensures { result ≡ S.effects c }
{
    [
        c[4] ^ rotl(c[1], 1),
        c[0] ^ rotl(c[2], 1),
        c[1] ^ rotl(c[3], 1),
        c[2] ^ rotl(c[4], 1),
        c[3] ^ rotl(c[0], 1),
    ]
}

// The rest of θ, ρ and π: d is added to the columns, and each lane is rotated by its offset and moved.
fn moved(s: [u64; 25], d: [u64; 5]) -> [u64; 25]
    ensures { result ≡ S.π (S.ρ (S.applied s d)) }
{
    [
        s[0] ^ d[0],
        rotl(s[6] ^ d[1], 44),
        rotl(s[12] ^ d[2], 43),
        rotl(s[18] ^ d[3], 21),
        rotl(s[24] ^ d[4], 14),
        rotl(s[3] ^ d[3], 28),
        rotl(s[9] ^ d[4], 20),
        rotl(s[10] ^ d[0], 3),
        rotl(s[16] ^ d[1], 45),
        rotl(s[22] ^ d[2], 61),
        rotl(s[1] ^ d[1], 1),
        rotl(s[7] ^ d[2], 6),
        rotl(s[13] ^ d[3], 25),
        rotl(s[19] ^ d[4], 8),
        rotl(s[20] ^ d[0], 18),
        rotl(s[4] ^ d[4], 27),
        rotl(s[5] ^ d[0], 36),
        rotl(s[11] ^ d[1], 10),
        rotl(s[17] ^ d[2], 15),
        rotl(s[23] ^ d[3], 56),
        rotl(s[2] ^ d[2], 62),
        rotl(s[8] ^ d[3], 55),
        rotl(s[14] ^ d[4], 39),
        rotl(s[15] ^ d[0], 41),
        rotl(s[21] ^ d[1], 2),
    ]
}

// Each bit that is 1 in x or in y, as χ needs it.
fn either(x: u64, y: u64) -> u64
    ensures { result ≡ S.inverted (bit_and (S.inverted x) (S.inverted y)) }
{
    x | y
}

// χ and ι. The state s comes with the mask as θ, ρ and π have moved it, and the result has it in its place again.
fn chi(s: [u64; 25], k: u64) -> [u64; 25]
    ensures { result ≡ K.masked (S.ι (S.χ (S.added s K.moved_mask)) k) }
{
    [
        s[0] ^ either(s[1], s[2]) ^ k,
        s[1] ^ either(s[2] ^ ONES, s[3]),
        s[2] ^ (s[3] & s[4]),
        s[3] ^ either(s[4], s[0]),
        s[4] ^ (s[0] & s[1]),
        s[5] ^ either(s[6], s[7]),
        s[6] ^ (s[7] & s[8]),
        s[7] ^ either(s[8], s[9] ^ ONES),
        s[8] ^ either(s[9], s[5]),
        s[9] ^ (s[5] & s[6]),
        s[10] ^ either(s[11], s[12]),
        s[11] ^ (s[12] & s[13]),
        s[12] ^ ((s[13] ^ ONES) & s[14]),
        s[13] ^ ONES ^ either(s[14], s[10]),
        s[14] ^ (s[10] & s[11]),
        s[15] ^ (s[16] & s[17]),
        s[16] ^ either(s[17], s[18]),
        s[17] ^ either(s[18] ^ ONES, s[19]),
        s[18] ^ ONES ^ (s[19] & s[15]),
        s[19] ^ either(s[15], s[16]),
        s[20] ^ ((s[21] ^ ONES) & s[22]),
        s[21] ^ ONES ^ either(s[22], s[23]),
        s[22] ^ (s[23] & s[24]),
        s[23] ^ either(s[24], s[20]),
        s[24] ^ (s[20] & s[21]),
    ]
}

// Two rounds, with their constants, on a masked state.
fn two_rounds(s: [u64; 25], j: u64, k: u64) -> [u64; 25]
    ensures { result ≡ K.masked (S.steps (S.steps (K.masked s) j) k) }
{
    let d = effects(columns(s));
    let t = chi(moved(s, d), j);
    let e = effects(columns(t));
    chi(moved(t, e), k)
}

// The state with six lanes inverted; twice gives the state again.
fn masked(s: [u64; 25]) -> [u64; 25]
    ensures { result ≡ K.masked s }
{
    let mut t = s;
    t[1] ^= ONES;
    t[2] ^= ONES;
    t[8] ^= ONES;
    t[12] ^= ONES;
    t[17] ^= ONES;
    t[20] ^= ONES;
    t
}

// The constants of the rounds (3.2.5).
const RC: [u64; 24] = [
    0x0000000000000001,
    0x0000000000008082,
    0x800000000000808a,
    0x8000000080008000,
    0x000000000000808b,
    0x0000000080000001,
    0x8000000080008081,
    0x8000000000008009,
    0x000000000000008a,
    0x0000000000000088,
    0x0000000080008009,
    0x000000008000000a,
    0x000000008000808b,
    0x800000000000008b,
    0x8000000000008089,
    0x8000000000008003,
    0x8000000000008002,
    0x8000000000000080,
    0x000000000000800a,
    0x800000008000000a,
    0x8000000080008081,
    0x8000000000008080,
    0x0000000080000001,
    0x8000000080008008,
];

fn constants() -> [u64; 24]
    ensures { result ≡ S.up_to 24 S.RC }
{
    RC
}

// ---- 3.1, B.1: lanes and bytes

// The lane of the eight bytes at place `at`.
fn lane_at(b: &[u8], at: usize) -> u64
    requires { at + 8 ≤ length b.now }
    ensures { result ≡ S.lane_at b.now at }
{
    u64::from_le_bytes([
        b[at],
        b[at + 1],
        b[at + 2],
        b[at + 3],
        b[at + 4],
        b[at + 5],
        b[at + 6],
        b[at + 7],
    ])
}

// The lane x as the eight bytes at place `at`.
fn put_lane(d: &mut [u8], at: usize, x: u64)
    requires { at + 8 ≤ length d.old }
    ensures { d.new ≡ splice d.old at (S.lane_bytes x) }
{
    d[at..at + 8].copy_from_slice(&x.to_le_bytes());
}

// The first 32 bytes of a state: four lanes, no plainer as a loop.
fn digest(s: [u64; 25]) -> [u8; 32]
    ensures { result ≡ take 32 (S.bytes s) }
{
    let mut d = [0u8; 32];
    put_lane(&mut d, 0, s[0]);
    put_lane(&mut d, 8, s[1]);
    put_lane(&mut d, 16, s[2]);
    put_lane(&mut d, 24, s[3]);
    d
}

// ---- 4: the sponge

// The state after s, by the 200 bytes of a block and zeros (step 6).
fn absorb(s: [u64; 25], b: &[u8; 200]) -> [u64; 25]
    ensures { result ≡ S.keccak_f (S.added s (S.lanes b.now)) }
{
    let mut t = [0u64; 25];
    for i in 0..25 {
        t[i] = s[i] ^ lane_at(b, 8 * i);
    }
    permute(t)
}

// The block at place `at` of a message, and zeros.
fn whole_block(rate: usize, m: &[u8], at: usize) -> [u8; 200]
    requires { (rate ≤ 200) × (at + rate ≤ length m.now) }
    ensures { result ≡ part m.now at rate ++ replicate (200 - rate) 0 }
{
    let mut d = [0u8; 200];
    buffer::copy_part(&mut d, 0, m, at, rate);
    d
}

// The block in which a message ends, from place `at` on, padded (5.1, B.2), and zeros.
fn last_block(rate: usize, m: &[u8], at: usize) -> [u8; 200]
    requires { (rate ≤ 200) × ((at ≤ length m.now) × (length m.now - at < rate)) }
    ensures { result ≡ drop at m.now ++ (S.padding (rate - (length m.now - at)) ++ replicate (200 - rate) 0) }
{
    let n = m.len() - at;
    let mut d = [0u8; 200];
    buffer::copy_part(&mut d, 0, m, at, n);
    d[n] = 6;
    d[rate - 1] ^= 128;
    d
}

// The first 32 bytes after the one block of this rate, 136 or 144, that begins with b and ends with the byte 0x80: where b is a message, the byte 6 and
// zeros, they begin with its digest (proofs/Short.antt).
pub fn one_block(rate: usize, b: &[u8; 64]) -> [u8; 32]
    requires { (136 ≤ rate) × ((rate ≤ 144) × (rate % 8 ≡ 0)) }
    ensures { result ≡ S.one_block rate b.now }
{
    digest(permute(block_lanes(rate, b)))
}

// The lanes of that block; b has 64 bytes. Written out, so that the compiler knows which lanes are 0: the rounds of a step of the key chain rest on it.
fn block_lanes(rate: usize, b: &[u8; 64]) -> [u64; 25]
    requires { (136 ≤ rate) × ((rate ≤ 144) × (rate % 8 ≡ 0)) }
    ensures { (result ≡ set (S.lanes b.now) (rate / 8 - 1) 0x8000000000000000) × (length b.now ≡ 64) }
{
    let short = end_at(rate, 136);
    let long = end_at(rate, 144);
    [
        lane_at(b, 0),
        lane_at(b, 8),
        lane_at(b, 16),
        lane_at(b, 24),
        lane_at(b, 32),
        lane_at(b, 40),
        lane_at(b, 48),
        lane_at(b, 56),
        0,
        0,
        0,
        0,
        0,
        0,
        0,
        0,
        short,
        long,
        0,
        0,
        0,
        0,
        0,
        0,
        0,
    ]
}

// The lane that ends with byte n of a block: its last one where the block has n bytes, else zeros.
fn end_at(rate: usize, n: usize) -> u64
    ensures { result ≡ cond (eqb rate n) 0x8000000000000000 0 }
{
    if rate == n { 0x8000000000000000 } else { 0 }
}
