#![tactic(auto)]

// Bit fields of byte strings (01: "high byte first; bit 0 is the most significant").
// A field is read by whole bytes and then shifted and masked.
// Public calls:
//   bits_at               a field as a number
//   bytes_to, bytes_at    bytes from any bit on
//   block_bits            bits of a MACK block
//   wide, low, index      a number in a wider type
ghost use Rattle.std.specs.Prelude.{◌≡◌, ◌+◌, ◌*◌, ◌≤◌, ◌<◌, length};
ghost use Rattle.laws.specs.Lists.{splice};
ghost use Rattle.rules.specs.Bits.{bits, bytes_at};
ghost use Rattle.rules.specs.Kroot.{block_bits};

// The number in the n bits from bit `at` on, at most 56.
pub fn bits_at(s: &[u8], at: usize, n: usize) -> u64
    requires { (at + n ≤ 8 * length s.now) × (n ≤ 56) }
    ensures { result ≡ bits s.now at n }
{
    let first = at / 8;
    let before = at % 8;
    let count = (before + n + 7) / 8;
    let after = 8 * count - (before + n);
    (number(s, first, count) >> after) & ((1u64 << n) - 1)
}

// The number in the n bytes from place `first` on, at most 8.
fn number(s: &[u8], first: usize, n: usize) -> u64
    requires { (first + n ≤ length s.now) × (n ≤ 8) }
    ensures { result ≡ bits s.now (8 * first) (8 * n) }
{
    let mut v = 0;
    for b in &s[first..first + n] {
        v = v * 256 + u64::from(*b);
    }
    v
}

// The byte from bit r of place k on.
fn byte_at(s: &[u8], k: usize, r: usize) -> u8
    requires { (8 * k + r + 8 ≤ 8 * length s.now) × (r < 8) }
    ensures { result ≡ bits s.now (8 * k + r) 8 }
{
    if r == 0 {
        return s[k];
    }
    let pair = u16::from_be_bytes([s[k], s[k + 1]]);
    ((pair >> (8 - r)) % 256) as u8
}

// The n bytes from bit `at` on into `out` from place `to`. It is not inlined, as in `buffer`.
#[inline(never)]
pub fn bytes_to(s: &[u8], at: usize, n: usize, out: &mut [u8], to: usize)
    requires { (at + 8 * n ≤ 8 * length s.now) × (to + n ≤ length out.old) }
    ensures { out.new ≡ splice out.old to (bytes_at s.now at n) }
{
    let first = at / 8;
    let r = at % 8;
    for i in 0..n {
        out[to + i] = byte_at(s, first + i, r);
    }
}

// The n bytes from bit `at` on into the first n bytes of `out`.
pub fn bytes_at(s: &[u8], at: usize, n: usize, out: &mut [u8])
    requires { (at + 8 * n ≤ 8 * length s.now) × (n ≤ length out.old) }
    ensures { out.new ≡ splice out.old 0 (bytes_at s.now at n) }
{
    bytes_to(s, at, n, out, 0);
}

// ---- blocks of a MACK section

// Bits of a block: 60/NMACK bytes.
#[tactic(auto, unfolding(rules::specs::Kroot::block_bits))]
pub fn block_bits(nmack: u64) -> u64
    ensures { result ≡ block_bits nmack }
{
    match nmack {
        3 => 160,
        2 => 240,
        _ => 480,
    }
}

// ---- numbers in a wider type

pub fn wide(x: u8) -> u64
    ensures { (result ≡ x) × (result < 256) }
{
    u64::from(x)
}

pub fn low(x: u32) -> u64
    ensures { (result ≡ x) × (result < 4294967296) }
{
    u64::from(x)
}

pub fn index(x: u8) -> usize
    ensures { (result ≡ x) × (result < 256) }
{
    usize::from(x)
}
