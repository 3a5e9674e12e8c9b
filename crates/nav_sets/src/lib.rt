#![tactic(auto)]

// A navigation set's 69 bytes (01, "Authenticated are bits 6 to 125 of words 1, 2, 4, .."), gathered in one pass over its five words.
// The words are read in order, eight bytes at a time, and the set is written in order, eight bytes at a time: each byte of the words is
// read once and each byte of the set is written once. Eight bytes of the set are the end of one number that was read and the front of the next.
// Where each bit of a set comes from is the table of specs/Table.antt; `each_bit` carries in its contract that it is right.
// Public calls:
//   gather              the set of five words
//   pair                64 bits of two numbers
//   get_u64, put_u64    eight bytes as a number
//   put_five            five bytes of a number
ghost use Rattle.std.specs.Prelude.{◌≡◌, List, ℕ, ◌+◌, ◌*◌, ◌≤◌, ◌<◌, length};
ghost use Rattle.laws.specs.Lists.{part, splice};
ghost use Rattle.laws.specs.Bytes.{be8};
ghost use Rattle.rules.specs.Bits.{bits};
ghost use Rattle.rules.specs.Navdata.{set_bytes};
ghost use Rattle.nav_sets.specs.Pieces.{pair_of, piece_of, five_of};
ghost use Rattle.nav_sets.specs.Table.{EachBit};

// ---- eight bytes as a number: each of these is one instruction of the machine, or two

// The number in the eight bytes from place `at` on.
#[tactic(auto, using(crate::proofs::Bytes::bits_eight))]
pub fn get_u64(s: &[u8], at: usize) -> u64
    requires { at + 8 ≤ length s.now }
    ensures { result ≡ bits s.now (8 * at) 64 }
{
    u64::from_be_bytes([
        s[at],
        s[at + 1],
        s[at + 2],
        s[at + 3],
        s[at + 4],
        s[at + 5],
        s[at + 6],
        s[at + 7],
    ])
}

// A number as the eight bytes from place `to` on.
pub fn put_u64(out: &mut [u8], to: usize, x: u64)
    requires { to + 8 ≤ length out.old }
    ensures { out.new ≡ splice out.old to (be8 x) }
{
    out[to..to + 8].copy_from_slice(&x.to_be_bytes());
}

// A number of 40 bits as five bytes at a place.
pub fn put_five(out: &mut [u8], to: usize, x: u64)
    requires { to + 5 ≤ length out.old }
    ensures { out.new ≡ splice out.old to (five_of x) }
{
    out[to..to + 5].copy_from_slice(&x.to_be_bytes()[3..]);
}

// ---- a set

// The n bits of x from bit `from` on, then the bits of y from bit `to` on: 64 in all.
#[tactic(auto, using(crate::proofs::Shifts::pair_is))]
pub fn pair(x: u64, from: u64, n: u64, y: u64, to: u64) -> u64
    requires { ((1 ≤ n) × (n < 64)) × ((from + n ≤ 64) × (to ≤ n)) }
    ensures { (s : List ℕ) (a : ℕ) (u : List ℕ) (b : ℕ) → x ≡ bits s a 64 → y ≡ bits u b 64 → result ≡ pair_of s (a + from) n u (b + to) }
{
    (((x << from) >> (64 - n)) << (64 - n)) | ((y << to) >> n)
}

// Sixteen bytes of a set: of the word at place `at`, 64 bits from bit `from` on, then its next n bits and the first of the next word. `first` is
// the word's first half. Gives the next word's.
fn put_word(
    w: &[u8; 80],
    at: usize,
    first: u64,
    from: u64,
    n: u64,
    out: &mut [u8],
    to: usize,
) -> u64
    requires at_in_bounds { (at + 24 ≤ 80) × (to + 16 ≤ length out.old) }
    requires le_n { ((6 ≤ n) × (1 ≤ from)) × ((from + n ≤ 64) × (first ≡ bits w.now (8 * at) 64)) }
    ensures { (out.new ≡ splice out.old to (piece_of w.now (8 * at) from n))
        × (result ≡ bits w.now (8 * (at + 16)) 64) }
{
    let second = get_u64(w, at + 8);
    let next = get_u64(w, at + 16);
    put_u64(out, to, pair(first, from, 64 - from, second, 0));
    put_u64(out, to + 8, pair(second, from, n, next, 6));
    next
}

// The last five bytes of a set: bits 36 to 72 of word 5, whose first half is `first`, and three zero bits.
fn put_last(w: &[u8; 80], first: u64, out: &mut [u8], to: usize)
    requires { (first ≡ bits w.now 512 64) × (to + 5 ≤ length out.old) }
    ensures { out.new ≡ splice out.old to (five_of (bits w.now 548 37 * 8)) }
{
    let second = get_u64(w, 72);
    put_five(out, to, (pair(first, 36, 28, second, 0) >> 27) * 8);
}

// The set of five words, one after the other, into `out` from place `to`. Where a piece begins grows from word to word by six bits and by
// those that the word leaves out at its end: two, two, none, two. `out` is a slice: the set is written at any place of a longer one.
#[tactic(auto, using(crate::proofs::Gathered::set_spliced))]
pub fn gather(w: &[u8; 80], out: &mut [u8], to: usize)
    requires { to + 69 ≤ length out.old }
    ensures { out.new ≡ splice out.old to
        (set_bytes (part w.now 0 16) (part w.now 16 16) (part w.now 32 16) (part w.now 48 16)
        (part w.now 64 16)) }
{
    let one = get_u64(w, 0);
    let two = put_word(w, 0, one, 6, 56, out, to);
    let three = put_word(w, 16, two, 14, 48, out, to + 16);
    let four = put_word(w, 32, three, 22, 42, out, to + 32);
    let five = put_word(w, 48, four, 28, 34, out, to + 48);
    put_last(w, five, out, to + 64);
}

// Does nothing; that it is proved says that each bit of a set is the one that its row of the table names (02, P2).
pub fn each_bit()
    ensures { EachBit }
{}
