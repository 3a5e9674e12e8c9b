#![tactic(auto)]

// Tag and MACSEQ messages and their codes (000, 5.5 and 5.6; 01, "MACK"), by the function that the chain's MF names. A key is given as what `mac`
// keeps of it, made once for all tags of a slot. A code is compared by its first bits as a number; one proof serves every tag width.
// Public calls:
//   tag_matches   whether a tag matches a set under a key
//   macseq_fits   whether MACSEQ fits the flexible fields of a section
ghost use Rattle.std.specs.Prelude.{◌≡◌, cond, List, [], ℕ, ◌+◌, ◌*◌, ◌≤◌, ◌<◌, eqb, take};
ghost use Rattle.laws.specs.Lists.{splice};
ghost use Rattle.laws.specs.Bytes.{be2};
ghost use Rattle.mac.specs.Kept.{kept_of};
ghost use Rattle.rules.specs.Mack.{macseq_of};
ghost use Rattle.rules.specs.Tags.{mac_bits, first_message, tag_message, macseq_message, flexible};
ghost use Rattle.tags.specs.Layout.{Laid, section};

use mack::Cursor;
use regions::{COPY_LENGTH, Config};
use rules::{Chain, Tag};

// ---- tags

// A tag's message: PRN_N, then m0, which is the message of tag0.
fn tag_message(t: Tag, set: &[u8; COPY_LENGTH], out: &mut [u8; 76])
    ensures { out.new ≡ tag_message t set.now }
{
    let [w, x, y, z] = t.time.to_be_bytes();
    out[..7].copy_from_slice(&[t.prn, t.sender, w, x, y, z, t.position]);
    navdata::status_and_set(t.status, set, out, 7);
}

// The code of a tag's message, to the tag's width; tag0's message has no PRN_N.
fn tag_code(mf: u8, ms: u64, key: &[u8; 273], first: bool, message: &[u8; 76]) -> u64
    requires { ms ≤ 40 }
    ensures { (k : List ℕ) (t : Tag) (navdata : List ℕ) → key.now ≡ kept_of mf k → message.now ≡ tag_message t navdata →
        result ≡ mac_bits mf ms k (cond first (first_message t navdata) (tag_message t navdata)) }
{
    if first {
        mac::mac_bits(mf, ms as usize, key, &message[1..])
    } else {
        mac::mac_bits(mf, ms as usize, key, message)
    }
}

// The tag matches the set under the key; tag0 is the first field of a section.
pub fn tag_matches(
    mf: u8,
    ms: u64,
    key: &[u8; 273],
    first: bool,
    t: Tag,
    set: &[u8; COPY_LENGTH],
) -> bool
    requires { ms ≤ 40 }
    ensures { (k : List ℕ) → key.now ≡ kept_of mf k →
        result ≡ eqb (mac_bits mf ms k (cond first (first_message t set.now) (tag_message t set.now))) t.bits }
{
    let mut message = [0; 76];
    tag_message(t, set, &mut message);
    tag_code(mf, ms, key, first, &message) == t.bits
}

// ---- MACSEQ

// The MAC-Info of field j, where it is flexible, into `out` from place n. Gives the place after it.
fn put_info(config: &Config, time: u32, j: usize, info: u16, out: &mut [u8; 33], n: usize) -> usize
    requires { (j < 14) × (n + 2 ≤ 33) }
    ensures { (out.new ≡ splice out.old n (cond (flexible config.now time j) (be2 info) []))
        × (result ≡ n + cond (flexible config.now time j) 2 0) }
{
    if tags::flexible(config, time, j) {
        buffer::put_u16(out, n, info);
        n + 2
    } else {
        n
    }
}

// The MACSEQ message in the front of `out`, which is fixed memory. Gives its length. The fields are taken off in order.
fn macseq_message(
    config: &Config,
    c: Chain,
    prn: u8,
    time: u32,
    mack: &[u8; 60],
    out: &mut [u8; 33],
) -> usize
    requires { Laid c }
    ensures { (take result out.new ≡ macseq_message config.now c (section prn time 0 mack.now)
        (c.nmack * c.fields))
        × (result ≤ 33) }
{
    let count = (c.nmack * c.fields) as usize;
    let [w, x, y, z] = time.to_be_bytes();
    out[..5].copy_from_slice(&[prn, w, x, y, z]);
    let mut k = Cursor { used: 0 };
    let mut n = 5;
    for j in 0..count {
        let f = mack::next_field(c, mack, k, j);
        n = put_info(config, time, j, f.info, out, n);
        k = f.next;
    }
    n
}

// The first 12 bits of the code of the first n bytes.
fn macseq_code(mf: u8, key: &[u8; 273], message: &[u8; 33], n: usize) -> u64
    requires { n ≤ 33 }
    ensures { (k : List ℕ) → key.now ≡ kept_of mf k → result ≡ mac_bits mf 12 k (take n message.now) }
{
    mac::mac_bits(mf, 12, key, &message[..n])
}

// MACSEQ fits the flexible fields of the section, under the key of block 1's tags.
pub fn macseq_fits(
    config: &Config,
    c: Chain,
    prn: u8,
    time: u32,
    mack: &[u8; 60],
    key: &[u8; 273],
) -> bool
    requires { Laid c }
    ensures { (k : List ℕ) (status : ℕ) → key.now ≡ kept_of c.mf k →
        result ≡ eqb (mac_bits c.mf 12 k (macseq_message config.now c (section prn time status mack.now) (c.nmack * c.fields)))
        (macseq_of c mack.now) }
{
    let mut message = [0; 33];
    let n = macseq_message(config, c, prn, time, mack, &mut message);
    macseq_code(c.mf, key, &message, n) == mack::macseq_of(c, mack)
}
