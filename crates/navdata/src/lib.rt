#![tactic(auto)]

// I/NAV words and navigation sets (01, "A word is 16 bytes, type in bits 0 to 5 ..").
// `words` holds words 1 to 5 of 36 satellites, 16 bytes each; `stamps` holds the stamp of each word's sub-frame, its time plus 1, or 0
// where no word is held.
ghost use Rattle.std.specs.Prelude.{◌≡◌, List, ℕ, ◌+◌, ◌-◌, ◌*◌, ◌≤◌, ◌<◌, length};
ghost use Rattle.laws.specs.Lists.{splice};
ghost use Rattle.rules.specs.Tags.{status_and_set};
ghost use Rattle.rules.specs.Navdata.{word_type, svid_of, word_issue, word_place, word_at, word_stored, set_of, set_issue, word_came, came_before, one_issue};
ghost use Rattle.rules.specs.Navdata as rules;
ghost use Rattle.navdata.specs.Pieces.{nav};

use regions::{COPY_LENGTH, Stamps, Words};

// ---- words

// A word's type.
#[tactic(auto, unfolding(rules::specs::Navdata::word_type))]
pub fn word_type(w: &[u8; 16]) -> usize
    ensures { result ≡ word_type w.now }
{
    bitfields::bits_at(w, 0, 6) as usize
}

// The SVID of a word 4.
#[tactic(auto, unfolding(rules::specs::Navdata::svid_of))]
pub fn svid(w: &[u8; 16]) -> usize
    ensures { result ≡ svid_of w.now }
{
    bitfields::bits_at(w, 16, 6) as usize
}

// The place of a satellite's word of a type.
#[tactic(auto, unfolding(rules::specs::Navdata::word_place))]
fn word_place(prn: usize, kind: usize) -> usize
    requires { ((1 ≤ prn) × (prn ≤ 36)) × ((1 ≤ kind) × (kind ≤ 5)) }
    ensures { (result ≡ word_place prn kind) × (result < 180) }
{
    (prn - 1) * 5 + (kind - 1)
}

// A word takes its place, with the stamp of its sub-frame.
#[tactic(auto, unfolding(rules::specs::Navdata::word_stored))]
pub fn store_word(
    words: &mut Words,
    stamps: &mut Stamps,
    prn: usize,
    kind: usize,
    w: &[u8; 16],
    stamp: u32,
)
    requires { ((1 ≤ prn) × (prn ≤ 36)) × ((1 ≤ kind) × (kind ≤ 5)) }
    ensures { nav words.new stamps.new
        ≡ word_stored (nav words.old stamps.old) prn kind w.now stamp }
{
    let place = word_place(prn, kind);
    buffer::copy_at(words, place * 16, w);
    stamps[place] = stamp;
}

// ---- sets that can be used

// Bits 6 to 15 of a satellite's word: its IODnav in words 1 to 4.
#[tactic(auto, using(crate::proofs::Sets::bits_of_word), unfolding(rules::specs::Navdata::word_issue))]
fn word_issue(words: &Words, prn: usize, kind: usize) -> u64
    requires { ((1 ≤ prn) × (prn ≤ 36)) × ((1 ≤ kind) × (kind ≤ 5)) }
    ensures { result ≡ word_issue (word_at words.now prn kind) }
{
    bitfields::bits_at(words, (prn - 1) * 640 + ((kind - 1) * 128 + 6), 10)
}

// Words 1 to 4 have one IODnav.
#[tactic(auto, unfolding(rules::specs::Navdata::one_issue, rules::specs::Navdata::word_came))]
fn one_issue(words: &Words, prn: usize) -> bool
    requires { (1 ≤ prn) × (prn ≤ 36) }
    ensures { (stamps : List ℕ) →
        result ≡ one_issue (word_came (nav words.now stamps) prn 1) (word_came (nav words.now stamps) prn 2)
        (word_came (nav words.now stamps) prn 3) (word_came (nav words.now stamps) prn 4) }
{
    let issue = word_issue(words, prn, 1);
    let two = word_issue(words, prn, 2) == issue;
    let three = word_issue(words, prn, 3) == issue;
    let four = word_issue(words, prn, 4) == issue;
    two && three && four
}

// A word of the type is held, and came in an earlier sub-frame than t.
#[tactic(auto, unfolding(rules::specs::Navdata::came_before, rules::specs::Navdata::word_came))]
fn came_before(stamps: &Stamps, prn: usize, t: u32, kind: usize) -> bool
    requires { ((1 ≤ prn) × (prn ≤ 36)) × ((1 ≤ kind) × (kind ≤ 5)) }
    ensures { (words : List ℕ) → result ≡ came_before t (word_came (nav words stamps.now) prn kind) }
{
    let place = word_place(prn, kind);
    let stamp = stamps[place];
    1 <= stamp && stamp <= t
}

// A satellite's set can be used for a section of sub-frame t. The words are asked one by one, as in the definition: a loop would be no shorter.
#[tactic(auto, unfolding(rules::specs::Navdata::usable, rules::specs::Navdata::set_usable))]
pub fn usable(words: &Words, stamps: &Stamps, prn: usize, t: u32) -> bool
    requires { (1 ≤ prn) × (prn ≤ 36) }
    ensures { result ≡ rules.usable (nav words.now stamps.now) prn t }
{
    let one = came_before(stamps, prn, t, 1);
    let two = came_before(stamps, prn, t, 2);
    let three = came_before(stamps, prn, t, 3);
    let four = came_before(stamps, prn, t, 4);
    let five = came_before(stamps, prn, t, 5);
    one && two && three && four && five && one_issue(words, prn)
}

// ---- a set's bytes

// The IODnav of a set.
#[tactic(auto, using(rules::proofs::Bounds::bits_lt), unfolding(rules::specs::Navdata::set_issue))]
pub fn set_issue(set: &[u8; COPY_LENGTH]) -> u16
    ensures { result ≡ set_issue set.now }
{
    bitfields::bits_at(set, 0, 10) as u16
}

// The set of a satellite's held words into `out` from place `to`. `out` is a slice: the set is written at any place of a longer one.
#[tactic(auto, using(crate::proofs::Sets::set_of_five, laws::proofs::Splice::range_part))]
pub fn set_bytes(words: &Words, prn: usize, out: &mut [u8], to: usize)
    requires { ((1 ≤ prn) × (prn ≤ 36)) × (to + 69 ≤ length out.old) }
    ensures { out.new ≡ splice out.old to (set_of words.now prn) }
{
    let first = (prn - 1) * 80;
    let five = words[first..first + 80].as_array().unwrap();
    nav_sets::gather(five, out, to);
}

// The set of a satellite's held words.
pub fn set_of(words: &Words, prn: usize) -> [u8; COPY_LENGTH]
    requires { (1 ≤ prn) × (prn ≤ 36) }
    ensures { result ≡ set_of words.now prn }
{
    let mut set = [0u8; COPY_LENGTH];
    set_bytes(words, prn, &mut set, 0);
    set
}

// The NMA status and a set's 549 bits, and a zero bit, into `out` from place `to`, in one pass: eight bytes are the last two bits before them
// and the front of the eight that were read.
pub fn status_and_set(status: u8, set: &[u8; COPY_LENGTH], out: &mut [u8], to: usize)
    requires { to + 69 ≤ length out.old }
    ensures { out.new ≡ splice out.old to (status_and_set status set.now) }
{
    let mut before = u64::from(status);
    for k in 0..8 {
        let x = nav_sets::get_u64(set, 8 * k);
        nav_sets::put_u64(out, to + 8 * k, nav_sets::pair(before, 62, 2, x, 0));
        before = x;
    }
    let last = (before % 4) * 137438953472 + bitfields::bits_at(set, 512, 37);
    nav_sets::put_five(out, to + 64, last * 2);
}
