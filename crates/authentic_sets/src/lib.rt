#![tactic(auto)]

// The authentic set of each satellite and the candidate beside it (01, "MACK"; 02, P4, "Forty bits before a yes").
// `sets` has 72 places of 69 bytes: the authentic sets, then the candidates. `arrivals` has for each place the stamp of its latest tag's arrival,
// its time plus 1, or 0 where there is none, and then for each satellite the tag bits that agree on its candidate.
// Public calls:
//   agree               a tag that agrees with its set: the set is authentic, or a candidate
//   clear_candidates    no satellite has a candidate
//   stamp_of, copy_set  a satellite's authentic set, for a read
ghost use Rattle.std.specs.Prelude.{◌≡◌, List, ℕ, ◌+◌, ◌-◌, ◌≤◌, ◌<◌, set};
ghost use Rattle.rules.specs.Calls.{auth_stamp, auth_set};
ghost use Rattle.rules.specs.Candidates.{summed, agreed, pair_at, candidates_cleared};
ghost use Rattle.rules.specs.Times.{stamp_of};
ghost use Rattle.authentic_sets.specs.Places.{holds_at, sets_entered, arrivals_entered, numbers_put, Agrees};
ghost use Rattle.authentic_sets.specs.Regions.{auth};
ghost use Rattle.authentic_sets.specs.Agreements.{agreement_number};

use regions::{Arrivals, COPY_LENGTH, Sets};
use rules::Tag;

// Where the candidates' places begin, and in `arrivals` their totals.
const CANDIDATES: usize = 36;

const TOTALS: usize = 72;

// The candidates' numbers in `arrivals`, stamps and totals.
const CANDIDATE_NUMBERS: usize = 72;

// "A set is called authentic at 40 bits"
const AUTHENTIC_BITS: u64 = 40;

// What a set is, with which a tag agrees.
#[derive(Clone, Copy, Debug, PartialEq, Eq)]
pub enum Agreement {
    // Forty tag bits agree on it, or it was authentic before.
    Authentic = 1,
    // Too few agree as yet.
    Candidate = 9,
}

impl Agreement {
    // The tag's outcome, for its record.
    pub fn number(self) -> u8
        ensures { result ≡ agreement_number self }
    {
        self as u8
    }
}

// ---- a place

// Whether there is a set at this place, and these are its bytes.
#[tactic(auto, using(laws::proofs::Splice::range_part), unfolding(crate::specs::Places::holds_at))]
fn holds(sets: &Sets, arrivals: &Arrivals, place: usize, set: &[u8; COPY_LENGTH]) -> bool
    requires { place < 72 }
    ensures { result ≡ holds_at sets.now arrivals.now place set.now }
{
    let a = place * COPY_LENGTH;
    arrivals[place] != 0 && buffer::equal(&sets[a..a + COPY_LENGTH], set)
}

// "Outcome 1 replaces the satellite's authentic set unless that set's tag came later."
#[tactic(auto, using(crate::proofs::Agreed::stamp_back), unfolding(crate::specs::Places::sets_entered, crate::specs::Places::arrivals_entered, rules::specs::Candidates::later_stamp))]
fn enter_set(
    sets: &mut Sets,
    arrivals: &mut Arrivals,
    prn: usize,
    stamp: u32,
    set: &[u8; COPY_LENGTH],
)
    requires { (1 ≤ prn) × (prn ≤ 36) }
    ensures { (sets.new ≡ sets_entered sets.old arrivals.old prn stamp set.now)
        × (arrivals.new ≡ arrivals_entered arrivals.old prn stamp) }
{
    if stamp < arrivals[prn - 1] {
        return;
    }
    buffer::copy_at(sets, (prn - 1) * COPY_LENGTH, set);
    arrivals[prn - 1] = stamp;
}

// The stamp of a candidate's latest tag, and its total.
#[tactic(auto, unfolding(crate::specs::Places::numbers_put))]
fn put_numbers(arrivals: &mut Arrivals, prn: usize, latest: u32, total: u32)
    requires { (1 ≤ prn) × (prn ≤ 36) }
    ensures { arrivals.new ≡ numbers_put arrivals.old prn latest total }
{
    let place = prn - 1;
    arrivals[CANDIDATES + place] = latest;
    arrivals[TOTALS + place] = total;
}

// ---- a tag that agrees

// Bits of a satellite that are not its authentic set's, with so many tag bits, the latest of this stamp: "A set is called authentic at 40 bits;
// until then a matching tag is outcome 9 and the set is only a candidate."
#[tactic(auto, using(crate::proofs::Agreed::forty, crate::proofs::Agreed::not_yet))]
fn sum(
    sets: &mut Sets,
    arrivals: &mut Arrivals,
    prn: usize,
    total: u64,
    latest: u32,
    set: &[u8; COPY_LENGTH],
) -> Agreement
    requires { (1 ≤ prn) × (prn ≤ 36) }
    ensures { Agrees (summed total latest set.now (pair_at sets.old arrivals.old prn)) prn
        sets.old arrivals.old sets.new arrivals.new (agreement_number result) }
{
    if AUTHENTIC_BITS <= total {
        enter_set(sets, arrivals, prn, latest, set);
        put_numbers(arrivals, prn, 0, 0);
        return Agreement::Authentic;
    }
    buffer::copy_at(sets, (CANDIDATES + (prn - 1)) * COPY_LENGTH, set);
    put_numbers(arrivals, prn, latest, total as u32);
    Agreement::Candidate
}

// A tag of `ms` bits agrees with this set of its satellite. Gives what the set is then.
#[tactic(auto, using(crate::proofs::Agreed::on_set_law, crate::proofs::Agreed::too_old, crate::proofs::Agreed::later_is), unfolding(rules::specs::Times::stamp_of))]
pub fn agree(
    sets: &mut Sets,
    arrivals: &mut Arrivals,
    ms: u64,
    t: Tag,
    set: &[u8; COPY_LENGTH],
) -> Agreement
    requires { (((1 ≤ t.prn) × (t.prn ≤ 36)) × (t.time < 4294967295)) × (ms ≤ 40) }
    ensures { Agrees (agreed ms (stamp_of t.time) set.now (pair_at sets.old arrivals.old t.prn)) t.prn
        sets.old arrivals.old sets.new arrivals.new (agreement_number result) }
{
    let prn = t.prn as usize;
    let stamp = t.time + 1;
    let place = prn - 1;
    if holds(sets, arrivals, place, set) {
        arrivals[place] = arrivals[place].max(stamp);
        return Agreement::Authentic;
    }
    let latest = arrivals[CANDIDATES + place];
    let total = u64::from(arrivals[TOTALS + place]) + ms; // whatever number stands there, the sum fits
    if holds(sets, arrivals, CANDIDATES + place, set) {
        return sum(sets, arrivals, prn, total, latest.max(stamp), set);
    }
    if stamp < latest {
        return Agreement::Candidate;
    }
    sum(sets, arrivals, prn, ms, stamp, set)
}

// "A new chain or a drop clears candidates.": the stamps of their latest tags and their totals.
pub fn clear_candidates(arrivals: &mut Arrivals)
    ensures { (sets : List ℕ) → auth sets arrivals.new ≡ candidates_cleared (auth sets arrivals.old) }
{
    arrivals[CANDIDATES..CANDIDATES + CANDIDATE_NUMBERS].fill(0);
}

// ---- reads

// The stamp of a satellite's authentic set.
#[tactic(auto, unfolding(rules::specs::Calls::auth_stamp))]
pub fn stamp_of(arrivals: &Arrivals, prn: usize) -> u32
    requires { (1 ≤ prn) × (prn ≤ 36) }
    ensures { (sets : List ℕ) → result ≡ auth_stamp (auth sets arrivals.now) prn }
{
    arrivals[prn - 1]
}

// A satellite's authentic set, copied to `out`.
#[tactic(auto, using(laws::proofs::Splice::length_part, laws::proofs::Splice::splice_whole), unfolding(rules::specs::Calls::auth_set))]
pub fn copy_set(sets: &Sets, prn: usize, out: &mut [u8; COPY_LENGTH])
    requires { (1 ≤ prn) × (prn ≤ 36) }
    ensures { (arrivals : List ℕ) → out.new ≡ auth_set (auth sets.now arrivals) prn }
{
    buffer::copy_part(out, 0, sets, (prn - 1) * COPY_LENGTH, 69);
}
