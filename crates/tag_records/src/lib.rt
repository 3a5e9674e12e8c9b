#![tactic(auto)]

// Tag records, and what a tag does beside its record (01, "A tag record has 12 bytes"; 02, P4, "Forty bits before a yes"). Due tags and the
// section's own tags alike end here.
// Public calls:
//   tell                       a tag that was found to agree with its set, or to have another outcome: its satellite's sets, and its record
//   record_issue, put_record   the parts of a record
ghost use Rattle.std.specs.Prelude.{◌≡◌, true, ◌+◌, ◌≤◌, ◌<◌, length};
ghost use Rattle.laws.specs.Lists.{splice};
ghost use Rattle.rules.specs.Tags.{names_satellite, tag_record, record_issue, told};
ghost use Rattle.tag_records.specs.Told.{start, Finds, Tells};

use authentic_sets::Agreement;
use regions::{Arrivals, COPY_LENGTH, Sets};
use rules::Tag;

// ---- the outcome

// Whether a tag names a satellite and a time.
fn names_satellite(t: Tag) -> bool
    ensures { (result ≡ names_satellite t) × (result ≡ true → ((1 ≤ t.prn) × (t.prn ≤ 36)) × (t.time < 4294967295)) }
{
    1 <= t.prn && t.prn <= 36 && times::time_valid(t.time)
}

// The number of a record's outcome, of a tag of `ms` bits that was found to be this, after its satellite's sets have what it leaves there. 1 says that it
// agrees with its set, another number is its outcome: a number and no `Outcome`, since `tell` takes any byte.
fn record_outcome(
    ms: u64,
    found: u8,
    t: Tag,
    set: &[u8; COPY_LENGTH],
    sets: &mut Sets,
    arrivals: &mut Arrivals,
) -> u8
    requires { ms ≤ 40 }
    ensures { Finds (told ms found t set.now (start 0 sets.old arrivals.old)) t set.now
        sets.new arrivals.new result }
{
    if found != 1 {
        return found;
    }
    if !names_satellite(t) {
        return Agreement::Candidate.number();
    }
    authentic_sets::agree(sets, arrivals, ms, t, set).number()
}

// A tag of `ms` bits and what it was found to be: its record goes to place `at` of the area, and where it agrees, its satellite's sets follow.
// The area stays a slice here and in `put_record`: their clause asks of any length that the record fits.
pub fn tell(
    ms: u64,
    found: u8,
    t: Tag,
    set: &[u8; COPY_LENGTH],
    sets: &mut Sets,
    arrivals: &mut Arrivals,
    area: &mut [u8],
    at: usize,
)
    requires { (at + 12 ≤ length area.old) × (ms ≤ 40) }
    ensures { Tells (told ms found t set.now (start 0 sets.old arrivals.old)) at area.old
        sets.new arrivals.new area.new }
{
    let outcome = record_outcome(ms, found, t, set, sets, arrivals);
    let issue = record_issue(outcome, set);
    put_record(area, at, outcome, t, issue);
}

// ---- the record

// The IODnav of a record: that of the set, or 0 for outcomes 3, 4, 6 and 8. The outcome is the record's number: 9 (02, P4) is no `Outcome`.
#[tactic(auto, unfolding(rules::specs::Tags::record_issue))]
pub fn record_issue(outcome: u8, set: &[u8; COPY_LENGTH]) -> u16
    ensures { result ≡ record_issue outcome set.now }
{
    match outcome {
        3 | 4 | 6 | 8 => 0,
        _ => navdata::set_issue(set),
    }
}

// A tag's record into the area, 12 bytes from place `at`.
pub fn put_record(area: &mut [u8], at: usize, outcome: u8, t: Tag, issue: u16)
    requires { at + 12 ≤ length area.old }
    ensures { area.new ≡ splice area.old at (tag_record outcome t issue) }
{
    let issue = issue.to_be_bytes();
    let time = t.time.to_be_bytes();
    let bytes = [
        outcome, t.sender, t.prn, t.adkd, t.block, t.position, issue[0], issue[1], time[0],
        time[1], time[2], time[3],
    ];
    buffer::copy_at(area, at, &bytes);
}
