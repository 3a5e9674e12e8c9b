#![tactic(auto)]

// The sweep of the waiting tags (01, "MACK": "Due tags are judged in arrival order before the section's own, and free their places").
// A tag that is due gets its record, and where it agrees with its set, the satellite's sets follow (02, P4); the others close up, in order.
// `judge_due` is the public call: keys, outcomes, records, sets and places.
ghost use Rattle.std.specs.Prelude.{◌+◌, ◌-◌, ◌*◌, ◌^◌, ◌≤◌, ◌<◌, take};
ghost use Rattle.rules.specs.Chain.{held};
ghost use Rattle.rules.specs.Outcomes.{outcome_number};
ghost use Rattle.rules.specs.Tags.{entry_at, entry_tag, entry_set, told, dues_judged};
ghost use Rattle.rules.specs.State.{area_length};
ghost use Rattle.chain.specs.Sound.{Sound, Met};
ghost use Rattle.tag_records.specs.Told.{start, Tells, Leaves, Counts};
ghost use Rattle.due_tag_keys.specs.Outcomes.{due_number};
ghost use Rattle.due_tags.specs.Swept.{swept_one, swept};

use regions::{Area, Arrivals, Sets, Waiting};
use rules::{Chain, Outcome};

// ---- a tag that is due

// The record and the set of the tag of entry k, with the copy of its set.
fn tell_entry(
    ms: u64,
    outcome: Outcome,
    waiting: &Waiting,
    k: usize,
    sets: &mut Sets,
    arrivals: &mut Arrivals,
    area: &mut Area,
    at: usize,
)
    requires { (k < 256) × ((at + 12 ≤ area_length) × (ms ≤ 40)) }
    ensures { Tells
        (told ms (outcome_number outcome) (entry_tag (entry_at waiting.now k)) (entry_set (entry_at waiting.now k))
        (start 0 sets.old arrivals.old)) at area.old sets.new arrivals.new area.new }
{
    let t = waiting_tags::entry_tag(waiting, k);
    let mut set = [0u8; regions::COPY_LENGTH];
    waiting_tags::copy_set(waiting, k, &mut set);
    let found = tags::outcome_number(outcome);
    tag_records::tell(ms, found, t, &set, sets, arrivals, area, at);
}

// ---- arrival order

// Entry k, of this outcome, after `kept` that stay: it closes up, or it gets its record. Gives how many stay then.
fn sweep_one(
    ms: u64,
    outcome: Outcome,
    waiting: &mut Waiting,
    k: usize,
    kept: usize,
    sets: &mut Sets,
    arrivals: &mut Arrivals,
    area: &mut Area,
) -> usize
    requires { (kept ≤ k) × ((k < 256) × (ms ≤ 40)) }
    ensures { Leaves (swept_one ms (due_number outcome) (entry_at waiting.old k) (start kept sets.old arrivals.old)) kept
        (k - kept) waiting.old area.old waiting.new sets.new arrivals.new area.new result }
{
    match outcome {
        Outcome::Waits => {
            waiting_tags::move_entry(waiting, k, kept);
            kept + 1
        }
        found => {
            tell_entry(ms, found, waiting, k, sets, arrivals, area, (k - kept) * 12);
            kept
        }
    }
}

// The first n entries, of these outcomes. Gives how many stay.
fn sweep(
    ms: u64,
    outcomes: &[Outcome; 256],
    waiting: &mut Waiting,
    n: usize,
    sets: &mut Sets,
    arrivals: &mut Arrivals,
    area: &mut Area,
) -> usize
    requires { (n ≤ 256) × (ms ≤ 40) }
    ensures { Leaves (swept ms outcomes.now waiting.old n (start 0 sets.old arrivals.old)) 0 0
        waiting.old area.old waiting.new sets.new arrivals.new area.new result
        × Counts (swept ms outcomes.now waiting.old n (start 0 sets.old arrivals.old)) n result }
{
    let mut kept: usize = 0;
    for k in 0..n {
        let outcome = outcomes[k];
        kept = sweep_one(ms, outcome, waiting, k, kept, sets, arrivals, area);
    }
    kept
}

// The first n waiting tags at a held key of this slot, in arrival order; `met` is the key of slot `near` on the way down from it. The entries that
// stay close up at the front of `waiting`, the records come one after the other at the front of `area`, and the bytes past both stay. Gives how many
// stay; each other has a record.
pub fn judge_due(
    c: Chain,
    slot: u64,
    known: [u8; 32],
    near: u64,
    met: [u8; 32],
    waiting: &mut Waiting,
    n: usize,
    sets: &mut Sets,
    arrivals: &mut Arrivals,
    area: &mut Area,
) -> usize
    requires { (Sound c × ((slot < 2 ^ 34) × (n ≤ 256))) × Met c (held slot (take c.width known)) near met }
    ensures { Leaves
        (dues_judged c (held slot (take c.width known)) waiting.old n (start 0 sets.old arrivals.old)) 0 0
        waiting.old area.old waiting.new sets.new arrivals.new area.new result
        × Counts (dues_judged c (held slot (take c.width known)) waiting.old n (start 0 sets.old arrivals.old)) n
        result }
{
    let outcomes = due_tag_keys::outcomes(c, slot, known, near, met, waiting, n);
    sweep(c.ms, &outcomes, waiting, n, sets, arrivals, area)
}
