#![tactic(auto)]

// The section's own tags (01, "MACK", "Tag outcomes"): field by field, each gets its outcome, its record, and where it agrees with its set, the
// satellite's sets follow (02, P4); a tag whose key is still to come waits with a copy of its set. A field of which too much is lost has outcome 8
// before any other (02, P3). `judge_own` is the public call. The lent regions stay parameters of their own: C lends each by itself, and
// `Leaves` says of each what is left in it.
ghost use Rattle.std.specs.Prelude.{◌≡◌, ◌+◌, ◌*◌, ◌/◌, ◌^◌, ◌≤◌, ◌<◌, take};
ghost use Rattle.rules.specs.Chain.{Held, held};
ghost use Rattle.rules.specs.Outcomes.{outcome_number};
ghost use Rattle.rules.specs.Received.{macseq_came, field_judged, fields_judged};
ghost use Rattle.rules.specs.Tags.{macseq_fits, own_judged};
ghost use Rattle.chain.specs.Sound.{Walks, OnWay};
ghost use Rattle.mack.specs.Layout.{KeysFit};
ghost use Rattle.navdata.specs.Pieces.{nav};
ghost use Rattle.tags.specs.Layout.{Laid, section, section_of};
ghost use Rattle.tag_records.specs.Told.{start, Leaves};
ghost use Rattle.section_outcomes.specs.Outcomes.{block_key};
ghost use Rattle.section_tags.specs.Own.{settled, Grows};

use chain::Way;
use regions::{Area, Arrivals, COPY_LENGTH, Config, Sets, Stamps, Waiting, Words};
use rules::{Chain, Outcome, Tag};
use tags::Section;

// ---- the section's fields

// A tag of this outcome, after `count` that wait: its record goes to place `at`, and a tag that waits to the next place. Gives how many
// wait then.
fn settle(
    ms: u64,
    outcome: Outcome,
    t: Tag,
    set: &[u8; COPY_LENGTH],
    waiting: &mut Waiting,
    count: usize,
    sets: &mut Sets,
    arrivals: &mut Arrivals,
    area: &mut Area,
    at: usize,
) -> usize
    requires { ((at < 270) × ((count ≤ 256) × (outcome_number outcome ≡ 5 → count < 256))) × (ms ≤ 40) }
    ensures { Leaves (settled ms (outcome_number outcome) t set.now (start count sets.old arrivals.old)) count at
        waiting.old area.old waiting.new sets.new arrivals.new area.new result }
{
    let found = tags::outcome_number(outcome);
    tag_records::tell(ms, found, t, set, sets, arrivals, area, at * 12);
    match outcome {
        Outcome::Waits => {
            waiting_tags::put_entry(waiting, count, t, set);
            count + 1
        }
        _ => count,
    }
}

// Field j that is not lost, after `count` tags that wait: its record goes to place `at`. Gives how many tags wait then.
fn own_one(
    config: &Config,
    words: &Words,
    stamps: &Stamps,
    c: Chain,
    key: &[u8; 273],
    fits: bool,
    x: Section<'_>,
    j: usize,
    waiting: &mut Waiting,
    count: usize,
    sets: &mut Sets,
    arrivals: &mut Arrivals,
    area: &mut Area,
    at: usize,
) -> usize
    requires { (Laid c × (j < c.nmack * c.fields)) × ((count ≤ 256) × (at < 270)) }
    ensures { (h : Held) → key.now ≡ block_key c h x.entry.time (j / c.fields) →
        fits ≡ macseq_fits config.now c h (section_of x.entry) →
        Leaves
        (own_judged config.now (nav words.now stamps.now) c h (section_of x.entry) j
        (start count sets.old arrivals.old)) count at waiting.old area.old waiting.new
        sets.new arrivals.new area.new result }
{
    let t = x.own_tag(c, j);
    let p = section_outcomes::heard(t.prn);
    let set = navdata::set_of(words, p);
    let outcome = section_outcomes::outcome_of(
        config, words, stamps, c, key, fits, j, t, p, &set, count,
    );
    settle(
        c.ms, outcome, t, &set, waiting, count, sets, arrivals, area, at,
    )
}

// Field j, lost or not. `fits` says that MACSEQ fits, and `macseq` that it came.
fn field_one(
    config: &Config,
    words: &Words,
    stamps: &Stamps,
    c: Chain,
    key: &[u8; 273],
    fits: bool,
    macseq: bool,
    x: Section<'_>,
    j: usize,
    waiting: &mut Waiting,
    count: usize,
    sets: &mut Sets,
    arrivals: &mut Arrivals,
    area: &mut Area,
    at: usize,
) -> usize
    requires { ((Laid c × KeysFit c) × (j < c.nmack * c.fields)) × ((count ≤ 256) × (at < 270)) }
    ensures { (h : Held) → key.now ≡ block_key c h x.entry.time (j / c.fields) →
        fits ≡ macseq_fits config.now c h (section_of x.entry) →
        macseq ≡ macseq_came config.now c x.entry.time x.entry.marks →
        Leaves
        (field_judged config.now (nav words.now stamps.now) c h (section_of x.entry) x.entry.marks j
        (start count sets.old arrivals.old)) count at waiting.old area.old waiting.new
        sets.new arrivals.new area.new result }
{
    if section_lost::field_lost(config, c, x, macseq, j) {
        let t = x.lost_tag(c, j);
        return settle(
            c.ms,
            Outcome::Lost,
            t,
            &[0u8; COPY_LENGTH],
            waiting,
            count,
            sets,
            arrivals,
            area,
            at,
        );
    }
    own_one(
        config, words, stamps, c, key, fits, x, j, waiting, count, sets, arrivals, area, at,
    )
}

// The tags of a section of 60 bytes that satellite `prn` sent at `time`, of which the marked fields came, in order, under the held key of this
// slot and the keys that were met below it; `count` tags wait and `at` records stand in the area. What waits then takes the next places of
// `waiting`, the records follow in `area`, and the other bytes of both stay. Gives how many tags wait then.
pub fn judge_own(
    config: &Config,
    words: &Words,
    stamps: &Stamps,
    c: Chain,
    slot: u64,
    known: [u8; 32],
    way: Way,
    prn: u8,
    time: u32,
    status: u8,
    mack: &[u8; 60],
    marks: u16,
    waiting: &mut Waiting,
    count: usize,
    sets: &mut Sets,
    arrivals: &mut Arrivals,
    area: &mut Area,
    at: usize,
) -> usize
    requires { (Walks c × (Laid c × KeysFit c)) × (((slot < 2 ^ 34) × OnWay c (held slot (take c.width known)) way) × ((count ≤ 256) × (at + c.nmack * c.fields ≤ 270))) }
    ensures { Leaves
        (fields_judged config.now (nav words.now stamps.now) c (held slot (take c.width known))
        (section prn time status mack.now) marks (c.nmack * c.fields) (start count sets.old arrivals.old)) count at
        waiting.old area.old waiting.new sets.new arrivals.new area.new result
        × Grows
        (fields_judged config.now (nav words.now stamps.now) c (held slot (take c.width known))
        (section prn time status mack.now) marks (c.nmack * c.fields) (start count sets.old arrivals.old)) count
        (c.nmack * c.fields) result }
{
    let x = Section {
        prn,
        time,
        status,
        mack,
        marks,
    };
    let mut key = [0u8; 273];
    section_outcomes::block_key(c, slot, known, way, time, 0, &mut key);
    let macseq = section_lost::macseq_came(config, c, x);
    let fits = tag_codes::macseq_fits(config, c, prn, time, mack, &key);
    let mut kept = count;
    for j in 0..(c.nmack * c.fields) as usize {
        section_outcomes::next_key(c, slot, known, way, time, j, &mut key);
        kept = field_one(
            config,
            words,
            stamps,
            c,
            &key,
            fits,
            macseq,
            x,
            j,
            waiting,
            kept,
            sets,
            arrivals,
            area,
            at + j,
        );
    }
    kept
}
