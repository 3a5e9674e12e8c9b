#![tactic(auto)]

// Outcomes of a section's own tags (01, "Tag outcomes"), and the key that they are judged by.
//   block_key, next_key   what is kept of the key of a block: all tags without delay of a block use one key, made once, from the nearest key that was
//                         met while the section's keys were proved
//   heard                 the satellite whose words count
//   outcome_of            the outcome of a field that came
ghost use Rattle.std.specs.Prelude.{◌≡◌, true, not, ◌&&◌, ◌+◌, ◌-◌, ◌/◌, ◌^◌, ◌≤◌, ◌<◌, eqb, ltb, take};
ghost use Rattle.mac.specs.Kept.{kept_of};
ghost use Rattle.rules.specs.Chain.{Held, held, key_of_slot};
ghost use Rattle.rules.specs.Outcomes.{outcome_number};
ghost use Rattle.rules.specs.State.{prn_valid};
ghost use Rattle.rules.specs.Tags.{not_allowed, flexible, tag_matches};
ghost use Rattle.rules.specs.Times.{delay_of};
ghost use Rattle.rules.specs.Navdata.{usable};
ghost use Rattle.chain.specs.Sound.{Walks, OnWay};
ghost use Rattle.navdata.specs.Pieces.{nav};
ghost use Rattle.section_outcomes.specs.Outcomes.{block_key, outcome_by};

use chain::Way;
use regions::{COPY_LENGTH, Config, Stamps, Words};
use rules::{Chain, Outcome, Tag};

// ---- keys

// What is kept of the key of slot m, from the held key, by way of the keys that were met below it.
fn slot_key(c: Chain, slot: u64, known: [u8; 32], way: Way, m: u64, kept: &mut [u8; 273])
    requires { (Walks c × (slot < 2 ^ 34)) × OnWay c (held slot (take c.width known)) way }
    ensures { kept.new ≡ kept_of c.mf (key_of_slot c (held slot (take c.width known)) m) }
{
    let mut key = known;
    chain::key_on_way(c, slot, way, m, &mut key);
    mac::keep(c.mf, &key[..c.width], kept);
}

// The same for the tags without delay of field j's block.
#[tactic(auto, using(crate::proofs::Keys::block_small), unfolding(crate::specs::Outcomes::block_key))]
pub fn block_key(
    c: Chain,
    slot: u64,
    known: [u8; 32],
    way: Way,
    time: u32,
    j: usize,
    kept: &mut [u8; 273],
)
    requires { (Walks c × ((slot < 2 ^ 34) × ((1 ≤ c.fields) × (j < 14)))) × OnWay c (held slot (take c.width known)) way }
    ensures { kept.new ≡ block_key c (held slot (take c.width known)) time (j / c.fields) }
{
    let fields = c.fields as usize;
    let block = (j / fields + 1) as u8;
    slot_key(
        c,
        slot,
        known,
        way,
        chain::key_slot(c, time, block, 0),
        kept,
    );
}

// The key of field j's block, in place of that of the field before it: a new one is made where a block begins.
pub fn next_key(
    c: Chain,
    slot: u64,
    known: [u8; 32],
    way: Way,
    time: u32,
    j: usize,
    kept: &mut [u8; 273],
)
    requires walks { (Walks c × ((slot < 2 ^ 34) × ((1 ≤ c.fields) × (j < 14)))) × OnWay c (held slot (take c.width known)) way }
    requires kept_value { kept.old ≡ block_key c (held slot (take c.width known)) time ((j - 1) / c.fields) }
    ensures { kept.new ≡ block_key c (held slot (take c.width known)) time (j / c.fields) }
{
    let fields = c.fields as usize;
    if j == 0 || j % fields != 0 {
        return;
    }
    block_key(c, slot, known, way, time, j, kept);
}

// ---- outcomes

// The PRN where it names a satellite, else 1.
#[tactic(auto, unfolding(rules::specs::State::prn_valid))]
pub fn heard(prn: u8) -> usize
    ensures { ((1 ≤ result) × (result ≤ 36)) × (prn_valid prn ≡ true → result ≡ prn) }
{
    match prn {
        1..=36 => prn as usize,
        _ => 1,
    }
}

// A tag without delay that matches the set under its block's key.
pub fn prompt_match(c: Chain, key: &[u8; 273], first: bool, t: Tag, set: &[u8; COPY_LENGTH]) -> bool
    requires { c.ms ≤ 40 }
    ensures { (h : Held) → key.now ≡ block_key c h t.time (t.block - 1) → 1 ≤ t.block →
        result ≡ (eqb (delay_of t.adkd) 0 && tag_matches c h first t set.now) }
{
    times::delay_of(t.adkd) == 0 && tag_codes::tag_matches(c.mf, c.ms, key, first, t, set)
}

// The outcome of field j, the tag t, by the words of satellite p and their set; `fits` says that MACSEQ fits.
pub fn outcome_of(
    config: &Config,
    words: &Words,
    stamps: &Stamps,
    c: Chain,
    key: &[u8; 273],
    fits: bool,
    j: usize,
    t: Tag,
    p: usize,
    set: &[u8; COPY_LENGTH],
    count: usize,
) -> Outcome
    requires ms_bound { ((c.ms ≤ 40) × (j < 14)) × ((1 ≤ p) × (p ≤ 36)) }
    ensures { (outcome_number result ≡ 5 → count < 256)
        × ((h : Held) → key.now ≡ block_key c h t.time (t.block - 1) → 1 ≤ t.block →
        outcome_number result ≡ outcome_by (not_allowed config.now j t) (flexible config.now t.time j && not fits)
        (not (usable (nav words.now stamps.now) p t.time))
        (eqb (delay_of t.adkd) 0 && tag_matches c h (eqb j 0) t set.now) (eqb (delay_of t.adkd) 0) (ltb count 256)) }
{
    let refused = tags::not_allowed(config, j, t);
    let unfit = tags::flexible(config, t.time, j) && !fits;
    let unusable = !navdata::usable(words, stamps, p, t.time);
    let prompt = times::delay_of(t.adkd) == 0;
    let matches = prompt_match(c, key, j == 0, t, set);
    tags::own_outcome(refused, unfit, unusable, prompt, matches, count < 256)
}
