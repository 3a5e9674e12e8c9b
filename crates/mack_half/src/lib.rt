#![tactic(auto)]

// The MACK half of a sub-frame (01, "MACK"; "section 11, then block by block 13, 12"; 02, P3: 17 before 11): the section is refused, or its keys
// are proved and its tags judged: those that waited and are due, then its own.
//   mack_half      the half, over the regions that it touches
//   judge_tags     the waiting tags that are due, then the section's own
ghost use Rattle.std.specs.Prelude.{◌≡◌, true, false, [], ◌∷◌, ◌*◌, ◌^◌, ◌≤◌, ◌<◌, length, take};
ghost use Rattle.rules.specs.Bits.{filled};
ghost use Rattle.rules.specs.Calls.{section_unfit, mack_half};
ghost use Rattle.rules.specs.Chain.{held};
ghost use Rattle.rules.specs.Kroot.{in_force};
ghost use Rattle.rules.specs.Refusals.{answer_number};
ghost use Rattle.rules.specs.Received.{field_came, keys_received, fields_judged};
ghost use Rattle.rules.specs.State.{State};
ghost use Rattle.rules.specs.Tags.{dues_judged};
ghost use Rattle.authentic_sets.specs.Regions.{auth};
ghost use Rattle.chain.specs.Sound.{Sound, OnWay};
ghost use Rattle.navdata.specs.Pieces.{nav};
ghost use Rattle.tag_records.specs.Told.{start, Leaves};
ghost use Rattle.tags.specs.Layout.{Laid, section_of};
ghost use Rattle.mack_keys.specs.Keys.{Hands};
ghost use Rattle.mack_half.specs.Half.{tesla, judging, records_written, Gives, WalkedOnce};

use chain::Way;
use mack_keys::Keys;
use regions::{
    Area, Arrivals, ChainInForce, Config, HeldKey, Numbers, Sets, Stamps, Waiting, Words,
};
use rules::{Chain, Refusal};
use tags::Section;

// ---- the held key

// The held key in its first bytes, zeros after it.
fn held_key(heldkey: &HeldKey, width: usize) -> [u8; 32]
    requires { width ≤ 32 }
    ensures { result ≡ filled 32 (take width heldkey.now) }
{
    let mut key = [0u8; 32];
    buffer::copy_part(&mut key, 0, heldkey, 0, width);
    key
}

// The held key, its slot and the count of waiting tags are these.
fn hold(numbers: &mut Numbers, heldkey: &mut HeldKey, slot: u64, kept: usize, key: [u8; 32])
    ensures { (numbers.new ≡ slot ∷ kept ∷ []) × (heldkey.new ≡ key) }
{
    numbers[0] = slot;
    numbers[1] = kept as u64;
    buffer::copy_at(heldkey, 0, &key);
}

// Checks the keys of a section of 60 bytes, as far as they came, against the held key of this slot, in `key`, and keeps keys on the way: block 1's
// own, and one of the first n waiting tags' where the way up to the section's last key is long, else the one that the last block's tags use. After a
// long way up no tag that falls due has its slot above the kept key's, so that the way is not walked again; after a short one, or none, the section's
// own way is not.
fn prove_keys(
    c: Chain,
    time: u32,
    prn: u8,
    mack: &[u8; 60],
    marks: u16,
    slot: u64,
    waiting: &Waiting,
    n: usize,
    key: &mut [u8; 32],
) -> Keys
    requires { Sound c × ((slot < 2 ^ 34) × (n ≤ 256)) }
    ensures { Hands (keys_received c time prn mack.now marks (held slot (take c.width key.old)) c.nmack)
        (answer_number result.judged) result.slot key.old key.new
        × ((result.slot < 2 ^ 34)
        × (OnWay c (held result.slot (take c.width key.new)) result.way
        × WalkedOnce c waiting.now n slot time prn marks (answer_number result.judged) result.slot result.way)) }
{
    let last = chain::sent_slot(c, time, c.nmack, prn);
    let own = chain::key_slot(c, time, c.nmack as u8, 0);
    let via = due_tag_keys::slot_to_keep(c, slot, last, own, waiting, n);
    mack_keys::keys_proved(c, time, prn, mack, marks, slot, via, key)
}

// ---- tags

// How many tags wait after a section, and how many records it wrote.
#[derive(Clone, Copy)]
pub struct Judged {
    pub kept: usize,
    pub records: usize,
}

// The first n waiting tags that are due under the held key of this slot (`way` has keys on the way down from it), then the tags of the section that
// was sent. Records stand one after the other at the front of `area`, and the tags that wait at the front of `waiting`; other bytes stay.
fn judge_tags(
    config: &Config,
    words: &Words,
    stamps: &Stamps,
    c: Chain,
    slot: u64,
    key: [u8; 32],
    way: Way,
    sent: Section<'_>,
    waiting: &mut Waiting,
    n: usize,
    sets: &mut Sets,
    arrivals: &mut Arrivals,
    area: &mut Area,
) -> Judged
    requires { ((Sound c × Laid c) × ((slot < 2 ^ 34) × (n ≤ 256))) × OnWay c (held slot (take c.width key)) way }
    ensures { Leaves
        (fields_judged config.now (nav words.now stamps.now) c (held slot (take c.width key))
        (section_of sent.entry) sent.entry.marks (c.nmack * c.fields)
        (dues_judged c (held slot (take c.width key)) waiting.old n (start 0 sets.old arrivals.old))) 0 0
        waiting.old area.old waiting.new sets.new arrivals.new area.new result.kept
        × ((length
        (fields_judged config.now (nav words.now stamps.now) c (held slot (take c.width key))
        (section_of sent.entry) sent.entry.marks (c.nmack * c.fields)
        (dues_judged c (held slot (take c.width key)) waiting.old n (start 0 sets.old arrivals.old))).records
        ≡ result.records * 12)
        × (result.records ≤ 270)) }
{
    let stay = due_tags::judge_due(
        c, slot, key, way.near, way.met, waiting, n, sets, arrivals, area,
    );
    let told = n - stay;
    let fields = (c.nmack * c.fields) as usize;
    let kept = section_tags::judge_own(
        config,
        words,
        stamps,
        c,
        slot,
        key,
        way,
        sent.prn,
        sent.time,
        sent.status,
        sent.mack,
        sent.marks,
        waiting,
        stay,
        sets,
        arrivals,
        area,
        told,
    );
    Judged {
        kept,
        records: told + fields,
    }
}

// ---- the half

// A section that neither 17 nor row 11 refuses: its keys are proved, then tags are judged, and the highest key proved is held.
fn judge_section(
    config: &Config,
    words: &Words,
    stamps: &Stamps,
    chain: &ChainInForce,
    numbers: &mut Numbers,
    heldkey: &mut HeldKey,
    waiting: &mut Waiting,
    sets: &mut Sets,
    arrivals: &mut Arrivals,
    area: &mut Area,
    prn: u8,
    time: u32,
    marks: u16,
    header: u8,
    mack: &[u8; 60],
) -> Result<usize, Refusal>
    requires { in_force config.now chain.now ≡ true }
    ensures { ((s : State) → s.config ≡ config.now → s.nav ≡ nav words.now stamps.now → s.chain ≡ chain.now →
        s.tesla ≡ tesla numbers.old heldkey.old waiting.old →
        s.auth ≡ auth sets.old arrivals.old → field_came marks 0 ≡ true → section_unfit s time header ≡ false →
        Gives (mack_half s prn time marks header mack.now) (answer_number result) (records_written result)
        (judging s (tesla numbers.new heldkey.new waiting.new) (auth sets.new arrivals.new))
        area.old area.new)
        × (records_written result ≤ 270) }
{
    let c = section_checks::chain_of(config, chain);
    let slot = regions::held_slot(numbers);
    let n = regions::waiting_count(numbers);
    let mut key = held_key(heldkey, c.width);
    let p = prove_keys(c, time, prn, mack, marks, slot, waiting, n, &mut key);
    p.judged?;
    let sent = Section {
        prn,
        time,
        status: gather::status_of(header),
        mack,
        marks,
    };
    let w = judge_tags(
        config, words, stamps, c, p.slot, key, p.way, sent, waiting, n, sets, arrivals, area,
    );
    hold(numbers, heldkey, p.slot, w.kept, key);
    Ok(w.records)
}

// The MACK section of a sub-frame, 60 bytes, that satellite `prn` sent at `time` with this NMA header, and the marks of the fields that came.
// Records stand one after the other at the front of `area`; the other bytes stay. Gives how many were written.
// The regions come one by one, as C lends them, and the section as `call_subframe` has it.
pub fn mack_half(
    config: &Config,
    words: &Words,
    stamps: &Stamps,
    chain: &ChainInForce,
    numbers: &mut Numbers,
    heldkey: &mut HeldKey,
    waiting: &mut Waiting,
    sets: &mut Sets,
    arrivals: &mut Arrivals,
    area: &mut Area,
    prn: u8,
    time: u32,
    marks: u16,
    header: u8,
    mack: &[u8; 60],
) -> Result<usize, Refusal>
    ensures { ((s : State) → s.config ≡ config.now → s.nav ≡ nav words.now stamps.now → s.chain ≡ chain.now →
        s.tesla ≡ tesla numbers.old heldkey.old waiting.old →
        s.auth ≡ auth sets.old arrivals.old →
        Gives (mack_half s prn time marks header mack.now) (answer_number result) (records_written result)
        (judging s (tesla numbers.new heldkey.new waiting.new) (auth sets.new arrivals.new))
        area.old area.new)
        × (records_written result ≤ 270) }
{
    if !received::field_came(marks, 0) {
        return Err(Refusal::FieldsMissing);
    }
    if section_checks::section_unfit(config, chain, time, header) {
        return Err(Refusal::NotInForce);
    }
    judge_section(
        config, words, stamps, chain, numbers, heldkey, waiting, sets, arrivals, area, prn, time,
        marks, header, mack,
    )
}
