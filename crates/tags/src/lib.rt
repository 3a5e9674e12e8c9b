#![tactic(auto)]

// The tags of a MACK section, the marks that say which ADKD a field has, and outcomes (01, "MACK"; 000, 4). One proof serves every tag width.
// Public calls:
//   Section                              a section as it came: `own_tag`, a field as a tag; `lost_tag`, what the record of a lost one says
//   flexible, not_allowed                what a field's mark says
//   own_outcome, judged, outcome_number  what becomes of a tag
ghost use Rattle.std.specs.Prelude.{◌≡◌, true, cond, ◌&&◌, eqb, [], ◌∷◌, ◌*◌, ◌<◌};
ghost use Rattle.laws.specs.Refusal.{refuse, first_refusal};
ghost use Rattle.rules.specs.Bits.{any_of};
ghost use Rattle.rules.specs.Outcomes.{outcome_number};
ghost use Rattle.rules.specs.Received.{lost_tag};
ghost use Rattle.rules.specs.State.{mark_of, prn_valid};
ghost use Rattle.rules.specs.Tags.{own_tag, second_half, not_allowed};
ghost use Rattle.rules.specs.Tags as rules;
ghost use Rattle.tags.specs.Layout.{Laid, section_of};

use regions::Config;
use rules::{Chain, Outcome, Tag};

// ---- a field as a tag

// A MACK section: the satellite that sent it, GST_SF and NMA status, its bytes, and the marks of the fields that came.
#[derive(Clone, Copy)]
pub struct Section<'a> {
    pub prn: u8,
    pub time: u32,
    pub status: u8,
    pub mack: &'a [u8; 60],
    pub marks: u16,
}

impl<'a> Section<'a> {
    // Field j as a tag. Tag0 is the sender's own, ADKD 0.
    pub fn own_tag(self, c: Chain, j: usize) -> Tag
        requires { Laid c × (j < c.nmack * c.fields) }
        ensures { result ≡ own_tag c (section_of self.entry) j }
    {
        let fields = c.fields as usize;
        let field = mack::read_field(c, self.mack, j);
        let tag0 = Tag {
            sender: self.prn,
            prn: self.prn,
            adkd: 0,
            block: (j / fields + 1) as u8,
            position: (j % fields + 1) as u8,
            time: self.time,
            status: self.status,
            bits: field.tag,
        };
        if j == 0 {
            return tag0;
        }
        Tag {
            prn: (field.info / 256) as u8,
            adkd: (field.info / 16 % 16) as u8,
            ..tag0
        }
    }

    // What the record of outcome 8 says of field j: block and position as of any tag, PRN and ADKD as far as they came, 0 where a bit is lost. It has
    // no tag bits.
    pub fn lost_tag(self, c: Chain, j: usize) -> Tag
        requires { Laid c × (j < c.nmack * c.fields) }
        ensures { result ≡ lost_tag c (section_of self.entry) self.entry.marks j }
    {
        let whole = self.own_tag(c, j);
        let lost = Tag { bits: 0, ..whole };
        if j == 0 {
            return lost;
        }
        let prn = mack_items::prn_item(c, self.mack, self.marks, j).unwrap_or(0) as u8;
        let adkd = mack_items::adkd_item(c, self.mack, self.marks, j).unwrap_or(0) as u8;
        Tag { prn, adkd, ..lost }
    }
}

// ---- marks

// Second 30 of the minute.
#[tactic(auto, unfolding(rules::specs::Tags::second_half))]
fn second_half(time: u32) -> bool
    ensures { result ≡ second_half time }
{
    times::second_of(time) % 60 == 30
}

// The mark of field j.
#[tactic(auto, unfolding(rules::specs::State::mark_of))]
fn mark_of(config: &Config, half: bool, j: usize) -> u8
    requires { j < 14 }
    ensures { result ≡ mark_of config.now half j }
{
    if half { config[16 + j] } else { config[2 + j] }
}

// Field j has a flexible ADKD.
#[tactic(auto, unfolding(rules::specs::Tags::flexible))]
pub fn flexible(config: &Config, time: u32, j: usize) -> bool
    requires { j < 14 }
    ensures { result ≡ rules.flexible config.now time j }
{
    mark_of(config, second_half(time), j) == 255
}

// "ADKD 0, 11, 12"
fn known(adkd: u8) -> bool
    ensures { result ≡ any_of (eqb adkd 0 ∷ eqb adkd 11 ∷ eqb adkd 12 ∷ []) }
{
    matches!(adkd, 0 | 11 | 12)
}

// "PRN 1 to 36"
#[tactic(auto, unfolding(rules::specs::State::prn_valid))]
fn heard(prn: u8) -> bool
    ensures { result ≡ prn_valid prn }
{
    1 <= prn && prn <= 36
}

// "4 ADKD not 0, 11, 12, or not the fixed one, or PRN not 1 to 36"
#[tactic(auto, unfolding(rules::specs::Tags::not_allowed, rules::specs::Tags::flexible))]
pub fn not_allowed(config: &Config, j: usize, t: Tag) -> bool
    requires { j < 14 }
    ensures { result ≡ not_allowed config.now j t }
{
    let mark = mark_of(config, second_half(t.time), j);
    !known(t.adkd) || !heard(t.prn) || mark != 255 && t.adkd != mark
}

// ---- outcomes

// What becomes of a tag whose key is known.
pub fn judged(matches: bool) -> Outcome
    ensures { outcome_number result ≡ cond matches 1 2 }
{
    if matches {
        Outcome::Agrees
    } else {
        Outcome::Wrong
    }
}

// What becomes of a field's tag, by the first test that holds: it is not allowed, it is flexible and MACSEQ fails, there is no usable
// set, its key is known (and it matches or not), a place is free. Six tests and no value to match on: a chain of `if` is the plain form.
pub fn own_outcome(
    refused: bool,
    unfit: bool,
    unusable: bool,
    prompt: bool,
    matches: bool,
    free: bool,
) -> Outcome
    ensures { outcome_number result ≡ first_refusal
        (refuse refused 4 ∷ refuse unfit 6 ∷ refuse unusable 3 ∷ refuse (prompt && matches) 1 ∷ refuse prompt 2 ∷ refuse free 5 ∷ refuse true 7 ∷
        []) }
{
    if refused {
        Outcome::NotAllowed
    } else if unfit {
        Outcome::SequenceUnfit
    } else if unusable {
        Outcome::NoUsableSet
    } else if prompt {
        judged(matches)
    } else if free {
        Outcome::Waits
    } else {
        Outcome::NoPlace
    }
}

// The outcome's number in a record.
pub fn outcome_number(o: Outcome) -> u8
    ensures { result ≡ outcome_number o }
{
    match o {
        Outcome::Agrees => 1,
        Outcome::Wrong => 2,
        Outcome::NoUsableSet => 3,
        Outcome::NotAllowed => 4,
        Outcome::Waits => 5,
        Outcome::SequenceUnfit => 6,
        Outcome::NoPlace => 7,
        Outcome::Lost => 8,
    }
}
