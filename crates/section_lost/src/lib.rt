#![tactic(auto)]

// Fields of a section that are lost (02, P3), by the marks of what came.
//   macseq_came    MACSEQ and the MAC-Info of every flexible field came
//   field_lost     a field has outcome 8 before any other
ghost use Rattle.std.specs.Prelude.{◌≡◌, not, ◌||◌, ◌*◌, ◌<◌};
ghost use Rattle.rules.specs.Received.{info_came, macseq_came, field_lost};
ghost use Rattle.rules.specs.Tags.{flexible};
ghost use Rattle.mack.specs.Layout.{KeysFit};
ghost use Rattle.tags.specs.Layout.{Laid};

use regions::Config;
use rules::Chain;
use tags::Section;

// Field j is fixed, or its MAC-Info came.
#[tactic(auto, using(received::proofs::Cases::item_came), unfolding(rules::specs::Received::info_came))]
pub fn flexible_came(config: &Config, c: Chain, x: Section<'_>, j: usize) -> bool
    requires { Laid c × (j < c.nmack * c.fields) }
    ensures { result ≡ (not (flexible config.now x.entry.time j) || info_came c x.entry.marks j) }
{
    if !tags::flexible(config, x.time, j) {
        return true;
    }
    let Some(_) = mack_items::info_item(c, x.mack, x.marks, j) else {
        return false;
    };
    true
}

// MACSEQ and the MAC-Info of every flexible field came.
pub fn macseq_came(config: &Config, c: Chain, x: Section<'_>) -> bool
    requires { Laid c }
    ensures { result ≡ macseq_came config.now c x.entry.time x.entry.marks }
{
    let Some(_) = mack_items::macseq_item(c, x.mack, x.marks) else {
        return false;
    };
    for j in 0..(c.nmack * c.fields) as usize {
        if !flexible_came(config, c, x, j) {
            return false;
        }
    }
    true
}

// Field j is lost: a bit of its block's key, of its tag, or of what says whose tag it is. `macseq` says that MACSEQ came.
pub fn field_lost(config: &Config, c: Chain, x: Section<'_>, macseq: bool, j: usize) -> bool
    requires { (Laid c × KeysFit c) × (j < c.nmack * c.fields) }
    ensures { macseq ≡ macseq_came config.now c x.entry.time x.entry.marks →
        result ≡ field_lost config.now c x.entry.time x.entry.marks j }
{
    let block = j as u64 / c.fields + 1;
    if !mack_items::key_came(c, x.marks, block) {
        return true;
    }
    let Some(_) = mack_items::tag_item(c, x.mack, x.marks, j) else {
        return true;
    };
    if tags::flexible(config, x.time, j) {
        return !macseq;
    }
    if j == 0 {
        return false;
    }
    let Some(_) = mack_items::info_item(c, x.mack, x.marks, j) else {
        return true;
    };
    false
}
