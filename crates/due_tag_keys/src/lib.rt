#![tactic(auto)]

// What becomes of the waiting tags that are due (01, "MACK": "A waiting tag is due once the held slot reaches its key's slot").
// The keys of due tags are taken on one way down the chain, in falling slot order: each step of the chain is done at most once, however many
// tags are due. The way begins at the held key, or below it at a key that was met while the held one was proved.
// Public calls:
//   outcomes       one outcome for each entry
//   slot_to_keep   the slot whose key is worth keeping while a key is proved
ghost use Rattle.std.specs.Prelude.{◌≡◌, cond, ◌⊎◌, ℕ, ◌+◌, ◌^◌, ◌≤◌, ◌<◌, eqb, take};
ghost use Rattle.mac.specs.Kept.{kept_of};
ghost use Rattle.rules.specs.Chain.{Held, held, key_of_slot};
ghost use Rattle.rules.specs.Tags.{entry_at};
ghost use Rattle.rules.specs.declared.Chain.{Chain};
ghost use Rattle.chain.specs.Sound.{Walks, Met};
ghost use Rattle.due_tag_keys.specs.Outcomes.{entry_slot, TagOfSlot, due_number, match_outcome, Outcomes, JudgedAt};

use regions::Waiting;
use rules::{Chain, Outcome};

// Steps of a way that are sooner walked again than the waiting tags are looked through.
const SHORT_WAY: u64 = 256;

// ---- slots

// The slot of the key of entry k's tag.
fn entry_slot(c: Chain, waiting: &Waiting, k: usize) -> u64
    requires { Walks c × (k < 256) }
    ensures { result ≡ entry_slot c (entry_at waiting.now k) }
{
    let t = waiting_tags::entry_tag(waiting, k);
    chain::key_slot(c, t.time, t.block, t.adkd)
}

// The higher of a slot and the best so far, if it is below the bound.
fn higher(best: u64, slot: u64, below: u64) -> u64
    requires { best < below }
    ensures { (result < below) × ((best ≤ result) × ((slot < below → slot ≤ result) × ((result ≡ best) ⊎ (result ≡ slot)))) }
{
    if slot < below { best.max(slot) } else { best }
}

// The highest slot of the first n entries that is below the bound, or 0.
fn next_below(c: Chain, waiting: &Waiting, n: usize, below: u64) -> u64
    requires { (Walks c × (1 ≤ below)) × (n ≤ 256) }
    ensures { (result < below)
        × (((k : ℕ) → k < n → entry_slot c (entry_at waiting.now k) < below → entry_slot c (entry_at waiting.now k) ≤ result)
        × ((result ≡ 0) ⊎ TagOfSlot c waiting.now n result)) }
{
    let mut best: u64 = 0;
    for k in 0..n {
        best = higher(best, entry_slot(c, waiting, k), below);
    }
    best
}

// The slot whose key is worth keeping on the way between a key of slot `last` and the one of slot `slot`. Where the way up is short it is `own`. Where it
// is long it is one at or below `last`, 0 or a waiting tag's, above which no tag that falls due has its slot. Any slot serves, and changes no answer.
pub fn slot_to_keep(c: Chain, slot: u64, last: u64, own: u64, waiting: &Waiting, n: usize) -> u64
    requires { (Walks c × ((slot < 2 ^ 34) × (last < 2 ^ 34))) × (n ≤ 256) }
    ensures { (last ≤ slot + 256 → result ≡ own)
        × (slot + 256 < last →
        (result ≤ last)
        × (((k : ℕ) → k < n → entry_slot c (entry_at waiting.now k) ≤ last → entry_slot c (entry_at waiting.now k) ≤ result)
        × ((result ≡ 0) ⊎ TagOfSlot c waiting.now n result))) }
{
    if last <= slot + SHORT_WAY {
        return own;
    }
    next_below(c, waiting, n, last + 1)
}

// ---- the tags of one slot

// The outcome of entry k's tag under the key of its slot.
fn judge_entry(c: Chain, key: &[u8; 273], waiting: &Waiting, k: usize) -> Outcome
    requires { (c.ms ≤ 40) × (k < 256) }
    ensures { (h : Held) → key.now ≡ kept_of c.mf (key_of_slot c h (entry_slot c (entry_at waiting.now k))) →
        due_number result ≡ match_outcome c h (entry_at waiting.now k) }
{
    let t = waiting_tags::entry_tag(waiting, k);
    let mut set = [0u8; regions::COPY_LENGTH];
    waiting_tags::copy_set(waiting, k, &mut set);
    let matches = tag_codes::tag_matches(c.mf, c.ms, key, false, t, &set);
    tags::judged(matches)
}

// The outcome of entry k once the tags of slot m are judged: where its slot is another, the one it had.
fn outcome_at(
    c: Chain,
    key: &[u8; 273],
    m: u64,
    waiting: &Waiting,
    k: usize,
    old: Outcome,
) -> Outcome
    requires { (Walks c × (c.ms ≤ 40)) × (k < 256) }
    ensures { (h : Held) → key.now ≡ kept_of c.mf (key_of_slot c h m) →
        due_number result
        ≡ cond (eqb (entry_slot c (entry_at waiting.now k)) m) (match_outcome c h (entry_at waiting.now k)) (due_number old) }
{
    if entry_slot(c, waiting, k) != m {
        return old;
    }
    judge_entry(c, key, waiting, k)
}

// The outcomes of the tags of slot m among the first n entries.
fn judge_slot(
    c: Chain,
    key: &[u8; 273],
    m: u64,
    waiting: &Waiting,
    n: usize,
    outcomes: &mut [Outcome; 256],
)
    requires { (Walks c × (c.ms ≤ 40)) × (n ≤ 256) }
    ensures { (h : Held) → key.now ≡ kept_of c.mf (key_of_slot c h m) →
        JudgedAt c h waiting.now n m outcomes.old outcomes.new }
{
    for k in 0..n {
        outcomes[k] = outcome_at(c, key, m, waiting, k, outcomes[k]);
    }
}

// ---- the way down

// What is kept of a key, the first `width` bytes.
fn keep_key(mf: u8, key: &[u8; 32], width: usize, kept: &mut [u8; 273])
    requires { width ≤ 32 }
    ensures { kept.new ≡ kept_of mf (take width key.now) }
{
    mac::keep(mf, &key[0..width], kept);
}

// From the key of slot `at` down to that of slot m, and the outcomes of its tags.
fn judge_down(
    c: Chain,
    at: u64,
    m: u64,
    key: &mut [u8; 32],
    waiting: &Waiting,
    n: usize,
    outcomes: &mut [Outcome; 256],
)
    requires { (Walks c × (c.ms ≤ 40)) × ((n ≤ 256) × ((m ≤ at) × (at ≤ 2 ^ 34))) }
    ensures { (h : Held) → at ≤ h.slot → take c.width key.old ≡ key_of_slot c h at →
        (take c.width key.new ≡ key_of_slot c h m)
        × JudgedAt c h waiting.now n m outcomes.old outcomes.new }
{
    chain::key_of_slot(c, at, m, key);
    let mut kept = [0u8; 273];
    keep_key(c.mf, key, c.width, &mut kept);
    judge_slot(c, &kept, m, waiting, n, outcomes);
}

// The outcomes of the first n entries, from the held key: a tag that is not due still waits. `met` is the key of slot `near` on the way down from the held
// key. There is room for the most tags that can wait: the core has no heap.
pub fn outcomes(
    c: Chain,
    slot: u64,
    known: [u8; 32],
    near: u64,
    met: [u8; 32],
    waiting: &Waiting,
    n: usize,
) -> [Outcome; 256]
    requires walks { (Walks c × (c.ms ≤ 40)) × ((n ≤ 256) × (slot < 2 ^ 34)) }
    requires met { Met c (held slot (take c.width known)) near met }
    ensures { Outcomes c (held slot (take c.width known)) waiting.now n result }
{
    let mut key = known;
    let mut judged = [Outcome::Waits; 256];
    let mut m = next_below(c, waiting, n, slot + 1);
    let mut at = chain::nearer(slot, near, met, m, &mut key);
    // m falls from tag to tag, by as much as lies between: no range counts its turns.
    while 0 < m {
        judge_down(c, at, m, &mut key, waiting, n, &mut judged);
        at = m;
        m = next_below(c, waiting, n, m);
    }
    judged
}
