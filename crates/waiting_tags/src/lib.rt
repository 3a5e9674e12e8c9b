#![tactic(auto)]

// Tags that wait for their key (01, "MACK"): 256 places, an entry each, in arrival order. What an entry holds is `tag_entry`
// of rules/specs/Tags.antt.
// Public calls:
//   entry_tag, copy_set   the tag of an entry, and the copy of its set
//   put_entry             an entry is written
//   move_entry            an entry moves to an earlier place
//   is_due                whether the held key reaches a tag's slot
//   keep_staying          the entries that stay at a new root close up, in order
ghost use Rattle.std.specs.Prelude.{◌≡◌, cond, List, [], ℕ, ◌+◌, ◌*◌, ◌≤◌, ◌<◌, length};
ghost use Rattle.laws.specs.Lists.{splice};
ghost use Rattle.rules.specs.Chain.{held};
ghost use Rattle.rules.specs.Tags.{tag_entry, entry_at, entry_tag, entry_set, is_due};
ghost use Rattle.rules.specs.Verdict.{key_not_before, staying};
ghost use Rattle.rules.specs.State.{entry_length};

use regions::{COPY_LENGTH, ENTRY_LENGTH, Waiting};
use rules::{Chain, Tag};

// ---- an entry

// These four take the entries as a slice and not as `Waiting`: their contracts hold of any number of entries, and an array would ask for 256.

// The tag of entry k.
#[tactic(auto, using(laws::proofs::Splice::range_part), unfolding(rules::specs::Tags::entry_at))]
pub fn entry_tag(waiting: &[u8], k: usize) -> Tag
    requires { k * entry_length + entry_length ≤ length waiting.now }
    ensures { result ≡ entry_tag (entry_at waiting.now k) }
{
    tag_in(&waiting[k * ENTRY_LENGTH..k * ENTRY_LENGTH + ENTRY_LENGTH])
}

// The tag of an entry: a slice, since it is a part of the region and an array of it would have to be unwrapped.
#[tactic(auto, unfolding(rules::specs::Tags::entry_tag))]
fn tag_in(e: &[u8]) -> Tag
    requires { length e.now ≡ entry_length }
    ensures { result ≡ entry_tag e.now }
{
    let time = buffer::get_u32(e, 5);
    let bits = u64::from(e[10]) * 4294967296 + u64::from(buffer::get_u32(e, 11));
    Tag {
        sender: e[0],
        prn: e[1],
        adkd: e[2],
        block: e[3],
        position: e[4],
        time,
        status: e[9] % 4,
        bits,
    }
}

// The set of entry k, copied to `out`.
#[tactic(auto, using(crate::proofs::Entries::set_in_region, laws::proofs::Splice::length_part, laws::proofs::Splice::splice_whole))]
pub fn copy_set(waiting: &[u8], k: usize, out: &mut [u8; COPY_LENGTH])
    requires { k * entry_length + entry_length ≤ length waiting.now }
    ensures { out.new ≡ entry_set (entry_at waiting.now k) }
{
    buffer::copy_part(out, 0, waiting, k * ENTRY_LENGTH + 15, COPY_LENGTH);
}

// The entry of a tag and its set at place k.
pub fn put_entry(waiting: &mut [u8], k: usize, t: Tag, set: &[u8; COPY_LENGTH])
    requires { k * entry_length + entry_length ≤ length waiting.old }
    ensures { waiting.new ≡ splice waiting.old (k * entry_length) (tag_entry t set.now) }
{
    let time = t.time.to_be_bytes();
    let bits = t.bits.to_be_bytes();
    let head = [
        t.sender, t.prn, t.adkd, t.block, t.position, time[0], time[1], time[2], time[3], t.status,
        bits[3], bits[4], bits[5], bits[6], bits[7],
    ];
    buffer::copy_at(waiting, k * ENTRY_LENGTH, &head);
    buffer::copy_at(waiting, k * ENTRY_LENGTH + 15, set);
}

// ---- entries close up

// Entry `from` moves to place `to`, which is not after it.
#[tactic(auto, using(crate::proofs::Entries::moved), unfolding(rules::specs::Tags::entry_at))]
pub fn move_entry(waiting: &mut [u8], from: usize, to: usize)
    requires { (to ≤ from) × (from * entry_length + entry_length ≤ length waiting.old) }
    ensures { waiting.new ≡ splice waiting.old (to * entry_length) (entry_at waiting.old from) }
{
    let start = from * ENTRY_LENGTH;
    waiting.copy_within(start..start + ENTRY_LENGTH, to * ENTRY_LENGTH);
}

// "A waiting tag is due once the held slot reaches its key's slot."
#[tactic(auto, unfolding(rules::specs::Tags::is_due, rules::specs::Chain::key_slot))]
pub fn is_due(c: Chain, slot: u64, t: Tag) -> bool
    requires { ((1 ≤ c.ns) × (c.ns ≤ 36)) × (c.nmack ≤ 3) }
    ensures { (key : List ℕ) → result ≡ is_due c (held slot key) t }
{
    times::tag_slot(c.ns, c.nmack, c.root, t.time, t.block, t.adkd) <= slot
}

// Whether the key of entry k's tag belongs to a sub-frame not before the root's sub-frame 0.
#[tactic(auto, unfolding(rules::specs::Verdict::key_not_before))]
fn stays(waiting: &Waiting, root: u64, k: usize) -> bool
    requires { k < 256 }
    ensures { result ≡ key_not_before root (entry_at waiting.now k) }
{
    let t = entry_tag(waiting, k);
    root <= times::key_seconds(t.time, t.adkd)
}

// Entry k, after `kept` that stay: where it stays, it closes up. Gives how many stay then.
#[tactic(auto, using(laws::proofs::Splice::splice_nil))]
fn keep_one(waiting: &mut Waiting, root: u64, k: usize, kept: usize) -> usize
    requires { (kept ≤ k) × (k < 256) }
    ensures { (waiting.new ≡ splice waiting.old (kept * entry_length)
        (cond (key_not_before root (entry_at waiting.old k)) (entry_at waiting.old k) []))
        × (result ≡ kept + cond (key_not_before root (entry_at waiting.old k)) 1 0) }
{
    if stays(waiting, root, k) {
        move_entry(waiting, k, kept);
        return kept + 1;
    }
    kept
}

// Those of the first n waiting tags that stay at a new root close up, in order. Gives their number.
pub fn keep_staying(waiting: &mut Waiting, root: u64, n: usize) -> usize
    requires { n ≤ 256 }
    ensures { (waiting.new ≡ splice waiting.old 0 (staying root waiting.old n))
        × ((length (staying root waiting.old n) ≡ result * entry_length) × (result ≤ n)) }
{
    let mut kept = 0;
    for k in 0..n {
        kept = keep_one(waiting, root, k, kept);
    }
    kept
}
