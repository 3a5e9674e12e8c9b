#![tactic(auto)]

// DSM blocks, gathered per DSM ID from all satellites (01, "HKROOT"), and the split of a sub-frame's 75 bytes that brings them.
// The store is lent as four regions: 16 blocks of 13 bytes for each of 16 IDs, and for each ID the NMA header, the marks of the blocks
// present and the time of the first; they stay four arrays, as C lends them. Each function gives what the definition of the same name in rules/specs/Gather.antt gives.
ghost use Rattle.std.specs.Prelude.{◌≡◌, cond, not, ◌&&◌, List, ℕ, ◌+◌, ◌-◌, ◌*◌, ◌/◌, ◌^◌, ◌≤◌, ◌<◌, leb, ltb, eqb, length};
ghost use Rattle.laws.specs.Lists.{part, same};
ghost use Rattle.laws.specs.Refusal.{neb};
ghost use Rattle.rules.specs.Times.{seconds_of};
ghost use Rattle.rules.specs.Gather as Rule;
ghost use Rattle.rules.specs.State.{blocks_length};
ghost use Rattle.gather.specs.Store.{store, told, Sized};

use regions::{Blocks, Headers, Present, Since};

// What the coming of a block gives. A refused block is one of three cases here, as `told` and `Sized` of specs/Store.antt read them.
#[derive(Clone, Copy, Debug, PartialEq, Eq)]
pub enum Gathered {
    // The block is stored; its DSM is not complete.
    Stored,
    // The DSM is complete and taken out. So many bytes of it stand in the lent blocks, from place DSM ID × 208.
    Complete(usize),
    // The block is dropped: its NB is reserved, or its ID too high.
    Refused,
}

// ---- a sub-frame's 75 bytes

// The HKROOT section: the first byte of each of 15 fields.
pub fn hkroot_of(f: &[u8; 75]) -> [u8; 15]
    ensures { result ≡ Rule.hkroot_of f.now 15 }
{
    let mut hk = [0u8; 15];
    for i in 0..15 {
        hk[i] = f[5 * i];
    }
    hk
}

// The MACK section: the other four bytes of each field.
pub fn mack_of(f: &[u8; 75]) -> [u8; 60]
    ensures { result ≡ Rule.mack_of f.now 15 }
{
    let mut mack = [0u8; 60];
    for i in 0..15 {
        buffer::copy_part(&mut mack, 4 * i, f, 5 * i + 1, 4);
    }
    mack
}

// ---- an HKROOT section

// The NMA header.
#[tactic(auto, unfolding(rules::specs::Gather::header_of))]
pub fn header_of(hk: &[u8; 15]) -> u8
    ensures { result ≡ Rule.header_of hk.now }
{
    hk[0]
}

// The NMA status of a header.
#[tactic(auto, unfolding(rules::specs::Gather::status_of))]
pub fn status_of(header: u8) -> u8
    ensures { result ≡ Rule.status_of header }
{
    header / 64 % 4
}

// The CID of a header.
#[tactic(auto, unfolding(rules::specs::Gather::cid_of))]
pub fn cid_of(header: u8) -> u8
    ensures { result ≡ Rule.cid_of header }
{
    header / 16 % 4
}

// The DSM ID.
#[tactic(auto, unfolding(rules::specs::Gather::dsm_id_of))]
pub fn dsm_id_of(hk: &[u8; 15]) -> usize
    ensures { (result ≡ Rule.dsm_id_of hk.now) × (result < 16) }
{
    usize::from(hk[1]) / 16 % 16
}

// The block ID.
#[tactic(auto, unfolding(rules::specs::Gather::block_id_of))]
fn block_id_of(hk: &[u8; 15]) -> usize
    ensures { (result ≡ Rule.block_id_of hk.now) × (result < 16) }
{
    usize::from(hk[1]) % 16
}

// The blocks that an NB names, 7 to 16; 0 for a reserved one.
#[tactic(auto, unfolding(rules::specs::Gather::blocks_for))]
fn blocks_for(nb: u8) -> usize
    ensures { result ≡ Rule.blocks_for nb }
{
    match nb {
        1..=10 => nb as usize + 6,
        _ => 0,
    }
}

// The blocks that the block 0 at a place names.
#[tactic(auto, using(laws::proofs::Splice::get_d_part), unfolding(rules::specs::Gather::total_of))]
pub fn total_of(s: &[u8], at: usize) -> usize
    requires { at + 13 ≤ length s.now }
    ensures { result ≡ Rule.total_of (part s.now at 13) }
{
    blocks_for(s[at] / 16)
}

// Whether this is a block 0 with a reserved NB.
#[tactic(auto, unfolding(rules::specs::Gather::reserved_count, rules::specs::Gather::block_of))]
fn reserved_count(hk: &[u8; 15]) -> bool
    ensures { result ≡ Rule.reserved_count hk.now }
{
    block_id_of(hk) == 0 && total_of(hk, 2) == 0
}

// ---- marks of the blocks present

// Whether block k is present.
#[tactic(auto, unfolding(rules::specs::Gather::marked))]
pub fn marked(present: u16, k: usize) -> bool
    requires { k < 16 }
    ensures { result ≡ Rule.marked present k }
{
    (present >> k) % 2 == 1
}

fn with_mark(present: u16, k: usize) -> u16
    requires { k < 16 }
    ensures { result ≡ Rule.with_mark present k }
{
    if marked(present, k) {
        present
    } else {
        present + (1 << k)
    }
}

// ---- the four reasons to drop an ID's blocks

// The oldest block is over 3,600 s old.
#[tactic(auto, using(crate::proofs::Counts::age, times::proofs::Times::seconds_bound))]
fn too_old(first: u32, t: u32) -> bool
    ensures { result ≡ ltb 3600 (seconds_of t - seconds_of first) }
{
    times::seconds_of(first) + 3600 < times::seconds_of(t)
}

// Whether the block at a place has the bytes of the coming one.
fn same_block(blocks: &Blocks, at: usize, hk: &[u8; 15]) -> bool
    requires { at + 13 ≤ blocks_length }
    ensures { result ≡ same (part blocks.now at 13) (Rule.block_of hk.now) }
{
    buffer::equal(&blocks[at..at + 13], &hk[2..15])
}

// The same block ID held other bytes.
#[tactic(auto, unfolding(rules::specs::Gather::stored_block))]
fn other_bytes(blocks: &Blocks, present: u16, id: usize, k: usize, hk: &[u8; 15]) -> bool
    requires { (id < 16) × (k < 16) }
    ensures { result ≡ Rule.marked present k && not (same (Rule.stored_block blocks.now id k) (Rule.block_of hk.now)) }
{
    marked(present, k) && !same_block(blocks, id * 208 + k * 13, hk)
}

// It is a block 0 whose count is not above every stored block ID.
#[tactic(auto, using(rules::proofs::Bounds::total_bound), unfolding(rules::specs::Gather::block_of))]
fn count_too_low(present: u16, k: usize, hk: &[u8; 15]) -> bool
    ensures { result ≡ eqb k 0 && neb (present / 2 ^ Rule.total_of (Rule.block_of hk.now)) 0 }
{
    k == 0 && present as u32 >> total_of(hk, 2) != 0
}

#[tactic(auto, unfolding(rules::specs::Gather::drops_blocks))]
fn drops_blocks(
    blocks: &Blocks,
    headers: &Headers,
    present: &Present,
    since: &Since,
    t: u32,
    id: usize,
    hk: &[u8; 15],
) -> bool
    requires { id < 16 }
    ensures { result ≡ Rule.drops_blocks (store blocks.now headers.now present.now since.now) t id
        hk.now }
{
    let m = present[id];
    let k = block_id_of(hk);
    too_old(since[id], t)
        || headers[id] != header_of(hk)
        || other_bytes(blocks, m, id, k, hk)
        || count_too_low(m, k, hk)
}

// The marks that are left of an ID's blocks when this one comes.
#[tactic(auto, unfolding(rules::specs::Gather::kept_marks))]
fn kept_marks(
    blocks: &Blocks,
    headers: &Headers,
    present: &Present,
    since: &Since,
    t: u32,
    id: usize,
    hk: &[u8; 15],
) -> u16
    requires { id < 16 }
    ensures { result ≡ Rule.kept_marks (store blocks.now headers.now present.now since.now) t id
        hk.now }
{
    if drops_blocks(blocks, headers, present, since, t, id, hk) {
        0
    } else {
        present[id]
    }
}

// Whether a block ID is not below the count of the block 0 held, of the blocks that are left.
#[tactic(auto, using(crate::proofs::Stores::first_block))]
fn too_high(blocks: &Blocks, kept: u16, id: usize, k: usize) -> bool
    requires { id < 16 }
    ensures { result ≡ Rule.marked kept 0 && leb (Rule.total_of (Rule.stored_block blocks.now id 0)) k }
{
    marked(kept, 0) && total_of(blocks, id * 208) <= k
}

// ---- a block in its place

// The time of an ID's first block: this one's if no block is left.
fn first_time(kept: u16, t: u32, held: u32) -> u32
    ensures { result ≡ cond (eqb kept 0) t held }
{
    if kept == 0 { t } else { held }
}

#[tactic(auto, unfolding(rules::specs::Gather::with_block, rules::specs::Gather::block_of))]
fn put_block(
    blocks: &mut Blocks,
    headers: &mut Headers,
    present: &mut Present,
    since: &mut Since,
    t: u32,
    id: usize,
    kept: u16,
    hk: &[u8; 15],
)
    requires { (id < 16)
        × (kept ≡ Rule.kept_marks (store blocks.old headers.old present.old since.old) t id hk.now) }
    ensures { store blocks.new headers.new present.new since.new
        ≡ Rule.with_block (store blocks.old headers.old present.old since.old) t id hk.now }
{
    let k = block_id_of(hk);
    let header = header_of(hk);
    let first = first_time(kept, t, since[id]);
    let m = with_mark(kept, k);
    buffer::copy_part(blocks, id * 208 + k * 13, hk, 2, 13);
    headers[id] = header;
    present[id] = m;
    since[id] = first;
}

// A complete DSM is taken out: as many blocks are marked as its block 0 names.
fn take_out(blocks: &Blocks, present: &mut Present, id: usize) -> Gathered
    requires { id < 16 }
    ensures { ((headers since : List ℕ) →
        told result (store blocks.now headers present.new since) id
        ≡ Rule.stored (store blocks.now headers present.old since) id)
        × Sized result }
{
    let m = present[id];
    if !marked(m, 0) {
        return Gathered::Stored;
    }
    let total = total_of(blocks, id * 208);
    if m.count_ones() as usize != total {
        return Gathered::Stored;
    }
    present[id] = 0;
    Gathered::Complete(13 * total)
}

// A block that is not refused: in its place, and its DSM taken out if that makes it complete.
fn store_block(
    blocks: &mut Blocks,
    headers: &mut Headers,
    present: &mut Present,
    since: &mut Since,
    t: u32,
    id: usize,
    kept: u16,
    hk: &[u8; 15],
) -> Gathered
    requires { (id < 16)
        × (kept ≡ Rule.kept_marks (store blocks.old headers.old present.old since.old) t id hk.now) }
    ensures { (told result (store blocks.new headers.new present.new since.new) id
        ≡ Rule.stored
        (Rule.with_block (store blocks.old headers.old present.old since.old) t id hk.now) id)
        × Sized result }
{
    put_block(blocks, headers, present, since, t, id, kept, hk);
    take_out(blocks, present, id)
}

// A block comes at time t.
#[tactic(auto, using(crate::proofs::Stores::refused_count, crate::proofs::Stores::refused_high, crate::proofs::Stores::high_is, crate::proofs::Stores::stored_is))]
pub fn gather(
    blocks: &mut Blocks,
    headers: &mut Headers,
    present: &mut Present,
    since: &mut Since,
    t: u32,
    hk: &[u8; 15],
) -> Gathered
    ensures { (told result (store blocks.new headers.new present.new since.new)
        (Rule.dsm_id_of hk.now)
        ≡ Rule.gathered (store blocks.old headers.old present.old since.old) t hk.now)
        × Sized result }
{
    if reserved_count(hk) {
        return Gathered::Refused;
    }
    let id = dsm_id_of(hk);
    let kept = kept_marks(blocks, headers, present, since, t, id, hk);
    if too_high(blocks, kept, id, block_id_of(hk)) {
        return Gathered::Refused;
    }
    store_block(blocks, headers, present, since, t, id, kept, hk)
}
