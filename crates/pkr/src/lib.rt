#![tactic(auto)]

// DSM-PKR: the new public key, its place in the tree, and what a complete message changes (01, "HKROOT"; 000, 3.4, 5.2 and 5.3). Each
// function gives what the definition of the same name in rules/specs/Pkr.antt gives.
// Public call:
//   pkr_judge        a complete DSM-PKR: refused (6, 10 or 9), or whether it stops the core, and the public keys then held
ghost use Rattle.std.specs.Prelude.{◌≡◌, false, cond, ◌+◌, ◌≤◌, ◌<◌, length, get_or};
ghost use Rattle.rules.specs.PublicKeys as K;
ghost use Rattle.rules.specs.Pkr as S;
ghost use Rattle.rules.specs.Refusals.{answer_number};
ghost use Rattle.pkr.specs.Renewal.{stops};

use regions::Pubkeys;
use rules::Refusal;

// What a complete DSM-PKR does that is not refused.
#[derive(Clone, Copy, Debug, PartialEq, Eq)]
pub enum Renewal {
    // Its key is held from now on, or was before.
    Held,
    // An emergency message that is proved: it stops the core.
    Stops,
}

// Refused (6, 10 or 9), or proved; then a new key is added to those held. A root of another length than 32 proves none.
pub fn pkr_judge(pubkeys: &mut Pubkeys, root: &[u8], d: &[u8]) -> Result<Renewal, Refusal>
    requires { (91 ≤ length d.now) × (length d.now ≤ 208) }
    ensures { (answer_number result ≡ (S.pkr_judged pubkeys.old root.now d.now).code)
        × ((stops result ≡ (S.pkr_judged pubkeys.old root.now d.now).stops)
        × (pubkeys.new ≡ (S.pkr_judged pubkeys.old root.now d.now).pubkeys)) }
{
    if size_bad(d) {
        return Err(Refusal::BlockUnfit);
    }
    if !tree_proved(root, d) {
        return Err(Refusal::TreeUnfit);
    }
    if new_type(d) == 4 {
        return Ok(Renewal::Stops);
    }
    renew(pubkeys, d)?;
    Ok(Renewal::Held)
}

// A proved key: held where it is the same as one held, or has an ID above all held and is added; else refused.
fn renew(pubkeys: &mut Pubkeys, d: &[u8]) -> Result<(), Refusal>
    requires { (S.new_type_of d.now < 4) × (130 + K.key_length (S.new_type_of d.now) ≤ length d.now) }
    ensures { (answer_number result ≡ cond (S.key_welcome pubkeys.old d.now) 0 9)
        × (pubkeys.new ≡ cond (S.key_welcome pubkeys.old d.now) (S.key_added pubkeys.old d.now)
        pubkeys.old) }
{
    let id = new_id(d);
    let kind = new_type(d);
    let end = 130 + public_keys::key_length(kind);
    if public_keys::same_key(pubkeys, id, kind, &d[130..end]) {
        return Ok(());
    }
    if !public_keys::above_all(pubkeys, id) {
        return Err(Refusal::NotNewer);
    }
    public_keys::add_key(pubkeys, id, kind, &d[130..end]);
    Ok(())
}

// An emergency message fills at least 11 blocks of 13 bytes.
const EMERGENCY_LENGTH: usize = 143;

// Whether the message has another size than its type asks, or an emergency message another key ID than 0.
fn size_bad(d: &[u8]) -> bool
    requires { 91 ≤ length d.now }
    ensures { result ≡ S.pkr_size_bad d.now }
{
    let kind = new_type(d);
    if kind == 4 {
        return d.len() < EMERGENCY_LENGTH || new_id(d) != 0;
    }
    4 < kind || d.len() != 13 * kroot::least_blocks(130 + public_keys::key_length(kind))
}

// ---- the tree

// Whether the leaf, joined with the four nodes, gives the installed root.
#[tactic(auto, unfolding(rules::specs::Pkr::tree_proved))]
fn tree_proved(root: &[u8], d: &[u8]) -> bool
    requires { (S.pkr_size_bad d.now ≡ false) × (length d.now ≤ 208) }
    ensures { result ≡ S.tree_proved root.now d.now }
{
    buffer::equal(&climb(d), root)
}

// The leaf's hash, joined with the four nodes.
fn climb(d: &[u8]) -> [u8; 32]
    requires { (S.pkr_size_bad d.now ≡ false) × (length d.now ≤ 208) }
    ensures { result ≡ S.climbed d.now 4 }
{
    let mid = d[0] % 16;
    let mut h = leaf_hash(d);
    // j names the node and the bit of the message ID
    for j in 0..4 {
        let at = 1 + 32 * j;
        // by way of g: a result laid straight into h has no generated proof
        let g = join(mid, j, &d[at..at + 32], h);
        h = g;
    }
    h
}

// A hash joined with a node and hashed again: bit j of the message ID puts the node left.
#[tactic(auto, unfolding(rules::specs::Pkr::joined))]
fn join(mid: u8, j: usize, node: &[u8], h: [u8; 32]) -> [u8; 32]
    requires { (j < 4) × (length node.now ≡ 32) }
    ensures { result ≡ S.joined mid j node.now h }
{
    if (mid >> j) % 2 == 1 {
        sha256::sha256_of_two(node, &h)
    } else {
        sha256::sha256_of_two(&h, node)
    }
}

// SHA-256 of the leaf: type, ID and key; an emergency message's key runs to the last byte.
fn leaf_hash(d: &[u8]) -> [u8; 32]
    requires { (S.pkr_size_bad d.now ≡ false) × (length d.now ≤ 208) }
    ensures { result ≡ S.climbed d.now 0 }
{
    let kind = new_type(d);
    if kind == 4 {
        return sha256::sha256(&d[129..]);
    }
    let n = 1 + public_keys::key_length(kind);
    sha256::sha256(&d[129..129 + n])
}

// ---- the new key

// Byte 129: type and ID of the new key; 0 where the message is shorter.
fn new_head(d: &[u8]) -> u8
    ensures { result ≡ get_or d.now 129 0 }
{
    d.get(129).copied().unwrap_or(0)
}

// The new key's type.
fn new_type(d: &[u8]) -> u8
    ensures { result ≡ S.new_type_of d.now }
{
    (new_head(d) >> 4) % 16
}

// The new key's ID.
fn new_id(d: &[u8]) -> u8
    ensures { result ≡ S.new_id_of d.now }
{
    new_head(d) % 16
}
