#![tactic(auto)]

// The public keys held (01, "HKROOT" and "Verdicts"), in a region of 16 places of 68 bytes. Each function gives what the definition of
// the same name in rules/specs/Keys.antt gives. A key ID is below 16; key types are 0 to 3, and stay the numbers that messages and C carry.
// Public calls:
//   key_held, key_type, key_bytes     the key of an ID
//   above_all, same_key               how a key of a DSM-PKR stands to those held
//   add_key, drop_lower               what a DSM-PKR and a verdict change
//   key_length, signature_length      bytes by key type
ghost use Rattle.std.specs.Prelude.{◌≡◌, ◌≤◌, ◌<◌, length};
ghost use Rattle.rules.specs.Bits.{filled};
ghost use Rattle.rules.specs.PublicKeys as S;

use regions::Pubkeys;

// Whether the key with this ID is held.
#[tactic(auto, unfolding(rules::specs::PublicKeys::key_held))]
pub fn key_held(pubkeys: &Pubkeys, id: u8) -> bool
    requires { id < 16 }
    ensures { result ≡ S.key_held pubkeys.now id }
{
    matches!(pubkeys[(id as usize) * 68], 1..=4)
}

// The type of the key with this ID; 0 where none is held.
#[tactic(auto, unfolding(rules::specs::PublicKeys::key_type))]
pub fn key_type(pubkeys: &Pubkeys, id: u8) -> u8
    requires { id < 16 }
    ensures { result ≡ S.key_type pubkeys.now id }
{
    pubkeys[(id as usize) * 68].saturating_sub(1)
}

// The key's 67 bytes into `out`, zeros after a short one.
#[tactic(auto, using(laws::proofs::Splice::length_part, laws::proofs::Splice::splice_whole), unfolding(rules::specs::PublicKeys::key_bytes))]
pub fn key_bytes(pubkeys: &Pubkeys, id: u8, out: &mut [u8; 67])
    requires { id < 16 }
    ensures { out.new ≡ S.key_bytes pubkeys.now id }
{
    buffer::copy_part(out, 0, pubkeys, (id as usize) * 68 + 1, 67);
}

// Whether neither this ID nor a higher one is held.
pub fn above_all(pubkeys: &Pubkeys, id: u8) -> bool
    requires { id < 16 }
    ensures { result ≡ S.above_all pubkeys.now id }
{
    for n in id..16 {
        if key_held(pubkeys, n) {
            return false;
        }
    }
    true
}

// Whether the same key is held: ID, type and bytes.
pub fn same_key(pubkeys: &Pubkeys, id: u8, kind: u8, key: &[u8]) -> bool
    requires { (id < 16) × (length key.now ≤ 67) }
    ensures { result ≡ S.same_key pubkeys.now id kind key.now }
{
    let at = (id as usize) * 68 + 1;
    key_held(pubkeys, id)
        && key_type(pubkeys, id) == kind
        && buffer::equal(&pubkeys[at..at + 67], &filled_key(key))
}

// A key's bytes, and zeros to 67.
fn filled_key(key: &[u8]) -> [u8; 67]
    requires { length key.now ≤ 67 }
    ensures { result ≡ filled 67 key.now }
{
    let mut whole = [0u8; 67];
    buffer::copy_at(&mut whole, 0, key);
    whole
}

// The key is held from now on.
pub fn add_key(pubkeys: &mut Pubkeys, id: u8, kind: u8, key: &[u8])
    requires { (id < 16) × ((kind < 4) × (length key.now ≤ 67)) }
    ensures { pubkeys.new ≡ S.with_key pubkeys.old id kind key.now }
{
    let whole = filled_key(key);
    let at = (id as usize) * 68;
    pubkeys[at] = kind + 1;
    buffer::copy_at(pubkeys, at + 1, &whole);
}

// Keys of lower ID are dropped.
#[tactic(auto, unfolding(rules::specs::PublicKeys::without_lower))]
pub fn drop_lower(pubkeys: &mut Pubkeys, id: u8)
    requires { id < 16 }
    ensures { pubkeys.new ≡ S.without_lower pubkeys.old id }
{
    buffer::fill(pubkeys, 0, (id as usize) * 68, 0);
}

// Bytes of a key by its type.
#[tactic(auto, unfolding(rules::specs::PublicKeys::key_length))]
pub fn key_length(kind: u8) -> usize
    ensures { result ≡ S.key_length kind }
{
    match kind {
        0 => 29,
        1 => 33,
        2 => 49,
        _ => 67,
    }
}

// Bytes of a signature by its key's type.
#[tactic(auto, unfolding(rules::specs::PublicKeys::signature_length))]
pub fn signature_length(kind: u8) -> usize
    ensures { result ≡ S.signature_length kind }
{
    match kind {
        0 => 56,
        1 => 64,
        2 => 96,
        _ => 132,
    }
}
