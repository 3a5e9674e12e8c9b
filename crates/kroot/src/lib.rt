#![tactic(auto)]

// DSM-KROOT, the message that waits and the chain's parameters (01, "HKROOT" and "Verdicts"; 000, 3.3 and 5.1). Each function gives what
// the definition of the same name in rules/specs/Kroot.antt or Verdict.antt gives.
// Public calls:
//   kroot_judge                       a complete DSM-KROOT: refused (7, 8 or 6), or the message that then waits
//   in_force, chain_contents, chain_with    the chain in force, its contents and its numbers
//   names_offer, chain_unchanged      a verdict against what waits; a new root against the chain in force
//   cidkr, ks, root_seconds           fields of contents: the 44 bytes after the first of a DSM, a message or the chain's region
//   key_width, least_blocks           bytes of a key by its KS code; blocks that a message fits
ghost use Rattle.std.specs.Prelude.{◌≡◌, ◌∷◌, ℕ, ◌+◌, ◌*◌, ◌≤◌, ◌<◌, ltb, length};
ghost use Rattle.laws.specs.Lists.{part};
ghost use Rattle.rules.specs.Bits.{filled};
ghost use Rattle.rules.specs.Chain.{hash_bytes};
ghost use Rattle.rules.specs.Kroot as S;
ghost use Rattle.rules.specs.Refusals.{answer_number};
ghost use Rattle.rules.specs.State.{contents_length};
ghost use Rattle.rules.specs.Verdict.{names_offer, chain_unchanged};

use regions::{ChainInForce, Config, Offer, Pubkeys};
use rules::{Chain, Refusal};

// The contents of a message.
pub type Contents = [u8; 44];

// ---- a complete DSM-KROOT

// Refused (7, 8 or 6), or it waits for a verdict, in place of one that waited.
pub fn kroot_judge(
    pubkeys: &Pubkeys,
    config: &Config,
    offer: &mut Offer,
    header: u8,
    d: &[u8],
) -> Result<(), Refusal>
    requires { 91 ≤ length d.now }
    ensures { (answer_number result ≡ (S.kroot_judged pubkeys.now config.now offer.old header d.now).code)
        × (offer.new ≡ (S.kroot_judged pubkeys.now config.now offer.old header d.now).offer) }
{
    let id = pkid(d);
    if !public_keys::key_held(pubkeys, id) {
        return Err(Refusal::KeyNotHeld);
    }
    if parameters_bad(config, &d[1..45]) {
        return Err(Refusal::ParametersUnfit);
    }
    let width = key_width(ks(&d[1..45]));
    let signed = public_keys::signature_length(public_keys::key_type(pubkeys, id));
    if d.len() != 13 * least_blocks(13 + width + signed) {
        return Err(Refusal::BlockUnfit);
    }
    store_offer(offer, id, header, d, width, signed);
    Ok(())
}

// The message that waits: 1, key ID, message in 45 bytes, signature in 132.
fn store_offer(offer: &mut Offer, id: u8, header: u8, d: &[u8], width: usize, signed: usize)
    requires { (width ≤ 32) × ((signed ≤ 132) × (13 + width + signed ≤ length d.now)) }
    ensures { offer.new ≡ S.offered id (filled 45 (header ∷ part d.now 1 (12 + width)))
        (filled 132 (part d.now (13 + width) signed)) }
{
    offer[0] = 1;
    offer[1] = id;
    offer[2] = header;
    buffer::copy_part(offer, 3, d, 1, 12 + width);
    buffer::fill(offer, 15 + width, 32 - width, 0);
    buffer::copy_part(offer, 47, d, 13 + width, signed);
    buffer::fill(offer, 47 + signed, 132 - signed, 0);
}

// The ID of the public key that a DSM-KROOT is signed with.
fn pkid(d: &[u8]) -> u8
    requires { 1 ≤ length d.now }
    ensures { result ≡ S.pkid_of d.now }
{
    d[0] % 16
}

// The least number of blocks that n bytes fit.
#[tactic(auto, unfolding(rules::specs::Kroot::least_blocks))]
pub fn least_blocks(n: usize) -> usize
    requires { n < 65536 }
    ensures { result ≡ S.least_blocks n }
{
    if n <= 91 { 7 } else { (n + 12) / 13 }
}

// ---- the chain

// Whether a chain is in force.
#[tactic(auto, unfolding(rules::specs::Kroot::in_force))]
pub fn in_force(config: &Config, chain: &ChainInForce) -> bool
    ensures { result ≡ S.in_force config.now chain.now }
{
    chain[0] == 1 && !parameters_bad(config, chain_contents(chain))
}

// The contents that were put in force last: a slice, as the functions below ask for 44 bytes or more.
pub fn chain_contents(chain: &ChainInForce) -> &[u8]
    ensures { (result.now ≡ S.chain_contents chain.now) × (length result.now ≡ contents_length) }
{
    &chain[1..45]
}

// The chain's numbers.
pub fn chain_with(ns: u64, c: &[u8]) -> Chain
    requires { contents_length ≤ length c.now }
    ensures { result ≡ S.chain_with ns c.now }
{
    let width = key_width(ks(c));
    let bits = tag_width(ms(c));
    let blocks = nmack(c);
    Chain {
        ns,
        nmack: blocks as u64,
        root: root_seconds(c),
        alpha: alpha(c),
        hf: hf(c),
        mf: mf(c),
        width,
        ms: bits,
        fields: fields_for(blocks, 8 * (width as u64), bits),
    }
}

// ---- verdicts

// Whether a verdict names what waits: key ID, message and signature, each of any length.
#[tactic(auto, unfolding(rules::specs::Verdict::names_offer, rules::specs::Kroot::offer_waits, rules::specs::Kroot::offer_id, rules::specs::Kroot::offer_message, rules::specs::Kroot::offer_signature, laws::specs::Lists::part))]
pub fn names_offer(offer: &Offer, id: u8, message: &[u8], signature: &[u8]) -> bool
    ensures { (good : ℕ) →
        result ≡ names_offer offer.now (record { good = good; id = id; message = message.now; signature = signature.now }) }
{
    offer[0] == 1
        && offer[1] % 16 == id
        && buffer::equal(&offer[2..47], message)
        && buffer::equal(&offer[47..179], signature)
}

// Whether two contents are of one chain: CID, parameters and α.
#[tactic(auto, unfolding(rules::specs::Verdict::chain_unchanged, rules::specs::Kroot::alpha_of, laws::specs::Lists::part))]
pub fn chain_unchanged(a: &[u8], b: &[u8]) -> bool
    requires { (contents_length ≤ length a.now) × (contents_length ≤ length b.now) }
    ensures { result ≡ chain_unchanged a.now b.now }
{
    cidkr(a) == cidkr(b)
        && nmack(a) == nmack(b)
        && hf(a) == hf(b)
        && mf(a) == mf(b)
        && ks(a) == ks(b)
        && ms(a) == ms(b)
        && maclt_field(a) == maclt_field(b)
        && mo(a) == mo(b)
        && buffer::equal(&a[6..12], &b[6..12])
}

// ---- row 8 of the table

// Whether contents have a parameter that is refused.
#[tactic(auto, unfolding(rules::specs::Kroot::parameters_bad))]
fn parameters_bad(config: &Config, c: &[u8]) -> bool
    requires { contents_length ≤ length c.now }
    ensures { result ≡ S.parameters_bad config.now c.now }
{
    hf_bad(c)
        || mf_bad(c)
        || mo(c) != 0
        || nmack(c) == 0
        || 8 < ks(c)
        || 9 < ms(c)
        || maclt_field(c) != regions::maclt_of(config)
        || block_short(c)
        || 167 < root_hour(c)
        || (root_week(c) == 0 && root_hour(c) == 0)
}

// HF above 2, or a key that is longer than a digest.
#[tactic(auto, unfolding(rules::specs::Kroot::hf_bad))]
fn hf_bad(c: &[u8]) -> bool
    requires { contents_length ≤ length c.now }
    ensures { result ≡ S.hf_bad c.now }
{
    2 < hf(c) || hash_bytes(hf(c)) < key_width(ks(c))
}

// Bytes of a digest, by HF.
#[tactic(auto, unfolding(rules::specs::Chain::hash_bytes))]
fn hash_bytes(hf: u8) -> usize
    ensures { result ≡ hash_bytes hf }
{
    if hf == 1 { 28 } else { 32 }
}

// MF above 1, or 1 with a key that is none of AES.
#[tactic(auto, unfolding(rules::specs::Kroot::mf_bad))]
fn mf_bad(c: &[u8]) -> bool
    requires { contents_length ≤ length c.now }
    ensures { result ≡ S.mf_bad c.now }
{
    1 < mf(c) || (mf(c) == 1 && !aes_width(key_width(ks(c))))
}

// Whether a key of so many bytes is an AES key.
#[tactic(auto, unfolding(rules::specs::Kroot::aes_width))]
fn aes_width(width: usize) -> bool
    ensures { result ≡ S.aes_width width }
{
    matches!(width, 16 | 24 | 32)
}

// A block is shorter than KS + MS + 16.
fn block_short(c: &[u8]) -> bool
    requires { contents_length ≤ length c.now }
    ensures { result ≡ ltb (S.block_bits (S.nmack_of c.now)) (8 * S.key_width (S.ks_of c.now) + S.tag_width (S.ms_of c.now) + 16) }
{
    let used = 8 * (key_width(ks(c)) as u64) + tag_width(ms(c)) + 16;
    bitfields::block_bits(nmack(c) as u64) < used
}

// ---- widths

// Bytes of a key by its KS code (000, table 12).
#[tactic(auto, unfolding(rules::specs::Kroot::key_width))]
pub fn key_width(code: u8) -> usize
    ensures { result ≡ S.key_width code }
{
    match code {
        0 => 12,
        1 => 13,
        2 => 14,
        3 => 15,
        4 => 16,
        5 => 20,
        6 => 24,
        7 => 28,
        _ => 32,
    }
}

// Bits of a tag by its MS code (000, table 13).
#[tactic(auto, unfolding(rules::specs::Kroot::tag_width))]
fn tag_width(code: u8) -> u64
    ensures { result ≡ S.tag_width code }
{
    match code {
        0 => 10,
        1 => 12,
        2 => 14,
        3 => 16,
        4 => 18,
        5 => 20,
        6 => 24,
        7 => 28,
        8 => 32,
        _ => 40,
    }
}

// Fields of a MACK block, for a key of ks bits and tags of ms bits.
fn fields_for(nmack: u8, ks: u64, ms: u64) -> u64
    requires { ms < 256 }
    ensures { result ≡ S.fields_for nmack ks ms }
{
    let block = bitfields::block_bits(nmack as u64);
    if block < ks {
        return 0;
    }
    (block - ks) / (ms + 16)
}

// ---- fields of contents (000, table 7)

// Three of them are public and ask for 44 bytes of a lent slice, as `chain_with` and `chain_unchanged` do, so each takes the slice: a struct
// round it would be made anew in each of those calls.

pub fn cidkr(c: &[u8]) -> u8
    requires { contents_length ≤ length c.now }
    ensures { result ≡ S.cidkr_of c.now }
{
    (c[0] >> 6) % 4
}

fn nmack(c: &[u8]) -> u8
    requires { contents_length ≤ length c.now }
    ensures { result ≡ S.nmack_of c.now }
{
    (c[0] >> 4) % 4
}

fn hf(c: &[u8]) -> u8
    requires { contents_length ≤ length c.now }
    ensures { result ≡ S.hf_of c.now }
{
    (c[0] >> 2) % 4
}

fn mf(c: &[u8]) -> u8
    requires { contents_length ≤ length c.now }
    ensures { result ≡ S.mf_of c.now }
{
    c[0] % 4
}

pub fn ks(c: &[u8]) -> u8
    requires { contents_length ≤ length c.now }
    ensures { result ≡ S.ks_of c.now }
{
    (c[1] >> 4) % 16
}

fn ms(c: &[u8]) -> u8
    requires { contents_length ≤ length c.now }
    ensures { result ≡ S.ms_of c.now }
{
    c[1] % 16
}

fn maclt_field(c: &[u8]) -> u8
    requires { contents_length ≤ length c.now }
    ensures { result ≡ S.maclt_field_of c.now }
{
    c[2]
}

fn mo(c: &[u8]) -> u8
    requires { contents_length ≤ length c.now }
    ensures { result ≡ S.mo_of c.now }
{
    (c[3] >> 4) % 4
}

fn root_week(c: &[u8]) -> u64
    requires { contents_length ≤ length c.now }
    ensures { result ≡ S.root_week_of c.now }
{
    u64::from(c[3]) % 16 * 256 + u64::from(c[4])
}

fn root_hour(c: &[u8]) -> u8
    requires { contents_length ≤ length c.now }
    ensures { result ≡ S.root_hour_of c.now }
{
    c[5]
}

// Seconds since week 0 of the root's sub-frame 0.
pub fn root_seconds(c: &[u8]) -> u64
    requires { contents_length ≤ length c.now }
    ensures { result ≡ S.root_seconds_of c.now }
{
    times::hour_seconds(root_week(c), root_hour(c) as u64)
}

// The chain's pattern α.
fn alpha(c: &[u8]) -> [u8; 6]
    requires { contents_length ≤ length c.now }
    ensures { result ≡ S.alpha_of c.now }
{
    [c[6], c[7], c[8], c[9], c[10], c[11]]
}
