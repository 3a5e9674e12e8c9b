#![tactic(auto)]

// The HKROOT half of a sub-frame (01, "HKROOT", "Verdicts"): a block is gathered, and a complete DSM is judged.
//   hkroot_received   the half, over the regions that it may write: 17 where a field is missing
//   hkroot_half       the half of which every byte came
//   complete          a complete DSM: DSM-KROOT or DSM-PKR by its ID
//   renewed           a complete DSM-PKR; a proved emergency message stops the core
ghost use Rattle.std.specs.Prelude.{◌≡◌, cond, ◌*◌, ◌+◌, ◌≤◌, ◌<◌, leb, length, set};
ghost use Rattle.laws.specs.Lists.{part};
ghost use Rattle.gather.specs.Store.{store};
ghost use Rattle.rules.specs.Calls.{hkroot_half, hkroot_received, kroot_done, pkr_done};
ghost use Rattle.rules.specs.Gather.{dsm_id_of, header_of};
ghost use Rattle.rules.specs.Pkr.{pkr_judged};
ghost use Rattle.rules.specs.Refusals.{answer_number};
ghost use Rattle.rules.specs.State.{State, Store, tree_root, stopped_at};
ghost use Rattle.hkroot_half.specs.Done.{done, gathering, stops};

use gather::Gathered;
use pkr::Renewal;
use regions::{Blocks, Config, Headers, Offer, Present, Pubkeys, Since};
use rules::Refusal;

// What a half does that is not refused.
#[derive(Clone, Copy, Debug, PartialEq, Eq)]
pub enum Half {
    // The core goes on.
    Goes,
    // A proved emergency message came: the core stops.
    Stops,
}

// An HKROOT section of 15 bytes, one of each field, comes at time t: 17 where a field is missing, and nothing changes; else its block is taken.
pub fn hkroot_received(
    config: &mut Config,
    blocks: &mut Blocks,
    headers: &mut Headers,
    present: &mut Present,
    since: &mut Since,
    pubkeys: &mut Pubkeys,
    offer: &mut Offer,
    t: u32,
    marks: u16,
    hk: &[u8; 15],
) -> Result<Half, Refusal>
    ensures { (s : State) → s.config ≡ config.old →
        s.store ≡ store blocks.old headers.old present.old since.old →
        s.pubkeys ≡ pubkeys.old → s.offer ≡ offer.old →
        done result
        (gathering s config.new (store blocks.new headers.new present.new since.new)
        pubkeys.new offer.new)
        ≡ hkroot_received s t marks hk.now }
{
    if received::fields_came(marks) != 15 {
        return Err(Refusal::FieldsMissing);
    }
    hkroot_half(
        config, blocks, headers, present, since, pubkeys, offer, t, hk,
    )
}

// The block of an HKROOT section of 15 bytes comes at time t.
fn hkroot_half(
    config: &mut Config,
    blocks: &mut Blocks,
    headers: &mut Headers,
    present: &mut Present,
    since: &mut Since,
    pubkeys: &mut Pubkeys,
    offer: &mut Offer,
    t: u32,
    hk: &[u8; 15],
) -> Result<Half, Refusal>
    ensures { (s : State) → s.config ≡ config.old →
        s.store ≡ store blocks.old headers.old present.old since.old →
        s.pubkeys ≡ pubkeys.old → s.offer ≡ offer.old →
        done result
        (gathering s config.new (store blocks.new headers.new present.new since.new)
        pubkeys.new offer.new)
        ≡ hkroot_half s t hk.now }
{
    match gather::gather(blocks, headers, present, since, t, hk) {
        Gathered::Stored => Ok(Half::Goes),
        Gathered::Complete(n) => complete(config, blocks, pubkeys, offer, hk, n),
        Gathered::Refused => Err(Refusal::BlockUnfit),
    }
}

// A complete DSM of n bytes, which stands in the lent blocks from place DSM ID × 208.
fn complete(
    config: &mut Config,
    blocks: &Blocks,
    pubkeys: &mut Pubkeys,
    offer: &mut Offer,
    hk: &[u8; 15],
    n: usize,
) -> Result<Half, Refusal>
    requires { (91 ≤ n) × (n ≤ 208) }
    ensures { ((s : State) (left : Store) → s.config ≡ config.old → s.pubkeys ≡ pubkeys.old → s.offer ≡ offer.old →
        done result (gathering s config.new left pubkeys.new offer.new)
        ≡ cond (leb (dsm_id_of hk.now) 11)
        (kroot_done s left (header_of hk.now) (part blocks.now (dsm_id_of hk.now * 208) n))
        (pkr_done s left (part blocks.now (dsm_id_of hk.now * 208) n)))
        × (dsm_id_of hk.now < 16) }
{
    let id = gather::dsm_id_of(hk);
    let at = id * 208;
    if id <= 11 {
        kroot::kroot_judge(
            pubkeys,
            config,
            offer,
            gather::header_of(hk),
            &blocks[at..at + n],
        )?;
        return Ok(Half::Goes);
    }
    renewed(config, pubkeys, &blocks[at..at + n])
}

// A complete DSM-PKR. Proved with type 4 (an emergency message), it stops the core.
fn renewed(config: &mut Config, pubkeys: &mut Pubkeys, d: &[u8]) -> Result<Half, Refusal>
    requires { (91 ≤ length d.now) × (length d.now ≤ 208) }
    ensures { ((answer_number result ≡ (pkr_judged pubkeys.old (tree_root config.old) d.now).code)
        × (stops result ≡ (pkr_judged pubkeys.old (tree_root config.old) d.now).stops))
        × ((pubkeys.new ≡ (pkr_judged pubkeys.old (tree_root config.old) d.now).pubkeys)
        × (config.new ≡ cond (pkr_judged pubkeys.old (tree_root config.old) d.now).stops
        (set config.old stopped_at 1) config.old)) }
{
    match pkr::pkr_judge(pubkeys, &config[30..62], d)? {
        Renewal::Held => Ok(Half::Goes),
        Renewal::Stops => {
            regions::stop(config);
            Ok(Half::Stops)
        }
    }
}
