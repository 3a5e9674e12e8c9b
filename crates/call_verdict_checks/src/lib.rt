#![tactic(auto)]

// The tests of a verdict (01, "Verdicts", and rows 14, 15, 11 and 9 of its table). Each function gives what the definition of the same name
// in rules/specs/Verdict.antt gives, for every state with the lent regions. `c` are the contents of a message (its bytes after the
// NMA header).
// Public calls:
//   same_contents   whether the contents are those in force
//   vouch_refusal   a verdict past 1, 2 and 4 is refused (14, 15, 11 or 9) or not
ghost use Rattle.std.specs.Prelude.{◌≡◌, ◌&&◌};
ghost use Rattle.laws.specs.Refusal.{first_refusal};
ghost use Rattle.rules.specs.Bits.{within};
ghost use Rattle.rules.specs.Gather.{status_of};
ghost use Rattle.rules.specs.Refusals.{answer_number};
ghost use Rattle.rules.specs.State.{State};
ghost use Rattle.rules.specs.Verdict as S;

use kroot::Contents;
use regions::{ChainInForce, Config, Offer};
use rules::Refusal;

// Whether the contents are those in force.
#[tactic(auto, unfolding(rules::specs::Verdict::same_contents))]
pub fn same_contents(config: &Config, chain: &ChainInForce, c: &[u8]) -> bool
    ensures { (s : State) → s.config ≡ config.now → s.chain ≡ chain.now → result ≡ S.same_contents s c.now }
{
    kroot::in_force(config, chain) && buffer::equal(kroot::chain_contents(chain), c)
}

// Whether the chain in force has this CID.
#[tactic(auto, unfolding(rules::specs::Verdict::cid_in_force))]
fn cid_in_force(config: &Config, chain: &ChainInForce, cid: u8) -> bool
    ensures { (s : State) → s.config ≡ config.now → s.chain ≡ chain.now → result ≡ S.cid_in_force s cid }
{
    kroot::in_force(config, chain) && kroot::cidkr(kroot::chain_contents(chain)) == cid
}

// Status 0; status 3 with no chain or other CID; status 1 or 2 with CIDKR not CID.
#[tactic(auto, unfolding(rules::specs::Verdict::status_unfit))]
fn status_unfit(config: &Config, chain: &ChainInForce, header: u8, c: &Contents) -> bool
    ensures { (s : State) → s.config ≡ config.now → s.chain ≡ chain.now → result ≡ S.status_unfit s header c.now }
{
    match gather::status_of(header) {
        0 => true,
        3 => !cid_in_force(config, chain, gather::cid_of(header)),
        _ => kroot::cidkr(c) != gather::cid_of(header),
    }
}

// The root is earlier than the last put in force, or equal with other contents, or not later after a drop.
#[tactic(auto, unfolding(rules::specs::Verdict::root_unfit, rules::specs::Kroot::ever_forced))]
fn root_unfit(config: &Config, chain: &ChainInForce, c: &Contents) -> bool
    ensures { (s : State) → s.config ≡ config.now → s.chain ≡ chain.now → result ≡ S.root_unfit s c.now }
{
    let last = kroot::root_seconds(kroot::chain_contents(chain));
    let root = kroot::root_seconds(c);
    if kroot::in_force(config, chain) {
        return root < last || (root == last && !same_contents(config, chain, c));
    }
    chain[0] != 0 && root <= last
}

// A verdict against what waits and the chain: refused (14, 15, 11 or 9) or not. A signature of any length.
#[tactic(auto, unfolding(rules::specs::Verdict::vouch_checks, rules::specs::Verdict::message_header, rules::specs::Verdict::message_contents, laws::specs::Lists::part))]
pub fn vouch_refusal(
    config: &Config,
    chain: &ChainInForce,
    offer: &Offer,
    good: u8,
    id: u8,
    message: &[u8; 45],
    signature: &[u8],
) -> Result<(), Refusal>
    ensures { (s : State) → s.config ≡ config.now → s.chain ≡ chain.now → s.offer ≡ offer.now →
        answer_number result ≡ first_refusal (S.vouch_checks s (record { good = good; id = id; message = message.now; signature = signature.now })) }
{
    if !kroot::names_offer(offer, id, message, signature) {
        return Err(Refusal::NotWaiting);
    }
    if good != 1 {
        return Err(Refusal::VerdictBad);
    }
    let c = message[1..45].as_array().unwrap();
    if status_unfit(config, chain, message[0], c) {
        return Err(Refusal::NotInForce);
    }
    if new_root_unfit(config, chain, message[0], c) {
        return Err(Refusal::NotNewer);
    }
    Ok(())
}

// A verdict that would put a root in force (status 1 or 2), whose root is unfit.
fn new_root_unfit(config: &Config, chain: &ChainInForce, header: u8, c: &Contents) -> bool
    ensures { (s : State) → s.config ≡ config.now → s.chain ≡ chain.now →
        result ≡ (within 1 2 (status_of header) && S.root_unfit s c.now) }
{
    match gather::status_of(header) {
        0 | 3 => false,
        _ => root_unfit(config, chain, c),
    }
}
