#![tactic(auto)]

// A section against the chain in force (01, row 11), before its keys are looked at.
//   section_unfit    row 11: no chain, status 0 or 3, other CID, or before sub-frame 0
//   chain_of         the numbers of the chain in force
ghost use Rattle.std.specs.Prelude.{◌≡◌, true, false, ◌<◌};
ghost use Rattle.rules.specs.Calls.{section_unfit};
ghost use Rattle.rules.specs.Kroot.{in_force, chain_with, chain_contents};
ghost use Rattle.rules.specs.State.{State, ns_of};
ghost use Rattle.chain.specs.Sound.{Sound};
ghost use Rattle.tags.specs.Layout.{Laid};

use regions::{ChainInForce, Config};
use rules::Chain;

// The numbers of the chain in force.
pub fn chain_of(config: &Config, chain: &ChainInForce) -> Chain
    ensures { (result ≡ chain_with (ns_of config.now) (chain_contents chain.now))
        × (in_force config.now chain.now ≡ true → Sound result × Laid result) }
{
    kroot::chain_with(regions::ns_of(config), &chain[1..45])
}

// The NMA status of a signal whose tags are taken (000, 3.1): its least and its greatest value.
const TEST: u8 = 1;

const OPERATIONAL: u8 = 2;

// Row 11: no chain, status 0 or 3, other CID, or before sub-frame 0.
pub fn section_unfit(config: &Config, chain: &ChainInForce, time: u32, header: u8) -> bool
    ensures { ((s : State) → s.config ≡ config.now → s.chain ≡ chain.now → result ≡ section_unfit s time header)
        × (result ≡ false → in_force config.now chain.now ≡ true) }
{
    let status = gather::status_of(header);
    if !kroot::in_force(config, chain)
        || status < TEST
        || OPERATIONAL < status
        || kroot::cidkr(&chain[1..45]) != gather::cid_of(header)
    {
        return true;
    }
    times::seconds_of(time) < kroot::root_seconds(&chain[1..45])
}
