#![tactic(auto)]

// The valve gate's rules (02, P14) are definitions in specs/; the function does nothing, its contract carries what is proved of every run of them.
ghost use Rattle.valve_rules.specs.Claim.{Claim};

// That it is proved says that the claim is.
pub fn claim()
    ensures { Claim }
{}
