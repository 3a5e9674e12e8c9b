#![tactic(auto)]

// A worked run of the calls, and steps of a chain with SHA3, computed over the rules: functions carry them in their contracts. It is a crate of its own
// so that a change of the rules is checked quickly.
ghost use Rattle.rules_examples.specs.Sha3Steps.{Sha3Steps};
ghost use Rattle.rules_examples.specs.SlowTag.{SlowTagRun};

// Does nothing; that it is proved says that the run gives its log, and that demand 3's four things and forty bits hold of the set that it marks.
pub fn slow_tag_run()
    ensures { SlowTagRun }
{}

// Does nothing; that it is proved says that a step with HF 1 is SHA3-224's and one with HF 2 is SHA3-256's.
pub fn sha3_steps()
    ensures { Sha3Steps }
{}
