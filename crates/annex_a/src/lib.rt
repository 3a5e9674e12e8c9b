#![tactic(auto)]

// Annex A of 000 at the rules: a function carries its vectors in its contract.
ghost use Rattle.annex_a.specs.Vectors.{AnnexA};

// Does nothing; that it is proved says that the rules give Annex A's values.
pub fn vectors()
    ensures { AnnexA }
{}
