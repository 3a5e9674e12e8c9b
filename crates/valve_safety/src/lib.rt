#![tactic(auto)]

// What the gate's contracts say of whole runs, and what stands behind a free valve by the core's own state and by demand 3. Two functions carry the claims
// in their contracts.
ghost use Rattle.valve_safety.specs.Exported.{ExportedGate};
ghost use Rattle.valve_safety.specs.Safety.{Safe};

// Each does nothing; that it is proved says that its claim is.
pub fn gate_claim()
    ensures { ExportedGate }
{}

pub fn claim()
    ensures { Safe }
{}
