#![tactic(auto)]

// The 48 valves (02, P14): one valve's decision, a decision of all, what the core's answers tell, over the gate's 49 bytes (`valve_rules`, Gate.antt).
// Nothing of the core is lent here: what is known of it are the numbers that it answered.
ghost use Rattle.std.specs.Prelude.{◌≡◌, ◌≤◌};
ghost use Rattle.valve_rules.specs.Valve.{next};
ghost use Rattle.valve_rules.specs.Gate as S;
ghost use Rattle.valves.specs.Rule.{rule_of};

// ---- one valve

// Free to follow the dose map, or closed, with two, one or no further decisions to come in which it stays closed. Its number in the gate is its place here:
// the gate is lent by C as bytes.
#[derive(Clone, Copy)]
enum Valve {
    Closed,
    ClosedOne,
    ClosedTwo,
    Free,
}

impl From<u8> for Valve {
    ghost from_gives = { λ byte valve. rule_of valve ≡ S.valve_of byte };

    #[tactic(auto, unfolding(valve_rules::specs::Gate::valve_of))]
    fn from(byte: u8) -> Valve {
        match byte {
            1 => Valve::ClosedOne,
            2 => Valve::ClosedTwo,
            3 => Valve::Free,
            _ => Valve::Closed,
        }
    }
}

impl Valve {
    // One decision. Tests, and no `match`: the loop over the valves is then made of vectors, and takes a fifth of the instructions.
    fn next(self, met: bool) -> Valve
        ensures { rule_of result ≡ next (rule_of self) met }
    {
        if matches!(self, Valve::ClosedTwo) {
            Valve::ClosedOne
        } else if matches!(self, Valve::ClosedOne) {
            Valve::Closed
        } else if met {
            Valve::Free
        } else if matches!(self, Valve::Free) {
            Valve::ClosedTwo
        } else {
            Valve::Closed
        }
    }

    // Its number in the gate.
    fn number(self) -> u8
        ensures { result ≡ S.number_of (rule_of self) }
    {
        self as u8
    }

    // 1 for a valve that is free.
    #[tactic(auto, unfolding(valve_rules::specs::Gate::free_digit))]
    fn free_digit(self) -> u64
        ensures { (result ≡ S.free_digit (rule_of self)) × (result ≤ 1) }
    {
        u64::from(matches!(self, Valve::Free))
    }
}

// Valve k + 1 is one of the outer six on a side.
#[tactic(auto, unfolding(valve_rules::specs::Gate::outer))]
fn outer(k: usize) -> bool
    ensures { result ≡ S.outer k }
{
    k < 6 || 42 <= k
}

// Whether the limit of valve k + 1 is met.
#[tactic(auto, unfolding(valve_rules::specs::Gate::own_met))]
fn own_met(k: usize, met20: bool, met10: bool) -> bool
    ensures { result ≡ S.own_met k met20 met10 }
{
    if outer(k) { met10 } else { met20 }
}

// A decision while the core is stopped counts as unmet.
#[tactic(auto, unfolding(valve_rules::specs::Gate::met_then))]
fn met_then(stopped: bool, met: bool) -> bool
    ensures { result ≡ S.met_then stopped met }
{
    !stopped && met
}

// ---- the 48 valves

// Bytes of the gate: one for each valve, valve 1 first, and one for whether the core is stopped.
pub const GATE_LENGTH: usize = 49;

pub type Gate = [u8; GATE_LENGTH];

// Each valve decides, by its own limit.
fn decide_valves(gate: &mut Gate, met20: bool, met10: bool)
    ensures { gate.new ≡ S.decided_to met20 met10 gate.old 48 }
{
    for (k, byte) in gate[..48].iter_mut().enumerate() {
        *byte = Valve::from(*byte).next(own_met(k, met20, met10)).number();
    }
}

// The free valves as binary digits, valve 1 in the lowest.
pub fn free_valves(gate: &Gate) -> u64
    ensures { result ≡ S.free_valves gate.now }
{
    let mut free: u64 = 0;
    for k in (0..48).rev() {
        free = Valve::from(gate[k]).free_digit() + 2 * free;
    }
    free
}

// A decision of all valves.
#[tactic(auto, unfolding(valve_rules::specs::Gate::decided, valve_rules::specs::Gate::stop_seen))]
pub fn decide_all(gate: &mut Gate, met20: bool, met10: bool)
    ensures { gate.new ≡ S.decided gate.old met20 met10 }
{
    let stopped = gate[48] != 0;
    decide_valves(gate, met_then(stopped, met20), met_then(stopped, met10));
}

// ---- what the core answers

// The number of an answer that the core is stopped.
const STOPPED: u32 = 4;

// The number of a start.
#[tactic(auto, unfolding(valve_rules::specs::Gate::start_shown))]
pub fn show_start(gate: &mut Gate, number: u32)
    ensures { gate.new ≡ S.start_shown gate.old number }
{
    if number == 0 {
        gate[48] = 0;
    }
}

// The number of a word or a verdict.
#[tactic(auto, unfolding(valve_rules::specs::Gate::answer_shown))]
pub fn show_answer(gate: &mut Gate, number: u32)
    ensures { gate.new ≡ S.answer_shown gate.old number }
{
    if number == STOPPED {
        gate[48] = 1;
    }
}

// The two numbers of a sub-frame.
#[tactic(auto, unfolding(valve_rules::specs::Gate::subframe_shown))]
pub fn show_subframe(gate: &mut Gate, hkroot: u32, mack: u32)
    ensures { gate.new ≡ S.subframe_shown gate.old hkroot mack }
{
    if hkroot == STOPPED || mack == STOPPED {
        gate[48] = 1;
    }
}
