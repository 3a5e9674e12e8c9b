// The calls of the valve gate (crate valve_gate), exported to C and Rust under their names: each hands on what it was lent, and states the clauses of the call
// again. A slice is two arguments, a pointer and a count of elements. include/valve_gate.h has the calls.
#![tactic(auto)]

ghost use Rattle.std.specs.Prelude.{◌≡◌};
ghost use Rattle.rules.specs.Calls.{four_read};
ghost use Rattle.rules.specs.State.{State, four_lent};
ghost use Rattle.valve_rules.specs.Gate as S;
ghost use Rattle.valve_gate.specs.Asked.{decide_asked};

// The number of the layout of the state and of exported parameters, in the name too: a caller that was written for another one does not link.
#[unsafe(no_mangle)]
pub extern "C" fn valve_gate_layout_1() -> u32
    ensures { result ≡ 1 }
{
    valve_gate::valve_gate_layout_1()
}

// All valves closed, and no stop seen.
#[unsafe(no_mangle)]
pub extern "C" fn valve_gate_state_begin(gate: &mut [u8]) -> u32
    ensures { S.shown result gate.new ≡ S.if_lent gate.old S.begun }
{
    valve_gate::valve_gate_state_begin(gate)
}

// What the core answered to a start.
#[unsafe(no_mangle)]
pub extern "C" fn valve_gate_state_started(gate: &mut [u8], number: u32) -> u32
    ensures { S.shown result gate.new ≡ S.if_lent gate.old (S.start_shown gate.old number) }
{
    valve_gate::valve_gate_state_started(gate, number)
}

// What the core answered to a word or a verdict.
#[unsafe(no_mangle)]
pub extern "C" fn valve_gate_state_answered(gate: &mut [u8], number: u32) -> u32
    ensures { S.shown result gate.new ≡ S.if_lent gate.old (S.answer_shown gate.old number) }
{
    valve_gate::valve_gate_state_answered(gate, number)
}

// What the core answered to a sub-frame: the numbers of its two halves.
#[unsafe(no_mangle)]
pub extern "C" fn valve_gate_state_subframe(gate: &mut [u8], hkroot: u32, mack: u32) -> u32
    ensures { S.shown result gate.new ≡ S.if_lent gate.old (S.subframe_shown gate.old hkroot mack) }
{
    valve_gate::valve_gate_state_subframe(gate, hkroot, mack)
}

// A decision, by what the core answered for an age of 20 and for one of 10: 1 says yes, any other number no. `free` has valve 1 in its lowest binary digit,
// valve 48 in digit 47, 1 for free.
#[unsafe(no_mangle)]
pub extern "C" fn valve_gate_state_decide(
    gate: &mut [u8],
    met20: u8,
    met10: u8,
    free: &mut u64,
) -> u32
    ensures { S.decision result gate.new free.new ≡ S.decide_call gate.old met20 met10 }
{
    valve_gate::valve_gate_state_decide(gate, met20, met10, free)
}

// A decision that asks the core itself, lent the two regions that its question is lent. Where their lengths are wrong, 1 too.
#[unsafe(no_mangle)]
pub extern "C" fn valve_gate_core_decide(
    gate: &mut [u8],
    clocks: &[u32],
    arrivals: &[u32],
    free: &mut u64,
) -> u32
    ensures { (s : State) →
        S.decision result gate.new free.new
        ≡ decide_asked gate.old (four_read (four_lent s clocks.now arrivals.now) 20)
        (four_read (four_lent s clocks.now arrivals.now) 10) }
{
    valve_gate::valve_gate_core_decide(gate, clocks, arrivals, free)
}
