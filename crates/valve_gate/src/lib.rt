#![tactic(auto)]

// The valve gate (02, P14): "Per half minute it decides for each of 48 valves: closed, or free to follow the dose map." It sees what the core answers:
// the numbers of its calls, which it is shown, and its two questions, whether four satellites have an authentic set no older than 20 sub-frames, and no
// older than 10. Of the core's functions it uses that exported question alone, and knows its contract.
// Its own state is 49 bytes (`valve_rules`, Gate.antt), lent by the caller. Any bytes, lengths and numbers are taken; nothing is asked of the caller.
//   valve_gate_state_begin       once
//   valve_gate_state_started, valve_gate_state_answered, valve_gate_state_subframe    what the core answered to a start, a word or verdict, a sub-frame
//   valve_gate_core_decide       per half minute; it asks the core
//   valve_gate_state_decide      the same for a boom controller that the core's answers are sent to
ghost use Rattle.std.specs.Prelude.{◌≡◌, ◌≢◌, length};
ghost use Rattle.std.specs.Fn.{FnOnceReturnsAtMut};
ghost use Rattle.rules.specs.Calls.{four_read};
ghost use Rattle.rules.specs.State.{State, four_lent};
ghost use Rattle.valve_rules.specs.Gate as S;
ghost use Rattle.valve_gate.specs.Asked.{decide_asked};

use valves::Gate;

// Bytes of the state.
pub const GATE_LENGTH: usize = 49;

// Ages, in sub-frames, that satellites may have for the centre valves and for the outer ones.
pub const CENTRE_LIMIT: u32 = 20;

pub const OUTER_LIMIT: u32 = 10;

// The number of the layout of the state and of exported parameters, in the name too: a caller that was written for another one does not link.
pub fn valve_gate_layout_1() -> u32
    ensures { result ≡ 1 }
{
    1
}

// What `call` makes of a state that has its length, and 0; else 1, and nothing is changed.
fn if_lent<F: FnOnce(&mut Gate)>(gate: &mut [u8], call: F) -> u32
    requires { F.IsAlwaysCallable call }
    ensures lent { length gate.old ≡ S.gate_length → (result ≡ 0) × FnOnceReturnsAtMut F.FnOnce call gate.old tt gate.new }
    ensures refused { length gate.old ≢ S.gate_length → (result ≡ 1) × (gate.new ≡ gate.old) }
{
    let Some(state) = gate.as_mut_array::<GATE_LENGTH>() else {
        return 1;
    };
    call(state);
    0
}

// All valves closed, and no stop seen.
#[tactic(auto, unfolding(valve_rules::specs::Gate::if_lent, valve_rules::specs::Gate::begun))]
pub fn valve_gate_state_begin(gate: &mut [u8]) -> u32
    ensures { S.shown result gate.new ≡ S.if_lent gate.old S.begun }
{
    if_lent(gate, |state| state.fill(0))
}

// What the core answered to a start.
#[tactic(auto, unfolding(valve_rules::specs::Gate::if_lent))]
pub fn valve_gate_state_started(gate: &mut [u8], number: u32) -> u32
    ensures { S.shown result gate.new ≡ S.if_lent gate.old (S.start_shown gate.old number) }
{
    if_lent(gate, |state| valves::show_start(state, number))
}

// What the core answered to a word or a verdict.
#[tactic(auto, unfolding(valve_rules::specs::Gate::if_lent))]
pub fn valve_gate_state_answered(gate: &mut [u8], number: u32) -> u32
    ensures { S.shown result gate.new ≡ S.if_lent gate.old (S.answer_shown gate.old number) }
{
    if_lent(gate, |state| valves::show_answer(state, number))
}

// What the core answered to a sub-frame: the numbers of its two halves.
#[tactic(auto, unfolding(valve_rules::specs::Gate::if_lent))]
pub fn valve_gate_state_subframe(gate: &mut [u8], hkroot: u32, mack: u32) -> u32
    ensures { S.shown result gate.new ≡ S.if_lent gate.old (S.subframe_shown gate.old hkroot mack) }
{
    if_lent(gate, |state| valves::show_subframe(state, hkroot, mack))
}

// A decision, by what the core answered for an age of 20 and for one of 10: 1 says yes, any other number no. `free` has valve 1 in its lowest binary digit,
// valve 48 in digit 47, 1 for free.
#[tactic(auto, unfolding(valve_rules::specs::Gate::decide_call, valve_rules::specs::Gate::yes))]
pub fn valve_gate_state_decide(gate: &mut [u8], met20: u8, met10: u8, free: &mut u64) -> u32
    ensures { S.decision result gate.new free.new ≡ S.decide_call gate.old met20 met10 }
{
    *free = 0;
    let Some(state) = gate.as_mut_array::<GATE_LENGTH>() else {
        return 1;
    };
    valves::decide_all(state, met20 == 1, met10 == 1);
    *free = valves::free_valves(state);
    0
}

// A decision that asks the core itself, lent the two regions that its question is lent. Where their lengths are wrong, 1 too.
#[tactic(auto, unfolding(crate::specs::Asked::decide_asked))]
pub fn valve_gate_core_decide(
    gate: &mut [u8],
    clocks: &[u32],
    arrivals: &[u32],
    free: &mut u64,
) -> u32
    ensures { (s : State) →
        S.decision result gate.new free.new
        ≡ decide_asked gate.old (four_read (four_lent s clocks.now arrivals.now) 20)
        (four_read (four_lent s clocks.now arrivals.now) 10) }
{
    *free = 0;
    let mut met20: u8 = 0;
    let mut met10: u8 = 0;
    if osnma::osnma_regions_four(clocks, arrivals, CENTRE_LIMIT, &mut met20) != 0
        || osnma::osnma_regions_four(clocks, arrivals, OUTER_LIMIT, &mut met10) != 0
    {
        return 1;
    }
    valve_gate_state_decide(gate, met20, met10, free)
}
