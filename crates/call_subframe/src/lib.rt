#![tactic(auto)]

// The call that lends the authentication fields of a sub-frame (01, "HKROOT", "MACK"; "Checks go 1, 2, 4, 3, 5").
//   take_subframe       the call: both halves are refused, or the time is noted and both halves are done
ghost use Rattle.std.specs.Prelude.{◌≡◌, List, ℕ};
ghost use Rattle.rules.specs.Calls.{halves_done, subframe_call};
ghost use Rattle.mack_half.specs.Half.{records_written};
ghost use Rattle.rules.specs.Received.{received};
ghost use Rattle.rules.specs.Refusals.{answer_number};
ghost use Rattle.rules.specs.State.{state};
ghost use Rattle.regions.specs.Told.{subframe_told, subframe};

use hkroot_half::Half;
use regions::{
    Area, Arrivals, Blocks, ChainInForce, Clocks, Config, Headers, HeldKey, Numbers, Offer,
    Present, Pubkeys, Sets, Since, Stamps, Waiting, Words,
};
use rules::Refusal;

// What the call gives: what refuses each half, or how many tag records the MACK half wrote.
#[derive(Clone, Copy)]
pub struct Halves {
    pub hkroot: Result<(), Refusal>,
    pub mack: Result<u32, Refusal>,
}

// ---- both halves

// The HKROOT half, then the MACK half, which a proved emergency message stops. `fields` are the fields as they came.
fn both_halves(
    config: &mut Config,
    words: &Words,
    stamps: &Stamps,
    blocks: &mut Blocks,
    headers: &mut Headers,
    present: &mut Present,
    since: &mut Since,
    pubkeys: &mut Pubkeys,
    offer: &mut Offer,
    chain: &ChainInForce,
    numbers: &mut Numbers,
    heldkey: &mut HeldKey,
    waiting: &mut Waiting,
    sets: &mut Sets,
    arrivals: &mut Arrivals,
    area: &mut Area,
    prn: u8,
    time: u32,
    marks: u16,
    fields: &[u8; 75],
) -> Halves
    ensures { (clocks lent : List ℕ) → fields.now ≡ received marks lent 15 →
        subframe_told (answer_number result.hkroot) (answer_number result.mack) (records_written result.mack)
        (state config.new clocks words.now stamps.now blocks.new headers.new present.new
        since.new pubkeys.new offer.new chain.now numbers.new heldkey.new
        waiting.new sets.new arrivals.new) area.new
        ≡ halves_done
        (state config.old clocks words.now stamps.now blocks.old headers.old
        present.old since.old pubkeys.old offer.old chain.now numbers.old
        heldkey.old waiting.old sets.old arrivals.old) area.old
        (subframe prn time marks lent) }
{
    let hk = gather::hkroot_of(fields);
    let mack = gather::mack_of(fields);
    let half = hkroot_half::hkroot_received(
        config, blocks, headers, present, since, pubkeys, offer, time, marks, &hk,
    );
    let hkroot = match half {
        Ok(Half::Stops) => {
            return Halves {
                hkroot: Ok(()),
                mack: Err(Refusal::Stopped),
            };
        }
        Ok(Half::Goes) => Ok(()),
        Err(refusal) => Err(refusal),
    };
    let written = mack_half::mack_half(
        config,
        words,
        stamps,
        chain,
        numbers,
        heldkey,
        waiting,
        sets,
        arrivals,
        area,
        prn,
        time,
        marks,
        gather::header_of(&hk),
        &mack,
    );
    let mack = match written {
        Ok(count) => Ok(count as u32),
        Err(refusal) => Err(refusal),
    };
    Halves { hkroot, mack }
}

// The fields of a sub-frame, 15 of five bytes, that satellite `prn` sent at `time`; `marks` say which of them came, and what is lent for the others is
// not read past this. Records stand one after the other at the front of `area`.
pub fn take_subframe(
    config: &mut Config,
    clocks: &mut Clocks,
    words: &Words,
    stamps: &Stamps,
    blocks: &mut Blocks,
    headers: &mut Headers,
    present: &mut Present,
    since: &mut Since,
    pubkeys: &mut Pubkeys,
    offer: &mut Offer,
    chain: &ChainInForce,
    numbers: &mut Numbers,
    heldkey: &mut HeldKey,
    waiting: &mut Waiting,
    sets: &mut Sets,
    arrivals: &mut Arrivals,
    area: &mut Area,
    prn: u8,
    time: u32,
    marks: u16,
    bytes: &[u8; 75],
) -> Halves
    ensures { subframe_told (answer_number result.hkroot) (answer_number result.mack) (records_written result.mack)
        (state config.new clocks.new words.now stamps.now blocks.new headers.new
        present.new since.new pubkeys.new offer.new chain.now numbers.new
        heldkey.new waiting.new sets.new arrivals.new) area.new
        ≡ subframe_call
        (state config.old clocks.old words.now stamps.now blocks.old headers.old
        present.old since.old pubkeys.old offer.old chain.now numbers.old
        heldkey.old waiting.old sets.old arrivals.old) area.old
        (subframe prn time marks bytes.now) }
{
    let fields = received::received(marks, bytes);
    let checked = subframe_checks::subframe_refusal(config, clocks, prn, time, marks, &fields);
    match checked {
        Ok(()) => {
            regions::note_subframe(clocks, prn, time);
            both_halves(
                config, words, stamps, blocks, headers, present, since, pubkeys, offer, chain,
                numbers, heldkey, waiting, sets, arrivals, area, prn, time, marks, &fields,
            )
        }
        Err(refusal) => {
            // zeros say at least when they came
            if refusal == Refusal::AllZero {
                regions::note_subframe(clocks, prn, time);
            }
            Halves {
                hkroot: Err(refusal),
                mack: Err(refusal),
            }
        }
    }
}
