#![tactic(auto)]

// An I/NAV word (01, "MACK"), over the lent regions that it reads or writes. The caller has seen that every length is right.
//   take_word       the call: any bytes, PRN and time
//   word_refusal    what refuses it: a value out of range, a stopped core, or a time before that of the satellite's last word
//   word_unfit      PRN or time out of range, or a word 4 whose SVID is not the PRN (row 2)
ghost use Rattle.std.specs.Prelude.{◌≡◌, false, true, ◌&&◌, ◌≤◌, ◌<◌, eqb, length, OnOk};
ghost use Rattle.laws.specs.Refusal.{first_refusal};
ghost use Rattle.regions.specs.Told.{told};
ghost use Rattle.rules.specs.Calls.{word_call, word_checks, word_unfit};
ghost use Rattle.rules.specs.Refusals.{answer_number};
ghost use Rattle.rules.specs.State.{State, word_shaped, word_lent};

use regions::{Clocks, Config, Stamps, Words};
use rules::Refusal;

// A word of a satellite, and the GST_SF of its sub-frame: the clock of its satellite, the word and its stamp are written, or nothing is.
pub fn take_word(
    config: &Config,
    clocks: &mut Clocks,
    words: &mut Words,
    stamps: &mut Stamps,
    prn: u8,
    time: u32,
    bytes: &[u8; 16],
) -> Result<(), Refusal>
    ensures { (s : State) →
        told (answer_number result) (word_lent s config.now clocks.new words.new stamps.new)
        ≡ word_call (word_lent s config.now clocks.old words.old stamps.old)
        (record { prn = prn; time = time; bytes = bytes.now }) }
{
    word_refusal(config, clocks, prn, time, bytes)?;
    let kind = navdata::word_type(bytes);
    let held = (1..=5).contains(&kind);
    if held {
        regions::note_word(clocks, prn, time);
        navdata::store_word(words, stamps, bitfields::index(prn), kind, bytes, time + 1);
    }
    Ok(())
}

// What refuses a word.
#[tactic(auto, unfolding(rules::specs::Calls::word_checks))]
fn word_refusal(
    config: &Config,
    clocks: &Clocks,
    prn: u8,
    time: u32,
    bytes: &[u8; 16],
) -> Result<(), Refusal>
    ensures { ((s : State) → s.config ≡ config.now → s.clocks ≡ clocks.now →
        (word_shaped s && eqb (length bytes.now) 16) ≡ true →
        answer_number result ≡ first_refusal (word_checks s (record { prn = prn; time = time; bytes = bytes.now })))
        × OnOk result (((1 ≤ prn) × (prn ≤ 36)) × (time < 4294967295)) }
{
    if word_unfit(prn, time, bytes) {
        return Err(Refusal::OutOfRange);
    }
    if regions::stopped(config) {
        return Err(Refusal::Stopped);
    }
    if regions::later(regions::last_word_of(clocks, prn), time) {
        return Err(Refusal::OutOfOrder);
    }
    Ok(())
}

// PRN or time out of range, or a word 4 whose SVID is not the PRN.
#[tactic(auto, using(regions::proofs::Faults::time_small), unfolding(rules::specs::Calls::word_unfit))]
fn word_unfit(prn: u8, time: u32, bytes: &[u8; 16]) -> bool
    ensures { (result ≡ word_unfit (record { prn = prn; time = time; bytes = bytes.now }))
        × (result ≡ false → ((1 ≤ prn) × (prn ≤ 36)) × (time < 4294967295)) }
{
    !regions::prn_valid(prn)
        || !times::time_valid(time)
        || (navdata::word_type(bytes) == 4 && navdata::svid(bytes) != bitfields::index(prn))
}
