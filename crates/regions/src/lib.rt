#![tactic(auto)]

// Accessors over the memory that the caller lends: sixteen regions (rules, State.antt), of which a call is lent what it touches; nobody else writes
// them. Their lengths stand here alone. Each function gives what the definition of its name in State.antt gives.
//   shaped, word_shaped, verdict_shaped, set_shaped, offer_shaped, four_shaped, progress_shaped    what a call is lent has its lengths (01, row 1)
//   ns_of, maclt_of, stopped, stop               the settings
//   prn_valid                                    a PRN that is heard
//   last_subframe, last_subframe_of, last_word_of    the clocks, as stamps: a time plus 1, 0 for never
//   note_subframe, note_word                     a time is noted
//   later, reached                               a stamp against a time
//   held_slot, waiting_count                     the held key's slot, and how many tags wait
ghost use Rattle.std.specs.Prelude.{◌≡◌, true, ◌&&◌, ◌+◌, ◌≤◌, ◌<◌, leb, ltb, set};
ghost use Rattle.rules.specs.State.{State, state, word_lent, verdict_lent, set_lent, offer_lent, four_lent, progress_lent, stopped_at};
ghost use Rattle.rules.specs.State as S;
ghost use Rattle.rules.specs.Times.{stamp_of};

// ---- lengths of the regions, in elements

pub const CONFIG_LENGTH: usize = 63;

pub const CLOCKS_LENGTH: usize = 73;

pub const WORDS_LENGTH: usize = 2880;

pub const STAMPS_LENGTH: usize = 180;

pub const BLOCKS_LENGTH: usize = 3328;

pub const DSM_IDS: usize = 16;

pub const PUBKEYS_LENGTH: usize = 1088;

pub const OFFER_LENGTH: usize = 179;

pub const CHAIN_LENGTH: usize = 45;

pub const NUMBERS_LENGTH: usize = 2;

pub const HELDKEY_LENGTH: usize = 32;

// A kept copy of a set: in a waiting entry, and in `sets`.
pub const COPY_LENGTH: usize = 69;

// A waiting entry: 15 bytes and the copy of its set.
pub const ENTRY_LENGTH: usize = 84;

pub const WAITING_LENGTH: usize = 21504;

pub const SETS_LENGTH: usize = 4968;

pub const ARRIVALS_LENGTH: usize = 108;

// The area lent for the records of a sub-frame.
pub const AREA_LENGTH: usize = 3240;

// ---- the regions: what a call is lent, once its lengths are seen to be right

pub type Config = [u8; CONFIG_LENGTH];

pub type Clocks = [u32; CLOCKS_LENGTH];

pub type Words = [u8; WORDS_LENGTH];

pub type Stamps = [u32; STAMPS_LENGTH];

pub type Blocks = [u8; BLOCKS_LENGTH];

pub type Headers = [u8; DSM_IDS];

pub type Present = [u16; DSM_IDS];

pub type Since = [u32; DSM_IDS];

pub type Pubkeys = [u8; PUBKEYS_LENGTH];

pub type Offer = [u8; OFFER_LENGTH];

pub type ChainInForce = [u8; CHAIN_LENGTH];

pub type Numbers = [u64; NUMBERS_LENGTH];

pub type HeldKey = [u8; HELDKEY_LENGTH];

pub type Waiting = [u8; WAITING_LENGTH];

pub type Sets = [u8; SETS_LENGTH];

pub type Arrivals = [u32; ARRIVALS_LENGTH];

pub type Area = [u8; AREA_LENGTH];

// Every region has its length.
#[tactic(auto, unfolding(rules::specs::State::shaped))]
pub fn shaped(
    config: &[u8],
    clocks: &[u32],
    words: &[u8],
    stamps: &[u32],
    blocks: &[u8],
    headers: &[u8],
    present: &[u16],
    since: &[u32],
    pubkeys: &[u8],
    offer: &[u8],
    chain: &[u8],
    numbers: &[u64],
    heldkey: &[u8],
    waiting: &[u8],
    sets: &[u8],
    arrivals: &[u32],
) -> bool
    ensures { result ≡ S.shaped (state config.now clocks.now words.now stamps.now
        blocks.now headers.now present.now since.now
        pubkeys.now offer.now chain.now numbers.now
        heldkey.now waiting.now sets.now arrivals.now) }
{
    config.len() == CONFIG_LENGTH
        && clocks.len() == CLOCKS_LENGTH
        && words.len() == WORDS_LENGTH
        && stamps.len() == STAMPS_LENGTH
        && blocks.len() == BLOCKS_LENGTH
        && headers.len() == DSM_IDS
        && present.len() == DSM_IDS
        && since.len() == DSM_IDS
        && pubkeys.len() == PUBKEYS_LENGTH
        && offer.len() == OFFER_LENGTH
        && chain.len() == CHAIN_LENGTH
        && numbers.len() == NUMBERS_LENGTH
        && heldkey.len() == HELDKEY_LENGTH
        && waiting.len() == WAITING_LENGTH
        && sets.len() == SETS_LENGTH
        && arrivals.len() == ARRIVALS_LENGTH
}

// What a word is lent has its lengths, whatever the other regions of the state hold.
#[tactic(auto, unfolding(rules::specs::State::word_shaped))]
pub fn word_shaped(config: &[u8], clocks: &[u32], words: &[u8], stamps: &[u32]) -> bool
    ensures { (s : State) →
        result ≡ S.word_shaped (word_lent s config.now clocks.now words.now stamps.now) }
{
    config.len() == CONFIG_LENGTH
        && clocks.len() == CLOCKS_LENGTH
        && words.len() == WORDS_LENGTH
        && stamps.len() == STAMPS_LENGTH
}

// What a verdict is lent has its lengths.
#[tactic(auto, unfolding(rules::specs::State::verdict_shaped))]
pub fn verdict_shaped(
    config: &[u8],
    pubkeys: &[u8],
    offer: &[u8],
    chain: &[u8],
    numbers: &[u64],
    heldkey: &[u8],
    waiting: &[u8],
    arrivals: &[u32],
) -> bool
    ensures { (s : State) →
        result ≡ S.verdict_shaped (verdict_lent s config.now pubkeys.now offer.now chain.now
        numbers.now heldkey.now waiting.now arrivals.now) }
{
    config.len() == CONFIG_LENGTH
        && pubkeys.len() == PUBKEYS_LENGTH
        && offer.len() == OFFER_LENGTH
        && chain.len() == CHAIN_LENGTH
        && numbers.len() == NUMBERS_LENGTH
        && heldkey.len() == HELDKEY_LENGTH
        && waiting.len() == WAITING_LENGTH
        && arrivals.len() == ARRIVALS_LENGTH
}

// What a read of a set is lent has its lengths.
#[tactic(auto, unfolding(rules::specs::State::set_shaped))]
pub fn set_shaped(sets: &[u8], arrivals: &[u32]) -> bool
    ensures { (s : State) → result ≡ S.set_shaped (set_lent s sets.now arrivals.now) }
{
    sets.len() == SETS_LENGTH && arrivals.len() == ARRIVALS_LENGTH
}

// What a read of the waiting message is lent has its lengths.
#[tactic(auto, unfolding(rules::specs::State::offer_shaped))]
pub fn offer_shaped(pubkeys: &[u8], offer: &[u8]) -> bool
    ensures { (s : State) → result ≡ S.offer_shaped (offer_lent s pubkeys.now offer.now) }
{
    pubkeys.len() == PUBKEYS_LENGTH && offer.len() == OFFER_LENGTH
}

// What the question for four satellites is lent has its lengths (02, P5).
#[tactic(auto, unfolding(rules::specs::State::four_shaped))]
pub fn four_shaped(clocks: &[u32], arrivals: &[u32]) -> bool
    ensures { (s : State) → result ≡ S.four_shaped (four_lent s clocks.now arrivals.now) }
{
    clocks.len() == CLOCKS_LENGTH && arrivals.len() == ARRIVALS_LENGTH
}

// What the question for the progress of messages is lent has its lengths (02, P9).
#[tactic(auto, unfolding(rules::specs::State::progress_shaped))]
pub fn progress_shaped(blocks: &[u8], present: &[u16]) -> bool
    ensures { (s : State) → result ≡ S.progress_shaped (progress_lent s blocks.now present.now) }
{
    blocks.len() == BLOCKS_LENGTH && present.len() == DSM_IDS
}

// ---- settings

// NS; a number that no start takes counts as 1.
#[tactic(auto, unfolding(rules::specs::State::ns_of))]
pub fn ns_of(config: &Config) -> u64
    ensures { (result ≡ S.ns_of config.now) × ((1 ≤ result) × (result ≤ 36)) }
{
    match config[0] {
        ns @ 1..=36 => u64::from(ns),
        _ => 1,
    }
}

// The MACLT number of the start.
#[tactic(auto, unfolding(rules::specs::State::maclt_of))]
pub fn maclt_of(config: &Config) -> u8
    ensures { result ≡ S.maclt_of config.now }
{
    config[1]
}

// The place of the mark that the core is stopped.
pub const STOPPED_AT: usize = 62;

// An emergency message stopped the core.
#[tactic(auto, unfolding(rules::specs::State::stopped))]
pub fn stopped(config: &Config) -> bool
    ensures { result ≡ S.stopped config.now }
{
    config[STOPPED_AT] != 0
}

// Stops the core until a new start.
pub fn stop(config: &mut Config)
    ensures { config.new ≡ set config.old stopped_at 1 }
{
    config[STOPPED_AT] = 1;
}

// ---- clocks

// A PRN that is heard: 1 to 36.
#[tactic(auto, unfolding(rules::specs::State::prn_valid))]
pub fn prn_valid(prn: u8) -> bool
    ensures { (result ≡ S.prn_valid prn) × (result ≡ true → (1 ≤ prn) × (prn ≤ 36)) }
{
    (1..=36).contains(&prn)
}

// A stamp is a time plus 1, or 0 for never, and no Option: the clocks lie in memory that C lends, four bytes each.

// The stamp of the last sub-frame.
#[tactic(auto, unfolding(rules::specs::State::last_subframe))]
pub fn last_subframe(clocks: &Clocks) -> u32
    ensures { result ≡ S.last_subframe clocks.now }
{
    clocks[0]
}

// The stamp of a satellite's last sub-frame.
#[tactic(auto, unfolding(rules::specs::State::last_subframe_of))]
pub fn last_subframe_of(clocks: &Clocks, prn: u8) -> u32
    requires { prn ≤ 36 }
    ensures { result ≡ S.last_subframe_of clocks.now prn }
{
    clocks[prn as usize]
}

// The stamp of a satellite's last word.
#[tactic(auto, unfolding(rules::specs::State::last_word_of))]
pub fn last_word_of(clocks: &Clocks, prn: u8) -> u32
    requires { prn ≤ 36 }
    ensures { result ≡ S.last_word_of clocks.now prn }
{
    clocks[36 + prn as usize]
}

// The time of a sub-frame is noted: the last over all satellites, and this one's.
#[tactic(auto, unfolding(rules::specs::Times::stamp_of))]
pub fn note_subframe(clocks: &mut Clocks, prn: u8, time: u32)
    requires { (prn ≤ 36) × (time < 4294967295) }
    ensures { clocks.new ≡ set (set clocks.old 0 (stamp_of time)) prn (stamp_of time) }
{
    clocks[0] = time + 1;
    clocks[prn as usize] = time + 1;
}

// The time of a satellite's word is noted.
#[tactic(auto, unfolding(rules::specs::Times::stamp_of))]
pub fn note_word(clocks: &mut Clocks, prn: u8, time: u32)
    requires { (prn ≤ 36) × (time < 4294967295) }
    ensures { clocks.new ≡ set clocks.old (36 + prn) (stamp_of time) }
{
    let at = 36 + prn as usize;
    clocks[at] = time + 1;
}

// A stamp is that of a later time.
#[tactic(auto, unfolding(rules::specs::Times::stamp_of))]
pub fn later(stamp: u32, time: u32) -> bool
    ensures { result ≡ ltb (stamp_of time) stamp }
{
    stamp != 0 && time < stamp - 1
}

// A stamp is that of this time or of a later one.
#[tactic(auto, unfolding(rules::specs::Times::stamp_of))]
pub fn reached(stamp: u32, time: u32) -> bool
    ensures { result ≡ leb (stamp_of time) stamp }
{
    time < stamp
}

// ---- the held key and the waiting tags

// What every slot is below: the last is in week 4095.
const SLOTS: u64 = 17179869184;

// The most tags that wait at once.
const MOST_WAITING: u64 = 256;

// The held key's slot; a number past every slot counts as 0.
#[tactic(auto, unfolding(rules::specs::State::held_slot))]
pub fn held_slot(numbers: &Numbers) -> u64
    ensures { (result ≡ S.held_slot numbers.now) × (result < 17179869184) }
{
    match numbers[0] {
        slot @ 0..SLOTS => slot,
        _ => 0,
    }
}

// How many tags wait; at most 256 do.
#[tactic(auto, unfolding(rules::specs::State::waiting_count))]
pub fn waiting_count(numbers: &Numbers) -> usize
    ensures { (result ≡ S.waiting_count numbers.now) × (result ≤ 256) }
{
    match numbers[1] {
        count @ 0..=MOST_WAITING => count as usize,
        _ => 0,
    }
}
