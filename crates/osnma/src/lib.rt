#![tactic(auto)]

// The boundary to C and Rust: the calls over lent regions. Crate osnma_c exports them; there a slice is two arguments, a pointer and a count of elements.
// include/osnma.h and rust/osnma have the calls over one object. Nobody but these calls writes the regions between a start and the last call, and the
// regions do not overlap.
// No function asks anything of its caller: any lengths, bytes, numbers and times. A call is lent the regions that it reads or writes: start and
// sub-frame all sixteen, a word four, a verdict eight, a read or question two; the others have no part in it, whatever they hold. Each function looks at the
// lengths (row 1 of 01's table) and hands on what it was lent. C lends slices: past the one test of all lengths each is the array that a call takes. That
// test joins by `&`: one fact for the proof, where `&&` leaves a case for each length. Here alone refusals get their numbers.
ghost use Rattle.std.specs.Prelude.{◌≡◌};
ghost use Rattle.regions.specs.Told.{told};
ghost use Rattle.regions.specs.Told.{subframe_told, subframe};
ghost use Rattle.call_reads.specs.Reads.{set_told, offer_told, four_told, progress_told};
ghost use Rattle.rules.specs.Calls.{start_call, word_call, subframe_call, verdict_call, set_read, offer_read, four_read, progress_read};
ghost use Rattle.rules.specs.State.{State, state, word_lent, verdict_lent, set_lent, offer_lent, four_lent, progress_lent};

use regions::{
    ARRIVALS_LENGTH, CHAIN_LENGTH, CONFIG_LENGTH, HELDKEY_LENGTH, NUMBERS_LENGTH, OFFER_LENGTH,
    PUBKEYS_LENGTH, WAITING_LENGTH,
};
use rules::Refusal;

// The number of the layout of regions and exported parameters, in the name too: a caller that was written for another one does not link.
pub fn osnma_layout_2() -> u32
    ensures { result ≡ 2 }
{
    2
}

// Begins: installs the settings and the first public key, and clears all else (01, start).
pub fn osnma_regions_start(
    config: &mut [u8],
    clocks: &mut [u32],
    words: &mut [u8],
    stamps: &mut [u32],
    blocks: &mut [u8],
    headers: &mut [u8],
    present: &mut [u16],
    since: &mut [u32],
    pubkeys: &mut [u8],
    offer: &mut [u8],
    chain: &mut [u8],
    numbers: &mut [u64],
    heldkey: &mut [u8],
    waiting: &mut [u8],
    sets: &mut [u8],
    arrivals: &mut [u32],
    ns: u8,
    id: u8,
    kind: u8,
    maclt: u8,
    marks: &[u8],
    root: &[u8],
    pubkey: &[u8],
) -> u32
    ensures { told result
        (state config.new clocks.new words.new stamps.new
        blocks.new headers.new present.new since.new
        pubkeys.new offer.new chain.new numbers.new
        heldkey.new waiting.new sets.new arrivals.new)
        ≡ start_call
        (state config.old clocks.old words.old stamps.old
        blocks.old headers.old present.old since.old
        pubkeys.old offer.old chain.old numbers.old
        heldkey.old waiting.old sets.old arrivals.old)
        (record { ns = ns; id = id; type = kind; maclt = maclt; marks = marks.now; root = root.now; key = pubkey.now }) }
{
    let shaped = regions::shaped(
        config, clocks, words, stamps, blocks, headers, present, since, pubkeys, offer, chain,
        numbers, heldkey, waiting, sets, arrivals,
    );
    let fits = shaped & ((marks.len() == 28) & ((root.len() == 32) & (pubkey.len() == 67)));
    if let Err(refusal) = call_start::start_refusal(fits, ns, id, kind, marks) {
        return refusal.number();
    }
    call_start::install_settings(
        config.as_mut_array().unwrap(),
        clocks.as_mut_array().unwrap(),
        words.as_mut_array().unwrap(),
        stamps.as_mut_array().unwrap(),
        blocks.as_mut_array().unwrap(),
        headers.as_mut_array().unwrap(),
        present.as_mut_array().unwrap(),
        since.as_mut_array().unwrap(),
        ns,
        maclt,
        marks.as_array().unwrap(),
        root.as_array().unwrap(),
    );
    call_start::install_key(
        pubkeys.as_mut_array().unwrap(),
        offer.as_mut_array().unwrap(),
        chain.as_mut_array().unwrap(),
        numbers.as_mut_array().unwrap(),
        heldkey.as_mut_array().unwrap(),
        waiting.as_mut_array().unwrap(),
        sets.as_mut_array().unwrap(),
        arrivals.as_mut_array().unwrap(),
        id,
        kind,
        pubkey.as_array().unwrap(),
    );
    0
}

// Lends an I/NAV word with the GST_SF of its sub-frame (01, word).
pub fn osnma_regions_word(
    config: &[u8],
    clocks: &mut [u32],
    words: &mut [u8],
    stamps: &mut [u32],
    prn: u8,
    time: u32,
    bytes: &[u8],
) -> u32
    ensures { (s : State) →
        told result (word_lent s config.now clocks.new words.new stamps.new)
        ≡ word_call (word_lent s config.now clocks.old words.old stamps.old)
        (record { prn = prn; time = time; bytes = bytes.now }) }
{
    let shaped = regions::word_shaped(config, clocks, words, stamps);
    if !(shaped & (bytes.len() == 16)) {
        return Refusal::WrongLength.number();
    }
    let taken = call_word::take_word(
        config.as_array().unwrap(),
        clocks.as_mut_array().unwrap(),
        words.as_mut_array().unwrap(),
        stamps.as_mut_array().unwrap(),
        prn,
        time,
        bytes.as_array().unwrap(),
    );
    rules::answer_number(taken)
}

// Lends the authentication fields of a sub-frame, 15 of five bytes, with its GST_SF (01, sub-frame). `marks` say which of them came (02, P3), field 0
// in the first of sixteen bits; the last bit is not read, nor is what is lent for a field that did not come. The two halves' numbers go to `hkroot`
// and `mack`; it returns how many tag records of 12 bytes now stand at the front of `area`.
pub fn osnma_regions_subframe(
    config: &mut [u8],
    clocks: &mut [u32],
    words: &[u8],
    stamps: &[u32],
    blocks: &mut [u8],
    headers: &mut [u8],
    present: &mut [u16],
    since: &mut [u32],
    pubkeys: &mut [u8],
    offer: &mut [u8],
    chain: &[u8],
    numbers: &mut [u64],
    heldkey: &mut [u8],
    waiting: &mut [u8],
    sets: &mut [u8],
    arrivals: &mut [u32],
    area: &mut [u8],
    prn: u8,
    time: u32,
    marks: u16,
    bytes: &[u8],
    hkroot: &mut u32,
    mack: &mut u32,
) -> u32
    ensures { subframe_told hkroot.new mack.new result
        (state config.new clocks.new words.now stamps.now
        blocks.new headers.new present.new since.new
        pubkeys.new offer.new chain.now numbers.new
        heldkey.new waiting.new sets.new arrivals.new)
        area.new
        ≡ subframe_call
        (state config.old clocks.old words.now stamps.now
        blocks.old headers.old present.old since.old
        pubkeys.old offer.old chain.now numbers.old
        heldkey.old waiting.old sets.old arrivals.old)
        area.old (subframe prn time marks bytes.now) }
{
    let lent = (area.len() == regions::AREA_LENGTH) & (bytes.len() == 75);
    let shaped = regions::shaped(
        config, clocks, words, stamps, blocks, headers, present, since, pubkeys, offer, chain,
        numbers, heldkey, waiting, sets, arrivals,
    );
    if !(shaped & lent) {
        *hkroot = Refusal::WrongLength.number();
        *mack = Refusal::WrongLength.number();
        return 0;
    }
    let r = call_subframe::take_subframe(
        config.as_mut_array().unwrap(),
        clocks.as_mut_array().unwrap(),
        words.as_array().unwrap(),
        stamps.as_array().unwrap(),
        blocks.as_mut_array().unwrap(),
        headers.as_mut_array().unwrap(),
        present.as_mut_array().unwrap(),
        since.as_mut_array().unwrap(),
        pubkeys.as_mut_array().unwrap(),
        offer.as_mut_array().unwrap(),
        chain.as_array().unwrap(),
        numbers.as_mut_array().unwrap(),
        heldkey.as_mut_array().unwrap(),
        waiting.as_mut_array().unwrap(),
        sets.as_mut_array().unwrap(),
        arrivals.as_mut_array().unwrap(),
        area.as_mut_array().unwrap(),
        prn,
        time,
        marks,
        bytes.as_array().unwrap(),
    );
    *hkroot = rules::answer_number(r.hkroot);
    match r.mack {
        Ok(count) => {
            *mack = 0;
            count
        }
        Err(refusal) => {
            *mack = refusal.number();
            0
        }
    }
}

// Tells what the signature chip says of the waiting message: good 1, bad 0 (01, verdict).
pub fn osnma_regions_verdict(
    config: &[u8],
    pubkeys: &mut [u8],
    offer: &mut [u8],
    chain: &mut [u8],
    numbers: &mut [u64],
    heldkey: &mut [u8],
    waiting: &mut [u8],
    arrivals: &mut [u32],
    good: u8,
    id: u8,
    message: &[u8],
    signature: &[u8],
) -> u32
    ensures { (s : State) →
        told result (verdict_lent s config.now pubkeys.new offer.new chain.new
        numbers.new heldkey.new waiting.new arrivals.new)
        ≡ verdict_call (verdict_lent s config.now pubkeys.old offer.old chain.old
        numbers.old heldkey.old waiting.old arrivals.old)
        (record { good = good; id = id; message = message.now; signature = signature.now }) }
{
    let shaped = regions::verdict_shaped(
        config, pubkeys, offer, chain, numbers, heldkey, waiting, arrivals,
    );
    if !(shaped & ((message.len() == 45) & (signature.len() == 132))) {
        return Refusal::WrongLength.number();
    }
    let judged = call_verdict::judge_verdict(
        config.as_array::<CONFIG_LENGTH>().unwrap(),
        pubkeys.as_mut_array::<PUBKEYS_LENGTH>().unwrap(),
        offer.as_mut_array::<OFFER_LENGTH>().unwrap(),
        chain.as_mut_array::<CHAIN_LENGTH>().unwrap(),
        numbers.as_mut_array::<NUMBERS_LENGTH>().unwrap(),
        heldkey.as_mut_array::<HELDKEY_LENGTH>().unwrap(),
        waiting.as_mut_array::<WAITING_LENGTH>().unwrap(),
        arrivals.as_mut_array::<ARRIVALS_LENGTH>().unwrap(),
        good,
        id,
        message.as_array::<45>().unwrap(),
        signature.as_array::<132>().unwrap(),
    );
    rules::answer_number(judged)
}

// Reads a satellite's authentic set, its IODnav and the GST_SF of its tag (01, read).
pub fn osnma_regions_read_set(
    sets: &[u8],
    arrivals: &[u32],
    prn: u8,
    out: &mut [u8],
    issue: &mut u16,
    time: &mut u32,
) -> u32
    ensures { (s : State) →
        set_told result out.new issue.new time.new
        ≡ set_read (set_lent s sets.now arrivals.now) prn out.old }
{
    *issue = 0;
    *time = 0;
    let shaped = regions::set_shaped(sets, arrivals);
    if !(shaped & (out.len() == 69)) {
        return Refusal::WrongLength.number();
    }
    let read = call_reads::read_set(
        sets.as_array().unwrap(),
        arrivals.as_array().unwrap(),
        prn,
        out.as_mut_array().unwrap(),
    );
    match read {
        Ok(set) => {
            *issue = set.issue;
            *time = set.time;
            0
        }
        Err(refusal) => refusal.number(),
    }
}

// Reads the message that waits for a verdict, with its key (01, read).
pub fn osnma_regions_read_message(
    pubkeys: &[u8],
    offer: &[u8],
    message: &mut [u8],
    signature: &mut [u8],
    pubkey: &mut [u8],
    id: &mut u8,
    kind: &mut u8,
) -> u32
    ensures { (s : State) →
        offer_told result message.new signature.new pubkey.new id.new kind.new
        ≡ offer_read (offer_lent s pubkeys.now offer.now) message.old signature.old pubkey.old }
{
    *id = 0;
    *kind = 0;
    let shaped = regions::offer_shaped(pubkeys, offer);
    if !(shaped & ((message.len() == 45) & ((signature.len() == 132) & (pubkey.len() == 67)))) {
        return Refusal::WrongLength.number();
    }
    let read = call_reads::read_message(
        pubkeys.as_array().unwrap(),
        offer.as_array().unwrap(),
        message.as_mut_array().unwrap(),
        signature.as_mut_array().unwrap(),
        pubkey.as_mut_array().unwrap(),
    );
    match read {
        Ok(signed) => {
            *id = signed.id;
            *kind = signed.kind;
            0
        }
        Err(refusal) => refusal.number(),
    }
}

// Asks whether at least four satellites have an authentic set whose tag came within `limit` sub-frames of the last one noted (02, P5): 1 in `yes`, or 0.
pub fn osnma_regions_four(clocks: &[u32], arrivals: &[u32], limit: u32, yes: &mut u8) -> u32
    ensures { (s : State) →
        four_told result yes.new ≡ four_read (four_lent s clocks.now arrivals.now) limit }
{
    *yes = 0;
    if !regions::four_shaped(clocks, arrivals) {
        return Refusal::WrongLength.number();
    }
    let clocks = clocks.as_array().unwrap();
    let arrivals = arrivals.as_array().unwrap();
    if call_reads::four_met(clocks, arrivals, limit) {
        *yes = 1;
    }
    0
}

// Asks how far along each message is (02, P9): of each of the sixteen DSM IDs the blocks held and the blocks missing, 255 where the total is unknown.
pub fn osnma_regions_progress(blocks: &[u8], present: &[u16], out: &mut [u8]) -> u32
    ensures { (s : State) →
        progress_told result out.new ≡ progress_read (progress_lent s blocks.now present.now) out.old }
{
    let shaped = regions::progress_shaped(blocks, present);
    if !(shaped & (out.len() == 32)) {
        return Refusal::WrongLength.number();
    }
    call_reads::read_progress(
        blocks.as_array().unwrap(),
        present.as_array().unwrap(),
        out.as_mut_array().unwrap(),
    );
    0
}
