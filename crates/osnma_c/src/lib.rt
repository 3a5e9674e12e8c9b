// The calls of the boundary (crate osnma), exported to C and Rust under their names: each hands on what it was lent, and states the clauses of the call again.
// A slice is two arguments, a pointer and a count of elements. include/osnma.h and rust/osnma have the calls over one object.
#![tactic(auto)]

ghost use Rattle.std.specs.Prelude.{◌≡◌};
ghost use Rattle.regions.specs.Told.{told, subframe_told, subframe};
ghost use Rattle.call_reads.specs.Reads.{set_told, offer_told, four_told, progress_told};
ghost use Rattle.rules.specs.Calls.{start_call, word_call, subframe_call, verdict_call, set_read, offer_read, four_read, progress_read};
ghost use Rattle.rules.specs.State.{State, state, word_lent, verdict_lent, set_lent, offer_lent, four_lent, progress_lent};

// The number of the layout of regions and exported parameters, in the name too: a caller that was written for another one does not link.
#[unsafe(no_mangle)]
pub extern "C" fn osnma_layout_2() -> u32
    ensures { result ≡ 2 }
{
    osnma::osnma_layout_2()
}

// Begins: installs the settings and the first public key, and clears all else (01, start).
#[unsafe(no_mangle)]
pub extern "C" fn osnma_regions_start(
    config: &mut [u8],
    clocks: &mut [u32],
    words: &mut [u8],
    stamps: &mut [u32],
    blocks: &mut [u8],
    headers: &mut [u8],
    present: &mut [u16],
    since: &mut [u32],
    pubkeys: &mut [u8],
    offer: &mut [u8],
    chain: &mut [u8],
    numbers: &mut [u64],
    heldkey: &mut [u8],
    waiting: &mut [u8],
    sets: &mut [u8],
    arrivals: &mut [u32],
    ns: u8,
    id: u8,
    kind: u8,
    maclt: u8,
    marks: &[u8],
    root: &[u8],
    pubkey: &[u8],
) -> u32
    ensures { told result
        (state config.new clocks.new words.new stamps.new
        blocks.new headers.new present.new since.new
        pubkeys.new offer.new chain.new numbers.new
        heldkey.new waiting.new sets.new arrivals.new)
        ≡ start_call
        (state config.old clocks.old words.old stamps.old
        blocks.old headers.old present.old since.old
        pubkeys.old offer.old chain.old numbers.old
        heldkey.old waiting.old sets.old arrivals.old)
        (record { ns = ns; id = id; type = kind; maclt = maclt; marks = marks.now; root = root.now; key = pubkey.now }) }
{
    osnma::osnma_regions_start(
        config, clocks, words, stamps, blocks, headers, present, since, pubkeys, offer, chain,
        numbers, heldkey, waiting, sets, arrivals, ns, id, kind, maclt, marks, root, pubkey,
    )
}

// Lends an I/NAV word with the GST_SF of its sub-frame (01, word).
#[unsafe(no_mangle)]
pub extern "C" fn osnma_regions_word(
    config: &[u8],
    clocks: &mut [u32],
    words: &mut [u8],
    stamps: &mut [u32],
    prn: u8,
    time: u32,
    bytes: &[u8],
) -> u32
    ensures { (s : State) →
        told result (word_lent s config.now clocks.new words.new stamps.new)
        ≡ word_call (word_lent s config.now clocks.old words.old stamps.old)
        (record { prn = prn; time = time; bytes = bytes.now }) }
{
    osnma::osnma_regions_word(config, clocks, words, stamps, prn, time, bytes)
}

// Lends the authentication fields of a sub-frame, 15 of five bytes, with its GST_SF (01, sub-frame). `marks` say which of them came (02, P3), field 0
// in the first of sixteen bits; the last bit is not read, nor is what is lent for a field that did not come. The two halves' numbers go to `hkroot`
// and `mack`; it returns how many tag records of 12 bytes now stand at the front of `area`.
#[unsafe(no_mangle)]
pub extern "C" fn osnma_regions_subframe(
    config: &mut [u8],
    clocks: &mut [u32],
    words: &[u8],
    stamps: &[u32],
    blocks: &mut [u8],
    headers: &mut [u8],
    present: &mut [u16],
    since: &mut [u32],
    pubkeys: &mut [u8],
    offer: &mut [u8],
    chain: &[u8],
    numbers: &mut [u64],
    heldkey: &mut [u8],
    waiting: &mut [u8],
    sets: &mut [u8],
    arrivals: &mut [u32],
    area: &mut [u8],
    prn: u8,
    time: u32,
    marks: u16,
    bytes: &[u8],
    hkroot: &mut u32,
    mack: &mut u32,
) -> u32
    ensures { subframe_told hkroot.new mack.new result
        (state config.new clocks.new words.now stamps.now
        blocks.new headers.new present.new since.new
        pubkeys.new offer.new chain.now numbers.new
        heldkey.new waiting.new sets.new arrivals.new)
        area.new
        ≡ subframe_call
        (state config.old clocks.old words.now stamps.now
        blocks.old headers.old present.old since.old
        pubkeys.old offer.old chain.now numbers.old
        heldkey.old waiting.old sets.old arrivals.old)
        area.old (subframe prn time marks bytes.now) }
{
    osnma::osnma_regions_subframe(
        config, clocks, words, stamps, blocks, headers, present, since, pubkeys, offer, chain,
        numbers, heldkey, waiting, sets, arrivals, area, prn, time, marks, bytes, hkroot, mack,
    )
}

// Tells what the signature chip says of the waiting message: good 1, bad 0 (01, verdict).
#[unsafe(no_mangle)]
pub extern "C" fn osnma_regions_verdict(
    config: &[u8],
    pubkeys: &mut [u8],
    offer: &mut [u8],
    chain: &mut [u8],
    numbers: &mut [u64],
    heldkey: &mut [u8],
    waiting: &mut [u8],
    arrivals: &mut [u32],
    good: u8,
    id: u8,
    message: &[u8],
    signature: &[u8],
) -> u32
    ensures { (s : State) →
        told result (verdict_lent s config.now pubkeys.new offer.new chain.new
        numbers.new heldkey.new waiting.new arrivals.new)
        ≡ verdict_call (verdict_lent s config.now pubkeys.old offer.old chain.old
        numbers.old heldkey.old waiting.old arrivals.old)
        (record { good = good; id = id; message = message.now; signature = signature.now }) }
{
    osnma::osnma_regions_verdict(
        config, pubkeys, offer, chain, numbers, heldkey, waiting, arrivals, good, id, message,
        signature,
    )
}

// Reads a satellite's authentic set, its IODnav and the GST_SF of its tag (01, read).
#[unsafe(no_mangle)]
pub extern "C" fn osnma_regions_read_set(
    sets: &[u8],
    arrivals: &[u32],
    prn: u8,
    out: &mut [u8],
    issue: &mut u16,
    time: &mut u32,
) -> u32
    ensures { (s : State) →
        set_told result out.new issue.new time.new
        ≡ set_read (set_lent s sets.now arrivals.now) prn out.old }
{
    osnma::osnma_regions_read_set(sets, arrivals, prn, out, issue, time)
}

// Reads the message that waits for a verdict, with its key (01, read).
#[unsafe(no_mangle)]
pub extern "C" fn osnma_regions_read_message(
    pubkeys: &[u8],
    offer: &[u8],
    message: &mut [u8],
    signature: &mut [u8],
    pubkey: &mut [u8],
    id: &mut u8,
    kind: &mut u8,
) -> u32
    ensures { (s : State) →
        offer_told result message.new signature.new pubkey.new id.new kind.new
        ≡ offer_read (offer_lent s pubkeys.now offer.now) message.old signature.old pubkey.old }
{
    osnma::osnma_regions_read_message(pubkeys, offer, message, signature, pubkey, id, kind)
}

// Asks whether at least four satellites have an authentic set whose tag came within `limit` sub-frames of the last one noted (02, P5): 1 in `yes`, or 0.
#[unsafe(no_mangle)]
pub extern "C" fn osnma_regions_four(
    clocks: &[u32],
    arrivals: &[u32],
    limit: u32,
    yes: &mut u8,
) -> u32
    ensures { (s : State) →
        four_told result yes.new ≡ four_read (four_lent s clocks.now arrivals.now) limit }
{
    osnma::osnma_regions_four(clocks, arrivals, limit, yes)
}

// Asks how far along each message is (02, P9): of each of the sixteen DSM IDs the blocks held and the blocks missing, 255 where the total is unknown.
#[unsafe(no_mangle)]
pub extern "C" fn osnma_regions_progress(blocks: &[u8], present: &[u16], out: &mut [u8]) -> u32
    ensures { (s : State) →
        progress_told result out.new ≡ progress_read (progress_lent s blocks.now present.now) out.old }
{
    osnma::osnma_regions_progress(blocks, present, out)
}
