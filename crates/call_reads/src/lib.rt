#![tactic(auto)]

// The calls that only ask (01, "Verdicts", "MACK"; 02, P5, P9), over the lent regions that they read; they write none of them. The caller has seen that every
// length is right. Where a read is refused, the lent bytes stay.
//   read_set        a PRN's authentic set, its IODnav and its tag's GST_SF
//   read_message    the message that waits for a verdict, its signature, and its key with ID and type
//   four_met        whether four satellites have an authentic set whose tag is recent
//   read_progress   of each DSM ID the blocks held and the blocks missing
ghost use Rattle.std.specs.Prelude.{◌≡◌, ℕ, ◌-◌, ◌<◌};
ghost use Rattle.rules.specs.Calls.{set_read, offer_read};
ghost use Rattle.rules.specs.Four as S;
ghost use Rattle.rules.specs.Progress as P;
ghost use Rattle.rules.specs.State.{State, set_lent, offer_lent, four_lent, progress_lent, dsm_ids};
ghost use Rattle.rules.specs.Times.{seconds_of};
ghost use Rattle.call_reads.specs.Reads.{set_answered, offer_answered};

use regions::{Arrivals, Blocks, COPY_LENGTH, Clocks, Offer, Present, Pubkeys, Sets};
use rules::{Progress, Refusal};

// What a read of a set gives beside its bytes: the set's IODnav, and the GST_SF of its tag.
#[derive(Clone, Copy, Debug, PartialEq, Eq)]
pub struct SetRead {
    pub issue: u16,
    pub time: u32,
}

// What a read of the waiting message gives beside its bytes: ID and type of the key that signed it.
#[derive(Clone, Copy, Debug, PartialEq, Eq)]
pub struct SignedBy {
    pub id: u8,
    pub kind: u8,
}

// A satellite's authentic set into 69 lent bytes.
pub fn read_set(
    sets: &Sets,
    arrivals: &Arrivals,
    prn: u8,
    out: &mut [u8; COPY_LENGTH],
) -> Result<SetRead, Refusal>
    ensures { (s : State) →
        set_answered result out.new ≡ set_read (set_lent s sets.now arrivals.now) prn out.old }
{
    if !regions::prn_valid(prn) {
        return Err(Refusal::OutOfRange);
    }
    let satellite = bitfields::index(prn);
    let stamp = authentic_sets::stamp_of(arrivals, satellite);
    if stamp == 0 {
        return Err(Refusal::NoSet);
    }
    authentic_sets::copy_set(sets, satellite, out);
    let issue = navdata::set_issue(out);
    let time = stamp - 1;
    Ok(SetRead { issue, time })
}

// What waits for a verdict: the message into 45 lent bytes, its signature into 132, its key into 67. The key ID that stands in the region counts
// modulo 16.
pub fn read_message(
    pubkeys: &Pubkeys,
    offer: &Offer,
    message: &mut [u8; 45],
    signature: &mut [u8; 132],
    pubkey: &mut [u8; 67],
) -> Result<SignedBy, Refusal>
    ensures { (s : State) →
        offer_answered result message.new signature.new pubkey.new
        ≡ offer_read (offer_lent s pubkeys.now offer.now) message.old signature.old pubkey.old }
{
    if offer[0] != 1 {
        return Err(Refusal::NotWaiting);
    }
    let id = offer[1] % 16;
    buffer::copy_part(message, 0, offer, 2, 45);
    buffer::copy_part(signature, 0, offer, 47, 132);
    public_keys::key_bytes(pubkeys, id, pubkey);
    let kind = public_keys::key_type(pubkeys, id);
    Ok(SignedBy { id, kind })
}

// Whether there is an authentic set, by the stamp of its tag's arrival, and that tag came at most `limit` sub-frames before `last`, the seconds of the last
// one noted.
#[tactic(auto, unfolding(rules::specs::Four::recent, rules::specs::Four::age_at))]
fn recent(last: u64, limit: u32, arrival: u32) -> bool
    ensures { (clock : ℕ) → last ≡ seconds_of (clock - 1) → result ≡ S.recent clock limit arrival }
{
    arrival != 0 && times::subframe_at(times::seconds_of(arrival - 1), last) <= u64::from(limit)
}

// "Answer as soon as the fourth is met" (02, P5): the scan over the 36 satellites ends there. Before any sub-frame is noted the answer is no.
pub fn four_met(clocks: &Clocks, arrivals: &Arrivals, limit: u32) -> bool
    ensures { (s : State) → result ≡ S.four_met (four_lent s clocks.now arrivals.now) limit }
{
    let clock = regions::last_subframe(clocks);
    if clock == 0 {
        return false;
    }
    let last = times::seconds_of(clock - 1);
    let mut met: u32 = 0;
    let mut i: usize = 0;
    // A `loop` left by `break`, the form that 01 names for this scan ("Language forms in the code").
    loop {
        if i == 36 {
            break false;
        }
        if recent(last, limit, arrivals[i]) {
            if met == 3 {
                break true;
            }
            met += 1;
        }
        i += 1;
    }
}

// ---- progress (02, P9)

// Stands for the number of missing blocks where the total is unknown.
pub const UNKNOWN_TOTAL: u8 = 255;

// What is missing of a total; none where more is held, to which no start leads.
fn missing_of(total: u8, held: u8) -> u8
    ensures { result ≡ total - held }
{
    total.saturating_sub(held)
}

// How far along the message of a DSM ID is.
fn progress_of(blocks: &Blocks, present: &Present, id: usize) -> Progress
    requires { id < 16 }
    ensures { (s : State) → result ≡ P.progress_of (progress_lent s blocks.now present.now).store id }
{
    let marks = present[id];
    let held = marks.count_ones() as u8;
    if !gather::marked(marks, 0) {
        return Progress::Unknown(held);
    }
    let total = gather::total_of(blocks, id * 208) as u8;
    Progress::Counted(held, missing_of(total, held))
}

// The two numbers of a DSM ID.
fn pair_of(progress: Progress) -> [u8; 2]
    ensures { result ≡ P.pair_of progress }
{
    match progress {
        Progress::Unknown(held) => [held, UNKNOWN_TOTAL],
        Progress::Counted(held, missing) => [held, missing],
    }
}

// The pairs of the sixteen DSM IDs into 32 lent bytes.
pub fn read_progress(blocks: &Blocks, present: &Present, out: &mut [u8; 32])
    ensures { (s : State) → out.new ≡ P.pairs_of (progress_lent s blocks.now present.now).store dsm_ids }
{
    for id in 0..16 {
        let pair = pair_of(progress_of(blocks, present, id));
        out[2 * id..2 * id + 2].copy_from_slice(&pair);
    }
}
