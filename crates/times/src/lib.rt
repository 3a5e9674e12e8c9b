#![tactic(auto)]

// Galileo System Time, sub-frames and key slots as numbers (01, "Times and slots"): each function gives what the definition of the same
// name in rules/specs/Times.antt gives.
ghost use Rattle.std.specs.Prelude.{◌≡◌, ◌-◌, ◌%◌, ◌^◌, ◌≤◌, ◌<◌};
ghost use Rattle.rules.specs.Times as S;

// The second of week of a GST_SF.
#[tactic(auto, unfolding(rules::specs::Times::second_of))]
pub fn second_of(g: u32) -> u32
    ensures { result ≡ S.second_of g }
{
    g % 1048576
}

// Whether a GST_SF is a time: "a multiple of 30 up to 604770".
pub fn time_valid(g: u32) -> bool
    ensures { result ≡ S.time_valid g }
{
    let second = second_of(g);
    second <= 604770 && second % 30 == 0
}

// Seconds since the start of week 0.
#[tactic(auto, unfolding(rules::specs::Times::seconds_of, rules::specs::Times::week_of, rules::specs::Times::second_of))]
pub fn seconds_of(g: u32) -> u64
    ensures { result ≡ S.seconds_of g }
{
    let n = u64::from(g);
    n / 1048576 * 604800 + n % 1048576
}

// The GST_SF of seconds since the start of week 0, in 32 bits.
pub fn gst_of(n: u64) -> u32
    ensures { result ≡ S.gst_of n % 2 ^ 32 }
{
    (n / 604800 % 4096 * 1048576 + n % 604800) as u32
}

// Seconds of a week's hour.
#[tactic(auto, unfolding(rules::specs::Times::hour_seconds))]
pub fn hour_seconds(week: u64, hour: u64) -> u64
    requires { (week < 4096) × (hour < 256) }
    ensures { result ≡ S.hour_seconds week hour }
{
    week * 604800 + hour * 3600
}

// Whole sub-frames from one time to another, in seconds: the number of a sub-frame from the root's sub-frame 0, or the age of a tag.
#[tactic(auto, unfolding(rules::specs::Times::subframe_at))]
pub fn subframe_at(from: u64, seconds: u64) -> u64
    ensures { result ≡ S.subframe_at from seconds }
{
    seconds.saturating_sub(from) / 30
}

// ns and nmack stay two numbers in the four functions below: callers have them as fields of `rules::Chain`, the exports of test_leaves as numbers from C,
// so that a struct of the two would be made at each call, and its ranges be asked for all the same.

// The slot of the key that PRN p sends in block b of sub-frame s.
pub fn slot_of(ns: u64, nmack: u64, s: u64, b: u64, p: u64) -> u64
    requires { ((1 ≤ ns) × (ns ≤ 36)) × ((nmack ≤ 3) × ((s < 2 ^ 33) × (b < 256))) }
    ensures { result ≡ S.slot_of ns nmack s b p }
{
    s * ns * nmack + b.saturating_sub(1) * ns + p.saturating_sub(1) % ns + 1
}

// The lowest slot of block b of sub-frame s.
#[tactic(auto, unfolding(rules::specs::Times::lowest_slot))]
fn lowest_slot(ns: u64, nmack: u64, s: u64, b: u64) -> u64
    requires { ((1 ≤ ns) × (ns ≤ 36)) × ((nmack ≤ 3) × ((s < 2 ^ 33) × (b < 256))) }
    ensures { result ≡ S.lowest_slot ns nmack s b }
{
    slot_of(ns, nmack, s, b, 1)
}

// Seconds of the sub-frame of slot m; the root, slot 0, is 30 s before sub-frame 0.
pub fn slot_seconds(ns: u64, nmack: u64, root: u64, m: u64) -> u64
    requires { ((1 ≤ ns) × (ns ≤ 36)) × (((1 ≤ nmack) × (nmack ≤ 3)) × ((root < 2 ^ 33) × (m < 2 ^ 35))) }
    ensures { result ≡ S.slot_seconds ns nmack root m }
{
    if m == 0 {
        return root.saturating_sub(30);
    }
    root + 30 * ((m - 1) / (ns * nmack))
}

// Sub-frames between a tag and its key, by its ADKD.
#[tactic(auto, unfolding(rules::specs::Times::delay_of))]
pub fn delay_of(adkd: u8) -> u64
    ensures { result ≡ S.delay_of adkd }
{
    match adkd {
        11 => 1,
        12 => 10,
        _ => 0,
    }
}

// Seconds of the sub-frame whose key a tag that came at g uses.
pub fn key_seconds(g: u32, adkd: u8) -> u64
    ensures { result ≡ S.key_seconds g adkd }
{
    seconds_of(g) + 30 * delay_of(adkd)
}

// The slot of the key of a tag of block b that came at g.
pub fn tag_slot(ns: u64, nmack: u64, root: u64, g: u32, b: u8, adkd: u8) -> u64
    requires { ((1 ≤ ns) × (ns ≤ 36)) × (nmack ≤ 3) }
    ensures { result ≡ S.tag_slot ns nmack root g b adkd }
{
    let subframe = subframe_at(root, key_seconds(g, adkd));
    lowest_slot(ns, nmack, subframe, u64::from(b))
}
