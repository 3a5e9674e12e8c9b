// Times and slots (crates/times).
ghost use Rattle.std.specs.Prelude.{◌≡◌, ◌^◌, ◌≤◌, ◌<◌};
ghost use Rattle.rules.specs.Times as Times;

#[unsafe(no_mangle)]
pub extern "C" fn leaf_slot_seconds(ns: u64, nmack: u64, root: u64, m: u64) -> u64
    requires { ((1 ≤ ns) × (ns ≤ 36)) × (((1 ≤ nmack) × (nmack ≤ 3)) × ((root < 2 ^ 33) × (m < 2 ^ 35))) }
    ensures { result ≡ Times.slot_seconds ns nmack root m }
{
    times::slot_seconds(ns, nmack, root, m)
}
