// DSM-PKR (crates/pkr).
ghost use Rattle.std.specs.Prelude.{◌≡◌, cond, ◌≤◌, length};
ghost use Rattle.rules.specs.Pkr as Pkr;
ghost use Rattle.rules.specs.State.{pubkeys_length};

use pkr::Renewal;

// The number of a DSM-PKR.
#[unsafe(no_mangle)]
pub extern "C" fn leaf_pkr_code(pubkeys: &mut [u8], root: &[u8], d: &[u8]) -> u32
    requires { (length pubkeys.old ≡ pubkeys_length) × ((91 ≤ length d.now) × (length d.now ≤ 208)) }
    ensures { (result ≡ (Pkr.pkr_judged pubkeys.old root.now d.now).code)
        × (pubkeys.new ≡ (Pkr.pkr_judged pubkeys.old root.now d.now).pubkeys) }
{
    match pkr::pkr_judge(pubkeys.as_mut_array().unwrap(), root, d) {
        Ok(_) => 0,
        Err(refusal) => refusal.number(),
    }
}

// Whether a DSM-PKR stops the receiver: 1 where it does.
#[unsafe(no_mangle)]
pub extern "C" fn leaf_pkr_stops(pubkeys: &mut [u8], root: &[u8], d: &[u8]) -> u32
    requires { (length pubkeys.old ≡ pubkeys_length) × ((91 ≤ length d.now) × (length d.now ≤ 208)) }
    ensures { (result ≡ cond (Pkr.pkr_judged pubkeys.old root.now d.now).stops 1 0)
        × (pubkeys.new ≡ (Pkr.pkr_judged pubkeys.old root.now d.now).pubkeys) }
{
    match pkr::pkr_judge(pubkeys.as_mut_array().unwrap(), root, d) {
        Ok(Renewal::Stops) => 1,
        _ => 0,
    }
}
