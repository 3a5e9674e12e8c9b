// DSM-KROOT, the message that waits and the contents of a chain (crates/kroot). Of a chain the numbers go into a lent array.
ghost use Rattle.std.specs.Prelude.{◌≡◌, ◌≤◌, length};
ghost use Rattle.rules.specs.Kroot as Kroot;
ghost use Rattle.rules.specs.State.{config_length, offer_length, pubkeys_length};

#[unsafe(no_mangle)]
pub extern "C" fn leaf_kroot_judge(
    pubkeys: &[u8],
    config: &[u8],
    offer: &mut [u8],
    header: u8,
    d: &[u8],
) -> u32
    requires { ((length pubkeys.now ≡ pubkeys_length) × (length config.now ≡ config_length))
        × ((length offer.old ≡ offer_length) × (91 ≤ length d.now)) }
    ensures { (result ≡ (Kroot.kroot_judged pubkeys.now config.now offer.old header d.now).code)
        × (offer.new ≡ (Kroot.kroot_judged pubkeys.now config.now offer.old header d.now).offer) }
{
    rules::answer_number(kroot::kroot_judge(
        pubkeys.as_array().unwrap(),
        config.as_array().unwrap(),
        offer.as_mut_array().unwrap(),
        header,
        d,
    ))
}
