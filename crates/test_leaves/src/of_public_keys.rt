// Public keys (crates/public_keys).
ghost use Rattle.std.specs.Prelude.{◌≡◌, ◌≤◌, ◌<◌, length};
ghost use Rattle.rules.specs.PublicKeys as PublicKeys;
ghost use Rattle.rules.specs.State.{pubkeys_length};

#[unsafe(no_mangle)]
pub extern "C" fn leaf_add_key(pubkeys: &mut [u8], id: u8, kind: u8, key: &[u8])
    requires { ((length pubkeys.old ≡ pubkeys_length) × (id < 16)) × ((kind < 4) × (length key.now ≤ 67)) }
    ensures { pubkeys.new ≡ PublicKeys.with_key pubkeys.old id kind key.now }
{
    public_keys::add_key(pubkeys.as_mut_array().unwrap(), id, kind, key);
}
