// The codes of tags and of MACSEQ (crates/mac, crates/tag_codes), by the function that MF names. Each function makes the kept key and calls its leaf once.
ghost use Rattle.std.specs.Prelude.{◌≡◌, cond, ◌≤◌, eqb, length};
ghost use Rattle.rules.specs.Tags.{mac_bits, first_message, tag_message};
ghost use Rattle.test_leaves.specs.Numbers.{tag_of};

use rules::Tag;

// The first n bits of the code of a message under a key.
#[unsafe(no_mangle)]
pub extern "C" fn leaf_mac_bits(mf: u8, n: usize, key: &[u8], message: &[u8]) -> u64
    requires { ((n ≤ 56) × (length message.now ≤ 76)) × (length key.now ≤ 32) }
    ensures { result ≡ mac_bits mf n key.now message.now }
{
    let mut kept = [0u8; 273];
    mac::keep(mf, key, &mut kept);
    mac::mac_bits(mf, n, &kept, message)
}

// Whether a tag of ms bits matches a set under a key: 1 where it does. `first` is 1 for tag0, whose message has no PRN_N.
#[unsafe(no_mangle)]
pub extern "C" fn leaf_tag_matches(
    mf: u8,
    ms: u64,
    key: &[u8],
    first: u32,
    sender: u8,
    prn: u8,
    position: u8,
    time: u32,
    status: u8,
    bits: u64,
    set: &[u8],
) -> u32
    requires { ((ms ≤ 40) × (length set.now ≡ 69)) × (length key.now ≤ 32) }
    ensures { result ≡ cond
        (eqb
        (mac_bits mf ms key.now
        (cond (eqb first 1) (first_message (tag_of sender prn 0 1 position time status bits) set.now)
        (tag_message (tag_of sender prn 0 1 position time status bits) set.now))) bits) 1 0 }
{
    let t = Tag {
        sender,
        prn,
        adkd: 0,
        block: 1,
        position,
        time,
        status,
        bits,
    };
    let mut kept = [0u8; 273];
    mac::keep(mf, key, &mut kept);
    let set = set.as_array().unwrap();
    bools::number(tag_codes::tag_matches(mf, ms, &kept, first == 1, t, set))
}
