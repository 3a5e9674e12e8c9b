// Words and navigation sets (crates/navdata).
ghost use Rattle.std.specs.Prelude.{◌≡◌, cond, ◌+◌, ◌≤◌, length};
ghost use Rattle.laws.specs.Lists.{splice};
ghost use Rattle.rules.specs.Navdata as Navdata;
ghost use Rattle.rules.specs.Tags.{status_and_set};
ghost use Rattle.rules.specs.State.{stamps_length, words_length};
ghost use Rattle.navdata.specs.Pieces.{nav};

#[unsafe(no_mangle)]
pub extern "C" fn leaf_store_word(
    words: &mut [u8],
    stamps: &mut [u32],
    prn: usize,
    kind: usize,
    w: &[u8],
    stamp: u32,
)
    requires words_len { ((length words.old ≡ words_length) × (length stamps.old ≡ stamps_length)) × (length w.now ≡ 16) }
    requires le_prn { ((1 ≤ prn) × (prn ≤ 36)) × ((1 ≤ kind) × (kind ≤ 5)) }
    ensures { nav words.new stamps.new
        ≡ Navdata.word_stored (nav words.old stamps.old) prn kind w.now stamp }
{
    navdata::store_word(
        words.as_mut_array().unwrap(),
        stamps.as_mut_array().unwrap(),
        prn,
        kind,
        w.as_array().unwrap(),
        stamp,
    );
}

#[unsafe(no_mangle)]
pub extern "C" fn leaf_usable(words: &[u8], stamps: &[u32], prn: usize, t: u32) -> u32
    requires { ((length words.now ≡ words_length) × (length stamps.now ≡ stamps_length)) × ((1 ≤ prn) × (prn ≤ 36)) }
    ensures { result ≡ cond (Navdata.usable (nav words.now stamps.now) prn t) 1 0 }
{
    let words = words.as_array().unwrap();
    let stamps = stamps.as_array().unwrap();
    bools::number(navdata::usable(words, stamps, prn, t))
}

#[unsafe(no_mangle)]
pub extern "C" fn leaf_set_bytes(words: &[u8], prn: usize, out: &mut [u8], to: usize)
    requires { ((length words.now ≡ words_length) × ((1 ≤ prn) × (prn ≤ 36))) × (to + 69 ≤ length out.old) }
    ensures { out.new ≡ splice out.old to (Navdata.set_of words.now prn) }
{
    navdata::set_bytes(words.as_array().unwrap(), prn, out, to);
}

#[unsafe(no_mangle)]
pub extern "C" fn leaf_set_of(words: &[u8], prn: usize, out: &mut [u8; 69])
    requires { (length words.now ≡ words_length) × ((1 ≤ prn) × (prn ≤ 36)) }
    ensures { out.new ≡ Navdata.set_of words.now prn }
{
    let set = navdata::set_of(words.as_array().unwrap(), prn);
    *out = set;
}

#[unsafe(no_mangle)]
pub extern "C" fn leaf_set_issue(set: &[u8]) -> u16
    requires { length set.now ≡ 69 }
    ensures { result ≡ Navdata.set_issue set.now }
{
    navdata::set_issue(set.as_array().unwrap())
}

#[unsafe(no_mangle)]
pub extern "C" fn leaf_status_and_set(status: u8, set: &[u8], out: &mut [u8], to: usize)
    requires { (length set.now ≡ 69) × (to + 69 ≤ length out.old) }
    ensures { out.new ≡ splice out.old to (status_and_set status set.now) }
{
    navdata::status_and_set(status, set.as_array().unwrap(), out, to);
}
