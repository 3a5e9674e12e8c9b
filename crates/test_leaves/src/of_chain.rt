// The key chain (crates/chain). The walk is total, so that the benchmark can call it with any numbers.
ghost use Rattle.std.specs.Prelude.{◌≡◌, cond, ◌+◌, ◌^◌, ◌≤◌, leb, take};
ghost use Rattle.rules.specs.Bits.{within};
ghost use Rattle.rules.specs.Chain.{held, key_fits};
ghost use Rattle.chain.specs.Sound.{Walks};
ghost use Rattle.test_leaves.specs.Numbers.{chain_of};
ghost use Rattle.test_leaves.specs.Walk.{gave, longest_key, osnma_walk};

use rules::Chain;

// The key of slot m + n becomes the key of slot m: n steps. 0, or 1 where a number is out of range, and the key is then as it was.
// `alpha` is read; of the 32 bytes of `key` the first `width` are the key, the others stay.
#[unsafe(no_mangle)]
pub extern "C" fn osnma_walk(
    ns: u64,
    nmack: u64,
    root: u64,
    alpha: &[u8; 6],
    hf: u8,
    width: usize,
    n: u64,
    m: u64,
    key: &mut [u8; 32],
) -> u32
    ensures { gave result key.new ≡ osnma_walk (chain_of ns nmack root alpha.now hf width) n m key.old }
{
    let longest = longest_key(hf);
    if !in_range(1, 36, ns) {
        return 1;
    }
    if !in_range(1, 3, nmack) {
        return 1;
    }
    if !in_range(12, longest, width as u64) {
        return 1;
    }
    if 8589934592 <= root {
        return 1;
    }
    if !slots_fit(n, m) {
        return 1;
    }
    let a = *alpha;
    let c = Chain {
        ns,
        nmack,
        root,
        alpha: a,
        hf,
        mf: 0,
        width,
        ms: 0,
        fields: 0,
    };
    chain::walk(c, n, m, key);
    0
}

// Bytes of the longest key, by HF; none has HF 3 or more.
fn longest_key(hf: u8) -> u64
    ensures { result ≡ longest_key hf }
{
    if 2 < hf {
        return 0;
    }
    if hf == 1 {
        return 28;
    }
    32
}

// Whether x lies from low to high.
fn in_range(low: u64, high: u64, x: u64) -> bool
    ensures { result ≡ within low high x }
{
    low <= x && x <= high
}

// Whether n steps from slot m are among the slots of a chain.
fn slots_fit(n: u64, m: u64) -> bool
    ensures { result ≡ leb (m + n) (2 ^ 34) }
{
    if 17179869184 < m {
        return false;
    }
    n <= 17179869184 - m
}

#[unsafe(no_mangle)]
pub extern "C" fn leaf_key_fits(
    ns: u64,
    nmack: u64,
    root: u64,
    alpha: &[u8; 6],
    hf: u8,
    width: usize,
    slot: u64,
    known: &[u8; 32],
    sent: u64,
    key: &[u8; 32],
) -> u32
    requires { Walks (chain_of ns nmack root alpha.now hf width) × ((slot ≤ 2 ^ 34) × (sent ≤ 2 ^ 34)) }
    ensures { result ≡ cond
        (key_fits (chain_of ns nmack root alpha.now hf width) (held slot (take width known.now)) sent
        (take width key.now)) 1 0 }
{
    let a = *alpha;
    let c = Chain {
        ns,
        nmack,
        root,
        alpha: a,
        hf,
        mf: 0,
        width,
        ms: 0,
        fields: 0,
    };
    let k = *known;
    let s = *key;
    let f = chain::key_fits(c, slot, k, sent, s, slot);
    bools::number(f.fits)
}
