#![tactic(auto)]

// The TESLA key chain (01, "Times and slots", "MACK"; 000, 5.4). What each function gives is its definition in rules/specs/Chain.antt.
// A key is the first `width` bytes of 32; the bytes after them stay as they are. One proof serves every width.
// Public calls:
//   walk         n steps down the chain
//   key_of_slot  the key of a slot at or below the held one
//   nearer       where the way down to a slot begins
//   key_on_way   the key of a slot, from the lowest key that was met above it
//   key_fits     whether a key belongs to the chain of the held one, and a key that is met between the two
//   sent_slot    the slot of the key that a satellite sends
//   key_slot     the slot of the key that a tag uses
// A step hashes one block, which stays filled from step to step: only the key and the time in it change.
// The hash is the one that HF names (02, P6). It is chosen once a walk, `walk_by`, which stands for SHA-256 and for the sponges of SHA3.
ghost use Rattle.std.specs.Prelude.{◌≡◌, List, ℕ, ◌+◌, ◌-◌, ◌%◌, ◌^◌, ◌≤◌, ◌<◌, ◌++◌, length, replicate, take};
ghost use Rattle.laws.specs.Lists.{splice, same};
ghost use Rattle.rules.specs.Chain as S;
ghost use Rattle.rules.specs.declared.Chain.{Chain};
ghost use Rattle.sha256.specs.Sha256.{H0, compress, bytes, tail};
ghost use Rattle.sha3.specs.Sha3.{one_block};
ghost use Rattle.chain.specs.Sound.{Walks, Hashes, Framed, Met, OnWay, sponge_tail, laid_out};

use rules::Chain;

// Keys that were met on the way down from the held one: `met`, of slot `near`, and `own`, of slot `low`. Which keys these are changes no answer.
#[derive(Clone, Copy)]
pub struct Way {
    pub near: u64,
    pub met: [u8; 32],
    pub low: u64,
    pub own: [u8; 32],
}

// A hash of a step: how it pads a message in the 64 bytes of a step, and the first 32 bytes of the digest.
trait StepHash: Copy {
    // what follows a message of n bytes in the 64
    ghost padding: { ℕ → List ℕ };

    // the first 32 bytes of the digest of the message that these 64 hold
    ghost block: { Self → List ℕ → List ℕ };

    // Pads a message of n bytes that zeros follow.
    fn pad(self, n: usize, b: &mut [u8; 64])
        requires { (22 ≤ n) × (n ≤ 42) }
        ensures { (x : List ℕ) → length x ≡ n → b.old ≡ x ++ replicate (64 - n) 0 → b.new ≡ x ++ padding n };

    // Hashes a padded message.
    fn digest(self, b: &[u8; 64]) -> [u8; 32]
        ensures { result ≡ block self b.now };
}

#[derive(Clone, Copy)]
struct Sha256;

impl StepHash for Sha256 {
    ghost padding = { tail };

    ghost block = { λ _ b. bytes (compress H0 b) };

    fn pad(self, n: usize, b: &mut [u8; 64]) {
        b[n] = 0x80;
        buffer::put_u32(b, 60, (8 * n) as u32);
    }

    fn digest(self, b: &[u8; 64]) -> [u8; 32] {
        sha256::bytes(sha256::compress(sha256::initial(), b))
    }
}

// A sponge of this rate: SHA3-224 or SHA3-256.
#[derive(Clone, Copy)]
struct Sha3 {
    rate: usize,
    ghost in_range: { (136 ≤ rate) × ((rate ≤ 144) × (rate % 8 ≡ 0)) },
}

impl StepHash for Sha3 {
    ghost padding = { sponge_tail };

    ghost block = { λ s b. one_block s.rate b };

    fn pad(self, n: usize, b: &mut [u8; 64]) {
        b[n] = 6;
    }

    fn digest(self, b: &[u8; 64]) -> [u8; 32] {
        sha3::one_block(self.rate, b)
    }
}

// The key of slot m + n becomes the key of slot m: n steps, by the hash that HF names.
pub fn walk(c: Chain, n: u64, m: u64, key: &mut [u8; 32])
    requires { Walks c × (m + n ≤ 2 ^ 34) }
    ensures { key.new ≡ splice key.old 0 (S.walk c n m (take c.width key.old)) }
{
    match c.hf {
        1 => walk_by(Sha3 { rate: 144 }, c, n, m, key),
        2 => walk_by(Sha3 { rate: 136 }, c, n, m, key),
        _ => walk_by(Sha256, c, n, m, key),
    }
}

// The walk with this hash.
fn walk_by<H: StepHash>(hash: H, c: Chain, n: u64, m: u64, key: &mut [u8; 32])
    requires { (Walks c × Hashes c (H.padding (c.width + 10)) (H.block hash)) × (m + n ≤ 2 ^ 34) }
    ensures { key.new ≡ splice key.old 0 (S.walk c n m (take c.width key.old)) }
{
    let mut b = framed(hash, c, key);
    for slot in (m..m + n).rev() {
        step(hash, c, slot, &mut b);
    }
    buffer::copy_part(key, 0, &b, 0, c.width);
}

// The GST_SF of slot m, in 32 bits.
fn slot_time(c: Chain, m: u64) -> u32
    requires { Walks c × (m ≤ 2 ^ 34) }
    ensures { result ≡ S.slot_time c m % 2 ^ 32 }
{
    times::gst_of(times::slot_seconds(c.ns, c.nmack, c.root, m))
}

// The block of a step from this key, with no time and no padding.
fn laid(c: Chain, key: &[u8; 32]) -> [u8; 64]
    requires { Walks c }
    ensures { result ≡ laid_out c key.now }
{
    let mut b = [0u8; 64];
    buffer::copy_part(&mut b, 0, key, 0, c.width);
    buffer::copy_part(&mut b, c.width + 4, &c.alpha, 0, 6);
    b
}

// The block of a step: its time is still to be set.
fn framed<H: StepHash>(hash: H, c: Chain, key: &[u8; 32]) -> [u8; 64]
    requires { Walks c }
    ensures { (take c.width result ≡ take c.width key.now) × Framed c (H.padding (c.width + 10)) result }
{
    let mut b = laid(c, key);
    hash.pad(c.width + 10, &mut b);
    b
}

// One step, in the block: the key of slot m + 1 becomes the key of slot m.
fn step<H: StepHash>(hash: H, c: Chain, m: u64, b: &mut [u8; 64])
    requires { (Walks c × Hashes c (H.padding (c.width + 10)) (H.block hash)) × ((m ≤ 2 ^ 34) × Framed c (H.padding (c.width + 10)) b.old) }
    ensures { (take c.width b.new ≡ S.key_step c m (take c.width b.old)) × Framed c (H.padding (c.width + 10)) b.new }
{
    buffer::put_u32(b, c.width, slot_time(c, m));
    let d = hash.digest(b);
    buffer::copy_part(b, 0, &d, 0, c.width);
}

// The key of slot m, from the held key, whose slot is `held`. Above that slot it is the held key.
pub fn key_of_slot(c: Chain, held: u64, m: u64, key: &mut [u8; 32])
    requires { Walks c × (held ≤ 2 ^ 34) }
    ensures { key.new ≡ splice key.old 0 (S.key_of_slot c (S.held held (take c.width key.old)) m) }
{
    if held <= m {
        return;
    }
    walk(c, held - m, m, key);
}

// Where the way down to slot m begins: at the key `met`, of slot `near`, where that lies between m and the slot `at` of `key`, else at `key`. The
// key there goes to `key`; its slot is given.
pub fn nearer(at: u64, near: u64, met: [u8; 32], m: u64, key: &mut [u8; 32]) -> u64
    requires { length key.old ≡ 32 }
    ensures { ((length key.new ≡ 32) × (m ≤ near → near ≤ at → result ≡ near))
        × ((result < m → result ≡ at)
        × ((result ≤ at) × ((c : Chain) (h : S.Held) → Met c h at key.old → Met c h near met → Met c h result key.new))) }
{
    if near < m || at < near {
        return at;
    }
    *key = met;
    near
}

// The key of slot m, from the held key, whose slot is `held`: the way begins at the lowest key that was met and is not below slot m.
pub fn key_on_way(c: Chain, held: u64, way: Way, m: u64, key: &mut [u8; 32])
    requires { (Walks c × (held ≤ 2 ^ 34)) × ((length key.old ≡ 32) × OnWay c (S.held held (take c.width key.old)) way) }
    ensures { (length key.new ≡ 32)
        × (take c.width key.new ≡ S.key_of_slot c (S.held held (take c.width key.old)) m) }
{
    let first = nearer(held, way.near, way.met, m, key);
    let at = nearer(first, way.low, way.own, m, key);
    key_of_slot(c, at, m, key);
}

// ---- the key of one slot checked against that of another

// Whether a key fits, and a key that was met on the way between the two: `here`, of slot `stop`. That key is given whether the other fits or not.
#[derive(Clone, Copy)]
pub struct Fit {
    pub fits: bool,
    pub stop: u64,
    pub here: [u8; 32],
}

// Whether `key`, of this slot, belongs to the chain of the held key: the one of the higher slot hashes down to the other. The key of slot `via` is met
// where the way passes it, else the key at its end.
pub fn key_fits(c: Chain, held: u64, known: [u8; 32], slot: u64, key: [u8; 32], via: u64) -> Fit
    requires { Walks c × ((held ≤ 2 ^ 34) × (slot ≤ 2 ^ 34)) }
    ensures { (result.fits ≡ S.key_fits c (S.held held (take c.width known)) slot (take c.width key))
        × (Met c (S.higher (S.held held (take c.width known)) slot (take c.width key)) result.stop result.here
        × ((held ≤ via → via ≤ slot → result.stop ≡ via) × (slot ≤ via → via ≤ held → result.stop ≡ via))) }
{
    let up = held < slot;
    if up {
        descend(c, slot, key, stop_over(held, via, slot), held, known)
    } else {
        descend(c, held, known, stop_over(slot, via, held), slot, key)
    }
}

// From the key `top` of slot `high` by way of slot `stop` down to slot `low`, where the key must be `end`.
fn descend(c: Chain, high: u64, top: [u8; 32], stop: u64, low: u64, end: [u8; 32]) -> Fit
    requires { Walks c × ((high ≤ 2 ^ 34) × ((low ≤ stop) × (stop ≤ high))) }
    ensures { (result.fits ≡ same (S.key_of_slot c (S.held high (take c.width top)) low) (take c.width end))
        × (Met c (S.held high (take c.width top)) stop result.here × (result.stop ≡ stop)) }
{
    let mut here = top;
    key_of_slot(c, high, stop, &mut here);
    let mut last = here;
    key_of_slot(c, stop, low, &mut last);
    Fit {
        fits: buffer::equal_part(&last, 0, &end, 0, c.width),
        stop,
        here,
    }
}

// The slot at which the way from slot `high` down to slot `low` stops over: `via` where it lies between them, else the end of the way.
fn stop_over(low: u64, via: u64, high: u64) -> u64
    requires { low ≤ high }
    ensures { ((low ≤ result) × (result ≤ high)) × (low ≤ via → via ≤ high → result ≡ via) }
{
    if via < low || high < via { low } else { via }
}

// ---- slots

// The slot of the key that a satellite sends in block b of the sub-frame at g.
pub fn sent_slot(c: Chain, g: u32, b: u64, prn: u8) -> u64
    requires { Walks c × (b < 256) }
    ensures { result ≡ S.sent_slot c g b prn }
{
    let s = times::subframe_at(c.root, times::seconds_of(g));
    times::slot_of(c.ns, c.nmack, s, b, prn as u64)
}

// The slot of the key of a tag of block b that came at g.
pub fn key_slot(c: Chain, g: u32, b: u8, adkd: u8) -> u64
    requires { Walks c }
    ensures { result ≡ S.key_slot c g b adkd }
{
    times::tag_slot(c.ns, c.nmack, c.root, g, b, adkd)
}
