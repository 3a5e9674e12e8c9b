#![tactic(auto)]

// A verdict of the signature chip (01, "Verdicts"), over the lent regions that it reads or writes.
//   judge_verdict    the call: any bytes and numbers
//   judge_named      the same for a verdict in range, of a core that is not stopped
//   vouch            what a verdict that is not refused changes
// `c` are the contents of a message (its bytes after the NMA header).
ghost use Rattle.std.specs.Prelude.{◌≡◌, cond, List, [], ◌∷◌, ℕ, ◌*◌, ◌≤◌, ◌<◌, length};
ghost use Rattle.regions.specs.Told.{told};
ghost use Rattle.laws.specs.Lists.{splice};
ghost use Rattle.laws.specs.Refusal.{first_refusal};
ghost use Rattle.rules.specs.Bits.{filled};
ghost use Rattle.rules.specs.Calls.{verdict_call};
ghost use Rattle.rules.specs.Kroot.{kroot_of, no_offer};
ghost use Rattle.rules.specs.Refusals.{answer_number};
ghost use Rattle.rules.specs.State.{State, verdict_lent, with_auth, waiting_count, entry_length};
ghost use Rattle.rules.specs.Verdict as S;
ghost use Rattle.regions.specs.Tesla.{tesla};
ghost use Rattle.authentic_sets.specs.Regions.{auth};

use kroot::Contents;
use regions::{Arrivals, ChainInForce, Config, HeldKey, Numbers, Offer, Pubkeys, Waiting};
use rules::Refusal;

// Public keys have the IDs up to this one.
const LAST_ID: u8 = 15;

// A verdict: 1 (good) or 0, key ID, message (45 bytes) and signature (132). Out of range, or of a stopped core, it changes nothing.
pub fn judge_verdict(
    config: &Config,
    pubkeys: &mut Pubkeys,
    offer: &mut Offer,
    chain: &mut ChainInForce,
    numbers: &mut Numbers,
    heldkey: &mut HeldKey,
    waiting: &mut Waiting,
    arrivals: &mut Arrivals,
    good: u8,
    id: u8,
    message: &[u8; 45],
    signature: &[u8; 132],
) -> Result<(), Refusal>
    ensures { (s : State) →
        told (answer_number result) (verdict_lent s config.now pubkeys.new offer.new chain.new
        numbers.new heldkey.new waiting.new arrivals.new)
        ≡ verdict_call (verdict_lent s config.now pubkeys.old offer.old chain.old
        numbers.old heldkey.old waiting.old arrivals.old)
        (record { good = good; id = id; message = message.now; signature = signature.now }) }
{
    if 1 < good || LAST_ID < id {
        return Err(Refusal::OutOfRange);
    }
    if regions::stopped(config) {
        return Err(Refusal::Stopped);
    }
    judge_named(
        config, pubkeys, offer, chain, numbers, heldkey, waiting, arrivals, good, id, message,
        signature,
    )
}

// A verdict in range: 14 leaves all as before, 15, 11 and 9 drop the waiting message; not refused, it does what the message says.
fn judge_named(
    config: &Config,
    pubkeys: &mut Pubkeys,
    offer: &mut Offer,
    chain: &mut ChainInForce,
    numbers: &mut Numbers,
    heldkey: &mut HeldKey,
    waiting: &mut Waiting,
    arrivals: &mut Arrivals,
    good: u8,
    id: u8,
    message: &[u8; 45],
    signature: &[u8; 132],
) -> Result<(), Refusal>
    requires { id < 16 }
    ensures { (s : State) →
        (answer_number result ≡ first_refusal (S.vouch_checks (verdict_lent s config.now pubkeys.old offer.old chain.old
        numbers.old heldkey.old waiting.old arrivals.old)
        (record { good = good; id = id; message = message.now; signature = signature.now })))
        × (verdict_lent s config.now pubkeys.new offer.new chain.new
        numbers.new heldkey.new waiting.new arrivals.new
        ≡ S.judged_verdict (verdict_lent s config.now pubkeys.old offer.old chain.old
        numbers.old heldkey.old waiting.old arrivals.old)
        (record { good = good; id = id; message = message.now; signature = signature.now }) (answer_number result)) }
{
    let judged = call_verdict_checks::vouch_refusal(
        config, chain, offer, good, id, message, signature,
    );
    if judged == Err(Refusal::NotWaiting) {
        return judged;
    }
    end_wait(offer);
    judged?;
    vouch(
        config, pubkeys, chain, numbers, heldkey, waiting, arrivals, id, message,
    );
    Ok(())
}

// No message waits.
fn end_wait(offer: &mut Offer)
    ensures { offer.new ≡ no_offer }
{
    buffer::fill(offer, 0, regions::OFFER_LENGTH, 0);
}

// Status 3 drops the chain, the waiting tags and the candidates. Any other drops keys of lower ID and puts the root in force.
fn vouch(
    config: &Config,
    pubkeys: &mut Pubkeys,
    chain: &mut ChainInForce,
    numbers: &mut Numbers,
    heldkey: &mut HeldKey,
    waiting: &mut Waiting,
    arrivals: &mut Arrivals,
    id: u8,
    message: &[u8; 45],
)
    requires { id < 16 }
    ensures { (s : State) (good : ℕ) (signature : List ℕ) → s.config ≡ config.now → s.pubkeys ≡ pubkeys.old →
        s.chain ≡ chain.old → s.tesla ≡ tesla numbers.old heldkey.old waiting.old →
        s.auth.arrivals ≡ arrivals.old →
        with_auth (S.trusting s pubkeys.new chain.new (tesla numbers.new heldkey.new waiting.new))
        (auth s.auth.sets arrivals.new)
        ≡ S.vouched s (record { good = good; id = id; message = message.now; signature = signature }) }
{
    if gather::status_of(message[0]) == 3 {
        chain[0] = 2;
        numbers[1] = 0;
        authentic_sets::clear_candidates(arrivals);
        return;
    }
    public_keys::drop_lower(pubkeys, id);
    renew(
        config,
        chain,
        numbers,
        heldkey,
        waiting,
        arrivals,
        message[1..45].as_array().unwrap(),
    );
}

// ---- a root in force

// Contents that are in force stay so; others are put in force, and the held key begins again at their root. A new chain clears candidates.
fn renew(
    config: &Config,
    chain: &mut ChainInForce,
    numbers: &mut Numbers,
    heldkey: &mut HeldKey,
    waiting: &mut Waiting,
    arrivals: &mut Arrivals,
    c: &Contents,
)
    ensures { (s : State) → s.config ≡ config.now → s.chain ≡ chain.old →
        s.tesla ≡ tesla numbers.old heldkey.old waiting.old → s.auth.arrivals ≡ arrivals.old →
        ((chain.new ≡ cond (S.same_contents s c.now) s.chain (S.forced c.now))
        × (tesla numbers.new heldkey.new waiting.new
        ≡ cond (S.same_contents s c.now) s.tesla (S.root_held s c.now)))
        × (auth s.auth.sets arrivals.new
        ≡ cond (S.same_contents s c.now) s.auth (S.candidates_at s c.now)) }
{
    if call_verdict_checks::same_contents(config, chain, c) {
        return;
    }
    keep_candidates(config, chain, arrivals, c);
    hold_root(config, chain, numbers, heldkey, waiting, c);
    put_in_force(chain, c);
}

// Candidates stay where there is a chain in force and the contents leave it unchanged.
fn keep_candidates(config: &Config, chain: &ChainInForce, arrivals: &mut Arrivals, c: &Contents)
    ensures { (s : State) → s.config ≡ config.now → s.chain ≡ chain.now → s.auth.arrivals ≡ arrivals.old →
        auth s.auth.sets arrivals.new ≡ S.candidates_at s c.now }
{
    if !chain_stays(config, chain, c) {
        authentic_sets::clear_candidates(arrivals);
    }
}

// There is a chain in force, and the contents leave it unchanged.
#[tactic(auto, unfolding(rules::specs::Verdict::chain_stays))]
fn chain_stays(config: &Config, chain: &ChainInForce, c: &Contents) -> bool
    ensures { (s : State) → s.config ≡ config.now → s.chain ≡ chain.now →
        result ≡ S.chain_stays s c.now }
{
    kroot::in_force(config, chain) && kroot::chain_unchanged(kroot::chain_contents(chain), c)
}

// The contents are those in force from now on.
fn put_in_force(chain: &mut ChainInForce, c: &Contents)
    ensures { chain.new ≡ S.forced c.now }
{
    chain[0] = 1;
    buffer::copy_at(chain, 1, c);
}

// The root is the held key, at slot 0; waiting tags stay where the rule says so.
fn hold_root(
    config: &Config,
    chain: &ChainInForce,
    numbers: &mut Numbers,
    heldkey: &mut HeldKey,
    waiting: &mut Waiting,
    c: &Contents,
)
    ensures { (s : State) → s.config ≡ config.now → s.chain ≡ chain.now →
        s.tesla ≡ tesla numbers.old heldkey.old waiting.old →
        tesla numbers.new heldkey.new waiting.new ≡ S.root_held s c.now }
{
    let n = regions::waiting_count(numbers);
    let kept = keep_tags(config, chain, waiting, n, c);
    put_root(heldkey, c);
    put_numbers(numbers, kept);
}

// Slot 0 is held, and so many tags wait.
fn put_numbers(numbers: &mut Numbers, kept: usize)
    ensures { numbers.new ≡ 0 ∷ kept ∷ [] }
{
    numbers[0] = 0;
    numbers[1] = kept as u64;
}

// The tags that stay at the new contents close up, in order. Gives their number.
fn keep_tags(
    config: &Config,
    chain: &ChainInForce,
    waiting: &mut Waiting,
    n: usize,
    c: &Contents,
) -> usize
    requires { n ≤ 256 }
    ensures { (s : State) → s.config ≡ config.now → s.chain ≡ chain.now → s.tesla.waiting ≡ waiting.old →
        waiting_count s.tesla.numbers ≡ n →
        (waiting.new ≡ splice waiting.old 0 (S.staying_at s c.now))
        × (length (S.staying_at s c.now) ≡ result * entry_length) }
{
    if chain_stays(config, chain, c) {
        waiting_tags::keep_staying(waiting, kroot::root_seconds(c), n)
    } else {
        0
    }
}

// The root key, zeros after a short one.
fn put_root(heldkey: &mut HeldKey, c: &Contents)
    ensures { heldkey.new ≡ filled 32 (kroot_of c.now) }
{
    let width = kroot::key_width(kroot::ks(c));
    buffer::copy_part(heldkey, 0, c, 12, width);
    buffer::fill(heldkey, width, regions::HELDKEY_LENGTH - width, 0);
}
