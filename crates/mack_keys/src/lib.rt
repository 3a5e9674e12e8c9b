#![tactic(auto)]

// The keys of a MACK section (01, "MACK"; 000, 4 and 5.4), read block by block and checked. What is judged is its definition in
// rules/specs/Mack.antt and, where fields are missing, in rules/specs/Received.antt. `keys_proved` is the public call: whether the whole section is
// refused, and the highest key proved.
// On the way between a sent key and the key that it is checked against, the key of one slot is kept, and so is the sent key of block 1: tags whose
// keys lie at or below these need no walk from the top. Which keys are kept changes no answer; where they are kept stands in the contracts (`Keeps`,
// `KeepsOwn`).
ghost use Rattle.std.specs.Prelude.{◌≡◌, true, ◌≤◌, ◌<◌, ◌^◌, take, MatchResult};
ghost use Rattle.laws.specs.Lists.{splice};
ghost use Rattle.rules.specs.Chain.{Held, held, higher, sent_slot};
ghost use Rattle.rules.specs.Received.{key_came, keys_received};
ghost use Rattle.rules.specs.Refusals.{answer_number};
ghost use Rattle.chain.specs.Sound.{Walks, Sound, Met, OnWay};
ghost use Rattle.rules.specs.declared.Chain.{Chain};
ghost use Rattle.mack_keys.specs.Keys.{Hands, Keeps, KeepsOwn, Takes, Refuses};

use chain::Way;
use rules::{Chain, Refusal};

// What the keys of the first blocks give: whether a block is refused, the slot of the highest key proved, and the keys that were kept on the way.
// On a refusal the highest key proved is given too.
#[derive(Clone, Copy)]
pub struct Keys {
    pub judged: Result<(), Refusal>,
    pub slot: u64,
    pub way: Way,
}

// The highest key proved so far, whose bytes are in the lent key: its slot, and the keys that were kept on the way.
#[derive(Clone, Copy)]
struct Highest {
    slot: u64,
    way: Way,
}

// A section whose keys are checked.
#[derive(Clone, Copy)]
struct Section {
    c: Chain,
    time: u32,
    prn: u8,
    marks: u16,
    // the slot held when it came
    first: u64,
    // the slot whose key is kept where a way passes it
    via: u64,
}

// Checks the keys of a section of 60 bytes that satellite `prn` sent at g, block by block, each against the highest key proved so far. `marks`
// says which fields came: of a block whose key did not, the spare bits alone are judged.
// `slot` and `key` are the held key's; the highest key proved takes its place in `key`, the bytes past its width stay. The key of slot `via`
// is kept where a way passes it, else the held key.
pub fn keys_proved(
    c: Chain,
    g: u32,
    prn: u8,
    m: &[u8; 60],
    marks: u16,
    slot: u64,
    via: u64,
    key: &mut [u8; 32],
) -> Keys
    requires { Sound c × (slot < 2 ^ 34) }
    ensures { Hands (keys_received c g prn m.now marks (held slot (take c.width key.old)) c.nmack)
        (answer_number result.judged) result.slot key.old key.new
        × ((result.slot < 2 ^ 34)
        × (OnWay c (held result.slot (take c.width key.new)) result.way
        × (Keeps slot via result.slot result.way
        × (answer_number result.judged ≡ 0 → key_came c marks 1 ≡ true →
        KeepsOwn (sent_slot c g 1 prn) via result.slot result.way)))) }
{
    let section = Section {
        c,
        time: g,
        prn,
        marks,
        first: slot,
        via,
    };
    let known = *key;
    let way = Way {
        near: slot,
        met: known,
        low: slot,
        own: known,
    };
    let mut top = Highest { slot, way };
    let mut k = mack::section_start();
    for done in 0..c.nmack {
        let block = mack::next_key(c, m, k, done + 1);
        match section.next_block(done + 1, block.key, block.spare, top, key) {
            Ok(higher) => top = higher,
            Err(refusal) => {
                return Keys {
                    judged: Err(refusal),
                    slot: top.slot,
                    way: top.way,
                };
            }
        }
        k = block.next;
    }
    Keys {
        judged: Ok(()),
        slot: top.slot,
        way: top.way,
    }
}

impl Section {
    // One block more, after the blocks before it. `sent` and `spare` are the block's key and spare bits. A key that did not come is checked by neither
    // 13 nor 12.
    fn next_block(
        self,
        b: u64,
        sent: [u8; 32],
        spare: u64,
        top: Highest,
        key: &mut [u8; 32],
    ) -> Result<Highest, Refusal>
        requires { Sound self.c × ((self.first < 2 ^ 34) × ((top.slot < 2 ^ 34) × ((1 ≤ b) × (b ≤ self.c.nmack)))) }
        ensures { MatchResult result (Takes self b sent spare top key.old key.new) (Refuses self b sent spare top key.old key.new) }
    {
        if mack_items::key_came(self.c, self.marks, b) {
            return self.block_proved(b, sent, spare, top, key);
        }
        if spare != 0 {
            return Err(Refusal::KeyUnfit);
        }
        Ok(top)
    }

    // Block b, whose key came, against the highest key proved so far, `key` of slot top.slot.
    fn block_proved(
        self,
        b: u64,
        sent: [u8; 32],
        spare: u64,
        top: Highest,
        key: &mut [u8; 32],
    ) -> Result<Highest, Refusal>
        requires sound { Sound self.c × ((self.first < 2 ^ 34) × ((top.slot < 2 ^ 34) × ((1 ≤ b) × (b ≤ self.c.nmack)))) }
        requires came { key_came self.c self.marks b ≡ true }
        ensures { MatchResult result (Takes self b sent spare top key.old key.new) (Refuses self b sent spare top key.old key.new) }
    {
        let slot = chain::sent_slot(self.c, self.time, b, self.prn);
        if self.first + 1000000 < slot {
            return Err(Refusal::TooFar);
        }
        if spare != 0 {
            return Err(Refusal::KeyUnfit);
        }
        let fit = chain::key_fits(self.c, top.slot, *key, slot, sent, self.via);
        if !fit.fits {
            return Err(Refusal::KeyUnfit);
        }
        let high = hold_higher(self.c, top.slot, slot, sent, key);
        let way = passed(self.via, fit.stop, fit.here, top.way);
        Ok(taken(high, way, b, slot, sent))
    }
}

// The higher of the key of slot `high`, in `key`, and the sent one is then in `key`; its slot is given.
fn hold_higher(c: Chain, high: u64, slot: u64, sent: [u8; 32], key: &mut [u8; 32]) -> u64
    requires { Walks c }
    ensures { (result ≡ (higher (held high (take c.width key.old)) slot (take c.width sent)).slot)
        × (key.new
        ≡ splice key.old 0 (higher (held high (take c.width key.old)) slot (take c.width sent)).key) }
{
    if slot <= high {
        return high;
    }
    buffer::copy_part(key, 0, &sent, 0, c.width);
    slot
}

// Block b is taken: the highest key has slot `high`, and of block 1 the sent key, of this slot, is kept.
fn taken(high: u64, way: Way, b: u64, slot: u64, sent: [u8; 32]) -> Highest
    ensures { (result.slot ≡ high)
        × ((result.way.near ≡ way.near)
        × (((b ≡ 1 → result.way.low ≡ slot) × ((b ≡ 1 → ⊥) → result.way.low ≡ way.low))
        × ((c : Chain) (h : Held) → Met c h slot sent → OnWay c h way → OnWay c h result.way))) }
{
    if b != 1 {
        return Highest { slot: high, way };
    }
    let way = Way {
        low: slot,
        own: sent,
        ..way
    };
    Highest { slot: high, way }
}

// The key `here` of slot `stop` takes the place of the one that was kept before where that slot was asked for.
fn passed(via: u64, stop: u64, here: [u8; 32], way: Way) -> Way
    ensures { (((stop ≡ via → result.near ≡ via) × ((stop ≡ via → ⊥) → result.near ≡ way.near)) × (result.low ≡ way.low))
        × ((c : Chain) (h : Held) → Met c h stop here → OnWay c h way → OnWay c h result) }
{
    if stop != via {
        return way;
    }
    Way {
        near: stop,
        met: here,
        ..way
    }
}
