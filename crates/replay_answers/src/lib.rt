#![tactic(auto)]

// The replay program's calls (01, "The replay program"): a record as a call of the core, and the numbers that the program gives itself.
//   Session::answer        the answers to a record: a short one, one of kinds 1 to 4 or 6, or another
//   start, word, subframe, verdict    a record of that kind: its parts are lent to the call, with the regions that the call reads or writes
// `input` is one record of the input, `bytes` one of 256.
ghost use Rattle.std.specs.Prelude.{◌≡◌};
ghost use Rattle.rules.specs.Replay.{marks_of, start_answered, word_answered, subframe_answered, verdict_answered, answered};
ghost use Rattle.rules.specs.Refusals.{answer_number};
ghost use Rattle.replay_answers.specs.Answers.{gave, session_of};

use regions::{
    Area, Arrivals, Blocks, ChainInForce, Clocks, Config, Headers, HeldKey, Numbers, Offer,
    Present, Pubkeys, Sets, Since, Stamps, Waiting, Words,
};
use rules::{Refusal, answer_number};

// The core's sixteen regions.
#[derive(Drop)]
pub struct Core {
    pub config: Config,
    pub clocks: Clocks,
    pub words: Words,
    pub stamps: Stamps,
    pub blocks: Blocks,
    pub headers: Headers,
    pub present: Present,
    pub since: Since,
    pub pubkeys: Pubkeys,
    pub offer: Offer,
    pub chain: ChainInForce,
    pub numbers: Numbers,
    pub heldkey: HeldKey,
    pub waiting: Waiting,
    pub sets: Sets,
    pub arrivals: Arrivals,
}

// What is kept between records: the core, the area for tag records that is lent to every sub-frame, and whether a start was accepted: 0 until then, 1 after, a
// number as the rule has it.
#[derive(Drop)]
pub struct Session {
    pub core: Core,
    pub area: Area,
    pub started: u8,
}

// The two answers to a record, and the count of tag records at the front of the area.
#[derive(Clone, Copy)]
pub struct Answers {
    pub first: u32,
    pub second: u32,
    pub count: u32,
}

impl Answers {
    // One answer: "second 0 unless a sub-frame".
    fn single(first: u32) -> Answers
        ensures { result ≡ record { first = first; second = 0; count = 0 } }
    {
        Answers {
            first,
            second: 0,
            count: 0,
        }
    }
}

// The answer to a word, a sub-frame or a verdict that comes before a start.
const NOT_STARTED: u32 = 11;

impl Session {
    // "A last record under 256 bytes is 1 and 0, another kind 2".
    #[tactic(auto, unfolding(rules::specs::Replay::answered, rules::specs::Replay::kind_of))]
    pub fn answer(&mut self, input: &[u8]) -> Answers
        ensures { gave result.first result.second result.count (session_of self.new) ≡ answered (session_of self.old) input.now }
    {
        let Some(bytes) = input.as_array::<256>() else {
            return Answers::single(1);
        };
        match bytes[0] {
            1 => Answers::single(answer_number(self.start(bytes))),
            2 => Answers::single(self.word(bytes)),
            3 | 6 => self.subframe(bytes),
            4 => Answers::single(self.verdict(bytes)),
            _ => Answers::single(2),
        }
    }

    // Kind 1: NS, key ID, type, MACLT, 14 + 14 marks, tree root 32, key 67.
    fn start(&mut self, bytes: &[u8; 256]) -> Result<(), Refusal>
        ensures { gave (answer_number result) 0 0 (session_of self.new) ≡ start_answered (session_of self.old) bytes.now }
    {
        let core = &mut self.core;
        let (ns, id, kind, maclt) = (bytes[1], bytes[2], bytes[3], bytes[4]);
        let fits = regions::shaped(
            &core.config,
            &core.clocks,
            &core.words,
            &core.stamps,
            &core.blocks,
            &core.headers,
            &core.present,
            &core.since,
            &core.pubkeys,
            &core.offer,
            &core.chain,
            &core.numbers,
            &core.heldkey,
            &core.waiting,
            &core.sets,
            &core.arrivals,
        );
        call_start::start_refusal(fits, ns, id, kind, &bytes[5..33])?;
        call_start::install_settings(
            &mut core.config,
            &mut core.clocks,
            &mut core.words,
            &mut core.stamps,
            &mut core.blocks,
            &mut core.headers,
            &mut core.present,
            &mut core.since,
            ns,
            maclt,
            bytes[5..33].as_array::<28>().unwrap(),
            bytes[33..65].as_array::<32>().unwrap(),
        );
        call_start::install_key(
            &mut core.pubkeys,
            &mut core.offer,
            &mut core.chain,
            &mut core.numbers,
            &mut core.heldkey,
            &mut core.waiting,
            &mut core.sets,
            &mut core.arrivals,
            id,
            kind,
            bytes[65..132].as_array::<67>().unwrap(),
        );
        self.started = 1;
        Ok(())
    }

    // Kind 2: PRN, GST_SF, 16 bytes; 11 before a start.
    #[tactic(auto, unfolding(rules::specs::Replay::word_answered, rules::specs::Replay::word_of, laws::specs::Lists::part))]
    fn word(&mut self, bytes: &[u8; 256]) -> u32
        ensures { gave result 0 0 (session_of self.new) ≡ word_answered (session_of self.old) bytes.now }
    {
        if self.started == 0 {
            return NOT_STARTED;
        }
        let core = &mut self.core;
        answer_number(call_word::take_word(
            &core.config,
            &mut core.clocks,
            &mut core.words,
            &mut core.stamps,
            bytes[1],
            buffer::get_u32(bytes, 2),
            bytes[6..22].as_array::<16>().unwrap(),
        ))
    }

    // Kinds 3 and 6: PRN, GST_SF, 75 bytes, and of kind 6 the marks; 11 twice before a start. The HKROOT number is the first answer, the MACK number the
    // second.
    #[tactic(auto, unfolding(rules::specs::Replay::subframe_answered, rules::specs::Replay::subframe_of, laws::specs::Lists::part))]
    fn subframe(&mut self, bytes: &[u8; 256]) -> Answers
        ensures { gave result.first result.second result.count (session_of self.new) ≡ subframe_answered (session_of self.old) bytes.now }
    {
        if self.started == 0 {
            return Answers {
                first: NOT_STARTED,
                second: NOT_STARTED,
                count: 0,
            };
        }
        let core = &mut self.core;
        let halves = call_subframe::take_subframe(
            &mut core.config,
            &mut core.clocks,
            &core.words,
            &core.stamps,
            &mut core.blocks,
            &mut core.headers,
            &mut core.present,
            &mut core.since,
            &mut core.pubkeys,
            &mut core.offer,
            &core.chain,
            &mut core.numbers,
            &mut core.heldkey,
            &mut core.waiting,
            &mut core.sets,
            &mut core.arrivals,
            &mut self.area,
            bytes[1],
            buffer::get_u32(bytes, 2),
            marks_of(bytes),
            bytes[6..81].as_array::<75>().unwrap(),
        );
        let (second, count) = match halves.mack {
            Ok(count) => (0, count),
            Err(refusal) => (refusal.number(), 0),
        };
        Answers {
            first: answer_number(halves.hkroot),
            second,
            count,
        }
    }

    // Kind 4: 0 or 1, key ID, message 45, signature 132; 11 before a start.
    #[tactic(auto, unfolding(rules::specs::Replay::verdict_answered, rules::specs::Replay::verdict_of, laws::specs::Lists::part))]
    fn verdict(&mut self, bytes: &[u8; 256]) -> u32
        ensures { gave result 0 0 (session_of self.new) ≡ verdict_answered (session_of self.old) bytes.now }
    {
        if self.started == 0 {
            return NOT_STARTED;
        }
        let core = &mut self.core;
        answer_number(call_verdict::judge_verdict(
            &core.config,
            &mut core.pubkeys,
            &mut core.offer,
            &mut core.chain,
            &mut core.numbers,
            &mut core.heldkey,
            &mut core.waiting,
            &mut core.arrivals,
            bytes[1],
            bytes[2],
            bytes[3..48].as_array::<45>().unwrap(),
            bytes[48..180].as_array::<132>().unwrap(),
        ))
    }
}

// The marks of a sub-frame: kind 6 has them in bytes 81 and 82, of kind 3 all are 1.
#[tactic(auto, unfolding(rules::specs::Replay::marks_of, rules::specs::Replay::kind_of))]
fn marks_of(bytes: &[u8; 256]) -> u16
    ensures { result ≡ marks_of bytes.now }
{
    if bytes[0] != 6 {
        return u16::MAX;
    }
    u16::from_be_bytes([bytes[81], bytes[82]])
}
