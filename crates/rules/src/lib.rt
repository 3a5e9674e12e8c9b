#![tactic(auto)]

// The types that the rules, the leaves and the calls share. The rules themselves are definitions in specs/; the functions do nothing, their
// contracts carry what is proved of the rules beside the claim.
ghost use Rattle.std.specs.Prelude.{◌≡◌};
ghost use Rattle.rules.specs.Known.{KnownPoints, TagTruncation};
ghost use Rattle.rules.specs.Refusals.{refusal_number, answer_number};

// The numbers of the chain in force, read once for a call (000, table 7).
#[derive(Clone, Copy)]
pub struct Chain {
    // satellites with keys of their own in a block
    pub ns: u64,
    // MACK blocks of a section
    pub nmack: u64,
    // seconds since week 0 of the root's sub-frame 0
    pub root: u64,
    // the chain's pattern
    pub alpha: [u8; 6],
    // the hash of the chain's steps: 0 SHA-256, 1 SHA3-224, 2 SHA3-256
    pub hf: u8,
    // the function of tags and MACSEQ: 0 HMAC-SHA-256, 1 CMAC-AES
    pub mf: u8,
    // bytes of a key
    pub width: usize,
    // bits of a tag
    pub ms: u64,
    // fields of a MACK block
    pub fields: u64,
}

// A tag with what its message needs beside the set.
#[derive(Clone, Copy)]
pub struct Tag {
    // the satellite that sent it, and the one whose set it authenticates
    pub sender: u8,
    pub prn: u8,
    pub adkd: u8,
    // block of the section, and position in the block, from 1
    pub block: u8,
    pub position: u8,
    // GST_SF of its arrival
    pub time: u32,
    // NMA status of the sub-frame it came in
    pub status: u8,
    // its MS bits as a number
    pub bits: u64,
}

// What a tag is found to be (01, "Tag outcomes"). The definition `outcome_number` of specs/Outcomes.antt gives its number.
#[derive(Clone, Copy)]
pub enum Outcome {
    // It agrees with its set: its record has outcome 1 or 9, by the tag bits that agree on that set (02, P4).
    Agrees,
    Wrong,
    NoUsableSet,
    NotAllowed,
    Waits,
    SequenceUnfit,
    NoPlace,
    // A bit of it, or of what it is judged by, is lost (02, P3).
    Lost,
}

// How far along the message of a DSM ID is (02, P9). The definition `pair_of` of specs/Progress.antt gives its two numbers.
#[derive(Clone, Copy)]
pub enum Progress {
    // Blocks held; block 0 is not among them, so that the total is unknown.
    Unknown(u8),
    // Blocks held, and blocks missing of the total that block 0 names.
    Counted(u8, u8),
}

// Why a call, a half of a sub-frame or a message is refused (01's table; 02, P3). The definition `refusal_number` of specs/Refusals.antt gives its number.
#[derive(Clone, Copy, Debug, PartialEq, Eq)]
pub enum Refusal {
    // 1: a lent length is wrong.
    WrongLength,
    // 2: PRN, time, NS, key ID, key type, mark or verdict, or the SVID of a word 4.
    OutOfRange,
    // 3: a sub-frame or a word comes after a later one.
    OutOfOrder,
    // 4: an emergency message stopped the core.
    Stopped,
    // 5: all fields that came are zeros.
    AllZero,
    // 6: a block or a message is not as its head says.
    BlockUnfit,
    // 7: a root is signed under a public key that is not held.
    KeyNotHeld,
    // 8: a root has a parameter that is not taken.
    ParametersUnfit,
    // 9: a root, or a public key, is not newer.
    NotNewer,
    // 10: the nodes of a public key do not give the tree's root.
    TreeUnfit,
    // 11: a section or a verdict does not go with the chain in force.
    NotInForce,
    // 12: a TESLA key fails, or a spare bit is 1.
    KeyUnfit,
    // 13: a TESLA key is too far past the one held.
    TooFar,
    // 14: nothing waits for a verdict, or another key ID or other bytes.
    NotWaiting,
    // 15: the verdict is bad.
    VerdictBad,
    // 16: a satellite has no authentic set.
    NoSet,
    // 17: a field is missing.
    FieldsMissing,
}

impl Refusal {
    // Its number, for C and the replay program.
    pub fn number(self) -> u32
        ensures { result ≡ refusal_number self }
    {
        match self {
            Refusal::WrongLength => 1,
            Refusal::OutOfRange => 2,
            Refusal::OutOfOrder => 3,
            Refusal::Stopped => 4,
            Refusal::AllZero => 5,
            Refusal::BlockUnfit => 6,
            Refusal::KeyNotHeld => 7,
            Refusal::ParametersUnfit => 8,
            Refusal::NotNewer => 9,
            Refusal::TreeUnfit => 10,
            Refusal::NotInForce => 11,
            Refusal::KeyUnfit => 12,
            Refusal::TooFar => 13,
            Refusal::NotWaiting => 14,
            Refusal::VerdictBad => 15,
            Refusal::NoSet => 16,
            Refusal::FieldsMissing => 17,
        }
    }
}

// The number that a call gives: 0 where nothing was refused.
pub fn answer_number(answer: Result<(), Refusal>) -> u32
    ensures { result ≡ answer_number answer }
{
    match answer {
        Ok(()) => 0,
        Err(refusal) => refusal.number(),
    }
}

// The rules give 01's known points and its order of checks.
pub fn known_points()
    ensures { KnownPoints }
{}

// A tag of any size is compared with the bits that truncation leaves of the code.
pub fn tag_truncation()
    ensures { TagTruncation }
{}
