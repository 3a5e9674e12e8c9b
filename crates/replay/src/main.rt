#![tactic(auto)]

// The replay program (01, "The replay program"): records of 256 bytes on standard input, lines on standard output (A84). `replay_records` does the work
// on the records; this program only reads and writes. It reads 16 records at a time and writes their lines at once, and stops where a write fails.
ghost use Rattle.std.specs.Prelude.{◌≡◌, ◌≤◌, length};
ghost use Rattle.rules.specs.Replay.{unread};
ghost use Rattle.replay_records.specs.Kept.{replay_of};

use regions::{
    AREA_LENGTH, ARRIVALS_LENGTH, BLOCKS_LENGTH, CHAIN_LENGTH, CLOCKS_LENGTH, CONFIG_LENGTH,
    DSM_IDS, HELDKEY_LENGTH, NUMBERS_LENGTH, OFFER_LENGTH, PUBKEYS_LENGTH, SETS_LENGTH,
    STAMPS_LENGTH, WAITING_LENGTH, WORDS_LENGTH,
};
use replay_answers::{Core, Session};
use replay_records::Replay;
use std::io::Read;

// Pieces of the input that are read: as many as have places in 64 bits. No run uses them up.
const PIECES: u64 = 1152921504606846975;

// Room for 16 records and their lines.
fn main(rt: HostRuntime) {
    let mut input = [0u8; 4096];
    let mut out = [0u8; 109344];
    replay_all(&rt, &mut input, &mut out);
}

// Before the first record: regions of zeros.
#[tactic(auto, unfolding(rules::specs::Replay::unread, rules::specs::Replay::blank_core))]
fn unread() -> Replay
    ensures { replay_of result ≡ unread }
{
    let core = Core {
        config: [0; CONFIG_LENGTH],
        clocks: [0; CLOCKS_LENGTH],
        words: [0; WORDS_LENGTH],
        stamps: [0; STAMPS_LENGTH],
        blocks: [0; BLOCKS_LENGTH],
        headers: [0; DSM_IDS],
        present: [0; DSM_IDS],
        since: [0; DSM_IDS],
        pubkeys: [0; PUBKEYS_LENGTH],
        offer: [0; OFFER_LENGTH],
        chain: [0; CHAIN_LENGTH],
        numbers: [0; NUMBERS_LENGTH],
        heldkey: [0; HELDKEY_LENGTH],
        waiting: [0; WAITING_LENGTH],
        sets: [0; SETS_LENGTH],
        arrivals: [0; ARRIVALS_LENGTH],
    };
    let session = Session {
        core,
        area: [0; AREA_LENGTH],
        started: 0,
    };
    Replay { session, place: 0 }
}

// Every record of standard input, in order. A proved loop has to end, and nothing says that the input does: it counts the pieces.
fn replay_all(rt: &(impl Input + Print), input: &mut [u8], out: &mut [u8])
    requires { (length input.old ≤ 4096) × (109344 ≤ length out.old) }
{
    let mut replay = unread();
    let mut reader = rt.reader();
    for _ in 0..PIECES {
        let n = read_full(&mut reader, input);
        let filled = replay_records::replay_piece(&mut replay, &input[..n], out);
        let written = rt.write_all(&out[..filled]).is_ok();
        if !written || n == 0 {
            return;
        }
    }
}

// Reads until buf is full, the input ends or a read fails: how many bytes it put at the start of buf.
fn read_full(reader: &mut impl Read, buf: &mut [u8]) -> usize
    ensures { result ≤ length buf.new }
{
    let mut done: usize = 0;
    // A `while`, since a read says how many bytes it put.
    while done < buf.len() {
        let n = reader.read(&mut buf[done..]).unwrap_or(0);
        if n == 0 {
            return done;
        }
        done += n;
    }
    done
}
