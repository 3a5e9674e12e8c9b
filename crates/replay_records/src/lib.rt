#![tactic(auto)]

// The replay program's work on its records (01, "The replay program"): their answers, and their lines into a lent slice. The program `replay` only
// reads and writes.
//   replay_piece     a piece of the input: records one after the other, of which the last may be short
//   replay_record    one record: any bytes, any length
//   pieces_join      the theorem that the pieces are the input
ghost use Rattle.std.specs.Prelude.{◌≡◌, ◌+◌, ◌*◌, ◌≤◌, ◌<◌, length};
ghost use Rattle.rules.specs.Replay.{replayed, replayed_up_to, record_count};
ghost use Rattle.replay_records.specs.Pieces.{PiecesJoin};
ghost use Rattle.replay_records.specs.Kept.{replay_of};
ghost use Rattle.replay_records.specs.Written.{wrote, written, room, last_place};

use replay_answers::Session;

// What the program keeps between records: the session, and how many records it has read.
#[derive(Drop)]
pub struct Replay {
    pub session: Session,
    pub place: u64,
}

// Pieces of the input, all but the last of whole records, are read as the whole input: their lines are those of `Replay.replay`. It does nothing: its
// contract carries the theorem.
pub fn pieces_join()
    ensures { PiecesJoin }
{}

// The records of `input`: their lines stand one after the other at the front of `out`, and the number of their bytes is returned.
pub fn replay_piece(replay: &mut Replay, input: &[u8], out: &mut [u8]) -> usize
    requires room_in_bounds { record_count input.now * room ≤ length out.old }
    requires input_bound { replay.old.place + record_count input.now ≤ last_place }
    ensures place_after { wrote result out.new (replay_of replay.new)
        ≡ written out.old (replayed_up_to (replay_of replay.old) input.now (record_count input.now)) }
    ensures upper_bound { result ≤ length out.new }
{
    let mut filled: usize = 0;
    for bytes in input.chunks(256) {
        filled += replay_record(replay, bytes, &mut out[filled..]);
    }
    filled
}

// One record: its lines stand at the front of `out`, and the number of their bytes is returned. No record has more than 6,834 bytes of lines.
fn replay_record(replay: &mut Replay, input: &[u8], out: &mut [u8]) -> usize
    requires { (room ≤ length out.old) × (replay.old.place < last_place) }
    ensures place_after { wrote result out.new (replay_of replay.new)
        ≡ written out.old (replayed (replay_of replay.old) input.now) }
    ensures upper_bound { result ≤ room }
{
    let a = replay.session.answer(input);
    replay.place += 1;
    replay_lines::put_lines(
        out,
        replay.place,
        a.first,
        a.second,
        a.count,
        &replay.session.area,
    )
}
