#![tactic(auto)]

// The text that the replay program prints for a record (01, "The replay program"), written into a lent slice.
//   put_lines       all lines of a record
//   answer_line     its first: its place, its two answers, its tag record count
//   record_lines    a line for each of its tag records
// Each answers the place past what it wrote, and changes nothing else of the slice. The caller shows that there is room: a number has at most 20
// digits, so a record's first line has at most 84 bytes; a tag record's line has 25.
ghost use Rattle.std.specs.Prelude.{◌≡◌, [], ◌∷◌, ◌+◌, ◌*◌, ◌/◌, ◌%◌, ◌≤◌, ◌<◌, length};
ghost use Rattle.laws.specs.Lists.{splice};
ghost use Rattle.rules.specs.Replay.{decimal, ended, answer_line, record_line, record_lines, lines_of};
ghost use Rattle.rules.specs.Replay as Replay;
ghost use Rattle.replay_lines.specs.Put.{Put};

const SPACE: u8 = b' ';

const LINE_FEED: u8 = b'\n';

// The lines of a record, from the front of `out`; its tag records stand at the front of `area`.
pub fn put_lines(
    out: &mut [u8],
    place: u64,
    first: u32,
    second: u32,
    count: u32,
    area: &[u8],
) -> usize
    requires { (84 + count * 25 ≤ length out.old) × (count * 12 ≤ length area.now) }
    ensures { (out.new ≡ splice out.old 0 (lines_of place first second count area.now))
        × ((result ≡ length (lines_of place first second count area.now)) × (result ≤ 84 + count * 25)) }
{
    let at = answer_line(out, place, first, second, count);
    record_lines(out, at, area, count as usize)
}

// The first line of a record, from the front of `out`.
fn answer_line(out: &mut [u8], place: u64, first: u32, second: u32, count: u32) -> usize
    requires { 84 ≤ length out.old }
    ensures { (out.new ≡ splice out.old 0 (answer_line place first second count))
        × ((result ≡ length (answer_line place first second count)) × (result ≤ 84)) }
{
    let a = put_ended(out, 0, place, SPACE);
    let b = put_ended(out, a, u64::from(first), SPACE);
    let c = put_ended(out, b, u64::from(second), SPACE);
    put_ended(out, c, u64::from(count), LINE_FEED)
}

// The lines of the first n tag records of `area`, from place `at`.
fn record_lines(out: &mut [u8], at: usize, area: &[u8], n: usize) -> usize
    requires { (at + n * 25 ≤ length out.old) × (n * 12 ≤ length area.now) }
    ensures { (out.new ≡ splice out.old at (record_lines area.now n))
        × (result ≡ at + length (record_lines area.now n)) }
{
    for k in 0..n {
        record_line(out, at + k * 25, area, k);
    }
    at + n * 25
}

// The character of a digit, 10 to 15 as capitals.
#[tactic(auto, unfolding(rules::specs::Replay::digit))]
fn digit(d: u8) -> u8
    requires { d < 16 }
    ensures { result ≡ Replay.digit d }
{
    if d < 10 { b'0' + d } else { b'A' + (d - 10) }
}

// n in decimal.
fn put_decimal(out: &mut [u8], at: usize, n: u64) -> usize
    requires { at + 20 ≤ length out.old }
    ensures { Put out.old out.new at result 20 (decimal n) }
{
    let mut text = [0u8; 20];
    text[19] = digit((n % 10) as u8);
    let mut i: usize = 19;
    let mut rest = n / 10;
    // A `while`, since the number says how many digits it has.
    while rest > 0 {
        i -= 1;
        text[i] = digit((rest % 10) as u8);
        rest /= 10;
    }
    let end = at + (20 - i);
    out[at..end].copy_from_slice(&text[i..]);
    end
}

// n in decimal, and the character c.
fn put_ended(out: &mut [u8], at: usize, n: u64, c: u8) -> usize
    requires { at + 21 ≤ length out.old }
    ensures { Put out.old out.new at result 21 (ended n c) }
{
    let e = put_decimal(out, at, n);
    out[e] = c;
    e + 1
}

// The two hexadecimal digits of a byte.
fn put_byte(out: &mut [u8], at: usize, b: u8)
    requires { at + 2 ≤ length out.old }
    ensures { out.new ≡ splice out.old at (Replay.digit (b / 16) ∷ Replay.digit (b % 16) ∷ []) }
{
    out[at] = digit(b / 16);
    out[at + 1] = digit(b % 16);
}

// The line of tag record k.
fn record_line(out: &mut [u8], at: usize, area: &[u8], k: usize)
    requires { (at + 25 ≤ length out.old) × (k * 12 + 12 ≤ length area.now) }
    ensures { out.new ≡ splice out.old at (record_line area.now k) }
{
    let from = k * 12;
    for (i, byte) in area[from..from + 12].iter().enumerate() {
        put_byte(out, at + i * 2, *byte);
    }
    out[at + 24] = LINE_FEED;
}
