#![tactic(auto)]

// Fields of a sub-frame that came, and items of a MACK section of which every bit came (02, P3). Each function gives what the definition of the
// same name in rules/specs/Received.antt gives.
// Public calls:
//   field_came, fields_came   whether a field came, and how many did
//   received                  the fields as they came
//   bits_came, item_at        whether all of some bits of the MACK section came; their number, or that one of them is lost
ghost use Rattle.std.specs.Prelude.{◌≡◌, ◌+◌, ◌≤◌, ◌<◌};
ghost use Rattle.rules.specs.Received.{field_came, fields_came, received, bits_came};
ghost use Rattle.received.specs.Items.{item_at};

// ---- the fields of a sub-frame

// Whether field k came. Of the sixteen marks the first is field 0's, and the last is not read.
#[tactic(auto, unfolding(rules::specs::Received::field_came))]
pub fn field_came(marks: u16, k: usize) -> bool
    requires { k < 15 }
    ensures { result ≡ field_came marks k }
{
    (marks >> (15 - k)) % 2 == 1
}

// How many of the fifteen fields came.
pub fn fields_came(marks: u16) -> usize
    ensures { result ≡ fields_came marks 15 }
{
    (marks >> 1).count_ones() as usize
}

// The fifteen fields of five bytes as they came: zeros stand for a field that did not.
pub fn received(marks: u16, f: &[u8; 75]) -> [u8; 75]
    ensures { result ≡ received marks f.now 15 }
{
    let mut fields = [0u8; 75];
    for k in 0..15 {
        if field_came(marks, k) {
            buffer::copy_part(&mut fields, 5 * k, f, 5 * k, 5);
        }
    }
    fields
}

// ---- the items of a MACK section

// Whether all of the n bits from bit `at` of the section on came: a field brings 32 of them, so the marks from the first bit's field to the last bit's
// must all be 1.
pub fn bits_came(marks: u16, at: usize, n: usize) -> bool
    requires { at + n ≤ 480 }
    ensures { result ≡ bits_came marks at n }
{
    if n == 0 {
        return true;
    }
    let last = (at + n - 1) / 32;
    let whole = 1u16 << (last - at / 32 + 1);
    (marks >> (15 - last)) % whole == whole - 1
}

// The number in the n bits from bit `at` on, if all of them came.
#[tactic(auto, unfolding(crate::specs::Items::item_at))]
pub fn item_at(m: &[u8; 60], marks: u16, at: usize, n: usize) -> Option<u64>
    requires { (at + n ≤ 480) × (n ≤ 56) }
    ensures { result ≡ item_at m.now marks at n }
{
    if bits_came(marks, at, n) {
        Some(bitfields::bits_at(m, at, n))
    } else {
        None
    }
}
