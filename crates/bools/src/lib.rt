#![tactic(auto)]

// Tests joined, and a test as a number.
ghost use Rattle.std.specs.Prelude.{◌≡◌, cond, ◌&&◌, ◌||◌};

// Both tests hold.
pub fn both(a: bool, b: bool) -> bool
    ensures { result ≡ (a && b) }
{
    a && b
}

// One of the tests holds.
pub fn either(a: bool, b: bool) -> bool
    ensures { result ≡ (a || b) }
{
    a || b
}

// A test as a number: 1 where it holds.
pub fn number(b: bool) -> u32
    ensures { result ≡ cond b 1 0 }
{
    u32::from(b)
}
