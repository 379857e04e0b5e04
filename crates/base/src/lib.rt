// Numbers made wider, and tests as functions.
#![tactic(auto)]

ghost use Rattle.std.specs.Prelude.{◌&&◌, ◌≡◌};
ghost use Rattle.base.specs.Choice.{within};

pub fn wide8(x: u8) -> usize
    ensures { result ≡ x }
{
    x as usize
}

pub fn wide16(n: u16) -> usize
    ensures { result ≡ n }
{
    n as usize
}

// low ≤ n ≤ high.
pub fn is_within(low: usize, high: usize, n: usize) -> bool
    ensures { result ≡ within low high n }
{
    if n < low {
        return false;
    }
    n <= high
}

pub fn both(a: bool, b: bool) -> bool
    ensures { result ≡ a && b }
{
    if a { b } else { false }
}
