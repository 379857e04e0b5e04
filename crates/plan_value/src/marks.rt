// What one instruction more of task t says, where `old` is the first task that has such an instruction,
// 0 for none.
ghost use Rattle.std.specs.Prelude.{◌≡◌, ◌≤◌};
ghost use Rattle.plan_value.specs.Marks.{kept_of, create_mark, end_mark, same_test};
ghost use Rattle.plan_value.specs.Ends.{one_there, unpaired_then};

// The first of them then.
pub fn kept(old: u8, t: u8) -> u8
    ensures { result ≡ kept_of old t }
{
    if old == 0 { t } else { old }
}

// Of the creates of task u: it is the only one, in a lower task.
pub fn create_fits(old: u8, t: u8, u: usize) -> bool
    ensures { result ≡ create_mark old t u }
{
    if old != 0 {
        return false;
    }
    base::wide8(t) < u
}

// Of one end of a channel, whose other end is task `other`: t is the only task at this end and not at
// the other.
pub fn end_fits(old: u8, other: u8, t: u8) -> bool
    ensures { result ≡ end_mark old other t }
{
    if other == t {
        return false;
    }
    if old == 0 {
        return true;
    }
    old == t
}

// How many channels have one end only, n before, with the first task at an end whose other end is task
// `other`: the channel joins them, or gets its other end.
pub fn unpaired_then(n: usize, other: u8) -> usize
    requires { (one_there 0 other ≤ n) × (n ≤ 128) }
    ensures { result ≡ unpaired_then n other }
{
    if other == 0 {
        return n + 1;
    }
    n - 1
}

// Both hold or neither.
pub fn same(a: bool, b: bool) -> bool
    ensures { result ≡ same_test a b }
{
    if a { b } else { !b }
}
