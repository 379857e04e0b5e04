// A set of numbers 1 to 64 in the bits of one number.
ghost use Rattle.std.specs.Prelude.{◌≡◌, ◌≤◌};
ghost use Rattle.base.specs.Sets.{member, inserted, removed, removed_all};

// t is in the set s.
pub fn contains(s: u64, t: u8) -> bool
    requires { (1 ≤ t) × (t ≤ 64) }
    ensures { result ≡ member t s }
{
    (s >> (t - 1)) % 2 == 1
}

// The set with t.
pub fn insert(s: u64, t: u8) -> u64
    requires { (1 ≤ t) × (t ≤ 64) }
    ensures { result ≡ inserted t s }
{
    s | 1u64 << (t - 1)
}

// The set without t.
pub fn remove(s: u64, t: u8) -> u64
    requires { (1 ≤ t) × (t ≤ 64) }
    ensures { result ≡ removed t s }
{
    s & !(1u64 << (t - 1))
}

// The set s without all that are in the set h.
pub fn remove_all(h: u64, s: u64) -> u64
    ensures { result ≡ removed_all 64 h s }
{
    s & !h
}
