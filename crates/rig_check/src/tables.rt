// What the desks and the channels keep: every entry of every table is looked at.
ghost use Rattle.std.specs.Prelude.{◌≡◌, ◌^◌, leb, ltb, length};
ghost use Rattle.base.specs.Lists.{every, every_pair};
ghost use Rattle.rules.specs.Numbers.{processor_id};
ghost use Rattle.rules.specs.Cells.{hint, offer};
ghost use Rattle.rules.specs.Sound.{hint_ok, offer_ok, tables_ok, channel_entries_ok, parents_ok};

use crate::limits::entry_ok;
use crate::tasks::children_ok;
use plan::ProcessorId;
use rules::system::{Channels, Parents, Tables};

// Every number of a table is at most the limit.
pub fn all_at_most(limit: u8, xs: &[u8]) -> bool
    ensures { result ≡ every (λ d. leb d limit) xs.now }
{
    xs.iter().all(|d| *d <= limit)
}

// Every pointer of a table, which holds desks and counts apart.
pub fn hints_ok<'a>(n: u8, processors: &'a [u8], moves: &'a [u16]) -> bool
    requires { length processors.now ≡ length moves.now }
    ensures { result ≡ every_pair (λ d k. hint_ok n (hint (processor_id d) k)) processors.now moves.now }
{
    processors
        .iter()
        .zip(moves)
        .all(|(d, k)| entry_ok(n, 9999, ProcessorId(*d), *k as usize))
}

// Every offer of a table, which holds desks and numbers apart.
pub fn offers_ok<'a>(n: u8, processors: &'a [u8], numbers: &'a [u8]) -> bool
    requires { length processors.now ≡ length numbers.now }
    ensures { result ≡ every_pair (λ d w. offer_ok n (offer (processor_id d) w)) processors.now numbers.now }
{
    processors
        .iter()
        .zip(numbers)
        .all(|(d, w)| entry_ok(n, 64, ProcessorId(*d), *w as usize))
}

// What the desks keep.
#[tactic(auto, unfolding(rules::specs::Sound::tables_ok))]
pub fn tables_ok(n: u8, x: Tables) -> bool
    ensures { result ≡ tables_ok n x }
{
    hints_ok(n, &x.hintprocessors, &x.hintmoves)
        && offers_ok(n, &x.heldprocessors, &x.heldnumbers)
        && all_at_most(n, &x.notes)
}

// What the channels keep.
#[tactic(auto, unfolding(rules::specs::Sound::channel_entries_ok))]
pub fn channel_entries_ok(n: u8, x: Channels) -> bool
    ensures { result ≡ channel_entries_ok n x }
{
    all_at_most(64, &x.granted)
        && offers_ok(n, &x.carriedprocessors, &x.carriednumbers)
        && hints_ok(n, &x.travellingprocessors, &x.travellingmoves)
}

// Every child of every set is a task of a rig of m tasks.
fn all_children(m: u8, xs: &[u64]) -> bool
    ensures { result ≡ every (λ s. ltb s (2 ^ m)) xs.now }
{
    xs.iter().all(|s| children_ok(m, *s))
}

// What the desks keep for parents, in a rig of m tasks.
#[tactic(auto, unfolding(rules::specs::Sound::parents_ok))]
pub fn parents_ok(n: u8, m: u8, x: Parents) -> bool
    ensures { result ≡ parents_ok n m x }
{
    hints_ok(n, &x.hintprocessors, &x.hintmoves) && all_children(m, &x.held)
}
