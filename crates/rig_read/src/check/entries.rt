// The numbers of a board that hold channels' own entries, and what desks keep for parents.
ghost use Rattle.std.specs.Prelude.{◌≡◌, ◌<◌};
ghost use Rattle.rig_read.specs.Passing.{channel_passes, channels_pass, parent_passes, block_zero, block_passes, parents_pass};

use board::Board;
use board::packing::{channel_of, channel_word, hint_of, hint_word};
use rig_check::limits::entry_ok;
use rig_check::tasks::children_ok;

// A channel's own entry that is not 0.
#[tactic(auto, unfolding(board::specs::packing::Packed::channel_of))]
fn full_channel_ok(n: u8, v: u64) -> bool
    ensures { result ≡ channel_passes n v }
{
    let y = channel_of(v);
    let offer = y.carried;
    let hint = y.travelling;
    channel_word(y) == v
        && y.granted <= 64
        && entry_ok(n, 64, offer.processor, offer.number as usize)
        && entry_ok(n, 9999, hint.processor, hint.moves as usize)
}

// A channel's own entry.
#[tactic(auto, unfolding(board::specs::packing::Packed::channel_of))]
fn channel_ok(n: u8, v: u64) -> bool
    ensures { result ≡ channel_passes n v }
{
    v == 0 || full_channel_ok(n, v)
}

// The channels' own entries.
pub fn channels_ok(n: u8, board: &Board) -> bool
    ensures { result ≡ channels_pass n board.now }
{
    for k in 0..128 {
        if !channel_ok(n, board[k]) {
            return false;
        }
    }
    true
}

// What a desk keeps for a parent, not 0 both.
fn full_parent_ok(n: u8, m: u8, v: u64, held: u64) -> bool
    ensures { result ≡ parent_passes n m v held }
{
    let h = hint_of(v);
    hint_word(h) == v && entry_ok(n, 9999, h.processor, h.moves as usize) && children_ok(m, held)
}

// What a desk keeps for a parent.
fn parent_ok(n: u8, m: u8, v: u64, held: u64) -> bool
    ensures { result ≡ parent_passes n m v held }
{
    (v == 0 && held == 0) || full_parent_ok(n, m, v, held)
}

// The numbers of sixteen parents, after b times as many, are zeros.
fn block_zero(board: &Board, b: usize) -> bool
    requires { b < 24 }
    ensures { result ≡ block_zero board.now b }
{
    let first = 320 + 32 * b;
    let mut any: u64 = 0;
    for k in 0..32 {
        any |= board[first + k];
    }
    any == 0
}

// What the desks keep for sixteen parents, after b times as many.
fn block_ok(n: u8, m: u8, board: &Board, b: usize) -> bool
    requires { b < 24 }
    ensures { result ≡ block_passes n m board.now b }
{
    if block_zero(board, b) {
        return true;
    }
    let first = 16 * b;
    for i in 0..16 {
        let k = first + i;
        if !parent_ok(n, m, board[320 + 2 * k], board[321 + 2 * k]) {
            return false;
        }
    }
    true
}

// What the desks keep for parents.
pub fn parents_ok(n: u8, m: u8, board: &Board) -> bool
    ensures { result ≡ parents_pass n m board.now }
{
    for b in 0..24 {
        if !block_ok(n, m, board, b) {
            return false;
        }
    }
    true
}
