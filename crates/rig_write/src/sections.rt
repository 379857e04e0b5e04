// The sections of the parts that a step can change, each put at its place.
ghost use Rattle.std.specs.Prelude.{◌≡◌, ◌+◌, ◌*◌, ◌≤◌, length};
ghost use Rattle.board.specs.Lent.{set_on};
ghost use Rattle.base.specs.Lists.{table};
ghost use Rattle.base.specs.Range.{joined};
ghost use Rattle.plan_write.specs.output.Output.{overlay};
ghost use Rattle.image.specs.Numbers.{numbers_bytes};
ghost use Rattle.rig_write.specs.Sections.{channel_tidy, task_tidy, word_tidy, hint_tidy, channel_at, task_at, word_at, parent_at, tidy_numbers};

use crate::numbers::{put2, put8};
use board::Board;

// A channel's number with its fields alone: the lowest 49 bits.
fn tidy_channel(v: u64) -> u64
    ensures { result ≡ channel_tidy v }
{
    v % 562949953421312
}

// A task's first number with one of seven states.
fn tidy_task(v: u64) -> u64
    ensures { result ≡ task_tidy v }
{
    let state = v % 128;
    if state < 7 {
        return v;
    }
    v - state + 6
}

// A word's number: it has no other bits.
fn tidy_word(v: u64) -> u64
    ensures { result ≡ word_tidy v }
{
    v
}

// A pointer's number with its fields alone: the lowest 24 bits.
fn tidy_hint(v: u64) -> u64
    ensures { result ≡ hint_tidy v }
{
    v % 16777216
}

// The channels' own entries.
fn put_channels(rig: &mut [u8], board: &Board)
    requires { 34120 ≤ length rig.old }
    ensures { rig.new ≡ overlay rig.old 16664 (numbers_bytes 8 (table 128 (channel_at board.now))) }
{
    for k in 0..128 {
        put8(rig, 16664 + 8 * k, tidy_channel(board[k]));
    }
}

// The tasks' records and children.
fn put_tasks(rig: &mut [u8], board: &Board)
    requires { 34120 ≤ length rig.old }
    ensures { rig.new ≡ overlay rig.old 17688 (numbers_bytes 8 (joined 64 (task_at board.now))) }
{
    for k in 0..64 {
        put8(rig, 17688 + 16 * k, tidy_task(board[128 + 2 * k]));
        put8(rig, 17696 + 16 * k, board[129 + 2 * k]);
    }
}

// The tasks' words.
fn put_words(rig: &mut [u8], board: &Board)
    requires { 34120 ≤ length rig.old }
    ensures { rig.new ≡ overlay rig.old 18712 (numbers_bytes 8 (table 64 (word_at board.now))) }
{
    for k in 0..64 {
        put8(rig, 18712 + 8 * k, tidy_word(board[256 + k]));
    }
}

// The sets of ready tasks.
fn put_sets(rig: &mut [u8], board: &Board)
    requires { 34120 ≤ length rig.old }
    ensures { rig.new ≡ overlay rig.old 25368 (numbers_bytes 8 (table 6 (set_on board.now))) }
{
    for k in 0..6 {
        put8(rig, 25368 + 8 * k, board[1088 + k]);
    }
}

// What desks keep for parents: the pointer and the children that are held.
fn put_parents(rig: &mut [u8], board: &Board)
    requires { 34120 ≤ length rig.old }
    ensures { rig.new ≡ overlay rig.old 19224 (numbers_bytes 8 (joined 384 (parent_at board.now))) }
{
    for k in 0..384 {
        put8(rig, 19224 + 16 * k, tidy_hint(board[320 + 2 * k]));
        put8(rig, 19232 + 16 * k, board[321 + 2 * k]);
    }
}

// A board.
pub fn put_board(rig: &mut [u8], board: &Board)
    requires { length rig.old ≡ 34120 }
    ensures { rig.new ≡ overlay rig.old 16664 (numbers_bytes 8 (tidy_numbers board.now)) }
{
    put_channels(rig, board);
    put_tasks(rig, board);
    put_words(rig, board);
    put_parents(rig, board);
    put_sets(rig, board);
}

// The counts of pointers.
pub fn put_moves(rig: &mut [u8], at: usize, moves: &[u16])
    requires { at + 2 * length moves.now ≤ length rig.old }
    ensures { rig.new ≡ overlay rig.old at (numbers_bytes 2 moves.now) }
{
    for k in 0..moves.len() {
        put2(rig, at + 2 * k, moves[k]);
    }
}
