// The tasks of a board.
ghost use Rattle.std.specs.Prelude.{◌≡◌, ℕ, ◌≤◌, ◌<◌, get_or};
ghost use Rattle.rig_read.specs.Passing.{task_tidy, tasks_tidy, task_passes, tasks_pass};

use board::Board;
use board::packing::task_of;
use rig_check::system::last_kind;
use rig_check::tasks::{origin_ok, task_ok};

// Whether the first number of a record is that of what it holds: its state is one of seven.
fn is_tidy(v: u64) -> bool
    ensures { result ≡ task_tidy v }
{
    v % 128 < 7
}

// The number of each record is that of what it holds: each is looked at, so that many are looked at at once.
pub fn tasks_tidy(board: &Board) -> bool
    ensures { result ≡ tasks_tidy board.now }
{
    let mut all = true;
    for k in 0..64 {
        all &= is_tidy(board[128 + 2 * k]);
    }
    all
}

// Task k + 1 and its own pointer.
fn passes_at<'a>(
    lengths: &'a [u8; 64],
    codes: &'a [u32; 4096],
    n: u8,
    m: u8,
    board: &'a Board,
    k: usize,
) -> bool
    requires { (k < 64) × (get_or lengths.now k 0 ≤ 64) }
    ensures { result ≡ task_passes lengths.now codes.now n m board.now k }
{
    let x = task_of(board[128 + 2 * k], board[129 + 2 * k], board[256 + k]);
    let kind = last_kind(lengths, codes, k, x.pc);
    task_ok(n, m, lengths[k], kind, x) && origin_ok(n, k + 1, x)
}

// Tasks 1 to m and their own pointers.
pub fn tasks_ok<'a>(
    lengths: &'a [u8; 64],
    codes: &'a [u32; 4096],
    n: u8,
    m: u8,
    board: &'a Board,
) -> bool
    requires { (m ≤ 64) × ((k : ℕ) → k < m → get_or lengths.now k 0 ≤ 64) }
    ensures { result ≡ tasks_pass lengths.now codes.now n m board.now }
{
    for k in 0..m as usize {
        if !passes_at(lengths, codes, n, m, board, k) {
            return false;
        }
    }
    true
}
