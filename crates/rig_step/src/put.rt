// A rig put on a board, for whoever asks it without a step.
ghost use Rattle.std.specs.Prelude.{◌≡◌};
ghost use Rattle.board.specs.Lent.{Whole, tasks_on, channels_on, parents_on};

use crate::pack::{put_channels, put_parents, put_tasks};
use board::Board;
use rig_parts::kept::Kept;
use rules::system::TaskTable;

// The tasks, and what is kept for channels and for parents, are put on the board.
pub fn put_rig(board: &mut Board, tasks: TaskTable, kept: Kept)
    requires { Whole board.old }
    ensures { (Whole board.new) × (tasks_on board.new ≡ tasks) × (channels_on board.new ≡ kept.store.channels)
        × (parents_on board.new ≡ kept.parents) }
{
    put_tasks(board, tasks);
    put_channels(board, kept.store.channels);
    put_parents(board, kept.parents);
}
