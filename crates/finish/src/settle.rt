// The run of a plan on one desk to rest: there is no letter, so that runs are all that is accepted.
ghost use Rattle.board.specs.Lent.{lent};
ghost use Rattle.finish.specs.Settles.{Begun, Ended};

use crate::search::runnable;
use board::Board;
use board::act::Size;
use plan::TaskId;
use steps::instruction::run::run;

// Runs until no task can run: how many were accepted. Each executes an instruction, so that the plan has no fewer.
pub fn settle<'a>(
    codes: &'a [u32; 4096],
    numbers: &'a [u8; 4096],
    users: &'a [u8; 1024],
    hintprocessors: &'a mut [u8; 768],
    hintmoves: &'a mut [u16; 768],
    heldprocessors: &'a mut [u8; 768],
    heldnumbers: &'a mut [u8; 768],
    notes: &'a mut [u8; 768],
    board: &'a mut Board,
    count: u8,
) -> usize
    requires { Begun codes.now numbers.now users.now count
        (lent hintprocessors.old hintmoves.old heldprocessors.old heldnumbers.old notes.old board.old) }
    ensures { Ended codes.now numbers.now users.now count
        (lent hintprocessors.old hintmoves.old heldprocessors.old heldnumbers.old notes.old board.old)
        result
        (lent hintprocessors.new hintmoves.new heldprocessors.new heldnumbers.new notes.new board.new) }
{
    let size = Size {
        tasks: count,
        processors: 1,
        used: 0,
    };
    let mut work: usize = 0;
    let mut t = runnable(codes, board, count, 0);
    while t != 0 {
        run(
            codes,
            numbers,
            users,
            hintprocessors,
            hintmoves,
            heldprocessors,
            heldnumbers,
            notes,
            board,
            size,
            TaskId(t),
        );
        work += 1;
        t = runnable(codes, board, count, t - 1);
    }
    work
}
