// The parts of a rig that a step can change, written into its bytes.
ghost use Rattle.std.specs.Prelude.{◌≡◌, length};
ghost use Rattle.board.specs.Lent.{lent};
ghost use Rattle.rig_write.specs.Written.{tables, TablesPut, lent_written};

use crate::numbers::{put_bytes, put4};
use crate::sections::{put_board, put_moves};
use board::Board;

// The tables of desks and channels.
fn put_tables(
    rig: &mut [u8],
    hintprocessors: &[u8; 768],
    hintmoves: &[u16; 768],
    heldprocessors: &[u8; 768],
    heldnumbers: &[u8; 768],
    notes: &[u8; 768],
)
    requires { length rig.old ≡ 34120 }
    ensures { TablesPut rig.old (tables hintprocessors.now hintmoves.now heldprocessors.now heldnumbers.now notes.now) rig.new }
{
    put_bytes(rig, 25416, hintprocessors);
    put_moves(rig, 26184, hintmoves);
    put_bytes(rig, 27720, heldprocessors);
    put_bytes(rig, 28488, heldnumbers);
    put_bytes(rig, 29256, notes);
}

// The number of letters, the last choices, the board and the tables; the mail and what a step never changes stay.
pub fn write_lent(
    rig: &mut [u8],
    hintprocessors: &[u8; 768],
    hintmoves: &[u16; 768],
    heldprocessors: &[u8; 768],
    heldnumbers: &[u8; 768],
    notes: &[u8; 768],
    board: &Board,
    used: usize,
    chosen: [u8; 6],
)
    requires { length rig.old ≡ 34120 }
    ensures { rig.new ≡ lent_written rig.old (lent hintprocessors.now hintmoves.now heldprocessors.now heldnumbers.now notes.now board.now) used chosen }
{
    put4(rig, 8, used as u64);
    put_bytes(rig, 14, &chosen);
    put_board(rig, board);
    put_tables(
        rig,
        hintprocessors,
        hintmoves,
        heldprocessors,
        heldnumbers,
        notes,
    );
}
