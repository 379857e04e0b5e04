// The parts of a rig, read from its bytes.
ghost use Rattle.std.specs.Prelude.{◌≡◌, ◌+◌, ◌≤◌, length};
ghost use Rattle.image.specs.Numbers.{numbers_at};
ghost use Rattle.image.specs.Image.{board_in, network_in, chosen_in};
ghost use Rattle.image_laws.specs.Parts.{lent_in};
ghost use Rattle.board.specs.Lent.{lent, Whole};
ghost use Rattle.rules.specs.Networks.{message_at};
ghost use Rattle.rig_read.specs.Room.{Room};

use crate::letters::letter_of;
use crate::numbers::{number2, number8};
use board::Board;
use rules::message::Message;

// The numbers of a board.
fn read_board<'a>(rig: &'a [u8], board: &'a mut Board)
    requires { (length rig.now ≡ 34120) × Whole board.old }
    ensures { board.new ≡ board_in rig.now }
{
    for k in 0..1094 {
        board[k] = number8(rig, 16664 + 8 * k);
    }
}

// A table of bytes, from a place on.
fn read_bytes<'a>(rig: &'a [u8], at: usize, table: &'a mut [u8; 768])
    requires { (at + 768 ≤ length rig.now) × (length table.old ≡ 768) }
    ensures { table.new ≡ numbers_at 1 768 rig.now at }
{
    for k in 0..768 {
        table[k] = rig[at + k];
    }
}

// A table of counts, from a place on.
fn read_counts<'a>(rig: &'a [u8], at: usize, table: &'a mut [u16; 768])
    requires { (at + 1536 ≤ length rig.now) × (length table.old ≡ 768) }
    ensures { table.new ≡ numbers_at 2 768 rig.now at }
{
    for k in 0..768 {
        table[k] = number2(rig, at + 2 * k);
    }
}

// What is lent to be written.
pub fn read_parts<'a>(
    rig: &'a [u8],
    hintprocessors: &'a mut [u8; 768],
    hintmoves: &'a mut [u16; 768],
    heldprocessors: &'a mut [u8; 768],
    heldnumbers: &'a mut [u8; 768],
    notes: &'a mut [u8; 768],
    board: &'a mut Board,
)
    requires { (length rig.now ≡ 34120)
        × Room (lent hintprocessors.old hintmoves.old heldprocessors.old heldnumbers.old notes.old board.old) }
    ensures { lent hintprocessors.new hintmoves.new heldprocessors.new heldnumbers.new notes.new board.new
        ≡ lent_in rig.now }
{
    read_board(rig, board);
    read_bytes(rig, 25416, hintprocessors);
    read_counts(rig, 26184, hintmoves);
    read_bytes(rig, 27720, heldprocessors);
    read_bytes(rig, 28488, heldnumbers);
    read_bytes(rig, 29256, notes);
}

// The letter at a position of the mail, from 1.
pub fn letter_in(rig: &[u8], p: usize) -> Message
    requires { (length rig.now ≡ 34120) × (1 ≤ p) × (p ≤ 256) }
    ensures { result ≡ message_at (network_in rig.now) p }
{
    let k = p - 1;
    letter_of(number8(rig, 30024 + 16 * k), number8(rig, 30032 + 16 * k))
}

// The last choices of the desks.
pub fn read_chosen(rig: &[u8]) -> [u8; 6]
    requires { length rig.now ≡ 34120 }
    ensures { result ≡ chosen_in rig.now }
{
    let mut chosen = [0u8; 6];
    chosen.copy_from_slice(&rig[14..20]);
    chosen
}
