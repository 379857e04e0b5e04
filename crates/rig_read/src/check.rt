// Whether bytes are the image of a rig that 9 does not refuse, part by part.

// The numbers of a board.
pub mod entries;
// The version, and the zeros behind the plan file.
pub mod head;
// The mail.
pub mod mail;
// The sets of ready tasks.
pub mod ready;
// A slot of the mail.
pub mod slots;
// What desks keep for channels.
pub mod tables;
// The tasks.
pub mod tasks;
// Zeros in bytes.
pub mod zeros;

ghost use Rattle.std.specs.Prelude.{◌≡◌, ◌&&◌, ℕ, ◌≤◌, ◌<◌, length, get_or};
ghost use Rattle.rules.specs.Sound.{tables_ok, system_ok};
ghost use Rattle.board.specs.Lent.{lent, store_of};
ghost use Rattle.image.specs.Numbers.{number_at};
ghost use Rattle.image.specs.Image.{is_image, rig_of};
ghost use Rattle.rig_read.specs.Opened.{Opened};
ghost use Rattle.rig_read.specs.Passing.{bytes_pass, board_passes};

use crate::check::entries::{channels_ok, parents_ok};
use crate::check::head::{head_ok, zeros_behind};
use crate::check::mail::mail_ok;
use crate::check::ready::ready_ok;
use crate::check::tables::{hints_ok, notes_ok, offers_ok};
use crate::check::tasks::{tasks_ok, tasks_tidy};
use crate::numbers::number4;
use board::Board;
use board::act::Size;
use rig_check::system::processors_ok;
use rig_check::tables::all_at_most;

// The bytes themselves, beside the parts.
#[tactic(auto, unfolding(crate::specs::Passing::bytes_pass))]
fn bytes_ok(rig: &[u8]) -> bool
    requires { (length rig.now ≡ 34120) × (number_at 4 rig.now 4 ≤ 16644) }
    ensures { result ≡ bytes_pass rig.now }
{
    head_ok(rig) && zeros_behind(rig, number4(rig, 4))
}

// A board of a rig of n desks and m tasks, with these programs.
#[tactic(auto, unfolding(crate::specs::Passing::board_passes))]
fn board_ok<'a>(
    lengths: &'a [u8; 64],
    codes: &'a [u32; 4096],
    n: u8,
    m: u8,
    board: &'a Board,
) -> bool
    requires { (m ≤ 64) × ((k : ℕ) → k < m → get_or lengths.now k 0 ≤ 64) }
    ensures { result ≡ board_passes lengths.now codes.now n m board.now }
{
    channels_ok(n, board)
        && tasks_tidy(board)
        && parents_ok(n, m, board)
        && tasks_ok(lengths, codes, n, m, board)
        && ready_ok(m, board)
}

// What the desks keep for channels, in a rig of n desks.
#[tactic(auto, unfolding(rules::specs::Sound::tables_ok))]
fn tables_ok<'a>(
    n: u8,
    hintprocessors: &'a [u8; 768],
    hintmoves: &'a [u16; 768],
    heldprocessors: &'a [u8; 768],
    heldnumbers: &'a [u8; 768],
    notes: &'a [u8; 768],
) -> bool
    requires { (length hintprocessors.now ≡ 768) × (length hintmoves.now ≡ 768) × (length heldprocessors.now ≡ 768)
        × (length heldnumbers.now ≡ 768) × (length notes.now ≡ 768) }
    ensures { result ≡ tables_ok n (record {
      hintprocessors = hintprocessors.now;
      hintmoves = hintmoves.now;
      heldprocessors = heldprocessors.now;
      heldnumbers = heldnumbers.now;
      notes = notes.now;
    }) }
{
    hints_ok(n, hintprocessors, hintmoves)
        && offers_ok(n, heldprocessors, heldnumbers)
        && notes_ok(n, notes)
}

// Whether an opened image is one, of a rig that 9 does not refuse.
pub fn passes<'a>(
    rig: &'a [u8],
    lengths: &'a [u8; 64],
    codes: &'a [u32; 4096],
    hintprocessors: &'a [u8; 768],
    hintmoves: &'a [u16; 768],
    heldprocessors: &'a [u8; 768],
    heldnumbers: &'a [u8; 768],
    notes: &'a [u8; 768],
    board: &'a Board,
    n: Size,
    chosen: [u8; 6],
) -> bool
    requires { Opened rig.now lengths.now codes.now n
        (lent hintprocessors.now hintmoves.now heldprocessors.now heldnumbers.now notes.now board.now)
        chosen }
    ensures { result ≡ is_image rig.now && system_ok (rig_of rig.now) }
{
    let m = n.tasks;
    let desks = n.processors;
    bytes_ok(rig)
        && board_ok(lengths, codes, desks, m, board)
        && tables_ok(
            desks,
            hintprocessors,
            hintmoves,
            heldprocessors,
            heldnumbers,
            notes,
        )
        && processors_ok(desks)
        && all_at_most(m, &chosen)
        && mail_ok(rig, desks, m, n.used)
}
