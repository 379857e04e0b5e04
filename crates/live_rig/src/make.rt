// A step on what is lent of a live rig and on the bytes of its mail.
ghost use Rattle.std.specs.Prelude.{◌≡◌};
ghost use Rattle.board.specs.Lent.{lent};
ghost use Rattle.live_rig.specs.Calls.{Makes, MadeOn};

use crate::ranges::posting_fits;
use board::Board;
use board::act::Size;
use network::position;
use rig_step::act::act_on;
use rig_write::mail::{post_letters, take_letter};
use rules::message::Message;
use rules::step::{Report, Step};

// What a step says, and how many letters there are then.
#[derive(Clone, Copy)]
pub struct Made {
    pub report: Report,
    pub used: usize,
}

// The step is made, with the letter that it delivers: this leaves the mail, and what is posted joins it.
pub fn make<'a>(
    lengths: &'a [u8; 64],
    codes: &'a [u32; 4096],
    users: &'a [u8; 1024],
    hintprocessors: &'a mut [u8; 768],
    hintmoves: &'a mut [u16; 768],
    heldprocessors: &'a mut [u8; 768],
    heldnumbers: &'a mut [u8; 768],
    notes: &'a mut [u8; 768],
    board: &'a mut Board,
    mail: &'a mut [u8],
    n: Size,
    letter: Message,
    s: Step,
) -> Made
    requires { Makes lengths.now codes.now users.now n
        (lent hintprocessors.old hintmoves.old heldprocessors.old heldnumbers.old notes.old board.old)
        mail.old letter s }
    ensures { MadeOn lengths.now codes.now users.now n letter s
        (lent hintprocessors.old hintmoves.old heldprocessors.old heldnumbers.old notes.old board.old) mail.old
        result.report result.used
        (lent hintprocessors.new hintmoves.new heldprocessors.new heldnumbers.new notes.new board.new) mail.new }
{
    let r = act_on(
        codes,
        lengths,
        users,
        hintprocessors,
        hintmoves,
        heldprocessors,
        heldnumbers,
        notes,
        board,
        n,
        letter,
        s,
    );
    let answer = r.answer;
    let received = r.received;
    let report = Report {
        answer: answer,
        received: received,
    };
    let posting = r.posting;
    posting_fits(posting);
    let left = take_letter(mail, position(n.used, s), n.used);
    let used = post_letters(mail, left, n.processors, posting);
    Made {
        report: report,
        used: used,
    }
}
