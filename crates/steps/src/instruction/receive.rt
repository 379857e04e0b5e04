// A receive: it sees and changes the note and the channel.
ghost use Rattle.std.specs.Prelude.{List, [], ◌≡◌, ℕ};
ghost use Rattle.plan_index.specs.user_table.Users.{senders_of};
ghost use Rattle.board.specs.Lent.{lent, Whole, tasks_on, channels_on, tasks_of, store_of};
ghost use Rattle.board.specs.Acted.{Acted, act_of};
ghost use Rattle.steps.specs.instruction.Receives.{Receivable, CanReceive, receive_outcome, receive_verdict};

use crate::instruction::fitted;
use board::act::{Act, Size, accepted, fits, refused};
use board::{Board, channel_at, note_at, put_channel, put_note, put_task, task_at};
use plan::{ChannelId, TaskId};
use plan_index::user_table::users;
use rules::rule::{Outcome, Site};
use rules::step::StepRefusal;
use rules::task::TaskState;

// What a receive of task t on channel c leaves, with no pointer and no held offer: they are not seen, and stay.
pub fn receive_outcome<'a>(
    codes: &'a [u32; 4096],
    numbers: &'a [u8; 4096],
    users: &'a [u8; 1024],
    notes: &'a [u8; 768],
    board: &'a Board,
    t: TaskId,
    c: ChannelId,
) -> Outcome
    requires { Receivable (senders_of users.now) (tasks_on board.now) (channels_on board.now) t c }
    ensures { let l = lent [] [] [] [] notes.now board.now in
        result ≡ receive_outcome codes.now numbers.now (senders_of users.now) (tasks_of l) (store_of l) t c }
{
    let b = task_at(board, t);
    let u = users::sender(users, c);
    let a = task_at(board, u);
    let noted = note_at(notes, b.processor, c);
    let channel = channel_at(board, c);
    let sending = board::cell::is_on(codes, TaskState::Sending, u, c, a);
    let hint = cell_rules::order::unknown();
    let held = cell_rules::order::no_offer();
    let cell = board::cell::cell_of(hint, held, noted, channel);
    let site = Site {
        sender: a,
        receiver: b,
        sending,
        receiving: false,
        cell,
    };
    let w = board::fetch::last_number(numbers, u, a.pc);
    channel_rules::receive::receive_rule(site, c, w)
}

// A receive of task t on channel c. Whatever the pointers and the held offers are, they stay.
pub fn receive<'a>(
    codes: &'a [u32; 4096],
    numbers: &'a [u8; 4096],
    users: &'a [u8; 1024],
    notes: &'a mut [u8; 768],
    board: &'a mut Board,
    n: Size,
    t: TaskId,
    c: ChannelId,
) -> Act
    requires { (Whole board.old)
        × CanReceive (senders_of users.now) n.used (tasks_on board.old) (channels_on board.old) t c }
    ensures { (receivers hintprocessors hintmoves heldprocessors heldnumbers : List ℕ)
        → let l = lent hintprocessors hintmoves heldprocessors heldnumbers notes.old board.old in
        Acted (senders_of users.now) receivers
        (receive_verdict codes.now numbers.now (senders_of users.now) n.processors n.used (tasks_of l) (store_of l) t c)
        l result
        (lent hintprocessors hintmoves heldprocessors heldnumbers notes.new board.new) }
{
    let o = receive_outcome(codes, numbers, users, notes, board, t, c);
    if !fits(n, o.posting) {
        return refused(Err(StepRefusal::NetworkFull));
    }
    let u = users::sender(users, c);
    put_task(board, u, o.sender);
    put_task(board, t, o.receiver);
    put_note(notes, o.receiver.processor, c, o.cell.entry.noted);
    put_channel(board, c, o.cell.channel);
    accepted(o)
}

// What a receive of task t on channel c would say and post.
pub fn receive_decided<'a>(
    codes: &'a [u32; 4096],
    numbers: &'a [u8; 4096],
    users: &'a [u8; 1024],
    notes: &'a [u8; 768],
    board: &'a Board,
    n: Size,
    t: TaskId,
    c: ChannelId,
) -> Act
    requires { CanReceive (senders_of users.now) n.used (tasks_on board.now) (channels_on board.now) t c }
    ensures { (hintprocessors hintmoves heldprocessors heldnumbers : List ℕ)
        → let l = lent hintprocessors hintmoves heldprocessors heldnumbers notes.now board.now in
        result ≡ act_of (receive_verdict codes.now numbers.now (senders_of users.now) n.processors n.used (tasks_of l) (store_of l) t c) }
{
    let o = receive_outcome(codes, numbers, users, notes, board, t, c);
    fitted::fitted(n, o)
}
