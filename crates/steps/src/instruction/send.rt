// A send: it sees the pointer, the held offer and the channel, and changes the held offer and the channel.
ghost use Rattle.std.specs.Prelude.{List, [], ◌≡◌, ℕ};
ghost use Rattle.plan_index.specs.user_table.Users.{receivers_of};
ghost use Rattle.board.specs.Lent.{lent, Whole, tasks_on, tasks_of, store_of};
ghost use Rattle.board.specs.Acted.{Acted, act_of};
ghost use Rattle.steps.specs.instruction.Sends.{Sendable, CanSend, send_outcome, send_verdict};

use crate::instruction::fitted;
use board::act::{Act, Size, accepted, fits, refused};
use board::{Board, channel_at, held_at, hint_at, put_channel, put_held, put_task, task_at};
use plan::{ChannelId, ProcessorId, TaskId};
use plan_index::user_table::users;
use rules::rule::{Outcome, Site};
use rules::step::StepRefusal;
use rules::task::TaskState;

// What a send of task t on channel c leaves, with nothing noted: the note is not seen, and stays.
pub fn send_outcome<'a>(
    codes: &'a [u32; 4096],
    numbers: &'a [u8; 4096],
    users: &'a [u8; 1024],
    hintprocessors: &'a [u8; 768],
    hintmoves: &'a [u16; 768],
    heldprocessors: &'a [u8; 768],
    heldnumbers: &'a [u8; 768],
    board: &'a Board,
    t: TaskId,
    c: ChannelId,
) -> Outcome
    requires { Sendable (receivers_of users.now) (tasks_on board.now) t c }
    ensures { let l = lent hintprocessors.now hintmoves.now heldprocessors.now heldnumbers.now [] board.now in
        result ≡ send_outcome codes.now numbers.now (receivers_of users.now) (tasks_of l) (store_of l) t c }
{
    let a = task_at(board, t);
    let d = a.processor;
    let u = users::receiver(users, c);
    let b = task_at(board, u);
    let hint = hint_at(hintprocessors, hintmoves, d, c);
    let held = held_at(heldprocessors, heldnumbers, d, c);
    let channel = channel_at(board, c);
    let receiving = board::cell::is_on(codes, TaskState::Receiving, u, c, b);
    let cell = board::cell::cell_of(hint, held, ProcessorId(0), channel);
    let site = Site {
        sender: a,
        receiver: b,
        sending: false,
        receiving,
        cell,
    };
    let at = 64 * (t.0 as usize - 1) + (a.pc as usize - 1);
    let w = numbers[at];
    channel_rules::send::send_rule(site, c, w)
}

// A send of task t on channel c. Whatever the notes are, they stay.
pub fn send<'a>(
    codes: &'a [u32; 4096],
    numbers: &'a [u8; 4096],
    users: &'a [u8; 1024],
    hintprocessors: &'a [u8; 768],
    hintmoves: &'a [u16; 768],
    heldprocessors: &'a mut [u8; 768],
    heldnumbers: &'a mut [u8; 768],
    board: &'a mut Board,
    n: Size,
    t: TaskId,
    c: ChannelId,
) -> Act
    requires { (Whole board.old) × CanSend (receivers_of users.now) n.used (tasks_on board.old) t c }
    ensures { (senders notes : List ℕ)
        → let l = lent hintprocessors.now hintmoves.now heldprocessors.old heldnumbers.old notes board.old in
        Acted senders (receivers_of users.now)
        (send_verdict codes.now numbers.now (receivers_of users.now) n.processors n.used (tasks_of l) (store_of l) t c)
        l result
        (lent hintprocessors.now hintmoves.now heldprocessors.new heldnumbers.new notes board.new) }
{
    let o = send_outcome(
        codes,
        numbers,
        users,
        hintprocessors,
        hintmoves,
        heldprocessors,
        heldnumbers,
        board,
        t,
        c,
    );
    if !fits(n, o.posting) {
        return refused(Err(StepRefusal::NetworkFull));
    }
    let u = users::receiver(users, c);
    put_task(board, t, o.sender);
    put_task(board, u, o.receiver);
    let held = o.cell.entry.held;
    put_held(heldprocessors, heldnumbers, o.sender.processor, c, held);
    put_channel(board, c, o.cell.channel);
    accepted(o)
}

// What a send of task t on channel c would say and post.
pub fn send_decided<'a>(
    codes: &'a [u32; 4096],
    numbers: &'a [u8; 4096],
    users: &'a [u8; 1024],
    hintprocessors: &'a [u8; 768],
    hintmoves: &'a [u16; 768],
    heldprocessors: &'a [u8; 768],
    heldnumbers: &'a [u8; 768],
    board: &'a Board,
    n: Size,
    t: TaskId,
    c: ChannelId,
) -> Act
    requires { CanSend (receivers_of users.now) n.used (tasks_on board.now) t c }
    ensures { (notes : List ℕ)
        → let l = lent hintprocessors.now hintmoves.now heldprocessors.now heldnumbers.now notes board.now in
        result ≡ act_of (send_verdict codes.now numbers.now (receivers_of users.now) n.processors n.used (tasks_of l) (store_of l) t c) }
{
    let o = send_outcome(
        codes,
        numbers,
        users,
        hintprocessors,
        hintmoves,
        heldprocessors,
        heldnumbers,
        board,
        t,
        c,
    );
    fitted::fitted(n, o)
}
