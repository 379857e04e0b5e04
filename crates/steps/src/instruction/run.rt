// A run of a task: its next instruction.
ghost use Rattle.std.specs.Prelude.{◌≡◌};
ghost use Rattle.rig_parts.specs.RunVerdicts.{judged_run};
ghost use Rattle.plan_index.specs.user_table.Users.{senders_of, receivers_of};
ghost use Rattle.board.specs.Lent.{lent, tasks_of, kept_of};
ghost use Rattle.board.specs.Acted.{Acted, act_of};
ghost use Rattle.board.specs.Rigs.{RigOn, facts_in};

use crate::instruction::local::{alone, create, finish, finish_decided};
use crate::instruction::next::next_of;
use crate::instruction::receive::{receive, receive_decided};
use crate::instruction::send::{send, send_decided};
use board::Board;
use board::act::{Act, Size, posted, refused};
use plan::{CREATE, ChannelId, FINISH, RECEIVE, SEND, SET, SYNC, TaskId};
use rules::rule::Posting;

// A run of task t, carried out.
pub fn run<'a>(
    codes: &'a [u32; 4096],
    numbers: &'a [u8; 4096],
    users: &'a [u8; 1024],
    hintprocessors: &'a mut [u8; 768],
    hintmoves: &'a mut [u16; 768],
    heldprocessors: &'a mut [u8; 768],
    heldnumbers: &'a mut [u8; 768],
    notes: &'a mut [u8; 768],
    board: &'a mut Board,
    n: Size,
    t: TaskId,
) -> Act
    requires { RigOn codes.now numbers.now users.now n
        (lent hintprocessors.old hintmoves.old heldprocessors.old heldnumbers.old notes.old board.old) }
    ensures { let l = lent hintprocessors.old hintmoves.old heldprocessors.old heldnumbers.old notes.old board.old in
        Acted (senders_of users.now) (receivers_of users.now)
        (judged_run (facts_in n.tasks codes.now numbers.now users.now) n.processors (tasks_of l) (kept_of l) n.used t)
        l
        result
        (lent hintprocessors.new hintmoves.new heldprocessors.new heldnumbers.new notes.new board.new) }
{
    let found = next_of(codes, board, n.tasks, t);
    match found {
        Err(e) => refused(Err(e)),
        Ok((x, i)) => {
            match i.opcode {
                CREATE => {
                    let u = TaskId(i.operand as u8);
                    create(users, hintprocessors, hintmoves, board, t, x, u)
                }
                SYNC => {
                    let y = task_rules::instructions::sync_rule(x);
                    alone(board, t, y)
                }
                FINISH => finish(users, board, n, t, x),
                SEND => {
                    let c = ChannelId(i.operand as u8);
                    send(
                        codes,
                        numbers,
                        users,
                        hintprocessors,
                        hintmoves,
                        heldprocessors,
                        heldnumbers,
                        board,
                        n,
                        t,
                        c,
                    )
                }
                RECEIVE => {
                    let c = ChannelId(i.operand as u8);
                    receive(codes, numbers, users, notes, board, n, t, c)
                }
                SET => {
                    let y = task_rules::instructions::set_rule(x, i);
                    alone(board, t, y)
                }
                _ => {
                    let y = task_rules::instructions::add_rule(x, i);
                    alone(board, t, y)
                }
            }
        }
    }
}

// A run of task t, decided and not done.
pub fn run_decided<'a>(
    codes: &'a [u32; 4096],
    numbers: &'a [u8; 4096],
    users: &'a [u8; 1024],
    hintprocessors: &'a [u8; 768],
    hintmoves: &'a [u16; 768],
    heldprocessors: &'a [u8; 768],
    heldnumbers: &'a [u8; 768],
    notes: &'a [u8; 768],
    board: &'a Board,
    n: Size,
    t: TaskId,
) -> Act
    requires { RigOn codes.now numbers.now users.now n
        (lent hintprocessors.now hintmoves.now heldprocessors.now heldnumbers.now notes.now board.now) }
    ensures { let l = lent hintprocessors.now hintmoves.now heldprocessors.now heldnumbers.now notes.now board.now in
        result ≡ act_of (judged_run (facts_in n.tasks codes.now numbers.now users.now) n.processors (tasks_of l) (kept_of l) n.used t) }
{
    let found = next_of(codes, board, n.tasks, t);
    match found {
        Err(e) => refused(Err(e)),
        Ok((x, i)) => {
            match i.opcode {
                FINISH => finish_decided(users, board, n, t, x),
                SEND => {
                    let c = ChannelId(i.operand as u8);
                    send_decided(
                        codes,
                        numbers,
                        users,
                        hintprocessors,
                        hintmoves,
                        heldprocessors,
                        heldnumbers,
                        board,
                        n,
                        t,
                        c,
                    )
                }
                RECEIVE => {
                    let c = ChannelId(i.operand as u8);
                    receive_decided(codes, numbers, users, notes, board, n, t, c)
                }
                _ => posted(Posting::Nothing),
            }
        }
    }
}
