// What a letter about a channel puts together of a site.
ghost use Rattle.std.specs.Prelude.{◌≡◌, ◌≤◌};
ghost use Rattle.rules.specs.declared.rule.Posting.TheVariants.{Nothing as NoPosting};
ghost use Rattle.rules.specs.Tasks.{no_task};
ghost use Rattle.rules.specs.Systems.{task_in};
ghost use Rattle.rig_parts.specs.Fetches.{no_cell};
ghost use Rattle.rig_parts.specs.Scopes.{named_in};
ghost use Rattle.plan_index.specs.user_table.Users.{receivers_of};
ghost use Rattle.board.specs.Lent.{tasks_on};
ghost use Rattle.steps.specs.message.Seen.{at_receiver};

use board::Board;
use plan::{ChannelId, ProcessorId};
use rules::channel::{Cell, Channel};
use rules::rule::{Outcome, Posting, Site};
use rules::task::TaskState;

// The cell that stands for none.
pub fn no_cell() -> Cell
    ensures { result ≡ no_cell }
{
    let none = cell_rules::order::unknown();
    let nothing = cell_rules::order::no_offer();
    let channel = Channel {
        granted: 0,
        awaiting: false,
        carried: nothing,
        travelling: none,
    };
    board::cell::cell_of(none, nothing, ProcessorId(0), channel)
}

// Channel c's site with this cell, as its receiver has it.
pub fn at_receiver<'a>(
    codes: &'a [u32; 4096],
    users: &'a [u8; 1024],
    board: &'a Board,
    c: ChannelId,
    cell: Cell,
) -> Site
    requires { (c.0 ≤ 128)
        × ((named_in (receivers_of users.now) c.0).0 ≤ 64)
        × ((task_in (tasks_on board.now) (named_in (receivers_of users.now) c.0)).pc ≤ 65) }
    ensures { result ≡ at_receiver codes.now users.now board.now c cell }
{
    let u = plan_index::user_table::users::receiver(users, c);
    let b = board::task_at(board, u);
    let receiving = board::cell::is_on(codes, TaskState::Receiving, u, c, b);
    let nobody = board::fetch::no_task();
    Site {
        sender: nobody,
        receiver: b,
        sending: false,
        receiving,
        cell,
    }
}

// What is left where no letter is opened.
pub fn unopened() -> Outcome
    ensures { result ≡ record { sender = no_task; receiver = no_task; cell = no_cell; posting = NoPosting; received = None } }
{
    let nobody = board::fetch::no_task();
    let nowhere = no_cell();
    Outcome {
        sender: nobody,
        receiver: nobody,
        cell: nowhere,
        posting: Posting::Nothing,
        received: None,
    }
}
