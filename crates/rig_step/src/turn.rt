// One step on the parts of a rig that 9 does not refuse: what it says is decided, and it is carried out as a run of one step.
ghost use Rattle.std.specs.Prelude.{◌≡◌};
ghost use Rattle.rig_parts.specs.Facts.{facts};
ghost use Rattle.rig_parts.specs.Turns.{Rig, turn_of};
ghost use Rattle.board.specs.Lent.{lent};
ghost use Rattle.board.specs.Rigs.{facts_in};
ghost use Rattle.rig_step.specs.Rigs.{RigWith, said_of, TurnedOn};

use crate::bytes::step_bytes;
use crate::pack::{channels_on, parents_on, tasks_on};
use crate::put::put_rig;
use board::Board;
use board::act::Size;
use network::position;
use plan_index::user_table::users::build;
use rig_parts::kept::Kept;
use rig_parts::turn::Turn;
use rules::message::Network;
use rules::step::{Report, Step};
use rules::system::{Store, Tables, TaskTable};
use run::all_steps::run_steps;
use steps::message::message_decided;
use steps::step_decided;

// What a step would say, with this mail.
fn decided<'a>(
    codes: &'a [u32; 4096],
    numbers: &'a [u8; 4096],
    users: &'a [u8; 1024],
    hintprocessors: &'a [u8; 768],
    hintmoves: &'a [u16; 768],
    heldprocessors: &'a [u8; 768],
    heldnumbers: &'a [u8; 768],
    notes: &'a [u8; 768],
    board: &'a Board,
    n: Size,
    network: Network,
    s: Step,
) -> Report
    requires { RigWith codes.now numbers.now users.now n network
        (lent hintprocessors.now hintmoves.now heldprocessors.now heldnumbers.now notes.now board.now) }
    ensures { result ≡ said_of (facts_in n.tasks codes.now numbers.now users.now) n.processors
        (lent hintprocessors.now hintmoves.now heldprocessors.now heldnumbers.now notes.now board.now)
        network s }
{
    let p = position(n.used, s);
    if p != 0 {
        let m = network.slots[p - 1].message;
        let r = message_decided(
            codes,
            users,
            hintprocessors,
            hintmoves,
            heldprocessors,
            heldnumbers,
            notes,
            board,
            m,
        );
        return Report {
            answer: r.answer,
            received: r.received,
        };
    }
    let r = step_decided(
        codes,
        numbers,
        users,
        hintprocessors,
        hintmoves,
        heldprocessors,
        heldnumbers,
        notes,
        board,
        n,
        s,
    );
    Report {
        answer: r.answer,
        received: r.received,
    }
}

// What a step leaves beside what is lent: its report, and the mail then.
#[derive(Clone, Copy)]
pub struct Reported {
    pub report: Report,
    pub network: Network,
}

// One step on what is lent.
pub fn turn_on<'a>(
    codes: &'a [u32; 4096],
    numbers: &'a [u8; 4096],
    users: &'a [u8; 1024],
    hintprocessors: &'a mut [u8; 768],
    hintmoves: &'a mut [u16; 768],
    heldprocessors: &'a mut [u8; 768],
    heldnumbers: &'a mut [u8; 768],
    notes: &'a mut [u8; 768],
    board: &'a mut Board,
    n: Size,
    network: Network,
    s: Step,
) -> Reported
    requires { RigWith codes.now numbers.now users.now n network
        (lent hintprocessors.old hintmoves.old heldprocessors.old heldnumbers.old notes.old board.old) }
    ensures { TurnedOn (facts_in n.tasks codes.now numbers.now users.now) n.processors
        (lent hintprocessors.old hintmoves.old heldprocessors.old heldnumbers.old notes.old board.old)
        network s
        (lent hintprocessors.new hintmoves.new heldprocessors.new heldnumbers.new notes.new board.new)
        result.report result.network }
{
    let report = decided(
        codes,
        numbers,
        users,
        hintprocessors,
        hintmoves,
        heldprocessors,
        heldnumbers,
        notes,
        board,
        n,
        network,
        s,
    );
    let steps = step_bytes(s);
    let mut out = [0u8; 1];
    let mut progress = [0usize; 2];
    let network = run_steps(
        codes,
        numbers,
        users,
        hintprocessors,
        hintmoves,
        heldprocessors,
        heldnumbers,
        notes,
        board,
        n,
        network,
        &steps,
        &mut out,
        &mut progress,
    );
    Reported { report, network }
}

// One step: the parts are put on a board, and taken from it after the step.
pub fn turn<'a>(
    count: u8,
    codes: &'a [u32; 4096],
    numbers: &'a [u8; 4096],
    senders: &'a [u8; 129],
    receivers: &'a [u8; 129],
    parents: &'a [u8; 129],
    processors: u8,
    tasks: TaskTable,
    network: Network,
    kept: Kept,
    s: Step,
) -> Turn
    requires { Rig (facts count codes.now numbers.now senders.now receivers.now parents.now)
        processors tasks network kept }
    ensures { result ≡ turn_of
        (facts count codes.now numbers.now senders.now receivers.now parents.now)
        processors tasks network kept s }
{
    let mut users = [0u8; 1024];
    build(senders, receivers, parents, &mut users);
    let mut board = [0u64; 1094];
    put_rig(&mut board, tasks, kept);
    let tables = kept.store.tables;
    let mut hintprocessors = tables.hintprocessors;
    let mut hintmoves = tables.hintmoves;
    let mut heldprocessors = tables.heldprocessors;
    let mut heldnumbers = tables.heldnumbers;
    let mut notes = tables.notes;
    let n = Size {
        tasks: count,
        processors,
        used: network.used,
    };
    let t = turn_on(
        codes,
        numbers,
        &users,
        &mut hintprocessors,
        &mut hintmoves,
        &mut heldprocessors,
        &mut heldnumbers,
        &mut notes,
        &mut board,
        n,
        network,
        s,
    );
    let tables = Tables {
        hintprocessors,
        hintmoves,
        heldprocessors,
        heldnumbers,
        notes,
    };
    let store = Store {
        tables,
        channels: channels_on(&board),
    };
    let kept = Kept {
        store,
        parents: parents_on(&board),
    };
    Turn {
        report: t.report,
        tasks: tasks_on(&board),
        network: t.network,
        kept,
    }
}
