// The start of a rig in bytes: its image.
ghost use Rattle.std.specs.Prelude.{◌≡◌};
ghost use Rattle.plan.specs.Outcomes.{plan_read};
ghost use Rattle.rules.specs.Starts.{started};
ghost use Rattle.image.specs.Image.{image};
ghost use Rattle.live_rig.specs.Start.{Starts};

use board::sweeps::locate;
use plan::{ProcessorId, TaskId};
use plan_index::user_table::users::build;
use rig::start::{no_tables, start_board};
use rig_write::head::write_head;
use rig_write::numbers::put_zeros;
use rig_write::parts::write_lent;
use rules::channel::Hint;

// The image of the start of an accepted plan, by who uses what. The birth of task 1 at desk 1 sets pointers; the other tables and
// the mail have nothing yet.
pub fn start_in<'a>(
    rig: &'a mut [u8],
    processors: u8,
    plan: &'a [u8],
    senders: &'a [u8; 129],
    receivers: &'a [u8; 129],
    parents: &'a [u8; 129],
)
    requires { Starts rig.old processors plan.now senders.now receivers.now parents.now }
    ensures { rig.new ≡ image (started processors (plan_read plan.now).plan) }
{
    let mut users = [0u8; 1024];
    build(senders, receivers, parents, &mut users);
    let tables = no_tables();
    let mut hintprocessors = tables.hintprocessors;
    let mut hintmoves = tables.hintmoves;
    let heldprocessors = tables.heldprocessors;
    let heldnumbers = tables.heldnumbers;
    let notes = tables.notes;
    let mut board = [0u64; 1094];
    start_board(&mut board);
    let one = ProcessorId(1);
    let born = Hint {
        processor: one,
        moves: 1,
    };
    locate(
        &users,
        &mut hintprocessors,
        &mut hintmoves,
        TaskId(1),
        one,
        born,
    );
    let chosen = [0u8; 6];
    write_head(rig, processors, plan);
    put_zeros(rig, 30024, 4096);
    write_lent(
        rig,
        &hintprocessors,
        &hintmoves,
        &heldprocessors,
        &heldnumbers,
        &notes,
        &board,
        0,
        chosen,
    );
}
