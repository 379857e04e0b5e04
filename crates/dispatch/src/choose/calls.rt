// The calls: desks 1 to n in turn, round by round, until the rig is at rest. The loop owns the mail, as that over a step file does.
ghost use Rattle.std.specs.Prelude.{◌≡◌, ◌∷◌, []};
ghost use Rattle.board.specs.Lent.{lent};
ghost use Rattle.dispatch.specs.Calls.{desk_after};
ghost use Rattle.dispatch.specs.Boards.{SomeBy, CallsOn, no_choices};

use crate::choose::bytes::put_step;
use crate::choose::rest::rests_on;
use crate::choose::runs::carry_out;
use crate::mail::is_for;
use board::Board;
use board::act::Size;
use board::ready::ready_at;
use plan::ProcessorId;
use rules::message::Network;
use rules::step::Step;
use steps::message::deliver;
use task_rules::ready::next_ready;

// The desk after d, round again.
fn desk_after(n: u8, d: u8) -> u8
    ensures { result ≡ desk_after n d }
{
    if d < n {
        return d + 1;
    }
    1
}

// The calls, while their steps fit: whether the rig is at rest then.
pub fn call_desks<'a>(
    codes: &'a [u32; 4096],
    numbers: &'a [u8; 4096],
    users: &'a [u8; 1024],
    hintprocessors: &'a mut [u8; 768],
    hintmoves: &'a mut [u16; 768],
    heldprocessors: &'a mut [u8; 768],
    heldnumbers: &'a mut [u8; 768],
    notes: &'a mut [u8; 768],
    board: &'a mut Board,
    size: Size,
    network: Network,
    out: &'a mut [u8],
    progress: &'a mut [usize; 2],
) -> bool
    requires { (SomeBy codes.now numbers.now users.now size network
        (lent hintprocessors.old hintmoves.old heldprocessors.old heldnumbers.old notes.old board.old) no_choices)
        × (progress.old ≡ 0 ∷ 0 ∷ []) }
    ensures { CallsOn codes.now numbers.now users.now size
        network (lent hintprocessors.old hintmoves.old heldprocessors.old heldnumbers.old notes.old board.old)
        out.old progress.new result out.new }
{
    let mut network = network;
    let mut last = [0u8; 6];
    let mut d: u8 = 0;
    let mut k: u32 = 0;
    let mut awake = false;
    while k < 12006 {
        if progress[1] != 0 {
            return false;
        }
        let used = network.used;
        if rests_on(awake, size.tasks, size.processors, codes, board, used) {
            return true;
        }
        let next = k + 1;
        d = desk_after(size.processors, d);
        let desk = ProcessorId(d);
        let at = d as usize - 1;
        // the earliest letter for the desk
        let mut place: usize = 0;
        while place < used {
            let looked = network.slots[place];
            let letter = looked.message;
            if is_for(letter, desk) {
                break;
            }
            place += 1;
        }
        // a call that makes no step leaves the rig as it is, and that is not at rest
        awake = used <= place;
        if place < used {
            // it is delivered and leaves the mail; the last place holds what is posted, a letter or nothing
            let slot = network.slots[place];
            let m = slot.message;
            let position = (place + 1) as u16;
            let delivery = Step {
                kind: 2,
                task: 0,
                number: position,
            };
            put_step(out, progress, delivery);
            let r = deliver(
                codes,
                users,
                hintprocessors,
                hintmoves,
                heldprocessors,
                heldnumbers,
                notes,
                board,
                m,
            );
            let end = used - 1;
            let mut j: usize = 0;
            while place + j < end {
                let moved = network.slots[place + j + 1];
                network.slots[place + j] = moved;
                j += 1;
            }
            let posting = r.posting;
            let l = network::message(posting, 0);
            network.slots[end] = l;
            network.used = end + network::rounds(1, posting) as usize;
        }
        // the next ready task after the last one chosen is run, if there is one; a refused run uses the turn
        let before = last[at];
        let t = next_ready(size.tasks, before, ready_at(board, desk));
        if t != 0 {
            last[at] = t;
            awake = false;
            let run = Step {
                kind: 1,
                task: t,
                number: 0,
            };
            put_step(out, progress, run);
            let now_size = Size {
                tasks: size.tasks,
                processors: size.processors,
                used: network.used,
            };
            let r = carry_out(
                codes,
                numbers,
                users,
                hintprocessors,
                hintmoves,
                heldprocessors,
                heldnumbers,
                notes,
                board,
                now_size,
                run,
            );
            let posting = r.posting;
            let rounds = network::rounds(size.processors, posting);
            let mut e: u8 = 0;
            while e < rounds {
                if !network::skips(posting, e) {
                    let l = network::message(posting, e);
                    let free = network.used;
                    network.slots[free] = l;
                    network.used = free + 1;
                }
                e += 1;
            }
        }
        k = next;
    }
    let left = network.used;
    rests_on(awake, size.tasks, size.processors, codes, board, left)
}
