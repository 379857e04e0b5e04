// The steps of a file, carried out one after the other, each with its line: the loop owns the mail, five tables and the board are lent.

// A step of the file, from its four bytes.
mod decode;

ghost use Rattle.board.specs.Lent.{lent};
ghost use Rattle.board.specs.Rigs.{facts_in};
ghost use Rattle.run.specs.all_steps.Begins.{Begins};
ghost use Rattle.run.specs.all_steps.Writes.{RanOn};

use crate::all_steps::decode::step_at;
use crate::lines::emit_next;
use board::Board;
use board::act::Size;
use network::position;
use rules::message::Network;
use rules::step::{Report, StepRefusal};
use steps::message::deliver;
use steps::other;
use steps::word::word_run;

// Each step, and a line for it behind those before it, as long as they fit.
pub fn run_steps<'a>(
    codes: &'a [u32; 4096],
    numbers: &'a [u8; 4096],
    users: &'a [u8; 1024],
    hintprocessors: &'a mut [u8; 768],
    hintmoves: &'a mut [u16; 768],
    heldprocessors: &'a mut [u8; 768],
    heldnumbers: &'a mut [u8; 768],
    notes: &'a mut [u8; 768],
    board: &'a mut Board,
    size: Size,
    network: Network,
    steps: &'a [u8],
    out: &'a mut [u8],
    progress: &'a mut [usize; 2],
) -> Network
    requires { Begins codes.now numbers.now users.now size network
        (lent hintprocessors.old hintmoves.old heldprocessors.old heldnumbers.old notes.old board.old)
        steps.now progress.old }
    ensures { RanOn (facts_in size.tasks codes.now numbers.now users.now) size.processors
        (lent hintprocessors.old hintmoves.old heldprocessors.old heldnumbers.old notes.old board.old)
        network steps.now out.old
        (lent hintprocessors.new hintmoves.new heldprocessors.new heldnumbers.new notes.new board.new)
        result progress.new out.new }
{
    let n = steps.len() / 4;
    let mut network = network;
    let mut k: usize = 0;
    while k < n {
        let next = k + 1;
        let s = step_at(steps, k);
        let used = network.used;
        let p = position(used, s);
        if p != 0 {
            // a delivery: the letter leaves the mail, and the last place holds what is posted, a letter or nothing
            let place = p - 1;
            let slot = network.slots[place];
            let m = slot.message;
            let r = deliver(
                codes,
                users,
                hintprocessors,
                hintmoves,
                heldprocessors,
                heldnumbers,
                notes,
                board,
                m,
            );
            let last = used - 1;
            let mut j: usize = 0;
            while place + j < last {
                let moved = network.slots[place + j + 1];
                network.slots[place + j] = moved;
                j += 1;
            }
            let posting = r.posting;
            let l = network::message(posting, 0);
            network.slots[last] = l;
            network.used = last + base::wide8(network::rounds(1, posting));
            let answer = r.answer;
            let received = r.received;
            let report = Report {
                answer: answer,
                received: received,
            };
            emit_next(out, progress, next, report);
        } else {
            let now_size = Size {
                tasks: size.tasks,
                processors: size.processors,
                used: used,
            };
            if word_run(codes, board, now_size, s) {
                // a set or an add: nothing is posted
                let plain = Report {
                    answer: Ok(()),
                    received: None,
                };
                emit_next(out, progress, next, plain);
            } else {
                // any other step: what is posted goes behind the letters, one letter at once
                let r = other(
                    codes,
                    numbers,
                    users,
                    hintprocessors,
                    hintmoves,
                    heldprocessors,
                    heldnumbers,
                    notes,
                    board,
                    now_size,
                    s,
                );
                let posting = r.posting;
                if network::posts(posting) {
                    let l = network::message(posting, 0);
                    network.slots[used] = l;
                    network.used = used + 1;
                } else {
                    let rounds = network::rounds(size.processors, posting);
                    let mut e: u8 = 0;
                    while e < rounds {
                        if !network::skips(posting, e) {
                            let l = network::message(posting, e);
                            let free = network.used;
                            network.slots[free] = l;
                            network.used = free + 1;
                        }
                        e += 1;
                    }
                }
                let answer = r.answer;
                let received = r.received;
                let report = Report {
                    answer: answer,
                    received: received,
                };
                emit_next(out, progress, next, report);
            }
        }
        k = next;
    }
    network
}
