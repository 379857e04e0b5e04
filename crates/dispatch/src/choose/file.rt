// The choice from a plan file, its steps written into a lent output.
ghost use Rattle.std.specs.Prelude.{length};
ghost use Rattle.dispatch.specs.Calls.{room_in, Chooses};

use crate::choose::start::choose;
use plan::Refusal;
use plan_file::opening::open;
use plan_index::ends::numbers::put_numbers;
use rules::step::RunRefusal;
use run::file::run::Outcome;

// 1 to 6 as at start; then the steps, as many as fit, and 20 if they do not all fit.
fn choose_in<'a>(processors: u32, plan: &'a [u8], out: &'a mut [u8]) -> Outcome
    ensures { Chooses processors plan.now (length out.old) out.old result.answer result.filled out.new }
{
    if !(1..=6).contains(&processors) {
        return Outcome {
            answer: Err(RunRefusal::Unstarted(Refusal::BadProcessors)),
            filled: 0,
        };
    }
    let mut codes = [0u32; 4096];
    let mut parents = [0u8; 129];
    let mut senders = [0u8; 129];
    let mut receivers = [0u8; 129];
    let opened = open(plan, &mut codes, &mut parents, &mut senders, &mut receivers);
    match opened.answer {
        Err(a) => Outcome {
            answer: Err(RunRefusal::Unstarted(a)),
            filled: 0,
        },
        Ok(()) => {
            let mut numbers = [0u8; 4096];
            put_numbers(opened.tasks, &opened.lengths, &codes, &mut numbers);
            let c = choose(
                opened.tasks,
                &codes,
                &numbers,
                &senders,
                &receivers,
                &parents,
                processors as u8,
                out,
            );
            if c.whole && c.rest {
                return Outcome {
                    answer: Ok(()),
                    filled: c.filled,
                };
            }
            Outcome {
                answer: Err(RunRefusal::OutputShort),
                filled: c.filled,
            }
        }
    }
}

// The same, with 2,000 steps at most.
pub fn choose_file<'a>(processors: u32, plan: &'a [u8], out: &'a mut [u8]) -> Outcome
    ensures { Chooses processors plan.now (room_in out.old) out.old result.answer result.filled out.new }
{
    if out.len() <= 8000 {
        return choose_in(processors, plan, out);
    }
    choose_in(processors, plan, &mut out[..8000])
}
