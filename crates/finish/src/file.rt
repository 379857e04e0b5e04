// The check of a plan file, its answer written into a lent output.
ghost use Rattle.std.specs.Prelude.{◌≡◌};
ghost use Rattle.finish.specs.Files.{FinishFile};

use crate::answer::answer;
use plan::Refusal;
use plan_file::opening::open;
use plan_index::ends::numbers::put_numbers;
use rules::step::RunRefusal;
use run::file::run::Outcome;

// 2 to 6 as at start; then the lines, as many as fit, and 20 if they do not all fit.
pub fn finish_file<'a>(plan: &'a [u8], out: &'a mut [u8]) -> Outcome
    ensures { FinishFile plan.now out.old result.answer result.filled out.new }
{
    let mut codes = [0u32; 4096];
    let mut parents = [0u8; 129];
    let mut senders = [0u8; 129];
    let mut receivers = [0u8; 129];
    let opened = open(plan, &mut codes, &mut parents, &mut senders, &mut receivers);
    match opened.answer {
        Err(a) => Outcome {
            answer: Err(RunRefusal::Unstarted(a)),
            filled: 0,
        },
        Ok(()) => {
            let mut numbers = [0u8; 4096];
            put_numbers(opened.tasks, &opened.lengths, &codes, &mut numbers);
            let d = answer(
                opened.tasks,
                &codes,
                &numbers,
                &senders,
                &receivers,
                &parents,
                out,
            );
            if d.whole {
                return Outcome {
                    answer: Ok(()),
                    filled: d.filled,
                };
            }
            Outcome {
                answer: Err(RunRefusal::OutputShort),
                filled: d.filled,
            }
        }
    }
}
