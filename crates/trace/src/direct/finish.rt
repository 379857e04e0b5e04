// The lines of the finish check: the verdict with a number, and a task with the task that it depends on.
ghost use Rattle.std.specs.Prelude.{◌≡◌, ◌∷◌, [], ◌++◌, ◌<◌, ◌≤◌, length};
ghost use Rattle.rules.specs.Trace.{decimal, fields};
ghost use Rattle.rules.specs.Finish.{verdict_line};
ghost use Rattle.trace.specs.Lines.{verdict_word};
ghost use Rattle.trace.specs.Output.{Emitted};

use super::{digits, put_field, put_word, write_head};

// The word that says the verdict.
fn verdict_word(finishes: bool) -> &'static [u8]
    ensures { result.now ≡ verdict_word finishes }
{
    if finishes { b"yes" } else { b"no" }
}

// The verdict and a number at the front of the rest of the output, if they fit: how many bytes were written.
fn write_verdict(rest: &mut [u8], finishes: bool, n: usize) -> usize
    requires { n < 100000 }
    ensures { Emitted rest.old 0 (verdict_line finishes n) result rest.new }
{
    let word = verdict_word(finishes);
    if rest.len() < word.len() + digits(n) + 2 {
        return 0;
    }
    let word = put_word(rest, word);
    let end = put_field(rest, word, n);
    rest[end] = 10;
    end + 1
}

// The verdict and a number written into the part of the output that is not yet filled: how many bytes were written, 0
// where they do not fit.
pub fn emit_verdict(out: &mut [u8], filled: usize, finishes: bool, n: usize) -> usize
    requires { (filled ≤ length out.old) × (n < 100000) }
    ensures { Emitted out.old filled (verdict_line finishes n) result out.new }
{
    write_verdict(&mut out[filled..], finishes, n)
}

// Task t and the task u that it depends on, written into the part of the output that is not yet filled: how many bytes
// were written, 0 where they do not fit.
pub fn emit_stuck(out: &mut [u8], filled: usize, t: usize, u: usize) -> usize
    requires { (filled ≤ length out.old) × (t < 100000) × (u < 100000) }
    ensures { Emitted out.old filled (decimal t ++ fields (u ∷ [])) result out.new }
{
    write_head(&mut out[filled..], t, u)
}
