// The lines of the trace, written straight into the rest of the lent output.

// Those of the finish check.
pub mod finish;

ghost use Rattle.std.specs.Prelude.{◌≡◌, ◌∷◌, [], ◌++◌, ◌+◌, ◌<◌, ◌≤◌, length, leb};
ghost use Rattle.plan.specs.Words.{word_numbers};
ghost use Rattle.rules.specs.Trace.{decimal, fields, step_line, over_line};
ghost use Rattle.trace.specs.Lines.{level_fields, end_text};
ghost use Rattle.trace.specs.Output.{Emitted, Put, PutTo};

use super::{answer_number, digit, flag};
use plan::Word;
use rules::step::Report;

// How many digits a number has.
fn digits(n: usize) -> usize
    requires { n < 100000 }
    ensures { (result ≡ length (decimal n)) × (result ≤ 5) }
{
    if n < 10 {
        return 1;
    }
    if n < 100 {
        return 2;
    }
    if n < 1000 {
        return 3;
    }
    if n < 10000 {
        return 4;
    }
    5
}

// A number of one digit.
fn put_one(out: &mut [u8], at: usize, n: usize)
    requires { (n < 10) × (at < length out.old) }
    ensures { Put out.old at (decimal n) out.new }
{
    out[at] = digit(n);
}

// A number of two digits.
fn put_two(out: &mut [u8], at: usize, n: usize)
    requires { (10 ≤ n) × (n < 100) × (at + 1 < length out.old) }
    ensures { Put out.old at (decimal n) out.new }
{
    put_one(out, at, n / 10);
    out[at + 1] = digit(n % 10);
}

// A number of three digits.
fn put_three(out: &mut [u8], at: usize, n: usize)
    requires { (100 ≤ n) × (n < 1000) × (at + 2 < length out.old) }
    ensures { Put out.old at (decimal n) out.new }
{
    put_two(out, at, n / 10);
    out[at + 2] = digit(n % 10);
}

// A number of four digits.
fn put_four(out: &mut [u8], at: usize, n: usize)
    requires { (1000 ≤ n) × (n < 10000) × (at + 3 < length out.old) }
    ensures { Put out.old at (decimal n) out.new }
{
    put_three(out, at, n / 10);
    out[at + 3] = digit(n % 10);
}

// A number of five digits.
fn put_five(out: &mut [u8], at: usize, n: usize)
    requires { (10000 ≤ n) × (n < 100000) × (at + 4 < length out.old) }
    ensures { Put out.old at (decimal n) out.new }
{
    put_four(out, at, n / 10);
    out[at + 4] = digit(n % 10);
}

// A number: where it ends.
fn put_number(out: &mut [u8], at: usize, n: usize) -> usize
    requires { (n < 100000) × (at + length (decimal n) ≤ length out.old) }
    ensures { PutTo out.old at (decimal n) result out.new }
{
    if n < 10 {
        put_one(out, at, n);
        return at + 1;
    }
    if n < 100 {
        put_two(out, at, n);
        return at + 2;
    }
    if n < 1000 {
        put_three(out, at, n);
        return at + 3;
    }
    if n < 10000 {
        put_four(out, at, n);
        return at + 4;
    }
    put_five(out, at, n);
    at + 5
}

// A field: a space and a number.
fn put_field(out: &mut [u8], at: usize, n: usize) -> usize
    requires { (n < 100000) × (at + length (32 ∷ decimal n) ≤ length out.old) }
    ensures { PutTo out.old at (32 ∷ decimal n) result out.new }
{
    out[at] = 32;
    put_number(out, at + 1, n)
}

// The four levels of a word, level 0 first, each behind a space.
fn put_levels(out: &mut [u8], at: usize, w: Word) -> usize
    requires { at + length (level_fields w) ≤ length out.old }
    ensures { PutTo out.old at (level_fields w) result out.new }
{
    let first = put_field(out, at, w.0 as usize);
    let second = put_field(out, first, w.1 as usize);
    let third = put_field(out, second, w.2 as usize);
    put_field(out, third, w.3 as usize)
}

// How long they are.
fn levels_length(w: Word) -> usize
    ensures { (result ≡ length (level_fields w)) × (result ≤ 24) }
{
    digits(w.0 as usize) + digits(w.1 as usize) + digits(w.2 as usize) + digits(w.3 as usize) + 4
}

// The numbers of a step and of its answer, at the front.
fn put_head(rest: &mut [u8], k: usize, a: usize) -> usize
    requires { (k < 100000) × (a < 100000) × (length (decimal k ++ (32 ∷ decimal a)) ≤ length rest.old) }
    ensures { PutTo rest.old 0 (decimal k ++ (32 ∷ decimal a)) result rest.new }
{
    let end = put_number(rest, 0, k);
    put_field(rest, end, a)
}

// Whether a line of two numbers fits into what is left: no line is longer than 42 bytes.
fn head_fits(left: usize, k: usize, a: usize) -> bool
    requires { (k < 100000) × (a < 100000) }
    ensures { result ≡ leb (length (decimal k ++ fields (a ∷ []))) left }
{
    42 <= left || digits(k) + digits(a) + 2 <= left
}

// Whether a line of two numbers, a channel and a word does.
fn received_fits(left: usize, k: usize, a: usize, c: usize, w: Word) -> bool
    requires { (k < 100000) × (a < 100000) × (c < 100000) }
    ensures { result ≡ leb (length (decimal k ++ fields (a ∷ c ∷ word_numbers w))) left }
{
    42 <= left || digits(k) + digits(a) + digits(c) + levels_length(w) + 3 <= left
}

// A line of two numbers at the front, if it fits.
fn write_head(rest: &mut [u8], k: usize, a: usize) -> usize
    requires { (k < 100000) × (a < 100000) }
    ensures { Emitted rest.old 0 (decimal k ++ fields (a ∷ [])) result rest.new }
{
    if !head_fits(rest.len(), k, a) {
        return 0;
    }
    let end = put_head(rest, k, a);
    rest[end] = 10;
    end + 1
}

// A line of two numbers, a channel and a word at the front, if it fits.
fn write_received(rest: &mut [u8], k: usize, a: usize, c: usize, w: Word) -> usize
    requires { (k < 100000) × (a < 100000) × (c < 100000) }
    ensures { Emitted rest.old 0 (decimal k ++ fields (a ∷ c ∷ word_numbers w)) result rest.new }
{
    if !received_fits(rest.len(), k, a, c, w) {
        return 0;
    }
    let head = put_head(rest, k, a);
    let channel = put_field(rest, head, c);
    let word = put_levels(rest, channel, w);
    rest[word] = 10;
    word + 1
}

// The line of the k-th step at the front of the rest of the output, if it fits: how many bytes were written.
fn write_step(rest: &mut [u8], k: usize, q: Report) -> usize
    requires { k < 100000 }
    ensures { Emitted rest.old 0 (step_line k q) result rest.new }
{
    let a = answer_number(q.answer) as usize;
    match q.received {
        None => write_head(rest, k, a),
        Some((c, w)) => write_received(rest, k, a, c.0 as usize, w),
    }
}

// The line of the k-th step written into the part of the output that is not yet filled: how many bytes were written,
// 0 where it does not fit.
pub fn emit_step(out: &mut [u8], filled: usize, k: usize, q: Report) -> usize
    requires { (filled ≤ length out.old) × (k < 100000) }
    ensures { Emitted out.old filled (step_line k q) result out.new }
{
    write_step(&mut out[filled..], k, q)
}

// A word that begins a line, at the front.
fn put_word(rest: &mut [u8], word: &[u8]) -> usize
    requires { length word.now ≤ length rest.old }
    ensures { PutTo rest.old 0 word.now result rest.new }
{
    rest[..word.len()].copy_from_slice(word);
    word.len()
}

// The line of task t, which is marked, at the front of the rest of the output, if it fits: how many bytes were written.
fn write_over(rest: &mut [u8], t: usize) -> usize
    requires { t < 100000 }
    ensures { Emitted rest.old 0 (over_line t) result rest.new }
{
    if rest.len() < digits(t) + 6 {
        return 0;
    }
    let word = put_word(rest, b"over");
    let end = put_field(rest, word, t);
    rest[end] = 10;
    end + 1
}

// The line of task t, which is marked, written into the part of the output that is not yet filled: how many bytes were
// written, 0 where it does not fit.
pub fn emit_over(out: &mut [u8], filled: usize, t: usize) -> usize
    requires { (filled ≤ length out.old) × (t < 100000) }
    ensures { Emitted out.old filled (over_line t) result out.new }
{
    write_over(&mut out[filled..], t)
}

// The last line at the front of the rest of the output, if it fits: how many bytes were written.
fn write_end(rest: &mut [u8], quiet: bool, messages: usize) -> usize
    requires { messages < 100000 }
    ensures { Emitted rest.old 0 (end_text quiet messages) result rest.new }
{
    if rest.len() < digits(messages) + 7 {
        return 0;
    }
    let word = put_word(rest, b"end");
    let answer = put_field(rest, word, flag(quiet));
    let end = put_field(rest, answer, messages);
    rest[end] = 10;
    end + 1
}

// The last line written into the part of the output that is not yet filled: how many bytes were written, 0 where it
// does not fit.
pub fn emit_end(out: &mut [u8], filled: usize, quiet: bool, messages: usize) -> usize
    requires { (filled ≤ length out.old) × (messages < 100000) }
    ensures { Emitted out.old filled (end_text quiet messages) result out.new }
{
    write_end(&mut out[filled..], quiet, messages)
}
