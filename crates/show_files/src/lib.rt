// What the programs share: files read into a buffer that they lend, as far as it goes, answers as they are printed, and
// the records of tests.
#![tactic(auto)]

// What a program is told, and what it prints of a call's answer.
pub mod answers;
// The records of a test's file, and the output of a call beside them.
pub mod records;

ghost use Rattle.std.specs.Prelude.{◌≡◌, ◌≤◌, length, take, IfOk, IfSome};

use std::fs::File;
use std::io;
use std::io::Read;
use std::rt::Files;

// Reads until the buffer is full, the input ends or a read fails, and answers how many bytes it put at the
// start of the buffer.
pub fn read_full(input: &mut impl Read, file: &mut [u8]) -> usize
    ensures in_bounds { result ≤ length file.new }
    ensures prefix { result ≡ length (take result file.new) }
{
    let mut done = 0;
    while done < file.len() {
        let n = input.read(&mut file[done..]).unwrap_or(0);
        if n == 0 {
            break;
        }
        done += n;
    }
    done
}

// Reads a file and answers how many bytes. A missing file counts as empty: nothing is read where
// opening it failed.
pub fn load(rt: &impl Files, name: &str, file: &mut [u8]) -> usize
    ensures in_bounds { result ≤ length file.new }
    ensures prefix { result ≡ length (take result file.new) }
{
    match File::open(rt, name) {
        Ok(mut input) => read_full(&mut input, file),
        Err(_) => 0,
    }
}

// Reads a file and answers how many bytes, or why it was not opened.
pub fn load_present(rt: &impl Files, name: &str, file: &mut [u8]) -> io::Result<usize>
    ensures in_bounds { IfOk result (λ n. n ≤ length file.new) }
    ensures prefix { IfOk result (λ n. n ≡ length (take n file.new)) }
{
    let mut input = File::open(rt, name)?;
    Ok(read_full(&mut input, file))
}

// The bytes of a file, in the lent buffer. Where it is not opened, that is said.
pub fn load_or_say<'a>(
    rt: &(impl Files + Eprint),
    name: &str,
    file: &'a mut [u8],
) -> Option<&'a [u8]>
    ensures { IfSome result (λ bytes. length bytes.now ≤ length file.old) }
{
    match load_present(rt, name, file) {
        Ok(size) => Some(&file[..size]),
        Err(why) => {
            fail(rt, name, why);
            None
        }
    }
}

// Says on standard error what failed and why.
pub fn fail(rt: &impl Eprint, what: &str, why: io::Error) {
    let _ = eprintln!(rt; "{what}: {why}");
}
