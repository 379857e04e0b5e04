// The header of a plan file: T, N, and each task's offset and count.
ghost use Rattle.std.specs.Prelude.{◌≡◌, ◌+◌, ◌*◌, ◌≤◌, length};
ghost use Rattle.plan_write.specs.output.Output.{overlay};
ghost use Rattle.plan_write.specs.Header.{total_in, entries_bytes};

use crate::output::bytes::put_word;

// How many instructions the first n tasks have.
pub fn total_of(n: usize, lengths: &[u8; 64]) -> usize
    requires { (n ≤ 64) × (total_in lengths.now n ≤ 4096) }
    ensures { result ≡ total_in lengths.now n }
{
    let mut total: usize = 0;
    for k in 0..n {
        total += lengths[k] as usize;
    }
    total
}

// The entries of n tasks, put behind T and N.
pub fn write_entries(out: &mut [u8], n: usize, lengths: &[u8; 64])
    requires { (n ≤ 64) × (4 + 4 * n ≤ length out.old) × (total_in lengths.now n ≤ 4096) }
    ensures { out.new ≡ overlay out.old 4 (entries_bytes lengths.now n) }
{
    let mut end = 4 + 4 * n;
    for k in 0..n {
        put_word(out, 4 + 4 * k, end as u16);
        put_word(out, 6 + 4 * k, lengths[k] as u16);
        end += 4 * lengths[k] as usize;
    }
}
