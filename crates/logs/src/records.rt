// What stands in a log.
ghost use Rattle.std.specs.Prelude.{◌≡◌, ◌≤◌, ◌<◌, eqb};
ghost use Rattle.plan.specs.Files.{word16};
ghost use Rattle.rules.specs.LogFiles.{record_channel, record_word, same_word, log_length_ok};

use plan_file::fields::word_at;

// Whether 24 does not refuse the length.
#[tactic(auto, unfolding(rules::specs::LogFiles::log_length_ok))]
pub fn length_ok(log: &[u8]) -> bool
    ensures { result ≡ log_length_ok log.now }
{
    log.len() % 10 == 0 && log.len() / 10 <= 4096
}

// The channel of the record after the first k.
pub fn channel(log: &[u8], k: usize) -> usize
    requires { k < 4096 }
    ensures { result ≡ record_channel log.now k }
{
    word_at(log, 10 * k) as usize
}

// Whether two fields are the same.
fn same_field<'a>(a: &'a [u8], i: usize, b: &'a [u8], k: usize) -> bool
    ensures { result ≡ eqb (word16 a.now i) (word16 b.now k) }
{
    word_at(a, i) == word_at(b, k)
}

// Whether the record after the first i and the one after the first k have the same word.
pub fn same_word<'a>(a: &'a [u8], i: usize, b: &'a [u8], k: usize) -> bool
    requires { (i < 4096) × (k < 4096) }
    ensures { result ≡ same_word (record_word a.now i) (record_word b.now k) }
{
    let x = 10 * i;
    let y = 10 * k;
    same_field(a, x + 2, b, y + 2)
        && same_field(a, x + 4, b, y + 4)
        && same_field(a, x + 6, b, y + 6)
        && same_field(a, x + 8, b, y + 8)
}
