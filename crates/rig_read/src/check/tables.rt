// What the desks keep for channels: every entry is looked at, and no loop stops early, so that many are looked at at once.
ghost use Rattle.std.specs.Prelude.{◌≡◌, leb, length};
ghost use Rattle.base.specs.Lists.{every, every_pair};
ghost use Rattle.rules.specs.Numbers.{processor_id};
ghost use Rattle.rules.specs.Cells.{hint, offer};
ghost use Rattle.rules.specs.Sound.{hint_ok, offer_ok};

use plan::ProcessorId;
use rig_check::limits::entry_ok;

// Every pointer of a table, which holds desks and counts apart.
pub fn hints_ok<'a>(n: u8, processors: &'a [u8; 768], moves: &'a [u16; 768]) -> bool
    requires { (length processors.now ≡ 768) × (length moves.now ≡ 768) }
    ensures { result ≡ every_pair (λ d k. hint_ok n (hint (processor_id d) k)) processors.now moves.now }
{
    let mut all = true;
    for k in 0..768 {
        all &= entry_ok(n, 9999, ProcessorId(processors[k]), moves[k] as usize);
    }
    all
}

// Every offer of a table, which holds desks and numbers apart.
pub fn offers_ok<'a>(n: u8, processors: &'a [u8; 768], numbers: &'a [u8; 768]) -> bool
    requires { (length processors.now ≡ 768) × (length numbers.now ≡ 768) }
    ensures { result ≡ every_pair (λ d w. offer_ok n (offer (processor_id d) w)) processors.now numbers.now }
{
    let mut all = true;
    for k in 0..768 {
        all &= entry_ok(n, 64, ProcessorId(processors[k]), numbers[k] as usize);
    }
    all
}

// Every noted advert.
pub fn notes_ok(n: u8, notes: &[u8; 768]) -> bool
    requires { length notes.now ≡ 768 }
    ensures { result ≡ every (λ d. leb d n) notes.now }
{
    let mut all = true;
    for k in 0..768 {
        all &= notes[k] <= n;
    }
    all
}
