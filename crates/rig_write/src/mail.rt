// The mail in its bytes: a letter is cut out of them, and letters are put behind the last one.
ghost use Rattle.std.specs.Prelude.{◌≡◌, [], ◌∷◌, ◌+◌, ◌*◌, ◌≤◌, ◌<◌, length};
ghost use Rattle.rules.specs.Networks.{messages_of};
ghost use Rattle.network.specs.Rounds.{posted_at};
ghost use Rattle.plan_write.specs.output.Output.{overlay};
ghost use Rattle.rig_write.specs.Mail.{letters_bytes, TakenFrom, PostedInto};

use crate::letters::{first_number, second_number};
use crate::numbers::{put_zeros, put8};
use rules::message::Message;
use rules::rule::Posting;

// The letter at position p leaves, from 1: each behind it moves down by a slot, and the last slot is zeros. At 0 none leaves.
// How many letters are left.
pub fn take_letter(mail: &mut [u8], p: usize, used: usize) -> usize
    requires { (length mail.old ≡ 4096) × (p ≤ used) × (used ≤ 256) }
    ensures { (result ≤ used) × TakenFrom mail.old p used result mail.new }
{
    if p == 0 {
        return used;
    }
    let at = 16 * (p - 1);
    let n = 16 * (used - p);
    mail.copy_within(at + 16..at + 16 + n, at);
    put_zeros(mail, at + n, 16);
    used - 1
}

// A letter in a slot.
fn put_letter(mail: &mut [u8], free: usize, m: Message)
    requires { (length mail.old ≡ 4096) × (free < 256) }
    ensures { mail.new ≡ overlay mail.old (16 * free) (letters_bytes (m ∷ [])) }
{
    let at = 16 * free;
    put8(mail, at, first_number(m));
    put8(mail, at + 8, second_number(m));
}

// What a posting posts in round j, behind so many letters; how many letters there are then.
fn post_round(mail: &mut [u8], free: usize, x: Posting, j: u8) -> usize
    requires { (length mail.old ≡ 4096) × (j < 255) × (free + length (posted_at x j) ≤ 256) }
    ensures { (result ≡ free + length (posted_at x j)) × (mail.new ≡ overlay mail.old (16 * free) (letters_bytes (posted_at x j))) }
{
    if network::skips(x, j) {
        return free;
    }
    let slot = network::message(x, j);
    let m = slot.message;
    put_letter(mail, free, m);
    free + 1
}

// What a rule posts joins the mail's end, round by round; how many letters there are then.
pub fn post_letters(mail: &mut [u8], used: usize, processors: u8, x: Posting) -> usize
    requires { (length mail.old ≡ 4096) × (processors ≤ 6) × (used + length (messages_of processors x) ≤ 256) }
    ensures { PostedInto mail.old used processors x result mail.new }
{
    let rounds = network::rounds(processors, x);
    let mut free = used;
    for j in 0..rounds {
        free = post_round(mail, free, x, j);
    }
    free
}
