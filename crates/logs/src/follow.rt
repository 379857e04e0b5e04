// The received log along the links of the sent log.
ghost use Rattle.std.specs.Prelude.{◌≡◌, true, ◌≤◌, ◌<◌};
ghost use Rattle.rules.specs.LogFiles.{log_length_ok, verdict_of};
ghost use Rattle.logs.specs.Places.{Linked};
ghost use Rattle.logs.specs.Following.{matches_at, lower_of, followed_answer};

use crate::links::Links;
use crate::records::{channel, same_word};
use plan::ChannelId;
use rules::log::LogsAnswer;

// Whether the word of record k of the received log is the one at a place of the sent log; at no place there is none.
#[tactic(auto, unfolding(crate::specs::Following::matches_at))]
fn matches<'a>(received: &'a [u8], k: usize, sent: &'a [u8], place: usize) -> bool
    requires { (k < 4096) × (place ≤ 4096) }
    ensures { result ≡ matches_at received.now k sent.now place }
{
    place != 0 && same_word(received, k, sent, place - 1)
}

// The lower of two channels, of which the first may be 0, none.
#[tactic(auto, unfolding(crate::specs::Following::lower_of))]
fn lower(lowest: usize, c: usize) -> usize
    ensures { result ≡ lower_of lowest c }
{
    if lowest == 0 { c } else { lowest.min(c) }
}

// Yes where no channel is the lowest, else no.
fn verdict(lowest: usize) -> LogsAnswer
    requires { lowest ≤ 128 }
    ensures { result ≡ verdict_of lowest }
{
    if lowest == 0 {
        return LogsAnswer::Yes;
    }
    LogsAnswer::No(ChannelId(lowest as u8))
}

// One pass, from the first record to the last. The place of a channel is that of its next word in the sent log.
pub fn follow<'a>(sent: &'a [u8], received: &'a [u8], links: Links) -> LogsAnswer
    requires { (log_length_ok sent.now ≡ true) × (log_length_ok received.now ≡ true) × Linked sent.now links × (links.ok ≡ true) }
    ensures { result ≡ followed_answer sent.now received.now }
{
    let next = links.next;
    let mut places = links.first;
    let mut lowest: usize = 0;
    for k in 0..received.len() / 10 {
        let c = channel(received, k);
        if !(1..=128).contains(&c) {
            return LogsAnswer::BadRecord;
        }
        let place = places[c] as usize;
        if matches(received, k, sent, place) {
            places[c] = next[place - 1];
        } else {
            lowest = lower(lowest, c);
        }
    }
    verdict(lowest)
}
