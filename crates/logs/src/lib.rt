// Two logs held against each other: a pass over the sent log links the records of each channel, and a pass over the
// received log follows these links.
#![tactic(auto)]

// The received log along the links.
mod follow;
// The records of each channel of a log, linked.
mod links;
// What stands in a log.
mod records;

ghost use Rattle.std.specs.Prelude.{◌≡◌};
ghost use Rattle.rules.specs.LogFiles.{logs_answer};

use follow::follow;
use links::link;
use records::length_ok;
use rules::log::LogsAnswer;

// The check: 24, then 25, each over both files; yes, or no and the lowest channel.
pub fn check_logs<'a>(sent: &'a [u8], received: &'a [u8]) -> LogsAnswer
    ensures { result ≡ logs_answer sent.now received.now }
{
    if !length_ok(sent) || !length_ok(received) {
        return LogsAnswer::BadLength;
    }
    let links = link(sent);
    if !links.ok {
        return LogsAnswer::BadRecord;
    }
    follow(sent, received, links)
}
