// The check of a sent log and a received log, as the C driver calls it.
ghost use Rattle.std.specs.Prelude.{◌≡◌};
ghost use Rattle.driver.specs.Logs.{logs_packed, logs_outcome};

use rules::log::LogsAnswer;

// The number of the answer, and 256 times the channel that a no names.
fn logs_packed(a: LogsAnswer) -> u64
    ensures { result ≡ logs_packed a }
{
    match a {
        LogsAnswer::Yes => 0,
        LogsAnswer::No(c) => 256 * (c.0 as u64),
        LogsAnswer::BadLength => 24,
        LogsAnswer::BadRecord => 25,
    }
}

// The check: 0 for yes, 256 times the lowest channel for no, 24 or 25 where the logs are refused.
pub fn mortarsedge_logs<'a>(sent: &'a [u8], received: &'a [u8]) -> u64
    ensures { result ≡ logs_outcome sent.now received.now }
{
    logs_packed(logs::check_logs(sent, received))
}
