// What two logs are answered.
use plan::ChannelId;

// What a sent log and a received log are answered when they are held against each other; specs/LogFiles gives
// the number of each. Yes and no are both answers and each refusal is a third kind, so a Result would have to hold an Option too.
#[derive(Clone, Copy)]
pub enum LogsAnswer {
    // for every channel the received list is a beginning of the sent list
    Yes,
    // the lowest channel where that is not so
    No(ChannelId),
    BadLength,
    BadRecord,
}
