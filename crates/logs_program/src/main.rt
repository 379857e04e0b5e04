// Holds the file `sent.log` against the file `received.log`: prints `yes`, or `no` and the channel, or
// `refused` and the number.
#![tactic(auto)]

use driver::log_files::mortarsedge_logs;
use show_files::answers::print_refusal;
use std::io;

// The answer is the number of the refusal, 0 for none, and 256 times the channel that a no names.
fn say(rt: &impl Print, answer: u64) -> io::Result<()> {
    match (answer % 256, answer / 256) {
        (0, 0) => println!(rt; "yes"),
        (0, channel) => println!(rt; "no {channel}"),
        (number, _) => print_refusal(rt, number),
    }
}

// The buffers are longer than any accepted log, of 40,960 bytes, so that a longer one is refused and not
// cut.
fn main(rt: HostRuntime) -> io::Result<()> {
    let mut sent = [0u8; 65536];
    let mut received = [0u8; 65536];
    let left = show_files::load(&rt, "sent.log", &mut sent);
    let got = show_files::load(&rt, "received.log", &mut received);
    say(&rt, mortarsedge_logs(&sent[..left], &received[..got]))
}
