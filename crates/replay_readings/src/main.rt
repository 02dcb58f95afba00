// Replays the readings of a machine, and reports, from standard input. A record has an image, a
// number of ticks, and what every call that only reads a machine answers after them in the original
// in Rust; or the report program's input, and the answer of the tests' own model. It passes where the
// port answers the same. What is written is one line: how many passed and how many failed.
#![tactic(auto)]

mod readings;
mod reports;

use replay::{Replay, replay_records};
use std::io::Result;

// The replay of readings and reports.
#[derive(Clone, Copy)]
struct Records;

impl Replay for Records {
    // Whether a record is one that the original or the model would write. Where the kind is missing or
    // unknown, it is not.
    fn passes(&self, record: &[u8]) -> bool {
        match record.first() {
            Some(b'R') => readings::passes(record),
            Some(b'G') => reports::passes(record),
            _ => false,
        }
    }
}

fn main(rt: HostRuntime) -> Result<()> {
    replay_records(&mut rt.stdin(), &mut rt.stdout(), &Records)
}
