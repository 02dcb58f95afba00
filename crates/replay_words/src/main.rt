// Replays a list of records on words, listings, source texts, plans and single ticks from standard
// input. Each has a question and the answer that the oracle gave, and passes where the port gives the
// same. What is written is one line: how many passed and how many failed.
#![tactic(auto)]

mod listings;
mod micro;
mod opcode;
mod plans;
mod record;
mod source;
mod state;
mod text;
mod word;

use replay::{Replay, replay_records};
use std::io::Result;

// The replay of words, ticks, texts and listings.
#[derive(Clone, Copy)]
struct Records;

impl Replay for Records {
    // Whether a record is the one that the port would write. Where the kind is missing or unknown, it
    // is not.
    fn passes(&self, record: &[u8]) -> bool {
        match record.first() {
            Some(b'W') => word::passes(record),
            Some(b'N') => opcode::nibble_passes(record),
            Some(b'A') => opcode::all_passes(record),
            Some(b'E') => opcode::encoding_passes(record),
            Some(b'B') => text::byte_passes(record),
            Some(b'H') => text::hex_passes(record),
            Some(b'P') => text::name_passes(record),
            Some(b'L') => listings::passes(record),
            Some(b'S') => source::passes(record),
            Some(b'T') => plans::word_passes(record),
            Some(b'F') => plans::phase_passes(record),
            Some(b'U') => plans::operation_passes(record),
            Some(b'M') => micro::passes(record),
            _ => false,
        }
    }
}

fn main(rt: HostRuntime) -> Result<()> {
    replay_records(&mut rt.stdin(), &mut rt.stdout(), &Records)
}
