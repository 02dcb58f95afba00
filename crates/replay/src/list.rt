// A list of records: each has two bytes of length in front, and passes or fails.
ghost use Rattle.std.specs.Prelude.{ℕ, OnOk};
ghost use Rattle.std.specs.Io.KnownBytes.{Appends};
ghost use Rattle.answer.specs.Line.{counts_line};

use answer::{first, put_counts, read_input};
use std::io::{Read, Result, Write};

// Room for the line of the largest counts, of 57 bytes.
const LINE: usize = 64;

// What a replay has records of: it says of each whether it passes.
pub trait Replay {
    fn passes(&self, record: &[u8]) -> bool;
}

// How many records passed, and how many failed.
#[derive(Clone, Copy)]
struct Counts {
    passed: u64,
    failed: u64,
}

impl Counts {
    fn add(&mut self, passed: bool) {
        let count = if passed {
            &mut self.passed
        } else {
            &mut self.failed
        };
        *count = count.saturating_add(1);
    }

    // The line that a replay writes.
    fn print<W: Write>(self, to: &mut W) -> Result<()>
        ensures { OnOk result (Appends (W.contents to.old) (W.contents to.new) (counts_line self.passed self.failed)) }
    {
        let mut line = [0u8; LINE];
        let size = put_counts(&mut line, self.passed, self.failed);
        to.write_all(first(&line, size))
    }
}

// Whether the next record passes; none where the list has no more. Where the list ends within it, what
// was there failed. `buffer` has room for the longest that two bytes of length can announce, so that a record
// of any length is read whole, and the next begins where it should. A read that fails is taken for the
// list's end.
fn next_passes<R: Read, T: Replay>(
    from: &mut R,
    buffer: &mut [u8; 65536],
    replay: &T,
) -> Option<bool> {
    let mut head = [0u8; 2];
    let got = read_input(from, &mut head);
    if got.len == 0 {
        return None;
    }
    if got.len < 2 {
        return Some(false);
    }
    let size = u16::from_be_bytes(head) as usize;
    let record = &mut buffer[..size];
    let got = read_input(from, record);
    Some(got.len == size && replay.passes(record))
}

// Tests each record of a list to its end, and writes one line: how many passed and how many failed. A
// proved loop has to end, and nothing says that the input does, so it has more turns than any run uses up.
pub fn replay_records<R: Read, W: Write, T: Replay>(
    from: &mut R,
    to: &mut W,
    replay: &T,
) -> Result<()>
    ensures { OnOk result ((p : ℕ) × (f : ℕ) × Appends (W.contents to.old) (W.contents to.new) (counts_line p f)) }
{
    let mut buffer = io::large_buffer();
    let mut counts = Counts {
        passed: 0,
        failed: 0,
    };
    for _ in 0..u64::MAX {
        match next_passes(from, &mut buffer, replay) {
            Some(passed) => counts.add(passed),
            None => break,
        }
    }
    counts.print(to)
}
