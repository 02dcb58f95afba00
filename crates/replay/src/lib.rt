// The list of records and their fields, for the programs that replay the original's answers. A program writes the
// record that is due, each field at its place, and compares the two whole: one that is too short or
// too long then fails with no test of its own.
#![tactic(auto)]

mod list;

ghost use Rattle.std.specs.Prelude.{◌≡◌, ◌+◌, ◌%◌, get_or};
ghost use Rattle.encoding.specs.Bytes.{big_endian, written, read_number};

use encoding::{get_number, put_bytes, put_number};
use isa::FixedText;
pub use list::{Replay, replay_records};

// The byte at an index, 0 past the end: no caller has to test first.
pub fn byte_at(bytes: &[u8], at: usize) -> u8
    ensures { result ≡ get_or bytes.now at 0 }
{
    bytes.get(at).copied().unwrap_or(0)
}

// The word in the two bytes at an index, 0 past the end. The remainder says that it fits.
pub fn word_at(bytes: &[u8], at: usize) -> u16
    ensures { result ≡ read_number bytes.now at 2 % 65536 }
{
    (get_number(bytes, at, 2) % 65536) as u16
}

// A text's bytes and its length. The length goes first, as a number whose last byte it is: the text then
// lies over the zeros in front.
pub fn put_text<const N: usize>(out: &mut [u8], at: usize, t: FixedText<N>)
    ensures { out.new ≡ written (written out.old at (big_endian (N + 1) t.entry.len)) at t.entry.bytes }
{
    put_number(out, at, N + 1, t.len as u64);
    put_bytes(out, at, &t.bytes);
}
