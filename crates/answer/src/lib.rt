// A program's input, and what it answers: the first bytes of a buffer, which are a call's result, the
// line of its refusal, or the line of a replay.
#![tactic(auto)]

mod input;

ghost use Rattle.std.specs.Prelude.{◌≡◌, ◌++◌, ◌+◌, ◌≤◌, length, take};
ghost use Rattle.isa.specs.Format.{decimal};
ghost use Rattle.encoding.specs.Bytes.{over};
ghost use Rattle.encoding.specs.Answer.{outcome};
ghost use Rattle.answer.specs.Line.{refusal_line, counts_line};
ghost use Rattle.answer.specs.Answer.{answer_outcome};

use encoding::put_bytes;
pub use input::{Input, read_input};

// The first `n` bytes, or all where there are fewer.
pub fn first(bytes: &[u8], n: usize) -> &[u8]
    ensures { result.now ≡ take n bytes.now }
{
    &bytes[..n.min(bytes.len())]
}

// Puts a number's digits into a line, and a text behind them; what is answered is the index behind
// both.
#[tactic(auto, using(crate::proofs::Lines::few))]
fn put_numbered(line: &mut [u8], at: usize, n: u64, text: &[u8]) -> usize
    requires { at + (20 + length text.now) ≤ length line.old }
    ensures value { result ≡ at + length (decimal 20 n ++ text.now) }
    ensures upper_bound { result ≤ at + (20 + length text.now) }
    ensures line_after { line.new ≡ over line.old at (decimal 20 n ++ text.now) }
{
    let mut digits = [0u8; 20];
    let count = io::decimal(n, &mut digits);
    put_bytes(line, at, &digits[..count]);
    let end = at + count;
    put_bytes(line, end, text);
    end + text.len()
}

// Puts an answer at the start of `out`, where it fits; what is answered is its length, and 0 where
// it does not fit.
#[tactic(auto, unfolding(crate::specs::Answer::answer_outcome))]
fn put_whole(out: &mut [u8], bytes: &[u8]) -> usize
    ensures { outcome result out.new ≡ answer_outcome bytes.now out.old }
{
    let size = bytes.len();
    if out.len() < size {
        return 0;
    }
    put_bytes(out, 0, bytes);
    size
}

// The same for `refused N` and a line feed. It takes any number, as it always did: a `Refusal` would ask more of callers.
pub fn put_refusal(out: &mut [u8], number: u8) -> usize
    ensures { outcome result out.new ≡ answer_outcome (refusal_line number) out.old }
{
    let mut line = [0u8; 64];
    put_bytes(&mut line, 0, b"refused ");
    let size = put_numbered(&mut line, 8, number as u64, b"\n");
    put_whole(out, first(&line, size))
}

// The same for `N passed, M failed` and a line feed.
pub fn put_counts(out: &mut [u8], passed: u64, failed: u64) -> usize
    ensures { outcome result out.new ≡ answer_outcome (counts_line passed failed) out.old }
{
    let mut line = [0u8; 64];
    let middle = put_numbered(&mut line, 0, passed, b" passed, ");
    let size = put_numbered(&mut line, middle, failed, b" failed\n");
    put_whole(out, first(&line, size))
}
