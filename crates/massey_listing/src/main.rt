// The listing program: words high byte first on standard input, their listing, or `refused N` and a
// line feed, on standard output (docs/FORMATS.md).
#![tactic(auto)]

ghost use Rattle.std.specs.Prelude.{◌≡◌};
ghost use Rattle.encoding.specs.Answer.{outcome};
ghost use Rattle.massey_listing.specs.Answer.{program_outcome};

use answer::{first, put_refusal, read_input};
use encoding::Refusal;
use listing::list_bytes;
use std::io::{Result, Write};

// The bytes that decide every answer: one word more than an image may have. What is longer is
// refused alike, so the rest need not be read.
const INPUT: usize = 514;

// The longest listing, of LISTING_WORDS.
const LISTING: usize = 11709;

// Puts the program's answer at the start of `out`, and answers its length.
fn put_answer(input: &[u8], whole: bool, out: &mut [u8]) -> usize
    ensures { outcome result out.new ≡ program_outcome whole input.now out.old }
{
    if !whole {
        return put_refusal(out, Refusal::InputLength.number());
    }
    match list_bytes(input, out) {
        Ok(size) => size,
        Err(refusal) => put_refusal(out, refusal.number()),
    }
}

fn main(rt: HostRuntime) -> Result<()> {
    let mut buf = [0u8; INPUT];
    let input = read_input(&mut rt.stdin(), &mut buf);
    let n = input.len;
    let mut out = [0u8; LISTING];
    let size = put_answer(&buf[..n], input.whole, &mut out);
    rt.stdout().write_all(first(&out, size))
}
