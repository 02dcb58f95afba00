// The assembler program: a text on standard input, the words of its image high byte first, or
// `refused N` and a line feed, on standard output (docs/FORMATS.md).
#![tactic(auto)]

ghost use Rattle.std.specs.Prelude.{◌≡◌};
ghost use Rattle.encoding.specs.Answer.{outcome};
ghost use Rattle.massey_assemble.specs.Answer.{program_outcome};

use answer::{first, put_refusal, read_input};
use assemble::assemble_bytes;
use encoding::Refusal;
use std::io::{Result, Write};

// The longest text that the program takes; the call takes any.
const TEXT: usize = 262144;

// One byte more, by which a longer text is noticed: what stands behind it need not be read.
const INPUT: usize = 262145;

// The bytes of the longest image.
const IMAGE: usize = 512;

// Puts the program's answer at the start of `out`, and answers its length.
fn put_answer(text: &[u8], whole: bool, out: &mut [u8]) -> usize
    ensures { outcome result out.new ≡ program_outcome whole text.now out.old }
{
    if !whole {
        return put_refusal(out, Refusal::InputLength.number());
    }
    if TEXT < text.len() {
        return put_refusal(out, Refusal::InputLength.number());
    }
    match assemble_bytes(text, out) {
        Ok(size) => size,
        Err(refusal) => put_refusal(out, refusal.number()),
    }
}

fn main(rt: HostRuntime) -> Result<()> {
    let mut buf = [0u8; INPUT];
    let input = read_input(&mut rt.stdin(), &mut buf);
    let n = input.len;
    let mut out = [0u8; IMAGE];
    let size = put_answer(&buf[..n], input.whole, &mut out);
    rt.stdout().write_all(first(&out, size))
}
