// The report program: a guarded run's input on standard input, numbers high byte first, and its
// report, or `refused N` and a line feed, on standard output (docs/FORMATS.md).
#![tactic(auto)]

ghost use Rattle.std.specs.Prelude.{◌≡◌};
ghost use Rattle.encoding.specs.Answer.{outcome};
ghost use Rattle.massey_report.specs.Answer.{program_outcome};

use answer::{first, put_refusal, read_input};
use report::{INPUT_LENGTH, REPORT_LENGTH, report_bytes};
use std::io::{Result, Write};

// Puts the answer to an input at the start of `out`, where it fits; what is answered is its length.
// `whole` says that no read failed: a failed one is no end of the input, which may go on, so that it is
// refused as a short one is.
fn put_answer(input: &[u8], whole: bool, out: &mut [u8]) -> usize
    ensures { outcome result out.new ≡ program_outcome whole input.now out.old }
{
    if !whole {
        return put_refusal(out, 6);
    }
    match report_bytes(input, out) {
        Ok(size) => size,
        Err(refusal) => put_refusal(out, refusal.number()),
    }
}

// The bytes behind those that decide every answer need not be read.
fn main(rt: HostRuntime) -> Result<()> {
    let mut buf = [0u8; INPUT_LENGTH];
    let input = read_input(&mut rt.stdin(), &mut buf);
    let n = input.len;
    let mut out = [0u8; REPORT_LENGTH];
    let size = put_answer(&buf[..n], input.whole, &mut out);
    rt.stdout().write_all(first(&out, size))
}
