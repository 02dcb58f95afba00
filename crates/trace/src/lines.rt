// The records of a whole instruction, one after the other.
ghost use Rattle.std.specs.Prelude.{◌≡◌};
ghost use Rattle.trace.specs.Lines.{lines};
ghost use Rattle.trace.specs.Forms.{arrays_at_first, arrays_at_last, logged_in};

use crate::records::{Ring, push_trace, tick_phase};
use crate::{COLUMNS_LENGTH, TRACE_LIMIT};
use plan::tick_text;

// The records of an instruction of n ticks: micro operations before it, its address, whether a jump is taken.
#[tactic(auto, using(crate::proofs::Logs::line_next, crate::proofs::Logs::line_end, crate::proofs::Logs::more_at))]
pub fn push_lines(
    ring: Ring,
    n: u8,
    before: u64,
    address: u8,
    taken: bool,
    word: u16,
    columns: &mut [u8; COLUMNS_LENGTH],
    numbers: &mut [u64; TRACE_LIMIT],
    lengths: &mut [u8; TRACE_LIMIT],
) -> Ring
    ensures { arrays_at_last result columns numbers lengths
        ≡ logged_in (lines n 0 before address taken word) (arrays_at_first ring columns numbers lengths) }
{
    let mut last = ring;
    for tick in 0..n {
        let text = tick_text(tick, taken, word);
        let number = before.wrapping_add(u64::from(tick) + 1);
        let phase = tick_phase(tick);
        last = push_trace(
            last, text, number, address, phase, columns, numbers, lengths,
        );
    }
    last
}
