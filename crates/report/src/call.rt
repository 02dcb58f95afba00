// The call for a report.
ghost use Rattle.std.specs.Prelude.{◌≡◌};
ghost use Rattle.guard.specs.Input.{input_from};
ghost use Rattle.encoding.specs.Answer.{outcome};
ghost use Rattle.encoding.specs.Refusal.{told};
ghost use Rattle.secret.specs.Outcome.{report_outcome};

use crate::whole::{put_input, put_run};
use crate::widths::{BREAK_LENGTH, BREAK_RECORDS_AT, REPORT_LENGTH};
use encoding::Refusal;
use vm::{Begun, guarded_run};

// Make a guarded run and write its report for a reader with this clearance from byte 0 on; bytes past the report are
// kept. Refused 1 to 4 as the run is, 5 where the buffer is shorter than the longest report.
pub fn report(
    image: &[u16],
    marks: &[u8],
    budget: Begun,
    breakpoints: &[u8],
    clearance: u8,
    out: &mut [u8],
) -> Result<usize, Refusal>
    ensures { outcome (told result) out.new
        ≡ report_outcome (input_from image.now marks.now budget.0 breakpoints.now clearance)
        out.old }
{
    let run = guarded_run(image, marks, budget, breakpoints, clearance)?;
    if out.len() < REPORT_LENGTH {
        return Err(Refusal::ShortBuffer);
    }
    put_input(out, image, marks, budget, breakpoints, clearance);
    let at = BREAK_RECORDS_AT + BREAK_LENGTH * breakpoints.len();
    Ok(put_run(out, at, clearance, &run))
}
