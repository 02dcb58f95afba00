// The call for a report on the report program's input: the guarded run's input in bytes, numbers high
// byte first. In order: image length 2, the words 2 each, 256 owner bytes, budget 8, breakpoint count 2, the
// breakpoints 1 each, clearance 1.
ghost use Rattle.std.specs.Prelude.{◌≡◌, ◌≤◌, ◌<◌, IfOk, IsTrue};
ghost use Rattle.isa.specs.Sizes.{memory_words};
ghost use Rattle.encoding.specs.Bytes.{read_number};
ghost use Rattle.secret.specs.Widths.{count_width};
ghost use Rattle.encoding.specs.Answer.{outcome};
ghost use Rattle.encoding.specs.Refusal.{refused_by, told};
ghost use Rattle.secret.specs.Program.{first_refusal, bytes_outcome};

use crate::call::report;
use crate::widths::{
    COUNT_WIDTH, INPUT_LENGTH, MARK_WIDTH, NUMBER_WIDTH, REPORT_LENGTH, VALUE_WIDTH,
};
use encoding::{Refusal, get_number, get_words};
use guard::{BREAK_LIMIT, BUDGET_LIMIT};
use isa::MEMORY_WORDS;
use vm::Begun;

// The first test that refuses. The tests go by their numbers, whatever the order of the
// parts in the input. Every byte is a mark, so 2 is not met.
#[tactic(auto, unfolding(secret::specs::Program::first_refusal))]
fn first_refusal(
    words: usize,
    count: usize,
    budget: Begun,
    room: usize,
    whole: bool,
) -> Result<(), Refusal>
    ensures number { refused_by result ≡ first_refusal words count budget.0 room whole }
    ensures served { IfOk result (λ _. (words ≤ memory_words) × IsTrue whole) }
{
    if MEMORY_WORDS < words {
        return Err(Refusal::LongImage);
    }
    if BREAK_LIMIT < count {
        return Err(Refusal::BreakpointCount);
    }
    if BUDGET_LIMIT < budget.0 {
        return Err(Refusal::LargeBudget);
    }
    if room < REPORT_LENGTH {
        return Err(Refusal::ShortBuffer);
    }
    if !whole {
        return Err(Refusal::InputLength);
    }
    Ok(())
}

// A number of two bytes: so many words or breakpoints are no place that overflows.
fn get_count(input: &[u8], at: usize) -> usize
    ensures value { result ≡ read_number input.now at count_width }
    ensures small { result < 65536 }
{
    get_number(input, at, COUNT_WIDTH) as usize
}

// The report of the input that the bytes are. A number that is not wholly there reads as 0, which no
// test refuses but the last: so 1 to 4 are about what is there, and what is missing is left to 6.
fn report_parts(input: &[u8], out: &mut [u8]) -> Result<usize, Refusal>
    ensures { outcome (told result) out.new ≡ bytes_outcome input.now out.old }
{
    let n = get_count(input, 0);
    let marks_at = COUNT_WIDTH + VALUE_WIDTH * n;
    let budget_at = marks_at + MEMORY_WORDS;
    let count_at = budget_at + NUMBER_WIDTH;
    let breaks_at = count_at + COUNT_WIDTH;
    let count = get_count(input, count_at);
    let budget = Begun(get_number(input, budget_at, NUMBER_WIDTH));
    let clearance_at = breaks_at + count;
    let whole = input.len() == clearance_at + MARK_WIDTH;
    first_refusal(n, count, budget, out.len(), whole)?;
    let mut words = [0u16; MEMORY_WORDS];
    let image = &mut words[..n];
    get_words(input, COUNT_WIDTH, image);
    report(
        image,
        &input[marks_at..budget_at],
        budget,
        &input[breaks_at..clearance_at],
        input[clearance_at],
        out,
    )
}

// The same, of a copy of the bytes that decide, made before anything is written: a caller in C may hand in one buffer as both,
// and the report would be written over the marks that say what it hides.
pub fn report_bytes(input: &[u8], out: &mut [u8]) -> Result<usize, Refusal>
    ensures { outcome (told result) out.new ≡ bytes_outcome input.now out.old }
{
    let n = INPUT_LENGTH.min(input.len());
    let mut copy = [0u8; INPUT_LENGTH];
    let part = &mut copy[..n];
    part.copy_from_slice(&input[..n]);
    report_parts(part, out)
}
