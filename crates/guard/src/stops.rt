// What is tested before each instruction of a run, and of a guarded run.
ghost use Rattle.std.specs.Prelude.{◌≡◌, ◌-◌, eqb};
ghost use Rattle.control.specs.Count.{over_counted};
ghost use Rattle.marks.specs.Owners.{hidden_from};
ghost use Rattle.guard.specs.Stops.{reached, halt_stop, verdict_if, run_code, number_in, address_in};
ghost use Rattle.guard.specs.Stops.{stop_number, halted_stop, is_jump, hidden_by, hidden_jump, guard_if};
ghost use Rattle.guard.specs.Forms.{verdict_of, passes};

use control::{Counters, Fault, State, is_over_counted};
use encoding::{Refusal, contains};
use isa::{Instruction, Opcode, REGISTER_COUNT};
use marks::is_hidden;

// A number of instructions begun.
#[derive(Clone, Copy)]
pub struct Begun(pub u64);

// Why the machine stopped running.
#[derive(Clone, Copy)]
pub enum RunStop {
    Halted,
    Breakpoint(u8),
    Fault,
    Budget,
    AlreadyHalted,
}

impl RunStop {
    // Its number in answers: that of a guarded run's stop, and 6 for a machine that was halted at the call.
    pub fn number(self) -> u8
        ensures { result ≡ number_in (run_code (Ok self)) }
    {
        match self {
            RunStop::Halted => 0,
            RunStop::Breakpoint(_) => 1,
            RunStop::Fault => 2,
            RunStop::Budget => 3,
            RunStop::AlreadyHalted => 6,
        }
    }

    // The breakpoint that was met, 0 for any other stop.
    pub fn address(self) -> u8
        ensures { result ≡ address_in (run_code (Ok self)) }
    {
        match self {
            RunStop::Breakpoint(address) => address,
            _ => 0,
        }
    }
}

// A breakpoint, never before the first instruction.
fn at_break(breakpoints: &[u8], begun: Begun, pc: u8) -> bool
    ensures { result ≡ reached breakpoints.now begun.0 pc }
{
    if begun.0 == 0 {
        return false;
    }
    contains(breakpoints, pc)
}

fn halt_stop(fault: Option<Fault>) -> RunStop
    ensures { result ≡ halt_stop fault }
{
    match fault {
        None => RunStop::Halted,
        Some(_) => RunStop::Fault,
    }
}

// The four tests before an instruction of a run: why it does not begin, if one of them says so.
pub fn run_verdict(
    state: State,
    counters: Counters,
    breakpoints: &[u8],
    begun: Begun,
    limit: Begun,
) -> Option<Result<RunStop, Refusal>>
    ensures { verdict_of result ≡ verdict_if state.control.halted (reached breakpoints.now begun.0 state.control.pc)
        (eqb (limit.0 - begun.0) 0) (over_counted counters) state }
{
    if state.control.halted {
        return Some(Ok(halt_stop(state.fault)));
    }
    let pc = state.control.pc;
    if at_break(breakpoints, begun, pc) {
        return Some(Ok(RunStop::Breakpoint(pc)));
    }
    if limit.0 <= begun.0 {
        return Some(Ok(RunStop::Budget));
    }
    if is_over_counted(counters) {
        return Some(Err(Refusal::FullCounter));
    }
    None
}

// Why a guarded run stopped, by the number that a report has.
#[derive(Clone, Copy)]
pub enum GuardedStop {
    Halted = 0,
    Breakpoint = 1,
    Fault = 2,
    Budget = 3,
    HiddenWord = 4,
    HiddenJump = 5,
}

impl GuardedStop {
    // The number that a report has.
    pub fn number(self) -> u8
        ensures { result ≡ stop_number self }
    {
        self as u8
    }
}

fn halted_stop(fault: Option<Fault>) -> GuardedStop
    ensures { result ≡ halted_stop fault }
{
    match fault {
        None => GuardedStop::Halted,
        Some(_) => GuardedStop::Fault,
    }
}

fn is_jump(decoded: Option<Opcode>) -> bool
    ensures { result ≡ is_jump decoded }
{
    match decoded {
        Some(Opcode::Jump) => true,
        _ => false,
    }
}

// Whether an instruction is a jump that would test a hidden register; one on R0 tests none.
pub fn hidden_by(
    clearance: u8,
    decoded: Option<Opcode>,
    word: u16,
    registers: &[u8; REGISTER_COUNT],
) -> bool
    ensures { result ≡ hidden_by (hidden_from clearance) decoded word registers.now }
{
    if !is_jump(decoded) {
        return false;
    }
    let x = (word / 256 % 16) as usize;
    if x == 0 {
        return false;
    }
    is_hidden(clearance, registers[x]) || is_hidden(clearance, registers[0])
}

// The same of a word.
fn hidden_jump(clearance: u8, word: u16, registers: &[u8; REGISTER_COUNT]) -> bool
    ensures { result ≡ hidden_jump (hidden_from clearance) word registers.now }
{
    let decoded = Instruction::from_word(word).opcode();
    hidden_by(clearance, decoded, word, registers)
}

// The five tests before an instruction of a guarded run, and why it does not begin: the reader's clearance, the
// instruction's word, that word's mark, the marks of the registers. They come from the machine, the input and the
// marks: a struct of them would be made for this call alone.
pub fn judge(
    clearance: u8,
    state: State,
    breakpoints: &[u8],
    begun: Begun,
    budget: Begun,
    word: u16,
    mark: u8,
    registers: &[u8; REGISTER_COUNT],
) -> Option<GuardedStop>
    ensures { verdict_of result ≡ guard_if state.control.halted (reached breakpoints.now begun.0 state.control.pc)
        (eqb (budget.0 - begun.0) 0) (hidden_from clearance mark) (hidden_jump (hidden_from clearance) word registers.now) state.fault }
{
    if state.control.halted {
        return Some(halted_stop(state.fault));
    }
    if at_break(breakpoints, begun, state.control.pc) {
        return Some(GuardedStop::Breakpoint);
    }
    if budget.0 <= begun.0 {
        return Some(GuardedStop::Budget);
    }
    if is_hidden(clearance, mark) {
        return Some(GuardedStop::HiddenWord);
    }
    if hidden_jump(clearance, word, registers) {
        return Some(GuardedStop::HiddenJump);
    }
    None
}

// What is tested before an instruction of a run and of a guarded run, but for the budget, the counters and a hidden
// jump: whether more are asked for, the table of breakpoints at its address, its mark.
#[tactic(auto, unfolding(crate::specs::Forms::passes))]
pub fn may_go(clearance: u8, more: bool, break_here: u8, mark_here: u8) -> bool
    ensures { result ≡ passes (hidden_from clearance) more break_here mark_here }
{
    more && break_here == 0 && !is_hidden(clearance, mark_here)
}
