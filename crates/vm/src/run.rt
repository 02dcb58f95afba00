// Runs: instructions until the machine halts, a breakpoint, or the end of the budget.
ghost use Rattle.std.specs.Prelude.{◌≡◌, true};
ghost use Rattle.vm.specs.Run.{run_number, run};
ghost use Rattle.vm.specs.View.{view};
ghost use Rattle.vm.specs.Calls.{view_of, is_machine, rest_of};
ghost use Rattle.vm.specs.RunCalls.{run_call, ran, closed_code};
ghost use Rattle.vm.specs.Forms.{Fit, closed_core, closed_parts, given, came, left, ran_on};

use crate::engine::{forward_parts, next_parts};
use crate::machine::Machine;
use crate::parts::Core;
use control::{Address, Fault, State};
use encoding::Refusal;
use guard::{Begun, RunStop, run_verdict};
use isa::{MEMORY_WORDS, REGISTER_COUNT};
use marks::EVERYONE;
use trace::{COLUMNS_LENGTH, TRACE_LIMIT};

#[derive(Drop)]
pub struct RanCore {
    pub core: Core,
    pub stop: Result<RunStop, Refusal>,
    pub executed: Begun,
}

// Of the stops, by their numbers, only a spent budget changes the machine: it is halted by a fault.
pub(crate) fn closed_core(stop: u8, s: Core) -> Core
    ensures { result ≡ closed_core stop s }
{
    if stop != 3 {
        return s;
    }
    let old = s.state;
    let mut control = old.control;
    control.halted = true;
    let last_transfer = old.last_transfer;
    let last_alu = old.last_alu;
    let fault = Some(Fault::StepBudgetExhausted {
        word: control.ir,
        address: control.pc,
    });
    let state = State {
        control,
        fault,
        last_transfer,
        last_alu,
    };
    let counters = s.counters;
    Core {
        state,
        counters,
        touched_len: s.touched_len,
        trace_start: s.trace_start,
        trace_len: s.trace_len,
    }
}

// The number of a run's stop, 0 beside a refusal.
fn run_number(stop: Result<RunStop, Refusal>) -> u8
    ensures { result ≡ run_number stop }
{
    match stop {
        Ok(stop) => stop.number(),
        Err(_) => 0,
    }
}

// The run: instructions with their records, and behind the first one those that its end does not show. There are no
// marks that could hide anything.
pub(crate) fn run_parts(
    from: Core,
    budget: Begun,
    breakpoints: &[u8],
    memory: &mut [u16; MEMORY_WORDS],
    registers: &mut [u16; REGISTER_COUNT],
    touched: &mut [Address; MEMORY_WORDS],
    columns: &mut [u8; COLUMNS_LENGTH],
    numbers: &mut [u64; TRACE_LIMIT],
    lengths: &mut [u8; TRACE_LIMIT],
) -> RanCore
    requires { Fit (given from memory registers touched columns numbers lengths) }
    ensures { let was = came from memory registers touched columns numbers lengths in
        let is = left result.core memory registers touched columns numbers lengths in
        (ran_on result is ≡ run breakpoints.now 0 budget.0 (view was))
        × (result.executed.0 ≡ 0 → is ≡ closed_parts (run_number result.stop) was)
        × Fit is }
{
    let mut marks = [0u8; MEMORY_WORDS];
    let mut register_marks = [0u8; REGISTER_COUNT];
    let mut s = from;
    let limit = budget.0;
    let mut begun: u64 = 0;
    // No `for`: how many instructions a turn makes is known behind it alone.
    loop {
        let state = s.state;
        let counters = s.counters;
        let verdict = run_verdict(state, counters, breakpoints, Begun(begun), Begun(limit));
        if let Some(stop) = verdict {
            let core = closed_core(run_number(stop), s);
            return RanCore {
                core,
                stop,
                executed: Begun(begun),
            };
        }
        let t = next_parts(
            true, s, memory, registers, touched, columns, numbers, lengths,
        );
        let next = t.core;
        begun += 1;
        let f = forward_parts(
            EVERYONE,
            next,
            Begun(begun),
            Begun(limit),
            0,
            breakpoints,
            memory,
            registers,
            touched,
            &mut marks,
            &mut register_marks,
        );
        let core = f.core;
        s = core;
        begun += f.made.0;
    }
}

// After a run: why it stopped, and how many instructions it began.
#[derive(Drop)]
pub struct Ran {
    pub stop: Result<RunStop, Refusal>,
    pub executed: Begun,
}

impl Machine {
    // Run until HALT, a fault, a breakpoint or the end of the budget.
    #[tactic(auto, unfolding(crate::specs::RunCalls::run_call))]
    pub fn run(&mut self, budget: Begun, breakpoints: &[u8]) -> Ran
        ensures answer { ran result (view_of self.new) ≡ run_call (is_machine self.old) breakpoints.now budget.0 (view_of self.old) }
        ensures rest { rest_of self.new ≡ rest_of self.old }
        ensures kept { result.executed.0 ≡ 0 → self.new ≡ closed_code (run_number result.stop) self.old }
        ensures lasting { is_machine self.old ≡ true → is_machine self.new ≡ true }
    {
        if !self.is_machine() {
            return Ran {
                stop: Err(Refusal::NoMachine),
                executed: Begun(0),
            };
        }
        if self.state.control.halted {
            return Ran {
                stop: Ok(RunStop::AlreadyHalted),
                executed: Begun(0),
            };
        }
        let r = run_parts(
            self.core(),
            budget,
            breakpoints,
            &mut self.memory,
            &mut self.registers,
            &mut self.touched,
            &mut self.columns,
            &mut self.numbers,
            &mut self.lengths,
        );
        self.set_core(r.core);
        Ran {
            stop: r.stop,
            executed: r.executed,
        }
    }

    // The same by the direct engine, which `run` is: its instructions are whole ones, but for one that the call finds
    // under way.
    pub fn direct_run(&mut self, budget: Begun, breakpoints: &[u8]) -> Ran
        ensures answer { ran result (view_of self.new) ≡ run_call (is_machine self.old) breakpoints.now budget.0 (view_of self.old) }
        ensures rest { rest_of self.new ≡ rest_of self.old }
        ensures kept { result.executed.0 ≡ 0 → self.new ≡ closed_code (run_number result.stop) self.old }
        ensures lasting { is_machine self.old ≡ true → is_machine self.new ≡ true }
    {
        self.run(budget, breakpoints)
    }
}
