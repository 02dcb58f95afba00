// One instruction: ticks until one ends it.
ghost use Rattle.std.specs.Prelude.{◌≡◌, false, ◌≤◌};
ghost use Rattle.vm.specs.Instruction.{started, steps};
ghost use Rattle.vm.specs.View.{view};
ghost use Rattle.vm.specs.Forms.{Fit, stepped_on, given, came, left};

use crate::parts::{Core, Done, tick_parts};
use control::{Address, BusTransfer, RegisterWrite};
use isa::{MEMORY_WORDS, REGISTER_COUNT};
use trace::{COLUMNS_LENGTH, TRACE_LIMIT};

// A number of ticks.
#[derive(Drop)]
pub struct Ticks(pub u64);

// After an instruction: how many ticks it took, whether the last one halted, and what that one did.
#[derive(Drop)]
pub struct Stepped {
    pub core: Core,
    pub ticks: Ticks,
    pub halted: bool,
    pub done: Done,
}

// Ticks until one ends the instruction, at most that many.
pub(crate) fn instruction_parts(
    from: Core,
    limit: Ticks,
    memory: &mut [u16; MEMORY_WORDS],
    registers: &mut [u16; REGISTER_COUNT],
    touched: &mut [Address; MEMORY_WORDS],
    columns: &mut [u8; COLUMNS_LENGTH],
    numbers: &mut [u64; TRACE_LIMIT],
    lengths: &mut [u8; TRACE_LIMIT],
) -> Stepped
    requires { (1 ≤ limit.0) × (from.state.control.halted ≡ false) × Fit (given from memory registers touched columns numbers lengths) }
    ensures { let was = came from memory registers touched columns numbers lengths in
        let is = left result.core memory registers touched columns numbers lengths in
        (stepped_on result is ≡ steps limit.0 (started (view was)))
        × Fit is
        × (result.halted ≡ result.core.state.control.halted) }
{
    let mut s = from;
    let mut done = Done {
        bus: None,
        write: None,
        faulted: false,
    };
    let mut made: u64 = 0;
    let mut left = limit.0;
    // The loop that 01 names ('Which shape goes where'): it yields by break whether the last tick halted.
    let halted = loop {
        let t = tick_parts(s, memory, registers, touched, columns, numbers, lengths);
        s = t.core;
        done = t.done;
        made += 1;
        left -= 1;
        if s.state.control.tick == 0 {
            break s.state.control.halted;
        }
        if left == 0 {
            break s.state.control.halted;
        }
    };
    Stepped {
        core: s,
        ticks: Ticks(made),
        halted,
        done,
    }
}
