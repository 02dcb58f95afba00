// The direct engine on a machine's parts: whole instructions in place of ticks, and the instructions of a run that
// its end does not show.
ghost use Rattle.std.specs.Prelude.{◌≡◌, false, ◌≤◌};
ghost use Rattle.marks.specs.Owners.{hidden_from};
ghost use Rattle.trace.specs.Touched.{TouchFit};
ghost use Rattle.vm.specs.Forms.{Fit, Stepping, given, came, left};
ghost use Rattle.vm.specs.Ahead.{core_with, Ahead};

use crate::instruction::{Stepped, Ticks, instruction_parts};
use crate::parts::{Core, Done};
use control::{Address, State};
use direct::{Lane, Small, light_forward, whole_instruction};
use guard::Begun;
use isa::{MEMORY_WORDS, REGISTER_COUNT};
use trace::{COLUMNS_LENGTH, Ring, TRACE_LIMIT};

// The next instruction of a running machine at tick 0: as `instruction_parts` makes it, without ticks.
fn direct_parts(
    from: Core,
    memory: &mut [u16; MEMORY_WORDS],
    registers: &mut [u16; REGISTER_COUNT],
    touched: &mut [Address; MEMORY_WORDS],
    columns: &mut [u8; COLUMNS_LENGTH],
    numbers: &mut [u64; TRACE_LIMIT],
    lengths: &mut [u8; TRACE_LIMIT],
) -> Stepped
    requires { (from.state.control.tick ≡ 0) × (from.state.control.halted ≡ false)
        × Fit (given from memory registers touched columns numbers lengths) }
    ensures { Stepping result (came from memory registers touched columns numbers lengths)
        (left result.core memory registers touched columns numbers lengths) }
{
    let state = from.state;
    let counters = from.counters;
    let at = state.control.pc as usize;
    let word = memory[at];
    let ring = Ring {
        start: from.trace_start,
        len: from.trace_len,
    };
    let small = Small {
        state,
        counters,
        touched_len: from.touched_len,
        ring,
    };
    let w = whole_instruction(
        word, small, memory, registers, touched, columns, numbers, lengths,
    );
    let end = w.small;
    let state = end.state;
    let counters = end.counters;
    let bus = w.bus;
    let write = w.write;
    let core = Core {
        state,
        counters,
        touched_len: end.touched_len,
        trace_start: end.ring.start,
        trace_len: end.ring.len,
    };
    let done = Done {
        bus,
        write,
        faulted: w.faulted,
    };
    Stepped {
        core,
        ticks: Ticks(w.ticks as u64),
        halted: state.control.halted,
        done,
    }
}

// The next instruction, or what is left of one, of a running machine: whole where that is asked for and it stands at
// tick 0, else tick by tick.
pub(crate) fn next_parts(
    direct: bool,
    from: Core,
    memory: &mut [u16; MEMORY_WORDS],
    registers: &mut [u16; REGISTER_COUNT],
    touched: &mut [Address; MEMORY_WORDS],
    columns: &mut [u8; COLUMNS_LENGTH],
    numbers: &mut [u64; TRACE_LIMIT],
    lengths: &mut [u8; TRACE_LIMIT],
) -> Stepped
    requires { (from.state.control.halted ≡ false) × Fit (given from memory registers touched columns numbers lengths) }
    ensures { Stepping result (came from memory registers touched columns numbers lengths)
        (left result.core memory registers touched columns numbers lengths) }
{
    if direct {
        if from.state.control.tick == 0 {
            return direct_parts(from, memory, registers, touched, columns, numbers, lengths);
        }
    }
    instruction_parts(
        from,
        Ticks(7),
        memory,
        registers,
        touched,
        columns,
        numbers,
        lengths,
    )
}

// The small part with what instructions without records change of it.
fn with_lane(core: Core, lane: Lane) -> Core
    ensures { result ≡ core_with core lane }
{
    let old = core.state;
    let mut control = old.control;
    control.pc = lane.pc;
    let fault = old.fault;
    let last_transfer = old.last_transfer;
    let last_alu = lane.alu;
    let counters = lane.counters;
    let state = State {
        control,
        fault,
        last_transfer,
        last_alu,
    };
    Core {
        state,
        counters,
        touched_len: lane.touched_len,
        trace_start: core.trace_start,
        trace_len: core.trace_len,
    }
}

// Where a run goes on, how many words are hidden there, and how many instructions were made.
#[derive(Drop)]
pub struct Forwarded {
    pub core: Core,
    pub hidden_total: u16,
    pub made: Begun,
}

// What a run makes without records once its first instruction is made: none where that halted the machine. A run
// without marks hands in marks of 0, for a reader from whom nothing is hidden.
pub(crate) fn forward_parts(
    clearance: u8,
    from: Core,
    begun: Begun,
    limit: Begun,
    hidden_total: u16,
    breakpoints: &[u8],
    memory: &mut [u16; MEMORY_WORDS],
    registers: &mut [u16; REGISTER_COUNT],
    touched: &mut [Address; MEMORY_WORDS],
    marks: &mut [u8; MEMORY_WORDS],
    register_marks: &mut [u8; REGISTER_COUNT],
) -> Forwarded
    requires { (from.state.control.tick ≡ 0) × TouchFit from.touched_len touched.old × (begun.0 ≤ limit.0) }
    ensures { Ahead (hidden_from clearance) breakpoints.now begun.0 limit.0
        from memory.old registers.old touched.old marks.old register_marks.old hidden_total
        result.made.0 result.core memory.new registers.new touched.new
        marks.new register_marks.new result.hidden_total }
{
    let state = from.state;
    if begun.0 != 1 {
        return Forwarded {
            core: from,
            hidden_total,
            made: Begun(0),
        };
    }
    if state.control.halted {
        return Forwarded {
            core: from,
            hidden_total,
            made: Begun(0),
        };
    }
    let counters = from.counters;
    let alu = state.last_alu;
    let lane = Lane {
        counters,
        alu,
        touched_len: from.touched_len,
        hidden_total,
        pc: state.control.pc,
    };
    let more = limit.0 - begun.0;
    let m = light_forward(
        clearance,
        lane,
        Begun(more),
        breakpoints,
        memory,
        registers,
        touched,
        marks,
        register_marks,
    );
    let made = m.made;
    let end = m.lane;
    let core = with_lane(from, end);
    Forwarded {
        core,
        hidden_total: end.hidden_total,
        made,
    }
}
