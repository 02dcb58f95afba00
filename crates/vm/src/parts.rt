// The parts of a machine: what is small by value, the arrays lent; and one register transfer on them.
ghost use Rattle.std.specs.Prelude.{◌≡◌, false, not, ◌&&◌, ◌<◌};
ghost use Rattle.isa.specs.Sizes.{memory_words};
ghost use Rattle.vm.specs.Machine.{operands_of, micro_step, next_done};
ghost use Rattle.vm.specs.View.{view};
ghost use Rattle.vm.specs.Forms.{Fit, given, came, left};

use control::{Address, BusTransfer, Counters, Operands, RegisterWrite, State, count_tick};
use isa::{MEMORY_WORDS, REGISTER_COUNT};
use plan::tick_text;
use tick::tick_of;
use trace::{
    COLUMNS_LENGTH, Ring, TRACE_LIMIT, push_trace, set_register, set_word, tick_phase, touch,
};

// What is small: passed by value at every level.
#[derive(Clone, Copy)]
pub struct Core {
    pub state: State,
    pub counters: Counters,
    pub touched_len: usize,
    pub trace_start: usize,
    pub trace_len: usize,
}

// What a tick did beside the machine that it leaves.
#[derive(Drop)]
pub struct Done {
    pub bus: Option<BusTransfer>,
    pub write: Option<RegisterWrite>,
    pub faulted: bool,
}

#[derive(Drop)]
pub struct Ticked {
    pub core: Core,
    pub done: Done,
}

fn read_operands(
    s: State,
    memory: &[u16; MEMORY_WORDS],
    registers: &[u16; REGISTER_COUNT],
) -> Operands
    requires { s.control.mar < memory_words }
    ensures { result ≡ operands_of s memory.now registers.now }
{
    let w = s.control.ir;
    let x = (w / 256 % 16) as usize;
    let y = (w / 16 % 16) as usize;
    let z = (w % 16) as usize;
    let a = s.control.mar as usize;
    Operands {
        cell: memory[a],
        x: registers[x],
        y: registers[y],
        z: registers[z],
        zero: registers[0],
    }
}

// Whether a tick faulted: it halted, and completed nothing.
fn is_fault(halted: bool, completed: bool) -> bool
    ensures { result ≡ halted && not completed }
{
    if halted { !completed } else { false }
}

// The next tick of a running machine.
pub(crate) fn tick_parts(
    s: Core,
    memory: &mut [u16; MEMORY_WORDS],
    registers: &mut [u16; REGISTER_COUNT],
    touched: &mut [Address; MEMORY_WORDS],
    columns: &mut [u8; COLUMNS_LENGTH],
    numbers: &mut [u64; TRACE_LIMIT],
    lengths: &mut [u8; TRACE_LIMIT],
) -> Ticked
    requires { (s.state.control.halted ≡ false) × Fit (given s memory registers touched columns numbers lengths) }
    ensures { let was = came s memory registers touched columns numbers lengths in
        let is = left result.core memory registers touched columns numbers lengths in
        (view is ≡ micro_step (view was))
        × (result.done ≡ next_done (view was))
        × Fit is
        × ((result.core.state.control.tick ≡ 0 → ⊥) → result.core.state.control.halted ≡ false) }
{
    let old = s.state;
    let o = read_operands(old, memory, registers);
    let tick = old.control.tick;
    let text = tick_text(tick, o.x == o.zero, old.control.ir);
    let phase = tick_phase(tick);
    let t = tick_of(old, o);
    let new = t.state;
    let bus = t.bus;
    let write = t.write;
    let completed = t.completed;
    let counters = count_tick(s.counters, bus, completed);
    set_register(write, registers);
    set_word(bus, memory);
    let n = touch(bus, touched, s.touched_len);
    let ring = Ring {
        start: s.trace_start,
        len: s.trace_len,
    };
    let q = push_trace(
        ring,
        text,
        counters.micro_operations,
        new.control.instruction_address,
        phase,
        columns,
        numbers,
        lengths,
    );
    let core = Core {
        state: new,
        counters,
        touched_len: n,
        trace_start: q.start,
        trace_len: q.len,
    };
    let faulted = is_fault(new.control.halted, completed);
    let done = Done {
        bus,
        write,
        faulted,
    };
    Ticked { core, done }
}
