// A whole instruction as one change of state, with its records in the trace: what its ticks do, without them.
ghost use Rattle.std.specs.Prelude.{◌≡◌};
ghost use Rattle.direct.specs.Work.{fault_by, state_by};
ghost use Rattle.direct.specs.Light.{taken_by};
ghost use Rattle.direct.specs.Whole.{held_at_first, held_at_last, wholly_of, whole_on};

use crate::work::{Work, count_whole, read_operands, work_of};
use control::{
    Address, BusTransfer, Control, Counters, Fault, RegisterWrite, State, last_address, last_bus,
    last_sent, last_value,
};
use isa::{Instruction, MEMORY_WORDS, Opcode, REGISTER_COUNT};
use plan::{FETCH_TICKS, execute_tick_count};
use trace::{COLUMNS_LENGTH, Ring, TRACE_LIMIT, push_lines, set_register, set_word, touch};

fn fault_by(decoded: Option<Opcode>, word: u16, address: u8, fault: Option<Fault>) -> Option<Fault>
    ensures { result ≡ fault_by decoded word address fault }
{
    match decoded {
        Some(_) => fault,
        None => Some(Fault::UnknownInstruction { word, address }),
    }
}

// The state after the word at an address.
fn state_by(
    decoded: Option<Opcode>,
    word: u16,
    address: u8,
    old: Option<Fault>,
    work: Work,
) -> State
    ensures { result ≡ state_by decoded word address old work }
{
    let ticks = execute_tick_count(decoded);
    let control = Control {
        pc: work.pc,
        ir: word,
        mar: last_address(work.bus, address),
        mdr: last_value(work.bus, word),
        instruction_address: address,
        tick: 0,
        execute_ticks: ticks,
        halted: ticks == 0,
    };
    State {
        control,
        fault: fault_by(decoded, word, address, old),
        last_transfer: last_bus(work.bus, address, word),
        last_alu: work.alu,
    }
}

// Whether Rx = R0, which the text of a jump tells.
fn taken_by(word: u16, registers: &[u16; REGISTER_COUNT]) -> bool
    ensures { result ≡ taken_by word registers.now }
{
    let x = (word / 256 % 16) as usize;
    registers[x] == registers[0]
}

// What is small of a machine between two instructions.
#[derive(Drop)]
pub struct Small {
    pub state: State,
    pub counters: Counters,
    pub touched_len: usize,
    pub ring: Ring,
}

// What the instruction leaves of that, how many ticks it stands for, and what the last of them did.
#[derive(Drop)]
pub struct Whole {
    pub small: Small,
    pub ticks: u8,
    pub bus: Option<BusTransfer>,
    pub write: Option<RegisterWrite>,
    pub faulted: bool,
}

// The word of the next instruction, with its records.
pub fn whole_instruction(
    word: u16,
    from: Small,
    memory: &mut [u16; MEMORY_WORDS],
    registers: &mut [u16; REGISTER_COUNT],
    touched: &mut [Address; MEMORY_WORDS],
    columns: &mut [u8; COLUMNS_LENGTH],
    numbers: &mut [u64; TRACE_LIMIT],
    lengths: &mut [u8; TRACE_LIMIT],
) -> Whole
    ensures { wholly_of result (held_at_last result.small memory registers touched columns numbers lengths)
        ≡ whole_on word (held_at_first from memory registers touched columns numbers lengths) }
{
    let address = from.state.control.pc;
    let decoded = Instruction::from_word(word).opcode();
    let taken = taken_by(word, registers);
    let ticks = FETCH_TICKS + execute_tick_count(decoded);
    let o = read_operands(word, memory, registers);
    let work = work_of(
        decoded,
        word,
        address.wrapping_add(1),
        from.state.last_alu,
        o,
    );
    let write = work.write;
    let bus = work.bus;
    set_register(write, registers);
    set_word(bus, memory);
    let touched_len = touch(bus, touched, from.touched_len);
    let before = from.counters.micro_operations;
    let ring = push_lines(
        from.ring, ticks, before, address, taken, word, columns, numbers, lengths,
    );
    let small = Small {
        state: state_by(decoded, word, address, from.state.fault, work),
        counters: count_whole(decoded, bus, from.counters),
        touched_len,
        ring,
    };
    Whole {
        small,
        ticks,
        bus: last_sent(bus),
        write,
        faulted: !decoded.is_some(),
    }
}
