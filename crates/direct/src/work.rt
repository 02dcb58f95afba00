// What a word does once it is fetched, on values.
ghost use Rattle.std.specs.Prelude.{◌≡◌, if◌then◌else◌};
ghost use Rattle.control.specs.Count.{one_more, more};
ghost use Rattle.direct.specs.Work.{operands, loads, computes, rests, worked, counts, reads_by, writes_by, count_whole};

use control::{
    AluOperation, AluRecord, BusTransfer, Counters, Operands, RegisterWrite, reached_address,
};
use isa::{MEMORY_WORDS, Opcode, REGISTER_COUNT};
use plan::{FETCH_TICKS, execute_tick_count};
use tick::alu_record;

// PC, the transfer over the bus after the fetch, the register that is written, the ALU's record.
#[derive(Drop)]
pub struct Work {
    pub alu: Option<AluRecord>,
    pub bus: Option<BusTransfer>,
    pub write: Option<RegisterWrite>,
    pub pc: u8,
}

fn rested(pc: u8, alu: Option<AluRecord>) -> Work
    ensures { result ≡ rests pc alu }
{
    Work {
        alu,
        bus: None,
        write: None,
        pc,
    }
}

fn loaded(pc: u8, register: u8, value: u16, alu: Option<AluRecord>) -> Work
    ensures { result ≡ loads pc register value alu }
{
    Work {
        write: Some(RegisterWrite { register, value }),
        ..rested(pc, alu)
    }
}

// A result of the ALU to a register.
fn computed(pc: u8, register: u8, operation: AluOperation, left: u16, right: Option<u16>) -> Work
    ensures { result ≡ computes pc register operation left right }
{
    let alu = alu_record(operation, left, right);
    loaded(pc, register, alu.result, Some(alu))
}

fn load_work(word: u16, pc: u8, alu: Option<AluRecord>, o: Operands) -> Work
    ensures { result ≡ worked (Some Opcode.LoadMemory) word pc alu o }
{
    let address = reached_address(word);
    let value = o.cell;
    Work {
        bus: Some(BusTransfer::Read { address, value }),
        ..loaded(pc, (word / 256 % 16) as u8, value, alu)
    }
}

fn store_work(word: u16, pc: u8, alu: Option<AluRecord>, o: Operands) -> Work
    ensures { result ≡ worked (Some Opcode.StoreMemory) word pc alu o }
{
    let address = reached_address(word);
    let value = o.x;
    Work {
        bus: Some(BusTransfer::Write { address, value }),
        ..rested(pc, alu)
    }
}

fn jump_work(word: u16, pc: u8, alu: Option<AluRecord>, o: Operands) -> Work
    ensures { result ≡ worked (Some Opcode.Jump) word pc alu o }
{
    if o.x == o.zero {
        return rested((word % 256) as u8, alu);
    }
    rested(pc, alu)
}

// From what the word decodes to, the word, the PC after it, the ALU's record before it, and the words that it may
// read.
// In place where the opcode is known: `light_instruction` says why.
#[inline(always)]
pub(crate) fn work_of(
    decoded: Option<Opcode>,
    word: u16,
    pc: u8,
    alu: Option<AluRecord>,
    o: Operands,
) -> Work
    ensures { result ≡ worked decoded word pc alu o }
{
    let Some(opcode) = decoded else {
        return rested(pc, alu);
    };
    let x = (word / 256 % 16) as u8;
    let y = (word / 16 % 16) as u8;
    let yz = word % 256;
    match opcode {
        Opcode::LoadImmediate => loaded(pc, x, yz, alu),
        Opcode::LoadRegister => loaded(pc, y, o.z, alu),
        Opcode::LoadMemory => load_work(word, pc, alu, o),
        Opcode::StoreMemory => store_work(word, pc, alu, o),
        Opcode::Add => computed(pc, x, AluOperation::Add, o.y, Some(o.z)),
        Opcode::Negate => computed(pc, y, AluOperation::Negate, o.y, None),
        Opcode::ShiftRight => computed(pc, x, AluOperation::Shr, o.x, Some(yz)),
        Opcode::ShiftLeft => computed(pc, x, AluOperation::Shl, o.x, Some(yz)),
        Opcode::And => computed(pc, x, AluOperation::And, o.y, Some(o.z)),
        Opcode::Or => computed(pc, x, AluOperation::Or, o.y, Some(o.z)),
        Opcode::Xor => computed(pc, x, AluOperation::Xor, o.y, Some(o.z)),
        Opcode::Jump => jump_work(word, pc, alu, o),
        Opcode::Halt => rested(pc, alu),
    }
}

pub(crate) fn read_operands(
    w: u16,
    memory: &[u16; MEMORY_WORDS],
    registers: &[u16; REGISTER_COUNT],
) -> Operands
    ensures { result ≡ operands w memory.now registers.now }
{
    let x = (w / 256 % 16) as usize;
    let y = (w / 16 % 16) as usize;
    let z = (w % 16) as usize;
    let a = reached_address(w) as usize;
    Operands {
        cell: memory[a],
        x: registers[x],
        y: registers[y],
        z: registers[z],
        zero: registers[0],
    }
}

// One instruction more, where it counts.
fn count_instruction(counts: bool, instructions: u64) -> u64
    ensures { result ≡ (if counts then one_more instructions else instructions) }
{
    if counts {
        instructions.wrapping_add(1)
    } else {
        instructions
    }
}

// The bus is read once by the fetch, and once more where the transfer behind it is a read.
fn count_reads(bus: Option<BusTransfer>, reads: u64) -> u64
    ensures { result ≡ more (reads_by bus) reads }
{
    let first = reads.wrapping_add(1);
    match bus {
        Some(BusTransfer::Read { .. }) => first.wrapping_add(1),
        _ => first,
    }
}

fn count_writes(bus: Option<BusTransfer>, writes: u64) -> u64
    ensures { result ≡ more (writes_by bus) writes }
{
    match bus {
        Some(BusTransfer::Write { .. }) => writes.wrapping_add(1),
        _ => writes,
    }
}

// The counters after a whole instruction and its transfer after the fetch.
pub(crate) fn count_whole(
    decoded: Option<Opcode>,
    bus: Option<BusTransfer>,
    k: Counters,
) -> Counters
    ensures { result ≡ count_whole decoded bus k }
{
    let ticks = FETCH_TICKS as u64 + execute_tick_count(decoded) as u64;
    Counters {
        instructions: count_instruction(decoded.is_some(), k.instructions),
        micro_operations: k.micro_operations.wrapping_add(ticks),
        bus_reads: count_reads(bus, k.bus_reads),
        bus_writes: count_writes(bus, k.bus_writes),
    }
}
