// One snapshot in the bytes of a record, numbers high byte first (docs/FORMATS.md, 'The history').
ghost use Rattle.std.specs.Prelude.{◌≡◌, ◌+◌, ◌*◌, ◌≤◌, length, drop};
ghost use Rattle.encoding.specs.Bytes.{over, number};
ghost use Rattle.isa.specs.Sizes.{memory_words};
ghost use Rattle.history.specs.Record.{byte_width, word_width, pc_at, registers_at, mar_at, fault_kind_at, memory_at, record_length};
ghost use Rattle.history.specs.Record.{front_bytes, state_bytes, count_bytes, memory_bytes, record_bytes};
ghost use Rattle.history.specs.Record.{control_in, fault_in, is_record, snapshot_in, record_in};

use crate::snapshot::Snapshot;
use control::{ADDRESS_WIDTH, Control, Fault, fault_bytes, fault_of, is_lawful};
use encoding::{get_number, get_words, put_bytes, put_number, put_words};
use isa::{MEMORY_WORDS, REGISTER_COUNT};

// How many bytes a field has, an address of memory aside: a byte, a word, a counter; and the zero bytes at the end.
const BYTE_WIDTH: usize = 1;

const WORD_WIDTH: usize = 2;

const COUNTER_WIDTH: usize = 8;

const PADDING_WIDTH: usize = 2;

// Where each begins, behind the one before it.
const PC_AT: usize = 0;

const IR_AT: usize = PC_AT + BYTE_WIDTH;

const REGISTERS_AT: usize = IR_AT + WORD_WIDTH;

const MAR_AT: usize = REGISTERS_AT + WORD_WIDTH * REGISTER_COUNT;

const MDR_AT: usize = MAR_AT + ADDRESS_WIDTH;

const INSTRUCTION_ADDRESS_AT: usize = MDR_AT + WORD_WIDTH;

const TICK_AT: usize = INSTRUCTION_ADDRESS_AT + BYTE_WIDTH;

const EXECUTE_TICKS_AT: usize = TICK_AT + BYTE_WIDTH;

const HALTED_AT: usize = EXECUTE_TICKS_AT + BYTE_WIDTH;

const FAULT_KIND_AT: usize = HALTED_AT + BYTE_WIDTH;

const FAULT_WORD_AT: usize = FAULT_KIND_AT + BYTE_WIDTH;

const FAULT_ADDRESS_AT: usize = FAULT_WORD_AT + WORD_WIDTH;

const INSTRUCTIONS_AT: usize = FAULT_ADDRESS_AT + BYTE_WIDTH;

const MICRO_OPERATIONS_AT: usize = INSTRUCTIONS_AT + COUNTER_WIDTH;

const MEMORY_AT: usize = MICRO_OPERATIONS_AT + COUNTER_WIDTH;

const PADDING_AT: usize = MEMORY_AT + WORD_WIDTH * MEMORY_WORDS;

pub(crate) const RECORD_LENGTH: usize = PADDING_AT + PADDING_WIDTH;

// From PC to the registers.
fn put_front(part: &mut [u8], pc: u8, ir: u16, registers: &[u16])
    requires { registers_at + word_width * length registers.now ≤ length part.old }
    ensures { part.new ≡ over part.old pc_at (front_bytes pc ir registers.now) }
{
    put_number(part, PC_AT, BYTE_WIDTH, pc as u64);
    put_number(part, IR_AT, WORD_WIDTH, ir as u64);
    put_words(part, REGISTERS_AT, registers);
}

// From MAR to the halted byte.
fn put_state(part: &mut [u8], control: Control)
    requires { record_length ≤ length part.old }
    ensures { part.new ≡ over part.old mar_at (state_bytes control) }
{
    put_number(part, MAR_AT, ADDRESS_WIDTH, control.mar as u64);
    put_number(part, MDR_AT, WORD_WIDTH, control.mdr as u64);
    put_number(
        part,
        INSTRUCTION_ADDRESS_AT,
        BYTE_WIDTH,
        control.instruction_address as u64,
    );
    put_number(part, TICK_AT, BYTE_WIDTH, control.tick as u64);
    put_number(
        part,
        EXECUTE_TICKS_AT,
        BYTE_WIDTH,
        control.execute_ticks as u64,
    );
    put_number(part, HALTED_AT, BYTE_WIDTH, u64::from(control.halted));
}

// The fault and the two counters.
fn put_counts(part: &mut [u8], fault: Option<Fault>, instructions: u64, micro_operations: u64)
    requires { record_length ≤ length part.old }
    ensures { part.new ≡ over part.old fault_kind_at (count_bytes fault instructions micro_operations) }
{
    let bytes = fault_bytes(fault);
    put_bytes(part, FAULT_KIND_AT, &bytes);
    put_number(part, INSTRUCTIONS_AT, COUNTER_WIDTH, instructions);
    put_number(part, MICRO_OPERATIONS_AT, COUNTER_WIDTH, micro_operations);
}

// Memory and the zero bytes.
fn put_memory(part: &mut [u8], memory: &[u16])
    requires { (length memory.now ≡ memory_words) × (record_length ≤ length part.old) }
    ensures { part.new ≡ over part.old memory_at (memory_bytes memory.now) }
{
    put_words(part, MEMORY_AT, memory);
    put_number(part, PADDING_AT, PADDING_WIDTH, 0);
}

// Writes a record over the first bytes of the part; what is behind it is kept.
#[tactic(auto, using(crate::proofs::Records::record_over))]
pub(crate) fn encode(part: &mut [u8], snapshot: Snapshot)
    requires { record_length ≤ length part.old }
    ensures { part.new ≡ over part.old 0 (record_bytes snapshot) }
{
    put_front(
        part,
        snapshot.control.pc,
        snapshot.control.ir,
        &snapshot.registers,
    );
    put_state(part, snapshot.control);
    put_counts(
        part,
        snapshot.fault,
        snapshot.instructions,
        snapshot.micro_operations,
    );
    put_memory(part, &snapshot.memory);
}

#[tactic(auto, unfolding(encoding::specs::Bytes::number))]
fn byte_at(part: &[u8], at: usize) -> u8
    requires { at + byte_width ≤ length part.now }
    ensures { result ≡ number byte_width (drop at part.now) }
{
    part[at]
}

#[tactic(auto, unfolding(encoding::specs::Bytes::number))]
fn word_at(part: &[u8], at: usize) -> u16
    requires { at + word_width ≤ length part.now }
    ensures { result ≡ number word_width (drop at part.now) }
{
    u16::from_be_bytes([part[at], part[at + 1]])
}

#[tactic(auto, unfolding(crate::specs::Record::control_in))]
fn control_in(part: &[u8]) -> Control
    requires { record_length ≤ length part.now }
    ensures { result ≡ control_in part.now }
{
    Control {
        ir: word_at(part, IR_AT),
        mdr: word_at(part, MDR_AT),
        pc: byte_at(part, PC_AT),
        mar: byte_at(part, MAR_AT),
        instruction_address: byte_at(part, INSTRUCTION_ADDRESS_AT),
        tick: byte_at(part, TICK_AT),
        execute_ticks: byte_at(part, EXECUTE_TICKS_AT),
        halted: byte_at(part, HALTED_AT) == 1,
    }
}

#[tactic(auto, unfolding(crate::specs::Record::fault_in))]
fn fault_in(part: &[u8]) -> Option<Fault>
    requires { record_length ≤ length part.now }
    ensures { result ≡ fault_in part.now }
{
    fault_of(
        byte_at(part, FAULT_KIND_AT),
        word_at(part, FAULT_WORD_AT),
        byte_at(part, FAULT_ADDRESS_AT),
    )
}

// Whether the first bytes of the part are those of a record.
#[tactic(auto, unfolding(crate::specs::Record::is_record))]
fn is_record(part: &[u8]) -> bool
    requires { record_length ≤ length part.now }
    ensures { result ≡ is_record part.now }
{
    byte_at(part, HALTED_AT) <= 1
        && byte_at(part, FAULT_KIND_AT) <= 2
        && is_lawful(control_in(part))
}

#[tactic(auto, using(crate::proofs::Parts::number_inside, crate::proofs::Parts::words_inside), unfolding(crate::specs::Record::snapshot_in))]
fn snapshot_in(part: &[u8]) -> Snapshot
    requires { record_length ≤ length part.now }
    ensures { result ≡ snapshot_in part.now }
{
    let mut registers = [0u16; REGISTER_COUNT];
    get_words(part, REGISTERS_AT, &mut registers);
    let mut memory = [0u16; MEMORY_WORDS];
    get_words(part, MEMORY_AT, &mut memory);
    Snapshot {
        registers,
        memory,
        control: control_in(part),
        fault: fault_in(part),
        instructions: get_number(part, INSTRUCTIONS_AT, COUNTER_WIDTH),
        micro_operations: get_number(part, MICRO_OPERATIONS_AT, COUNTER_WIDTH),
    }
}

// Reads the record in the first bytes of the part.
#[tactic(auto, unfolding(crate::specs::Record::record_in))]
pub(crate) fn decode(part: &[u8]) -> Option<Snapshot>
    requires { record_length ≤ length part.now }
    ensures { result ≡ record_in part.now }
{
    if is_record(part) {
        Some(snapshot_in(part))
    } else {
        None
    }
}
