// The register transfers that an instruction is made of.
ghost use Rattle.std.specs.Prelude.{◌≡◌, map};
ghost use Rattle.isa.specs.Text.{ascii, text};
ghost use Rattle.isa.specs.Format.{fill_byte};
ghost use Rattle.plan.specs.Plan.{phase_label, phase_number, phase_of, execute_ticks_of, fetch_text, load_text, store_text, execute_text};
ghost use Rattle.plan.specs.Plan.{tick_text, plan_of};

use crate::FETCH_TICKS;
use crate::texts::{
    add_text, address_to_mar_text, and_text, immediate_text, jump_text, mdr_to_ir_text,
    mdr_to_memory_text, mdr_to_register_text, memory_to_mdr_text, negate_text, next_pc_text,
    or_text, pc_to_mar_text, register_text, register_to_mdr_text, shift_left_text,
    shift_right_text, untaken_text, xor_text,
};
use isa::{Instruction, Opcode, Text, digits_of};

// Which part of the machine cycle a transfer belongs to.
#[derive(Clone, Copy, Debug, PartialEq, Eq)]
pub enum Phase {
    // Fetching the next instruction from memory.
    Fetch = 0,
    // Working out what the instruction in the instruction register means.
    Decode = 1,
    // Activating the circuits that carry the instruction out.
    Execute = 2,
    // The machine stopped.
    Halt = 3,
}

impl Phase {
    // Human readable name.
    pub fn label(self) -> Text
        ensures { result ≡ text (ascii (phase_label self)) }
    {
        match self {
            Phase::Fetch => Text::from_bytes(b"fetch"),
            Phase::Decode => Text::from_bytes(b"decode"),
            Phase::Execute => Text::from_bytes(b"execute"),
            Phase::Halt => Text::from_bytes(b"halt"),
        }
    }

    // Its number, in a trace and in answers.
    pub fn number(self) -> u8
        ensures { result ≡ phase_number self }
    {
        self as u8
    }
}

// The phase of a tick of a running machine.
pub fn phase_of(tick: u8) -> Phase
    ensures { result ≡ phase_of tick }
{
    if tick < FETCH_TICKS {
        Phase::Fetch
    } else {
        Phase::Execute
    }
}

// How many execute transfers an opcode needs. HALT has none: fetching it was the whole thing.
pub fn execute_tick_count(decoded: Option<Opcode>) -> u8
    ensures { result ≡ execute_ticks_of decoded }
{
    match decoded {
        Some(Opcode::LoadMemory | Opcode::StoreMemory) => 3,
        Some(Opcode::Halt) | None => 0,
        Some(_) => 1,
    }
}

fn fetch_text(tick: u8) -> Text
    ensures { result ≡ text (ascii (fetch_text tick)) }
{
    match tick {
        0 => pc_to_mar_text(),
        1 => memory_to_mdr_text(),
        2 => mdr_to_ir_text(),
        _ => next_pc_text(),
    }
}

fn load_text(n: u8, digits: [u8; 4]) -> Text
    ensures { result ≡ text (map (fill_byte digits) (ascii (load_text n))) }
{
    match n {
        0 => address_to_mar_text(digits),
        1 => memory_to_mdr_text(),
        _ => mdr_to_register_text(digits),
    }
}

fn store_text(n: u8, digits: [u8; 4]) -> Text
    ensures { result ≡ text (map (fill_byte digits) (ascii (store_text n))) }
{
    match n {
        0 => address_to_mar_text(digits),
        1 => register_to_mdr_text(digits),
        _ => mdr_to_memory_text(),
    }
}

fn branch_text(taken: bool, digits: [u8; 4]) -> Text
    ensures { result ≡ text (map (fill_byte digits) (ascii (execute_text (Some Opcode.Jump) 0 taken))) }
{
    if taken {
        jump_text(digits)
    } else {
        untaken_text(digits)
    }
}

// The opcode is taken out first: as one match on the option its proof did not close.
fn execute_text(decoded: Option<Opcode>, n: u8, taken: bool, digits: [u8; 4]) -> Text
    ensures { result ≡ text (map (fill_byte digits) (ascii (execute_text decoded n taken))) }
{
    let Some(opcode) = decoded else {
        return Text::from_bytes(b"");
    };
    match opcode {
        Opcode::LoadImmediate => immediate_text(digits),
        Opcode::LoadRegister => register_text(digits),
        Opcode::LoadMemory => load_text(n, digits),
        Opcode::StoreMemory => store_text(n, digits),
        Opcode::Add => add_text(digits),
        Opcode::Negate => negate_text(digits),
        Opcode::ShiftRight => shift_right_text(digits),
        Opcode::ShiftLeft => shift_left_text(digits),
        Opcode::And => and_text(digits),
        Opcode::Or => or_text(digits),
        Opcode::Xor => xor_text(digits),
        Opcode::Jump => branch_text(taken, digits),
        Opcode::Halt => Text::from_bytes(b""),
    }
}

// The text of a tick of the instruction `word`. `taken` counts for JUMP alone.
pub fn tick_text(tick: u8, taken: bool, word: u16) -> Text
    ensures { result ≡ text (tick_text tick taken word) }
{
    if tick < FETCH_TICKS {
        return fetch_text(tick);
    }
    let decoded = Instruction::from_word(word).opcode();
    execute_text(decoded, tick - FETCH_TICKS, taken, digits_of(word))
}

// At most seven texts, and empty ones past them: the Rust's Vec, where no crate has a heap.
#[derive(Drop)]
pub struct TransferPlan {
    pub texts: [Text; 7],
    pub count: u8,
}

// The register transfers an instruction is made of, in order: the four fetch transfers followed by
// the execute transfers that the opcode needs.
pub fn transfer_plan(word: u16) -> TransferPlan
    ensures { result ≡ plan_of word }
{
    let count = FETCH_TICKS + execute_tick_count(Instruction::from_word(word).opcode());
    let mut texts = [Text::from_bytes(b""); 7];
    for tick in 0..count {
        texts[tick as usize] = tick_text(tick, true, word);
    }
    TransferPlan { texts, count }
}
