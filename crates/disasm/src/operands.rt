// The registers and the memory address that an instruction names. Which digits an opcode uses is
// told by a place, so that each question is a table over the opcodes.
ghost use Rattle.std.specs.Prelude.{◌≡◌};
ghost use Rattle.disasm.specs.Operands.{operand_at, written_place, read_place, memory_place, first_source, second_source};
ghost use Rattle.disasm.specs.Operands.{written_register, read_register, active_register, source_registers, memory_operand, both_of, register_list};

use isa::{Instruction, Opcode};

// Where in a word an operand stands.
#[derive(Clone, Copy, Debug, PartialEq, Eq)]
pub enum Place {
    X,
    Y,
    Z,
    Yz,
    Nowhere,
}

// The operand at a place of a word.
fn operand(i: Instruction, place: Place) -> Option<u8>
    ensures { result ≡ operand_at i.raw place }
{
    match place {
        Place::X => Some(i.x()),
        Place::Y => Some(i.y()),
        Place::Z => Some(i.z()),
        Place::Yz => Some(i.yz()),
        Place::Nowhere => None,
    }
}

// The register that an instruction writes.
fn written_place(decoded: Option<Opcode>) -> Place
    ensures { result ≡ written_place decoded }
{
    match decoded {
        Some(Opcode::LoadRegister | Opcode::Negate) => Place::Y,
        Some(Opcode::StoreMemory | Opcode::Jump | Opcode::Halt) | None => Place::Nowhere,
        Some(_) => Place::X,
    }
}

// The register that an instruction reads and does not write.
fn read_place(decoded: Option<Opcode>) -> Place
    ensures { result ≡ read_place decoded }
{
    match decoded {
        Some(Opcode::StoreMemory | Opcode::Jump) => Place::X,
        _ => Place::Nowhere,
    }
}

// The memory address that an instruction touches.
fn memory_place(decoded: Option<Opcode>) -> Place
    ensures { result ≡ memory_place decoded }
{
    match decoded {
        Some(Opcode::LoadMemory | Opcode::StoreMemory) => Place::Yz,
        _ => Place::Nowhere,
    }
}

// The first register that an instruction reads.
fn first_source(decoded: Option<Opcode>) -> Place
    ensures { result ≡ first_source decoded }
{
    match decoded {
        Some(Opcode::LoadRegister) => Place::Z,
        Some(Opcode::Add | Opcode::Negate | Opcode::And | Opcode::Or | Opcode::Xor) => Place::Y,
        Some(Opcode::Halt) | None => Place::Nowhere,
        Some(_) => Place::X,
    }
}

// The second register that an instruction reads.
fn second_source(decoded: Option<Opcode>) -> Place
    ensures { result ≡ second_source decoded }
{
    match decoded {
        Some(Opcode::Add | Opcode::And | Opcode::Or | Opcode::Xor) => Place::Z,
        _ => Place::Nowhere,
    }
}

// The register an instruction writes, or `None` when it writes none.
#[tactic(auto, unfolding(crate::specs::Operands::written_register))]
pub fn written_register(word: u16) -> Option<u8>
    ensures { result ≡ written_register word }
{
    let i = Instruction::from_word(word);
    operand(i, written_place(i.opcode()))
}

// The register an instruction reads but does not write.
#[tactic(auto, unfolding(crate::specs::Operands::read_register))]
pub fn read_register(word: u16) -> Option<u8>
    ensures { result ≡ read_register word }
{
    let i = Instruction::from_word(word);
    operand(i, read_place(i.opcode()))
}

// The register an instruction acts on: the written one where there is one, else the read one.
#[tactic(auto, unfolding(crate::specs::Operands::active_register))]
pub fn active_register(word: u16) -> Option<u8>
    ensures { result ≡ active_register word }
{
    written_register(word).or_else(|| read_register(word))
}

// At most two registers, zeros past them: the Rust's Vec, where no crate has a heap.
#[derive(Drop)]
pub struct RegisterList {
    pub registers: [u8; 2],
    pub count: u8,
}

// The registers that are there, up to the first that is not.
#[tactic(auto, unfolding(crate::specs::Operands::register_list, isa::specs::Text::padded))]
fn both(first: Option<u8>, second: Option<u8>) -> RegisterList
    ensures { result ≡ register_list (both_of first second) }
{
    match (first, second) {
        (Some(a), Some(b)) => RegisterList {
            registers: [a, b],
            count: 2,
        },
        (Some(a), None) => RegisterList {
            registers: [a, 0],
            count: 1,
        },
        (None, _) => RegisterList {
            registers: [0, 0],
            count: 0,
        },
    }
}

// Registers read by an instruction.
#[tactic(auto, unfolding(crate::specs::Operands::source_registers))]
pub fn source_registers(word: u16) -> RegisterList
    ensures { result ≡ register_list (source_registers word) }
{
    let i = Instruction::from_word(word);
    let decoded = i.opcode();
    let first = operand(i, first_source(decoded));
    let second = operand(i, second_source(decoded));
    both(first, second)
}

// The memory address an instruction touches, if any.
#[tactic(auto, unfolding(crate::specs::Operands::memory_operand))]
pub fn memory_operand(word: u16) -> Option<u8>
    ensures { result ≡ memory_operand word }
{
    let i = Instruction::from_word(word);
    operand(i, memory_place(i.opcode()))
}
