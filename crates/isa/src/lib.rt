// The MASSEY machine instruction set: words, opcodes and their texts.
#![tactic(auto)]

mod digits;
mod instruction;
mod opcode;
mod table;
mod text;

pub use digits::{digits_of, format, format_byte, format_word, register_name};
pub use instruction::{Instruction, Xyz};
pub use opcode::{InstructionGroup, Opcode};
pub use text::{FixedText, LongText, Text};

// Memory locations in the MASSEY machine (addresses 00 to FF).
pub const MEMORY_WORDS: usize = 256;
// Registers in the MASSEY machine, R0 to RF.
pub const REGISTER_COUNT: usize = 16;
// Every machine instruction occupies exactly one 16-bit memory location.
pub const WORD_BITS: u32 = 16;
// The bytes that a text has room for.
pub const TEXT_WIDTH: usize = 32;
