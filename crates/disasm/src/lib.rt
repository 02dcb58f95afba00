// Disassembly: a word as assembler source, and the operands that it names.
#![tactic(auto)]

mod disassembly;
mod operands;

pub use disassembly::{disassemble, disassemble_into};
pub use operands::{
    RegisterList, active_register, memory_operand, read_register, source_registers,
    written_register,
};
