// The fields of these records that have a form of their own. They stand at places, as the list's layout has them: a
// reader with a place of its own would name each place once more and say no more.
use encoding::put_bytes;
use isa::{InstructionGroup, Opcode};

// A byte that may be missing: 1 and the byte, or two zeros.
pub(crate) fn option_bytes(option: Option<u8>) -> [u8; 2] {
    option.map_or([0, 0], |value| [1, value])
}

// The same, in a record.
pub(crate) fn put_option(out: &mut [u8], at: usize, option: Option<u8>) {
    put_bytes(out, at, &option_bytes(option));
}

// An opcode's number, 0 for none.
pub(crate) fn opcode_number(decoded: Option<Opcode>) -> u8 {
    decoded.map_or(0, |opcode| opcode.nibble())
}

// A group's number, its place among all groups.
pub(crate) fn group_number(group: InstructionGroup) -> u8 {
    match group {
        InstructionGroup::DataTransfer => 0,
        InstructionGroup::ArithmeticLogic => 1,
        InstructionGroup::Control => 2,
    }
}
