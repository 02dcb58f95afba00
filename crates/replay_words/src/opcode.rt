// Records of kinds 'N', 'A' and 'E': opcodes, their lists, and encoding.
use crate::record::{group_number, opcode_number};
use encoding::{put_bytes, put_number};
use isa::{Instruction, InstructionGroup, Opcode};
use replay::{byte_at, put_text};

// An opcode's short texts.
fn put_texts(out: &mut [u8], opcode: Opcode) {
    put_text(out, 4, opcode.mnemonic());
    put_text(out, 37, opcode.encoding());
    put_text(out, 70, opcode.syntax());
    put_text(out, 103, opcode.cpp());
    put_text(out, 136, opcode.name());
}

// What is fixed about an opcode.
fn put_opcode(out: &mut [u8], opcode: Opcode) {
    let group = opcode.group();
    put_number(out, 3, 1, opcode.nibble() as u64);
    put_texts(out, opcode);
    put_text(out, 169, opcode.description());
    put_number(out, 250, 1, group_number(group) as u64);
    put_text(out, 251, group.label());
}

// An 'N' of a byte that is no opcode ends after the number 0.
fn unknown_passes(record: &[u8], byte: u8) -> bool {
    record == &[b'N', byte, 0][..]
}

// That of an opcode goes on with its texts.
fn known_passes(record: &[u8], byte: u8, opcode: Opcode) -> bool {
    let mut due = [0u8; 284];
    put_bytes(&mut due, 0, &[b'N', byte, opcode_number(Some(opcode))]);
    put_opcode(&mut due, opcode);
    record == &due[..]
}

// 'N': an opcode by its nibble, and its fixed texts.
pub(crate) fn nibble_passes(record: &[u8]) -> bool {
    let byte = byte_at(record, 1);
    match Opcode::from_nibble(byte) {
        Some(opcode) => known_passes(record, byte, opcode),
        None => unknown_passes(record, byte),
    }
}

// 'A': the two lists of all opcodes and all groups.
pub(crate) fn all_passes(record: &[u8]) -> bool {
    let mut due = [0u8; 17];
    let nibbles = Opcode::all().map(|opcode| opcode.nibble());
    let numbers = InstructionGroup::all().map(group_number);
    put_bytes(&mut due, 0, b"A");
    put_bytes(&mut due, 1, &nibbles);
    put_bytes(&mut due, 14, &numbers);
    record == &due[..]
}

// Encoding from an opcode and three digits, where the digit is an opcode's: 1 and the word, and
// else three zeros.
fn new_number(o: u8, x: u8, y: u8, z: u8) -> u64 {
    Opcode::from_nibble(o).map_or(
        0,
        |opcode| 65536 + Instruction::new(opcode, x, y, z).word() as u64,
    )
}

// 'E': encoding from four digits, and from an opcode and three.
pub(crate) fn encoding_passes(record: &[u8]) -> bool {
    let o = byte_at(record, 1);
    let x = byte_at(record, 2);
    let y = byte_at(record, 3);
    let z = byte_at(record, 4);
    let word = Instruction::from_nibbles(o, x, y, z).word();
    let mut due = [0u8; 10];
    put_bytes(&mut due, 0, &[b'E', o, x, y, z]);
    put_number(&mut due, 5, 2, word as u64);
    put_number(&mut due, 7, 3, new_number(o, x, y, z));
    record == &due[..]
}
