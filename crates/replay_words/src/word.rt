// Records of kind 'W': all that the port says of one word.
use crate::record::{opcode_number, put_option};
use disasm::{
    active_register, disassemble, memory_operand, read_register, source_registers, written_register,
};
use encoding::{put_bytes, put_number};
use isa::{Instruction, format_word};
use notation::{binary_grouped, to_signed};
use replay::{put_text, word_at};

// The word's digits, one by one and together.
fn put_digits(out: &mut [u8], word: u16) {
    let i = Instruction::from_word(word);
    let t = i.xyz();
    let single = [
        i.opcode_nibble(),
        opcode_number(i.opcode()),
        i.x(),
        i.y(),
        i.z(),
        i.yz(),
        t.x,
        t.y,
        t.z,
    ];
    put_number(out, 3, 2, i.word() as u64);
    put_bytes(out, 5, &single);
    put_bytes(out, 14, &i.nibbles());
}

// The word as a text, in each of its forms.
fn put_texts(out: &mut [u8], word: u16) {
    put_text(out, 18, Instruction::from_word(word).text());
    put_text(out, 51, format_word(word));
    put_text(out, 84, binary_grouped(word));
    put_text(out, 117, disassemble(word));
}

// A signed number as a record has it, raised by 32,768, so that none is below zero.
fn raised(n: i16) -> u16 {
    (n as i32 + 32768) as u16
}

// The registers and the address that the word's instruction names.
fn put_operands(out: &mut [u8], word: u16) {
    let sources = source_registers(word);
    put_option(out, 152, written_register(word));
    put_option(out, 154, read_register(word));
    put_option(out, 156, active_register(word));
    put_number(out, 158, 1, sources.count as u64);
    put_bytes(out, 159, &sources.registers);
    put_option(out, 161, memory_operand(word));
}

// The whole record: the question first, and then the port's answer.
fn put_record(out: &mut [u8], word: u16) {
    put_bytes(out, 0, b"W");
    put_number(out, 1, 2, word as u64);
    put_digits(out, word);
    put_texts(out, word);
    put_number(out, 150, 2, raised(to_signed(word)) as u64);
    put_operands(out, word);
}

// Whether the record is the one that is due for its word.
pub(crate) fn passes(record: &[u8]) -> bool {
    let mut due = [0u8; 163];
    put_record(&mut due, word_at(record, 1));
    record == &due[..]
}
