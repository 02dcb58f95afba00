// Records of kinds 'T', 'F' and 'U': what is fixed about an instruction's ticks, and the names of
// the phases and of the ALU's operations.
use crate::state::operation_of;
use encoding::{put_bytes, put_number};
use isa::{Instruction, Text};
use plan::{Phase, execute_tick_count, transfer_plan};
use replay::{byte_at, put_text, word_at};

// The seven texts of a plan.
fn put_texts(out: &mut [u8], texts: [Text; 7]) {
    for (i, text) in texts.iter().enumerate() {
        put_text(out, 5 + 33 * i, *text);
    }
}

// 'T': how many execute ticks a word has, and its plan.
pub(crate) fn word_passes(record: &[u8]) -> bool {
    let word = word_at(record, 1);
    let plan = transfer_plan(word);
    let ticks = execute_tick_count(Instruction::from_word(word).opcode());
    let mut due = [0u8; 236];
    put_bytes(&mut due, 0, b"T");
    put_number(&mut due, 1, 2, word as u64);
    put_number(&mut due, 3, 1, ticks as u64);
    put_number(&mut due, 4, 1, plan.count as u64);
    put_texts(&mut due, plan.texts);
    record == &due[..]
}

// A kind, a number and the text due for it.
fn name_passes(record: &[u8], kind: u8, number: u8, name: Text) -> bool {
    let mut due = [0u8; 35];
    put_bytes(&mut due, 0, &[kind, number]);
    put_text(&mut due, 2, name);
    record == &due[..]
}

// The phase of a number. One over 3 is taken for the last: the question that is then due has
// another number, and so the record fails.
fn phase_of_number(number: u8) -> Phase {
    match number {
        0 => Phase::Fetch,
        1 => Phase::Decode,
        2 => Phase::Execute,
        _ => Phase::Halt,
    }
}

// 'F': the label of a phase.
pub(crate) fn phase_passes(record: &[u8]) -> bool {
    let phase = phase_of_number(byte_at(record, 1));
    name_passes(record, b'F', phase.number(), phase.label())
}

// 'U': the name of an operation of the ALU. Its place is one less than its number: 0 is the number of
// none.
pub(crate) fn operation_passes(record: &[u8]) -> bool {
    let operation = operation_of(byte_at(record, 1));
    let number = operation.number();
    if number == 0 {
        return false;
    }
    name_passes(record, b'U', number - 1, operation.name())
}
