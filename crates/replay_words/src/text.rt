// Records of kinds 'B', 'H' and 'P': numbers and registers as texts.
use crate::record::option_bytes;
use encoding::{get_number, put_bytes, put_number};
use isa::{format_byte, register_name};
use notation::{format_hex, parse_register};
use replay::{byte_at, put_text, word_at};

// 'B': the two texts of one byte.
pub(crate) fn byte_passes(record: &[u8]) -> bool {
    let byte = byte_at(record, 1);
    let mut due = [0u8; 68];
    put_bytes(&mut due, 0, &[b'B', byte]);
    put_text(&mut due, 2, format_byte(byte));
    put_text(&mut due, 35, register_name(byte));
    record == &due[..]
}

// 'H': a number of at least so many digits.
pub(crate) fn hex_passes(record: &[u8]) -> bool {
    let value = word_at(record, 1);
    let digits = get_number(record, 3, 8);
    let mut due = [0u8; 44];
    put_bytes(&mut due, 0, b"H");
    put_number(&mut due, 1, 2, value as u64);
    put_number(&mut due, 3, 8, digits);
    put_text(&mut due, 11, format_hex(value, digits as usize));
    record == &due[..]
}

// 'P': a register's name, whose length the second byte says, and then its index.
pub(crate) fn name_passes(record: &[u8]) -> bool {
    let end = 2 + byte_at(record, 1) as usize;
    if record.len() < end {
        return false;
    }
    let due = option_bytes(parse_register(&record[2..end]));
    &record[end..] == &due[..]
}
