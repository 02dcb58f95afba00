// Numbers and registers in the notations that only programs and tests ask for: hexadecimal of any width,
// a register's name read back, two's complement, and binary.
#![tactic(auto)]

ghost use Rattle.std.specs.Prelude.{◌≡◌, ◌≤◌};
ghost use Rattle.isa.specs.Text.{text};
ghost use Rattle.notation.specs.Notation.{hex_length, hex_width, format_hex};
ghost use Rattle.notation.specs.Notation.{digit_value, parse_register, signed_of, bits4, binary_grouped};

use isa::{TEXT_WIDTH, Text, format};

// How many digits a value takes without zeros in front.
fn hex_length(value: u16) -> usize
    ensures { (result ≡ hex_length value) × (result ≤ 4) }
{
    match value {
        0x0..=0xF => 1,
        0x10..=0xFF => 2,
        0x100..=0xFFF => 3,
        _ => 4,
    }
}

// How many digits are written: those asked for, at most 32, and never fewer than the value takes.
fn hex_width(value: u16, digits: usize) -> usize
    ensures { (result ≡ hex_width value digits) × (result ≤ 32) }
{
    digits.min(TEXT_WIDTH).max(hex_length(value))
}

// Format a value as a hexadecimal number of at least `digits` digits; over 32 count as 32.
pub fn format_hex(value: u16, digits: usize) -> Text
    ensures { result ≡ text (format_hex value digits) }
{
    let start = 32 - hex_width(value, digits);
    let template = *b"0000000000000000000000000000Wxyz";
    format(&template[start..], value)
}

// The value of a hexadecimal digit in either case.
#[tactic(auto, unfolding(crate::specs::Notation::digit_value))]
fn digit_value(d: u8) -> Option<u8>
    ensures { result ≡ digit_value d }
{
    match d {
        b'0'..=b'9' => Some(d - b'0'),
        b'A'..=b'F' => Some(d - b'A' + 10),
        b'a'..=b'f' => Some(d - b'a' + 10),
        _ => None,
    }
}

// Parse a register name such as R0, Ra or rF into its index. Register 10 is RA, never R10.
#[tactic(auto, unfolding(crate::specs::Notation::parse_register))]
pub fn parse_register(text: &[u8]) -> Option<u8>
    ensures { result ≡ parse_register text.now }
{
    match text {
        [b'R' | b'r', digit] => digit_value(*digit),
        _ => None,
    }
}

// Interpret a 16-bit register value as a signed 2's complement integer.
#[tactic(auto, unfolding(crate::specs::Notation::signed_of))]
pub fn to_signed(value: u16) -> i16
    ensures { result ≡ signed_of value }
{
    value.cast_signed()
}

// The four bits of a digit, high first.
fn bits_4(d: u8) -> [u8; 4]
    ensures { result ≡ bits4 d }
{
    [
        b'0' + d / 8 % 2,
        b'0' + d / 4 % 2,
        b'0' + d / 2 % 2,
        b'0' + d % 2,
    ]
}

// Render a 16-bit value in binary with a space every four bits.
#[tactic(auto, unfolding(crate::specs::Notation::binary_grouped))]
pub fn binary_grouped(value: u16) -> Text
    ensures { result ≡ text (binary_grouped value) }
{
    let w = bits_4((value / 4096 % 16) as u8);
    let x = bits_4((value / 256 % 16) as u8);
    let y = bits_4((value / 16 % 16) as u8);
    let z = bits_4((value % 16) as u8);
    Text::from_bytes(&[
        w[0], w[1], w[2], w[3], b' ', x[0], x[1], x[2], x[3], b' ', y[0], y[1], y[2], y[3], b' ',
        z[0], z[1], z[2], z[3],
    ])
}
