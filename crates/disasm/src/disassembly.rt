// One word as assembler source. Each text has a function of its own, which sets the word's digits
// into the text's template: a template that stands alone is a constant to the compiler, where a
// function with fourteen of them would store them all at each call.
ghost use Rattle.std.specs.Prelude.{◌≡◌, ◌+◌, ◌≤◌, true, map, length};
ghost use Rattle.isa.specs.Sizes.{text_width};
ghost use Rattle.isa.specs.Text.{ascii, padded, text};
ghost use Rattle.encoding.specs.Bytes.{written};
ghost use Rattle.isa.specs.Format.{hex4, fill_byte};
ghost use Rattle.disasm.specs.Disassembly.{ending, disassemble_text};
ghost use Rattle.disasm.specs.Forms.{ended_bytes};

use encoding::{inside, put_bytes};
use isa::{Instruction, Opcode, TEXT_WIDTH, Text, digits_of};

fn load_immediate_text(digits: [u8; 4]) -> Text
    ensures { result ≡ text (map (fill_byte digits) (ascii "LOAD Rx, yz")) }
{
    let mut text = *b"LOAD Rx, yz";
    text[6] = digits[1];
    text[9] = digits[2];
    text[10] = digits[3];
    Text::from_bytes(&text)
}

fn load_register_text(digits: [u8; 4]) -> Text
    ensures { result ≡ text (map (fill_byte digits) (ascii "LOAD Ry, Rz")) }
{
    let mut text = *b"LOAD Ry, Rz";
    text[6] = digits[2];
    text[10] = digits[3];
    Text::from_bytes(&text)
}

fn load_memory_text(digits: [u8; 4]) -> Text
    ensures { result ≡ text (map (fill_byte digits) (ascii "LOAD Rx, [yz]")) }
{
    let mut text = *b"LOAD Rx, [yz]";
    text[6] = digits[1];
    text[10] = digits[2];
    text[11] = digits[3];
    Text::from_bytes(&text)
}

fn store_memory_text(digits: [u8; 4]) -> Text
    ensures { result ≡ text (map (fill_byte digits) (ascii "STORE Rx, [yz]")) }
{
    let mut text = *b"STORE Rx, [yz]";
    text[7] = digits[1];
    text[11] = digits[2];
    text[12] = digits[3];
    Text::from_bytes(&text)
}

fn add_text(digits: [u8; 4]) -> Text
    ensures { result ≡ text (map (fill_byte digits) (ascii "Rx = Ry + Rz")) }
{
    let mut text = *b"Rx = Ry + Rz";
    text[1] = digits[1];
    text[6] = digits[2];
    text[11] = digits[3];
    Text::from_bytes(&text)
}

fn negate_text(digits: [u8; 4]) -> Text
    ensures { result ≡ text (map (fill_byte digits) (ascii "NEGATE Ry")) }
{
    let mut text = *b"NEGATE Ry";
    text[8] = digits[2];
    Text::from_bytes(&text)
}

fn shift_right_text(digits: [u8; 4]) -> Text
    ensures { result ≡ text (map (fill_byte digits) (ascii "SHIFT Rx RIGHT yz")) }
{
    let mut text = *b"SHIFT Rx RIGHT yz";
    text[7] = digits[1];
    text[15] = digits[2];
    text[16] = digits[3];
    Text::from_bytes(&text)
}

fn shift_left_text(digits: [u8; 4]) -> Text
    ensures { result ≡ text (map (fill_byte digits) (ascii "SHIFT Rx LEFT yz")) }
{
    let mut text = *b"SHIFT Rx LEFT yz";
    text[7] = digits[1];
    text[14] = digits[2];
    text[15] = digits[3];
    Text::from_bytes(&text)
}

fn and_text(digits: [u8; 4]) -> Text
    ensures { result ≡ text (map (fill_byte digits) (ascii "Rx = Ry AND Rz")) }
{
    let mut text = *b"Rx = Ry AND Rz";
    text[1] = digits[1];
    text[6] = digits[2];
    text[13] = digits[3];
    Text::from_bytes(&text)
}

fn or_text(digits: [u8; 4]) -> Text
    ensures { result ≡ text (map (fill_byte digits) (ascii "Rx = Ry OR Rz")) }
{
    let mut text = *b"Rx = Ry OR Rz";
    text[1] = digits[1];
    text[6] = digits[2];
    text[12] = digits[3];
    Text::from_bytes(&text)
}

fn xor_text(digits: [u8; 4]) -> Text
    ensures { result ≡ text (map (fill_byte digits) (ascii "Rx = Ry XOR Rz")) }
{
    let mut text = *b"Rx = Ry XOR Rz";
    text[1] = digits[1];
    text[6] = digits[2];
    text[13] = digits[3];
    Text::from_bytes(&text)
}

fn jump_text(digits: [u8; 4]) -> Text
    ensures { result ≡ text (map (fill_byte digits) (ascii "JUMP [yz] IF Rx=R0")) }
{
    let mut text = *b"JUMP [yz] IF Rx=R0";
    text[14] = digits[1];
    text[6] = digits[2];
    text[7] = digits[3];
    Text::from_bytes(&text)
}

fn unknown_text(digits: [u8; 4]) -> Text
    ensures { result ≡ text (map (fill_byte digits) (ascii "??? (not a MASSEY opcode) ; Wxyz")) }
{
    let mut text = *b"??? (not a MASSEY opcode) ; Wxyz";
    text[28] = digits[0];
    text[29] = digits[1];
    text[30] = digits[2];
    text[31] = digits[3];
    Text::from_bytes(&text)
}

fn halt_text() -> Text
    ensures { result ≡ text (ascii "HALT") }
{
    Text::from_bytes(b"HALT")
}

// A text's field of 32 bytes; what is answered is the length of the text.
fn put_field(field: &mut [u8], t: Text) -> u8
    ensures { (result ≡ t.len) × (field.new ≡ written field.old 0 t.bytes) }
{
    let bytes = t.bytes;
    put_bytes(field, 0, &bytes);
    t.len
}

// The same, with the word behind the text where that is loose: it has a digit that its instruction
// does not use and that is not 0. Who copies the text then has the whole word.
fn put_ended(field: &mut [u8], t: Text, digits: [u8; 4], loose: bool) -> u8
    requires { t.len + length (ending true) ≤ text_width }
    ensures { (result ≡ t.len + length (ending loose)) × (field.new ≡ written field.old 0 (ended_bytes t digits loose)) }
{
    if !loose {
        return put_field(field, t);
    }
    let ending = [b' ', b';', b' ', digits[0], digits[1], digits[2], digits[3]];
    let mut bytes = t.bytes;
    put_bytes(&mut bytes, t.len as usize, &ending);
    let len = t.len + ending.len() as u8;
    put_field(field, Text { bytes, len })
}

// The text of a machine word with these digits in its field; what is answered is the length of the text.
// A word without an opcode becomes a ??? comment, so that a listing can show every memory word without
// lying about what the machine would do. Each arm writes by itself: a text that is handed on first takes
// half as long again. The digits come from outside: where they are looked up in here, a text takes an
// eighth longer.
fn put_disassembly(field: &mut [u8], word: u16, digits: [u8; 4]) -> u8
    requires { digits ≡ hex4 word }
    ensures { (result ≡ length (disassemble_text word)) × (field.new ≡ written field.old 0 (padded 32 (disassemble_text word))) }
{
    let Some(opcode) = Instruction::from_word(word).opcode() else {
        return put_field(field, unknown_text(digits));
    };
    let loose = opcode.unused(word) != 0;
    match opcode {
        Opcode::LoadImmediate => put_field(field, load_immediate_text(digits)),
        Opcode::LoadRegister => put_ended(field, load_register_text(digits), digits, loose),
        Opcode::LoadMemory => put_field(field, load_memory_text(digits)),
        Opcode::StoreMemory => put_field(field, store_memory_text(digits)),
        Opcode::Add => put_field(field, add_text(digits)),
        Opcode::Negate => put_ended(field, negate_text(digits), digits, loose),
        Opcode::ShiftRight => put_field(field, shift_right_text(digits)),
        Opcode::ShiftLeft => put_field(field, shift_left_text(digits)),
        Opcode::And => put_field(field, and_text(digits)),
        Opcode::Or => put_field(field, or_text(digits)),
        Opcode::Xor => put_field(field, xor_text(digits)),
        Opcode::Jump => put_field(field, jump_text(digits)),
        Opcode::Halt => put_ended(field, halt_text(), digits, loose),
    }
}

// Disassemble one machine word.
pub fn disassemble(word: u16) -> Text
    ensures { result ≡ text (disassemble_text word) }
{
    let mut bytes = [0u8; TEXT_WIDTH];
    let len = put_disassembly(&mut bytes, word, digits_of(word));
    Text { bytes, len }
}

// Disassemble one machine word into its field of 32 bytes from index `at` on, where that fits; what
// is answered is the length of the text.
pub fn disassemble_into(out: &mut [u8], at: usize, word: u16) -> u8
    ensures { (result ≡ length (disassemble_text word)) × (out.new ≡ written out.old at (padded 32 (disassemble_text word))) }
{
    if !inside(out.len(), at, TEXT_WIDTH) {
        return disassemble(word).len;
    }
    let end = at + TEXT_WIDTH;
    put_disassembly(&mut out[at..end], word, digits_of(word))
}
