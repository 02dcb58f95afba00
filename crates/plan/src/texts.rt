// The texts of the register transfers. Each has a function of its own, as in disasm: a template that
// stands alone is a constant to the compiler.
ghost use Rattle.std.specs.Prelude.{◌≡◌, map};
ghost use Rattle.isa.specs.Text.{ascii, text};
ghost use Rattle.isa.specs.Format.{fill_byte};

use isa::Text;

pub(crate) fn pc_to_mar_text() -> Text
    ensures { result ≡ text (ascii "PC -> MAR") }
{
    Text::from_bytes(b"PC -> MAR")
}

pub(crate) fn memory_to_mdr_text() -> Text
    ensures { result ≡ text (ascii "M[MAR] -> MDR") }
{
    Text::from_bytes(b"M[MAR] -> MDR")
}

pub(crate) fn mdr_to_ir_text() -> Text
    ensures { result ≡ text (ascii "MDR -> IR") }
{
    Text::from_bytes(b"MDR -> IR")
}

pub(crate) fn next_pc_text() -> Text
    ensures { result ≡ text (ascii "PC + 1 -> PC") }
{
    Text::from_bytes(b"PC + 1 -> PC")
}

pub(crate) fn immediate_text(digits: [u8; 4]) -> Text
    ensures { result ≡ text (map (fill_byte digits) (ascii "yz -> Rx")) }
{
    let mut text = *b"yz -> Rx";
    text[0] = digits[2];
    text[1] = digits[3];
    text[7] = digits[1];
    Text::from_bytes(&text)
}

pub(crate) fn register_text(digits: [u8; 4]) -> Text
    ensures { result ≡ text (map (fill_byte digits) (ascii "Rz -> Ry")) }
{
    let mut text = *b"Rz -> Ry";
    text[1] = digits[3];
    text[7] = digits[2];
    Text::from_bytes(&text)
}

pub(crate) fn address_to_mar_text(digits: [u8; 4]) -> Text
    ensures { result ≡ text (map (fill_byte digits) (ascii "yz -> MAR")) }
{
    let mut text = *b"yz -> MAR";
    text[0] = digits[2];
    text[1] = digits[3];
    Text::from_bytes(&text)
}

pub(crate) fn mdr_to_register_text(digits: [u8; 4]) -> Text
    ensures { result ≡ text (map (fill_byte digits) (ascii "MDR -> Rx")) }
{
    let mut text = *b"MDR -> Rx";
    text[8] = digits[1];
    Text::from_bytes(&text)
}

pub(crate) fn register_to_mdr_text(digits: [u8; 4]) -> Text
    ensures { result ≡ text (map (fill_byte digits) (ascii "Rx -> MDR")) }
{
    let mut text = *b"Rx -> MDR";
    text[1] = digits[1];
    Text::from_bytes(&text)
}

pub(crate) fn mdr_to_memory_text() -> Text
    ensures { result ≡ text (ascii "MDR -> M[MAR]") }
{
    Text::from_bytes(b"MDR -> M[MAR]")
}

pub(crate) fn add_text(digits: [u8; 4]) -> Text
    ensures { result ≡ text (map (fill_byte digits) (ascii "Ry + Rz -> Rx")) }
{
    let mut text = *b"Ry + Rz -> Rx";
    text[1] = digits[2];
    text[6] = digits[3];
    text[12] = digits[1];
    Text::from_bytes(&text)
}

pub(crate) fn negate_text(digits: [u8; 4]) -> Text
    ensures { result ≡ text (map (fill_byte digits) (ascii "~Ry + 1 -> Ry")) }
{
    let mut text = *b"~Ry + 1 -> Ry";
    text[2] = digits[2];
    text[12] = digits[2];
    Text::from_bytes(&text)
}

pub(crate) fn shift_right_text(digits: [u8; 4]) -> Text
    ensures { result ≡ text (map (fill_byte digits) (ascii "Rx >> yz -> Rx")) }
{
    let mut text = *b"Rx >> yz -> Rx";
    text[1] = digits[1];
    text[6] = digits[2];
    text[7] = digits[3];
    text[13] = digits[1];
    Text::from_bytes(&text)
}

pub(crate) fn shift_left_text(digits: [u8; 4]) -> Text
    ensures { result ≡ text (map (fill_byte digits) (ascii "Rx << yz -> Rx")) }
{
    let mut text = *b"Rx << yz -> Rx";
    text[1] = digits[1];
    text[6] = digits[2];
    text[7] = digits[3];
    text[13] = digits[1];
    Text::from_bytes(&text)
}

pub(crate) fn and_text(digits: [u8; 4]) -> Text
    ensures { result ≡ text (map (fill_byte digits) (ascii "Ry AND Rz -> Rx")) }
{
    let mut text = *b"Ry AND Rz -> Rx";
    text[1] = digits[2];
    text[8] = digits[3];
    text[14] = digits[1];
    Text::from_bytes(&text)
}

pub(crate) fn or_text(digits: [u8; 4]) -> Text
    ensures { result ≡ text (map (fill_byte digits) (ascii "Ry OR Rz -> Rx")) }
{
    let mut text = *b"Ry OR Rz -> Rx";
    text[1] = digits[2];
    text[7] = digits[3];
    text[13] = digits[1];
    Text::from_bytes(&text)
}

pub(crate) fn xor_text(digits: [u8; 4]) -> Text
    ensures { result ≡ text (map (fill_byte digits) (ascii "Ry XOR Rz -> Rx")) }
{
    let mut text = *b"Ry XOR Rz -> Rx";
    text[1] = digits[2];
    text[8] = digits[3];
    text[14] = digits[1];
    Text::from_bytes(&text)
}

pub(crate) fn jump_text(digits: [u8; 4]) -> Text
    ensures { result ≡ text (map (fill_byte digits) (ascii "if Rx = R0: yz -> PC")) }
{
    let mut text = *b"if Rx = R0: yz -> PC";
    text[4] = digits[1];
    text[12] = digits[2];
    text[13] = digits[3];
    Text::from_bytes(&text)
}

pub(crate) fn untaken_text(digits: [u8; 4]) -> Text
    ensures { result ≡ text (map (fill_byte digits) (ascii "if Rx = R0: yz -> PC (not taken)")) }
{
    let mut text = *b"if Rx = R0: yz -> PC (not taken)";
    text[4] = digits[1];
    text[12] = digits[2];
    text[13] = digits[3];
    Text::from_bytes(&text)
}
