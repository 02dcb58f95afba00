// Words, bytes and registers as texts. Texts with a word's digits in them are made from templates.
ghost use Rattle.std.specs.Prelude.{◌≡◌, take};
ghost use Rattle.isa.specs.Text.{text};
ghost use Rattle.isa.specs.Format.{hex2, hex4, fill_byte, fill, register_name};

use crate::TEXT_WIDTH;
use crate::table::digit_pair;
use crate::text::Text;

// The four digits of a word: the pairs of its two bytes, the low one first. A loop, so that the table is read in
// one place of the code: with a call for each byte a disassembly takes a seventh longer.
pub fn digits_of(word: u16) -> [u8; 4]
    ensures { result ≡ hex4 word }
{
    let mut digits = [0u8; 4];
    let mut rest = word;
    let mut left = 2;
    while 0 < left {
        left -= 1;
        let pair = digit_pair((rest % 256) as u8);
        digits[2 * left] = (pair / 256) as u8;
        digits[2 * left + 1] = (pair % 256) as u8;
        rest = rest / 256;
    }
    digits
}

// What stands in a text for a byte of its template: for W, x, y and z the word's digits.
fn filled(digits: [u8; 4], b: u8) -> u8
    ensures { result ≡ fill_byte digits b }
{
    match b {
        b'W' => digits[0],
        b'x' => digits[1],
        b'y' => digits[2],
        b'z' => digits[3],
        _ => b,
    }
}

// The template's first 32 bytes, with the word's digits for W, x, y and z. Capital W, since ".word"
// is a text.
pub fn format(template: &[u8], word: u16) -> Text
    ensures { result ≡ text (take 32 (fill word template.now)) }
{
    let digits = digits_of(word);
    let n = template.len().min(TEXT_WIDTH);
    let mut bytes = [0u8; TEXT_WIDTH];
    for i in 0..n {
        bytes[i] = filled(digits, template[i]);
    }
    Text {
        bytes,
        len: n as u8,
    }
}

// Format a 16-bit machine word as four uppercase hexadecimal digits.
pub fn format_word(word: u16) -> Text
    ensures { result ≡ text (hex4 word) }
{
    let digits = digits_of(word);
    Text::from_bytes(&digits)
}

// Format a byte as two uppercase hexadecimal digits.
#[tactic(auto, unfolding(crate::specs::Format::fill))]
pub fn format_byte(value: u8) -> Text
    ensures { result ≡ text (hex2 value) }
{
    format(b"yz", value as u16)
}

// The name of a register: R0, R1, .. RA, RF.
#[tactic(auto, unfolding(crate::specs::Format::fill))]
pub fn register_name(index: u8) -> Text
    ensures { result ≡ text (register_name index) }
{
    format(b"Rz", index as u16)
}
