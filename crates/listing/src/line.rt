// A line of 45 bytes for each word of an image: label, text, address and word.
ghost use Rattle.std.specs.Prelude.{◌≡◌, ◌+◌, ◌*◌, ◌≤◌, length};
ghost use Rattle.isa.specs.Text.{text, text_of, spaced};
ghost use Rattle.encoding.specs.Bytes.{over, each_from};
ghost use Rattle.listing.specs.Listing.{listing_words, listing_text, other_text, line_front, line_back, line, line_of};

use crate::labels::{Reference, label_text, labels, reference_of};
use disasm::disassemble;
use encoding::put_bytes;
use isa::{Instruction, Text, digits_of, format};

// The text of a word that refers to no address. A loose word is data: its instruction alone would be
// assembled to another word.
fn other_text(word: u16) -> Text
    ensures { result ≡ text (other_text word) }
{
    match Instruction::from_word(word).opcode() {
        Some(opcode) if opcode.unused(word) == 0 => disassemble(word),
        _ => format(b".word Wxyz", word),
    }
}

// The text of a word in an image of `count` words.
fn listing_text(word: u16, count: usize) -> Text
    ensures { result ≡ text (listing_text count word) }
{
    let i = Instruction::from_word(word);
    let inside = (i.yz() as usize) < count;
    let Some(reference) = reference_of(i.opcode()) else {
        return other_text(word);
    };
    match reference {
        Reference::Loads => {
            if inside {
                format(b"LOAD  Rx, [Lyz]", word)
            } else {
                format(b"LOAD  Rx, [yz]", word)
            }
        }
        Reference::Stores => {
            if inside {
                format(b"STORE Rx, [Lyz]", word)
            } else {
                format(b"STORE Rx, [yz]", word)
            }
        }
        Reference::Jumps => {
            if inside {
                format(b"JUMP  [Lyz] IF Rx=R0", word)
            } else {
                format(b"JUMP  [yz] IF Rx=R0", word)
            }
        }
    }
}

// A text from index `at` on, and spaces behind it to the column's width.
fn put_column(out: &mut [u8], at: usize, width: usize, t: Text)
    requires { (t.len ≤ width) × (width ≤ 26) × (at + width ≤ length out.old) }
    ensures { out.new ≡ over out.old at (spaced width (text_of t)) }
{
    let n = t.len as usize;
    let bytes = t.bytes;
    put_bytes(out, at, &bytes[..n]);
    let spaces = [b' '; 26];
    let rest = width - n;
    put_bytes(out, at + n, &spaces[..rest]);
}

// Label and text: the first 34 bytes of a line.
fn put_front(out: &mut [u8], at: usize, count: usize, on: bool, address: u8, word: u16)
    requires { at + 34 ≤ length out.old }
    ensures { out.new ≡ over out.old at (line_front count on address word) }
{
    put_column(out, at, 8, label_text(on, address));
    put_column(out, at + 8, 26, listing_text(word, count));
}

// Address and word: the last 11 bytes of a line. Their digits are set into the text's template at known
// places: by `format`, byte for byte, a listing takes near twice as long.
fn put_back(out: &mut [u8], at: usize, address: u8, word: u16)
    requires { at + 11 ≤ length out.old }
    ensures { out.new ≡ over out.old at (line_back address word) }
{
    let place = digits_of(address as u16);
    let digits = digits_of(word);
    let mut back = *b"; yz  Wxyz\n";
    back[2..4].copy_from_slice(&place[2..]);
    back[6..10].copy_from_slice(&digits);
    put_bytes(out, at, &back);
}

// A line for each word, from index `at` on.
pub(crate) fn put_lines(out: &mut [u8], at: usize, words: &[u16])
    requires { (at + 45 * length words.now ≤ length out.old) × (length words.now ≤ listing_words) }
    ensures { out.new ≡ over out.old at (each_from (line_of words.now) 0 (length words.now)) }
{
    let table = labels(words);
    for (i, &word) in words.iter().enumerate() {
        put_line(out, at + 45 * i, words.len(), table[i], i as u8, word);
    }
}

fn put_line(out: &mut [u8], at: usize, count: usize, on: bool, address: u8, word: u16)
    requires { at + 45 ≤ length out.old }
    ensures { out.new ≡ over out.old at (line count on address word) }
{
    put_front(out, at, count, on, address, word);
    put_back(out, at + 34, address, word);
}
