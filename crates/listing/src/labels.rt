// Which addresses of an image have a label: 0, and those that its instructions refer to.
ghost use Rattle.std.specs.Prelude.{◌≡◌, true, false, cond, ℕ, ◌<◌, length, get_or, set};
ghost use Rattle.isa.specs.Text.{text};
ghost use Rattle.isa.specs.Word.{byte_yz, decode_word};
ghost use Rattle.listing.specs.Listing.{listing_words, reference_of, refers, labelled, label_text};

use crate::LISTING_WORDS;
use isa::{Instruction, Opcode, Text, format};

// How an instruction refers to the address in its last two digits.
#[derive(Clone, Copy, Debug, PartialEq, Eq)]
pub enum Reference {
    Loads,
    Stores,
    Jumps,
}

// By what its word decodes to, if it does.
pub(crate) fn reference_of(decoded: Option<Opcode>) -> Option<Reference>
    ensures { result ≡ reference_of decoded }
{
    match decoded? {
        Opcode::LoadMemory => Some(Reference::Loads),
        Opcode::StoreMemory => Some(Reference::Stores),
        Opcode::Jump => Some(Reference::Jumps),
        _ => None,
    }
}

// Notes the address that a word refers to.
fn note(table: &mut [bool; LISTING_WORDS], word: u16)
    requires { length table.old ≡ listing_words }
    ensures { table.new ≡ cond (refers (decode_word word)) (set table.old (byte_yz word) true) table.old }
{
    let i = Instruction::from_word(word);
    if reference_of(i.opcode()).is_some() {
        table[i.yz() as usize] = true;
    }
}

// For each address whether it has a label: one pass over the words, not one for each line.
pub(crate) fn labels(words: &[u16]) -> [bool; LISTING_WORDS]
    ensures { (a : ℕ) → a < listing_words → get_or result a false ≡ labelled words.now a }
{
    let mut table = [false; LISTING_WORDS];
    table[0] = true;
    for &word in words {
        note(&mut table, word);
    }
    table
}

// A label, or nothing.
pub(crate) fn label_text(on: bool, address: u8) -> Text
    ensures { result ≡ text (label_text on address) }
{
    if on {
        format(b"Lyz:", address as u16)
    } else {
        Text::from_bytes(b"")
    }
}
