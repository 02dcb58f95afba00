// A line: its label, its instruction, its comment.
ghost use Rattle.std.specs.Prelude.{◌≡◌, ◌<◌, length, IfSome};
ghost use Rattle.assemble.specs.Grammar.{is_name_byte, forms, tried};
ghost use Rattle.assemble.specs.Lines.{read_line, read_body};
ghost use Rattle.assemble.specs.Reading.{Passed, seen, row, row_seen, row_after, colon_key};

use crate::bytes::{is_name_byte, skip};
use crate::forms::instruction;
use crate::labels::label_key;

// A word with the key of its label, and that of the label whose address is added to it; 0 where there is none.
// 0 stays, and no Option: it is `key`'s own number for no label, and a search then asks one thing of each entry.
#[derive(Clone, Copy, Debug, PartialEq, Eq)]
pub struct Entry {
    pub label: u64,
    pub word: u64,
    pub refers: u64,
}

// A line that fits the grammar: one that takes no address, or one with a word.
#[derive(Clone, Copy, Debug, PartialEq, Eq)]
pub enum Row {
    Empty,
    Word(Entry),
}

// The row of an instruction, behind a label or none.
fn word_row(label: u64, s: &[u8]) -> Option<Row>
    ensures { result ≡ row_seen label (seen (tried forms s.now)) }
{
    let read = instruction(s)?;
    Some(Row::Word(Entry {
        label,
        word: read.word,
        refers: read.refers,
    }))
}

// Behind a label's colon.
fn labelled_row(label: u64, s: &[u8]) -> Option<Row>
    ensures { result ≡ row_after label s.now }
{
    if *s.first()? != b' ' {
        return None;
    }
    let start = skip(s, 0, |b| *b != b' ');
    word_row(label, &s[start..])
}

// The key of the label that a line begins with, where its name ends at `end` and a colon stands behind it.
fn colon_label(s: &[u8], end: usize) -> Option<u64>
    requires { Passed is_name_byte s.now 0 end }
    ensures key { result ≡ colon_key s.now }
    ensures inside { IfSome result (λ l. end < length s.now) }
{
    if *s.get(end)? != b':' {
        return None;
    }
    label_key(&s[..end])
}

// A line without its comment and the spaces in front.
fn body_row(s: &[u8]) -> Option<Row>
    ensures { result ≡ row (read_body s.now) }
{
    if s.is_empty() {
        return Some(Row::Empty);
    }
    let end = skip(s, 0, |b| !is_name_byte(*b));
    match colon_label(s, end) {
        Some(label) => labelled_row(label, &s[end + 1..]),
        None => word_row(0, s),
    }
}

// A line, unless it breaks the grammar: its comment is cut off before anything else is tested.
pub(crate) fn line_row(s: &[u8]) -> Option<Row>
    ensures { result ≡ row (read_line s.now) }
{
    let end = skip(s, 0, |b| *b == b';');
    let cut = &s[..end];
    let start = skip(cut, 0, |b| *b != b' ');
    body_row(&cut[start..])
}
