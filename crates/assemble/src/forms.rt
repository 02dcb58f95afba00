// An instruction: a text read by the forms of the grammar.
ghost use Rattle.std.specs.Prelude.{◌≡◌, map, ◌≤◌, ◌<◌, length};
ghost use Rattle.assemble.specs.Grammar.{token, letter, blank, digit, name, forms, form_at, tried};
ghost use Rattle.assemble.specs.Reading.{seen, keyed, Next};

use crate::bytes::{digit_in, is_name_byte, skip};
use crate::labels::label_key;

// What is read by a form: the word, and the key of the label that it refers to, 0 for none.
#[derive(Clone, Copy, Debug, PartialEq, Eq)]
pub struct Seen {
    pub word: u64,
    pub refers: u64,
}

// Where the reading by a form has come to.
#[derive(Clone, Copy, Debug, PartialEq, Eq)]
pub struct Spot {
    pub at: usize,
    pub word: u64,
    pub refers: u64,
}

// One token of a form, read at a spot: where the reading comes to, if the token is there. A letter stands
// for itself.
fn step_letter(c: u8, s: &[u8], spot: Spot) -> Option<Spot>
    requires { spot.at ≤ length s.now }
    ensures { Next (letter c) s.now spot result }
{
    if *s.get(spot.at)? != c {
        return None;
    }
    Some(Spot {
        at: spot.at + 1,
        ..spot
    })
}

// One space or more.
fn step_blank(s: &[u8], spot: Spot) -> Option<Spot>
    requires { spot.at ≤ length s.now }
    ensures { Next blank s.now spot result }
{
    if *s.get(spot.at)? != b' ' {
        return None;
    }
    let end = skip(s, spot.at + 1, |b| *b != b' ');
    Some(Spot { at: end, ..spot })
}

// A digit, which counts `m` in the word. The word has room for more digits than any form has.
fn step_digit(m: u64, s: &[u8], spot: Spot) -> Option<Spot>
    requires { (spot.at ≤ length s.now) × (m ≤ 4096) × (spot.word < 16777216) }
    ensures { Next (digit m) s.now spot result }
{
    let d = digit_in(*s.get(spot.at)?)?;
    Some(Spot {
        at: spot.at + 1,
        word: spot.word + m * d as u64,
        ..spot
    })
}

// A label.
fn step_name(s: &[u8], spot: Spot) -> Option<Spot>
    requires { spot.at ≤ length s.now }
    ensures { Next name s.now spot result }
{
    let end = skip(s, spot.at, |b| !is_name_byte(*b));
    let key = label_key(&s[spot.at..end])?;
    Some(Spot {
        at: end,
        refers: key,
        ..spot
    })
}

// One byte of a form.
fn step(b: u8, s: &[u8], spot: Spot) -> Option<Spot>
    requires { (spot.at ≤ length s.now) × (spot.word < 16777216) }
    ensures { Next (token b) s.now spot result }
{
    match b {
        b' ' => step_blank(s, spot),
        b'@' => step_name(s, spot),
        b'W' => step_digit(4096, s, spot),
        b'x' => step_digit(256, s, spot),
        b'y' => step_digit(16, s, spot),
        b'z' => step_digit(1, s, spot),
        _ => step_letter(b, s, spot),
    }
}

// A text read by a form.
fn scan(pattern: &[u8], base: u64, s: &[u8]) -> Option<Seen>
    requires { (length pattern.now ≤ 32) × (base < 65536) }
    ensures { result ≡ keyed (map token pattern.now) base 0 s.now }
{
    let mut spot = Spot {
        at: 0,
        word: base,
        refers: 0,
    };
    for &b in pattern {
        spot = step(b, s, spot)?;
    }
    let end = skip(s, spot.at, |b| *b != b' ');
    if end < s.len() {
        return None;
    }
    Some(Seen {
        word: spot.word,
        refers: spot.refers,
    })
}

// A text read by the form of this number. A table of patterns and bases would have the same seventeen rows, and its
// patterns would need a length beside them.
fn by_form(f: usize, s: &[u8]) -> Option<Seen>
    requires { f < 17 }
    ensures { result ≡ keyed (form_at forms f).pattern (form_at forms f).base 0 s.now }
{
    match f {
        0 => scan(b"LOAD Rx, yz", 0x1000, s),
        1 => scan(b"LOAD Ry, Rz", 0x2000, s),
        2 => scan(b"LOAD Rx, [yz]", 0x3000, s),
        3 => scan(b"LOAD Rx, [@]", 0x3000, s),
        4 => scan(b"STORE Rx, [yz]", 0x4000, s),
        5 => scan(b"STORE Rx, [@]", 0x4000, s),
        6 => scan(b"Rx = Ry + Rz", 0x6000, s),
        7 => scan(b"NEGATE Ry", 0x7000, s),
        8 => scan(b"SHIFT Rx RIGHT yz", 0x8000, s),
        9 => scan(b"SHIFT Rx LEFT yz", 0x9000, s),
        10 => scan(b"Rx = Ry AND Rz", 0xA000, s),
        11 => scan(b"Rx = Ry OR Rz", 0xB000, s),
        12 => scan(b"Rx = Ry XOR Rz", 0xC000, s),
        13 => scan(b"JUMP [yz] IF Rx=R0", 0xD000, s),
        14 => scan(b"JUMP [@] IF Rx=R0", 0xD000, s),
        15 => scan(b"HALT", 0xE000, s),
        _ => scan(b".word Wxyz", 0, s),
    }
}

// How many forms there are, and the first byte of each: those that begin with another byte need not be
// tried.
const FORMS: usize = 17;

const HEADS: [u8; FORMS] = *b"LLLLSSRNSSRRRJJH.";

// A text read by the first of the forms that fits.
pub(crate) fn instruction(s: &[u8]) -> Option<Seen>
    ensures { result ≡ seen (tried forms s.now) }
{
    let head = *s.first()?;
    for (f, &first) in HEADS.iter().enumerate() {
        if first == head {
            let read = by_form(f, s);
            if read.is_some() {
                return read;
            }
        }
    }
    None
}
