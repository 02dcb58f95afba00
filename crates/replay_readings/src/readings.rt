// Records of kind 'R': an image, so many ticks of a new machine with it, and what every reading then
// answers.
ghost use Rattle.std.specs.Prelude.{◌≤◌, IfOk};

use answer::first;
use encoding::{Refusal, get_number, get_words, put_bytes, put_number, put_words};
use isa::MEMORY_WORDS;
use replay::{byte_at, word_at};
use vm::Machine;

// The most ticks that a record may ask for, so that it is soon replayed.
const TICKS: u64 = 65535;

// More words than a record has room for.
const WORDS: usize = 32768;

// The longest answers: those of an image of 256 words.
const ANSWERS: usize = 573;

// A new machine with the image, after so many ticks.
fn ticked(image: &[u16], ticks: u64) -> Result<Machine, Refusal> {
    let mut m = Machine::new();
    m.load_image(image)?;
    for _ in 0..ticks {
        let _op = m.micro_step()?;
    }
    Ok(m)
}

// Puts what every reading answers, and tells how many bytes that are.
fn put_answers(out: &mut [u8], m: &Machine, address: u8) -> Result<usize, Refusal>
    ensures { IfOk result (λ n. n ≤ 573) }
{
    let image = m.image()?.words;
    let at = 16 + 2 * image.len().min(MEMORY_WORDS);
    let position = m.transfer_position()?;
    put_number(out, 0, 8, m.image_len()? as u64);
    put_number(out, 8, 8, image.len() as u64);
    put_words(out, 16, image);
    put_number(out, at, 1, m.is_running()? as u64);
    put_number(out, at + 1, 2, m.current_instruction()?.word() as u64);
    put_bytes(out, at + 3, &m.disassemble_at(address)?.bytes);
    put_bytes(out, at + 35, &position.map_or([0, 0], |byte| [1, byte]));
    put_number(out, at + 37, 8, m.history_len()? as u64);
    Ok(at + 45)
}

// The answers to a record's question; none where a call was refused.
fn answered(out: &mut [u8], image: &[u16], ticks: u64, address: u8) -> Result<usize, Refusal> {
    let m = ticked(image, ticks)?;
    put_answers(out, &m, address)
}

// Whether the answers at the record's end are those of its machine.
pub(crate) fn passes(record: &[u8]) -> bool {
    let count = word_at(record, 1) as usize;
    let from = 8 + 2 * count;
    let ticks = get_number(record, from - 5, 4);
    if record.len() < from || WORDS < count || TICKS < ticks {
        return false;
    }
    let mut words = [0u16; WORDS];
    let image = &mut words[..count];
    get_words(record, 3, image);
    let mut due = [0u8; ANSWERS];
    let size = answered(&mut due, image, ticks, byte_at(record, from - 1)).unwrap_or(0);
    &record[from..] == first(&due, size)
}
