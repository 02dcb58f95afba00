// Marks: the owners of words and registers, how an instruction moves them, and how many words are hidden from a reader.
// A mark is a byte of eight owners; 0 is open.
#![tactic(auto)]

ghost use Rattle.std.specs.Prelude.{◌≡◌};
ghost use Rattle.isa.specs.Word.{decode_word};
ghost use Rattle.marks.specs.Owners.{joined, hidden_from};
ghost use Rattle.marks.specs.Marks.{marks_of, shown, same_sources, shifts_out, executed_marks, instruction_marks};
ghost use Rattle.marks.specs.Total.{hidden, hidden_count};
ghost use Rattle.marks.specs.Forms.{one_mark, clearing, all_marks, moves, opened_x, retotalled, total_by};

use control::reached_address;
use isa::{Instruction, MEMORY_WORDS, Opcode, REGISTER_COUNT, WORD_BITS};

#[derive(Drop)]
pub struct Marks {
    pub memory: [u8; MEMORY_WORDS],
    pub registers: [u8; REGISTER_COUNT],
    pub mdr: u8,
}

// The marks that an instruction leaves: of register y or x, of the word that LOAD or STORE would reach, of MDR.
// Where it moves none, a mark is its own again: so every instruction is made alike. Where it clears register x, that is
// then opened.
#[derive(Drop)]
pub struct Moved {
    pub to_y: bool,
    pub register: u8,
    pub word: u8,
    pub mdr: u8,
    pub cleared: bool,
}

// All eight owners: nothing is hidden from this clearance.
pub const EVERYONE: u8 = 255;

// Whether a value with these owners is hidden from a reader with this clearance: one of them is outside it. What hides
// is asked here and nowhere else. The compiler takes what is outside once for a whole run (docs/BENCHMARKS.md).
#[tactic(auto, using(crate::proofs::Owners::outside_none))]
pub fn is_hidden(clearance: u8, owners: u8) -> bool
    ensures { result ≡ hidden_from clearance owners }
{
    owners & (EVERYONE - clearance) != 0
}

// The value that a report shows: 0 for one that is hidden.
#[tactic(auto, unfolding(crate::specs::Marks::shown))]
pub fn shown_value(clearance: u8, mark: u8, value: u16) -> u16
    ensures { result ≡ shown (hidden_from clearance) mark value }
{
    if is_hidden(clearance, mark) { 0 } else { value }
}

// The owners of what comes from two sources.
fn join(a: u8, b: u8) -> u8
    ensures { result ≡ joined a b }
{
    a | b
}

// Where a register alone gets a mark: the word keeps its own, and the fetch has opened MDR.
fn one_mark(to_y: bool, register: u8, word: u8) -> Moved
    ensures { result ≡ one_mark to_y register word }
{
    Moved {
        to_y,
        register,
        word,
        mdr: 0,
        cleared: false,
    }
}

// The same of an instruction that may clear register x.
fn clearing_mark(cleared: bool, register: u8, word: u8) -> Moved
    ensures { result ≡ clearing cleared register word }
{
    Moved {
        cleared,
        ..one_mark(false, register, word)
    }
}

// Where register x, the word and MDR have the same mark then: LOAD [yz] and STORE.
fn all_marks(mark: u8) -> Moved
    ensures { result ≡ all_marks mark }
{
    Moved {
        mdr: mark,
        ..one_mark(false, mark, mark)
    }
}

// Whether XOR has one register for both sources, so that it gives 0 whatever that holds.
fn has_same_sources(word: u16) -> bool
    ensures { result ≡ same_sources word }
{
    word / 16 % 16 == word % 16
}

// Whether a shift moves every bit out, so that it gives 0 whatever its register holds.
fn shifts_out(word: u16) -> bool
    ensures { result ≡ shifts_out word }
{
    WORD_BITS <= (word % 256) as u32
}

// From the instruction, and the marks of x, y, z, of y and z joined, and of the word that LOAD or STORE reaches. They are
// no struct: its one caller has read them from where they stand, and would make one for this call alone.
fn moves_of(decoded: Option<Opcode>, word: u16, x: u8, y: u8, z: u8, both: u8, cell: u8) -> Moved
    ensures { result ≡ moves decoded word x y z both cell }
{
    match decoded {
        Some(Opcode::LoadImmediate) => one_mark(false, 0, cell),
        Some(Opcode::LoadRegister) => one_mark(true, z, cell),
        Some(Opcode::LoadMemory) => all_marks(cell),
        Some(Opcode::StoreMemory) => all_marks(x),
        Some(Opcode::Add | Opcode::And | Opcode::Or) => one_mark(false, both, cell),
        Some(Opcode::Negate) => one_mark(true, y, cell),
        Some(Opcode::ShiftRight | Opcode::ShiftLeft) => clearing_mark(shifts_out(word), x, cell),
        Some(Opcode::Xor) => clearing_mark(has_same_sources(word), both, cell),
        Some(Opcode::Jump | Opcode::Halt) | None => one_mark(false, x, cell),
    }
}

// A cleared register x is open. This is a store of its own: with a choice between two marks in its place, the
// compiler made longer code for STORE (docs/BENCHMARKS.md).
fn open_cleared(cleared: bool, word: u16, registers: &mut [u8; REGISTER_COUNT])
    ensures { registers.new ≡ opened_x cleared word registers.old }
{
    if cleared {
        let x = (word / 256 % 16) as usize;
        registers[x] = 0;
    }
}

// What a whole instruction does to the marks, by the opcode that its word has; it answers MDR's.
pub fn mark_decoded(
    decoded: Option<Opcode>,
    word: u16,
    memory: &mut [u8; MEMORY_WORDS],
    registers: &mut [u8; REGISTER_COUNT],
) -> u8
    ensures { marks_of memory.new registers.new result
        ≡ executed_marks decoded word (marks_of memory.old registers.old 0) }
{
    let x = (word / 256 % 16) as usize;
    let y = (word / 16 % 16) as usize;
    let z = (word % 16) as usize;
    let at = reached_address(word) as usize;
    let second = registers[y];
    let third = registers[z];
    let both = join(second, third);
    let m = moves_of(decoded, word, registers[x], second, third, both, memory[at]);
    let to = if m.to_y { y } else { x };
    registers[to] = m.register;
    memory[at] = m.word;
    open_cleared(m.cleared, word, registers);
    m.mdr
}

// The same of a word.
#[tactic(auto, unfolding(crate::specs::Marks::instruction_marks))]
pub fn mark_instruction(
    word: u16,
    memory: &mut [u8; MEMORY_WORDS],
    registers: &mut [u8; REGISTER_COUNT],
) -> u8
    ensures { marks_of memory.new registers.new result
        ≡ instruction_marks word (marks_of memory.old registers.old 0) }
{
    mark_decoded(
        Instruction::from_word(word).opcode(),
        word,
        memory,
        registers,
    )
}

// How many totals there are.
const TOTALS: u32 = 65536;

// 1 for a mark that hides.
fn one(clearance: u8, mark: u8) -> u32
    ensures { result ≡ hidden (hidden_from clearance) mark }
{
    u32::from(is_hidden(clearance, mark))
}

// How many of the marks hide. It is asked once, where a run begins.
#[tactic(auto, using(crate::proofs::Totals::counted))]
pub fn count_hidden(clearance: u8, marks: &[u8]) -> usize
    ensures { result ≡ hidden_count (hidden_from clearance) marks.now }
{
    marks
        .iter()
        .filter(|mark| is_hidden(clearance, **mark))
        .count()
}

// A total with one word's mark changed: mostly it is the same again. It goes around at its end, where no count comes: a
// test for that would cost more than all else here (docs/BENCHMARKS.md).
fn retotal(clearance: u8, total: u16, old: u8, new: u8) -> u16
    ensures { result ≡ retotalled (hidden_from clearance) total old new }
{
    if old == new {
        return total;
    }
    let more = one(clearance, new);
    let less = one(clearance, old);
    ((total as u32 + TOTALS + more - less) % TOTALS) as u16
}

// The total of hidden words after a whole instruction, from the marks before it, by the opcode that its word has.
pub fn total_decoded(
    clearance: u8,
    decoded: Option<Opcode>,
    word: u16,
    total: u16,
    memory: &[u8; MEMORY_WORDS],
    registers: &[u8; REGISTER_COUNT],
) -> u16
    ensures { result ≡ total_by (hidden_from clearance) decoded word memory.now registers.now total }
{
    let Some(Opcode::StoreMemory) = decoded else {
        return total;
    };
    let x = (word / 256 % 16) as usize;
    let at = reached_address(word) as usize;
    retotal(clearance, total, memory[at], registers[x])
}

// The same of a word.
pub fn total_instruction(
    clearance: u8,
    word: u16,
    total: u16,
    memory: &[u8; MEMORY_WORDS],
    registers: &[u8; REGISTER_COUNT],
) -> u16
    ensures { result
        ≡ total_by (hidden_from clearance) (decode_word word) word memory.now registers.now total }
{
    total_decoded(
        clearance,
        Instruction::from_word(word).opcode(),
        word,
        total,
        memory,
        registers,
    )
}
