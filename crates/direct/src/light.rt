// Instructions without their records: what is small by value, the arrays lent, the marks beside the words.
ghost use Rattle.std.specs.Prelude.{◌≡◌};
ghost use Rattle.marks.specs.Owners.{hidden_from};
ghost use Rattle.direct.specs.Lane.{came, left, slot_step, slot_next, lasting_of, next_opcode, stretched, stretch};

use crate::table::touch_seen;
use crate::work::{count_whole, read_operands, work_of};
use control::{Address, AluRecord, Counters};
use guard::{Begun, hidden_by, may_go};
use isa::{Instruction, MEMORY_WORDS, Opcode, REGISTER_COUNT};
use marks::{mark_decoded, total_decoded};
use trace::{set_register, set_word};

// What is small of a machine between two instructions, and is not set anew by the next one.
#[derive(Clone, Copy)]
pub struct Lane {
    pub counters: Counters,
    pub touched_len: usize,
    pub alu: Option<AluRecord>,
    pub hidden_total: u16,
    pub pc: u8,
}

// One instruction, by its word and what that decodes to. Each array is lent alone here and below: the machine has them
// as fields of its own, and the compiler keeps apart what is lent apart. It is put in place of each call of `light_known`:
// left to itself the compiler joins these calls, by what else is in the program, and a run takes ten times as long.
#[inline(always)]
fn light_instruction(
    clearance: u8,
    decoded: Option<Opcode>,
    word: u16,
    s: Lane,
    memory: &mut [u16; MEMORY_WORDS],
    registers: &mut [u16; REGISTER_COUNT],
    touched: &mut [Address; MEMORY_WORDS],
    seen: &mut [u8; MEMORY_WORDS],
    marks: &mut [u8; MEMORY_WORDS],
    register_marks: &mut [u8; REGISTER_COUNT],
) -> Lane
    ensures { left result memory registers touched seen marks register_marks
        ≡ slot_step (hidden_from clearance) decoded word (came s memory registers touched seen marks register_marks) }
{
    let hidden_total = total_decoded(
        clearance,
        decoded,
        word,
        s.hidden_total,
        marks,
        register_marks,
    );
    mark_decoded(decoded, word, marks, register_marks);
    let o = read_operands(word, memory, registers);
    let work = work_of(decoded, word, s.pc.wrapping_add(1), s.alu, o);
    set_register(work.write, registers);
    set_word(work.bus, memory);
    let touched_len = touch_seen(work.bus, touched, s.touched_len, seen);
    Lane {
        counters: count_whole(decoded, work.bus, s.counters),
        touched_len,
        alu: work.alu,
        hidden_total,
        pc: work.pc,
    }
}

// The same, with a call for each opcode: the compiler then makes code for each, and asks for the opcode once. HALT
// never passes.
fn light_known(
    clearance: u8,
    opcode: Opcode,
    word: u16,
    s: Lane,
    memory: &mut [u16; MEMORY_WORDS],
    registers: &mut [u16; REGISTER_COUNT],
    touched: &mut [Address; MEMORY_WORDS],
    seen: &mut [u8; MEMORY_WORDS],
    marks: &mut [u8; MEMORY_WORDS],
    register_marks: &mut [u8; REGISTER_COUNT],
) -> Lane
    ensures { left result memory registers touched seen marks register_marks
        ≡ slot_next (hidden_from clearance) opcode word (came s memory registers touched seen marks register_marks) }
{
    macro_rules! made {
        ($opcode:ident) => {
            light_instruction(
                clearance,
                Some(Opcode::$opcode),
                word,
                s,
                memory,
                registers,
                touched,
                seen,
                marks,
                register_marks,
            )
        };
    }
    match opcode {
        Opcode::LoadImmediate => made!(LoadImmediate),
        Opcode::LoadRegister => made!(LoadRegister),
        Opcode::LoadMemory => made!(LoadMemory),
        Opcode::StoreMemory => made!(StoreMemory),
        Opcode::Add => made!(Add),
        Opcode::Negate => made!(Negate),
        Opcode::ShiftRight => made!(ShiftRight),
        Opcode::ShiftLeft => made!(ShiftLeft),
        Opcode::And => made!(And),
        Opcode::Or => made!(Or),
        Opcode::Xor => made!(Xor),
        Opcode::Jump => made!(Jump),
        Opcode::Halt => s,
    }
}

// How many instructions were made, and what is small after them.
#[derive(Drop)]
pub struct Made {
    pub lane: Lane,
    pub made: Begun,
}

// What a word decodes to where the run goes on behind it: HALT ends a run, as a word without an opcode does.
// Tried with one row for all but HALT: a run of stores then takes 50 of the processor's instructions for each of ours, not 36.
fn lasting(decoded: Option<Opcode>) -> Option<Opcode>
    ensures { result ≡ lasting_of decoded }
{
    let Some(opcode) = decoded else {
        return None;
    };
    match opcode {
        Opcode::LoadImmediate => Some(Opcode::LoadImmediate),
        Opcode::LoadRegister => Some(Opcode::LoadRegister),
        Opcode::LoadMemory => Some(Opcode::LoadMemory),
        Opcode::StoreMemory => Some(Opcode::StoreMemory),
        Opcode::Add => Some(Opcode::Add),
        Opcode::Negate => Some(Opcode::Negate),
        Opcode::ShiftRight => Some(Opcode::ShiftRight),
        Opcode::ShiftLeft => Some(Opcode::ShiftLeft),
        Opcode::And => Some(Opcode::And),
        Opcode::Or => Some(Opcode::Or),
        Opcode::Xor => Some(Opcode::Xor),
        Opcode::Jump => Some(Opcode::Jump),
        Opcode::Halt => None,
    }
}

// The opcode of the next instruction, where it passes and the run goes on behind it: by the table of breakpoints at
// its address, its mark, the word. A hidden jump is asked for behind the opcode, so that no other instruction is.
#[tactic(auto, using(isa::proofs::Words::read_off))]
fn next_opcode(
    clearance: u8,
    break_here: u8,
    mark_here: u8,
    word: u16,
    register_marks: &[u8; REGISTER_COUNT],
) -> Option<Opcode>
    ensures { result ≡ next_opcode (hidden_from clearance) break_here mark_here word register_marks.now }
{
    if !may_go(clearance, true, break_here, mark_here) {
        return None;
    }
    let found = Instruction::from_word(word).opcode();
    if hidden_by(clearance, found, word, register_marks) {
        return None;
    }
    lasting(found)
}

// Instructions as long as they pass and run on, at most `limit`; `breaks` is the table of breakpoints.
#[tactic(auto, using(crate::proofs::Stretches::stretch_turn, crate::proofs::Stretches::stretch_over))]
pub(crate) fn light_stretch(
    clearance: u8,
    from: Lane,
    limit: Begun,
    breaks: &[u8; MEMORY_WORDS],
    memory: &mut [u16; MEMORY_WORDS],
    registers: &mut [u16; REGISTER_COUNT],
    touched: &mut [Address; MEMORY_WORDS],
    seen: &mut [u8; MEMORY_WORDS],
    marks: &mut [u8; MEMORY_WORDS],
    register_marks: &mut [u8; REGISTER_COUNT],
) -> Made
    ensures { stretched result.made.0 (left result.lane memory registers touched seen marks register_marks)
        ≡ stretch (hidden_from clearance) breaks.now limit.0 0 (came from memory registers touched seen marks register_marks) }
{
    let mut s = from;
    for made in 0..limit.0 {
        let at = s.pc as usize;
        let word = memory[at];
        let Some(opcode) = next_opcode(clearance, breaks[at], marks[at], word, register_marks)
        else {
            return Made {
                lane: s,
                made: Begun(made),
            };
        };
        s = light_known(
            clearance,
            opcode,
            word,
            s,
            memory,
            registers,
            touched,
            seen,
            marks,
            register_marks,
        );
    }
    Made {
        lane: s,
        made: limit,
    }
}
