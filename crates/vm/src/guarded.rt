// The guarded run: a run of a new machine that stops before it would show what is hidden. The plain
// machine does not see the marks; they move beside it, once for each instruction, and with them the total of hidden
// words, which is counted once. Hidden is what the reader's clearance does not cover.
ghost use Rattle.std.specs.Prelude.{◌≡◌, true, IfOk};
ghost use Rattle.marks.specs.Owners.{hidden_from};
ghost use Rattle.marks.specs.Total.{IsCount};
ghost use Rattle.guard.specs.Input.{input_from};
ghost use Rattle.vm.specs.Guard.{guarded_run};
ghost use Rattle.vm.specs.Forms.{Fit, given, came, left, guarded_on, end_on};
ghost use Rattle.vm.specs.Guard.{guarded_answer_of, guarded_answer};
ghost use Rattle.vm.specs.Calls.{is_machine};

use crate::engine::{forward_parts, next_parts};
use crate::machine::{Machine, first_words, image_size, switched_on};
use crate::parts::Core;
use crate::run::closed_core;
use control::Address;
use encoding::Refusal;
use guard::{Begun, GuardedStop, guard_refusal, judge};
use isa::{MEMORY_WORDS, REGISTER_COUNT};
use marks::{Marks, count_hidden, mark_instruction, total_instruction};
use trace::{COLUMNS_LENGTH, TRACE_LIMIT};

#[derive(Drop)]
pub struct GuardedCore {
    pub core: Core,
    pub stop: GuardedStop,
    pub executed: Begun,
    pub hidden_total: u16,
    pub mdr_mark: u8,
}

// The run of a machine whose MDR is open: as `run_parts`, with marks and the total of those that hide a word from the
// reader.
fn guarded_parts(
    clearance: u8,
    from: Core,
    budget: Begun,
    hidden_total: u16,
    breakpoints: &[u8],
    marks: &mut [u8; MEMORY_WORDS],
    register_marks: &mut [u8; REGISTER_COUNT],
    memory: &mut [u16; MEMORY_WORDS],
    registers: &mut [u16; REGISTER_COUNT],
    touched: &mut [Address; MEMORY_WORDS],
    columns: &mut [u8; COLUMNS_LENGTH],
    numbers: &mut [u64; TRACE_LIMIT],
    lengths: &mut [u8; TRACE_LIMIT],
) -> GuardedCore
    requires { Fit (given from memory registers touched columns numbers lengths)
        × IsCount (hidden_from clearance) marks.old hidden_total }
    ensures { let was = came from memory registers touched columns numbers lengths in
        let is = left result.core memory registers touched columns numbers lengths in
        (end_on result (guarded_on is marks.new register_marks.new result.mdr_mark)
        ≡ guarded_run (hidden_from clearance) breakpoints.now 0 budget.0
        (guarded_on was marks.old register_marks.old 0))
        × Fit is × IsCount (hidden_from clearance) marks.new result.hidden_total }
{
    let mut s = from;
    let limit = budget.0;
    let mut begun: u64 = 0;
    let mut total = hidden_total;
    let mut mdr: u8 = 0;
    // No `for`: how many instructions a turn makes is known behind it alone.
    loop {
        let state = s.state;
        let pc = state.control.pc as usize;
        let word = memory[pc];
        let mark = marks[pc];
        let verdict = judge(
            clearance,
            state,
            breakpoints,
            Begun(begun),
            Begun(limit),
            word,
            mark,
            register_marks,
        );
        if let Some(stop) = verdict {
            let core = closed_core(stop.number(), s);
            return GuardedCore {
                core,
                stop,
                executed: Begun(begun),
                hidden_total: total,
                mdr_mark: mdr,
            };
        }
        let sum = total_instruction(clearance, word, total, marks, register_marks);
        let opened = mark_instruction(word, marks, register_marks);
        let t = next_parts(
            true, s, memory, registers, touched, columns, numbers, lengths,
        );
        let next = t.core;
        begun += 1;
        let f = forward_parts(
            clearance,
            next,
            Begun(begun),
            Begun(limit),
            sum,
            breakpoints,
            memory,
            registers,
            touched,
            marks,
            register_marks,
        );
        let core = f.core;
        s = core;
        total = f.hidden_total;
        mdr = opened;
        begun += f.made.0;
    }
}

// A run that was served. `hidden_total` words are hidden from the reader at the stop.
#[derive(Drop)]
pub struct GuardedRun {
    pub machine: Machine,
    pub marks: Marks,
    pub stop: GuardedStop,
    pub executed: Begun,
    pub hidden_total: u16,
}

// Load an image on a new machine, and run it until a stop, for a reader with this clearance; `marks` are the owners of
// the words of its memory.
pub fn guarded_run(
    image: &[u16],
    marks: &[u8],
    budget: Begun,
    breakpoints: &[u8],
    clearance: u8,
) -> Result<GuardedRun, Refusal>
    ensures answer { guarded_answer_of result
        ≡ guarded_answer (input_from image.now marks.now budget.0 breakpoints.now clearance) }
    ensures machine { IfOk result (λ r. is_machine r.machine ≡ true) }
{
    guard_refusal(image, marks, budget, breakpoints)?;
    let words = first_words(image, 0);
    let size = image_size(image.len());
    let mut machine = switched_on(words, size, 0);
    let mut word_marks = first_words(marks, 0);
    let mut register_marks = [0u8; REGISTER_COUNT];
    let hidden_total = count_hidden(clearance, marks) as u16;
    let r = guarded_parts(
        clearance,
        machine.core(),
        budget,
        hidden_total,
        breakpoints,
        &mut word_marks,
        &mut register_marks,
        &mut machine.memory,
        &mut machine.registers,
        &mut machine.touched,
        &mut machine.columns,
        &mut machine.numbers,
        &mut machine.lengths,
    );
    machine.set_core(r.core);
    let marks = Marks {
        memory: word_marks,
        registers: register_marks,
        mdr: r.mdr_mark,
    };
    Ok(GuardedRun {
        machine,
        marks,
        stop: r.stop,
        executed: r.executed,
        hidden_total: r.hidden_total,
    })
}
