// What each command does, and its answer in lent bytes.
use crate::command::{Command, Run};
use crate::output::Answer;
use crate::set::{set_byte, set_field};
use encoding::{Refusal, get_words};
use vm::{InstructionReport, Machine, MicroOp, Ran};

// An image counts up to 256 words, so more than these need not be handed over.
const WORDS: usize = 512;

// `load_image`, of words of two bytes.
fn load(m: &mut Machine, bytes: &[u8]) -> Result<(), Refusal> {
    let count = (bytes.len() / 2).min(WORDS);
    let mut words = [0u16; WORDS];
    get_words(bytes, 0, &mut words[..count]);
    m.load_image(&words[..count])
}

// What a tick did.
fn append_op(answer: &mut Answer, op: MicroOp) {
    answer.append(&op.text.bytes);
    answer.append_byte(op.phase.number());
    answer.append_flag(op.ends_instruction);
    answer.append_flag(op.halts);
    answer.append_flag(op.faulted);
    answer.append_transfer(op.bus);
    answer.append_write(op.write);
    answer.append_byte(op.address);
}

// `micro_step`.
fn ticked(done: Result<MicroOp, Refusal>, answer: &mut Answer) {
    if let Some(op) = answer.served(done) {
        append_op(answer, op);
    }
}

// What an instruction did: its length goes by the number of ticks, seven at most.
fn append_report(answer: &mut Answer, r: InstructionReport) {
    let plan = r.micro_ops;
    answer.append_byte(r.address);
    answer.append_word(r.word);
    answer.append(&r.text.bytes);
    answer.append_byte(plan.count as u8);
    for text in plan.texts.iter().take(plan.count as usize) {
        answer.append(&text.bytes);
    }
    answer.append_flag(r.halted);
    answer.append_flag(r.faulted);
}

// `step_instruction`, and the direct engine's instruction.
fn stepped(done: Result<InstructionReport, Refusal>, answer: &mut Answer) {
    if let Some(report) = answer.served(done) {
        append_report(answer, report);
    }
}

// `run`, and the direct engine's run: its stop, and how many instructions it made.
fn ran(done: Ran, answer: &mut Answer) {
    if let Some(stop) = answer.served(done.stop) {
        answer.append(&[stop.number(), stop.address()]);
        answer.append_number(done.executed.0);
    }
}

// The machine, and the store behind it.
fn dump(m: &Machine, store: &[u8], answer: &mut Answer) {
    answer.append_machine(m);
    answer.append(store);
}

// A call that answers nothing more than its refusal.
fn told(done: Result<(), Refusal>, answer: &mut Answer) {
    let _ = answer.served(done);
}

// A new machine is never refused.
fn renewed(m: &mut Machine) -> Result<(), Refusal> {
    *m = Machine::new();
    Ok(())
}

// Does what the command says, and puts what is to be answered.
pub(crate) fn reply(m: &mut Machine, command: Command, store: &mut [u8], answer: &mut Answer) {
    match command {
        Command::NewMachine => told(renewed(m), answer),
        Command::LoadImage(words) => told(load(m, words), answer),
        Command::Reset => told(m.reset(), answer),
        Command::Clear => told(m.clear(), answer),
        Command::MicroStep => ticked(m.micro_step(), answer),
        Command::StepInstruction => stepped(m.step_instruction(), answer),
        Command::Run(
            Run {
                budget,
                breakpoints,
            },
        ) => ran(m.run(budget, breakpoints), answer),
        Command::PushHistory => told(m.push_history(store), answer),
        Command::Undo => told(m.undo(store), answer),
        Command::ClearHistory => told(m.clear_history(), answer),
        Command::Dump => dump(m, store, answer),
        Command::SetField(setting) => set_field(m, setting),
        Command::SetByte { offset, value } => set_byte(store, offset as usize, value),
        Command::DirectInstruction => stepped(m.direct_instruction(), answer),
        Command::DirectRun(
            Run {
                budget,
                breakpoints,
            },
        ) => ran(m.direct_run(budget, breakpoints), answer),
    }
}
