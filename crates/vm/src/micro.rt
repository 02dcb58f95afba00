// One register transfer, as it is called.
ghost use Rattle.std.specs.Prelude.{◌≡◌, true, OnErr};
ghost use Rattle.vm.specs.Calls.{view_of, is_machine, step_refusal_of, rest_of, answered};
ghost use Rattle.vm.specs.StepCalls.{has_fault, halted_op, op_after, micro_effect};

use crate::instruction::{Ticks, instruction_parts};
use crate::machine::Machine;
use crate::parts::Done;
use crate::texts::newest_text;
use control::{BusTransfer, Fault, RegisterWrite, State};
use encoding::Refusal;
use isa::Text;
use plan::{Phase, phase_of};
use trace::Ring;

// One register transfer, as it is reported.
#[derive(Drop)]
pub struct MicroOp {
    pub text: Text,
    pub phase: Phase,
    pub ends_instruction: bool,
    pub halts: bool,
    pub faulted: bool,
    pub bus: Option<BusTransfer>,
    pub write: Option<RegisterWrite>,
    pub address: u8,
}

pub(crate) fn has_fault(fault: Option<Fault>) -> bool
    ensures { result ≡ has_fault fault }
{
    match fault {
        None => false,
        Some(Fault::UnknownInstruction { .. }) => true,
        Some(Fault::StepBudgetExhausted { .. }) => true,
    }
}

// What a halted machine reports.
fn halted_op(state: State) -> MicroOp
    ensures { result ≡ halted_op state }
{
    let fault = state.fault;
    let faulted = has_fault(fault);
    let text = Text::from_bytes(b"halted");
    MicroOp {
        text,
        phase: Phase::Halt,
        ends_instruction: true,
        halts: true,
        faulted,
        bus: None,
        write: None,
        address: state.control.pc,
    }
}

// What a tick reports: its number, the state after it, what it did, and its text.
fn op_after(tick: u8, state: State, done: Done, text: Text) -> MicroOp
    ensures { result ≡ op_after tick state done text }
{
    let phase = phase_of(tick);
    let control = state.control;
    let bus = done.bus;
    let write = done.write;
    MicroOp {
        text,
        phase,
        ends_instruction: control.tick == 0,
        halts: control.halted,
        faulted: done.faulted,
        bus,
        write,
        address: control.instruction_address,
    }
}

impl Machine {
    // Perform exactly one register transfer.
    #[tactic(auto, unfolding(crate::specs::StepCalls::micro_effect))]
    pub fn micro_step(&mut self) -> Result<MicroOp, Refusal>
        ensures answer { answered result (view_of self.new) ≡ micro_effect (step_refusal_of self.old) (view_of self.old) }
        ensures rest { rest_of self.new ≡ rest_of self.old }
        ensures kept { OnErr result (self.new ≡ self.old) }
        ensures lasting { is_machine self.old ≡ true → is_machine self.new ≡ true }
    {
        self.step_served()?;
        let state = self.state;
        if state.control.halted {
            return Ok(halted_op(state));
        }
        let stepped = instruction_parts(
            self.core(),
            Ticks(1),
            &mut self.memory,
            &mut self.registers,
            &mut self.touched,
            &mut self.columns,
            &mut self.numbers,
            &mut self.lengths,
        );
        let end = stepped.core;
        let ring = Ring {
            start: end.trace_start,
            len: end.trace_len,
        };
        let text = newest_text(ring, 1, 0, &self.columns, &self.lengths);
        self.set_core(end);
        Ok(op_after(state.control.tick, end.state, stepped.done, text))
    }
}
