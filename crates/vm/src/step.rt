// One instruction, as it is called.
ghost use Rattle.std.specs.Prelude.{◌≡◌, true, OnErr};
ghost use Rattle.vm.specs.Calls.{view_of, is_machine, step_refusal_of, rest_of, answered};
ghost use Rattle.vm.specs.StepCalls.{halted_texts, step_effect};

use crate::engine::next_parts;
use crate::machine::Machine;
use crate::micro::has_fault;
use crate::texts::newest_texts;
use disasm::disassemble;
use encoding::Refusal;
use isa::Text;
use plan::TransferPlan;
use trace::Ring;

// A summary of running one instruction to completion: the word at PC and its text, the texts of the
// ticks that were made, and whether the last one halted or faulted.
#[derive(Drop)]
pub struct InstructionReport {
    pub address: u8,
    pub word: u16,
    pub text: Text,
    pub micro_ops: TransferPlan,
    pub halted: bool,
    pub faulted: bool,
}

// The one text of a halted machine.
fn halted_texts() -> TransferPlan
    ensures { result ≡ halted_texts }
{
    let none = Text::from_bytes(b"");
    let texts = [
        Text::from_bytes(b"halted"),
        none,
        none,
        none,
        none,
        none,
        none,
    ];
    TransferPlan { texts, count: 1 }
}

impl Machine {
    // Run micro-operations until the current instruction completes.
    pub fn step_instruction(&mut self) -> Result<InstructionReport, Refusal>
        ensures answer { answered result (view_of self.new) ≡ step_effect (step_refusal_of self.old) (view_of self.old) }
        ensures rest { rest_of self.new ≡ rest_of self.old }
        ensures kept { OnErr result (self.new ≡ self.old) }
        ensures lasting { is_machine self.old ≡ true → is_machine self.new ≡ true }
    {
        self.stepped(false)
    }

    // The same without ticks, of a machine that stands between two instructions.
    pub fn direct_instruction(&mut self) -> Result<InstructionReport, Refusal>
        ensures answer { answered result (view_of self.new) ≡ step_effect (step_refusal_of self.old) (view_of self.old) }
        ensures rest { rest_of self.new ≡ rest_of self.old }
        ensures kept { OnErr result (self.new ≡ self.old) }
        ensures lasting { is_machine self.old ≡ true → is_machine self.new ≡ true }
    {
        self.stepped(true)
    }

    // Tick by tick, or whole where it can be.
    #[tactic(auto, unfolding(crate::specs::StepCalls::step_effect, crate::specs::StepCalls::halted_report))]
    fn stepped(&mut self, direct: bool) -> Result<InstructionReport, Refusal>
        ensures answer { answered result (view_of self.new) ≡ step_effect (step_refusal_of self.old) (view_of self.old) }
        ensures rest { rest_of self.new ≡ rest_of self.old }
        ensures kept { OnErr result (self.new ≡ self.old) }
        ensures lasting { is_machine self.old ≡ true → is_machine self.new ≡ true }
    {
        self.step_served()?;
        let address = self.state.control.pc;
        let word = self.memory[address as usize];
        let text = disassemble(word);
        if self.state.control.halted {
            return Ok(InstructionReport {
                address,
                word,
                text,
                micro_ops: halted_texts(),
                halted: true,
                faulted: has_fault(self.state.fault),
            });
        }
        let stepped = next_parts(
            direct,
            self.core(),
            &mut self.memory,
            &mut self.registers,
            &mut self.touched,
            &mut self.columns,
            &mut self.numbers,
            &mut self.lengths,
        );
        let end = stepped.core;
        let ring = Ring {
            start: end.trace_start,
            len: end.trace_len,
        };
        let micro_ops = newest_texts(ring, stepped.ticks.0 as usize, &self.columns, &self.lengths);
        self.set_core(end);
        Ok(InstructionReport {
            address,
            word,
            text,
            micro_ops,
            halted: stepped.halted,
            faulted: stepped.done.faulted,
        })
    }
}
