// The calls that read a machine and leave it as it is.
ghost use Rattle.std.specs.Prelude.{◌≡◌, not, take, drop, get_or};
ghost use Rattle.isa.specs.Text.{text};
ghost use Rattle.isa.specs.Word.{instruction};
ghost use Rattle.disasm.specs.Disassembly.{disassemble_text};
ghost use Rattle.vm.specs.Refusal.{served, result_map};
ghost use Rattle.vm.specs.Calls.{is_machine};
ghost use Rattle.vm.specs.ReadCalls.{position_of};

use crate::machine::Machine;
use disasm::disassemble;
use encoding::Refusal;
use isa::{Instruction, Text};

// The loaded image: its words, and the places past them.
#[derive(Clone, Copy)]
pub struct Image<'a> {
    pub words: &'a [u16],
    pub past: &'a [u16],
}

fn position_of(halted: bool, tick: u8) -> Option<u8>
    ensures { result ≡ position_of halted tick }
{
    if halted {
        return None;
    }
    if tick == 0 {
        return None;
    }
    Some(tick - 1)
}

impl Machine {
    // Number of words in the loaded image.
    pub fn image_len(&self) -> Result<usize, Refusal>
        ensures { result ≡ served (is_machine self.now) self.now.image_len }
    {
        self.served()?;
        Ok(self.image_len)
    }

    // How many states are available to step back to.
    pub fn history_len(&self) -> Result<usize, Refusal>
        ensures { result ≡ served (is_machine self.now) self.now.history_len }
    {
        self.served()?;
        Ok(self.history_len)
    }

    // The loaded image.
    #[tactic(auto, unfolding(crate::specs::Refusal::parts_ok))]
    pub fn image(&self) -> Result<Image<'_>, Refusal>
        ensures words { result_map (λ i. i.words.now) result ≡ served (is_machine self.now) (take self.now.image_len self.now.image) }
        ensures past { result_map (λ i. i.past.now) result ≡ served (is_machine self.now) (drop self.now.image_len self.now.image) }
    {
        self.served()?;
        let (words, past) = self.image.split_at(self.image_len);
        Ok(Image { words, past })
    }

    // True when the machine can still run.
    pub fn is_running(&self) -> Result<bool, Refusal>
        ensures { result ≡ served (is_machine self.now) (not self.now.state.control.halted) }
    {
        self.served()?;
        Ok(!self.state.control.halted)
    }

    // The instruction the program counter points at.
    pub fn current_instruction(&self) -> Result<Instruction, Refusal>
        ensures { result ≡ served (is_machine self.now) (instruction (get_or self.now.memory self.now.state.control.pc 0)) }
    {
        self.served()?;
        Ok(Instruction::from_word(self.memory[self.state.control.pc as usize]))
    }

    // Disassembly of the instruction at an address.
    pub fn disassemble_at(&self, address: u8) -> Result<Text, Refusal>
        ensures { result ≡ served (is_machine self.now) (text (disassemble_text (get_or self.now.memory address 0))) }
    {
        self.served()?;
        Ok(disassemble(self.memory[address as usize]))
    }

    // How far through the current instruction's transfer plan the machine is: None between
    // instructions and once halted, else the index of the transfer that has just been performed.
    pub fn transfer_position(&self) -> Result<Option<u8>, Refusal>
        ensures { result ≡ served (is_machine self.now) (position_of self.now.state.control.halted self.now.state.control.tick) }
    {
        self.served()?;
        Ok(position_of(self.state.control.halted, self.state.control.tick))
    }
}
