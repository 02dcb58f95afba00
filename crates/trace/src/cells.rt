// What a transfer does to memory and registers.
ghost use Rattle.std.specs.Prelude.{◌≡◌};
ghost use Rattle.trace.specs.Cells.{memory_after};
ghost use Rattle.trace.specs.Forms.{registers_by};

use control::{BusTransfer, RegisterWrite};
use isa::{MEMORY_WORDS, REGISTER_COUNT};

// Of the register's number the low digit counts, so that there is one whatever the number.
pub fn set_register(w: Option<RegisterWrite>, registers: &mut [u16; REGISTER_COUNT])
    ensures { registers.new ≡ registers_by w registers.old }
{
    if let Some(write) = w {
        registers[write.register as usize % REGISTER_COUNT] = write.value;
    }
}

pub fn set_word(b: Option<BusTransfer>, memory: &mut [u16; MEMORY_WORDS])
    ensures { memory.new ≡ memory_after b memory.old }
{
    if let Some(BusTransfer::Write { address, value }) = b {
        memory[address as usize] = value;
    }
}
