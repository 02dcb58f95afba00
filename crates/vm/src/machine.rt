// The machine, and the calls that start it anew.
ghost use Rattle.std.specs.Prelude.{◌≡◌, ◌-◌, ◌++◌, [], length, take, replicate};
ghost use Rattle.isa.specs.Sizes.{memory_words};
ghost use Rattle.vm.specs.Calls.{core_of, with_core, restarted, image_words, image_size, answered, loaded, reset, clear, clear_history};

use crate::parts::Core;
use control::{Address, AluRecord, BusTransfer, Control, Counters, Fault, State};
use encoding::Refusal;
use isa::{MEMORY_WORDS, REGISTER_COUNT};
use trace::{COLUMNS_LENGTH, TRACE_LIMIT};

// All that the Rust's machine holds; of its history, the number of records. The trace is a ring: its
// oldest record is in slot `trace_start` modulo 512. What stands past a count shows nowhere.
#[derive(Clone, Copy)]
pub struct Machine {
    pub touched: [Address; MEMORY_WORDS],
    pub touched_len: usize,
    pub lengths: [u8; TRACE_LIMIT],
    pub trace_len: usize,
    pub columns: [u8; COLUMNS_LENGTH],
    pub trace_start: usize,
    pub numbers: [u64; TRACE_LIMIT],
    pub image_len: usize,
    pub memory: [u16; MEMORY_WORDS],
    pub registers: [u16; REGISTER_COUNT],
    pub history_len: usize,
    pub image: [u16; MEMORY_WORDS],
    pub state: State,
    pub counters: Counters,
}

// A machine that was just switched on with an image in memory.
pub(crate) fn switched_on(
    image: [u16; MEMORY_WORDS],
    image_len: usize,
    history_len: usize,
) -> Machine
    ensures { result ≡ restarted image image_len history_len }
{
    let control = Control {
        pc: 0,
        ir: 0,
        mar: 0,
        mdr: 0,
        instruction_address: 0,
        tick: 0,
        execute_ticks: 0,
        halted: false,
    };
    let state = State {
        control,
        fault: None,
        last_transfer: None,
        last_alu: None,
    };
    let counters = Counters {
        instructions: 0,
        micro_operations: 0,
        bus_reads: 0,
        bus_writes: 0,
    };
    let registers = [0u16; REGISTER_COUNT];
    let columns = [0u8; COLUMNS_LENGTH];
    let numbers = [0u64; TRACE_LIMIT];
    let lengths = [0u8; TRACE_LIMIT];
    let touched = [0 as Address; MEMORY_WORDS];
    Machine {
        memory: image,
        registers,
        state,
        counters,
        columns,
        numbers,
        lengths,
        trace_start: 0,
        trace_len: 0,
        touched,
        touched_len: 0,
        image,
        image_len,
        history_len,
    }
}

// The first 256 of an image's words, or of its marks, and `none` past them.
pub(crate) fn first_words<T: Copy>(all: &[T], none: T) -> [T; MEMORY_WORDS]
    ensures { result ≡ take memory_words all.now ++ replicate (memory_words - length all.now) none }
{
    let n = all.len().min(MEMORY_WORDS);
    let mut words = [none; MEMORY_WORDS];
    words[..n].copy_from_slice(&all[..n]);
    words
}

// How many words of an image of that length count.
pub(crate) fn image_size(len: usize) -> usize
    ensures { result ≡ image_size len }
{
    len.min(MEMORY_WORDS)
}

impl Machine {
    // An empty machine: all memory zero, all registers zero, PC at 00.
    pub fn new() -> Machine
        ensures { result ≡ restarted (image_words []) 0 0 }
    {
        let image = [0u16; MEMORY_WORDS];
        switched_on(image, 0, 0)
    }

    // The part of a machine that is small.
    pub(crate) fn core(&self) -> Core
        ensures { result ≡ core_of self.now }
    {
        Core {
            state: self.state,
            counters: self.counters,
            touched_len: self.touched_len,
            trace_start: self.trace_start,
            trace_len: self.trace_len,
        }
    }

    // With that part anew.
    pub(crate) fn set_core(&mut self, core: Core)
        ensures { self.new ≡ with_core core self.old }
    {
        self.state = core.state;
        self.counters = core.counters;
        self.touched_len = core.touched_len;
        self.trace_start = core.trace_start;
        self.trace_len = core.trace_len;
    }

    // Load a program image, of which the first 256 words count, and reset the machine.
    #[tactic(auto, unfolding(crate::specs::Calls::loaded, crate::specs::Calls::image_words))]
    pub fn load_image(&mut self, image: &[u16]) -> Result<(), Refusal>
        ensures { answered result self.new ≡ loaded image.now self.old }
    {
        self.served()?;
        let words = first_words(image, 0);
        let len = image_size(image.len());
        *self = switched_on(words, len, self.history_len);
        Ok(())
    }

    // Restore the loaded image and clear all registers, as if the machine had just been switched on
    // with this program in memory.
    #[tactic(auto, unfolding(crate::specs::Calls::reset))]
    pub fn reset(&mut self) -> Result<(), Refusal>
        ensures { answered result self.new ≡ reset self.old }
    {
        self.served()?;
        *self = switched_on(self.image, self.image_len, self.history_len);
        Ok(())
    }

    // Clear memory (including the loaded image), all registers and the history.
    #[tactic(auto, unfolding(crate::specs::Calls::clear))]
    pub fn clear(&mut self) -> Result<(), Refusal>
        ensures { answered result self.new ≡ clear self.old }
    {
        self.served()?;
        *self = Machine::new();
        Ok(())
    }

    // Drop all saved states.
    #[tactic(auto, unfolding(crate::specs::Calls::clear_history))]
    pub fn clear_history(&mut self) -> Result<(), Refusal>
        ensures { answered result self.new ≡ clear_history self.old }
    {
        self.served()?;
        self.history_len = 0;
        Ok(())
    }
}
