// What a record holds.
use control::{Control, Fault};
use isa::{MEMORY_WORDS, REGISTER_COUNT};

// What `push_history` keeps and `undo` gives back. The arrays stand first, where a proof's search for their
// lengths looks first.
#[derive(Clone, Copy)]
pub struct Snapshot {
    pub registers: [u16; REGISTER_COUNT],
    pub memory: [u16; MEMORY_WORDS],
    pub control: Control,
    pub fault: Option<Fault>,
    pub instructions: u64,
    pub micro_operations: u64,
}
