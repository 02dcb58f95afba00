// The arrays that a tick writes, as they are lent: memory and registers, the touched addresses, the trace.
// Nothing here needs a machine, and so it lays no condition on its caller.
#![tactic(auto)]

mod cells;
mod lines;
mod records;
mod touched;

pub use cells::{set_register, set_word};
use isa::TEXT_WIDTH;
pub use lines::push_lines;
pub use records::{Ring, TraceRecord, push_trace, tick_phase};
pub use touched::touch;

// The most records of a trace.
pub const TRACE_LIMIT: usize = 512;
// The columns of bytes, one behind the other: texts, addresses, phases.
pub const ADDRESSES_AT: usize = TEXT_WIDTH * TRACE_LIMIT;

pub const PHASES_AT: usize = ADDRESSES_AT + TRACE_LIMIT;

pub const COLUMNS_LENGTH: usize = PHASES_AT + TRACE_LIMIT;
