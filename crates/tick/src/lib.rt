// One tick of the MASSEY machine on small values. The arrays are the layer's above, the texts, the values
// and their counters the layers' below.
#![tactic(auto)]

mod alu;
mod execute;
mod fetch;
mod memory;
mod parts;

pub use alu::{alu_record, shifted_left, shifted_right};
pub use execute::tick_of;
