// The direct engine: whole instructions without ticks. One is made with its records, or many without them, on
// values and arrays that are lent. Nothing here needs a machine, and so it lays no condition on its caller.
#![tactic(auto)]

mod forward;
mod light;
mod table;
mod whole;
mod work;

pub use forward::light_forward;
pub use light::{Lane, Made};
pub use whole::{Small, Whole, whole_instruction};
pub use work::Work;
