// The register transfers that an instruction is made of, and their texts.
#![tactic(auto)]

mod plan;
mod texts;

pub use plan::{Phase, TransferPlan, execute_tick_count, phase_of, tick_text, transfer_plan};

// The number of register transfers in the fetch phase of every instruction.
pub const FETCH_TICKS: u8 = 4;
