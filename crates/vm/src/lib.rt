// The MASSEY machine: the arrays above one tick, instructions, runs, and the calls on a machine. Each
// call checks the machine once, and is refused where it is none.
#![tactic(auto)]

mod engine;
mod guarded;
mod instruction;
mod machine;
mod micro;
mod parts;
mod readings;
mod refusal;
mod run;
mod step;
mod store;
mod texts;

pub use guard::Begun;
pub use guarded::{GuardedRun, guarded_run};
pub use instruction::Ticks;
pub use machine::Machine;
pub use micro::MicroOp;
pub use parts::Core;
pub use plan::{execute_tick_count, transfer_plan};
pub use readings::Image;
pub use run::Ran;
pub use step::InstructionReport;
