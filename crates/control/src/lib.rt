// What one tick reads and leaves, by value; how it counts; and which states of the control unit a machine
// can be in: what every layer above speaks of, and no tick itself.
#![tactic(auto)]

mod address;
mod codes;
mod control;
mod counters;
mod last;
mod lawful;

pub use address::{ADDRESS_WIDTH, Address, reached_address};
pub use codes::{
    AluCode, FAULT_WIDTH, FaultCode, TransferCode, WordCode, WriteCode, fault_bytes, fault_of,
};
pub use control::{
    AluOperation, AluRecord, BusTransfer, Control, Fault, Operands, RegisterWrite, State, Tick,
};
pub use counters::{Counters, count_tick, is_over_counted};
pub use last::{last_address, last_bus, last_sent, last_value};
pub use lawful::is_lawful;
