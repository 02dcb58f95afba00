// The four counters of a machine.
ghost use Rattle.std.specs.Prelude.{◌≡◌};
ghost use Rattle.control.specs.Count.{over_counted, count_transfer, count_tick};

use crate::control::BusTransfer;

// A running machine counts no further than this.
pub const COUNTER_LIMIT: u64 = 18446744073709551600;

#[derive(Clone, Copy)]
pub struct Counters {
    pub instructions: u64,
    pub micro_operations: u64,
    pub bus_reads: u64,
    pub bus_writes: u64,
}

// Where one is so near its end, a running machine's ticks are refused 9.
#[tactic(auto, unfolding(crate::specs::Count::over_counted))]
pub fn is_over_counted(k: Counters) -> bool
    ensures { result ≡ over_counted k }
{
    COUNTER_LIMIT < k.instructions
        || COUNTER_LIMIT < k.micro_operations
        || COUNTER_LIMIT < k.bus_reads
        || COUNTER_LIMIT < k.bus_writes
}

// With one transfer more over the bus, if there was one.
fn count_transfer(k: Counters, bus: Option<BusTransfer>) -> Counters
    ensures { result ≡ count_transfer bus k }
{
    let mut counters = k;
    match bus {
        Some(BusTransfer::Read { .. }) => counters.bus_reads = k.bus_reads.wrapping_add(1),
        Some(BusTransfer::Write { .. }) => counters.bus_writes = k.bus_writes.wrapping_add(1),
        None => {}
    }
    counters
}

// The counters after a tick, from its transfer and whether it completed an instruction that counts.
#[tactic(auto, unfolding(crate::specs::Count::count_tick))]
pub fn count_tick(k: Counters, bus: Option<BusTransfer>, completed: bool) -> Counters
    ensures { result ≡ count_tick bus completed k }
{
    let mut counters = count_transfer(k, bus);
    counters.micro_operations = counters.micro_operations.wrapping_add(1);
    if completed {
        counters.instructions = counters.instructions.wrapping_add(1);
    }
    counters
}
