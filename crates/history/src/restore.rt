// What is refused of a save and of an undo, and what a snapshot gives back.
ghost use Rattle.std.specs.Prelude.{◌≡◌};
ghost use Rattle.history.specs.Restore.{store_refusal_if, undo_refusal_if, restored_state, restored_counters};

use crate::layout::RECORD_LENGTH;
use crate::snapshot::Snapshot;
use crate::store::history_limit;
use control::{Counters, State};
use encoding::Refusal;

// A store is refused that holds no record; and then a state that is no machine, or has more records than
// the store holds.
pub fn store_refusal(good: bool, len: usize, count: usize) -> Result<(), Refusal>
    ensures { result ≡ store_refusal_if len good count }
{
    if len < RECORD_LENGTH {
        return Err(Refusal::ShortStore);
    }
    if !good || history_limit(len) < count {
        return Err(Refusal::NoMachine);
    }
    Ok(())
}

// Of an undo what the store and the state were refused, and then one with nothing to undo, or whose newest
// record is none.
pub fn undo_refusal(tested: Result<(), Refusal>, count: usize, found: bool) -> Result<(), Refusal>
    ensures { result ≡ undo_refusal_if tested count found }
{
    tested?;
    if count == 0 {
        return Err(Refusal::NoHistory);
    }
    if !found {
        return Err(Refusal::NoMachine);
    }
    Ok(())
}

// The state that a snapshot gives back; the last transfer and the last operation of the ALU stay.
pub fn restored_state(s: Snapshot, before: State) -> State
    ensures { result ≡ restored_state s before }
{
    State {
        control: s.control,
        fault: s.fault,
        ..before
    }
}

// The bus counters stay.
pub fn restored_counters(s: Snapshot, before: Counters) -> Counters
    ensures { result ≡ restored_counters s before }
{
    Counters {
        instructions: s.instructions,
        micro_operations: s.micro_operations,
        ..before
    }
}
