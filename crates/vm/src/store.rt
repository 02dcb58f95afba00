// The history in a lent store: a state is kept behind those before it, and the newest is given back.
ghost use Rattle.std.specs.Prelude.{◌≡◌, length};
ghost use Rattle.vm.specs.Calls.{answered};
ghost use Rattle.vm.specs.History.{saved, saved_store, restored, undone};

use crate::machine::Machine;
use encoding::Refusal;
use history::{
    Snapshot, differing_addresses, newest_record, push_record, restored_counters, restored_state,
    store_refusal, undo_refusal,
};

impl Machine {
    // Save the current state so that `undo` can return to it. At the store's limit the oldest goes.
    #[tactic(auto, unfolding(crate::specs::History::store_refusal, crate::specs::History::saved, crate::specs::History::saved_store))]
    pub fn push_history(&mut self, store: &mut [u8]) -> Result<(), Refusal>
        ensures answer { answered result self.new ≡ saved (length store.old) self.old }
        ensures left { store.new ≡ saved_store store.old self.old }
    {
        store_refusal(self.is_machine(), store.len(), self.history_len)?;
        let snapshot = Snapshot {
            registers: self.registers,
            memory: self.memory,
            control: self.state.control,
            fault: self.state.fault,
            instructions: self.counters.instructions,
            micro_operations: self.counters.micro_operations,
        };
        self.history_len = push_record(store, self.history_len, snapshot);
        Ok(())
    }

    // Return to the most recently saved state, which the store keeps.
    #[tactic(auto, unfolding(crate::specs::History::store_refusal, crate::specs::History::undo_refusal, crate::specs::History::undone))]
    pub fn undo(&mut self, store: &[u8]) -> Result<(), Refusal>
        ensures { answered result self.new ≡ undone store.now self.old }
    {
        store_refusal(self.is_machine(), store.len(), self.history_len)?;
        let found = newest_record(store, self.history_len);
        // What is refused before stands above, so that no record is looked for then: here it is `Ok`.
        undo_refusal(Ok(()), self.history_len, found.is_some())?;
        if let Some(snapshot) = found {
            self.restore(snapshot);
        }
        Ok(())
    }

    // The machine as the snapshot has it; the words that then differ from the image are the touched ones.
    #[tactic(auto, unfolding(crate::specs::History::restored))]
    fn restore(&mut self, snapshot: Snapshot)
        ensures { self.new ≡ restored snapshot self.old }
    {
        let memory = snapshot.memory;
        let registers = snapshot.registers;
        let changed = differing_addresses(self.image, memory);
        let addresses = changed.addresses;
        self.touched = addresses;
        self.touched_len = changed.count;
        self.memory = memory;
        self.registers = registers;
        self.state = restored_state(snapshot, self.state);
        self.counters = restored_counters(snapshot, self.counters);
        self.history_len = self.history_len.saturating_sub(1);
    }
}
