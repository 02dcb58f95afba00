// The dump of the whole machine.
use crate::output::Answer;
use crate::state::slot_of;
use answer::first;
use encoding::put_bytes;
use trace::{ADDRESSES_AT, PHASES_AT, TRACE_LIMIT};
use vm::Machine;

// A slot's text in the trace's columns, 32 bytes.
const TEXT: usize = 32;

impl<'a> Answer<'a> {
    // A count of two bytes.
    fn append_count(&mut self, count: usize) {
        self.append_word((count % 0x10000) as u16);
    }

    // All that is small.
    fn append_state(&mut self, m: &Machine) {
        self.append_control(m.state.control, &m.registers);
        self.append_fault(m.state.fault);
        self.append_counters(m.counters);
        self.append_transfer(m.state.last_transfer);
        self.append_alu(m.state.last_alu);
        self.append_count(m.image_len);
    }

    // The addresses written to, behind their count. A count over 256 is cut: there are no more places.
    fn append_touched(&mut self, m: &Machine) {
        self.append_count(m.touched_len);
        self.append(first(&m.touched, m.touched_len));
    }

    // One record of the trace, counted from the oldest. Behind the text's live bytes stand zeros; a length
    // over 32 is cut: the next bytes are another slot's.
    fn append_record(&mut self, m: &Machine, index: usize) {
        let slot = slot_of(m, index);
        let len = m.lengths[slot];
        let text = &m.columns[slot * TEXT..slot * TEXT + TEXT];
        let mut live = [0u8; TEXT];
        put_bytes(&mut live, 0, first(text, len as usize));
        self.append_number(m.numbers[slot]);
        self.append(&[
            m.columns[ADDRESSES_AT + slot],
            m.columns[PHASES_AT + slot],
            len,
        ]);
        self.append(&live);
    }

    // The trace, behind its count. A count over 512 is cut: there are no more slots.
    fn append_trace(&mut self, m: &Machine) {
        self.append_count(m.trace_len);
        for index in 0..m.trace_len.min(TRACE_LIMIT) {
            self.append_record(m, index);
        }
    }

    // The whole machine: 23,396 bytes at most, with every address touched and a full trace.
    pub(crate) fn append_machine(&mut self, m: &Machine) {
        self.append_state(m);
        self.append_words(&m.image);
        self.append_words(&m.memory);
        self.append_touched(m);
        self.append_trace(m);
        self.append(&((m.history_len % 0x100000000) as u32).to_be_bytes());
    }
}
