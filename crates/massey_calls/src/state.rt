// The parts of a machine's state as answers and dumps have them: the library says each by numbers, and
// here these stand one behind the other.
ghost use Rattle.std.specs.Prelude.{◌<◌};

use crate::output::Answer;
use control::{
    AluCode, AluRecord, BusTransfer, Control, Counters, Fault, FaultCode, RegisterWrite,
    TransferCode, WriteCode,
};
use trace::TRACE_LIMIT;
use vm::Machine;

// The slot of a trace record, counted from the oldest.
pub(crate) fn slot_of(m: &Machine, index: usize) -> usize
    ensures { result < TRACE_LIMIT }
{
    (m.trace_start % TRACE_LIMIT + index % TRACE_LIMIT) % TRACE_LIMIT
}

impl<'a> Answer<'a> {
    // The control unit around the registers, which stand behind PC and IR.
    pub(crate) fn append_control(&mut self, c: Control, registers: &[u16]) {
        self.append_byte(c.pc);
        self.append_word(c.ir);
        self.append_words(registers);
        self.append_byte(c.mar);
        self.append_word(c.mdr);
        self.append(&[c.instruction_address, c.tick, c.execute_ticks]);
        self.append_flag(c.halted);
    }

    pub(crate) fn append_fault(&mut self, fault: Option<Fault>) {
        let code = FaultCode::from(fault);
        self.append_byte(code.kind);
        self.append_word(code.word);
        self.append_byte(code.address);
    }

    pub(crate) fn append_counters(&mut self, k: Counters) {
        self.append_number(k.instructions);
        self.append_number(k.micro_operations);
        self.append_number(k.bus_reads);
        self.append_number(k.bus_writes);
    }

    pub(crate) fn append_transfer(&mut self, transfer: Option<BusTransfer>) {
        let code = TransferCode::from(transfer);
        self.append(&[code.kind, code.address]);
        self.append_word(code.value);
    }

    pub(crate) fn append_write(&mut self, write: Option<RegisterWrite>) {
        let code = WriteCode::from(write);
        self.append(&[code.count, code.register]);
        self.append_word(code.value);
    }

    pub(crate) fn append_alu(&mut self, alu: Option<AluRecord>) {
        let code = AluCode::from(alu);
        self.append_byte(code.operation);
        self.append_word(code.left);
        self.append_byte(code.right_there);
        self.append_word(code.right);
        self.append_word(code.result);
    }
}
