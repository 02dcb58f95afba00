// The parts of a machine's state as a record has them, by the library's numbers and values. A number of
// no kind is read as none or as some kind; the question that is then due has another number, and so the
// record fails.
use control::{
    AluCode, AluOperation, AluRecord, BusTransfer, Control, RegisterWrite, State, TransferCode,
    WriteCode, fault_bytes,
};
use encoding::{put_bytes, put_number};

// The operation at a place.
pub(crate) fn operation_of(number: u8) -> AluOperation {
    match number {
        0 => AluOperation::Add,
        1 => AluOperation::Negate,
        2 => AluOperation::Shr,
        3 => AluOperation::Shl,
        4 => AluOperation::And,
        5 => AluOperation::Or,
        _ => AluOperation::Xor,
    }
}

pub(crate) fn transfer_of(kind: u8, address: u8, value: u16) -> Option<BusTransfer> {
    match kind {
        0 => None,
        1 => Some(BusTransfer::Read { address, value }),
        _ => Some(BusTransfer::Write { address, value }),
    }
}

pub(crate) fn option_of(there: u8, word: u16) -> Option<u16> {
    (there != 0).then_some(word)
}

// 0 is no operation, and each number after it one more than the operation's place.
pub(crate) fn alu_of(kind: u8, left: u16, right: Option<u16>, res: u16) -> Option<AluRecord> {
    if kind == 0 {
        return None;
    }
    Some(AluRecord {
        operation: operation_of(kind - 1),
        left,
        right,
        result: res,
    })
}

// The four bytes of a transfer: its kind, address and value.
pub(crate) fn transfer_bytes(transfer: Option<BusTransfer>) -> [u8; 4] {
    let code = TransferCode::from(transfer);
    let [high, low] = code.value.to_be_bytes();
    [code.kind, code.address, high, low]
}

// The four bytes of the registers written: how many, which and its value.
pub(crate) fn write_bytes(write: Option<RegisterWrite>) -> [u8; 4] {
    let code = WriteCode::from(write);
    let [high, low] = code.value.to_be_bytes();
    [code.count, code.register, high, low]
}

// The eight bytes of an operation of the ALU: which, its words and the result.
fn alu_bytes(alu: Option<AluRecord>) -> [u8; 8] {
    let code = AluCode::from(alu);
    let mut bytes = [0u8; 8];
    put_number(&mut bytes, 0, 1, code.operation as u64);
    put_number(&mut bytes, 1, 2, code.left as u64);
    put_number(&mut bytes, 3, 1, code.right_there as u64);
    put_number(&mut bytes, 4, 2, code.right as u64);
    put_number(&mut bytes, 6, 2, code.result as u64);
    bytes
}

// Nine bytes; `halted` is not among them, since only a running machine is asked.
pub(crate) fn put_control(out: &mut [u8], at: usize, c: Control) {
    let mut bytes = [0u8; 9];
    put_number(&mut bytes, 0, 1, c.pc as u64);
    put_number(&mut bytes, 1, 2, c.ir as u64);
    put_number(&mut bytes, 3, 1, c.mar as u64);
    put_number(&mut bytes, 4, 2, c.mdr as u64);
    put_number(&mut bytes, 6, 1, c.instruction_address as u64);
    put_number(&mut bytes, 7, 1, c.tick as u64);
    put_number(&mut bytes, 8, 1, c.execute_ticks as u64);
    put_bytes(out, at, &bytes);
}

// Sixteen bytes: the fault, the last transfer and the last operation of the ALU.
pub(crate) fn put_last(out: &mut [u8], at: usize, s: State) {
    let mut bytes = [0u8; 16];
    put_bytes(&mut bytes, 0, &fault_bytes(s.fault));
    put_bytes(&mut bytes, 4, &transfer_bytes(s.last_transfer));
    put_bytes(&mut bytes, 8, &alu_bytes(s.last_alu));
    put_bytes(out, at, &bytes);
}
