// Records of kind 'M': one tick of a running machine.
use crate::state::{
    alu_of, option_of, put_control, put_last, transfer_bytes, transfer_of, write_bytes,
};
use control::{Control, Counters, Operands, State, Tick, count_tick, fault_of, is_lawful};
use encoding::{put_bytes, put_number};
use plan::{phase_of, tick_text};
use replay::{byte_at, put_text, word_at};
use tick::tick_of;

// The control unit that the question has. It runs: a halted machine has no tick.
fn control_of(record: &[u8]) -> Control {
    Control {
        pc: byte_at(record, 1),
        ir: word_at(record, 2),
        mar: byte_at(record, 4),
        mdr: word_at(record, 5),
        instruction_address: byte_at(record, 7),
        tick: byte_at(record, 8),
        execute_ticks: byte_at(record, 9),
        halted: false,
    }
}

// The words that the tick may read.
fn operands_of(record: &[u8]) -> Operands {
    Operands {
        cell: word_at(record, 10),
        x: word_at(record, 12),
        y: word_at(record, 14),
        z: word_at(record, 16),
        zero: word_at(record, 18),
    }
}

// The whole state that the question has.
fn state_of(record: &[u8]) -> State {
    let control = control_of(record);
    let fault = fault_of(
        byte_at(record, 20),
        word_at(record, 21),
        byte_at(record, 23),
    );
    let last_transfer = transfer_of(
        byte_at(record, 24),
        byte_at(record, 25),
        word_at(record, 26),
    );
    let right = option_of(byte_at(record, 31), word_at(record, 32));
    let last_alu = alu_of(
        byte_at(record, 28),
        word_at(record, 29),
        right,
        word_at(record, 34),
    );
    State {
        control,
        fault,
        last_transfer,
        last_alu,
    }
}

// The words that the tick may read, again.
fn put_operands(out: &mut [u8], o: Operands) {
    put_number(out, 10, 2, o.cell as u64);
    put_number(out, 12, 2, o.x as u64);
    put_number(out, 14, 2, o.y as u64);
    put_number(out, 16, 2, o.z as u64);
    put_number(out, 18, 2, o.zero as u64);
}

// The question again, as the state and the words say it.
fn put_question(out: &mut [u8], s: State, o: Operands) {
    put_bytes(out, 0, b"M");
    put_control(out, 1, s.control);
    put_operands(out, o);
    put_last(out, 20, s);
}

// The state that the tick leaves.
fn put_state(out: &mut [u8], s: State) {
    put_control(out, 36, s.control);
    put_number(out, 45, 1, s.control.halted as u64);
    put_last(out, 46, s);
}

// The tick's text and its phase, which the control unit says as it was before.
fn put_text_and_phase(out: &mut [u8], before: Control, o: Operands) {
    let tick = before.tick;
    put_text(out, 62, tick_text(tick, o.x == o.zero, before.ir));
    put_number(out, 95, 1, phase_of(tick).number() as u64);
}

// What the counters grow by, a byte each.
fn put_growth(out: &mut [u8], t: Tick) {
    let none = Counters {
        instructions: 0,
        micro_operations: 0,
        bus_reads: 0,
        bus_writes: 0,
    };
    let k = count_tick(none, t.bus, t.completed);
    put_number(out, 108, 1, k.instructions);
    put_number(out, 109, 1, k.micro_operations);
    put_number(out, 110, 1, k.bus_reads);
    put_number(out, 111, 1, k.bus_writes);
}

// The rest of what the original reports of a tick, and the counters' growth. A machine that halts
// with no instruction completed has met an unknown one. The last 1 says that memory and registers
// are as the bus and the register write say: the original's side is tested where the list is made.
fn put_effects(out: &mut [u8], t: Tick) {
    let c = t.state.control;
    put_number(out, 96, 1, (c.tick == 0) as u64);
    put_number(out, 97, 1, c.halted as u64);
    put_number(out, 98, 1, (c.halted && !t.completed) as u64);
    put_bytes(out, 99, &transfer_bytes(t.bus));
    put_bytes(out, 103, &write_bytes(t.write));
    put_number(out, 107, 1, c.instruction_address as u64);
    put_growth(out, t);
    put_number(out, 112, 1, 1);
}

// Whether the record is the one that is due for its machine. The original came to the control unit before the
// tick and to the one after it, so neither may be refused.
pub(crate) fn passes(record: &[u8]) -> bool {
    let s = state_of(record);
    let o = operands_of(record);
    let t = tick_of(s, o);
    let lawful = is_lawful(s.control) && is_lawful(t.state.control);
    let mut due = [0u8; 113];
    put_question(&mut due, s, o);
    put_state(&mut due, t.state);
    put_text_and_phase(&mut due, s.control, o);
    put_effects(&mut due, t);
    lawful && record == &due[..]
}
