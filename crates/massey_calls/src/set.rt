// The commands that set one field of the machine or one byte of the store, to reach states that no
// call reaches.
use crate::command::Setting;
use crate::state::slot_of;
use vm::Machine;

// A value that has to fit a byte.
fn byte_of(value: u64) -> u8 {
    (value % 0x100) as u8
}

// The same for a word.
fn word_of(value: u64) -> u16 {
    (value % 0x10000) as u16
}

// The same for a count.
fn count_of(value: u64) -> usize {
    (value % 0x10000) as usize
}

// One field of the machine. A number that is that of no field sets nothing. The numbers are read here
// alone: an enum of the fields would name each of them twice.
pub(crate) fn set_field(m: &mut Machine, setting: Setting) {
    let index = setting.index as usize;
    let value = setting.value;
    match setting.field {
        0x00 => m.state.control.pc = byte_of(value),
        0x01 => m.state.control.ir = word_of(value),
        0x02 => m.registers[index % 16] = word_of(value),
        0x03 => m.state.control.mar = byte_of(value),
        0x04 => m.state.control.mdr = word_of(value),
        0x05 => m.state.control.instruction_address = byte_of(value),
        0x06 => m.state.control.tick = byte_of(value),
        0x07 => m.state.control.execute_ticks = byte_of(value),
        0x08 => m.state.control.halted = value != 0,
        0x09 => m.counters.instructions = value,
        0x0A => m.counters.micro_operations = value,
        0x0B => m.counters.bus_reads = value,
        0x0C => m.counters.bus_writes = value,
        0x0D => m.image_len = count_of(value),
        0x0E => m.trace_len = count_of(value),
        0x0F => {
            let slot = slot_of(m, index);
            m.lengths[slot] = byte_of(value);
        }
        0x10 => m.touched_len = count_of(value),
        0x11 => m.touched[index % 256] = byte_of(value),
        0x12 => m.history_len = count_of(value),
        0x13 => m.memory[index % 256] = word_of(value),
        _ => {}
    }
}

// One byte of the store. An empty one has none to set.
pub(crate) fn set_byte(store: &mut [u8], offset: usize, value: u8) {
    if store.is_empty() {
        return;
    }
    let at = offset % store.len();
    store[at] = value;
}
