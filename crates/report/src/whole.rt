// A whole report: the records of the input, and those of the run's end behind them.
ghost use Rattle.std.specs.Prelude.{◌≡◌, ◌++◌, ◌+◌, ◌*◌, ◌≤◌, length, take};
ghost use Rattle.encoding.specs.Bytes.{over};
ghost use Rattle.isa.specs.Sizes.{memory_words, register_count};
ghost use Rattle.vm.specs.Calls.{view_of};
ghost use Rattle.marks.specs.Owners.{hidden_from};
ghost use Rattle.marks.specs.Marks.{marks_of};
ghost use Rattle.marks.specs.Total.{hidden_count};
ghost use Rattle.secret.specs.Widths.{touched_length, last_length, cells_length, run_records_at, run_length};
ghost use Rattle.secret.specs.Report.{index_bytes, address_bytes, touched_record, each_record, value_records, end_record, hidden_record};
ghost use Rattle.secret.specs.Report.{end_records};
ghost use Rattle.guard.specs.Stops.{stop_number};
ghost use Rattle.guard.specs.Input.{input_from};
ghost use Rattle.secret.specs.Forms.{Reportable, input_records};

use crate::records::{put_end, put_head, put_numbered};
use crate::rows::{put_breaks, put_starts, put_touches, put_trace, put_values};
use crate::widths::{
    BREAK_RECORDS_AT, CELLS_LENGTH, COUNT_WIDTH, END_LENGTH, INDEX_WIDTH, LAST_LENGTH,
    REGISTERS_LENGTH, TOUCHED_LENGTH, TRACE_LENGTH,
};
use control::ADDRESS_WIDTH;
use vm::{Begun, GuardedRun};

// Kinds 09, 02 and 03, at byte 0.
pub(crate) fn put_input(
    out: &mut [u8],
    image: &[u16],
    marks: &[u8],
    budget: Begun,
    breakpoints: &[u8],
    clearance: u8,
)
    requires { (run_records_at (length breakpoints.now) ≤ length out.old) × (length marks.now ≡ memory_words) }
    ensures { out.new
        ≡ over out.old 0
        (input_records (input_from image.now marks.now budget.0 breakpoints.now clearance)) }
{
    put_head(out, image.len(), budget, breakpoints.len(), clearance);
    put_starts(out, image, marks, clearance);
    put_breaks(out, BREAK_RECORDS_AT, breakpoints);
}

// Kinds 05 and 06.
fn put_cells(out: &mut [u8], at: usize, clearance: u8, run: &GuardedRun)
    requires { at + cells_length ≤ length out.old }
    ensures { let m = run.now.machine in let k = run.now.marks in
        out.new
        ≡ over out.old at
        (value_records (hidden_from clearance) 5 index_bytes register_count m.registers k.registers
        ++ value_records (hidden_from clearance) 6 address_bytes memory_words m.memory k.memory) }
{
    put_values(
        out,
        at,
        clearance,
        5,
        INDEX_WIDTH,
        &run.machine.registers,
        &run.marks.registers,
    );
    put_values(
        out,
        at + REGISTERS_LENGTH,
        clearance,
        6,
        ADDRESS_WIDTH,
        &run.machine.memory,
        &run.marks.memory,
    );
}

// Kinds 07, 08 and 0A.
fn put_last(out: &mut [u8], at: usize, clearance: u8, run: &GuardedRun)
    requires { (at + (touched_length * run.now.machine.touched_len + last_length) ≤ length out.old)
        × Reportable run.now.machine }
    ensures { let m = run.now.machine in
        out.new
        ≡ over out.old at
        (each_record touched_record (take m.touched_len m.touched)
        ++ (end_record (hidden_from clearance) (stop_number run.now.stop) m.state m.counters run.now.marks.mdr
        ++ hidden_record run.now.hidden_total)) }
{
    let machine = &run.machine;
    put_touches(out, at, &machine.touched[..machine.touched_len]);
    let second = at + TOUCHED_LENGTH * machine.touched_len;
    put_end(
        out,
        second,
        clearance,
        run.stop.number(),
        machine.state,
        machine.counters,
        run.marks.mdr,
    );
    put_numbered(
        out,
        second + END_LENGTH,
        0x0A,
        COUNT_WIDTH,
        run.hidden_total as u64,
    );
}

// Kinds 04 to 08 and 0A, from byte `at` on; what is answered is the place behind them.
pub(crate) fn put_run(out: &mut [u8], at: usize, clearance: u8, run: &GuardedRun) -> usize
    requires { (at + run_length run.now.machine.trace_len run.now.machine.touched_len ≤ length out.old)
        × Reportable run.now.machine
        × (run.now.hidden_total ≡ hidden_count (hidden_from clearance) run.now.marks.memory) }
    ensures { let m = run.now.machine in let k = run.now.marks in
        (result ≡ at + run_length m.trace_len m.touched_len)
        × (out.new
        ≡ over out.old at
        (end_records (hidden_from clearance) (stop_number run.now.stop) (view_of m)
        (marks_of k.memory k.registers k.mdr))) }
{
    let machine = &run.machine;
    let traced = machine.trace_len;
    put_trace(
        out,
        at,
        machine.trace_start,
        traced,
        &machine.columns,
        &machine.numbers,
    );
    let second = at + TRACE_LENGTH * traced;
    put_cells(out, second, clearance, run);
    let third = second + CELLS_LENGTH;
    put_last(out, third, clearance, run);
    third + TOUCHED_LENGTH * machine.touched_len + LAST_LENGTH
}
