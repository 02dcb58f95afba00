// One record of each kind, written where it is known to fit. `out`, `at` and `clearance` are no struct: `at` differs at
// each call, so that each would make a new one.
// The kinds are written as document 01's table has them (section 6): an enum would name each kind once more.
ghost use Rattle.std.specs.Prelude.{◌≡◌, [], ◌∷◌, ◌+◌, ◌≤◌, length};
ghost use Rattle.encoding.specs.Bytes.{over, big_endian};
ghost use Rattle.isa.specs.Sizes.{text_width};
ghost use Rattle.marks.specs.Owners.{hidden_from};
ghost use Rattle.secret.specs.Widths.{kind_width, head_length, value_length, start_length, break_length, trace_length};
ghost use Rattle.secret.specs.Widths.{control_length, counts_length, end_length};
ghost use Rattle.secret.specs.Report.{head_record, shown_text, value_record, start_record, trace_bytes};
ghost use Rattle.control.specs.Codes.{fault_width, fault_bytes};
ghost use Rattle.secret.specs.Report.{control_bytes, count_bytes, end_record};

use crate::widths::{
    BREAK_COUNT_AT, BUDGET_AT, CLEARANCE_AT, CONTROL_AT, CONTROL_LENGTH, COUNT_WIDTH,
    COUNTS_LENGTH, KIND_WIDTH, NUMBER_WIDTH, PLACE_AND_PHASE, PLACE_AND_VALUE, WORD_LENGTH,
};
use control::{ADDRESS_WIDTH, Address, Counters, Fault, State, fault_bytes};
use disasm::disassemble_into;
use encoding::{put_bytes, put_number};
use isa::TEXT_WIDTH;
use marks::{is_hidden, shown_value};
use vm::Begun;

// Kind 09, at byte 0: image length, budget, breakpoint count, clearance.
pub(crate) fn put_head(out: &mut [u8], len: usize, budget: Begun, count: usize, clearance: u8)
    requires { head_length ≤ length out.old }
    ensures { out.new ≡ over out.old 0 (head_record len budget.0 count clearance) }
{
    let last = [clearance];
    put_number(out, 0, KIND_WIDTH, 9);
    put_number(out, KIND_WIDTH, COUNT_WIDTH, len as u64);
    put_number(out, BUDGET_AT, NUMBER_WIDTH, budget.0);
    put_number(out, BREAK_COUNT_AT, COUNT_WIDTH, count as u64);
    put_bytes(out, CLEARANCE_AT, &last);
}

// The disassembly that a record shows: zeros for a word that is hidden.
fn put_text(out: &mut [u8], at: usize, clearance: u8, mark: u8, word: u16)
    requires { at + text_width ≤ length out.old }
    ensures { out.new ≡ over out.old at (shown_text (hidden_from clearance) mark word) }
{
    let hidden = is_hidden(clearance, mark);
    if !hidden {
        disassemble_into(out, at, word);
        return;
    }
    let zeros = [0u8; TEXT_WIDTH];
    put_bytes(out, at, &zeros);
}

// A record of a kind: an index in `width` bytes, mark, value.
pub(crate) fn put_value(
    out: &mut [u8],
    at: usize,
    clearance: u8,
    kind: u8,
    width: usize,
    index: usize,
    mark: u8,
    value: u16,
)
    requires { at + value_length width ≤ length out.old }
    ensures { out.new
        ≡ over out.old at (value_record (hidden_from clearance) kind (big_endian width index) mark value) }
{
    let v = shown_value(clearance, mark, value);
    let tail = [mark, (v / 256 % 256) as u8, (v % 256) as u8];
    let second = at + KIND_WIDTH;
    out[at] = kind;
    put_number(out, second, width, index as u64);
    put_bytes(out, second + width, &tail);
}

// Kind 02: address, mark, value, disassembly.
pub(crate) fn put_start(
    out: &mut [u8],
    at: usize,
    clearance: u8,
    address: usize,
    mark: u8,
    word: u16,
)
    requires { at + start_length ≤ length out.old }
    ensures { out.new ≡ over out.old at (start_record (hidden_from clearance) address mark word) }
{
    put_value(out, at, clearance, 2, ADDRESS_WIDTH, address, mark, word);
    put_text(out, at + WORD_LENGTH, clearance, mark, word);
}

// Kind 03, and the first two bytes of kind 08.
pub(crate) fn put_byte(out: &mut [u8], at: usize, kind: u8, byte: u8)
    requires { at + break_length ≤ length out.old }
    ensures { out.new ≡ over out.old at (kind ∷ byte ∷ []) }
{
    let bytes = [kind, byte];
    put_bytes(out, at, &bytes);
}

// Kinds 07 and 0A: a number in `width` bytes.
pub(crate) fn put_numbered(out: &mut [u8], at: usize, kind: u8, width: usize, number: u64)
    requires { at + (kind_width + width) ≤ length out.old }
    ensures { out.new ≡ over out.old at (kind ∷ big_endian width number) }
{
    put_number(out, at, KIND_WIDTH, kind as u64);
    put_number(out, at + KIND_WIDTH, width, number);
}

// Kind 04: number, address, phase, and the bytes of a text.
pub(crate) fn put_traced(
    out: &mut [u8],
    at: usize,
    number: u64,
    address: u8,
    phase: u8,
    text: &[u8],
)
    requires { (at + trace_length ≤ length out.old) × (length text.now ≡ text_width) }
    ensures { out.new ≡ over out.old at (trace_bytes number address phase text.now) }
{
    put_number(out, at, KIND_WIDTH, 4);
    let second = at + KIND_WIDTH;
    put_number(out, second, NUMBER_WIDTH, number);
    let third = second + NUMBER_WIDTH;
    let bytes = [address, phase];
    put_bytes(out, third, &bytes);
    put_bytes(out, third + PLACE_AND_PHASE, text);
}

// PC, IR, MAR, MDR's mark, and MDR as it is shown.
fn put_control(out: &mut [u8], at: usize, pc: u8, ir: u16, mar: Address, mark: u8, mdr: u16)
    requires { at + control_length ≤ length out.old }
    ensures { out.new ≡ over out.old at (control_bytes pc ir mar mark mdr) }
{
    let first = [pc, (ir / 256 % 256) as u8, (ir % 256) as u8];
    let last = [mark, (mdr / 256 % 256) as u8, (mdr % 256) as u8];
    put_bytes(out, at, &first);
    let second = at + PLACE_AND_VALUE;
    put_number(out, second, ADDRESS_WIDTH, mar as u64);
    put_bytes(out, second + ADDRESS_WIDTH, &last);
}

fn put_counts(out: &mut [u8], at: usize, counters: Counters)
    requires { at + counts_length ≤ length out.old }
    ensures { out.new ≡ over out.old at (count_bytes counters) }
{
    put_number(out, at, NUMBER_WIDTH, counters.instructions);
    let second = at + NUMBER_WIDTH;
    put_number(out, second, NUMBER_WIDTH, counters.micro_operations);
    let third = second + NUMBER_WIDTH;
    put_number(out, third, NUMBER_WIDTH, counters.bus_reads);
    put_number(out, third + NUMBER_WIDTH, NUMBER_WIDTH, counters.bus_writes);
}

fn put_fault(out: &mut [u8], at: usize, fault: Option<Fault>)
    requires { at + fault_width ≤ length out.old }
    ensures { out.new ≡ over out.old at (fault_bytes fault) }
{
    let bytes = fault_bytes(fault);
    put_bytes(out, at, &bytes);
}

// Kind 08: stop, the control unit's registers, counts, fault.
pub(crate) fn put_end(
    out: &mut [u8],
    at: usize,
    clearance: u8,
    stop: u8,
    state: State,
    counters: Counters,
    mark: u8,
)
    requires { at + end_length ≤ length out.old }
    ensures { out.new ≡ over out.old at (end_record (hidden_from clearance) stop state counters mark) }
{
    let control = state.control;
    let fault = state.fault;
    let mdr = shown_value(clearance, mark, control.mdr);
    put_byte(out, at, 8, stop);
    let second = at + CONTROL_AT;
    put_control(out, second, control.pc, control.ir, control.mar, mark, mdr);
    let third = second + CONTROL_LENGTH;
    put_counts(out, third, counters);
    put_fault(out, third + COUNTS_LENGTH, fault);
}
