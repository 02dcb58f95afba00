// Rows of records, one behind the other, written where they are known to fit.
ghost use Rattle.std.specs.Prelude.{◌≡◌, ◌+◌, ◌*◌, ◌≤◌, length, get_or};
ghost use Rattle.encoding.specs.Bytes.{over, big_endian};
ghost use Rattle.isa.specs.Sizes.{memory_words};
ghost use Rattle.trace.specs.Trace.{trace_limit, columns_length};
ghost use Rattle.vm.specs.Calls.{image_words};
ghost use Rattle.marks.specs.Owners.{hidden_from};
ghost use Rattle.secret.specs.Widths.{number_width, head_length, break_length, trace_length, value_length, touched_length, break_records_at};
ghost use Rattle.secret.specs.Report.{start_records, break_record, touched_record, each_record, value_records};
ghost use Rattle.secret.specs.Forms.{slot_records};

use crate::records::{put_byte, put_numbered, put_start, put_traced, put_value};
use crate::widths::{
    BREAK_LENGTH, HEAD_LENGTH, KIND_WIDTH, MARK_WIDTH, START_LENGTH, TOUCHED_LENGTH, TRACE_LENGTH,
    VALUE_WIDTH,
};
use control::{ADDRESS_WIDTH, Address};
use isa::{MEMORY_WORDS, TEXT_WIDTH};
use trace::{ADDRESSES_AT, PHASES_AT, TRACE_LIMIT};

// The word at an address; past the image it is 0.
fn word_at(image: &[u16], address: usize) -> u16
    ensures { result ≡ get_or image.now address 0 }
{
    image.get(address).copied().unwrap_or(0)
}

// Kind 02, behind the head: a record for each starting word.
pub(crate) fn put_starts(out: &mut [u8], image: &[u16], marks: &[u8], clearance: u8)
    requires { (break_records_at ≤ length out.old) × (length marks.now ≡ memory_words) }
    ensures { out.new
        ≡ over out.old head_length
        (start_records (hidden_from clearance) (image_words image.now) marks.now) }
{
    for (i, &mark) in marks.iter().enumerate() {
        let word = word_at(image, i);
        put_start(
            out,
            HEAD_LENGTH + START_LENGTH * i,
            clearance,
            i,
            mark,
            word,
        );
    }
}

// Kind 03: a record for each breakpoint.
pub(crate) fn put_breaks(out: &mut [u8], at: usize, list: &[u8])
    requires { at + break_length * length list.now ≤ length out.old }
    ensures { out.new ≡ over out.old at (each_record break_record list.now) }
{
    for (i, &address) in list.iter().enumerate() {
        put_byte(out, at + BREAK_LENGTH * i, 3, address);
    }
}

// Kind 07: a record for each touched address.
pub(crate) fn put_touches(out: &mut [u8], at: usize, list: &[Address])
    requires { at + touched_length * length list.now ≤ length out.old }
    ensures { out.new ≡ over out.old at (each_record touched_record list.now) }
{
    for (i, &address) in list.iter().enumerate() {
        put_numbered(
            out,
            at + TOUCHED_LENGTH * i,
            7,
            ADDRESS_WIDTH,
            address as u64,
        );
    }
}

// Kind 04: the first `n` records of a trace, whose oldest is in slot `start`.
pub(crate) fn put_trace(
    out: &mut [u8],
    at: usize,
    start: usize,
    n: usize,
    columns: &[u8],
    numbers: &[u64],
)
    requires { (at + trace_length * n ≤ length out.old)
        × (length columns.now ≡ columns_length) × (length numbers.now ≡ trace_limit) }
    ensures { out.new ≡ over out.old at (slot_records start n columns.now numbers.now) }
{
    let from = start % TRACE_LIMIT;
    for i in 0..n {
        let slot = (from + i) % TRACE_LIMIT;
        let first = slot * TEXT_WIDTH;
        let last = first + TEXT_WIDTH;
        put_traced(
            out,
            at + TRACE_LENGTH * i,
            numbers[slot],
            columns[ADDRESSES_AT + slot],
            columns[PHASES_AT + slot],
            &columns[first..last],
        );
    }
}

// Kinds 05 and 06: a record for each value, with its index in `width` bytes and its mark.
pub(crate) fn put_values(
    out: &mut [u8],
    at: usize,
    clearance: u8,
    kind: u8,
    width: usize,
    values: &[u16],
    marks: &[u8],
)
    requires { (at + value_length width * length values.now ≤ length out.old)
        × (length marks.now ≡ length values.now) × (width ≤ number_width) }
    ensures { out.new
        ≡ over out.old at
        (value_records (hidden_from clearance) kind (big_endian width) (length values.now) values.now marks.now) }
{
    let size = KIND_WIDTH + width + MARK_WIDTH + VALUE_WIDTH;
    for (i, &value) in values.iter().enumerate() {
        put_value(
            out,
            at + size * i,
            clearance,
            kind,
            width,
            i,
            marks[i],
            value,
        );
    }
}
