// The trace: a ring of the last 512 register transfers, in three arrays that can be lent. One has the
// numbers, one the lengths of the texts, and one has columns of bytes, one behind the other: the texts,
// 32 bytes each, the addresses, the phases. Few arrays keep the functions that hand them on quick to
// prove; the lengths stay apart, since each test of a state reads them and nothing else of the trace.
ghost use Rattle.std.specs.Prelude.{◌≡◌, ◌*◌, ◌<◌, length};
ghost use Rattle.isa.specs.Sizes.{text_width};
ghost use Rattle.encoding.specs.Bytes.{over};
ghost use Rattle.trace.specs.Trace.{trace_limit, columns_length, tick_phase};
ghost use Rattle.trace.specs.Forms.{arrays_at_first, arrays_at_last, next_ring, push_fields};

use crate::{ADDRESSES_AT, COLUMNS_LENGTH, PHASES_AT, TRACE_LIMIT};
use isa::{TEXT_WIDTH, Text};
use plan::phase_of;

// One register transfer: its number, the instruction's address, the phase (0 fetch, 2 execute), and
// its text.
#[derive(Drop)]
pub struct TraceRecord {
    pub number: u64,
    pub address: u8,
    pub phase: u8,
    pub text: Text,
}

// The oldest record's slot, and how many records there are.
#[derive(Clone, Copy)]
pub struct Ring {
    pub start: usize,
    pub len: usize,
}

fn put_text(t: Text, at: usize, out: &mut [u8])
    requires { (at < trace_limit) × (length out.old ≡ columns_length) }
    ensures { out.new ≡ over out.old (at * text_width) t.bytes }
{
    let from = at * TEXT_WIDTH;
    out[from..from + TEXT_WIDTH].copy_from_slice(&t.bytes);
}

// The ring with one record more; of 512 the oldest goes.
#[tactic(auto, unfolding(crate::specs::Forms::next_ring))]
fn next_ring(ring: Ring) -> Ring
    ensures { result ≡ next_ring ring }
{
    let from = ring.start % TRACE_LIMIT;
    if ring.len < TRACE_LIMIT {
        return Ring {
            start: from,
            len: ring.len + 1,
        };
    }
    Ring {
        start: (from + 1) % TRACE_LIMIT,
        ..ring
    }
}

// The phase of a tick, as the trace has it.
pub fn tick_phase(tick: u8) -> u8
    ensures { result ≡ tick_phase tick }
{
    phase_of(tick).number()
}

// One record more; of 512 the oldest goes. Each array is lent alone, here and in `push_lines`: the machine has them as
// public fields, which no struct may take in.
#[tactic(auto, unfolding(crate::specs::Forms::push_into, crate::specs::Forms::put_columns))]
pub fn push_trace(
    ring: Ring,
    text: Text,
    number: u64,
    address: u8,
    phase: u8,
    columns: &mut [u8; COLUMNS_LENGTH],
    numbers: &mut [u64; TRACE_LIMIT],
    lengths: &mut [u8; TRACE_LIMIT],
) -> Ring
    ensures { arrays_at_last result columns numbers lengths
        ≡ push_fields number address phase text (arrays_at_first ring columns numbers lengths) }
{
    let from = ring.start % TRACE_LIMIT;
    let room = ring.len % TRACE_LIMIT;
    let at = (from + room) % TRACE_LIMIT;
    put_text(text, at, columns);
    columns[ADDRESSES_AT + at] = address;
    columns[PHASES_AT + at] = phase;
    numbers[at] = number;
    lengths[at] = text.len;
    next_ring(ring)
}
