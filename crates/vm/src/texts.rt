// The texts of the newest register transfers.
ghost use Rattle.std.specs.Prelude.{◌≡◌, ◌≤◌, ◌<◌, [], length, get_or};
ghost use Rattle.isa.specs.Text.{text};
ghost use Rattle.vm.specs.Instruction.{texts_from};
ghost use Rattle.trace.specs.Trace.{text_at, live_texts, take_last, texts_in, columns_length, trace_limit};

use isa::Text;
use plan::TransferPlan;
use trace::{COLUMNS_LENGTH, Ring, TRACE_LIMIT};

// The text in slot `at`.
fn text_at(at: usize, columns: &[u8; COLUMNS_LENGTH], lengths: &[u8; TRACE_LIMIT]) -> Text
    requires { (at < trace_limit) × (length columns.now ≡ columns_length) × (length lengths.now ≡ trace_limit) }
    ensures { result ≡ text_at (texts_in columns.now) lengths.now at }
{
    let mut bytes = [0u8; 32];
    bytes.copy_from_slice(&columns[at * 32..at * 32 + 32]);
    Text {
        bytes,
        len: lengths[at],
    }
}

// Text `i` of the newest `n` records, and an empty one past them.
pub(crate) fn newest_text(
    ring: Ring,
    n: usize,
    i: usize,
    columns: &[u8; COLUMNS_LENGTH],
    lengths: &[u8; TRACE_LIMIT],
) -> Text
    requires { (n ≤ ring.len) × (ring.len ≤ trace_limit) × (length columns.now ≡ columns_length) × (length lengths.now ≡ trace_limit) }
    ensures { result ≡ get_or (take_last n (live_texts ring.start ring.len (texts_in columns.now) lengths.now)) i (text []) }
{
    if n <= i {
        return Text::from_bytes(b"");
    }
    let from = ring.start % TRACE_LIMIT;
    let first = from + ring.len - n;
    text_at((first + i) % TRACE_LIMIT, columns, lengths)
}

// The texts of the newest `n` records.
pub(crate) fn newest_texts(
    ring: Ring,
    n: usize,
    columns: &[u8; COLUMNS_LENGTH],
    lengths: &[u8; TRACE_LIMIT],
) -> TransferPlan
    requires { (n ≤ 7) × (n ≤ ring.len) × (ring.len ≤ trace_limit)
        × (length columns.now ≡ columns_length) × (length lengths.now ≡ trace_limit) }
    ensures { result ≡ texts_from (take_last n (live_texts ring.start ring.len (texts_in columns.now) lengths.now)) }
{
    let mut texts = [Text::from_bytes(b""); 7];
    for i in 0..n {
        texts[i] = newest_text(ring, n, i, columns, lengths);
    }
    let count = n as u8;
    TransferPlan { texts, count }
}
