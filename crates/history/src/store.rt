// The records in the store: the oldest at byte 0, each next one record's length further.
ghost use Rattle.std.specs.Prelude.{◌≡◌, ◌+◌, ◌≤◌, length};
ghost use Rattle.encoding.specs.Bytes.{over};
ghost use Rattle.history.specs.Record.{record_length, record_bytes};
ghost use Rattle.history.specs.Store.{limit_of, push_count, push_store, newest};

use crate::layout::{RECORD_LENGTH, decode, encode};
use crate::snapshot::Snapshot;

// The Rust's limit, whatever the store holds.
const HISTORY_LIMIT: usize = 20000;

// How many records a store of `len` bytes holds.
pub fn history_limit(len: usize) -> usize
    ensures { result ≡ limit_of len }
{
    HISTORY_LIMIT.min(len / RECORD_LENGTH)
}

#[tactic(auto, using(crate::proofs::Parts::part_back))]
fn put_record(store: &mut [u8], at: usize, snapshot: Snapshot)
    requires { at + record_length ≤ length store.old }
    ensures { store.new ≡ over store.old at (record_bytes snapshot) }
{
    encode(&mut store[at..], snapshot);
}

// Puts a snapshot behind the `count` records of the store and answers how many there are then; at the limit
// the oldest goes. A store that holds no record, or fewer than `count`, is kept.
#[tactic(auto, unfolding(crate::specs::Store::push_store, crate::specs::Store::with_record, crate::specs::Store::moved_down))]
pub fn push_record(store: &mut [u8], count: usize, snapshot: Snapshot) -> usize
    ensures answer { result ≡ push_count (length store.old) count }
    ensures left { store.new ≡ push_store store.old count snapshot }
{
    let limit = history_limit(store.len());
    if count < limit {
        put_record(store, count * RECORD_LENGTH, snapshot);
        return count + 1;
    }
    if count == limit && 0 < count {
        store.copy_within(RECORD_LENGTH..count * RECORD_LENGTH, 0);
        put_record(store, (count - 1) * RECORD_LENGTH, snapshot);
    }
    count
}

// The newest of the `count` records, read from its own place inside the store.
#[tactic(auto, unfolding(crate::specs::Store::newest))]
pub fn newest_record(store: &[u8], count: usize) -> Option<Snapshot>
    ensures { result ≡ newest store.now count }
{
    if count == 0 || history_limit(store.len()) < count {
        return None;
    }
    decode(&store[(count - 1) * RECORD_LENGTH..])
}
