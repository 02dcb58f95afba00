// A table with 1 for each byte of a list, asked for before or in each instruction: breakpoints, and the touched
// addresses.
ghost use Rattle.std.specs.Prelude.{◌≡◌, ◌<◌, take};
ghost use Rattle.isa.specs.Sizes.{memory_words};
ghost use Rattle.trace.specs.Touched.{Addressed};
ghost use Rattle.direct.specs.Table.{table_of, noted_at_first, noted_at_last, note_seen, touch_seen};

use control::{Address, BusTransfer};
use isa::MEMORY_WORDS;

#[tactic(auto, using(crate::proofs::Tables::table_turn, crate::proofs::Tables::table_end))]
pub(crate) fn table_of(items: &[u8]) -> [u8; MEMORY_WORDS]
    ensures { result ≡ table_of items.now }
{
    let mut table = [0u8; MEMORY_WORDS];
    for a in items {
        table[*a as usize] = 1;
    }
    table
}

// Of the first n; of all where there are fewer.
pub(crate) fn first_table(items: &[Address], n: usize) -> [u8; MEMORY_WORDS]
    ensures { result ≡ table_of (take n items.now) }
{
    table_of(&items[..n.min(items.len())])
}

// The address `a` is added, once; as many as memory has words are all there are. The table is set before that is tested,
// so that the compiler does not test it where the table has the address, as it mostly does.
#[tactic(auto, unfolding(crate::specs::Table::note_seen))]
fn note_seen(
    a: Address,
    items: &mut [Address; MEMORY_WORDS],
    n: usize,
    seen: &mut [u8; MEMORY_WORDS],
) -> usize
    requires { a < memory_words }
    ensures { noted_at_last result items seen ≡ note_seen a (noted_at_first n items seen) }
{
    let at = a as usize;
    if seen[at] == 1 {
        return n;
    }
    seen[at] = 1;
    if MEMORY_WORDS <= n {
        return n;
    }
    items[n] = a;
    n + 1
}

// `touch` of the trace, with a table in place of a search.
pub(crate) fn touch_seen(
    bus: Option<BusTransfer>,
    items: &mut [Address; MEMORY_WORDS],
    n: usize,
    seen: &mut [u8; MEMORY_WORDS],
) -> usize
    requires { Addressed bus }
    ensures { noted_at_last result items seen ≡ touch_seen bus (noted_at_first n items seen) }
{
    match bus {
        Some(BusTransfer::Write { address, .. }) => note_seen(address, items, n, seen),
        _ => n,
    }
}
