// The addresses that the running program has written to, in order of first writing: an array of memory's size with the
// number of its live places beside it, since there is no heap.
ghost use Rattle.std.specs.Prelude.{◌≡◌};
ghost use Rattle.trace.specs.Forms.{places_of, note_in, touch_in};

use control::{Address, BusTransfer};
use encoding::contains;
use isa::MEMORY_WORDS;

// The address `a` is added, once; as many as memory has words are all there are.
#[tactic(auto, unfolding(crate::specs::Forms::note_in))]
fn touch_at(a: Address, items: &mut [Address; MEMORY_WORDS], n: usize) -> usize
    ensures { places_of result items.new ≡ note_in a (places_of n items.old) }
{
    if MEMORY_WORDS <= n || contains(&items[..n], a) {
        return n;
    }
    items[n] = a;
    n + 1
}

// The address of a bus write is added, once.
#[tactic(auto, unfolding(crate::specs::Forms::touch_in))]
pub fn touch(b: Option<BusTransfer>, items: &mut [Address; MEMORY_WORDS], n: usize) -> usize
    ensures { places_of result items.new ≡ touch_in b (places_of n items.old) }
{
    match b {
        Some(BusTransfer::Write { address, .. }) => touch_at(address, items, n),
        _ => n,
    }
}
