// The addresses where memory and image differ: `touched` after an undo.
ghost use Rattle.std.specs.Prelude.{◌≡◌};
ghost use Rattle.history.specs.Differences.{differences_of};

use control::Address;
use isa::MEMORY_WORDS;

// An array with a count: memory is fixed, without a heap, and a machine keeps its `touched` so.
#[derive(Drop)]
pub struct Differences {
    pub addresses: [Address; MEMORY_WORDS],
    pub count: usize,
}

// The addresses, ascending, and zeros behind them.
pub fn differing_addresses(image: [u16; MEMORY_WORDS], memory: [u16; MEMORY_WORDS]) -> Differences
    ensures { result ≡ differences_of image memory }
{
    let mut addresses = [0 as Address; MEMORY_WORDS];
    let mut count: usize = 0;
    for (i, (before, now)) in image.iter().zip(&memory).enumerate() {
        if before != now {
            addresses[count] = i as Address;
            count += 1;
        }
    }
    Differences { addresses, count }
}
