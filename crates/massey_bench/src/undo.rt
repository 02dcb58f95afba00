// The history of a machine that runs a program image, for timing.
ghost use Rattle.std.specs.Prelude.{◌≡◌};
ghost use Rattle.vm.specs.Calls.{with_history};
ghost use Rattle.massey_bench.specs.Machine.{start};
ghost use Rattle.massey_bench.specs.History.{kept, pushes, undos};

use crate::machine::started;
use vm::Machine;

// A new machine on the image, that says it has so many history records.
fn started_with(image: &[u8], count: u64) -> Machine
    ensures { result ≡ with_history count (start image.now) }
{
    let mut m = started(image);
    m.history_len = count as usize;
    m
}

// Saves the machine's state `n` times in a store that holds `count` records, and answers how many it
// holds then.
#[unsafe(no_mangle)]
pub extern "C" fn massey_pushes(image: &[u8], store: &mut [u8], count: u64, n: u64) -> u64
    ensures answer { result ≡ (pushes n (kept image.now store.old count)).machine.history_len }
    ensures left { store.new ≡ (pushes n (kept image.now store.old count)).store }
{
    let mut m = started_with(image, count);
    for _ in 0..n {
        let _ = m.push_history(store);
    }
    m.history_len as u64
}

// Undoes `n` times from a store that holds `count` records, and answers how many are left.
#[unsafe(no_mangle)]
pub extern "C" fn massey_undos(image: &[u8], store: &[u8], count: u64, n: u64) -> u64
    ensures { result ≡ (undos n store.now (with_history count (start image.now))).history_len }
{
    let mut m = started_with(image, count);
    for _ in 0..n {
        let _ = m.undo(store);
    }
    m.history_len as u64
}
