// A machine that runs a program image, and how much it did. Each call has one call of the machine in
// it, so that the compiler can put that call's code into the loop.
ghost use Rattle.std.specs.Prelude.{◌≡◌, true, []};
ghost use Rattle.vm.specs.Calls.{view_of, is_machine};
ghost use Rattle.massey_bench.specs.Machine.{word_count, start, ticks_on, run_count, steps_count, ticks_count};

use encoding::get_words;
use isa::MEMORY_WORDS;
use vm::{Begun, Machine};

// How many words there are in so many bytes, at most 256.
fn word_count(bytes: usize) -> usize
    ensures { result ≡ word_count bytes }
{
    (bytes / 2).min(MEMORY_WORDS)
}

// A new machine with the image's words loaded, high byte first; an odd byte at the end is none.
pub(crate) fn started(image: &[u8]) -> Machine
    ensures { result ≡ start image.now }
{
    let n = word_count(image.len());
    let mut words = [0u16; MEMORY_WORDS];
    get_words(image, 0, &mut words[..n]);
    let mut m = Machine::new();
    let _ = m.load_image(&words[..n]);
    m
}

// The machine after `n` ticks, one at a time.
fn ticked(image: &[u8], n: u64) -> Machine
    ensures { (view_of result ≡ ticks_on image.now n) × (is_machine result ≡ true) }
{
    let mut m = started(image);
    for _ in 0..n {
        let _ = m.micro_step();
    }
    m
}

// The micro operations of a run with that budget and these breakpoints, after `ticks` micro operations one at a time.
#[unsafe(no_mangle)]
pub extern "C" fn massey_run(image: &[u8], ticks: u64, budget: u64, breakpoints: &[u8]) -> u64
    ensures { result ≡ run_count image.now ticks budget breakpoints.now }
{
    let mut m = ticked(image, ticks);
    let _ = m.run(Begun(budget), breakpoints);
    m.counters.micro_operations
}

// The same by the direct engine, from the start and without breakpoints.
#[unsafe(no_mangle)]
pub extern "C" fn massey_direct_run(image: &[u8], budget: u64) -> u64
    ensures { result ≡ run_count image.now 0 budget [] }
{
    let mut m = started(image);
    let _ = m.direct_run(Begun(budget), b"");
    m.counters.micro_operations
}

// The micro operations of `n` instructions, one at a time.
#[unsafe(no_mangle)]
pub extern "C" fn massey_steps(image: &[u8], n: u64) -> u64
    ensures { result ≡ steps_count image.now n }
{
    let mut m = started(image);
    for _ in 0..n {
        let _ = m.step_instruction();
    }
    m.counters.micro_operations
}

// The same, without ticks.
#[unsafe(no_mangle)]
pub extern "C" fn massey_direct_steps(image: &[u8], n: u64) -> u64
    ensures { result ≡ steps_count image.now n }
{
    let mut m = started(image);
    for _ in 0..n {
        let _ = m.direct_instruction();
    }
    m.counters.micro_operations
}

// The micro operations of `n` ticks, one at a time.
#[unsafe(no_mangle)]
pub extern "C" fn massey_ticks(image: &[u8], n: u64) -> u64
    ensures { result ≡ ticks_count image.now n }
{
    let m = ticked(image, n);
    m.counters.micro_operations
}
