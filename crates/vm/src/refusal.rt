// What is refused of a state.
ghost use Rattle.std.specs.Prelude.{◌≡◌, ◌≤◌, ◌<◌, ◌-◌, ℕ, length, take, drop, get_or, true, OnOk};
ghost use Rattle.isa.specs.Sizes.{memory_words};
ghost use Rattle.trace.specs.Trace.{short_texts, live_lengths, trace_limit};
ghost use Rattle.trace.specs.Touched.{distinct};
ghost use Rattle.vm.specs.Refusal.{served};
ghost use Rattle.vm.specs.Calls.{parts_of, is_machine, step_refusal_of};
ghost use Rattle.vm.specs.Forms.{Fit};

use crate::machine::Machine;
use control::{Address, is_lawful, is_over_counted};
use encoding::Refusal;
use isa::MEMORY_WORDS;
use trace::TRACE_LIMIT;

// No length from `from` up to `to` is over 32. There is no way out of the loop, so that the compiler
// tests many at once.
fn short_between(lengths: &[u8; TRACE_LIMIT], from: usize, to: usize) -> bool
    requires { (from ≤ to) × (to ≤ trace_limit) }
    ensures { result ≡ short_texts (take (to - from) (drop from lengths.now)) }
{
    let mut over = false;
    for &length in &lengths[from..to] {
        over |= 32 < length;
    }
    !over
}

// No live text is over 32 bytes.
fn texts_short(start: usize, n: usize, lengths: &[u8; TRACE_LIMIT]) -> bool
    requires { n ≤ trace_limit }
    ensures { result ≡ short_texts (live_lengths start n lengths.now) }
{
    let from = start % TRACE_LIMIT;
    let end = from + n;
    if end <= TRACE_LIMIT {
        return short_between(lengths, from, end);
    }
    let first = short_between(lengths, from, TRACE_LIMIT);
    let second = short_between(lengths, 0, end - TRACE_LIMIT);
    first & second
}

// No live address stands there twice.
fn all_different(items: &[Address; MEMORY_WORDS], n: usize) -> bool
    requires { n ≤ memory_words }
    ensures answer { result ≡ distinct (take n items.now) }
    ensures below { result ≡ true → (i : ℕ) → get_or items.now i 0 < memory_words }
{
    // One read, by which the proof has of each place, live or not, that it is an address of memory.
    let _first = items[0];
    let mut seen = [0u8; MEMORY_WORDS];
    for &item in &items[..n] {
        let a = item as usize;
        if seen[a] == 1 {
            return false;
        }
        seen[a] = 1;
    }
    true
}

impl Machine {
    // False where it is no machine: each call is refused 8.
    #[tactic(auto, unfolding(crate::specs::Refusal::parts_ok))]
    pub(crate) fn is_machine(&self) -> bool
        ensures answer { result ≡ is_machine self.now }
        ensures fit { result ≡ true → Fit (parts_of self.now) }
    {
        if !is_lawful(self.state.control) {
            return false;
        }
        if MEMORY_WORDS < self.image_len {
            return false;
        }
        if TRACE_LIMIT < self.trace_len {
            return false;
        }
        if !texts_short(self.trace_start, self.trace_len, &self.lengths) {
            return false;
        }
        if MEMORY_WORDS < self.touched_len {
            return false;
        }
        all_different(&self.touched, self.touched_len)
    }

    // Whether a call is served.
    pub(crate) fn served(&self) -> Result<(), Refusal>
        ensures answer { result ≡ served (is_machine self.now) tt }
        ensures fit { OnOk result (Fit (parts_of self.now)) }
    {
        if self.is_machine() {
            return Ok(());
        }
        Err(Refusal::NoMachine)
    }

    // Whether a tick or an instruction is.
    #[tactic(auto, unfolding(crate::specs::Refusal::step_refusal))]
    pub(crate) fn step_served(&self) -> Result<(), Refusal>
        ensures answer { result ≡ step_refusal_of self.now }
        ensures fit { OnOk result (Fit (parts_of self.now)) }
    {
        self.served()?;
        if self.state.control.halted {
            return Ok(());
        }
        if is_over_counted(self.counters) {
            return Err(Refusal::FullCounter);
        }
        Ok(())
    }
}
