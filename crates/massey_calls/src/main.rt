// The call program: a list of calls on a machine on standard input, each call's answer on standard
// output (docs/FORMATS.md, 'The call program').
#![tactic(auto)]

mod calls;
mod command;
mod dump;
mod list;
mod output;
mod set;
mod state;

use answer::read_input;
use command::Rest;
use output::write_malformed;
use std::io::{Result, Write};

// The longest input that is played, and one byte more, by which a longer one is noticed.
const INPUT: usize = 262145;

// The longest store.
const STORE: u32 = 65536;

// The longest answer: a dump with the longest store.
const ANSWER: usize = 88932;

// Plays an input that begins as it should: its first four bytes are the store's length.
fn play<W: Write>(to: &mut W, input: &[u8]) -> Result<()> {
    let mut rest = Rest::new(input);
    let size = match rest.long() {
        Some(size) if size <= STORE => size as usize,
        _ => return write_malformed(to),
    };
    let mut store = io::large_buffer();
    let mut out = [0u8; ANSWER];
    list::play(to, rest, &mut store[..size], &mut out)
}

// An input that is too long is malformed from its start, and so is one that could not be read to its
// end.
fn main(rt: HostRuntime) -> Result<()> {
    let mut input = [0u8; INPUT];
    let got = read_input(&mut rt.stdin(), &mut input);
    let n = got.len;
    if n == INPUT || !got.whole {
        return write_malformed(&mut rt.stdout());
    }
    play(&mut rt.stdout(), &input[..n])
}
