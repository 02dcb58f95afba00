// The execute ticks of LOAD [yz] and STORE.
ghost use Rattle.std.specs.Prelude.{◌≡◌};
ghost use Rattle.tick.specs.Tick.{to_mar_tick, load_tick, to_mdr_tick, write_word, store_tick};

use crate::parts::{quiet, read_word, register_tick, with_control};
use control::{BusTransfer, Control, State, Tick, reached_address};

// The address that LOAD or STORE reaches, to MAR.
fn to_mar(s: State) -> Tick
    ensures { result ≡ to_mar_tick s }
{
    let mar = reached_address(s.control.ir);
    quiet(with_control(s, Control { mar, ..s.control }))
}

pub(crate) fn load_tick(s: State, n: u8, cell: u16) -> Tick
    ensures { result ≡ load_tick n s cell }
{
    match n {
        0 => to_mar(s),
        1 => read_word(s, cell, s.control.tick),
        _ => register_tick(s, (s.control.ir / 256 % 16) as u8, s.control.mdr),
    }
}

// A register to MDR.
fn to_mdr(s: State, mdr: u16) -> Tick
    ensures { result ≡ to_mdr_tick s mdr }
{
    quiet(with_control(s, Control { mdr, ..s.control }))
}

// MDR to the word at MAR, over the bus.
fn write_word(s: State) -> Tick
    ensures { result ≡ write_word s }
{
    let bus = Some(BusTransfer::Write {
        address: s.control.mar,
        value: s.control.mdr,
    });
    let state = State {
        last_transfer: bus,
        ..s
    };
    Tick {
        bus,
        ..quiet(state)
    }
}

pub(crate) fn store_tick(s: State, n: u8, x: u16) -> Tick
    ensures { result ≡ store_tick n s x }
{
    match n {
        0 => to_mar(s),
        1 => to_mdr(s, x),
        _ => write_word(s),
    }
}
