// What ticks are made of: a state with another control unit, and ticks that reach no array, write a register, read
// a word.
ghost use Rattle.std.specs.Prelude.{◌≡◌};
ghost use Rattle.control.specs.Control.{with_control};
ghost use Rattle.tick.specs.Tick.{plain, writing, read_word};

use control::{BusTransfer, Control, RegisterWrite, State, Tick};

pub(crate) fn with_control(s: State, control: Control) -> State
    ensures { result ≡ with_control control s }
{
    State { control, ..s }
}

// A tick that reaches no array.
pub(crate) fn quiet(state: State) -> Tick
    ensures { result ≡ plain state }
{
    Tick {
        state,
        bus: None,
        write: None,
        completed: false,
    }
}

// A tick that writes a register.
pub(crate) fn register_tick(state: State, register: u8, value: u16) -> Tick
    ensures { result ≡ writing state register value }
{
    Tick {
        write: Some(RegisterWrite { register, value }),
        ..quiet(state)
    }
}

// A bus read to MDR.
pub(crate) fn read_word(s: State, value: u16, tick: u8) -> Tick
    ensures { result ≡ read_word s value tick }
{
    let bus = Some(BusTransfer::Read {
        address: s.control.mar,
        value,
    });
    let control = Control {
        mdr: value,
        tick,
        ..s.control
    };
    let state = State {
        control,
        last_transfer: bus,
        ..s
    };
    Tick {
        bus,
        ..quiet(state)
    }
}
