// The last transfer over the bus of a whole instruction.
ghost use Rattle.std.specs.Prelude.{◌≡◌};
ghost use Rattle.control.specs.Last.{last_bus, last_address, last_value, last_sent};

use crate::control::BusTransfer;

// With its address and its value: that of the fetch, or a later one.
pub fn last_bus(bus: Option<BusTransfer>, at: u8, word: u16) -> Option<BusTransfer>
    ensures { result ≡ last_bus bus at word }
{
    let fetch = BusTransfer::Read {
        address: at,
        value: word,
    };
    bus.or(Some(fetch))
}

pub fn last_address(bus: Option<BusTransfer>, at: u8) -> u8
    ensures { result ≡ last_address bus at }
{
    match bus {
        Some(BusTransfer::Read { address, .. } | BusTransfer::Write { address, .. }) => address,
        None => at,
    }
}

pub fn last_value(bus: Option<BusTransfer>, word: u16) -> u16
    ensures { result ≡ last_value bus word }
{
    match bus {
        Some(BusTransfer::Read { value, .. } | BusTransfer::Write { value, .. }) => value,
        None => word,
    }
}

// What the last tick sends: only STORE's is a transfer.
pub fn last_sent(bus: Option<BusTransfer>) -> Option<BusTransfer>
    ensures { result ≡ last_sent bus }
{
    match bus {
        Some(BusTransfer::Write { .. }) => bus,
        _ => None,
    }
}
