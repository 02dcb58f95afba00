// The addresses of memory that LOAD [yz] and STORE reach. PC, an instruction's address, a fault's and a
// breakpoint are bytes, whatever becomes of these.
ghost use Rattle.std.specs.Prelude.{◌≡◌};
ghost use Rattle.control.specs.Address.{reached_address};

// The address of a word of memory.
pub type Address = u8;

// Its bytes in a history record and in a report.
pub const ADDRESS_WIDTH: usize = 1;

// The address that LOAD [yz] and STORE reach.
pub fn reached_address(word: u16) -> Address
    ensures { result ≡ reached_address word }
{
    (word % 256) as Address
}
