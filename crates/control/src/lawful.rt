// Which states of the control unit a machine can be in.
ghost use Rattle.std.specs.Prelude.{◌≡◌};
ghost use Rattle.control.specs.Lawful.{lawful};

use crate::control::Control;
use isa::Instruction;
use plan::{FETCH_TICKS, execute_tick_count};

// Where it is not, each call on the machine is refused 8.
#[tactic(auto, unfolding(crate::specs::Lawful::lawful))]
pub fn is_lawful(c: Control) -> bool
    ensures { result ≡ lawful c }
{
    if 6 < c.tick {
        return false;
    }
    if c.halted || c.tick < FETCH_TICKS {
        return true;
    }
    let n = execute_tick_count(Instruction::from_word(c.ir).opcode());
    c.execute_ticks == n && c.tick - FETCH_TICKS < n
}
