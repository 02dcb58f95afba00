// The instructions of a run that its end does not show: made without their records, stretch after stretch.
ghost use Rattle.std.specs.Prelude.{◌≡◌};
ghost use Rattle.marks.specs.Owners.{hidden_from};
ghost use Rattle.direct.specs.Lane.{length_for, ahead_at_last, forward_from};

use crate::light::{Lane, Made, light_stretch};
use crate::table::{first_table, table_of};
use control::{Address, Counters};
use guard::Begun;
use isa::{MEMORY_WORDS, REGISTER_COUNT};

// More than the 129 instructions that write a trace anew.
const STRETCH: u64 = 256;

// A counter up to here is not near its end before any instruction of a stretch, none of which counts more than 7.
const ROOMY: u64 = 18446744073709549808;

// How long the next stretch may be: none where a counter comes near its end in it.
fn stretch_length(k: Counters) -> Begun
    ensures { result.0 ≡ length_for k }
{
    if k.instructions <= ROOMY
        && k.micro_operations <= ROOMY
        && k.bus_reads <= ROOMY
        && k.bus_writes <= ROOMY
    {
        return Begun(STRETCH);
    }
    Begun(0)
}

// At most `limit` instructions, stretch after stretch on copies, as long as each is made whole: the lent arrays stay
// one stretch behind, so that the instructions that are left write the trace. A run without marks hands in marks
// of 0.
pub fn light_forward(
    clearance: u8,
    from: Lane,
    limit: Begun,
    breakpoints: &[u8],
    memory: &mut [u16; MEMORY_WORDS],
    registers: &mut [u16; REGISTER_COUNT],
    touched: &mut [Address; MEMORY_WORDS],
    marks: &mut [u8; MEMORY_WORDS],
    register_marks: &mut [u8; REGISTER_COUNT],
) -> Made
    ensures { ahead_at_last result memory registers touched marks register_marks
        ≡ forward_from (hidden_from clearance) breakpoints.now limit.0 from memory registers touched marks register_marks }
{
    if limit.0 < STRETCH {
        return Made {
            lane: from,
            made: Begun(0),
        };
    }
    let breaks = table_of(breakpoints);
    let mut seen = first_table(touched, from.touched_len);
    let mut memory2 = *memory;
    let mut registers2 = *registers;
    let mut touched2 = *touched;
    let mut marks2 = *marks;
    let mut register_marks2 = *register_marks;
    let mut kept = from;
    let mut kept_made = 0;
    let mut s = from;
    for turn in 0..limit.0 / STRETCH {
        let memory3 = memory2;
        let registers3 = registers2;
        let touched3 = touched2;
        let marks3 = marks2;
        let register_marks3 = register_marks2;
        let m = light_stretch(
            clearance,
            s,
            stretch_length(s.counters),
            &breaks,
            &mut memory2,
            &mut registers2,
            &mut touched2,
            &mut seen,
            &mut marks2,
            &mut register_marks2,
        );
        if m.made.0 != STRETCH {
            break;
        }
        *memory = memory3;
        *registers = registers3;
        *touched = touched3;
        *marks = marks3;
        *register_marks = register_marks3;
        kept = s;
        kept_made = turn * STRETCH;
        s = m.lane;
    }
    Made {
        lane: kept,
        made: Begun(kept_made),
    }
}
