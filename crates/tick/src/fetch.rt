// The four ticks that fetch.
ghost use Rattle.std.specs.Prelude.{◌≡◌};
ghost use Rattle.tick.specs.Tick.{fetch_address, fetch_instruction, faulted_tick, halting_tick, decode_tick, fetch_tick};

use crate::parts::{quiet, read_word, with_control};
use control::{Control, Fault, State, Tick};
use isa::{Instruction, Opcode};
use plan::{FETCH_TICKS, execute_tick_count};

// PC to MAR, noting the instruction address.
fn fetch_address(s: State) -> Tick
    ensures { result ≡ fetch_address s }
{
    let c = s.control;
    let control = Control {
        mar: c.pc,
        instruction_address: c.pc,
        tick: 1,
        ..c
    };
    quiet(with_control(s, control))
}

// MDR to IR.
fn fetch_instruction(s: State) -> Tick
    ensures { result ≡ fetch_instruction s }
{
    let c = s.control;
    let control = Control {
        ir: c.mdr,
        tick: 3,
        ..c
    };
    quiet(with_control(s, control))
}

// A word without an opcode ends its instruction: halted by a fault, and it does not count.
fn faulted(s: State, from: Control) -> Tick
    ensures { result ≡ faulted_tick s from }
{
    let fault = Some(Fault::UnknownInstruction {
        word: from.ir,
        address: from.instruction_address,
    });
    let control = Control {
        halted: true,
        tick: 0,
        ..from
    };
    quiet(State {
        control,
        fault,
        ..s
    })
}

// HALT ends its instruction, and counts.
fn halting(s: State, from: Control) -> Tick
    ensures { result ≡ halting_tick s from }
{
    let control = Control {
        halted: true,
        tick: 0,
        ..from
    };
    Tick {
        completed: true,
        ..quiet(with_control(s, control))
    }
}

// PC + 1 to PC, 255 going to 0, and what the word in IR is.
#[tactic(auto, unfolding(crate::specs::Tick::decode_tick))]
fn decode_tick(s: State) -> Tick
    ensures { result ≡ decode_tick s }
{
    let decoded = Instruction::from_word(s.control.ir).opcode();
    let control = Control {
        pc: s.control.pc.wrapping_add(1),
        execute_ticks: execute_tick_count(decoded),
        ..s.control
    };
    match decoded {
        None => faulted(s, control),
        Some(Opcode::Halt) => halting(s, control),
        Some(_) => quiet(with_control(
            s,
            Control {
                tick: FETCH_TICKS,
                ..control
            },
        )),
    }
}

pub(crate) fn fetch_tick(s: State, cell: u16) -> Tick
    ensures { result ≡ fetch_tick s.control.tick s cell }
{
    match s.control.tick {
        0 => fetch_address(s),
        1 => read_word(s, cell, 2),
        2 => fetch_instruction(s),
        _ => decode_tick(s),
    }
}
