// One tick: four that fetch, then those of the opcode.
ghost use Rattle.std.specs.Prelude.{◌≡◌};
ghost use Rattle.isa.specs.Word.{decode_word};
ghost use Rattle.tick.specs.Tick.{alu_tick, jump_tick, execute_tick, onward, tick_of};

use crate::alu::alu_record;
use crate::fetch::fetch_tick;
use crate::memory::{load_tick, store_tick};
use crate::parts::{quiet, register_tick, with_control};
use control::{AluOperation, Control, Operands, State, Tick};
use isa::{Instruction, Opcode};
use plan::FETCH_TICKS;

fn jump_tick(s: State, x: u16, zero: u16) -> Tick
    ensures { result ≡ jump_tick s x zero }
{
    if x == zero {
        let pc = (s.control.ir % 256) as u8;
        return quiet(with_control(s, Control { pc, ..s.control }));
    }
    quiet(s)
}

// A result of the ALU to a register, with its record.
fn alu_tick(s: State, register: u8, operation: AluOperation, left: u16, right: Option<u16>) -> Tick
    ensures { result ≡ alu_tick s register operation left right }
{
    let alu = alu_record(operation, left, right);
    let state = State {
        last_alu: Some(alu),
        ..s
    };
    register_tick(state, register, alu.result)
}

// Execute tick n of the word in IR. HALT and a word without an opcode have none.
#[tactic(auto, unfolding(crate::specs::Tick::execute_tick))]
fn execute_tick(s: State, n: u8, o: Operands) -> Tick
    ensures { result ≡ execute_tick (decode_word s.control.ir) n s o }
{
    let word = s.control.ir;
    let Some(opcode) = Instruction::from_word(word).opcode() else {
        return quiet(s);
    };
    let x = (word / 256 % 16) as u8;
    let y = (word / 16 % 16) as u8;
    let yz = word % 256;
    match opcode {
        Opcode::LoadImmediate => register_tick(s, x, yz),
        Opcode::LoadRegister => register_tick(s, y, o.z),
        Opcode::LoadMemory => load_tick(s, n, o.cell),
        Opcode::StoreMemory => store_tick(s, n, o.x),
        Opcode::Add => alu_tick(s, x, AluOperation::Add, o.y, Some(o.z)),
        Opcode::Negate => alu_tick(s, y, AluOperation::Negate, o.y, None),
        Opcode::ShiftRight => alu_tick(s, x, AluOperation::Shr, o.x, Some(yz)),
        Opcode::ShiftLeft => alu_tick(s, x, AluOperation::Shl, o.x, Some(yz)),
        Opcode::And => alu_tick(s, x, AluOperation::And, o.y, Some(o.z)),
        Opcode::Or => alu_tick(s, x, AluOperation::Or, o.y, Some(o.z)),
        Opcode::Xor => alu_tick(s, x, AluOperation::Xor, o.y, Some(o.z)),
        Opcode::Jump => jump_tick(s, o.x, o.zero),
        Opcode::Halt => quiet(s),
    }
}

// The next tick of the instruction, or its end, after execute tick n.
fn next_tick(t: Tick, n: u8) -> Tick
    ensures { result ≡ onward n t }
{
    let c = t.state.control;
    let completed = c.execute_ticks as u16 <= n as u16 + 1;
    let tick = if completed { 0 } else { c.tick.wrapping_add(1) };
    Tick {
        state: with_control(t.state, Control { tick, ..c }),
        completed,
        ..t
    }
}

// One tick of a running machine, on the words that it may read.
#[tactic(auto, using(crate::proofs::Ticks::early, crate::proofs::Ticks::late))]
pub fn tick_of(s: State, o: Operands) -> Tick
    ensures { result ≡ tick_of s.control.tick s o }
{
    let tick = s.control.tick;
    if tick < FETCH_TICKS {
        return fetch_tick(s, o.cell);
    }
    let n = tick - FETCH_TICKS;
    next_tick(execute_tick(s, n, o), n)
}
