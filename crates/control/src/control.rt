// What one tick reads and leaves, by value.
ghost use Rattle.std.specs.Prelude.{◌≡◌};
ghost use Rattle.isa.specs.Text.{ascii, text};
ghost use Rattle.control.specs.Operation.{operation_name};

use crate::address::Address;
use isa::Text;

// The fault that stopped the machine.
#[derive(Clone, Copy, Debug, PartialEq, Eq)]
pub enum Fault {
    UnknownInstruction { word: u16, address: u8 },
    StepBudgetExhausted { word: u16, address: u8 },
}

// One transfer across the bus.
#[derive(Clone, Copy, Debug, PartialEq, Eq)]
pub enum BusTransfer {
    Read { address: Address, value: u16 },
    Write { address: Address, value: u16 },
}

// The circuits of the ALU, by their numbers in answers; 0 is none.
#[derive(Clone, Copy, Debug, PartialEq, Eq)]
pub enum AluOperation {
    Add = 1,
    Negate = 2,
    Shr = 3,
    Shl = 4,
    And = 5,
    Or = 6,
    Xor = 7,
}

impl AluOperation {
    // The name that the Rust keeps.
    pub fn name(self) -> Text
        ensures { result ≡ text (ascii (operation_name self)) }
    {
        let name: &[u8] = match self {
            AluOperation::Add => b"ADD",
            AluOperation::Negate => b"NEGATE",
            AluOperation::Shr => b"SHR",
            AluOperation::Shl => b"SHL",
            AluOperation::And => b"AND",
            AluOperation::Or => b"OR",
            AluOperation::Xor => b"XOR",
        };
        Text::from_bytes(name)
    }
}

// An operation of the ALU: NEGATE has no right operand.
#[derive(Clone, Copy, Debug, PartialEq, Eq)]
pub struct AluRecord {
    pub operation: AluOperation,
    pub left: u16,
    pub right: Option<u16>,
    pub result: u16,
}

// A register that is written.
#[derive(Clone, Copy, Debug, PartialEq, Eq)]
pub struct RegisterWrite {
    pub register: u8,
    pub value: u16,
}

// The control unit and the registers beside it.
#[derive(Clone, Copy)]
pub struct Control {
    pub ir: u16,
    pub mdr: u16,
    pub pc: u8,
    pub mar: Address,
    pub instruction_address: u8,
    pub tick: u8,
    pub execute_ticks: u8,
    pub halted: bool,
}

// The machine without its arrays and counters.
#[derive(Clone, Copy)]
pub struct State {
    pub control: Control,
    pub fault: Option<Fault>,
    pub last_transfer: Option<BusTransfer>,
    pub last_alu: Option<AluRecord>,
}

// The words that one tick may read: the word at MAR, and registers x, y, z and 0.
#[derive(Clone, Copy)]
pub struct Operands {
    pub cell: u16,
    pub x: u16,
    pub y: u16,
    pub z: u16,
    pub zero: u16,
}

// The state after a tick, what the tick does to the arrays, and whether it completed an instruction
// that counts.
#[derive(Drop)]
pub struct Tick {
    pub state: State,
    pub bus: Option<BusTransfer>,
    pub write: Option<RegisterWrite>,
    pub completed: bool,
}
