// Opcodes, what is fixed about each, and their groups.
ghost use Rattle.std.specs.Prelude.{◌≡◌, ◌%◌, ◌<◌};
ghost use Rattle.isa.specs.Text.{ascii, text, long_text};
ghost use Rattle.isa.specs.Opcode.{opcodes, decode_nibble, nibble_of, index_of, group_of, groups, label_of};
ghost use Rattle.isa.specs.Opcode.{mnemonic_of, encoding_of, syntax_of, description_of, cpp_of, name_of};
ghost use Rattle.isa.specs.Nibbles.{unused_of};

use crate::text::{LongText, Text};

// The opcode of a MASSEY machine instruction, by its digit. 0, 5 and F have none.
#[derive(Clone, Copy, Debug, PartialEq, Eq)]
pub enum Opcode {
    // 1xYZ, LOAD Rx, YZ.
    LoadImmediate = 0x1,
    // 20xy, LOAD Rx, Ry.
    LoadRegister = 0x2,
    // 3xYZ, LOAD Rx, [YZ].
    LoadMemory = 0x3,
    // 4xYZ, STORE Rx, [YZ].
    StoreMemory = 0x4,
    // 6xyz, Rx = Ry + Rz.
    Add = 0x6,
    // 70x0, NEGATE Rx.
    Negate = 0x7,
    // 8xYZ, SHIFT Rx RIGHT YZ.
    ShiftRight = 0x8,
    // 9xYZ, SHIFT Rx LEFT YZ.
    ShiftLeft = 0x9,
    // Axyz, Rx = Ry AND Rz.
    And = 0xA,
    // Bxyz, Rx = Ry OR Rz.
    Or = 0xB,
    // Cxyz, Rx = Ry XOR Rz.
    Xor = 0xC,
    // DxYZ, JUMP [YZ] IF Rx=R0.
    Jump = 0xD,
    // E000, HALT.
    Halt = 0xE,
}

// The fixed texts, a row for each opcode in the order of `Opcode::ALL`, filled up with spaces. A table for each kind of
// text, since each has its width: as one table of structs it would name each field thirteen times.
const MNEMONICS: [[u8; 6]; 13] = [
    *b"LOAD  ", *b"LOAD  ", *b"LOAD  ", *b"STORE ", *b"      ", *b"NEGATE", *b"SHIFT ", *b"SHIFT ",
    *b"      ", *b"      ", *b"      ", *b"JUMP  ", *b"HALT  ",
];

const ENCODINGS: [[u8; 4]; 13] = [
    *b"1xYZ", *b"20xy", *b"3xYZ", *b"4xYZ", *b"6xyz", *b"70x0", *b"8xYZ", *b"9xYZ", *b"Axyz",
    *b"Bxyz", *b"Cxyz", *b"DxYZ", *b"E000",
];

const SYNTAXES: [[u8; 18]; 13] = [
    *b"LOAD Rx, YZ       ",
    *b"LOAD Rx, Ry       ",
    *b"LOAD Rx, [YZ]     ",
    *b"STORE Rx, [YZ]    ",
    *b"Rx = Ry + Rz      ",
    *b"NEGATE Rx         ",
    *b"SHIFT Rx RIGHT YZ ",
    *b"SHIFT Rx LEFT YZ  ",
    *b"Rx = Ry AND Rz    ",
    *b"Rx = Ry OR Rz     ",
    *b"Rx = Ry XOR Rz    ",
    *b"JUMP [YZ] IF Rx=R0",
    *b"HALT              ",
];

const DESCRIPTIONS: [[u8; 80]; 13] = [
    *b"Load register Rx with the value YZ (2 hexadecimal digits).                      ",
    *b"Load register Rx with the number in register Ry.                                ",
    *b"Load register Rx with the number in memory location YZ.                         ",
    *b"Store the number in register Rx in memory location YZ.                          ",
    *b"Add Ry and Rz and load the result into Rx (2's complement addition).            ",
    *b"Negate register Rx: complement and add 1, i.e. Rx = -Rx.                        ",
    *b"Shift the number in register Rx right by YZ bits.                               ",
    *b"Shift the number in register Rx left by YZ bits.                                ",
    *b"Bitwise AND Ry and Rz, load the result into Rx.                                 ",
    *b"Bitwise OR Ry and Rz, load the result into Rx.                                  ",
    *b"Bitwise XOR Ry and Rz, load the result into Rx.                                 ",
    *b"Jump to the instruction at address YZ if the value in Rx equals the value in R0.",
    *b"Halt the machine.                                                               ",
];

const CPPS: [[u8; 22]; 13] = [
    *b"Rx = 0xYZ;            ",
    *b"Rx = Ry;              ",
    *b"Rx = memory[YZ];      ",
    *b"memory[YZ] = Rx;      ",
    *b"Rx = Ry + Rz;         ",
    *b"Rx = -Rx;             ",
    *b"Rx = Rx >> 0xYZ;      ",
    *b"Rx = Rx << 0xYZ;      ",
    *b"Rx = Ry & Rz;         ",
    *b"Rx = Ry | Rz;         ",
    *b"Rx = Ry ^ Rz;         ",
    *b"if (Rx == R0) goto YZ;",
    *b"exit();               ",
];

const NAMES: [[u8; 14]; 13] = [
    *b"LOAD immediate",
    *b"LOAD register ",
    *b"LOAD memory   ",
    *b"STORE         ",
    *b"ADD           ",
    *b"NEGATE        ",
    *b"SHIFT right   ",
    *b"SHIFT left    ",
    *b"AND           ",
    *b"OR            ",
    *b"XOR           ",
    *b"JUMP          ",
    *b"HALT          ",
];

impl Opcode {
    // Every opcode, in encoding order.
    pub const ALL: [Opcode; 13] = [
        Opcode::LoadImmediate,
        Opcode::LoadRegister,
        Opcode::LoadMemory,
        Opcode::StoreMemory,
        Opcode::Add,
        Opcode::Negate,
        Opcode::ShiftRight,
        Opcode::ShiftLeft,
        Opcode::And,
        Opcode::Or,
        Opcode::Xor,
        Opcode::Jump,
        Opcode::Halt,
    ];

    // `ALL` as a call, so that a contract says what it holds.
    pub fn all() -> [Opcode; 13]
        ensures { result ≡ opcodes }
    {
        Opcode::ALL
    }

    // Decode the first hexadecimal digit of an instruction; the byte's high bits are masked off. It can't fail, so it is
    // no TryFrom; 01 ('Which shape goes where') names this match over the sixteen nibbles.
    #[tactic(auto, unfolding(crate::specs::Opcode::decode_nibble, crate::specs::Opcode::digits))]
    pub fn from_nibble(nibble: u8) -> Option<Opcode>
        ensures { result ≡ decode_nibble (nibble % 16) }
    {
        match nibble % 16 {
            0x1 => Some(Opcode::LoadImmediate),
            0x2 => Some(Opcode::LoadRegister),
            0x3 => Some(Opcode::LoadMemory),
            0x4 => Some(Opcode::StoreMemory),
            0x6 => Some(Opcode::Add),
            0x7 => Some(Opcode::Negate),
            0x8 => Some(Opcode::ShiftRight),
            0x9 => Some(Opcode::ShiftLeft),
            0xA => Some(Opcode::And),
            0xB => Some(Opcode::Or),
            0xC => Some(Opcode::Xor),
            0xD => Some(Opcode::Jump),
            0xE => Some(Opcode::Halt),
            _ => None,
        }
    }

    // The opcode nibble used in an encoded instruction.
    pub fn nibble(self) -> u8
        ensures { result ≡ nibble_of self }
    {
        self as u8
    }

    // The digits of a word that the opcode does not use, in their places, and 0 for all others.
    pub fn unused(self, word: u16) -> u16
        ensures { result ≡ unused_of self word }
    {
        match self {
            Opcode::LoadRegister => word / 256 % 16 * 256,
            Opcode::Negate => word / 256 % 16 * 256 + word % 16,
            Opcode::Halt => word % 4096,
            _ => 0,
        }
    }

    // The place in `ALL`. No discriminant: those are the digits, of which 5 is left out.
    fn index(self) -> usize
        ensures { (result ≡ index_of self) × (result < 13) }
    {
        match self {
            Opcode::LoadImmediate => 0,
            Opcode::LoadRegister => 1,
            Opcode::LoadMemory => 2,
            Opcode::StoreMemory => 3,
            Opcode::Add => 4,
            Opcode::Negate => 5,
            Opcode::ShiftRight => 6,
            Opcode::ShiftLeft => 7,
            Opcode::And => 8,
            Opcode::Or => 9,
            Opcode::Xor => 10,
            Opcode::Jump => 11,
            Opcode::Halt => 12,
        }
    }

    // The assembler mnemonic, empty for the `Rx = Ry + Rz` family, which has none.
    pub fn mnemonic(self) -> Text
        ensures { result ≡ text (ascii (mnemonic_of self)) }
    {
        let i = self.index();
        let field = MNEMONICS[i];
        Text::from_field(&field)
    }

    // The encoding pattern, as `1xYZ`.
    pub fn encoding(self) -> Text
        ensures { result ≡ text (ascii (encoding_of self)) }
    {
        let i = self.index();
        let field = ENCODINGS[i];
        Text::from_field(&field)
    }

    // The assembler form, as `LOAD Rx, YZ`.
    pub fn syntax(self) -> Text
        ensures { result ≡ text (ascii (syntax_of self)) }
    {
        let i = self.index();
        let field = SYNTAXES[i];
        Text::from_field(&field)
    }

    // The one-line explanation.
    pub fn description(self) -> LongText
        ensures { result ≡ long_text (ascii (description_of self)) }
    {
        let i = self.index();
        let field = DESCRIPTIONS[i];
        LongText::from_field(&field)
    }

    // The equivalent C++ statement.
    pub fn cpp(self) -> Text
        ensures { result ≡ text (ascii (cpp_of self)) }
    {
        let i = self.index();
        let field = CPPS[i];
        Text::from_field(&field)
    }

    // The display name: the Rust's `Display`.
    pub fn name(self) -> Text
        ensures { result ≡ text (ascii (name_of self)) }
    {
        let i = self.index();
        let field = NAMES[i];
        Text::from_field(&field)
    }

    // Which functional group of the machine the instruction belongs to.
    pub fn group(self) -> InstructionGroup
        ensures { result ≡ group_of self }
    {
        match self {
            Opcode::LoadImmediate
            | Opcode::LoadRegister
            | Opcode::LoadMemory
            | Opcode::StoreMemory => InstructionGroup::DataTransfer,
            Opcode::Jump | Opcode::Halt => InstructionGroup::Control,
            _ => InstructionGroup::ArithmeticLogic,
        }
    }
}

// The three groups of machine instruction.
#[derive(Clone, Copy, Debug, PartialEq, Eq)]
pub enum InstructionGroup {
    // Instructions that move data between memory and registers.
    DataTransfer,
    // Instructions that activate circuits in the ALU.
    ArithmeticLogic,
    // Instructions that change the flow of control.
    Control,
}

impl InstructionGroup {
    // Every group, in order.
    pub const ALL: [InstructionGroup; 3] = [
        InstructionGroup::DataTransfer,
        InstructionGroup::ArithmeticLogic,
        InstructionGroup::Control,
    ];

    // `ALL` as a call, so that a contract says what it holds.
    pub fn all() -> [InstructionGroup; 3]
        ensures { result ≡ groups }
    {
        InstructionGroup::ALL
    }

    // Human readable name.
    pub fn label(self) -> Text
        ensures { result ≡ text (ascii (label_of self)) }
    {
        match self {
            InstructionGroup::DataTransfer => Text::from_bytes(b"Data transfer"),
            InstructionGroup::ArithmeticLogic => Text::from_bytes(b"Arithmetic / logic"),
            InstructionGroup::Control => Text::from_bytes(b"Control"),
        }
    }
}
