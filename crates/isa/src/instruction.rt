// A machine word and its four hexadecimal digits.
ghost use Rattle.std.specs.Prelude.{◌≡◌};
ghost use Rattle.isa.specs.Text.{text};
ghost use Rattle.isa.specs.Opcode.{nibble_of};
ghost use Rattle.isa.specs.Word.{digit_w, digit_x, digit_y, digit_z, byte_yz, nibbles_of, decode_word, word_of, instruction, xyz_of};
ghost use Rattle.isa.specs.Nibbles.{unused_nibbles};
ghost use Rattle.isa.specs.Format.{hex4};

use crate::digits::format_word;
use crate::opcode::Opcode;
use crate::text::Text;

// A MASSEY machine instruction: a 16-bit word.
#[derive(Clone, Copy)]
pub struct Instruction {
    pub raw: u16,
}

// The operand triple x, y, z: the Rust's tuple.
#[derive(Drop)]
pub struct Xyz {
    pub x: u8,
    pub y: u8,
    pub z: u8,
}

impl Instruction {
    // Wrap a raw 16-bit machine code word.
    pub fn from_word(raw: u16) -> Instruction
        ensures { result ≡ instruction raw }
    {
        Instruction { raw }
    }

    // Encode an instruction from its four hexadecimal digits; higher bits are masked off.
    pub fn from_nibbles(opcode: u8, x: u8, y: u8, z: u8) -> Instruction
        ensures { result ≡ instruction (word_of opcode x y z) }
    {
        let o = (opcode % 16) as u16;
        let x = (x % 16) as u16;
        let y = (y % 16) as u16;
        let z = (z % 16) as u16;
        Instruction {
            raw: o * 4096 + x * 256 + y * 16 + z,
        }
    }

    // Build an instruction from an opcode and its three operand nibbles.
    pub fn new(opcode: Opcode, x: u8, y: u8, z: u8) -> Instruction
        ensures { result ≡ instruction (word_of (nibble_of opcode) x y z) }
    {
        Instruction::from_nibbles(opcode.nibble(), x, y, z)
    }

    // The raw 16-bit word.
    pub fn word(self) -> u16
        ensures { result ≡ self.raw }
    {
        self.raw
    }

    // First hexadecimal digit (bits 15 to 12).
    pub fn opcode_nibble(self) -> u8
        ensures { result ≡ digit_w self.raw }
    {
        (self.raw / 4096 % 16) as u8
    }

    // The opcode, or `None` where the first digit is no MASSEY opcode.
    pub fn opcode(self) -> Option<Opcode>
        ensures { result ≡ decode_word self.raw }
    {
        Opcode::from_nibble(self.opcode_nibble())
    }

    // First operand digit (bits 11 to 8).
    pub fn x(self) -> u8
        ensures { result ≡ digit_x self.raw }
    {
        (self.raw / 256 % 16) as u8
    }

    // Second operand digit (bits 7 to 4).
    pub fn y(self) -> u8
        ensures { result ≡ digit_y self.raw }
    {
        (self.raw / 16 % 16) as u8
    }

    // Third operand digit (bits 3 to 0).
    pub fn z(self) -> u8
        ensures { result ≡ digit_z self.raw }
    {
        (self.raw % 16) as u8
    }

    // The 8-bit address or immediate formed from the last two digits.
    pub fn yz(self) -> u8
        ensures { result ≡ byte_yz self.raw }
    {
        (self.raw % 256) as u8
    }

    // The operand triple, used by the `Rx = Ry op Rz` family.
    pub fn xyz(self) -> Xyz
        ensures { result ≡ xyz_of self.raw }
    {
        Xyz {
            x: self.x(),
            y: self.y(),
            z: self.z(),
        }
    }

    // The four hexadecimal digits of the word, most significant first.
    pub fn nibbles(self) -> [u8; 4]
        ensures { result ≡ nibbles_of self.raw }
    {
        [self.opcode_nibble(), self.x(), self.y(), self.z()]
    }

    // The digits that the opcode does not use, in their places, and 0 for all others.
    pub fn unused_nibbles(self) -> u16
        ensures { result ≡ unused_nibbles self.raw }
    {
        let decoded = self.opcode();
        match decoded {
            Some(opcode) => opcode.unused(self.raw),
            None => 0,
        }
    }

    // The word's digits as a text: the Rust's `Display`.
    pub fn text(self) -> Text
        ensures { result ≡ text (hex4 self.raw) }
    {
        format_word(self.raw)
    }
}
