// Each enum of an answer by its number and values, with zeros where there is none: what every program
// writes of them. They are numbers since the promises are by number (01, the last paragraph: `fault_code` and the like).
ghost use Rattle.std.specs.Prelude.{◌≡◌};
ghost use Rattle.control.specs.Codes.{fault_code, fault_bytes, fault_of, transfer_code, write_code, operation_number, word_code, alu_code};

use crate::control::{AluOperation, AluRecord, BusTransfer, Fault, RegisterWrite};

// The bytes of a fault in a history record and in a report.
pub const FAULT_WIDTH: usize = 4;

// A fault: 0 none, 1 unknown, 2 budget.
#[derive(Clone, Copy)]
pub struct FaultCode {
    pub kind: u8,
    pub word: u16,
    pub address: u8,
}

// A transfer: 0 none, 1 read, 2 write.
#[derive(Clone, Copy)]
pub struct TransferCode {
    pub kind: u8,
    pub address: u8,
    pub value: u16,
}

// The registers written: how many, which, and its value.
#[derive(Clone, Copy)]
pub struct WriteCode {
    pub count: u8,
    pub register: u8,
    pub value: u16,
}

// A word that may be missing: 1 where it is there, as an answer has it.
#[derive(Clone, Copy)]
pub struct WordCode {
    pub there: u8,
    pub word: u16,
}

// An operation of the ALU, 0 for none, and its words.
#[derive(Clone, Copy)]
pub struct AluCode {
    pub operation: u8,
    pub left: u16,
    pub right_there: u8,
    pub right: u16,
    pub result: u16,
}

impl From<Option<Fault>> for FaultCode {
    ghost from_gives = { λ fault code. code ≡ fault_code fault };

    fn from(fault: Option<Fault>) -> FaultCode {
        let (kind, word, address) = match fault {
            None => (0, 0, 0),
            Some(Fault::UnknownInstruction { word, address }) => (1, word, address),
            Some(Fault::StepBudgetExhausted { word, address }) => (2, word, address),
        };
        FaultCode {
            kind,
            word,
            address,
        }
    }
}

// A fault in its four bytes: kind, word, address.
#[tactic(auto, unfolding(crate::specs::Codes::fault_bytes, encoding::specs::Bytes::big_endian))]
pub fn fault_bytes(fault: Option<Fault>) -> [u8; FAULT_WIDTH]
    ensures { result ≡ fault_bytes fault }
{
    let code = FaultCode::from(fault);
    [
        code.kind,
        (code.word / 256 % 256) as u8,
        (code.word % 256) as u8,
        code.address,
    ]
}

// The fault that has this code.
pub fn fault_of(kind: u8, word: u16, address: u8) -> Option<Fault>
    ensures { result ≡ fault_of kind word address }
{
    match kind {
        1 => Some(Fault::UnknownInstruction { word, address }),
        2 => Some(Fault::StepBudgetExhausted { word, address }),
        _ => None,
    }
}

impl From<Option<BusTransfer>> for TransferCode {
    ghost from_gives = { λ transfer code. code ≡ transfer_code transfer };

    fn from(transfer: Option<BusTransfer>) -> TransferCode {
        let (kind, address, value) = match transfer {
            None => (0, 0, 0),
            Some(BusTransfer::Read { address, value }) => (1, address, value),
            Some(BusTransfer::Write { address, value }) => (2, address, value),
        };
        TransferCode {
            kind,
            address,
            value,
        }
    }
}

impl From<Option<RegisterWrite>> for WriteCode {
    ghost from_gives = { λ write code. code ≡ write_code write };

    fn from(write: Option<RegisterWrite>) -> WriteCode {
        match write {
            None => WriteCode {
                count: 0,
                register: 0,
                value: 0,
            },
            Some(RegisterWrite { register, value }) => WriteCode {
                count: 1,
                register,
                value,
            },
        }
    }
}

impl AluOperation {
    pub fn number(self) -> u8
        ensures { result ≡ operation_number self }
    {
        self as u8
    }
}

impl From<Option<u16>> for WordCode {
    ghost from_gives = { λ word code. code ≡ word_code word };

    fn from(word: Option<u16>) -> WordCode {
        match word {
            Some(word) => WordCode { there: 1, word },
            None => WordCode { there: 0, word: 0 },
        }
    }
}

impl From<Option<AluRecord>> for AluCode {
    ghost from_gives = { λ record_of code. code ≡ alu_code record_of };

    fn from(alu: Option<AluRecord>) -> AluCode {
        match alu {
            None => AluCode {
                operation: 0,
                left: 0,
                right_there: 0,
                right: 0,
                result: 0,
            },
            Some(
                AluRecord {
                    operation,
                    left,
                    right,
                    result,
                },
            ) => {
                let word = WordCode::from(right);
                AluCode {
                    operation: operation.number(),
                    left,
                    right_there: word.there,
                    right: word.word,
                    result,
                }
            }
        }
    }
}
