// The ALU: what each operation makes of its operands.
ghost use Rattle.std.specs.Prelude.{◌≡◌};
ghost use Rattle.tick.specs.Tick.{alu_record, alu_result, right16, left16};

use control::{AluOperation, AluRecord};

// Counts of 16 or more give 0.
#[tactic(auto, unfolding(crate::specs::Tick::right16))]
pub fn shifted_right(value: u16, count: u16) -> u16
    ensures { result ≡ right16 count value }
{
    value.checked_shr(u32::from(count)).unwrap_or(0)
}

#[tactic(auto, unfolding(crate::specs::Tick::left16))]
pub fn shifted_left(value: u16, count: u16) -> u16
    ensures { result ≡ left16 count value }
{
    value.checked_shl(u32::from(count)).unwrap_or(0)
}

// ADD wraps at 65,536; NEGATE is the complement plus one, whatever its right operand.
fn alu_result(operation: AluOperation, left: u16, right: u16) -> u16
    ensures { result ≡ alu_result operation left right }
{
    match operation {
        AluOperation::Add => left.wrapping_add(right),
        AluOperation::Negate => (!left).wrapping_add(1),
        AluOperation::Shr => shifted_right(left, right),
        AluOperation::Shl => shifted_left(left, right),
        AluOperation::And => left & right,
        AluOperation::Or => left | right,
        AluOperation::Xor => left ^ right,
    }
}

// An operation of the ALU, with its result.
pub fn alu_record(operation: AluOperation, left: u16, right: Option<u16>) -> AluRecord
    ensures { result ≡ alu_record operation left right }
{
    AluRecord {
        operation,
        left,
        right,
        result: alu_result(operation, left, right.unwrap_or(0)),
    }
}
