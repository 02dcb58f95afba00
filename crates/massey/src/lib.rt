// The calls that C and Rust link, on numbers and bytes: include/massey.h. A call answers a length,
// or minus the refusal's number, and lays no condition on its caller.
#![tactic(auto)]

ghost use Rattle.std.specs.Prelude.{◌≡◌};
ghost use Rattle.encoding.specs.Answer.{outcome};
ghost use Rattle.massey.specs.Calls.{disassemble_outcome, listing_outcome, assembled_outcome, reported_outcome};

use assemble::assemble_bytes;
use disasm::disassemble_into;
use isa::TEXT_WIDTH;
use listing::list_bytes;
use report::report_bytes;

// The text of a word, in a field of 32 bytes.
#[unsafe(no_mangle)]
pub extern "C" fn massey_disassemble(word: u16, out: &mut [u8]) -> i64
    ensures { outcome result out.new ≡ disassemble_outcome word out.old }
{
    if out.len() < TEXT_WIDTH {
        // As C has it: minus the number of `ShortBuffer`.
        return -5;
    }
    disassemble_into(out, 0, word) as i64
}

// The listing of an image whose words are in bytes, high byte first.
#[unsafe(no_mangle)]
pub extern "C" fn massey_listing(image: &[u8], out: &mut [u8]) -> i64
    ensures { outcome result out.new ≡ listing_outcome image.now out.old }
{
    match list_bytes(image, out) {
        Ok(size) => size as i64,
        Err(refusal) => -(refusal.number() as i64),
    }
}

// The image of a text, its words high byte first.
#[unsafe(no_mangle)]
pub extern "C" fn massey_assemble(text: &[u8], out: &mut [u8]) -> i64
    ensures { outcome result out.new ≡ assembled_outcome text.now out.old }
{
    match assemble_bytes(text, out) {
        Ok(size) => size as i64,
        Err(refusal) => -(refusal.number() as i64),
    }
}

// The report of a guarded run, whose input is the report program's: its parts in bytes, numbers high
// byte first.
#[unsafe(no_mangle)]
pub extern "C" fn massey_report(input: &[u8], out: &mut [u8]) -> i64
    ensures { outcome result out.new ≡ reported_outcome input.now out.old }
{
    match report_bytes(input, out) {
        Ok(size) => size as i64,
        Err(refusal) => -(refusal.number() as i64),
    }
}
