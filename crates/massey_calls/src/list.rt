// The commands of an input, one after the other.
use crate::calls::reply;
use crate::command::Rest;
use crate::output::{Answer, write_malformed};
use std::io::{Result, Write};
use vm::Machine;

// Plays the commands to the input's end, to the first that is malformed, or to the first answer that
// is not taken whole: what was written is then the beginning of what was due. Each command has a byte
// at least, so there are no more than bytes.
pub(crate) fn play<W: Write>(
    to: &mut W,
    commands: Rest,
    store: &mut [u8],
    out: &mut [u8],
) -> Result<()> {
    let mut machine = Machine::new();
    let mut rest = commands;
    for _ in 0..rest.len() {
        if rest.len() == 0 {
            break;
        }
        let Some(command) = rest.command() else {
            return write_malformed(to);
        };
        let mut answer = Answer::new(out);
        reply(&mut machine, command, store, &mut answer);
        to.write_all(answer.bytes())?;
    }
    Ok(())
}
