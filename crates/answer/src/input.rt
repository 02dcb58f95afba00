// Reading a program's input.
ghost use Rattle.std.specs.Prelude.{◌<◌, ◌≤◌, length, take, IsTrue};
ghost use Rattle.std.specs.Io.KnownBytes.{Consumes, IsAtEnd};

use std::io::Read;

// How many bytes were read, and whether they are all that there are or that were asked for: a read
// that failed may have left some behind.
// No Result: the bytes that were read are counted after a failed read too.
#[derive(Drop)]
pub struct Input {
    pub len: usize,
    pub whole: bool,
}

// Reads until `buf` is full, the input ends or a read fails. Whichever it was, the bytes that the
// reader gave stand at the start of `buf`, and none of them is lost: of `read_exact` no clause says that.
pub fn read_input<R: Read>(reader: &mut R, buf: &mut [u8]) -> Input
    ensures in_bounds { result.len ≤ length buf.new }
    ensures bytes { Consumes (R.remaining reader.old) (R.remaining reader.new)
        (take result.len buf.new) }
    ensures end { IsTrue result.whole → result.len < length buf.new →
        IsAtEnd (R.remaining reader.new) }
{
    let mut len = 0;
    while len < buf.len() {
        match reader.read(&mut buf[len..]) {
            Ok(0) => return Input { len, whole: true },
            Ok(more) => len += more,
            Err(_) => return Input { len, whole: false },
        }
    }
    Input { len, whole: true }
}
