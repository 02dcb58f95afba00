// An answer is put together in lent bytes, from their start, so that it is written at once or not at all.
use answer::first;
use encoding::{Refusal, inside, put_bytes};
use std::io::{self, Write};

// The answer so far: the first `len` bytes of `out`.
#[derive(Drop)]
pub(crate) struct Answer<'a> {
    out: &'a mut [u8],
    len: usize,
}

impl<'a> Answer<'a> {
    pub(crate) fn new(out: &'a mut [u8]) -> Answer<'a> {
        Answer { out, len: 0 }
    }

    pub(crate) fn bytes(&self) -> &[u8] {
        first(self.out, self.len)
    }

    // Bytes that do not fit are left out, so that no caller has to count the room.
    pub(crate) fn append(&mut self, bytes: &[u8]) {
        if inside(self.out.len(), self.len, bytes.len()) {
            put_bytes(self.out, self.len, bytes);
            self.len += bytes.len();
        }
    }

    // An answer begins with the refusal, 0 where the call was served; of a refused call it has nothing more.
    pub(crate) fn served<T: Drop>(&mut self, done: Result<T, Refusal>) -> Option<T> {
        match done {
            Ok(value) => {
                self.append_byte(0);
                Some(value)
            }
            Err(refusal) => {
                self.append_byte(refusal.number());
                None
            }
        }
    }

    pub(crate) fn append_byte(&mut self, byte: u8) {
        self.append(&[byte]);
    }

    pub(crate) fn append_flag(&mut self, flag: bool) {
        self.append_byte(flag as u8);
    }

    pub(crate) fn append_word(&mut self, word: u16) {
        self.append(&word.to_be_bytes());
    }

    pub(crate) fn append_number(&mut self, n: u64) {
        self.append(&n.to_be_bytes());
    }

    pub(crate) fn append_words(&mut self, words: &[u16]) {
        for word in words {
            self.append_word(*word);
        }
    }
}

// Behind the answers so far: what comes next in the input is malformed.
pub(crate) fn write_malformed<W: Write>(to: &mut W) -> io::Result<()> {
    to.write_all(b"\xff")
}
