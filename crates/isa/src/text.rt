// Texts by value. There is no heap, so a text is an array and the number of its live bytes.
ghost use Rattle.std.specs.Prelude.{◌≡◌, ◌≤◌, min, length, take};
ghost use Rattle.isa.specs.Text.{fixed_text, trimmed};

use crate::TEXT_WIDTH;

// A text of at most N bytes; the bytes past `len` are zero.
#[derive(Clone, Copy)]
pub struct FixedText<const N: usize> {
    pub bytes: [u8; N],
    pub len: u8,
}

// The texts, and the longer ones of the descriptions.
pub type Text = FixedText<TEXT_WIDTH>;

pub type LongText = FixedText<80>;

impl<const N: usize> FixedText<N> {
    // The first N bytes of `s`, of which a u8 counts 255 at most.
    pub fn from_bytes(s: &[u8]) -> FixedText<N>
        ensures { result ≡ fixed_text N (take (min N 255) s.now) }
    {
        let n = N.min(255).min(s.len());
        let mut bytes = [0u8; N];
        bytes[..n].copy_from_slice(&s[..n]);
        FixedText {
            bytes,
            len: n as u8,
        }
    }

    // The same without the spaces at the end of `s`.
    pub fn from_field(s: &[u8]) -> FixedText<N>
        ensures { result ≡ fixed_text N (take (min N 255) (trimmed s.now)) }
    {
        let n = live_length(s);
        FixedText::from_bytes(&s[..n])
    }
}

// The length of `s` without the spaces at its end.
fn live_length(s: &[u8]) -> usize
    ensures { (result ≤ length s.now) × (take result s.now ≡ trimmed s.now) }
{
    let mut n = 0;
    for (i, b) in s.iter().enumerate() {
        if *b != b' ' {
            n = i + 1;
        }
    }
    n
}
