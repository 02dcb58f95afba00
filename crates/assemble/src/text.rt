// A whole text: its lines one after the other, and what is kept of them.
ghost use Rattle.std.specs.Prelude.{◌≡◌, ◌<◌, length, IfOk};
ghost use Rattle.encoding.specs.Refusal.{refused_by};
ghost use Rattle.listing.specs.Listing.{listing_words};
ghost use Rattle.assemble.specs.Assembly.{faulty};
ghost use Rattle.assemble.specs.Reading.{LineAt, lines_from, Held};

use crate::bytes::skip;
use crate::lines::{Entry, Row, line_row};
use encoding::Refusal;
use listing::LISTING_WORDS;

// Where a line ends, and where the next begins.
#[derive(Clone, Copy, Debug, PartialEq, Eq)]
pub struct Bounds {
    pub end: usize,
    pub next: usize,
}

// The line from `at` on.
fn line_at(s: &[u8], at: usize) -> Bounds
    requires { at < length s.now }
    ensures { LineAt s.now at result }
{
    let end = skip(s, at, |b| *b == b'\n');
    if end < s.len() {
        return Bounds { end, next: end + 1 };
    }
    Bounds { end, next: end }
}

// The entries of all lines, and how many, unless a line is at fault.
#[inline(never)]
pub(crate) fn collect(text: &[u8], entries: &mut [Entry; LISTING_WORDS]) -> Result<usize, Refusal>
    requires { length entries.old ≡ listing_words }
    ensures refusal { refused_by result ≡ faulty 0 (lines_from text.now 0) }
    ensures held { IfOk result (λ n. Held (lines_from text.now 0) n entries.new) }
{
    let mut at = 0;
    let mut n = 0;
    while at < text.len() {
        let line = line_at(text, at);
        let Some(row) = line_row(&text[at..line.end]) else {
            return Err(Refusal::Grammar);
        };
        at = line.next;
        if let Row::Word(entry) = row {
            if n == LISTING_WORDS {
                return Err(Refusal::WordCount);
            }
            entries[n] = entry;
            n += 1;
        }
    }
    Ok(n)
}
