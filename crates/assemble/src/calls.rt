// The calls: the image of a text by value, and as bytes in a lent buffer.
ghost use Rattle.std.specs.Prelude.{◌≡◌};
ghost use Rattle.encoding.specs.Answer.{outcome};
ghost use Rattle.encoding.specs.Refusal.{told};
ghost use Rattle.assemble.specs.Answer.{assembled, bytes_outcome};

use crate::Assembled;
use crate::lines::Entry;
use crate::links::link;
use crate::text::collect;
use encoding::{Refusal, put_words};
use listing::LISTING_WORDS;

// What stands behind the entries.
const NO_ENTRY: Entry = Entry {
    label: 0,
    word: 0,
    refers: 0,
};

// Assemble a text. Refused 11 at the first line that breaks the grammar, or 13 at the line of the word
// past LISTING_WORDS, whichever comes first; else 12 where a label stands on two lines, or one that is
// used on none.
pub fn assemble(text: &[u8]) -> Result<Assembled, Refusal>
    ensures { result ≡ assembled text.now }
{
    let mut entries = [NO_ENTRY; LISTING_WORDS];
    let n = collect(text, &mut entries)?;
    link(&entries[..n])
}

// The same into a lent buffer, high byte first. Refused as above, then 5 where the buffer is shorter
// than the image. Refused, it keeps the buffer; bytes past the image are kept too.
pub fn assemble_bytes(text: &[u8], out: &mut [u8]) -> Result<usize, Refusal>
    ensures { outcome (told result) out.new ≡ bytes_outcome text.now out.old }
{
    let image = assemble(text)?;
    let size = 2 * image.count;
    if out.len() < size {
        return Err(Refusal::ShortBuffer);
    }
    put_words(out, 0, &image.words[..image.count]);
    Ok(size)
}
