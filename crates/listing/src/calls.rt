// The calls: the listing of words, and of words in bytes, in a lent buffer.
ghost use Rattle.std.specs.Prelude.{◌≡◌, ◌≤◌};
ghost use Rattle.encoding.specs.Answer.{outcome};
ghost use Rattle.encoding.specs.Refusal.{told};
ghost use Rattle.listing.specs.Listing.{listing_words, listing_length, listing_outcome, bytes_outcome};

use crate::LISTING_WORDS;
use crate::head::put_head;
use crate::line::put_lines;
use encoding::{Refusal, get_words};

// How long the listing of `n` words is.
fn listing_length(n: usize) -> usize
    requires { n ≤ listing_words }
    ensures { result ≡ listing_length n }
{
    if n == 1 {
        return 186 + 45 * n;
    }
    if n < 10 {
        return 187 + 45 * n;
    }
    if n < 100 {
        return 188 + 45 * n;
    }
    189 + 45 * n
}

// Disassemble a whole program image into a lent buffer. Refused 1 over LISTING_WORDS, 5 where the
// buffer is shorter than the listing; bytes past the listing are kept.
pub fn disassemble_image(words: &[u16], out: &mut [u8]) -> Result<usize, Refusal>
    ensures { outcome (told result) out.new ≡ listing_outcome words.now out.old }
{
    let n = words.len();
    if LISTING_WORDS < n {
        return Err(Refusal::LongImage);
    }
    let size = listing_length(n);
    if out.len() < size {
        return Err(Refusal::ShortBuffer);
    }
    let at = put_head(out, n);
    put_lines(out, at, words);
    Ok(size)
}

// The same for words in bytes, high byte first. An odd byte is refused 6.
pub fn list_bytes(image: &[u8], out: &mut [u8]) -> Result<usize, Refusal>
    ensures { outcome (told result) out.new ≡ bytes_outcome image.now out.old }
{
    let n = image.len() / 2;
    if LISTING_WORDS < n {
        return Err(Refusal::LongImage);
    }
    if out.len() < listing_length(n) {
        return Err(Refusal::ShortBuffer);
    }
    if image.len() % 2 != 0 {
        return Err(Refusal::InputLength);
    }
    let mut words = [0u16; LISTING_WORDS];
    get_words(image, 0, &mut words[..n]);
    disassemble_image(&words[..n], out)
}
