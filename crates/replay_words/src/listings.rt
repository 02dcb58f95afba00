// Records of kind 'L': the listing of an image, in a buffer with room to spare, and the refusal of
// one that is a byte too short. The listing has its own length, so it is compared where it lies.
use encoding::{Refusal, get_words};
use listing::{LISTING_WORDS, disassemble_image};
use replay::word_at;

// More than the longest listing takes: 11,709 bytes.
const ROOM: usize = 12000;
// What a buffer is filled with: no byte of a listing.
const PATTERN: u8 = 0xA5;

// Whether a buffer still holds nothing but the pattern.
fn is_kept(out: &[u8]) -> bool {
    out.iter().all(|b| *b == PATTERN)
}

// Whether a buffer with room to spare gets the listing, and is kept behind it.
fn is_written(words: &[u16], due: &[u8]) -> bool {
    let mut out = [PATTERN; ROOM];
    match disassemble_image(words, &mut out) {
        Ok(size) => match out.split_at_checked(size) {
            Some((listing, behind)) => listing == due && is_kept(behind),
            None => false,
        },
        Err(_) => false,
    }
}

// Whether a buffer with one byte less than the listing has is refused as too short, and kept.
fn is_refused_short(words: &[u16], due: &[u8]) -> bool {
    let mut out = [PATTERN; ROOM];
    if due.is_empty() || ROOM < due.len() {
        return false;
    }
    let short = &mut out[..due.len() - 1];
    disassemble_image(words, short) == Err(Refusal::ShortBuffer) && is_kept(short)
}

// The question is the number of words and the words, the answer the listing's length and the listing. More than
// LISTING_WORDS have no listing.
pub(crate) fn passes(record: &[u8]) -> bool {
    let n = word_at(record, 1) as usize;
    let end = 3 + 2 * n;
    if LISTING_WORDS < n || record.len() < end + 2 {
        return false;
    }
    let mut words = [0u16; LISTING_WORDS];
    let words = &mut words[..n];
    get_words(record, 3, words);
    let due = &record[end + 2..];
    word_at(record, end) as usize == due.len()
        && is_written(words, due)
        && is_refused_short(words, due)
}
