// Records of kind 'S': a source text, and its image or its refusal.
use assemble::{Assembled, assemble};
use encoding::{put_number, put_words};
use listing::LISTING_WORDS;
use replay::word_at;

// The longest answer: the refusal's number 1, the number of words 2, the words.
const ANSWER: usize = 515;

// Whether the answer is that of the image: 0, and zeros stand behind its words.
fn is_image(image: Assembled, answer: &[u8]) -> bool {
    let mut due = [0u8; ANSWER];
    put_number(&mut due, 1, 2, image.count as u64);
    put_words(&mut due, 3, &image.words);
    match due.split_at_checked(answer.len()) {
        Some((whole, behind)) => {
            image.count <= LISTING_WORDS
                && answer.len() == 3 + 2 * image.count
                && answer == whole
                && behind.iter().all(|b| *b == 0)
        }
        None => false,
    }
}

// The question is the number of bytes and the text. A refusal has no words.
pub(crate) fn passes(record: &[u8]) -> bool {
    let end = 3 + word_at(record, 1) as usize;
    if record.len() < end {
        return false;
    }
    let answer = &record[end..];
    match assemble(&record[3..end]) {
        Ok(image) => is_image(image, answer),
        Err(refusal) => answer == &[refusal.number(), 0, 0][..],
    }
}
