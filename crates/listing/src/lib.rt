// The listing of a program image: a head, and a line of 45 bytes for each word.
#![tactic(auto)]

mod calls;
mod head;
mod labels;
mod line;

pub use calls::{disassemble_image, list_bytes};

// The words that a listing has at most: its addresses are two digits, whatever memory holds.
pub const LISTING_WORDS: usize = 256;
