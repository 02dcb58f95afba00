// The assembler: an edited listing back to words (document 02, Change 4). A line is a part of the
// text, what is left of it a position, a label its key.
#![tactic(auto)]

mod bytes;
mod calls;
mod forms;
mod labels;
mod lines;
mod links;
mod text;

pub use calls::{assemble, assemble_bytes};
use listing::LISTING_WORDS;

// The image of a text: `count` words and zeros behind them, since there is no heap.
#[derive(Clone, Copy, Debug, PartialEq, Eq)]
pub struct Assembled {
    pub words: [u16; LISTING_WORDS],
    pub count: usize,
}
