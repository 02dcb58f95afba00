// From labels to addresses: whether a label stands on two lines, and the words with the addresses of
// the labels that they refer to.
ghost use Rattle.std.specs.Prelude.{◌≡◌};
ghost use Rattle.assemble.specs.Assembly.{doubled};
ghost use Rattle.assemble.specs.Reading.{labels_in, Linkable, place_of, address_of, resolved_as, linked};

use crate::Assembled;
use crate::lines::Entry;
use encoding::Refusal;
use listing::LISTING_WORDS;

// The first place of a label's key. It is asked too whether there is one: by `any` an assembly of 256 jumps to
// 256 labels takes near twice as long.
fn place(entries: &[Entry], key: u64) -> Option<usize>
    ensures { result ≡ place_of key (labels_in entries.now) }
{
    entries.iter().position(|entry| entry.label == key)
}

// Whether a label stands on two lines. The key 0 is that of a line without a label.
fn twice(entries: &[Entry]) -> bool
    ensures { result ≡ doubled (labels_in entries.now) }
{
    for (i, entry) in entries.iter().enumerate() {
        if entry.label != 0 && place(&entries[i + 1..], entry.label).is_some() {
            return true;
        }
    }
    false
}

// What is added to a word that refers to the label of this key. One search finds the label's address and
// that there is none.
fn address_of(entries: &[Entry], key: u64) -> Result<usize, Refusal>
    ensures { result ≡ address_of (labels_in entries.now) key }
{
    if key == 0 {
        return Ok(0);
    }
    place(entries, key).ok_or(Refusal::Label)
}

// The words with the addresses of the labels that they refer to.
fn resolve(entries: &[Entry]) -> Result<Assembled, Refusal>
    requires { Linkable entries.now }
    ensures { result ≡ resolved_as entries.now }
{
    let mut out = [0u16; LISTING_WORDS];
    for (i, entry) in entries.iter().enumerate() {
        let address = address_of(entries, entry.refers)?;
        out[i] = (entry.word + address as u64) as u16;
    }
    Ok(Assembled {
        words: out,
        count: entries.len(),
    })
}

// The labels' tests, and the image. Not put in place, as `collect` is not: with all loops of a call in one
// function an assembly takes a tenth longer.
#[inline(never)]
pub(crate) fn link(entries: &[Entry]) -> Result<Assembled, Refusal>
    requires { Linkable entries.now }
    ensures { result ≡ linked entries.now }
{
    if twice(entries) {
        return Err(Refusal::Label);
    }
    resolve(entries)
}
