// The head of a listing, which says how many words there are.
ghost use Rattle.std.specs.Prelude.{◌≡◌, ◌+◌, ◌≤◌, ◌<◌, length};
ghost use Rattle.isa.specs.Text.{text, text_of};
ghost use Rattle.isa.specs.Format.{decimal};
ghost use Rattle.encoding.specs.Bytes.{over};
ghost use Rattle.listing.specs.Listing.{listing_words, words_text, head_length, head_of};

use encoding::put_bytes;
use isa::Text;

// A number below 1,000 in decimal.
fn decimal_text(n: usize) -> Text
    requires { n < 1000 }
    ensures { result ≡ text (decimal 3 n) }
{
    if n < 10 {
        return Text::from_bytes(&[b'0' + n as u8]);
    }
    if n < 100 {
        return Text::from_bytes(&[b'0' + (n / 10) as u8, b'0' + (n % 10) as u8]);
    }
    Text::from_bytes(&[
        b'0' + (n / 10 / 10) as u8,
        b'0' + (n / 10 % 10) as u8,
        b'0' + (n % 10) as u8,
    ])
}

// One word, and any other number of words.
fn words_text(n: usize) -> Text
    ensures { result ≡ text (words_text n) }
{
    if n == 1 {
        Text::from_bytes(b" word of machine code.\n")
    } else {
        Text::from_bytes(b" words of machine code.\n")
    }
}

// A text from index `at` on; what is answered is the place behind it.
fn put_text(out: &mut [u8], at: usize, t: Text) -> usize
    requires { (t.len ≤ 32) × (at + t.len ≤ length out.old) }
    ensures { (result ≡ at + t.len) × (out.new ≡ over out.old at (text_of t)) }
{
    let n = t.len as usize;
    let bytes = t.bytes;
    put_bytes(out, at, &bytes[..n]);
    at + n
}

// The head; what is answered is its length.
pub(crate) fn put_head(out: &mut [u8], n: usize) -> usize
    requires { (head_length n ≤ length out.old) × (n ≤ listing_words) }
    ensures { (result ≡ head_length n) × (out.new ≡ over out.old 0 (head_of n)) }
{
    put_bytes(out, 0, b"; Disassembled from ");
    let p = put_text(out, 20, decimal_text(n));
    let q = put_text(out, p, words_text(n));
    put_bytes(
        out,
        q,
        b"; Labels were generated for the addresses this program refers to.\n; Edit this assembly and press Assemble to build a new machine code image.\n\n",
    );
    q + 142
}
