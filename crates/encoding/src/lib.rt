// Bytes and numbers in lent bytes, numbers high byte first. Every public function takes any input, so that no
// caller has to test first: what does not fit whole is not written, what is not wholly there is not read.
#![tactic(auto)]

mod refusal;

ghost use Rattle.std.specs.Prelude.{◌≡◌, ◌+◌, ◌*◌, ◌^◌, ◌≤◌, ◌<◌, leb, length, drop};
ghost use Rattle.encoding.specs.Bytes.{over, big_endian, big_endians, number, numbers, written, read_number, read_words, member};

pub use refusal::Refusal;

// Whether `n` bytes at index `at` lie wholly in `len` bytes. It subtracts, since `at + n` may be too large for
// a usize.
pub fn inside(len: usize, at: usize, n: usize) -> bool
    ensures { result ≡ leb (at + n) len }
{
    len.checked_sub(at).is_some_and(|room| n <= room)
}

// Writes `bytes` from index `at` on, where they fit; all else of `out` is kept.
#[tactic(auto, unfolding(crate::specs::Bytes::written))]
pub fn put_bytes(out: &mut [u8], at: usize, bytes: &[u8])
    ensures { out.new ≡ written out.old at bytes.now }
{
    if inside(out.len(), at, bytes.len()) {
        out[at..at + bytes.len()].copy_from_slice(bytes);
    }
}

// Writes `n` in `width` bytes from index `at` on, where they fit. A width over 8 has zeros in front; one that is
// too small for `n` loses its high bytes.
pub fn put_number(out: &mut [u8], at: usize, width: usize, n: u64)
    ensures { out.new ≡ written out.old at (big_endian width n) }
{
    if inside(out.len(), at, width) {
        put_digits(out, at, width, n);
    }
}

// From the low byte up, so that each turn takes off the digit that it writes.
fn put_digits(out: &mut [u8], at: usize, width: usize, n: u64)
    requires { at + width ≤ length out.old }
    ensures { out.new ≡ over out.old at (big_endian width n) }
{
    let mut left = n;
    for i in 0..width {
        out[at + width - 1 - i] = (left % 256) as u8;
        left /= 256;
    }
}

// The number in the `width` bytes at index `at`; 0 where they are not all there, and for a width over 8, since
// the number may be too large for a u64.
#[tactic(auto, unfolding(crate::specs::Bytes::read_number))]
pub fn get_number(bytes: &[u8], at: usize, width: usize) -> u64
    ensures { result ≡ read_number bytes.now at width }
{
    if 8 < width {
        return 0;
    }
    if inside(bytes.len(), at, width) {
        return get_digits(bytes, at, width);
    }
    0
}

// From the high byte down. The bound on the result is for a caller that keeps it in fewer bits.
fn get_digits(bytes: &[u8], at: usize, width: usize) -> u64
    requires { (at + width ≤ length bytes.now) × (width ≤ 8) }
    ensures { (result ≡ number width (drop at bytes.now)) × (result < 256 ^ width) }
{
    let mut read: u64 = 0;
    for byte in &bytes[at..at + width] {
        read = read * 256 + u64::from(*byte);
    }
    read
}

// Writes each of `words` in two bytes, from index `at` on, where they all fit.
pub fn put_words(out: &mut [u8], at: usize, words: &[u16])
    ensures { out.new ≡ written out.old at (big_endians 2 words.now) }
{
    if inside(out.len(), at, 2 * words.len()) {
        put_each(out, at, words);
    }
}

// The same, where it is known that they fit.
fn put_each(out: &mut [u8], at: usize, words: &[u16])
    requires { at + 2 * length words.now ≤ length out.old }
    ensures { out.new ≡ over out.old at (big_endians 2 words.now) }
{
    for (i, word) in words.iter().enumerate() {
        put_digits(out, at + 2 * i, 2, u64::from(*word));
    }
}

// Fills `out` with the words of two bytes from index `at` on; where they are not all there, `out` is kept.
#[tactic(auto, unfolding(crate::specs::Bytes::read_words))]
pub fn get_words(bytes: &[u8], at: usize, out: &mut [u16])
    ensures { out.new ≡ read_words bytes.now at out.old }
{
    if inside(bytes.len(), at, 2 * out.len()) {
        get_each(bytes, at, out);
    }
}

// The same, where it is known that they are there. The two bytes are taken at once, so that the compiler
// reads many words at a time.
fn get_each(bytes: &[u8], at: usize, out: &mut [u16])
    requires { at + 2 * length out.old ≤ length bytes.now }
    ensures { out.new ≡ numbers 2 (length out.old) (drop at bytes.now) }
{
    for i in 0..out.len() {
        out[i] = u16::from_be_bytes([bytes[at + 2 * i], bytes[at + 2 * i + 1]]);
    }
}

// Whether `b` stands among the bytes.
pub fn contains(s: &[u8], b: u8) -> bool
    ensures { result ≡ member b s.now }
{
    s.contains(&b)
}
