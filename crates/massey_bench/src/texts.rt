// A word as text, for timing.
ghost use Rattle.std.specs.Prelude.{◌≡◌};
ghost use Rattle.isa.specs.Text.{text};
ghost use Rattle.isa.specs.Format.{hex4};
ghost use Rattle.encoding.specs.Bytes.{written};

use encoding::put_bytes;
use isa::format_word;

// The four digits of a word in a field of 32 bytes, where that fits; what is answered is how many they are.
#[unsafe(no_mangle)]
pub extern "C" fn massey_format_word(word: u16, out: &mut [u8]) -> u64
    ensures { (result ≡ (text (hex4 word)).len) × (out.new ≡ written out.old 0 (text (hex4 word)).bytes) }
{
    let t = format_word(word);
    let bytes = t.bytes;
    put_bytes(out, 0, &bytes);
    t.len as u64
}
