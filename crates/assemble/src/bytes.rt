// Bytes of a text: digits, names, and what is passed over.
ghost use Rattle.std.specs.Prelude.{◌≡◌, ◌≤◌, ℕ, Bool, length};
ghost use Rattle.std.specs.Fn.{FnReturnsAt};
ghost use Rattle.assemble.specs.Grammar.{is_name_byte};
ghost use Rattle.assemble.specs.Reading.{hex_value, Passed, Ends};

// The value of a hexadecimal digit.
pub(crate) fn digit_in(b: u8) -> Option<u8>
    ensures { result ≡ hex_value b }
{
    match b {
        b'0'..=b'9' => Some(b - b'0'),
        b'A'..=b'F' => Some(b - b'A' + 10),
        _ => None,
    }
}

// Whether the byte is a capital letter or a digit.
pub(crate) fn is_name_byte(b: u8) -> bool
    ensures { result ≡ is_name_byte b }
{
    matches!(b, b'0'..=b'9' | b'A'..=b'Z')
}

// The first place from `at` on whose byte ends what is passed over.
pub(crate) fn skip<F: Fn(&u8) -> bool>(s: &[u8], at: usize, ends: F) -> usize
    requires inside { at ≤ length s.now }
    requires callable { F.IsAlwaysCallable ends }
    ensures { (f : ℕ → Bool) → Ends (FnReturnsAt F.Fn ends) f → Passed f s.now at result }
{
    match s[at..].iter().position(ends) {
        Some(n) => at + n,
        None => s.len(),
    }
}
