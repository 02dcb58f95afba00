// A label as a number, so that labels are compared and kept as numbers are: its seven bytes at most
// fit one, and no two labels have the same.
ghost use Rattle.std.specs.Prelude.{◌≡◌, true, ◌≤◌, length};
ghost use Rattle.assemble.specs.Grammar.{is_name_byte, all};
ghost use Rattle.assemble.specs.Assembly.{key};
ghost use Rattle.assemble.specs.Reading.{label_key};

// The bytes as a number, the first the lowest.
fn key_of(l: &[u8]) -> u64
    requires { length l.now ≤ 7 }
    ensures { result ≡ key l.now }
{
    let mut bytes = [0u8; 8];
    bytes[..l.len()].copy_from_slice(l);
    u64::from_le_bytes(bytes)
}

// The key of a label, where the bytes of a name are one.
pub(crate) fn label_key(l: &[u8]) -> Option<u64>
    requires { all is_name_byte l.now ≡ true }
    ensures { result ≡ label_key l.now }
{
    if l.len() < 2 || 7 < l.len() || l[0] != b'L' {
        return None;
    }
    Some(key_of(l))
}
