//! What is trimmed at the end of a text: spaces, CRs and LFs.
ghost use Rattle.std.specs.Prelude.{◌≡◌};
ghost use Rattle.fluent_syntax_tree.specs.Text.{is_trimmed, trimmed_len};

/// Whether it is a space, a CR or an LF.
pub fn is_trimmed(byte: u8) -> bool
    ensures { result ≡ is_trimmed byte }
{
    matches!(byte, b' ' | b'\r' | b'\n')
}

/// The length in bytes of a text without its longest ending of spaces, CRs and LFs.
pub fn trimmed_len(bytes: &[u8]) -> usize
    ensures { result ≡ trimmed_len bytes.now }
{
    let mut len = bytes.len();
    while len > 0 && is_trimmed(bytes[len - 1]) {
        len -= 1;
    }
    len
}
