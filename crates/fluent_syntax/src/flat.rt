//! A plain test of texts.
ghost use Rattle.std.specs.Prelude.{◌≡◌, ◌↔◌, IsTrue};
ghost use Rattle.fluent_syntax.specs.Flat.{IsFlat, is_line_mark, may_occur};
ghost use Rattle.fluent_syntax_grammar.specs.PatternTexts.{is_brace};

/// Whether the text holds no `{` and no `}`, and no line begins with a space, `#`, `.`, `-` or CR.
pub fn is_flat(text: &str) -> bool
    ensures { IsTrue result ↔ IsFlat text.now }
{
    let mut starts_line = true;
    for byte in text.as_bytes() {
        if !can_occur(*byte, starts_line) {
            return false;
        }
        starts_line = *byte == b'\n';
    }
    true
}

fn can_occur(byte: u8, starts_line: bool) -> bool
    ensures { result ≡ may_occur starts_line byte }
{
    !has_brace(byte) && !(starts_line && has_line_mark(byte))
}

fn has_brace(byte: u8) -> bool
    ensures { result ≡ is_brace byte }
{
    byte == b'{' || byte == b'}'
}

fn has_line_mark(byte: u8) -> bool
    ensures { result ≡ is_line_mark byte }
{
    byte == b' ' || byte == b'#' || byte == b'.' || byte == b'-' || byte == b'\r'
}
