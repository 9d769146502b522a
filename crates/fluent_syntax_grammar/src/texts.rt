//! Tests of one text of a pattern, which reading, joining and the rules of trees share.
ghost use Rattle.std.specs.Prelude.{◌≡◌};
ghost use Rattle.fluent_syntax_grammar.specs.Elements.{is_nonblank, without_last_lf};
ghost use Rattle.fluent_syntax_grammar.specs.PatternTexts.{ends_in_lf, is_lone_lf};

/// The bytes without an LF that ends them.
pub fn without_last_lf(bytes: &[u8]) -> &[u8]
    ensures { result.now ≡ without_last_lf bytes.now }
{
    match bytes {
        [rest @ .., last] => { if *last == b'\n' { rest } else { bytes } }
        [] => bytes,
    }
}

/// Whether the text holds a byte other than space, apart from an ending LF.
pub fn is_nonblank(bytes: &[u8]) -> bool
    ensures { result ≡ is_nonblank bytes.now }
{
    without_last_lf(bytes).iter().any(|byte| *byte != b' ')
}

/// Whether the last byte is an LF.
pub fn ends_in_lf(text: &str) -> bool
    ensures { result ≡ ends_in_lf text.now }
{
    match text.as_bytes() {
        [.., last] => *last == b'\n',
        [] => false,
    }
}

/// Whether the text is an LF and nothing else.
pub fn is_lone_lf(text: &str) -> bool
    ensures { result ≡ is_lone_lf text.now }
{
    match text.as_bytes() {
        [only] => *only == b'\n',
        _ => false,
    }
}
