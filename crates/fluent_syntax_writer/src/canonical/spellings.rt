//! The spellings of names, numbers and strings.
ghost use Rattle.std.specs.Prelude.{◌≡◌, ◌∷◌, List, ℕ, false, MatchOption};
ghost use Rattle.std.specs.List.{list_all};
ghost use Rattle.fluent_syntax_grammar.specs.Bytes.{is_name_byte, is_digit};
ghost use Rattle.fluent_syntax_grammar.specs.Inline.{is_callee_byte};
ghost use Rattle.fluent_syntax_grammar.specs.Spellings.{is_name, is_digits, is_number_rest, is_unsigned, is_number};
ghost use Rattle.fluent_syntax_grammar.specs.Spellings.{is_units, is_escape, is_string};
ghost use Rattle.fluent_syntax_grammar.specs.Readable.{is_callee};
ghost use Rattle.fluent_syntax_writer.specs.Strings.{may_follow};

use fluent_syntax_grammar::lanes::name_len;

/// Whether the text is a letter and then letters, digits, `-` and `_`.
pub fn is_name(text: &str) -> bool
    ensures { result ≡ is_name text.now }
{
    match text.as_bytes() {
        [] => false,
        [first, rest @ ..] => first.is_ascii_alphabetic() && are_name_bytes(rest),
    }
}

fn are_name_bytes(bytes: &[u8]) -> bool
    ensures { result ≡ list_all is_name_byte bytes.now }
{
    name_len(bytes) == bytes.len()
}

/// Whether the text holds only `A` to `Z`, digits, `_` and `-`.
pub fn is_callee(text: &str) -> bool
    ensures { result ≡ is_callee text.now }
{
    text.as_bytes().iter().all(|byte| is_callee_byte(*byte))
}

fn is_callee_byte(byte: u8) -> bool
    ensures { result ≡ is_callee_byte byte }
{
    matches!(byte, b'A'..=b'Z' | b'0'..=b'9' | b'_' | b'-')
}

/// Whether the text is a number: perhaps `-`, digits, and perhaps `.` with digits.
pub fn is_number(text: &str) -> bool
    ensures { result ≡ is_number text.now }
{
    match text.as_bytes() {
        [b'-', rest @ ..] => is_unsigned(rest),
        bytes => is_unsigned(bytes),
    }
}

/// Whether the text is a number without `-`.
pub fn is_unsigned(bytes: &[u8]) -> bool
    ensures { result ≡ is_unsigned bytes.now }
{
    match bytes {
        [] => false,
        [first, rest @ ..] => first.is_ascii_digit() && is_number_rest(rest),
    }
}

/// Whether these are digits, and perhaps `.` with digits.
fn is_number_rest(bytes: &[u8]) -> bool
    ensures { result ≡ is_number_rest bytes.now }
{
    for (index, byte) in bytes.iter().enumerate() {
        if !byte.is_ascii_digit() {
            return *byte == b'.' && is_digits(&bytes[index + 1..]);
        }
    }
    true
}

/// Whether these are digits, and at least one.
fn is_digits(bytes: &[u8]) -> bool
    ensures { result ≡ is_digits bytes.now }
{
    !bytes.is_empty() && are_digits(bytes)
}

fn are_digits(bytes: &[u8]) -> bool
    ensures { result ≡ list_all is_digit bytes.now }
{
    bytes.iter().all(|byte| byte.is_ascii_digit())
}

/// What comes next in a string.
#[derive(Clone, Copy)]
enum Next {
    /// So many hexadecimal digits, and then units.
    Units(u8),
    /// The rest of an escape, after its backslash.
    Escape,
}

/// What comes next after the byte, or `None` where the byte may not be.
fn next_after(next: Next, byte: u8) -> Option<Next>
    ensures { MatchOption result ((rest : List ℕ) → may_follow next (byte ∷ rest) ≡ false)
        (λ after. (rest : List ℕ) → may_follow next (byte ∷ rest) ≡ may_follow after rest) }
{
    match next {
        Next::Units(digits) => {
            if digits == 0 {
                after_unit(byte)
            } else if byte.is_ascii_hexdigit() {
                Some(Next::Units(digits - 1))
            } else {
                None
            }
        }
        Next::Escape => after_backslash(byte),
    }
}

fn after_unit(byte: u8) -> Option<Next>
    ensures { MatchOption result ((rest : List ℕ) → is_units 0 (byte ∷ rest) ≡ false)
        (λ after. (rest : List ℕ) → is_units 0 (byte ∷ rest) ≡ may_follow after rest) }
{
    match byte {
        b'"' | b'\n' => None,
        b'\\' => Some(Next::Escape),
        _ => Some(Next::Units(0)),
    }
}

fn after_backslash(byte: u8) -> Option<Next>
    ensures { MatchOption result ((rest : List ℕ) → is_escape (byte ∷ rest) ≡ false)
        (λ after. (rest : List ℕ) → is_escape (byte ∷ rest) ≡ may_follow after rest) }
{
    match byte {
        b'\\' | b'"' | b'{' => Some(Next::Units(0)),
        b'u' => Some(Next::Units(4)),
        b'U' => Some(Next::Units(6)),
        _ => None,
    }
}

/// Whether the text may be between the quotes of a string.
pub fn is_string(text: &str) -> bool
    ensures { result ≡ is_string text.now }
{
    let mut next = Next::Units(0);
    for byte in text.as_bytes() {
        match next_after(next, *byte) {
            Some(after) => next = after,
            None => return false,
        }
    }
    matches!(next, Next::Units(0))
}
