//! Patterns of names.
ghost use Rattle.std.specs.Prelude.{◌≡◌};
ghost use Rattle.ftl_files.specs.Patterns.{meeting, meeting_of, name_matches, of_some_end};

/// Whether the pattern is the name, where each `*` in it means any characters.
pub fn name_matches(pattern: &str, name: &str) -> bool
    ensures { result ≡ name_matches pattern.now name.now }
{
    bytes_match(pattern.as_bytes(), name.as_bytes())
}

/// The same of bytes.
pub fn bytes_match(pattern: &[u8], name: &[u8]) -> bool
    ensures { result ≡ name_matches pattern.now name.now }
{
    match meeting(pattern, name) {
        Outcome::Same => true,
        Outcome::Differs => false,
        Outcome::Star(pattern, name) => matches_some_end(pattern, name),
    }
}

/// Whether the pattern is what the name ends in, from some byte on.
fn matches_some_end(pattern: &[u8], name: &[u8]) -> bool
    ensures { result ≡ of_some_end (name_matches pattern.now) name.now }
{
    let (mut wanted, mut left) = (pattern, name);
    loop {
        match meeting(wanted, left) {
            Outcome::Same => return true,
            // the first place is the best one: it leaves most for what follows
            Outcome::Star(more, rest) => {
                wanted = more;
                left = rest;
            }
            Outcome::Differs => match left {
                [_, rest @ ..] => left = rest,
                [] => return false,
            },
        }
    }
}

/// What comes of a pattern and a name, up to the first `*`.
#[derive(Clone, Copy)]
enum Outcome<'a> {
    /// They are the same, and there is no `*`.
    Same,
    Differs,
    /// What is left of both after it.
    Star(&'a [u8], &'a [u8]),
}

fn meeting<'a>(pattern: &'a [u8], name: &'a [u8]) -> Outcome<'a>
    ensures { meeting_of result ≡ meeting pattern.now name.now }
{
    let (mut wanted, mut left) = (pattern, name);
    while let [byte, more @ ..] = wanted {
        if *byte == b'*' {
            return Outcome::Star(more, left);
        }
        match left {
            [first, rest @ ..] if byte == first => left = rest,
            _ => return Outcome::Differs,
        }
        wanted = more;
    }
    if left.is_empty() {
        Outcome::Same
    } else {
        Outcome::Differs
    }
}
