//! Words that are spelled almost alike.
ghost use Rattle.std.specs.Prelude.{IfSome};
ghost use Rattle.std.specs.List.{Contains};

/// The name that is spelled most like the word, the first of several: with one letter more, fewer or another, or in a
/// word of four letters or more with two. None where none is, and of a word of one or two letters.
pub fn nearest_name<'n>(word: &str, names: &[&'n str]) -> Option<&'n str>
    ensures { IfSome result (Contains names.now) }
{
    if word.len() < 3 {
        return None;
    }
    for name in names {
        if is_one_off(word.as_bytes(), name.as_bytes()) {
            return Some(*name);
        }
    }
    if word.len() < 4 {
        return None;
    }
    for name in names {
        if is_two_off(word.as_bytes(), name.as_bytes()) {
            return Some(*name);
        }
    }
    None
}

/// Whether one is the other with at most one byte more, fewer or another.
fn is_one_off(word: &[u8], name: &[u8]) -> bool {
    let (word, name) = after_common(word, name);
    rest(word) == name || word == rest(name) || rest(word) == rest(name)
}

/// The same with at most two.
fn is_two_off(word: &[u8], name: &[u8]) -> bool {
    let (word, name) = after_common(word, name);
    is_one_off(rest(word), name)
        || is_one_off(word, rest(name))
        || is_one_off(rest(word), rest(name))
}

/// What follows in both after the bytes that both begin with.
fn after_common<'w, 'n>(word: &'w [u8], name: &'n [u8]) -> (&'w [u8], &'n [u8]) {
    let common = word
        .iter()
        .zip(name.iter())
        .take_while(|(a, b)| a == b)
        .count();
    (
        word.get(common..).unwrap_or(&[]),
        name.get(common..).unwrap_or(&[]),
    )
}

/// What follows the first byte.
fn rest(bytes: &[u8]) -> &[u8] {
    bytes.get(1..).unwrap_or(&[])
}
