//! Characters that look like another, or like nothing.
ghost use Rattle.std.specs.Prelude.{◌≡◌};
ghost use Rattle.ftl.specs.LookAlikes.{is_unseen};

use std::alloc::{AllocError, Global};

/// What is written in the place of a character.
#[derive(Clone, Copy)]
enum Instead {
    Space,
    Nothing,
    Hyphen,
    Quote,
    Character(char),
}

/// Whether the character is taken for another, or can't be seen.
pub(crate) fn is_look_alike(c: char) -> bool {
    c == '\t' || name_of(c).is_some()
}

/// Whether the character is a tab, or can't be seen.
pub(crate) fn is_blank_look_alike(c: char) -> bool {
    c == '\t' || is_unseen(c)
}

/// Whether the character looks like a space, or like nothing: the tab, and what a terminal would obey, apart.
pub fn is_unseen(c: char) -> bool
    ensures { result ≡ is_unseen c }
{
    c == '\u{A0}'
        || c == '\u{1680}'
        || c > '\u{1FFF}' && c < '\u{2010}'
        || c == '\u{2028}'
        || c == '\u{2029}'
        || c == '\u{202F}'
        || c == '\u{205F}'
        || c == '\u{3000}'
        || c == '\u{FEFF}'
}

/// What the character is called.
fn name_of(c: char) -> Option<&'static str> {
    let name = match c {
        '\u{A0}' => "a no-break space",
        '\u{1680}' => "an Ogham space mark",
        '\u{2000}'..='\u{200A}' => "a space of another width",
        '\u{200B}' => "a zero width space",
        '\u{200C}' => "a zero width non-joiner",
        '\u{200D}' => "a zero width joiner",
        '\u{200E}' => "a left-to-right mark",
        '\u{200F}' => "a right-to-left mark",
        '\u{2010}' => "a hyphen",
        '\u{2011}' => "a non-breaking hyphen",
        '\u{2012}' => "a figure dash",
        '\u{2013}' => "an en dash",
        '\u{2014}' => "an em dash",
        '\u{2015}' => "a horizontal bar",
        '\u{2018}'..='\u{201F}' => "a quotation mark",
        '\u{2028}' => "a line separator",
        '\u{2029}' => "a paragraph separator",
        '\u{202F}' => "a narrow no-break space",
        '\u{205F}' => "a mathematical space",
        '\u{3000}' => "an ideographic space",
        '\u{FEFF}' => "a byte order mark",
        '\u{FF00}'..='\u{FF5E}' => "a fullwidth character",
        _ => return None,
    };
    Some(name)
}

fn instead_of(c: char) -> Instead {
    match c {
        '\u{200B}'..='\u{200F}' | '\u{FEFF}' => Instead::Nothing,
        '\u{2010}'..='\u{2015}' => Instead::Hyphen,
        '\u{2018}'..='\u{201F}' => Instead::Quote,
        '\u{FF01}'..='\u{FF5E}' => match char::from_u32((c as u32).saturating_sub(0xFEE0)) {
            Some(c) => Instead::Character(c),
            None => Instead::Nothing,
        },
        _ => Instead::Space,
    }
}

/// What the character is, and what to write: of a tab that begins a line that it does not indent it.
pub(crate) fn look_alike_message(
    alloc: Global,
    c: char,
    begins_line: bool,
) -> Result<String, AllocError> {
    if c == '\t' {
        let message = if begins_line {
            "a tab does not indent: use spaces"
        } else {
            "this is a tab: use a space"
        };
        return String::from_str(alloc, message);
    }
    let (number, name) = (c as u32, name_of(c).unwrap_or("another character"));
    match instead_of(c) {
        Instead::Space => format!(in alloc; "this is U+{number:04X}, {name}: use a space"),
        Instead::Nothing => format!(in alloc; "this is U+{number:04X}, {name}: remove it"),
        Instead::Hyphen if begins_line => {
            format!(in alloc; "this is U+{number:04X}, {name}: a term begins with `-`")
        }
        Instead::Hyphen => format!(in alloc; "this is U+{number:04X}, {name}: write `-`"),
        Instead::Quote => {
            format!(in alloc; "this is U+{number:04X}, {name}: a string begins and ends with `\"`")
        }
        Instead::Character(c) => {
            format!(in alloc; "this is U+{number:04X}, {name}: write `{c}`")
        }
    }
}
