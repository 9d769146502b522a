//! What is around a place of an entry, as its bytes show it: that may be in the middle of being typed.

use crate::documents::entry_ranges::{next_entry_line_start, trimmed_end};
use fluent_syntax::spans::Span;
use std::alloc::{AllocError, Global};

/// What has begun and not ended.
#[derive(Clone, Copy, PartialEq, Eq)]
pub enum LevelKind {
    /// What follows a `{`.
    Placeable,
    /// What follows a `"`.
    StringLiteral,
    /// What follows the `[` of a variant.
    VariantKey,
    /// What follows its `]`.
    VariantValue,
}

/// Something that has begun, and the byte with which it did: of a variant its `[`, or the `*` of the default one.
#[derive(Clone, Copy)]
struct Level {
    kind: LevelKind,
    start: usize,
}

/// What ends with a byte.
#[derive(Clone, Copy)]
struct Ended {
    /// The key of a variant, without its `]`.
    key: Option<Span>,
    /// A variant, with the blanks after it.
    variant: Option<Span>,
    placeable: Option<Span>,
}

/// What has begun and not ended, the outermost first.
#[derive(Drop)]
pub struct Levels {
    open: Vec<Level>,
    /// Whether the byte before was the `\` of an escape.
    is_escaped: bool,
    /// Whether the line so far has blanks and the `*` of a variant alone.
    begins_line: bool,
    /// Whether the byte before was such a `*`.
    is_default: bool,
}

impl Levels {
    /// None, where an entry begins.
    fn new(alloc: Global) -> Self {
        Levels {
            open: Vec::new(alloc),
            is_escaped: false,
            begins_line: false,
            is_default: false,
        }
    }

    /// What is in nothing else. None in a text that is in nothing.
    pub fn innermost(&self) -> Option<LevelKind> {
        let level = self.open.last()?;
        Some(level.kind)
    }

    /// Where the innermost placeable begins.
    fn placeable_start(&self) -> Option<usize> {
        for level in self.open.iter().rev() {
            if level.kind == LevelKind::Placeable {
                return Some(level.start);
            }
        }
        None
    }

    /// Goes over the byte, which has that number. Gives what it ends.
    fn go_over(&mut self, byte: u8, at: usize) -> Result<Ended, AllocError> {
        let mut ended = Ended {
            key: None,
            variant: None,
            placeable: None,
        };
        match self.innermost() {
            Some(LevelKind::StringLiteral) => self.go_over_string(byte),
            Some(LevelKind::VariantKey) => ended.key = self.go_over_key(byte, at)?,
            Some(LevelKind::Placeable) => ended.placeable = self.go_over_placeable(byte, at)?,
            Some(LevelKind::VariantValue) if byte == b'[' && self.begins_line => {
                let next = self.variant_start(at);
                ended.variant = self.end(next);
                self.begin(LevelKind::VariantKey, next)?;
            }
            Some(LevelKind::VariantValue) if byte == b'}' => {
                ended.variant = self.end(at);
                ended.placeable = self.end(at.saturating_add(1));
            }
            _ if byte == b'{' => self.begin(LevelKind::Placeable, at)?,
            _ => {}
        }
        self.is_default = self.begins_line && byte == b'*';
        self.begins_line = byte == b'\n' || (self.begins_line && matches!(byte, b' ' | b'*'));
        Ok(ended)
    }

    fn go_over_string(&mut self, byte: u8) {
        let is_escaped = self.is_escaped;
        self.is_escaped = byte == b'\\' && !is_escaped;
        if byte == b'\n' || byte == b'"' && !is_escaped {
            drop(self.open.pop());
        }
    }

    /// Gives the key that the byte ends.
    fn go_over_key(&mut self, byte: u8, at: usize) -> Result<Option<Span>, AllocError> {
        match byte {
            b']' => {
                let key = self.end(at);
                self.begin(LevelKind::VariantValue, key.map_or(at, |key| key.start))?;
                Ok(key)
            }
            b'\n' => {
                drop(self.open.pop());
                Ok(None)
            }
            _ => Ok(None),
        }
    }

    /// Gives the placeable that the byte ends.
    fn go_over_placeable(&mut self, byte: u8, at: usize) -> Result<Option<Span>, AllocError> {
        match byte {
            b'"' => self.begin(LevelKind::StringLiteral, at)?,
            b'[' => self.begin(LevelKind::VariantKey, self.variant_start(at))?,
            b'{' => self.begin(LevelKind::Placeable, at)?,
            b'}' => return Ok(self.end(at.saturating_add(1))),
            _ => {}
        }
        Ok(None)
    }

    /// Where the variant begins whose `[` is the byte of that number.
    fn variant_start(&self, at: usize) -> usize {
        at.saturating_sub(usize::from(self.is_default))
    }

    fn begin(&mut self, kind: LevelKind, start: usize) -> Result<(), AllocError> {
        self.open.push(Level { kind, start })?;
        Ok(())
    }

    /// Ends what is innermost before the byte of that number. Gives where it is.
    fn end(&mut self, end: usize) -> Option<Span> {
        let Level { start, .. } = self.open.pop()?;
        Some(Span { start, end })
    }
}

/// What is open at the byte, of what begins from another byte on, where an entry begins.
pub fn levels_at(
    alloc: Global,
    text: &[u8],
    from: usize,
    byte: usize,
) -> Result<Levels, AllocError> {
    let mut levels = Levels::new(alloc);
    for at in from..byte.min(text.len()) {
        levels.go_over(text[at], at)?;
    }
    Ok(levels)
}

/// The placeables in an entry with their braces, in the order of their ends.
pub fn placeables_in(alloc: Global, text: &[u8], entry: Span) -> Result<Vec<Span>, AllocError> {
    let mut found = Vec::new(alloc);
    let mut levels = Levels::new(alloc);
    for at in entry.start..entry.end.min(text.len()) {
        if let Some(placeable) = levels.go_over(text[at], at)?.placeable {
            found.push(placeable)?;
        }
    }
    Ok(found)
}

/// The same, and the variants in them without blanks after them.
pub fn steps_in(alloc: Global, text: &[u8], entry: Span) -> Result<Vec<Span>, AllocError> {
    let mut found = Vec::new(alloc);
    let mut levels = Levels::new(alloc);
    for at in entry.start..entry.end.min(text.len()) {
        let ended = levels.go_over(text[at], at)?;
        if let Some(Span { start, end }) = ended.variant {
            let end = trimmed_end(text, end);
            found.push(Span { start, end })?;
        }
        if let Some(placeable) = ended.placeable {
            found.push(placeable)?;
        }
    }
    Ok(found)
}

/// The keys of the select in which the key is that begins at the byte, but for that one, in an entry that begins there.
pub fn other_keys(
    alloc: Global,
    text: &[u8],
    entry: usize,
    begin: usize,
) -> Result<Vec<Span>, AllocError> {
    let mut found = Vec::new(alloc);
    let Some(select) = levels_at(alloc, text, entry, begin)?.placeable_start() else {
        return Ok(found);
    };
    let mut levels = Levels::new(alloc);
    for at in select..next_entry_line_start(text, begin).min(text.len()) {
        let ended = levels.go_over(text[at], at)?;
        match ended.key {
            Some(key) if levels.open.len() == 2 && !(key.start < begin && begin <= key.end) => {
                found.push(key_in(text, key))?;
            }
            _ => {}
        }
        if levels.open.is_empty() {
            break;
        }
    }
    Ok(found)
}

/// The key without what it begins with: its `[`, and the `*` of a default variant.
fn key_in(text: &[u8], key: Span) -> Span {
    let Span { start, end } = key;
    let marks = match text.get(start) {
        Some(b'*') => 2,
        _ => 1,
    };
    Span {
        start: start.saturating_add(marks),
        end,
    }
}
