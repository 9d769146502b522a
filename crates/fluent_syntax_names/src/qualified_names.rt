//! How names are spelled.
ghost use Rattle.std.specs.Prelude.{◌≡◌, IfOk};
ghost use Rattle.fluent_syntax_names.specs.QualifiedNames.{name_at, qualified_name, qualified_attribute};
ghost use Rattle.fluent_syntax_names.specs.QualifiedNames.{qualified_value};
ghost use Rattle.fluent_syntax_names.specs.QualifiedNames.{qualified_variable, qualified_reference, variable_of};
ghost use Rattle.fluent_syntax_names.specs.QualifiedNames.{qualified_function};
ghost use Rattle.fluent_syntax_names.specs.QualifiedNames.{qualified_pattern, qualified_key};

use fluent_syntax_tree::spans::Span;
use std::alloc::{AllocError, Global};

/// The name of a message or a term.
#[derive(Clone, Copy)]
pub(crate) struct EntryName {
    /// Whether it is that of a term.
    pub(crate) is_term: bool,
    /// Where it is, without the `-` of a term.
    pub(crate) name: Span,
}

/// The pattern that a name is of: the value of an entry, or an attribute of it.
#[derive(Clone, Copy)]
pub(crate) struct PatternName {
    pub(crate) entry: EntryName,
    /// The name of the attribute, if it isn't the value.
    pub(crate) attribute: Option<Span>,
}

/// The bytes of a range of the text; none where it reaches beyond the text.
pub(crate) fn name_at(text: &str, span: Span) -> &[u8]
    ensures { result.now ≡ name_at text.now span }
{
    let bytes = text.as_bytes();
    if span.start <= span.end && span.end <= bytes.len() {
        &bytes[span.start..span.end]
    } else {
        &bytes[..0]
    }
}

/// The name with the `-` of a term before it.
pub(crate) fn qualified_name(
    alloc: Global,
    text: &str,
    entry: EntryName,
) -> Result<Vec<u8>, AllocError>
    ensures { IfOk result (λ bytes. bytes.items ≡ qualified_name text.now entry) }
{
    let mut bytes = Vec::new(alloc);
    if entry.is_term {
        bytes.push(b'-')?;
    }
    bytes.extend_from_slice(name_at(text, entry.name))?;
    Ok(bytes)
}

/// The name of an attribute after that of its entry and a `.`.
pub(crate) fn qualified_attribute(
    alloc: Global,
    text: &str,
    entry: EntryName,
    attribute: Span,
) -> Result<Vec<u8>, AllocError>
    ensures { IfOk result (λ bytes. bytes.items ≡ qualified_attribute text.now entry attribute) }
{
    let mut bytes = qualified_name(alloc, text, entry)?;
    bytes.push(b'.')?;
    bytes.extend_from_slice(name_at(text, attribute))?;
    Ok(bytes)
}

/// The name of an entry with a `=` after it, which is that of its value.
pub(crate) fn qualified_value(
    alloc: Global,
    text: &str,
    message: EntryName,
) -> Result<Vec<u8>, AllocError>
    ensures { IfOk result (λ bytes. bytes.items ≡ qualified_value text.now message) }
{
    let mut bytes = qualified_name(alloc, text, message)?;
    bytes.push(b'=')?;
    Ok(bytes)
}

/// The name of a variable after that of the entry that uses it and a `$`.
pub(crate) fn qualified_variable(
    alloc: Global,
    text: &str,
    entry: EntryName,
    variable: Span,
) -> Result<Vec<u8>, AllocError>
    ensures { IfOk result (λ bytes. bytes.items ≡ qualified_variable text.now entry variable) }
{
    let entry = qualified_name(alloc, text, entry)?;
    variable_of(alloc, &entry, name_at(text, variable))
}

/// A variable after the entry that uses it and a `$`.
pub(crate) fn variable_of(
    alloc: Global,
    entry: &[u8],
    variable: &[u8],
) -> Result<Vec<u8>, AllocError>
    ensures { IfOk result (λ bytes. bytes.items ≡ variable_of entry.now variable.now) }
{
    let length = entry.len().saturating_add(1).saturating_add(variable.len());
    let mut bytes = Vec::with_capacity(alloc, length)?;
    bytes.extend_from_slice(entry)?;
    bytes.push(b'$')?;
    bytes.extend_from_slice(variable)?;
    Ok(bytes)
}

/// The name of an entry after that of one that refers to it and a `>`.
pub(crate) fn qualified_reference(
    alloc: Global,
    text: &str,
    entry: EntryName,
    other: EntryName,
) -> Result<Vec<u8>, AllocError>
    ensures { IfOk result (λ bytes. bytes.items ≡ qualified_reference text.now entry other) }
{
    let mut bytes = qualified_name(alloc, text, entry)?;
    bytes.push(b'>')?;
    let other = qualified_name(alloc, text, other)?;
    bytes.extend_from_slice(&other)?;
    Ok(bytes)
}

/// The name of a function after a `(`.
pub(crate) fn qualified_function(
    alloc: Global,
    text: &str,
    function: Span,
) -> Result<Vec<u8>, AllocError>
    ensures { IfOk result (λ bytes. bytes.items ≡ qualified_function text.now function) }
{
    let mut bytes = Vec::new(alloc);
    bytes.push(b'(')?;
    bytes.extend_from_slice(name_at(text, function))?;
    Ok(bytes)
}

/// The key of a variant after the place of the first key of its select and a `[`.
pub(crate) fn qualified_key(
    alloc: Global,
    text: &str,
    first: Span,
    key: Span,
) -> Result<Vec<u8>, AllocError>
    ensures { IfOk result (λ bytes. bytes.items ≡ qualified_key text.now first key) }
{
    let select = first.start;
    let mut bytes = format!(in alloc; "{select}[")?.into_bytes();
    bytes.extend_from_slice(name_at(text, key))?;
    Ok(bytes)
}

/// The name of a pattern: that of the value, or of the attribute.
pub(crate) fn qualified_pattern(
    alloc: Global,
    text: &str,
    pattern: PatternName,
) -> Result<Vec<u8>, AllocError>
    ensures { IfOk result (λ bytes. bytes.items ≡ qualified_pattern text.now pattern) }
{
    match pattern.attribute {
        Some(attribute) => qualified_attribute(alloc, text, pattern.entry, attribute),
        None => qualified_value(alloc, text, pattern.entry),
    }
}
