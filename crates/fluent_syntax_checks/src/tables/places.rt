//! Texts, and where their parts are: trees of spans, entries one by one, tiles, and the parts of an entry.

use crate::tables::no_row;
use fluent_syntax::ast::Entry;
use fluent_syntax::parser::{Edition, ParserError};
use fluent_syntax::spans::{
    Comments, Entries, EntryRanges, Halt, Options, Span, Tiles, entry_ranges,
    parse_runtime_spans_edition, parse_spans_edition,
};
use std::alloc::{AllocError, Global};
use std::fmt::Write;

/// The tree of the text's spans, and its errors, as they are shown of values.
pub(crate) fn spans(alloc: Global, fields: &[String]) -> anyhow::Result<String> {
    let [_, text, edition, comments, _] = fields else {
        return no_row(alloc);
    };
    let (text, edition) = (text.as_str(), edition_of(edition.as_str()));
    let answer = if comments.as_str() == "kept" {
        parse_spans_edition(alloc, text, edition)
    } else {
        parse_runtime_spans_edition(alloc, text, edition)
    };
    Ok(format!(in alloc; "{answer:?}")?)
}

fn edition_of(word: &str) -> Edition {
    match word {
        "one" => Edition::One,
        _ => Edition::Two,
    }
}

/// The ranges of the text's entries, each with the place of its error; one that nests more than twice ends them.
/// Reading them and passing over them has to give the same.
pub(crate) fn entries(alloc: Global, fields: &[String]) -> anyhow::Result<String> {
    let [_, text, comments, _] = fields else {
        return no_row(alloc);
    };
    let comments = if comments.as_str() == "kept" {
        Comments::Kept
    } else {
        Comments::Dropped
    };
    let read = ranges_of_entries(alloc, text.as_str(), comments, false)?;
    let passed_over = ranges_of_entries(alloc, text.as_str(), comments, true)?;
    if read == passed_over {
        Ok(read)
    } else {
        Ok(format!(in alloc; "{read} and {passed_over}")?)
    }
}

fn ranges_of_entries(
    alloc: Global,
    text: &str,
    comments: Comments,
    passes: bool,
) -> Result<String, AllocError> {
    let options = Options {
        edition: Edition::One,
        comments,
        nesting: 2,
    };
    let mut entries = Entries::new(text, options);
    let mut out = String::new(alloc);
    for _ in 0..=text.len() {
        match next_of(alloc, &mut entries, passes) {
            Ok(Some(error)) => push_tile(&mut out, entries.span(), "", &error)?,
            Ok(None) => break,
            Err(Halt::TooDeep) => {
                out.push_str(" deep")?;
                break;
            }
            Err(Halt::Memory) => return Err(AllocError),
        }
    }
    Ok(out)
}

/// The error of the next entry, which is passed over or read.
fn next_of(
    alloc: Global,
    entries: &mut Entries<'_>,
    passes: bool,
) -> Result<Option<Option<ParserError>>, Halt> {
    if passes {
        return entries.next_error(alloc);
    }
    match entries.next_entry(alloc)? {
        Some((_entry, error)) => Ok(Some(error)),
        None => Ok(None),
    }
}

/// A range, the letter of its kind, and the place of its error.
fn push_tile(
    out: &mut String,
    span: Span,
    letter: &str,
    error: &Option<ParserError>,
) -> Result<(), AllocError> {
    push_span(out, span)?;
    out.push_str(letter)?;
    match error {
        Some(error) => {
            let place = error.pos.start;
            write!(out, "@{place}")
        }
        None => Ok(()),
    }
}

fn push_span(out: &mut String, span: Span) -> Result<(), AllocError> {
    let Span { start, end } = span;
    if !out.is_empty() {
        out.push_str(" ")?;
    }
    write!(out, "{start}..{end}")
}

/// The tiles of the text, each with the place of its error.
pub(crate) fn tiles(alloc: Global, fields: &[String]) -> anyhow::Result<String> {
    let [_, text, _] = fields else {
        return no_row(alloc);
    };
    let mut tiles = Tiles::new(text.as_str(), Edition::One, 1, 0);
    let mut out = String::new(alloc);
    for _ in 0..=text.len() {
        match tiles.next_tile(alloc) {
            Ok(Some(tile)) => push_tile(&mut out, tile.span, letter(&tile.entry), &tile.error)?,
            Ok(None) => break,
            Err(_) => {
                out.push_str(" halt")?;
                break;
            }
        }
    }
    Ok(out)
}

fn letter(entry: &Entry<Span>) -> &'static str {
    match entry {
        Entry::Message(_) => "m",
        Entry::Term(_) => "t",
        Entry::Comment(_) => "c",
        Entry::GroupComment(_) => "g",
        Entry::ResourceComment(_) => "r",
        Entry::Junk { .. } => "j",
    }
}

/// The ranges of the entry at the place, of its name, its value, and each attribute with its parts.
pub(crate) fn ranges(alloc: Global, fields: &[String]) -> anyhow::Result<String> {
    let [_, text, edition, nesting, place, _] = fields else {
        return no_row(alloc);
    };
    let (Ok(nesting), Ok(place)) = (nesting.parse::<usize>(), place.parse::<usize>()) else {
        return no_row(alloc);
    };
    let (text, edition) = (text.as_str(), edition_of(edition.as_str()));
    if place > text.len() {
        return no_row(alloc);
    }
    match entry_ranges(alloc, text, edition, nesting, place) {
        Ok(Some(ranges)) => Ok(ranges_shown(alloc, &ranges)?),
        Ok(None) => Ok(String::from_str(alloc, "none")?),
        Err(_) => Ok(String::from_str(alloc, "deep")?),
    }
}

fn ranges_shown(alloc: Global, ranges: &EntryRanges) -> Result<String, AllocError> {
    let mut out = String::new(alloc);
    push_span(&mut out, ranges.name)?;
    match ranges.value {
        Some(span) => push_span(&mut out, span)?,
        None => out.push_str(" -")?,
    }
    for attribute in &ranges.attributes {
        out.push_str(" .")?;
        push_span(&mut out, attribute.span)?;
        push_span(&mut out, attribute.name)?;
        push_span(&mut out, attribute.value)?;
    }
    Ok(out)
}
