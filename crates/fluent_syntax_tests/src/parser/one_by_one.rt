//! Entries that are read one by one, or passed over, and tiles: where they are, and their errors.

use crate::alike::assert_same_text;
use fluent_syntax::parser::{Edition, ParserError};
use fluent_syntax::spans::{Comments, Entries, Halt, Options, Span, Tiles};
use std::alloc::{AllocError, Global};
use std::fmt::Write;
use std::test::Fail;

/// A comment, a message and junk, and an entry that nests thrice; the ranges of its entries, each with the place of its
/// error, with comments and without.
const TEXT: &str = "# a\nb = c\nd e\n\nf = {{{g}}}\nh = i\n";

const KEPT: &str = "0..10 10..15@12 deep";

const DROPPED: &str = "4..10 10..15@12 deep";

fn show(out: &mut String, span: Span, error: &Option<ParserError>) -> Result<(), AllocError> {
    let Span { start, end } = span;
    match error {
        Some(error) => {
            let place = error.pos.start;
            write!(out, "{start}..{end}@{place} ")
        }
        None => write!(out, "{start}..{end} "),
    }
}

/// The error of the next entry, which is passed over or read.
fn next_of(
    alloc: Global,
    entries: &mut Entries<'_>,
    pass: bool,
) -> Result<Option<Option<ParserError>>, Halt> {
    if pass {
        return entries.next_error(alloc);
    }
    match entries.next_entry(alloc)? {
        Some((_entry, error)) => Ok(Some(error)),
        None => Ok(None),
    }
}

/// Shows what comes next, and says whether more may.
fn show_next(
    alloc: Global,
    out: &mut String,
    entries: &mut Entries<'_>,
    pass: bool,
) -> Result<bool, AllocError> {
    match next_of(alloc, entries, pass) {
        Ok(Some(error)) => {
            show(out, entries.span(), &error)?;
            Ok(true)
        }
        Ok(None) => Ok(false),
        Err(Halt::TooDeep) => {
            out.push_str("deep")?;
            Ok(false)
        }
        Err(Halt::Memory) => Err(AllocError),
    }
}

/// What is shown of the entries of a text, of which none may nest more than twice.
fn shown(alloc: Global, text: &str, comments: Comments, pass: bool) -> Result<String, AllocError> {
    let options = Options {
        edition: Edition::One,
        comments,
        nesting: 2,
    };
    let mut entries = Entries::new(text, options);
    let mut out = String::new(alloc);
    for _ in 0..=text.len() {
        if !show_next(alloc, &mut out, &mut entries, pass)? {
            break;
        }
    }
    Ok(out)
}

#[test]
fn entries(rt: HostRuntime) -> Result<(), Fail> {
    let alloc = rt.alloc();
    let read = shown(alloc, TEXT, Comments::Kept, false)?;
    assert_same_text(alloc, "read", read.as_str(), KEPT)?;
    let passed_over = shown(alloc, TEXT, Comments::Kept, true)?;
    assert_same_text(alloc, "passed over", passed_over.as_str(), KEPT)?;
    let read = shown(alloc, TEXT, Comments::Dropped, false)?;
    assert_same_text(alloc, "without comments", read.as_str(), DROPPED)
}

#[test]
fn before_anything_is_read(rt: HostRuntime) -> Result<(), Fail> {
    let options = Options {
        edition: Edition::One,
        comments: Comments::Kept,
        nesting: 2,
    };
    let mut out = String::new(rt.alloc());
    show(&mut out, Entries::new("\na = b\n", options).span(), &None)?;
    assert_same_text(rt.alloc(), "an empty range", out.as_str(), "0..0 ")
}

fn tiles_shown(alloc: Global, text: &str) -> Result<String, Fail> {
    let mut tiles = Tiles::new(text, Edition::One, 1, 0);
    let mut out = String::new(alloc);
    for _ in 0..=text.len() {
        match tiles.next_tile(alloc) {
            Ok(Some(found)) => show(&mut out, found.span, &found.error)?,
            Ok(None) => return Ok(out),
            Err(_) => return Err("a tile was not read".into()),
        }
    }
    Err("no end of the tiles".into())
}

#[test]
fn tiles(rt: HostRuntime) -> Result<(), Fail> {
    let alloc = rt.alloc();
    let text = "\n# a\n-b = c\nd\ne = f";
    let expected = "1..5 5..12 12..14@13 14..19 ";
    assert_same_text(alloc, "tiles", tiles_shown(alloc, text)?.as_str(), expected)
}
