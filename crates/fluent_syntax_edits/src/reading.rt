//! Texts that are read and compared.
ghost use Rattle.std.specs.Prelude.{◌≡◌, ◌↔◌, string_bytes, IfOk, IsTrue, map, option_map};
ghost use Rattle.fluent_syntax_edits.specs.Changes.{change_of};
ghost use Rattle.fluent_syntax_edits.specs.Edits.{ReadAs, ReadsChanged};
ghost use Rattle.fluent_syntax_edits.specs.Errors.{moved_fault, moved_place};
ghost use Rattle.fluent_syntax_parser.specs.Faults.{fault_of};
ghost use Rattle.fluent_syntax_tree.specs.Kind.{kind_of};

use crate::apply_edit::apply;
use crate::edit::{Edit, copied};
use fluent_syntax_parser::fault::ParseFault;
use fluent_syntax_parser::options::{Comments, Options};
use fluent_syntax_parser::parse_texts;
use fluent_syntax_parser::texts::Slices;
use fluent_syntax_tree::ast::Resource;
use fluent_syntax_tree::edition::Edition;
use fluent_syntax_tree::errors::{ErrorKind, ParserError};
use fluent_syntax_tree::laws::same_texts;
use fluent_syntax_tree::spans::Span;
use std::alloc::{AllocError, Global};
use std::ops::Range;

/// A stretch of a text, and where what comes after it begins now.
#[derive(Clone, Copy)]
pub(crate) struct Shift {
    pub(crate) replaced: Span,
    pub(crate) to: usize,
}

pub(crate) fn is_same_kind(kind: &ErrorKind, other: &ErrorKind) -> bool
    ensures { IsTrue result ↔ (kind_of other.now ≡ kind_of kind.now) }
{
    other == kind
}

/// Whether the other place is where the place is now.
fn is_moved_place(shift: Shift, stays: bool, place: usize, other: usize) -> bool
    ensures { IsTrue result ↔ (other ≡ moved_place stays shift.replaced.end shift.to place) }
{
    if stays {
        other == place
    } else {
        other >= shift.to && other - shift.to == place.saturating_sub(shift.replaced.end)
    }
}

pub(crate) fn is_moved_range(
    shift: Shift,
    stays: bool,
    range: &Range<usize>,
    other: &Range<usize>,
) -> bool
    ensures { IsTrue result ↔ ((other.now.start ≡ moved_place stays shift.replaced.end shift.to range.now.start)
        × (other.now.end ≡ moved_place stays shift.replaced.end shift.to range.now.end)) }
{
    is_moved_place(shift, stays, range.start, other.start)
        && is_moved_place(shift, stays, range.end, other.end)
}

/// Whether the other error is the one where it is now.
fn is_moved(shift: Shift, error: &ParserError, other: &ParserError) -> bool
    ensures { IsTrue result ↔ (fault_of other.now
        ≡ option_map (moved_fault shift.replaced shift.to) (fault_of error.now)) }
{
    match (&error.slice, &other.slice) {
        (Some(slice), Some(other_slice)) => {
            let stays = slice.end <= shift.replaced.start;
            is_same_kind(&error.kind, &other.kind)
                && is_moved_range(shift, stays, &error.pos, &other.pos)
                && is_moved_range(shift, stays, slice, other_slice)
        }
        (None, None) => true,
        _ => false,
    }
}

/// Whether the other errors are these where they are now.
pub(crate) fn are_moved(shift: Shift, errors: &[ParserError], others: &[ParserError]) -> bool
    ensures { IsTrue result ↔ (map fault_of others.now
        ≡ map (option_map (moved_fault shift.replaced shift.to)) (map fault_of errors.now)) }
{
    if errors.len() != others.len() {
        return false;
    }
    for index in 0..errors.len() {
        if !is_moved(shift, &errors[index], &others[index]) {
            return false;
        }
    }
    true
}

/// The tree that the text is read as, with texts of its own, and its errors.
pub(crate) fn read(
    alloc: Global,
    text: &String,
    edition: Edition,
) -> Result<(Resource<String>, Vec<ParserError>), AllocError>
    ensures { IfOk result (λ read. ReadAs edition (string_bytes text.now) read.0 read.1.items) }
{
    let options = Options {
        edition,
        comments: Comments::Kept,
        nesting: usize::MAX,
    };
    match parse_texts(alloc, text.as_str(), options, &Slices::new(text)) {
        Ok(Ok(tree)) => Ok((tree, Vec::new(alloc))),
        Ok(Err(ParseFault::Syntax(tree, errors))) => Ok((tree, errors)),
        // no text is longer than the greatest usize, so none nests too deeply
        Ok(Err(ParseFault::Memory)) | Err(_) => Err(AllocError),
    }
}

/// Whether the new text is read as the tree of the source with the edit made at the entry of that number, and with the
/// source's errors.
pub(crate) fn reads_changed(
    alloc: Global,
    source: &str,
    made: &String,
    edition: Edition,
    index: usize,
    edit: &Edit,
    shift: Shift,
) -> Result<bool, AllocError>
    ensures { IfOk result (λ so. IsTrue so
        ↔ ReadsChanged edition source.now index (change_of edit.now) shift.replaced shift.to (string_bytes made.now)) }
{
    let source = String::from_str(alloc, source)?;
    let (mut tree, errors) = read(alloc, &source, edition)?;
    let (new_tree, new_errors) = read(alloc, made, edition)?;
    apply(copied(alloc, edit)?, &mut tree.body, index)?;
    Ok(same_texts(&tree, &new_tree) && are_moved(shift, &errors, &new_errors))
}
