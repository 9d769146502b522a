//! The errors of a text.
ghost use Rattle.std.specs.Prelude.{◌≡◌, ◌++◌, ◌≤◌, length, All, IfErr, IfOk, IfSome, OnOk};
ghost use Rattle.fluent_syntax_grammar.specs.Nesting.{NestsDeeper};
ghost use Rattle.fluent_syntax_parser.specs.Halts.{HaltsWithin, OnHalt};
ghost use Rattle.ftl.specs.Errors.{HasErrors, with_error};

use fluent_syntax::parser::{Edition, ParserError};
use fluent_syntax::spans::{Comments, Entries, Halt, Options};
use std::alloc::{AllocError, Global};

/// The errors of the text, in order, if its placeables and argument lists nest at most `nesting` deep. No tree is kept:
/// the entries are read one by one, and most of them are passed over (`Entries::next_error`).
///
/// `TooDeep` where the text nests deeper, `Memory` where a growth was refused.
pub fn errors_within(
    alloc: Global,
    text: &str,
    edition: Edition,
    nesting: usize,
) -> Result<Vec<ParserError>, Halt>
    ensures errors { IfOk result (λ errors. HasErrors edition text.now errors.items) }
    ensures places { IfOk result (λ errors. All (λ e. e.pos.start ≤ length text.now) errors.items) }
    ensures nests { IfErr result (HaltsWithin nesting (length text.now)) }
    ensures deeper { IfErr result (OnHalt (NestsDeeper edition text.now nesting)) }
    ensures shallow { IfOk result (λ errors. NestsDeeper edition text.now nesting → ⊥) }
{
    let options = Options {
        edition,
        comments: Comments::Kept,
        nesting,
    };
    let mut entries = Entries::new(text, options);
    let mut errors = Vec::new(alloc);
    while let Some(error) = entries.next_error(alloc)? {
        push_if_error(&mut errors, error)?;
    }
    Ok(errors)
}

/// Adds the error, if there is one.
fn push_if_error(
    errors: &mut Vec<ParserError>,
    error: Option<ParserError>,
) -> Result<(), AllocError>
    ensures { OnOk result (errors.new.items ≡ with_error errors.old.items error) }
{
    if let Some(error) = error {
        errors.push(error)?;
    }
    Ok(())
}
