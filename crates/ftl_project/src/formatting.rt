//! Files are formatted in place, or named where they would change.
ghost use Rattle.std.specs.Prelude.{◌≡◌, ◌≢◌, ◌++◌, codes, Err, IfOk, OnOk, string_bytes, true};
ghost use Rattle.ftl.specs.Watched.{has_failed, inner_of};
ghost use Rattle.ftl_project.specs.Faults.{IsTooDeep, IsUnparsed};
ghost use Rattle.ftl_project.specs.Formatting.{AllNormal, Formats, FormatsEach, IsNamed, errors_in, is_left_unchanged};
ghost use Rattle.ftl_project.specs.Formatting.{is_not_normal, name_of};
ghost use Rattle.ftl_project.specs.Rewriting.{AllReach};

pub mod diffing;
pub mod format_task;
pub mod line_diff;
pub mod lossy_entry;
pub mod replacement;
pub mod rewrite_counts;
pub mod rewriting;

use crate::answering::{Answer, FileTask};
use crate::fault::Fault;
use crate::formatting::lossy_entry::lossy_entry_line;
use crate::formatting::replacement::{FormatOptions, Replacement, replacement_for};
use crate::formatting::rewrite_counts::RewriteCounts;
use crate::formatting::rewriting::rewrite;
use crate::reporting::report;
use crate::reporting::terminal_text::push_shown_text;
use crate::streams::{Streams, report_fault};
use crate::tally::Tally;
use ftl::{RunFault, write_all};
use ftl_files::{Form, Store};
use std::alloc::{AllocError, Global};
use std::io::Write;

/// Puts the normal form in the place of each file that has no syntax error and whose normal form reads back, with the
/// blank lines that are kept. However the run ends, each file is as it was, or is so formatted.
///
/// - `reaches`: so they are.
/// - `each`: a run that ends in `Ok` came to each file, in order, and counted it by what became of it.
/// - `normal`: where the tally has no fault then, each file that has such a normal form is so formatted.
///
/// How many were rewritten, and why others were left, is added to the counts.
///
/// `Err` where the run stopped: `Memory`, or `Output`.
pub fn write_files<S: Store, O: Write, E: Write>(
    alloc: Global,
    store: &mut S,
    files: &[String],
    options: FormatOptions,
    tally: &mut Tally,
    counts: &mut RewriteCounts,
    streams: &mut Streams<'_, O, E>,
) -> Result<(), RunFault>
    ensures reaches { AllReach options (S.bytes_at store.old) (S.bytes_at store.new) }
    ensures each { OnOk result
        (FormatsEach S.fails options files.now (S.bytes_at store.old) (S.bytes_at store.new) tally.old tally.new) }
    ensures normal { OnOk result (tally.new.fault ≡ 0
        → AllNormal options files.now (S.bytes_at store.old) (S.bytes_at store.new)) }
    ensures input { result ≢ Err RunFault.Input }
    ensures output { result ≡ Err RunFault.Output → has_failed streams.new.err.now ≡ true }
{
    for file in files {
        write_file(alloc, store, file.as_str(), options, tally, counts, streams)?;
    }
    Ok(())
}

fn write_file<S: Store, O: Write, E: Write>(
    alloc: Global,
    store: &mut S,
    path: &str,
    options: FormatOptions,
    tally: &mut Tally,
    counts: &mut RewriteCounts,
    streams: &mut Streams<'_, O, E>,
) -> Result<(), RunFault>
    ensures reaches { AllReach options (S.bytes_at store.old) (S.bytes_at store.new) }
    ensures counted { OnOk result
        (Formats S.fails options path.now (S.bytes_at store.old) (S.bytes_at store.new) tally.old tally.new) }
    ensures input { result ≢ Err RunFault.Input }
    ensures output { result ≡ Err RunFault.Output → has_failed streams.new.err.now ≡ true }
{
    let replacement = match rewrite(alloc, store, path, options) {
        Ok(replacement) => replacement,
        Err(fault) => return report_fault(alloc, tally, path, &fault, streams),
    };
    tally.count(errors_in(&replacement), 0, is_left_unchanged(&replacement));
    counts.count(&replacement);
    match unchanged_note(alloc, path, &replacement) {
        Ok(note) => write_all(streams.err, note.as_bytes()),
        Err(AllocError) => Err(RunFault::Memory),
    }
}

/// Names each file that `write_files` would change, on a line.
#[derive(Clone, Copy)]
pub struct NameTask {
    pub options: FormatOptions,
}

impl FileTask for NameTask {
    ghost answers = { λ naming. IsNamed naming.options };

    ghost refuses = { λ naming text. IsUnparsed (IsTooDeep naming.options.reading text) };

    fn answer(&self, alloc: Global, path: &str, text: String) -> Result<Answer, Fault> {
        let replacement = replacement_for(alloc, text, self.options)?;
        Ok(Answer {
            errors: errors_in(&replacement),
            has_problems: is_not_normal(&replacement),
            text: name_of(alloc, path, &replacement)?,
            note: unchanged_note(alloc, path, &replacement)?,
        })
    }
}

/// How many errors are counted of the text.
pub(crate) fn errors_in(replacement: &Replacement) -> usize
    ensures { result ≡ errors_in replacement.now }
{
    match replacement {
        Replacement::Errors(refused) => refused.errors.len(),
        _ => 0,
    }
}

/// Whether the text is left as it is, though it is not in its normal form.
fn is_left_unchanged(replacement: &Replacement) -> bool
    ensures { result ≡ is_left_unchanged replacement.now }
{
    matches!(replacement, Replacement::Errors(_) | Replacement::Lossy(_))
}

/// Whether the text is not in its normal form.
pub(crate) fn is_not_normal(replacement: &Replacement) -> bool
    ensures { result ≡ is_not_normal replacement.now }
{
    !matches!(replacement, Replacement::Same)
}

/// What is reported of a file that is left as it is: its errors; or by which entry its normal
/// form would not read back.
pub(crate) fn unchanged_note(
    alloc: Global,
    path: &str,
    replacement: &Replacement,
) -> Result<String, AllocError> {
    match replacement {
        Replacement::Errors(refused) => report(alloc, path, refused, Form::Full),
        Replacement::Lossy(entry) => lossy_entry_line(alloc, path, *entry, "left as it is"),
        _ => Ok(String::new(alloc)),
    }
}

/// The path on a line, where it is to get another text.
fn name_of(alloc: Global, path: &str, replacement: &Replacement) -> Result<String, AllocError>
    ensures { IfOk result (λ line. string_bytes line ≡ name_of path.now replacement.now) }
{
    let mut line = String::new(alloc);
    if let Replacement::Text(_) = replacement {
        push_shown_text(&mut line, path)?;
        line.push('\n')?;
    }
    Ok(line)
}
