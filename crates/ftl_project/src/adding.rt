//! What files are missing of those of a reference is added to them.
ghost use Rattle.std.specs.Prelude.{◌≡◌, ◌≢◌, ◌⊎◌, ℕ, List, Err, IfOk, IfSome, string_bytes, true};
ghost use Rattle.ftl.specs.Watched.{has_failed};
ghost use Rattle.ftl_files.specs.Store.{AllUnchanged};
ghost use Rattle.ftl_project.specs.Adding.{AllGrow, Extends, IsExtended};
ghost use Rattle.ftl_project.specs.Faults.{IsRead};
ghost use Rattle.ftl_project.specs.declared.adding.Addition.TheVariants.{Write};

use crate::comparing::differences::reported_parts;
use crate::comparing::pair::{Pair, Presence};
use crate::comparing::{PairFault, side_text};
use crate::fault::Fault;
use crate::formatting::line_diff::line_diff;
use crate::name_indexes::name_index;
use crate::reporting::terminal_text::push_shown_text;
use crate::streams::{Streams, note_line, report_fault};
use crate::tally::{Tally, file_count};
use fluent_syntax::parser::Edition;
use fluent_syntax_edits::{EditFault, additions, edit_all};
use fluent_syntax_names::{NameIndex, Side};
use ftl::{RunFault, write_all};
use ftl_files::{CommentRules, IgnoreRule, Reading, Store, addable_parts, added_names};
use std::alloc::{AllocError, Global};
use std::io::Write;

/// What becomes of files that are missing messages, terms or attributes.
#[derive(Clone, Copy, Debug, PartialEq, Eq)]
pub enum Addition {
    /// They get them.
    Write,
    /// They are named.
    Name,
    /// What would change is shown.
    Show,
}

/// How files are read, and what becomes of them.
#[derive(Clone, Copy, Debug, PartialEq, Eq)]
pub struct AddOptions {
    pub reading: Reading,
    pub addition: Addition,
}

/// What was added, or would be.
#[derive(Clone, Copy, Debug, PartialEq, Eq)]
pub struct AddCounts {
    /// Messages, terms and attributes.
    pub parts: usize,
    /// Files that get some.
    pub files: usize,
}

impl AddCounts {
    /// Nothing.
    pub fn new() -> Self {
        AddCounts { parts: 0, files: 0 }
    }
}

/// Adds to each translation the messages, terms and attributes of its reference that are reported as missing, where the
/// order of the reference puts them; all other entries stay as they are. Where the new text would be read otherwise,
/// the file is left, and that is reported. However the run ends, each file is as it was, or has entries and attributes
/// of a reference more.
///
/// `Err` where the run stopped: `Memory`, or `Output`.
pub fn add_missing<S: Store, O: Write, E: Write>(
    alloc: Global,
    store: &mut S,
    pairs: &[Pair<'_>],
    options: AddOptions,
    tally: &mut Tally,
    counts: &mut AddCounts,
    streams: &mut Streams<'_, O, E>,
) -> Result<(), RunFault>
    ensures grow { AllGrow options.reading.edition (S.bytes_at store.old) (S.bytes_at store.new) }
    ensures input { result ≢ Err RunFault.Input }
    ensures output { result ≡ Err RunFault.Output → (has_failed streams.new.out.now ≡ true)
        ⊎ (has_failed streams.new.err.now ≡ true) }
{
    for pair in pairs {
        match extended_pair(alloc, store, pair, options) {
            Ok(extension) => {
                report_extension(
                    alloc,
                    pair,
                    &extension,
                    options.addition,
                    tally,
                    counts,
                    streams,
                )?;
            }
            Err(fault) => {
                report_fault(alloc, tally, pair.path(fault.side), &fault.fault, streams)?;
            }
        }
    }
    Ok(())
}

/// A translation, and what comes in its place.
#[derive(Drop)]
struct Extension {
    old: String,
    /// None where it is left as it is.
    new: Option<String>,
    /// How many messages, terms and attributes are missing.
    missing: usize,
}

/// Puts in place of the pair's translation what it is with what it is missing, if that is to be written.
fn extended_pair<S: Store>(
    alloc: Global,
    store: &mut S,
    pair: &Pair<'_>,
    options: AddOptions,
) -> Result<Extension, PairFault>
    ensures { AllGrow options.reading.edition (S.bytes_at store.old) (S.bytes_at store.new) }
{
    let reference = reference_text(alloc, store, pair)?;
    let old = translation_text(alloc, store, pair, options.addition)?;
    let extension = extension_of(
        alloc,
        reference.as_str(),
        old,
        pair.ignored,
        options.reading,
    )?;
    if let Addition::Write = options.addition {
        put_extension(
            store,
            pair.other.as_str(),
            &extension,
            options.reading.edition,
        )?;
    }
    Ok(extension)
}

/// Puts in the file's place what it is with what it is missing, if that was read so.
fn put_extension<S: Store>(
    store: &mut S,
    path: &str,
    extension: &Extension,
    edition: Edition,
) -> Result<(), PairFault>
    ensures { (read : List ℕ) → IsRead (S.bytes_at store.old path.now) read →
        IfSome extension.now.new (λ new. Extends edition read (string_bytes new)) →
        AllGrow edition (S.bytes_at store.old) (S.bytes_at store.new) }
{
    let Some(new) = &extension.new else {
        return Ok(());
    };
    match store.replace(path, new.as_bytes()) {
        Ok(()) => Ok(()),
        Err(error) => Err(PairFault {
            side: Side::Other,
            fault: Fault::Write(error),
        }),
    }
}

/// The text of the pair's reference; that of no file is empty.
fn reference_text<S: Store>(
    alloc: Global,
    store: &mut S,
    pair: &Pair<'_>,
) -> Result<String, PairFault>
    ensures { AllUnchanged (S.bytes_at store.old) (S.bytes_at store.new) }
{
    match pair.presence {
        Presence::OtherAlone => Ok(String::new(alloc)),
        Presence::Both | Presence::ReferenceAlone => {
            side_text(store, Side::Reference, pair.reference.as_str())
        }
    }
}

/// The text of the pair's translation; that of no file is empty, where none is to be written.
fn translation_text<S: Store>(
    alloc: Global,
    store: &mut S,
    pair: &Pair<'_>,
    addition: Addition,
) -> Result<String, PairFault>
    ensures untouched { AllUnchanged (S.bytes_at store.old) (S.bytes_at store.new) }
    ensures text { addition ≡ Write
        → IfOk result (λ text. IsRead (S.bytes_at store.old (string_bytes pair.now.other)) (string_bytes text)) }
{
    match (pair.presence, addition) {
        (Presence::ReferenceAlone, Addition::Name | Addition::Show) => Ok(String::new(alloc)),
        _ => side_text(store, Side::Other, pair.other.as_str()),
    }
}

/// What comes in place of the text, which is a translation of the reference.
fn extension_of(
    alloc: Global,
    reference: &str,
    old: String,
    ignored: &[IgnoreRule],
    reading: Reading,
) -> Result<Extension, PairFault>
    ensures { IfOk result (λ extension.
        IfSome extension.new (λ new. Extends reading.edition (string_bytes old) (string_bytes new))) }
{
    let names = names_to_add(alloc, reference, old.as_str(), ignored, reading)?;
    let missing = names.len();
    let new = match missing {
        0 => None,
        _ => with_additions(alloc, reference, old.as_str(), &names, reading.edition)?,
    };
    Ok(Extension { old, new, missing })
}

/// The names of the messages, terms and attributes that the text is missing.
fn names_to_add(
    alloc: Global,
    reference: &str,
    text: &str,
    ignored: &[IgnoreRule],
    reading: Reading,
) -> Result<Vec<String>, PairFault> {
    let theirs = index_of(alloc, Side::Reference, reference, reading)?;
    let own = index_of(alloc, Side::Other, text, reading)?;
    let (theirs, own) = (
        CommentRules::of(alloc, &theirs)?,
        CommentRules::of(alloc, &own)?,
    );
    let parts = addable_parts(alloc, &theirs, &own, ignored)?;
    let names = added_names(alloc, reference, &parts)?;
    Ok(names)
}

/// What the text of that side says of names.
fn index_of<'t>(
    alloc: Global,
    side: Side,
    text: &'t str,
    reading: Reading,
) -> Result<NameIndex<'t>, PairFault> {
    match name_index(alloc, text, reading) {
        Ok(found) => Ok(found),
        Err(fault) => Err(PairFault { side, fault }),
    }
}

/// The text with what the reference has of these names. None where it would be read otherwise.
fn with_additions(
    alloc: Global,
    reference: &str,
    text: &str,
    names: &[String],
    edition: Edition,
) -> Result<Option<String>, AllocError>
    ensures { IfOk result (λ new. IfSome new
        (λ new. IsExtended edition reference.now text.now (string_bytes new))) }
{
    let edits = additions(alloc, reference, text, edition, names)?;
    match edit_all(alloc, text, edition, &edits) {
        Ok(new) => Ok(Some(new)),
        Err(EditFault::Memory) => Err(AllocError),
        Err(_) => Ok(None),
    }
}

/// Reports what came of a pair, and counts it.
fn report_extension<O: Write, E: Write>(
    alloc: Global,
    pair: &Pair<'_>,
    extension: &Extension,
    addition: Addition,
    tally: &mut Tally,
    counts: &mut AddCounts,
    streams: &mut Streams<'_, O, E>,
) -> Result<(), RunFault>
    ensures input { result ≢ Err RunFault.Input }
    ensures output { result ≡ Err RunFault.Output → (has_failed streams.new.out.now ≡ true)
        ⊎ (has_failed streams.new.err.now ≡ true) }
{
    let is_missing = extension.missing != 0;
    let is_left = is_missing && (extension.new.is_none() || addition != Addition::Write);
    tally.count(0, 0, is_left);
    if extension.new.is_some() {
        counts.files = counts.files.saturating_add(1);
        counts.parts = counts.parts.saturating_add(extension.missing);
    }
    let path = pair.other.as_str();
    match shown_extension(alloc, path, extension, addition) {
        Ok(shown) => write_all(streams.out, shown.as_bytes())?,
        Err(AllocError) => return Err(RunFault::Memory),
    }
    match left_note(alloc, path, extension) {
        Ok(note) => write_all(streams.err, note.as_bytes()),
        Err(AllocError) => Err(RunFault::Memory),
    }
}

/// The path on a line, or the difference, where that is to be shown of a file that would change.
fn shown_extension(
    alloc: Global,
    path: &str,
    extension: &Extension,
    addition: Addition,
) -> Result<String, AllocError> {
    let mut shown = String::new(alloc);
    match (&extension.new, addition) {
        (Some(new), Addition::Show) => line_diff(alloc, path, extension.old.as_str(), new.as_str()),
        (Some(_), Addition::Name) => {
            push_shown_text(&mut shown, path)?;
            shown.push('\n')?;
            Ok(shown)
        }
        _ => Ok(shown),
    }
}

/// Why a file is left that is missing something.
fn left_note(alloc: Global, path: &str, extension: &Extension) -> Result<String, AllocError> {
    if extension.missing == 0 || extension.new.is_some() {
        return Ok(String::new(alloc));
    }
    let note = "left as it is: with what is missing it would be read otherwise";
    note_line(alloc, path, &note)
}

/// What a run met that adds what is missing, as a line with its LF: `57 files, nothing is missing`, or
/// `12 messages, terms and attributes added to 3 of 57 files`; where nothing is written, `missing in` in place of
/// `added to`.
///
/// `AllocError`: a growth was refused.
pub fn add_summary(
    alloc: Global,
    tally: &Tally,
    counts: &AddCounts,
    addition: Addition,
) -> Result<String, AllocError> {
    let all = file_count(alloc, tally.files)?;
    let AddCounts { parts, files } = *counts;
    let done = match addition {
        Addition::Write => "added to",
        Addition::Name | Addition::Show => "missing in",
    };
    match parts {
        0 if tally.with_problems == 0 => format!(in alloc; "{all}, nothing is missing\n"),
        1 => format!(in alloc; "1 message, term or attribute {done} {files} of {all}\n"),
        _ => format!(in alloc; "{parts} messages, terms and attributes {done} {files} of {all}\n"),
    }
}
