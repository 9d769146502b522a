//! Files are searched for mistakes between names.
ghost use Rattle.std.specs.Prelude.{◌≡◌, ◌≢◌, ◌⊎◌, ◌++◌, ◌∷◌, [], All, Err, IfOk, None, OnOk, count_by, slice_get};
ghost use Rattle.std.specs.Prelude.{string_bytes, true};
ghost use Rattle.ftl.specs.Watched.{has_failed, inner_of};
ghost use Rattle.ftl_files.specs.Store.{AllUnchanged};
ghost use Rattle.ftl_project.specs.Linting.{IsSource, NameIndexesEach, NameIndexesSource, Reads, ReadsSource, Searches};
ghost use Rattle.ftl_project.specs.Linting.{SearchesFiles, asked_count, found_name, ignored_in, is_asked};
ghost use Rattle.ftl_project.specs.Linting.{is_error, is_warning};
ghost use Rattle.ftl_project.specs.Linting.{is_commented, is_named_reported, is_reported, name_index_of};
ghost use Rattle.ftl_project.specs.Linting.{name_indexes_of, reported_findings, searched, with_problems_after};
ghost use Rattle.ftl_project.specs.NameIndexes.{IsShort};
ghost use Rattle.ftl_project.specs.declared.linting.findings.Source.{Source};

pub mod findings;
pub mod near_names;

use crate::comparing::differences::is_error_kind;
use crate::fault::Fault;
use crate::formatting::rewriting::read_text;
use crate::linting::findings::{Source, report_findings};
use crate::name_indexes::name_index;
use crate::reporting::terminal_text::push_shown_text;
use crate::streams::{Streams, byte_order_mark_note, report_fault};
use crate::tally::Tally;
use fluent_syntax::spans::Span;
use fluent_syntax_names::{Finding, Kind, NameIndex, findings_in_language, shown_name};
use ftl::{RunFault, write_all};
use ftl_files::{CommentRules, Form, IgnoreRule, Levels, Reading, ReportedKind, Store, is_ignored};
use std::alloc::{AllocError, Global};
use std::fmt::Write as _;
use std::io::Write;

/// A file of a set.
#[derive(Debug, Drop)]
pub struct LintFile<'a> {
    pub path: String,
    /// Whether what is found in it is reported; what it defines counts in any case.
    pub is_asked: bool,
    /// What is not reported of it, nor counted.
    pub ignored: &'a [IgnoreRule],
}

/// How findings are reported.
#[derive(Clone, Copy, Debug)]
pub struct LintOptions<'a> {
    pub form: Form,
    /// How grave a finding is.
    pub levels: Levels<'a>,
    /// What the set is called where its findings are counted; empty where it has no name.
    pub set_name: &'a str,
    /// The plural categories of the set's language; `None` where they are not known.
    pub categories: Option<&'a [&'a str]>,
}

/// Reports what is found in those of the files that are asked for, in their order; then, on the other stream, how many
/// findings there are of each kind. All the files are one set, whose names are known. No file is changed. A file that
/// can't be read is reported, and the others are searched.
/// `Err` where the run stopped: `Memory`, or `Output`.
pub fn lint_files<S: Store, O: Write, E: Write>(
    alloc: Global,
    store: &mut S,
    files: &[LintFile<'_>],
    reading: Reading,
    lint_options: LintOptions<'_>,
    tally: &mut Tally,
    streams: &mut Streams<'_, O, E>,
) -> Result<(), RunFault>
    ensures untouched { AllUnchanged (S.bytes_at store.old) (S.bytes_at store.new) }
    ensures searched { OnOk result (SearchesFiles S.fails reading lint_options.entry (S.bytes_at store.old) files.now
        tally.old tally.new (O.contents (inner_of streams.old.out.now)) (O.contents (inner_of streams.new.out.now))) }
    ensures input { result ≢ Err RunFault.Input }
    ensures output { result ≡ Err RunFault.Output → (has_failed streams.new.out.now ≡ true)
        ⊎ (has_failed streams.new.err.now ≡ true) }
{
    let sources = read_sources(alloc, store, files, tally, streams)?;
    lint_sources(alloc, &sources, reading, lint_options, tally, streams)
}

/// The texts of the files that can be read.
fn read_sources<'a, S: Store, O: Write, E: Write>(
    alloc: Global,
    store: &mut S,
    files: &[LintFile<'a>],
    tally: &mut Tally,
    streams: &mut Streams<'_, O, E>,
) -> Result<Vec<Source<'a>>, RunFault>
    ensures untouched { AllUnchanged (S.bytes_at store.old) (S.bytes_at store.new) }
    ensures sources { IfOk result (λ sources.
        Reads S.fails (S.bytes_at store.old) files.now sources.items tally.old tally.new) }
    ensures out { streams.new.out ≡ streams.old.out }
    ensures input { result ≢ Err RunFault.Input }
    ensures output { result ≡ Err RunFault.Output → has_failed streams.new.err.now ≡ true }
{
    let mut sources = Vec::new(alloc);
    for file in files {
        read_source(alloc, store, file, &mut sources, tally, streams)?;
    }
    Ok(sources)
}

/// Adds the text of a file that can be read, and reports one that can't.
fn read_source<'a, S: Store, O: Write, E: Write>(
    alloc: Global,
    store: &mut S,
    file: &LintFile<'a>,
    sources: &mut Vec<Source<'a>>,
    tally: &mut Tally,
    streams: &mut Streams<'_, O, E>,
) -> Result<(), RunFault>
    ensures untouched { AllUnchanged (S.bytes_at store.old) (S.bytes_at store.new) }
    ensures source { OnOk result (ReadsSource S.fails (S.bytes_at store.old) file.now sources.old.items
        sources.new.items tally.old tally.new) }
    ensures out { streams.new.out ≡ streams.old.out }
    ensures input { result ≢ Err RunFault.Input }
    ensures output { result ≡ Err RunFault.Output → has_failed streams.new.err.now ≡ true }
{
    let path = file.path.as_str();
    match read_text(store, path) {
        Ok(text) => match add_source(alloc, sources, file, text) {
            Ok(()) => Ok(()),
            Err(AllocError) => Err(RunFault::Memory),
        },
        Err(fault) => report_fault(alloc, tally, path, &fault, streams),
    }
}

fn add_source<'a>(
    alloc: Global,
    sources: &mut Vec<Source<'a>>,
    file: &LintFile<'a>,
    text: String,
) -> Result<(), AllocError>
    ensures { OnOk result ((source : Source) × (string_bytes source.path ≡ string_bytes file.now.path)
        × (string_bytes source.text ≡ string_bytes text) × (source.is_asked ≡ file.now.is_asked)
        × (source.ignored ≡ file.now.ignored) × (sources.new.items ≡ sources.old.items ++ source ∷ [])) }
{
    let path = String::from_str(alloc, file.path.as_str())?;
    sources.push(Source {
        path,
        text,
        is_asked: file.is_asked,
        ignored: file.ignored,
    })?;
    Ok(())
}

fn lint_sources<O: Write, E: Write>(
    alloc: Global,
    sources: &[Source<'_>],
    reading: Reading,
    lint_options: LintOptions<'_>,
    tally: &mut Tally,
    streams: &mut Streams<'_, O, E>,
) -> Result<(), RunFault>
    ensures searched { OnOk result (Searches reading lint_options.entry sources.now tally.old tally.new
        (O.contents (inner_of streams.old.out.now)) (O.contents (inner_of streams.new.out.now))) }
    ensures input { result ≢ Err RunFault.Input }
    ensures output { result ≡ Err RunFault.Output → (has_failed streams.new.out.now ≡ true)
        ⊎ (has_failed streams.new.err.now ≡ true) }
{
    let name_indexes = name_indexes(alloc, sources, reading, tally, streams)?;
    let Ok(found) = reported_findings(alloc, sources, &name_indexes, lint_options) else {
        return Err(RunFault::Memory);
    };
    let levels = lint_options.levels;
    count(tally, levels, asked_count(sources), &found);
    match report_findings(
        alloc,
        sources,
        &name_indexes,
        &found,
        lint_options.form,
        levels,
    ) {
        Ok(report_text) => write_all(streams.out, report_text.as_bytes())?,
        Err(AllocError) => return Err(RunFault::Memory),
    }
    match notes(alloc, sources, &found, lint_options) {
        Ok(notes) => write_all(streams.err, notes.as_bytes()),
        Err(AllocError) => Err(RunFault::Memory),
    }
}

/// What each file says of names; nothing where it nests too deep, which is reported.
fn name_indexes<'a, O: Write, E: Write>(
    alloc: Global,
    sources: &'a [Source<'_>],
    reading: Reading,
    tally: &mut Tally,
    streams: &mut Streams<'_, O, E>,
) -> Result<Vec<NameIndex<'a>>, RunFault>
    ensures name_indexes { IfOk result (λ name_indexes. NameIndexesEach reading sources.now name_indexes.items tally.old
        tally.new) }
    ensures short { IfOk result (λ name_indexes. All IsShort name_indexes.items) }
    ensures out { streams.new.out ≡ streams.old.out }
    ensures input { result ≢ Err RunFault.Input }
    ensures output { result ≡ Err RunFault.Output → has_failed streams.new.err.now ≡ true }
{
    let mut name_indexes = Vec::new(alloc);
    for source in sources {
        let name_index = source_name_index(alloc, source, reading, tally, streams)?;
        let Ok(()) = add_name_index(&mut name_indexes, name_index) else {
            return Err(RunFault::Memory);
        };
    }
    Ok(name_indexes)
}

fn add_name_index<'a>(
    name_indexes: &mut Vec<NameIndex<'a>>,
    name_index: NameIndex<'a>,
) -> Result<(), AllocError>
    ensures { OnOk result (name_indexes.new.items ≡ name_indexes.old.items ++ name_index.entry ∷ []) }
{
    name_indexes.push(name_index)?;
    Ok(())
}

/// What the file says of names; nothing where it nests too deep, which is reported.
fn source_name_index<'a, O: Write, E: Write>(
    alloc: Global,
    source: &'a Source<'_>,
    reading: Reading,
    tally: &mut Tally,
    streams: &mut Streams<'_, O, E>,
) -> Result<NameIndex<'a>, RunFault>
    ensures name_index { IfOk result (λ name_index. NameIndexesSource reading source.now name_index tally.old
        tally.new) }
    ensures short { IfOk result IsShort }
    ensures out { streams.new.out ≡ streams.old.out }
    ensures input { result ≢ Err RunFault.Input }
    ensures output { result ≡ Err RunFault.Output → has_failed streams.new.err.now ≡ true }
{
    match name_index(alloc, source.text.as_str(), reading) {
        Ok(name_index) => Ok(name_index),
        Err(Fault::TooDeep) => {
            report_fault(alloc, tally, source.path.as_str(), &Fault::TooDeep, streams)?;
            Ok(NameIndex::new(alloc, ""))
        }
        Err(_) => Err(RunFault::Memory),
    }
}

/// What is found in the files that are asked for, without what is ignored.
fn reported_findings<'x>(
    alloc: Global,
    sources: &[Source<'_>],
    name_indexes: &[NameIndex<'x>],
    options: LintOptions<'x>,
) -> Result<Vec<Finding>, AllocError>
    ensures { IfOk result (λ found.
        found.items ≡ reported_findings options.entry sources.now name_indexes.now) }
{
    let all = findings_in_language(alloc, name_indexes, &[], options.categories)?;
    let comments = comment_rules(alloc, name_indexes)?;
    all.iter()
        .copied()
        .filter(|finding| is_reported(sources, &comments, finding))
        .collect(alloc)
}

/// What the comments of the files say is not reported.
fn comment_rules<'a, 't>(
    alloc: Global,
    name_indexes: &'a [NameIndex<'t>],
) -> Result<Vec<CommentRules<'a, 't>>, AllocError>
    ensures { IfOk result (λ comments. name_indexes_of comments.items ≡ name_indexes.now) }
{
    let mut comments = Vec::new(alloc);
    for name_index in name_indexes {
        add_comment_rules(alloc, &mut comments, name_index)?;
    }
    Ok(comments)
}

fn add_comment_rules<'a, 't>(
    alloc: Global,
    comments: &mut Vec<CommentRules<'a, 't>>,
    name_index: &'a NameIndex<'t>,
) -> Result<(), AllocError>
    ensures { OnOk result (name_indexes_of comments.new.items
        ≡ name_indexes_of comments.old.items ++ name_index.now ∷ []) }
{
    comments.push(CommentRules::of(alloc, name_index)?)?;
    Ok(())
}

/// Whether it is not ignored, and in a file that is asked for.
fn is_reported(sources: &[Source<'_>], comments: &[CommentRules<'_, '_>], finding: &Finding) -> bool
    ensures { result ≡ is_reported sources.now (name_indexes_of comments.now) finding.now }
{
    let rules = comments.get(finding.file);
    let name = found_name(rules, finding.place);
    let ignored = ignored_in(sources, finding.file);
    is_named_reported(ignored, rules, finding, name) && is_asked(sources, finding.file)
}

/// Whether neither a rule nor the comment there leaves it out.
fn is_named_reported(
    ignored: &[IgnoreRule],
    comments: Option<&CommentRules<'_, '_>>,
    finding: &Finding,
    name: &str,
) -> bool
    ensures { result ≡ is_named_reported ignored.now (name_index_of comments.entry) finding.now name.now }
{
    let kind = ReportedKind::Finding(finding.kind);
    !is_ignored(ignored, kind, name) && !is_commented(comments, finding.place, kind, name)
}

/// Whether the comment of the entry there leaves out what is of the kind and has the name.
fn is_commented(
    comments: Option<&CommentRules<'_, '_>>,
    place: Option<Span>,
    kind: ReportedKind,
    name: &str,
) -> bool
    ensures { result ≡ is_commented (name_index_of comments.entry) place kind name.now }
{
    match comments {
        Some(rules) => rules.leave_out(place, kind, name),
        None => false,
    }
}

/// The name at the place, as it is shown; empty where there is none.
fn found_name<'t>(comments: Option<&CommentRules<'_, 't>>, place: Option<Span>) -> &'t str
    ensures { result.now ≡ found_name (name_index_of comments.entry) place }
{
    match (comments, place) {
        (Some(rules), Some(place)) => shown_name(rules.name_index.text, place),
        _ => "",
    }
}

/// What is not reported of the file of the number.
fn ignored_in<'a>(sources: &[Source<'a>], number: usize) -> &'a [IgnoreRule]
    ensures { result.now ≡ ignored_in (slice_get sources.now number) }
{
    match sources.get(number) {
        Some(source) => source.ignored,
        None => &[],
    }
}

/// Whether the file of the number is asked for.
fn is_asked(sources: &[Source<'_>], number: usize) -> bool
    ensures { result ≡ is_asked (slice_get sources.now number) }
{
    match sources.get(number) {
        Some(source) => source.is_asked,
        None => false,
    }
}

/// How many of the files are asked for.
fn asked_count(sources: &[Source<'_>]) -> usize
    ensures { result ≡ asked_count sources.now }
{
    sources.iter().filter(|source| source.is_asked).count()
}

/// Counts the files, and those that have an error among the findings.
fn count(tally: &mut Tally, levels: Levels<'_>, files: usize, found: &[Finding])
    ensures { tally.new ≡ searched levels.entry tally.old files found.now }
{
    tally.files = tally.files.saturating_add(files);
    tally.with_problems = tally
        .with_problems
        .saturating_add(with_problems(levels, found));
    tally.errors = tally.errors.saturating_add(errors(levels, found));
    tally.warnings = tally.warnings.saturating_add(warnings(levels, found));
}

/// How many files have an error among the findings, which are in the order of the files.
fn with_problems(levels: Levels<'_>, found: &[Finding]) -> usize
    ensures { result ≡ with_problems_after levels.entry None found.now }
{
    let mut number = 0;
    let mut last = None;
    for finding in found {
        if is_error(levels, finding) && last != Some(finding.file) {
            number += 1;
            last = Some(finding.file);
        }
    }
    number
}

fn errors(levels: Levels<'_>, found: &[Finding]) -> usize
    ensures { result ≡ count_by (is_error levels.entry) found.now }
{
    found
        .iter()
        .filter(|finding| is_error(levels, finding))
        .count()
}

fn warnings(levels: Levels<'_>, found: &[Finding]) -> usize
    ensures { result ≡ count_by (is_warning levels.entry) found.now }
{
    found
        .iter()
        .filter(|finding| is_warning(levels, finding))
        .count()
}

fn is_warning(levels: Levels<'_>, finding: &Finding) -> bool
    ensures { result ≡ is_warning levels.entry finding.now }
{
    !is_error(levels, finding)
}

fn is_error(levels: Levels<'_>, finding: &Finding) -> bool
    ensures { result ≡ is_error levels.entry finding.now }
{
    is_error_kind(levels, ReportedKind::Finding(finding.kind))
}

const KINDS: [Kind; 9] = [
    Kind::DefinedTwice,
    Kind::AttributeTwice,
    Kind::VariantTwice,
    Kind::UndefinedMessage,
    Kind::UndefinedTerm,
    Kind::UndefinedAttribute,
    Kind::UndefinedValue,
    Kind::CyclicReference,
    Kind::PluralCategory,
];

/// Which files begin with a byte order mark; and how many findings there are of each kind that has some, in the set of
/// that name. All on lines.
fn notes(
    alloc: Global,
    sources: &[Source<'_>],
    found: &[Finding],
    options: LintOptions<'_>,
) -> Result<String, AllocError> {
    let LintOptions { form, set_name, .. } = options;
    let mut out = String::new(alloc);
    for source in sources.iter().filter(|source| source.is_asked) {
        let (path, text) = (source.path.as_str(), source.text.as_str());
        let note = byte_order_mark_note(alloc, path, text, form)?;
        out.push_str(note.as_str())?;
    }
    for kind in &KINDS {
        let number = found.iter().filter(|finding| finding.kind == *kind).count();
        if number != 0 {
            if !set_name.is_empty() {
                push_shown_text(&mut out, set_name)?;
                out.push_str(": ")?;
            }
            writeln!(out, "{number} {}", kind.name())?;
        }
    }
    Ok(out)
}
