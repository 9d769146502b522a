//! Files of a reference language are compared with those of another.
ghost use Rattle.std.specs.Prelude.{◌≡◌, ◌≢◌, ◌⊎◌, [], Err, IfErr, IfOk, OnOk, string_bytes, true};
ghost use Rattle.fluent_syntax_names.specs.declared.differences.Side.TheVariants.{Other, Reference};
ghost use Rattle.fluent_syntax_names.specs.declared.name_index.NameIndex.{NameIndex};
ghost use Rattle.ftl_files.specs.Store.{AllUnchanged};
ghost use Rattle.ftl_project.specs.Comparing.{Compares, ComparesEach, IsFileMissing, IsPairCompared, IsComparison};
ghost use Rattle.ftl_files.specs.Kinds.{reported_name};
ghost use Rattle.ftl_project.specs.Differences.{is_reported};
ghost use Rattle.ftl_project.specs.Comparing.{IsFileObsolete, IsFileReport, IsSideFault};
ghost use Rattle.ftl_project.specs.Comparing.{errors_of, missing_entries, warnings_of};
ghost use Rattle.ftl_project.specs.declared.comparing.pair.Presence.TheVariants.{Both, ReferenceAlone};
ghost use Rattle.ftl.specs.Watched.{has_failed, inner_of};
ghost use Rattle.ftl_project.specs.Faults.{IsRead, IsTooDeep, IsUnparsed, IsUnread};
ghost use Rattle.ftl_project.specs.NameIndexes.{IsNameIndex, IsShort};

pub mod comparison_report;
pub mod differences;
pub mod pair;
pub mod share;
mod unmatched;

use crate::comparing::comparison_report::PairReporter;
use crate::comparing::differences::{
    counts_as_error, counts_as_warning, is_file_error, is_file_warning, is_reported, reported_parts,
};
use crate::comparing::pair::{Pair, Presence};
use crate::comparing::share::Share;
use crate::comparing::unmatched::{EntryNames, UnmatchedNames};
use crate::fault::Fault;
use crate::formatting::rewriting::read_text;
use crate::linting::findings::severity_name;
use crate::name_indexes::name_index;
use crate::reporting::diagnostics::{Diagnostic, diagnostic_text};
use crate::streams::{Streams, byte_order_mark_note, report_fault};
use crate::tally::Tally;
use fluent_syntax_names::{MissingPart, NameIndex, Part, Side, entry_count, missing_parts};
use ftl::{RunFault, write_all};
use ftl_files::{CommentRules, Form, Levels, Reading, ReportedKind, Store};
use std::alloc::{AllocError, Global};
use std::io::Write;

/// How differences are reported.
#[derive(Clone, Copy, Debug)]
pub struct CompareOptions<'a> {
    pub form: Form,
    /// How grave a difference is.
    pub levels: Levels<'a>,
}

/// What is reported of a pair, how many errors and warnings it has, and how much of it is there.
#[derive(Drop)]
struct PairComparison {
    report_text: String,
    /// Which of the two begin with a byte order mark, on lines.
    notes: String,
    /// Messages and terms that are reported as missing or obsolete.
    names: EntryNames,
    errors: usize,
    warnings: usize,
    share: Share,
}

/// Why a pair was not compared: the file of that side was not answered.
#[derive(Drop)]
pub(crate) struct PairFault {
    pub(crate) side: Side,
    pub(crate) fault: Fault,
}

impl From<AllocError> for PairFault {
    ghost use Rattle.std.specs.Prelude.{◌≡◌};
    ghost use Rattle.fluent_syntax_names.specs.declared.differences.Side.TheVariants.{Reference};
    ghost use Rattle.ftl_project.specs.declared.fault.Fault.TheVariants.{Memory};

    ghost from_gives = { λ _ fault. fault ≡ record { side = Reference; fault = Memory } };

    /// Reported of the reference, which each pair has.
    fn from(_error: AllocError) -> Self {
        PairFault {
            side: Side::Reference,
            fault: Fault::Memory,
        }
    }
}

/// Reports what the other files lack of the reference's, and what is obsolete there, pair by pair. No file is changed,
/// and each pair is counted. A file that can't be read is reported, and the other pairs are compared.
///
/// `Err` where the run stopped: `Memory`, or `Output`.
pub fn compare_files<S: Store, O: Write, E: Write>(
    alloc: Global,
    store: &mut S,
    pairs: &[Pair<'_>],
    reading: Reading,
    options: CompareOptions<'_>,
    tally: &mut Tally,
    share: &mut Share,
    streams: &mut Streams<'_, O, E>,
) -> Result<(), RunFault>
    ensures untouched { AllUnchanged (S.bytes_at store.old) (S.bytes_at store.new) }
    ensures each { OnOk result (ComparesEach S.fails reading options.entry (S.bytes_at store.old) pairs.now tally.old
        tally.new share.old share.new (O.contents (inner_of streams.old.out.now))
        (O.contents (inner_of streams.new.out.now))) }
    ensures input { result ≢ Err RunFault.Input }
    ensures output { result ≡ Err RunFault.Output → (has_failed streams.new.out.now ≡ true)
        ⊎ (has_failed streams.new.err.now ≡ true) }
{
    let comparing = Comparing {
        alloc,
        reading,
        options,
    };
    let mut unmatched = UnmatchedNames::new(alloc);
    for pair in pairs {
        comparing.report_pair(store, pair, tally, share, &mut unmatched, streams)?;
    }
    match unmatched.notes(alloc, options.form) {
        Ok(notes) => write_all(streams.err, notes.as_bytes()),
        Err(AllocError) => Err(RunFault::Memory),
    }
}

/// How pairs are compared, and how what they lack is reported.
#[derive(Clone, Copy)]
struct Comparing<'a> {
    alloc: Global,
    reading: Reading,
    options: CompareOptions<'a>,
}

impl Comparing<'_> {
    /// Compares a pair, reports what came of it, and counts it.
    fn report_pair<S: Store, O: Write, E: Write>(
        &self,
        store: &mut S,
        pair: &Pair<'_>,
        tally: &mut Tally,
        share: &mut Share,
        unmatched: &mut UnmatchedNames,
        streams: &mut Streams<'_, O, E>,
    ) -> Result<(), RunFault>
        ensures untouched { AllUnchanged (S.bytes_at store.old) (S.bytes_at store.new) }
        ensures counted { OnOk result (Compares S.fails self.now.reading self.now.options (S.bytes_at store.old)
            pair.now tally.old tally.new share.old share.new (O.contents (inner_of streams.old.out.now))
            (O.contents (inner_of streams.new.out.now))) }
        ensures input { result ≢ Err RunFault.Input }
        ensures output { result ≡ Err RunFault.Output → (has_failed streams.new.out.now ≡ true)
            ⊎ (has_failed streams.new.err.now ≡ true) }
    {
        match self.compare_pair(store, pair) {
            Ok(compared) => {
                tally.count(compared.errors, compared.warnings, compared.errors != 0);
                share.add(compared.share);
                write_all(streams.out, compared.report_text.as_bytes())?;
                self.put_notes(pair, &compared, unmatched, streams)
            }
            Err(fault) => {
                let path = pair.path(fault.side);
                report_fault(self.alloc, tally, path, &fault.fault, streams)
            }
        }
    }

    /// Writes what else is reported of a pair, and notes the names that it has unmatched.
    fn put_notes<O: Write, E: Write>(
        &self,
        pair: &Pair<'_>,
        compared: &PairComparison,
        unmatched: &mut UnmatchedNames,
        streams: &mut Streams<'_, O, E>,
    ) -> Result<(), RunFault>
        ensures out { streams.new.out ≡ streams.old.out }
        ensures input { result ≢ Err RunFault.Input }
        ensures output { result ≡ Err RunFault.Output → has_failed streams.new.err.now ≡ true }
    {
        match unmatched.add(self.alloc, pair.other.as_str(), &compared.names) {
            Ok(()) => write_all(streams.err, compared.notes.as_bytes()),
            Err(AllocError) => Err(RunFault::Memory),
        }
    }

    fn compare_pair<S: Store>(
        &self,
        store: &mut S,
        pair: &Pair<'_>,
    ) -> Result<PairComparison, PairFault>
        ensures untouched { AllUnchanged (S.bytes_at store.old) (S.bytes_at store.new) }
        ensures compared { IfOk result (λ compared. IsComparison S.fails self.now.reading self.now.options
            (S.bytes_at store.old) pair.now.presence pair.now compared.errors compared.warnings compared.share
            (string_bytes compared.report_text)) }
        ensures fault { IfErr result (λ fault. IsSideFault S.fails self.now.reading self.now.options
            (S.bytes_at store.old) pair.now.presence pair.now fault.side fault.fault) }
    {
        match pair.presence {
            Presence::Both => self.comparison_of_both(store, pair),
            Presence::ReferenceAlone => self.comparison_without_other(store, pair),
            Presence::OtherAlone => {
                let compared = self.comparison_without_reference(pair)?;
                Ok(compared)
            }
        }
    }

    /// What comes of a pair whose files are both there.
    fn comparison_of_both<S: Store>(
        &self,
        store: &mut S,
        pair: &Pair<'_>,
    ) -> Result<PairComparison, PairFault>
        ensures untouched { AllUnchanged (S.bytes_at store.old) (S.bytes_at store.new) }
        ensures compared { IfOk result (λ compared. IsComparison S.fails self.now.reading self.now.options
            (S.bytes_at store.old) Both pair.now compared.errors compared.warnings compared.share
            (string_bytes compared.report_text)) }
        ensures fault { IfErr result (λ fault. IsSideFault S.fails self.now.reading self.now.options
            (S.bytes_at store.old) Both pair.now fault.side fault.fault) }
    {
        let reference = side_text(store, Side::Reference, pair.reference.as_str())?;
        let other = side_text(store, Side::Other, pair.other.as_str())?;
        self.comparison_of_texts(pair, reference.as_str(), other.as_str())
    }

    /// What comes of a pair of whose files that of the reference alone is there.
    fn comparison_without_other<S: Store>(
        &self,
        store: &mut S,
        pair: &Pair<'_>,
    ) -> Result<PairComparison, PairFault>
        ensures untouched { AllUnchanged (S.bytes_at store.old) (S.bytes_at store.new) }
        ensures compared { IfOk result (λ compared. IsComparison S.fails self.now.reading self.now.options
            (S.bytes_at store.old) ReferenceAlone pair.now compared.errors compared.warnings compared.share
            (string_bytes compared.report_text)) }
        ensures fault { IfErr result (λ fault. IsSideFault S.fails self.now.reading self.now.options
            (S.bytes_at store.old) ReferenceAlone pair.now fault.side fault.fault) }
    {
        let reference = side_text(store, Side::Reference, pair.reference.as_str())?;
        self.comparison_of_reference(pair, reference.as_str())
    }

    /// What comes of the text of a reference that has no translation.
    fn comparison_of_reference(
        &self,
        pair: &Pair<'_>,
        reference: &str,
    ) -> Result<PairComparison, PairFault>
        ensures compared { IfOk result (λ compared. (name_index : NameIndex)
            × IsNameIndex self.now.reading.edition reference.now name_index
            × IsFileMissing self.now.options pair.now name_index compared.errors compared.warnings compared.share
            (string_bytes compared.report_text)) }
        ensures fault { IfErr result (λ fault. (fault.side ≡ Reference)
            × IsUnparsed (IsTooDeep self.now.reading reference.now) fault.fault) }
    {
        let reference = self.side_index(Side::Reference, reference)?;
        let wanted = entry_count(self.alloc, &reference)?;
        let kind = ReportedKind::MissingFile;
        let message = format!(in self.alloc;
            "there is no such file; the reference has {}",
            pair.reference.as_str()
        )?;
        let report_text = self.file_report(pair, kind, message)?;
        let levels = self.options.levels;
        let is_error = is_file_error(pair.ignored, levels, kind);
        let is_warning = is_file_warning(pair.ignored, levels, kind);
        Ok(PairComparison {
            report_text,
            notes: String::new(self.alloc),
            names: EntryNames::new(self.alloc),
            errors: usize::from(is_error),
            warnings: usize::from(is_warning),
            share: Share {
                wanted,
                missing: wanted,
            },
        })
    }

    /// What comes of a pair of whose files that of the translation alone is there. It is not read.
    fn comparison_without_reference(&self, pair: &Pair<'_>) -> Result<PairComparison, AllocError>
        ensures { IfOk result (λ compared. IsFileObsolete self.now.options pair.now compared.errors compared.warnings
            compared.share (string_bytes compared.report_text)) }
    {
        let kind = ReportedKind::ObsoleteFile;
        let message = format!(in self.alloc;
            "the reference has no file {}",
            pair.reference.as_str()
        )?;
        let report_text = self.file_report(pair, kind, message)?;
        let levels = self.options.levels;
        let is_error = is_file_error(pair.ignored, levels, kind);
        let is_warning = is_file_warning(pair.ignored, levels, kind);
        Ok(PairComparison {
            report_text,
            notes: String::new(self.alloc),
            names: EntryNames::new(self.alloc),
            errors: usize::from(is_error),
            warnings: usize::from(is_warning),
            share: Share {
                wanted: 0,
                missing: 0,
            },
        })
    }

    /// What is reported of the translation's file as a whole, if that is reported.
    fn file_report(
        &self,
        pair: &Pair<'_>,
        kind: ReportedKind,
        message: String,
    ) -> Result<String, AllocError>
        ensures { IfOk result (λ report_text. IsFileReport self.now.options.form pair.now (reported_name kind)
            (string_bytes message) (is_reported pair.now.ignored.now kind []) (string_bytes report_text)) }
    {
        if !is_reported(pair.ignored, kind, "") {
            return Ok(String::new(self.alloc));
        }
        let diagnostic = Diagnostic {
            path: pair.other.as_str(),
            text: "",
            place: None,
            kind: kind.name(),
            severity: severity_name(self.options.levels.severity(kind)),
            message,
            error: None,
            subject: None,
        };
        diagnostic_text(self.alloc, &diagnostic, self.options.form)
    }

    /// What comes of a pair of these texts.
    fn comparison_of_texts(
        &self,
        pair: &Pair<'_>,
        reference: &str,
        other: &str,
    ) -> Result<PairComparison, PairFault>
        ensures compared { IfOk result (λ compared. (reference_name_index : NameIndex)
            × IsNameIndex self.now.reading.edition reference.now reference_name_index × (other_name_index : NameIndex)
            × IsNameIndex self.now.reading.edition other.now other_name_index
            × IsPairCompared self.now.options pair.now reference_name_index other_name_index compared.errors
            compared.warnings compared.share (string_bytes compared.report_text)) }
        ensures fault { IfErr result (λ fault.
            ((fault.side ≡ Reference) × IsUnparsed (IsTooDeep self.now.reading reference.now) fault.fault)
            ⊎ ((fault.side ≡ Other) × IsUnparsed (IsTooDeep self.now.reading other.now) fault.fault)) }
    {
        let reference = self.side_index(Side::Reference, reference)?;
        let other = self.side_index(Side::Other, other)?;
        let compared = self.comparison_of_indexes(pair, &reference, &other)?;
        Ok(compared)
    }

    /// What the text of the file of this side says of names.
    fn side_index<'a>(&self, side: Side, text: &'a str) -> Result<NameIndex<'a>, PairFault>
        ensures name_index { IfOk result (IsNameIndex self.now.reading.edition text.now) }
        ensures short { IfOk result IsShort }
        ensures fault { IfErr result (λ fault. (fault.side ≡ side)
            × IsUnparsed (IsTooDeep self.now.reading text.now) fault.fault) }
    {
        match name_index(self.alloc, text, self.reading) {
            Ok(name_index) => Ok(name_index),
            Err(fault) => Err(PairFault { side, fault }),
        }
    }

    /// Which of the two files begin with a byte order mark, on lines.
    fn mark_notes(
        &self,
        pair: &Pair<'_>,
        reference: &NameIndex<'_>,
        other: &NameIndex<'_>,
    ) -> Result<String, AllocError> {
        let form = self.options.form;
        let mut notes = byte_order_mark_note(
            self.alloc,
            pair.reference.as_str(),
            reference.text,
            form,
        )?;
        let note = byte_order_mark_note(self.alloc, pair.other.as_str(), other.text, form)?;
        notes.push_str(note.as_str())?;
        Ok(notes)
    }

    /// What comes of a pair whose files say this.
    fn comparison_of_indexes(
        &self,
        pair: &Pair<'_>,
        reference: &NameIndex<'_>,
        other: &NameIndex<'_>,
    ) -> Result<PairComparison, AllocError>
        requires reference { IsShort reference.now }
        requires other { IsShort other.now }
        ensures { IfOk result (λ compared. IsPairCompared self.now.options pair.now reference.now other.now
            compared.errors compared.warnings compared.share (string_bytes compared.report_text)) }
    {
        let missing = missing_parts(self.alloc, reference, other)?;
        let rules = CommentRules::of(self.alloc, reference)?;
        let other_rules = CommentRules::of(self.alloc, other)?;
        let reported = reported_parts(
            self.alloc,
            pair.ignored,
            Side::Reference,
            &rules,
            &other_rules,
            &missing,
        )?;
        let reporter = PairReporter {
            alloc: self.alloc,
            pair,
            form: self.options.form,
            levels: self.options.levels,
            side: Side::Reference,
            text: reference.text,
            other: other.text,
        };
        let mut report_text = reporter.report_of(&reported)?;
        let extra = missing_parts(self.alloc, other, reference)?;
        let extra = reported_parts(
            self.alloc,
            pair.ignored,
            Side::Other,
            &other_rules,
            &rules,
            &extra,
        )?;
        let reporter = PairReporter {
            side: Side::Other,
            text: other.text,
            other: reference.text,
            ..reporter
        };
        let other_report = reporter.report_of(&extra)?;
        report_text.push_str(other_report.as_str())?;
        let levels = self.options.levels;
        let missed = errors_of(levels, Side::Reference, &reported);
        let unknown = errors_of(levels, Side::Other, &extra);
        let warnings = warnings_of(levels, Side::Reference, &reported);
        Ok(PairComparison {
            report_text,
            notes: self.mark_notes(pair, reference, other)?,
            names: EntryNames::of(self.alloc, reference.text, &reported, other.text, &extra)?,
            errors: missed.saturating_add(unknown),
            warnings: warnings.saturating_add(warnings_of(levels, Side::Other, &extra)),
            share: Share {
                wanted: entry_count(self.alloc, reference)?,
                missing: missing_entries(&missing),
            },
        })
    }
}

/// The text of the file of this side.
pub(crate) fn side_text<S: Store>(
    store: &mut S,
    side: Side,
    path: &str,
) -> Result<String, PairFault>
    ensures text { IfOk result (λ text. IsRead (S.bytes_at store.old path.now) (string_bytes text)) }
    ensures fault { IfErr result (λ fault. (fault.side ≡ side)
        × IsUnread S.fails (S.bytes_at store.old path.now) fault.fault) }
    ensures untouched { AllUnchanged (S.bytes_at store.old) (S.bytes_at store.new) }
{
    match read_text(store, path) {
        Ok(text) => Ok(text),
        Err(fault) => Err(PairFault { side, fault }),
    }
}

/// How many of the parts that this file has and the other one lacks are reported as errors.
fn errors_of(levels: Levels<'_>, side: Side, missing_parts: &[MissingPart]) -> usize
    ensures { result ≡ errors_of levels.entry side missing_parts.now }
{
    missing_parts
        .iter()
        .filter(|missing| counts_as_error(levels, side, missing.part))
        .count()
}

/// How many of the parts that this file has and the other one lacks are reported as warnings.
fn warnings_of(levels: Levels<'_>, side: Side, missing_parts: &[MissingPart]) -> usize
    ensures { result ≡ warnings_of levels.entry side missing_parts.now }
{
    missing_parts
        .iter()
        .filter(|missing| counts_as_warning(levels, side, missing.part))
        .count()
}

/// How many messages and terms the other file lacks.
fn missing_entries(missing_parts: &[MissingPart]) -> usize
    ensures { result ≡ missing_entries missing_parts.now }
{
    missing_parts
        .iter()
        .filter(|missing| matches!(missing.part, Part::Entry))
        .count()
}
