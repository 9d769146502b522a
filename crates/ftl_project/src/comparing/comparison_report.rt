//! What is reported of what one file of a pair has and the other one lacks.
ghost use Rattle.std.specs.Prelude.{◌≡◌, ◌+◌, ◌<◌, ◌^◌, IfOk, Some, length, option_map, string_bytes};
ghost use Rattle.fluent_syntax_names.specs.Differences.{difference_name};
ghost use Rattle.fluent_syntax_names.specs.ShownNames.{shown_name};
ghost use Rattle.fluent_syntax_names.specs.declared.differences.Side.TheVariants.{Other, Reference};
ghost use Rattle.ftl_project.specs.Comparing.{IsMissingPartReport, IsMissingReport, IsExtraReport, junk_location};
ghost use Rattle.ftl_project.specs.Comparing.{part_message, reference_place};
ghost use Rattle.ftl_project.specs.Diagnostics.{IsDiagnostic, ReportsEach, location_at};

use crate::comparing::pair::Pair;
use crate::linting::findings::severity_name;
use crate::locations::Locations;
use crate::reporting::diagnostics::{
    Diagnostic, OtherPlace, SourceLocation, Subject, diagnostic_text, location_of,
};
use fluent_syntax::spans::{Lines, Span};
use fluent_syntax_names::{Difference, MissingPart, Part, Side, shown_name};
use ftl_files::{Form, Levels, ReportedKind};
use std::alloc::{AllocError, Global};

/// A pair of which is reported what the file of this side has and the other one lacks: the texts of both, the form, and
/// how grave a difference is.
#[derive(Clone, Copy)]
pub(crate) struct PairReporter<'a> {
    pub(crate) alloc: Global,
    pub(crate) pair: &'a Pair<'a>,
    pub(crate) form: Form,
    pub(crate) levels: Levels<'a>,
    pub(crate) side: Side,
    /// What the file of this side says.
    pub(crate) text: &'a str,
    /// And that of the other side.
    pub(crate) other: &'a str,
}

impl PairReporter<'_> {
    /// What is reported of the parts that the file of this side has and the other one lacks.
    pub(crate) fn report_of(&self, missing_parts: &[MissingPart]) -> Result<String, AllocError>
        requires text { length self.now.text.now + 1 < 2 ^ 64 }
        requires other { length self.now.other.now + 1 < 2 ^ 64 }
        ensures { IfOk result (λ report_text. ReportsEach (IsMissingPartReport self.now.side self.now.form
            self.now.pair.now self.now.text.now self.now.other.now) missing_parts.now (string_bytes report_text)) }
    {
        let mut out = String::new(self.alloc);
        let mut lines = Lines::new(self.text);
        let places = places_in_other(self.alloc, missing_parts)?;
        let others = Locations::of(self.alloc, self.other, places)?;
        for missing in missing_parts {
            let report_text = self.part_report(&mut lines, &others, missing)?;
            out.push_str(report_text.as_str())?;
        }
        Ok(out)
    }

    fn part_report<'t>(
        &self,
        lines: &mut Lines<'t>,
        others: &Locations<'_>,
        missing: &MissingPart,
    ) -> Result<String, AllocError>
        requires lines { lines.old ≡ self.now.text.now }
        requires others { others.now.text.now ≡ self.now.other.now }
        ensures report_text { IfOk result (λ report_text. IsMissingPartReport self.now.side self.now.form
            self.now.pair.now self.now.text.now self.now.other.now missing.now (string_bytes report_text)) }
        ensures lines { lines.new ≡ lines.old }
    {
        let location = location_of(lines, self.text, missing.name);
        let Some(difference) = self.side.difference(missing.part) else {
            return Ok(String::new(self.alloc));
        };
        let entry = location_in(others, missing.in_other);
        let junk = junk_location(missing, entry);
        match self.side {
            Side::Reference => self.report(difference, missing, entry, Some(location)),
            Side::Other => self.report(difference, missing, Some(location), junk),
        }
    }

    /// What is reported of the difference at a place of the translation, with the place in the reference.
    fn report(
        &self,
        difference: Difference,
        missing: &MissingPart,
        place: Option<SourceLocation>,
        reference: Option<SourceLocation>,
    ) -> Result<String, AllocError>
        ensures { IfOk result (λ report_text. IsDiagnostic self.now.form (string_bytes self.now.pair.now.other) place
            (difference_name difference) (Some (shown_name self.now.text.now missing.now.name))
            (part_message self.now.side self.now.pair.now self.now.text.now missing.now difference reference)
            (string_bytes report_text)) }
    {
        let diagnostic = Diagnostic {
            path: self.pair.other.as_str(),
            text: self.translation(),
            place,
            kind: difference.name(),
            severity: severity_name(self.levels.severity(ReportedKind::Difference(difference))),
            message: self.message(difference, missing, reference)?,
            error: None,
            subject: Some(self.subject(missing, reference)),
        };
        diagnostic_text(self.alloc, &diagnostic, self.form)
    }

    /// The text of the file that is to be the translation.
    fn translation(&self) -> &str {
        match self.side {
            Side::Reference => self.other,
            Side::Other => self.text,
        }
    }

    fn message(
        &self,
        difference: Difference,
        missing: &MissingPart,
        reference: Option<SourceLocation>,
    ) -> Result<String, AllocError>
        ensures { IfOk result (λ message. string_bytes message ≡ part_message self.now.side self.now.pair.now
            self.now.text.now missing.now difference reference) }
    {
        match reference {
            Some(location) => {
                let place = self.place_text(location)?;
                let place = Some(place.as_str());
                missing.sentence(self.alloc, self.text, self.side, difference, place)
            }
            None => missing.sentence(self.alloc, self.text, self.side, difference, None),
        }
    }

    /// A place of the reference, as it is reported.
    fn place_text(&self, location: SourceLocation) -> Result<String, AllocError>
        ensures { IfOk result (λ place. string_bytes place ≡ reference_place self.now.pair.now location) }
    {
        let path = self.pair.reference.as_str();
        let (line, column) = (location.line, location.column);
        format!(in self.alloc; "{path}:{line}:{column}")
    }

    /// The name of the part, that of the entry that it is in, and the place in the reference.
    fn subject(&self, missing: &MissingPart, reference: Option<SourceLocation>) -> Subject<'_>
        ensures { result.name.now ≡ shown_name self.now.text.now missing.now.name }
    {
        Subject {
            name: shown_name(self.text, missing.name),
            entry: match missing.part {
                Part::Entry | Part::Value => None,
                _ => Some(shown_name(self.text, missing.entry)),
            },
            other: reference.map(|location| OtherPlace {
                path: self.pair.reference.as_str(),
                location,
            }),
        }
    }
}

/// Where the other file has the entries of these parts.
fn places_in_other(alloc: Global, missing_parts: &[MissingPart]) -> Result<Vec<Span>, AllocError> {
    let mut places = Vec::new(alloc);
    for missing in missing_parts {
        if let Some(place) = missing.in_other {
            places.push(place)?;
        }
    }
    Ok(places)
}

fn location_in(others: &Locations<'_>, place: Option<Span>) -> Option<SourceLocation>
    ensures { result ≡ option_map (location_at others.now.text.now) place }
{
    match place {
        Some(place) => Some(others.location(place)),
        None => None,
    }
}

/// The place in the other file, if it has the part as junk.
fn junk_location(missing: &MissingPart, entry: Option<SourceLocation>) -> Option<SourceLocation>
    ensures { result ≡ junk_location missing.now entry }
{
    if missing.is_junk() { entry } else { None }
}
