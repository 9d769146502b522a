//! What is said of a finding, and of what one of two files lacks.
ghost use Rattle.std.specs.Prelude.{◌≡◌, ◌++◌, IfOk, option_map, string_bytes};
ghost use Rattle.fluent_syntax_names.specs.Sentences.{first_on_line, difference_sentence, junk_sentence, sentence_of};
ghost use Rattle.fluent_syntax_names.specs.Sentences.{part_sentence};

use crate::differences::{Difference, Side};
use crate::finding::Kind;
use crate::missing_part::MissingPart;
use crate::shown_names::shown_name;
use std::alloc::{AllocError, Global};

impl Kind {
    /// A sentence on a finding of this kind: `name` is the `full_name` at its place, and `first` the number of the line
    /// that has its other place, if it has one in a line.
    ///
    /// `AllocError` where there is no memory for it.
    pub fn sentence(
        self,
        alloc: Global,
        name: &str,
        first: Option<usize>,
    ) -> Result<String, AllocError>
        ensures { IfOk result (λ said. string_bytes said ≡ sentence_of self name.now ++ first_on_line first) }
    {
        match first {
            None => self.short_sentence(alloc, name),
            Some(line) => {
                let said = self.short_sentence(alloc, name)?;
                format!(in alloc; "{said}, first on line {line}")
            }
        }
    }

    fn short_sentence(self, alloc: Global, name: &str) -> Result<String, AllocError>
        ensures { IfOk result (λ said. string_bytes said ≡ sentence_of self name.now) }
    {
        match self {
            Kind::DefinedTwice => format!(in alloc; "`{name}` is defined twice"),
            Kind::AttributeTwice => format!(in alloc; "the entry has the attribute `{name}` twice"),
            Kind::VariantTwice => format!(in alloc; "the select has the variant `{name}` twice"),
            Kind::UndefinedMessage => format!(in alloc; "no file defines the message `{name}`"),
            Kind::UndefinedTerm => format!(in alloc; "no file defines the term `{name}`"),
            Kind::UndefinedAttribute => format!(in alloc; "no file defines the attribute `{name}`"),
            Kind::UndefinedValue => format!(in alloc; "no file gives the message `{name}` a value"),
            Kind::CyclicReference => format!(in alloc; "`{name}` leads back to this reference"),
            Kind::PluralCategory => format!(in alloc;
                "no number chooses the variant `{name}` in this language"
            ),
        }
    }
}

impl Difference {
    /// A sentence on the difference: `entry` is the name of the message or term, and `name` that of what one of the
    /// files has in it, or the same. That of a term has its `-`, and that of a variable is without its `$`.
    ///
    /// `AllocError` where there is no memory for it.
    pub fn sentence(self, alloc: Global, entry: &str, name: &str) -> Result<String, AllocError>
        ensures { IfOk result (λ said. string_bytes said ≡ difference_sentence self entry.now name.now) }
    {
        match self {
            Difference::Missing => format!(in alloc; "`{entry}` is missing"),
            Difference::MissingValue => format!(in alloc; "the value of `{entry}` is missing"),
            Difference::MissingAttribute => format!(in alloc;
                "the attribute `{name}` of `{entry}` is missing"
            ),
            Difference::MissingReference => format!(in alloc;
                "`{entry}` does not refer to `{name}`"
            ),
            Difference::Obsolete => format!(in alloc; "the reference does not define `{entry}`"),
            Difference::ObsoleteValue => format!(in alloc;
                "the reference gives `{entry}` no value"
            ),
            Difference::ObsoleteAttribute => format!(in alloc;
                "the reference does not define the attribute `{name}` of `{entry}`"
            ),
            Difference::ObsoleteReference => format!(in alloc;
                "the reference's `{entry}` does not refer to `{name}`"
            ),
            Difference::UnknownVariable => format!(in alloc;
                "the reference does not use `${name}`"
            ),
            Difference::UnknownFunction => format!(in alloc;
                "the reference does not call `{name}`"
            ),
        }
    }
}

impl Side {
    /// A sentence on a message or a term that this file defines and that the other one has as junk: `place` is that in
    /// the file of the reference language.
    ///
    /// `AllocError` where there is no memory for it.
    pub fn junk_sentence(
        self,
        alloc: Global,
        entry: &str,
        place: &str,
    ) -> Result<String, AllocError>
        ensures { IfOk result (λ said. string_bytes said ≡ junk_sentence self entry.now place.now) }
    {
        match self {
            Side::Reference => format!(in alloc;
                "`{entry}` is junk here; the reference has it at {place}"
            ),
            Side::Other => format!(in alloc; "`{entry}` is junk in the reference ({place})"),
        }
    }
}

impl MissingPart {
    /// A sentence on a part that the file of this side has and the other one lacks: `text` is that of the file that has
    /// it, `difference` what is reported of it, and `place` that in the file of the reference language, where it has
    /// the part or the junk.
    ///
    /// `AllocError` where there is no memory for it.
    pub fn sentence(
        &self,
        alloc: Global,
        text: &str,
        side: Side,
        difference: Difference,
        place: Option<&str>,
    ) -> Result<String, AllocError>
        ensures { IfOk result (λ said. string_bytes said
            ≡ part_sentence side text.now self.now difference (option_map (λ place. place.now) place.entry)) }
    {
        let entry = shown_name(text, self.entry);
        let name = shown_name(text, self.name);
        let Some(place) = place else {
            return difference.sentence(alloc, entry, name);
        };
        if self.is_junk() {
            return side.junk_sentence(alloc, entry, place);
        }
        let said = difference.sentence(alloc, entry, name)?;
        format!(in alloc; "{said} ({place})")
    }
}
