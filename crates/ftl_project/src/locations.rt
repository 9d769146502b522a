//! Where names are in a text, for names that come in any order.
ghost use Rattle.std.specs.Prelude.{◌≡◌, ◌+◌, ◌<◌, ◌^◌, All, IfOk, length};
ghost use Rattle.ftl_project.specs.Diagnostics.{location_at};
ghost use Rattle.ftl_project.specs.Locations.{IsLocated};

use crate::reporting::diagnostics::{SourceLocation, location_of};
use fluent_syntax::spans::{Lines, Span};
use std::alloc::{AllocError, Global};

/// Where names are in a text, in its order: so it is read once for all of them.
#[derive(Drop)]
pub(crate) struct Locations<'t> {
    text: &'t str,
    locations: Vec<SourceLocation>,
    ghost short: { length text.now + 1 < 2 ^ 64 },
    ghost located: { All (IsLocated text.now) locations.items },
}

impl<'t> Locations<'t> {
    /// Where these names are in the text.
    pub(crate) fn of(alloc: Global, text: &'t str, mut names: Vec<Span>) -> Result<Self, AllocError>
        requires { length text.now + 1 < 2 ^ 64 }
        ensures { IfOk result (λ locations. locations.text.now ≡ text.now) }
    {
        names.sort_by_key(|name| name.start)?;
        let mut lines = Lines::new(text);
        let mut locations = Vec::new(alloc);
        for name in &names {
            locations.push(location_of(&mut lines, text, *name))?;
        }
        Ok(Locations { text, locations })
    }

    /// Where the name is in the text: as it was noted, or else as the text is read for it.
    pub(crate) fn location(&self, name: Span) -> SourceLocation
        ensures { result ≡ location_at self.now.text.now name }
    {
        let locations = &self.locations;
        if let Ok(number) = locations.binary_search_by_key(&name.start, |one| one.start) {
            let noted = locations[number];
            if noted.start == name.start && noted.end == name.end {
                return noted;
            }
        }
        let mut lines = Lines::new(self.text);
        location_of(&mut lines, self.text, name)
    }
}
