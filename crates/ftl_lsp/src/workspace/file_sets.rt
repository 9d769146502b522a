//! Which files are searched as one set.

use fluent_syntax_names::{LANGUAGE_GROUPS, plural_categories_of};

/// The files among which the names are looked for that a file refers to.
#[derive(Clone, Copy, PartialEq, Eq)]
pub enum FileSet<'p> {
    /// Those of a language, by its folder.
    Language(&'p str),
    /// All that are in no folder of a language.
    OfNoLanguage,
    /// The file at this path alone, since it is passed over where its folder is listed.
    Alone(&'p str),
}

impl<'p> FileSet<'p> {
    /// A text that no other set has.
    pub fn key(self) -> &'p str {
        match self {
            FileSet::Language(path) | FileSet::Alone(path) => path,
            FileSet::OfNoLanguage => "",
        }
    }

    /// The folder in which each language has its own. `None` where it is no language's.
    pub fn languages(self) -> Option<&'p str> {
        match self {
            FileSet::Language(folder) => Some(folder.rsplit_once('/')?.0),
            FileSet::OfNoLanguage | FileSet::Alone(_) => None,
        }
    }

    /// The plural categories of the language, by the name of its folder. `None` where they are not known.
    pub fn categories(self) -> Option<&'static [&'static str]> {
        let FileSet::Language(folder) = self else {
            return None;
        };
        let (_, name) = folder.rsplit_once('/')?;
        plural_categories_of(LANGUAGE_GROUPS.as_slice(), name)
    }
}
