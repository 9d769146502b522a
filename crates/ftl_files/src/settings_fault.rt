//! Why an `ftl.toml` says nothing that can be gone by.

use crate::kinds::{DIFFERENCE_NAMES, FINDING_NAMES, ReportedKind};
use std::alloc::AllocError;
use std::fmt;

/// Why an `ftl.toml` says nothing that can be gone by.
#[derive(Debug, Drop)]
pub enum SettingsFault {
    /// A growth was refused.
    Memory,
    /// The text is no TOML: what is wrong, and where, in words.
    Toml(String),
    /// A key that has no meaning.
    Key(String),
    /// The value of `reference` is no text.
    Reference,
    /// The value of `ignore` is no list of texts.
    Ignore,
    /// The value of `ignore` has a text that names no kind.
    Kind(String),
    /// The value of `warn` or `deny`, whichever this is, is no list of texts.
    Kinds(&'static str),
    /// The value of that key has a text that names no kind.
    UnknownKind(&'static str, String),
    /// The values of `warn` and `deny` both have the kind.
    CommonKind(ReportedKind),
    /// The value of `exclude` is no list of texts.
    Exclude,
    /// The value of `edition` is not the number of one.
    Edition,
    /// The value of `output` is not the name of a form.
    Output,
    /// The value of `nesting` is no number of 32 bits.
    Nesting,
    /// The value of `color` is not one of its names.
    Color,
    /// The value of `blank-lines` is not one of its names.
    BlankLines,
    /// The value of `folders` is no table of tables.
    Folders,
    /// A key that has no meaning in the table of a folder.
    FolderKey(String),
}

impl From<AllocError> for SettingsFault {
    ghost use Rattle.ftl_files.specs.declared.settings_fault.SettingsFault.TheVariants.{Memory};
    ghost use Rattle.std.specs.Prelude.{◌≡◌};

    ghost from_gives = { λ _ fault. fault ≡ Memory };

    fn from(_error: AllocError) -> Self {
        SettingsFault::Memory
    }
}

impl fmt::Display for SettingsFault {
    fn fmt<W: fmt::Write>(&self, f: &mut fmt::Formatter<W>) -> fmt::Result {
        match self {
            SettingsFault::Memory => f.write_str("out of memory"),
            SettingsFault::Toml(message) => write!(f, "{message}"),
            SettingsFault::Key(key) => write!(f, "no setting is called `{key}`"),
            SettingsFault::Reference => f.write_str("`reference` wants a path in quotes"),
            SettingsFault::Ignore => {
                f.write_str(
                    "`ignore` wants a list of kinds, as `ftl help lint` and `ftl help compare` have them",
                )
            }
            SettingsFault::Kind(name) => write_unknown_kind(f, "ignore", name.as_str()),
            SettingsFault::Kinds(key) => {
                write!(
                    f,
                    "`{key}` wants a list of kinds, as `ftl help lint` and `ftl help compare` have them"
                )
            }
            SettingsFault::UnknownKind(key, name) => write_unknown_kind(f, *key, name.as_str()),
            SettingsFault::CommonKind(kind) => {
                write!(f, "`warn` and `deny` both have `{}`", kind.name())
            }
            SettingsFault::Exclude => {
                f.write_str("`exclude` wants a list of names and paths in quotes")
            }
            SettingsFault::Edition => f.write_str("`edition` wants 1 or 2"),
            SettingsFault::Output => {
                f.write_str("`output` wants \"lines\", \"full\", \"json\" or \"github\"")
            }
            SettingsFault::Nesting => f.write_str("`nesting` wants a number from 0 to 4294967295"),
            SettingsFault::Color => {
                f.write_str("`color` wants \"auto\", \"always\" or \"never\"")
            }
            SettingsFault::BlankLines => {
                f.write_str("`blank-lines` wants \"normal\" or \"keep\"")
            }
            SettingsFault::Folders => {
                f.write_str("`folders` wants a table for each folder, as [folders.\"locales/old\"]")
            }
            SettingsFault::FolderKey(key) => {
                write!(f, "no setting of a folder is called `{key}`")
            }
        }
    }
}

fn write_unknown_kind<W: fmt::Write>(
    f: &mut fmt::Formatter<W>,
    key: &str,
    name: &str,
) -> fmt::Result {
    write!(f, "`{key}` knows no kind `{name}`; possible values: ")?;
    write_names(f, FINDING_NAMES.as_slice())?;
    f.write_str(", ")?;
    write_names(f, DIFFERENCE_NAMES.as_slice())
}

/// The names, with a comma after each but the last.
fn write_names<W: fmt::Write>(f: &mut fmt::Formatter<W>, names: &[&str]) -> fmt::Result {
    for (number, name) in names.iter().enumerate() {
        if number != 0 {
            f.write_str(", ")?;
        }
        f.write_str(*name)?;
    }
    Ok(())
}
