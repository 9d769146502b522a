//! What `ftl` is asked to do.
ghost use Rattle.std.specs.Prelude.{◌≡◌};
ghost use Rattle.ftl_args.specs.Request.{command_of};

use crate::compare_args::Compare;
use crate::lint_args::Lint;
use crate::options::Options;
use fluent_syntax_tree::edition::Edition;
use ftl::Command;

/// What a command line asks for.
#[derive(Debug, Drop)]
pub enum Request<'a> {
    /// To answer texts.
    Answer(Work<'a>),
    /// To serve an editor.
    Serve,
    /// To search files for mistakes between names.
    Lint(Lint<'a>),
    /// To compare files with those of a reference language.
    Compare(Compare<'a>),
}

/// Texts to answer.
#[derive(Debug, Drop)]
pub struct Work<'a> {
    /// What to do with each text.
    pub task: Task,
    /// How a text is read, and how its errors are reported.
    pub options: Options,
    /// Whether no line says what became of all files.
    pub is_quiet: bool,
    /// What standard input is called.
    pub stdin_name: &'a str,
    /// What is passed over in folders.
    pub excluded: Vec<&'a str>,
    /// Files and folders, and `-` for standard input; none for standard input alone.
    pub paths: Vec<&'a str>,
}

/// What to do with a text.
#[derive(Clone, Copy, Debug, PartialEq, Eq)]
pub enum Task {
    /// Report its syntax errors.
    Check,
    /// Write it in its normal form.
    Format(Change),
    /// Write it in its normal form without comments.
    Runtime,
    /// Write its tree as JSON.
    Json,
    /// The same with the places of entries and elements.
    SpannedJson,
    /// Read a tree as JSON, and write its text.
    FromJson(Conversion),
}

/// How a tree as JSON is written.
#[derive(Clone, Copy, Debug, PartialEq, Eq)]
pub struct Conversion {
    /// Whether junk is written too.
    pub with_junk: bool,
    /// Whether a text of several lines, in a pattern or a comment, is written as one for each line.
    pub splits_lines: bool,
}

/// What becomes of a formatted text.
#[derive(Clone, Copy, Debug, PartialEq, Eq)]
pub enum Change {
    /// It goes to standard output.
    Print,
    /// It takes the file's place.
    Write,
    /// The file is named where it would change.
    Name,
    /// What would change is shown.
    Show,
}

impl Task {
    /// The command of the engine that does this with a text, by the edition; `None` where none does.
    pub fn command(self, edition: Edition) -> Option<Command>
        ensures { result ≡ command_of self edition }
    {
        Some(match (self, edition) {
            (Task::Check, Edition::One) => Command::Check,
            (Task::Check, Edition::Two) => Command::CheckTwo,
            (Task::Format(_), Edition::One) => Command::Format,
            (Task::Format(_), Edition::Two) => Command::FormatTwo,
            (Task::Runtime, _) => Command::Runtime,
            (Task::Json, _) => Command::Json,
            (Task::SpannedJson | Task::FromJson(_), _) => return None,
        })
    }
}
