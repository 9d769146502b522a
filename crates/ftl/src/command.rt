//! What the program may be asked to do.
ghost use Rattle.std.specs.Prelude.{◌≡◌, ◌≢◌, IfSome, IfNone, codes};
ghost use Rattle.ftl.specs.Command.{word_of};

/// What to write for a text.
#[derive(Clone, Copy, Debug, PartialEq, Eq)]
pub enum Command {
    /// A line for each syntax error.
    Check,
    /// The text of the tree, normalized.
    Format,
    /// The text of the tree without comments, normalized.
    Runtime,
    /// The tree as a JSON value.
    Json,
    /// `Check` by edition two of the grammar.
    CheckTwo,
    /// `Format` by edition two of the grammar.
    FormatTwo,
}

impl Command {
    /// The command that the word names: `check`, `format`, `runtime`, `json`, `check-two` or `format-two`.
    pub fn from_word(word: &str) -> Option<Command>
        ensures named { IfSome result (λ command. word_of command ≡ word.now) }
        ensures other { IfNone result ((command : Command) → word_of command ≢ word.now) }
    {
        match word {
            "check" => Some(Command::Check),
            "format" => Some(Command::Format),
            "runtime" => Some(Command::Runtime),
            "json" => Some(Command::Json),
            "check-two" => Some(Command::CheckTwo),
            "format-two" => Some(Command::FormatTwo),
            _ => None,
        }
    }
}

/// How the program is called.
pub fn usage() -> &'static str
    ensures { result.now ≡ codes "usage: ftl check|format|runtime|json|check-two|format-two" }
{
    "usage: ftl check|format|runtime|json|check-two|format-two"
}
