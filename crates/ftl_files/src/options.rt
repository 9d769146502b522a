//! What the words' options ask for: how a text is read, and how what is found is reported.
ghost use Rattle.std.specs.Prelude.{◌≡◌, ◌≢◌, IfSome, None};
ghost use Rattle.ftl_files.specs.Options.{blank_lines_name, color_name, output_name};
ghost use Rattle.ftl_files.specs.declared.options.BlankLines.{BlankLines};
ghost use Rattle.ftl_files.specs.declared.options.Color.{Color};
ghost use Rattle.ftl_files.specs.declared.options.Output.{Output};

use fluent_syntax_tree::edition::Edition;

/// How a text is read.
#[derive(Clone, Copy, Debug, PartialEq, Eq)]
pub struct Reading {
    /// The edition of the grammar.
    pub edition: Edition,
    /// How many placeables and argument lists may be open at once.
    pub nesting: usize,
}

/// How an error is reported.
#[derive(Clone, Copy, Debug, PartialEq, Eq)]
pub enum Form {
    /// `PATH:LINE:COLUMN: KIND`, on a line.
    Lines,
    /// That with the message, and below it the line of the source and a caret.
    Full,
    /// The same in the colours of a terminal.
    Colored,
    /// A JSON object on a line.
    Json,
    /// A line that GitHub shows next to the source.
    Github,
}

/// How what is found is reported, by the names that a command line has for it.
#[derive(Clone, Copy, Debug, PartialEq, Eq)]
pub enum Output {
    /// With its place, and its kind, on a line.
    Lines,
    /// That with the message, and below it the line of the source and a caret.
    Full,
    /// As a JSON object on a line.
    Json,
    /// As a line that GitHub shows next to the source.
    Github,
}

/// When errors are reported in colours.
#[derive(Clone, Copy, Debug, PartialEq, Eq)]
pub enum Color {
    /// On a terminal, where nobody asked for none.
    Auto,
    Always,
    Never,
}

/// What becomes of blank lines between messages and terms that are formatted.
#[derive(Clone, Copy, Debug, PartialEq, Eq)]
pub enum BlankLines {
    /// None is left, as in the normal form.
    Normal,
    /// One is left where there are some.
    Keep,
}

/// The form that has the name. `None` where none has it.
pub fn output_of_name(name: &str) -> Option<Output>
    ensures named { IfSome result (λ output. output_name output ≡ name.now) }
    ensures none { result ≡ None → (output : Output) → output_name output ≢ name.now }
{
    match name {
        "lines" => Some(Output::Lines),
        "full" => Some(Output::Full),
        "json" => Some(Output::Json),
        "github" => Some(Output::Github),
        _ => None,
    }
}

/// When there are colours, by its name. `None` where nothing has it.
pub fn color_of_name(name: &str) -> Option<Color>
    ensures named { IfSome result (λ color. color_name color ≡ name.now) }
    ensures none { result ≡ None → (color : Color) → color_name color ≢ name.now }
{
    match name {
        "auto" => Some(Color::Auto),
        "always" => Some(Color::Always),
        "never" => Some(Color::Never),
        _ => None,
    }
}

/// What becomes of blank lines, by its name. `None` where nothing has it.
pub fn blank_lines_of_name(name: &str) -> Option<BlankLines>
    ensures named { IfSome result (λ blank_lines. blank_lines_name blank_lines ≡ name.now) }
    ensures none { result ≡ None → (blank_lines : BlankLines) → blank_lines_name blank_lines ≢ name.now }
{
    match name {
        "normal" => Some(BlankLines::Normal),
        "keep" => Some(BlankLines::Keep),
        _ => None,
    }
}
