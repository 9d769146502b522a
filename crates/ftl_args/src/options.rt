//! What the options of a word say, and what counts where they leave it open.
ghost use Rattle.std.specs.Prelude.{◌≡◌, option_map, unwrap_or};
ghost use Rattle.ftl_files.specs.declared.options.BlankLines.TheVariants as blank_lines;
ghost use Rattle.ftl_files.specs.declared.options.Color.TheVariants as colors;
ghost use Rattle.ftl_args.specs.Options.{form_of, options_or, reading_of};

use fluent_syntax_tree::edition::Edition;
use ftl_files::{BlankLines, Color, Form, Output, Reading, Settings};

/// A nesting that a stack of 8 MB bears with room to spare.
const DEFAULT_NESTING: usize = 2000;

/// What the options of a word say; `None` where they leave it open.
#[derive(Clone, Copy, Debug)]
pub struct Options {
    /// The edition of the grammar.
    pub edition: Option<Edition>,
    /// How what is found is reported.
    pub output: Option<Output>,
    /// How many placeables and argument lists may be open at once.
    pub nesting: Option<usize>,
    /// When errors are reported in colours.
    pub color: Option<Color>,
    /// What becomes of blank lines where files are formatted.
    pub blank_lines: Option<BlankLines>,
}

impl Options {
    /// The same, with what the project says where they leave it open.
    pub fn or(self, settings: &Settings) -> Self
        ensures { result ≡ options_or self settings.now }
    {
        Options {
            edition: self.edition.or(settings.edition),
            output: self.output.or(settings.output),
            nesting: self.nesting.or(settings.nesting),
            color: self.color.or(settings.color),
            blank_lines: self.blank_lines.or(settings.blank_lines),
        }
    }

    /// How a text is read; by edition one, and with a nesting of 2,000, where that is left open.
    pub fn reading(self) -> Reading
        ensures { result ≡ reading_of self }
    {
        Reading {
            edition: self.edition.unwrap_or(Edition::One),
            nesting: self.nesting.unwrap_or(DEFAULT_NESTING),
        }
    }

    /// The form that was asked for, if one was.
    pub fn form(self) -> Option<Form>
        ensures { result ≡ option_map form_of self.output }
    {
        match self.output {
            Some(output) => Some(form_of(output)),
            None => None,
        }
    }

    /// When errors are reported in colours; on a terminal, where that is left open.
    pub fn color(self) -> Color
        ensures { result ≡ unwrap_or self.color colors.Auto }
    {
        self.color.unwrap_or(Color::Auto)
    }

    /// What becomes of blank lines where files are formatted; as in the normal form, where that is left open.
    pub fn blank_lines(self) -> BlankLines
        ensures { result ≡ unwrap_or self.blank_lines blank_lines.Normal }
    {
        self.blank_lines.unwrap_or(BlankLines::Normal)
    }
}

fn form_of(output: Output) -> Form
    ensures { result ≡ form_of output }
{
    match output {
        Output::Lines => Form::Lines,
        Output::Full => Form::Full,
        Output::Json => Form::Json,
        Output::Github => Form::Github,
    }
}
