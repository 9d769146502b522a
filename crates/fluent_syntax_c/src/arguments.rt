//! Numbers that the caller names commands and editions by.
ghost use Rattle.std.specs.Prelude.{◌≡◌, IfSome, IfNone};
ghost use Rattle.fluent_syntax_c.specs.Arguments.{IsNoCommand, IsNoEdition, command_kind_number, edition_number};

use fluent_syntax::parser::Edition;
use ftl::Command;

/// What a command's number asks for: `enum ftl_command` of `include/fluent.h`.
#[derive(Clone, Copy)]
pub enum CommandKind {
    /// What the command writes for the text.
    Answer(Command),
    /// The text of the tree that the text spells as JSON.
    FromJson,
}

/// What is asked for by a number.
pub(crate) fn command_kind_of(number: u32) -> Option<CommandKind>
    ensures some { IfSome result (λ expected. command_kind_number expected ≡ number) }
    ensures none { IfNone result (IsNoCommand number) }
{
    match number {
        0 => Some(CommandKind::Answer(Command::Check)),
        1 => Some(CommandKind::Answer(Command::Format)),
        2 => Some(CommandKind::Answer(Command::Runtime)),
        3 => Some(CommandKind::Answer(Command::Json)),
        4 => Some(CommandKind::Answer(Command::CheckTwo)),
        5 => Some(CommandKind::Answer(Command::FormatTwo)),
        6 => Some(CommandKind::FromJson),
        _ => None,
    }
}

/// The edition of a number.
pub(crate) fn edition_of(number: u32) -> Option<Edition>
    ensures some { IfSome result (λ edition. edition_number edition ≡ number) }
    ensures none { IfNone result (IsNoEdition number) }
{
    match number {
        1 => Some(Edition::One),
        2 => Some(Edition::Two),
        _ => None,
    }
}
