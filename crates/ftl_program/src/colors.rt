//! Whether errors are reported in colours.

use ftl_args::Options;
use ftl_files::Color;
use ftl_project::Form;
use std::env;
use std::io::IsTerminal;
use std::rt::Env;

/// The form in which errors are reported over paths: the full one where none was asked for, in colours where these are
/// wanted.
pub(crate) fn form_over_paths(rt: &HostRuntime, options: Options) -> Form {
    match options.form().unwrap_or(Form::Full) {
        Form::Full if is_colored(rt, options.color()) => Form::Colored,
        form => form,
    }
}

fn is_colored(rt: &HostRuntime, color: Color) -> bool {
    match color {
        Color::Always => true,
        Color::Never => false,
        Color::Auto => rt.stdout().is_terminal() && !wants_none(rt),
    }
}

/// Whether `NO_COLOR` has a text, or the terminal says that it knows no colours.
fn wants_none<R: Env + AllocGlobal>(rt: &R) -> bool {
    let asked = match env::var(rt, "NO_COLOR") {
        Ok(text) => !text.is_empty(),
        Err(_) => false,
    };
    let is_dumb = match env::var(rt, "TERM") {
        Ok(name) => name.as_str() == "dumb",
        Err(_) => false,
    };
    asked || is_dumb
}
