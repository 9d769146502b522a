//! Text of a line that GitHub shows next to the source: `::error file=PATH,line=LINE,col=COLUMN,title=KIND::MESSAGE`.

use std::alloc::AllocError;

/// Adds what comes after the second `::`, where `%` and line ends would be read otherwise.
pub(crate) fn push_data(out: &mut String, text: &str) -> Result<(), AllocError> {
    for c in text.chars() {
        push_data_char(out, c)?;
    }
    Ok(())
}

fn push_data_char(out: &mut String, c: char) -> Result<(), AllocError> {
    match c {
        '%' => out.push_str("%25"),
        '\r' => out.push_str("%0D"),
        '\n' => out.push_str("%0A"),
        c => out.push(c),
    }
}

/// Adds the value of a property, where `:` and `,` would be read otherwise too.
pub(crate) fn push_property(out: &mut String, text: &str) -> Result<(), AllocError> {
    for c in text.chars() {
        match c {
            ':' => out.push_str("%3A")?,
            ',' => out.push_str("%2C")?,
            c => push_data_char(out, c)?,
        }
    }
    Ok(())
}
