//! An editor's change: it reads a Fluent file from standard input and writes it with another text as the value of one
//! message. All else stays as it is, byte for byte.

ghost use Rattle.std.specs.Prelude.{◌+◌, ◌^◌, ◌<◌, length};

use fluent_syntax::ast::{Pattern, PatternElement};
use fluent_syntax::parser::{Edition, parse, recovered};
use fluent_syntax_edits::{EntryName, number_of, set_value};
use std::alloc::Global;
use std::io;

pub(crate) fn edit<R: Input + Print + AllocGlobal>(
    rt: &R,
    name: &str,
    value: &str,
) -> anyhow::Result<()> {
    let text = io::read_to_string(rt.alloc(), rt.reader())?;
    if text.len() == usize::MAX {
        anyhow::bail!("the file is too long");
    }
    print!(rt;
        "{}",
        text_with_value(rt.alloc(), text.as_str(), name, value)?
    )?;
    Ok(())
}

/// The file with the text as the value of the first message of that name.
fn text_with_value(alloc: Global, text: &str, name: &str, value: &str) -> anyhow::Result<String>
    requires { length text.now + 1 < 2 ^ 64 }
{
    let (tree, _errors) = recovered(alloc, parse(alloc, text))?;
    let Some(number) = number_of(&tree, EntryName::Message(name)) else {
        anyhow::bail!("there is no message of that name");
    };
    let pattern = Pattern {
        elements: vec![in alloc; PatternElement::TextElement { value }]?,
    };
    Ok(set_value(alloc, text, Edition::One, number, &pattern)?)
}
