//! JSON values, and the JSON texts of the trees that they spell.

use crate::tables::no_row;
use fluent_syntax_json::{ValueFault, from_value, to_value, write_to};
use serde_json::Value;
use std::alloc::Global;

/// The JSON text of the tree that the value spells, as it is written and as `serde_json` writes its form; or why it
/// spells none.
pub(crate) fn answer(alloc: Global, fields: &[String]) -> anyhow::Result<String> {
    let [_, value, _] = fields else {
        return no_row(alloc);
    };
    let tree = match from_value(alloc, &Value::from_str(alloc, value.as_str())?) {
        Ok(tree) => tree,
        Err(ValueFault::Shape) => return Ok(String::from_str(alloc, "no tree")?),
        Err(fault) => return Ok(format!(in alloc; "{fault:?}")?),
    };
    let form = to_value(alloc, &tree)?;
    let is_read_back = from_value(alloc, &form) == Ok(tree.try_clone(alloc)?);
    let mut text = String::new(alloc);
    let is_written = write_to(&mut text, &tree).is_ok() && text == form.to_string(alloc)?;
    if is_written && is_read_back {
        Ok(text)
    } else {
        Ok(format!(in alloc; "not both ways: {text}")?)
    }
}
