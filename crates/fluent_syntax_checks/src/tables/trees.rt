//! Trees as JSON, and the rules of canonical trees that they break.

use crate::tables::no_row;
use fluent_syntax::ast::Resource;
use fluent_syntax::laws::{
    Rule, Uncanonical, broken_rule, broken_rule_with, first_uncanonical, first_uncanonical_with,
    is_canonical, is_readable,
};
use fluent_syntax::parser::Edition;
use fluent_syntax_json::from_value;
use serde_json::Value;
use std::alloc::Global;

/// The rules that readable trees need not keep.
const FURTHER: [Rule; 6] = [
    Rule::EmptyComment,
    Rule::BlankCommentLine,
    Rule::HiddenMark,
    Rule::CommonIndent,
    Rule::SpacesOnBlankLine,
    Rule::NoDefault,
];

/// The first entry of the tree that breaks a rule of the edition, and the rule, where all calls agree.
pub(crate) fn answer(alloc: Global, fields: &[String]) -> anyhow::Result<String> {
    let [_, edition, json, _] = fields else {
        return no_row(alloc);
    };
    let edition = match edition.as_str() {
        "one" => Edition::One,
        _ => Edition::Two,
    };
    let Ok(tree) = from_value(alloc, &Value::from_str(alloc, json.as_str())?) else {
        return Ok(String::from_str(alloc, "no tree")?);
    };
    let found = first_uncanonical(&tree, edition);
    if !is_agreed(alloc, &tree, edition, &found) {
        return Ok(format!(in alloc; "not by all calls: {found:?}")?);
    }
    match found {
        None => Ok(String::from_str(alloc, "canonical")?),
        Some(Uncanonical { entry, rule }) => Ok(format!(in alloc; "{entry} {rule:?}")?),
    }
}

/// Whether each call says of the tree what was found.
fn is_agreed(
    alloc: Global,
    tree: &Resource<String>,
    edition: Edition,
    found: &Option<Uncanonical>,
) -> bool {
    let mut are_first = first_uncanonical_with(alloc, tree, edition) == *found;
    let mut is_readable_too = true;
    for (number, entry) in tree.body.iter().enumerate() {
        let rule = broken_rule(entry, edition);
        are_first &= broken_rule_with(alloc, entry, edition) == rule;
        match found {
            Some(found) if number == found.entry => are_first &= rule == Some(found.rule),
            Some(found) if number > found.entry => {}
            _ => are_first &= rule.is_none(),
        }
        is_readable_too &= match rule {
            Some(rule) => FURTHER.contains(&rule),
            None => true,
        };
    }
    are_first
        && is_canonical(tree, edition) == found.is_none()
        && is_readable(tree, edition) == is_readable_too
}
