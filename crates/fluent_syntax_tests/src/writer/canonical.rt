//! The rules of canonical and readable trees, over lent texts, and the sentences that are shown of rules.

use crate::alike::{assert_same, assert_same_text};
use crate::made::{Text, comment, message_with_value};
use fluent_syntax::ast::{Entry, Resource};
use fluent_syntax::laws::{
    Rule, Uncanonical, broken_rule, broken_rule_with, first_uncanonical, first_uncanonical_with,
    is_canonical, is_readable,
};
use fluent_syntax::parser::Edition;
use std::alloc::Global;
use std::test::Fail;

/// Fails where the second entry of the tree does not break just that rule.
fn assert_second_broken(
    alloc: Global,
    tree: &Resource<Text>,
    rule: Option<Rule>,
    readable: bool,
) -> Result<(), Fail> {
    let edition = Edition::One;
    let expected = match rule {
        Some(rule) => Some(Uncanonical { entry: 1, rule }),
        None => None,
    };
    let entry = tree.body.get(1).ok_or("no second entry")?;
    assert_same(alloc, "rule", &broken_rule(entry, edition), &rule)?;
    let found = broken_rule_with(alloc, entry, edition);
    assert_same(alloc, "with memory", &found, &rule)?;
    assert_same(alloc, "tree", &first_uncanonical(tree, edition), &expected)?;
    let found = first_uncanonical_with(alloc, tree, edition);
    assert_same(alloc, "tree with memory", &found, &expected)?;
    let canonical = is_canonical(tree, edition);
    assert_same(alloc, "canonical", &canonical, &rule.is_none())?;
    assert_same(alloc, "readable", &is_readable(tree, edition), &readable)
}

/// A message and the entry.
fn tree_of(alloc: Global, entry: Entry<Text>) -> Result<Resource<Text>, Fail> {
    let first = message_with_value(alloc, "a", &["b", "$x"])?;
    Ok(Resource {
        body: vec![in alloc; first, entry]?,
    })
}

#[test]
fn entries(rt: HostRuntime) -> Result<(), Fail> {
    let alloc = rt.alloc();
    let tree = tree_of(alloc, Entry::Comment(comment(alloc, &["c"])?))?;
    assert_second_broken(alloc, &tree, None, true)?;
    let tree = tree_of(alloc, Entry::Comment(comment(alloc, &[])?))?;
    assert_second_broken(alloc, &tree, Some(Rule::EmptyComment), true)?;
    let tree = tree_of(alloc, Entry::Junk { content: "x" })?;
    assert_second_broken(alloc, &tree, Some(Rule::Junk), false)
}

/// A rule, and the sentence that is shown of it.
const SENTENCES: &[(Rule, Text)] = table! {
    Rule::NoDefault, "a select expression has no default variant";
    Rule::CommonIndent,
        "the lines of a pattern that begin with text begin with spaces, which would be read as its indent";
    Rule::EmptyComment, "a comment has no line";
    Rule::BraceInText, "a text of a pattern holds a brace";
};

#[test]
fn sentences(rt: HostRuntime) -> Result<(), Fail> {
    for (rule, sentence) in SENTENCES {
        let shown = format!(in rt.alloc(); "{rule}")?;
        assert_same_text(rt.alloc(), *sentence, &shown, *sentence)?;
    }
    Ok(())
}
