//! What an `ftl.toml` says is not reported, in the project and below single folders.
ghost use Rattle.std.specs.Prelude.{◌≡◌, ◌≢◌, ◌++◌, ◌∷◌, [], List, Option, IfErr, IfOk, OnOk, false, option_map};
ghost use Rattle.std.specs.Prelude.{string_bytes, true};
ghost use Rattle.toml.specs.Data.{string};
ghost use Rattle.toml.specs.View.{table_view, view};
ghost use Rattle.ftl_files.specs.IgnoreRules.{rule_text};
ghost use Rattle.ftl_files.specs.Settings.{AreFolders, AreMembers, IsFolder, IsIgnored, say_only_ignore};
ghost use Rattle.ftl_files.specs.declared.ignore_rules.IgnoreRule.{IgnoreRule};
ghost use Rattle.ftl_files.specs.declared.settings.FolderRules.{FolderRules};
ghost use Rattle.ftl_files.specs.declared.settings_fault.SettingsFault.TheVariants as SettingsFault;

use crate::ignore_rules::{IgnoreRule, ignore_rule_of_text};
use crate::settings::FolderRules;
use crate::settings_fault::SettingsFault;
use std::alloc::{AllocError, Global};
use toml::{Table, Value};

/// The folders of a `folders`, in the order of their names.
pub(crate) fn folders_of(
    alloc: Global,
    value: Option<&Value>,
) -> Result<Vec<FolderRules>, SettingsFault>
    ensures says { IfOk result (λ folders. AreFolders (option_map (λ v. view v.now) value.entry) folders.items) }
    ensures refused { IfErr result (λ fault. fault ≢ SettingsFault.Memory → (folders : List FolderRules) →
        AreFolders (option_map (λ v. view v.now) value.entry) folders → ⊥) }
{
    let Some(value) = value else {
        return Ok(Vec::new(alloc));
    };
    let Value::Table(tables) = value else {
        return Err(SettingsFault::Folders);
    };
    let folders = folders_of_tables(alloc, tables)?;
    Ok(folders)
}

/// The folders that have these tables.
fn folders_of_tables(alloc: Global, tables: &Table) -> Result<Vec<FolderRules>, SettingsFault>
    ensures says { IfOk result (λ folders. AreMembers (table_view tables.now) folders.items) }
    ensures refused { IfErr result (λ fault. fault ≢ SettingsFault.Memory → (folders : List FolderRules) →
        AreMembers (table_view tables.now) folders → ⊥) }
{
    let mut folders = Vec::new(alloc);
    for (folder, table) in tables {
        add_folder(&mut folders, folder_of(alloc, folder.as_str(), table)?)?;
    }
    Ok(folders)
}

fn add_folder(folders: &mut Vec<FolderRules>, folder: FolderRules) -> Result<(), AllocError>
    ensures { OnOk result (folders.new.items ≡ folders.old.items ++ folder ∷ []) }
{
    folders.push(folder)?;
    Ok(())
}

/// What the table of the folder says.
fn folder_of(alloc: Global, folder: &str, value: &Value) -> Result<FolderRules, SettingsFault>
    ensures says { IfOk result (λ rules. IsFolder folder.now (view value.now) rules) }
    ensures refused { IfErr result (λ fault. fault ≢ SettingsFault.Memory →
        (rules : FolderRules) → IsFolder folder.now (view value.now) rules → ⊥) }
{
    let Value::Table(table) = value else {
        return Err(SettingsFault::Folders);
    };
    check_folder_keys(alloc, table)?;
    let ignored = ignored_of(alloc, table.get("ignore"))?;
    let folder = String::from_str(alloc, folder)?;
    Ok(FolderRules { folder, ignored })
}

/// Refuses a key that has no meaning in the table of a folder.
fn check_folder_keys(alloc: Global, table: &Table) -> Result<(), SettingsFault>
    ensures known { IfOk result (λ _. say_only_ignore (table_view table.now) ≡ true) }
    ensures refused { IfErr result (λ fault. fault ≢ SettingsFault.Memory →
        say_only_ignore (table_view table.now) ≡ false) }
{
    for (key, _value) in table {
        if key.as_str() != "ignore" {
            return Err(SettingsFault::FolderKey(String::from_str(alloc, key.as_str())?));
        }
    }
    Ok(())
}

/// The rules of an `ignore`.
pub(crate) fn ignored_of(
    alloc: Global,
    value: Option<&Value>,
) -> Result<Vec<IgnoreRule>, SettingsFault>
    ensures says { IfOk result (λ rules. IsIgnored (option_map (λ v. view v.now) value.entry) rules.items) }
    ensures refused { IfErr result (λ fault. fault ≢ SettingsFault.Memory → (rules : List IgnoreRule) →
        IsIgnored (option_map (λ v. view v.now) value.entry) rules → ⊥) }
{
    let mut rules = Vec::new(alloc);
    let Some(value) = value else {
        return Ok(rules);
    };
    let Value::Array(texts) = value else {
        return Err(SettingsFault::Ignore);
    };
    for text in texts {
        add_rule(&mut rules, rule_of(alloc, text)?)?;
    }
    Ok(rules)
}

fn add_rule(rules: &mut Vec<IgnoreRule>, rule: IgnoreRule) -> Result<(), AllocError>
    ensures { OnOk result (rules.new.items ≡ rules.old.items ++ rule ∷ []) }
{
    rules.push(rule)?;
    Ok(())
}

/// The rule that the value says.
fn rule_of(alloc: Global, value: &Value) -> Result<IgnoreRule, SettingsFault>
    ensures says { IfOk result (λ rule. view value.now ≡ string (rule_text rule)) }
    ensures refused { IfErr result (λ fault. fault ≢ SettingsFault.Memory →
        (rule : IgnoreRule) → view value.now ≢ string (rule_text rule)) }
{
    let Value::String(text) = value else {
        return Err(SettingsFault::Ignore);
    };
    match ignore_rule_of_text(alloc, text.as_str())? {
        Some(rule) => Ok(rule),
        None => Err(SettingsFault::Kind(String::from_str(alloc, text.as_str())?)),
    }
}
