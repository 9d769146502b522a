//! The settings, as their text says them.
ghost use Rattle.std.specs.Prelude.{◌≡◌, ◌≢◌, ◌++◌, ◌∷◌, ℕ, [], List, Option, Some, String, IfErr, IfOk, OnOk, false};
ghost use Rattle.std.specs.Prelude.{option_map, string_bytes, true};
ghost use Rattle.std.specs.declared.alloc.Global.{Global};
ghost use Rattle.ftl_files.specs.declared.settings_fault.SettingsFault.TheVariants as SettingsFault;
ghost use Rattle.ftl_files.specs.declared.settings.Settings.{Settings};
ghost use Rattle.toml.specs.Data.{Members, no_members, string};
ghost use Rattle.toml.specs.Parse.{parse_document};
ghost use Rattle.toml.specs.View.{table_view, view};
ghost use Rattle.fluent_syntax_tree.specs.declared.edition.Edition.{Edition};
ghost use Rattle.ftl_files.specs.Settings.{IsBlankLines, IsColor, IsEdition, IsExcluded, IsNesting};
ghost use Rattle.ftl_files.specs.Settings.{IsOutput, IsReference, Says, are_known, is_known};
ghost use Rattle.ftl_files.specs.declared.options.BlankLines.{BlankLines};
ghost use Rattle.ftl_files.specs.declared.options.Color.{Color};
ghost use Rattle.ftl_files.specs.declared.options.Output.{Output};
ghost use Rattle.ftl_files.specs.Levels.{have_common_kind};

use crate::ignore_rules::IgnoreRule;
use crate::kinds::ReportedKind;
use crate::levels::common_kind;
use crate::options::{
    BlankLines, Color, Output, blank_lines_of_name, color_of_name, output_of_name,
};
use crate::settings_fault::SettingsFault;
use crate::settings_folders::{folders_of, ignored_of};
use crate::settings_kinds::kinds_of;
use fluent_syntax_tree::edition::Edition;
use std::alloc::{AllocError, Global};
use toml::{Table, Value};

/// The greatest number that a nesting may be, here and on the command line.
const GREATEST_NESTING: i64 = 4_294_967_295;

/// What a project says. Each setting may be left out.
#[derive(Debug, Drop)]
pub struct Settings {
    /// `reference`: the file or the folder of the reference language.
    pub reference: Option<String>,
    /// `ignore`: what is not reported, in the order of the text.
    pub ignored: Vec<IgnoreRule>,
    /// `folders`: what is not reported below these folders either.
    pub folders: Vec<FolderRules>,
    /// `warn`: the kinds that are warnings, in the order of the text.
    pub warned: Vec<ReportedKind>,
    /// `deny`: the kinds that are errors, in the order of the text. None of them is one of the others.
    pub denied: Vec<ReportedKind>,
    /// `exclude`: what is passed over where a folder is listed, in the order of the text.
    pub excluded: Vec<String>,
    /// `edition`: that of the grammar.
    pub edition: Option<Edition>,
    /// `output`: how what is found is reported.
    pub output: Option<Output>,
    /// `nesting`: how many placeables and argument lists may be open at once.
    pub nesting: Option<usize>,
    /// `color`: when errors are reported in colours.
    pub color: Option<Color>,
    /// `blank-lines`: what becomes of them where files are formatted.
    pub blank_lines: Option<BlankLines>,
}

/// What is not reported below a folder, besides what is reported nowhere in the project.
#[derive(Debug, Drop)]
pub struct FolderRules {
    /// The folder, as it is spelled: its path from that of the `ftl.toml` on.
    pub folder: String,
    /// Its `ignore`, in the order of the text.
    pub ignored: Vec<IgnoreRule>,
}

impl Settings {
    /// What a project says that says nothing.
    pub fn new(alloc: Global) -> Self
        ensures { Says no_members result }
    {
        Settings {
            reference: None,
            ignored: Vec::new(alloc),
            folders: Vec::new(alloc),
            warned: Vec::new(alloc),
            denied: Vec::new(alloc),
            excluded: Vec::new(alloc),
            edition: None,
            output: None,
            nesting: None,
            color: None,
            blank_lines: None,
        }
    }
}

/// What the text of an `ftl.toml` says.
///
/// `Memory`: a growth was refused. `Toml`: the text is no TOML document. `Key`: it has a key that has no meaning.
/// `Reference`, `Ignore`, `Exclude`, `Edition`, `Output`, `Nesting`, `Color`, `BlankLines`: the value of that key is of
/// another kind, or is none of those that the key may have. `Kind`: that of `ignore` has a text that is no rule.
/// `Kinds`, `UnknownKind`: that of `warn` or `deny` is no list of texts, or has one that names no kind. `CommonKind`:
/// both have a kind. `Folders`: that of `folders` is no table of tables. `FolderKey`: one of these has a key other than
/// `ignore`. An `ignore` in one of them is refused as that of the project is.
pub fn settings_of(alloc: Global, text: &str) -> Result<Settings, SettingsFault>
    ensures says { IfOk result (λ settings. (document : Members)
        × (parse_document text.now ≡ Some document) × Says document settings) }
    ensures refused { IfErr result (λ fault. fault ≢ SettingsFault.Memory → (document : Members) (settings : Settings) →
        parse_document text.now ≡ Some document → Says document settings → ⊥) }
{
    let table = match toml::table_from_str(alloc, text) {
        Ok(table) => table,
        Err(error) if error.is_memory() => return Err(SettingsFault::Memory),
        Err(error) => return Err(SettingsFault::Toml(message_of(alloc, &error)?)),
    };
    check_keys(alloc, &table)?;
    let reference = reference_of(alloc, table.get("reference"))?;
    let ignored = ignored_of(alloc, table.get("ignore"))?;
    let warned = kinds_of(alloc, "warn", table.get("warn"))?;
    let denied = kinds_of(alloc, "deny", table.get("deny"))?;
    check_apart(&warned, &denied)?;
    let excluded = excluded_of(alloc, table.get("exclude"))?;
    let edition = edition_of(table.get("edition"))?;
    let output = output_of(table.get("output"))?;
    let nesting = nesting_of(table.get("nesting"))?;
    let color = color_of(table.get("color"))?;
    let blank_lines = blank_lines_of(table.get("blank-lines"))?;
    let folders = folders_of(alloc, table.get("folders"))?;
    Ok(Settings {
        reference,
        ignored,
        folders,
        warned,
        denied,
        excluded,
        edition,
        output,
        nesting,
        color,
        blank_lines,
    })
}

/// What the error says, on one line.
fn message_of(alloc: Global, error: &toml::de::Error) -> Result<String, AllocError> {
    let words = format!(in alloc; "{error}")?;
    match words.as_str().trim_end().split_once('\n') {
        Some((place, what)) => format!(in alloc; "{place}: {what}"),
        None => Ok(words),
    }
}

/// Refuses a key that has no meaning.
fn check_keys(alloc: Global, table: &Table) -> Result<(), SettingsFault>
    ensures known { IfOk result (λ _. are_known (table_view table.now) ≡ true) }
    ensures refused { IfErr result (λ fault. fault ≢ SettingsFault.Memory → are_known (table_view table.now) ≡ false) }
{
    for (key, _value) in table {
        if !is_known(key.as_str()) {
            return Err(SettingsFault::Key(String::from_str(alloc, key.as_str())?));
        }
    }
    Ok(())
}

/// Refuses kinds that are both warnings and errors.
fn check_apart(warned: &[ReportedKind], denied: &[ReportedKind]) -> Result<(), SettingsFault>
    ensures apart { IfOk result (λ _. have_common_kind warned.now denied.now ≡ false) }
    ensures refused { IfErr result (λ fault. have_common_kind warned.now denied.now ≡ true) }
{
    match common_kind(warned, denied) {
        Some(kind) => Err(SettingsFault::CommonKind(kind)),
        None => Ok(()),
    }
}

fn is_known(key: &str) -> bool
    ensures { result ≡ is_known key.now }
{
    matches!(
        key,
        "reference"
            | "ignore"
            | "warn"
            | "deny"
            | "exclude"
            | "edition"
            | "output"
            | "nesting"
            | "color"
            | "blank-lines"
            | "folders"
    )
}

fn reference_of(alloc: Global, value: Option<&Value>) -> Result<Option<String>, SettingsFault>
    ensures says { IfOk result (IsReference (option_map (λ v. view v.now) value.entry)) }
    ensures refused { IfErr result (λ fault. fault ≢ SettingsFault.Memory → (reference : Option (String Global)) →
        IsReference (option_map (λ v. view v.now) value.entry) reference → ⊥) }
{
    let Some(value) = value else {
        return Ok(None);
    };
    match value {
        Value::String(path) => Ok(Some(String::from_str(alloc, path.as_str())?)),
        _ => Err(SettingsFault::Reference),
    }
}

fn excluded_of(alloc: Global, value: Option<&Value>) -> Result<Vec<String>, SettingsFault>
    ensures says { IfOk result (λ texts. IsExcluded (option_map (λ v. view v.now) value.entry) texts.items) }
    ensures refused { IfErr result (λ fault. fault ≢ SettingsFault.Memory → (texts : List (String Global)) →
        IsExcluded (option_map (λ v. view v.now) value.entry) texts → ⊥) }
{
    let mut texts = Vec::new(alloc);
    let Some(value) = value else {
        return Ok(texts);
    };
    let Value::Array(values) = value else {
        return Err(SettingsFault::Exclude);
    };
    for text in values {
        add_text(&mut texts, text_of(alloc, text)?)?;
    }
    Ok(texts)
}

fn add_text(texts: &mut Vec<String>, text: String) -> Result<(), AllocError>
    ensures { OnOk result (texts.new.items ≡ texts.old.items ++ text ∷ []) }
{
    texts.push(text)?;
    Ok(())
}

/// The text that the value is.
fn text_of(alloc: Global, value: &Value) -> Result<String, SettingsFault>
    ensures says { IfOk result (λ text. view value.now ≡ string (string_bytes text)) }
    ensures refused { IfErr result (λ fault. fault ≢ SettingsFault.Memory →
        (text : String Global) → view value.now ≢ string (string_bytes text)) }
{
    match value {
        Value::String(text) => Ok(String::from_str(alloc, text.as_str())?),
        _ => Err(SettingsFault::Exclude),
    }
}

fn edition_of(value: Option<&Value>) -> Result<Option<Edition>, SettingsFault>
    ensures says { IfOk result (IsEdition (option_map (λ v. view v.now) value.entry)) }
    ensures refused { IfErr result (λ fault. (edition : Option Edition) →
        IsEdition (option_map (λ v. view v.now) value.entry) edition → ⊥) }
{
    match value {
        None => Ok(None),
        Some(Value::Integer(1)) => Ok(Some(Edition::One)),
        Some(Value::Integer(2)) => Ok(Some(Edition::Two)),
        Some(_) => Err(SettingsFault::Edition),
    }
}

fn output_of(value: Option<&Value>) -> Result<Option<Output>, SettingsFault>
    ensures says { IfOk result (IsOutput (option_map (λ v. view v.now) value.entry)) }
    ensures refused { IfErr result (λ fault. (output : Option Output) →
        IsOutput (option_map (λ v. view v.now) value.entry) output → ⊥) }
{
    let Some(value) = value else {
        return Ok(None);
    };
    let Value::String(name) = value else {
        return Err(SettingsFault::Output);
    };
    match output_of_name(name.as_str()) {
        Some(output) => Ok(Some(output)),
        None => Err(SettingsFault::Output),
    }
}

fn nesting_of(value: Option<&Value>) -> Result<Option<usize>, SettingsFault>
    ensures says { IfOk result (IsNesting (option_map (λ v. view v.now) value.entry)) }
    ensures refused { IfErr result (λ fault. (nesting : Option ℕ) →
        IsNesting (option_map (λ v. view v.now) value.entry) nesting → ⊥) }
{
    match value {
        None => Ok(None),
        Some(Value::Integer(number)) if 0 <= *number && *number <= GREATEST_NESTING => {
            Ok(Some(*number as usize))
        }
        Some(_) => Err(SettingsFault::Nesting),
    }
}

fn color_of(value: Option<&Value>) -> Result<Option<Color>, SettingsFault>
    ensures says { IfOk result (IsColor (option_map (λ v. view v.now) value.entry)) }
    ensures refused { IfErr result (λ fault. (color : Option Color) →
        IsColor (option_map (λ v. view v.now) value.entry) color → ⊥) }
{
    let Some(value) = value else {
        return Ok(None);
    };
    let Value::String(name) = value else {
        return Err(SettingsFault::Color);
    };
    match color_of_name(name.as_str()) {
        Some(color) => Ok(Some(color)),
        None => Err(SettingsFault::Color),
    }
}

fn blank_lines_of(value: Option<&Value>) -> Result<Option<BlankLines>, SettingsFault>
    ensures says { IfOk result (IsBlankLines (option_map (λ v. view v.now) value.entry)) }
    ensures refused { IfErr result (λ fault. (blank_lines : Option BlankLines) →
        IsBlankLines (option_map (λ v. view v.now) value.entry) blank_lines → ⊥) }
{
    let Some(value) = value else {
        return Ok(None);
    };
    let Value::String(name) = value else {
        return Err(SettingsFault::BlankLines);
    };
    match blank_lines_of_name(name.as_str()) {
        Some(blank_lines) => Ok(Some(blank_lines)),
        None => Err(SettingsFault::BlankLines),
    }
}
