//! The kinds that settings name, which are more or less grave than by default.
ghost use Rattle.std.specs.Prelude.{◌≡◌, ◌≢◌, ◌++◌, ◌∷◌, ℕ, [], List, Option, IfErr, IfOk, OnOk, option_map};
ghost use Rattle.ftl_files.specs.declared.settings_fault.SettingsFault.TheVariants as SettingsFault;
ghost use Rattle.toml.specs.Data.{string};
ghost use Rattle.toml.specs.View.{view};
ghost use Rattle.ftl_files.specs.Kinds.{reported_name};
ghost use Rattle.ftl_files.specs.Settings.{AreKinds};
ghost use Rattle.ftl_files.specs.declared.kinds.ReportedKind.{ReportedKind};

use crate::kinds::{ReportedKind, reported_kind_of_name};
use crate::settings_fault::SettingsFault;
use std::alloc::{AllocError, Global};
use toml::Value;

/// The kinds that the value of the key names.
pub(crate) fn kinds_of(
    alloc: Global,
    key: &'static str,
    value: Option<&Value>,
) -> Result<Vec<ReportedKind>, SettingsFault>
    ensures says { IfOk result (λ kinds. AreKinds (option_map (λ v. view v.now) value.entry) kinds.items) }
    ensures refused { IfErr result (λ fault. fault ≢ SettingsFault.Memory → (kinds : List ReportedKind) →
        AreKinds (option_map (λ v. view v.now) value.entry) kinds → ⊥) }
{
    let mut kinds = Vec::new(alloc);
    let Some(value) = value else {
        return Ok(kinds);
    };
    let Value::Array(names) = value else {
        return Err(SettingsFault::Kinds(key));
    };
    for name in names {
        add_kind(&mut kinds, kind_of(alloc, key, name)?)?;
    }
    Ok(kinds)
}

fn add_kind(kinds: &mut Vec<ReportedKind>, kind: ReportedKind) -> Result<(), AllocError>
    ensures { OnOk result (kinds.new.items ≡ kinds.old.items ++ kind ∷ []) }
{
    kinds.push(kind)?;
    Ok(())
}

/// The kind that the value names.
fn kind_of(alloc: Global, key: &'static str, value: &Value) -> Result<ReportedKind, SettingsFault>
    ensures says { IfOk result (λ kind. view value.now ≡ string (reported_name kind)) }
    ensures refused { IfErr result (λ fault. fault ≢ SettingsFault.Memory →
        (kind : ReportedKind) → view value.now ≢ string (reported_name kind)) }
{
    let Value::String(name) = value else {
        return Err(SettingsFault::Kinds(key));
    };
    match reported_kind_of_name(name.as_str()) {
        Some(kind) => Ok(kind),
        None => Err(SettingsFault::UnknownKind(key, String::from_str(alloc, name.as_str())?)),
    }
}
