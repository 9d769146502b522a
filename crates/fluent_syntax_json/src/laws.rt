//! Laws of JSON forms.
ghost use Rattle.std.specs.Prelude.{◌≡◌, string_bytes};
ghost use Rattle.serde_json.specs.Data.{Data};
ghost use Rattle.fluent_syntax_tree.specs.Entry.{BodyTree};
ghost use Rattle.fluent_syntax_tree.specs.View.{resource_view};
ghost use Rattle.fluent_syntax_json.specs.Object.{Text};
ghost use Rattle.fluent_syntax_json.specs.Json.{JsonForm, JsonReads};

use fluent_syntax_tree::ast::Resource;

/// A JSON form of `r` spells `r` and no other tree; and no value spells two trees. So `from_value` of
/// what `to_value` gives of `r` is `r`, text by text.
pub fn form_reads(r: &Resource<String>)
    ensures spelled { (v : Data) → JsonForm (resource_view string_bytes r.now) v →
        JsonReads v (resource_view string_bytes r.now) }
    ensures alone { (v : Data) (other : BodyTree Text) → JsonForm (resource_view string_bytes r.now) v
        → JsonReads v other → other ≡ resource_view string_bytes r.now }
    ensures unique { (v : Data) (one other : BodyTree Text) → JsonReads v one
        → JsonReads v other → one ≡ other }
{}
