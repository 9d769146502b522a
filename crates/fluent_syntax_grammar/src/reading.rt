//! Unique reading: what the grammar says of a text, it says in one way.

ghost use Rattle.fluent_syntax_grammar.specs.UniqueReading.{
  BodyInText,
  ErrorsAscend,
  HasNoComments,
  JunkOfErrors,
  KindsMean,
  NoNewErrors,
  IsUnambiguous,
  RuntimeBodyInText,
  RuntimeErrorsAscend,
  RuntimeJunkOfErrors,
  RuntimeKindsMean,
  SameMessagesAndTerms,
  SameWithoutComments,
};
ghost use Rattle.fluent_syntax_grammar.specs.Tiling.{OneRuntimeTiling, OneTiling, SomeRuntimeTiling, SomeTiling};
ghost use Rattle.fluent_syntax_tree.specs.declared.edition.Edition.{Edition};

/// The laws of unique reading, of a text and both editions of the grammar.
///
/// - `one_reading`: at each place each construct, from entries down to blanks, is read in at most one way, with one end
///   and one tree, and never both read and refused; a refusal has one kind and one place.
/// - `some_tiling`, `some_runtime_tiling`: the text has a tiling, and one without comments.
/// - `one_tiling`, `one_runtime_tiling`: it has at most one of each.
/// - `kinds`, `runtime_kinds`: `ExpectedToken(c)` means that the byte where the error's place begins isn't `c` or the
///   text ends there; `UnbalancedClosingBrace` means a `}` there, and `UnterminatedStringLiteral` an LF.
/// - `junk`, `runtime_junk`: there are as many errors as junk entries, in the same order, with the same stretches.
/// - `errors`, `runtime_errors`: these stretches are nonempty and ascend, disjoint, within the text; each error's place
///   begins within its stretch, both ends included.
/// - `body`, `runtime_body`: each text of the tree is an ordered range of the source between character boundaries.
/// - `no_comments`: the tiling without comments gives no comment and attaches none, with errors or without.
/// - `same_entries`: the messages and terms without comments are those of the tiling, in order, with no comment
/// attached.
/// - `no_new_errors`, `same_body`: where the tiling has no error, the one without comments has none, and its body is
///   that of the tiling without comment entries and with no comment attached.
pub fn unique_reading(text: &str)
    ensures one_reading { (edition : Edition) → IsUnambiguous edition text.now }
    ensures some_tiling { (edition : Edition) → SomeTiling edition text.now }
    ensures some_runtime_tiling { (edition : Edition) → SomeRuntimeTiling edition text.now }
    ensures one_tiling { (edition : Edition) → OneTiling edition text.now }
    ensures one_runtime_tiling { (edition : Edition) → OneRuntimeTiling edition text.now }
    ensures kinds { (edition : Edition) → KindsMean edition text.now }
    ensures runtime_kinds { (edition : Edition) → RuntimeKindsMean edition text.now }
    ensures junk { (edition : Edition) → JunkOfErrors edition text.now }
    ensures runtime_junk { (edition : Edition) → RuntimeJunkOfErrors edition text.now }
    ensures errors { (edition : Edition) → ErrorsAscend edition text.now }
    ensures runtime_errors { (edition : Edition) → RuntimeErrorsAscend edition text.now }
    ensures body { (edition : Edition) → BodyInText edition text.now }
    ensures runtime_body { (edition : Edition) → RuntimeBodyInText edition text.now }
    ensures no_comments { (edition : Edition) → HasNoComments edition text.now }
    ensures same_entries { (edition : Edition) → SameMessagesAndTerms edition text.now }
    ensures no_new_errors { (edition : Edition) → NoNewErrors edition text.now }
    ensures same_body { (edition : Edition) → SameWithoutComments edition text.now }
{}

#[test]
fn reads_one_way() {
    unique_reading("a = b\n");
}
