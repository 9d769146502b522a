//! Entries of a text, each written as it is read: none of them is kept.
ghost use Rattle.std.specs.Prelude.{◌≡◌, ◌∷◌, [], List, Option, length, map, option_to_list, IfErr, IfOk};
ghost use Rattle.fluent_syntax_tree.specs.Entry.{EntryTree, body_map};
ghost use Rattle.fluent_syntax_tree.specs.Spans.{bytes_at};
ghost use Rattle.fluent_syntax_tree.specs.View.{entry_view};
ghost use Rattle.fluent_syntax_grammar.specs.Body.{body};
ghost use Rattle.fluent_syntax_grammar.specs.Grammar.{family};
ghost use Rattle.fluent_syntax_grammar.specs.Tiling.{Tile, Tiled};
ghost use Rattle.fluent_syntax_grammar.specs.Written.{Text};
ghost use Rattle.fluent_syntax_parser.specs.Halts.{DeeperFrom, HaltsWithin, OnHalt};
ghost use Rattle.fluent_syntax_parser.specs.Rest.{TileIn};
ghost use Rattle.ftl.specs.Answer.{outcome_after, outcome_of};
ghost use Rattle.ftl.specs.OneByOne.{WroteEntries};

use crate::outcome::Outcome;
use fluent_syntax::ast::Entry;
use fluent_syntax::parser::ParserError;
use fluent_syntax::spans::{Entries, Halt, Options, Slices};
use std::alloc::Global;

/// What writes entries as they come.
pub trait WriteEntries {
    /// The entry came to the one writer, which then is the other.
    ghost writes: { Self → EntryTree Text → Self → Type 0 };

    /// Writes the entry after those that came before.
    fn write_next<'s>(&mut self, alloc: Global, entry: &Entry<&'s str>)
        ensures written { writes self.old (entry_view (λ s. s.now) entry.now) self.new };
}

/// Writes each entry of the text with its texts, and gives what was found in the text.
pub fn write_one_by_one<W: WriteEntries>(
    alloc: Global,
    writer: &mut W,
    text: &str,
    options: Options,
) -> Result<Outcome, Halt>
    ensures written { let t = text.now in IfOk result (λ outcome. (tiles : List Tile)
        × Tiled t (TileIn options.comments options.edition t (family options.edition t)) 0 tiles
        × WroteEntries W.writes writer.old (body_map (bytes_at t) (body tiles)) writer.new
        × (outcome ≡ outcome_of tiles)) }
    ensures nests { IfErr result (HaltsWithin options.nesting (length text.now)) }
    ensures deeper { IfErr result (OnHalt (DeeperFrom options text.now 0)) }
    ensures shallow { IfOk result (λ outcome. DeeperFrom options text.now 0 → ⊥) }
{
    let slices: Slices<'_, '_, &str> = Slices::new(&text);
    let mut entries = Entries::new(text, options);
    let mut outcome = Outcome::Clean;
    let mut body = Vec::new(alloc);
    let mut errors = Vec::new(alloc);
    while let Some(_span) = entries.add_next_entry(alloc, &slices, &mut body, &mut errors)? {
        outcome = write_read(alloc, writer, outcome, &body, &errors);
        body.clear();
        errors.clear();
    }
    Ok(outcome)
}

/// Writes the entry that was read next, the only one in its list, and gives the outcome so far.
#[inline(always)]
fn write_read<W: WriteEntries>(
    alloc: Global,
    writer: &mut W,
    outcome: Outcome,
    body: &[Entry<&str>],
    errors: &[ParserError],
) -> Outcome
    ensures written { (e : EntryTree Text) → map (entry_view (λ s. s.now)) body.now ≡ e ∷ [] →
        W.writes writer.old e writer.new }
    ensures outcome { (error : Option ParserError) → errors.now ≡ option_to_list error →
        result ≡ outcome_after outcome error }
{
    if let [entry] = body {
        writer.write_next(alloc, entry);
    }
    if errors.is_empty() {
        outcome
    } else {
        Outcome::SyntaxErrors
    }
}
