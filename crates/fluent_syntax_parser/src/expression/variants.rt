//! The variants of a select.
ghost use Rattle.std.specs.Prelude.{◌≡◌, ◌-◌, ◌<◌, ◌≤◌, ◌++◌, ◌∷◌, [], false, length, IfOk, OnOk};
ghost use Rattle.fluent_syntax_tree.specs.Tree.{key_map, variant, variants_map};
ghost use Rattle.fluent_syntax_tree.specs.View.{key_view, pattern_view, variant_view};
ghost use Rattle.fluent_syntax_tree.specs.declared.ast.Variant.{Variant};
ghost use Rattle.fluent_syntax_grammar.specs.Grammar.{within};
ghost use Rattle.fluent_syntax_grammar.specs.Places.{has};
ghost use Rattle.fluent_syntax_grammar.specs.Variants.{has_default, is_number_start, more_variants, variant_key};
ghost use Rattle.fluent_syntax_parser.specs.Gathered.{variants_view};
ghost use Rattle.fluent_syntax_parser.specs.Made.{Fills};
ghost use Rattle.fluent_syntax_parser.specs.Outcomes.{HasOutcome};

use crate::fault::{Fault, ReadFault, Refusal};
use crate::lists::add;
use crate::reader::Reader;
use crate::source::Source;
use crate::texts::MakeTexts;
use fluent_syntax_tree::ast::{Pattern, Variant, VariantKey};
use fluent_syntax_tree::edition::Edition;
use fluent_syntax_tree::spans::Span;
use std::alloc::AllocError;

/// Whether a list of variants may end, where there may be a star before its end.
fn has_default(edition: Edition, starred: bool, star: bool) -> bool
    ensures { result ≡ has_default edition starred star }
{
    match edition {
        Edition::One => starred || star,
        Edition::Two => starred,
    }
}

impl<'s> Source<'s> {
    fn is_number_start(&self, ptr: usize) -> bool
        ensures { result ≡ has self.now.bytes.now is_number_start ptr }
    {
        self.is_digit_at(ptr) || self.is_byte_at(b'-', ptr)
    }

    pub(crate) fn get_variant_key(&self, ptr: usize) -> Result<(VariantKey<Span>, usize), Refusal>
        requires { ptr ≤ length self.now.bytes.now }
        ensures parses { let t = self.now.bytes.now in
            HasOutcome t (variant_key t) (key_view (λ s. s)) ptr result }
        ensures within { IfOk result (λ read. (ptr < read.1) × (read.1 ≤ length self.now.bytes.now)) }
    {
        if self.is_number_start(ptr) {
            let end = self.number_end(ptr)?;
            let value = Span { start: ptr, end };
            Ok((VariantKey::NumberLiteral { value }, end))
        } else {
            let end = self.identifier_end(ptr)?;
            let name = Span { start: ptr, end };
            Ok((VariantKey::Identifier { name }, end))
        }
    }
}

impl<'s, 't, M: MakeTexts> Reader<'s, 't, M> {
    /// Adds a variant.
    #[inline(never)]
    fn add_variant(
        &self,
        key: VariantKey<Span>,
        value: Pattern<M::Text>,
        default: bool,
        variants: &mut Vec<Variant<M::Text>>,
    ) -> Result<(), AllocError>
        ensures { let f = M.source self.now.texts.now in OnOk result ((added : Variant M.Text)
            × (variants.new.items ≡ variants.old.items ++ added ∷ [])
            × (variant_view M.made added ≡ variant (key_map f (key_view (λ s. s) key)) (pattern_view M.made value)
            default)) }
    {
        let key = self.key(key)?;
        let variant = Variant {
            key,
            value,
            default,
        };
        add(variants, variant)?;
        Ok(())
    }

    /// Gathers variants up to the place where there is neither `[` nor `*[`, in an empty list.
    #[cycle(readers)]
    #[inline(never)]
    pub(crate) fn gather_variants(
        &self,
        nesting: usize,
        ptr: usize,
        variants: &mut Vec<Variant<M::Text>>,
    ) -> Result<usize, ReadFault>
        requires within { ptr ≤ length self.now.source.bytes.now }
        requires empty { variants.old.items ≡ [] }
        ensures parses { let t = self.now.source.bytes.now in
            Fills t (variants_map (M.source self.now.texts.now))
            (more_variants self.now.edition t (within self.now.edition t nesting) false) (variants_view M.made)
            variants.new.items ptr result }
        ensures within { IfOk result (λ end. (ptr ≤ end) × (end ≤ length self.now.source.bytes.now)) }
    {
        let mut starred = false;
        let mut place = ptr;
        loop {
            let (star, next) = self.source.take_byte_if(b'*', place);
            if starred && star {
                return Err(ReadFault::Refused {
                    fault: Fault::SecondDefault,
                    from: next,
                    place: next,
                });
            }
            let (bracket, next) = self.source.take_byte_if(b'[', next);
            if !bracket {
                if has_default(self.edition, starred, star) {
                    return Ok(next);
                }
                return Err(ReadFault::Refused {
                    fault: Fault::NoDefault,
                    from: next,
                    place: next,
                });
            }
            let start = self.source.skip_blank(next);
            let (key, next) = self.source.get_variant_key(start)?;
            let next = self.source.skip_blank(next);
            let next = self.source.expect_byte(b']', next)?;
            let (value, next) = self.get_pattern(nesting, next)?;
            let Some(value) = value else {
                return Err(ReadFault::Refused {
                    fault: Fault::Value,
                    from: next,
                    place: next,
                });
            };
            self.add_variant(key, value, star, variants)?;
            starred |= star;
            place = self.source.skip_blank(next);
        }
    }
}
