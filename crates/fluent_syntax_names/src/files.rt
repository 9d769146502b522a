//! All that is found in a set of files.
ghost use Rattle.std.specs.Prelude.{◌≡◌, ◌↔◌, ℕ, List, [], None, OnOk, IfOk, IsTrue, map};
ghost use Rattle.fluent_syntax_names.specs.Cycles.{Reaches, links, no_pattern, reaches};
ghost use Rattle.fluent_syntax_names.specs.ReferenceGraphs.{set_by};
ghost use Rattle.fluent_syntax_names.specs.Findings.{nothing, findings_in, findings_from, all_findings, put};
ghost use Rattle.fluent_syntax_names.specs.Findings.{findings_in_language, findings_with_externals, is_defined};
ghost use Rattle.fluent_syntax_names.specs.Findings.{finding_at, local_findings, local_findings_in_language};
ghost use Rattle.fluent_syntax_names.specs.Findings.{unchosen_findings};
ghost use Rattle.fluent_syntax_names.specs.declared.finding.Kind.TheVariants.{PluralCategory};
ghost use Rattle.fluent_syntax_names.specs.Knowing.{knows, others_define};
ghost use Rattle.fluent_syntax_names.specs.PluralCategories.{words_of};
ghost use Rattle.fluent_syntax_names.specs.FirstPlaces.{place_of};
ghost use Rattle.fluent_syntax_names.specs.Growing.{Adds};
ghost use Rattle.fluent_syntax_names.specs.Tables.{has_name};

use crate::cycles::{Cycles, cycles_of};
use crate::defined_names::DefinedNames;
use crate::defined_so_far::DefinedSoFar;
use crate::definitions::note_definitions;
use crate::finding::{Finding, Kind};
use crate::first_places::FirstPlaces;
use crate::known_names::KnownNames;
use crate::mention::Mention;
use crate::mention_findings::FileContext;
use crate::name_index::NameIndex;
use crate::pattern_references::{NO_PATTERN, pattern_after};
use crate::selects::unchosen_keys;
use fluent_syntax_tree::spans::Span;
use std::alloc::{AllocError, Global};
use std::slice::from_ref;

/// All that is found in the files of one language, in the order of the files and of their texts.
///
/// - A name that a file defines twice, an attribute that an entry has twice, or a key that a select has twice: at each
///   place but the first.
/// - A reference to a message or a term that no file defines, or to an attribute or a value that none has.
/// - A reference that comes back: what it refers to reaches the pattern that it is in.
///
/// Takes the memory of tables of all names and references, and of the list; `AllocError` where there is none. The time
/// is that of looking each name up in a sorted table.
pub fn findings(alloc: Global, files: &[NameIndex<'_>]) -> Result<Vec<Finding>, AllocError>
    ensures findings { IfOk result (λ list. list.items ≡ all_findings files.now) }
    ensures reached { (from to : List ℕ) →
        IsTrue (reaches (links files.now) from to) ↔ Reaches (links files.now) from to }
{
    findings_with_externals(alloc, files, &[])
}

/// All that is found in the files of one language, where others define names too, which are no findings here: the
/// references to these are none. References that come back are those that come back within the files.
///
/// Takes the memory of tables of all names and references, and of the list; `AllocError` where there is none. The time
/// is that of looking each name up in a sorted table, and each reference that no file defines in each of the others.
pub fn findings_with_externals(
    alloc: Global,
    files: &[NameIndex<'_>],
    others: &[&DefinedNames],
) -> Result<Vec<Finding>, AllocError>
    ensures { IfOk result (λ list. list.items ≡ findings_with_externals files.now (others_define others.now)) }
{
    findings_in_language(alloc, files, others, None)
}

/// The same in files of a language that has these plural categories, if they are known: at the end of each file also
/// the keys of its selects that the language never chooses (`unchosen_keys`).
///
/// Takes the memory of `findings_with_externals`, and of two tables of the selects of a file; `AllocError` where there
/// is none.
pub fn findings_in_language<'x>(
    alloc: Global,
    files: &[NameIndex<'x>],
    others: &[&DefinedNames],
    categories: Option<&'x [&'x str]>,
) -> Result<Vec<Finding>, AllocError>
    ensures { IfOk result (λ list. list.items
        ≡ findings_in_language (words_of categories.entry) files.now (others_define others.now)) }
{
    let mut own = FirstPlaces::new(alloc);
    note_files(alloc, &mut own, files)?;
    let cycles = cycles_of(alloc, files)?;
    let known = KnownNames { own: &own, others };
    findings_in_files(alloc, known, &cycles, categories, files)
}

/// What is found in a file by itself, whatever other files have, in the order of its text: a name, an attribute or
/// a key that is given twice, and a reference that comes back. The findings are of the file 0.
///
/// Takes the memory of tables of its names and references, and of the list; `AllocError` where there is none.
pub fn local_findings(alloc: Global, file: &NameIndex<'_>) -> Result<Vec<Finding>, AllocError>
    ensures { IfOk result (λ list. list.items ≡ local_findings file.now) }
{
    local_findings_in_language(alloc, file, None)
}

/// The same in a file of a language that has these plural categories, if they are known: at its end also the keys of
/// its selects that the language never chooses.
///
/// Takes the memory of `local_findings`, and of two tables of its selects; `AllocError` where there is none.
pub fn local_findings_in_language<'x>(
    alloc: Global,
    file: &NameIndex<'x>,
    categories: Option<&'x [&'x str]>,
) -> Result<Vec<Finding>, AllocError>
    ensures { IfOk result (λ list. list.items
        ≡ local_findings_in_language (words_of categories.entry) file.now) }
{
    let files = from_ref(file);
    let cycles = cycles_of(alloc, files)?;
    // Where no name is known, each reference is found missing, and each of these findings has others with it.
    let unknown = FirstPlaces::new(alloc);
    let known = KnownNames {
        own: &unknown,
        others: &[],
    };
    let all = findings_in_files(alloc, known, &cycles, categories, files)?;
    all.iter()
        .copied()
        .filter(|finding| finding.kind.is_local())
        .collect(alloc)
}

/// Notes all names that the files define.
fn note_files(
    alloc: Global,
    table: &mut FirstPlaces<Span>,
    files: &[NameIndex<'_>],
) -> Result<(), AllocError>
    requires { (name : List ℕ) → place_of table.old.table name ≡ None }
    ensures { OnOk result ((name : List ℕ) → has_name (place_of table.new.table) name ≡ is_defined files.now name) }
{
    for file in files {
        note_definitions(alloc, table, file.text, &file.mentions)?;
    }
    Ok(())
}

/// What is found in each file, where all names that they define and all references that come back are known, and
/// perhaps the plural categories of their language.
fn findings_in_files<'x>(
    alloc: Global,
    known: KnownNames<'_>,
    cycles: &Cycles,
    categories: Option<&'x [&'x str]>,
    files: &[NameIndex<'x>],
) -> Result<Vec<Finding>, AllocError>
    ensures { IfOk result (λ list. list.items ≡ findings_from (set_by (knows known.entry) cycles.now)
        (words_of categories.entry) 0 files.now []) }
{
    let mut list = Vec::new(alloc);
    for (number, file) in files.iter().enumerate() {
        let here = FileContext {
            alloc,
            known,
            cycles,
            file: number,
            text: file.text,
        };
        add_findings(&here, &file.mentions, &mut list)?;
        add_unchosen_keys(alloc, number, file, categories, &mut list)?;
    }
    Ok(list)
}

/// Adds what is found in a file.
fn add_findings(
    here: &FileContext<'_>,
    mentions: &[Mention<Span>],
    list: &mut Vec<Finding>,
) -> Result<(), AllocError>
    ensures { OnOk result (Adds list.old.items list.new.items
        (findings_in (set_by (knows here.now.known) here.now.cycles.now) here.now.file
        here.now.text.now nothing no_pattern mentions.now)) }
{
    let mut noted = DefinedSoFar::new(here.alloc);
    let mut pattern = NO_PATTERN;
    for mention in mentions {
        let finding = here.finding_of(&mut noted, mention)?;
        add_finding(list, finding)?;
        let cycle = here.cycle(pattern, mention)?;
        add_finding(list, cycle)?;
        pattern = pattern_after(pattern, mention);
    }
    Ok(())
}

/// Adds the keys in the file of the number that a language with these plural categories never chooses.
fn add_unchosen_keys<'x>(
    alloc: Global,
    number: usize,
    file: &NameIndex<'x>,
    categories: Option<&'x [&'x str]>,
    list: &mut Vec<Finding>,
) -> Result<(), AllocError>
    ensures { OnOk result (Adds list.old.items list.new.items
        (unchosen_findings (words_of categories.entry) number file.now)) }
{
    let Some(categories) = categories else {
        return Ok(());
    };
    let keys = unchosen_keys(alloc, file, categories)?;
    let mut found = unchosen_findings(alloc, number, &keys)?;
    list.append(&mut found)
}

/// A finding at each of the keys, in the file of the number.
fn unchosen_findings(
    alloc: Global,
    number: usize,
    keys: &[Span],
) -> Result<Vec<Finding>, AllocError>
    ensures { IfOk result (λ found.
        found.items ≡ map (λ key. finding_at PluralCategory number key None) keys.now) }
{
    keys.iter()
        .map(|key| Finding {
            kind: Kind::PluralCategory,
            file: number,
            place: Some(*key),
            other: None,
        })
        .collect(alloc)
}

fn add_finding(list: &mut Vec<Finding>, finding: Option<Finding>) -> Result<(), AllocError>
    ensures { OnOk result (Adds list.old.items list.new.items (put finding)) }
{
    match finding {
        Some(finding) => {
            list.push(finding)?;
            Ok(())
        }
        None => Ok(()),
    }
}
