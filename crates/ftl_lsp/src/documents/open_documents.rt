//! The documents that are open.
ghost use Rattle.std.specs.Prelude.{◌≡◌, ℕ, List, is_some, map, option_map, IfOk, OnOk};
ghost use Rattle.ftl_lsp.specs.Edits.{edit_of};
ghost use Rattle.ftl_lsp.specs.OpenDocuments.{MakesOpen, open_text, Sets, SetsMade, texts};

use crate::documents::Document;
use crate::documents::changes::{Change, text_after};
use ftl_files::path_of_uri;
use std::alloc::{AllocError, Global};
use std::collections::BTreeMap;

/// A document as it is open.
#[derive(Drop)]
pub struct OpenDocument {
    /// The path of its file, if its name is that of one.
    pub path: Option<String>,
    /// The number that the editor gave it, if it gave one.
    pub version: Option<i64>,
    pub document: Document,
}

/// The documents that are open, by their names.
#[derive(Drop)]
pub struct Documents {
    by_name: BTreeMap<String, OpenDocument>,
}

impl Documents {
    /// None of them.
    pub fn new(alloc: Global) -> Self
        ensures { (name : List ℕ) → texts result name ≡ None }
    {
        Documents {
            by_name: BTreeMap::new(alloc),
        }
    }

    /// All of them, by their names.
    pub fn by_name(&self) -> &BTreeMap<String, OpenDocument>
        ensures { result.now ≡ self.now.by_name }
    {
        &self.by_name
    }

    /// The document that is open under the name.
    pub fn get(&self, name: &str) -> Option<&OpenDocument>
        ensures { option_map (λ found. open_text found.now) result ≡ texts self.now name.now }
    {
        self.by_name.get(name)
    }

    /// Whether a document is open under the name.
    pub fn contains(&self, name: &str) -> bool
        ensures { result ≡ is_some (texts self.now name.now) }
    {
        self.by_name.contains_key(name)
    }

    /// Opens a document under a name; one that is open under it is closed. `AllocError` where a growth was refused.
    pub fn open(
        &mut self,
        alloc: Global,
        name: &str,
        version: Option<i64>,
        text: &str,
    ) -> Result<(), AllocError>
        ensures { let made = Some (record { text = text.now; version = version }) in
            OnOk result (Sets (texts self.old) name.now made (texts self.new)) }
    {
        let key = String::from_str(alloc, name)?;
        let document = Document::new(alloc, String::from_str(alloc, text)?)?;
        let path = path_of_uri(alloc, name)?;
        let open = OpenDocument {
            path,
            version,
            document,
        };
        drop(self.by_name.insert(key, open)?);
        Ok(())
    }

    /// Makes the changes of the document that is open under the name, in order, and says whether there is one.
    /// `AllocError` where a growth was refused.
    pub fn change(
        &mut self,
        alloc: Global,
        name: &str,
        version: Option<i64>,
        changes: &[Change<'_>],
    ) -> Result<bool, AllocError>
        ensures { IfOk result
            (λ found. SetsMade (texts self.old) name.now version (map edit_of changes.now) found (texts self.new)) }
    {
        match self.by_name.get_mut(name) {
            Some(open) => {
                open.change(alloc, version, changes)?;
                Ok(true)
            }
            None => Ok(false),
        }
    }

    /// Closes the document that is open under the name, if there is one.
    pub fn close(&mut self, name: &str)
        ensures { Sets (texts self.old) name.now None (texts self.new) }
    {
        drop(self.by_name.remove(name));
    }
}

impl OpenDocument {
    /// The path of its file, or its name where it has none.
    pub fn path_or<'o>(&'o self, name: &'o str) -> &'o str {
        match &self.path {
            Some(path) => path.as_str(),
            None => name,
        }
    }

    /// Makes the changes, one after another. `AllocError` where a growth was refused.
    fn change(
        &mut self,
        alloc: Global,
        version: Option<i64>,
        changes: &[Change<'_>],
    ) -> Result<(), AllocError>
        ensures { OnOk result
            (MakesOpen (open_text self.old) version (map edit_of changes.now) (open_text self.new)) }
    {
        let text = text_after(alloc, self.document.text(), changes)?;
        self.document = Document::new(alloc, text)?;
        self.version = version;
        Ok(())
    }
}
