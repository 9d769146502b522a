//! How much of a reference a translation has.
ghost use Rattle.std.specs.Prelude.{◌≡◌, IfOk, Some, string_bytes};
ghost use Rattle.ftl_project.specs.Comparing.{with_share};
ghost use Rattle.ftl_project.specs.Summaries.{share_line_of};

use crate::reporting::json::push_json_text;
use std::alloc::{AllocError, Global};
use std::fmt::Write;

/// What a comparison met besides its tally.
#[derive(Clone, Copy, Debug, PartialEq, Eq)]
pub struct Share {
    /// Messages and terms of the reference.
    pub wanted: usize,
    /// Those that the other lacks.
    pub missing: usize,
}

impl Share {
    /// The sum of both.
    pub(crate) fn add(&mut self, part: Share)
        ensures { self.new ≡ with_share self.old (Some part) }
    {
        self.wanted = self.wanted.saturating_add(part.wanted);
        self.missing = self.missing.saturating_add(part.missing);
    }
}

/// How much of the reference is there, on a line: `95 of 100 messages and terms are there`.
///
/// `AllocError`: a growth was refused.
pub fn share_line(alloc: Global, share: &Share) -> Result<String, AllocError>
    ensures { IfOk result (λ line. string_bytes line ≡ share_line_of share.now) }
{
    let wanted = share.wanted;
    let there = wanted.saturating_sub(share.missing);
    format!(in alloc; "{there} of {wanted} messages and terms are there\n")
}

/// How much of the reference the translation at the path has, as a JSON object on a line:
/// `{"path":"de","kind":"share","wanted":100,"missing":5}`.
///
/// `AllocError`: a growth was refused.
pub fn share_json(alloc: Global, path: &str, share: &Share) -> Result<String, AllocError> {
    let mut out = String::from_str(alloc, "{\"path\":")?;
    push_json_text(&mut out, path)?;
    write!(
        out,
        ",\"kind\":\"share\",\"wanted\":{},\"missing\":{}}}\n",
        share.wanted, share.missing
    )?;
    Ok(out)
}
