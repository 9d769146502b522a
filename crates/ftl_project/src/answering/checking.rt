//! Files are checked.
ghost use Rattle.std.specs.Prelude.{◌≡◌, IfErr, IfOk, string_bytes};
ghost use Rattle.ftl.specs.Errors.{HasErrors};
ghost use Rattle.ftl_project.specs.Answered.{IsChecked};
ghost use Rattle.ftl_project.specs.Faults.{IsTooDeep, IsUnparsed};

use crate::answering::{Answer, FileTask};
use crate::fault::Fault;
use crate::reporting::report;
use crate::reporting::text_with_errors::TextWithErrors;
use crate::streams::byte_order_mark_note;
use fluent_syntax::spans::Halt;
use ftl::errors_within;
use ftl_files::{Form, Reading};
use std::alloc::Global;

/// Reports the errors of each file in the form, and counts it with as many errors as it has.
#[derive(Clone, Copy)]
pub struct CheckTask {
    pub reading: Reading,
    pub form: Form,
}

impl FileTask for CheckTask {
    ghost answers = { λ checking. IsChecked checking.reading checking.form };

    ghost refuses = { λ checking text. IsUnparsed (IsTooDeep checking.reading text) };

    fn answer(&self, alloc: Global, path: &str, text: String) -> Result<Answer, Fault> {
        let refused = errors_of(alloc, text, self.reading)?;
        let errors = refused.errors.len();
        let text = report(alloc, path, &refused, self.form)?;
        let note = match self.form {
            Form::Lines => byte_order_mark_note(alloc, path, refused.text.as_str(), self.form)?,
            _ => String::new(alloc),
        };
        Ok(Answer {
            errors,
            has_problems: errors != 0,
            text,
            note,
        })
    }
}

/// The text with its errors, which may be none.
fn errors_of(alloc: Global, text: String, reading: Reading) -> Result<TextWithErrors, Fault>
    ensures text { IfOk result (λ refused. string_bytes refused.text ≡ string_bytes text) }
    ensures errors { IfOk result (λ refused. HasErrors reading.edition (string_bytes text) refused.errors.items) }
    ensures fault { IfErr result (IsUnparsed (IsTooDeep reading (string_bytes text))) }
{
    match errors_within(alloc, text.as_str(), reading.edition, reading.nesting) {
        Ok(errors) => Ok(TextWithErrors {
            text,
            errors,
            reading,
        }),
        Err(Halt::TooDeep) => Err(Fault::TooDeep),
        Err(Halt::Memory) => Err(Fault::Memory),
    }
}
