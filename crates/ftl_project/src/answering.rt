//! Files are read and answered, one by one.
ghost use Rattle.std.specs.Io.KnownBytes.{Appends};
ghost use Rattle.std.specs.Prelude.{◌≡◌, ◌≢◌, ◌⊎◌, ℕ, List, Bool, Err, IfErr, IfOk, OnOk, string_bytes, true};
ghost use Rattle.ftl.specs.Watched.{has_failed, inner_of};
ghost use Rattle.ftl_files.specs.Store.{AllUnchanged};
ghost use Rattle.ftl_project.specs.Faults.{IsFault, IsRead};
ghost use Rattle.ftl_project.specs.Runs.{AnswersEach, ProcessesFile, Writes};
ghost use Rattle.ftl_project.specs.Tally.{answered, counted};
ghost use Rattle.ftl_project.specs.declared.fault.Fault.{Fault};

pub mod checking;
pub mod converting;
mod element_spans;
pub mod printing;
pub mod spanned_json;
mod split_lines;

use crate::fault::Fault;
use crate::formatting::rewriting::read_text;
use crate::streams::{Streams, report_fault};
use crate::tally::Tally;
use ftl::{RunFault, write_all};
use ftl_files::Store;
use std::alloc::Global;
use std::io::Write;

/// What is said of a file.
#[derive(Drop)]
pub struct Answer {
    /// How many errors it has.
    pub errors: usize,
    /// Whether it has errors, or is not as it is to be.
    pub has_problems: bool,
    /// What was asked for.
    pub text: String,
    /// Lines for people, on the other stream.
    pub note: String,
}

/// What a run says of the text of each file.
pub trait FileTask {
    /// With so many errors, with problems or not, and with this text.
    ghost answers: { Self → List ℕ → List ℕ → ℕ → Bool → List ℕ → Type 0 };

    /// Why of a text nothing is said.
    ghost refuses: { Self → List ℕ → Fault → Type 0 };

    /// What is said of the text of the file at the path.
    fn answer(&self, alloc: Global, path: &str, text: String) -> Result<Answer, Fault>
        ensures answer { IfOk result (λ answer. answers self.now path.now (string_bytes text) answer.errors
            answer.has_problems (string_bytes answer.text)) }
        ensures fault { IfErr result (refuses self.now (string_bytes text)) };
}

/// Reads each of the files, in their order, writes what the task says of it, and counts it. One of which nothing is
/// said is reported, and the others are answered. No file is changed.
///
/// `Err` where the run stopped: `Memory`, or `Output`.
pub fn answer_files<T: FileTask, S: Store, O: Write, E: Write>(
    alloc: Global,
    task: &T,
    store: &mut S,
    files: &[String],
    tally: &mut Tally,
    streams: &mut Streams<'_, O, E>,
) -> Result<(), RunFault>
    ensures untouched { AllUnchanged (S.bytes_at store.old) (S.bytes_at store.new) }
    ensures each { OnOk result (AnswersEach S.fails (T.answers task.now) (T.refuses task.now)
        (S.bytes_at store.old) files.now tally.old tally.new (O.contents (inner_of streams.old.out.now))
        (O.contents (inner_of streams.new.out.now))) }
    ensures input { result ≢ Err RunFault.Input }
    ensures output { result ≡ Err RunFault.Output → (has_failed streams.new.out.now ≡ true)
        ⊎ (has_failed streams.new.err.now ≡ true) }
{
    for file in files {
        answer_file(alloc, task, store, file.as_str(), tally, streams)?;
    }
    Ok(())
}

fn answer_file<T: FileTask, S: Store, O: Write, E: Write>(
    alloc: Global,
    task: &T,
    store: &mut S,
    path: &str,
    tally: &mut Tally,
    streams: &mut Streams<'_, O, E>,
) -> Result<(), RunFault>
    ensures untouched { AllUnchanged (S.bytes_at store.old) (S.bytes_at store.new) }
    ensures counted { OnOk result (Writes (ProcessesFile S.fails (T.answers task.now) (T.refuses task.now)
        path.now (S.bytes_at store.old path.now)) tally.old tally.new (O.contents (inner_of streams.old.out.now))
        (O.contents (inner_of streams.new.out.now))) }
    ensures input { result ≢ Err RunFault.Input }
    ensures output { result ≡ Err RunFault.Output → (has_failed streams.new.out.now ≡ true)
        ⊎ (has_failed streams.new.err.now ≡ true) }
{
    match read_and_answer(alloc, task, store, path) {
        Ok(answer) => put_answer(&answer, tally, streams),
        Err(fault) => report_fault(alloc, tally, path, &fault, streams),
    }
}

fn read_and_answer<T: FileTask, S: Store>(
    alloc: Global,
    task: &T,
    store: &mut S,
    path: &str,
) -> Result<Answer, Fault>
    ensures untouched { AllUnchanged (S.bytes_at store.old) (S.bytes_at store.new) }
    ensures answer { IfOk result (λ answer. (read : List ℕ) × IsRead (S.bytes_at store.old path.now) read
        × T.answers task.now path.now read answer.errors answer.has_problems (string_bytes answer.text)) }
    ensures fault { IfErr result (IsFault S.fails (S.bytes_at store.old path.now) (T.refuses task.now)) }
{
    let text = read_text(store, path)?;
    task.answer(alloc, path, text)
}

/// Counts the file, and writes what is said of it.
fn put_answer<O: Write, E: Write>(
    answer: &Answer,
    tally: &mut Tally,
    streams: &mut Streams<'_, O, E>,
) -> Result<(), RunFault>
    ensures counted { tally.new ≡ counted tally.old (answered answer.now.errors 0 answer.now.has_problems) }
    ensures written { OnOk result (Appends (O.contents (inner_of streams.old.out.now))
        (O.contents (inner_of streams.new.out.now)) (string_bytes answer.now.text)) }
    ensures input { result ≢ Err RunFault.Input }
    ensures output { result ≡ Err RunFault.Output → (has_failed streams.new.out.now ≡ true)
        ⊎ (has_failed streams.new.err.now ≡ true) }
{
    tally.count(answer.errors, 0, answer.has_problems);
    write_all(streams.out, answer.text.as_bytes())?;
    write_all(streams.err, answer.note.as_bytes())
}
