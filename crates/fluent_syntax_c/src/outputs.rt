//! The caller's array, and the number that says how much there is.
ghost use Rattle.std.specs.Prelude.{◌≡◌, ◌↔◌, Ok, Err, IsOkAnd};
ghost use Rattle.fluent_syntax_c.specs.Output.{LeavesOutput};
ghost use Rattle.fluent_syntax_c.specs.Status.{EndsAs, edit_refusal_number, refusal_number};
ghost use Rattle.fluent_syntax_c.specs.declared.status.EditRefusal.{EditRefusal as EditWhy};
ghost use Rattle.fluent_syntax_c.specs.declared.status.Refusal.{Refusal as Why};
ghost use Rattle.fluent_syntax_c.specs.declared.status.Status.TheVariants.{NotEdited, Refused};

use crate::status::{EditRefusal, Refusal, Status};
use ftl::Outcome;

/// Gives the caller what was answered, if there is room for all of it, and says how much it is. Returns the number of
/// how that ended.
pub(crate) fn give<T: Copy>(
    answer: Result<(Vec<T>, Outcome), Refusal>,
    out: &mut [T],
    count: &mut usize,
) -> u32
    ensures leaves { EndsAs result
        (LeavesOutput (λ items outcome. IsOkAnd answer (λ given. (given.0.items ≡ items) × (given.1 ≡ outcome)))
        out.old out.new count.new) }
    ensures refused { (why : Why) → (result ≡ refusal_number why) ↔ (answer ≡ Err why) }
    ensures edited { (why : EditWhy) → ¬ (result ≡ edit_refusal_number why) }
{
    give_answer(answer, out, count).number()
}

/// Gives the caller the text that an edit made, if there is room for all of it, and says how much it is. Returns the
/// number of how that ended, or why the edit is not made.
pub(crate) fn give_edited(
    answer: Result<Result<(Vec<u8>, Outcome), EditRefusal>, Refusal>,
    out: &mut [u8],
    count: &mut usize,
) -> u32
    ensures leaves { EndsAs result (LeavesOutput
        (λ items outcome. IsOkAnd answer (λ made. IsOkAnd made
        (λ given. (given.0.items ≡ items) × (given.1 ≡ outcome)))) out.old out.new count.new) }
    ensures refused { (why : Why) → (result ≡ refusal_number why) ↔ (answer ≡ Err why) }
    ensures not_edited { (why : EditWhy) → result ≡ edit_refusal_number why → answer ≡ Ok (Err why) }
{
    match answer {
        Ok(Ok(given)) => give(Ok(given), out, count),
        Ok(Err(why)) => {
            *count = 0;
            Status::NotEdited(why).number()
        }
        Err(why) => give(Err(why), out, count),
    }
}

/// The same, with its status.
fn give_answer<T: Copy>(
    answer: Result<(Vec<T>, Outcome), Refusal>,
    out: &mut [T],
    count: &mut usize,
) -> Status
    ensures leaves { LeavesOutput (λ items outcome. IsOkAnd answer
        (λ given. (given.0.items ≡ items) × (given.1 ≡ outcome)))
        out.old out.new count.new result }
    ensures refused { (why : Why) → (result ≡ Refused why) ↔ (answer ≡ Err why) }
    ensures edited { (why : EditWhy) → ¬ (result ≡ NotEdited why) }
{
    match answer {
        Ok((items, outcome)) => give_items(items.as_slice(), outcome, out, count),
        Err(refusal) => {
            *count = 0;
            Status::Refused(refusal)
        }
    }
}

fn give_items<T: Copy>(items: &[T], outcome: Outcome, out: &mut [T], count: &mut usize) -> Status
    ensures leaves { LeavesOutput (λ given found. (given ≡ items.now)
        × (found ≡ outcome)) out.old out.new count.new result }
    ensures given { (why : Why) → ¬ (result ≡ Refused why) }
    ensures edited { (why : EditWhy) → ¬ (result ≡ NotEdited why) }
{
    *count = items.len();
    if items.len() > out.len() {
        return Status::TooSmall;
    }
    let (front, _) = out.split_at_mut(items.len());
    front.copy_from_slice(items);
    match outcome {
        Outcome::Clean => Status::Clean,
        Outcome::SyntaxErrors => Status::SyntaxErrors,
    }
}
