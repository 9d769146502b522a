//! The text of an input.
ghost use Rattle.std.specs.Prelude.{◌≡◌, ◌≢◌, ◌+◌, ◌<◌, ◌^◌, ◌↔◌, length, Err, IfOk, IfErr};
ghost use Rattle.std.specs.Str.{IsUtf8};

use crate::status::Refusal;

/// The input as a text. `Input` where it is not UTF-8; `Memory` where it has half as many bytes as the greatest
/// `usize`, as no input that can be made has.
pub(crate) fn text_of(input: &[u8]) -> Result<&str, Refusal>
    ensures text { IfOk result (λ text. (text.now ≡ input.now) × (length text.now + 1 < 2 ^ 63) × IsUtf8 input.now) }
    ensures input { (result ≡ Err Refusal.Input) ↔ ¬ (IsUtf8 input.now) }
    ensures argument { result ≢ Err Refusal.Argument }
    ensures deep { result ≢ Err Refusal.Depth }
    ensures tree { result ≢ Err Refusal.Tree }
{
    let Ok(text) = str::from_utf8(input) else {
        return Err(Refusal::Input);
    };
    if text.len() >= usize::MAX / 2 {
        return Err(Refusal::Memory);
    }
    Ok(text)
}
