//! What is counted over the corpus.

ghost use Rattle.std.specs.Prelude.{◌≡◌, ◌+◌, ◌-◌, ◌^◌, cond, min};

/// What was seen of a call.
#[derive(Clone, Copy)]
pub(crate) struct Tally {
    /// How many requests were refused.
    pub(crate) refused: u64,
    /// How many answers were wrong.
    pub(crate) wrong: u64,
}

impl Tally {
    pub(crate) const NONE: Tally = Tally {
        refused: 0,
        wrong: 0,
    };

    /// Both together.
    pub(crate) fn and(self, other: Tally) -> Tally
        ensures refused { result.refused ≡ min (self.refused + other.refused) (2 ^ 64 - 1) }
        ensures wrong { result.wrong ≡ min (self.wrong + other.wrong) (2 ^ 64 - 1) }
    {
        Tally {
            refused: self.refused.saturating_add(other.refused),
            wrong: self.wrong.saturating_add(other.wrong),
        }
    }

    /// One wrong answer more, where it is one.
    pub(crate) fn wrong_if(self, is_wrong: bool) -> Tally
        ensures refused { result.refused ≡ self.refused }
        ensures wrong { result.wrong ≡ min (self.wrong + cond is_wrong 1 0) (2 ^ 64 - 1) }
    {
        Tally {
            refused: self.refused,
            wrong: self.wrong.saturating_add(u64::from(is_wrong)),
        }
    }
}
