//! How the parts of an error are set off on a terminal.

/// What is around the parts of an error.
pub(crate) struct Paint {
    pub(crate) before_place: &'static str,
    pub(crate) before_kind: &'static str,
    /// After each of the two.
    pub(crate) reset: &'static str,
    pub(crate) caret: &'static str,
}

/// Nothing but the text.
pub(crate) const PLAIN: Paint = Paint {
    before_place: "",
    before_kind: "",
    reset: "",
    caret: "^",
};

/// The place in bold, the kind and the caret in bold red.
pub(crate) const COLORED: Paint = Paint {
    before_place: "\u{1B}[1m",
    before_kind: "\u{1B}[1;31m",
    reset: "\u{1B}[0m",
    caret: "\u{1B}[1;31m^\u{1B}[0m",
};
