//! How a session ends.
ghost use Rattle.std.specs.Prelude.{◌≡◌};
ghost use Rattle.ftl_lsp.specs.Endings.{status_of, line_of};

use crate::sessions::frames::FrameFault;

/// Why a session ended.
#[derive(Clone, Copy, PartialEq, Eq)]
pub enum Ending {
    /// `exit` came after `shutdown`.
    Exited,
    /// `exit` came without `shutdown`.
    Left,
    /// The input could not be read.
    Input,
    /// A growth was refused.
    Memory,
    /// The output could not be written.
    Output,
    /// The input ended after a frame, without `exit`.
    Closed,
    /// The input ended inside a frame.
    Cut,
    /// What came is no frame.
    Refused(FrameFault),
}

impl Ending {
    /// The exit status: 0 after `shutdown` and `exit`, 1 after `exit` alone, and from 3 to 9 for the others.
    pub fn status(&self) -> u8
        ensures { result ≡ status_of self.now }
    {
        match self {
            Ending::Exited => 0,
            Ending::Left => 1,
            Ending::Input => 3,
            Ending::Memory => 4,
            Ending::Output => 5,
            Ending::Closed => 6,
            Ending::Cut => 7,
            Ending::Refused(FrameFault::LongHeader) | Ending::Refused(FrameFault::NoLength) => 8,
            Ending::Refused(FrameFault::LongBody) => 9,
        }
    }

    /// The line for standard error, without its LF; it is empty where `exit` came.
    pub fn line(&self) -> &'static str
        ensures { result.now ≡ line_of self.now }
    {
        match self {
            Ending::Exited | Ending::Left => "",
            Ending::Input => "ftl lsp: input failed",
            Ending::Memory => "ftl lsp: no memory",
            Ending::Output => "ftl lsp: output failed",
            Ending::Closed => "ftl lsp: the input ended without exit",
            Ending::Cut => "ftl lsp: the input ended inside a message",
            Ending::Refused(FrameFault::LongHeader) => {
                "ftl lsp: a header has more than 4096 bytes"
            }
            Ending::Refused(FrameFault::NoLength) => "ftl lsp: a header has no Content-Length",
            Ending::Refused(FrameFault::LongBody) => {
                "ftl lsp: a message has more than 67108864 bytes"
            }
        }
    }
}
