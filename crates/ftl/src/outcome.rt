//! How a run ends.
ghost use Rattle.std.specs.Prelude.{◌≡◌};
ghost use Rattle.ftl.specs.Outcome.{status_of, fault_status, fault_line};

/// What was found in a text that was read and answered.
#[derive(Clone, Copy, Debug, PartialEq, Eq)]
pub enum Outcome {
    /// No syntax error.
    Clean,
    /// At least one syntax error.
    SyntaxErrors,
}

/// Why a text was not answered.
#[derive(Clone, Copy, Debug, PartialEq, Eq)]
pub enum RunFault {
    /// The input could not be read, or is not UTF-8.
    Input,
    /// A growth was refused.
    Memory,
    /// The output could not be written.
    Output,
}

impl Outcome {
    /// The exit status: 0, or 1 where there are syntax errors.
    pub fn status(&self) -> u8
        ensures { result ≡ status_of self.now }
    {
        match self {
            Outcome::Clean => 0,
            Outcome::SyntaxErrors => 1,
        }
    }
}

impl RunFault {
    /// The exit status: 3, 4 or 5.
    pub fn status(&self) -> u8
        ensures { result ≡ fault_status self.now }
    {
        match self {
            RunFault::Input => 3,
            RunFault::Memory => 4,
            RunFault::Output => 5,
        }
    }

    /// The line for standard error, without its LF.
    pub fn line(&self) -> &'static str
        ensures { result.now ≡ fault_line self.now }
    {
        match self {
            RunFault::Input => "ftl: input failed or is not UTF-8",
            RunFault::Memory => "ftl: no memory",
            RunFault::Output => "ftl: output failed",
        }
    }
}
