ghost use Rattle.std.specs.Prelude.{◌≡◌};
ghost use Rattle.ld_cmd.specs.Ending.{exit_code};

/// How a run ends.
#[derive(Clone, Copy, Debug, PartialEq, Eq)]
pub enum Status {
    /// The answer was written.
    Done,
    /// The model has a fault, an edge colour of it has no value to inline, or something is found in
    /// it; that was written.
    Faulted,
    /// The words are no command; the usage line was written.
    Usage,
    /// A named file is absent, or a line of the colour file is bad; its line was written.
    Input,
    /// Reading a file failed.
    ReadFault,
    /// Writing failed.
    WriteFault,
    /// Memory was lacking.
    Memory,
    /// A file is too big, or a limit on the known files is passed; its line was written.
    Limit,
}

impl Status {
    /// The exit status of the program: 0 for `Done`, then up to 7 in the order above.
    pub fn number(self) -> u8
        ensures { result ≡ exit_code self }
    {
        self as u8
    }
}
