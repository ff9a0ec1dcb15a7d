// Which program a file is for: that says which calls it may hold, how much room its library has, and what is printed at the end.
ghost use Rattle.std.specs.Prelude.{◌≡◌};
ghost use Rattle.files.specs.Files.{blocks_in, bytes_in};

#[derive(Clone, Copy)]
pub enum Form {
    // sheets to enter
    Report,
    // all calls; at the end each block's mark is printed too
    Journal,
}

impl Form {
    // How many blocks its library has room for.
    pub(crate) fn blocks(self) -> usize
        ensures { result ≡ blocks_in self }
    {
        match self {
            Form::Report => 32,
            Form::Journal => 64,
        }
    }

    // How many bytes of sheets its library has room for.
    pub(crate) fn bytes(self) -> usize
        ensures { result ≡ bytes_in self }
    {
        match self {
            Form::Report => 32768,
            Form::Journal => 65536,
        }
    }
}
