// The index: a row for each block.
ghost use Rattle.std.specs.Prelude.{◌≡◌};
ghost use Rattle.library.specs.Tables.{no_row};

#[derive(Clone, Copy, PartialEq, Eq, Debug)]
pub struct Row {
    // a block has it; the caller lends rows before it knows how many blocks come
    pub used: bool,
    // where the sheet begins on the shelf, and its length, in bytes
    pub start: usize,
    pub len: usize,
    // how many input and output events the block has
    pub inputs: u8,
    pub outputs: u8,
    // how many entries the list of each event has
    pub lens: [usize; 8],
    // the card is out of date
    pub old: bool,
}

impl Row {
    // A row that no block has.
    pub fn unused() -> Row
        ensures { result ≡ no_row }
    {
        Row {
            used: false,
            start: 0,
            len: 0,
            inputs: 0,
            outputs: 0,
            lens: [0; 8],
            old: false,
        }
    }
}
