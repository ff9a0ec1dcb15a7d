// Why a sheet's bytes are turned down.
ghost use Rattle.std.specs.Prelude.{◌≡◌};
ghost use Rattle.sheets.specs.Refusals.{number, level, place};

// `at` is an offset in the sheet, in bytes.
#[derive(Clone, Copy, PartialEq, Eq, Debug)]
pub enum Refusal {
    // a field runs past the end
    Cut { at: usize },
    // a field cannot follow, or more is needed
    Grammar { at: usize },
}

// How it is told.
impl Refusal {
    // The check that refuses, by its number.
    pub fn number(self) -> usize
        ensures { result ≡ number self }
    {
        match self {
            Refusal::Cut { .. } => 1,
            Refusal::Grammar { .. } => 2,
        }
    }

    // The level: both are faults of the sheet.
    pub fn level(self) -> usize
        ensures { result ≡ level self }
    {
        1
    }

    // Where in the sheet it is, in bytes.
    pub fn place(self) -> usize
        ensures { result ≡ place self }
    {
        match self {
            Refusal::Cut { at } | Refusal::Grammar { at } => at,
        }
    }
}
