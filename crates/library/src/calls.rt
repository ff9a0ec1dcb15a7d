// Calls and answers, for a list of calls.
ghost use Rattle.std.specs.Prelude.{◌≡◌};
ghost use Rattle.library.specs.Calls.{taken as taken_of};

use crate::refusal::Refusal;
use sheets::width::Width;

// One call: what it hands over, and how many of the working rows and of the caller's rows it is lent.
#[derive(Clone, Copy)]
pub enum Call<'a> {
    Enter {
        sheet: &'a [u8],
        rows: usize,
    },
    // a sheet's bytes, opened and checked at that width
    Preview {
        sheet: &'a [u8],
        width: Width,
        rows: usize,
        out: usize,
    },
    // another amount for an algorithm of a block
    Retime {
        block: usize,
        algorithm: usize,
        amount: &'a [u8],
    },
    Rework {
        block: usize,
        rows: usize,
    },
    // the list of an event on a block's card
    Card {
        block: usize,
        event: usize,
        out: usize,
    },
}

impl<'a> Call<'a> {
    // How many of the caller's rows that are left it takes: 128 for a preview, 16 for a card, if it is lent so many.
    pub fn taken(&self, left: usize) -> usize
        ensures { result ≡ taken_of left self.now }
    {
        match self {
            Call::Preview { out, .. } => if 128 <= (*out).min(left) { 128 } else { 0 },
            Call::Card { out, .. } => if 16 <= (*out).min(left) { 16 } else { 0 },
            _ => 0,
        }
    }
}

// What an accepted call answers; the lists of a preview and of a card stand in the caller's rows.
#[derive(Clone, Copy, PartialEq, Eq, Debug)]
pub enum Accepted {
    // the number of the new block
    Entered { block: usize },
    // the lengths of the eight lists
    Previewed { lens: [usize; 8] },
    Done,
    // the length of the list
    Shown { len: usize },
}

// What a call answers: that it is accepted, or why it is turned down.
pub type Answer = Result<Accepted, Refusal>;
