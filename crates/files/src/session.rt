// A file from its bytes to what is printed: its calls are made by one replay on an empty library.
ghost use Rattle.std.specs.Prelude.{◌≡◌, ◌++◌, length, IfOk, string_bytes, OnOk};
ghost use Rattle.library.specs.Books.{rules};
ghost use Rattle.library.specs.Tables.{sizes_of};
ghost use Rattle.files.specs.Printing.{marks_in, file_lines, Carried, Printed};

use crate::decode::{ROWS, decode, rows_taken};
use crate::form::Form;
use costs::entry::Entry;
use costs::measure::Measure;
use costs::reducer::Reducer;
use library::calls::{Accepted, Answer, Call};
use library::row::Row;
use library::{Kept, Library};
use listing::amount::Spelt;
use listing::answers::{push_answers, push_fault, push_marks};
use listing::cards::push_cards;
use std::alloc::{AllocError, Global};

// A file that was read: what it is for, the calls that it makes, the offset behind them, and its length, in bytes.
#[derive(Clone, Copy)]
struct File<'a> {
    form: Form,
    calls: &'a [Call<'a>],
    end: usize,
    total: usize,
}

// A journal's marks; a report prints none.
fn push_form(text: &mut String, form: Form, index: &[Row]) -> Result<(), AllocError>
    ensures { OnOk result (string_bytes text.new ≡ string_bytes text.old ++ marks_in form index.now) }
{
    match form {
        Form::Report => Ok(()),
        Form::Journal => push_marks(text, index),
    }
}

impl File<'_> {
    // All that is printed: answers, where reading ended if before the last byte, marks and cards.
    fn print<M: Spelt>(
        &self,
        heap: Global,
        answers: &[Answer],
        out: &[Entry<M>],
        kept: Kept<'_, M>,
    ) -> Result<String, AllocError>
        ensures { IfOk result (λ s. string_bytes s ≡ file_lines M.Spelt.text M.Measure.wide self.now.form self.now.end self.now.total self.now.calls.now answers.now out.now kept.entry.index.now kept.entry.cards.now) }
    {
        let mut text = String::new(heap);
        push_answers(&mut text, kept.index, self.calls, answers, out)?;
        push_fault(&mut text, self.end, self.total)?;
        push_form(&mut text, self.form, kept.index)?;
        push_cards(&mut text, kept.index, kept.cards)?;
        Ok(text)
    }

    // Makes the calls on an empty library, and answers what is printed.
    fn carry<M: Spelt, R: Reducer<M>>(
        &self,
        heap: Global,
        library: &mut Library<'_, M>,
        rows: &mut [Entry<M>],
        out: &mut [Entry<M>],
        answers: &mut [Answer],
    ) -> Result<String, AllocError>
        requires { length answers.old ≡ length self.now.calls.now }
        ensures { IfOk result (λ s. Carried (rules M.Measure.ops M.Measure.wide M.Measure.meant R.Reducer.gives) M.Spelt.text self.now.form (sizes_of library.old.shelf.now library.old.index.now library.old.cards.now) (length rows.old) (length out.old) self.now.calls.now self.now.end self.now.total (string_bytes s)) }
    {
        library.replay::<R>(rows, out, self.calls, answers);
        self.print(heap, answers, out, library.kept())
    }
}

// All that is printed of a file of this form.
pub fn session<M: Spelt + Clone, R: Reducer<M>>(
    heap: Global,
    form: Form,
    bytes: &[u8],
) -> Result<String, AllocError>
    ensures { IfOk result (λ s. Printed (rules M.Measure.ops M.Measure.wide M.Measure.meant R.Reducer.gives) M.Spelt.text form bytes.now (string_bytes s)) }
{
    let (calls, end) = decode(heap, form, bytes)?;
    let file = File {
        form,
        calls: &calls,
        end,
        total: bytes.len(),
    };
    let zero: Entry<M> = Entry::zero();
    let mut shelf = vec![in heap; 0u8; form.bytes()]?;
    let mut index = vec![in heap; Row::unused(); form.blocks()]?;
    let mut cards = vec![in heap; zero; 128 * form.blocks()]?;
    let mut library = Library {
        shelf: &mut shelf,
        index: &mut index,
        cards: &mut cards,
    };
    let mut rows = vec![in heap; zero; ROWS]?;
    let mut out = vec![in heap; zero; rows_taken(&calls)]?;
    let mut answers = vec![in heap; Ok(Accepted::Done); calls.len()]?;
    file.carry::<M, R>(heap, &mut library, &mut rows, &mut out, &mut answers)
}
