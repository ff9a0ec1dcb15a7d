// A report in the measure and by the reducer that the words choose.
ghost use Rattle.std.specs.Prelude.{IfOk, string_bytes};
ghost use Rattle.card_report.specs.Reports.{Reported};

use crate::words::Words;
use costs::keep::Keep;
use costs::memory::Memory;
use costs::merge::Merge;
use costs::ticks::Ticks;
use files::form::Form;
use files::session::session;
use std::alloc::{AllocError, Global};

// All that a file of sheets prints.
pub fn run(heap: Global, words: Words, bytes: &[u8]) -> Result<String, AllocError>
    ensures { IfOk result (λ s. Reported words.memory words.merge bytes.now (string_bytes s)) }
{
    match (words.memory, words.merge) {
        (false, false) => session::<Ticks, Keep>(heap, Form::Report, bytes),
        (false, true) => session::<Ticks, Merge>(heap, Form::Report, bytes),
        (true, false) => session::<Memory, Keep>(heap, Form::Report, bytes),
        (true, true) => session::<Memory, Merge>(heap, Form::Report, bytes),
    }
}
