// A journal: ticks with keep.
ghost use Rattle.std.specs.Prelude.{IfOk, string_bytes};
ghost use Rattle.files.specs.Laws.{ticks_keep, ticks_text};
ghost use Rattle.files.specs.Printing.{PrintedLawfully};

use costs::keep::Keep;
use costs::ticks::Ticks;
use files::form::Form;
use files::session::session;
use std::alloc::{AllocError, Global};

// All that a journal's file prints, with the law of its library without a premise.
pub fn run(heap: Global, bytes: &[u8]) -> Result<String, AllocError>
    ensures { IfOk result (λ s. PrintedLawfully ticks_keep ticks_text Form.Journal bytes.now (string_bytes s)) }
{
    session::<Ticks, Keep>(heap, Form::Journal, bytes)
}
