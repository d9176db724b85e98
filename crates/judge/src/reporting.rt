// The text that the program prints of a file.
ghost use Rattle.std.specs.Prelude.{◌≡◌, IfOk, string_bytes};
ghost use Rattle.judge.specs.Judging.{judged};
ghost use Rattle.judge.specs.Texts.{report_text};

use crate::judging::judge;
use std::alloc::{AllocError, Global};

// The lines on the file's contents, or the one line of its refusal.
pub fn report(heap: Global, file: &[u8]) -> Result<String, AllocError>
    ensures { IfOk result (λ s. string_bytes s ≡ report_text (judged file.now)) }
{
    match judge(file) {
        Ok(contents) => format!(in heap; "{contents}\n"),
        Err(fault) => format!(in heap; "{fault}\n"),
    }
}
