// What is printed of a run.
ghost use Rattle.std.specs.Prelude.{◌≡◌, [], ◌∷◌, ◌++◌, OnOk};
ghost use Rattle.scripts.specs.Said.{said};

use book::refusal::Refusal;
use law::call::Answer;
use scripts::saying::{Said, put_line};
use std::alloc::{AllocError, Global};

// Appends the line of what comes of a call. It is made in the place of the line before, since memory for each takes longer than its words.
fn put(text: &mut Vec<u8>, line: &mut String, told: Said) -> Result<(), AllocError>
    ensures { OnOk result (text.new.items ≡ (text.old.items ++ said told.0) ++ (10 ∷ [])) }
{
    line.clear();
    write!(line, "{told}")?;
    put_line(text, line.as_str())
}

// The line of the opening, and where that is accepted the line of each answer.
pub(crate) fn lines(
    heap: Global,
    opened: Result<usize, Refusal>,
    answers: &[Result<Answer<Option<u16>>, Refusal>],
) -> Result<Vec<u8>, AllocError> {
    let mut text = Vec::new(heap);
    let mut line = String::new(heap);
    put(&mut text, &mut line, Said(opened.map(|_| Answer::Done)))?;
    if opened.is_ok() {
        for told in answers {
            put(&mut text, &mut line, Said(*told))?;
        }
    }
    Ok(text)
}
