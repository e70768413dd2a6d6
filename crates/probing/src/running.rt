// A script of single calls, carried out.
ghost use Rattle.std.specs.Prelude.{◌≤◌, IfOk, IfSome};

use crate::lending::Probe;
use crate::wrong::{Halt, Wrong};
use scripts::input::Fault;
use scripts::saying::put_line;
use std::alloc::{AllocError, Global};

// The answers of a script, one a line, up to a line that is no call.
#[derive(Drop)]
pub struct Transcript {
    pub text: Vec<u8>,
    pub fault: Option<Fault<Wrong>>,
}

// Carries out a script on a book before open, line by line.
pub fn run_script(heap: Global, script: &str) -> Result<Transcript, AllocError>
    ensures from_one { IfOk result (λ t. IfSome t.fault (λ f. 1 ≤ f.line)) }
{
    let mut probe = Probe::new(heap)?;
    let mut text = Vec::new(heap);
    for (before, line) in script.lines().enumerate() {
        match probe.answer(heap, line) {
            Ok(said) => put_line(&mut text, said.as_str())?,
            Err(Halt::NoCall(what)) => {
                let line = before.saturating_add(1);
                let fault = Some(Fault { line, what });
                return Ok(Transcript { text, fault });
            }
            Err(Halt::Memory(wrong)) => return Err(wrong),
        }
    }
    Ok(Transcript { text, fault: None })
}
