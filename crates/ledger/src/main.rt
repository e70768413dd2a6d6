// Runs a script of calls on a book from standard input, and prints one answer a line.
#![tactic(auto)]

mod asked;
mod saying;
mod script;

use book::book::Book;
use book::places::Lent;
use book::refusal::Refusal;
use law::call::{Answer, Call};
use law::running::run;
use reckoning::claims::Claims;
use reckoning::grains::Grains;
use script::{Halt, Script, read_script};
use scripts::input::{end_at, script_text};
use std::alloc::{AllocError, Global};
use std::io::Write;

// The error in which a script ends that is none.
const NO_SCRIPT: &str = "the script is no script";

fn main(rt: HostRuntime) -> anyhow::Result<()> {
    carry_out(&rt)
}

// Prints the answers, or what is wrong with the script.
fn carry_out(rt: &HostRuntime) -> anyhow::Result<()> {
    let heap = rt.alloc();
    let text = script_text(rt, NO_SCRIPT)?;
    match read_script(heap, text.as_str()) {
        Ok(script) => {
            let told = answers(heap, &script)?;
            rt.stdout().write_all(&told[..])?;
            Ok(())
        }
        Err(Halt::NoScript(wrong)) => end_at(rt, &wrong, NO_SCRIPT),
        Err(Halt::Memory(e)) => Err(e.into()),
    }
}

// The answers of a script, one a line. All memory that the run needs is taken before it.
fn answers(heap: Global, script: &Script) -> Result<Vec<u8>, AllocError> {
    let mut book = Book::new(heap)?;
    let mut levels: Vec<u32> = vec![in heap; 0; script.places.levels]?;
    let mut bounds: Vec<Grains> = vec![in heap; Grains { lower: 0, upper: 0 }; script
        .places
        .bounds]?;
    let mut values: Vec<Option<u16>> = vec![in heap; None; script.places.values]?;
    let calls: Vec<Call> = script.calls(heap)?;
    let mut told: Vec<Result<Answer<Option<u16>>, Refusal>> = vec![in heap; Ok(
        Answer::Done
    ); calls.len()]?;
    let opened = run::<Claims>(
        &mut book,
        script.ceiling,
        script.shares(),
        &calls[..],
        &mut Lent::new(&mut levels[..], &mut bounds[..], &mut values[..]),
        &mut told[..],
    );
    saying::lines(heap, opened, &told[..])
}
