// Makes single calls on a book, each with its own number of places, from a script on standard input; prints one answer a line.
#![tactic(auto)]

use probing::running::run_script;
use scripts::input::{Fault, end_at, script_text};
use std::io::Write;

// The error in which a script ends that has a line which is no call.
const NO_CALL: &str = "a line is no call";

fn main(rt: HostRuntime) -> anyhow::Result<()> {
    carry_out(&rt)
}

// Prints the answers, and what is wrong with the first line that is no call.
fn carry_out(rt: &HostRuntime) -> anyhow::Result<()> {
    let script = script_text(rt, NO_CALL)?;
    if script.is_empty() {
        let what = "there is no script";
        return end_at(rt, &Fault { line: 1, what }, NO_CALL);
    }
    let told = run_script(rt.alloc(), script.as_str())?;
    rt.stdout().write_all(&told.text[..])?;
    match told.fault {
        Some(fault) => end_at(rt, &fault, NO_CALL),
        None => Ok(()),
    }
}
