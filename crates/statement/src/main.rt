// Reads a tariff file from standard input and prints its statement.
#![tactic(auto)]

use anyhow::anyhow;
use rendering::statement::{Statement, statement_of};
use std::io::Read;

fn main(rt: HostRuntime) -> anyhow::Result<()> {
    run(&rt)
}

// Prints the table of levels, or the refusal, which is an error besides.
fn run(rt: &HostRuntime) -> anyhow::Result<()> {
    let heap = rt.alloc();
    let mut file: Vec<u8> = Vec::new(heap);
    rt.stdin().read_to_end(&mut file)?;
    match statement_of(heap, &file[..])? {
        Statement::Table(text) => write_all(rt, &text[..]),
        Statement::Refusal(text) => {
            write_all(rt, &text[..])?;
            Err(anyhow!("the file is refused; docs/refusals.md tells what the number means"))
        }
    }
}

fn write_all(rt: &HostRuntime, text: &[u8]) -> anyhow::Result<()> {
    use std::io::Write;
    rt.stdout().write_all(text)?;
    Ok(())
}
