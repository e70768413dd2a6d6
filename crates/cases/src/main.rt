// Runs stored tariff files through the statement, and prints how many got the answer that is stored beside them.
#![tactic(auto)]

use rendering::statement::statement_of;
use std::fs;
use stored::answering::{Answering, Statements};
use stored::comparing::compare;

// A tariff file gets its statement. It is read before the stored one, so that it is the one told of where both are missing.
enum Files {}

impl Answering for Files {
    fn answer(rt: &HostRuntime, input: &str) -> anyhow::Result<Vec<u8>> {
        Statements::answer(rt, input)
    }

    fn agrees(rt: &HostRuntime, input: &str, output: &str) -> anyhow::Result<bool> {
        let file = fs::read(rt, input)?;
        let expected = fs::read(rt, output)?;
        let statement = statement_of(rt.alloc(), &file[..])?.into_text();
        Ok(statement[..] == expected[..])
    }
}

fn main(rt: HostRuntime) -> anyhow::Result<()> {
    compare::<Files>(&rt, "", "files")?;
    Ok(())
}
