// Runs stored tariff files through the statement and stored scripts through the probe, and prints how many got the answers that are stored beside them.
#![tactic(auto)]

use probing::running::run_script;
use std::fs;
use stored::answering::{Answering, Statements};
use stored::comparing::compare;

// A script of single calls gets its answers.
enum Scripts {}

impl Answering for Scripts {
    fn answer(rt: &HostRuntime, input: &str) -> anyhow::Result<Vec<u8>> {
        let script = fs::read_to_string(rt, input)?;
        Ok(run_script(rt.alloc(), script.as_str())?.text)
    }
}

fn main(rt: HostRuntime) -> anyhow::Result<()> {
    compare::<Statements>(&rt, "", "files")?;
    compare::<Scripts>(&rt, "calls/", "scripts")?;
    Ok(())
}
