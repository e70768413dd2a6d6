// What stored cases are put to.
use rendering::statement::statement_of;
use std::fs;

// What a kind of stored case is put to. A trait, since a public function that takes a closure would have to require that it can be called.
pub trait Answering {
    // The answer to what the file of that name holds.
    fn answer(rt: &HostRuntime, input: &str) -> anyhow::Result<Vec<u8>>;

    // Whether that is what the other file holds. A kind says which of the two is read first, since it is the one told of where both are missing: here the other one.
    fn agrees(rt: &HostRuntime, input: &str, output: &str) -> anyhow::Result<bool> {
        let expected = fs::read(rt, output)?;
        let answer = Self::answer(rt, input)?;
        Ok(answer[..] == expected[..])
    }
}

// A tariff file gets its statement.
pub enum Statements {}

impl Answering for Statements {
    fn answer(rt: &HostRuntime, input: &str) -> anyhow::Result<Vec<u8>> {
        let file = fs::read(rt, input)?;
        Ok(statement_of(rt.alloc(), &file[..])?.into_text())
    }
}
