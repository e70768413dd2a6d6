// A script from standard input, and what is wrong with it.
ghost use Rattle.std.specs.Prelude.{IsErr};
ghost use Rattle.scripts.specs.Said.{fault_said};

use anyhow::anyhow;
use std::fmt;
use std::io::Read;

// A line that is wrong, from 1, and what is wrong with it.
#[derive(Clone, Copy, Debug, Drop)]
pub struct Fault<W> {
    pub line: usize,
    pub what: W,
}

impl<W: fmt::Display> fmt::Display for Fault<W> {
    ghost output = { λ fault. fault_said fault.line (W.output fault.what) };

    fn fmt<T: fmt::Write>(&self, f: &mut fmt::Formatter<T>) -> fmt::Result {
        let line = self.line;
        write!(f, "line {line}: {}", &self.what)
    }
}

// Says on standard error what is wrong with a line, and ends in an error.
pub fn end_at<T, W: fmt::Display>(
    rt: &HostRuntime,
    fault: &Fault<W>,
    end: &'static str,
) -> anyhow::Result<T>
    ensures ends { IsErr result }
{
    eprintln!(rt; "{fault}")?;
    Err(anyhow!(end))
}

// Says on standard error what is wrong with a line, counted from 1.
pub fn say_fault(rt: &HostRuntime, line: usize, what: &str) -> anyhow::Result<()> {
    let fault = Fault { line, what };
    eprintln!(rt; "{fault}")?;
    Ok(())
}

// The text of standard input; none where it is no text, which is then said.
pub fn read_script_text(rt: &HostRuntime) -> anyhow::Result<Option<String>> {
    let mut bytes: Vec<u8> = Vec::new(rt.alloc());
    rt.stdin().read_to_end(&mut bytes)?;
    match String::from_utf8(bytes) {
        Ok(text) => Ok(Some(text)),
        Err(_) => {
            say_fault(rt, 1, "the script is not text")?;
            Ok(None)
        }
    }
}

// The same, where it ends in an error if it is no text.
pub fn script_text(rt: &HostRuntime, end: &'static str) -> anyhow::Result<String> {
    match read_script_text(rt)? {
        Some(text) => Ok(text),
        None => Err(anyhow!(end)),
    }
}
