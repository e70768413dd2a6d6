// Running stored cases.
ghost use Rattle.std.specs.Prelude.{◌≡◌, ◌+◌, ◌≤◌, min, cond, IfOk};

use crate::answering::Answering;
use std::fs;

// How many cases were run, and how many got the answer that is stored.
#[derive(Clone, Copy, Debug, PartialEq, Eq)]
pub struct Tally {
    pub cases: usize,
    pub agreed: usize,
    ghost no_more: { agreed ≤ cases },
}

impl Tally {
    // The tally of no cases.
    pub fn none() -> Tally
        ensures cases { result.cases ≡ 0 }
        ensures agreed { result.agreed ≡ 0 }
    {
        Tally {
            cases: 0,
            agreed: 0,
        }
    }

    // The tally with one case more, which agreed or did not.
    pub fn with(self, agrees: bool) -> Tally
        ensures cases { result.cases ≡ min (self.cases + 1) 18446744073709551615 }
        ensures agreed { result.agreed ≡ cond agrees (min (self.agreed + 1) 18446744073709551615) self.agreed }
    {
        Tally {
            cases: self.cases.saturating_add(1),
            agreed: if agrees {
                self.agreed.saturating_add(1)
            } else {
                self.agreed
            },
        }
    }
}

// Runs the cases of a folder, prints those that differ and how many agree, and tells that. Each line of the folder's file `index` names a case: NAME.in is what is run, NAME.out its answer.
pub fn compare<A: Answering>(rt: &HostRuntime, folder: &str, plural: &str) -> anyhow::Result<Tally>
    ensures within { IfOk result (λ tally. tally.agreed ≤ tally.cases) }
{
    let path = format!(in rt.alloc(); "{folder}index")?;
    let index = fs::read_to_string(rt, path.as_str())?;
    // In a loop, since a case that differs is printed, and one that cannot be run ends it.
    let mut tally = Tally::none();
    for name in index.as_str().lines() {
        let agrees = agrees::<A>(rt, folder, name)?;
        tally = tally.with(agrees);
        if !agrees {
            println!(rt; "{folder}{name} differs")?;
        }
    }
    println!(rt; "{} of {} {plural} agree", tally.agreed, tally.cases)?;
    Ok(tally)
}

// Whether the case of that name gets the answer that is stored.
fn agrees<A: Answering>(rt: &HostRuntime, folder: &str, name: &str) -> anyhow::Result<bool> {
    let heap = rt.alloc();
    let input = format!(in heap; "{folder}{name}.in")?;
    let output = format!(in heap; "{folder}{name}.out")?;
    A::agrees(rt, input.as_str(), output.as_str())
}
