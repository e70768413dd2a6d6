// The calls of a script, by their verbs and numbers, behind the shares of its opening.
ghost use Rattle.std.specs.Prelude.{◌≡◌, ◌+◌, ◌≤◌, true, vec_len};
ghost use Rattle.std.specs.List.{sum_by};
ghost use Rattle.scripts.specs.Asked.{takes};

use law::call::Call;
use scripts::verb::{Verb, call_of};
use std::alloc::{AllocError, Global};

// A call by its verb and by how many numbers it has: as many as the verb takes.
#[derive(Clone, Copy)]
pub(crate) struct Asked {
    pub(crate) verb: Verb,
    pub(crate) count: usize,
    ghost taken: { takes verb count ≡ true },
}

// Calls in their order, and one list of numbers: the shares of the opening, and behind them those of each call behind the one before. A list for each call takes up to 1.4 times the memory and 1.7 times the time, and one more for the shares up to a third more memory.
#[derive(Drop)]
pub(crate) struct AskedCalls {
    pub(crate) asked: Vec<Asked>,
    pub(crate) numbers: Vec<u32>,
    pub(crate) opening: usize,
    ghost enough: { opening + sum_by (λ a. a.count) asked.items ≤ vec_len numbers },
}

impl AskedCalls {
    // No call yet, behind an opening with these shares.
    pub(crate) fn behind(heap: Global, shares: Vec<u32>) -> AskedCalls {
        AskedCalls {
            asked: Vec::new(heap),
            opening: shares.len(),
            numbers: shares,
        }
    }

    // The shares of the opening.
    pub(crate) fn shares(&self) -> &[u32] {
        &self.numbers[..self.opening]
    }

    // Appends the call that a verb makes of the numbers from a place on; false where it takes another count.
    pub(crate) fn add(&mut self, verb: Verb, from: usize) -> Result<bool, AllocError>
        requires behind { self.old.opening + sum_by (λ a. a.count) self.old.asked.items ≤ from }
        requires within { from ≤ vec_len self.old.numbers }
    {
        let own = &self.numbers[from..];
        if call_of(verb, own).is_none() {
            return Ok(false);
        }
        let count = own.len();
        self.asked.push(Asked { verb, count })?;
        Ok(true)
    }

    // The calls, each with its numbers.
    pub(crate) fn calls(&self, heap: Global) -> Result<Vec<Call<'_>>, AllocError> {
        let mut calls = Vec::with_capacity(heap, self.asked.len())?;
        let mut rest = &self.numbers[self.opening..];
        for asked in self.asked.iter() {
            let (own, later) = rest.split_at(asked.count);
            calls.push(call_of(asked.verb, own).unwrap())?;
            rest = later;
        }
        Ok(calls)
    }
}
