// The number of outcomes that can come about, up to a level.
ghost use Rattle.std.specs.Prelude.{◌≡◌, ◌^◌, ◌≤◌, true, false, ◌&&◌, length, IfOk, nat_le, nat_lt};
ghost use Rattle.reckoning.specs.Outcomes.{odds};
ghost use Rattle.book.specs.Refusals.{first};
ghost use Rattle.tree.specs.Counted.{counted, count_sentences, refusal_of};

use crate::pair::Pair;
use crate::refusal::CountRefusal;
use reckoning::loss::Loss;
use reckoning::rate::Rate;

// The most pairs that are counted: of so many, 2^16 outcomes are walked.
const MOST: usize = 16;

impl Pair {
    // Whether the branch without a claim has a weight above zero.
    fn may_stay_free(self) -> bool
        ensures { result ≡ nat_lt 0 (odds self.rate false) }
    {
        self.rate < 1_000_000
    }

    // Whether the branch with a claim has a weight above zero and no loss above the level.
    fn may_claim(self, level: u32) -> bool
        ensures { result ≡ (nat_lt 0 (odds self.rate true) && nat_le self.loss level) }
    {
        self.rate > 0 && self.loss <= level
    }
}

// Walks the tree below one node: the last contract claims or it does not, and each branch that counts leads to a tree of one contract fewer.
fn walk(pairs: &[Pair], level: u32) -> u32
    requires few { length pairs.now ≤ 16 }
    ensures tells { result ≡ length (counted level pairs.now) }
    ensures bound { result ≤ 2 ^ length pairs.now }
{
    let Some((last, rest)) = pairs.split_last() else {
        return 1;
    };
    let without = if last.may_stay_free() {
        walk(rest, level)
    } else {
        0
    };
    let with = if last.may_claim(level) {
        walk(rest, level - last.loss)
    } else {
        0
    };
    without + with
}

// How many outcomes of at most 16 contracts have a weight above zero and a loss at most the level.
pub fn count(pairs: &[Pair], level: u32) -> Result<u32, CountRefusal>
    ensures declines { refusal_of result ≡ first (count_sentences pairs.now) }
    ensures tells { IfOk result (λ n. n ≡ length (counted level pairs.now)) }
{
    if pairs.iter().any(|pair| Loss::new(pair.loss).is_none()) {
        return Err(CountRefusal::Loss);
    }
    if pairs.iter().any(|pair| Rate::new(pair.rate).is_none()) {
        return Err(CountRefusal::Rate);
    }
    if pairs.len() > MOST {
        return Err(CountRefusal::TooMany);
    }
    Ok(walk(pairs, level))
}
