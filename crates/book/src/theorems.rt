// What holds of every book's levels and values, whatever lies in the places.
ghost use Rattle.book.specs.Lawful.{BooksAreLawful};
ghost use Rattle.book.specs.Least.{LeastIsLeast};
ghost use Rattle.book.specs.Theorems.{KeptRise, KeptUnderCeiling, KeptAreLosses, KeptByMerging, ValuesAreSteps, HalvingSplits};

use reckoning::reckoning::Reckoning;

// The kept levels are the distinct losses, up to the ceiling, of all outcomes, in rising order; the merge comes to just these.
pub fn kept_levels_stand() -> bool
    ensures rise { KeptRise }
    ensures ceiling { KeptUnderCeiling }
    ensures losses { KeptAreLosses }
    ensures merged { KeptByMerging }
{
    true
}

// For every reckoning, values change only at kept levels.
pub fn values_are_steps<R: Reckoning>() -> bool
    ensures { ValuesAreSteps R.Reckoning.operations }
{
    true
}

// On levels that rise, the look-up by halving counts those below the one asked for.
pub fn halving_stands() -> bool
    ensures { HalvingSplits }
{
    true
}

// Ceiling, shares, losses, rates and keys of every book are such as its calls admit, and no key stands twice.
pub fn books_stand() -> bool
    ensures { BooksAreLawful }
{
    true
}

// The least level is found where there is one: the test holds there and at none below.
pub fn least_stands() -> bool
    ensures { LeastIsLeast }
{
    true
}
