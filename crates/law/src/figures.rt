// What the figures of a book have to do with the outcomes of its contracts.
ghost use Rattle.law.specs.Truth.{FiguresStand, BooksTellTruth};
ghost use Rattle.law.specs.Worked.{WorkedCasesStand};

use reckoning::reckoning::Reckoning;

// In every well formed list, and so in the list of every book, values stand for the outcomes of no greater loss; chances, reserves and layers enclose the exact figures, narrowly.
pub fn figures_stand<R: Reckoning>() -> bool
    ensures lists { FiguresStand R.Reckoning.operations R.Reckoning.stands }
    ensures books { BooksTellTruth R.Reckoning.operations R.Reckoning.stands }
{
    true
}

// Small books worked through have the figures that their table says.
pub fn worked_cases_stand() -> bool
    ensures { WorkedCasesStand }
{
    true
}
