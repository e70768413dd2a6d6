// What holds of every file, whoever reads it.
ghost use Rattle.tariff.specs.Filed.{OneAnswer, GoodIsRead};
ghost use Rattle.tariff.specs.Forms.{RightOrWrong, ToldOnce, FilesRight, RightAreFiles};

use reckoning::reckoning::Reckoning;

// The files of the right form are just the files of lists whose numbers fit; no file is both right and wrong in form, and what is wrong is told by one number at one byte.
pub fn forms_stand() -> bool
    ensures right { FilesRight }
    ensures files { RightAreFiles }
    ensures apart { RightOrWrong }
    ensures once { ToldOnce }
{
    true
}

// For every reckoning, whoever reads a file as read promises reads every good file whole, and gives one answer and leaves one list.
pub fn answers_stand<R: Reckoning>() -> bool
    ensures good { GoodIsRead R.Reckoning.operations }
    ensures one { OneAnswer R.Reckoning.operations }
{
    true
}
