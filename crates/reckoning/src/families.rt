// What holds of the outcomes themselves.
ghost use Rattle.reckoning.specs.Every.{EachOnce};

// The list of all outcomes has each outcome once, and no other.
pub fn outcomes_stand() -> bool
    ensures { EachOnce }
{
    true
}
