// The round trips: a file read and written back, a book written and read back.
ghost use Rattle.rendering.specs.RoundTrips.{FilesComeBack, BooksComeBack};

use reckoning::reckoning::Reckoning;

// A file read whole and written back is the same bytes; a book written is read back, over any places that are enough.
pub fn round_trips_stand<R: Reckoning>() -> bool
    ensures files { FilesComeBack R.Reckoning.operations }
    ensures books { BooksComeBack R.Reckoning.operations }
{
    true
}
