// The places that a call on the book is lent.
ghost use Rattle.std.specs.Prelude.{◌≡◌};
ghost use Rattle.book.specs.Places.{places_of, held};

use reckoning::grains::Grains;

// Level places, and value places for the bounds and for one reckoning more.
#[derive(Drop)]
pub struct Lent<'a, V> {
    pub levels: &'a mut [u32],
    pub bounds: &'a mut [Grains],
    pub values: &'a mut [V],
}

impl<'a, V> Lent<'a, V> {
    // These places, to be written to.
    pub fn new(levels: &'a mut [u32], bounds: &'a mut [Grains], values: &'a mut [V]) -> Lent<'a, V>
        ensures value { held result ≡ places_of levels.old bounds.old values.old }
        ensures levels { result.levels.ghost_name ≡ levels.entry.ghost_name }
        ensures bounds { result.bounds.ghost_name ≡ bounds.entry.ghost_name }
        ensures values { result.values.ghost_name ≡ values.entry.ghost_name }
    {
        Lent {
            levels,
            bounds,
            values,
        }
    }
}
