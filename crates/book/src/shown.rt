// The places that a call only reads, and how many there are.
ghost use Rattle.std.specs.Prelude.{◌≡◌};
ghost use Rattle.book.specs.Places.{places_of, held, shown, handed_of};

use crate::places::Lent;
use reckoning::grains::Grains;

// The places of a book, to be read.
#[derive(Clone, Copy)]
pub struct Shown<'a, V> {
    pub levels: &'a [u32],
    pub bounds: &'a [Grains],
    pub values: &'a [V],
}

// How many places of each kind a call is handed.
#[derive(Clone, Copy, Debug, PartialEq, Eq)]
pub struct Handed {
    pub levels: usize,
    pub bounds: usize,
    pub values: usize,
}

impl<'a, V> Shown<'a, V> {
    // These places, to be read.
    pub fn new(levels: &'a [u32], bounds: &'a [Grains], values: &'a [V]) -> Shown<'a, V>
        ensures value { shown result ≡ places_of levels.now bounds.now values.now }
    {
        Shown {
            levels,
            bounds,
            values,
        }
    }

    // How many they are.
    pub fn handed(&self) -> Handed
        ensures value { result ≡ handed_of (shown self.now) }
    {
        Handed {
            levels: self.levels.len(),
            bounds: self.bounds.len(),
            values: self.values.len(),
        }
    }
}

impl<V> Lent<'_, V> {
    // What they hold, to be read.
    pub fn shown(&self) -> Shown<'_, V>
        ensures value { shown result ≡ held self.now }
    {
        Shown::new(self.levels, self.bounds, self.values)
    }

    // How many they are.
    pub fn handed(&self) -> Handed
        ensures value { result ≡ handed_of (held self.now) }
    {
        self.shown().handed()
    }
}
