// A book with places beside it, of which each call is handed some.
use crate::words::number_at;
use crate::wrong::Wrong;
use book::book::Book;
use book::places::Lent;
use book::shown::Handed;
use reckoning::grains::Grains;
use std::alloc::{AllocError, Global};

// How many level places there are: some more than a book can be handed.
const LEVELS: usize = 65_540;

// How many value places there are for each reckoning: some more than eight scenarios can use.
const VALUES: usize = 524_300;

// A book, and the places that its calls are handed.
#[derive(Drop)]
pub(crate) struct Probe {
    pub(crate) book: Book,
    pub(crate) places: Places,
}

// Level places, and value places of each reckoning.
#[derive(Drop)]
pub(crate) struct Places {
    pub(crate) levels: Vec<u32>,
    pub(crate) bounds: Vec<Grains>,
    pub(crate) claims: Vec<Option<u16>>,
}

// How many places a line hands over, by the three words after the first.
pub(crate) fn handed_by(line: &str) -> Result<Handed, Wrong> {
    let levels = number_at(line, 1)?;
    let bounds = number_at(line, 2)?;
    let values = number_at(line, 3)?;
    Ok(Handed {
        levels,
        bounds,
        values,
    })
}

// The first places, if there are so many.
fn front<T>(places: &mut [T], count: usize) -> Result<&mut [T], Wrong> {
    places.get_mut(..count).ok_or(Wrong::Places)
}

impl Places {
    // The first places of each kind.
    pub(crate) fn lend(&mut self, handed: Handed) -> Result<Lent<'_, Option<u16>>, Wrong> {
        let levels = front(&mut self.levels[..], handed.levels)?;
        let bounds = front(&mut self.bounds[..], handed.bounds)?;
        let claims = front(&mut self.claims[..], handed.values)?;
        Ok(Lent::new(levels, bounds, claims))
    }
}

impl Probe {
    // A book before open, and places that no call has written to.
    pub(crate) fn new(heap: Global) -> Result<Probe, AllocError> {
        let book = Book::new(heap)?;
        let levels: Vec<u32> = vec![in heap; u32::MAX; LEVELS]?;
        let bounds: Vec<Grains> = vec![in heap; Grains { lower: 0, upper: 0 }; VALUES]?;
        let claims: Vec<Option<u16>> = vec![in heap; None; VALUES]?;
        let places = Places {
            levels,
            bounds,
            claims,
        };
        Ok(Probe { book, places })
    }
}
