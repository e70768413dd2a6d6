// What a run is made of: calls on an opened book, and their answers.
use reckoning::grains::Grains;

// A call with its arguments; all calls of a run are lent the same places.
#[derive(Clone, Copy)]
pub enum Call<'a> {
    // key, loss, rates
    Enter(u32, u32, &'a [u32]),
    // key, rates
    ReRate(u32, &'a [u32]),
    // key
    Strike(u32),
    // scenario, level
    BoundsAt(u32, u32),
    // scenario, level
    ValueAt(u32, u32),
    // scenario or 0 for the mix, level
    ChanceAt(u32, u32),
    // confidence in millionths
    ReserveFor(u32),
    // from, to
    LayerOf(u32, u32),
}

// What an accepted call answers.
#[derive(Clone, Copy, Debug, PartialEq, Eq)]
pub enum Answer<V> {
    // enter, re-rate and strike are carried out
    Done,
    Bounds(Grains),
    Value(V),
    Chance(u64, u64),
    Reserve(Option<u32>, Option<u32>),
    Layer(u64, u64),
}
