// A contract as the book holds it.
ghost use Rattle.std.specs.Prelude.{◌≡◌, ◌^◌, ◌<◌, length};

use reckoning::loss::Loss;
use reckoning::rate::Rate;

// A fixed loss and a claim rate in each scenario; the rates past the book's scenarios are not used.
#[derive(Clone, Copy)]
pub struct Contract {
    pub(crate) key: u32,
    pub(crate) loss: Loss,
    // an array: only the making of a book may take memory, and an ArrayVec is no Copy
    pub(crate) rates: [Rate; 8],
    ghost small_key: { key < 2 ^ 32 },
    ghost eight: { length rates ≡ 8 },
}
