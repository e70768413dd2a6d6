// Carrying out calls: one, and a whole run.
ghost use Rattle.std.specs.Prelude.{◌≡◌, ◌<◌, min, length, take, IfOk};
ghost use Rattle.book.specs.Laid.{state, Holds};
ghost use Rattle.law.specs.Law.{CarriedOut, Law};
ghost use Rattle.book.specs.Listed.{listed};
ghost use Rattle.book.specs.Places.{held, handed_of, SamePlaces};
ghost use Rattle.book.specs.Refusals.{refusal_of};
ghost use Rattle.law.specs.Runs.{DeclinedAs, Sound, One};

use crate::call::{Answer, Call};
use book::book::Book;
use book::places::Lent;
use book::refusal::Refusal;
use reckoning::reckoning::Reckoning;

// Carries out one call on the book. Each answer is made behind a ?: in generic code no map can be handed what makes it.
pub fn step<R: Reckoning>(
    book: &mut Book,
    call: Call,
    places: &mut Lent<'_, R::Value>,
) -> Result<Answer<R::Value>, Refusal>
    ensures does { One R.Reckoning.operations (handed_of (held places.old)) (state book.old (held places.old)) (state book.new (held places.new)) call.entry result }
    ensures lent { SamePlaces places.old places.new }
    ensures declines { DeclinedAs (handed_of (held places.old)) (listed book.old) call.entry (refusal_of result) }
{
    match call {
        Call::Enter(key, loss, rates) => {
            book.enter::<R>(key, loss, rates, places)?;
            Ok(Answer::Done)
        }
        Call::ReRate(key, rates) => {
            book.rerate::<R>(key, rates, places)?;
            Ok(Answer::Done)
        }
        Call::Strike(key) => {
            book.strike::<R>(key, places)?;
            Ok(Answer::Done)
        }
        Call::BoundsAt(s, k) => {
            let told = book.bounds_value::<R>(s, k, &places.shown())?;
            Ok(Answer::Bounds(told))
        }
        Call::ValueAt(s, k) => {
            let told = book.value::<R>(s, k, &places.shown())?;
            Ok(Answer::Value(told))
        }
        Call::ChanceAt(s, k) => {
            let (lower, upper) = book.chance::<R>(s, k, &places.shown())?;
            Ok(Answer::Chance(lower, upper))
        }
        Call::ReserveFor(c) => {
            let (low, high) = book.reserve::<R>(c, &places.shown())?;
            Ok(Answer::Reserve(low, high))
        }
        Call::LayerOf(from, to) => {
            let (low, high) = book.layer::<R>(from, to, &places.shown())?;
            Ok(Answer::Layer(low, high))
        }
    }
}

// Carries out the calls in turn, as many as there are places for answers, and leaves each answer in its place.
fn carry_out<R: Reckoning>(
    book: &mut Book,
    calls: &[Call],
    places: &mut Lent<'_, R::Value>,
    answers: &mut [Result<Answer<R::Value>, Refusal>],
) -> usize
    ensures count { result ≡ min (length calls.now) (length answers.old) }
    ensures lent { SamePlaces places.old places.new }
    ensures carried { Sound (handed_of (held places.old)) (listed book.old) → Holds R.Reckoning.operations book.old (held places.old) → CarriedOut R.Reckoning.operations R.Reckoning.stands (handed_of (held places.old)) (listed book.old) (take result calls.now) (state book.old (held places.old)) (state book.new (held places.new)) answers.old answers.new }
{
    let n = calls.len().min(answers.len());
    // Answers are written by index: of what a zip lends out by iter_mut no element is known after it.
    for (i, call) in calls[..n].iter().enumerate() {
        answers[i] = step::<R>(book, *call, places);
    }
    n
}

// Opens the book, whatever it and the places held, and where that is accepted carries out the calls.
pub fn run<R: Reckoning>(
    book: &mut Book,
    ceiling: u32,
    shares: &[u32],
    calls: &[Call],
    places: &mut Lent<'_, R::Value>,
    answers: &mut [Result<Answer<R::Value>, Refusal>],
) -> Result<usize, Refusal>
    ensures count { IfOk result (λ n. n ≡ min (length calls.now) (length answers.old)) }
    ensures lent { SamePlaces places.old places.new }
    ensures law { Law R.Reckoning.operations R.Reckoning.stands (handed_of (held places.old)) ceiling shares.now (refusal_of result) (take (min (length calls.now) (length answers.old)) calls.now) (state book.old (held places.old)) (state book.new (held places.new)) answers.old answers.new }
{
    book.open::<R>(ceiling, shares, places)?;
    Ok(carry_out::<R>(book, calls, places, answers))
}
