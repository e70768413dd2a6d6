// The calls on a book by their words.
ghost use Rattle.std.specs.Prelude.{◌≡◌, length, is_some, IfSome};
ghost use Rattle.scripts.specs.Asked.{Named, verb_asked, numbers_asked, takes, words_of};

use law::call::Call;

// What a line asks of a book.
#[derive(Clone, Copy, Debug, PartialEq)]
pub enum Verb {
    Enter,
    Rerate,
    Strike,
    Bounds,
    Claims,
    Chance,
    Reserve,
    Layer,
}

// The verb of a line's first word; value takes a second word, which says of what.
pub fn verb_of(first: &str, second: &str) -> Option<Verb>
    ensures { Named first.now second.now result }
{
    match first {
        "enter" => Some(Verb::Enter),
        "rerate" => Some(Verb::Rerate),
        "strike" => Some(Verb::Strike),
        "chance" => Some(Verb::Chance),
        "reserve" => Some(Verb::Reserve),
        "layer" => Some(Verb::Layer),
        "value" => match second {
            "bounds" => Some(Verb::Bounds),
            "claims" => Some(Verb::Claims),
            _ => None,
        },
        _ => None,
    }
}

impl Verb {
    // How many words ask for it.
    pub fn words(self) -> usize
        ensures { result ≡ words_of self }
    {
        match self {
            Verb::Bounds | Verb::Claims => 2,
            _ => 1,
        }
    }
}

// The call that a verb and its numbers make, if they make one.
pub fn call_of<'a>(verb: Verb, numbers: &'a [u32]) -> Option<Call<'a>>
    ensures takes { is_some result ≡ takes verb (length numbers.now) }
    ensures asks { IfSome result (λ c. (verb_asked c ≡ verb) × (numbers_asked c ≡ numbers.now)) }
{
    match (verb, numbers) {
        (Verb::Enter, [key, loss, rates @ ..]) => Some(Call::Enter(*key, *loss, rates)),
        (Verb::Rerate, [key, rates @ ..]) => Some(Call::ReRate(*key, rates)),
        (Verb::Strike, [key]) => Some(Call::Strike(*key)),
        (Verb::Bounds, [scenario, level]) => Some(Call::BoundsAt(*scenario, *level)),
        (Verb::Claims, [scenario, level]) => Some(Call::ValueAt(*scenario, *level)),
        (Verb::Chance, [scenario, level]) => Some(Call::ChanceAt(*scenario, *level)),
        (Verb::Reserve, [confidence]) => Some(Call::ReserveFor(*confidence)),
        (Verb::Layer, [from, to]) => Some(Call::LayerOf(*from, *to)),
        _ => None,
    }
}
