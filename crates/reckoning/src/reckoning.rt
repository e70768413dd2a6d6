// What a reckoning is: three operations on plain values, and what the values stand for.
ghost use Rattle.std.specs.Prelude.{◌≡◌, ℕ, ◌≤◌, List, [], ◌∷◌, ◌++◌, length};
ghost use Rattle.reckoning.specs.Outcomes.{Family, either};
ghost use Rattle.reckoning.specs.Operations.{Operations};

use crate::rate::Rate;

pub trait Reckoning {
    // A value as it lies in a place, where others may write any numbers.
    type Value: Copy;

    // The answers of nothing, whole and blend.
    ghost operations: { Operations Self.Value };

    // The value is one that an operation could answer.
    ghost ranged: { Self.Value → Type 0 };

    // A place's value as an operation reads it.
    ghost reading: { Self.Value → Self.Value };

    // The value stands for this family over contracts of these rates, in order of entry.
    ghost stands: { Self.Value → List ℕ → Family → Type 0 };

    fn nothing() -> Self::Value
        ensures { result ≡ operations.nothing };

    fn whole() -> Self::Value
        ensures { result ≡ operations.whole };

    fn blend(rate: Rate, u: Self::Value, v: Self::Value) -> Self::Value
        ensures { result ≡ operations.blended rate.millionths u v };

    // The value that a place holds, in range whatever was written there.
    fn read(place: Self::Value) -> Self::Value
        ensures { result ≡ reading place };

    // Nothing stands for the empty family, whatever the contracts.
    ghost nothing_stands: { (rates : List ℕ) → stands operations.nothing rates [] };

    // Whole stands for the one outcome of no contracts.
    ghost whole_stands: { stands operations.whole [] ([] ∷ []) };

    // Blend stands for the outcomes of u where the new contract does not claim, then those of v where it does.
    ghost blend_stands: { (rate : ℕ) (u v : Self.Value) (rates : List ℕ) (us vs : Family) → rate ≤ 1000000 → length rates ≤ 255 → stands u rates us → stands v rates vs → stands (operations.blended rate u v) (rates ++ (rate ∷ [])) (either us vs) };

    // Out of range, a value stands for no family.
    ghost stands_ranged: { (u : Self.Value) (rates : List ℕ) (family : Family) → stands u rates family → ranged u };

    // Whatever the operands, the answer is in range.
    ghost blend_ranged: { (rate : ℕ) (u v : Self.Value) → rate ≤ 1000000 → ranged (operations.blended rate u v) };

    // Reading gives a value in range, and leaves one that is in range as it is.
    ghost reading_ranged: { (u : Self.Value) → ranged (reading u) };

    ghost reading_same: { (u : Self.Value) → ranged u → reading u ≡ u };
}
