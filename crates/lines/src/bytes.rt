// The place behind a byte.
ghost use Rattle.std.specs.Prelude.{◌≡◌, ◌+◌, ◌<◌, [], ◌∷◌, length, MatchOption};
ghost use Rattle.lines.specs.Places.{Stands};

// The place behind this byte, where it stands at a place.
pub(crate) fn behind(bytes: &[u8], place: usize, byte: u8) -> Option<usize>
    ensures { MatchOption result (Stands bytes.now place (byte ∷ []) → ⊥) (λ next. (next ≡ place + 1) × (place < length bytes.now) × Stands bytes.now place (byte ∷ [])) }
{
    if bytes.get(place) == Some(&byte) {
        Some(place + 1)
    } else {
        None
    }
}
