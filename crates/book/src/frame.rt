// What a book's places hang on.
ghost use Rattle.std.specs.Prelude.{◌≤◌};

// The ceiling, the number of scenarios, the level places, and how many of them hold levels.
#[derive(Clone, Copy)]
pub(crate) struct Frame {
    pub(crate) ceiling: u32,
    pub(crate) scenarios: usize,
    pub(crate) places: usize,
    pub(crate) len: usize,
    ghost low_ceiling: { ceiling ≤ 65535 },
    ghost few_scenarios: { scenarios ≤ 8 },
    ghost few_places: { places ≤ 65536 },
    ghost inside: { len ≤ places },
}
