// The contract part of a file.
ghost use Rattle.std.specs.Prelude.{◌+◌, ◌≤◌, length};

// The bytes between the S lines and the trailer, which begin at the byte `base` of the file: C lines of a key, a loss and one rate a scenario.
#[derive(Clone, Copy)]
pub(crate) struct ContractPart<'a> {
    pub(crate) bytes: &'a [u8],
    pub(crate) base: usize,
    pub(crate) scenarios: usize,
    ghost short: { base + length bytes.now ≤ 65536 },
    ghost few: { scenarios ≤ 9 },
}
