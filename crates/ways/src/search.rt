//! What the search from the source's switch has found so far.

ghost use Rattle.std.specs.Prelude.{◌≤◌};

/// The switches reached in the order in which they were found, how many they are, and the depth of each switch, 0 where it is not reached.
/// Arrays with their number beside them, since nothing may allocate, and a depth of 0, as `Depths` of specs/Search says it.
#[derive(Clone, Copy, Debug, PartialEq, Eq)]
pub struct Search {
    pub order: [u8; 64],
    pub depth: [u8; 64],
    pub reached: usize,
    pub ghost few: { reached ≤ 64 },
}
