// The table by which full lines are written: the four values of a group as one number, by sums.
// A function that is lent a table knows its rule by the type alone.
ghost use Rattle.std.specs.Prelude.{◌≡◌, [], ◌∷◌, ◌+◌};
ghost use Rattle.writer.specs.Spread.{entries_of, spread};

use crate::groups;

// What each byte adds to the number whose bytes, the first lowest, are the values of its group, for each place in a group.
#[derive(Drop)]
pub struct ValuesTable {
    entries: [[u32; 256]; 3],
    pub ghost rule: { entries ≡ entries_of 0 ∷ entries_of 1 ∷ entries_of 2 ∷ [] },
}

impl ValuesTable {
    pub fn new() -> ValuesTable {
        ValuesTable {
            entries: groups::TABLES,
        }
    }

    // The number of a group.
    pub fn number_of(&self, x: u8, y: u8, z: u8) -> u32
        ensures { result ≡ spread 0 x + spread 1 y + spread 2 z }
    {
        self.entries[0][usize::from(x)]
            + self.entries[1][usize::from(y)]
            + self.entries[2][usize::from(z)]
    }
}
