// The table by which groups of characters are decoded. A function that is lent a table knows its rule by the type alone.
ghost use Rattle.std.specs.Prelude.{◌≡◌, [], ◌∷◌, ◌+◌, ◌≤◌, ◌<◌, length};
ghost use Rattle.decoder.specs.Tables.{mark, marked, entries_of, group_at};

use crate::groups;

// What the table has for a byte outside the alphabet: more than the numbers of sixteen groups together.
pub const MARK: u64 = 268435456;

// What each character adds to the number of its group, for each of the four places in a group. An entry function binds it once and
// lends it to the functions below it, since a constant is stored anew wherever it is named.
#[derive(Clone, Copy)]
pub struct GroupTable {
    entries: [[u32; 256]; 4],
    pub ghost rule: { entries ≡ entries_of 0 ∷ entries_of 1 ∷ entries_of 2 ∷ entries_of 3 ∷ [] },
}

impl GroupTable {
    pub fn new() -> GroupTable {
        GroupTable {
            entries: groups::TABLES,
        }
    }

    // The entry of a byte for one of the places in a group.
    fn entry_of(&self, place: usize, c: u8) -> u32
        requires { place < 4 }
        ensures { (result ≡ marked place c) × (result ≤ mark) }
    {
        self.entries[place][c as usize]
    }

    // The number of 24 bits that the group at a place is, its first byte lowest; the mark or more where one of its characters is
    // outside the alphabet.
    pub fn number_at(&self, text: &[u8], i: usize) -> u32
        requires { i + 4 ≤ length text.now }
        ensures { (result ≡ group_at text.now i) × (result ≤ 1073741824) }
    {
        self.entry_of(0, text[i])
            + self.entry_of(1, text[i + 1])
            + self.entry_of(2, text[i + 2])
            + self.entry_of(3, text[i + 3])
    }

    // Whether a run ends before a byte, since no group begins with it. No promise rests on it: it spares groups that would fail, and
    // costs little, since their first entry is looked up in any case.
    pub(crate) fn ends_run(&self, c: u8) -> bool {
        MARK <= u64::from(self.entry_of(0, c))
    }
}
