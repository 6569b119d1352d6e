// Base 64 of RFC 4648, section 4: the alphabet, and groups of values and bytes in both directions.
// The definitions that the contracts cite stand in specs/; each function is proved equal to its definition.
#![tactic(auto)]

ghost use Rattle.std.specs.Prelude.{◌≡◌, [], ◌∷◌, ◌*◌, ◌/◌, ◌<◌, ◌≤◌, length};
ghost use Rattle.base_64.specs.Groups.{to_bytes, to_values, spare_bits, encode};

mod tables;

pub use tables::{DecodeTable, EncodeTable, RADIX, Sextet};

// The pad behind a short group.
pub const PAD: u8 = b'=';

// The characters of a group, and the bytes that they stand for.
pub const GROUP_CHARS: usize = 4;

pub const GROUP_BYTES: usize = 3;

// A count of decoded bytes. It is no offset in a text (`grammar::TextOffset`).
#[derive(Clone, Copy, Debug, PartialEq, Eq)]
pub struct ByteCount(pub usize);

// The bytes of a group that has pads, one or two, and the bits behind them.
#[derive(Clone, Copy, Debug, PartialEq, Eq)]
pub struct ShortGroup<const N: usize> {
    pub bytes: [u8; N],
    pub spare: u8,
}

// How many bytes so many characters stand for.
pub fn decoded_count(characters: usize) -> ByteCount
    ensures { result.0 ≡ characters * 3 / 4 }
{
    ByteCount(characters / 4 * 3 + characters % 4 * 3 / 4)
}

// Four values: three bytes.
pub fn bytes_of_four(a: Sextet, b: Sextet, c: Sextet, d: Sextet) -> [u8; 3]
    ensures { result ≡ to_bytes (a ∷ b ∷ c ∷ d ∷ []) }
{
    let (a, b, c, d) = (a.get(), b.get(), c.get(), d.get());
    [a * 4 + b / 16, b % 16 * 16 + c / 4, c % 4 * 64 + d]
}

// Three values: two bytes, and two bits to spare.
pub fn bytes_of_three(a: Sextet, b: Sextet, c: Sextet) -> ShortGroup<2>
    ensures { (result.bytes ≡ to_bytes (a ∷ b ∷ c ∷ [])) × (result.spare ≡ spare_bits (a ∷ b ∷ c ∷ [])) }
{
    let (a, b, c) = (a.get(), b.get(), c.get());
    ShortGroup {
        bytes: [a * 4 + b / 16, b % 16 * 16 + c / 4],
        spare: c % 4,
    }
}

// Two values: one byte, and four bits to spare.
pub fn bytes_of_two(a: Sextet, b: Sextet) -> ShortGroup<1>
    ensures { (result.bytes ≡ to_bytes (a ∷ b ∷ [])) × (result.spare ≡ spare_bits (a ∷ b ∷ [])) }
{
    let (a, b) = (a.get(), b.get());
    ShortGroup {
        bytes: [a * 4 + b / 16],
        spare: b % 16,
    }
}

// Three bytes: four values.
pub fn values_of_three(x: u8, y: u8, z: u8) -> [Sextet; 4]
    ensures { result ≡ to_values (x ∷ y ∷ z ∷ []) }
{
    [
        Sextet { value: x / 4 },
        Sextet {
            value: x % 4 * 16 + y / 16,
        },
        Sextet {
            value: y % 16 * 4 + z / 64,
        },
        Sextet { value: z % 64 },
    ]
}

// The base 64 text of a group of one, two or three bytes. A short group is filled up with zero bits, and then pads.
pub fn encode(table: &EncodeTable, group: &[u8]) -> [u8; 4]
    requires { (0 < length group.now) × (length group.now ≤ 3) }
    ensures { result ≡ encode group.now }
{
    let (x, y, z) = match *group {
        [x] => (x, 0, 0),
        [x, y] => (x, y, 0),
        [x, y, z] => (x, y, z),
        _ => unreachable!(),
    };
    let v = values_of_three(x, y, z);
    [
        table.char_of(v[0]),
        table.char_of(v[1]),
        if 1 < group.len() {
            table.char_of(v[2])
        } else {
            PAD
        },
        if 2 < group.len() {
            table.char_of(v[3])
        } else {
            PAD
        },
    ]
}
