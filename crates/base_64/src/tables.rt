// The two tables of base 64: the character of each value, and the value of each byte.
// A function that is lent a table knows its rule by the type alone.
ghost use Rattle.std.specs.Prelude.{◌≡◌, ℕ, ◌%◌, ltb};
ghost use Rattle.base_64.specs.Alphabet as alphabet;
ghost use Rattle.base_64.specs.Values as values;

use std::marker::Model;

// How many values there are.
pub const RADIX: u8 = 64;

// A value, 0 to 63: six bits.
#[derive(Clone, Copy, Debug, PartialEq, Eq)]
pub struct Sextet {
    pub(crate) value: u8,
}

impl Model for Sextet {
    ghost Value = { ℕ };

    ghost view = { λ s. s.value };

    ghost invariant = { λ s. alphabet.Sextet s.value };

    ghost inverse = { λ n. record { value = n } };
}

impl Sextet {
    // The low six bits of a number.
    pub fn low(number: u8) -> Sextet
        ensures { result ≡ number % alphabet.radix }
    {
        Sextet {
            value: number % RADIX,
        }
    }

    pub fn get(self) -> u8
        ensures { (result ≡ self) × alphabet.Sextet result }
    {
        self.value
    }
}

// The characters for values 0 to 63.
const ALPHABET: [u8; 64] = *b"ABCDEFGHIJKLMNOPQRSTUVWXYZabcdefghijklmnopqrstuvwxyz0123456789+/";

// The value of each byte, sixteen bytes to a line; a byte outside the alphabet has the radix, `@`, which is no value.
const DECODE_TABLE: [u8; 256] = *b"\
    @@@@@@@@@@@@@@@@\
    @@@@@@@@@@@@@@@@\
    @@@@@@@@@@@\x3e@@@\x3f\
    \x34\x35\x36\x37\x38\x39\x3a\x3b\x3c\x3d@@@@@@\
    @\x00\x01\x02\x03\x04\x05\x06\x07\x08\x09\x0a\x0b\x0c\x0d\x0e\
    \x0f\x10\x11\x12\x13\x14\x15\x16\x17\x18\x19@@@@@\
    @\x1a\x1b\x1c\x1d\x1e\x1f\x20\x21\x22\x23\x24\x25\x26\x27\x28\
    \x29\x2a\x2b\x2c\x2d\x2e\x2f\x30\x31\x32\x33@@@@@\
    @@@@@@@@@@@@@@@@\
    @@@@@@@@@@@@@@@@\
    @@@@@@@@@@@@@@@@\
    @@@@@@@@@@@@@@@@\
    @@@@@@@@@@@@@@@@\
    @@@@@@@@@@@@@@@@\
    @@@@@@@@@@@@@@@@\
    @@@@@@@@@@@@@@@@";

// The alphabet as a table. An entry function binds it once and lends it to the functions below it, since a constant is
// stored anew wherever it is named.
#[derive(Clone, Copy)]
pub struct EncodeTable {
    chars: [u8; 64],
    pub ghost rule: { chars ≡ alphabet.alphabet },
}

impl EncodeTable {
    pub fn new() -> EncodeTable {
        EncodeTable { chars: ALPHABET }
    }

    // The character of a value.
    pub fn char_of(&self, value: Sextet) -> u8
        ensures { result ≡ alphabet.char_of value }
    {
        self.chars[value.value as usize]
    }
}

// The value of each byte as a table, bound and lent in the same way.
#[derive(Clone, Copy)]
pub struct DecodeTable {
    entries: [u8; 256],
    pub ghost rule: { values.DecodeTable entries },
}

impl DecodeTable {
    pub fn new() -> DecodeTable {
        DecodeTable {
            entries: DECODE_TABLE,
        }
    }

    // The value of a byte, or the radix where it is outside the alphabet. No other function reads the entries.
    fn entry_of(&self, c: u8) -> u8
        ensures { result ≡ alphabet.value_of c }
    {
        self.entries[c as usize]
    }

    // Whether a byte is a character of the alphabet.
    pub fn is_character(&self, c: u8) -> bool
        ensures { result ≡ ltb (alphabet.value_of c) alphabet.radix }
    {
        self.entry_of(c) < RADIX
    }

    // The value of a byte, 0 to 63; none where it is no character of the alphabet.
    pub fn value_of(&self, c: u8) -> Option<Sextet>
        ensures { result ≡ alphabet.answer_of c }
    {
        let value = self.entry_of(c);
        if value < RADIX {
            return Some(Sextet { value });
        }
        None
    }
}
