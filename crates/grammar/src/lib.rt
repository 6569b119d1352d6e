// The three grammars of RFC 7468 text. Their meaning stands in specs/, as relations on the parts of a text; the theorems
// about them stand in proofs/.
#![tactic(auto)]

ghost use Rattle.std.specs.Prelude.{◌≡◌, ◌+◌, ◌^◌, ◌<◌, length};
ghost use Rattle.grammar.specs.Marks.{begin, end};
ghost use Rattle.grammar.specs.Families.{family_number, family_told};
ghost use Rattle.grammar.specs.Grammars.{grammar_of};
ghost use Rattle.grammar.specs.LineEnds.{line_ending_number, line_ending_of, style_number};

use std::fmt;

// The marks, by their bytes; the alphabet and the pad are those of base 64.
pub const HT: u8 = b'\t';

pub const LF: u8 = b'\n';

pub const VT: u8 = 11;

pub const FF: u8 = 12;

pub const CR: u8 = b'\r';

pub const SP: u8 = b' ';

pub const HYPHEN: u8 = b'-';

// The first and the last character of labels, the hyphen between them aside.
pub const FIRST_MARK: u8 = b'!';

pub const LAST_MARK: u8 = b'~';

// What stands around the labels of the boundaries.
pub const BEGIN: [u8; 11] = *b"-----BEGIN ";

pub const END: [u8; 9] = *b"-----END ";

pub const HYPHENS: [u8; 5] = *b"-----";

// The characters of a full line, its groups of four, and the bytes that they stand for.
pub const LINE_CHARS: usize = 64;

pub const LINE_GROUPS: usize = LINE_CHARS / base_64::GROUP_CHARS;

pub const LINE_BYTES: usize = LINE_GROUPS * base_64::GROUP_BYTES;

// A grammar.
#[derive(Clone, Copy, Debug, PartialEq, Eq, Hash)]
pub enum Grammar {
    Lax,
    Standard,
    Strict,
}

impl Grammar {
    // They are called by number.
    pub const LAX: u32 = 1;

    pub const STANDARD: u32 = 2;

    pub const STRICT: u32 = 3;

    // The grammar that a caller's number asks for. Any number may come in, and an unknown one asks for none.
    pub fn from_number(number: u32) -> Option<Grammar>
        ensures { result ≡ grammar_of number }
    {
        match number {
            Self::LAX => Some(Grammar::Lax),
            Self::STANDARD => Some(Grammar::Standard),
            Self::STRICT => Some(Grammar::Strict),
            _ => None,
        }
    }
}

impl fmt::Display for Grammar {
    fn fmt<W: fmt::Write>(&self, f: &mut fmt::Formatter<W>) -> fmt::Result {
        f.write_str(match self {
            Grammar::Lax => "lax",
            Grammar::Standard => "standard",
            Grammar::Strict => "strict",
        })
    }
}

// The family of a label. (RFC 7468, figure 4, in its order.)
#[derive(Clone, Copy, Debug, PartialEq, Eq, Hash)]
pub enum Family {
    Certificate,
    X509Crl,
    CertificateRequest,
    Pkcs7,
    Cms,
    PrivateKey,
    EncryptedPrivateKey,
    AttributeCertificate,
    PublicKey,
}

impl Family {
    // What is told of a label that is in none.
    pub const NONE: u32 = 0;

    // Its number.
    pub fn number(self) -> u32
        ensures { result ≡ family_number self }
    {
        match self {
            Family::Certificate => 1,
            Family::X509Crl => 2,
            Family::CertificateRequest => 3,
            Family::Pkcs7 => 4,
            Family::Cms => 5,
            Family::PrivateKey => 6,
            Family::EncryptedPrivateKey => 7,
            Family::AttributeCertificate => 8,
            Family::PublicKey => 9,
        }
    }

    // The number of a label's family, if it is in one.
    pub fn told(family: Option<Family>) -> u32
        ensures { result ≡ family_told family }
    {
        match family {
            Some(family) => family.number(),
            None => Self::NONE,
        }
    }
}

// A kind of line end: LF, CRLF, or CR with no LF behind it.
#[derive(Clone, Copy, Debug, PartialEq, Eq, Hash)]
pub enum LineEnding {
    Lf,
    CrLf,
    Cr,
}

// The line ends of a text together: none, all of one kind, or of several.
#[derive(Clone, Copy, Debug, PartialEq, Eq, Hash)]
pub enum LineStyle {
    NoLineEnd,
    Only(LineEnding),
    Mixed,
}

impl LineStyle {
    // They are told by number: that of the one kind, or one of these.
    pub const NO_LINE_END: u32 = 0;

    pub const MIXED: u32 = 4;

    // Its number.
    pub fn number(self) -> u32
        ensures { result ≡ style_number self }
    {
        match self {
            LineStyle::NoLineEnd => Self::NO_LINE_END,
            LineStyle::Only(ending) => ending.number(),
            LineStyle::Mixed => Self::MIXED,
        }
    }
}

impl LineEnding {
    // They are called by number.
    pub const LF: u32 = 1;

    pub const CRLF: u32 = 2;

    pub const CR: u32 = 3;

    // Its number.
    pub fn number(self) -> u32
        ensures { result ≡ line_ending_number self }
    {
        match self {
            LineEnding::Lf => Self::LF,
            LineEnding::CrLf => Self::CRLF,
            LineEnding::Cr => Self::CR,
        }
    }

    // The kind that a caller's number asks for. Any number may come in, and an unknown one asks for none.
    pub fn from_number(number: u32) -> Option<LineEnding>
        ensures { result ≡ line_ending_of number }
    {
        match number {
            Self::LF => Some(LineEnding::Lf),
            Self::CRLF => Some(LineEnding::CrLf),
            Self::CR => Some(LineEnding::Cr),
            _ => None,
        }
    }
}

impl fmt::Display for LineEnding {
    fn fmt<W: fmt::Write>(&self, f: &mut fmt::Formatter<W>) -> fmt::Result {
        f.write_str(match self {
            LineEnding::Lf => "LF",
            LineEnding::CrLf => "CRLF",
            LineEnding::Cr => "CR",
        })
    }
}

// An offset in a text: the number of bytes before it. It is no count of decoded bytes (`base_64::ByteCount`).
#[derive(Clone, Copy, Debug, PartialEq, Eq, PartialOrd, Ord, Hash)]
pub struct TextOffset(pub usize);

impl TextOffset {
    // Where the label starts of the opening boundary that starts here.
    pub fn opening_label(self) -> TextOffset
        requires { self.0 + length begin < 2 ^ 64 }
        ensures { result.0 ≡ self.0 + length begin }
    {
        self.behind(&BEGIN)
    }

    // Where the label starts of the closing boundary that starts here.
    pub fn closing_label(self) -> TextOffset
        requires { self.0 + length end < 2 ^ 64 }
        ensures { result.0 ≡ self.0 + length end }
    {
        self.behind(&END)
    }

    // Where a word ends that starts here.
    fn behind(self, word: &[u8]) -> TextOffset
        requires { self.0 + length word.now < 2 ^ 64 }
        ensures { result.0 ≡ self.0 + length word.now }
    {
        TextOffset(self.0 + word.len())
    }
}

impl fmt::Display for TextOffset {
    fn fmt<W: fmt::Write>(&self, f: &mut fmt::Formatter<W>) -> fmt::Result {
        write!(f, "{}", self.0)
    }
}
