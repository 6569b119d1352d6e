// The families of labels: the table of the labels that have one, and the search in it.
#![tactic(auto)]

ghost use Rattle.std.specs.Prelude.{◌≡◌, ◌==◌, get_or};
ghost use Rattle.base_64.specs.Lists.{same_bytes};
ghost use Rattle.grammar.specs.Families.{family_of};
ghost use Rattle.families.specs.Arrays.{unpadded};

use grammar::Family;

// A label with zeros behind it, so that all are of one length, and its family. No byte of a label is zero.
#[derive(Clone, Copy, Debug, PartialEq, Eq)]
struct KnownLabel {
    padded: [u8; 24],
    family: Family,
}

impl KnownLabel {
    // Whether behind so many bytes a zero stands, or nothing.
    fn ends_at(&self, length: usize) -> bool
        ensures { result ≡ (get_or self.now.padded length 0 == 0) }
    {
        match self.padded.get(length) {
            Some(b) => *b == 0,
            None => true,
        }
    }

    // Whether a label is this one. The other labels of a row's length are few, so that is asked first.
    #[tactic(auto, using(crate::proofs::Arrays::told))]
    fn is_label(&self, label: &[u8]) -> bool
        ensures { result ≡ same_bytes (unpadded self.now.padded) label.now }
    {
        self.ends_at(label.len()) && self.padded.starts_with(label) && !label.contains(&0)
    }
}

// The labels of `known_labels`, one by one.
const KNOWN_LABELS: [KnownLabel; 12] = [
    KnownLabel {
        padded: *b"CERTIFICATE\0\0\0\0\0\0\0\0\0\0\0\0\0",
        family: Family::Certificate,
    },
    KnownLabel {
        padded: *b"X509 CRL\0\0\0\0\0\0\0\0\0\0\0\0\0\0\0\0",
        family: Family::X509Crl,
    },
    KnownLabel {
        padded: *b"CERTIFICATE REQUEST\0\0\0\0\0",
        family: Family::CertificateRequest,
    },
    KnownLabel {
        padded: *b"PKCS7\0\0\0\0\0\0\0\0\0\0\0\0\0\0\0\0\0\0\0",
        family: Family::Pkcs7,
    },
    KnownLabel {
        padded: *b"CMS\0\0\0\0\0\0\0\0\0\0\0\0\0\0\0\0\0\0\0\0\0",
        family: Family::Cms,
    },
    KnownLabel {
        padded: *b"PRIVATE KEY\0\0\0\0\0\0\0\0\0\0\0\0\0",
        family: Family::PrivateKey,
    },
    KnownLabel {
        padded: *b"ENCRYPTED PRIVATE KEY\0\0\0",
        family: Family::EncryptedPrivateKey,
    },
    KnownLabel {
        padded: *b"ATTRIBUTE CERTIFICATE\0\0\0",
        family: Family::AttributeCertificate,
    },
    KnownLabel {
        padded: *b"PUBLIC KEY\0\0\0\0\0\0\0\0\0\0\0\0\0\0",
        family: Family::PublicKey,
    },
    KnownLabel {
        padded: *b"X509 CERTIFICATE\0\0\0\0\0\0\0\0",
        family: Family::Certificate,
    },
    KnownLabel {
        padded: *b"X.509 CERTIFICATE\0\0\0\0\0\0\0",
        family: Family::Certificate,
    },
    KnownLabel {
        padded: *b"NEW CERTIFICATE REQUEST\0",
        family: Family::CertificateRequest,
    },
];

// The family of a label; none where it is in none.
pub fn family_of(label: &[u8]) -> Option<Family>
    ensures { result ≡ family_of label.now }
{
    for known in KNOWN_LABELS {
        if known.is_label(label) {
            return Some(known.family);
        }
    }
    None
}
