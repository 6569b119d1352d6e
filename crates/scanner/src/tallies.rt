// The tally of a scan: what is counted of a byte, and of many that are passed at once. A tally is a type of the crate `reading`, so
// these are functions and no methods.
ghost use Rattle.std.specs.Prelude.{◌≡◌, ◌+◌, ◌-◌, ◌≤◌, ◌<◌, ◌^◌};
ghost use Rattle.reading.specs.Ends.{RoomyEnds, end_counted};
ghost use Rattle.reading.specs.Scan.{Roomy, no_tally, body_tallied, tallied, byte_tallied};
ghost use Rattle.scanner.specs.Advances.{EndsFit, run_tallied, others_tallied, pads_tallied, boundary_tallied, ended_tallied, ends_tallied, width_tallied};

use base_64::DecodeTable;
use grammar::{CR, LF};
use machine::{Boundary, Kind, Part};
use reading::{EndCounts, Tally};
use runs::{CRLF_WIDTH, LF_WIDTH};

// Nothing counted yet.
pub fn no_tally() -> Tally
    ensures { result ≡ no_tally }
{
    Tally {
        before: 0,
        opening: 0,
        body: 0,
        closing: 0,
        characters: 0,
        pads: 0,
        last: 0,
        ends: EndCounts {
            lf: 0,
            crlf: 0,
            cr: 0,
        },
    }
}

// A run of characters of a body, counted.
pub fn tally_run(tally: Tally, n: usize) -> Tally
    requires { (tally.body + n < 2 ^ 64) × (tally.characters + n < 2 ^ 64) × (0 < n) }
    ensures { result ≡ run_tallied n tally }
{
    let body = tally.body + n;
    Tally {
        body,
        characters: tally.characters + n,
        last: body - 1,
        ..tally
    }
}

// Other bytes of a body, counted.
pub fn tally_others(tally: Tally, n: usize) -> Tally
    requires { tally.body + n < 2 ^ 64 }
    ensures { result ≡ others_tallied n tally }
{
    Tally {
        body: tally.body + n,
        ..tally
    }
}

// Pads of a body, counted.
pub fn tally_pads(tally: Tally, n: usize) -> Tally
    requires { (tally.body + n < 2 ^ 64) × (tally.pads + n < 2 ^ 64) }
    ensures { result ≡ pads_tallied n tally }
{
    Tally {
        body: tally.body + n,
        pads: tally.pads + n,
        ..tally
    }
}

// Bytes of a boundary, counted.
pub fn tally_boundary(tally: Tally, boundary: Boundary, n: usize) -> Tally
    requires { (tally.opening + n < 2 ^ 64) × (tally.closing + n < 2 ^ 64) }
    ensures { result ≡ boundary_tallied boundary n tally }
{
    match boundary {
        Boundary::Opening => Tally {
            opening: tally.opening + n,
            ..tally
        },
        Boundary::Closing => Tally {
            closing: tally.closing + n,
            ..tally
        },
    }
}

// A byte of a body, counted.
#[tactic(auto, using(crate::proofs::Advances::run_one))]
fn tally_body(tally: Tally, kind: Kind) -> Tally
    requires { Roomy tally }
    ensures { result ≡ body_tallied kind tally }
{
    match kind {
        Kind::Alphabet => tally_run(tally, 1),
        Kind::Pad => tally_pads(tally, 1),
        _ => tally_others(tally, 1),
    }
}

// A byte of a part, counted. What stands behind the closing is counted in none, but for its line ends.
fn tally_byte(tally: Tally, part: Part, kind: Kind) -> Tally
    requires { Roomy tally }
    ensures { result ≡ tallied part kind tally }
{
    match part {
        Part::Before => Tally {
            before: tally.before + 1,
            ..tally
        },
        Part::Opening => tally_boundary(tally, Boundary::Opening, 1),
        Part::Body => tally_body(tally, kind),
        Part::Closing => tally_boundary(tally, Boundary::Closing, 1),
        Part::After => tally,
    }
}

// The line-end step: LF, LF behind CR and CR are told apart, in whatever part of a message they stand.
fn count_end(ends: EndCounts, behind: bool, b: u8) -> EndCounts
    requires { RoomyEnds ends }
    ensures { result ≡ end_counted behind b ends }
{
    match b {
        LF if behind => EndCounts {
            crlf: ends.crlf + 1,
            ..ends
        },
        LF => EndCounts {
            lf: ends.lf + 1,
            ..ends
        },
        CR => EndCounts {
            cr: ends.cr + 1,
            ..ends
        },
        _ => ends,
    }
}

// A byte of a part, counted with the line end that it shows, behind CR or not.
pub fn count_byte(values: &DecodeTable, tally: Tally, behind: bool, part: Part, b: u8) -> Tally
    requires { Roomy tally × RoomyEnds tally.ends }
    ensures { result ≡ byte_tallied behind b part tally }
{
    Tally {
        ends: count_end(tally.ends, behind, b),
        ..tally_byte(tally, part, engine::kind_of(values, b))
    }
}

// So many line ends behind other bytes, LF and CRLF, counted; their bytes are counted apart.
pub fn tally_ends(tally: Tally, lf: usize, crlf: usize) -> Tally
    requires { EndsFit tally.ends lf crlf }
    ensures { result ≡ ends_tallied lf crlf tally }
{
    let ends = tally.ends;
    Tally {
        ends: EndCounts {
            lf: ends.lf + lf,
            crlf: ends.crlf + crlf,
            cr: ends.cr + crlf,
        },
        ..tally
    }
}

// One of them, which its width tells.
pub fn tally_width(tally: Tally, width: usize) -> Tally
    requires { (0 < width) × (width ≤ 2) × EndsFit tally.ends (2 - width) (width - 1) }
    ensures { result ≡ width_tallied width tally }
{
    tally_ends(tally, CRLF_WIDTH - width, width - LF_WIDTH)
}

// The LF of a boundary's line, counted: it is a byte of the body behind the opening, and behind the closing of no part that is
// counted.
pub fn tally_ended(tally: Tally, boundary: Boundary) -> Tally
    requires { (tally.body + 1 < 2 ^ 64) × EndsFit tally.ends 1 0 }
    ensures { result ≡ ended_tallied boundary tally }
{
    let counted = tally_ends(tally, 1, 0);
    match boundary {
        Boundary::Opening => tally_others(counted, 1),
        Boundary::Closing => counted,
    }
}
