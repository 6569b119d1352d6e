// A lent output: its bytes set to zero, so that nothing of what stood in it is left, and numbers written to it.
#![tactic(auto)]

ghost use Rattle.std.specs.Prelude.{◌≡◌, ◌++◌, ◌+◌, ◌-◌, ◌/◌, ◌%◌, ◌≤◌, length, set, take, replicate};
ghost use Rattle.output.specs.declared.CallError.TheVariants.{Refused};

// Why a call that was lent an output has no result: its input is refused, or the result needs this much room.
#[derive(Clone, Copy, Debug, PartialEq, Eq)]
pub enum CallError<R, S> {
    Refused(R),
    TooSmall(S),
}

// So that `?` passes a refusal on.
impl<R, S> From<R> for CallError<R, S> {
    ghost from_gives = { λ refusal error. error ≡ Refused refusal };

    fn from(refusal: R) -> CallError<R, S> {
        CallError::Refused(refusal)
    }
}

// Sets every byte from a place on to zero.
pub fn clear_from(out: &mut [u8], from: usize)
    requires { from ≤ length out.old }
    ensures { out.new ≡ take from out.old ++ replicate (length out.old - from) 0 }
{
    let mut i = from;
    while i < out.len() {
        out[i] = 0;
        i += 1;
    }
}

// Sets every byte to zero.
pub fn clear(out: &mut [u8])
    ensures { out.new ≡ replicate (length out.old) 0 }
{
    clear_from(out, 0);
}

// Writes the four bytes of a number, low bits first. They are stored at once.
pub fn put_number(out: &mut [u8], at: usize, number: u32)
    requires { at + 4 ≤ length out.old }
    ensures { out.new ≡ set (set (set (set out.old at (number % 256)) (at + 1) (number / 256 % 256)) (at + 2) (number / 65536 % 256)) (at + 3) (number / 16777216) }
{
    out[at..at + 4].copy_from_slice(&number.to_le_bytes());
}
