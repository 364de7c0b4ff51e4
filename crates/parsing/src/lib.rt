// What files of both kinds are read with: refusals, the fields that they share, and the end of the file.

#![tactic(auto)]

mod many;
mod reason;

ghost use Rattle.std.specs.Prelude.{◌≡◌};
ghost use Rattle.parsing.specs.Parser.{past_of, or_else, refused_unless, verdict_of};
ghost use Rattle.parsing.specs.Fields.{version_of, value_of, counted, count, ended};

pub use many::many_end;
pub use reason::Reason;
use std::fmt;

// A refusal is a reason and a place.
#[derive(Clone, Copy, PartialEq, Eq, Debug)]
pub struct Refusal {
    pub reason: Reason,
    pub place: usize,
}

impl fmt::Display for Refusal {
    fn fmt<W: fmt::Write>(&self, f: &mut fmt::Formatter<W>) -> fmt::Result {
        write!(f, "refused {} at {}", self.reason.number(), self.place)
    }
}

// The first of two answers that refuses.
pub fn or_else(first: Result<(), Refusal>, second: Result<(), Refusal>) -> Result<(), Refusal>
    ensures { verdict_of result ≡ or_else (verdict_of first) (verdict_of second) }
{
    first.and(second)
}

// A refusal, unless a test holds.
pub fn refused_unless(holds: bool, reason: Reason, place: usize) -> Result<(), Refusal>
    ensures { verdict_of result ≡ refused_unless holds reason place }
{
    if holds {
        return Ok(());
    }
    Err(Refusal { reason, place })
}

// The version that a file's head gives.
pub fn version_of(file: &[u8]) -> u8
    ensures { result ≡ version_of file.now }
{
    if file.len() <= 3 {
        return 0;
    }
    file[3]
}

// A count of one byte, in its range.
pub fn count_at(file: &[u8], at: usize, low: usize, high: usize) -> Result<usize, Refusal>
    ensures { result ≡ counted (count low high file.now at) }
{
    let n = file.len();
    if n <= at {
        return Err(Refusal {
            reason: Reason::EndsEarly,
            place: n,
        });
    }
    let k = file[at] as usize;
    if k < low {
        return Err(Refusal {
            reason: Reason::OutOfRange,
            place: at,
        });
    }
    if high < k {
        return Err(Refusal {
            reason: Reason::OutOfRange,
            place: at,
        });
    }
    Ok(k)
}

// The end of the file: no bytes are left over.
pub fn file_end(file: &[u8], at: usize) -> Result<usize, Refusal>
    ensures { result ≡ past_of (ended file.now at) }
{
    if at < file.len() {
        return Err(Refusal {
            reason: Reason::LeftOver,
            place: at,
        });
    }
    Ok(at)
}

// The signed 32-bit value of four bytes, the low byte first.
pub fn value(b0: u8, b1: u8, b2: u8, b3: u8) -> i32
    ensures { result ≡ value_of b0 b1 b2 b3 }
{
    i32::from_le_bytes([b0, b1, b2, b3])
}
