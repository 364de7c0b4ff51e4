// The head of a file of either kind: its mark, its version and its size.

#![tactic(auto)]

ghost use Rattle.std.specs.Prelude.{◌≡◌};
ghost use Rattle.parsing.specs.Parser.{past_of};
ghost use Rattle.parsing.specs.Fields.{marked, version, within, head};

use parsing::{Reason, Refusal};

// The mark at the head of a file: its bytes are judged one by one.
fn mark_end(file: &[u8], mark: &[u8]) -> Result<usize, Refusal>
    ensures { result ≡ past_of (marked mark.now file.now 0) }
{
    for (i, byte) in mark.iter().enumerate() {
        if file.len() <= i {
            return Err(Refusal {
                reason: Reason::EndsEarly,
                place: file.len(),
            });
        }
        if file[i] != *byte {
            return Err(Refusal {
                reason: Reason::WrongMark,
                place: i,
            });
        }
    }
    Ok(mark.len())
}

// The version, 1 or 2, judged once it is whole.
fn version_end(file: &[u8], at: usize) -> Result<usize, Refusal>
    ensures { result ≡ past_of (version file.now at) }
{
    let n = file.len();
    if n <= at {
        return Err(Refusal {
            reason: Reason::EndsEarly,
            place: n,
        });
    }
    let past = at + 2;
    if n < past {
        return Err(Refusal {
            reason: Reason::EndsEarly,
            place: n,
        });
    }
    if file[at] < 1 || 2 < file[at] || file[at + 1] != 0 {
        return Err(Refusal {
            reason: Reason::WrongVersion,
            place: at,
        });
    }
    Ok(past)
}

// The size, judged against the limit; `at` is where reading goes on.
fn size_end(file: &[u8], at: usize, limit: usize) -> Result<usize, Refusal>
    ensures { result ≡ past_of (within limit file.now at) }
{
    if limit < file.len() {
        return Err(Refusal {
            reason: Reason::FileTooLong,
            place: limit,
        });
    }
    Ok(at)
}

// The head of a file: its mark, its version, then its size against the limit.
pub fn head_end(file: &[u8], mark: &[u8], limit: usize) -> Result<usize, Refusal>
    ensures { result ≡ past_of (head mark.now limit file.now 0) }
{
    let marked = mark_end(file, mark)?;
    let versioned = version_end(file, marked)?;
    size_end(file, versioned, limit)
}
