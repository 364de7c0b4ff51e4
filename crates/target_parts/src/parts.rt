// The parts of a node: lengths of 16 bits, levels, the ends of parts and what follows them.
ghost use Rattle.std.specs.Prelude.{◌≡◌};
ghost use Rattle.parsing.specs.Parser.{verdict_of};
ghost use Rattle.parsing.specs.Fields.{counted};
ghost use Rattle.target_parts.specs.Parts.{level_verdict, measured_end, fields_end, follows_at, follows_of};
ghost use Rattle.target_parts.specs.Parts as parts;

use casts::pair;
use parsing::{Reason, Refusal, or_else, refused_unless};
use target_tags::tag::Tag;

// What follows a node: an expression that goes on, with the same slots or with one more bound to a whole number; or the end of the expression.
#[derive(Drop)]
pub enum After {
    Onward(usize),
    Bound { next: usize, slot: usize },
    Ended(usize),
    Halted(Refusal),
}

// A length of 16 bits, once it is whole.
pub fn size_at(file: &[u8], at: usize) -> Result<usize, Refusal>
    ensures { result ≡ counted (parts.pair file.now at) }
{
    if at < file.len() && at + 1 < file.len() {
        return Ok(pair(file[at], file[at + 1]));
    }
    Err(Refusal {
        reason: Reason::EndsEarly,
        place: file.len(),
    })
}

// The end of a part that begins at `at` and is to be `size` bytes long.
pub fn measured_end(
    part: Result<usize, Refusal>,
    at: usize,
    size: usize,
    place: usize,
) -> Result<usize, Refusal>
    ensures { result ≡ measured_end place at size part }
{
    let next = part?;
    if at <= next && next - at == size {
        return Ok(next);
    }
    Err(Refusal {
        reason: Reason::WrongLength,
        place,
    })
}

// A part one level deeper begins here.
pub fn level_checked(file: &[u8], level: usize, at: usize) -> Result<(), Refusal>
    ensures { verdict_of result ≡ level_verdict file.now level at }
{
    or_else(
        refused_unless(at < file.len(), Reason::EndsEarly, file.len()),
        refused_unless(level < 16, Reason::OutOfRange, at),
    )
}

// The end of a node's own fields.
pub fn fields_end(node: Tag) -> Result<usize, Refusal>
    ensures { result ≡ fields_end node }
{
    match node {
        Tag::Constant { next, .. } => Ok(next),
        Tag::Copy { next, .. } => Ok(next),
        Tag::Difference { next, .. } => Ok(next),
        Tag::Jump { next, .. } => Ok(next),
        Tag::Resume { next, .. } => Ok(next),
        Tag::Handle { next, .. } => Ok(next),
        Tag::Branch { next, .. } => Ok(next),
        Tag::Continuation { next, .. } => Ok(next),
        Tag::ContinuationWithHandler { next, .. } => Ok(next),
        Tag::DifferenceOrRaise { next, .. } => Ok(next),
        Tag::Refused(r) => Err(r),
    }
}

// What follows a node whose nested parts end at an offset.
fn follows_at(node: Tag, next: usize) -> After
    ensures { result ≡ follows_at node next }
{
    match node {
        Tag::Constant { slot, .. } => After::Bound { next, slot },
        Tag::Copy { slot, .. } => After::Bound { next, slot },
        Tag::Difference { slot, .. } => After::Bound { next, slot },
        Tag::Jump { .. } => After::Ended(next),
        Tag::Resume { .. } => After::Ended(next),
        Tag::Handle { .. } => After::Ended(next),
        Tag::Branch { .. } => After::Onward(next),
        Tag::Continuation { parameter, .. } => After::Bound {
            next,
            slot: parameter,
        },
        Tag::ContinuationWithHandler { parameter, .. } => After::Bound {
            next,
            slot: parameter,
        },
        Tag::DifferenceOrRaise { slot, .. } => After::Bound { next, slot },
        Tag::Refused(r) => After::Halted(r),
    }
}

// What follows a node whose nested parts were read.
pub fn follows(node: Tag, parts: Result<usize, Refusal>) -> After
    ensures { result ≡ follows_of node parts }
{
    match parts {
        Ok(next) => follows_at(node, next),
        Err(r) => After::Halted(r),
    }
}
