// The layout of a file: the refusals 1 to 6 and 15.
ghost use Rattle.std.specs.Prelude.{◌≡◌};
ghost use Rattle.parsing.specs.Parser.{past_of};
ghost use Rattle.parsing.specs.Fields.{version_of};
ghost use Rattle.procedure_layout.specs.Layout.{block, bytes_before, labelled, heading, function, program};
ghost use Rattle.procedure_layout.specs.After.{after_of, blocks_of};

use parsing::{Reason, Refusal};
use procedure_operations::operation;
use procedure_operations::operation::Operation;

// "15 file above its limit (32,768 ..)."
pub const FILE_LIMIT: usize = 32768;

// "Function count (1 to 32)."
pub const MAX_FUNCTIONS: usize = 32;

// "Parameter count (0 to 8), local count (0 to 24)": variables of a function at most.
pub const MAX_VARIABLES: usize = 32;

// What follows an operation.
#[derive(Drop)]
pub enum After {
    Onward(usize),
    Ended(usize),
    Halted(Refusal),
}

pub fn after_of(o: Operation) -> After
    ensures { result ≡ after_of o }
{
    match o {
        Operation::Constant { next, .. } => After::Onward(next),
        Operation::Copy { next, .. } => After::Onward(next),
        Operation::Difference { next, .. } => After::Onward(next),
        Operation::Call { next, .. } => After::Onward(next),
        Operation::Goto { next, .. } => After::Ended(next),
        Operation::Return { next, .. } => After::Ended(next),
        Operation::Branch { next, .. } => After::Ended(next),
        Operation::Raise { next } => After::Ended(next),
        Operation::RaiseValue { next, .. } => After::Ended(next),
        Operation::Refused(r) => After::Halted(r),
    }
}

// The end of the block whose first operation stands at `start`.
pub fn block_end(file: &[u8], start: usize) -> Result<usize, Refusal>
    ensures { result ≡ past_of (block file.now start) }
{
    let mut at = start;
    loop {
        match after_of(operation::operation_at(file, at)) {
            After::Onward(next) => {
                at = next;
            }
            After::Ended(next) => {
                return Ok(next);
            }
            After::Halted(r) => {
                return Err(r);
            }
        }
    }
}

// The bytes before a labelled block's first operation: its handler byte, and in version 2 its receiver (document 02, Slip 7).
pub fn bytes_before(file: &[u8]) -> usize
    ensures { result ≡ bytes_before (version_of file.now) }
{
    if parsing::version_of(file) == 2 { 2 } else { 1 }
}

// The end of a labelled block: its handler byte, its receiver, then its operations.
fn labelled_end(file: &[u8], at: usize) -> Result<usize, Refusal>
    ensures { result ≡ past_of (labelled file.now at) }
{
    if file.len() <= at {
        return Err(Refusal {
            reason: Reason::EndsEarly,
            place: file.len(),
        });
    }
    block_end(file, at + bytes_before(file))
}

// The labelled block count of the function at an offset, once its counts are in range.
fn heading_at(file: &[u8], at: usize) -> Result<usize, Refusal>
    ensures { result ≡ blocks_of (heading file.now at) }
{
    parsing::count_at(file, at, 0, 8)?;
    parsing::count_at(file, at + 1, 0, 24)?;
    parsing::count_at(file, at + 1 + 1, 0, 63)
}

// The end of a function.
fn function_end(file: &[u8], at: usize) -> Result<usize, Refusal>
    ensures { result ≡ past_of (function file.now at) }
{
    let n = heading_at(file, at)?;
    let next = block_end(file, at + 3)?;
    parsing::many_end(next, n, |at| labelled_end(file, at))
}

// The layout of the whole file.
pub fn layout_end(file: &[u8]) -> Result<usize, Refusal>
    ensures { result ≡ past_of (program file.now 0) }
{
    file_head::head_end(file, b"SPF", FILE_LIMIT)?;
    let n = parsing::count_at(file, 5, 1, MAX_FUNCTIONS)?;
    let end = parsing::many_end(6, n, |at| function_end(file, at))?;
    parsing::file_end(file, end)
}
