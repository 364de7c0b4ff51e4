// The node at an offset, by its tag.
ghost use Rattle.std.specs.Prelude.{◌≡◌, length, ◌+◌, ◌*◌, ◌≤◌, ◌<◌};
ghost use Rattle.parsing.specs.Fields.{cut, version_of};
ghost use Rattle.target_tags.specs.Tag.{slots_in, number_width, number_slot_at, tag_at, constant_at, copy_at, difference_at, jump_at, resume_at, handle_at, branch_at, continuation_at, continuation_with_handler_at, difference_or_raise_at};

use casts::pair;
use parsing::{Reason, Refusal};

// The slots of either version: "Slots are 0 to 35.", in version 2 0 to 36.
pub const MAX_SLOTS: usize = 37;

// "15 file above its limit (.. translated 65,535 ..)."
pub const FILE_LIMIT: usize = 65535;

// "Parameter count (0 to 32)": values of a jump at most.
pub const MAX_PARAMETERS: usize = 32;

// A node as it stands in the file: its fields, and the offset past them. Its names are not judged here.
#[derive(Clone, Copy)]
pub enum Tag {
    Constant {
        slot: usize,
        value: i32,
        next: usize,
    },
    Copy {
        slot: usize,
        from: usize,
        next: usize,
    },
    Difference {
        slot: usize,
        left: usize,
        right: usize,
        next: usize,
    },
    Jump {
        function: usize,
        continuation: usize,
        handler: usize,
        count: usize,
        next: usize,
    },
    Resume {
        continuation: usize,
        value: usize,
        next: usize,
    },
    Handle {
        handler: usize,
        value: Option<usize>,
        next: usize,
    },
    Branch {
        left: usize,
        right: usize,
        size: usize,
        next: usize,
    },
    Continuation {
        slot: usize,
        parameter: usize,
        size: usize,
        next: usize,
    },
    ContinuationWithHandler {
        slot: usize,
        parameter: usize,
        handler: usize,
        number: Option<usize>,
        size: usize,
        next: usize,
    },
    DifferenceOrRaise {
        slot: usize,
        left: usize,
        right: usize,
        size: usize,
        next: usize,
    },
    Refused(Refusal),
}

// The number of slots that a file's version has.
pub fn slots_of(file: &[u8]) -> usize
    ensures { result ≡ slots_in (version_of file.now) }
{
    if parsing::version_of(file) == 2 {
        return 37;
    }
    36
}

// The bytes of a number's slot. (One test and two numbers, as `slots_of`: a table of both by version would be no plainer.)
pub fn number_width(file: &[u8]) -> usize
    ensures { result ≡ number_width (version_of file.now) }
{
    if parsing::version_of(file) == 2 {
        return 1;
    }
    0
}

// The slot of a number that stands at an offset.
pub fn number_slot_at(file: &[u8], at: usize) -> Option<usize>
    requires { at + number_width (version_of file.now) ≤ length file.now }
    ensures { result ≡ number_slot_at file.now at }
{
    if parsing::version_of(file) == 2 {
        return Some(usize::from(file[at]));
    }
    None
}

// The file ends early. (As the operations' own: one for both would take what makes a tag or an operation.)
fn cut(file: &[u8]) -> Tag
    ensures { result ≡ Tag.Refused (cut file.now) }
{
    Tag::Refused(Refusal {
        reason: Reason::EndsEarly,
        place: file.len(),
    })
}

fn constant_at(file: &[u8], at: usize) -> Tag
    requires { at < length file.now }
    ensures { result ≡ constant_at file.now at }
{
    let next = at + 6;
    if file.len() < next {
        return cut(file);
    }
    let slot = usize::from(file[at + 1]);
    let i = at + 2;
    let value = parsing::value(file[i], file[i + 1], file[i + 2], file[i + 3]);
    Tag::Constant { slot, value, next }
}

fn copy_at(file: &[u8], at: usize) -> Tag
    requires { at < length file.now }
    ensures { result ≡ copy_at file.now at }
{
    let next = at + 3;
    if file.len() < next {
        return cut(file);
    }
    let slot = usize::from(file[at + 1]);
    let from = usize::from(file[at + 2]);
    Tag::Copy { slot, from, next }
}

fn difference_at(file: &[u8], at: usize) -> Tag
    requires { at < length file.now }
    ensures { result ≡ difference_at file.now at }
{
    let next = at + 4;
    if file.len() < next {
        return cut(file);
    }
    let slot = usize::from(file[at + 1]);
    let left = usize::from(file[at + 2]);
    let right = usize::from(file[at + 3]);
    Tag::Difference {
        slot,
        left,
        right,
        next,
    }
}

fn jump_at(file: &[u8], at: usize) -> Tag
    requires { at < length file.now }
    ensures { result ≡ jump_at file.now at }
{
    let values = at + 6;
    if file.len() < values {
        return cut(file);
    }
    let count = usize::from(file[at + 5]);
    let next = values + count;
    if file.len() < next {
        return cut(file);
    }
    let field = at + 1;
    let function = pair(file[field], file[field + 1]);
    let continuation = usize::from(file[at + 3]);
    let handler = usize::from(file[at + 4]);
    Tag::Jump {
        function,
        continuation,
        handler,
        count,
        next,
    }
}

fn resume_at(file: &[u8], at: usize) -> Tag
    requires { at < length file.now }
    ensures { result ≡ resume_at file.now at }
{
    let next = at + 3;
    if file.len() < next {
        return cut(file);
    }
    let continuation = usize::from(file[at + 1]);
    let value = usize::from(file[at + 2]);
    Tag::Resume {
        continuation,
        value,
        next,
    }
}

fn handle_at(file: &[u8], at: usize) -> Tag
    requires { at < length file.now }
    ensures { result ≡ handle_at file.now at }
{
    let place = at + 2;
    let next = place + number_width(file);
    if file.len() < next {
        return cut(file);
    }
    let handler = usize::from(file[at + 1]);
    let value = number_slot_at(file, place);
    Tag::Handle {
        handler,
        value,
        next,
    }
}

fn branch_at(file: &[u8], at: usize) -> Tag
    requires { at < length file.now }
    ensures { result ≡ branch_at file.now at }
{
    let next = at + 5;
    if file.len() < next {
        return cut(file);
    }
    let left = usize::from(file[at + 1]);
    let right = usize::from(file[at + 2]);
    let field = at + 3;
    let size = pair(file[field], file[field + 1]);
    Tag::Branch {
        left,
        right,
        size,
        next,
    }
}

// (The fields stand as those of a branch, and mean other things: one reader for both would still have a variant each.)
fn continuation_at(file: &[u8], at: usize) -> Tag
    requires { at < length file.now }
    ensures { result ≡ continuation_at file.now at }
{
    let next = at + 5;
    if file.len() < next {
        return cut(file);
    }
    let slot = usize::from(file[at + 1]);
    let parameter = usize::from(file[at + 2]);
    let field = at + 3;
    let size = pair(file[field], file[field + 1]);
    Tag::Continuation {
        slot,
        parameter,
        size,
        next,
    }
}

fn continuation_with_handler_at(file: &[u8], at: usize) -> Tag
    requires { at < length file.now }
    ensures { result ≡ continuation_with_handler_at file.now at }
{
    let width = number_width(file);
    let own = at + 6;
    let next = own + width;
    if file.len() < next {
        return cut(file);
    }
    let slot = usize::from(file[at + 1]);
    let parameter = usize::from(file[at + 2]);
    let handler = usize::from(file[at + 3]);
    let place = at + 4;
    let number = number_slot_at(file, place);
    let field = place + width;
    let size = pair(file[field], file[field + 1]);
    Tag::ContinuationWithHandler {
        slot,
        parameter,
        handler,
        number,
        size,
        next,
    }
}

fn difference_or_raise_at(file: &[u8], at: usize) -> Tag
    requires { at < length file.now }
    ensures { result ≡ difference_or_raise_at file.now at }
{
    let next = at + 6;
    if file.len() < next {
        return cut(file);
    }
    let slot = usize::from(file[at + 1]);
    let left = usize::from(file[at + 2]);
    let right = usize::from(file[at + 3]);
    let field = at + 4;
    let size = pair(file[field], file[field + 1]);
    Tag::DifferenceOrRaise {
        slot,
        left,
        right,
        size,
        next,
    }
}

// The node at an offset, by its tag: here the byte becomes a variant.
pub fn tag_at(file: &[u8], at: usize) -> Tag
    ensures { result ≡ tag_at file.now at }
{
    if file.len() <= at {
        return cut(file);
    }
    match file[at] {
        1 => constant_at(file, at),
        2 => copy_at(file, at),
        3 => difference_at(file, at),
        4 => jump_at(file, at),
        5 => resume_at(file, at),
        6 => handle_at(file, at),
        7 => branch_at(file, at),
        8 => continuation_at(file, at),
        9 => continuation_with_handler_at(file, at),
        10 => difference_or_raise_at(file, at),
        _ => Tag::Refused(Refusal {
            reason: Reason::Unknown,
            place: at,
        }),
    }
}
