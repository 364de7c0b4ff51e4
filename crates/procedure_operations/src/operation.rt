// The operation at an offset.
ghost use Rattle.std.specs.Prelude.{◌≡◌, length, ◌+◌, ◌<◌};
ghost use Rattle.parsing.specs.Fields.{cut};
ghost use Rattle.procedure_operations.specs.Operation.{operation_at, constant_at, copy_at, difference_at, call_at, goto_at, return_at, branch_at, raise_value_at, end_at};

use parsing::{Reason, Refusal};

// An operation as it stands in the file, with the offset past it. Its names are not judged here.
#[derive(Clone, Copy)]
pub enum Operation {
    Constant {
        target: u8,
        value: i32,
        next: usize,
    },
    Copy {
        target: u8,
        from: u8,
        next: usize,
    },
    Difference {
        target: u8,
        left: u8,
        right: u8,
        next: usize,
    },
    Call {
        target: u8,
        function: u8,
        count: u8,
        next: usize,
    },
    Goto {
        label: u8,
        next: usize,
    },
    Return {
        variable: u8,
        next: usize,
    },
    Branch {
        left: u8,
        right: u8,
        least: u8,
        other: u8,
        next: usize,
    },
    Raise {
        next: usize,
    },
    RaiseValue {
        variable: u8,
        next: usize,
    },
    Refused(Refusal),
}

// The file ends early. (Tags have the same line for theirs: one for both would take what makes an operation or a tag.)
fn cut(file: &[u8]) -> Operation
    ensures { result ≡ Operation.Refused (cut file.now) }
{
    Operation::Refused(Refusal {
        reason: Reason::EndsEarly,
        place: file.len(),
    })
}

fn constant_at(file: &[u8], at: usize) -> Operation
    requires { at < length file.now }
    ensures { result ≡ constant_at file.now at }
{
    let next = at + 6;
    if file.len() < next {
        return cut(file);
    }
    let x = at + 1;
    let i = at + 2;
    let value = parsing::value(file[i], file[i + 1], file[i + 2], file[i + 3]);
    Operation::Constant {
        target: file[x],
        value,
        next,
    }
}

fn copy_at(file: &[u8], at: usize) -> Operation
    requires { at < length file.now }
    ensures { result ≡ copy_at file.now at }
{
    let next = at + 3;
    if file.len() < next {
        return cut(file);
    }
    Operation::Copy {
        target: file[at + 1],
        from: file[at + 2],
        next,
    }
}

fn difference_at(file: &[u8], at: usize) -> Operation
    requires { at < length file.now }
    ensures { result ≡ difference_at file.now at }
{
    let next = at + 4;
    if file.len() < next {
        return cut(file);
    }
    Operation::Difference {
        target: file[at + 1],
        left: file[at + 2],
        right: file[at + 3],
        next,
    }
}

fn call_at(file: &[u8], at: usize) -> Operation
    requires { at < length file.now }
    ensures { result ≡ call_at file.now at }
{
    let arguments = at + 4;
    if file.len() < arguments {
        return cut(file);
    }
    let count = file[at + 3];
    let next = arguments + usize::from(count);
    if file.len() < next {
        return cut(file);
    }
    Operation::Call {
        target: file[at + 1],
        function: file[at + 2],
        count,
        next,
    }
}

fn goto_at(file: &[u8], at: usize) -> Operation
    requires { at < length file.now }
    ensures { result ≡ goto_at file.now at }
{
    let next = at + 2;
    if file.len() < next {
        return cut(file);
    }
    Operation::Goto {
        label: file[at + 1],
        next,
    }
}

// (Alike with `goto_at` but for the variant, which a function for both would have to be given.)
fn return_at(file: &[u8], at: usize) -> Operation
    requires { at < length file.now }
    ensures { result ≡ return_at file.now at }
{
    let next = at + 2;
    if file.len() < next {
        return cut(file);
    }
    Operation::Return {
        variable: file[at + 1],
        next,
    }
}

fn branch_at(file: &[u8], at: usize) -> Operation
    requires { at < length file.now }
    ensures { result ≡ branch_at file.now at }
{
    let next = at + 5;
    if file.len() < next {
        return cut(file);
    }
    Operation::Branch {
        left: file[at + 1],
        right: file[at + 2],
        least: file[at + 3],
        other: file[at + 4],
        next,
    }
}

// "Operation 9 raises a variable's value" (document 02, Slip 7), in version 2; in version 1 it is unknown.
fn raise_value_at(file: &[u8], at: usize) -> Operation
    requires { at < length file.now }
    ensures { result ≡ raise_value_at file.now at }
{
    if parsing::version_of(file) != 2 {
        return Operation::Refused(Refusal {
            reason: Reason::Unknown,
            place: at,
        });
    }
    let next = at + 2;
    if file.len() < next {
        return cut(file);
    }
    Operation::RaiseValue {
        variable: file[at + 1],
        next,
    }
}

// The operations that end a block, 5 to 8 and in version 2 9. (Here and in `operation_at` the byte becomes a variant: by its number.)
fn end_at(file: &[u8], at: usize, number: u8) -> Operation
    requires { at < length file.now }
    ensures { result ≡ end_at file.now at number }
{
    match number {
        5 => goto_at(file, at),
        6 => return_at(file, at),
        7 => branch_at(file, at),
        8 => Operation::Raise { next: at + 1 },
        9 => raise_value_at(file, at),
        _ => Operation::Refused(Refusal {
            reason: Reason::Unknown,
            place: at,
        }),
    }
}

// "The operation byte decides among eight forms", in version 2 among nine.
pub fn operation_at(file: &[u8], at: usize) -> Operation
    ensures { result ≡ operation_at file.now at }
{
    if file.len() <= at {
        return cut(file);
    }
    let number = file[at];
    match number {
        1 => constant_at(file, at),
        2 => copy_at(file, at),
        3 => difference_at(file, at),
        4 => call_at(file, at),
        5..=9 => end_at(file, at, number),
        _ => Operation::Refused(Refusal {
            reason: Reason::Unknown,
            place: at,
        }),
    }
}
