// The names in a file: the refusals 7 to 10.
ghost use Rattle.std.specs.Prelude.{◌≡◌, [], ◌∷◌, ◌+◌, ◌≤◌, ◌<◌, length, get_or};
ghost use Rattle.parsing.specs.Parser.{verdict_of};
ghost use Rattle.procedure_layout.specs.Layout.{arguments_at, as_receiver};
ghost use Rattle.procedure_operations.specs.Operation.{operation_at};
ghost use Rattle.procedure_layout.specs.Rest.{rest_at};
ghost use Rattle.procedure_names.specs.Names.{variable, label, receiver, function, arity, arguments, block_names, first_wrong};
ghost use Rattle.procedure_names.specs.OperationNames.{operation_names};
ghost use Rattle.procedure_operations.specs.declared.operation.Operation.TheVariants.{Call};

use parsing::{Reason, Refusal, or_else};
use procedure_layout::layout;
use procedure_layout::layout::After;
use procedure_operations::numbers::{FunctionNumber, function_number, variable_number};
use procedure_operations::operation;
use procedure_operations::operation::Operation;

fn variable_named(x: u8, variables: usize, place: usize) -> Result<(), Refusal>
    ensures { verdict_of result ≡ first_wrong (variable variables place x ∷ []) }
{
    match variable_number(x, variables) {
        Some(_) => Ok(()),
        None => Err(Refusal {
            reason: Reason::MissingVariable,
            place,
        }),
    }
}

// A receiver, by its byte (document 02, Slip 7).
pub fn receiver_named(x: u8, variables: usize, place: usize) -> Result<(), Refusal>
    ensures { verdict_of result ≡ first_wrong (receiver variables place (as_receiver x) ∷ []) }
{
    if x == 255 {
        return Ok(());
    }
    variable_named(x, variables, place)
}

fn label_named(l: u8, labels: usize, place: usize) -> Result<(), Refusal>
    ensures { verdict_of result ≡ first_wrong (label labels place l ∷ []) }
{
    if l == 0 || labels < usize::from(l) {
        return Err(Refusal {
            reason: Reason::MissingLabel,
            place,
        });
    }
    Ok(())
}

// The number of parameters of a function that is there.
fn arity_of(params: &[u8], g: FunctionNumber) -> u8
    requires { g.0 < length params.now }
    ensures { result ≡ get_or params.now g.0 0 }
{
    params[g.index()]
}

// The function and the argument count of the call at an offset.
fn callee_named(params: &[u8], g: u8, count: u8, at: usize) -> Result<(), Refusal>
    requires { at < 9223372036854775808 }
    ensures { verdict_of result ≡ first_wrong (function params.now (at + 2) g ∷ arity params.now (at + 3) g count ∷ []) }
{
    let Some(callee) = function_number(g, params.len()) else {
        return Err(Refusal {
            reason: Reason::MissingFunction,
            place: at + 2,
        });
    };
    if arity_of(params, callee) != count {
        return Err(Refusal {
            reason: Reason::CalleeArity,
            place: at + 3,
        });
    }
    Ok(())
}

// The arguments of the call at an offset.
fn arguments_named(file: &[u8], at: usize, count: u8, variables: usize) -> Result<(), Refusal>
    requires { at + 4 + count ≤ length file.now }
    ensures { verdict_of result ≡ first_wrong (arguments variables (at + 4) (arguments_at file.now at count)) }
{
    for place in at + 4..at + 4 + usize::from(count) {
        variable_named(file[place], variables, place)?;
    }
    Ok(())
}

// The two variables of the operation at an offset.
fn two_named(x: u8, y: u8, variables: usize, at: usize) -> Result<(), Refusal>
    requires { at < 9223372036854775808 }
    ensures { verdict_of result ≡ first_wrong (variable variables (at + 1) x ∷ variable variables (at + 2) y ∷ []) }
{
    or_else(
        variable_named(x, variables, at + 1),
        variable_named(y, variables, at + 2),
    )
}

// The three variables of the operation at an offset.
fn three_named(x: u8, y: u8, z: u8, variables: usize, at: usize) -> Result<(), Refusal>
    requires { at < 9223372036854775808 }
    ensures { verdict_of result ≡ first_wrong (variable variables (at + 1) x ∷ variable variables (at + 2) y ∷ variable variables (at + 3) z ∷ []) }
{
    or_else(
        two_named(x, y, variables, at),
        variable_named(z, variables, at + 3),
    )
}

// The two labels of the branch at an offset. (Alike with `two_named` in form alone: one function for both would take the judge and two places.)
fn labels_named(l: u8, m: u8, labels: usize, at: usize) -> Result<(), Refusal>
    requires { at < 9223372036854775808 }
    ensures { verdict_of result ≡ first_wrong (label labels (at + 3) l ∷ label labels (at + 4) m ∷ []) }
{
    or_else(
        label_named(l, labels, at + 3),
        label_named(m, labels, at + 4),
    )
}

// The call at an offset.
fn call_named(
    file: &[u8],
    at: usize,
    target: u8,
    callee: u8,
    count: u8,
    params: &[u8],
    variables: usize,
) -> Result<(), Refusal>
    requires { at + 4 + count ≤ length file.now }
    ensures { verdict_of result ≡ first_wrong (operation_names params.now variables 0 file.now at (Call target callee count 0)) }
{
    variable_named(target, variables, at + 1)?;
    callee_named(params, callee, count, at)?;
    arguments_named(file, at, count, variables)
}

// The branch at an offset.
fn branch_named(
    at: usize,
    y: u8,
    z: u8,
    l: u8,
    m: u8,
    variables: usize,
    labels: usize,
) -> Result<(), Refusal>
    requires { at < 9223372036854775808 }
    ensures { verdict_of result ≡ first_wrong (variable variables (at + 1) y ∷ variable variables (at + 2) z ∷ label labels (at + 3) l ∷ label labels (at + 4) m ∷ []) }
{
    or_else(
        two_named(y, z, variables, at),
        labels_named(l, m, labels, at),
    )
}

// The names of the operation at an offset.
fn operation_named(
    file: &[u8],
    at: usize,
    o: Operation,
    params: &[u8],
    variables: usize,
    labels: usize,
) -> Result<(), Refusal>
    requires { o ≡ operation_at file.now at }
    ensures { verdict_of result ≡ first_wrong (operation_names params.now variables labels file.now at o) }
{
    if file.len() <= at {
        return Ok(());
    }
    match o {
        Operation::Constant { target, .. } => variable_named(target, variables, at + 1),
        Operation::Copy { target, from, .. } => two_named(target, from, variables, at),
        Operation::Difference {
            target,
            left,
            right,
            ..
        } => three_named(target, left, right, variables, at),
        Operation::Call {
            target,
            function,
            count,
            ..
        } => call_named(file, at, target, function, count, params, variables),
        Operation::Goto { label, .. } => label_named(label, labels, at + 1),
        Operation::Return { variable, .. } => variable_named(variable, variables, at + 1),
        Operation::Branch {
            left,
            right,
            least,
            other,
            ..
        } => branch_named(at, left, right, least, other, variables, labels),
        Operation::Raise { .. } => Ok(()),
        Operation::RaiseValue { variable, .. } => variable_named(variable, variables, at + 1),
        Operation::Refused(_) => Ok(()),
    }
}

// The names of the block whose first operation stands at `start`.
pub fn block_named(
    file: &[u8],
    start: usize,
    params: &[u8],
    variables: usize,
    labels: usize,
) -> Result<(), Refusal>
    ensures { verdict_of result ≡ first_wrong (block_names params.now variables labels start (rest_at file.now start)) }
{
    let mut at = start;
    loop {
        let o = operation::operation_at(file, at);
        operation_named(file, at, o, params, variables, labels)?;
        match layout::after_of(o) {
            After::Onward(next) => {
                at = next;
            }
            After::Ended(_) | After::Halted(_) => {
                return Ok(());
            }
        }
    }
}
