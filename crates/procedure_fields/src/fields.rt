// The fields of the operation at an offset, one function for each form that has any: for the bench and the translator, which stand at operations alone.
ghost use Rattle.std.specs.Prelude.{◌≡◌, ◌≤◌, ◌<◌, get_or};
ghost use Rattle.parsing.specs.Fields.{value_of};
ghost use Rattle.procedure_operations.specs.Operation.{operation_at, arguments_at};
ghost use Rattle.procedure_operations.specs.Ranges.{NumbersInRange};
ghost use Rattle.procedure_fields.specs.Number.{number_of, count_of};

use procedure_operations::numbers::{
    FunctionNumber, VariableNumber, checked_function, checked_variable,
};
use procedure_operations::operation::Operation;

// The number of the operation that stands at an offset.
pub fn number_at(file: &[u8], at: usize) -> u8
    requires { 1 ≤ number_of (operation_at file.now at) }
    ensures { result ≡ number_of (operation_at file.now at) }
{
    file[at]
}

// 1 constant
#[derive(Drop)]
pub struct ConstantFields {
    pub target: VariableNumber,
    pub value: i32,
    pub next: usize,
}

pub fn constant_fields(file: &[u8], at: usize) -> ConstantFields
    requires at_value { number_of (operation_at file.now at) ≡ 1 }
    requires numbers_in_range { NumbersInRange file.now at (operation_at file.now at) }
    ensures { operation_at file.now at ≡ Operation.Constant result.target.0 result.value result.next }
{
    let x = at + 1;
    let i = at + 2;
    let next = at + 6;
    let value = parsing::value(file[i], file[i + 1], file[i + 2], file[i + 3]);
    let target = checked_variable(file[x]);
    ConstantFields {
        target,
        value,
        next,
    }
}

// 1 constant, with the four bytes of its value as they stand.
#[derive(Drop)]
pub struct ConstantBytes {
    pub target: VariableNumber,
    pub b0: u8,
    pub b1: u8,
    pub b2: u8,
    pub b3: u8,
    pub next: usize,
}

pub fn constant_bytes(file: &[u8], at: usize) -> ConstantBytes
    requires at_value { number_of (operation_at file.now at) ≡ 1 }
    requires numbers_in_range { NumbersInRange file.now at (operation_at file.now at) }
    ensures { operation_at file.now at ≡ Operation.Constant result.target.0 (value_of result.b0 result.b1 result.b2 result.b3) result.next }
{
    let x = at + 1;
    let low = at + 2;
    let second = low + 1;
    let third = low + 2;
    let high = low + 3;
    let next = low + 4;
    let target = checked_variable(file[x]);
    ConstantBytes {
        target,
        b0: file[low],
        b1: file[second],
        b2: file[third],
        b3: file[high],
        next,
    }
}

// 2 copy
#[derive(Drop)]
pub struct CopyFields {
    pub target: VariableNumber,
    pub from: VariableNumber,
    pub next: usize,
}

pub fn copy_fields(file: &[u8], at: usize) -> CopyFields
    requires at_value { number_of (operation_at file.now at) ≡ 2 }
    requires numbers_in_range { NumbersInRange file.now at (operation_at file.now at) }
    ensures { operation_at file.now at ≡ Operation.Copy result.target.0 result.from.0 result.next }
{
    let x = at + 1;
    let y = at + 2;
    let next = at + 3;
    let target = checked_variable(file[x]);
    let from = checked_variable(file[y]);
    CopyFields { target, from, next }
}

// 3 difference
#[derive(Drop)]
pub struct DifferenceFields {
    pub target: VariableNumber,
    pub left: VariableNumber,
    pub right: VariableNumber,
    pub next: usize,
}

pub fn difference_fields(file: &[u8], at: usize) -> DifferenceFields
    requires at_value { number_of (operation_at file.now at) ≡ 3 }
    requires numbers_in_range { NumbersInRange file.now at (operation_at file.now at) }
    ensures { operation_at file.now at ≡ Operation.Difference result.target.0 result.left.0 result.right.0 result.next }
{
    let x = at + 1;
    let y = at + 2;
    let z = at + 3;
    let next = at + 4;
    let target = checked_variable(file[x]);
    let left = checked_variable(file[y]);
    let right = checked_variable(file[z]);
    DifferenceFields {
        target,
        left,
        right,
        next,
    }
}

// 4 call
#[derive(Drop)]
pub struct CallFields {
    pub target: VariableNumber,
    pub function: FunctionNumber,
    pub count: u8,
    pub next: usize,
}

pub fn call_fields(file: &[u8], at: usize) -> CallFields
    requires at_value { number_of (operation_at file.now at) ≡ 4 }
    requires numbers_in_range { NumbersInRange file.now at (operation_at file.now at) }
    ensures { operation_at file.now at ≡ Operation.Call result.target.0 result.function.0 result.count result.next }
{
    let x = at + 1;
    let g = at + 2;
    let c = at + 3;
    let arguments = at + 4;
    let count = file[c];
    let next = arguments + usize::from(count);
    let target = checked_variable(file[x]);
    let function = checked_function(file[g]);
    CallFields {
        target,
        function,
        count,
        next,
    }
}

// Argument i of the call at an offset.
pub fn argument_at(file: &[u8], at: usize, i: usize) -> VariableNumber
    requires i_bound { i < count_of (operation_at file.now at) }
    requires numbers_in_range { NumbersInRange file.now at (operation_at file.now at) }
    ensures { result.0 ≡ get_or (arguments_at file.now at (count_of (operation_at file.now at))) i 0 }
{
    let first = at + 4;
    let y = first + i;
    checked_variable(file[y])
}

// 5 goto
#[derive(Drop)]
pub struct GotoFields {
    pub label: u8,
    pub next: usize,
}

pub fn goto_fields(file: &[u8], at: usize) -> GotoFields
    requires { number_of (operation_at file.now at) ≡ 5 }
    ensures { operation_at file.now at ≡ Operation.Goto result.label result.next }
{
    let l = at + 1;
    let next = at + 2;
    GotoFields {
        label: file[l],
        next,
    }
}

// 6 return
#[derive(Drop)]
pub struct ReturnFields {
    pub variable: VariableNumber,
    pub next: usize,
}

pub fn return_fields(file: &[u8], at: usize) -> ReturnFields
    requires at_value { number_of (operation_at file.now at) ≡ 6 }
    requires numbers_in_range { NumbersInRange file.now at (operation_at file.now at) }
    ensures { operation_at file.now at ≡ Operation.Return result.variable.0 result.next }
{
    let x = at + 1;
    let next = at + 2;
    let variable = checked_variable(file[x]);
    ReturnFields { variable, next }
}

// 7 branch
#[derive(Drop)]
pub struct BranchFields {
    pub left: VariableNumber,
    pub right: VariableNumber,
    pub least: u8,
    pub other: u8,
    pub next: usize,
}

pub fn branch_fields(file: &[u8], at: usize) -> BranchFields
    requires at_value { number_of (operation_at file.now at) ≡ 7 }
    requires numbers_in_range { NumbersInRange file.now at (operation_at file.now at) }
    ensures { operation_at file.now at ≡ Operation.Branch result.left.0 result.right.0 result.least result.other result.next }
{
    let y = at + 1;
    let z = at + 2;
    let l = at + 3;
    let m = at + 4;
    let next = at + 5;
    let left = checked_variable(file[y]);
    let right = checked_variable(file[z]);
    BranchFields {
        left,
        right,
        least: file[l],
        other: file[m],
        next,
    }
}

// 9, a raise of a variable's value (the fields of a return, told apart by type from them)
#[derive(Drop)]
pub struct RaiseValueFields {
    pub variable: VariableNumber,
    pub next: usize,
}

pub fn raise_value_fields(file: &[u8], at: usize) -> RaiseValueFields
    requires at_value { number_of (operation_at file.now at) ≡ 9 }
    requires numbers_in_range { NumbersInRange file.now at (operation_at file.now at) }
    ensures { operation_at file.now at ≡ Operation.RaiseValue result.variable.0 result.next }
{
    let x = at + 1;
    let next = at + 2;
    let raised = file[x];
    let variable = checked_variable(raised);
    RaiseValueFields { variable, next }
}
