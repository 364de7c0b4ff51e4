// A block's operations, translated one behind the other.
ghost use Rattle.std.specs.Prelude.{◌≡◌, length};
ghost use Rattle.procedure_operations.specs.Operation.{operation_at, arguments_at};
ghost use Rattle.byte_writers.specs.Writes.{Room, Wrote};
ghost use Rattle.translator_bytes.specs.Bytes.{tabled, call_bytes, call_size, operation_bytes, operation_size};
ghost use Rattle.translator_sizes.specs.Parts.{bytes_at};
ghost use Rattle.translator.specs.Asked.{Placed};

use procedure_fields::fields::{
    CallFields, branch_fields, call_fields, constant_bytes, copy_fields, difference_fields,
    goto_fields, number_at, raise_value_fields, return_fields,
};
use procedure_layout::layout::{After, after_of};
use procedure_operations::operation::{Operation, operation_at};
use translator_bytes::jumps;
use translator_bytes::jumps::Under;

// 4 call: the callee's number in the translation is taken from the table.
fn put_called(
    file: &[u8],
    numbers: &[u16; 32],
    base: usize,
    u: Under,
    at: usize,
    x: CallFields,
    out: &mut [u8],
    o: usize,
) -> usize
    requires placed { Placed file.now numbers.now base u.variables at × (operation_at file.now at ≡ Operation.Call x.target.0 x.function.0 x.count x.next) }
    requires room { Room o (call_size u x.count) out.old }
    ensures { Wrote o (call_bytes base u x.target.0 (tabled numbers.now x.function.0) x.count (arguments_at file.now at x.count)) out.old result out.new }
{
    let g = usize::from(numbers[x.function.index()]);
    jumps::put_call(file, at, out, o, base, u, x.target, g, x.count)
}

// What the operation at an offset becomes, before the rest of its block.
fn put_operation(
    file: &[u8],
    numbers: &[u16; 32],
    base: usize,
    u: Under,
    at: usize,
    out: &mut [u8],
    o: usize,
) -> usize
    requires placed { Placed file.now numbers.now base u.variables at }
    requires room { Room o (operation_size u (operation_at file.now at)) out.old }
    ensures { Wrote o (operation_bytes (tabled numbers.now) base u file.now at (operation_at file.now at)) out.old result out.new }
{
    // By the byte, as the machines: each arm reads its own fields alone.
    match number_at(file, at) {
        1 => jumps::put_constant(out, o, constant_bytes(file, at)),
        2 => {
            let x = copy_fields(file, at);
            jumps::put_copy(out, o, x.target, x.from)
        }
        3 => {
            let x = difference_fields(file, at);
            jumps::put_difference(out, o, base, u, x.target, x.left, x.right)
        }
        4 => {
            let x = call_fields(file, at);
            put_called(file, numbers, base, u, at, x, out, o)
        }
        5 => {
            let x = goto_fields(file, at);
            jumps::put_label_jump(out, o, base, u.variables, x.label)
        }
        6 => {
            let x = return_fields(file, at);
            jumps::put_return(out, o, x.variable)
        }
        7 => {
            let x = branch_fields(file, at);
            jumps::put_branch(out, o, base, u.variables, x.left, x.right, x.least, x.other)
        }
        9 => {
            let x = raise_value_fields(file, at);
            jumps::put_raise_value(out, o, base, u, x.variable)
        }
        _ => jumps::put_raise(out, o, base, u),
    }
}

// The block whose first operation stands at `start`.
pub fn put_block(
    file: &[u8],
    numbers: &[u16; 32],
    base: usize,
    u: Under,
    start: usize,
    out: &mut [u8],
    o: usize,
) -> usize
    requires placed { Placed file.now numbers.now base u.variables start }
    requires room { Room o (length (bytes_at file.now base u start)) out.old }
    ensures { Wrote o (bytes_at file.now base u start) out.old result out.new }
{
    let mut at = start;
    let mut place = o;
    loop {
        place = put_operation(file, numbers, base, u, at, out, place);
        match after_of(operation_at(file, at)) {
            After::Onward(next) => {
                at = next;
            }
            After::Ended(_) => {
                return place;
            }
            After::Halted(_) => {
                return place;
            }
        }
    }
}
