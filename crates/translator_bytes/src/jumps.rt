// The forms that a block's operations become, written behind what the output holds.
ghost use Rattle.std.specs.Prelude.{◌≡◌, [], ◌∷◌, ◌++◌, ◌+◌, ◌<◌, ◌≤◌};
ghost use Rattle.parsing.specs.Fields.{value_of};
ghost use Rattle.parsing.specs.Bytes.{value_bytes};
ghost use Rattle.procedure_operations.specs.Numbers.{max_variables};
ghost use Rattle.procedure_operations.specs.Operation.{arguments_at};
ghost use Rattle.byte_writers.specs.Writes.{Room, Wrote};
ghost use Rattle.translator_bytes.specs.Writes.{CallInFile};
ghost use Rattle.translator_bytes.specs.Bytes.{if_any, size_if_any, jump_head, label_jump, call_jump, plain_call, guarded_head, guarded_call, branch_bytes, raise_end, raise_end_size, raise_bytes, raise_size, raise_value_bytes, raise_value_size, difference_bytes, call_bytes, call_size};

use crate::bytes;
use byte_writers::{put, put_pair};
use procedure_fields::fields::ConstantBytes;
use procedure_operations::numbers::VariableNumber;

// What a block is translated under: the count of variables, the handler in force (0 for none), and two slots (0 for none): the one that a raise there binds first,
// and the one in which a raised number goes on.
#[derive(Clone, Copy)]
pub struct Under {
    pub variables: u8,
    pub handler: u8,
    pub bound: u8,
    pub number_slot: u8,
}

// n bytes of a slot, if any.
pub fn size_if_any(slot: u8, n: usize) -> usize
    ensures { (result ≡ size_if_any slot n) × (result ≤ n) }
{
    if slot == 0 { 0 } else { n }
}

// The byte of a slot, if any.
fn put_slot_if_any(out: &mut [u8], o: usize, slot: u8) -> usize
    requires { Room o (size_if_any slot 1) out.old }
    ensures { Wrote o (if_any slot (slot ∷ [])) out.old result out.new }
{
    if slot == 0 { o } else { put(out, o, [slot]) }
}

// A slot, if any, bound to 0. (The three of them differ in what is written: a closure for it would say no less.)
fn put_zero_if_any(out: &mut [u8], o: usize, slot: u8) -> usize
    requires { Room o (size_if_any slot 6) out.old }
    ensures { Wrote o (if_any slot ((1 ∷ slot ∷ []) ++ (0 ∷ 0 ∷ 0 ∷ 0 ∷ []))) out.old result out.new }
{
    if slot == 0 {
        o
    } else {
        bytes::put_zero(out, o, slot)
    }
}

// A slot, if any, bound to a variable's value.
fn put_value_if_any(out: &mut [u8], o: usize, slot: u8, y: VariableNumber) -> usize
    requires y_lt_max_variables { y.0 < max_variables }
    requires room { Room o (size_if_any slot 3) out.old }
    ensures { Wrote o (if_any slot (2 ∷ slot ∷ (y.0 + 2) ∷ [])) out.old result out.new }
{
    let from = bytes::slot_of(y);
    if slot == 0 {
        o
    } else {
        put(out, o, [2, slot, from])
    }
}

// The length of a jump: 6 plus the number of values, 0 to 32.
pub fn jump_size(values: usize) -> usize
    requires { values < 33 }
    ensures { result ≡ 6 + values }
{
    6 + values
}

fn put_jump_head(out: &mut [u8], o: usize, g: usize, k: u8, h: u8, n: u8) -> usize
    requires g_bound { g < 65536 }
    requires room { Room o 6 out.old }
    ensures { Wrote o (jump_head g k h n) out.old result out.new }
{
    let a = put(out, o, [4]);
    let b = put_pair(out, a, g);
    put(out, b, [k, h, n])
}

// The jump to a label with all of v variables.
pub fn put_label_jump(out: &mut [u8], o: usize, base: usize, v: u8, l: u8) -> usize
    requires base_bound { (base ≤ 2048) × (v ≤ max_variables) }
    requires room { Room o (6 + v) out.old }
    ensures { Wrote o (label_jump base v l) out.old result out.new }
{
    let g = base + usize::from(l);
    let a = put_jump_head(out, o, g, 0, 1, v);
    bytes::put_slots(out, a, 2, v)
}

// The jump to a called function with the arguments of the call at an offset.
fn put_call_jump(
    file: &[u8],
    at: usize,
    out: &mut [u8],
    o: usize,
    g: usize,
    k: u8,
    h: u8,
    n: u8,
) -> usize
    requires g_bound { (g < 65536) × CallInFile file.now at n }
    requires room { Room o (6 + n) out.old }
    ensures { Wrote o (call_jump g k h n (arguments_at file.now at n)) out.old result out.new }
{
    let a = put_jump_head(out, o, g, k, h, n);
    bytes::put_arguments(file, at, out, a, n)
}

fn put_plain_call(
    file: &[u8],
    at: usize,
    out: &mut [u8],
    o: usize,
    v: u8,
    x: VariableNumber,
    g: usize,
    n: u8,
) -> usize
    requires v_le_max_variables { (v ≤ max_variables) × (x.0 < max_variables) × (n ≤ max_variables) × (g < 65536) × CallInFile file.now at n }
    requires room { Room o (5 + (6 + n)) out.old }
    ensures { Wrote o (plain_call v x.0 g n (arguments_at file.now at n)) out.old result out.new }
{
    let k = v + 2;
    let target = bytes::slot_of(x);
    let size = jump_size(usize::from(n));
    let a = put(out, o, [8, k, target]);
    let b = put_pair(out, a, size);
    put_call_jump(file, at, out, b, g, k, 1, n)
}

// The slots of tag 9.
fn put_guarded_head(out: &mut [u8], o: usize, k: u8, target: u8, t: u8, number: u8) -> usize
    requires { Room o (4 + size_if_any number 1) out.old }
    ensures { Wrote o (guarded_head k target t number) out.old result out.new }
{
    let a = put(out, o, [9, k, target, t]);
    put_slot_if_any(out, a, number)
}

fn put_guarded_call(
    file: &[u8],
    at: usize,
    out: &mut [u8],
    o: usize,
    base: usize,
    u: Under,
    x: VariableNumber,
    g: usize,
    n: u8,
) -> usize
    requires base_bound { (base ≤ 2048) × (u.variables ≤ max_variables) × (x.0 < max_variables) × (n ≤ max_variables) × (g < 65536) × CallInFile file.now at n }
    requires room { Room o (8 + size_if_any u.number_slot 1 + ((6 + n) + (6 + u.variables))) out.old }
    ensures { Wrote o (guarded_call base u x.0 g n (arguments_at file.now at n)) out.old result out.new }
{
    let v = u.variables;
    let k = v + 2;
    let target = bytes::slot_of(x);
    let t = v + 3;
    let size = jump_size(usize::from(n));
    let other = jump_size(usize::from(v));
    let a = put_guarded_head(out, o, k, target, t, u.number_slot);
    let b = put_pair(out, a, size);
    let e = put_call_jump(file, at, out, b, g, k, t, n);
    let f = put_pair(out, e, other);
    put_label_jump(out, f, base, v, u.handler)
}

// 4 call, under the handler in force.
pub fn put_call(
    file: &[u8],
    at: usize,
    out: &mut [u8],
    o: usize,
    base: usize,
    u: Under,
    x: VariableNumber,
    g: usize,
    n: u8,
) -> usize
    requires base_bound { (base ≤ 2048) × (u.variables ≤ max_variables) × (x.0 < max_variables) × (n ≤ max_variables) × (g < 65536) × CallInFile file.now at n }
    requires room { Room o (call_size u n) out.old }
    ensures { Wrote o (call_bytes base u x.0 g n (arguments_at file.now at n)) out.old result out.new }
{
    if u.handler == 0 {
        put_plain_call(file, at, out, o, u.variables, x, g, n)
    } else {
        put_guarded_call(file, at, out, o, base, u, x, g, n)
    }
}

// 7 branch
pub fn put_branch(
    out: &mut [u8],
    o: usize,
    base: usize,
    v: u8,
    y: VariableNumber,
    z: VariableNumber,
    l: u8,
    m: u8,
) -> usize
    requires base_bound { (base ≤ 2048) × (v ≤ max_variables) × (y.0 < max_variables) × (z.0 < max_variables) }
    requires room { Room o (5 + ((6 + v) + (6 + v))) out.old }
    ensures { Wrote o (branch_bytes base v y.0 z.0 l m) out.old result out.new }
{
    let left = bytes::slot_of(y);
    let right = bytes::slot_of(z);
    let size = jump_size(usize::from(v));
    let a = put(out, o, [7, left, right]);
    let b = put_pair(out, a, size);
    let e = put_label_jump(out, b, base, v, l);
    put_label_jump(out, e, base, v, m)
}

// How many bytes a raise becomes, under the handler in force.
pub fn raise_size(u: Under) -> usize
    requires { u.variables ≤ max_variables }
    ensures { (result ≡ raise_size u) × (result ≤ 12 + max_variables) }
{
    let jump = jump_size(usize::from(u.variables));
    let first = size_if_any(u.bound, 6);
    let last = size_if_any(u.number_slot, 1);
    if u.handler == 0 {
        first + (2 + last)
    } else {
        first + jump
    }
}

// The end of a raise of 0: tag 6, or the jump to the handler.
fn put_raise_end(out: &mut [u8], o: usize, base: usize, u: Under) -> usize
    requires base_bound { (base ≤ 2048) × (u.variables ≤ max_variables) }
    requires room { Room o (raise_end_size u) out.old }
    ensures { Wrote o (raise_end base u) out.old result out.new }
{
    if u.handler == 0 {
        let a = put(out, o, [6, 1]);
        put_slot_if_any(out, a, u.number_slot)
    } else {
        put_label_jump(out, o, base, u.variables, u.handler)
    }
}

// 8 raise, under the handler in force.
pub fn put_raise(out: &mut [u8], o: usize, base: usize, u: Under) -> usize
    requires base_bound { (base ≤ 2048) × (u.variables ≤ max_variables) }
    requires room { Room o (raise_size u) out.old }
    ensures { Wrote o (raise_bytes base u) out.old result out.new }
{
    let a = put_zero_if_any(out, o, u.bound);
    put_raise_end(out, a, base, u)
}

// How many bytes a raise of a variable's value becomes, under the handler in force.
pub fn raise_value_size(u: Under) -> usize
    requires { u.variables ≤ max_variables }
    ensures { (result ≡ raise_value_size u) × (result ≤ 12 + max_variables) }
{
    let jump = jump_size(usize::from(u.variables));
    let first = size_if_any(u.bound, 3);
    if u.handler == 0 { 3 } else { first + jump }
}

// 9 raise of a variable's value, under the handler in force.
pub fn put_raise_value(out: &mut [u8], o: usize, base: usize, u: Under, y: VariableNumber) -> usize
    requires base_bound { (base ≤ 2048) × (u.variables ≤ max_variables) × (y.0 < max_variables) }
    requires room { Room o (raise_value_size u) out.old }
    ensures { Wrote o (raise_value_bytes base u y.0) out.old result out.new }
{
    if u.handler == 0 {
        let value = bytes::slot_of(y);
        put(out, o, [6, 1, value])
    } else {
        let a = put_value_if_any(out, o, u.bound, y);
        put_label_jump(out, a, base, u.variables, u.handler)
    }
}

// 1 constant
pub fn put_constant(out: &mut [u8], o: usize, x: ConstantBytes) -> usize
    requires target_lt_max_variables { x.target.0 < max_variables }
    requires room { Room o 6 out.old }
    ensures { Wrote o ((1 ∷ (x.target.0 + 2) ∷ []) ++ value_bytes (value_of x.b0 x.b1 x.b2 x.b3)) out.old result out.new }
{
    let target = bytes::slot_of(x.target);
    put(out, o, [1, target, x.b0, x.b1, x.b2, x.b3])
}

// 2 copy
pub fn put_copy(out: &mut [u8], o: usize, x: VariableNumber, y: VariableNumber) -> usize
    requires x_lt_max_variables { (x.0 < max_variables) × (y.0 < max_variables) }
    requires room { Room o 3 out.old }
    ensures { Wrote o (2 ∷ (x.0 + 2) ∷ (y.0 + 2) ∷ []) out.old result out.new }
{
    let target = bytes::slot_of(x);
    let from = bytes::slot_of(y);
    put(out, o, [2, target, from])
}

// 3 difference, under the handler in force: its part is what a raise becomes there.
pub fn put_difference(
    out: &mut [u8],
    o: usize,
    base: usize,
    u: Under,
    x: VariableNumber,
    y: VariableNumber,
    z: VariableNumber,
) -> usize
    requires base_bound { (base ≤ 2048) × (u.variables ≤ max_variables) × (x.0 < max_variables) × (y.0 < max_variables) × (z.0 < max_variables) }
    requires room { Room o (6 + raise_size u) out.old }
    ensures { Wrote o (difference_bytes base u x.0 y.0 z.0) out.old result out.new }
{
    let target = bytes::slot_of(x);
    let left = bytes::slot_of(y);
    let right = bytes::slot_of(z);
    let size = raise_size(u);
    let a = put(out, o, [10, target, left, right]);
    let b = put_pair(out, a, size);
    put_raise(out, b, base, u)
}

// 6 return
pub fn put_return(out: &mut [u8], o: usize, x: VariableNumber) -> usize
    requires x_lt_max_variables { x.0 < max_variables }
    requires room { Room o 3 out.old }
    ensures { Wrote o (5 ∷ 0 ∷ (x.0 + 2) ∷ []) out.old result out.new }
{
    let value = bytes::slot_of(x);
    put(out, o, [5, 0, value])
}
