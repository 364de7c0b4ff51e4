// The size of what operations, blocks and functions of a procedure file become in the translation, and how many slots it uses.

#![tactic(auto)]

ghost use Rattle.std.specs.Prelude.{◌≡◌, ◌+◌, ◌<◌, ◌≤◌, length, eqb, cond};
ghost use Rattle.procedure_layout.specs.Layout.{max_variables};
ghost use Rattle.parsing.specs.Fields.{version_of};
ghost use Rattle.procedure_file.specs.Check.{program_of};
ghost use Rattle.semantics.specs.Program.{variables, function_of};
ghost use Rattle.semantics.specs.Translation.{receiver_at, receiver_slot, last_slot};
ghost use Rattle.semantics.specs.SlotCount.{slots_used};
ghost use Rattle.translator_bytes.specs.Bytes.{raise_size, call_size, operation_size};
ghost use Rattle.translator_sizes.specs.Parts.{slot_byte, under_of, fields_of, function_bytes};
ghost use Rattle.translator_sizes.specs.Asked.{OperationInFile, CountInRange, BlockSize, LabelSize};

use procedure_file::loaded::LoadedFile;
use procedure_layout::layout::{After, after_of};
use procedure_operations::operation::{Operation, operation_at};
use translator_bytes::jumps;
use translator_bytes::jumps::Under;

fn call_size(u: Under, n: u8) -> usize
    requires { (u.variables ≤ max_variables) × (n ≤ max_variables) }
    ensures { (result ≡ call_size u n) × (result ≤ 128) }
{
    let inner = jumps::jump_size(usize::from(n));
    let other = jumps::jump_size(usize::from(u.variables));
    let number = jumps::size_if_any(u.number_slot, 1);
    if u.handler == 0 {
        5 + inner
    } else {
        8 + number + (inner + other)
    }
}

fn difference_size(u: Under) -> usize
    requires { u.variables ≤ max_variables }
    ensures { (result ≡ 6 + raise_size u) × (result ≤ 128) }
{
    6 + jumps::raise_size(u)
}

fn branch_size(v: u8) -> usize
    requires { v ≤ max_variables }
    ensures { (result ≡ 5 + ((6 + v) + (6 + v))) × (result ≤ 128) }
{
    let jump = jumps::jump_size(usize::from(v));
    5 + (jump + jump)
}

fn goto_size(v: u8) -> usize
    requires { v ≤ max_variables }
    ensures { (result ≡ 6 + v) × (result ≤ 128) }
{
    jumps::jump_size(usize::from(v))
}

// How many bytes an operation becomes, without the rest of its block.
fn operation_size(u: Under, x: Operation) -> usize
    requires { (u.variables ≤ max_variables) × CountInRange x }
    ensures { (result ≡ operation_size u x) × (result ≤ 128) }
{
    match x {
        Operation::Constant { .. } => 6,
        Operation::Copy { .. } => 3,
        Operation::Difference { .. } => difference_size(u),
        Operation::Call { count, .. } => call_size(u, count),
        Operation::Goto { .. } => goto_size(u.variables),
        Operation::Return { .. } => 3,
        Operation::Branch { .. } => branch_size(u.variables),
        Operation::Raise { .. } => jumps::raise_size(u),
        Operation::RaiseValue { .. } => jumps::raise_value_size(u),
        Operation::Refused(_) => 0,
    }
}

// The size of the block whose first operation stands at `start`.
pub fn block_size(file: &[u8], u: Under, start: usize) -> usize
    requires { OperationInFile file.now u.variables start }
    ensures { BlockSize file.now u start result }
{
    let mut at = start;
    let mut n = 0;
    loop {
        let x = operation_at(file, at);
        n += operation_size(u, x);
        match after_of(x) {
            After::Onward(next) => {
                at = next;
            }
            After::Ended(_) => {
                return n;
            }
            After::Halted(_) => {
                return n;
            }
        }
    }
}

// Slot V+4 of version 2, for a number that no variable receives; 0 in version 1.
fn spare_slot(file: &[u8], v: u8) -> u8
    requires { v ≤ max_variables }
    ensures { result ≡ cond (eqb (version_of file.now) 2) (v + 4) 0 }
{
    let spare = v + 4;
    if parsing::version_of(file) == 2 {
        spare
    } else {
        0
    }
}

// The slot of the receiver of the block with label h of function f; 0 for none, and for h 0.
fn receiver_slot(file: &LoadedFile, f: usize, h: u8) -> u8
    requires f_in_bounds { (f < length (program_of file.now)) × (h ≤ length (function_of (program_of file.now) f).blocks) }
    ensures { result ≡ slot_byte (receiver_slot (receiver_at (function_of (program_of file.now) f) h)) }
{
    if h == 0 {
        return 0;
    }
    let x = file.table().receiver_of(f, usize::from(h));
    if x == 255 {
        return 0;
    }
    x + 2
}

// The first of two slots where a number is 0, else the second.
fn by_zero(x: u8, first: u8, second: u8) -> u8
    ensures { result ≡ cond (eqb x 0) first second }
{
    if x == 0 { first } else { second }
}

// What a block with handler h of function f, which has v variables, is translated under.
fn under_of(file: &LoadedFile, f: usize, v: u8, h: u8) -> Under
    requires f_in_bounds { (f < length (program_of file.now)) × (h ≤ length (function_of (program_of file.now) f).blocks) × (v ≡ variables (function_of (program_of file.now) f)) }
    ensures { result ≡ under_of (function_of (program_of file.now) f) h }
{
    let spare = spare_slot(file.bytes(), v);
    let receiver = receiver_slot(file, f, h);
    let bound = by_zero(h, spare, receiver);
    let number_slot = by_zero(receiver, spare, receiver);
    Under {
        variables: v,
        handler: h,
        bound,
        number_slot,
    }
}

// What the part of a block is made from: its counts, what it is translated under, where the block starts.
#[derive(Drop)]
pub struct Fields {
    pub params: u8,
    pub locals: u8,
    pub under: Under,
    pub start: usize,
}

// Those of the block with label l of function f; label 0 is the entry block.
pub fn fields_of(file: &LoadedFile, f: usize, l: usize) -> Fields
    requires f_in_bounds { (f < length (program_of file.now)) × (l ≤ length (function_of (program_of file.now) f).blocks) }
    ensures { result ≡ fields_of (program_of file.now) f l }
{
    let table = file.table();
    let own = table.params_of(f);
    let others = table.locals_of(f);
    let v = own + others;
    let start = table.start_of(f, l);
    if l == 0 {
        let under = under_of(file, f, v, 0);
        return Fields {
            params: own,
            locals: others,
            under,
            start,
        };
    }
    let h = table.handler_of(f, l);
    let under = under_of(file, f, v, h);
    Fields {
        params: v,
        locals: 0,
        under,
        start,
    }
}

// The size of the part that the block with label l of function f becomes.
fn label_size(file: &LoadedFile, f: usize, l: usize) -> usize
    requires f_in_bounds { (f < length (program_of file.now)) × (l ≤ length (function_of (program_of file.now) f).blocks) }
    ensures { LabelSize file.now f l result }
{
    let x = fields_of(file, f, l);
    let n = usize::from(x.locals);
    let body = block_size(file.bytes(), x.under, x.start);
    3 + (6 * n + body)
}

// The size of what function f becomes.
pub fn function_size(file: &LoadedFile, f: usize) -> usize
    requires f_in_bounds { f < length (program_of file.now) }
    ensures { (result ≡ length (function_bytes file.now f)) × (result ≤ 536870912) }
{
    let labels = usize::from(file.table().labels_of(f));
    let mut n = 0;
    for l in 0..labels + 1 {
        n += label_size(file, f, l);
    }
    n
}

// The last slot that function f uses: V+3, the new handler's, and V+4 in version 2.
fn last_slot(file: &LoadedFile, f: usize) -> usize
    requires f_in_bounds { f < length (program_of file.now) }
    ensures { (result ≡ last_slot (function_of (program_of file.now) f)) × (result ≤ 36) }
{
    let table = file.table();
    let params = usize::from(table.params_of(f));
    let locals = usize::from(table.locals_of(f));
    let v = params + locals;
    if parsing::version_of(file.bytes()) == 2 {
        v + 4
    } else {
        v + 3
    }
}

// How many slots the translation uses.
pub fn slots_used(file: &LoadedFile) -> usize
    ensures { (result ≡ slots_used (program_of file.now)) × (result ≤ 37) }
{
    let mut n: usize = 2;
    for i in 0..file.table().functions() {
        n = n.max(last_slot(file, i) + 1);
    }
    n
}
