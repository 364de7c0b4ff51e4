// Functions of a procedure file, written one behind the other with their calls renumbered.
ghost use Rattle.std.specs.Prelude.{map, ◌≤◌, ◌<◌, length};
ghost use Rattle.parsing.specs.Parser.{joined};
ghost use Rattle.semantics.specs.Program.{function_of};
ghost use Rattle.semantics.specs.Merge.{renumbered_function};
ghost use Rattle.procedure_names.specs.Writing.{function_bytes};
ghost use Rattle.procedure_layout.specs.Layout.{max_functions};
ghost use Rattle.procedure_file.specs.Check.{program_of};
ghost use Rattle.byte_writers.specs.Writes.{Room, Wrote};
ghost use Rattle.merge.specs.Parts.{stretch, operation_bytes, rest_bytes, entry_bytes, label_bytes};
ghost use Rattle.merge.specs.Asked.{OperationFits, OperationInFile};

use byte_writers::put;
use procedure_file::loaded::LoadedFile;
use procedure_layout::layout::{After, after_of, bytes_before};
use procedure_operations::operation::operation_at;

// The bytes of a file from `at` up to `next`.
pub fn put_stretch(file: &[u8], at: usize, next: usize, out: &mut [u8], o: usize) -> usize
    requires at_le_next { (at ≤ next) × (next ≤ length file.now) }
    requires room { Room o (length (stretch file.now at next)) out.old }
    ensures { Wrote o (stretch file.now at next) out.old result out.new }
{
    let end = o + (next - at);
    out[o..end].copy_from_slice(&file[at..next]);
    end
}

// The operation from `at` up to `next`; the function that a call names gets `count` added to its number.
fn put_operation(file: &[u8], at: usize, next: usize, count: u8, out: &mut [u8], o: usize) -> usize
    requires operation_fits { OperationFits file.now at next count }
    requires room { Room o (length (operation_bytes file.now at next count)) out.old }
    ensures { Wrote o (operation_bytes file.now at next count) out.old result out.new }
{
    if file[at] == 4 {
        let callee = count + file[at + 2];
        let place = put(out, o, [4, file[at + 1], callee, file[at + 3]]);
        return put_stretch(file, at + 4, next, out, place);
    }
    put_stretch(file, at, next, out, o)
}

// The block whose first operation stands at `start`.
fn put_block(file: &[u8], start: usize, count: u8, out: &mut [u8], o: usize) -> usize
    requires operation_in_file { OperationInFile file.now start × (count ≤ max_functions) }
    requires room { Room o (length (rest_bytes file.now start count)) out.old }
    ensures { Wrote o (rest_bytes file.now start count) out.old result out.new }
{
    let mut at = start;
    let mut place = o;
    loop {
        match after_of(operation_at(file, at)) {
            After::Onward(next) => {
                place = put_operation(file, at, next, count, out, place);
                at = next;
            }
            After::Ended(next) => {
                return put_stretch(file, at, next, out, place);
            }
            After::Halted(_) => {
                return place;
            }
        }
    }
}

// The block with label l, which is not 0, of function f: its handler and receiver, then its operations.
fn put_label(file: &LoadedFile, f: usize, l: usize, count: u8, out: &mut [u8], o: usize) -> usize
    requires count_bound { count ≤ max_functions }
    requires f_in_bounds { (f < length (program_of file.now)) × (1 ≤ l) × (l ≤ length (function_of (program_of file.now) f).blocks) }
    requires room { Room o (length (label_bytes file.now f l count)) out.old }
    ensures { Wrote o (label_bytes file.now f l count) out.old result out.new }
{
    let bytes = file.bytes();
    let start = file.table().start_of(f, l);
    let before = bytes_before(bytes);
    let head = start - before;
    let place = put_stretch(bytes, head, start, out, o);
    put_block(bytes, start, count, out, place)
}

// The counts of function f, then its entry block.
fn put_entry(file: &LoadedFile, f: usize, count: u8, out: &mut [u8], o: usize) -> usize
    requires count_bound { count ≤ max_functions }
    requires f_in_bounds { f < length (program_of file.now) }
    requires room { Room o (length (entry_bytes file.now f count)) out.old }
    ensures { Wrote o (entry_bytes file.now f count) out.old result out.new }
{
    let table = file.table();
    let params = table.params_of(f);
    let locals = table.locals_of(f);
    let labels = table.labels_of(f);
    let start = table.start_of(f, 0);
    let place = put(out, o, [params, locals, labels]);
    put_block(file.bytes(), start, count, out, place)
}

// Function f: its counts, its entry block, its labelled blocks.
fn put_function(file: &LoadedFile, f: usize, count: u8, out: &mut [u8], o: usize) -> usize
    requires count_bound { count ≤ max_functions }
    requires f_in_bounds { f < length (program_of file.now) }
    requires room { Room o (length (function_bytes (renumbered_function count (function_of (program_of file.now) f)))) out.old }
    ensures { Wrote o (function_bytes (renumbered_function count (function_of (program_of file.now) f))) out.old result out.new }
{
    let labels = usize::from(file.table().labels_of(f));
    let mut place = put_entry(file, f, count, out, o);
    for l in 0..labels {
        place = put_label(file, f, l + 1, count, out, place);
    }
    place
}

// All functions of a file.
pub fn put_functions(file: &LoadedFile, count: u8, out: &mut [u8], o: usize) -> usize
    requires count_bound { count ≤ max_functions }
    requires room { Room o (length (joined function_bytes (map (renumbered_function count) (program_of file.now)))) out.old }
    ensures { Wrote o (joined function_bytes (map (renumbered_function count) (program_of file.now))) out.old result out.new }
{
    let mut place = o;
    for f in 0..file.table().functions() {
        place = put_function(file, f, count, out, place);
    }
    place
}
