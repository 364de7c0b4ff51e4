// The functions of the translated file, written one behind the other.
ghost use Rattle.std.specs.Prelude.{◌≡◌, ◌<◌, ◌≤◌, length};
ghost use Rattle.procedure_layout.specs.Layout.{max_functions, max_variables};
ghost use Rattle.procedure_file.specs.Check.{program_of};
ghost use Rattle.semantics.specs.Program.{function_of};
ghost use Rattle.semantics.specs.Translation.{number, translate};
ghost use Rattle.byte_writers.specs.Writes.{Room, Wrote};
ghost use Rattle.translator_sizes.specs.Parts.{part_bytes, label_bytes, function_bytes, functions_bytes};
ghost use Rattle.translator.specs.Asked.{Placed, Numbered};
ghost use Rattle.translator.specs.Translated.{translation_of};

use crate::blocks::put_block;
use byte_writers::{put, put_pair};
use procedure_file::loaded::LoadedFile;
use procedure_file::table::TabledFile;
use translator_bytes::bytes;
use translator_bytes::jumps::Under;
use translator_sizes::{block_size, fields_of};

// A function of the translated file: it binds n locals and goes on as the block at an offset.
fn put_part(
    file: &[u8],
    numbers: &[u16; 32],
    base: usize,
    p: u8,
    n: u8,
    u: Under,
    at: usize,
    out: &mut [u8],
    o: usize,
) -> usize
    requires placed { Placed file.now numbers.now base u.variables at × (p ≤ max_variables) × (n ≤ 24) }
    requires room { Room o (length (part_bytes file.now base p n u at)) out.old }
    ensures { Wrote o (part_bytes file.now base p n u at) out.old result out.new }
{
    let first = p + 2;
    let body = block_size(file, u, at);
    let size = 6 * usize::from(n) + body;
    let a = put(out, o, [p]);
    let b = put_pair(out, a, size);
    let e = bytes::put_zeros(out, b, first, n);
    put_block(file, numbers, base, u, at, out, e)
}

// The block with label l of function f; label 0 is the entry block.
fn put_label(
    file: &LoadedFile,
    numbers: &[u16; 32],
    f: usize,
    l: usize,
    out: &mut [u8],
    o: usize,
) -> usize
    requires numbered { Numbered file.now numbers.now }
    requires f_in_bounds { (f < length (program_of file.now)) × (l ≤ length (function_of (program_of file.now) f).blocks) }
    requires room { Room o (length (label_bytes file.now f l)) out.old }
    ensures { Wrote o (label_bytes file.now f l) out.old result out.new }
{
    let bytes = file.bytes();
    let base = usize::from(numbers[f]);
    let x = fields_of(file, f, l);
    put_part(
        bytes, numbers, base, x.params, x.locals, x.under, x.start, out, o,
    )
}

// Function f and its labelled blocks.
fn put_function(file: &LoadedFile, numbers: &[u16; 32], f: usize, out: &mut [u8], o: usize) -> usize
    requires numbered { Numbered file.now numbers.now }
    requires f_in_bounds { f < length (program_of file.now) }
    requires room { Room o (length (function_bytes file.now f)) out.old }
    ensures { Wrote o (function_bytes file.now f) out.old result out.new }
{
    let labels = usize::from(file.table().labels_of(f));
    let mut place = o;
    for l in 0..labels + 1 {
        place = put_label(file, numbers, f, l, out, place);
    }
    place
}

// All functions.
fn put_functions(file: &LoadedFile, numbers: &[u16; 32], out: &mut [u8], o: usize) -> usize
    requires numbered { Numbered file.now numbers.now }
    requires room { Room o (length (functions_bytes file.now)) out.old }
    ensures { Wrote o (functions_bytes file.now) out.old result out.new }
{
    let count = file.table().functions();
    let mut place = o;
    for f in 0..count {
        place = put_function(file, numbers, f, out, place);
    }
    place
}

// The number of each function's entry in the translation; gives the number of functions of the translation.
fn fill_numbers(file: &TabledFile, numbers: &mut [u16]) -> usize
    requires { length numbers.old ≡ max_functions }
    ensures { (result ≡ length (translate (program_of file.now))) × (result ≤ 2048) × Numbered file.now numbers.new }
{
    let mut n = 0;
    for f in 0..file.functions() {
        numbers[f] = n as u16;
        let labels = usize::from(file.labels_of(f));
        n += 1 + labels;
    }
    n
}

// The number of function f's entry in the translation.
pub fn entry_number(file: &TabledFile, f: usize) -> usize
    requires f_in_bounds { f < length (program_of file.now) }
    ensures { result ≡ number (program_of file.now) f }
{
    let mut numbers = [0u16; 32];
    fill_numbers(file, &mut numbers);
    usize::from(numbers[f])
}

// The whole translated file.
pub fn put_file(file: &LoadedFile, out: &mut [u8]) -> usize
    requires room { Room 0 (length (translation_of file.now)) out.old }
    ensures { Wrote 0 (translation_of file.now) out.old result out.new }
{
    let version = parsing::version_of(file.bytes());
    let mut numbers = [0u16; 32];
    let targets = fill_numbers(file.table(), &mut numbers);
    let a = put(out, 0, *b"SPC");
    let b = put(out, a, [version, 0]);
    let e = put_pair(out, b, targets);
    put_functions(file, &numbers, out, e)
}
