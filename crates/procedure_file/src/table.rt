// Reading a file by its table: where a block starts, its handler, its receiver, the counts of a function, the number of functions.
ghost use Rattle.std.specs.Prelude.{◌≡◌, ◌≤◌, ◌<◌, List, ℕ, length};
ghost use Rattle.semantics.specs.Program.{function_of};
ghost use Rattle.procedure_layout.specs.Layout.{block};
ghost use Rattle.procedure_layout.specs.After.{end_of};
ghost use Rattle.procedure_names.specs.Writing.{receiver_byte};
ghost use Rattle.procedure_file.specs.Check.{program_of};
ghost use Rattle.procedure_file.specs.Places.{start_of, handler_of, receiver_of};
ghost use Rattle.procedure_file.specs.Loaded.{Laid, Tabled};

use procedure_layout::layout;
use std::marker::Model;

// The number of functions.
pub fn functions_of(file: &[u8]) -> usize
    requires { Laid file.now }
    ensures { result ≡ length (program_of file.now) }
{
    usize::from(file[5])
}

// A file whose layout is whole, with its table. In contracts it is the bytes of the file.
#[derive(Drop)]
pub struct TabledFile<'a> {
    file: &'a [u8],
    starts: &'a [u16; 2048],
}

impl<'a> Model for TabledFile<'a> {
    ghost Value = { List ℕ };

    ghost view = { λ t. t.file.now };

    ghost invariant = { λ t. Tabled t.file.now t.starts.now };
}

impl<'a> TabledFile<'a> {
    pub fn new(file: &'a [u8], starts: &'a [u16; 2048]) -> TabledFile<'a>
        requires { Tabled file.now starts.now }
        ensures { result ≡ file.now }
    {
        TabledFile { file, starts }
    }

    // The bytes of the file.
    pub fn bytes(&self) -> &'a [u8]
        ensures value { result.now ≡ self.now }
        ensures laid { Laid self.now }
    {
        self.file
    }

    // The number of functions.
    pub fn functions(&self) -> usize
        ensures count { result ≡ length (program_of self.now) }
        ensures laid { Laid self.now }
    {
        functions_of(self.file)
    }

    // Where the block with label l of function f starts; label 0 is the entry block.
    pub fn start_of(&self, f: usize, l: usize) -> usize
        requires f_in_bounds { (f < length (program_of self.now)) × (l ≤ length (function_of (program_of self.now) f).blocks) }
        ensures { result ≡ start_of (program_of self.now) f l }
    {
        let starts = self.starts;
        usize::from(starts[64 * f + l])
    }

    // The handler of the block with label l, which is not 0: the first of the bytes before its start. They are as many as the version says, 1 or 2.
    pub fn handler_of(&self, f: usize, l: usize) -> u8
        requires f_in_bounds { (f < length (program_of self.now)) × (1 ≤ l) × (l ≤ length (function_of (program_of self.now) f).blocks) }
        ensures { result ≡ handler_of (function_of (program_of self.now) f) l }
    {
        let start = self.start_of(f, l);
        let before = usize::from(self.file[3]);
        let at = start - before;
        self.file[at]
    }

    // The byte of its receiver, in version 2 the one before its start; 255 is none.
    pub fn receiver_of(&self, f: usize, l: usize) -> u8
        requires f_in_bounds { (f < length (program_of self.now)) × (1 ≤ l) × (l ≤ length (function_of (program_of self.now) f).blocks) }
        ensures { result ≡ receiver_byte (receiver_of (function_of (program_of self.now) f) l) }
    {
        if parsing::version_of(self.file) != 2 {
            return 255;
        }
        let at = self.start_of(f, l) - 1;
        self.file[at]
    }

    // The counts of function f stand before its entry block: parameters, locals, labelled blocks.
    pub fn params_of(&self, f: usize) -> u8
        requires f_in_bounds { f < length (program_of self.now) }
        ensures { result ≡ (function_of (program_of self.now) f).params }
    {
        let at = self.start_of(f, 0) - 3;
        self.file[at]
    }

    pub fn locals_of(&self, f: usize) -> u8
        requires f_in_bounds { f < length (program_of self.now) }
        ensures { result ≡ (function_of (program_of self.now) f).locals }
    {
        let at = self.start_of(f, 0) - 2;
        self.file[at]
    }

    pub fn labels_of(&self, f: usize) -> u8
        requires f_in_bounds { f < length (program_of self.now) }
        ensures { result ≡ length (function_of (program_of self.now) f).blocks }
    {
        let at = self.start_of(f, 0) - 1;
        self.file[at]
    }

    // The number of arguments that function f takes, 0 where there is no function f.
    pub fn wanted_of(&self, f: usize) -> usize
        ensures { result ≡ (function_of (program_of self.now) f).params }
    {
        if f < self.functions() {
            usize::from(self.params_of(f))
        } else {
            0
        }
    }
}

// The offset past the block at an offset.
pub fn block_past(file: &[u8], at: usize) -> usize
    ensures { result ≡ end_of (block file.now at) }
{
    layout::block_end(file, at).unwrap_or(0)
}
