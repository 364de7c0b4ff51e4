// An accepted file with its table, as the controller reads it.
ghost use Rattle.std.specs.Prelude.{◌≡◌, ◌<◌, List, ℕ, length, get_or};
ghost use Rattle.semantics.specs.Controller.{target_of};
ghost use Rattle.parsing.specs.Parser.{accepted};
ghost use Rattle.target_file.specs.Check.{check_of, code_of};
ghost use Rattle.target_file.specs.Tables.{table_of};
ghost use Rattle.target_file.specs.LoadedCode.{LoadedCode as Loaded};

use crate::table::functions_of;
use std::marker::Model;

// An accepted file, with its table. In contracts it is the bytes of the file.
#[derive(Drop)]
pub struct LoadedCode<'a> {
    file: &'a [u8],
    starts: &'a [u16; 2048],
}

impl<'a> Model for LoadedCode<'a> {
    ghost Value = { List ℕ };

    ghost view = { λ l. l.file.now };

    ghost invariant = { λ l. Loaded l.file.now l.starts.now };
}

impl<'a> LoadedCode<'a> {
    // `load` leaves the table of an accepted file.
    pub fn new(file: &'a [u8], starts: &'a [u16; 2048]) -> LoadedCode<'a>
        requires { Loaded file.now starts.now }
        ensures { result ≡ file.now }
    {
        LoadedCode { file, starts }
    }

    // The bytes of the file.
    pub fn bytes(&self) -> &'a [u8]
        ensures value { result.now ≡ self.now }
        ensures accepted { check_of self.now ≡ accepted }
    {
        self.file
    }

    // The number of functions.
    pub fn functions(&self) -> usize
        ensures { result ≡ length (code_of self.now) }
    {
        functions_of(self.file)
    }

    // Where the body of function g stands.
    pub fn start_of(&self, g: usize) -> usize
        requires { g < length (code_of self.now) }
        ensures start { result ≡ get_or (table_of self.now) g 0 }
        ensures accepted { check_of self.now ≡ accepted }
    {
        let starts = self.starts;
        usize::from(starts[g])
    }

    // The number of parameters of function g, which stands three bytes before its body.
    fn params_of(&self, g: usize) -> usize
        requires { g < length (code_of self.now) }
        ensures { result ≡ (target_of (code_of self.now) g).params }
    {
        let file = self.bytes();
        let at = self.start_of(g) - 3;
        usize::from(file[at])
    }

    // The number of arguments that function g takes, 0 where there is no function g.
    pub fn wanted_of(&self, g: usize) -> usize
        ensures { result ≡ (target_of (code_of self.now) g).params }
    {
        if g < self.functions() {
            self.params_of(g)
        } else {
            0
        }
    }
}
