// An accepted file with its table, as machines and translator read it.
ghost use Rattle.std.specs.Prelude.{◌≡◌, List, ℕ};
ghost use Rattle.parsing.specs.Parser.{accepted};
ghost use Rattle.procedure_file.specs.Check.{check_of};
ghost use Rattle.procedure_file.specs.FileInvariant.{FileInvariant};
ghost use Rattle.procedure_file.specs.Loaded.{Laid, Loaded};

use crate::table::TabledFile;
use std::marker::Model;

// An accepted file, with its table. In contracts it is the bytes of the file.
#[derive(Drop)]
pub struct LoadedFile<'a> {
    table: TabledFile<'a>,
}

impl<'a> Model for LoadedFile<'a> {
    ghost Value = { List ℕ };

    ghost view = { λ l. l.table };

    ghost invariant = { λ l. Laid l.table × (check_of l.table ≡ accepted) };
}

impl<'a> LoadedFile<'a> {
    // `load` leaves the table of an accepted file.
    pub fn new(file: &'a [u8], starts: &'a [u16; 2048]) -> LoadedFile<'a>
        requires { Loaded file.now starts.now }
        ensures { result ≡ file.now }
    {
        LoadedFile {
            table: TabledFile::new(file, starts),
        }
    }

    // The file, read by its table.
    pub fn table(&self) -> &TabledFile<'a>
        ensures value { result.now ≡ self.now }
        ensures laid { Laid self.now }
        ensures right { FileInvariant self.now }
        ensures accepted { check_of self.now ≡ accepted }
    {
        &self.table
    }

    // The bytes of the file.
    pub fn bytes(&self) -> &'a [u8]
        ensures value { result.now ≡ self.now }
        ensures laid { Laid self.now }
        ensures right { FileInvariant self.now }
        ensures accepted { check_of self.now ≡ accepted }
    {
        self.table.bytes()
    }
}
