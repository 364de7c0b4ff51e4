// The table of an accepted file, and the number of its functions.
ghost use Rattle.std.specs.Prelude.{◌≡◌, length};
ghost use Rattle.parsing.specs.Parser.{accepted};
ghost use Rattle.target_file.specs.Check.{check_of, code_of};
ghost use Rattle.target_file.specs.Tables.{table_of};

use crate::walk;
use casts::pair;

// The table of a file that is known to be accepted, as a translation is.
pub fn table_of(file: &[u8]) -> [u16; 2048]
    requires { check_of file.now ≡ accepted }
    ensures { result ≡ table_of file.now }
{
    let tables = walk::tables_of(file);
    tables.starts
}

// The number of functions.
pub fn functions_of(file: &[u8]) -> usize
    requires { check_of file.now ≡ accepted }
    ensures { result ≡ length (code_of file.now) }
{
    pair(file[5], file[6])
}
