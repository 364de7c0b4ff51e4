// The checker of translated files, and the table of an accepted one.
ghost use Rattle.std.specs.Prelude.{◌≡◌, true};
ghost use Rattle.parsing.specs.Parser.{verdict_of};
ghost use Rattle.target_layout.specs.Layout.{code};
ghost use Rattle.target_file.specs.Check.{verdict, arities, code_of, check_of};
ghost use Rattle.target_file.specs.Tables.{LaidOut, table_by};

use crate::walk;
use casts::pair;
use parsing::Refusal;
use target_layout::layout;

// The names, once the layout is whole.
fn names_loaded(file: &[u8], starts: &mut [u16; 2048]) -> Result<(), Refusal>
    requires { LaidOut file.now }
    ensures bare_stop { verdict_of result ≡ verdict (code true (arities (code_of file.now)) file.now 0) }
    ensures table { starts.new ≡ table_by (verdict_of result) file.now starts.old }
{
    let tables = walk::tables_of(file);
    let params = tables.params;
    let n = pair(file[5], file[6]);
    // No heap: an array, of which the front is lent.
    layout::code_end(file, &params[..n], true)?;
    let bodies = tables.starts;
    *starts = bodies;
    Ok(())
}

// The check, and where the file is accepted its table. 1 and 2; 15; then 3 to 6 and 12 over the whole file; then 9, 10, 11, 13 and 19 to 21 over the whole file.
pub fn load(file: &[u8], starts: &mut [u16; 2048]) -> Result<(), Refusal>
    ensures bare_stop { verdict_of result ≡ check_of file.now }
    ensures table { starts.new ≡ table_by (verdict_of result) file.now starts.old }
{
    layout::code_end(file, &file[..0], false)?;
    names_loaded(file, starts)
}

// The check alone.
pub fn check(file: &[u8]) -> Result<(), Refusal>
    ensures { verdict_of result ≡ check_of file.now }
{
    let mut starts = [0u16; 2048];
    load(file, &mut starts)
}
