// Records from a reader.
ghost use Rattle.std.specs.Prelude.{◌≤◌, ◌≡◌, IfOk, OnErr, drop};
ghost use Rattle.case_fields.specs.Record.{Front};

use reading::read_full;
use std::io;
use std::io::Read;

// Fills `part` from the reader; false where the input ends first.
pub fn read_whole<R: Read>(reader: &mut R, part: &mut [u8]) -> io::Result<bool> {
    let got = read_full(reader, part)?;
    Ok(part.len() <= got)
}

// Reads the next n bytes of the input into the front of `part`; the answer is how many of them are there, 0 where they do not fit.
// Where a read fails, the bytes behind that front are as they were.
pub fn read_part<R: Read>(reader: &mut R, part: &mut [u8], n: usize) -> io::Result<usize>
    ensures front { IfOk result (λ got. Front got part.new) }
    ensures upper_bound { IfOk result (λ got. got ≤ n) }
    ensures err { OnErr result (drop n part.new ≡ drop n part.old) }
{
    if part.len() < n {
        return Ok(0);
    }
    // The caller's array, and no heap: its front is filled.
    read_full(reader, &mut part[..n])
}
