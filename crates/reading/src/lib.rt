// Bytes from a reader: what the program and the test programs share.

#![tactic(auto)]

ghost use Rattle.std.specs.Prelude.{◌≤◌, IfOk, length};

use std::io;
use std::io::Read;

// Reads until `part` is full or the input ends; the answer is how many bytes are there.
pub fn read_full<R: Read>(reader: &mut R, part: &mut [u8]) -> io::Result<usize>
    ensures { IfOk result (λ got. got ≤ length part.new) }
{
    let mut done = 0;
    while done < part.len() {
        let got = reader.read(&mut part[done..])?;
        if got == 0 {
            return Ok(done);
        }
        done += got;
    }
    Ok(done)
}
