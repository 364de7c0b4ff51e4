// The loop of a test program over its records.
use std::io;
use std::io::{Read, Write};

// Runs one record after the other until `run` says that the input has ended, `most` at most.
pub fn run_records<R: Read, W: Write, F: FnMut(&mut R, &mut W) -> io::Result<bool>>(
    reader: &mut R,
    writer: &mut W,
    most: usize,
    mut run: F,
) -> io::Result<()>
    requires { F.IsAlwaysCallable run }
{
    for _ in 0..most {
        if !run(reader, writer)? {
            break;
        }
    }
    Ok(())
}
