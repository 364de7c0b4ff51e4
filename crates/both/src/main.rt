// Program `both` (document 01): reads argument count, arguments, depth, budget and a procedure file, runs the procedure on the bench and
// its translation on the controller, and writes what they come to.

#![tactic(auto)]

use reading::read_full;
use report::report;
use std::io;

// 4,096 bytes hold every header and more than the 2,048 bytes that a file may have: what is left unread changes nothing (`whole_input`).
fn main(rt: HostRuntime) -> io::Result<()> {
    // No heap: arrays, of which the front is lent.
    let mut space = [0u8; 4096];
    let got = read_full(&mut rt.stdin(), &mut space)?;
    let mut out = [0u8; 256];
    let n = report(&space[..got], &mut out);
    if rt.write_all(&out[..n]).is_err() {
        let _ = rt.eprintln("both: output lost");
    }
    Ok(())
}
