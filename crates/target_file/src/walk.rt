// A walk over the functions of a file whose layout is whole: where their bodies stand, and their numbers of parameters.
ghost use Rattle.target_file.specs.Tables.{LaidOut, Tabled};

use casts::pair;

// No heap: two arrays of the most functions that a file may have, of which the front is filled.
#[derive(Drop)]
pub struct Tables {
    pub starts: [u16; 2048],
    pub params: [u8; 2048],
}

pub fn tables_of(file: &[u8]) -> Tables
    requires { LaidOut file.now }
    ensures { Tabled file.now result.starts result.params }
{
    let n = pair(file[5], file[6]);
    let mut starts = [0u16; 2048];
    let mut params = [0u8; 2048];
    let mut at = 7;
    for i in 0..n {
        let body = at + 3;
        params[i] = file[at];
        starts[i] = body as u16;
        let field = at + 1;
        at = body + pair(file[field], file[field + 1]);
    }
    Tables { starts, params }
}
