// The registers of the bench machine, and what a step comes to.
use runs::End;

// Where the machine stands: function, handler in force (0 for none), offset of the next operation, frames waiting, extras so far.
#[derive(Clone, Copy)]
pub struct Regs {
    pub function: usize,
    pub handler: usize,
    pub at: usize,
    pub waiting: usize,
    pub extras: u64,
}

// What a step comes to; with an end, the extras of the whole run.
#[derive(Drop)]
pub enum Step {
    Next(Regs),
    Ended { end: End, extras: u64 },
    Deep,
}
