// How a run of either machine ends and stops.

#![tactic(auto)]

ghost use Rattle.std.specs.Prelude.{◌≡◌};
ghost use Rattle.semantics.specs.Run.{one_more_if_deep};
ghost use Rattle.runs.specs.Stopped.{stopped_as, in_use};

// How a run ends: with a value, or uncaught with the number raised.
#[derive(Clone, Copy)]
pub enum End {
    Value(i32),
    Uncaught(i32),
}

// How a run stopped.
#[derive(Clone, Copy)]
pub enum Stopped {
    Ended(End),
    Spent,
    Deep,
}

// A run that stopped: how, its steps, and where the machine stands.
#[derive(Drop)]
pub struct Ran<R> {
    pub stopped: Stopped,
    pub steps: u64,
    pub regs: R,
}

// How many of n frames are in use once a run has stopped: none at an end.
pub fn in_use(stopped: Stopped, n: usize) -> usize
    ensures { result ≡ in_use (stopped_as stopped) n }
{
    match stopped {
        Stopped::Ended(_) => 0,
        Stopped::Spent => n,
        Stopped::Deep => n,
    }
}

// "One more where the bench stopped deep."
pub fn one_more_if_deep(stopped: Stopped) -> u64
    ensures { result ≡ one_more_if_deep (stopped_as stopped) }
{
    match stopped {
        Stopped::Ended(_) => 0,
        Stopped::Spent => 0,
        Stopped::Deep => 1,
    }
}
