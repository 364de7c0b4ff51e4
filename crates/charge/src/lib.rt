// The charge of a run, in cents, asked of the answer of either machine (document 02, Slip 1).

#![tactic(auto)]

ghost use Rattle.std.specs.Prelude.{◌≡◌};
ghost use Rattle.parsing.specs.declared.reason.Reason.TheVariants.{NoCharge};
ghost use Rattle.parsing.specs.Parser.{verdict_of};
ghost use Rattle.runs.specs.Stopped.{stopped_as};
ghost use Rattle.runs.specs.Tells.{refuses, by_verdict, told};
ghost use Rattle.bench.specs.Published as Bench;
ghost use Rattle.controller.specs.Published as Controller;
ghost use Rattle.charge.specs.Charge.{charge, with_extras};

use parsing::{Reason, Refusal};
use prices::cents_of;
use runs::Stopped;

// 18 at 0.
fn no_charge() -> Result<u64, Refusal>
    ensures { told result ≡ refuses NoCharge 0 }
{
    Err(Refusal {
        reason: Reason::NoCharge,
        place: 0,
    })
}

// The charge of a call's run that stopped so, with so many controller steps.
#[tactic(auto, unfolding(crate::specs::Charge::charge))]
fn charge_of(verdict: Result<(), Refusal>, stopped: Stopped, steps: u64) -> Result<u64, Refusal>
    ensures { told result ≡ charge (by_verdict (verdict_of verdict) (record { stop = stopped_as stopped; steps = steps })) }
{
    match verdict {
        Err(_) => no_charge(),
        Ok(()) => match stopped {
            Stopped::Ended(_) => Ok(cents_of(steps)),
            Stopped::Spent => no_charge(),
            Stopped::Deep => no_charge(),
        },
    }
}

// The charge of a run of the bench, in cents: from its steps and extras together.
#[tactic(auto, using(crate::specs::ChargeLaws::extras_uncharged))]
pub fn bench_charge(a: bench::machine::Answer) -> Result<u64, Refusal>
    ensures { told result ≡ charge (with_extras (Bench.meaning a)) }
{
    match a.steps.checked_add(a.extras) {
        Some(steps) => charge_of(a.verdict, a.stopped, steps),
        None => no_charge(),
    }
}

// The charge of a run of the controller, in cents: from its own count of steps.
pub fn controller_charge(a: controller::machine::Answer) -> Result<u64, Refusal>
    ensures { told result ≡ charge (Controller.meaning a) }
{
    charge_of(a.verdict, a.stopped, a.steps)
}
