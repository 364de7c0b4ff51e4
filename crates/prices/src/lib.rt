// The price list: what controller steps cost, in cents (document 02, Slip 1).

#![tactic(auto)]

ghost use Rattle.std.specs.Prelude.{◌≡◌};
ghost use Rattle.prices.specs.Cents.{started_above, cents};

// The thousands that so many steps have started above a border.
fn started_above(border: u64, steps: u64) -> u64
    ensures { result ≡ started_above border steps }
{
    if steps <= border {
        return 0;
    }
    let more = steps - border;
    (more - 1) / 1000 + 1
}

// "A procedure costs 250 cents. Each started thousand steps above 5,000 adds 3 cents, and each started thousand above 100,000 adds 2 in
// place of 3."
pub fn cents_of(steps: u64) -> u64
    ensures { result ≡ cents steps }
{
    let near = started_above(5000, steps.min(100000));
    let far = started_above(100000, steps);
    250 + 3 * near + 2 * far
}
