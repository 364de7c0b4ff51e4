// Signed 32-bit values: the difference, whether it is one, and the comparison of the values themselves.

#![tactic(auto)]

ghost use Rattle.std.specs.Prelude.{◌≡◌, ◌-ℤ◌};
ghost use Rattle.semantics.specs.Value.{minus, in_range, at_most};

// The difference of two values; outside the range it wraps modulo 2^32 back into it.
pub fn wrapped_difference(y: i32, z: i32) -> i32
    ensures { result ≡ minus y z }
{
    y.wrapping_sub(z)
}

// Whether the difference of two values is one: "An out-of-range difference raises".
pub fn difference_fits(y: i32, z: i32) -> bool
    ensures { result ≡ in_range (y -ℤ z) }
{
    y.checked_sub(z).is_some()
}

// Whether y ≤ z, of the signed values themselves.
pub fn at_most(y: i32, z: i32) -> bool
    ensures { result ≡ at_most y z }
{
    y <= z
}
