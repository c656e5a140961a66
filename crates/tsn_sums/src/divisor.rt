//! The greatest common divisor.
ghost use Rattle.std.specs.Prelude.{◌≡◌};
ghost use Rattle.tsn_model.specs.Argument.{common_divisor};

/// The greatest number that divides both; of 0 and a number that number.
pub fn common_divisor(a: u64, b: u64) -> u64
    ensures { result ≡ common_divisor a b }
{
    let mut greater = a;
    let mut lesser = b;
    while lesser > 0 {
        let rest = greater % lesser;
        greater = lesser;
        lesser = rest;
    }
    greater
}
