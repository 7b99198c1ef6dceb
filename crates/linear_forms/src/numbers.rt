//! Sums and products of numbers, which may leave 128 bits.

ghost use Rattle.std.specs.Prelude.{◌≡◌, ◌+ℤ◌, ◌*ℤ◌};
ghost use Rattle.linear_forms.specs.Fits.{fits};
ghost use Rattle.linear_forms.specs.View.{MakesNumber, or_wide};

use crate::fault::FormFault;

/// A number, if it fits.
fn narrow(number: Option<i128>) -> Result<i128, FormFault>
    ensures { result ≡ or_wide number }
{
    match number {
        Some(n) => Ok(n),
        None => Err(FormFault::Wide),
    }
}

/// The sum, if it fits.
#[tactic(auto, using(crate::proofs::Narrow::made_number))]
pub fn sum(a: i128, b: i128) -> Result<i128, FormFault>
    ensures { MakesNumber (a +ℤ b) (fits (a +ℤ b)) result }
{
    narrow(a.checked_add(b))
}

/// The product, if it fits.
#[tactic(auto, using(crate::proofs::Narrow::made_number))]
pub fn product(a: i128, b: i128) -> Result<i128, FormFault>
    ensures { MakesNumber (a *ℤ b) (fits (a *ℤ b)) result }
{
    narrow(a.checked_mul(b))
}
