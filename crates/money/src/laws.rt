// The laws of paying and of the ranges, each the contract of a function.
ghost use Rattle.std.specs.Prelude.{◌≡◌};
ghost use Rattle.money.specs.Bound.{BoundLaw};
ghost use Rattle.money.specs.Nearest.{NearestLaw};
ghost use Rattle.money.specs.Pays.{Examples, PaymentLaw};
ghost use Rattle.money.specs.Ranges.{is_price, is_rate};

use crate::units::{Price, Rate};

// There is one nearest whole number, and the formula gives it.
pub fn nearest_stands()
    ensures { NearestLaw }
{}

// A line and a rate determine what is paid, and the worked lines are paid so.
pub fn payment_stands()
    ensures law { PaymentLaw }
    ensures examples { Examples }
{}

// The bound on a remainder holds of no lines and of one line, and is kept when lines are added.
pub fn bound_stands()
    ensures { BoundLaw }
{}

// Whether a number of cents makes a price, and whether it is from the least to the greatest: each is whether it is a price.
pub fn price_stands(cents: u64) -> (bool, bool)
    ensures made { result.0 ≡ is_price cents }
    ensures ends { result.1 ≡ is_price cents }
{
    (
        Price::new(cents).is_some(),
        (Price::LEAST..=Price::GREATEST).contains(&cents),
    )
}

// The same of a number of millionths and a rate.
pub fn rate_stands(millionths: u64) -> (bool, bool)
    ensures made { result.0 ≡ is_rate millionths }
    ensures ends { result.1 ≡ is_rate millionths }
{
    (
        Rate::new(millionths).is_some(),
        (Rate::LEAST..=Rate::GREATEST).contains(&millionths),
    )
}
