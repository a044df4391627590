// The mean that a kind ends at.
ghost use Rattle.std.specs.Prelude.{◌≡◌, ◌*◌, ◌≤◌};
ghost use Rattle.kinds.specs.Meaning.{cents_of};
ghost use Rattle.kinds.specs.Means.{mean_price};

use money::units::Price;

// The value over the quantity, to the nearest cent, a half upward: a price, where the value is a sum of prices.
pub(crate) fn mean_price(value: u64, quantity: u64) -> Option<Price>
    requires few { quantity ≤ 1000000 }
    requires low { quantity ≤ value }
    requires high { value ≤ 999999 * quantity }
    ensures { cents_of result ≡ mean_price value quantity }
{
    if quantity == 0 {
        return None;
    }
    Price::new((2 * value + quantity) / (2 * quantity))
}
