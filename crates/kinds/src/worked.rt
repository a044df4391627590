// A worked line: five indexes, and the price that they end at.
ghost use Rattle.std.specs.Prelude.{◌≡◌, Some};
ghost use Rattle.kinds.specs.Meaning.{cents_of};
ghost use Rattle.kinds.specs.Worked.{WorkedLine};

use crate::contract::Contract;
use crate::indexes::LastFive;
use crate::months::Ticker;
use crate::quotation::Quotation;
use money::units::Price;

// The price of a mini cattle contract after five indexes.
pub fn worked_line() -> Option<Price>
    ensures value { cents_of result ≡ Some 5520 }
    ensures law { WorkedLine }
{
    let mut kind = LastFive::new(Ticker::MiniCattle.terms());
    for price in [5_500, 5_510, 5_520, 5_530, 5_541] {
        let _ = kind.quote(Quotation { price, quantity: 1 });
    }
    kind.final_price()
}
