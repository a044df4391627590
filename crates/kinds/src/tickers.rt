// The table of the tickers: the terms of each, and how it ends.
ghost use Rattle.std.specs.Prelude.{◌≡◌};
ghost use Rattle.kinds.specs.Tickers.{row};

use crate::months::Ticker;
use crate::terms::Terms;
use money::currency::Currency;

// How a contract ends: in delivery, or at a final price of its own making.
#[derive(Clone, Copy, Debug, PartialEq, Eq)]
pub enum Ending {
    Delivery,
    WeightedAverage,
    LastFive,
}

impl Ticker {
    // The terms of its contract. Each row is within the ranges, so there are such terms.
    pub fn terms(self) -> Terms
        ensures size { result.size ≡ (row self).size }
        ensures currency { result.currency ≡ (row self).currency }
        ensures tick { result.tick ≡ (row self).tick }
    {
        let terms = match self {
            Ticker::Arabica => Terms::new(100, Currency::Dollar, 5),
            Ticker::MiniArabica => Terms::new(10, Currency::Dollar, 5),
            Ticker::MiniCattle => Terms::new(33, Currency::Real, 1),
        };
        terms.unwrap()
    }

    // How its contract ends, and so which kind it is.
    pub fn ending(self) -> Ending
        ensures { result ≡ (row self).ending }
    {
        match self {
            Ticker::Arabica => Ending::Delivery,
            Ticker::MiniArabica => Ending::WeightedAverage,
            Ticker::MiniCattle => Ending::LastFive,
        }
    }
}
