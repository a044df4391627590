// The weighted average as a contract kind.
ghost use Rattle.std.specs.Prelude.{false};
ghost use Rattle.kinds.specs.Quoted.{Starts};
ghost use Rattle.kinds.specs.Averages.{average_rule, AveragePrice};
ghost use Rattle.kinds.specs.Weighting.{weighted};

use crate::contract::Contract;
use crate::means::mean_price;
use crate::quotation::{KindFault, Quotation};
use crate::terms::Terms;
use crate::weighted::WeightedAverage;
use money::currency::Currency;
use money::units::Price;

impl WeightedAverage {
    // The quantity that the quotations taken may come to.
    pub const GREATEST_QUANTITY: u64 = 1_000_000;

    // A new contract of these terms, with no quotation yet.
    pub fn new(terms: Terms) -> WeightedAverage
        ensures { Starts weighted result terms false average_rule AveragePrice }
    {
        WeightedAverage {
            terms,
            value: 0,
            quantity: 0,
        }
    }
}

impl Contract for WeightedAverage {
    ghost means = { weighted };

    fn contract_size(&self) -> u32 {
        self.terms.size()
    }

    fn currency(&self) -> Currency {
        self.terms.currency()
    }

    fn tick(&self) -> u32 {
        self.terms.tick()
    }

    fn delivers(&self) -> bool {
        false
    }

    fn final_price(&self) -> Option<Price> {
        mean_price(self.value, self.quantity)
    }

    fn quote(&mut self, quotation: Quotation) -> Result<(), KindFault> {
        if !quotation.is_quotable() {
            return Err(KindFault::Unfit);
        }
        if self.quantity + quotation.quantity > Self::GREATEST_QUANTITY {
            return Err(KindFault::Full);
        }
        self.value += quotation.price * quotation.quantity;
        self.quantity += quotation.quantity;
        Ok(())
    }
}
