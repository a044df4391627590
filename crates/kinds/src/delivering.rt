// A contract that ends in delivery: no final price, and no quotation.
ghost use Rattle.std.specs.Prelude.{true};
ghost use Rattle.kinds.specs.Quoted.{Starts};
ghost use Rattle.kinds.specs.Delivery.{delivery_rule, NoPrice, delivering};

use crate::contract::Contract;
use crate::quotation::{KindFault, Quotation};
use crate::terms::Terms;
use money::currency::Currency;
use money::units::Price;

// Its terms are all that it has.
#[derive(Clone, Copy)]
pub struct Delivering {
    terms: Terms,
}

impl Delivering {
    // A new contract of these terms, with no quotation yet.
    pub fn new(terms: Terms) -> Delivering
        ensures { Starts delivering result terms true delivery_rule NoPrice }
    {
        Delivering { terms }
    }
}

impl Contract for Delivering {
    ghost means = { delivering };

    fn contract_size(&self) -> u32 {
        self.terms.size()
    }

    fn currency(&self) -> Currency {
        self.terms.currency()
    }

    fn tick(&self) -> u32 {
        self.terms.tick()
    }

    fn delivers(&self) -> bool {
        true
    }

    fn final_price(&self) -> Option<Price> {
        None
    }

    fn quote(&mut self, _quotation: Quotation) -> Result<(), KindFault> {
        Err(KindFault::Unfit)
    }
}
