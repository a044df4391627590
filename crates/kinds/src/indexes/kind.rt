// The mean of the last five indexes as a contract kind.
ghost use Rattle.std.specs.Prelude.{◌≡◌, false, sum};
ghost use Rattle.kinds.specs.Quoted.{Starts};
ghost use Rattle.kinds.specs.Indexes.{index_rule, IndexPrice, is_index};
ghost use Rattle.kinds.specs.Indexing.{five};

use crate::contract::Contract;
use crate::indexes::LastFive;
use crate::means::mean_price;
use crate::quotation::{KindFault, Quotation};
use crate::terms::Terms;
use money::currency::Currency;
use money::units::Price;

impl Quotation {
    // Whether it is one index: a price, with quantity 1.
    pub fn is_index(self) -> bool
        ensures { result ≡ is_index self }
    {
        self.is_quotable() && self.quantity == 1
    }
}

impl LastFive {
    // How many indexes the mean is of.
    pub const INDEXES: u64 = 5;

    // A new contract of these terms, with no quotation yet.
    pub fn new(terms: Terms) -> LastFive
        ensures { Starts five result terms false index_rule IndexPrice }
    {
        LastFive {
            terms,
            last: [Price::LEAST; 5],
            held: 0,
        }
    }

    // What the five places come to.
    fn total(&self) -> u64
        ensures { result ≡ sum self.now.last }
    {
        self.last.iter().sum()
    }
}

impl Contract for LastFive {
    ghost means = { five };

    fn contract_size(&self) -> u32 {
        self.terms.size()
    }

    fn currency(&self) -> Currency {
        self.terms.currency()
    }

    fn tick(&self) -> u32 {
        self.terms.tick()
    }

    fn delivers(&self) -> bool {
        false
    }

    fn final_price(&self) -> Option<Price> {
        if self.held < Self::INDEXES {
            return None;
        }
        mean_price(self.total(), Self::INDEXES)
    }

    fn quote(&mut self, quotation: Quotation) -> Result<(), KindFault> {
        if !quotation.is_index() {
            return Err(KindFault::Unfit);
        }
        let last = self.last;
        self.last = [last[1], last[2], last[3], last[4], quotation.price];
        self.held = Self::INDEXES.min(self.held + 1);
        Ok(())
    }
}
