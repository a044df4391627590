// A quotation, and why a kind refuses one.
ghost use Rattle.std.specs.Prelude.{◌≡◌};
ghost use Rattle.kinds.specs.Quotations.{fault_number, quotable};

use money::units::Price;

// A price in cents and a quantity, of any size: which of them a kind takes is for the kind to say.
#[derive(Clone, Copy, Debug, PartialEq, Eq)]
pub struct Quotation {
    pub price: u64,
    pub quantity: u64,
}

impl Quotation {
    pub const LEAST_QUANTITY: u64 = 1;

    pub const GREATEST_QUANTITY: u64 = 3_000;

    // Whether any kind at all could take it.
    pub fn is_quotable(self) -> bool
        ensures { result ≡ quotable self }
    {
        Price::new(self.price).is_some()
            && (Self::LEAST_QUANTITY..=Self::GREATEST_QUANTITY).contains(&self.quantity)
    }
}

// Why a kind refuses a quotation.
#[derive(Clone, Copy, Debug, PartialEq, Eq)]
pub enum KindFault {
    // No price and quantity that the kind takes.
    Unfit,
    // The kind has no room for the quantity.
    Full,
}

impl KindFault {
    // The number that the refusal is shown by.
    pub fn number(self) -> u8
        ensures { result ≡ fault_number self }
    {
        match self {
            KindFault::Unfit | KindFault::Full => 14,
        }
    }
}
