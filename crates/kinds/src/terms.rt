// What never changes of a contract.
ghost use Rattle.std.specs.Prelude.{◌≡◌, ◌≤◌, ◌&&◌, is_some, IfSome};
ghost use Rattle.kinds.specs.Limits.{is_size, is_tick};

use money::currency::Currency;

// How many units one contract is of, what its prices are counted in, and what step they go by, in cents.
#[derive(Clone, Copy, Debug, PartialEq, Eq)]
pub struct Terms {
    size: u32,
    currency: Currency,
    tick: u32,
    ghost sized: { (1 ≤ size) × (size ≤ 100) },
    ghost ticked: { 1 ≤ tick },
}

impl Terms {
    pub const LEAST_SIZE: u32 = 1;

    pub const GREATEST_SIZE: u32 = 100;

    pub const LEAST_TICK: u32 = 1;

    // Terms of these numbers, where they are within their ranges.
    pub fn new(size: u32, currency: Currency, tick: u32) -> Option<Terms>
        ensures test { is_some result ≡ (is_size size && is_tick tick) }
        ensures some { IfSome result (λ t. (t.size ≡ size) × (t.currency ≡ currency) × (t.tick ≡ tick)) }
    {
        if (Self::LEAST_SIZE..=Self::GREATEST_SIZE).contains(&size) && tick >= Self::LEAST_TICK {
            Some(Terms {
                size,
                currency,
                tick,
            })
        } else {
            None
        }
    }

    pub fn size(self) -> u32
        ensures value { result ≡ self.size }
        ensures within { (1 ≤ result) × (result ≤ 100) }
    {
        self.size
    }

    pub fn currency(self) -> Currency
        ensures { result ≡ self.currency }
    {
        self.currency
    }

    pub fn tick(self) -> u32
        ensures value { result ≡ self.tick }
        ensures within { 1 ≤ result }
    {
        self.tick
    }
}
