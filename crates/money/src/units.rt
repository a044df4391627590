// Prices and rates: numbers whose range is part of their type, made from a number of full width or not at all.
ghost use Rattle.std.specs.Prelude.{◌≡◌, ◌≤◌, is_some, IfSome};
ghost use Rattle.money.specs.Ranges.{is_within};

// A number from LOW to HIGH.
#[derive(Clone, Copy, Debug, PartialEq, Eq, PartialOrd, Ord)]
pub struct Ranged<const LOW: u32, const HIGH: u32> {
    number: u32,
    ghost within: { (LOW ≤ number) × (number ≤ HIGH) },
}

// A price of one unit of a contract, in cents of the contract's currency.
pub type Price = Ranged<1, 999_999>;

// Reais per dollar, in millionths.
pub type Rate = Ranged<100_000, 9_999_999>;

impl<const LOW: u32, const HIGH: u32> Ranged<LOW, HIGH> {
    // The number, where it is within the range.
    pub fn new(number: u64) -> Option<Self>
        ensures test { is_some result ≡ is_within LOW HIGH number }
        ensures some { IfSome result (λ r. r.number ≡ number) }
    {
        let number = u32::try_from(number).ok()?;
        if (LOW..=HIGH).contains(&number) {
            Some(Ranged { number })
        } else {
            None
        }
    }
}

// Bounds for each alias, and not of `Ranged`: a proof knows no value of a constant of a generic impl.
impl Price {
    pub const LEAST: u64 = 1;

    pub const GREATEST: u64 = 999_999;

    pub fn cents(self) -> u32
        ensures value { result ≡ self.number }
        ensures within { (1 ≤ result) × (result ≤ 999999) }
    {
        self.number
    }
}

impl Rate {
    pub const LEAST: u64 = 100_000;

    pub const GREATEST: u64 = 9_999_999;

    pub fn millionths(self) -> u32
        ensures value { result ≡ self.number }
        ensures within { (100000 ≤ result) × (result ≤ 9999999) }
    {
        self.number
    }
}
