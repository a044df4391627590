// The amount of one line.
ghost use Rattle.std.specs.Prelude.{◌≡◌, ◌≤◌, is_some, IfSome, unsigned_abs};
ghost use Rattle.money.specs.Ranges.{is_amount};

// What one line owes, in cents; a debit is negative.
#[derive(Clone, Copy, Debug, PartialEq, Eq, PartialOrd, Ord)]
pub struct Amount {
    cents: i64,
    ghost within: { unsigned_abs cents ≤ 600000000000 },
}

impl Amount {
    // No line is larger than 6,000 contracts of 100 units at the greatest price, which is just below.
    pub const GREATEST: u64 = 600_000_000_000;

    pub fn new(cents: i64) -> Option<Amount>
        ensures test { is_some result ≡ is_amount cents }
        ensures some { IfSome result (λ a. a.cents ≡ cents) }
    {
        if cents.unsigned_abs() <= Self::GREATEST {
            Some(Amount { cents })
        } else {
            None
        }
    }

    pub fn cents(self) -> i64
        ensures value { result ≡ self.cents }
        ensures within { unsigned_abs result ≤ 600000000000 }
    {
        self.cents
    }
}
