// Currencies, and who is paid in which.
ghost use Rattle.std.specs.Prelude.{◌≡◌};
ghost use Rattle.money.specs.Weights.{paid_in};

// What an amount is counted in: centavos of the real, or US cents.
#[derive(Clone, Copy, Debug, PartialEq, Eq)]
pub enum Currency {
    Real,
    Dollar,
}

#[derive(Clone, Copy, Debug, Default, PartialEq, Eq)]
pub enum Residency {
    #[default]
    Resident,
    Nonresident,
}

impl Residency {
    // The currency that such an account is paid in.
    pub fn paid_in(self) -> Currency
        ensures { result ≡ paid_in self }
    {
        match self {
            Residency::Resident => Currency::Real,
            Residency::Nonresident => Currency::Dollar,
        }
    }
}
