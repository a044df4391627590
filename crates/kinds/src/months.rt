// The tickers, the letters of the delivery months, and which of them each ticker lists.
ghost use Rattle.std.specs.Prelude.{◌≡◌};
ghost use Rattle.kinds.specs.Months.{month_of, listed_month};

// A contract by its ticker.
#[derive(Clone, Copy, Debug, PartialEq, Eq)]
pub enum Ticker {
    Arabica,
    MiniArabica,
    MiniCattle,
}

// The month of a letter, 1 to 12.
pub fn month(letter: char) -> Option<u8>
    ensures { result ≡ month_of letter }
{
    match letter {
        'F' => Some(1),
        'G' => Some(2),
        'H' => Some(3),
        'J' => Some(4),
        'K' => Some(5),
        'M' => Some(6),
        'N' => Some(7),
        'Q' => Some(8),
        'U' => Some(9),
        'V' => Some(10),
        'X' => Some(11),
        'Z' => Some(12),
        _ => None,
    }
}

impl Ticker {
    // The month of a letter that the ticker lists.
    pub fn listed_month(self, letter: char) -> Option<u8>
        ensures { result ≡ listed_month self letter }
    {
        match self {
            Ticker::Arabica | Ticker::MiniArabica => match letter {
                'H' | 'K' | 'N' | 'U' | 'Z' => month(letter),
                _ => None,
            },
            Ticker::MiniCattle => month(letter),
        }
    }
}
