// The lines that a call prints.
use crate::books::Unmade;
use std::fmt;
use tally::call::{Answer, Reply};
use tally::rows::PageRow;

impl fmt::Display for Unmade {
    fn fmt<W: fmt::Write>(&self, f: &mut fmt::Formatter<W>) -> fmt::Result {
        match self {
            Unmade::Terms => f.write_str("terms"),
            Unmade::Refused(refusal) => write!(f, "no {}", refusal.number()),
        }
    }
}

// What a call was answered.
#[derive(Clone, Copy)]
pub struct Told(pub Answer);

impl fmt::Display for Told {
    fn fmt<W: fmt::Write>(&self, f: &mut fmt::Formatter<W>) -> fmt::Result {
        match self.0 {
            Ok(Reply::Numbered(number)) => write!(f, "ok {number}"),
            Ok(Reply::Accepted) => f.write_str("ok"),
            Ok(Reply::Designated(given)) => write!(
                f,
                "ok {} {} {} {}",
                given.buyer, given.seller, given.contracts, given.price,
            ),
            Ok(Reply::Paid(sums)) => write!(
                f,
                "ok {} {} {} {}",
                sums.reais, sums.dollars, sums.remainder, sums.lines,
            ),
            Err(refusal) => write!(f, "no {}", refusal.number()),
        }
    }
}

// All rows of a page, paid or not.
#[derive(Clone, Copy)]
pub struct Page<'a>(pub &'a [PageRow]);

impl fmt::Display for Page<'_> {
    fn fmt<W: fmt::Write>(&self, f: &mut fmt::Formatter<W>) -> fmt::Result {
        f.write_str("page")?;
        for row in self.0 {
            write!(f, " {},{}", row.day_trade, row.margin)?;
        }
        Ok(())
    }
}
