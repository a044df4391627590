// The records of a file one after the other, each with its place.
ghost use Rattle.std.specs.Prelude.{◌-◌, length};
ghost use Rattle.std.specs.Iterator.{at_most};

use crate::place::Place;
use reader::fault::ReadFault;
use reader::reading::Reader;
use reader::record::Record;

// The records that a reader has left, where a book has been opened or has not.
#[derive(Drop)]
pub struct Records<'a, const OPENED: bool>(pub Reader<'a>);

impl<'a, const OPENED: bool> Iterator for Records<'a, OPENED> {
    ghost use Rattle.desk.specs.Places.{next_record};

    type Item = (Place, Result<Record<'a>, ReadFault>);

    ghost next_gives = { next_record OPENED };

    ghost remaining = { λ r. at_most (length r.0.input.now - r.0.at) };

    fn next(&mut self) -> Option<(Place, Result<Record<'a>, ReadFault>)> {
        let start = self.0.place();
        let came = self.0.next(OPENED)?;
        let place = Place {
            number: self.0.number(),
            start,
        };
        Some((place, came))
    }
}
