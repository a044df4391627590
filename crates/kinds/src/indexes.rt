// A contract that ends at the mean of its last five indexes.
ghost use Rattle.kinds.specs.Indexes.{FiveFit};

use crate::terms::Terms;

pub mod kind;

// The last five indexes taken, the newest last; until the fifth has come, the places before the first hold the least price.
// An array with a count and no ArrayVec, which can't be copied: whoever copies a kind today still can.
#[derive(Clone, Copy)]
pub struct LastFive {
    terms: Terms,
    last: [u64; 5],
    held: u64,
    ghost ok: { FiveFit last held },
}
