// A contract that ends at the average of the prices quoted, each weighing its quantity.
ghost use Rattle.kinds.specs.Averages.{SumsFit};

use crate::terms::Terms;

pub mod kind;

// The sums over the quotations taken: of price times quantity, and of quantity.
#[derive(Clone, Copy)]
pub struct WeightedAverage {
    terms: Terms,
    value: u64,
    quantity: u64,
    ghost ok: { SumsFit value quantity },
}
