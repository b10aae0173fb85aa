// The row, the row for the changes, how much may be kept, and totals of what was taken in, by which the row is known to be a store.
ghost use Rattle.owned.specs.Written.{Written};

use store::capacity::Capacity;

#[derive(Drop)]
pub struct OwnedStore {
    pub(crate) row: Vec<u64>,
    pub(crate) out: Vec<u64>,
    pub(crate) capacity: Capacity,
    pub(crate) amount: u64,
    pub(crate) taken: u64,
    ghost written: { ∥ Written row.items amount taken ∥₁ },
}
