// The limits that times, counts and sums stay below, and the first number that does not.
ghost use Rattle.std.specs.Prelude.{◌≡◌};
ghost use Rattle.rows.specs.Limits.{first_over};

pub use visit::TIME_LIMIT;

pub const COUNT_LIMIT: u64 = 1 << 40;

pub const SUM_LIMIT: u64 = 1 << 52;

// The place of the first number that is not below its limit.
pub fn over(cells: &[u64], limits: &[Option<u64>]) -> Option<usize>
    ensures { result ≡ first_over 0 limits.now cells.now }
{
    cells
        .iter()
        .zip(limits)
        .position(|(cell, limit)| limit.is_some_and(|most| *cell >= most))
}
