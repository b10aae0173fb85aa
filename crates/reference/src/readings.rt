// A reading put at its place among others.
ghost use Rattle.model.specs.Sessions.{insert_reading};
ghost use Rattle.std.specs.Prelude.{◌≡◌, IfOk};

use std::alloc::{AllocError, Global};
use visit::{Reading, Terms, place};

// A copy of the readings with one more at its place.
pub fn inserted(
    heap: Global,
    readings: &[Reading],
    reading: Reading,
    terms: Terms,
) -> Result<Vec<Reading>, AllocError>
    ensures { IfOk result (λ v. v.items ≡ insert_reading terms reading readings.now) }
{
    let mut all = readings.to_vec(heap)?;
    let at = place(readings.iter().copied(), reading, terms);
    all.insert(at, reading)?;
    Ok(all)
}
