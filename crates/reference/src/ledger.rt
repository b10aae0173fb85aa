// The ledger of closed visits, worked out anew.
ghost use Rattle.std.specs.Prelude.{◌≡◌, ◌+◌, ◌^◌, ◌<◌, IfOk, OnOk};
ghost use Rattle.model.specs.Ledger.{add_line, totals as Totals};
ghost use Rattle.visit.specs.Sums.{line_sums, line_visits, sums};

use std::alloc::{AllocError, Global};
use visit::{Line, Terms, Visit, place};

// A sorted list, as in the model: a map would be proved against it by the list of its entries, and be no plainer.
pub fn add_to(lines: &mut Vec<Line>, line: Line, terms: Terms) -> Result<(), AllocError>
    requires visits { line_visits lines.old.items + line.visits < 2 ^ 64 }
    requires sum { line_sums lines.old.items + line.sum < 2 ^ 64 }
    ensures { OnOk result (lines.new.items ≡ add_line terms line lines.old.items) }
{
    let at = place(lines.iter().copied(), line, terms);
    match lines.get_mut(at) {
        Some(found) if found.same_key(line, terms) => *found = found.plus(line),
        _ => lines.insert(at, line)?,
    }
    Ok(())
}

pub fn totals(heap: Global, terms: Terms, visits: &[Visit]) -> Result<Vec<Line>, AllocError>
    requires { sums visits.now < 2 ^ 64 }
    ensures { IfOk result (λ ls. ls.items ≡ Totals terms visits.now) }
{
    let mut lines = Vec::new(heap);
    for visit in visits {
        add_to(&mut lines, visit.line(terms), terms)?;
    }
    Ok(lines)
}
