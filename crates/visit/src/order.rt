// What stands in an order under the terms, and its place among others.
ghost use Rattle.std.specs.Iterator.{AlwaysYields, UpTo, size};
ghost use Rattle.std.specs.List.{prefix_len};
ghost use Rattle.std.specs.Prelude.{◌≡◌, ◌-◌, ◌^◌, ◌≤◌, Bool, List};
ghost use Rattle.visit.specs.Order.{Chained};
ghost use Rattle.visit.specs.declared.Terms.{Terms};

use crate::Terms;

pub trait Ordered: Copy {
    ghost precedes: { Terms → Self → Self → Bool };

    fn before(self, other: Self, terms: Terms) -> bool
        ensures { result ≡ precedes terms self other };

    // What each `impl` has to prove.
    ghost chained: { (t : Terms) → Chained (precedes t) };
}

// How many items come before this one, from the front.
pub fn place<T: Ordered, I: Iterator<Item = T>>(items: I, item: T, terms: Terms) -> usize
    requires can { I.can_next items }
    requires few { UpTo (I.remaining items) (2 ^ 64 - 1) }
    ensures within { result ≤ size (I.remaining items) }
    ensures before { (xs : List T) → AlwaysYields I.next_gives (λ x. x) items xs → result ≡ prefix_len (λ x. T.precedes terms x item) xs }
{
    items.take_while(|x| x.before(item, terms)).count()
}
