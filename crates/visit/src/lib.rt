// Readings, visits, ledger lines and the terms: values by value, and the named tests on them.
#![tactic(auto)]

ghost use Rattle.std.specs.Prelude.{◌≡◌, ◌+◌, ◌^◌, ◌<◌};
ghost use Rattle.visit.specs.Chains.{line_chained, reading_chained, visit_chained};
ghost use Rattle.visit.specs.Lines.{day_of, line_before, line_minus, line_of, line_plus, same_key};
ghost use Rattle.visit.specs.Readings.{gap_of, reading_before, same_reading, kept as Kept, too_late as Late};
ghost use Rattle.visit.specs.Visits.{grown as Grown, joins as Joins, merged, near as Near, same_visit, single as Single, visit_before, closed as Closed, expired as Expired, live as Live};

pub mod cells;
mod order;
mod text;

pub use order::{Ordered, place};

// Times, the watermark, gap and lateness are below this.
pub const TIME_LIMIT: u64 = 1 << 40;

// One reading of a card. At one time the serial tells several readings of a card apart.
#[derive(Clone, Copy, PartialEq, Eq, Debug)]
pub struct Reading {
    pub card: u64,
    pub time: u64,
    pub serial: u64,
    pub amount: u64,
}

// Readings of one card with no pause longer than the gap: first time, last time, how many, their sum.
#[derive(Clone, Copy, Default, PartialEq, Eq, Debug)]
pub struct Visit {
    pub card: u64,
    pub from: u64,
    pub to: u64,
    pub count: u64,
    pub sum: u64,
}

// A line of the ledger: how many closed visits of a card began on a day, and their sum.
#[derive(Clone, Copy, PartialEq, Eq, Debug)]
pub struct Line {
    pub card: u64,
    pub day: u64,
    pub visits: u64,
    pub sum: u64,
}

// The longest pause within a visit, how far behind the watermark a reading may be, and the length of a day.
#[derive(Clone, Copy, PartialEq, Eq, Debug)]
pub struct Terms {
    pub gap: u64,
    pub lateness: u64,
    pub day: u64,
}

// The terms, and how far the watermark has come.
#[derive(Clone, Copy, PartialEq, Eq, Debug)]
pub struct Clock {
    pub terms: Terms,
    pub watermark: u64,
}

#[tactic(auto, using(std::proofs::lemmas::Bool::Decides::nat_tests), unfolding(crate::specs::Readings::gap_of, crate::specs::Lines::day_of))]
impl Terms {
    pub fn gap_of(self, _card: u64) -> u64
        ensures { result ≡ gap_of self _card }
    {
        self.gap
    }

    // A day of length 0 counts as 1, so the divisor is never 0.
    pub fn day_of(self, time: u64) -> u64
        ensures { result ≡ day_of self time }
    {
        time / self.day.max(1)
    }
}

#[tactic(auto, using(std::proofs::lemmas::Bool::Decides::nat_tests), unfolding(crate::specs::Readings::same_reading, crate::specs::Readings::too_late, crate::specs::Readings::kept, crate::specs::Visits::joins))]
impl Reading {
    // Whether it is the same reading, which may say another amount.
    pub fn same(self, other: Reading, _terms: Terms) -> bool
        ensures { result ≡ same_reading _terms self other }
    {
        (self.card, self.time, self.serial) == (other.card, other.time, other.serial)
    }

    // A difference that stops at 0 cannot wrap, so nothing is asked of the caller.
    pub fn too_late(self, clock: Clock) -> bool
        ensures { result ≡ Late clock.terms clock.watermark self }
    {
        clock.watermark.saturating_sub(self.time) > clock.terms.lateness
    }

    pub fn kept(self, clock: Clock) -> bool
        ensures { result ≡ Kept clock.terms clock.watermark self }
    {
        !self.too_late(clock)
    }

    // The reading as a visit of its own.
    pub fn single(self) -> Visit
        ensures { result ≡ Single self }
    {
        Visit {
            card: self.card,
            from: self.time,
            to: self.time,
            count: 1,
            sum: self.amount,
        }
    }

    // Whether this reading, before all of the visit's, belongs to it.
    pub fn joins(self, visit: Visit, terms: Terms) -> bool
        ensures { result ≡ Joins terms self visit }
    {
        self.card == visit.card && visit.from.saturating_sub(self.time) <= terms.gap_of(self.card)
    }
}

#[tactic(auto, using(crate::proofs::Orders::triple_before), unfolding(crate::specs::Readings::reading_before))]
impl Ordered for Reading {
    ghost precedes = { reading_before };

    ghost chained = { reading_chained };

    fn before(self, other: Reading, _terms: Terms) -> bool {
        (self.card, self.time, self.serial) < (other.card, other.time, other.serial)
    }
}

#[tactic(auto, using(std::proofs::lemmas::Bool::Decides::nat_tests), unfolding(crate::specs::Visits::near, crate::specs::Visits::same_visit, crate::specs::Visits::closed, crate::specs::Visits::expired, crate::specs::Visits::live, crate::specs::Lines::line_of))]
impl Visit {
    // The visit with a reading put before its first.
    pub fn grown(self, reading: Reading) -> Visit
        requires count { self.count + 1 < 2 ^ 64 }
        requires sum { self.sum + reading.amount < 2 ^ 64 }
        ensures { result ≡ Grown reading self }
    {
        Visit {
            card: self.card,
            from: reading.time,
            to: self.to,
            count: self.count + 1,
            sum: self.sum + reading.amount,
        }
    }

    pub fn near(self, other: Visit, terms: Terms) -> bool
        ensures { result ≡ Near terms self other }
    {
        let gap = terms.gap_of(self.card);
        self.card == other.card
            && self.from.saturating_sub(other.to) <= gap
            && other.from.saturating_sub(self.to) <= gap
    }

    // The visit made of two.
    pub fn merge(self, other: Visit) -> Visit
        requires count { self.count + other.count < 2 ^ 64 }
        requires sum { self.sum + other.sum < 2 ^ 64 }
        ensures { result ≡ merged self other }
    {
        Visit {
            card: self.card,
            from: self.from.min(other.from),
            to: self.to.max(other.to),
            count: self.count + other.count,
            sum: self.sum + other.sum,
        }
    }

    pub fn same(self, other: Visit, _terms: Terms) -> bool
        ensures { result ≡ same_visit _terms self other }
    {
        self == other
    }

    pub fn closed(self, clock: Clock) -> bool
        ensures { result ≡ Closed clock.terms clock.watermark self }
    {
        clock.watermark.saturating_sub(self.to) > clock.terms.gap_of(self.card)
    }

    pub fn expired(self, clock: Clock) -> bool
        ensures { result ≡ Expired clock.terms clock.watermark self }
    {
        clock
            .watermark
            .saturating_sub(self.to)
            .saturating_sub(clock.terms.gap_of(self.card))
            > clock.terms.lateness
    }

    pub fn live(self, clock: Clock) -> bool
        ensures { result ≡ Live clock.terms clock.watermark self }
    {
        !self.expired(clock)
    }

    // The ledger line that this visit makes alone.
    pub fn line(self, terms: Terms) -> Line
        ensures { result ≡ line_of terms self }
    {
        Line {
            card: self.card,
            day: terms.day_of(self.from),
            visits: 1,
            sum: self.sum,
        }
    }
}

#[tactic(auto, using(crate::proofs::Orders::pair_before), unfolding(crate::specs::Visits::visit_before))]
impl Ordered for Visit {
    ghost precedes = { visit_before };

    ghost chained = { visit_chained };

    fn before(self, other: Visit, _terms: Terms) -> bool {
        (self.card, self.from) < (other.card, other.from)
    }
}

#[tactic(auto, using(std::proofs::lemmas::Bool::Decides::nat_tests), unfolding(crate::specs::Lines::same_key))]
impl Line {
    pub fn same_key(self, other: Line, _terms: Terms) -> bool
        ensures { result ≡ same_key _terms self other }
    {
        (self.card, self.day) == (other.card, other.day)
    }

    // The share of another line put to this one.
    pub fn plus(self, other: Line) -> Line
        requires visits { self.visits + other.visits < 2 ^ 64 }
        requires sum { self.sum + other.sum < 2 ^ 64 }
        ensures { result ≡ line_plus self other }
    {
        Line {
            card: self.card,
            day: self.day,
            visits: self.visits + other.visits,
            sum: self.sum + other.sum,
        }
    }

    // The share of another line taken from this one; each number stops at 0.
    pub fn minus(self, other: Line) -> Line
        ensures { result ≡ line_minus self other }
    {
        Line {
            card: self.card,
            day: self.day,
            visits: self.visits.saturating_sub(other.visits),
            sum: self.sum.saturating_sub(other.sum),
        }
    }
}

#[tactic(auto, using(crate::proofs::Orders::pair_before), unfolding(crate::specs::Lines::line_before))]
impl Ordered for Line {
    ghost precedes = { line_before };

    ghost chained = { line_chained };

    fn before(self, other: Line, _terms: Terms) -> bool {
        (self.card, self.day) < (other.card, other.day)
    }
}
