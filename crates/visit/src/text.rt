// How readings, visits, lines and terms are written: decimal numbers, single spaces.
ghost use Rattle.std.specs.Prelude.{Some};
ghost use Rattle.visit.specs.Text.{line_text, reading_text, terms_text, visit_text};

use crate::{Line, Reading, Terms, Visit};
use std::fmt;

impl fmt::Display for Terms {
    ghost output = { λ t. Some (terms_text t) };

    fn fmt<W: fmt::Write>(&self, f: &mut fmt::Formatter<W>) -> fmt::Result {
        write!(f, "{} {} {}", self.gap, self.lateness, self.day)
    }
}

impl fmt::Display for Reading {
    ghost output = { λ e. Some (reading_text e) };

    fn fmt<W: fmt::Write>(&self, f: &mut fmt::Formatter<W>) -> fmt::Result {
        write!(
            f,
            "{} {} {} {}",
            self.card, self.time, self.serial, self.amount
        )
    }
}

impl fmt::Display for Visit {
    ghost output = { λ v. Some (visit_text v) };

    fn fmt<W: fmt::Write>(&self, f: &mut fmt::Formatter<W>) -> fmt::Result {
        write!(
            f,
            "{} {} {} {} {}",
            self.card, self.from, self.to, self.count, self.sum
        )
    }
}

impl fmt::Display for Line {
    ghost output = { λ l. Some (line_text l) };

    fn fmt<W: fmt::Write>(&self, f: &mut fmt::Formatter<W>) -> fmt::Result {
        write!(
            f,
            "card {} day {} visits {} sum {}",
            self.card, self.day, self.visits, self.sum
        )
    }
}
