// Cases as they are read, line by line.
use crate::numbers::numbers;
use crate::setup::{LINES, READINGS, Setup, Table, VISITS, cell, resize};
use crate::show::{kept_word, show_out, show_store};
use anyhow::{Context, anyhow};
use command::{Reply, reply_number, reply_value};
use std::alloc::Global;
use std::fmt::Write;
use store::applying::{apply, apply_within};
use store::capacity::{Capacity, SMALL};
use store::layout::STORE_SIZE;
use store::opening::{clear, open};
use visit::Terms;

// Each case begins with a copy of the base.
#[derive(Drop)]
pub struct Runner {
    base: Setup,
    setup: Setup,
    name: String,
    pub text: String,
}

fn terms_of(row: &[u64]) -> Terms {
    Terms {
        gap: cell(row, 0),
        lateness: cell(row, 1),
        day: cell(row, 2),
    }
}

fn capacity_of(row: &[u64]) -> Capacity {
    Capacity {
        visits: cell(row, 0) as usize,
        readings: cell(row, 1) as usize,
    }
}

impl Runner {
    pub fn new(heap: Global) -> anyhow::Result<Runner> {
        Ok(Runner {
            base: Setup::new(heap)?,
            setup: Setup::new(heap)?,
            name: String::new(heap),
            text: String::new(heap),
        })
    }

    // `#` begins a comment, `;` stands between instructions.
    pub fn line(&mut self, heap: Global, line: &str) -> anyhow::Result<()> {
        let instructions = match line.split_once('#') {
            Some((front, _)) => front,
            None => line,
        };
        for instruction in instructions.split(';') {
            self.instruction(heap, instruction.trim())?;
        }
        Ok(())
    }

    fn instruction(&mut self, heap: Global, text: &str) -> anyhow::Result<()> {
        let (word, rest) = match text.split_once(' ') {
            Some((word, rest)) => (word, rest.trim()),
            None => (text, ""),
        };
        match word {
            "" => Ok(()),
            "case" => self.begin(heap, rest),
            _ => {
                let row = numbers(heap, rest)?;
                self.perform(heap, word, row.as_slice())
            }
        }
    }

    fn begin(&mut self, heap: Global, name: &str) -> anyhow::Result<()> {
        self.setup = self.base.clone()?;
        self.name = String::from_str(heap, name)?;
        Ok(())
    }

    fn perform(&mut self, heap: Global, word: &str, row: &[u64]) -> anyhow::Result<()> {
        match word {
            "new" => self.setup = Setup::new(heap)?,
            "base" => self.base = self.setup.clone()?,
            "size" => resize(&mut self.setup.store, cell(row, 0) as usize)?,
            "out" => self.setup.out_size = cell(row, 0) as usize,
            "small" => self.setup.capacity = Some(SMALL),
            "capacity" => self.setup.capacity = Some(capacity_of(row)),
            "do" => self.apply(heap, row)?,
            "open" => self.open(terms_of(row))?,
            "empty" => self.empty(terms_of(row)),
            _ => return self.fill(heap, word, row),
        }
        Ok(())
    }

    // What is put into the store.
    fn fill(&mut self, heap: Global, word: &str, row: &[u64]) -> anyhow::Result<()> {
        match word {
            "terms" => self.setup.set(0, row),
            "watermark" => self.setup.set(3, row),
            "set" => if let Some((at, values)) = row.split_first() {
                self.setup.set(*at as usize, values);
            },
            "visit" => self.setup.append_many(heap, VISITS, 1, row)?,
            "reading" => self.setup.append_many(heap, READINGS, 1, row)?,
            "line" => self.setup.append_many(heap, LINES, 1, row)?,
            "visits" => self.append(heap, VISITS, row)?,
            "readings" => self.append(heap, READINGS, row)?,
            "lines" => self.append(heap, LINES, row)?,
            _ => return Err(anyhow!(format!(in heap; "unknown instruction {word}")?)),
        }
        Ok(())
    }

    fn append(&mut self, heap: Global, table: Table, row: &[u64]) -> anyhow::Result<()> {
        let (count, numbers) = row.split_first().context("how many rows?")?;
        self.setup.append_many(heap, table, *count, numbers)
    }

    fn apply(&mut self, heap: Global, row: &[u64]) -> anyhow::Result<()> {
        let mut out = Vec::new(heap);
        resize(&mut out, self.setup.out_size)?;
        let out_before = out.clone()?;
        let before = self.setup.store.clone()?;
        let store = self.setup.store.as_mut_slice();
        let reply = match self.setup.capacity {
            Some(capacity) => apply_within(capacity, store, row, out.as_mut_slice()),
            None => apply(store, row, out.as_mut_slice()),
        };
        let out_kept = out.as_slice() == out_before.as_slice();
        self.answer(reply, before.as_slice(), out_kept)?;
        if let Ok(changed) = reply {
            show_out(&mut self.text, &out, &out_before, changed)?;
            show_store(&mut self.text, &self.setup.store, &before)?;
        }
        Ok(())
    }

    fn open(&mut self, terms: Terms) -> anyhow::Result<()> {
        let before = self.setup.store.clone()?;
        let reply = open(self.setup.store.as_mut_slice(), terms);
        self.answer(reply, before.as_slice(), true)?;
        if reply.is_ok() {
            show_store(&mut self.text, &self.setup.store, &before)?;
        }
        Ok(())
    }

    // An empty store, whatever its terms.
    fn empty(&mut self, terms: Terms) {
        let store = self.setup.store.as_mut_slice();
        if store.len() >= STORE_SIZE {
            clear(store, terms);
        }
    }

    // The reply; of a refusal also whether both rows stayed as they were.
    fn answer(&mut self, reply: Reply, before: &[u64], out_kept: bool) -> anyhow::Result<()> {
        let name = self.name.as_str();
        let number = reply_number(reply);
        let value = reply_value(reply);
        match reply {
            Ok(_) => writeln!(self.text, "{name}: {number} {value}")?,
            Err(_) => {
                let kept = kept_word(out_kept && self.setup.store.as_slice() == before);
                writeln!(self.text, "{name}: {number} {value} {kept}")?;
            }
        }
        Ok(())
    }
}
