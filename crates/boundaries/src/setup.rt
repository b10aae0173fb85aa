// What a command is done to, and within what: everything that a case can choose but the command.
use rows::lines::LINE_WIDTH;
use rows::readings::READING_WIDTH;
use rows::visits::VISIT_WIDTH;
use std::alloc::Global;
use store::capacity::Capacity;
use store::layout::{LINES_AT, OUT_SIZE, READINGS_AT, STORE_SIZE, VISITS_AT};

// So many numbers more than either row needs, to see that they stay.
const BEHIND: usize = 3;

// Where a table stands: its count, its first row, and how wide a row is.
#[derive(Clone, Copy)]
pub struct Table {
    count_at: usize,
    at: usize,
    width: usize,
}

pub const VISITS: Table = Table {
    count_at: 4,
    at: VISITS_AT,
    width: VISIT_WIDTH,
};

pub const READINGS: Table = Table {
    count_at: 5,
    at: READINGS_AT,
    width: READING_WIDTH,
};

pub const LINES: Table = Table {
    count_at: 6,
    at: LINES_AT,
    width: LINE_WIDTH,
};

// Without a capacity the command is done with the whole layout's.
#[derive(Clone, Drop)]
pub struct Setup {
    pub store: Vec<u64>,
    pub out_size: usize,
    pub capacity: Option<Capacity>,
}

// Cuts a row, or lengthens it. New cells hold a number that tells their place, so that nothing moves unnoticed.
pub fn resize(row: &mut Vec<u64>, size: usize) -> anyhow::Result<()> {
    row.truncate(size);
    // The place itself goes into the cell.
    row.extend((row.len()..size).map(|i| (i as u64).saturating_add(7_000_000)))?;
    Ok(())
}

pub fn cell(row: &[u64], at: usize) -> u64 {
    row.get(at).copied().unwrap_or(0)
}

impl Setup {
    pub fn new(heap: Global) -> anyhow::Result<Setup> {
        let mut store = vec![in heap; 0u64; STORE_SIZE]?;
        resize(&mut store, STORE_SIZE.saturating_add(BEHIND))?;
        Ok(Setup {
            store,
            out_size: OUT_SIZE.saturating_add(BEHIND),
            capacity: None,
        })
    }

    // A case may have a short row: what is past its end is left out.
    pub fn set(&mut self, at: usize, values: &[u64]) {
        for (cell, value) in self.store.iter_mut().skip(at).zip(values) {
            *cell = *value;
        }
    }

    // A row behind the last of a table.
    fn append(&mut self, table: Table, values: &[u64]) {
        let count = cell(self.store.as_slice(), table.count_at);
        let offset = (count as usize).saturating_mul(table.width);
        self.set(table.at.saturating_add(offset), values);
        self.set(table.count_at, &[count.saturating_add(1)]);
    }

    // Several rows: the numbers of the first, then by how much each of them grows from row to row.
    pub fn append_many(
        &mut self,
        heap: Global,
        table: Table,
        count: u64,
        numbers: &[u64],
    ) -> anyhow::Result<()> {
        // The row's number goes into its cells.
        for i in 0..count {
            let number = |k: usize| {
                let step = cell(numbers, k.saturating_add(table.width));
                cell(numbers, k).wrapping_add(step.wrapping_mul(i))
            };
            let row: Vec<u64> = (0..table.width).map(number).collect(heap)?;
            self.append(table, row.as_slice());
        }
        Ok(())
    }
}
