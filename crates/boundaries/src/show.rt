// What a case prints of the rows.
use rows::out::OUT_HEAD;
use rows::visits::VISIT_WIDTH;
use std::fmt::Write;
use store::layout::STORE_SIZE;

// So many numbers of a row are printed; if there are more, their count and a hash of the row.
const SHOWN: usize = 60;

// FNV-1a, a number at a time.
fn hash(row: &[u64]) -> u64 {
    row.iter().fold(0xcbf2_9ce4_8422_2325, |hash, x| {
        (hash ^ *x).wrapping_mul(0x100_0000_01b3)
    })
}

// The end of a line: what was left out, and whether the numbers behind stayed.
fn end_line(text: &mut String, row: &[u64], count: usize, kept: bool) -> anyhow::Result<()> {
    if count > SHOWN {
        let more = count.saturating_sub(SHOWN);
        let hash = hash(row);
        write!(text, " and {more} more, hash {hash}")?;
    }
    let behind = kept_word(kept);
    writeln!(text, ", behind {behind}")?;
    Ok(())
}

pub fn kept_word(kept: bool) -> &'static str {
    if kept { "unchanged" } else { "changed" }
}

// The cells in front of a place, and those from it on.
fn cut(row: &[u64], at: usize) -> (&[u64], &[u64]) {
    row.split_at(at.min(row.len()))
}

// The numbers of `out` that are written for so many changes.
pub fn show_out(
    text: &mut String,
    out: &[u64],
    before: &[u64],
    changed: u64,
) -> anyhow::Result<()> {
    let end = (changed as usize)
        .saturating_mul(VISIT_WIDTH)
        .saturating_add(OUT_HEAD);
    let (written, behind) = cut(out, end);
    text.push_str("  out")?;
    for x in written.iter().take(SHOWN) {
        write!(text, " {x}")?;
    }
    end_line(text, written, written.len(), behind == cut(before, end).1)
}

// The cells of the layout that are not 0. The two rows are the store as it is and as it was.
pub fn show_store(text: &mut String, store: &[u64], before: &[u64]) -> anyhow::Result<()> {
    let (layout, behind) = cut(store, STORE_SIZE);
    let mut count: usize = 0;
    text.push_str("  store")?;
    // The row is long, so that it is walked once: what is not printed is counted too.
    for (i, x) in layout.iter().enumerate() {
        if *x != 0 {
            count = count.saturating_add(1);
            if count <= SHOWN {
                write!(text, " {i}={x}")?;
            }
        }
    }
    end_line(text, layout, count, behind == cut(before, STORE_SIZE).1)
}
