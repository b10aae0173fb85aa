// Numbers of a case: decimal, or a power of two, or one less than it.
use anyhow::Context;
use std::alloc::Global;

// 2^bits, where it or one less may fit in 64 bits.
fn power(bits: u32) -> Option<u128> {
    (bits <= 64).then(|| 1u128 << bits)
}

fn number(word: &str) -> anyhow::Result<u64> {
    let Some(bits) = word.strip_prefix("2^") else {
        return Ok(word.parse::<u64>()?);
    };
    let read = match bits.strip_suffix("-1") {
        Some(bits) => power(bits.parse::<u32>()?).map(|power| power.saturating_sub(1)),
        None => power(bits.parse::<u32>()?),
    };
    read.and_then(|number| u64::try_from(number).ok())
        .context("a power that does not fit")
}

pub fn numbers(heap: Global, words: &str) -> anyhow::Result<Vec<u64>> {
    words.split_whitespace().map(number).try_collect(heap)
}
