// Random days by a seed: bursts, duplicates, late and too-late readings, watermarks that try to go back.
use command::Command;
use feed::files::{EncodeError, put_command, put_terms};
use std::alloc::Global;
use visit::{Reading, Terms};

// Few commands, so that a store of 64 live visits and 256 readings has room for every day.
const COMMANDS: u64 = 60;

// SplitMix64.
#[derive(Clone, Copy)]
struct Random {
    state: u64,
}

impl Random {
    fn next(&mut self) -> u64 {
        self.state = self.state.wrapping_add(0x9e37_79b9_7f4a_7c15);
        let a = (self.state ^ (self.state >> 30)).wrapping_mul(0xbf58_476d_1ce4_e5b9);
        let b = (a ^ (a >> 27)).wrapping_mul(0x94d0_49bb_1331_11eb);
        b ^ (b >> 31)
    }

    // A number below n, or 0.
    fn below(&mut self, n: u64) -> u64 {
        self.next() % n.max(1)
    }

    fn one_of(&mut self, choices: [u64; 4]) -> u64 {
        let [a, b, c, d] = choices;
        match self.below(4) {
            0 => a,
            1 => b,
            2 => c,
            _ => d,
        }
    }
}

// Readings are around the clock of the day, most of them a little late.
fn reading(random: &mut Random, terms: Terms, clock: u64) -> Command {
    let reach = terms.gap.saturating_add(terms.lateness).saturating_add(2);
    let back = if random.below(3) == 0 {
        random.below(reach.saturating_mul(2))
    } else {
        random.below(terms.gap.saturating_add(2))
    };
    Command::Reading(Reading {
        card: random.below(3).saturating_add(1),
        time: clock.saturating_sub(back),
        serial: random.below(2),
        amount: random.below(100),
    })
}

fn command(random: &mut Random, terms: Terms, clock: u64) -> Command {
    match random.below(12) {
        0 | 1 => Command::Watermark(clock),
        2 => Command::Watermark(clock.saturating_sub(random.below(20))),
        3 => Command::Watermark(clock.saturating_add(random.below(20))),
        _ => reading(random, terms, clock),
    }
}

pub fn day(heap: Global, seed: u64) -> Result<Vec<u8>, EncodeError> {
    let mut random = Random { state: seed };
    let terms = Terms {
        gap: random.one_of([0, 1, 10, 40]),
        lateness: random.one_of([0, 5, 30, 100]),
        day: random.one_of([1, 7, 50, 1000]),
    };
    let mut file = Vec::new(heap);
    put_terms(&mut file, terms)?;
    let mut clock = 0u64;
    // So many times: the numbers and the clock go on from command to command.
    for _ in 0..COMMANDS {
        if random.below(2) == 0 {
            clock = clock.saturating_add(random.below(terms.gap.saturating_add(4)));
        }
        put_command(&mut file, command(&mut random, terms, clock))?;
    }
    Ok(file)
}
