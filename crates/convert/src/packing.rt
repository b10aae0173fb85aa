// Text to a command file.
ghost use Rattle.convert.specs.Packing.{Packs};
ghost use Rattle.convert.specs.RoundTrip.{RoundTrip};
ghost use Rattle.feed.specs.Files.{command_bytes, storable};
ghost use Rattle.std.specs.Prelude.{◌≡◌, true, ◌++◌, OnOk};
ghost use Rattle.std.specs.List.{flat_map, AllByRecursion};

use command::Command;
use days::{ParseError, parse};
use feed::files::{EncodeError, put_command, put_terms};
use std::alloc::{AllocError, Global};

// Every command of a day that was read fits its bytes, so that only memory may want.
fn put_commands(file: &mut Vec<u8>, commands: &[Command]) -> Result<(), AllocError>
    requires { AllByRecursion (λ c. storable c ≡ true) commands.now }
    ensures { OnOk result (file.new.items ≡ file.old.items ++ flat_map command_bytes commands.now) }
{
    for command in commands {
        put_command(file, *command).map_err(|error| match error {
            EncodeError::OutOfMemory => AllocError,
            EncodeError::TooLarge => unreachable(),
        })?;
    }
    Ok(())
}

// The file is made whole or not at all. `back` is the theorem that unpacking it gives the same day.
#[tactic(auto, using(crate::proofs::RoundTrip::kept_whole, crate::proofs::Fits::day_stored))]
pub fn pack(heap: Global, text: &[u8]) -> Result<Vec<u8>, ParseError>
    ensures packs { Packs text.now result }
    ensures back { RoundTrip }
{
    let day = parse(heap, text)?;
    let mut file = Vec::new(heap);
    put_terms(&mut file, day.terms)?;
    put_commands(&mut file, &day.commands)?;
    Ok(file)
}
