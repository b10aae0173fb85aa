// Terms and commands as lines of text.
ghost use Rattle.days.specs.Writing.{command_text, terms_text};
ghost use Rattle.visit.specs.Text.{Puts};

use command::Command;
use std::alloc::AllocError;
use std::fmt::Write;
use visit::Terms;

pub fn put_terms(text: &mut String, terms: Terms) -> Result<(), AllocError>
    ensures { Puts result text.old (terms_text terms) text.new }
{
    writeln!(text, "terms {terms}")
}

pub fn put_command(text: &mut String, command: Command) -> Result<(), AllocError>
    ensures { Puts result text.old (command_text command) text.new }
{
    writeln!(text, "{command}")
}
