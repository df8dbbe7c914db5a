ghost use Rattle.std.specs.Prelude.{◌≡◌, List};
ghost use Rattle.debug_lines.specs.declared.commands.Command.{Command as A_Command};

use crate::Command;
use std::marker::Model;

/// The commands of a line.
#[derive(Drop)]
pub struct Commands {
    items: Vec<Command>,
}

impl Model for Commands {
    ghost Value = { List A_Command };

    ghost view = { λ commands. commands.items.items };
}

impl Commands {
    /// These commands.
    pub fn new(items: Vec<Command>) -> Commands
        ensures { result ≡ items.items }
    {
        Commands { items }
    }

    /// The commands in their order.
    pub fn as_slice(&self) -> &[Command]
        ensures { result.now ≡ self.now }
    {
        &self.items
    }
}
