ghost use Rattle.std.specs.Prelude.{◌≡◌};

use os8_dir::Name;
use std::marker::Model;

/// A file that is being written. It must be closed or given up, to the service that gave it. A contract sees the name.
pub struct Tentative {
    name: Name,
}

impl Model for Tentative {
    ghost use Rattle.std.specs.Prelude.{ℕ};

    ghost Value = { ℕ };

    ghost view = { λ tentative. tentative.name };
}

impl Tentative {
    pub(crate) fn new(name: Name) -> Tentative
        ensures { result ≡ name }
    {
        Tentative { name }
    }

    pub(crate) fn spend(self) -> Name
        ensures { result ≡ self }
    {
        let Tentative { name } = self;
        name
    }
}

/// A file that is neither replaced nor deleted until it is let go. A hold must be released, to the service that gave
/// it. A contract sees the name.
pub struct Hold {
    name: Name,
}

impl Model for Hold {
    ghost use Rattle.std.specs.Prelude.{ℕ};

    ghost Value = { ℕ };

    ghost view = { λ hold. hold.name };
}

impl Hold {
    /// The name of the file.
    pub fn name(&self) -> Name
        ensures { result ≡ self.now }
    {
        self.name
    }

    pub(crate) fn new(name: Name) -> Hold
        ensures { result ≡ name }
    {
        Hold { name }
    }

    pub(crate) fn spend(self) -> Name
        ensures { result ≡ self }
    {
        let Hold { name } = self;
        name
    }
}

/// What a turn of squeezing did.
#[derive(Clone, Copy, PartialEq, Eq, Debug)]
pub enum Squeezed {
    /// The file of this name lies lower.
    Moved(Name),
    /// No file has an empty below it.
    Nothing,
}
