//! What prints leave as it was, and when they end, as laws.
ghost use Rattle.std.specs.Prelude.{◌≡◌, ℕ, Option, List};
ghost use Rattle.hosts.specs.Event.{Event};
ghost use Rattle.hosts.specs.Streams.{errors, read, changes_at};
ghost use Rattle.hosts.specs.declared.faults.PrintFault.{PrintFault};
ghost use Rattle.host_output.specs.Printing.{HasPrinted, StopsAtFailure};

/// Where nothing was asked of a host but prints, no file was changed, no folder was made, standard error got nothing, and nothing was read.
pub fn prints_alone()
    ensures files { (old new : List Event) (fault : Option PrintFault) (path : List ℕ) → HasPrinted old new fault → changes_at path new ≡ changes_at path old }
    ensures tells { (old new : List Event) (fault : Option PrintFault) → HasPrinted old new fault → errors new ≡ errors old }
    ensures reads { (old new : List Event) (fault : Option PrintFault) → HasPrinted old new fault → read new ≡ read old }
{}

/// Of what was printed so, standard output took all but the newest. So nothing is printed after what it didn't take.
pub fn failed_print_is_last()
    ensures { (old new : List Event) (fault : Option PrintFault) → HasPrinted old new fault → StopsAtFailure old new }
{}
