//! Laws of rescued volumes. Each function does nothing: its contract is the law.
ghost use Rattle.volume_salvage.specs.RescueLaws.{KeptAreThere, OthersAreNot};

/// Of files with names of their own each is there, with its words and its information words, and there is no other.
pub fn just_these_files()
    ensures there { KeptAreThere }
    ensures others { OthersAreNot }
{}
