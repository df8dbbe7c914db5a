//! What holds of an image file of which the faults are mended.
ghost use Rattle.image_kind.specs.MendingLaws.{SoundStays, ListedAreWide, WideAreListed};

/// A law: a file without faults stays as it is. Just the words that had more than twelve bits are listed.
pub fn mended_files()
    ensures sound { SoundStays }
    ensures listed { ListedAreWide }
    ensures changed { WideAreListed }
{}
