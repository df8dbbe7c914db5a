//! What holds of a file in which an image of its volume was laid.
ghost use Rattle.disk_layouts.specs.Laws.{FirstStays, ReadsWhatItLays, LaysWhatItReads, SecondStays, WordsStay};

/// A law: what was laid is read again. Each byte that is none of the volume's is as it was: the other volume of a disk, which is read
/// as before, and the 129th words of a DECtape. What was read and is laid again leaves the file as it is, but for zeros to the end of
/// a last block that it had in part.
pub fn laid_volume()
    ensures again { ReadsWhatItLays }
    ensures second { SecondStays }
    ensures first { FirstStays }
    ensures words { WordsStay }
    ensures unchanged { LaysWhatItReads }
{}
