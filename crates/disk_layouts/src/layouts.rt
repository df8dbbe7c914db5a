/// Where a volume lies in a file that holds more than its image (OS/8's use of the RK05 disk and of the DECtape; SIMH's files of both).
#[derive(Clone, Copy, PartialEq, Eq, Debug)]
pub enum Layout {
    /// The first volume of an RK05 disk: its blocks 0 to 3247, of 512 bytes each.
    First,

    /// The second volume of an RK05 disk: its blocks 3248 to 6495.
    Second,

    /// A DECtape of 1474 blocks of 129 words, of which the volume has all but the last.
    Dectape,
}
