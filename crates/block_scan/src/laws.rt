//! What holds of the texts, of the programs and of the segments of directories that are found.
ghost use Rattle.block_scan.specs.Laws.{EachPieceIsText, EachProgramGoesOn, EachProgramIsFound, EachProgramIsOne, EachSegmentIsFound, EachSegmentIsOne, EachTextIsFound, PassageIsText};

use bin_tape::laws::longer_tape;

/// A law: frames among which a text ends, with a graphic character, are a text as `file_kind` has it.
pub fn ended_texts()
    ensures { PassageIsText }
{}

/// A law: each piece that is found lies inside the blocks, and is a text as `file_kind` has it.
pub fn pieces_are_texts()
    ensures { EachPieceIsText }
{}

/// A law: each whole text that begins at a block and lies in one piece, of however many blocks, is found. A piece ends where it ends, and
/// begins where it begins, or before it, where blocks that a text may go through lie directly before it.
pub fn texts_are_found()
    ensures { EachTextIsFound }
{}

/// A law: a program with more blocks after it is one of the same kind.
pub fn longer_programs()
    ensures { EachProgramGoesOn }
{
    longer_tape();
}

/// A law: each program that is listed as one of a volume can be read there as what it is listed as.
pub fn programs_are_there()
    ensures { EachProgramIsOne }
{}

/// A law: each whole program of a volume that begins at a block with more than leader, and lies in one piece, is found. It begins with one
/// that is listed, or inside it.
pub fn programs_are_found()
    ensures { EachProgramIsFound }
{}

/// A law: each block that is listed as a segment of a directory can be read there as one, and its first file has the name that is given.
pub fn segments_are_there()
    ensures { EachSegmentIsOne }
{}

/// A law: each block after those of the directory that can be read as a segment with a file is listed.
pub fn segments_are_found()
    ensures { EachSegmentIsFound }
{}
