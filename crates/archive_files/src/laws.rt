//! What holds of a file that was put into an image and is got from the new one, and of what a check lists.
ghost use Rattle.archive_files.specs.AskLaws.{EachBeginsAtABlock, OneNameIsGotAlike, PlainAreAsDirect, WhatBeginsIsThere};
ghost use Rattle.archive_files.specs.ChangeLaws.{CopyHasItsName, CopyIsTheSame, CopyLeavesOthers, DeletedAreGone, DeletedLeaveOthers, DeletedLeaveWhatIsGot, PutAnewHasZeros, PutGivesInformation, PutKeepsInformation, RenamedBackIsAsBefore, RenamedBeginsThere, OldNameIsGone, RenamedIsThere, RenamedLeavesOthers, SqueezedAreGot, SqueezedAreThere, SqueezedKeepNames};
ghost use Rattle.archive_files.specs.Laws.{ChecksTellEachBlock, ChecksTellEachSegment, FramesComeBack, LinesComeBack, OthersStay, TapeComesBack, TextComesBack};

use bin_tape::laws::{longer_tape, no_fault};
use char_pack::laws::{packed_bytes, stored_text};
use name_spelling::laws::plain_names;
use os8_dir::laws::{file_information, file_renamed, files_found, sound_directory};
use refusals::laws::name_as_typed;
use volume_image::image_round_trip;

/// A law: what was put is got again, or memory is wanted. The bytes have zeros after them to the end of their last block. The tape is the one that
/// they begin with. A text has LF alone at the end of each line. A text of a file whose lines end with CR LF has its words again where it is got
/// as a text and put as one. Another file that could be got is got as before, in each form, with the same bytes.
pub fn put_is_got()
    ensures frames { FramesComeBack }
    ensures tape { TapeComesBack }
    ensures lines { LinesComeBack }
    ensures text { TextComesBack }
    ensures others { OthersStay }
{
    image_round_trip();
    longer_tape();
    no_fault();
    packed_bytes();
    stored_text();
    sound_directory();
}

/// A law: a check lists the extents of files, of empties and of what the directory does not cover. They follow one another from block 7 to the
/// image's end: each block from 7 on is in just one.
pub fn each_block_is_told()
    ensures { ChecksTellEachBlock }
{
    sound_directory();
}

/// A law: the segments that a check lists are those of which the directory was read, each once, in the order of their links.
pub fn each_segment_is_told()
    ensures { ChecksTellEachSegment }
{}

/// A law: a file that is asked for by its first block is got with the same words as by its name, where a text spells that. Each file of a sound
/// volume is asked for by a block, and what is asked for by a block is a file.
pub fn asked_files()
    ensures alike { OneNameIsGotAlike }
    ensures each { EachBeginsAtABlock }
    ensures there { WhatBeginsIsThere }
{
    image_round_trip();
    files_found();
    sound_directory();
}

/// A law: the lines that a list has of files whose names are of letters and digits are those of `DIRECT`.
pub fn plain_lists()
    ensures { PlainAreAsDirect }
{
    plain_names();
    name_as_typed();
}

/// A law: after a deletion the volume has none of the files that were named. Each other file is as it was, with its words and its information
/// words. It is got as before, in each form, with the same bytes, or memory is wanted.
pub fn deleted_files()
    ensures gone { DeletedAreGone }
    ensures others { DeletedLeaveOthers }
    ensures got { DeletedLeaveWhatIsGot }
{
    image_round_trip();
    longer_tape();
    no_fault();
    sound_directory();
}

/// A law: a squeezed volume has each file as it was, with its words and its information words. It is got as before, in each form, with the same
/// bytes, or memory is wanted.
pub fn squeezed_files()
    ensures names { SqueezedKeepNames }
    ensures there { SqueezedAreThere }
    ensures got { SqueezedAreGot }
{
    image_round_trip();
    longer_tape();
    no_fault();
}

/// A law: after a renaming the volume has the file under the new name as it was under the old one. It has its words and its information words, and
/// the same first block. None has the old name, and each other file is as it was. With its old name again the directory's list and the files are as
/// they were. So are the words of block 0 and of all blocks from 7 on.
pub fn renamed_file()
    ensures there { RenamedIsThere }
    ensures begins { RenamedBeginsThere }
    ensures gone { OldNameIsGone }
    ensures others { RenamedLeavesOthers }
    ensures back { RenamedBackIsAsBefore }
{
    image_round_trip();
    files_found();
    sound_directory();
    file_renamed();
}

/// A law: a file that is put over another keeps the information words of that, and one that is put anew has zeros. Where some are given it has the
/// first of those, with zeros for missing ones: as many as the volume's files have.
pub fn put_information()
    ensures keeps { PutKeepsInformation }
    ensures anew { PutAnewHasZeros }
    ensures gives { PutGivesInformation }
{
    image_round_trip();
    files_found();
    sound_directory();
    file_information();
}

/// A law: a copy has the words of the file that was copied. It has its first information words, as many as the files of its volume have, with
/// zeros for missing ones. Its name is the one that was typed for it, or else that of the file. Each other
/// file of the image that it is put into is there as it was.
pub fn copied_file()
    ensures same { CopyIsTheSame }
    ensures name { CopyHasItsName }
    ensures others { CopyLeavesOthers }
{
    image_round_trip();
    sound_directory();
}
