//! What holds of many files that are got and put. Each function does nothing: its contract is the law.
ghost use Rattle.archive_many.specs.Laws.{EachLies, HostNamesComeBack, LikeAreCopied, LikeAreGone, NamesDiffer, OthersLie, OthersStay, PutAreGot, PutAreThere, PutFramesAreGot};

use char_pack::laws::packed_bytes;
use name_spelling::laws::{safe_names, shown_names, typed_names};
use os8_dir::laws::{files_found, sound_directory};
use volume_image::image_round_trip;

/// A law: of files that were put at once, one whose name no later one has is in the new image with the words of its bytes. What is
/// got there is given of these words: frames with zeros after them to the end of their last block. Any other file is there as it
/// was, and lies where it lay.
pub fn put_many_is_got()
    ensures there { PutAreThere }
    ensures got { PutAreGot }
    ensures frames { PutFramesAreGot }
    ensures others { OthersStay }
    ensures places { OthersLie }
{
    image_round_trip();
    files_found();
    packed_bytes();
}

/// A law: after the files that words choose are taken out, the volume has just those whose names are like no word, each as it was.
pub fn chosen_are_gone()
    ensures { LikeAreGone }
{
    image_round_trip();
    files_found();
    sound_directory();
}

/// A law: after the files that words choose are copied to a volume, it has copies of just those whose names are like a word. Each has the words of
/// its file. An older file stays as it is where no copy has its name.
pub fn chosen_are_copied()
    ensures { LikeAreCopied }
{
    image_round_trip();
    files_found();
    sound_directory();
}

/// A law: each file that is listed of a volume lies on it where the list says, so it can be got.
pub fn files_lie()
    ensures { EachLies }
{
    files_found();
    sound_directory();
}

/// A law: the host's file for a file of a volume, in any folder, is put under the name of that file. Of two files of a volume the host's
/// files have two names, so none is written over the other.
pub fn host_names_come_back()
    ensures back { HostNamesComeBack }
    ensures differ { NamesDiffer }
{
    sound_directory();
    safe_names();
    shown_names();
    typed_names();
}
