//! What holds of each survey.
ghost use Rattle.archive_survey.specs.Laws.{EachSurveyIsSound, FilesAreTold, FirstFaultIsTold, NoFaultIsSound};

/// A law: the first fault that a survey reports is the one with which the directory is refused, and it reports no fault just where the
/// directory is sound. Of a sound directory it lists each file with its information words, its first block and its length, and no other.
pub fn told_faults()
    ensures first { FirstFaultIsTold }
    ensures none { NoFaultIsSound }
    ensures files { FilesAreTold }
{}

/// A law: of any directory no two files that a survey reports as sound have one name, and each has a block and lies inside the volume.
pub fn sound_files()
    ensures { EachSurveyIsSound }
{}
