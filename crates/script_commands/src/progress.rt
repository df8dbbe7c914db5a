//! What a run of a script has come to.
ghost use Rattle.std.specs.Prelude.{◌≡◌, [], None, false};

use hosts::PrintFault;
use image_files::Image;
use outcome::Ending;
use program_tasks::Saving;
use std::alloc::Global;

/// What a run has come to at its host.
#[derive(Drop)]
pub(crate) struct Progress {
    /// The image that the file has.
    pub(crate) image: Image,

    pub(crate) saving: Saving,

    /// Whether a person at a terminal types the script.
    pub(crate) is_typed: bool,

    /// Lines that wait to be printed.
    pub(crate) lines: Vec<u8>,

    /// Whether it was said, where this is so, that the file is written in its place.
    pub(crate) is_place_told: bool,

    /// Whether it was said that its folder can't be brought to the disk.
    pub(crate) is_sync_told: bool,

    /// Whether a note said that the script has more bytes than are read.
    pub(crate) is_cut: bool,

    /// Whether an answer was a refusal.
    pub(crate) is_refused: bool,

    /// Why the image could not be saved.
    pub(crate) save_ending: Option<Ending>,

    /// Why standard output took no more.
    pub(crate) fault: Option<PrintFault>,
}

impl Progress {
    /// Nothing is done.
    pub(crate) fn new(image: Image, saving: Saving, is_typed: bool, lines: Vec<u8>) -> Progress
        requires { lines.items ≡ [] }
        ensures { result ≡ record {
          image = image;
          saving = saving;
          is_typed = is_typed;
          lines = lines;
          is_place_told = false;
          is_sync_told = false;
          is_cut = false;
          is_refused = false;
          save_ending = None;
          fault = None;
        } }
    {
        Progress {
            image,
            saving,
            is_typed,
            lines,
            is_place_told: false,
            is_sync_told: false,
            is_cut: false,
            is_refused: false,
            save_ending: None,
            fault: None,
        }
    }
}
