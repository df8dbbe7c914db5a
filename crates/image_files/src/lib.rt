//! Images in files of the host, over any host: how one is held, read and saved, how other files are made, what is printed, and how a command ends.
#![tactic(auto)]

mod answers;
mod dates;
mod ending;
mod faults;
mod images;
mod information;
mod inputs;
mod judging;
pub mod laws;
mod leftovers;
mod making;
mod mending;
mod notes;
mod pairs;
mod places;
mod printing;
mod reading;
mod reasons;
mod saving;
mod states;
mod waiting;
mod years;

pub use answers::{
    answer_of, named_lines, open_volume, program_line, put_stored, show_file, stored_line,
};
pub use dates::{FileDay, date_of_file, word_of_day, year_of_day};
pub use ending::{Rooms, end, end_sound, ending_after, part_after, tell_line};
pub use images::Image;
pub use information::take_words;
pub use inputs::{given_bytes, input_bytes};
pub use judging::{judge_file, refuse_kind};
pub use leftovers::{images_among, is_leftover};
pub use making::{make_file, make_first};
pub use mending::{ImageReading, image_named, look_image};
pub use notes::{refuse_image, tell_note};
pub use pairs::{is_one_image, refuse_one};
pub use places::{keep_apart, tell_pair};
pub use printing::{print, report, store};
pub use reading::{
    ImagePlace, hold, look, look_at, look_file, one_volume_in, script_volume_in, volume_in,
};
pub use reasons::{tell_fault, tell_first, tell_reason};
pub use saving::write_file;
pub use states::{ChangeState, ImageNotes};
pub use waiting::{TRIES, end_busy, hold_within};
pub use years::{note_files, note_year};
