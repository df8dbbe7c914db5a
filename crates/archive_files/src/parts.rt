//! What [`crate::get`] and [`crate::put`] are made of, for what gets or puts several files of one volume.

pub use crate::getting::{content_of_words, read_words};
pub use crate::listing::{put_file, put_free};
pub use crate::opening::{image_of, mount_image, open_image, volume_of};
pub use crate::putting::{put_informed, stored_words};
pub use crate::words::words_at;
