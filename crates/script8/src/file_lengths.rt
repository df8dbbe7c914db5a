ghost use Rattle.std.specs.Prelude.{◌≡◌, List, ℕ};

use os8_dir::Name;
use std::marker::Model;

/// The names of files with their lengths in blocks.
#[derive(Drop)]
pub struct FileLengths {
    files: Vec<(Name, usize)>,
}

impl Model for FileLengths {
    ghost Value = { List (ℕ × ℕ) };

    ghost view = { λ lengths. lengths.files.items };
}

impl FileLengths {
    /// The lengths of these files, in their order.
    pub fn new(files: Vec<(Name, usize)>) -> FileLengths
        ensures { result ≡ files.items }
    {
        FileLengths { files }
    }

    /// The files in their order.
    pub fn files(&self) -> &[(Name, usize)]
        ensures { result.now ≡ self.now }
    {
        &self.files
    }

    /// The files in their order.
    pub fn into_files(self) -> Vec<(Name, usize)>
        ensures { result.items ≡ self }
    {
        self.files
    }
}
