//! A file of which the bytes of its volumes are replaced.
ghost use Rattle.std.specs.Prelude.{◌≡◌};
ghost use Rattle.image_kind.specs.Parts.{TakesBody, file_of, parts_by};

use crate::Margins;
use std::marker::Model;

/// A file with bytes that are none of its volumes. A contract sees the bytes before its volumes, theirs, and those after them.
#[derive(Drop)]
pub struct PartedFile {
    bytes: Vec<u8>,
    start: usize,
    size: usize,
}

impl Model for PartedFile {
    ghost use Rattle.std.specs.Prelude.{◌+◌, ◌≤◌, drop, length, take};
    ghost use Rattle.image_kind.specs.Parts.{Parts};

    ghost Value = { Parts };

    ghost view = { λ file. record {
      before = take file.start file.bytes.items;
      body = take file.size (drop file.start file.bytes.items);
      after = drop file.size (drop file.start file.bytes.items);
    } };

    ghost invariant = { λ file. file.start + file.size ≤ length file.bytes.items };
}

impl PartedFile {
    /// A file with these margins.
    pub fn new(file: Vec<u8>, margins: Margins) -> PartedFile
        ensures { result ≡ parts_by margins file.items }
    {
        let start = margins.before.min(file.len());
        let size = (file.len() - start).saturating_sub(margins.after);
        PartedFile {
            bytes: file,
            start,
            size,
        }
    }

    /// Puts these bytes in place of those of the volumes, and says whether they are as many: else the file stays as it is. No memory is taken.
    pub fn lay(&mut self, body: &[u8]) -> bool
        ensures { TakesBody self.old body.now result self.new }
    {
        if body.len() != self.size {
            return false;
        }
        self.bytes[self.start..self.start + self.size].copy_from_slice(body);
        true
    }

    /// The bytes of the whole file.
    pub fn bytes(&self) -> &[u8]
        ensures { result.now ≡ file_of self.now }
    {
        &self.bytes
    }
}
