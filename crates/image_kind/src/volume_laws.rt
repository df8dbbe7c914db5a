//! What holds of the parts of a file.
ghost use Rattle.std.specs.Prelude.{◌≡◌, ◌++◌, ℕ, Bool, List, Option};
ghost use Rattle.disk_layouts.specs.declared.layouts.Layout.{Layout as Where};
ghost use Rattle.image_kind.specs.Margins.{after_of, before_of, body_by, body_of};

/// A file is the bytes before its volumes, those of the volumes, and those after them.
pub fn whole_files()
    ensures { (given : Option Where) (is_plain : Bool) (file : List ℕ)
        → before_of given is_plain file ++ body_of given is_plain file ++ after_of given is_plain file ≡ file }
{}

/// Of a file without margins all bytes are those of its volumes.
pub fn plain_files()
    ensures { (file : List ℕ) → body_by (record { before = 0; after = 0 }) file ≡ file }
{}
