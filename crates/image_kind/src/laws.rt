//! What holds of what files are taken for.
ghost use Rattle.std.specs.Prelude.{◌≡◌, ◌≤◌, ◌%◌, ℕ, List, None, length, true};
ghost use Rattle.disk_layouts.specs.declared.sizes.TheConstants.{DISK_VOLUME};
ghost use Rattle.image_kind.specs.Kinds.{are_blocks, is_past_disk_volume, is_volume_at, kind_with, readings_of};
ghost use Rattle.image_kind.specs.declared.kinds.Form.TheVariants.{Volume};

/// Whole blocks, 8 to 4095 of them, with a whole directory are one volume and nothing else, whatever stands in it. Where they are more than the first
/// volume of a disk has, the directory covers more than that.
pub fn whole_volumes()
    ensures { (bytes : List ℕ) → are_blocks (length bytes) ≡ true → is_volume_at bytes 0 ≡ true → is_past_disk_volume bytes ≡ true
        → readings_of bytes ≡ record { first = kind_with Volume 0 0; other = None } }
{}
