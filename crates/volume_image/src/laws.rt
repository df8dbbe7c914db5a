ghost use Rattle.volume_image.specs.Fuse.{OneCallFails, NoCallFails};
ghost use Rattle.volume_image.specs.Image.{WrittenIsReadBack, ReadIsWrittenBack};

/// A law: the image of a volume is read back as that volume, and an image that is read and written is the same bytes.
pub fn image_round_trip()
    ensures written_is_read_back { WrittenIsReadBack }
    ensures read_is_written_back { ReadIsWrittenBack }
{}

/// A law: of all reads of a [`FuseVolume`](crate::FuseVolume), and of all its writes, just the one fails that was to fail.
pub fn one_call_fails()
    ensures one { OneCallFails }
    ensures none { NoCallFails }
{}
