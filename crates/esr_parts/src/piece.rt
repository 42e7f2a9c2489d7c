//! The buffer into which pieces are read.
ghost use Rattle.std.specs.Prelude.{◌<◌, length};

/// A buffer for the bytes that are read at once.
pub fn buffer() -> [u8; 65536]
    ensures { 0 < length result }
{
    [0; 65536]
}
