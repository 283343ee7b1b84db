//! Tokens of pins.

use block_tag::Tag;

/// A token of a block that a pass has pinned (`Buffer`). The pass that gave it takes it back.
pub struct Pinned {
    pub(crate) frame: u32,
    pub(crate) tag: Tag,
    pub(crate) hit: bool,
}

impl Pinned {
    ghost use Rattle.std.specs.Prelude.{◌≡◌};

    /// The frame that has the block.
    pub fn frame(&self) -> u32
        ensures { result ≡ self.now.frame }
    {
        self.frame
    }

    /// The block.
    pub fn tag(&self) -> Tag
        ensures { result ≡ self.now.tag }
    {
        self.tag
    }

    /// Whether the block was there, so that no lane was read for this token.
    pub fn hit(&self) -> bool
        ensures { result ≡ self.now.hit }
    {
        self.hit
    }
}
