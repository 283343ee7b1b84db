//! What a choice answers.

/// A frame that was chosen, whose header this backend holds. It has to be pinned, by a call that
/// takes its number and its word, or its header unlocked, which takes the number alone.
pub struct LockedFrame {
    pub(crate) frame: u32,
    pub(crate) word: u64,
    pub(crate) from_ring: bool,
}

impl LockedFrame {
    ghost use Rattle.std.specs.Prelude.{◌≡◌};

    pub fn frame(&self) -> u32
        ensures { result ≡ self.now.frame }
    {
        self.frame
    }

    /// The state word that is held: its header is locked, and no backend pins the frame.
    pub fn word(&self) -> u64
        ensures { result ≡ self.now.word }
    {
        self.word
    }

    /// Whether the frame came from the ring's current place (`from_ring`): only then may the ring
    /// reject it.
    pub fn is_from_ring(&self) -> bool
        ensures { result ≡ self.now.from_ring }
    {
        self.from_ring
    }

    /// The frame's number, for the call that pins it or unlocks its header.
    pub fn into_frame(self) -> u32
        ensures { result ≡ self.frame }
    {
        let LockedFrame {
            frame,
            word: _,
            from_ring: _,
        } = self;
        frame
    }
}

/// Each of so many frames was seen pinned, by loads of the call that answers this. The census has
/// their words.
#[derive(Clone, Copy, PartialEq, Eq, Debug)]
pub struct NoUnpinned {
    pub frames: u32,
}
