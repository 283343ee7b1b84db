//! Tokens of input and output.

/// The right to read the page of a frame, or to write it. The call that ends the read or the write
/// takes it.
pub struct IoRight {
    pub(crate) frame: u32,
    pub(crate) input: bool,
}

impl IoRight {
    ghost use Rattle.std.specs.Prelude.{◌≡◌};

    pub fn frame(&self) -> u32
        ensures { result ≡ self.now.frame }
    {
        self.frame
    }

    /// Whether it is for a read.
    pub fn is_input(&self) -> bool
        ensures { result ≡ self.now.input }
    {
        self.input
    }
}
