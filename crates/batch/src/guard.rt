ghost use Rattle.std.specs.Prelude.{◌≡◌, length, replicate};

/// A borrowed key area, which holds only zeros when the guard goes.
pub(crate) struct KeyArea<'a> {
    pub(crate) bytes: &'a mut [u8],
}

impl Drop for KeyArea<'_> {
    fn drop(self)
        ensures { self.exit.0.now ≡ replicate (length self.entry.bytes.now) 0 }
    {
        self.bytes.fill(0);
        let KeyArea { bytes: _ } = self;
    }
}
