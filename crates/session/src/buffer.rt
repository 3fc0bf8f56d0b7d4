//! A lent buffer that holds a file.
ghost use Rattle.std.specs.Prelude.{◌≡◌};
ghost use Rattle.promise.specs.States.{file};
ghost use Rattle.promise.specs.Histories.{empty_slot};
ghost use Rattle.session.specs.View.{slot_in};

/// A buffer lent for a file: how many of its bytes are the file, and whether the file is open.
// A length and a flag beside the bytes: the buffer is the caller's, nothing is allocated, and a file that is no longer open is still there to be opened.
#[derive(Drop)]
pub struct Buffer<'a> {
    pub bytes: &'a mut [u8],
    pub used: usize,
    pub open: bool,
}

impl<'a> Buffer<'a> {
    /// The buffer without a byte of a file.
    pub fn over(bytes: &'a mut [u8]) -> Buffer<'a>
        ensures { slot_in result ≡ empty_slot bytes.old }
    {
        Buffer {
            bytes,
            used: 0,
            open: false,
        }
    }

    /// Lets the file go.
    pub fn clear(&mut self)
        ensures { slot_in self.new ≡ empty_slot self.old.bytes.now }
    {
        self.used = 0;
        self.open = false;
    }

    /// The file: the first bytes, as many as are used.
    pub fn file(&self) -> &[u8]
        ensures { result.now ≡ file (slot_in self.now) }
    {
        let end = self.used.min(self.bytes.len());
        &self.bytes[..end]
    }
}
