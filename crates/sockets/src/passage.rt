//! How far a stream of bytes is into a frame.
ghost use Rattle.std.specs.Prelude.{◌≡◌, ◌<◌, length};
ghost use Rattle.sockets.specs.Passage.{ends_in, is_between, passed, passed_all, PassesSome};

/// How far a stream of bytes is into a frame. Bytes that are no frame, for example too great a length, are for the
/// reader to find.
#[derive(Clone, Copy)]
pub(crate) struct Passage {
    /// How many bytes of a length came so far, from 0 to 3.
    came: u32,
    /// The number that these bytes write, highest byte first.
    len: u32,
    /// How many bytes are still to come after a length: one for the kind, and those of the body.
    left: u32,
}

impl Passage {
    /// Returns the passage of a stream that begins.
    pub(crate) fn new() -> Passage
        ensures new { result ≡ record { came = 0; len = 0; left = 0 } }
    {
        Passage {
            came: 0,
            len: 0,
            left: 0,
        }
    }

    /// Returns whether the next byte begins a frame.
    pub(crate) fn is_between(&self) -> bool
        ensures between { result ≡ is_between self.now }
    {
        self.came == 0 && self.left == 0
    }

    /// Takes in the next byte.
    fn pass(&mut self, byte: u8)
        ensures passed { self.new ≡ passed self.old byte }
    {
        if self.left > 0 {
            self.left -= 1;
            return;
        }
        self.len = self.len.saturating_mul(256).saturating_add(u32::from(byte));
        self.came = self.came.saturating_add(1);
        if self.came >= 4 {
            self.left = self.len.saturating_add(1);
            self.came = 0;
            self.len = 0;
        }
    }

    /// Takes in the first of `bytes`, or as many as are still to come after a length, and returns those that are left.
    fn pass_some<'a>(&mut self, bytes: &'a [u8]) -> &'a [u8]
        requires some { 0 < length bytes.now }
        ensures passes { PassesSome self.old bytes.now self.new result.now }
    {
        let count = (self.left as usize).min(bytes.len());
        if count == 0 {
            self.pass(bytes[0]);
            let (_, left) = bytes.split_at(1);
            return left;
        }
        self.left -= count as u32;
        let (_, left) = bytes.split_at(count);
        left
    }

    /// Takes in the next bytes, and returns whether a frame ends in them.
    pub(crate) fn pass_all(&mut self, bytes: &[u8]) -> bool
        ensures passed { self.new ≡ passed_all self.old bytes.now }
        ensures ended { result ≡ ends_in self.old bytes.now }
    {
        let mut ended = false;
        let mut left = bytes;
        while !left.is_empty() {
            left = self.pass_some(left);
            ended = ended || self.is_between();
        }
        ended
    }
}
