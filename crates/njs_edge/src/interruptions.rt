// The loops over interruptions, and where they end.
ghost use Rattle.std.specs.Prelude.{◌≡◌, ◌<◌, ◌+◌, ◌↔◌, IsTrue};
ghost use Rattle.std.specs.IoError.{error_kind};

use std::io;
use std::io::ErrorKind;

/// How many interruptions within one call are a failure.
const MAX_INTERRUPTIONS: u32 = 1000;

/// The interruptions and dropped connections that are left to one call; the last of them is a failure.
#[derive(Drop)]
pub struct Interruptions {
    left: u32,
}

impl Interruptions {
    /// Those of a call that begins.
    pub fn new() -> Interruptions
        ensures { result.left ≡ MAX_INTERRUPTIONS }
    {
        Interruptions {
            left: MAX_INTERRUPTIONS,
        }
    }

    /// Whether to try again after this error.
    pub fn allow(&mut self, error: &io::Error) -> bool
        ensures allowed { IsTrue result ↔ ((error_kind error.now ≡ ErrorKind.Interrupted) × (1 < self.old.left)) }
        ensures fewer { IsTrue result → self.new.left + 1 ≡ self.old.left }
    {
        if error.kind() == ErrorKind::Interrupted && self.left > 1 {
            self.left -= 1;
            return true;
        }
        false
    }

    /// Whether to try again after a connection that was dropped.
    pub fn allow_dropped(&mut self) -> bool
        ensures allowed { IsTrue result ↔ 1 < self.old.left }
        ensures fewer { IsTrue result → self.new.left + 1 ≡ self.old.left }
    {
        if self.left > 1 {
            self.left -= 1;
            return true;
        }
        false
    }
}
