// How the bytes of a text are kept.
ghost use Rattle.std.specs.Prelude.{◌≡◌};
ghost use Rattle.njs_text.specs.Stored.{stored_bytes};

use arrayvec::ArrayString;

// Bytes in the value itself, which take no memory, or on the heap.
#[derive(Drop)]
pub(crate) enum Stored {
    Short(ArrayString<32>),
    Owned(String),
}

impl Stored {
    pub(crate) fn as_str(&self) -> &str
        ensures value { result.now ≡ stored_bytes self.now }
    {
        match self {
            Stored::Short(text) => text.as_str(),
            Stored::Owned(string) => string.as_str(),
        }
    }
}
