// The prototypes of the first heap.
ghost use Rattle.std.specs.Prelude.{◌≡◌, ◌<◌};
ghost use Rattle.njs_meaning.specs.Errors.{place_of, first_count, prototype_of};

use njs_value::Cause;

/// The prototypes that every heap begins with (ECMA-262 5.1 §15), each of which has a fixed place.
#[derive(Clone, Copy, Debug, PartialEq, Eq)]
pub enum Prototype {
    Object,
    Function,
    Array,
    String,
    Number,
    Boolean,
    Error,
    TypeError,
    RangeError,
    ReferenceError,
    SyntaxError,
    UriError,
    SharedMemoryError,
}

impl Prototype {
    /// The number of the object.
    pub fn place(self) -> u32
        ensures place { result ≡ place_of self }
        ensures first { result < first_count }
    {
        match self {
            Prototype::Object => 0,
            Prototype::Function => 1,
            Prototype::Array => 2,
            Prototype::String => 3,
            Prototype::Number => 4,
            Prototype::Boolean => 5,
            Prototype::Error => 6,
            Prototype::TypeError => 7,
            Prototype::RangeError => 8,
            Prototype::ReferenceError => 9,
            Prototype::SyntaxError => 10,
            Prototype::UriError => 11,
            Prototype::SharedMemoryError => 12,
        }
    }
}
