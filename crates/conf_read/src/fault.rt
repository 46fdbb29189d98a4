// Why a configuration is refused.
use njs_text::NoMemory;
use std::alloc::AllocError;

/// Why a configuration is refused. A number is a line of the file, counted from 1: that of the first word of the directive
/// at fault, and for `Syntax` that of the first token that doesn't fit.
#[derive(Clone, Copy, Debug, PartialEq, Eq)]
pub enum ConfFault {
    /// The file has more than 1,048,576 bytes.
    TooLong,
    /// The bytes aren't UTF-8, or not the text of directives.
    Syntax(u32),
    /// There is no such directive.
    Unknown(u32),
    /// The directive doesn't belong into this block.
    Place(u32),
    /// The directive has too many or too few words, a block where none belongs or none where one belongs, or is one more
    /// than there may be.
    Count(u32),
    /// The directive can't have this value.
    Value(u32),
    /// The directive stands there already.
    Duplicate(u32),
    /// There is no `http`, no `server`, no `location`, or a location has no `js_content`.
    Missing,
    /// A growth was refused.
    NoMemory,
}

impl From<NoMemory> for ConfFault {
    ghost use Rattle.std.specs.Prelude.{◌≡◌};
    ghost use Rattle.conf_read.specs.declared.fault.ConfFault.TheVariants as fault;

    ghost from_gives = { λ _ made. made ≡ fault.NoMemory };

    fn from(_: NoMemory) -> Self {
        ConfFault::NoMemory
    }
}

impl From<AllocError> for ConfFault {
    ghost use Rattle.std.specs.Prelude.{◌≡◌};
    ghost use Rattle.conf_read.specs.declared.fault.ConfFault.TheVariants as fault;

    ghost from_gives = { λ _ made. made ≡ fault.NoMemory };

    fn from(_: AllocError) -> Self {
        ConfFault::NoMemory
    }
}
