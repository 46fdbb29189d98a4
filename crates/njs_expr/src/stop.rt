use njs_text::NoMemory;
use std::alloc::AllocError;

/// Why no tree was read.
#[derive(Clone, Copy, Debug, PartialEq, Eq)]
pub enum ParseStop {
    /// No tree begins at the place. The line is that of the token at which reading stopped.
    Refused(u32),
    NoMemory,
}

impl From<AllocError> for ParseStop {
    ghost use Rattle.std.specs.Prelude.{◌≡◌};
    ghost use Rattle.njs_expr.specs.declared.stop.ParseStop.TheVariants as stop;

    ghost from_gives = { λ _ made. made ≡ stop.NoMemory };

    fn from(_: AllocError) -> ParseStop {
        ParseStop::NoMemory
    }
}

impl From<NoMemory> for ParseStop {
    ghost use Rattle.std.specs.Prelude.{◌≡◌};
    ghost use Rattle.njs_expr.specs.declared.stop.ParseStop.TheVariants as stop;

    ghost from_gives = { λ _ made. made ≡ stop.NoMemory };

    fn from(_: NoMemory) -> ParseStop {
        ParseStop::NoMemory
    }
}
