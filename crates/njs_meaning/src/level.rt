// What notes and conversions are asked for.

/// How grave a note is.
#[derive(Clone, Copy, Debug, PartialEq, Eq)]
pub enum Level {
    Info,
    Warn,
    Err,
}

/// The kind of value that a conversion would like (ECMA-262 5.1 §8.12.8).
#[derive(Clone, Copy, Debug, PartialEq, Eq)]
pub enum Hint {
    Any,
    Number,
    Text,
}
