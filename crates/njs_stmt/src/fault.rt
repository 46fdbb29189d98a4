/// Why a text is no script.
#[derive(Clone, Copy, Debug, PartialEq, Eq)]
pub enum ScriptFault {
    /// The text has more than 1,048,576 bytes.
    TooLong,
    /// Brackets nest deeper than 200 in the tokens up to the first that is none. The line is that of the first bracket which opens
    /// the 201st level.
    TooDeep(u32),
    /// The text is spelled by no tree of a depth up to 1,000 (ECMA-262 5.1 §7 to §14). The line is one of the text: that of the token
    /// at which reading stopped, or where no token stands at a place, that on which the token before it ends.
    Syntax(u32),
    /// A growth was refused.
    NoMemory,
}
