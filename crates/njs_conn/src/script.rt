// A script from the bytes of its file.
ghost use Rattle.std.specs.Prelude.{◌≡◌, []};
ghost use Rattle.njs_tree.specs.Accepted.{IsSpelled};
ghost use Rattle.njs_tree.specs.Early.{early};
ghost use Rattle.njs_conn.specs.Scripts as spec;

use crate::form::is_of_form;
use njs_early::check;
use njs_stmt::{ScriptFault, parse};
use njs_text::{Text, TextFault};
use njs_tree::{Checked, EarlyKind, Script};
use std::alloc::Global;

/// Why a script is refused. Lines are counted from 1.
#[derive(Clone, Copy, Debug, PartialEq, Eq)]
pub enum ScriptWhy {
    /// The bytes aren't UTF-8: the length of the longest front that is.
    NotUtf8(usize),
    /// There are more than `MAX_SCRIPT` bytes.
    TooLong,
    /// Brackets nest deeper than 200: the line of the first that opens a level too many.
    TooDeep(u32),
    /// The text is no script (ECMA-262 5.1 §7 to §14): a line of it.
    Syntax(u32),
    /// The script is refused before it runs (ECMA-262 5.1 §16): the line of the node.
    Early(EarlyKind, u32),
    /// The script isn't of the form that runs so far: the line of the first node that isn't of it, or 1.
    NotBuilt(u32),
}

/// Why no script was read.
#[derive(Clone, Copy, Debug, PartialEq, Eq)]
pub enum ScriptStop {
    Refused(ScriptWhy),
    NoMemory,
}

/// How many bytes a script may have.
pub const MAX_SCRIPT: usize = 1_048_576;

fn stop(fault: ScriptFault) -> ScriptStop
    ensures { result ≡ spec.stop_of fault }
{
    match fault {
        ScriptFault::TooLong => ScriptStop::Refused(ScriptWhy::TooLong),
        ScriptFault::TooDeep(line) => ScriptStop::Refused(ScriptWhy::TooDeep(line)),
        ScriptFault::Syntax(line) => ScriptStop::Refused(ScriptWhy::Syntax(line)),
        ScriptFault::NoMemory => ScriptStop::NoMemory,
    }
}

fn built(checked: Checked) -> Result<Checked, ScriptStop>
    requires { early checked ≡ [] }
    ensures { spec.TreeFrom checked result }
{
    match is_of_form(checked.script().items.as_slice()) {
        Ok(()) => Ok(checked),
        Err(line) => Err(ScriptStop::Refused(ScriptWhy::NotBuilt(line))),
    }
}

fn checked(script: Script) -> Result<Checked, ScriptStop>
    requires { IsSpelled script }
    ensures { spec.TreeFrom script result }
{
    match check(script) {
        Ok(checked) => built(checked),
        Err(fault) => Err(ScriptStop::Refused(ScriptWhy::Early(fault.kind, fault.line))),
    }
}

fn script_of(alloc: Global, text: &Text) -> Result<Checked, ScriptStop>
    ensures { spec.TextFrom text.now result }
{
    let _bytes = text.as_bytes();
    match parse(alloc, text) {
        Ok(script) => checked(script),
        Err(fault) => Err(stop(fault)),
    }
}

/// The script that the bytes spell. Bytes that aren't UTF-8 are refused first, then those of which there are too many, those whose
/// brackets nest too deep, those that are no script, scripts that are refused early, and those that aren't of the form that runs.
pub fn script_from(alloc: Global, bytes: &[u8]) -> Result<Checked, ScriptStop>
    ensures { spec.ScriptFrom bytes.now result }
{
    match Text::from_utf8(alloc, bytes) {
        Ok(text) => script_of(alloc, &text),
        Err(TextFault::NotUtf8(place)) => Err(ScriptStop::Refused(ScriptWhy::NotUtf8(place))),
        Err(TextFault::TooLong) => Err(ScriptStop::Refused(ScriptWhy::TooLong)),
        Err(TextFault::NoMemory) => Err(ScriptStop::NoMemory),
    }
}
