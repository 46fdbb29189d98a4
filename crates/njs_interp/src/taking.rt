// How the operations that end a part of the code take up endings (ECMA-262 5.1 §8.9, §12.6 to §12.14).
ghost use Rattle.std.specs.Prelude.{◌≡◌};
ghost use Rattle.std.specs.List.{list_any};
ghost use Rattle.njs_props.specs.Names.{same_name};
ghost use Rattle.njs_shared.specs.Heap.{Sizes};
ghost use Rattle.njs_code.specs.declared.op.Kind.TheVariants as kind;
ghost use Rattle.njs_meaning.specs.Completions.{is_one_of};
ghost use Rattle.njs_interp.specs.Sits.{FitsEnding};
ghost use Rattle.njs_interp.specs.Leading.{Takes, GoesBy, FitsTaking};

use crate::Ending;
use njs_code::{Address, Kind};
use njs_text::{List, Text};
use njs_value::Value;

/// How an operation that ends a part of the code takes up an ending.
#[derive(Clone, Copy)]
pub(crate) enum Taking {
    /// It goes on at an address.
    Past(Address),
    /// It goes on behind the operation.
    Behind,
    /// It goes on behind it with what was thrown.
    Catches(Value),
    /// It goes on behind it, and the ending waits.
    Waits,
}

fn is_among(name: &Text, names: &[Text]) -> bool
    ensures { result ≡ list_any (same_name name.now) names.now }
{
    names.iter().any(|other| name == other)
}

/// Whether a `break` or `continue` with this label means a loop with these labels (ECMA-262 5.1 §12.7, §12.8).
fn is_one_of(label: &Option<Text>, labels: &List<Text>) -> bool
    ensures { result ≡ is_one_of label.now labels.now }
{
    match label {
        None => true,
        Some(label) => is_among(label, labels.as_slice()),
    }
}

// At the end of a loop's body.
fn at_body<'a>(labels: &List<Text>, past: Address, ending: Ending<'a>) -> Option<Taking>
    ensures takes { Takes (kind.EndBody labels.now past) ending.entry result }
    ensures goes { GoesBy (kind.EndBody labels.now past) result }
    ensures fits { (n : Sizes) → FitsEnding n ending.entry → FitsTaking n result }
{
    match ending {
        Ending::Broken(label) => {
            if is_one_of(label, labels) {
                Some(Taking::Past(past))
            } else {
                None
            }
        }
        Ending::Continued(label) => {
            if is_one_of(label, labels) {
                Some(Taking::Behind)
            } else {
                None
            }
        }
        _ => None,
    }
}

// At the end of a `switch`.
fn at_switch<'a>(ending: Ending<'a>) -> Option<Taking>
    ensures takes { Takes kind.EndSwitch ending.entry result }
    ensures goes { GoesBy kind.EndSwitch result }
    ensures fits { (n : Sizes) → FitsEnding n ending.entry → FitsTaking n result }
{
    match ending {
        Ending::Broken(None) => Some(Taking::Behind),
        _ => None,
    }
}

// At the end of a block with a `catch`.
fn at_block<'a>(ending: Ending<'a>) -> Option<Taking>
    ensures takes { Takes kind.EndBlock ending.entry result }
    ensures goes { GoesBy kind.EndBlock result }
    ensures fits { (n : Sizes) → FitsEnding n ending.entry → FitsTaking n result }
{
    match ending {
        Ending::Thrown(v) => Some(Taking::Catches(v)),
        _ => None,
    }
}

/// How an operation takes up an ending that comes to it, if it does.
pub(crate) fn taken_up<'a>(kind: &Kind, ending: Ending<'a>) -> Option<Taking>
    ensures takes { Takes kind.now ending.entry result }
    ensures goes { GoesBy kind.now result }
    ensures fits { (n : Sizes) → FitsEnding n ending.entry → FitsTaking n result }
{
    match kind {
        Kind::EndBody { labels, past } => at_body(labels, *past, ending),
        Kind::EndSwitch => at_switch(ending),
        Kind::EndBlock => at_block(ending),
        Kind::Finally => Some(Taking::Waits),
        _ => None,
    }
}
