// Names of members, which are operands.
ghost use Rattle.std.specs.Prelude.{◌≡◌, ◌<◌, [], length, IfOk};
ghost use Rattle.njs_shared.specs.Heap.{sizes};
ghost use Rattle.njs_shared.specs.Fits.{FitsValue};
ghost use Rattle.njs_clone.specs.Content.{content};
ghost use Rattle.njs_members.specs.Starts.{text_at};
ghost use Rattle.njs_members.specs.Gains.{GainsTexts};
ghost use Rattle.njs_simul.specs.Step.{name_in};

use njs_clone::Machine;
use njs_text::{NoMemory, Text};
use njs_value::{TextId, Value};

fn empty_text() -> Text
    ensures { result ≡ [] }
{
    Text::fixed("")
}

// The empty text as a new one.
fn add_empty(machine: &mut Machine<'_>) -> Result<TextId, NoMemory>
    ensures name { IfOk result (λ name. text_at machine.new.texts name ≡ []) }
    ensures fits { IfOk result (λ name. name.0 < length machine.new.texts) }
    ensures texts { GainsTexts machine.old machine.new }
{
    let _sizes = machine.sizes();
    let id = machine.add_text(empty_text())?;
    Ok(id)
}

// The text that an operand is, as the name of a member. Any other value counts as the empty name.
pub(crate) fn name_of(machine: &mut Machine<'_>, value: Value) -> Result<TextId, NoMemory>
    requires { FitsValue (sizes machine.old) value }
    ensures name { IfOk result (λ name. text_at machine.new.texts name ≡ name_in (content machine.old.texts value)) }
    ensures fits { IfOk result (λ name. name.0 < length machine.new.texts) }
    ensures texts { GainsTexts machine.old machine.new }
{
    match value {
        Value::Str(name) => Ok(name),
        Value::Undefined | Value::Null | Value::Bool(_) | Value::Num(_) | Value::Obj(_) => {
            add_empty(machine)
        }
    }
}
