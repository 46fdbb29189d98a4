// How a property of one object is read.
ghost use Rattle.std.specs.Prelude.{◌≡◌};
ghost use Rattle.std.specs.Option.{option_map};
ghost use Rattle.std.specs.Str.{bytes_eq, chars};
ghost use Rattle.njs_props.specs.Names.{same_name};
ghost use Rattle.njs_props.specs.Props.{property, property_lent};
ghost use Rattle.njs_meaning.specs.Chains.{own_read, small_letters};

use njs_props::PropMap;
use njs_shared::Object;
use njs_text::Text;
use njs_value::{Class, Flags, Value};

// The property that a name reads of an object itself. Names of header fields are in small letters.
pub(crate) fn read_own<'a>(object: &'a Object, name: &Text) -> Option<(&'a Value, Flags)>
    ensures { option_map property_lent result ≡ own_read name.now object.now }
{
    if object.class == Class::HeadersIn {
        read_header(&object.props, name)
    } else {
        object.props.get(name)
    }
}

fn read_header<'a>(props: &'a PropMap<Value>, name: &Text) -> Option<(&'a Value, Flags)>
    ensures { option_map property_lent result ≡ property (small_letters name.now) props.now }
{
    for place in 0..props.len() {
        let (stored, value, flags) = props.at(place).unwrap();
        if is_small_form(name, stored) {
            return Some((value, flags));
        }
    }
    None
}

// Whether a stored name is a name with its capital letters made small.
fn is_small_form(name: &Text, stored: &Text) -> bool
    ensures { result ≡ same_name (small_letters name.now) stored.now }
{
    are_small_chars(name.as_str(), stored.as_str())
}

fn are_small_chars(name: &str, stored: &str) -> bool
    ensures { result ≡ bytes_eq (small_letters (chars name.now)) (chars stored.now) }
{
    name.chars()
        .map(|c| c.to_ascii_lowercase())
        .cmp(stored.chars())
        .is_eq()
}
