// The names that strict mode lets nobody bind, and lists of names.
ghost use Rattle.std.specs.Prelude.{◌≡◌, bytes_eq, codes};
ghost use Rattle.std.specs.List.{list_any};
ghost use Rattle.njs_tree.specs.Names.{is_protected};
ghost use Rattle.njs_tree.specs.Early as early;

use njs_text::Text;

fn eval() -> Text
    ensures { result ≡ codes "eval" }
{
    Text::fixed("eval")
}

fn arguments() -> Text
    ensures { result ≡ codes "arguments" }
{
    Text::fixed("arguments")
}

/// Whether a name is `eval` or `arguments`.
pub fn is_protected(name: &Text) -> bool
    ensures { result ≡ is_protected name.now }
{
    *name == eval() || *name == arguments()
}

/// Whether there is a name, and it is `eval` or `arguments`.
pub fn is_protected_name(name: &Option<Text>) -> bool
    ensures { result ≡ early.is_protected_name name.now }
{
    match name {
        None => false,
        Some(name) => is_protected(name),
    }
}

/// Whether one of the names is `eval` or `arguments`.
pub fn any_protected(names: &[Text]) -> bool
    ensures { result ≡ list_any is_protected names.now }
{
    names.iter().any(|name| is_protected(name))
}

fn is_one_of(name: &Text, names: &[Text]) -> bool
    ensures { result ≡ list_any (bytes_eq name.now) names.now }
{
    names.iter().any(|other| name == other)
}

/// Whether a name stands twice in the list.
pub fn repeats(names: &[Text]) -> bool
    ensures { result ≡ early.repeats names.now }
{
    for (i, name) in names.iter().enumerate() {
        if is_one_of(name, &names[i + 1..]) {
            return true;
        }
    }
    false
}
