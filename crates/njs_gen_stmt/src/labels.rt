// The labels before a loop (ECMA-262 5.1 §12.12).
ghost use Rattle.std.specs.Prelude.{◌≡◌, ◌∷◌};
ghost use Rattle.njs_gen_expr.specs.Written.{IsGoing, Draft, Holds};

use njs_gen_expr::Writer;
use njs_text::{List, Text};

/// With one more label, which stands before the others.
pub fn with_label(w: &mut Writer<'_>, label: &Text, labels: List<Text>) -> List<Text>
    ensures stays { IsGoing w.new → IsGoing w.old }
    ensures holds { (d : Draft) → Holds w.old d → Holds w.new d }
    ensures given { IsGoing w.new → result ≡ label.now ∷ labels }
{
    let first = w.copy(label);
    let mut all = labels.into_vec();
    if all.insert(0, first).is_err() {
        w.refuse();
    }
    List::from_vec(all)
}
