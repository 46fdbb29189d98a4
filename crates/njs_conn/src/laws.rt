// What accepted scripts answer.
ghost use Rattle.std.specs.Prelude.{◌≡◌, Ok};
ghost use Rattle.njs_conn.specs.FirstForm.{form_of};
ghost use Rattle.njs_conn.specs.Handled.{Answers};

use njs_tree::Script;

/// An accepted script has one handler, of its function's name, which answers each request with the status 200 and the script's
/// string (njs reference, `r.return`). So each node that it reaches has a meaning.
pub fn accepted_scripts_answer()
    ensures { (script : Script) → form_of script.items ≡ Ok tt → Answers script }
{}
