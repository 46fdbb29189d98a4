// Addresses in front of what is not written yet.
ghost use Rattle.std.specs.Prelude.{◌≡◌, ℕ, ◌+◌};
ghost use Rattle.njs_simul.specs.EmissionOfStatements.{head_of};
ghost use Rattle.njs_gen_expr.specs.Written.{IsGoing, Draft, Holds};
ghost use Rattle.njs_gen_stmt.specs.Sized.{counted};

use crate::size::TOO_MANY;
use njs_code::Address;
use njs_gen_expr::Writer;

/// So many operations further on in front. More than a function may have are refused.
pub fn in_front(w: &mut Writer<'_>, behind: Address, size: u32) -> Address
    ensures stays { IsGoing w.new → IsGoing w.old }
    ensures holds { (d : Draft) → Holds w.old d → Holds w.new d }
    ensures given { (n : ℕ) → size ≡ counted n → IsGoing w.new → result ≡ record { 0 = n + behind.0 } }
{
    match behind.0.checked_add(size) {
        Some(sum) if size < TOO_MANY => Address(sum),
        _ => {
            w.refuse();
            behind
        }
    }
}

/// The address of the head of a loop, from the end of what is written: so many operations stand between it and the jump back.
pub fn head(w: &mut Writer<'_>, size: u32) -> Address
    ensures stays { IsGoing w.new → IsGoing w.old }
    ensures holds { (d : Draft) → Holds w.old d → Holds w.new d }
    ensures given { (d : Draft) (n : ℕ) → size ≡ counted n → IsGoing w.new → Holds w.old d → result ≡ head_of n d.ops }
{
    let end = w.address();
    let back = in_front(w, end, size);
    in_front(w, back, 2)
}
