// Callers under which code runs.
ghost use Rattle.std.specs.Prelude.{◌≡◌, ◌≤◌, ℕ};
ghost use Rattle.njs_shared.specs.Heap.{Heap};
ghost use Rattle.njs_shared.specs.Fits.{FitsHeap};
ghost use Rattle.njs_meaning.specs.State.{State};
ghost use Rattle.njs_meaning.specs.Replies.{Known};
ghost use Rattle.njs_meaning.specs.Running.{Calls};
ghost use Rattle.njs_convert.specs.FirstHeap.{StandsFor};
ghost use Rattle.njs_simul.specs.Fits.{Good, CallsFare};
ghost use Rattle.njs_interp.specs.Plain.{heap_of};
ghost use Rattle.njs_interp.specs.Acts.{SameBeside};
ghost use Rattle.njs_interp.specs.Grown.{Widens, Grown, FunctionsFit};

use njs_convert::Caller;
use std::sync::ledger::Ledger;

/// A caller under which code runs: its states are those whose objects and scopes are the machine's, and whose functions stand
/// in scopes with the names that are known.
pub trait Runner<L: Ledger>: Caller<L> {
    /// The states that a heap stands for, wherever the functions in them stand.
    ghost holds: { Self → Known → Heap → State → Type 0 };

    ghost holds_of: { (c : Self) (k : Known) (h : Heap) (s : State) → Self.stands c k h s → holds c k h s };

    ghost stands_of: { (c : Self) (k : Known) (h : Heap) (s : State) → holds c k h s → Good k.around s → Self.stands c k h s };

    ghost good_is: { (c : Self) (k : Known) (h : Heap) (s : State) → Self.stands c k h s → Good k.around s };

    ghost heap_is: { (c : Self) (k : Known) (h : Heap) (s : State) → holds c k h s → StandsFor h (heap_of s) };

    ghost holds_by: { (c : Self) (k : Known) (h h' : Heap) (s t : State) → Self.stands c k h s → StandsFor h' (heap_of t) → FitsHeap h' → SameBeside s t → holds c k h' t };

    ghost fares: { (c : Self) (k : Known) (calls : Calls) → Self.follows c k calls → CallsFare k.around calls };

    ghost fits_grown: { (c : Self) (h h' : Heap) → Self.fits c h → Widens h h' → FunctionsFit (Self.lent c).counts h h' → Self.fits c h' };

    ghost adds_more: { (c : Self) (n k : ℕ) → n ≤ k → Self.adds c n c k };
}
