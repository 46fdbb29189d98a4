// What keeps the record of a request while its handler runs.
ghost use Rattle.std.specs.Prelude.{◌≡◌};
ghost use Rattle.std.specs.Borrow.{Lends, sem};
ghost use Rattle.njs_meaning.specs.State.{Response};
ghost use Rattle.njs_request.specs.contracts.record.Record.{the_row};

use crate::Record;

/// A host that keeps the record of a request, and lends it.
pub trait HasRecord {
    /// What is answered so far.
    ghost response_of: { Self → Response };

    /// The host with another record; the rest of it is as before.
    ghost with_response: { Self → Response → Self };

    /// Lends the record. It takes no memory.
    fn kept(&mut self) -> &mut Record
        ensures* lends { sem 𝓛 (Lends Self.row the_row self.entry result (with_response self.old)) }
        ensures value { result.now ≡ response_of self.old };

    ghost response_with: { (h : Self) (r : Response) → response_of (with_response h r) ≡ r };

    ghost with_own: { (h : Self) → with_response h (response_of h) ≡ h };
}
