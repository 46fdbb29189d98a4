// What is known of the names of a script before it runs.
ghost use Rattle.std.specs.Prelude.{◌≡◌, ◌<◌, ◌^◌, length, slice_get, Some, IfOk};

use njs_meaning::Place;
use njs_text::{List, NoMemory, Text};
use std::marker::Model;

/// The names of each scope of a script in order of its slots, each with whether it can be assigned, and the places of the names
/// that it uses, in order of the text (ECMA-262 5.1 §10.2, §10.5). It is seen as `Planned`.
///
/// Scopes are numbered as they begin in the text, of two that begin together the outer first: the outermost has the number 0,
/// the module's 1.
#[derive(Drop)]
pub struct Plan {
    scopes: List<List<(Text, bool)>>,
    places: List<Place>,
}

impl Model for Plan {
    ghost use Rattle.std.specs.Prelude.{◌<◌, ◌^◌, length};
    ghost use Rattle.njs_scope.specs.Planned.{Planned};

    ghost Value = { Planned };

    ghost view = { λ p. record { scopes = p.scopes; places = p.places } };

    ghost invariant = { λ p. (length p.scopes < 2 ^ 32) × (length p.places < 2 ^ 32) };
}

impl Plan {
    /// What was found, where it can be counted.
    pub fn new(scopes: List<List<(Text, bool)>>, places: List<Place>) -> Result<Plan, NoMemory>
        ensures { IfOk result (λ p. p ≡ record { scopes = scopes; places = places }) }
    {
        if scopes.len() > u32::MAX as usize || places.len() > u32::MAX as usize {
            return Err(NoMemory);
        }
        Ok(Plan { scopes, places })
    }

    /// The names of a scope. It takes no memory.
    pub fn names(&self, scope: u32) -> &[(Text, bool)]
        requires { scope < length self.now.scopes }
        ensures { slice_get self.now.scopes scope ≡ Some result.now }
    {
        self.scopes.as_slice()[scope as usize].as_slice()
    }

    /// The names of each scope.
    pub fn scopes(&self) -> &[List<(Text, bool)>]
        ensures { result.now ≡ self.now.scopes }
    {
        self.scopes.as_slice()
    }

    /// How many scopes there are.
    pub fn scope_count(&self) -> u32
        ensures count { result ≡ length self.now.scopes }
    {
        self.scopes.len() as u32
    }

    /// The place of a name in use, by how many names in use stand before it. It takes no memory.
    pub fn place(&self, number: u32) -> Place
        requires { number < length self.now.places }
        ensures { slice_get self.now.places number ≡ Some result }
    {
        self.places.as_slice()[number as usize]
    }

    /// The places of the names in use, in order of the text.
    pub fn places(&self) -> &[Place]
        ensures places { result.now ≡ self.now.places }
        ensures few { length self.now.places < 2 ^ 32 }
    {
        self.places.as_slice()
    }
}
