// The code of one function, written from its end to its beginning.
ghost use Rattle.std.specs.Prelude.{ℕ, List, ◌≡◌, ◌+◌, ◌∷◌, ◌++◌, [], ◌≤◌, length, MatchResult, IfOk};
ghost use Rattle.njs_meaning.specs.declared.place.Place.{Place as SomePlace};
ghost use Rattle.njs_code.specs.declared.op.Kind.{Kind as SomeKind};
ghost use Rattle.njs_simul.specs.Emission as emit;
ghost use Rattle.njs_gen_expr.specs.Written.{Going, IsGoing, Draft, Holds, Refuses, Stands, with_op, most, most_functions, is_going};

use crate::{Fault, Here};
use njs_code::{Address, Kind, Op};
use njs_meaning::Place;
use njs_text::{List, NoMemory, Text};
use std::alloc::Global;
use std::marker::Model;

/// The most operations that a function may have.
pub const MAX_OPS: usize = 16_777_216;

/// What stands in front of a place in the text of a function: the places of the names in use, and the number of the first
/// function behind it.
#[derive(Clone, Copy)]
pub struct Mark<'a> {
    pub places: &'a [Place],
    pub functions: u32,
}

/// The code of one function, written from its end to its beginning. What was refused once stays so, and nothing more is written.
#[derive(Drop)]
pub struct Writer<'a> {
    alloc: Global,
    behind: List<Op>,
    places: &'a [Place],
    functions: u32,
    fault: Option<Fault>,
}

impl<'a> Model for Writer<'a> {
    ghost use Rattle.std.specs.Prelude.{ℕ, reverse, length, ◌≤◌};
    ghost use Rattle.njs_gen_expr.specs.Written.{Progress, progress};

    ghost Value = { Progress };

    ghost view = { λ w. progress w.fault (reverse w.behind) w.places.now w.functions };

    ghost invariant = { λ w. length w.behind ≤ 16777216 };
}

impl<'a> Writer<'a> {
    /// Nothing is written. In front stand names in use at these places, and functions up to this number.
    pub fn new(alloc: Global, places: &'a [Place], functions: u32) -> Writer<'a>
        ensures { result ≡ Going [] places.now functions }
    {
        Writer {
            alloc,
            behind: List::new(alloc),
            places,
            functions,
            fault: None,
        }
    }

    /// Where memory is taken.
    pub fn alloc(&self) -> Global {
        self.alloc
    }

    /// Whether nothing was refused.
    pub fn is_going(&self) -> bool
        ensures { result ≡ is_going self.now }
    {
        self.fault.is_none()
    }

    /// What stands in front of what is written.
    pub fn mark(&self) -> Mark<'a>
        ensures { (d : Draft) → IsGoing self.now → Holds self.now d → (result.places.now ≡ d.places) × (result.functions ≡ d.functions) }
    {
        Mark {
            places: self.places,
            functions: self.functions,
        }
    }

    /// Goes on at another place of the text.
    pub fn go_to(&mut self, mark: Mark<'a>)
        ensures stays { IsGoing self.new → IsGoing self.old }
        ensures moved { (d : Draft) (places : List SomePlace) (functions : ℕ) → (IsGoing self.old → (mark.entry.places.now ≡ places) × (mark.entry.functions ≡ functions)) → Holds self.old d → Holds self.new (record d { places = places; functions = functions }) }
    {
        self.places = mark.places;
        self.functions = mark.functions;
    }

    /// Writes an operation in front of what is written.
    pub fn write(&mut self, kind: Kind, here: Here)
        ensures stays { IsGoing self.new → IsGoing self.old }
        ensures written { (k : SomeKind) (at : emit.Here) (d : Draft) → (IsGoing self.old → kind ≡ k) → Stands here at → Holds self.old d → Holds self.new (with_op (record { kind = k; depth = at.depth; around = at.around }) d) }
    {
        if self.fault.is_some() {
            return;
        }
        if self.behind.len() >= MAX_OPS {
            self.fault = Some(Fault::TooLong);
            return;
        }
        let Some(depth) = here.depth else {
            self.fault = Some(Fault::NoMemory);
            return;
        };
        let op = Op {
            kind,
            depth,
            around: here.around,
        };
        if self.behind.push(op).is_err() {
            self.fault = Some(Fault::NoMemory);
        }
    }

    /// Refuses all that is written from now on, for want of memory.
    pub fn refuse(&mut self)
        ensures ended { IsGoing self.new → ⊥ }
        ensures holds { (d : Draft) → Holds self.old d → Holds self.new d }
    {
        if self.fault.is_none() {
            self.fault = Some(Fault::NoMemory);
        }
    }

    /// Where what is written begins.
    pub fn address(&self) -> Address
        ensures { (d : Draft) → IsGoing self.now → Holds self.now d → result ≡ emit.address d.ops }
    {
        Address(self.behind.len() as u32)
    }

    /// The number of the first function behind.
    pub fn functions(&self) -> u32
        ensures { (d : Draft) → IsGoing self.now → Holds self.now d → result ≡ d.functions }
    {
        self.functions
    }

    /// The place of the name in front, with so many names in use between it and what is written.
    pub fn place(&self, between: usize) -> Place
        ensures { (d : Draft) (front tail : List SomePlace) (place : SomePlace) → IsGoing self.now → Holds self.now d → d.places ≡ front ++ (place ∷ tail) → between ≡ most (length tail) → result ≡ place }
    {
        let len = self.places.len();
        if between < len {
            self.places[len - 1 - between]
        } else {
            Place::Nowhere
        }
    }

    /// Goes on in front of so many names in use and functions, for which nothing is written.
    pub fn pass(&mut self, uses: usize, functions: u32)
        ensures stays { IsGoing self.new → IsGoing self.old }
        ensures passed { (d : Draft) (front tail : List SomePlace) (first size : ℕ) → d.places ≡ front ++ tail → d.functions ≡ first + size → uses ≡ most (length tail) → functions ≡ most_functions size → Holds self.old d → Holds self.new (record d { places = front; functions = first }) }
    {
        let left = self.places.len().saturating_sub(uses);
        self.places = &self.places[..left];
        self.functions = self.functions.saturating_sub(functions);
    }

    /// The same text, or what is written is refused.
    pub fn copy(&mut self, text: &Text) -> Text
        ensures stays { IsGoing self.new → IsGoing self.old }
        ensures copied { IsGoing self.new → result ≡ text.now }
        ensures holds { (d : Draft) → Holds self.old d → Holds self.new d }
    {
        match text.copy(self.alloc) {
            Ok(copy) => copy,
            Err(NoMemory) => {
                self.refuse();
                Text::fixed("")
            }
        }
    }

    /// The operations in the order in which they stand, at most 16,777,216.
    pub fn finish(self) -> Result<List<Op>, Fault>
        ensures written { (d : Draft) → Holds self.entry d → MatchResult result (λ list. list ≡ d.ops) (λ fault. Refuses fault d) }
        ensures few { IfOk result (λ list. length list ≤ 16777216) }
    {
        let Writer { behind, fault, .. } = self;
        if let Some(fault) = fault {
            return Err(fault);
        }
        let mut ops = behind.into_vec();
        ops.reverse();
        Ok(List::from_vec(ops))
    }
}
