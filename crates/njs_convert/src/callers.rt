// Two callers, by which every conversion is tried: the calls of one throw null, and those of the other change the heap.
ghost use Rattle.std.specs.Prelude.{◌≡◌, ◌==◌, [], List, ℕ, map, refl, OnOk, OnErr, None};
ghost use Rattle.std.proofs.Common.{◌∙◌};
ghost use Rattle.njs_shared.specs.Heap.{Sizes};
ghost use Rattle.njs_shared.specs.Fits.{FitsValue};
ghost use Rattle.njs_clone.specs.Content.{content};
ghost use Rattle.njs_clone.specs.StandsFor.{plain_objects};
ghost use Rattle.njs_meaning.specs.Primitives.{Null, Undefined};
ghost use Rattle.njs_meaning.specs.Values.{PlainValue, Simple};
ghost use Rattle.njs_meaning.specs.State.{State, Throws};
ghost use Rattle.njs_convert.specs.Answering.{answer, chosen, answering, OneEach, none_added, added_on};

use crate::{Caller, HostCaller, Level, Stop};
use njs_clone::{Machine, operations_go_by_content};
use njs_shared::Inner;
use njs_text::{List, NoMemory, Steps, Text};
use njs_value::{Class, Value};
use std::alloc::Global;
use std::sync::ledger::Ledger;

/// Each call throws null and takes nothing.
#[derive(Drop)]
pub struct Throwing {
    pub left: u64,
}

impl<L: Ledger> Caller<L> for Throwing {
    ghost stands = { λ c k h s. (s.objects ≡ plain_objects h) × (s.ticks ≡ c.left) × (s.log ≡ []) };

    ghost follows = { λ c k calls. ((f this : PlainValue) (args : List PlainValue) (s : State) → calls.call f this args s ≡ Throws (Simple Null) s) × ((f : PlainValue) (args : List PlainValue) (s : State) → calls.construct f args s ≡ Throws (Simple Null) s) };

    ghost agrees = { λ c k. Unit {0} };

    ghost stopped = { λ c k s. Unit {0} };

    ghost log = { λ c. [] };

    ghost ticks_of = { λ c. c.left };

    ghost may_call = { λ c. Unit {0} };

    ghost fits = { λ c h. Unit {0} };

    ghost lent = { λ c. record { names = []; counts = λ unit number. None } };

    ghost adds = { λ c n d k. OneEach n c.left k d.left };

    ghost charged = { λ c d. Unit {0} };

    ghost noted = { λ c d. Unit {0} };

    fn call(
        &mut self,
        _alloc: Global,
        _machine: &mut Machine<'_>,
        _callee: Value,
        _this: Value,
        _args: &[Value],
        _steps: &mut Steps<L>,
    ) -> Result<Value, Stop> {
        Err(Stop::Throw(Value::Null))
    }

    fn construct(
        &mut self,
        _alloc: Global,
        _machine: &mut Machine<'_>,
        _callee: Value,
        _args: &[Value],
        _steps: &mut Steps<L>,
    ) -> Result<Value, Stop> {
        Err(Stop::Throw(Value::Null))
    }

    fn charge(&mut self, ticks: u64) -> Result<(), Stop> {
        if self.left < ticks {
            return Err(Stop::Fuel);
        }
        self.left -= ticks;
        Ok(())
    }

    fn note(&mut self, _alloc: Global, _level: Level, _text: &Text) -> Result<(), Stop> {
        Err(Stop::NoMemory)
    }

    ghost objects_are = { λ c k h s stands. stands.0 };

    ghost ticks_are = { λ c k h s stands. stands.1 };

    ghost log_is = { λ c k h s stands. stands.2 };

    ghost stands_on = { λ c k h l s stands extends. (refl, stands.1, stands.2) };

    ghost stops = { λ c k h s stands. tt };

    ghost stopped_as = { λ c k s t zones asked stopped. tt };

    ghost stopped_calls = { λ c k calls follows f this args s stopped. tt };

    ghost stopped_new = { λ c k calls follows f args s stopped. tt };

    ghost fits_on = { λ c h l fits extends. tt };

    ghost adds_none = { λ c n. none_added n c.left };

    ghost adds_on = { λ c d e n k m first second. added_on n c.left k d.left m e.left first second };

    ghost adds_up = { λ c d n k adds. adds.up };
}

/// An entry of the log.
#[derive(Drop)]
pub struct Note {
    pub level: Level,
    pub text: Text,
}

/// A small host: how many calls were made, and the log.
#[derive(Drop)]
pub struct Tally {
    pub calls: u64,
    pub notes: List<Note>,
}

/// Each call takes a tick, makes an array and is counted by the host. The function with the number `at` gives the first
/// answer, and any other the second: a number, or else the receiver.
#[derive(Drop)]
pub struct Answering {
    pub left: u64,
    pub at: u32,
    pub first: Option<i32>,
    pub second: Option<i32>,
    pub host: Tally,
}

// A number, or else the receiver.
fn answer(chosen: Option<i32>, this: Value) -> Value
    ensures answer { (texts : List (List ℕ)) → content texts result ≡ answer chosen (content texts this) }
    ensures fits { (n : Sizes) → FitsValue n this → FitsValue n result }
{
    match chosen {
        Some(number) => Value::Num(i64::from(number)),
        None => this,
    }
}

impl Answering {
    fn is_spent(&self) -> bool
        ensures { result ≡ (self.now.left == 0) }
    {
        self.left == 0
    }

    // The answer of a function.
    fn chosen(&self, callee: Value) -> Option<i32>
        ensures { (texts : List (List ℕ)) → result ≡ chosen self.now.at self.now.first self.now.second (content texts callee) }
    {
        match callee {
            Value::Obj(function) if function.0 == self.at => self.first,
            _ => self.second,
        }
    }
}

impl<L: Ledger> Caller<L> for Answering {
    ghost stands = { λ c k h s. (s.objects ≡ plain_objects h) × (s.ticks ≡ c.left) × (s.log ≡ map (λ n. record { level = n.level; text = n.text }) c.host.notes) };

    ghost follows = { λ c k calls. ((f this : PlainValue) (args : List PlainValue) (s : State) → calls.call f this args s ≡ answering c.at c.first c.second f this args s) × ((f : PlainValue) (args : List PlainValue) (s : State) → calls.construct f args s ≡ answering c.at c.first c.second f (Simple Undefined) args s) };

    ghost agrees = { λ c k. Unit {0} };

    ghost stopped = { λ c k s. Unit {0} };

    ghost log = { λ c. map (λ n. record { level = n.level; text = n.text }) c.host.notes };

    ghost ticks_of = { λ c. c.left };

    ghost may_call = { λ c. Unit {0} };

    ghost fits = { λ c h. Unit {0} };

    ghost lent = { λ c. record { names = []; counts = λ unit number. None } };

    ghost adds = { λ c n d k. OneEach n c.left k d.left };

    ghost charged = { λ c d. d.host ≡ c.host };

    ghost noted = { λ c d. d.host.calls ≡ c.host.calls };

    fn call(
        &mut self,
        alloc: Global,
        machine: &mut Machine<'_>,
        callee: Value,
        this: Value,
        _args: &[Value],
        steps: &mut Steps<L>,
    ) -> Result<Value, Stop> {
        operations_go_by_content();
        if self.is_spent() {
            return Err(Stop::Fuel);
        }
        let Ok(_) = machine.new_object(alloc, Class::Array, None, Inner::Plain, steps) else {
            return Err(Stop::NoMemory);
        };
        self.left -= 1;
        self.host.calls = self.host.calls.saturating_add(1);
        Ok(answer(self.chosen(callee), this))
    }

    fn construct(
        &mut self,
        alloc: Global,
        machine: &mut Machine<'_>,
        callee: Value,
        args: &[Value],
        steps: &mut Steps<L>,
    ) -> Result<Value, Stop> {
        self.call(alloc, machine, callee, Value::Undefined, args, steps)
    }

    fn charge(&mut self, ticks: u64) -> Result<(), Stop> {
        if self.left < ticks {
            return Err(Stop::Fuel);
        }
        self.left -= ticks;
        Ok(())
    }

    fn note(&mut self, alloc: Global, level: Level, text: &Text) -> Result<(), Stop> {
        let Ok(text) = text.copy(alloc) else {
            return Err(Stop::NoMemory);
        };
        match self.host.notes.push(Note { level, text }) {
            Ok(()) => Ok(()),
            Err(_) => Err(Stop::NoMemory),
        }
    }

    ghost objects_are = { λ c k h s stands. stands.0 };

    ghost ticks_are = { λ c k h s stands. stands.1 };

    ghost log_is = { λ c k h s stands. stands.2 };

    ghost stands_on = { λ c k h l s stands extends. (refl, stands.1, stands.2) };

    ghost stops = { λ c k h s stands. tt };

    ghost stopped_as = { λ c k s t zones asked stopped. tt };

    ghost stopped_calls = { λ c k calls follows f this args s stopped. tt };

    ghost stopped_new = { λ c k calls follows f args s stopped. tt };

    ghost fits_on = { λ c h l fits extends. tt };

    ghost adds_none = { λ c n. none_added n c.left };

    ghost adds_on = { λ c d e n k m first second. added_on n c.left k d.left m e.left first second };

    ghost adds_up = { λ c d n k adds. adds.up };
}

impl<L: Ledger> HostCaller<Tally, L> for Answering {
    ghost host_of = { λ c. c.host };

    ghost with_host = { λ c h. record c { host = h } };

    ghost keeps = { λ h k s. s.log ≡ map (λ n. record { level = n.level; text = n.text }) h.notes };

    ghost agreed = { λ h k. Unit {0} };

    ghost halted = { λ h k s. Unit {0} };

    ghost same_zones = { λ h k. Unit {0} };

    ghost notes = { λ h k. k.calls ≡ h.calls };

    fn host(&mut self) -> &mut Tally {
        &mut self.host
    }

    ghost host_with = { λ c h. refl };

    ghost with_own = { λ c. refl };

    ghost host_charged = { λ c d same. same };

    ghost host_noted = { λ c d same. same };

    ghost ticks_with = { λ c h. refl };

    ghost lent_with = { λ c h. refl };

    ghost follows_with = { λ c h k m told. told };

    ghost may_call_with = { λ c h may. may };

    ghost fits_with = { λ c h l same fits. fits };

    ghost host_keeps = { λ c k h s stands. stands.2 };

    ghost stands_with = { λ c host k h s t stands same keeps. (same.objects ∙ stands.0, same.ticks ∙ stands.1, keeps) };

    ghost host_agrees = { λ c k. (λ agrees. tt, λ agreed. tt) };

    ghost host_stopped = { λ c k s. (λ stopped. tt, λ halted. tt) };

    ghost adds_with = { λ c h n. none_added n c.left };
}
