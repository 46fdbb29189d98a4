// A small host and a caller that lends it, by which the rows are tried.
ghost use Rattle.std.specs.Prelude.{◌≡◌, ◌≤◌, ◌==◌, [], ℕ, List, refl, None};
ghost use Rattle.std.proofs.Common.{◌∙◌, le_refl, le_trans};
ghost use Rattle.njs_shared.specs.Heap.{Sizes};
ghost use Rattle.njs_shared.specs.Fits.{FitsValue};
ghost use Rattle.njs_clone.specs.Content.{content};
ghost use Rattle.njs_clone.specs.StandsFor.{plain_objects};
ghost use Rattle.njs_meaning.specs.Primitives.{Undefined, Number};
ghost use Rattle.njs_meaning.specs.Values.{PlainValue, Simple};
ghost use Rattle.njs_meaning.specs.State.{State};
ghost use Rattle.njs_request.specs.Answering.{answering};

use crate::record::Head;
use crate::{HasRecord, Record};
use http_out::Reply;
use njs_clone::Machine;
use njs_convert::{Caller, HostCaller, Level, Stop};
use njs_text::{Steps, Text};
use njs_value::Value;
use std::alloc::Global;
use std::sync::ledger::Ledger;

/// A host that keeps a record, and nothing else.
#[derive(Drop)]
pub struct Keeper {
    pub kept: Record,
}

impl HasRecord for Keeper {
    ghost response_of = { λ h. h.kept };

    ghost with_response = { λ h r. record h { kept = r } };

    fn kept(&mut self) -> &mut Record {
        &mut self.kept
    }

    ghost response_with = { λ h r. refl };

    ghost with_own = { λ h. refl };
}

// A number as a value.
fn number_value(number: i32) -> Value
    ensures shows { (texts : List (List ℕ)) → content texts result ≡ Simple (Number number) }
    ensures fits { (n : Sizes) → FitsValue n result }
{
    Value::Num(i64::from(number))
}

/// Each call takes a tick, answers the request itself and gives a number.
#[derive(Drop)]
pub struct Answering {
    pub left: u64,
    pub number: i32,
    pub host: Keeper,
}

impl Answering {
    fn is_spent(&self) -> bool
        ensures { result ≡ (self.now.left == 0) }
    {
        self.left == 0
    }

    pub fn into_reply(self) -> Option<Reply> {
        let Answering { host, .. } = self;
        let Keeper { kept } = host;
        kept.into_reply()
    }
}

impl<L: Ledger> Caller<L> for Answering {
    ghost stands = { λ c k h s. (s.objects ≡ plain_objects h) × (s.ticks ≡ c.left) × (s.log ≡ []) × (s.response ≡ c.host.kept) };

    ghost follows = { λ c k calls. ((f this : PlainValue) (args : List PlainValue) (s : State) → calls.call f this args s ≡ answering c.number f this args s) × ((f : PlainValue) (args : List PlainValue) (s : State) → calls.construct f args s ≡ answering c.number f (Simple Undefined) args s) };

    ghost agrees = { λ c k. Unit {0} };

    ghost stopped = { λ c k s. Unit {0} };

    ghost log = { λ c. [] };

    ghost ticks_of = { λ c. c.left };

    ghost may_call = { λ c. Unit {0} };

    ghost fits = { λ c h. Unit {0} };

    ghost lent = { λ c. record { names = []; counts = λ unit number. None } };

    ghost adds = { λ c n d k. n ≤ k };

    ghost charged = { λ c d. d.host ≡ c.host };

    ghost noted = { λ c d. d.host ≡ c.host };

    fn call(
        &mut self,
        alloc: Global,
        _machine: &mut Machine<'_>,
        _callee: Value,
        _this: Value,
        _args: &[Value],
        _steps: &mut Steps<L>,
    ) -> Result<Value, Stop> {
        if self.is_spent() {
            return Err(Stop::Fuel);
        }
        self.left -= 1;
        let head = Head::plain(alloc, 500);
        self.host.kept.answer(head, Text::fixed("within"));
        Ok(number_value(self.number))
    }

    fn construct(
        &mut self,
        alloc: Global,
        machine: &mut Machine<'_>,
        callee: Value,
        args: &[Value],
        steps: &mut Steps<L>,
    ) -> Result<Value, Stop> {
        self.call(alloc, machine, callee, Value::Undefined, args, steps)
    }

    fn charge(&mut self, ticks: u64) -> Result<(), Stop> {
        if self.left < ticks {
            return Err(Stop::Fuel);
        }
        self.left -= ticks;
        Ok(())
    }

    fn note(&mut self, _alloc: Global, _level: Level, _text: &Text) -> Result<(), Stop> {
        Err(Stop::NoMemory)
    }

    ghost objects_are = { λ c k h s stands. stands.0 };

    ghost ticks_are = { λ c k h s stands. stands.1 };

    ghost log_is = { λ c k h s stands. stands.2 };

    ghost stands_on = { λ c k h l s stands extends. (refl, stands.1, stands.2, stands.3) };

    ghost stops = { λ c k h s stands. tt };

    ghost stopped_as = { λ c k s t zones asked stopped. tt };

    ghost stopped_calls = { λ c k calls follows f this args s stopped. tt };

    ghost stopped_new = { λ c k calls follows f args s stopped. tt };

    ghost fits_on = { λ c h l fits extends. tt };

    ghost adds_none = { λ c n. le_refl n };

    ghost adds_on = { λ c d e n k m first second. le_trans first second };

    ghost adds_up = { λ c d n k adds. adds };
}

impl<L: Ledger> HostCaller<Keeper, L> for Answering {
    ghost host_of = { λ c. c.host };

    ghost with_host = { λ c h. record c { host = h } };

    ghost keeps = { λ h k s. (s.log ≡ []) × (s.response ≡ h.kept) };

    ghost agreed = { λ h k. Unit {0} };

    ghost halted = { λ h k s. Unit {0} };

    ghost same_zones = { λ h k. Unit {0} };

    ghost notes = { λ h k. k ≡ h };

    fn host(&mut self) -> &mut Keeper {
        &mut self.host
    }

    ghost host_with = { λ c h. refl };

    ghost with_own = { λ c. refl };

    ghost host_charged = { λ c d same. same };

    ghost host_noted = { λ c d same. same };

    ghost ticks_with = { λ c h. refl };

    ghost lent_with = { λ c h. refl };

    ghost follows_with = { λ c h k m told. told };

    ghost may_call_with = { λ c h may. may };

    ghost fits_with = { λ c h l same fits. fits };

    ghost host_keeps = { λ c k h s stands. (stands.2, stands.3) };

    ghost stands_with = { λ c host k h s t stands same keeps. (same.objects ∙ stands.0, same.ticks ∙ stands.1, keeps.0, keeps.1) };

    ghost host_agrees = { λ c k. (λ agrees. tt, λ agreed. tt) };

    ghost host_stopped = { λ c k s. (λ stopped. tt, λ halted. tt) };

    ghost adds_with = { λ c h n. le_refl n };
}
