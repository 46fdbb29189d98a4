// What answers the built-in functions, and keeps its part of a run.
ghost use Rattle.std.specs.Prelude.{◌≡◌, ◌≤◌, ◌<◌, ◌++◌, ◌∷◌, [], ℕ, List, Bool, length, map, OnOk, OnErr};
ghost use Rattle.std.specs.List.{AllByRecursion};
ghost use Rattle.njs_value.specs.declared.Row.{Row as RowNumber};
ghost use Rattle.njs_shared.specs.Heap.{Heap, sizes};
ghost use Rattle.njs_shared.specs.Fits.{FitsValue};
ghost use Rattle.njs_clone.specs.Content.{content};
ghost use Rattle.njs_meaning.specs.Values.{PlainValue};
ghost use Rattle.njs_meaning.specs.State.{State, Entry};
ghost use Rattle.njs_meaning.specs.Replies.{Known, state_of};
ghost use Rattle.njs_meaning.specs.Running.{Calls};
ghost use Rattle.njs_meaning.specs.Errors.{first_count};
ghost use Rattle.njs_simul.specs.Fits.{Names, Good, CallsFare, Fared};
ghost use Rattle.njs_convert.specs.Tells.{Means, ShowsValue, Grows, FitsAnswer};
ghost use Rattle.njs_interp.specs.Hosts.{Answers};
ghost use Rattle.njs_interp.specs.Acts.{SameBeside, Unanswered};

use njs_clone::Machine;
use njs_convert::{HostCaller, Stop};
use njs_meaning::Level;
use njs_text::{NoMemory, Steps, Text};
use njs_value::{Row, Value};
use std::alloc::Global;
use std::sync::ledger::Ledger;

/// What answers the rows of the table of built-in functions, and keeps its part of the state of a run: the response, the log,
/// the dictionaries, and the calls on them that were answered.
pub trait Host: Sized {
    /// The rows that it answers.
    ghost rows: { RowNumber → Type 0 };

    /// What they mean.
    ghost means: { Answers };

    /// Those that may be called by `new`.
    ghost constructs: { RowNumber → Bool };

    /// The states whose response, log, dictionaries and calls on them are the host's.
    ghost keeps: { Self → Known → State → Type 0 };

    /// The replies that it was given so far are the first of those that are known.
    ghost agrees: { Self → Known → Type 0 };

    /// Where the known replies are just those that it was given, no reply is to come in a state, and the calls that it says
    /// were answered are just those that were.
    ghost halted: { Self → Known → State → Type 0 };

    /// The log.
    ghost log: { Self → List Entry };

    /// How many dictionaries there are.
    ghost zones: { Self → ℕ };

    /// Whether a row may be called by `new`.
    fn can_construct(row: Row) -> bool
        ensures { result ≡ constructs row };

    /// Answers a row.
    fn built_in<C: HostCaller<Self, L>, L: Ledger>(
        alloc: Global,
        row: Row,
        caller: &mut C,
        machine: &mut Machine<'_>,
        this: Value,
        args: &[Value],
        made: bool,
        steps: &mut Steps<L>,
    ) -> Result<Value, Stop>
        requires row { rows row }
        requires keeps { (h : Self) (k : Known) (s : State) → (C.keeps h k s → keeps h k s) × (keeps h k s → C.keeps h k s) }
        requires agreed { (h : Self) (k : Known) → (C.agreed h k → agrees h k) × (agrees h k → C.agreed h k) }
        requires halted { (h : Self) (k : Known) (s : State) → (C.halted h k s → halted h k s) × (halted h k s → C.halted h k s) }
        requires zones { (g h : Self) → zones g ≡ zones h → C.same_zones g h }
        requires more { (c : C) (n k : ℕ) → n ≤ k → C.adds c n c k }
        requires may { C.may_call caller.old }
        requires fits { C.fits caller.old machine.old }
        requires first { first_count ≤ length machine.old.objects }
        requires this { FitsValue (sizes machine.old) this }
        requires args { AllByRecursion (FitsValue (sizes machine.old)) args.now }
        ensures told { (calls : Calls) (k : Known) → C.follows caller.old k calls → C.agrees caller.new k → Means (C.stands caller.old k machine.old) (C.stands caller.new k machine.new) (C.stopped caller.new k) machine.new.texts (ShowsValue machine.new.texts) result (means calls row (content machine.old.texts this) (map (content machine.old.texts) args.now) made) }
        ensures kept { (calls : Calls) (k : Known) → C.follows caller.old k calls → C.follows caller.new k calls }
        ensures agrees { (k : Known) → C.agrees caller.new k → C.agrees caller.old k }
        ensures may { C.may_call caller.new }
        ensures fits { C.fits caller.new machine.new }
        ensures same { C.lent caller.new ≡ C.lent caller.old }
        ensures grows { Grows machine.old machine.new }
        ensures value { FitsAnswer (FitsValue (sizes machine.new)) (sizes machine.new) result }
        ensures spent { C.ticks_of caller.new ≤ C.ticks_of caller.old }
        ensures steps { C.adds caller.old steps.old caller.new steps.new };

    /// Adds an entry to the log.
    fn note(&mut self, alloc: Global, level: Level, text: &Text) -> Result<(), NoMemory>
        ensures ok { OnOk result (log self.new ≡ log self.old ++ record { level = level; text = text.now } ∷ []) }
        ensures keeps { OnOk result ((k : Known) (s : State) → keeps self.old k s → keeps self.new k (record s { log = log self.new })) }
        ensures agrees { (k : Known) → agrees self.new k → agrees self.old k }
        ensures halted { (k : Known) (s : State) → halted self.old k s → halted self.new k s }
        ensures zones { zones self.new ≡ zones self.old };

    ghost log_is: { (h : Self) (k : Known) (s : State) → keeps h k s → s.log ≡ log h };

    ghost keeps_as: { (h : Self) (k : Known) (s t : State) → t.response ≡ s.response → t.zones ≡ s.zones → t.asked ≡ s.asked → t.log ≡ s.log → keeps h k s → keeps h k t };

    ghost halts: { (h : Self) (k : Known) (s : State) → keeps h k s → halted h k s };

    ghost halted_as: { (h : Self) (k : Known) (s t : State) → t.zones ≡ s.zones → t.asked ≡ s.asked → halted h k s → halted h k t };

    ghost answers_fare: { (env : Names) (calls : Calls) → CallsFare env calls → (row : RowNumber) (this : PlainValue) (args : List PlainValue) (made : Bool) (s : State) → Good env s → Fared env s (means calls row this args made s) };

    ghost answers_halt: { (h : Self) (k : Known) (calls : Calls)
        → ((f this : PlainValue) (args : List PlainValue) (s : State) → halted h k s → halted h k (state_of (calls.call f this args s)))
        → ((f : PlainValue) (args : List PlainValue) (s : State) → halted h k s → halted h k (state_of (calls.construct f args s)))
        → (row : RowNumber) (this : PlainValue) (args : List PlainValue) (made : Bool) (s : State) → halted h k s → halted h k (state_of (means calls row this args made s)) };
}

/// The ticks that are left.
#[derive(Drop)]
pub struct Fuel {
    pub left: u64,
}
