// The rule of a zone's table, and the names of its steps. These types are for the proofs alone.
ghost use Rattle.std.specs.Prelude.{drop, slice_index_or};
ghost use Rattle.dict_lock.specs.Rule.{Orderly};
ghost use Rattle.dict_lock.specs.Views.{first_view, hands_out, newcomer, note, deals_from, dealt, takes_over, spent};
ghost use Rattle.dict_lock.specs.Plays.{took, looked, added, passed, heard};

use crate::view::{Held, Opening, ZoneView};
use atomic_table::{Join, Play, Split, TableRule};
use dict_model::ZoneState;
use std::marker::{Brand, PhantomData};

pub struct Turns<Z> {
    of: PhantomData<Z>,
}

impl<Z: ZoneState> TableRule<Option<Held<Z>>, ZoneView, Opening<Z>> for Turns<Z> {
    ghost holds = { λ key s. Orderly Z.spec Z.state (Z.spec key.state.value) s };

    ghost first = { λ key. first_view (Z.spec key.state.value) key.count };
}

pub struct Take;

impl<Z> Play<Option<Held<Z>>, ZoneView> for Take {
    ghost then = { took };
}

pub struct Look<Z> {
    of: PhantomData<Z>,
}

impl<Z: ZoneState> Play<Option<Held<Z>>, ZoneView> for Look<Z> {
    ghost then = { looked Z.spec Z.state };
}

pub struct PassTurn;

impl<Z> Play<Option<Held<Z>>, ZoneView> for PassTurn {
    ghost then = { passed };
}

pub struct Hear;

impl<Z> Play<Option<Held<Z>>, ZoneView> for Hear {
    ghost then = { heard };
}

/// The entry of a commit. A call at `Brand` picks it.
pub trait Recorded {
    ghost use Rattle.dict_model.specs.declared.operation.Entry.{Entry};

    ghost entry: { Entry };
}

impl Recorded for Brand {
    ghost use Rattle.dict_model.specs.declared.operation.DictOp.TheVariants as ops;
    ghost use Rattle.dict_model.specs.declared.operation.DictReply.TheVariants as replies;

    ghost entry = { record { caller = 0; op = ops.Clear; reading = 0; reply = replies.Yes } };
}

pub struct Commit<W> {
    of: PhantomData<W>,
}

impl<Z, W: Recorded> Play<Option<Held<Z>>, ZoneView> for Commit<W> {
    ghost then = { added W.entry };
}

/// In a turn, a number for a new caller.
pub struct NewCaller;

impl Split<ZoneView> for NewCaller {
    ghost left = { hands_out };

    ghost right = { newcomer };
}

/// A number that no caller has had, for a new caller.
pub struct Deal;

impl Split<ZoneView> for Deal {
    ghost left = { λ v. deals_from v (drop 1 v.closed) };

    ghost right = { λ v. dealt v (slice_index_or v.closed 0 (0, 0)).0 };
}

/// A note of what was seen.
pub struct Note;

impl Split<ZoneView> for Note {
    ghost left = { λ v. v };

    ghost right = { note };
}

/// What a seat takes over from another.
pub struct TakeOver;

impl Join<ZoneView> for TakeOver {
    ghost both = { takes_over };

    ghost spent = { spent };
}
