// The steps of a turn, on a bare seat.
ghost use Rattle.std.specs.Prelude.{◌≡◌, ◌≢◌, ℕ, ◌+◌, ◌%◌, ◌^◌, ◌<◌, ◌≤◌, [], ◌∷◌, None};
ghost use Rattle.dict_model.specs.Zone.{dict};
ghost use Rattle.dict_model.specs.History.{state_after};
ghost use Rattle.dict_lock.specs.declared.view.Turn.TheVariants.{Idle, Waits, Holds};
ghost use Rattle.dict_lock.specs.Rule.{HeldFits};
ghost use Rattle.dict_lock.specs.Views.{waits, adds, rests, SeenWell, entry_by};
ghost use Rattle.dict_lock.specs.Known.{number_of};
ghost use Rattle.dict_lock.specs.Plays.{Entered};
ghost use Rattle.dict_lock.specs.Seats.{IsIdle, IsInTurn, Enters};

use crate::plays::{Commit, Look, PassTurn, Recorded, Take, Turns};
use crate::view::{Held, Opening, ZoneView};
use atomic_table::{Seat, Shared};
use dict_model::{DictOp, DictReply, ZoneState};
use std::snapshot::Snapshot;
use std::sync::Wait;
use std::thread;

pub type ZoneTable<Z> = Shared<Option<Held<Z>>, ZoneView, Opening<Z>, Turns<Z>>;

pub type Place<Z> = Seat<Option<Held<Z>>, ZoneView>;

// The words: the next ticket, the ticket that is served, and how many entries the history has.
pub const TICKET: usize = 0;

const SERVING: usize = 1;

const COUNT: usize = 2;

// How often a caller looks before it sleeps.
const LOOKS: u32 = 64;

// Takes a ticket.
fn draw<Z: ZoneState>(table: &ZoneTable<Z>, seat: &mut Place<Z>) -> u64
    requires table { (table.now.table_id.words ≡ 3) × (table.now.table_id.slots ≡ 1) × (seat.old.table_id ≡ table.now.table_id) }
    requires idle { (seat.old.me.0.turn ≡ Idle) × (seat.old.me.0.own ≢ None) }
    ensures seat { seat.new.table_id ≡ seat.old.table_id }
    ensures ticket { (seat.new.me ≡ (waits seat.old.me.0 seat.new.me.0.ticket, seat.old.me.1)) × (seat.new.me.0.ticket % 18446744073709551616 ≡ result) }
{
    table.fetch_add::<Take>(seat, TICKET, 1)
}

// After many looks the caller sleeps until the ticket that is served changes, which wakes those that sleep.
fn pause<Z: ZoneState, R: Wait>(table: &ZoneTable<Z>, rt: &R, looks: u32, serving: u64)
    requires { table.now.table_id.words ≡ 3 }
{
    if looks < LOOKS {
        thread::yield_now();
    } else {
        table.park(rt, SERVING, (serving % (1 << 32)) as u32);
    }
}

// Waits until the ticket is served.
fn wait_for<Z: ZoneState, R: Wait>(table: &ZoneTable<Z>, rt: &R, seat: &mut Place<Z>, ticket: u64)
    requires table { (table.now.table_id.words ≡ 3) × (table.now.table_id.slots ≡ 1) × (seat.old.table_id ≡ table.now.table_id) }
    requires waits { (seat.old.me.0.turn ≡ Waits) × (seat.old.me.0.ticket % 18446744073709551616 ≡ ticket) }
    ensures seat { seat.new.table_id ≡ seat.old.table_id }
    ensures entered { Entered Z.spec Z.state seat.old.me seat.new.me }
{
    let mut looks = 0;
    for _ in rt.forever() {
        let serving = table.load::<Look<Z>>(seat, SERVING);
        if serving == ticket {
            return;
        }
        pause(table, rt, looks, serving);
        looks = looks.saturating_add(1);
    }
    unreachable!()
}

// Comes into a turn, and takes the state.
pub fn enter<Z: ZoneState, R: Wait>(table: &ZoneTable<Z>, rt: &R, seat: &mut Place<Z>) -> Held<Z>
    requires table { (table.now.table_id.words ≡ 3) × (table.now.table_id.slots ≡ 1) × (seat.old.table_id ≡ table.now.table_id) }
    requires idle { IsIdle seat.old.me }
    ensures seat { seat.new.table_id ≡ seat.old.table_id }
    ensures entered { Enters Z.spec Z.state seat.old.me result seat.new.me }
{
    let ticket = draw(table, seat);
    wait_for(table, rt, seat, ticket);
    table.exchange(seat, 0, None).unwrap()
}

// The call's entry is added to the longest history.
pub fn commit<Z: ZoneState, W: Recorded>(
    table: &ZoneTable<Z>,
    seat: &mut Place<Z>,
    op: Snapshot<DictOp>,
    reading: u64,
    reply: &DictReply,
)
    requires table { (table.now.table_id.words ≡ 3) × (table.now.table_id.slots ≡ 1) × (seat.old.table_id ≡ table.now.table_id) }
    requires turn { IsInTurn seat.old.me }
    requires recorded { W.entry ≡ entry_by (number_of seat.old.me.0.own) op.value reading reply.now }
    requires reply { let v = seat.old.me.0 in reply.now ≡ (dict v.of (state_after v.of v.whole) op.value reading).0 }
    ensures seat { seat.new.table_id ≡ seat.old.table_id }
    ensures added { (seat.new.me ≡ (adds seat.old.me.0 W.entry, seat.old.me.1)) × SeenWell seat.new.me.0 }
{
    table.fetch_add::<Commit<W>>(seat, COUNT, 1);
}

// Once a turn is passed, wakes those that sleep, unless no later ticket was drawn. A caller draws its ticket before it
// looks, so one whose ticket isn't seen here finds that it is served.
fn wake<Z: ZoneState>(table: &ZoneTable<Z>, served: u64)
    requires { table.now.table_id.words ≡ 3 }
{
    if table.peek(TICKET) != served.wrapping_add(1) {
        table.wake_all(SERVING);
    }
}

// Gives the state back, and passes the turn.
pub fn leave<Z: ZoneState>(table: &ZoneTable<Z>, seat: &mut Place<Z>, held: Held<Z>)
    requires table { (table.now.table_id.words ≡ 3) × (table.now.table_id.slots ≡ 1) × (seat.old.table_id ≡ table.now.table_id) }
    requires turn { IsInTurn seat.old.me }
    requires held { let v = seat.old.me.0 in HeldFits Z.spec Z.state v.of v.whole v.made held }
    ensures seat { seat.new.table_id ≡ seat.old.table_id }
    ensures rests { seat.new.me ≡ (rests seat.old.me.0, []) }
{
    match table.exchange(seat, 0, Some(held)) {
        None => {}
        Some(_) => unreachable!(),
    }
    let served = table.fetch_add::<PassTurn>(seat, SERVING, 1);
    wake(table, served);
}
