// Names that `for in` goes through (ECMA-262 5.1 §12.6.4).
ghost use Rattle.std.specs.Prelude.{◌≡◌, ◌≤◌, length, reverse, IfOk, OnOk};
ghost use Rattle.njs_shared.specs.Heap.{sizes};
ghost use Rattle.njs_shared.specs.Fits.{FitsValue};
ghost use Rattle.njs_clone.specs.Content.{content};
ghost use Rattle.njs_clone.specs.StandsFor.{plain_objects};
ghost use Rattle.njs_code.specs.Effects.{depth_next};
ghost use Rattle.njs_meaning.specs.Errors.{first_count};
ghost use Rattle.njs_meaning.specs.Members.{names_in};
ghost use Rattle.njs_simul.specs.Step.{still_there};
ghost use Rattle.njs_interp.specs.Sits.{Ready, Sits};
ghost use Rattle.njs_interp.specs.Naming.{more_of, ActsOnNames, AddsList};

use crate::{At, Listing, Stacks};
use njs_clone::Machine;
use njs_code::{Address, Kind};
use njs_convert::Stop;
use njs_members::{has_member, names_in};
use njs_text::{NoMemory, Text};
use njs_value::Value;
use std::alloc::Global;

/// Whether a name is left.
#[derive(Clone, Copy, Debug, PartialEq, Eq)]
pub enum More {
    Name,
    None,
}

// Skips names that a value doesn't have any more.
fn skip_gone(machine: &Machine<'_>, value: Value, names: &mut Vec<Text>) -> More
    requires first { first_count ≤ length machine.now.objects }
    requires value { FitsValue (sizes machine.now) value }
    ensures names { reverse names.new.items ≡ still_there (content machine.now.texts value) (plain_objects machine.now) (reverse names.old.items) }
    ensures more { result ≡ more_of (reverse names.new.items) }
{
    for turn in 0..names.len() {
        let last = names.len() - 1;
        if has_member(machine, value, &names[last]) {
            return More::Name;
        }
        names.truncate(last);
    }
    More::None
}

// The same of a list.
fn skip_listed(machine: &Machine<'_>, listing: &mut Listing) -> More
    requires first { first_count ≤ length machine.now.objects }
    requires value { FitsValue (sizes machine.now) listing.old.value }
    ensures value { listing.new.value ≡ listing.old.value }
    ensures names { reverse listing.new.names.items ≡ still_there (content machine.now.texts listing.old.value) (plain_objects machine.now) (reverse listing.old.names.items) }
    ensures more { result ≡ more_of (reverse listing.new.names.items) }
{
    skip_gone(machine, listing.value, &mut listing.names)
}

/// Skips names that aren't there any more, and says whether one is left. Where none is, the code goes on at the address.
pub(crate) fn more_names(
    at: &At<'_>,
    machine: &Machine<'_>,
    stacks: &mut Stacks<'_>,
    to: Address,
) -> More
    requires kind { at.now.op.now.kind ≡ Kind.MoreNames to }
    requires ready { Ready at.now.functions.now at.now.function.now at.now.op.now machine.now stacks.old }
    requires first { first_count ≤ length machine.now.objects }
    ensures told { ActsOnNames to machine.now stacks.old stacks.new result }
    ensures leaves { Sits machine.now at.now.function.now.slots at.now.op.now.depth stacks.new }
{
    let top = stacks.lists.len() - 1;
    skip_listed(machine, &mut stacks.lists[top])
}

/// The list of the names of a value. What it costs is charged by who calls it.
pub(crate) fn listing_of(
    alloc: Global,
    machine: &Machine<'_>,
    value: Value,
) -> Result<Listing, NoMemory>
    requires first { first_count ≤ length machine.now.objects }
    requires value { FitsValue (sizes machine.now) value }
    ensures value { IfOk result (λ l. l.value ≡ value) }
    ensures names { IfOk result (λ l. reverse l.names.items ≡ names_in (content machine.now.texts value) (plain_objects machine.now)) }
{
    let mut names = names_in(alloc, machine, value)?.into_vec();
    names.reverse();
    Ok(Listing { value, names })
}

/// Puts a list on top.
pub(crate) fn add_list(stacks: &mut Stacks<'_>, listing: Listing) -> Result<(), Stop>
    ensures { OnOk result (AddsList listing stacks.old stacks.new) }
{
    if stacks.lists.push(listing).is_err() {
        return Err(Stop::NoMemory);
    }
    Ok(())
}
