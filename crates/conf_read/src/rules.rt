// The rules on a directive.
ghost use Rattle.std.specs.Prelude.{◌≡◌, ◌+◌, ◌||◌, nat_le, List, [], ◌∷◌, ◌++◌, length, sum_by, IfOk, Some, option_map};
ghost use Rattle.std.specs.Option.{option_to_list};
ghost use Rattle.conf_read.specs.declared.directive.Piece.{Piece};
ghost use Rattle.conf_read.specs.Values as values;
ghost use Rattle.conf_read.specs.declared.table.Kind.TheVariants as kind;
ghost use Rattle.conf_read.specs.Rules as rules;
ghost use Rattle.conf_read.specs.Walk.{listed, Judges};
ghost use Rattle.conf_read.specs.Table as tables;

use crate::directive::{Directive, Piece};
use crate::table::{Kind, Place, Repeats, Row, Words, row_of};
use crate::values::{Path, content, fuel, import, listen, location, workers};
use crate::words::is_word;
use crate::zone::zone;
use crate::{ConfFault, Import};
use njs_text::{NoMemory, Text};
use std::alloc::Global;

const ALL_ZONES: u64 = 1_073_741_824;

fn stands(row: Row, here: Place) -> bool
    ensures { result ≡ rules.stands row here }
{
    if row.place == here {
        return true;
    }
    match row.also {
        None => false,
        Some(place) => place == here,
    }
}

fn fits(words: Words, count: usize) -> bool
    ensures { result ≡ rules.fits words count }
{
    match words {
        Words::Between(least, most) => least <= count && count <= most,
        Words::Either(one, other) => count == one || count == other,
    }
}

fn has_room(most: Option<usize>, count: usize) -> bool
    ensures { result ≡ rules.has_room most count }
{
    match most {
        None => true,
        Some(most) => count < most,
    }
}

fn counts(row: Row, count: usize, opens: bool, before: usize) -> bool
    ensures { result ≡ rules.counts row count opens before }
{
    let block = if opens {
        row.block.is_some()
    } else {
        row.block.is_none()
    };
    fits(row.words, count) && block && has_room(row.most, before)
}

// The directive of a piece where it has the same name.
fn alike_in<'a>(directive: &Directive, piece: &'a Piece) -> Option<&'a Directive>
    ensures { (rest : List Piece) → rules.alike directive.now (listed (piece.now ∷ rest)) ≡ option_to_list (option_map (λ d. d.now) result) ++ rules.alike directive.now (listed rest) }
{
    match piece {
        Piece::Plain(other) => same_name(directive, other),
        Piece::Open(other) => same_name(directive, other),
        Piece::Close => None,
    }
}

fn same_name<'a>(directive: &Directive, other: &'a Directive) -> Option<&'a Directive>
    ensures { option_to_list (option_map (λ d. d.now) result) ≡ rules.alike directive.now (other.now ∷ []) }
{
    if is_word(&other.name, directive.name.as_bytes()) {
        Some(other)
    } else {
        None
    }
}

// How many of the earlier directives have the same name.
fn count_alike(directive: &Directive, earlier: &[Piece]) -> usize
    ensures { result ≡ length (rules.alike directive.now (listed earlier.now)) }
{
    let mut count = 0;
    for piece in earlier {
        if alike_in(directive, piece).is_some() {
            count += 1;
        }
    }
    count
}

fn zone_bytes(alloc: Global, directive: &Directive) -> Result<u64, NoMemory>
    ensures { IfOk result (λ bytes. bytes ≡ rules.zone_bytes directive.now) }
{
    match zone(alloc, directive.words.as_slice())? {
        None => Ok(0),
        Some(zone) => Ok(zone.limit),
    }
}

fn zone_bytes_in(alloc: Global, directive: &Directive, piece: &Piece) -> Result<u64, NoMemory>
    ensures { IfOk result (λ bytes. (rest : List Piece) → sum_by rules.zone_bytes (rules.alike directive.now (listed (piece.now ∷ rest))) ≡ bytes + sum_by rules.zone_bytes (rules.alike directive.now (listed rest))) }
{
    match alike_in(directive, piece) {
        None => Ok(0),
        Some(other) => zone_bytes(alloc, other),
    }
}

// Whether a zone and those before it take no more than all zones may.
fn zones_fit(
    alloc: Global,
    limit: u64,
    directive: &Directive,
    earlier: &[Piece],
) -> Result<bool, NoMemory>
    ensures { IfOk result (λ fit. fit ≡ nat_le (limit + sum_by rules.zone_bytes (rules.alike directive.now (listed earlier.now))) 1073741824) }
{
    let mut total = 0;
    for piece in earlier {
        let bytes = zone_bytes_in(alloc, directive, piece)?;
        if bytes > ALL_ZONES - total {
            return Ok(false);
        }
        total += bytes;
    }
    Ok(limit <= ALL_ZONES - total)
}

fn is_zone(alloc: Global, directive: &Directive, earlier: &[Piece]) -> Result<bool, NoMemory>
    ensures { IfOk result (λ fit. fit ≡ rules.is_zone (values.zone_of directive.now.words) (rules.alike directive.now (listed earlier.now))) }
{
    match zone(alloc, directive.words.as_slice())? {
        None => Ok(false),
        Some(zone) => zones_fit(alloc, zone.limit, directive, earlier),
    }
}

fn is_import(name: &Text, imports: &[Import]) -> bool
    ensures { result ≡ rules.is_import name.now imports.now }
{
    for import in imports {
        if import.name == *name {
            return true;
        }
    }
    false
}

fn is_handler(alloc: Global, words: &[Text], imports: &[Import]) -> Result<bool, NoMemory>
    ensures { IfOk result (λ is. is ≡ rules.has_value imports.now kind.JsContent words.now []) }
{
    match content(alloc, words)? {
        None => Ok(false),
        Some(handler) => Ok(is_import(&handler.module, imports)),
    }
}

fn has_value(
    alloc: Global,
    imports: &[Import],
    kind: Kind,
    directive: &Directive,
    earlier: &[Piece],
) -> Result<bool, NoMemory>
    ensures { IfOk result (λ has. has ≡ rules.has_value imports.now kind directive.now.words (rules.alike directive.now (listed earlier.now))) }
{
    let words = directive.words.as_slice();
    match kind {
        Kind::WorkerProcesses => Ok(workers(alloc, words)?.is_some()),
        Kind::JsFuel => Ok(fuel(alloc, words)?.is_some()),
        Kind::JsImport => Ok(import(alloc, words)?.is_some()),
        Kind::JsSharedDictZone => is_zone(alloc, directive, earlier),
        Kind::Listen => Ok(listen(alloc, words)?.is_some()),
        Kind::Location => Ok(location(alloc, words)?.is_some()),
        Kind::JsContent => is_handler(alloc, words, imports),
        _ => Ok(true),
    }
}

fn import_key(alloc: Global, words: &[Text]) -> Result<Option<Path>, NoMemory>
    ensures { IfOk result (λ key. key ≡ rules.key_of kind.JsImport words.now) }
{
    match import(alloc, words)? {
        None => Ok(None),
        Some(import) => Ok(Some(Path {
            exact: false,
            text: import.name,
        })),
    }
}

fn zone_key(alloc: Global, words: &[Text]) -> Result<Option<Path>, NoMemory>
    ensures { IfOk result (λ key. key ≡ rules.key_of kind.JsSharedDictZone words.now) }
{
    match zone(alloc, words)? {
        None => Ok(None),
        Some(zone) => Ok(Some(Path {
            exact: false,
            text: zone.name,
        })),
    }
}

// What no second directive of a kind may have: a script's or a zone's name, or a location's kind and path.
fn key(alloc: Global, kind: Kind, words: &[Text]) -> Result<Option<Path>, NoMemory>
    ensures { IfOk result (λ key. key ≡ rules.key_of kind words.now) }
{
    match kind {
        Kind::JsImport => import_key(alloc, words),
        Kind::JsSharedDictZone => zone_key(alloc, words),
        Kind::Location => location(alloc, words),
        _ => Ok(None),
    }
}

fn same_key(one: &Option<Path>, other: &Option<Path>) -> bool
    ensures { result ≡ rules.same_key one.now other.now }
{
    match (one, other) {
        (Some(one), Some(other)) => {
            let same = if one.exact { other.exact } else { !other.exact };
            same && one.text == other.text
        }
        _ => false,
    }
}

fn has_key_in(
    alloc: Global,
    kind: Kind,
    wanted: &Option<Path>,
    directive: &Directive,
    piece: &Piece,
) -> Result<bool, NoMemory>
    ensures { IfOk result (λ has. (rest : List Piece) → rules.any_key kind wanted.now (rules.alike directive.now (listed (piece.now ∷ rest))) ≡ (has || rules.any_key kind wanted.now (rules.alike directive.now (listed rest)))) }
{
    match alike_in(directive, piece) {
        None => Ok(false),
        Some(other) => {
            let found = key(alloc, kind, other.words.as_slice())?;
            Ok(same_key(&found, wanted))
        }
    }
}

fn has_key(
    alloc: Global,
    kind: Kind,
    directive: &Directive,
    earlier: &[Piece],
) -> Result<bool, NoMemory>
    ensures { IfOk result (λ has. has ≡ rules.any_key kind (rules.key_of kind directive.now.words) (rules.alike directive.now (listed earlier.now))) }
{
    let wanted = key(alloc, kind, directive.words.as_slice())?;
    for piece in earlier {
        if has_key_in(alloc, kind, &wanted, directive, piece)? {
            return Ok(true);
        }
    }
    Ok(false)
}

fn repeated(
    alloc: Global,
    row: Row,
    directive: &Directive,
    seen: &[Kind],
    earlier: &[Piece],
) -> Result<bool, NoMemory>
    ensures { IfOk result (λ is. is ≡ rules.repeated row directive.now.words seen.now (rules.alike directive.now (listed earlier.now))) }
{
    match row.repeats {
        Repeats::Freely => Ok(false),
        Repeats::Once => Ok(seen.contains(&row.kind)),
        Repeats::ByKey => has_key(alloc, row.kind, directive, earlier),
    }
}

/// The rules on a directive in their order: that it is known, its place, its count, its value, and that it isn't there
/// already. It stands in a block of this place behind directives of the kinds `seen`, and behind the pieces `earlier` of the
/// file; `opens` says whether it has a block. The imports are those of the whole file. What is answered is its row.
pub fn judge(
    alloc: Global,
    imports: &[Import],
    place: Place,
    seen: &[Kind],
    earlier: &[Piece],
    directive: &Directive,
    opens: bool,
) -> Result<Row, ConfFault>
    ensures judges { Judges (rules.fault_of imports.now place seen.now (listed earlier.now) directive.now opens) result }
    ensures row { IfOk result (λ row. tables.row_of directive.now.name ≡ Some row) }
{
    let line = directive.line;
    let Some(row) = row_of(directive.name.as_bytes()) else {
        return Err(ConfFault::Unknown(line));
    };
    if !stands(row, place) {
        return Err(ConfFault::Place(line));
    }
    if !counts(
        row,
        directive.words.len(),
        opens,
        count_alike(directive, earlier),
    ) {
        return Err(ConfFault::Count(line));
    }
    if !has_value(alloc, imports, row.kind, directive, earlier)? {
        return Err(ConfFault::Value(line));
    }
    if repeated(alloc, row, directive, seen, earlier)? {
        return Err(ConfFault::Duplicate(line));
    }
    Ok(row)
}
