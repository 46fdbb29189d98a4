// The configuration that the pieces of a tree of directives stand for.
ghost use Rattle.std.specs.Prelude.{◌≡◌, List, ◌∷◌, ◌++◌, ◌||◌, map, position, bytes_eq, IfOk, option_map};
ghost use Rattle.std.specs.Option.{option_to_list};
ghost use Rattle.conf_read.specs.declared.directive.Piece.{Piece};
ghost use Rattle.conf_read.specs.Meaning as meaning;
ghost use Rattle.conf_read.specs.Walk.{listed};

use crate::directive::{Directive, Piece};
use crate::values::{
    ANY_HOST, Address, Handler, Path, content, fuel, import, js_path, listen, location, workers,
};
use crate::words::{is_path, is_word, text_of};
use crate::zone::zone;
use crate::{Conf, Import, Location};
use dict_model::ZoneSpec;
use njs_text::{List, NoMemory, Text, TextFault};
use std::alloc::Global;

fn directive_of(piece: &Piece) -> Option<&Directive>
    ensures { (rest : List Piece) → listed (piece.now ∷ rest) ≡ option_to_list (option_map (λ d. d.now) result) ++ listed rest }
{
    match piece {
        Piece::Plain(directive) => Some(directive),
        Piece::Open(directive) => Some(directive),
        Piece::Close => None,
    }
}

fn named<'a>(name: &[u8], piece: &'a Piece) -> Option<&'a [Text]>
    ensures { (rest : List Piece) → meaning.words_of name.now (listed (piece.now ∷ rest)) ≡ meaning.or_words (option_map (λ words. words.now) result) (meaning.words_of name.now (listed rest)) }
{
    let directive = directive_of(piece)?;
    if is_word(&directive.name, name) {
        Some(directive.words.as_slice())
    } else {
        None
    }
}

// The words of the first directive of a name.
fn words_of<'a>(name: &[u8], pieces: &'a [Piece]) -> Option<&'a [Text]>
    ensures { option_map (λ words. words.now) result ≡ meaning.words_of name.now (listed pieces.now) }
{
    for piece in pieces {
        if let Some(words) = named(name, piece) {
            return Some(words);
        }
    }
    None
}

fn import_in(alloc: Global, piece: &Piece) -> Result<Option<Import>, NoMemory>
    ensures { IfOk result (λ import. (rest : List Piece) → meaning.imports_in (listed (piece.now ∷ rest)) ≡ meaning.with_value import (meaning.imports_in (listed rest))) }
{
    let Some(directive) = directive_of(piece) else {
        return Ok(None);
    };
    if !is_word(&directive.name, b"js_import") {
        return Ok(None);
    }
    import(alloc, directive.words.as_slice())
}

/// The scripts, with the names of their files as they are written.
pub fn imports_of(alloc: Global, pieces: &[Piece]) -> Result<List<Import>, NoMemory>
    ensures { IfOk result (λ imports. imports ≡ meaning.imports_in (listed pieces.now)) }
{
    let mut imports = List::new(alloc);
    for piece in pieces {
        if let Some(import) = import_in(alloc, piece)? {
            imports.push(import)?;
        }
    }
    Ok(imports)
}

fn zone_in(alloc: Global, piece: &Piece) -> Result<Option<ZoneSpec>, NoMemory>
    ensures { IfOk result (λ zone. (rest : List Piece) → meaning.zones_in (listed (piece.now ∷ rest)) ≡ meaning.with_value zone (meaning.zones_in (listed rest))) }
{
    let Some(directive) = directive_of(piece) else {
        return Ok(None);
    };
    if !is_word(&directive.name, b"js_shared_dict_zone") {
        return Ok(None);
    }
    zone(alloc, directive.words.as_slice())
}

fn zones_of(alloc: Global, pieces: &[Piece]) -> Result<List<ZoneSpec>, NoMemory>
    ensures { IfOk result (λ zones. zones ≡ meaning.zones_in (listed pieces.now)) }
{
    let mut zones = List::new(alloc);
    for piece in pieces {
        if let Some(zone) = zone_in(alloc, piece)? {
            zones.push(zone)?;
        }
    }
    Ok(zones)
}

fn position_of(imports: &[Import], name: &Text) -> Option<usize>
    ensures { result ≡ position (λ i. bytes_eq i.name name.now) imports.now }
{
    imports.iter().position(|import| import.name == *name)
}

fn place_in(imports: &[Import], name: &Text) -> Option<u32>
    ensures { result ≡ meaning.place_in imports.now name.now }
{
    let place = position_of(imports, name)?;
    if place < 4_294_967_296 {
        Some(place as u32)
    } else {
        None
    }
}

fn location_with(imports: &[Import], path: Path, handler: Handler) -> Option<Location>
    ensures { result ≡ meaning.location_with imports.now path handler }
{
    let module = place_in(imports, &handler.module)?;
    Some(Location {
        exact: path.exact,
        path: path.text,
        module,
        handler: handler.name,
    })
}

// The words of the `js_content` that comes before the next location.
fn content_in(pieces: &[Piece]) -> Option<&[Text]>
    ensures { option_map (λ words. words.now) result ≡ meaning.content_in (listed pieces.now) }
{
    for piece in pieces {
        if let Some(directive) = directive_of(piece) {
            if is_word(&directive.name, b"location") {
                return None;
            }
            if is_word(&directive.name, b"js_content") {
                return Some(directive.words.as_slice());
            }
        }
    }
    None
}

fn location_at(
    alloc: Global,
    imports: &[Import],
    words: &[Text],
    behind: &[Piece],
) -> Result<Option<Location>, NoMemory>
    ensures { IfOk result (λ location. location ≡ meaning.location_at imports.now words.now (listed behind.now)) }
{
    let Some(path) = location(alloc, words)? else {
        return Ok(None);
    };
    let Some(words) = content_in(behind) else {
        return Ok(None);
    };
    let Some(handler) = content(alloc, words)? else {
        return Ok(None);
    };
    Ok(location_with(imports, path, handler))
}

fn location_in(
    alloc: Global,
    imports: &[Import],
    piece: &Piece,
    behind: &[Piece],
) -> Result<Option<Location>, NoMemory>
    ensures { IfOk result (λ location. meaning.locations_in imports.now (listed (piece.now ∷ behind.now)) ≡ meaning.with_value location (meaning.locations_in imports.now (listed behind.now))) }
{
    let Some(directive) = directive_of(piece) else {
        return Ok(None);
    };
    if !is_word(&directive.name, b"location") {
        return Ok(None);
    }
    location_at(alloc, imports, directive.words.as_slice(), behind)
}

fn locations_of(
    alloc: Global,
    imports: &[Import],
    pieces: &[Piece],
) -> Result<List<Location>, NoMemory>
    ensures { IfOk result (λ locations. locations ≡ meaning.locations_in imports.now (listed pieces.now)) }
{
    let mut locations = List::new(alloc);
    let mut rest = pieces;
    while let [piece, behind @ ..] = rest {
        if let Some(location) = location_in(alloc, imports, piece, behind)? {
            locations.push(location)?;
        }
        rest = behind;
    }
    Ok(locations)
}

fn lacks_content_at(piece: &Piece, behind: &[Piece]) -> bool
    ensures { meaning.lacks_content (listed (piece.now ∷ behind.now)) ≡ (result || meaning.lacks_content (listed behind.now)) }
{
    match directive_of(piece) {
        None => false,
        Some(directive) => { is_word(&directive.name, b"location") && content_in(behind).is_none() }
    }
}

fn lacks_content(pieces: &[Piece]) -> bool
    ensures { result ≡ meaning.lacks_content (listed pieces.now) }
{
    let mut rest = pieces;
    while let [piece, behind @ ..] = rest {
        if lacks_content_at(piece, behind) {
            return true;
        }
        rest = behind;
    }
    false
}

/// Whether there is no `http`, no `server`, no `location`, or a location has no `js_content`.
pub fn lacks(pieces: &[Piece]) -> bool
    ensures { result ≡ meaning.lacks (listed pieces.now) }
{
    words_of(b"http", pieces).is_none()
        || words_of(b"server", pieces).is_none()
        || words_of(b"location", pieces).is_none()
        || lacks_content(pieces)
}

fn workers_in(alloc: Global, pieces: &[Piece]) -> Result<u32, NoMemory>
    ensures { IfOk result (λ workers. workers ≡ meaning.workers_in (listed pieces.now)) }
{
    match words_of(b"worker_processes", pieces) {
        None => Ok(1),
        Some(words) => Ok(workers(alloc, words)?.unwrap_or(1)),
    }
}

fn fuel_in(alloc: Global, pieces: &[Piece]) -> Result<u64, NoMemory>
    ensures { IfOk result (λ fuel. fuel ≡ meaning.fuel_in (listed pieces.now)) }
{
    match words_of(b"js_fuel", pieces) {
        None => Ok(1_000_000),
        Some(words) => Ok(fuel(alloc, words)?.unwrap_or(1_000_000)),
    }
}

fn any_address(alloc: Global) -> Result<Address, NoMemory>
    ensures { IfOk result (λ address. address ≡ meaning.any_address) }
{
    Ok(Address {
        host: text_of(alloc, ANY_HOST)?,
        port: 8000,
    })
}

fn address_in(alloc: Global, pieces: &[Piece]) -> Result<Address, NoMemory>
    ensures { IfOk result (λ address. address ≡ meaning.address_in (listed pieces.now)) }
{
    let Some(words) = words_of(b"listen", pieces) else {
        return any_address(alloc);
    };
    match listen(alloc, words)? {
        None => any_address(alloc),
        Some(address) => Ok(address),
    }
}

fn path_in(pieces: &[Piece]) -> Option<&Text>
    ensures { option_map (λ path. path.now) result ≡ meaning.path_in (listed pieces.now) }
{
    js_path(words_of(b"js_path", pieces)?)
}

// Both words stand in one file, so they are never too long for a text.
fn joined(alloc: Global, front: &Text, back: &Text) -> Result<Text, NoMemory>
    ensures { IfOk result (λ text. text ≡ front.now ++ back.now) }
{
    match front.join(alloc, back) {
        Ok(text) => Ok(text),
        Err(TextFault::NoMemory | TextFault::TooLong | TextFault::NotUtf8(_)) => Err(NoMemory),
    }
}

fn file_under(alloc: Global, path: Option<&Text>, file: &Text) -> Result<Text, NoMemory>
    ensures { IfOk result (λ text. text ≡ meaning.file_under (option_map (λ path. path.now) path.entry) file.now) }
{
    match path {
        None => file.copy(alloc),
        Some(path) => {
            if is_path(file) {
                return file.copy(alloc);
            }
            let slash = text_of(alloc, &['/'])?;
            let behind = joined(alloc, &slash, file)?;
            joined(alloc, path, &behind)
        }
    }
}

fn under(alloc: Global, path: Option<&Text>, import: &Import) -> Result<Import, NoMemory>
    ensures { IfOk result (λ under. under ≡ meaning.under (option_map (λ path. path.now) path.entry) import.now) }
{
    Ok(Import {
        name: import.name.copy(alloc)?,
        file: file_under(alloc, path, &import.file)?,
    })
}

fn all_under(
    alloc: Global,
    path: Option<&Text>,
    imports: &[Import],
) -> Result<List<Import>, NoMemory>
    ensures { IfOk result (λ all. all ≡ map (meaning.under (option_map (λ path. path.now) path.entry)) imports.now) }
{
    let mut all = List::new(alloc);
    for import in imports {
        all.push(under(alloc, path, import)?)?;
    }
    Ok(all)
}

/// The configuration of some pieces and the scripts among them.
pub fn conf_of(alloc: Global, imports: &[Import], pieces: &[Piece]) -> Result<Conf, NoMemory>
    requires { imports.now ≡ meaning.imports_in (listed pieces.now) }
    ensures { IfOk result (λ conf. conf ≡ meaning.conf_of (listed pieces.now)) }
{
    let address = address_in(alloc, pieces)?;
    Ok(Conf {
        workers: workers_in(alloc, pieces)?,
        host: address.host,
        port: address.port,
        fuel: fuel_in(alloc, pieces)?,
        imports: all_under(alloc, path_in(pieces), imports)?,
        zones: zones_of(alloc, pieces)?,
        locations: locations_of(alloc, imports, pieces)?,
    })
}
