// The values of directives, as functions of the words after their names.
ghost use Rattle.std.specs.Prelude.{◌≡◌, ◌<◌, ◌≤◌, ◌^◌, length, option_map, IfOk};
ghost use Rattle.conf_read.specs.Values as values;

use crate::Import;
use crate::numbers::{is_host, within};
use crate::words::{Class, behind, is_path, is_word, last_part, name, run, stem, text_of};
use njs_text::{NoMemory, Text};
use std::alloc::Global;

/// Where connections come in.
#[derive(Drop)]
pub struct Address {
    pub host: Text,
    pub port: u16,
}

/// A handler, by the name of its script and its own.
#[derive(Drop)]
pub struct Handler {
    pub module: Text,
    pub name: Text,
}

/// A path, and whether only the path itself fits.
#[derive(Drop)]
pub struct Path {
    pub exact: bool,
    pub text: Text,
}

fn number_of(alloc: Global, word: &Text, most: u64) -> Result<Option<u64>, NoMemory>
    requires { most < 2 ^ 56 }
    ensures { IfOk result (λ number. number ≡ values.within 1 most (values.number word.now)) }
{
    let chars = word.to_chars(alloc)?;
    Ok(within(&chars, 1, most))
}

/// The value of `worker_processes`.
pub fn workers(alloc: Global, words: &[Text]) -> Result<Option<u32>, NoMemory>
    ensures { IfOk result (λ workers. workers ≡ values.workers_of words.now) }
{
    let [word] = words else {
        return Ok(None);
    };
    if is_word(word, b"auto") {
        return Ok(Some(4));
    }
    match number_of(alloc, word, 32)? {
        None => Ok(None),
        Some(workers) => Ok(Some(workers as u32)),
    }
}

/// The value of `js_fuel`.
pub fn fuel(alloc: Global, words: &[Text]) -> Result<Option<u64>, NoMemory>
    ensures { IfOk result (λ fuel. fuel ≡ values.fuel_of words.now) }
{
    let [word] = words else {
        return Ok(None);
    };
    number_of(alloc, word, 10_000_000)
}

/// The value of `js_path`.
pub fn js_path(words: &[Text]) -> Option<&Text>
    ensures { option_map (λ path. path.now) result ≡ values.path_of words.now }
{
    match words {
        [word] => Some(word),
        _ => None,
    }
}

fn address_of(alloc: Global, text: &[char]) -> Result<Option<Address>, NoMemory>
    requires { length text.now ≤ 1048576 }
    ensures { IfOk result (λ address. address ≡ values.address_of text.now) }
{
    let (host, rest) = run(Class::Other(':'), text);
    if rest.is_empty() {
        return address_with(alloc, ANY_HOST, text);
    }
    let Some(port) = behind(':', rest) else {
        return Ok(None);
    };
    if !is_host(host) {
        return Ok(None);
    }
    address_with(alloc, host, port)
}

pub const ANY_HOST: &[char] = &['0', '.', '0', '.', '0', '.', '0'];

fn address_with(alloc: Global, host: &[char], port: &[char]) -> Result<Option<Address>, NoMemory>
    requires { length host.now ≤ 1048576 }
    ensures { IfOk result (λ address. address ≡ values.address_with host.now port.now) }
{
    let Some(port) = within(port, 1, 65_535) else {
        return Ok(None);
    };
    Ok(Some(Address {
        host: text_of(alloc, host)?,
        port: port as u16,
    }))
}

/// The value of `listen`.
pub fn listen(alloc: Global, words: &[Text]) -> Result<Option<Address>, NoMemory>
    ensures { IfOk result (λ address. address ≡ values.listen_of words.now) }
{
    let [word] = words else {
        return Ok(None);
    };
    // Its clause bounds the length of the text.
    let _ = word.as_bytes();
    let chars = word.to_chars(alloc)?;
    address_of(alloc, &chars)
}

fn path_with(alloc: Global, exact: bool, text: &Text) -> Result<Option<Path>, NoMemory>
    ensures { IfOk result (λ path. path ≡ values.path_with exact text.now) }
{
    if !is_path(text) {
        return Ok(None);
    }
    Ok(Some(Path {
        exact,
        text: text.copy(alloc)?,
    }))
}

/// The value of `location`.
pub fn location(alloc: Global, words: &[Text]) -> Result<Option<Path>, NoMemory>
    ensures { IfOk result (λ path. path ≡ values.location_of words.now) }
{
    match words {
        [text] => path_with(alloc, false, text),
        [mark, text] => {
            if is_word(mark, b"=") {
                path_with(alloc, true, text)
            } else {
                Ok(None)
            }
        }
        _ => Ok(None),
    }
}

fn handler_of(alloc: Global, text: &[char]) -> Result<Option<Handler>, NoMemory>
    requires { length text.now ≤ 1048576 }
    ensures { IfOk result (λ handler. handler ≡ values.handler_of text.now) }
{
    let (front, rest) = run(Class::Other('.'), text);
    let Some(back) = behind('.', rest) else {
        return Ok(None);
    };
    let Some(module) = name(alloc, front)? else {
        return Ok(None);
    };
    let Some(name) = name(alloc, back)? else {
        return Ok(None);
    };
    Ok(Some(Handler { module, name }))
}

/// The value of `js_content`.
pub fn content(alloc: Global, words: &[Text]) -> Result<Option<Handler>, NoMemory>
    ensures { IfOk result (λ handler. handler ≡ values.content_of words.now) }
{
    let [word] = words else {
        return Ok(None);
    };
    // Its clause bounds the length of the text.
    let _ = word.as_bytes();
    let chars = word.to_chars(alloc)?;
    handler_of(alloc, &chars)
}

fn import_as(alloc: Global, part: &[char], file: &Text) -> Result<Option<Import>, NoMemory>
    requires { length part.now ≤ 1048576 }
    ensures { IfOk result (λ import. import ≡ values.import_as part.now file.now) }
{
    let Some(name) = name(alloc, part)? else {
        return Ok(None);
    };
    Ok(Some(Import {
        name,
        file: file.copy(alloc)?,
    }))
}

fn import_file(alloc: Global, file: &Text) -> Result<Option<Import>, NoMemory>
    ensures { IfOk result (λ import. import ≡ values.import_file file.now) }
{
    // Its clause bounds the length of the text.
    let _ = file.as_bytes();
    let chars = file.to_chars(alloc)?;
    match stem(last_part(&chars)) {
        None => Ok(None),
        Some(part) => import_as(alloc, part, file),
    }
}

fn import_from(alloc: Global, name: &Text, file: &Text) -> Result<Option<Import>, NoMemory>
    ensures { IfOk result (λ import. import ≡ values.import_as name.now file.now) }
{
    // Its clause bounds the length of the text.
    let _ = name.as_bytes();
    let chars = name.to_chars(alloc)?;
    import_as(alloc, &chars, file)
}

/// The value of `js_import`.
pub fn import(alloc: Global, words: &[Text]) -> Result<Option<Import>, NoMemory>
    ensures { IfOk result (λ import. import ≡ values.import_of words.now) }
{
    match words {
        [file] => import_file(alloc, file),
        [name, from, file] => {
            if is_word(from, b"from") {
                import_from(alloc, name, file)
            } else {
                Ok(None)
            }
        }
        _ => Ok(None),
    }
}
