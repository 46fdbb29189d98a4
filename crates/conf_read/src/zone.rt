// The value of `js_shared_dict_zone`.
ghost use Rattle.std.specs.Prelude.{◌≡◌, length, IfOk, nat_le, if◌then◌else◌};
ghost use Rattle.conf_read.specs.Values as values;

use crate::numbers::{size, time};
use crate::words::{Class, behind, is_word, name, run, stripped};
use dict_model::ZoneSpec;
use njs_text::{NoMemory, Text};
use std::alloc::Global;

/// A zone's name and the bytes that it may hold.
#[derive(Drop)]
pub struct Label {
    pub name: Text,
    pub limit: u64,
}

/// What the words after the first have said so far.
#[derive(Clone, Copy, Debug)]
pub struct Options {
    pub timeout: Option<u64>,
    pub numeric: Option<bool>,
    pub evict: bool,
}

const ZONE: &[char] = &['z', 'o', 'n', 'e', '='];

const TIMEOUT: &[char] = &['t', 'i', 'm', 'e', 'o', 'u', 't', '='];

const MAX_NAME: usize = 64;

fn short_name(alloc: Global, text: &[char]) -> Result<Option<Text>, NoMemory>
    ensures { IfOk result (λ name. name ≡ (if nat_le (length text.now) 64 then values.named text.now else None)) }
{
    if text.len() > MAX_NAME {
        return Ok(None);
    }
    name(alloc, text)
}

fn label_with(alloc: Global, front: &[char], rest: &[char]) -> Result<Option<Label>, NoMemory>
    ensures { IfOk result (λ label. label ≡ values.label_with (front.now, rest.now)) }
{
    let Some(text) = behind(':', rest) else {
        return Ok(None);
    };
    let Some(limit) = size(text) else {
        return Ok(None);
    };
    let Some(name) = short_name(alloc, front)? else {
        return Ok(None);
    };
    Ok(Some(Label { name, limit }))
}

fn label_of(alloc: Global, word: &Text) -> Result<Option<Label>, NoMemory>
    ensures { IfOk result (λ label. label ≡ values.label_of word.now) }
{
    let chars = word.to_chars(alloc)?;
    match stripped(ZONE, &chars) {
        None => Ok(None),
        Some(text) => {
            let (front, rest) = run(Class::Other(':'), text);
            label_with(alloc, front, rest)
        }
    }
}

fn timed(alloc: Global, options: Options, word: &Text) -> Result<Option<Options>, NoMemory>
    ensures { IfOk result (λ timed. timed ≡ values.timed options word.now) }
{
    let chars = word.to_chars(alloc)?;
    let Some(text) = stripped(TIMEOUT, &chars) else {
        return Ok(None);
    };
    let Some(time) = time(text) else {
        return Ok(None);
    };
    if options.timeout.is_some() {
        return Ok(None);
    }
    Ok(Some(Options {
        timeout: Some(time),
        numeric: options.numeric,
        evict: options.evict,
    }))
}

fn typed(options: Options, numeric: bool) -> Option<Options>
    ensures { result ≡ values.typed options numeric }
{
    if options.numeric.is_some() {
        return None;
    }
    Some(Options {
        timeout: options.timeout,
        numeric: Some(numeric),
        evict: options.evict,
    })
}

fn evicting(options: Options) -> Option<Options>
    ensures { result ≡ values.evicting options }
{
    if options.evict {
        return None;
    }
    Some(Options {
        timeout: options.timeout,
        numeric: options.numeric,
        evict: true,
    })
}

fn with_option(alloc: Global, options: Options, word: &Text) -> Result<Option<Options>, NoMemory>
    ensures { IfOk result (λ more. more ≡ values.with_option options word.now) }
{
    if is_word(word, b"evict") {
        return Ok(evicting(options));
    }
    if is_word(word, b"type=string") {
        return Ok(typed(options, false));
    }
    if is_word(word, b"type=number") {
        return Ok(typed(options, true));
    }
    timed(alloc, options, word)
}

fn options_of(alloc: Global, words: &[Text]) -> Result<Option<Options>, NoMemory>
    ensures { IfOk result (λ options. options ≡ values.with_options values.no_options words.now) }
{
    let mut options = Options {
        timeout: None,
        numeric: None,
        evict: false,
    };
    for word in words {
        match with_option(alloc, options, word)? {
            None => return Ok(None),
            Some(more) => options = more,
        }
    }
    Ok(Some(options))
}

fn zone_with(label: Label, options: Options) -> Option<ZoneSpec>
    ensures { result ≡ values.zone_with label options }
{
    if options.evict && options.timeout.is_none() {
        return None;
    }
    Some(ZoneSpec {
        name: label.name,
        limit: label.limit,
        timeout: options.timeout,
        numeric: options.numeric.unwrap_or(false),
        evict: options.evict,
    })
}

/// The zone that the words after `js_shared_dict_zone` declare.
pub fn zone(alloc: Global, words: &[Text]) -> Result<Option<ZoneSpec>, NoMemory>
    ensures { IfOk result (λ zone. zone ≡ values.zone_of words.now) }
{
    let [first, others @ ..] = words else {
        return Ok(None);
    };
    let Some(label) = label_of(alloc, first)? else {
        return Ok(None);
    };
    let Some(options) = options_of(alloc, others)? else {
        return Ok(None);
    };
    Ok(zone_with(label, options))
}
