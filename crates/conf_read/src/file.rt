// A whole configuration.
ghost use Rattle.std.specs.Prelude.{◌≡◌, ◌≤◌, ◌==◌, length, count_by, vec_len, IfOk};
ghost use Rattle.std.specs.Str.{chars, IsUtf8};
ghost use Rattle.conf_read.specs.Law.{OneTree};
ghost use Rattle.conf_read.specs.Limits.{IsWithinLimits};
ghost use Rattle.conf_read.specs.Reads.{ReadAs};
ghost use Rattle.conf_read.specs.Walk.{TextRead};

use crate::build::{conf_of, imports_of, lacks};
use crate::scan::pieces;
use crate::walk::judge_all;
use crate::{Conf, ConfFault};
use std::alloc::{AllocError, Global};

const MAX_BYTES: usize = 1_048_576;

fn line_feeds(bytes: &[u8]) -> usize
    ensures count { result ≡ count_by (λ b. b == 10) bytes.now }
    ensures few { result ≤ length bytes.now }
{
    bytes.iter().filter(|b| **b == b'\n').count()
}

fn read_text(alloc: Global, text: &[char]) -> Result<Conf, ConfFault>
    requires { length text.now ≤ 1048576 }
    ensures { TextRead text.now result }
{
    let pieces = pieces(alloc, text)?;
    let imports = imports_of(alloc, pieces.as_slice())?;
    judge_all(alloc, imports.as_slice(), pieces.as_slice())?;
    if lacks(pieces.as_slice()) {
        return Err(ConfFault::Missing);
    }
    let conf = conf_of(alloc, imports.as_slice(), pieces.as_slice())?;
    Ok(conf)
}

fn chars_of(alloc: Global, text: &str) -> Result<Vec<char>, AllocError>
    ensures items { IfOk result (λ list. list.items ≡ chars text.now) }
    ensures few { IfOk result (λ list. vec_len list ≤ length text.now) }
{
    text.chars().collect(alloc)
}

fn read_str(alloc: Global, text: &str) -> Result<Conf, ConfFault>
    requires few { length text.now ≤ 1048576 }
    ensures read { TextRead (chars text.now) result }
    ensures utf8 { IsUtf8 text.now }
{
    let _ = text.as_bytes();
    let list = chars_of(alloc, text)?;
    read_text(alloc, &list)
}

/// The configuration that a file holds, in the form of nginx with the directives of njs. `docs/CONFIGURATION.md` lists the
/// directives and what each may say.
///
/// A file is refused for the first cause in this order: `TooLong`; `Syntax`, at the first byte that isn't UTF-8; `Syntax`, where the
/// text leaves the form; the first rule that a directive breaks, directives taken in the order of the file and a block's own before
/// what the block holds, and for one directive `Unknown`, `Place`, `Count`, `Value`, `Duplicate` in this order; `Missing`.
pub fn read(alloc: Global, bytes: &[u8]) -> Result<Conf, ConfFault>
    ensures read { ReadAs bytes.now result }
    ensures limits { IfOk result IsWithinLimits }
{
    if bytes.len() > MAX_BYTES {
        return Err(ConfFault::TooLong);
    }
    match str::from_utf8(bytes) {
        Ok(text) => read_str(alloc, text),
        Err(fault) => {
            let line = line_feeds(&bytes[..fault.valid_up_to()]) + 1;
            Err(ConfFault::Syntax(line as u32))
        }
    }
}

/// Bytes are spelled by one tree of directives at most.
pub fn one_tree_per_file()
    ensures { OneTree }
{}
