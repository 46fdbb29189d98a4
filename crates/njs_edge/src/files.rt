// Files, by what they have and the names that were asked, where that is told.
ghost use Rattle.std.specs.Prelude.{◌≡◌, ◌<◌, ◌≤◌, ℕ, List, [], Option, Some, None, length, map, IfOk, IfSome, IsNone, Err, IsErrOf, OnOk, OnErr, ◌++◌, ◌∷◌};
ghost use Rattle.std.specs.Io.KnownBytes.{Consumes, IsAtEnd};
ghost use Rattle.njs_edge.specs.Causes.{Counts};
ghost use Rattle.njs_edge.specs.Calls.{IsFaultNext, CountsOne, NoneCounted};
ghost use Rattle.njs_edge.specs.Files.{HasFront, Grew, Asks, file_named, FailsWhere};

use crate::calls::Calls;
use crate::interruptions::Interruptions;
use crate::source::{Taken, read_once};
use njs_text::{NoMemory, Text};
use std::alloc::{AllocError, Global};
use std::fs;
use std::io::Read;

/// Why a file was not read.
#[derive(Clone, Copy, Debug, PartialEq, Eq)]
pub enum FileStop {
    /// There is no such file, or it could not be read.
    Failed,
    /// A growth was refused. The read was not noted.
    NoMemory,
}

/// Gives whole files by their names.
pub trait Files {
    /// The files by name, where they are told. Of two with one name the first is meant.
    ghost contents: { Self → Option (List (List ℕ × List ℕ)) };

    /// The names that were asked, in order, where they are told.
    ghost asked: { Self → Option (List (List ℕ)) };

    /// How often a read has failed.
    ghost faults: { Self → ℕ };

    /// The content of a file, or its first `limit` bytes where it is longer.
    fn read(&mut self, alloc: Global, name: &Text, limit: usize) -> Result<Vec<u8>, FileStop>
        ensures content { IfOk result (λ bytes. HasFront (contents self.old) name.now limit bytes.items) }
        ensures short { IfOk result (λ bytes. length bytes.items ≤ limit) }
        ensures same { contents self.new ≡ contents self.old }
        ensures asked { Asks (asked self.old) (asked self.new) name.now result }
        ensures cause { Counts (faults self.old) (faults self.new) (IsErrOf result FileStop.Failed) };
}

/// Files in memory, which tell what they have and the names that were asked. A name that they don't
/// have fails.
#[derive(Drop)]
pub struct MapFiles {
    files: Vec<(Text, Vec<u8>)>,
    asked: Vec<Text>,
    calls: Calls,
    faults: u64,
}

impl MapFiles {
    /// These files by their names. The reads are numbered from 1, and those whose numbers stand in
    /// `fails` fail.
    pub fn new(alloc: Global, files: Vec<(Text, Vec<u8>)>, fails: Vec<u64>) -> MapFiles
        ensures contents { ⟦<MapFiles as Files>⟧.contents result ≡ Some (map (λ f. (f.0, f.1.items)) files.items) }
        ensures asked { ⟦<MapFiles as Files>⟧.asked result ≡ Some [] }
        ensures faults { ⟦<MapFiles as Files>⟧.faults result ≡ 0 }
        ensures calls { NoneCounted result.calls fails.items }
    {
        MapFiles {
            files,
            asked: Vec::new(alloc),
            calls: Calls::new(fails),
            faults: 0,
        }
    }
}

// The content of the first file of that name.
fn find<'a>(files: &'a [(Text, Vec<u8>)], name: &Text) -> Option<&'a Vec<u8>>
    ensures none { IsNone result → file_named (map (λ f. (f.0, f.1.items)) files.now) name.now ≡ None }
    ensures found { IfSome result (λ content. file_named (map (λ f. (f.0, f.1.items)) files.now) name.now ≡ Some content.now.items) }
{
    for file in files {
        if file.0 == *name {
            return Some(&file.1);
        }
    }
    None
}

// Notes a name.
fn note(alloc: Global, asked: &mut Vec<Text>, name: &Text) -> Result<(), NoMemory>
    ensures ok { OnOk result (asked.new.items ≡ asked.old.items ++ name.now ∷ []) }
    ensures err { OnErr result (asked.new.items ≡ asked.old.items) }
{
    asked.push(name.copy(alloc)?)?;
    Ok(())
}

impl From<NoMemory> for FileStop {
    ghost use Rattle.njs_edge.specs.declared.files.FileStop.TheVariants as stops;

    ghost from_gives = { λ _ stop. stop ≡ stops.NoMemory };

    fn from(_: NoMemory) -> FileStop {
        FileStop::NoMemory
    }
}

impl From<AllocError> for FileStop {
    ghost use Rattle.njs_edge.specs.declared.files.FileStop.TheVariants as stops;

    ghost from_gives = { λ _ stop. stop ≡ stops.NoMemory };

    fn from(_: AllocError) -> FileStop {
        FileStop::NoMemory
    }
}

impl Files for MapFiles {
    ghost use Rattle.std.specs.Prelude.{Some, map};

    ghost contents = { λ s. Some (map (λ f. (f.0, f.1.items)) s.files.items) };

    ghost asked = { λ s. Some s.asked.items };

    ghost faults = { λ s. s.faults };

    fn read(&mut self, alloc: Global, name: &Text, limit: usize) -> Result<Vec<u8>, FileStop>
        ensures content { IfOk result (λ bytes. HasFront (⟦<MapFiles as Files>⟧.contents self.old) name.now limit bytes.items) }
        ensures short { IfOk result (λ bytes. length bytes.items ≤ limit) }
        ensures same { ⟦<MapFiles as Files>⟧.contents self.new ≡ ⟦<MapFiles as Files>⟧.contents self.old }
        ensures asked { Asks (⟦<MapFiles as Files>⟧.asked self.old) (⟦<MapFiles as Files>⟧.asked self.new) name.now result }
        ensures cause { Counts self.old.faults self.new.faults (IsErrOf result FileStop.Failed) }

        // Which calls fail.
        ensures fails { FailsWhere (IsFaultNext self.old.calls) (file_named (map (λ f. (f.0, f.1.items)) self.old.files.items) name.now) result }
        ensures counted { CountsOne self.old.calls self.new.calls }
    {
        let content = if self.calls.begin() {
            None
        } else {
            find(&self.files, name)
        };
        let Some(content) = content else {
            note(alloc, &mut self.asked, name)?;
            self.faults = self.faults.saturating_add(1);
            return Err(FileStop::Failed);
        };
        let count = content.len().min(limit);
        let bytes = Vec::from_slice(alloc, &content[..count])?;
        note(alloc, &mut self.asked, name)?;
        Ok(bytes)
    }
}

/// The files of the system. They tell nothing of the content and of the names. A file that can't be
/// opened or read has failed, as has a folder. The 1,000th interruption within one call is a failure.
#[derive(Drop)]
pub struct RealFiles<'a, R: std::rt::Files> {
    rt: &'a R,
    faults: u64,
}

impl<'a, R: std::rt::Files> RealFiles<'a, R> {
    /// The system's files, of which none was asked and none failed.
    pub fn new(rt: &'a R) -> RealFiles<'a, R>
        ensures contents { ⟦<RealFiles<'a, R> as Files>⟧.contents result ≡ None }
        ensures asked { ⟦<RealFiles<'a, R> as Files>⟧.asked result ≡ None }
        ensures faults { ⟦<RealFiles<'a, R> as Files>⟧.faults result ≡ 0 }
    {
        RealFiles { rt, faults: 0 }
    }
}

const PIECE: usize = 4096;

// Reads on to the end, or to the limit.
fn read_up_to<F: Read>(alloc: Global, file: &mut F, limit: usize) -> Result<Vec<u8>, FileStop>
    ensures taken { IfOk result (λ bytes. Consumes (F.remaining file.old) (F.remaining file.new) bytes.items) }
    ensures short { IfOk result (λ bytes. length bytes.items ≤ limit) }
    ensures whole { IfOk result (λ bytes. length bytes.items < limit → IsAtEnd (F.remaining file.new)) }
{
    let mut bytes = Vec::new(alloc);
    let mut interruptions = Interruptions::new();
    let mut room = [0u8; PIECE];
    while bytes.len() < limit {
        let most = PIECE.min(limit - bytes.len());
        match read_once(file, &mut room[..most], &mut interruptions) {
            Taken::Bytes(count) => bytes.extend_from_slice(&room[..count])?,
            Taken::End => return Ok(bytes),
            Taken::Failed => return Err(FileStop::Failed),
        }
    }
    Ok(bytes)
}

impl<'a, R: std::rt::Files> Files for RealFiles<'a, R> {
    ghost contents = { λ _. None };

    ghost asked = { λ _. None };

    ghost faults = { λ s. s.faults };

    fn read(&mut self, alloc: Global, name: &Text, limit: usize) -> Result<Vec<u8>, FileStop> {
        let answer = match fs::open(self.rt, name.as_str()) {
            Ok(mut file) => read_up_to(alloc, &mut file, limit),
            Err(_) => Err(FileStop::Failed),
        };
        if let Err(FileStop::Failed) = answer {
            self.faults = self.faults.saturating_add(1);
        }
        answer
    }
}
