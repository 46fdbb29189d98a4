// The whole program, over an outside that is handed in.
ghost use Rattle.std.specs.Prelude.{◌≡◌, ◌⊎◌, ◌≤◌, [], codes, IfOk, string_bytes};
ghost use Rattle.std.specs.Io.KnownBytes.{Keeps};
ghost use Rattle.std.specs.Option.{option_map};
ghost use Rattle.njs_edge.specs.Causes.{Counts};
ghost use Rattle.njs_edge.specs.Clock.{Reads};
ghost use Rattle.conf_read.specs.Limits.{IsWithinLimits};
ghost use Rattle.njsd.specs.Words.{call_conf, call_of};
ghost use Rattle.njsd.specs.Runs.{AsksFor, IsFileFault, IsFileStop, LoadAs, LoadAsks, RunAs, status_of};
ghost use Rattle.njsd.specs.Notes.{Notes, kind_word, line_of, why_text};

use conf_read::{Conf, Import, Location};
use njs_conn::{ConnEnd, Loaded, ScriptWhy, SiteFault, build, load, serve_connection, write_whole};
use njs_edge::{Clock, Files, Sink, Source};
use njs_text::{List, NoMemory, Steps, Text};
use njs_tree::{EarlyKind, is_name};
use std::alloc::Global;
use std::sync::ledger::Ledger;

/// How a run ended.
#[derive(Drop)]
pub enum Status {
    /// The connection was served to its end.
    Finished,
    /// The words are not of the form of a command.
    Usage,
    /// The script in this file is refused.
    ScriptRefused(Text, ScriptWhy),
    /// This file could not be read.
    FileFault(Text),
    /// The input ended inside a request.
    Cut,
    ReadFault,
    WriteFault,
    NoMemory,
}

/// How many ticks a request may take where no configuration says it.
const DEFAULT_FUEL: u64 = 1_000_000;

/// The port where no configuration says it.
const DEFAULT_PORT: u16 = 8000;

// The file and the handler of `call FILE NAME`.
fn call(words: &[Text]) -> Option<(&Text, &Text)>
    ensures { option_map (λ w. (w.0.now, w.1.now)) result ≡ call_of words.now }
{
    let [word, file, name] = words else {
        return None;
    };
    if word.as_str() == "call" && is_name(name) {
        Some((file, name))
    } else {
        None
    }
}

fn main_name() -> Text
    ensures { result ≡ codes "main" }
{
    Text::fixed("main")
}

fn root_path() -> Text
    ensures { result ≡ codes "/" }
{
    Text::fixed("/")
}

fn any_address() -> Text
    ensures { result ≡ codes "0.0.0.0" }
{
    Text::fixed("0.0.0.0")
}

// The configuration of `call FILE NAME`. The connection is that on standard input, so nobody looks at the address.
fn call_conf(alloc: Global, file: &Text, handler: &Text) -> Result<Conf, NoMemory>
    ensures { IfOk result (λ conf. conf ≡ call_conf file.now handler.now) }
{
    let mut imports = List::new(alloc);
    imports.push(Import {
        name: main_name(),
        file: file.copy(alloc)?,
    })?;
    let mut locations = List::new(alloc);
    locations.push(Location {
        exact: false,
        path: root_path(),
        module: 0,
        handler: handler.copy(alloc)?,
    })?;
    Ok(Conf {
        workers: 1,
        host: any_address(),
        port: DEFAULT_PORT,
        fuel: DEFAULT_FUEL,
        imports,
        zones: List::new(alloc),
        locations,
    })
}

fn stopped(fault: SiteFault) -> Status
    ensures { result ≡ status_of fault }
{
    match fault {
        SiteFault::File(file) => Status::FileFault(file),
        SiteFault::Script(file, why) => Status::ScriptRefused(file, why),
        SiteFault::NoMemory => Status::NoMemory,
    }
}

// The site of the words and the files.
fn load_words<F: Files>(alloc: Global, words: &[Text], files: &mut F) -> Result<Loaded, Status>
    ensures loads { LoadAs words.now (F.contents files.old) result }
    ensures cause { Counts (F.faults files.old) (F.faults files.new) (IsFileStop result) }
    ensures asks { LoadAsks words.now (F.asked files.old) (F.asked files.new) result }
{
    let Some((file, handler)) = call(words) else {
        return Err(Status::Usage);
    };
    let Ok(conf) = call_conf(alloc, file, handler) else {
        return Err(Status::NoMemory);
    };
    let site = match build(alloc, conf, files) {
        Ok(site) => site,
        Err(fault) => return Err(stopped(fault)),
    };
    match load(site) {
        Ok(loaded) => Ok(loaded),
        Err(NoMemory) => Err(Status::NoMemory),
    }
}

// The peer of a connection that has no address.
fn no_peer() -> Text
    ensures { result ≡ codes "-" }
{
    Text::fixed("-")
}

// Serves the connection, where there is a site.
fn perform<F: Files, S: Source, K: Sink, N: Sink, L: Ledger>(
    alloc: Global,
    words: &[Text],
    files: &mut F,
    source: &mut S,
    sink: &mut K,
    notes: &mut N,
    steps: &mut Steps<L>,
) -> Status
    ensures runs { RunAs words.now (record { files = F.contents files.old; left = S.left source.old; left' = S.left source.new; got = K.got sink.old; got' = K.got sink.new }) result }
    ensures files { Counts (F.faults files.old) (F.faults files.new) (IsFileFault result) }
    ensures source { Counts (S.faults source.old) (S.faults source.new) (result ≡ Status.ReadFault) }
    ensures sink { Counts (K.faults sink.old) (K.faults sink.new) (result ≡ Status.WriteFault) }
    ensures asks { AsksFor words.now (F.asked files.old) (F.asked files.new) result }
    ensures notes { Keeps (N.got notes.old) (N.got notes.new) }
    ensures notes_later { N.faults notes.old ≤ N.faults notes.new }
{
    let loaded = match load_words(alloc, words, files) {
        Ok(loaded) => loaded,
        Err(stop) => return stop,
    };
    let peer = no_peer();
    match serve_connection(alloc, &loaded, &peer, source, sink, notes, steps) {
        ConnEnd::Finished => Status::Finished,
        ConnEnd::Cut => Status::Cut,
        ConnEnd::ReadFault => Status::ReadFault,
        ConnEnd::WriteFault => Status::WriteFault,
        ConnEnd::NoMemory => Status::NoMemory,
    }
}

fn kind_word(kind: EarlyKind) -> &'static str
    ensures { result.now ≡ kind_word kind }
{
    match kind {
        EarlyKind::Parameter => "parameter",
        EarlyKind::Reserved => "reserved",
        EarlyKind::Delete => "delete",
        EarlyKind::Break => "break",
        EarlyKind::Continue => "continue",
        EarlyKind::Label => "label",
        EarlyKind::Return => "return",
        EarlyKind::Count => "count",
    }
}

fn early_text(alloc: Global, kind: EarlyKind, line: u32) -> Result<String, NoMemory>
    ensures { IfOk result (λ text. string_bytes text ≡ why_text (ScriptWhy.Early kind line)) }
{
    let kind = kind_word(kind);
    Ok(format!(in alloc; "early {kind} line {line}")?)
}

fn why_text(alloc: Global, why: ScriptWhy) -> Result<String, NoMemory>
    ensures { IfOk result (λ text. string_bytes text ≡ why_text why) }
{
    match why {
        ScriptWhy::NotUtf8(place) => Ok(format!(in alloc; "not utf-8 at {place}")?),
        ScriptWhy::TooLong => Ok(String::from_str(alloc, "too long")?),
        ScriptWhy::TooDeep(line) => Ok(format!(in alloc; "too deep line {line}")?),
        ScriptWhy::Syntax(line) => Ok(format!(in alloc; "syntax line {line}")?),
        ScriptWhy::Early(kind, line) => early_text(alloc, kind, line),
        ScriptWhy::NotBuilt(line) => Ok(format!(in alloc; "not built line {line}")?),
    }
}

fn refused_line(alloc: Global, file: &Text, why: ScriptWhy) -> Result<String, NoMemory>
    ensures { IfOk result (λ text. string_bytes text ≡ line_of (Status.ScriptRefused file.now why)) }
{
    let why = why_text(alloc, why)?;
    let file = file.as_str();
    let why = why.as_str();
    Ok(format!(in alloc; "script {file}: {why}\n")?)
}

fn unread_line(alloc: Global, file: &Text) -> Result<String, NoMemory>
    ensures { IfOk result (λ text. string_bytes text ≡ line_of (Status.FileFault file.now)) }
{
    let file = file.as_str();
    Ok(format!(in alloc; "file {file}: cannot be read\n")?)
}

// The line of a status.
fn line(alloc: Global, status: &Status) -> Result<String, NoMemory>
    ensures { IfOk result (λ text. string_bytes text ≡ line_of status.now) }
{
    match status {
        Status::Finished => Ok(String::new(alloc)),
        Status::Usage => Ok(String::from_str(
            alloc,
            "usage: njsd call FILE NAME | once CONF | check CONF | script FILE | load N | serve CONF\n",
        )?),
        Status::ScriptRefused(file, why) => refused_line(alloc, file, *why),
        Status::FileFault(file) => unread_line(alloc, file),
        Status::Cut => Ok(String::from_str(alloc, "cut\n")?),
        Status::ReadFault => Ok(String::from_str(alloc, "read fault\n")?),
        Status::WriteFault => Ok(String::from_str(alloc, "write fault\n")?),
        Status::NoMemory => Ok(String::from_str(alloc, "no memory\n")?),
    }
}

// Notes a line.
fn put<N: Sink>(notes: &mut N, line: &str)
    ensures { Notes (N.got notes.old) (N.got notes.new) (N.faults notes.old) (N.faults notes.new) line.now }
{
    if line.is_empty() {
        return;
    }
    let _ = write_whole(notes, line.as_bytes());
}

// Notes the line of a status, and answers the status, or that memory ran out.
fn note<N: Sink>(alloc: Global, status: Status, notes: &mut N) -> Status
    ensures same { (result ≡ status) ⊎ (result ≡ Status.NoMemory) }
    ensures notes { Notes (N.got notes.old) (N.got notes.new) (N.faults notes.old) (N.faults notes.new) (line_of result) }
{
    match line(alloc, &status) {
        Ok(text) => {
            put(notes, text.as_str());
            status
        }
        Err(NoMemory) => {
            put(notes, "no memory\n");
            Status::NoMemory
        }
    }
}

/// Does what the words say, over the outside that is handed in.
pub fn run<F: Files, C: Clock, S: Source, K: Sink, N: Sink, L: Ledger>(
    alloc: Global,
    words: &[Text],
    files: &mut F,
    clock: &mut C,
    source: &mut S,
    sink: &mut K,
    notes: &mut N,
    steps: &mut Steps<L>,
) -> Status
    ensures runs { RunAs words.now (record { files = F.contents files.old; left = S.left source.old; left' = S.left source.new; got = K.got sink.old; got' = K.got sink.new }) result }
    ensures files { Counts (F.faults files.old) (F.faults files.new) (IsFileFault result) }
    ensures source { Counts (S.faults source.old) (S.faults source.new) (result ≡ Status.ReadFault) }
    ensures sink { Counts (K.faults sink.old) (K.faults sink.new) (result ≡ Status.WriteFault) }
    ensures asks { AsksFor words.now (F.asked files.old) (F.asked files.new) result }
    ensures notes { Notes (N.got notes.old) (N.got notes.new) (N.faults notes.old) (N.faults notes.new) (line_of result) }
    ensures clock { Reads (C.readings clock.old) (C.readings clock.new) [] }
{
    let status = perform(alloc, words, files, source, sink, notes, steps);
    note(alloc, status, notes)
}
