// Builds a site: reads the files of its scripts, and then the scripts.
ghost use Rattle.std.specs.Prelude.{IfErr, IfOk, map};
ghost use Rattle.njs_edge.specs.Causes.{Counts};
ghost use Rattle.conf_read.specs.Limits.{IsWithinLimits};
ghost use Rattle.njs_conn.specs.Site.{AsksAlong, IsFileFault, Names, NamesNoScript, ReadsAll, SiteFrom, Unread, TreesFrom, file_names};

use crate::script::{MAX_SCRIPT, ScriptStop, ScriptWhy, script_from};
use crate::site::Site;
use conf_read::{Conf, Import};
use njs_edge::{FileStop, Files};
use njs_text::{List, NoMemory, Text};
use njs_tree::Checked;
use std::alloc::Global;

/// Why there is no site.
#[derive(Drop)]
pub enum SiteFault {
    /// The file of this name could not be read.
    File(Text),
    /// The script in the file of this name is refused.
    Script(Text, ScriptWhy),
    NoMemory,
}

// The fault of a file that could not be read.
fn unread(alloc: Global, file: &Text) -> SiteFault
    ensures { Unread file.now result }
{
    match file.copy(alloc) {
        Ok(file) => SiteFault::File(file),
        Err(NoMemory) => SiteFault::NoMemory,
    }
}

fn refused(alloc: Global, file: &Text, stop: ScriptStop) -> SiteFault
    ensures { Names file.now stop result }
{
    let ScriptStop::Refused(why) = stop else {
        return SiteFault::NoMemory;
    };
    match file.copy(alloc) {
        Ok(file) => SiteFault::Script(file, why),
        Err(NoMemory) => SiteFault::NoMemory,
    }
}

// The first bytes of the file of each import.
fn read_files<'a, F: Files>(
    alloc: Global,
    imports: &'a [Import],
    files: &mut F,
) -> Result<Vec<(&'a Text, Vec<u8>)>, SiteFault>
    ensures read { IfOk result (λ list. ReadsAll (F.contents files.old) imports.now (map (λ file. (file.0.now, file.1.items)) list.items)) }
    ensures fault { IfErr result NamesNoScript }
    ensures asks { AsksAlong (file_names imports.now) (F.asked files.old) (F.asked files.new) result }
    ensures cause { Counts (F.faults files.old) (F.faults files.new) (IsFileFault result) }
{
    let mut contents = Vec::new(alloc);
    for import in imports {
        match files.read(alloc, &import.file, MAX_SCRIPT + 1) {
            Ok(bytes) => match contents.push((&import.file, bytes)) {
                Ok(()) => {}
                Err(_) => return Err(SiteFault::NoMemory),
            },
            Err(FileStop::Failed) => return Err(unread(alloc, &import.file)),
            Err(FileStop::NoMemory) => return Err(SiteFault::NoMemory),
        }
    }
    Ok(contents)
}

// The trees of the scripts that were read.
fn trees_of(alloc: Global, contents: &[(&Text, Vec<u8>)]) -> Result<List<Checked>, SiteFault>
    ensures { TreesFrom (map (λ file. (file.0.now, file.1.items)) contents.now) result }
{
    let mut trees = List::new(alloc);
    for file in contents {
        match script_from(alloc, file.1.as_slice()) {
            Ok(script) => match trees.push(script) {
                Ok(()) => {}
                Err(NoMemory) => return Err(SiteFault::NoMemory),
            },
            Err(stop) => return Err(refused(alloc, file.0, stop)),
        }
    }
    Ok(trees)
}

/// Builds the site of a configuration. All files are read first; then the scripts are taken in the order of the imports.
pub fn build<F: Files>(alloc: Global, conf: Conf, files: &mut F) -> Result<Site, SiteFault>
    requires { IsWithinLimits conf }
    ensures built { SiteFrom conf (F.contents files.old) result }
    ensures asks { AsksAlong (file_names conf.imports) (F.asked files.old) (F.asked files.new) result }
    ensures cause { Counts (F.faults files.old) (F.faults files.new) (IsFileFault result) }
{
    let trees = {
        let contents = match read_files(alloc, conf.imports.as_slice(), files) {
            Ok(contents) => contents,
            Err(fault) => return Err(fault),
        };
        match trees_of(alloc, contents.as_slice()) {
            Ok(trees) => trees,
            Err(fault) => return Err(fault),
        }
    };
    Ok(Site::new(conf, trees))
}
