// The configuration of a site: its workers, its scripts, its zones, its locations and the fuel of a request.
ghost use Rattle.std.specs.Prelude.{◌≡◌, ◌<◌, ◌==◌, ◌^◌, None, length, position};
ghost use Rattle.conf_read.specs.Choose.{is_exact, is_prefix, reach, longest, or_prefix, choice};

use dict_model::ZoneSpec;
use njs_text::{List, Text};

/// A script, by the name that handlers are written with and the file that holds it (`js_import` of njs).
#[derive(Debug, Drop)]
pub struct Import {
    pub name: Text,
    pub file: Text,
}

/// A location and its handler (`location` of nginx, `js_content` of njs).
#[derive(Debug, Drop)]
pub struct Location {
    /// Whether only the path itself fits; otherwise each path that begins with it does.
    pub exact: bool,
    pub path: Text,
    /// The place of the handler's script among the imports.
    pub module: u32,
    /// The name of the handler among those that the script exports.
    pub handler: Text,
}

/// What a configuration says: scripts, zones and locations in the order of the file.
#[derive(Debug, Drop)]
pub struct Conf {
    /// How many threads serve connections.
    pub workers: u32,
    /// Where connections come in.
    pub host: Text,
    pub port: u16,
    /// How many ticks one request may take.
    pub fuel: u64,
    pub imports: List<Import>,
    pub zones: List<ZoneSpec>,
    pub locations: List<Location>,
}

fn is_exact(path: &Text, location: &Location) -> bool
    ensures { result ≡ is_exact path.now location.now }
{
    location.exact && location.path == *path
}

fn is_prefix(path: &Text, location: &Location) -> bool
    ensures { result ≡ is_prefix path.now location.now }
{
    !location.exact && path.as_bytes().starts_with(location.path.as_bytes())
}

fn reach(path: &Text, location: &Location) -> usize
    ensures { result ≡ reach path.now location.now }
{
    // Its clause bounds the length of the location's path.
    let _ = location.path.as_bytes();
    if is_prefix(path, location) {
        location.path.len() + 1
    } else {
        0
    }
}

fn longest(path: &Text, locations: &[Location]) -> usize
    ensures { result ≡ longest path.now locations.now }
{
    let mut longest = 0;
    for location in locations {
        longest = longest.max(reach(path, location));
    }
    longest
}

fn exact_place(path: &Text, locations: &[Location]) -> Option<usize>
    ensures { result ≡ position (is_exact path.now) locations.now }
{
    locations
        .iter()
        .position(|location| is_exact(path, location))
}

fn place_of(path: &Text, wanted: usize, locations: &[Location]) -> Option<usize>
    ensures { result ≡ position (λ l. reach path.now l == wanted) locations.now }
{
    locations
        .iter()
        .position(|location| reach(path, location) == wanted)
}

fn prefix_place(path: &Text, locations: &[Location]) -> Option<usize>
    ensures { result ≡ or_prefix None locations.now path.now }
{
    let longest = longest(path, locations);
    if longest == 0 {
        return None;
    }
    place_of(path, longest, locations)
}

impl Conf {
    /// The place of the location that serves a path: the exact one with that path, else the prefix with the longest path
    /// that the path begins with. `None` where no location fits. It takes no memory.
    pub fn choose(&self, path: &Text) -> Option<u32>
        requires { length self.now.locations < 2 ^ 32 }
        ensures { result ≡ choice self.now.locations path.now }
    {
        let locations = self.locations.as_slice();
        if let Some(place) = exact_place(path, locations) {
            return Some(place as u32);
        }
        match prefix_place(path, locations) {
            Some(place) => Some(place as u32),
            None => None,
        }
    }
}
