// The table of directives.
ghost use Rattle.std.specs.Prelude.{◌≡◌, map};
ghost use Rattle.conf_read.specs.Table.{row_in, table};

/// A block of a configuration.
#[derive(Clone, Copy, Debug, PartialEq, Eq)]
pub enum Place {
    Main,
    Events,
    Http,
    Server,
    Location,
}

/// What a directive says. One of kind `Ignored` is read and without effect.
#[derive(Clone, Copy, Debug, PartialEq, Eq)]
pub enum Kind {
    Ignored,
    WorkerProcesses,
    Events,
    Http,
    JsPath,
    JsImport,
    JsSharedDictZone,
    JsFuel,
    Server,
    Listen,
    Location,
    JsContent,
}

/// How many words come after the name.
#[derive(Clone, Copy, Debug, PartialEq, Eq)]
pub enum Words {
    Between(usize, usize),
    Either(usize, usize),
}

/// Which directives may come again: any, none in the same block, or none with the same key.
#[derive(Clone, Copy, Debug, PartialEq, Eq)]
pub enum Repeats {
    Freely,
    Once,
    ByKey,
}

/// What is allowed of a directive.
#[derive(Clone, Copy, Debug, PartialEq, Eq)]
pub struct Row {
    pub kind: Kind,
    pub place: Place,
    /// A second block where it may stand.
    pub also: Option<Place>,
    pub words: Words,
    /// What its block is, where it has one.
    pub block: Option<Place>,
    pub repeats: Repeats,
    /// How many there may be in a file, where that is limited.
    pub most: Option<usize>,
}

const IGNORED: Row = Row {
    kind: Kind::Ignored,
    place: Place::Main,
    also: None,
    words: Words::Between(1, 4),
    block: None,
    repeats: Repeats::Freely,
    most: None,
};

const IGNORED_ALSO_IN_SERVER: Row = Row {
    kind: Kind::Ignored,
    place: Place::Http,
    also: Some(Place::Server),
    words: Words::Between(1, 4),
    block: None,
    repeats: Repeats::Freely,
    most: None,
};

const TABLE: &[(&[u8], Row)] = &[
    (b"load_module", IGNORED),
    (b"error_log", IGNORED),
    (b"pid", IGNORED),
    (b"user", IGNORED),
    (b"daemon", IGNORED),
    (
        b"worker_processes",
        Row {
            kind: Kind::WorkerProcesses,
            place: Place::Main,
            also: None,
            words: Words::Between(1, 1),
            block: None,
            repeats: Repeats::Once,
            most: None,
        },
    ),
    (
        b"events",
        Row {
            kind: Kind::Events,
            place: Place::Main,
            also: None,
            words: Words::Between(0, 0),
            block: Some(Place::Events),
            repeats: Repeats::Once,
            most: None,
        },
    ),
    (
        b"worker_connections",
        Row {
            kind: Kind::Ignored,
            place: Place::Events,
            also: None,
            words: Words::Between(1, 1),
            block: None,
            repeats: Repeats::Freely,
            most: None,
        },
    ),
    (
        b"http",
        Row {
            kind: Kind::Http,
            place: Place::Main,
            also: None,
            words: Words::Between(0, 0),
            block: Some(Place::Http),
            repeats: Repeats::Once,
            most: None,
        },
    ),
    (
        b"js_path",
        Row {
            kind: Kind::JsPath,
            place: Place::Http,
            also: None,
            words: Words::Between(1, 1),
            block: None,
            repeats: Repeats::Once,
            most: None,
        },
    ),
    (
        b"js_import",
        Row {
            kind: Kind::JsImport,
            place: Place::Http,
            also: None,
            words: Words::Either(1, 3),
            block: None,
            repeats: Repeats::ByKey,
            most: Some(64),
        },
    ),
    (
        b"js_shared_dict_zone",
        Row {
            kind: Kind::JsSharedDictZone,
            place: Place::Http,
            also: None,
            words: Words::Between(1, 4),
            block: None,
            repeats: Repeats::ByKey,
            most: Some(16),
        },
    ),
    (
        b"js_fuel",
        Row {
            kind: Kind::JsFuel,
            place: Place::Http,
            also: None,
            words: Words::Between(1, 1),
            block: None,
            repeats: Repeats::Once,
            most: None,
        },
    ),
    (b"access_log", IGNORED_ALSO_IN_SERVER),
    (b"sendfile", IGNORED_ALSO_IN_SERVER),
    (b"keepalive_timeout", IGNORED_ALSO_IN_SERVER),
    (
        b"server",
        Row {
            kind: Kind::Server,
            place: Place::Http,
            also: None,
            words: Words::Between(0, 0),
            block: Some(Place::Server),
            repeats: Repeats::Once,
            most: None,
        },
    ),
    (
        b"listen",
        Row {
            kind: Kind::Listen,
            place: Place::Server,
            also: None,
            words: Words::Between(1, 1),
            block: None,
            repeats: Repeats::Once,
            most: None,
        },
    ),
    (
        b"server_name",
        Row {
            kind: Kind::Ignored,
            place: Place::Server,
            also: None,
            words: Words::Between(1, 16),
            block: None,
            repeats: Repeats::Freely,
            most: None,
        },
    ),
    (
        b"location",
        Row {
            kind: Kind::Location,
            place: Place::Server,
            also: None,
            words: Words::Between(1, 2),
            block: Some(Place::Location),
            repeats: Repeats::ByKey,
            most: Some(64),
        },
    ),
    (
        b"js_content",
        Row {
            kind: Kind::JsContent,
            place: Place::Location,
            also: None,
            words: Words::Between(1, 1),
            block: None,
            repeats: Repeats::Once,
            most: None,
        },
    ),
];

fn row_in(name: &[u8], rows: &[(&[u8], Row)]) -> Option<Row>
    ensures { result ≡ row_in name.now (map (λ r. (r.0.now, r.1)) rows.now) }
{
    for (word, row) in rows {
        if *word == name {
            return Some(*row);
        }
    }
    None
}

/// The row of a name, given by its UTF-8.
#[tactic(auto, unfolding(crate::specs::Table::table))]
pub fn row_of(name: &[u8]) -> Option<Row>
    ensures { result ≡ row_in name.now table }
{
    row_in(name, TABLE)
}
