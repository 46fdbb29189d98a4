// What the clauses don't say: that examples from outside are read as their users mean them, and where each refusal points.
use super::*;
use njs_text::Text;
use std::alloc::{AllocError, Global};
use std::test::Fail;

fn put_imports(out: &mut String, conf: &Conf) -> Result<(), AllocError> {
    for import in conf.imports.as_slice() {
        out.push_str(" import ")?;
        out.push_str(import.name.as_str())?;
        out.push_str(" ")?;
        out.push_str(import.file.as_str())?;
    }
    Ok(())
}

fn put_zones(alloc: Global, out: &mut String, conf: &Conf) -> Result<(), AllocError> {
    for zone in conf.zones.as_slice() {
        let (name, limit) = (zone.name.as_str(), zone.limit);
        let (time, numeric, evict) = (zone.timeout.unwrap_or(0), zone.numeric, zone.evict);
        let text = format!(in alloc; " zone {name} {limit} {time} {numeric} {evict}")?;
        out.push_str(text.as_str())?;
    }
    Ok(())
}

fn put_locations(alloc: Global, out: &mut String, conf: &Conf) -> Result<(), AllocError> {
    for location in conf.locations.as_slice() {
        let (exact, module) = (location.exact, location.module);
        let (path, handler) = (location.path.as_str(), location.handler.as_str());
        let text = format!(in alloc; " location {exact} {path} {module} {handler}")?;
        out.push_str(text.as_str())?;
    }
    Ok(())
}

fn shown_conf(alloc: Global, conf: &Conf) -> Result<String, AllocError> {
    let (workers, port, fuel) = (conf.workers, conf.port, conf.fuel);
    let host = conf.host.as_str();
    let mut out = format!(in alloc; "{workers} {host} {port} {fuel}")?;
    put_imports(&mut out, conf)?;
    put_zones(alloc, &mut out, conf)?;
    put_locations(alloc, &mut out, conf)?;
    Ok(out)
}

fn shown_fault(alloc: Global, fault: ConfFault) -> Result<String, AllocError> {
    match fault {
        ConfFault::TooLong => String::from_str(alloc, "too long"),
        ConfFault::Syntax(line) => format!(in alloc; "syntax {line}"),
        ConfFault::Unknown(line) => format!(in alloc; "unknown {line}"),
        ConfFault::Place(line) => format!(in alloc; "place {line}"),
        ConfFault::Count(line) => format!(in alloc; "count {line}"),
        ConfFault::Value(line) => format!(in alloc; "value {line}"),
        ConfFault::Duplicate(line) => format!(in alloc; "duplicate {line}"),
        ConfFault::Missing => String::from_str(alloc, "missing"),
        ConfFault::NoMemory => String::from_str(alloc, "no memory"),
    }
}

fn shown(alloc: Global, bytes: &[u8]) -> Result<String, AllocError> {
    match read(alloc, bytes) {
        Ok(conf) => shown_conf(alloc, &conf),
        Err(fault) => shown_fault(alloc, fault),
    }
}

// `ok`, or the refusal.
fn outcome(alloc: Global, bytes: &[u8]) -> Result<String, AllocError> {
    match read(alloc, bytes) {
        Ok(_) => String::from_str(alloc, "ok"),
        Err(fault) => shown_fault(alloc, fault),
    }
}

// What stands before and behind a directive that is tried: in main on line 1, in http on line 2, in server on line 3, in a location on
// line 4, in events on line 2.
fn around(place: char) -> (&'static str, &'static str) {
    match place {
        'h' => (
            "http {\n",
            "\njs_import m.js; server { location / { js_content m.a; } } }",
        ),
        's' => (
            "http { js_import m.js;\nserver {\n",
            "\nlocation /other { js_content m.a; } } }",
        ),
        'l' => (
            "http { js_import m.js;\nserver {\nlocation / {\n",
            "\n} } }",
        ),
        'e' => (
            "events {\n",
            "\n} http { js_import m.js; server { location / { js_content m.a; } } }",
        ),
        _ => (
            "",
            "\nhttp { js_import m.js; server { location / { js_content m.a; } } }",
        ),
    }
}

fn tried(alloc: Global, place: char, directive: &str) -> Result<String, AllocError> {
    let (before, behind) = around(place);
    let text = format!(in alloc; "{before}{directive}{behind}")?;
    outcome(alloc, text.as_bytes())
}

const MAIN_AND_EVENTS: &[(char, &str, &str)] = &[
    ('m', "load_module a;", "ok"),
    ('m', "load_module a; load_module a;", "ok"),
    ('m', "error_log a b c d;", "ok"),
    ('m', "error_log a b c d e;", "count 1"),
    ('m', "pid;", "count 1"),
    ('m', "user a { }", "count 1"),
    ('h', "daemon off;", "place 2"),
    ('m', "worker_processes 1;", "ok"),
    ('m', "worker_processes 32;", "ok"),
    ('m', "worker_processes auto;", "ok"),
    ('m', "worker_processes 0;", "value 1"),
    ('m', "worker_processes 33;", "value 1"),
    ('m', "worker_processes 08;", "value 1"),
    ('m', "worker_processes Auto;", "value 1"),
    ('m', "worker_processes;", "count 1"),
    ('m', "worker_processes 1 2;", "count 1"),
    (
        'm',
        "worker_processes 1;\nworker_processes 1;",
        "duplicate 2",
    ),
    ('h', "worker_processes 1;", "place 2"),
    ('m', "events { }", "ok"),
    ('m', "events;", "count 1"),
    ('m', "events a { }", "count 1"),
    ('m', "events { }\nevents { }", "duplicate 2"),
    ('h', "events { }", "place 2"),
    ('e', "worker_connections 1024;", "ok"),
    ('e', "worker_connections x; worker_connections 0;", "ok"),
    ('e', "worker_connections;", "count 2"),
    ('e', "worker_connections 1 2;", "count 2"),
    ('m', "worker_connections 1;", "place 1"),
    ('e', "listen 80;", "place 2"),
    ('m', "http { }", "duplicate 2"),
    ('m', "http a { }", "count 1"),
    ('m', "http;", "count 1"),
    ('e', "http { }", "place 2"),
    ('m', "worker_rlimit_nofile 1;", "unknown 1"),
    ('e', "use epoll;", "unknown 2"),
    ('m', "\"pid\" a;", "ok"),
];

const HTTP: &[(char, &str, &str)] = &[
    ('h', "js_path /a;", "ok"),
    ('h', "js_path;", "count 2"),
    ('h', "js_path a b;", "count 2"),
    ('h', "js_path a;\njs_path b;", "duplicate 3"),
    ('s', "js_path a;", "place 3"),
    ('h', "js_import lib/n.js;", "ok"),
    ('h', "js_import n from x;", "ok"),
    ('h', "js_import;", "count 2"),
    ('h', "js_import n from;", "count 2"),
    ('h', "js_import n from x y;", "count 2"),
    ('h', "js_import n.js { }", "count 2"),
    ('h', "js_import n.mjs;", "value 2"),
    ('h', "js_import n-1.js;", "value 2"),
    ('h', "js_import .js;", "value 2"),
    ('h', "js_import a/;", "value 2"),
    ('h', "js_import if from x;", "value 2"),
    ('h', "js_import n of x;", "value 2"),
    ('h', "js_import m from x;", "duplicate 3"),
    ('m', "js_import n.js;", "place 1"),
    ('h', "js_fuel 1;", "ok"),
    ('h', "js_fuel 10000000;", "ok"),
    ('h', "js_fuel 10000001;", "value 2"),
    ('h', "js_fuel 0;", "value 2"),
    ('h', "js_fuel 18446744073709551617;", "value 2"),
    ('h', "js_fuel;", "count 2"),
    ('h', "js_fuel 1 1;", "count 2"),
    ('h', "js_fuel 1;\njs_fuel 1;", "duplicate 3"),
    ('m', "js_fuel 1;", "place 1"),
    ('h', "access_log off; access_log off;", "ok"),
    ('s', "sendfile on;", "ok"),
    ('l', "keepalive_timeout 1;", "place 4"),
    ('h', "keepalive_timeout a b c d e;", "count 2"),
    ('h', "server { }", "duplicate 3"),
    ('h', "server a { }", "count 2"),
    ('h', "server;", "count 2"),
    ('s', "server { }", "place 3"),
];

const ZONES: &[(char, &str, &str)] = &[
    ('h', "js_shared_dict_zone zone=z:1024;", "ok"),
    ('h', "js_shared_dict_zone zone=z:1023;", "value 2"),
    ('h', "js_shared_dict_zone zone=z:1k;", "ok"),
    ('h', "js_shared_dict_zone zone=z:0k;", "value 2"),
    ('h', "js_shared_dict_zone zone=z:256M;", "ok"),
    ('h', "js_shared_dict_zone zone=z:268435456;", "ok"),
    ('h', "js_shared_dict_zone zone=z:268435457;", "value 2"),
    ('h', "js_shared_dict_zone zone=z:257m;", "value 2"),
    ('h', "js_shared_dict_zone zone=z:1g;", "value 2"),
    ('h', "js_shared_dict_zone zone=z:01k;", "value 2"),
    ('h', "js_shared_dict_zone zone=z;", "value 2"),
    ('h', "js_shared_dict_zone z:1k;", "value 2"),
    ('h', "js_shared_dict_zone zone=z-:1k;", "value 2"),
    ('h', "js_shared_dict_zone;", "count 2"),
    (
        'h',
        "js_shared_dict_zone zone=z:1k timeout=1s type=number evict;",
        "ok",
    ),
    (
        'h',
        "js_shared_dict_zone zone=z:1k evict type=string timeout=1ms;",
        "ok",
    ),
    ('h', "js_shared_dict_zone timeout=1s zone=z:1k;", "value 2"),
    ('h', "js_shared_dict_zone zone=z:1k evict;", "value 2"),
    ('h', "js_shared_dict_zone zone=z:1k timeout=0;", "value 2"),
    ('h', "js_shared_dict_zone zone=z:1k timeout=365d;", "ok"),
    (
        'h',
        "js_shared_dict_zone zone=z:1k timeout=366d;",
        "value 2",
    ),
    ('h', "js_shared_dict_zone zone=z:1k timeout=31536000;", "ok"),
    (
        'h',
        "js_shared_dict_zone zone=z:1k timeout=31536001;",
        "value 2",
    ),
    (
        'h',
        "js_shared_dict_zone zone=z:1k timeout=1h30m;",
        "value 2",
    ),
    (
        'h',
        "js_shared_dict_zone zone=z:1k timeout=2m timeout=2m;",
        "value 2",
    ),
    (
        'h',
        "js_shared_dict_zone zone=z:1k type=number type=number;",
        "value 2",
    ),
    ('h', "js_shared_dict_zone zone=z:1k type=text;", "value 2"),
    ('h', "js_shared_dict_zone zone=z:1k a b c d;", "count 2"),
    (
        'h',
        "js_shared_dict_zone zone=z:1k;\njs_shared_dict_zone zone=z:2k;",
        "duplicate 3",
    ),
    ('s', "js_shared_dict_zone zone=z:1k;", "place 3"),
];

const SERVER: &[(char, &str, &str)] = &[
    ('s', "listen 1;", "ok"),
    ('s', "listen 65535;", "ok"),
    ('s', "listen 65536;", "value 3"),
    ('s', "listen 0;", "value 3"),
    ('s', "listen 080;", "value 3"),
    ('s', "listen localhost:80;", "ok"),
    ('s', "listen 255.0.10.1:80;", "ok"),
    ('s', "listen 256.0.0.1:80;", "value 3"),
    ('s', "listen 1.2.3:80;", "value 3"),
    ('s', "listen 1.2.3.4.5:80;", "value 3"),
    ('s', "listen 01.2.3.4:80;", "value 3"),
    ('s', "listen example.com:80;", "value 3"),
    ('s', "listen :80;", "value 3"),
    ('s', "listen localhost:;", "value 3"),
    ('s', "listen;", "count 3"),
    ('s', "listen 80 default_server;", "count 3"),
    ('s', "listen 80;\nlisten 81;", "duplicate 4"),
    ('h', "listen 80;", "place 2"),
    ('s', "server_name a; server_name b c;", "ok"),
    (
        's',
        "server_name 1 2 3 4 5 6 7 8 9 10 11 12 13 14 15 16;",
        "ok",
    ),
    (
        's',
        "server_name 1 2 3 4 5 6 7 8 9 10 11 12 13 14 15 16 17;",
        "count 3",
    ),
    ('s', "server_name;", "count 3"),
    ('l', "server_name a;", "place 4"),
    ('s', "location = /other { js_content m.b; }", "ok"),
    ('s', "location /other { js_content m.b; }", "duplicate 4"),
    ('s', "location other { js_content m.b; }", "value 3"),
    ('s', "location ~ /other { js_content m.b; }", "value 3"),
    ('s', "location =/a { js_content m.b; }", "value 3"),
    ('s', "location { js_content m.b; }", "count 3"),
    ('s', "location = /a b { js_content m.b; }", "count 3"),
    ('s', "location /a;", "count 3"),
    ('l', "location /a { }", "place 4"),
    ('l', "js_content m.a;", "ok"),
    ('l', "js_content m.a;\njs_content m.a;", "duplicate 5"),
    ('l', "js_content m;", "value 4"),
    ('l', "js_content m.a.b;", "value 4"),
    ('l', "js_content m.if;", "value 4"),
    ('l', "js_content n.a;", "value 4"),
    ('l', "js_content;", "count 4"),
    ('l', "js_content m.a m.b;", "count 4"),
    ('l', "js_content m.a { }", "count 4"),
    ('s', "js_content m.a;", "place 3"),
    ('l', "", "missing"),
];

const TEXTS: &[(char, &str, &str)] = &[
    ('m', "pid a#b; # a comment; }", "ok"),
    ('m', "pid \"a;b\\\"c\" 'd e\"f\\'g' ''x;", "ok"),
    ('m', "pid \"a\nb\";\npid;", "count 3"),
    ('m', "pid a\"b;", "ok"),
    ('m', "pid \\a;", "ok"),
    ('m', ";", "syntax 1"),
    ('m', "\n{ }", "syntax 2"),
    ('m', "pid a; }", "syntax 1"),
    ('m', "events { pid }", "syntax 1"),
    ('m', "pid \"a;", "syntax 2"),
    ('m', "pid 'a;\n\n", "syntax 4"),
    ('m', "events {", "syntax 2"),
    ('m', "} \"", "syntax 1"),
    ('m', "bad; ;", "syntax 1"),
    ('m', "a { b { c { d { e { f; } } } } }", "unknown 1"),
];

#[test]
fn directives_are_judged(rt: HostRuntime) -> Result<(), Fail> {
    for table in [MAIN_AND_EVENTS, HTTP, ZONES, SERVER, TEXTS] {
        for (place, directive, want) in table {
            let found = tried(rt.alloc(), *place, directive)?;
            assert_eq!(rt; found.as_str(), *want, "{directive}");
        }
    }
    Ok(())
}

const MODULE: &str = "load_module modules/ngx_http_js_module.so;
worker_processes auto;
events { worker_connections 1024; }
http {
    js_path \"/etc/nginx/njs\";
    js_import api.js;
    js_shared_dict_zone zone=hits:64k type=number timeout=60s evict;
    server {
        listen 8080;
        server_name localhost;
        location = /health { js_content api.health; }
        location /api { js_content api.count; }
    }
}
";

const PACKAGED: &str = "
user  nginx;
worker_processes  auto;

error_log  /var/log/nginx/error.log notice;
pid        /run/nginx.pid;

load_module modules/ngx_http_js_module.so;

events {
    worker_connections  1024;
}

http {
    access_log  /var/log/nginx/access.log  main;

    sendfile        on;
    #tcp_nopush     on;

    keepalive_timeout  65;

    js_import http.js;

    server {
        listen       80;
        server_name  localhost;

        location / {
            js_content http.hello;
        }
    }
}
";

const EXAMPLE: &str = "load_module modules/ngx_http_js_module.so;

events {}

http {
    js_path \"/etc/nginx/njs/\";

    js_import utils.js;
    js_import main from http/hello.js;
    js_import tools from /opt/tools.js;

    server {
        listen 127.0.0.1:8081;

        location = /version {
            js_content utils.version;
        }

        location /hello {
            js_content main.hello;
        }
    }
}
";

const SESSIONS: &str = "daemon off; worker_processes 2;
events { worker_connections 64; }
http {
    server {
        listen localhost:8000;
        server_name example.com www.example.com;
        location /login { js_content app.login; } # before its import
        location = / { js_content app.index; }
    }
    js_import 'app.js';
    js_shared_dict_zone zone=sessions:1M timeout=30m evict;
    js_shared_dict_zone zone=count:32k type=number;
    js_fuel 50000;
}
";

#[test]
fn whole_files_are_read(rt: HostRuntime) -> Result<(), Fail> {
    for (file, want) in [
        (
            MODULE,
            "4 0.0.0.0 8080 1000000 import api /etc/nginx/njs/api.js zone hits 65536 60000 true true location true /health 0 health location false /api 0 count",
        ),
        (
            PACKAGED,
            "4 0.0.0.0 80 1000000 import http http.js location false / 0 hello",
        ),
        (
            EXAMPLE,
            "1 127.0.0.1 8081 1000000 import utils /etc/nginx/njs//utils.js import main /etc/nginx/njs//http/hello.js import tools /opt/tools.js location true /version 0 version location false /hello 1 hello",
        ),
        (
            SESSIONS,
            "2 localhost 8000 50000 import app app.js zone sessions 1048576 1800000 false true zone count 32768 0 true false location false /login 0 login location true / 0 index",
        ),
        ("", "missing"),
        ("http { }", "missing"),
        ("http { server { } }", "missing"),
        ("pid a;\n\n", "missing"),
    ] {
        let found = shown(rt.alloc(), file.as_bytes())?;
        assert_eq!(rt; found.as_str(), want);
    }
    Ok(())
}

fn chosen(alloc: Global, conf: &Conf, path: &str) -> Result<String, AllocError> {
    match Text::from_utf8(alloc, path.as_bytes()) {
        Ok(path) => {
            if conf.locations.len() > 64 {
                return String::from_str(alloc, "too many");
            }
            match conf.choose(&path) {
                Some(place) => format!(in alloc; "{place}"),
                None => String::from_str(alloc, "none"),
            }
        }
        Err(_) => String::from_str(alloc, "no text"),
    }
}

const LETTERS: &str = "http {
js_import main from m.js;
server {
location = /a { js_content main.a; }
location / { js_content main.b; }
location /ab { js_content main.c; }
}
}
";

const WITHOUT_ROOT: &str = "http {
js_import main from m.js;
server {
location = /a { js_content main.a; }
location /ab { js_content main.c; }
}
}
";

const TWICE: &str = "http {
js_import main from m.js;
server {
location = /a { js_content main.a; js_content main.b; }
location / { js_content main.b; }
location /ab { js_content main.c; }
}
}
";

#[test]
fn locations_are_chosen(rt: HostRuntime) -> Result<(), Fail> {
    for (file, path, want) in [
        (LETTERS, "/a", "0"),
        (LETTERS, "/abc", "2"),
        (LETTERS, "/x", "1"),
        (LETTERS, "/", "1"),
        (LETTERS, "a", "none"),
        (WITHOUT_ROOT, "/x", "none"),
        (WITHOUT_ROOT, "/a", "0"),
        (WITHOUT_ROOT, "/abb", "1"),
        (WITHOUT_ROOT, "/aa", "none"),
    ] {
        let alloc = rt.alloc();
        let found = match read(alloc, file.as_bytes()) {
            Ok(conf) => chosen(alloc, &conf, path)?,
            Err(fault) => shown_fault(alloc, fault)?,
        };
        assert_eq!(rt; found.as_str(), want, "{path}");
    }
    let twice = outcome(rt.alloc(), TWICE.as_bytes())?;
    assert_eq!(rt; twice.as_str(), "duplicate 4");
    Ok(())
}

// A line for each number from 0 on, with the number between two texts.
fn numbered(
    alloc: Global,
    count: u32,
    parts: (&str, &str, &str, &str),
) -> Result<String, AllocError> {
    let (head, front, back, tail) = parts;
    let mut out = String::from_str(alloc, head)?;
    for number in 0..count {
        let line = format!(in alloc; "{front}{number}{back}\n")?;
        out.push_str(line.as_str())?;
    }
    out.push_str(tail)?;
    Ok(out)
}

#[test]
fn limits_are_kept(rt: HostRuntime) -> Result<(), Fail> {
    let server = "server { location / { js_content m0.a; } } }";
    let one_import = "http { js_import m0.js;\n";
    let imports = ("http {\n", "js_import m", ".js;", server);
    let locations = (
        "http { js_import m0.js; server {\n",
        "location /",
        " { js_content m0.a; }",
        "} }",
    );
    let zones = (one_import, "js_shared_dict_zone zone=z", ":1k;", server);
    let large = (one_import, "js_shared_dict_zone zone=z", ":256m;", server);
    for (count, parts, want) in [
        (64, imports, "ok"),
        (65, imports, "count 66"),
        (64, locations, "ok"),
        (65, locations, "count 66"),
        (16, zones, "ok"),
        (17, zones, "count 18"),
        (4, large, "ok"),
        (5, large, "value 6"),
    ] {
        let alloc = rt.alloc();
        let text = numbered(alloc, count, parts)?;
        let found = outcome(alloc, text.as_bytes())?;
        assert_eq!(rt; found.as_str(), want, "{count}");
    }
    Ok(())
}

#[test]
fn bytes_are_judged(rt: HostRuntime) -> Result<(), Fail> {
    let alloc = rt.alloc();
    let blanks = vec![in alloc; b' '; 1_048_577]?;
    let too_long = outcome(alloc, blanks.as_slice())?;
    assert_eq!(rt; too_long.as_str(), "too long");
    let just_fits = outcome(alloc, &blanks[1..])?;
    assert_eq!(rt; just_fits.as_str(), "missing");
    let bad = outcome(alloc, b"pid a;\npid \xff;\n;")?;
    assert_eq!(rt; bad.as_str(), "syntax 2");
    let before = outcome(alloc, b";\n\n\xc3")?;
    assert_eq!(rt; before.as_str(), "syntax 3");
    Ok(())
}
