//! The options and help of the command that serves matches to browsers.

use crate::arguments::{Argument, Description, Kind, Need};
use crate::requests::Request;
use crate::shared::{number_in, port_in};
use clap::ArgMatches;

/// The help on `serve`.
pub(crate) const ABOUT_SERVE: &str = "Let people make matches, play and watch in a browser.

Serves pages at http://127.0.0.1:P. Whoever makes a match there gets a link for each player, and
one for the watchers. Each match has a folder in DIR, which is made if it is missing. Matches that
are there already are served too; one that `new` made can only be watched. You can kill the server
at any moment: started again, it continues. `manage` hides, deletes, copies and restores matches
while the server runs.

Only this machine can reach it. To let others in, put a proxy with TLS in front of it
(docs/SERVING.md). It serves at most 4096 connections and 10000 matches, and makes at most 60
matches a minute. The head of a request has at most 8192 bytes, a body 4096 and a message 512. A
request must be complete within 15 seconds. A socket is closed if it is silent for 75 seconds, or
takes nothing for 60. Behind a proxy, an address has at most 128 connections, 64 of them sockets,
and makes at most 10 matches a minute.

Each save is made durable before anybody is told of it. With --store all saves of a moment are
made durable together, in a SQLite database that is made if it is missing: that lets a server with
many matches take several times as many actions. The folders of the matches follow it. The next
`serve` or `manage` over DIR finds the database by itself (docs/SERVING.md, \"A database\").

With --store etcd:HOST:PORT,.. several servers, on any machines, serve the same matches over one
etcd cluster. Any of them may end at any time. DIR is then a copy of what the cluster has
(docs/SERVING.md, \"Several servers\").

Logs on standard error that it has started, that matches are made, and what fails. Runs until it
is stopped.

Exit status: 1 if the port is taken, another process serves DIR or has the database, the cluster
can't be asked, or reading, writing or memory failed; 2 if DIR is not a folder, or is the folder of
one match, or the database or the cluster has the saves of another folder.";

/// The folder to serve, and the port.
#[derive(Clone, Copy)]
pub struct ServeOptions<'a> {
    /// The folder of the matches.
    pub folder: &'a str,
    pub port: u16,
    /// A match in which nobody has acted for this many hours is listed apart; 0 means never.
    pub idle_hours: u32,
    /// Whether each request is logged.
    pub tells_requests: bool,
    /// The database that saves are written to, if they are to be made durable together.
    pub database: Option<&'a str>,
}

/// Returns the request that these options make, if none that it needs is missing.
pub(crate) fn request<'m, 'a>(options: &'m ArgMatches<'a>) -> Option<Request<'m, 'a>> {
    Some(Request::Serve(ServeOptions {
        folder: options.get_str("dir")?,
        port: port_in(options, "port")?,
        idle_hours: number_in(options, "idle")?,
        tells_requests: options.get_flag("access-log"),
        database: options.get_str("store"),
    }))
}

const FOLDER: Argument = Argument {
    name: "dir",
    kind: Kind::Text("DIR"),
    need: Need::Required,
    about: "The folder of all matches; no other process may use it",
};

const PORT: Argument = Argument {
    name: "port",
    kind: Kind::Number("P", 1, 65_535),
    need: Need::Usually("8080"),
    about: "The port on 127.0.0.1 for browsers, or for a proxy",
};

const IDLE: Argument = Argument {
    name: "idle",
    kind: Kind::Number("HOURS", 0, 87_600),
    need: Need::Usually("720"),
    about: "List a match apart if nobody has acted for so many hours; 0 for never",
};

const ACCESS_LOG: Argument = Argument {
    name: "access-log",
    kind: Kind::Flag,
    need: Need::Optional,
    about: "Log each request too: its method, path and status",
};

const STORE: Argument = Argument {
    name: "store",
    kind: Kind::Text("STORE"),
    need: Need::Optional,
    about: "A SQLite database for saves, or the etcd cluster that servers share: etcd:HOST:PORT,..",
};

/// The command with its options and help.
pub(crate) static COMMAND: Description = Description {
    name: "serve",
    about: "Let people play and watch matches in a browser",
    after_help: None,
    arguments: &[FOLDER, PORT, IDLE, ACCESS_LOG, STORE],
};
