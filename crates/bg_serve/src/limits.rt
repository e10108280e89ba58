//! The limits of a server (docs/SERVING.md, "Limits").

/// The most connections at once. Any more are closed as soon as they are accepted.
pub const MOST_CLIENTS: usize = 4096;

/// The most bytes of the head of a request.
pub const MOST_HEAD: usize = 8192;

/// The most bytes of the body of a request.
pub const MOST_BODY: usize = 4096;

/// The most matches made in a minute.
pub const MOST_MADE: u64 = 60;

/// The most seconds from the start of a connection, or from a response, to the end of the next
/// request.
pub const HEAD_SECONDS: u64 = 15;

/// The most seconds for which the rest of a refused request is read and dropped.
pub const LINGER_SECONDS: u64 = 5;

/// The most seconds until the WebSocket of a player has said which seat it is for.
pub const HELLO_SECONDS: u64 = 10;

/// The seconds of silence after which a WebSocket is pinged.
pub const PING_SECONDS: u64 = 30;

/// The seconds of silence after which a WebSocket is closed.
pub const SILENT_SECONDS: u64 = 75;

/// The seconds after which a client is closed if it reads nothing of its queued output.
pub const STALL_SECONDS: u64 = 60;

/// The most reads from a client in one turn, so that other clients get their turn.
pub(crate) const MOST_READS: u32 = 8;

/// The most writes to a client in one turn.
pub(crate) const MOST_WRITES: u32 = 64;
