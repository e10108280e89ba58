//! The limits on requests to a cluster, which are below those of etcd (docs/SERVING.md, "Several
//! servers").

/// The most files that one transaction writes. etcd allows 128 operations in one.
pub const MOST_PUTS: usize = 20;

/// The most bytes of all texts that one transaction writes. etcd allows requests of 1.5 MiB.
pub const MOST_BYTES: usize = 1_400_000;

/// The most bytes of the text of a file. The texts of the three parties of a match fit into one
/// transaction.
pub const MOST_TEXT: usize = 450_000;

/// The number of bytes from which a text counts as near `MOST_TEXT`.
pub const NEAR_TEXT: usize = 405_000;

/// The most files in one page of an answer.
pub const PAGE_FILES: usize = 100;

/// The most bytes of an answer, and of what a watch reports at once.
pub const MOST_ANSWER: usize = 100_000_000;
