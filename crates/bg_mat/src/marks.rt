//! The byte order mark that an input may begin with.
ghost use Rattle.std.specs.Prelude.{◌≡◌, ◌≤◌, length};
ghost use Rattle.bg_mat.specs.Files.{behind_mark as text_behind};

/// Returns what follows the byte order mark of UTF-8, or the input itself where it begins with
/// none.
pub(crate) fn behind_mark(input: &[u8]) -> &[u8]
    ensures text { result.now ≡ text_behind input.now }
    ensures shorter { length result.now ≤ length input.now }
{
    match input.strip_prefix(&[0xEF, 0xBB, 0xBF]) {
        Some(text) => text,
        None => input,
    }
}
