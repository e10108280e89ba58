//! The JSON parts of requests.

use base64::engine::general_purpose::STANDARD;
use itoa::Buffer;
use std::alloc::AllocError;

/// Adds a field whose value is these bytes, as base64: `"name":"..."`.
pub(crate) fn put_bytes(out: &mut String, name: &str, bytes: &[u8]) -> Result<(), AllocError> {
    put_name(out, name)?;
    STANDARD.encode_string(bytes, out)?;
    out.push('"')
}

/// Adds a field whose value is a number, as a string: `"name":"12"`.
pub(crate) fn put_number(out: &mut String, name: &str, number: u64) -> Result<(), AllocError> {
    put_name(out, name)?;
    out.push_str(Buffer::new().format(number))?;
    out.push('"')
}

/// Adds a name, and the quote that begins its value.
fn put_name(out: &mut String, name: &str) -> Result<(), AllocError> {
    out.push('"')?;
    out.push_str(name)?;
    out.push_str("\":\"")
}

/// Adds the range of keys from `from` up to `end`, without `end` itself.
pub(crate) fn put_keys(out: &mut String, from: &str, end: &str) -> Result<(), AllocError> {
    put_bytes(out, "key", from.as_bytes())?;
    out.push(',')?;
    put_bytes(out, "range_end", end.as_bytes())
}

/// Adds a comma, unless this is the first item of its list.
pub(crate) fn put_comma(out: &mut String, is_first: &mut bool) -> Result<(), AllocError> {
    if *is_first {
        *is_first = false;
        return Ok(());
    }
    out.push(',')
}
