//! Values that last as long as their process.
//!
//! What is dropped is dropped at each call that may end a test, which is dear to prove. So tests
//! keep what they make.
ghost use Rattle.std.specs.Prelude.{◌≡◌, IfOk};

use std::alloc::{AllocError, Global};
use std::process::Abort;
use std::str;

/// The value, which lasts.
pub(crate) fn lasting<'a, T: Drop + 'a>(rt: &(impl AllocGlobal + Abort), value: T) -> &'a mut T
    ensures { result.now ≡ value }
{
    leaked(rt.alloc(), value).expect(rt, "memory")
}

fn leaked<'a, T: Drop + 'a>(alloc: Global, value: T) -> Result<&'a mut T, AllocError>
    ensures { IfOk result (λ kept. kept.now ≡ value) }
{
    Ok(Box::leak(Box::new(alloc, value)?))
}

/// The text, which lasts.
pub(crate) fn lasting_text(rt: &impl Abort, text: Result<String, AllocError>) -> &'static str {
    str::from_utf8(text.expect(rt, "memory").into_bytes().leak()).expect(rt, "a text")
}
