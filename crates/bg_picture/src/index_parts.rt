//! The fixed parts of an index.
ghost use Rattle.std.specs.Prelude.{◌≡◌, ◌++◌, OnOk};
ghost use Rattle.bg_picture.specs.IndexParts.{index_script, index_style};

use bg_text::put_text;
use std::alloc::AllocError;

/// The style of an index, beside that of pictures.
const STYLE: &str = "\
body{margin:0 auto;max-width:80rem;padding:.5rem;box-sizing:border-box}
body{font:1rem/1.4 sans-serif;color:var(--ink)}h1{font-size:1.2rem}h2{font-size:1rem}
h1,h2,p{margin:.3rem 0;overflow-wrap:anywhere}a{color:inherit;text-decoration:none}
ul{list-style:none;margin:0;padding:0;display:grid;gap:1rem}
ul{grid-template-columns:repeat(auto-fill,minmax(11rem,1fr))}
li{overflow-wrap:anywhere}span{white-space:nowrap}img{display:block;width:100%;aspect-ratio:616/560}
:root{--moved:#c2410c}@media(prefers-color-scheme:dark){:root{--moved:#fb923c}}
.late #age{font-weight:bold;color:var(--moved)}
";

/// The script of an index: it takes the matches of a newer one.
const SCRIPT: &str = "\
const named = name => document.getElementById(name);
const seconds = Number(document.body.dataset.seconds);
let told = named('matches').innerHTML;
function take(page) {
  const matches = page.getElementById('matches');
  if (!matches) return;
  came = Date.now();
  if (matches.innerHTML === told) return;
  told = matches.innerHTML;
  named('matches').innerHTML = told;
}
";

/// Appends the style of an index.
#[tactic(auto, unfolding(crate::specs::IndexParts::index_style))]
pub(crate) fn put_index_style(out: &mut Vec<u8>) -> Result<(), AllocError>
    ensures { OnOk result (out.new.items ≡ out.old.items ++ index_style) }
{
    put_text(out, STYLE)
}

/// Appends the script of an index.
#[tactic(auto, unfolding(crate::specs::IndexParts::index_script))]
pub(crate) fn put_index_script(out: &mut Vec<u8>) -> Result<(), AllocError>
    ensures { OnOk result (out.new.items ≡ out.old.items ++ index_script) }
{
    put_text(out, SCRIPT)
}
