//! The fixed parts of a page.
ghost use Rattle.std.specs.Prelude.{◌≡◌, ◌++◌, OnOk};
ghost use Rattle.bg_picture.specs.PageParts.{head_start, live_script, page_style, script, view};

use bg_text::put_text;
use std::alloc::AllocError;

/// The start of the page, up to the title.
const HEAD: &str = "\
<!DOCTYPE html>
<html lang='en'>
<head>
<meta charset='utf-8'>
<meta name='viewport' content='width=device-width,initial-scale=1'>
";

/// The style of the page, beside that of pictures.
const STYLE: &str = "\
body{margin:0 auto;max-width:75rem;padding:.5rem;box-sizing:border-box}
body{font:1rem/1.4 sans-serif;color:var(--ink)}h1{font-size:1.2rem}h2{font-size:1rem}
h1,h2,p{margin:.3rem 0;overflow-wrap:anywhere}ol{margin:0;padding:0;list-style-position:inside}
button,select{font:inherit;min-width:3rem;min-height:2.5rem}
svg{display:block;width:100%;max-width:40rem}a{color:inherit}
.shapes{position:absolute;width:0;height:0}#view{display:none}.name{display:inline;margin-right:1rem}
.js body{display:flex;flex-direction:column;height:100vh;min-height:38rem}.js #end{display:none}
.js main{flex:1;min-height:0;display:grid;grid-template:auto minmax(0,1fr)/minmax(0,1fr)}
.js #view{display:block}.js #view svg{max-width:none;max-height:calc(max(100vh,38rem) - 19rem)}
.js #view:has([open]) svg{max-height:calc(max(100vh,38rem) - 27rem)}
.js #list{overflow:auto}.js [aria-current]{background:var(--board)}.ahead span{display:none}
.moved circle{fill:none;stroke:var(--moved);stroke-width:4}.moved .gone{stroke-dasharray:6 6}
:root{--moved:#c2410c}@media(prefers-color-scheme:dark){:root{--moved:#fb923c}}
.late #age{font-weight:bold;color:var(--moved)}code{overflow-wrap:anywhere;user-select:all}
li[id^=start],li[id^=result]{list-style:none}li[id^=result] a{font-weight:bold}
@media(min-width:48rem){.js main{grid-template:minmax(0,1fr)/minmax(0,1fr) 20rem;gap:1rem}}
";

/// The place where the script shows one picture, and the buttons.
const VIEW: &str = "\
<main>
<div id='view'>
<div id='picture'></div>
<p id='label' role='status'></p>
<p id='pips'></p>
<p><button value='Home'>first</button> <button value='ArrowLeft'>back</button>
<button value='ArrowRight'>next</button> <button value='End'>last</button>
<select id='games' aria-label='game'></select></p>
<details><summary>IDs of the position</summary><div id='ids'></div></details>
<p id='age'></p>
</div>
<div id='list'>
";

/// The script: keys, buttons, links and games choose an item, which it draws from the item's data.
const SCRIPT: &str = "\
const named = name => document.getElementById(name), title = document.title;
const mover = document.body.dataset.numbering === 'mover';
let items, starts, seconds, at = -1, reached = -1;
const use = (shape, x, y) => `<use href='#${shape}' x='${x}' y='${y}'/>`;
const text = (x, y, words) => `<text x='${x}' y='${y}'>${words}</text>`;
const group = (name, parts) => `<g class='${name}'>${parts}</g>`;
const columns = [580, 540, 500, 460, 420, 380, 340, 260, 220, 180, 140, 100, 60];
const column = point => point === 25 ? 300 : columns[Math.min(point, 25 - point)];
const above = (player, point) => (point > 12 && point < 25) === (player === 'X');
const half = { X: 440, O: 160 }, height = { '-': 280, X: 476, O: 84 };
function read(item) {
  const [board, cube, owner, dice, x, o] = item.dataset.at.split(' ');
  const counts = [...board].map(letter => letter.charCodeAt(0) - 97);
  const [, player, act, level] = /^([XO]) (to [a-z]+|resigns)(.*)$/.exec(item.dataset.next) || [];
  return { X: counts.slice(0, 26), O: counts.slice(26), cube, owner, dice, x, o, player, act, level,
    reader: mover && player || 'X', next: item.dataset.next, game: item.parentElement.dataset.game };
}
function described(it) {
  const points = player => it[player].map((count, point) => {
    const number = player === it.reader ? point : 25 - point;
    return count && point % 25 ? `, ${count} on ${number}` : '';
  }).reverse().join('');
  const told = player => {
    const counts = it[player];
    return `; ${player}: ${counts[25]} on the bar, ${counts[0]} off${points(player)}`;
  };
  const owner = it.owner === '-' ? 'in the middle' : 'of ' + it.owner;
  return `${it.game}; X ${it.x}, O ${it.o}; cube ${it.cube} ${owner}${told('X')}${told('O')}`
    + `; points as ${it.reader} counts`;
}
function stacks(it, player) {
  return group(player.toLowerCase(), it[player].map((count, point) => {
    const up = above(player, point), x = column(point), shown = Math.min(count, 5);
    return (count ? use('c' + shown, x, up ? 65 : 495 - 38 * shown) : '')
      + (count > 5 ? text(x, up ? 243 : 331, count) : '');
  }).join(''));
}
function cube(it) {
  const doubled = it.act === 'to answer', x = doubled ? half[it.player] : 20;
  const y = doubled ? 280 : height[it.owner];
  return group('cube', use('cube', x, y) + text(x, y + 6, doubled ? 2 * it.cube : it.cube));
}
function table(it) {
  const x = half[it.player], die = (move, pips) => use('d' + pips, x + move, 280);
  const dice = it.dice === '-' ? ''
    : group(it.player.toLowerCase(), die(-21, it.dice[0]) + die(21, it.dice[1]));
  if (it.act === 'to pass') return dice + text(x + 75, 287, 'pass');
  if (it.act !== 'resigns') return dice;
  return dice + use('tag', 600 - x, 280) + text(600 - x, 287, it.level.trim());
}
function marks(it, before) {
  const ring = (player, point, place, kind) => {
    const from = 19 + 38 * Math.min(place, 4), y = above(player, point) ? 65 + from : 495 - from;
    return `<circle class='${kind}' cx='${column(point)}' cy='${y}' r='18'/>`;
  };
  return group('moved', ['X', 'O'].map(player => it[player].map((count, point) => {
    const old = before[player][point], rings = [];
    for (let place = Math.min(old, count); place < Math.max(old, count); place += 1) {
      rings.push(ring(player, point, place, count > old ? 'come' : 'gone'));
    }
    return rings.join('');
  }).join('')).join(''));
}
function drawn(it) {
  return `<svg viewBox='-8 0 616 560' role='img'><title>${it.next}</title>`
    + `<desc>${described(it)}</desc>` + use('board', 0, 0)
    + use('numbers-' + it.reader.toLowerCase(), 0, 0) + stacks(it, 'X') + stacks(it, 'O') + cube(it)
    + table(it) + group('left', text(0, 25, it.game) + text(0, 549, it.next))
    + group('right', text(564, 25, 'O ' + it.o) + text(564, 549, 'X ' + it.x)) + '</svg>';
}
function lastMove() {
  let place = at;
  while (!/^start|^[XO] move/.test(items[place].textContent)) place -= 1;
  return /^start/.test(items[place].textContent) ? 0 : place;
}
function show(wanted) {
  if (items[at]) items[at].removeAttribute('aria-current');
  at = Math.max(0, Math.min(items.length - 1, wanted));
  reached = Math.max(reached, at);
  items.forEach((item, place) => item.classList.toggle('ahead', place > reached));
  for (const place of starts) {
    items[place].parentElement.previousElementSibling.classList.toggle('ahead', place > reached);
  }
  const item = items[at], it = read(item), words = item.textContent;
  const entry = item.id.match(/^p([0-9]+)$/);
  const pips = counts => counts.reduce((sum, count, point) => sum + count * point, 0);
  named('picture').innerHTML = drawn(it);
  const move = lastMove();
  if (move) named('picture').firstChild.innerHTML += marks(it, read(items[move - 1]));
  item.setAttribute('aria-current', 'true');
  named('label').textContent = entry ? entry[1] + '. ' + words : words;
  named('pips').textContent = `pips: X ${pips(it.X)}, O ${pips(it.O)}`;
  named('ids').replaceChildren(...identified(it).map(copied));
  named('games').selectedIndex = starts.filter(place => place <= at).length - 1;
  document.title = `${it.x}-${it.o}, ${it.next}: ${title}`;
  item.scrollIntoView({ block: 'nearest' });
  history.replaceState(null, '', '#' + (seconds && at === items.length - 1 ? 'end' : item.id));
}
function find(name) {
  const place = items.findIndex(item => '#' + item.id === name);
  show(place >= 0 ? place : seconds || name === '#end' ? items.length - 1 : 0);
}
function begin() {
  items = [...document.querySelectorAll('#list li')];
  starts = [...items.keys()].filter(place => items[place].id.startsWith('start'));
  seconds = Number(document.body.dataset.seconds);
  const game = (place, index) => new Option('game ' + (index + 1), place);
  named('games').replaceChildren(...starts.map(game));
}
const steps = {
  ArrowLeft: () => at - 1, ArrowRight: () => at + 1, Home: () => 0, End: () => items.length - 1,
};
addEventListener('keydown', event => {
  const step = steps[event.key], { altKey, ctrlKey, metaKey, shiftKey, target } = event;
  if (!step || altKey || ctrlKey || metaKey || shiftKey || target.id === 'games') return;
  event.preventDefault();
  show(step());
});
for (const button of document.querySelectorAll('button')) {
  button.onclick = () => show(steps[button.value]());
}
named('games').onchange = event => show(Number(event.target.value));
addEventListener('hashchange', () => find(location.hash));
function take(page) {
  const list = page.getElementById('list');
  if (!list) return;
  came = Date.now();
  document.body.dataset.seconds = page.body.dataset.seconds || 0;
  if (list.innerHTML === told) return;
  told = list.innerHTML;
  const name = at === items.length - 1 ? '#end' : location.hash;
  named('list').innerHTML = told;
  begin();
  find(name);
}
let told = named('list').innerHTML;
begin();
find(location.hash);
";

/// The script of a live page: it asks for a newer one, and takes it once it has come whole.
const LIVE_SCRIPT: &str = "\
let came = Date.now();
function tell() {
  const late = seconds && Date.now() - came > 60000, time = new Date(came).toLocaleTimeString();
  document.body.classList.toggle('late', late);
  named('age').textContent = !seconds ? '' : late ? `nothing came since ${time}` : `as of ${time}`;
}
async function renew() {
  try {
    const signal = AbortSignal.timeout ? AbortSignal.timeout(20000) : undefined;
    const answer = await fetch(location.href, { cache: 'no-cache', signal });
    const page = answer.ok ? await answer.text() : '';
    if (page.trimEnd().endsWith('</html>')) take(new DOMParser().parseFromString(page, 'text/html'));
  } catch (error) {
    console.warn(error);
  }
  wait();
}
function wait() {
  if (!seconds) return;
  const again = location.protocol === 'file:' ? () => location.reload() : renew;
  setTimeout(again, 1000 * seconds);
}
if (seconds) setInterval(tell, 1000);
wait();
";

/// Appends what stands before the title.
#[tactic(auto, unfolding(crate::specs::PageParts::head_start))]
pub(crate) fn put_head_start(out: &mut Vec<u8>) -> Result<(), AllocError>
    ensures { OnOk result (out.new.items ≡ out.old.items ++ head_start) }
{
    put_text(out, HEAD)
}

/// Appends the style of the page.
#[tactic(auto, unfolding(crate::specs::PageParts::page_style))]
pub(crate) fn put_page_style(out: &mut Vec<u8>) -> Result<(), AllocError>
    ensures { OnOk result (out.new.items ≡ out.old.items ++ page_style) }
{
    put_text(out, STYLE)
}

/// Appends the place where the script shows one picture, and what stands before the lists.
#[tactic(auto, unfolding(crate::specs::PageParts::view))]
pub(crate) fn put_view(out: &mut Vec<u8>) -> Result<(), AllocError>
    ensures { OnOk result (out.new.items ≡ out.old.items ++ view) }
{
    put_text(out, VIEW)
}

/// Appends the script.
#[tactic(auto, unfolding(crate::specs::PageParts::script))]
pub(crate) fn put_script(out: &mut Vec<u8>) -> Result<(), AllocError>
    ensures { OnOk result (out.new.items ≡ out.old.items ++ script) }
{
    put_text(out, SCRIPT)
}

/// Appends the script of a live page.
#[tactic(auto, unfolding(crate::specs::PageParts::live_script))]
pub(crate) fn put_live_script(out: &mut Vec<u8>) -> Result<(), AllocError>
    ensures { OnOk result (out.new.items ≡ out.old.items ++ live_script) }
{
    put_text(out, LIVE_SCRIPT)
}
