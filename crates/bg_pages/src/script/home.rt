//! The part of the script that shows all matches, and makes new ones.

pub(crate) const TEXT: &str = r#"
// ---- The page of all matches.
const MOST_TRIES = 5;
// Of each list which page of which search is wanted, how often it was asked for, and which of these
// requests is shown: the answer to an earlier one that comes late is not.
const newList = () => ({ page: 1, search: '', asked: 0, shown: 0 });
const lists = { live: newList(), idle: newList(), finished: newList() };

// The match that is asked for, until its links are there. By its key the server knows that it is the
// same one, also where the button is pressed again since no answer came.
let wantedMatch = { body: '', key: '' };

const newKey = () =>
  Array.from(crypto.getRandomValues(new Uint8Array(16)), byte => byte.toString(16).padStart(2, '0')).join('');

// Asks for a match, and asks again where no answer comes. Returns its links, or why there are none.
async function askForMatch(body) {
  if (body !== wantedMatch.body) wantedMatch = { body, key: newKey() };
  const headers = { 'content-type': 'application/json', 'idempotency-key': wantedMatch.key };
  for (let tries = 0; tries < MOST_TRIES; tries++) {
    try {
      const answer = await fetch('/matches', { method: 'POST', headers, body });
      if (!answer.ok) return { why: 'Refused: ' + await answer.text() };
      const made = await answer.json();
      wantedMatch = { body: '', key: '' };
      return made;
    } catch (lost) {
      await new Promise(go => setTimeout(go, 1000));
    }
  }
  return { why: 'No answer came: try again.' };
}

async function makeMatch(event) {
  event.preventDefault();
  const value = id => byId(id).value, making = byId('new').querySelector('button');
  const wanted = { length: Number(value('length')), rules: Number(value('rules')), x: value('x').trim(), o: value('o').trim() };
  making.disabled = true;
  const made = await askForMatch(JSON.stringify(wanted));
  making.disabled = false;
  if (made.why) return fill(byId('made'), element('p', { role: 'alert' }, made.why));
  showLinks(wanted, made);
  refresh();
}

function showLinks(wanted, made) {
  const row = (words, path) => element('p', { class: 'link' }, element('span', {}, words),
    element('a', { href: path }, location.origin + path), copying(location.origin + path));
  fill(byId('made'), element('h2', {}, 'Your match is ready'),
    element('p', {}, 'Whoever has the link of a seat plays it. Keep one, and send the other to your opponent.'),
    row((wanted.x || 'X') + ' plays here', made.x), row((wanted.o || 'O') + ' plays here', made.o),
    row('Others watch here', made.watch),
    element('p', { class: 'none' }, 'The dice are made of a secret, which is told when the match is over. Its SHA‑256 is ',
      element('code', {}, made.dice), ' ', copying(made.dice)));
  byId('made').querySelector('a').focus();
}

function matchRow(found) {
  const names = [found.names[0] || 'X', found.names[1] || 'O'], path = '/matches/' + found.match;
  const stands = found.winner ? names[found.winner === 'X' ? 0 : 1] + ' won'
    : found.turn ? names[found.turn === 'X' ? 0 : 1] + ' to play' : '';
  return element('tr', {},
    element('td', {}, element('a', { href: path }, names.join(' – '))),
    element('td', { class: 'number' }, String(found.length)),
    element('td', { class: 'number' }, found.score.join(' : ')),
    element('td', {}, stands),
    element('td', {}, found.winner
      ? element('span', {}, element('a', { href: path + '/transcript', download: found.match + '.txt' }, 'transcript'), ' ',
        element('a', { href: path + '/mat', download: found.match + '.mat' }, '.mat'))
      : `${found.here[2]} watching`));
}

async function refreshList(kind) {
  const list = lists[kind], { page, search } = list, asked = ++list.asked;
  const found = await fetched('/matches?' + new URLSearchParams({ list: kind, page, search }), 'json');
  if (!found || asked < list.shown) return;
  list.shown = asked;
  const head = element('tr', {}, ...['Match', 'To', 'Score', 'Stands', ''].map(words => element('th', { scope: 'col' }, words)));
  const pages = found.pages < 2 ? [] : [
    button('◀', () => turnPage(kind, -1, found.pages)), ` page ${found.page} of ${found.pages} `,
    button('▶', () => turnPage(kind, 1, found.pages)),
  ];
  const place = byId(kind);
  if (kind === 'idle') byId('idlers').hidden = !found.count;
  if (!found.count) return fill(place, element('p', { class: 'none' }, search ? 'Nothing found.' : 'None yet.'));
  fill(place, element('table', {}, element('thead', {}, head), element('tbody', {}, ...found.matches.map(matchRow))),
    element('p', { class: 'pages' }, ...pages), kind === 'finished' ? downloads(search, found) : null);
}

// The matches that were found, to be downloaded.
function downloads(search, found) {
  const said = element('span', { role: 'status' }), which = found.count === 1 ? 'the match' : `all ${found.count}`;
  const as = (words, form) => button(words, () => download(form, search, found.pages, said));
  return element('p', { class: 'downloads' }, element('span', {}, `Download ${which} as`), as('transcripts', 'transcript'),
    as('.mat', 'mat'), said);
}

// Fetches all pages of an archive, and joins them: each but the last without the zeros that end it.
async function download(form, search, pages, said) {
  const parts = [];
  for (let page = 1; page <= pages; page += 1) {
    said.textContent = pages > 1 ? `${page} of ${pages}` : '';
    const query = new URLSearchParams({ list: 'finished', form, page, search });
    const bytes = await fetched('/matches?' + query, 'arrayBuffer');
    if (!bytes) return void (said.textContent = 'Not downloaded: try again.');
    parts.push(page < pages ? bytes.slice(0, -1024) : bytes);
  }
  const path = URL.createObjectURL(new Blob(parts, { type: 'application/x-tar' }));
  element('a', { href: path, download: `matches-${form}.tar` }).click();
  setTimeout(() => URL.revokeObjectURL(path), 60000);
  said.textContent = 'Downloaded.';
}

function turnPage(kind, by, pages) {
  lists[kind].page = Math.min(Math.max(lists[kind].page + by, 1), pages);
  refreshList(kind);
}

function refresh() {
  refreshList('live');
  refreshList('idle');
  refreshList('finished');
}

function startHome() {
  byId('new').addEventListener('submit', makeMatch);
  byId('search').addEventListener('input', () => {
    Object.assign(lists.finished, { page: 1, search: byId('search').value.trim() });
    refreshList('finished');
  });
  refresh();
  setInterval(() => { if (!document.hidden) refreshList('live'); }, 5000);
}

if (byId('board')) startMatch();
else startHome();
"#;
