//! The part of the script that keeps a page in touch with the server.

pub(crate) const TEXT: &str = r#"
// ---- The socket: it comes back by itself. An action that was sent is sent again until it is
// answered; it has the number of the entry that it is to become, so it acts once.
let socket = null, isGreeted = false, pause = 500, beat = null, late = null;

// So many milliseconds an answer may take, and so many entries a match may have, before the page
// says so; and so often a seat or a match may be refused before it is given up.
const LATE = 3000, LONG = 40000, REFUSALS = 6;

const isPlayer = () => location.pathname === '/play';

function socketAddress() {
  const base = (location.protocol === 'https:' ? 'wss://' : 'ws://') + location.host;
  return isPlayer() ? base + '/play/live' : base + location.pathname.replace(/\/embed$/, '') + '/live';
}

// Whether the server answers that it has no such match.
const isMissing = () => fetch(location.pathname.replace(/\/embed$/, '') + '/state')
  .then(answer => answer.status === 404, () => false);

function connect() {
  socket = new WebSocket(socketAddress());
  isGreeted = false;
  socket.onopen = () => { if (isPlayer()) socket.send('hello ' + game.secret); };
  socket.onmessage = event => hear(JSON.parse(event.data));
  socket.onclose = async () => {
    netSays('away, trying again', 'gone');
    clearTimeout(beat);
    clearTimeout(late);
    if (!isPlayer() && !isGreeted && await isMissing()) hearNoMatch();
    if (game.refused) return netSays(isPlayer() ? 'no such seat' : 'no such match', 'gone');
    beat = setTimeout(connect, pause);
    pause = Math.min(pause * 2, 8000);
  };
}

function netSays(words, kind) {
  byId('net').textContent = words;
  byId('net').className = kind;
}

function sendOpen() {
  if (!game.open || !socket || socket.readyState !== 1) return;
  socket.send(`act ${game.open.number} ${game.open.words}`);
  clearTimeout(late);
  late = setTimeout(() => netSays('no answer yet, the server waits', 'gone'), LATE);
}

// The action that was sent is answered.
function closeOpen() {
  game.open = null;
  clearTimeout(late);
  netSays('live', 'here');
}

function hear(message) {
  if (message.match !== undefined) return hearGreeting(message);
  if (message.number !== undefined) return hearState(message);
  if (message.here) { game.here = message.here; return draw(); }
  if (message.hello) return;
  if (message.re !== undefined) return hearAnswer(message);
  if (message.no && isPlayer() && !isGreeted) hearNoSeat();
}

// Another server may have made the match, or a new link, a moment ago: it is asked for again. A page
// that had its seat may have lost it: the link was replaced, or the match deleted.
function hearNoSeat() {
  countRefusal();
  const since = game.match ? ' any more' : game.refused ? '' : ' yet';
  say(`This link is no seat of a match here${since}${game.refused ? '' : ', trying again'}.`);
  draw();
}

// The match that one watches was deleted. It is asked for again, as it may be restored.
function hearNoMatch() {
  countRefusal();
  say(`This match is not here any more${game.refused ? '' : ', trying again'}.`);
}

function countRefusal() {
  game.refusals++;
  pause = 2000;
  game.refused = game.refusals >= REFUSALS;
}

function hearGreeting(message) {
  if (game.refusals) say('');
  game.refusals = 0;
  isGreeted = true;
  pause = 500;
  game.match = message.match;
  game.names = message.names;
  game.you = message.you;
  game.dice = message.dice || '';
  netSays('live', 'here');
  drawLinks();
  sendOpen();
}

function hearAnswer(message) {
  if (!game.open || message.re !== game.open.number) return;
  if (message.no) {
    closeOpen();
    say(message.no === 'another entry' ? 'That was answered already.' : 'The server says: ' + message.no + '.');
    draw();
  } else if (message.done) {
    closeOpen();
    draw();
  }
}

function hearState(state) {
  const before = game.state, isNew = !before || before.number !== state.number;
  game.state = state;
  if (state.winner && !(before && before.winner)) drawLinks();
  if (game.open && state.number >= game.open.number) closeOpen();
  if (isNew) {
    game.steps = [];
    game.from = null;
    const side = sideOf();
    const position = { mine: countsOf(state, side), theirs: countsOf(state, other(side)) };
    game.ways = state.may && state.may.includes('move') ? waysOf(position, state.dice) : [];
    takeLines(state);
    if (state.number > LONG && !game.isLong) {
      game.isLong = true;
      say('This match is very long: servers that share a store take some 45,000 entries of it.');
    }
  }
  draw();
  if (game.wanted >= 0) {
    stepTo(game.wanted);
    game.wanted = NaN;
  }
}

// The lines of all entries: the last ones come with each state, and the others are asked for once.
// A text that comes late has fewer lines than the page has meanwhile.
async function takeLines(state) {
  const first = state.number - state.last.length;
  if (game.lines.length >= first) {
    game.lines = game.lines.slice(0, first).concat(state.last);
    return;
  }
  const text = await fetched(`/matches/${game.match}/transcript`, 'text');
  const lines = (text || '').split('\n').slice(1).filter(line => line);
  if (lines.length < game.lines.length) return;
  game.lines = lines;
  drawMoves();
}

function drawLinks() {
  const base = '/matches/' + game.match, watch = location.origin + base;
  fill(byId('links'),
    game.you ? element('span', {}, 'To watch: ', element('a', { href: base }, watch), ' ', copying(watch)) : null,
    element('a', { href: base + '/transcript', download: game.match + '.txt' }, 'Transcript'), ' ',
    element('a', { href: base + '/mat', download: game.match + '.mat' }, 'Match file'), ' ',
    element('a', { href: base + '/picture' }, 'Picture'));
  fill(byId('dice'), diceNote(base));
}

// What is told of the dice: the SHA-256 of the secret that they are made of, and the secret once
// the match is over.
function diceNote(base) {
  const isOver = Boolean(game.state && game.state.winner);
  if (!game.dice && !isOver) return null;
  const before = element('p', {}, 'They are made of a secret, drawn before the first roll. Its SHA‑256 is ',
    element('code', {}, game.dice), ' ', copying(game.dice));
  const after = isOver
    ? element('p', {}, element('a', { href: base + '/dice', download: game.match + '-dice.txt' }, 'The secret'),
      ' is told now: bg_relay dice checks each roll by it.')
    : element('p', {}, 'The secret is told when the match is over. Then bg_relay dice checks each roll by it.');
  return element('details', {}, element('summary', {}, 'Dice'), game.dice ? before : null, after);
}

function startMatch() {
  game.secret = location.hash.slice(1);
  game.wanted = isPlayer() ? NaN : Number(location.hash.slice(1) || NaN);
  byId('back').addEventListener('click', () => stepTo(currentNumber() - 1));
  byId('forth').addEventListener('click', () => stepTo(currentNumber() + 1));
  byId('first').addEventListener('click', () => stepTo(0));
  byId('now').addEventListener('click', () => stepTo(Infinity));
  if (isFramed()) openElsewhere();
  connect();
}

// In a frame of another site links open pages of their own.
const isFramed = () => /\/embed$/.test(location.pathname);

function openElsewhere() {
  const up = document.querySelector('.up');
  up.textContent = 'Open';
  up.href = location.pathname.replace(/\/embed$/, '');
  document.head.append(element('base', { target: '_blank' }));
}
"#;
