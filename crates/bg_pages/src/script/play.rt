//! The part of the script that shows a match, and lets a player play.

pub(crate) const TEXT: &str = r#"
// ---- A match: what the server told of it, what is shown, and the steps that the player has made
// of his turn.
const game = {
  match: '', names: ['', ''], you: '', dice: '', here: [false, false, 0],
  state: null, earlier: null, lines: [], steps: [], from: null, ways: [], open: null, secret: '', isMine: false,
  wanted: NaN, asked: 0, refusals: 0, refused: false, isLong: false,
};

const shownState = () => game.earlier || game.state;
const countsOf = (state, player) => player === 'X' ? state.x : state.o;
const nameOf = player => game.names[player === 'X' ? 0 : 1] || (player === 'X' ? 'Player X' : 'Player O');
const sideOf = () => game.you || 'X';
const isLive = () => game.earlier === null;
const isMyMove = () => isLive() && game.state && game.state.may && game.state.may.includes('move');
// Who has a seat acts on the newest position alone, and by one action at a time.
const isSeated = () => isLive() && game.you !== '' && !game.refused;
const mayAct = () => isSeated() && !game.open;
const mayMove = () => isMyMove() && mayAct();

// The points where the checkers of the last move have come to stand, in the numbers of the side
// from which one looks.
function lastPoints(state) {
  const line = state.last[state.last.length - 1] || '', moved = / move /.test(line) ? line : state.last[state.last.length - 2] || '';
  if (!/ move /.test(moved) || (line !== moved && !/ roll |pass/.test(line))) return [];
  const ends = [];
  for (const [, from, to] of moved.matchAll(/(\w+)-(\w+)/g)) {
    if (ends.includes(from)) ends.splice(ends.indexOf(from), 1);
    ends.push(to);
  }
  const isMine = moved[0] === sideOf();
  return ends.filter(end => end !== 'off').map(Number).map(point => isMine ? point : 25 - point);
}

function viewOf(state) {
  const side = sideOf(), position = { mine: countsOf(state, side), theirs: countsOf(state, other(side)) };
  const steps = isMyMove() ? game.steps : [];
  const now = steps.reduce(afterStep, position);
  return {
    side, mine: now.mine, theirs: now.theirs, dice: state.dice, steps, cube: state.cube, from: game.from,
    mover: state.turn || (/^([XO])/.exec(state.phase) || [side, side])[0], isDoubled: /double$/.test(state.phase),
    last: steps.length ? steps.map(step => step[1]) : lastPoints(state), fields: fieldsOf(steps), touch,
    words: `Board, seen by ${nameOf(side)}. ${state.phase}.`,
  };
}

// What may be touched: checkers that may be taken, and where the one that is taken may go.
function fieldsOf(steps) {
  if (!mayMove()) return [];
  if (game.from !== null) {
    const targets = [...targetsFrom(game.ways, steps, game.from).keys()];
    return [[game.from, 'back'], ...targets.map(point => [point, 'target'])];
  }
  const sources = new Set(waysBehind(game.ways, steps).filter(way => way.steps.length > steps.length)
    .map(way => way.steps[steps.length][0]));
  return [...sources].sort((a, b) => b - a).map(point => [point, 'source']);
}

// A point is touched: a checker is taken, put back, or moved.
function touch(point) {
  const targets = game.from === null ? new Map() : targetsFrom(game.ways, game.steps, game.from);
  if (targets.has(point)) {
    game.steps = game.steps.concat(targets.get(point));
    game.from = null;
  } else {
    game.from = point === game.from ? null : point;
  }
  draw();
  focusField();
}

// Whether the steps are a whole turn.
const isWhole = () => game.ways.some(way => way.steps.length === game.steps.length
  && waysBehind([way], game.steps).length === 1);

function focusField() {
  const place = byId('board').querySelector(game.from === null ? '.source' : '.target');
  const done = byId('acts').querySelector('button.main');
  if (document.activeElement === document.body) (place || done || document.body).focus({ preventScroll: true });
}

function undo() {
  game.steps = [];
  game.from = null;
  draw();
}

function act(words) {
  if (!game.state) return;
  game.open = { number: game.state.number + 1, words };
  game.from = null;
  say('');
  sendOpen();
  draw();
}

// Plays a turn: its steps are shown until the server has answered.
function actMove(steps) {
  game.steps = steps;
  act(['move', ...steps.map(stepWords)].join(' '));
}

function say(words) {
  byId('say').textContent = words;
}

// ---- What is shown

function playerLine(state, player) {
  const is = game.here[player === 'X' ? 0 : 1], score = state.score[player === 'X' ? 0 : 1];
  const presence = element('span', { class: 'presence ' + (is ? 'here' : 'gone'), title: is ? 'here' : 'away' }, is ? 'here' : 'away');
  return [
    element('span', { class: 'dot ' + player }), element('strong', {}, nameOf(player)),
    game.you === player ? element('span', { class: 'you' }, 'you') : null, presence,
    element('span', { class: 'pips' }, `${pipCount(countsOf(state, player))} pips`),
    element('span', { class: 'score' }, `${score} / ${state.length}`),
  ];
}

// What is to happen next, as in "Your turn: move 3 1".
function phaseWords(state) {
  const found = /^([XO]) (to )?(.*)$/.exec(state.phase);
  if (!found) return 'A game opens';
  const [, player, isTurn, words] = found, isYou = player === game.you;
  if (isTurn) return (isYou ? 'Your turn: ' : nameOf(player) + ': ') + words;
  if (state.winner) return (isYou ? 'You have' : nameOf(player) + ' has') + ' won the match';
  return (isYou ? 'You offer' : nameOf(player) + ' offers') + ' to resign: ' + words.replace('resigns ', '');
}

function draw() {
  const state = shownState();
  if (!state) return;
  const side = sideOf(), picture = drawBoard(viewOf(state));
  fill(byId('board'), picture);
  dragging(picture);
  fill(byId('away'), ...playerLine(state, other(side)));
  fill(byId('home'), ...playerLine(state, side));
  byId('phase').textContent = phaseWords(state) + (state.crawford && !state.winner ? ' · Crawford game' : '');
  byId('title').textContent = `${nameOf('X')} – ${nameOf('O')}, to ${state.length} point${state.length > 1 ? 's' : ''}, game ${state.game}`;
  fill(byId('acts'), ...(isSeated() ? actionButtons(game.state) : []));
  if (game.open) byId('acts').querySelectorAll('button').forEach(made => { made.disabled = true; });
  byId('words').textContent = [phaseWords(state), boardWords(state.x, nameOf('X')), boardWords(state.o, nameOf('O')),
    `Cube: ${state.cube.value}${state.cube.owner ? ', owned by ' + nameOf(state.cube.owner) : ''}.`].join(' ');
  byId('watching').textContent = game.here[2] ? `${game.here[2]} watching` : '';
  drawTitle();
  drawMoves();
}

function drawTitle() {
  const state = game.state, isMine = game.you !== '' && state.turn === game.you;
  document.title = (state.winner ? 'Over' : isMine ? '● Your turn' : game.you ? 'Waiting' : phaseWords(state)) + ' – backgammon';
  if (isMine && !game.isMine) chime();
  game.isMine = isMine;
}

// A checker that is dragged to where it may go is moved there.
function dragging(picture) {
  picture.addEventListener('pointerdown', event => {
    const point = pointAt(picture, event);
    if (point === null) return;
    event.preventDefault();
    touch(point);
    game.pressed = point;
  });
}
document.addEventListener('pointerup', event => {
  const picture = byId('board') && byId('board').firstElementChild;
  if (!picture || game.from === null || game.pressed === undefined) return;
  const point = pointAt(picture, event);
  if (point !== null && point !== game.pressed) touch(point);
  game.pressed = undefined;
});

document.addEventListener('keydown', event => {
  if (!game.state || event.ctrlKey || event.altKey || event.metaKey || /INPUT|SELECT|TEXTAREA/.test(event.target.tagName)) return;
  if (byId('ask').open) return;
  const may = game.state.may || [], key = event.key;
  if (key === 'Escape' && game.from !== null) { game.from = null; draw(); }
  else if (key === 'u' && mayAct()) undo();
  else if (key === 'r' && mayAct() && may.includes('roll')) act('roll');
  else if (key === 'ArrowLeft') stepTo(currentNumber() - 1);
  else if (key === 'ArrowRight') stepTo(currentNumber() + 1);
  else if (key === 'End') stepTo(Infinity);
});

// ---- Earlier positions

const currentNumber = () => shownState() ? shownState().number : 0;

async function stepTo(number) {
  if (!game.state) return;
  const wanted = Math.max(0, number);
  if (wanted >= game.state.number) {
    game.asked++;
    game.earlier = null;
  } else {
    const asked = ++game.asked, earlier = await fetched(`/matches/${game.match}/states/${wanted}`, 'json');
    if (!earlier || asked !== game.asked) return;
    game.earlier = earlier;
  }
  game.from = null;
  if (!game.you) history.replaceState(null, '', game.earlier ? '#' + wanted : location.pathname);
  draw();
}

function drawMoves() {
  const list = byId('moves'), now = currentNumber();
  const rows = game.lines.map((line, index) => {
    const row = button(`${index + 1}. ${line}`, () => stepTo(index + 1), 'line' + (index + 1 === now ? ' now' : ''));
    return element('li', {}, row);
  });
  fill(list, ...rows);
  const marked = list.querySelector('.now');
  if (marked) list.scrollTop = marked.offsetTop - list.clientHeight / 2;
  byId('back').disabled = now === 0;
  byId('forth').disabled = isLive();
  byId('now').hidden = isLive();
}
"#;
