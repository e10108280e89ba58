//! The part of the script that draws the board.

pub(crate) const TEXT: &str = r#"
// ---- The board, drawn from the side of one player: his points 1 to 12 below, from right to left.
const COLUMN = 40, BAR = 46, TRAY = 52, EDGE = 8, NUMBERS = 18, HALF = 208, MIDDLE = 52;
const WIDTH = 2 * EDGE + 12 * COLUMN + BAR + TRAY, HEIGHT = 2 * (NUMBERS + HALF) + MIDDLE;
const LOW = HEIGHT - NUMBERS, HIGH = NUMBERS, CENTRE = HEIGHT / 2;
const TRAY_X = EDGE + 12 * COLUMN + BAR + TRAY / 2, BAR_X = EDGE + 6 * COLUMN + BAR / 2;

// The middle of a point's column.
function columnOf(point) {
  const column = point <= 12 ? 12 - point : point - 13;
  return EDGE + column * COLUMN + COLUMN / 2 + (column > 5 ? BAR : 0);
}

function triangle(point) {
  const x = columnOf(point), up = point > 12, base = up ? HIGH : LOW, tip = up ? HIGH + HALF - 16 : LOW - HALF + 16;
  const kind = 'triangle ' + (point % 2 ? 'odd' : 'even');
  return drawn('path', { class: kind, d: `M${x - 19} ${base}L${x + 19} ${base}L${x} ${tip}Z` });
}

// A pile of checkers that grows from a height up or down; where it has more than five a number says
// how many.
function pile(x, y, grows, count, player, marks) {
  const group = drawn('g', {}), shown = Math.min(count, 5);
  for (let index = 0; index < shown; index++) {
    const last = index === shown - 1;
    const kind = 'checker ' + player + (last && marks ? ' ' + marks : '');
    group.append(drawn('circle', { class: kind, cx: x, cy: y + grows * index * 36, r: 17 }));
  }
  if (count > 5) {
    const top = y + grows * 4 * 36;
    group.append(drawn('text', { class: 'count ' + player, x, y: top + 5 }, String(count)));
  }
  return group;
}

function numberOf(point) {
  return drawn('text', { class: 'number', x: columnOf(point), y: point > 12 ? HIGH - 5 : LOW + 14 }, String(point));
}

const PIPS = { 1: [4], 2: [0, 8], 3: [0, 4, 8], 4: [0, 2, 6, 8], 5: [0, 2, 4, 6, 8], 6: [0, 2, 3, 5, 6, 8] };

function dieAt(x, y, die, player, used) {
  const group = drawn('g', { class: 'die ' + player + (used ? ' used' : '') });
  group.append(drawn('rect', { x: x - 15, y: y - 15, width: 30, height: 30, rx: 6 }));
  for (const pip of PIPS[die]) {
    group.append(drawn('circle', { cx: x + (pip % 3 - 1) * 8.5, cy: y + (Math.floor(pip / 3) - 1) * 8.5, r: 2.7 }));
  }
  return group;
}

// The dice of the player whose turn it is: at the right those of the side from which one looks.
function diceOf(view) {
  const group = drawn('g', {});
  if (!view.dice.length) return group;
  const mine = view.mover === view.side;
  const middle = mine ? EDGE + 9 * COLUMN + BAR : EDGE + 3 * COLUMN;
  const shown = usedDice(view.dice, view.steps);
  shown.forEach(({ die, used }, index) => {
    const x = middle + (index - (shown.length - 1) / 2) * 36;
    group.append(dieAt(x, CENTRE, die, view.mover, used));
  });
  return group;
}

// The cube: in the middle, or at the side of its owner.
function cubeOf(view) {
  const { value, owner } = view.cube;
  const y = owner === '' ? CENTRE : owner === view.side ? CENTRE + 44 : CENTRE - 44;
  const shown = view.isDoubled ? value * 2 : value === 1 && owner === '' ? 64 : value;
  const kind = 'cube' + (view.isDoubled ? ' offered' : '');
  return drawn('g', { class: kind },
    drawn('rect', { x: TRAY_X - 17, y: y - 17, width: 34, height: 34, rx: 6 }),
    drawn('text', { x: TRAY_X, y: y + 6 }, String(shown)));
}

// The checkers that are off, as bars on each other.
function trayOf(count, player, isMine) {
  const group = drawn('g', { class: 'tray' });
  for (let index = 0; index < count; index++) {
    const y = isMine ? LOW - 8 - index * 9 : HIGH + 1 + index * 9;
    group.append(drawn('rect', { class: 'borne ' + player, x: TRAY_X - 20, y, width: 40, height: 7, rx: 3 }));
  }
  return group;
}

// Where a finger or a key meets a point: the whole column.
function fieldOf(point) {
  if (point === 25) return { x: BAR_X - BAR / 2, y: CENTRE, width: BAR, height: HEIGHT / 2 - 4 };
  if (point === 0) return { x: TRAY_X - TRAY / 2, y: CENTRE + 66, width: TRAY, height: HEIGHT / 2 - 70 };
  const up = point > 12;
  return { x: columnOf(point) - COLUMN / 2, y: up ? 0 : LOW - HALF, width: COLUMN, height: HALF + NUMBERS };
}

// How the last checker of a point is marked: as moved last, as taken, or as one that may be taken.
function marksOf(view, point) {
  if (view.from === point) return 'taken';
  if (view.fields.some(([at, kind]) => at === point && kind === 'source')) return 'free';
  return view.last.includes(point) ? 'moved' : '';
}

// Draws the board; `view` says what stands where, and what may be touched.
function drawBoard(view) {
  const { side, mine, theirs } = view, away = other(side);
  const picture = drawn('svg', { viewBox: `0 0 ${WIDTH} ${HEIGHT}`, class: 'board', role: 'group', 'aria-label': view.words });
  picture.append(drawn('rect', { class: 'frame', x: 0, y: 0, width: WIDTH, height: HEIGHT, rx: 10 }));
  for (const left of [EDGE, EDGE + 6 * COLUMN + BAR]) {
    picture.append(drawn('rect', { class: 'felt', x: left, y: HIGH, width: 6 * COLUMN, height: LOW - HIGH }));
  }
  picture.append(drawn('rect', { class: 'slot', x: TRAY_X - 23, y: HIGH, width: 46, height: LOW - HIGH, rx: 4 }));
  for (let point = 1; point <= 24; point++) picture.append(triangle(point), numberOf(point));
  for (let point = 1; point <= 24; point++) {
    const x = columnOf(point), up = point > 12, y = up ? HIGH + 18 : LOW - 18, grows = up ? 1 : -1;
    const marks = marksOf(view, point);
    if (mine[point]) picture.append(pile(x, y, grows, mine[point], side, marks));
    if (theirs[25 - point]) picture.append(pile(x, y, grows, theirs[25 - point], away, marks));
  }
  if (mine[25]) picture.append(pile(BAR_X, CENTRE + 40, 1, mine[25], side, marksOf(view, 25)));
  if (theirs[25]) picture.append(pile(BAR_X, CENTRE - 40, -1, theirs[25], away, ''));
  picture.append(trayOf(mine[0], side, true), trayOf(theirs[0], away, false), cubeOf(view), diceOf(view));
  for (const [point, kind] of view.fields) picture.append(touchable(view, point, kind));
  return picture;
}

// A field that may be touched: a checker that may be taken, or a point where it may go.
function touchable(view, point, kind) {
  const words = kind === 'source' ? `take a checker from ${pointName(point)}`
    : kind === 'target' ? `move to ${pointName(point)}` : `put the checker of ${pointName(point)} back`;
  const group = drawn('g', {
    class: 'field ' + kind, role: 'button', tabindex: '0', 'data-point': point, 'aria-label': words,
    keydown: event => {
      if (event.key !== 'Enter' && event.key !== ' ') return;
      event.preventDefault();
      view.touch(point);
    },
  });
  const box = fieldOf(point);
  group.append(drawn('rect', { ...box, rx: 5 }));
  if (kind === 'target') {
    const up = point > 12 && point < 25;
    const y = point === 0 ? LOW - 40 : up ? HIGH + HALF - 14 : LOW - HALF + 14;
    group.append(drawn('circle', { class: 'goal', cx: box.x + box.width / 2, cy: y, r: 9 }));
  }
  return group;
}

// The point whose field lies under a finger.
function pointAt(picture, event) {
  const under = document.elementFromPoint(event.clientX, event.clientY);
  const field = under && under.closest && picture.contains(under) ? under.closest('[data-point]') : null;
  return field ? Number(field.getAttribute('data-point')) : null;
}

// What stands on the board, for those who can't see it.
function boardWords(counts, name) {
  const parts = [];
  for (let point = 24; point > 0; point--) if (counts[point]) parts.push(`${counts[point]} on ${point}`);
  if (counts[25]) parts.unshift(`${counts[25]} on the bar`);
  if (counts[0]) parts.push(`${counts[0]} off`);
  return `${name}: ${parts.join(', ')}.`;
}

const pipCount = counts => counts.reduce((sum, count, point) => sum + count * point, 0);
"#;
