//! The part of the script that finds the ways to play a throw.

pub(crate) const TEXT: &str = r#"
// ---- The ways to play a throw, by the rules of the game. The server judges what is sent: these
// only help.

function afterStep(position, step) {
  const mine = position.mine.slice(), theirs = position.theirs.slice();
  mine[step[0]]--;
  mine[step[1]]++;
  const met = 25 - step[1];
  if (step[1] > 0 && theirs[met] > 0) {
    theirs[25] += theirs[met];
    theirs[met] = 0;
  }
  return { mine, theirs };
}

function positionKey(position) {
  return position.mine.join() + '/' + position.theirs.join();
}

// The steps by one die.
function stepsBy(position, pips) {
  const found = [], { mine, theirs } = position;
  const highest = mine.reduce((last, count, point) => count > 0 ? point : last, 0);
  for (let from = 25; from > 0; from--) {
    if (!mine[from] || (mine[25] && from !== 25)) continue;
    const to = Math.max(from - pips, 0);
    if (to > 0 && theirs[25 - to] > 1) continue;
    if (to === 0 && (highest > 6 || (from < pips && from !== highest))) continue;
    found.push([from, to]);
  }
  return found;
}

// All ways to play a throw: as many dice as can be, and where one alone can, the larger if
// possible. A turn that bears off the last checker is whole in any case.
function waysOf(position, dice) {
  const ways = [], seen = new Set();
  let most = 0;
  const go = (now, left, steps) => {
    most = Math.max(most, steps.length);
    const isOver = now.mine[0] === 15;
    ways.push({ steps, isOver, pips: dice.length ? dice[0] + dice[1] - left.reduce((sum, pips) => sum + pips, 0) : 0, end: positionKey(now) });
    for (const pips of new Set(left)) {
      const rest = left.slice();
      rest.splice(rest.indexOf(pips), 1);
      for (const step of stepsBy(now, pips)) {
        const words = steps.concat([step]).join(' ') + '|' + rest;
        if (seen.has(words)) continue;
        seen.add(words);
        go(afterStep(now, step), rest, steps.concat([step]));
      }
    }
  };
  const isDouble = dice.length && dice[0] === dice[1];
  go(position, isDouble ? [dice[0], dice[0], dice[0], dice[0]] : dice, []);
  const longest = ways.filter(way => way.steps.length === most || (way.isOver && way.steps.length));
  const larger = most === 1 && !isDouble ? Math.max(...longest.map(way => way.pips)) : 0;
  return longest.filter(way => way.pips >= larger || way.isOver);
}

const sameStep = (one, two) => one[0] === two[0] && one[1] === two[1];

// The ways that begin with these steps.
function waysBehind(ways, steps) {
  return ways.filter(way => steps.every((step, index) => way.steps[index] && sameStep(step, way.steps[index])));
}

// Where the checker of a point may go, and by which steps: by one, or by more that follow each
// other.
function targetsFrom(ways, steps, from) {
  const targets = new Map();
  for (const way of waysBehind(ways, steps)) {
    let at = from;
    for (let index = steps.length; index < way.steps.length && way.steps[index][0] === at; index++) {
      at = way.steps[index][1];
      const chain = way.steps.slice(steps.length, index + 1);
      if (!targets.has(at) || targets.get(at).length > chain.length) targets.set(at, chain);
    }
  }
  return targets;
}

// Which dice are used up by steps: for each die whether it is.
function usedDice(dice, steps) {
  const all = dice[0] === dice[1] ? [dice[0], dice[0], dice[0], dice[0]] : dice.slice();
  const used = all.map(() => false);
  for (const [from, to] of steps) {
    const pips = from - to;
    let at = all.findIndex((die, index) => !used[index] && die === pips);
    if (at < 0) at = all.findIndex((die, index) => !used[index] && die > pips);
    if (at >= 0) used[at] = true;
  }
  return all.map((die, index) => ({ die, used: used[index] }));
}
"#;
