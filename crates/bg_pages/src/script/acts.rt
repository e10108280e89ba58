//! The part of the script that offers what a player may do.

pub(crate) const TEXT: &str = r#"
// ---- What a player may press

function actionButtons(state) {
  const may = state.may || [], acts = [];
  if (may.includes('roll')) acts.push(button('Roll', () => act('roll'), 'main'));
  if (may.includes('double')) acts.push(button('Double', () => act('double')));
  if (may.includes('take')) acts.push(button('Take', () => act('take'), 'main'));
  if (may.includes('drop')) acts.push(button('Drop', () => act('drop')));
  if (may.includes('accept')) acts.push(button('Accept', () => act('accept'), 'main'));
  if (may.includes('reject')) acts.push(button('Reject', () => act('reject')));
  if (may.includes('move')) acts.push(...moveButtons());
  if (may.includes('resign')) acts.push(button('Resign …', askResign, 'quiet'));
  return acts;
}

// Turns that lead to one position are one: a forced one has a button.
function moveButtons() {
  const acts = [], isForced = new Set(game.ways.map(way => way.end)).size === 1;
  if (isForced) {
    const { steps } = game.ways[0];
    const words = steps.length ? 'Play ' + turnWords(steps) + ', the only move' : 'No move: pass the turn';
    acts.push(button(words, () => actMove(steps), 'main'));
  } else if (isWhole()) {
    acts.push(button('Play ' + turnWords(game.steps), () => actMove(game.steps), 'main'));
  }
  if (game.steps.length) acts.push(button('Undo', undo));
  return acts;
}

// Asks for the level of an offer to resign, and then once more.
function askResign() {
  const levels = [['normal', 'a single game'], ['gammon', 'a gammon'], ['backgammon', 'a backgammon']];
  const ask = byId('ask'), close = () => ask.close();
  const sure = ([word, what]) => fill(ask, element('p', {}, `Offer to resign ${what}?`),
    button('Yes, resign', () => { close(); act('resign ' + word); }, 'main'), button('No', close));
  fill(ask, element('p', {}, 'Resign what?'), ...levels.map(level => button(level[1], () => sure(level))),
    button('Cancel', close, 'quiet'));
  ask.showModal();
}
"#;
