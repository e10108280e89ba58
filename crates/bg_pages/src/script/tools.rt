//! What all parts of the script use: elements, texts, sounds and requests.

pub(crate) const TEXT: &str = r#"'use strict';
// The script of all pages of this server. It keeps nothing, and loads nothing from elsewhere.
const byId = id => document.getElementById(id);

// Makes an element, with attributes and what is in it.
function element(name, attributes, ...inside) {
  const made = document.createElement(name);
  for (const [key, value] of Object.entries(attributes || {})) {
    if (typeof value === 'function') made.addEventListener(key, value);
    else if (value !== null && value !== false) made.setAttribute(key, value === true ? '' : value);
  }
  made.append(...inside.filter(part => part !== null && part !== undefined));
  return made;
}

// The same in a drawing.
function drawn(name, attributes, ...inside) {
  const made = document.createElementNS('http://www.w3.org/2000/svg', name);
  for (const [key, value] of Object.entries(attributes || {})) {
    if (typeof value === 'function') made.addEventListener(key, value);
    else if (value !== null && value !== false) made.setAttribute(key, value);
  }
  made.append(...inside.filter(part => part !== null && part !== undefined));
  return made;
}

function fill(place, ...inside) {
  place.textContent = '';
  place.append(...inside.filter(part => part !== null && part !== undefined));
}

function button(words, act, kind) {
  return element('button', { type: 'button', class: kind || '', click: act }, words);
}

// What a path of the server has, read as `kind` says: null where it has none, or its answer is lost.
async function fetched(path, kind) {
  try {
    const answer = await fetch(path);
    return answer.ok ? await answer[kind]() : null;
  } catch (lost) {
    return null;
  }
}

const other = player => player === 'X' ? 'O' : 'X';

// Whether a sound is wanted; browsers let none be heard before the first click.
let audio = null;
function listen() {
  const Context = window.AudioContext || window.webkitAudioContext;
  if (!audio && Context) audio = new Context();
}

function chime() {
  if (!audio || audio.state !== 'running') return;
  const tone = audio.createOscillator(), volume = audio.createGain(), now = audio.currentTime;
  tone.frequency.value = 660;
  volume.gain.setValueAtTime(0.08, now);
  volume.gain.exponentialRampToValueAtTime(0.001, now + 0.35);
  tone.connect(volume).connect(audio.destination);
  tone.start(now);
  tone.stop(now + 0.36);
}
document.addEventListener('pointerdown', listen, { once: true });
document.addEventListener('keydown', listen, { once: true });

// Lets a text be copied, and says so.
function copying(text) {
  const copy = button('Copy', async () => {
    try {
      await navigator.clipboard.writeText(text);
      copy.textContent = 'Copied';
    } catch (refused) {
      copy.textContent = 'Press Ctrl+C';
      getSelection().selectAllChildren(copy.previousElementSibling);
    }
    setTimeout(() => { copy.textContent = 'Copy'; }, 2000);
  }, 'small');
  return copy;
}

function pointName(point) {
  return point === 25 ? 'bar' : point === 0 ? 'off' : String(point);
}

function stepWords(step) {
  return pointName(step[0]) + '-' + pointName(step[1]);
}

// A turn as people write it, as in 8/5 6/5.
function turnWords(steps) {
  return steps.length ? steps.map(step => pointName(step[0]) + '/' + pointName(step[1])).join(' ') : 'no move';
}
"#;
