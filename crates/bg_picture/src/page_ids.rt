//! The script of a page that names a position for other programs.
ghost use Rattle.std.specs.Prelude.{◌≡◌, ◌++◌, OnOk};
ghost use Rattle.bg_picture.specs.PageIds.{id_script};

use bg_text::put_text;
use std::alloc::AllocError;

/// The script: it makes the IDs of an item from the item's data, and buttons that copy them.
const ID_SCRIPT: &str = "\
function packed(bits, count) {
  const bytes = new Uint8Array(count);
  bits.forEach((bit, place) => { bytes[place >> 3] |= bit << (place & 7); });
  return btoa(String.fromCharCode(...bytes)).replaceAll('=', '');
}
function identified(it) {
  const isOpening = it.next === 'opening', player = it.player || 'X';
  if (!it.player && !isOpening) return [];
  const length = Number(/[0-9]+/.exec(it.game)[0]), crawford = length > 1 && it.game.includes('Crawford');
  const level = ['normal', 'gammon', 'backgammon'].indexOf(String(it.level).trim()) + 1;
  const isDoubled = it.act === 'to answer', other = player === 'X' ? 'O' : 'X';
  const roller = isDoubled ? other : player, actor = level ? other : player;
  const dice = it.dice === '-' ? [0, 0] : [...it.dice].sort().reverse(), cube = Math.log2(it.cube);
  const side = name => it[name].slice(1).flatMap(count => [...Array(count).fill(1), 0]);
  const board = roller === 'X' ? [...side('O'), ...side('X')] : [...side('X'), ...side('O')];
  const fields = [[cube, 4], [{ O: 0, X: 1, '-': 3 }[it.owner], 2], [roller === 'X', 1], [crawford, 1],
    [!isOpening, 3], [actor === 'X', 1], [isDoubled, 1], [level, 2], [dice[0], 3], [dice[1], 3],
    [length, 15], [it.o, 15], [it.x, 15], [1, 1]];
  const bits = ([number, width]) => Array.from({ length: width }, (_, place) => number >> place & 1);
  const gnubg = packed(board, 10) + ':' + packed(fields.flatMap(bits), 9);
  if (isOpening || level) return [gnubg];
  const sign = name => ({ O: -1, X: 1, '-': 0 })[name];
  const marks = it.X.map((count, place) => {
    const own = place && count, others = place < 25 && it.O[25 - place];
    return own ? String.fromCharCode(64 + own) : others ? String.fromCharCode(96 + others) : '-';
  });
  return [gnubg, ['XGID=' + marks.join(''), cube, sign(it.owner), sign(roller), isDoubled ? 'D' : dice.join(''),
    it.x, it.o, Number(crawford), length, 7].join(':')];
}
function copied(id) {
  const line = document.createElement('p'), code = document.createElement('code');
  const button = document.createElement('button');
  code.textContent = id;
  button.textContent = 'copy';
  button.onclick = () => {
    getSelection().selectAllChildren(code);
    document.execCommand('copy');
  };
  line.append(code, ' ', button);
  return line;
}
";

/// Appends the script.
#[tactic(auto, unfolding(crate::specs::PageIds::id_script))]
pub(crate) fn put_id_script(out: &mut Vec<u8>) -> Result<(), AllocError>
    ensures { OnOk result (out.new.items ≡ out.old.items ++ id_script) }
{
    put_text(out, ID_SCRIPT)
}
