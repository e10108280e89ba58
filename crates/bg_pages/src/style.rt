//! The style of the pages.

pub(crate) const STYLE_TEXT: &str = r#":root {
  color-scheme: light dark;
  --paper: #f6f3ec; --ink: #26221c; --faint: #6d665b; --line: #d9d2c4; --card: #fffdf8;
  --main: #1f6f54; --main-ink: #ffffff; --warn: #a63b1e;
  --frame: #5a3d28; --felt: #d9c9a8; --odd: #a9764a; --even: #efe3c8; --slot: #452d1d; --number: #e9dcc3;
  --x: #33373f; --x-edge: #0f1115; --o: #fbf7ee; --o-edge: #6f675a; --goal: #1f8f66; --moved: #d28a1c;
  font: 16px/1.45 system-ui, -apple-system, "Segoe UI", sans-serif;
}
@media (prefers-color-scheme: dark) {
  :root {
    --paper: #17191c; --ink: #ece8e0; --faint: #a19b90; --line: #34383d; --card: #1f2226;
    --main: #3fa27f; --main-ink: #08130f; --warn: #ff9a7a;
    --frame: #2b211a; --felt: #3a3f3c; --odd: #6d4a33; --even: #575f5a; --slot: #1b1511; --number: #b8ad99;
    --x: #14161a; --x-edge: #8b93a1; --o: #efe9dc; --o-edge: #8d8678; --goal: #49c795; --moved: #f0b04a;
  }
}
* { box-sizing: border-box; }
body { margin: 0; background: var(--paper); color: var(--ink); }
header { display: flex; gap: .75rem; align-items: baseline; padding: .5rem 1rem; border-bottom: 1px solid var(--line); flex-wrap: wrap; }
h1 { font-size: 1.05rem; margin: 0; flex: 1 1 12rem; }
h2 { font-size: 1rem; margin: 1rem 0 .4rem; }
a { color: var(--main); }
p { margin: .4rem 0; }
button, input, select { font: inherit; color: var(--ink); }
button { min-height: 2.75rem; padding: .3rem .9rem; border: 1px solid var(--line); border-radius: .6rem; background: var(--card); cursor: pointer; }
button:hover:not(:disabled) { border-color: var(--main); }
button:disabled { opacity: .45; cursor: default; }
button.main { background: var(--main); border-color: var(--main); color: var(--main-ink); font-weight: 600; }
button.quiet { background: none; color: var(--faint); }
button.small { min-height: 0; padding: .1rem .5rem; font-size: .85rem; }
:focus-visible { outline: 3px solid var(--goal); outline-offset: 2px; }
input, select { min-height: 2.75rem; padding: .4rem .5rem; border: 1px solid var(--line); border-radius: .5rem; background: var(--card); max-width: 100%; }

.home main { max-width: 60rem; margin: 0 auto; padding: 0 1rem 2rem; }
.home h1 { font-size: 1.4rem; }
#new { display: flex; flex-wrap: wrap; gap: .75rem; align-items: end; }
#new label { display: grid; gap: .15rem; font-size: .9rem; color: var(--faint); min-width: 0; }
#length { width: 5rem; }
#rules { width: 14rem; }
#made { background: var(--card); border-radius: .6rem; margin-top: .75rem; padding: 0 1rem; }
#made:not(:empty) { border: 1px solid var(--line); padding: .25rem 1rem .75rem; }
.link { display: flex; gap: .6rem; flex-wrap: wrap; align-items: center; }
.link a { overflow-wrap: anywhere; }
.downloads { display: flex; gap: .6rem; flex-wrap: wrap; align-items: center; color: var(--faint); }
.search { color: var(--faint); font-size: .9rem; }
table { border-collapse: collapse; width: 100%; }
th, td { text-align: left; padding: .35rem .6rem .35rem 0; border-bottom: 1px solid var(--line); }
th { font-size: .85rem; color: var(--faint); font-weight: 500; }
td.number { white-space: nowrap; }
.none { color: var(--faint); }

.match main { display: grid; grid-template-columns: minmax(0, 46rem) minmax(13rem, 1fr); gap: 1.25rem; padding: .75rem 1rem 1.5rem; max-width: 76rem; margin: 0 auto; }
.player { display: flex; gap: .6rem; align-items: center; padding: .25rem .1rem; white-space: nowrap; }
.player strong { overflow: hidden; text-overflow: ellipsis; }
.player .score { margin-left: auto; font-weight: 600; }
.dot { width: 1rem; height: 1rem; border-radius: 50%; border: 2px solid var(--x-edge); background: var(--x); flex: none; }
.dot.O { background: var(--o); border-color: var(--o-edge); }
.you { font-size: .8rem; padding: 0 .4rem; border-radius: .4rem; border: 1px solid var(--line); }
.presence, .pips { font-size: .85rem; color: var(--faint); }
.presence.here::before, #net.here::before { content: "● "; color: var(--goal); }
.presence.gone::before, #net.gone::before { content: "○ "; }
#net, #watching { font-size: .85rem; color: var(--faint); }
#net.gone { color: var(--warn); }
#phase { font-size: 1.1rem; font-weight: 600; margin: .3rem 0; min-height: 1.6em; }
#acts { display: flex; gap: .5rem; flex-wrap: wrap; min-height: 2.75rem; }
#say { color: var(--warn); min-height: 1.45em; }
.words { position: absolute; width: 1px; height: 1px; overflow: hidden; clip-path: inset(50%); white-space: nowrap; }
nav { display: flex; gap: .4rem; align-items: center; flex-wrap: wrap; }
nav button { min-width: 2.75rem; padding: .3rem; }
#moves { list-style: none; margin: .5rem 0; padding: 0; max-height: 26rem; overflow-y: auto; position: relative; border: 1px solid var(--line); border-radius: .6rem; }
#moves:empty { display: none; }
.line { display: block; width: 100%; min-height: 0; text-align: left; border: 0; border-radius: 0; background: none; padding: .15rem .6rem; font-size: .9rem; font-variant-numeric: tabular-nums; }
.line.now { background: var(--main); color: var(--main-ink); }
#links { display: flex; gap: .8rem; flex-wrap: wrap; font-size: .9rem; overflow-wrap: anywhere; }
details { font-size: .9rem; margin: .4rem 0; }
summary { cursor: pointer; color: var(--main); padding: .4rem 0; }
code { overflow-wrap: anywhere; font-size: .85em; }
dialog { border: 1px solid var(--line); border-radius: .8rem; background: var(--card); color: var(--ink); max-width: 22rem; }
dialog button { margin: .2rem .3rem .2rem 0; }

.board { display: block; width: 100%; height: auto; max-height: 78vh; touch-action: manipulation; user-select: none; -webkit-user-select: none; }
.frame { fill: var(--frame); }
.felt { fill: var(--felt); }
.slot { fill: var(--slot); }
.triangle.odd { fill: var(--odd); }
.triangle.even { fill: var(--even); }
.number { fill: var(--number); font-size: 12px; text-anchor: middle; }
td.number { font-size: inherit; }
.checker { stroke-width: 2; }
.checker.X { fill: var(--x); stroke: var(--x-edge); }
.checker.O { fill: var(--o); stroke: var(--o-edge); }
.checker.moved { stroke: var(--moved); stroke-width: 4; }
.checker.free { stroke: var(--goal); stroke-width: 3; }
.checker.taken { stroke: var(--goal); stroke-width: 5; }
.count { font-size: 15px; font-weight: 700; text-anchor: middle; }
.count.X { fill: #f3efe6; }
.count.O { fill: #26221c; }
.borne.X { fill: var(--x); stroke: var(--x-edge); }
.borne.O { fill: var(--o); stroke: var(--o-edge); }
.die rect { fill: var(--x); stroke: var(--x-edge); stroke-width: 1.5; }
.die circle { fill: #f3efe6; }
.die.O rect { fill: var(--o); stroke: var(--o-edge); }
.die.O circle { fill: #26221c; }
.die.used { opacity: .3; }
.cube rect { fill: #f7f4ec; stroke: #8a8273; stroke-width: 1.5; }
.cube text { fill: #26221c; font-size: 17px; font-weight: 700; text-anchor: middle; }
.cube.offered rect { fill: #ffd98a; }
.field { cursor: pointer; }
.field rect { fill: transparent; }
.field.source:hover rect { fill: #ffffff24; }
.field.target rect { fill: #49c79533; }
.field .goal { fill: var(--goal); stroke: #ffffffcc; stroke-width: 2; pointer-events: none; }
.field:focus { outline: none; }
.field:focus-visible rect { stroke: var(--goal); stroke-width: 3; }
@media (hover: hover) { .field.source rect { stroke: none; } }
@media (max-width: 52rem) {
  .match main { grid-template-columns: minmax(0, 1fr); padding: .4rem .5rem 1rem; gap: .5rem; }
  header { padding: .4rem .6rem; }
  .match h1 { order: 1; flex-basis: 100%; font-size: .95rem; }
  .match #net { margin-left: auto; }
  #moves { max-height: 10rem; }
  #new { display: grid; }
  th:last-child, td:last-child { display: none; }
}
@media (prefers-reduced-motion: no-preference) { .field.target .goal { animation: glow 1.2s ease-in-out infinite alternate; } }
@keyframes glow { from { opacity: .65; } to { opacity: 1; } }
"#;
