//! How the pages look, and what the script adds.

ghost use Rattle.std.specs.Prelude.{◌≡◌};
ghost use Rattle.table_views.specs.Looks.{script, style};

/// The style of all pages.
const STYLE: &str = "\
:root { color-scheme: light dark; --ink: #14181c; --paper: #fff; --line: #c8ced4; --soft: #f1f4f6;
  --good: #1b7a3d; --wait: #8a5a00; --bad: #b3261e; --mark: #fff2b8; --link: #0b57a4; }
@media (prefers-color-scheme: dark) {
  :root { --ink: #eef2f5; --paper: #12171b; --line: #3a434b; --soft: #1b2228; --good: #6fd08c;
    --wait: #f0c060; --bad: #ff8f84; --mark: #5a4a10; --link: #8ec5ff; }
}
* { box-sizing: border-box; }
body { margin: 0; background: var(--paper); color: var(--ink);
  font: 1rem/1.35 system-ui, \"Noto Sans\", \"Noto Sans CJK SC\", sans-serif; }
a { color: var(--link); }
nav { display: flex; flex-wrap: wrap; gap: 1rem; padding: .4rem .8rem;
  border-bottom: 1px solid var(--line); }
#bar { margin: 0; padding: .3rem .8rem; min-height: 2rem; color: var(--good); }
#bar.lost { background: var(--bad); color: var(--paper); font-weight: bold; }
#bar.away { color: var(--wait); }
#bar small { color: inherit; opacity: .7; }
main { padding: .4rem .8rem; }
h1 { font-size: 1.4rem; margin: .2rem 0; }
h2 { font-size: 1.05rem; margin: .8rem 0 .3rem; }
.count, .options { margin: .2rem 0; }
.rules { margin: .1rem 0 .6rem; }
form label { display: inline-block; }
label output { margin-left: .5rem; }
input, select, textarea, button { font: inherit; padding: .3rem .5rem; color: inherit;
  background: var(--paper); border: 1px solid var(--line); border-radius: .3rem; }
button { background: var(--soft); cursor: pointer; }
body.hall textarea, #read { display: block; max-width: 90vw; }
:focus-visible { outline: 3px solid var(--link); outline-offset: 1px; }
body.entry main { display: grid; grid-template-columns: 30rem minmax(0, 1fr); gap: 0 2rem;
  grid-template-areas: \"card round\" \"recent round\"; grid-template-rows: auto 1fr; }
#card { grid-area: card; }
#recent { grid-area: recent; }
#beside { grid-area: round; contain: content; }
#card:has(#blind:checked) ~ #beside #round { visibility: hidden; }
[hidden] { display: none; }
.field { display: grid; grid-template-columns: 6rem 9rem minmax(0, 1fr) auto; gap: .1rem .6rem;
  align-items: center; margin: .25rem 0; }
.field input { font-size: 1.5rem; width: 100%; font-variant-numeric: tabular-nums; }
.field label { text-align: right; }
.field .stands:not(:empty)::before { content: \"stands \"; }
.field .stands { color: var(--wait); }
.field .stands.changed { background: var(--mark); }
.field output { font-size: 1.2rem; overflow-wrap: anywhere; }
.field strong, .told, .wrong, #unsent { color: var(--bad); font-weight: bold; }
.field .said { grid-column: 2 / 5; }
[data-unit=moves] p input { grid-column: 2 / 5; font-size: 1rem; }
[data-unit=moves] p output { grid-column: 2 / 4; }
.field strong { display: block; }
.field input:disabled { background: var(--soft); border-style: dashed; }
.keys { font-size: .85rem; margin: .3rem 0; }
kbd { padding: 0 .25rem; border: 1px solid var(--line); border-radius: .2rem; }
#spoken { position: absolute; width: 1px; height: 1px; overflow: hidden; clip-path: inset(50%); }
.results { display: flex; gap: 2rem; font-size: 1.3rem; min-height: 1.8rem; margin: .3rem 0; }
#found { grid-column: 2 / 5; list-style: none; margin: 0; padding: 0; }
#found li { padding: .2rem .4rem; }
#found li.chosen { background: var(--mark); }
#recent ol, #back { list-style: none; margin: 0; padding: 0; }
#recent li, #back li { padding: .25rem 0; border-bottom: 1px solid var(--line);
  overflow-wrap: anywhere; }
#recent small { color: inherit; opacity: .8; }
#recent .typed span { display: inline-block; margin-right: .7rem;
  font-variant-numeric: tabular-nums; }
#recent .typed span:empty { display: none; }
#recent em, #back em { display: block; font-style: normal; }
#recent form { display: inline-block; margin: .2rem .6rem .2rem 0; }
.saved em { color: var(--good); }
.waits em { color: var(--wait); }
.changed em, .refused em, #back em { color: var(--bad); font-weight: bold; }
caption { text-align: left; font-size: .85rem; padding: .15rem 0; }
caption p { margin: 0; }
table { border-collapse: collapse; width: 100%; font-variant-numeric: tabular-nums; }
th, td { padding: .15rem .4rem; border-bottom: 1px solid var(--line); text-align: right; }
#round thead { position: sticky; top: 0; background: var(--paper); }
#round :is(table, caption, thead, tbody) { display: block; }
#round th { font-size: .85rem; }
#round tr { display: grid; grid-template-columns: 3.5rem 4.5rem minmax(9rem, 1fr);
  grid-auto-columns: minmax(4.4rem, 6.2rem); grid-auto-flow: column; }
#round tbody tr { content-visibility: auto; contain-intrinsic-size: auto 1.7rem; }
#round th:nth-child(3), #round td:nth-child(3), body.hall th, body.hall td { text-align: left; }
#round td:nth-child(3) { overflow-wrap: anywhere; min-width: 8rem; unicode-bidi: plaintext; }
#round td[data-country]::after { content: \" \" attr(data-country); font-size: .75em; }
#round td[data-record]::before, td.pr::before { content: \"PR \"; font-size: .6em;
  vertical-align: .4em; }
#round td:last-child, #round th:last-child { display: none; }
tr.absent { background: var(--soft); }
tr.begun td:first-child { border-left: .3rem solid var(--wait); }
tr.absent td:first-child { border-left: .3rem solid var(--line); color: transparent; }
tr.done td:first-child { border-left: .3rem solid var(--good); }
td.changed { background: var(--mark); }
#round tr.hidden { display: none; }
tr.read td:nth-child(2)::after { content: \" \\2713\"; color: var(--good); }
tr.current { outline: 2px solid var(--link); outline-offset: -2px; }
body.hall form { display: flex; flex-wrap: wrap; gap: .6rem; align-items: end; }
body.hall td { overflow-wrap: anywhere; }
body.hall ul, body.hall main section > ol { columns: 16rem; margin: .2rem 0; padding-left: 1.6rem; }
body.hall li { break-inside: avoid; }
@media (max-width: 70rem) {
  body.entry main { display: block; }
}
@media (max-width: 44rem) {
  #beside { overflow-x: auto; }
}
@media (max-width: 30rem) {
  .field output.wrong { grid-column: 1 / 5; }
}
@media print {
  nav, #bar, #recent, body.wall caption { display: none; }
  [data-title]::before { content: attr(data-title); display: block; width: 0; white-space: nowrap;
    text-align: left; font-weight: bold; margin-bottom: .4em; }
}
pre { overflow-x: auto; }
body.wall, body.scorecards { color: #000; background: #fff; }
body.wall main, body.scorecards main { padding: 0; }
body.wall h1 { font-size: .9rem; font-weight: normal; }
body.wall .told { color: inherit; font-weight: normal; }
body.wall th, body.wall td { padding: .1rem .3rem; vertical-align: bottom; }
body.wall td { white-space: nowrap; }
body.wall td:last-child { font-size: .9em; }
body.wall th:nth-child(3) { text-align: left; overflow-wrap: anywhere; min-width: 11rem; }
body.wall a { color: inherit; text-decoration: none; }
body.wall tr.yes > *, body.wall td:nth-child(4) { font-weight: bold; }
body.wall table { font-size: .85rem; }
body.wall thead { display: table-header-group; }
body.wall tr { break-inside: avoid; }
.signature { margin-top: 12mm; break-inside: avoid; }
.signature span { display: inline-block; width: 60mm; border-bottom: 1px solid #000; }
body.scorecards main { display: grid; grid-template-columns: 1fr 1fr; grid-auto-rows: 136mm; }
.scorecard { position: relative; border: 1px dashed #888; padding: 5mm; break-inside: avoid;
  overflow: hidden; }
.scorecard p { margin: 0 0 1mm; }
.scorecard .hall { font-size: .75rem; max-width: 48mm; }
.scorecard .round { font-weight: bold; }
.scorecard .group { position: absolute; top: 5mm; right: 5mm; }
.scorecard .who { display: grid; grid-template-columns: auto 1fr; column-gap: 3mm;
  line-height: 1.2; }
.scorecard .who b { grid-row: 1 / 3; align-self: center; min-width: 16mm; font-size: 2.2rem;
  line-height: 1; }
.scorecard .who bdi { min-height: 1.2em; max-height: 3.6em; overflow: hidden;
  overflow-wrap: anywhere; }
.scorecard .who > span { min-height: 1.2em; font-size: .85rem; }
.scorecard :is(.group, .next) span { display: inline-block; min-width: 18mm; }
.scorecard :is(b, bdi, .who > span):empty, .scorecard :is(.group, .next) span {
  border-bottom: 1px solid #000; }
.scorecard :is(.next, .together) { font-size: .75rem; }
.scorecard th, .scorecard td { border: 1px solid #000; height: 11mm; text-align: center; }
.scorecard table { table-layout: fixed; }
.scorecard th, .scorecard td { padding: 0; }
.scorecard thead th { height: auto; font-size: .65rem; font-weight: normal; }
.scorecard thead th:first-child { width: 12mm; }
.scorecard thead th:nth-child(3) { width: 32%; }
.scorecard thead th:nth-child(5) { width: 20%; }
.scorecard tr.cutoff > * { border-bottom: 1mm solid #000; }
.scorecard tr.extra > * { height: 8mm; border-style: dashed; }
.scorecard tr.extra th { font-size: .75rem; font-weight: normal; }
.scorecard .rules { font-size: .75rem; margin-top: 2mm; }
.duties { grid-column: 1 / 3; display: grid; grid-template-columns: 1fr 1fr 2fr; gap: 0 5mm;
  align-content: start; padding: 5mm; border: 1px dashed #888; break-inside: avoid;
  overflow: hidden; }
.duties h2 { grid-column: 1 / 4; margin: 0 0 2mm; font-size: 1rem; }
.duties h3 { margin: 0 0 1mm; font-size: .9rem; }
.duties ul { margin: 0; padding: 0; list-style: none; font-size: .75rem; }
.duties div:last-child ul { columns: 2; }
body.labels { page: labels; color: #000; background: #fff; }
body.labels main { display: grid; grid-template-columns: repeat(3, 70mm); grid-auto-rows: 37mm;
  padding: 0; }
.label { display: grid; grid-template-columns: auto 1fr; column-gap: 3mm; align-content: center;
  margin: 0; padding: 4mm; line-height: 1.2; break-inside: avoid; overflow: hidden; }
.label b { grid-row: 1 / 3; align-self: center; min-width: 14mm; font-size: 2.2rem;
  line-height: 1; }
.label bdi { max-height: 4.8em; overflow: hidden; overflow-wrap: anywhere; }
.label span { font-size: .85rem; }
@page labels { size: A4; margin: 0; }
@page { size: A4; margin: 10mm; }
";

/// What a script adds: Enter goes from field to field and submits without waiting, each field says
/// what it reads, and the round and the last cards keep up. What the competition's file says of the
/// round, if there is a file, is asked for at most once for each change of the round.
const SCRIPT: &str = "\
'use strict'; // What a script adds to the pages of the score table. Each page works without it.
const $ = (id) => document.getElementById(id);
const all = (selector, root = document) => [...root.querySelectorAll(selector)];
const form = document.querySelector('#card form[data-unit]'), rules = form ? form.dataset : {};
const fields = form ? all('input[id^=a]', form) : [];
const beside = (field, selector) => field.parentNode.querySelector(selector);
const make = (tag, text) => Object.assign(document.createElement(tag), { textContent: text });
const pageOf = (text) => new DOMParser().parseFromString(text, 'text/html');
// The rows of a round, each of which is a line of its page; and the page without them.
const rowsIn = (text) => [...text.matchAll(/^(<tr class=.*?<td>)([^<]*)(.*?number=([0-9]+).*)/gm)]
  .map(([, start, place, rest, number]) => ({ place, number, html: start + rest }));
const byNumber = (found) => new Map(found.map(({ number, html }) => [number, html]));
const pageBeside = (text) => pageOf(text.replace(/^<tr class=.*/gm, ''));
// What is so already stays, since the browser lays out anew whatever is set.
const put = (it, values) => {
  for (const [key, value] of Object.entries(values)) if (it[key] !== value) it[key] = value;
};
const say = (it, textContent, wrong) => put(it, { textContent, className: wrong ? 'wrong' : '' });
// ---- what is typed, read as the program reads it
const two = (number) => String(number).padStart(2, '0');
const clock = (n) => (n < 6000 ? Math.floor(n / 100)
  : Math.floor(n / 6000) + ':' + two(Math.floor(n / 100) % 60)) + '.' + two(n % 100);
function readTime(text) {
  const [, time, mark = 'none'] = /^([^+]*)(?:[+](.*))?$/.exec(text);
  const even = /^([2468]|1[02468])$/.test(mark), filled = /^[0-9]{1,7}$/.test(time);
  const penalty = even ? mark / 2 : { none: 0, '': 1, '+': 2 }[mark];
  const parts = filled ? /^(.*)(..)(..)$/.exec(time.padStart(5, '0'))
    : /^(?:([0-9]{1,3})[:.,](?=..[.,]))?([0-9]{1,2})[.,]([0-9]{2})$/.exec(time);
  if (penalty === undefined) return { wrong: 'penalties are +2, +4 to +18' };
  if (!parts) return { wrong: 'a time is like 1043, 10.43 or 1:02.33' };
  const [minutes, seconds, rest] = parts.slice(1).map((part) => Number(part || 0));
  if (seconds > 59 && (filled ? minutes > 0 : parts[1])) return { wrong: 'seconds are below 60' };
  const measured = 6000 * minutes + 100 * seconds + rest, sum = measured + 200 * penalty;
  if (measured < 1 || measured > 999999) return { wrong: 'a time is 0.01 to 166:39.99' };
  const late = clock(measured) + ' is at or above the limit: DNF';
  if (measured >= Number(rules.limit)) return { value: 'DNF', time: sum, words: late };
  const value = sum <= 60000 ? sum : Math.floor((sum + 50) / 100) * 100, result = clock(value);
  const added = penalty ? clock(measured) + ' + ' + 2 * penalty + ' = ' : '';
  return { value, time: sum, result, words: added + result };
}
function readMulti(text) {
  const found = /^([0-9]{1,2})[/]([0-9]{1,2}) (?:([0-9]{1,2}):(?=..$))?([0-9]{1,4})$/.exec(text);
  const [solved, attempted, minutes, rest] = (found || []).slice(1).map((it) => Number(it || 0));
  const late = found && rest % 100 > 59 && (found[3] || rest > 99), unsolved = attempted - solved;
  if (!found || attempted < 2 || unsolved < 0 || late) return { wrong: 'as 11/13 58:20' };
  const seconds = 60 * (minutes + Math.floor(rest / 100)) + rest % 100;
  const time = Math.floor(seconds / 60) + ':' + two(seconds % 60), points = solved - unsolved;
  const result = solved + '/' + attempted + ' ' + time;
  if (solved < 2 || points < 0) return { value: 'DNF', words: result + ' is DNF' };
  return { value: (99 - points) * 1e7 + 100 * seconds + unsolved, result, words: result };
}
// A turn of a sticker's place, which is right, up and to the front.
const turn = { x: ([a, b, c]) => [a, c, -b], y: ([a, b, c]) => [-c, b, a],
  z: ([a, b, c]) => [b, -a, c] };
const axisOf = { R: 'x', L: 'x', U: 'y', D: 'y', F: 'z', B: 'z' };
// Each sticker of a cube: of which side it is, where it is, and where it looks.
function solvedCube() {
  const three = [-1, 0, 1], sides = [0, 1, 2].flatMap((axis) => [[axis, -1], [axis, 1]]);
  return sides.flatMap(([axis, side], of) => three.flatMap((a) => three.map((b) => {
    const [at, looks] = [[a, b], [0, 0]];
    return { of, at: at.toSpliced(axis, 0, side), looks: looks.toSpliced(axis, 0, side) };
  })));
}
function turned(cube, move) {
  const [side, wide] = move, axis = axisOf[side] || side, back = 'LDB'.includes(side);
  const least = wide === 'w' ? -0.5 : axis === side ? -2 : 0.5;
  const quarters = move.endsWith('2') ? 2 : move.endsWith(\"'\") === back ? 1 : 3;
  const go = (it) => [1, 2, 3].slice(0, quarters).reduce(turn[axis], it);
  return cube.map(({ of, at, looks }) => (back ? -1 : 1) * at['xyz'.indexOf(axis)] < least
    ? { of, at, looks } : { of, at: go(at), looks: go(looks) });
}
const isSolved = (cube) => new Set(cube.map((it) => it.of + ' ' + it.looks)).size === 6;
const scrambles = {};
function readMoves(text, place) {
  const moves = text.split(/ +/), scramble = scrambles[place + 1];
  const count = moves.filter((it) => !/^[xyz]/.test(it)).length, result = String(count);
  if (/^[0-9]+$/.test(text)) return { wrong: 'a number of moves alone is no solution' };
  if (!moves.every((it) => /^([RLUDFB]w?|[xyz])[2']?$/.test(it)) || moves.length > 400) {
    return { wrong: \"moves are like R U' F2 Rw x\" };
  }
  const all = scramble ? [...scramble.split(' '), ...moves] : [];
  const unsolved = !isSolved(all.reduce(turned, solvedCube()));
  const fails = 'does not solve scramble ' + (place + 1) + ': DNF';
  if (unsolved) return { value: 'DNF', unsolved, words: fails };
  if (count > 80) return { value: 'DNF', unsolved: true, words: 'more than 80 moves: DNF' };
  return { value: count, result, words: result + (count === 1 ? ' move' : ' moves') };
}
function read(text, place) {
  const plain = text.trim().toLowerCase(), short = rules.unit !== 'moves';
  if (plain === '') return null;
  if (/^(dnf|[/])$/.test(plain) || (short && plain === 'd')) return { value: 'DNF', words: 'DNF' };
  if (/^(dns|[*])$/.test(plain) || (short && plain === 's')) return { value: 'DNS', words: 'DNS' };
  if (!short) return readMoves(text.trim(), place);
  return rules.unit === 'time' ? readTime(plain) : readMulti(plain);
}
// What stands for an attempt, as the form carries it: its value, and its text.
function standing(place) {
  const text = beside(fields[place], '.stands').textContent;
  const value = form.elements.was.value.split(',')[place];
  return text && { value: isNaN(value) ? value : Number(value), result: text, words: '' };
}
// What a field is filled in with: what was entered, where that is known, else what it counts.
const entered = (field) => beside(field, '[type=hidden]');
const inside = (field) => (entered(field) || {}).value || beside(field, '.stands').textContent;
// What was typed into a field; null where it is as it stands.
const touched = (field) => field.value.trim() === inside(field) ? null : field.value;
const readAt = (field, place) =>
  touched(field) === null ? standing(place) || null : read(field.value, place);
// Digits and signs of an input method become those of the keyboard.
function narrow(event) {
  const field = event.target;
  if (event.isComposing || !field.matches('#card input, [data-unit], [name=number]')) return;
  const plain = field.value.normalize('NFKC').replaceAll('\\u3002', '.');
  const text = plain.replace(/[\\u2018\\u2019\\u2032]/g, \"'\");
  if (field.value !== text) field.value = text;
}
// ---- best and average as they would be
const third = (n) => n <= 180000 ? Math.floor((2 * n + 3) / 6) : Math.floor((n + 150) / 300) * 100;
function averageOf(values) {
  const size = { ao5: 5, mo3: 3 }[rules.format];
  if (rules.unit !== 'time' || values.length !== size || values.includes(undefined)) return '';
  const numbers = values.filter(Number.isFinite).sort((a, b) => a - b);
  const [a, b, c] = size === 5 ? numbers.slice(1, 4) : numbers;
  return 'average ' + (c === undefined ? 'DNF' : clock(third(a + b + c)));
}
function bestOf(readings) {
  const done = readings.filter((reading) => reading && Number.isFinite(reading.value));
  const [best] = done.sort((a, b) => a.value - b.value);
  return best ? 'best ' + best.result : '';
}
// ---- the card. It is open for the number `whose`; times on it were typed for the number `moved`.
let whose = '', moved = '', warned = null, sure = '', chosen = 0;
const rows = () => all('#round tbody tr');
const cell = (row, place) => row.cells[place].textContent;
// The rows by their numbers.
const numbered = () => new Map(rows().map((row) => [cell(row, 1), row]));
const rowOf = (text) => shown.numbered.get(String(Number(text)));
const nameOf = (row) => cell(row, 1) + ' ' + cell(row, 2);
const textsOf = (row) => fields.map((field, place) => cell(row, 5 + place).replace(/^-$/, ''));
const enter = (field) => { field.focus(); field.select(); };
const isBlind = () => $('blind').checked;
const isTyped = () => fields.some((field) => touched(field) !== null);
const mayLeave = () => !isTyped() || confirm('Typed and not entered: '
  + fields.map(touched).filter((text) => text !== null).join(' ') + '. Leave it?');
function beep() {
  if (!$('sound').checked) return;
  const audio = new AudioContext(), tone = new OscillatorNode(audio);
  tone.connect(audio.destination);
  tone.start();
  tone.stop(0.15);
}
// Shows what each field reads, and closes the fields after a cutoff that is not met.
function update() {
  const [after, border] = rules.cutoff.split(':').map(Number);
  const readings = fields.map(readAt);
  const below = (reading) => !reading || reading.value === undefined || reading.value < border;
  const missed = after > 0 && !readings.slice(0, after).some(below);
  fields.forEach((field, place) => {
    field.disabled = missed && place >= after;
    if (field.disabled) readings[place] = null;
    const { wrong, words = '' } = readings[place] || {};
    say(beside(field, 'output'), field.disabled ? 'the cutoff is not met' : wrong || words, wrong);
    put(field, { ariaInvalid: wrong ? 'true' : 'false' });
  });
  say($('average'), averageOf(readings.filter(Boolean).map((reading) => reading.value)));
  say($('best'), bestOf(readings));
  return readings;
}
// Shows a card over what stands: `was` as the log has it, and its texts. What was typed is null
// where it was not touched.
function show(number, name, was, texts, typed) {
  const old = all('strong, .told, .origin, [name=sure], .field [type=hidden]', form);
  for (const it of old) it.remove();
  $('number').value = whose = number;
  say($('who'), name);
  form.elements.was.value = was;
  fields.forEach((field, place) => {
    const stands = texts[place] || '', text = !typed || typed[place] === null ? stands
      : typed[place] || '';
    put(beside(field, '.stands'), { textContent: stands, className: 'stands' });
    field.value = reads(text, place, stands) ? stands : text;
  });
  warned = null;
  suggest([]);
  update(), point();
}
// Whether a text that is no solution is read as what stands.
function reads(text, place, stands) {
  const { value, result = value } = read(text, place) || {};
  return rules.unit !== 'moves' && result === stands;
}
const isWhole = (field) => field.selectionStart === 0 && field.selectionEnd === field.value.length;
// What stands changed while the card is open: fields that were typed in stay as they are, unless
// what was typed is read as what stands now and nobody types in it.
function keepUp() {
  const row = rowOf(whose), was = form.elements.was.value;
  if (!whose || !row || isBlind() || row.dataset.was === was) return;
  textsOf(row).forEach((text, place) => {
    const field = fields[place], stands = beside(field, '.stands'), typed = touched(field);
    if (stands.textContent === text) return;
    const here = field === document.activeElement, left = !here || isWhole(field);
    if (typed === null || (left && reads(typed, place, text))) {
      field.value = text;
      if (here) field.select();
    }
    if (entered(field)) entered(field).remove();
    stands.textContent = text;
    stands.classList.add('changed');
  });
  form.elements.was.value = row.dataset.was;
  [warned, sure] = [null, ''];
  update();
  if (!isTyped()) tell(row);
}
function empty() {
  sure = moved = '';
  show('', '', '-', []);
  $('number').focus();
}
function open(row, typed = waitingOf(row), from = '') {
  const blind = isBlind();
  [sure, moved] = ['', from];
  show(cell(row, 1), cell(row, 2), blind ? '-' : row.dataset.was, blind ? [] : textsOf(row), typed);
  tell(row);
  enter(fields[0]);
}
// What was typed on a card of a competitor that waits, here or at the table; none where none does.
function waitingOf(row) {
  const here = [...sent, ...sending].findLast((it) => it.body.get('number') === cell(row, 1));
  const end = location.pathname + '?number=' + cell(row, 1);
  const waits = all('#recent li.waits a').find((it) => it.href.endsWith(end));
  return isBlind() ? undefined : here ? here.typed : waits && typedIn(waits.closest('li'));
}
const typedIn = (line) =>
  all('.typed span', line).map((it) => it.className === 'kept' ? null : it.textContent);
// The card of a row as the table has it now; empty where it does not answer.
async function cardOf(row) {
  const answer = await fetch(location.pathname + '?number=' + cell(row, 1)).catch(() => null);
  return pageOf((answer ? await answer.text() : '').split('<section id=\"recent\"', 1)[0]);
}
// Says by which entry of the log a card stands so, at once; and where one without attempts is
// withdrawn, where nothing is typed on it for a moment.
async function tell(row) {
  const number = cell(row, 1);
  if (!hasAny(row)) await new Promise((done) => setTimeout(done, 400));
  if (whose !== number || isBlind() || (!hasAny(row) && isTyped())) return;
  const page = await cardOf(row);
  if (whose !== number || isBlind()) return;
  for (const it of all('.origin', form)) it.remove();
  form.prepend(...all('.origin', page));
  fill(page.querySelector('form[data-unit]'));
}
// Fields that were not touched are filled in with what was entered, where a card stands so.
function fill(card) {
  if (!card || card.elements.was.value !== form.elements.was.value) return;
  for (const it of all('.field [type=hidden]', card)) {
    const field = fields[it.name.slice(1) - 1], typed = touched(field);
    if (entered(field)) continue;
    field.after(it);
    if (typed !== null) continue;
    field.value = it.value;
    if (field === document.activeElement) field.select();
  }
}
// ---- whose card it is
const letters = { '\\u0142': 'l', '\\u00f8': 'o', '\\u0111': 'd', '\\u0131': 'i', '\\u00df': 'ss',
  '\\u00e6': 'ae', '\\u0153': 'oe', '\\u00fe': 'th', '\\u00f0': 'd' };
const folded = (text) => text.normalize('NFKD').toLowerCase().replace(/\\p{M}|['\\u2019`]/gu, '')
  .replace(/[^\\0-\\x7f]/gu, (letter) => letters[letter] || letter);
const wordsOf = (text) => ' ' + folded(text).split(/[^\\p{L}\\p{N}]+/u).filter(Boolean).join(' ');
// How a name may be typed, kept by the name.
const typings = new Map();
function typingsOf(name) {
  const apart = () => name.replace(/['\\u2019`]/g, ' ');
  if (!typings.has(name)) typings.set(name, wordsOf(name) + wordsOf(apart()));
  return typings.get(name);
}
// Those of whose name a part begins so.
function candidates() {
  const text = wordsOf($('number').value);
  if (text === ' ' || /^ [0-9]/.test(text)) return [];
  return rows().filter((row) => typingsOf(cell(row, 2)).includes(text)).slice(0, 8);
}
function suggest(found) {
  chosen = Math.max(0, Math.min(chosen, found.length - 1));
  if (found.length + $('found').children.length === 0) return;
  $('found').replaceChildren(...found.map((row, place) => {
    const line = make('li', nameOf(row)), is = place === chosen;
    Object.assign(line, { id: 'found' + place, role: 'option', ariaSelected: String(is) });
    line.className = is ? 'chosen' : '';
    line.addEventListener('click', () => take(row));
    return line;
  }));
  $('number').ariaExpanded = String(found.length > 0);
  $('number').setAttribute('aria-activedescendant', found.length > 0 ? 'found' + chosen : '');
}
// The name beside a number is that number's.
function nameIt() {
  const row = rowOf($('number').value || '-');
  chosen = 0;
  say($('who'), row ? cell(row, 2) : '');
  suggest(candidates()), point();
}
// Opens the card of a row. What was typed for another number comes along, and is asked about.
function take(row) {
  const from = moved || whose;
  if (!isTyped()) return open(row);
  open(row, fields.map(touched), from === cell(row, 1) ? '' : from);
}
function choose() {
  const text = $('number').value.trim();
  const row = /^[0-9]+$/.test(text) ? rowOf(text) : candidates()[chosen];
  if (row) return take(row);
  if (text === '' && ($('eye').checked || isBlind())) return next();
  say($('who'), text === '' ? 'whose card is it?' : 'nobody in this round: ' + text, true);
  if (/^[0-9]+$/.test(text)) who(text);
  return enter($('number')), beep();
}
// Says who has a number that is not in the round, and offers to enter them, where it is the first.
async function who(number) {
  const answer = await fetch('/person/' + Number(number)).catch(() => ({}));
  const page = answer.ok ? pageOf(await answer.text()) : null, it = $('who');
  const [event, round] = form.elements.round.value.split('-');
  const button = Object.assign(make('button', 'enter in this round'), { type: 'button' });
  if ($('number').value.trim() !== number || !it.className) return;
  if (answer.status === 404) it.append(', and nobody has this number');
  if (!page) return;
  const told = page.querySelector('h1 + p').textContent.replace(/^Number [0-9]+/, '');
  it.append(' ' + page.querySelector('h1').textContent + told.replace(/:$/, ': none'));
  button.addEventListener('click', () => enterIn(event, number));
  if (round === '1') it.append(' ', button);
}
async function enterIn(event, number) {
  const pairs = { command: 'ENT', event, number: Number(number), back: location.pathname };
  const why = await post('/command', { ...pairs, id: spare.shift() });
  say($('who'), why || 'entered: Enter opens the card', why);
  enter($('number'));
}
// ---- what is to be confirmed of a card
// Of each attempt: the word of each question, and what is asked.
function doubts(readings, place) {
  const { value, result = value, unsolved, time } = readings[place] || {}, found = [];
  const stands = beside(fields[place], '.stands').textContent;
  const without = stands ? 'is on record, and would be struck out?' : 'left empty?';
  if (!readings[place] && !(fields[place].disabled && !stands)) found.push(['changes', without]);
  if (!readings[place]) return found;
  if (stands && result !== stands) found.push(['changes', 'in place of ' + stands + '?']);
  if (unsolved) found.push(['unsolved', 'is it so?']);
  return time === undefined ? found : [...found, ...tooFast(time), ...unlike(readings, place)];
}
function tooFast(time) {
  const fast = time < Number(rules.floor), half = 2 * time < Number(rules.best);
  return [...(fast ? [['fast', 'faster than anybody has ever been?']] : []),
    ...(half ? [['half', 'less than half of the best of the round?']] : [])];
}
// A time is looked at beside the others that are typed, and beside all others.
function unlike(readings, place) {
  const { time } = readings[place], rest = readings.filter((it, at) => it && at !== place);
  const typed = rest.map((it) => it.time).filter(Number.isFinite);
  const both = [typed, rest.map((it) => it.time ?? it.value).filter(Number.isFinite)];
  const some = (is) => both.some((others) => others.length > 0 && others.every(is));
  const asks = some((other) => time > 2 * other) ? 'more than twice the others?'
    : some((other) => 2 * time < other) ? 'less than half of the others?' : '';
  return asks ? [['unlike', asks]] : [];
}
// The place, from the third on, from which the first two results come again; none where none does.
function repeats(readings) {
  const all = readings.map((it) => it && Number.isFinite(it.value) ? it.value : null);
  return all[0] && all[1] && [2, 3].find((at) => all[0] === all[at] && all[1] === all[at + 1]
    && fields.slice(at, at + 2).some((field) => touched(field) !== null));
}
// The words of all that is to be confirmed, which are shown; none where there is nothing.
function questions(readings) {
  const told = fields.map((field, place) => doubts(readings, place)), again = repeats(readings);
  if (again) told[again].push(['repeats', 'the first two again?']);
  told.forEach((found, place) => {
    const it = beside(fields[place], 'output'), asks = found.map(([, words]) => words);
    if (asks.length > 0) say(it, [it.textContent, ...asks].join(' '), true);
  });
  return told.flatMap((found, place) =>
    found.map(([word]) => word === 'repeats' ? word : word + '-' + (place + 1)));
}
function submit() {
  const readings = update(), row = rowOf($('number').value);
  const body = new URLSearchParams(new FormData(form)), typed = fields.map(touched);
  const wrong = readings.findIndex((reading) => reading && reading.wrong);
  if (!row || whose !== cell(row, 1)) return choose();
  if (wrong >= 0) return enter(fields[wrong]), beep();
  if (!isBlind() && !isTyped()) return untyped(row);
  const words = questions(readings), { value: was } = form.elements.was;
  const whole = JSON.stringify([row.dataset.was, was, whose, typed, words, moved]);
  if ((words.length > 0 || moved) && warned !== whole) {
    warned = whole;
    const also = moved ? 'typed for ' + moved + ', and now for ' + nameOf(row) + '. ' : '';
    say($('average'), also + 'Enter once more, if it is right', true);
    return beep();
  }
  body.set('number', cell(row, 1));
  body.set('sure', [sure, ...words].join(' '));
  if (isBlind()) return compare(row, readings);
  sending.push({ body, name: nameOf(row), typed });
  const other = crypto.getRandomValues(new BigUint64Array(1))[0] >> 2n;
  form.elements.id.value = spare.shift() || other;
  return send(), empty();
}
// ---- second reading: kept by what stood and by which entry of the log, and counted
const readAs = (row) => 'read ' + location.pathname + ' ' + cell(row, 1);
const readOf = (row) => localStorage.getItem(readAs(row)) || '';
const isRead = (row) => readOf(row).split(' ', 1)[0] === row.dataset.was;
const hasAny = (row) => row.dataset.was !== '-';
// What stands of a row, and by which entry; nothing where the table does not answer.
async function standsOf(row) {
  const card = await cardOf(row), { value } = card.querySelector('[name=was]') || {};
  const [by] = /[0-9]+/.exec(all('.origin', card).map((it) => it.textContent).join()) || [];
  return value && by && value + ' ' + by;
}
// A card is ticked at once, and its entry is kept with it as soon as the table says it.
let ticking = Promise.resolve();
function tick(row) {
  const { was } = row.dataset;
  const keep = (text) => { localStorage.setItem(readAs(row), text), mark(); };
  const said = standsOf(row).then((stands) => stands && readOf(row) === was && keep(stands));
  keep(was);
  ticking = Promise.all([ticking, said]);
}
// Cards that stand by another entry than the one that was read are no longer ticked.
async function recheck() {
  await ticking;
  const at = 'read ' + location.pathname, { position } = shown;
  if (localStorage.getItem(at) === position) return;
  for (const row of rows().filter(isRead)) {
    const read = readOf(row), stands = await standsOf(row);
    if (!stands) return;
    if (stands !== read && readOf(row) === read) localStorage.removeItem(readAs(row));
  }
  localStorage.setItem(at, position), mark();
}
// Opens the card that comes next and is not read yet.
async function next() {
  const unread = () => rows().find((it) => hasAny(it) && !isRead(it));
  if (unread()) return open(unread());
  empty();
  say($('who'), 'each is looked up in the log');
  await recheck();
  if (whose) return;
  if (unread()) return open(unread());
  say($('who'), 'all cards of the round are read');
}
// A card on which nothing was typed: read by eye, or left as it is.
function untyped(row) {
  if ($('eye').checked && hasAny(row)) return tick(row), next();
  return say($('average'), 'nothing is typed', true), beep();
}
// What differs from the round is listed, and nothing is sent.
function compare(row, readings) {
  const stands = textsOf(row), differs = readings.flatMap((reading, place) => {
    const { value = '-', result = value } = reading || {}, here = stands[place] || '-';
    return result === here ? [] : [place + 1 + ': ' + result + ' on paper, ' + here + ' here'];
  });
  if (differs.length > 0) list(nameOf(row), differs.join('; '), () => (open(row), row));
  else if (hasAny(row)) tick(row);
  empty();
}
// ---- sending, in order, each until it is taken; then it is kept until a page has it
const sending = [];
let sent = [];
let spare = form ? rules.spare.trim().split(' ') : [], busy = false;
function list(name, why, again) {
  const line = make('li', name), button = make('button', 'open again');
  line.append(make('em', why), button);
  button.addEventListener('click', () => { if (mayLeave() && again()) line.remove(); });
  $('back').prepend(line);
  beep();
}
function giveBack(card, text, status) {
  const page = pageOf(text), asks = page.querySelector('#card [name=sure]');
  const why = wordsIn(page) || 'not taken (' + status + ')';
  list(card.name, why, () => {
    const row = rowOf(card.body.get('number'));
    if (row) open(row, card.typed);
    sure = row && asks ? asks.value : '';
    say($('average'), row ? why : 'nobody in this round: ' + card.name, true);
    return row;
  });
}
async function send() {
  if (busy) return;
  for (busy = true; sending.length > 0;) {
    const card = sending[0];
    card.body.set('token', form.elements.token.value);
    const answer = await fetch('/card', { method: 'POST', body: card.body, redirect: 'manual' })
      .catch(() => ({ status: 500 }));
    const taken = answer.status !== 403 && answer.status < 500;
    askOften();
    const count = sending.length, wait = count === 1 ? ' card waits' : ' cards wait';
    say($('unsent'), taken ? '' : count + wait + ' in this page: leave it open', true);
    if (!taken) await new Promise((done) => setTimeout(done, 1000));
    else if (sending.shift() && answer.type === 'opaqueredirect') sent.push({ ...card, asked });
    else giveBack(card, await answer.text(), answer.status);
  }
  busy = false;
}
// ---- keeping up with the log
const shown = {}, states = new Map(), asks = {};
let asked = 0, since = 0, waits = true;
function mark() {
  const filter = folded($('filter').value), read = new Set(rows().filter(isRead));
  for (const row of rows()) {
    const is = read.has(row);
    // one that stands otherwise is to be read again, also once it stands as before
    if (!is && readOf(row)) localStorage.removeItem(readAs(row));
    row.classList.toggle('hidden', filter !== '' && !folded(nameOf(row)).includes(filter));
    row.classList.toggle('read', is);
  }
  say($('read'), read.size + ' of ' + rows().filter(hasAny).length + ' read again');
  point();
}
// Marks the row whose number is typed.
function point() {
  const now = shown.numbered.get($('number').value);
  for (const row of all('#round .current')) if (row !== now) row.classList.remove('current');
  if (now) now.classList.add('current');
}
// Marks which results of the round are personal records by the competition's file, and adds the
// countries, and a limit that it has for several attempts together. Where the table has no file, it
// is asked once.
let isMarked = false, hasFile = true;
async function markRecords() {
  if (isMarked || !hasFile) return;
  isMarked = true;
  const answer = await fetch('/records/' + form.elements.round.value).catch(() => ({}));
  const page = pageOf(answer.ok ? await answer.text() : '');
  hasFile = !answer.ok || page.querySelector('.records') !== null;
  for (const it of all('tr[data-number]', page)) {
    const row = rowOf(it.dataset.number);
    if (!row) continue;
    row.cells[2].dataset.country = it.cells[1].textContent;
    for (const at of [3, 4]) {
      const its = it.cells[7 - at], same = its.textContent === cell(row, at);
      const is = same && its.className === 'pr';
      row.cells[at].toggleAttribute('data-record', is);
      row.cells[at].title = is ? \"personal record by the competition's file\" : '';
    }
  }
  if (answer.ok) showLimit(page.querySelector('.records .together'));
}
// Shows such a limit over the lines of the round.
function showLimit(limit) {
  for (const old of all('#round .together')) old.remove();
  const it = Object.assign(make('p', limit && limit.textContent), { className: 'together' });
  if (limit) document.querySelector('#round caption').append(it);
}
// Puts what was entered of late in the place of what is shown.
function replaceRecent(page) {
  const now = page.getElementById('recent');
  if (!now || shown.recent === now.outerHTML) return;
  shown.recent = now.outerHTML;
  $('recent').replaceWith(now);
  announce();
}
// Puts the round of a page in the place of the one that is shown: rows that are as they were stay
// as they are, and cells that differ are marked.
function replaceRound(page, text) {
  const heads = (root) => all('#round > :not(table), #round thead', root), now = heads(page);
  heads(document).forEach((it) => {
    const next = now.shift();
    if (it.outerHTML !== next.outerHTML) it.replaceWith(next);
  });
  const lines = rowsIn(text), body = document.querySelector('#round tbody'), made = make('tbody');
  const before = shown.numbered;
  let at = body.firstElementChild;
  for (const { number, place, html } of lines) {
    let row = before.get(number);
    if (!row || shown.rows.get(number) !== html) {
      isMarked = false;
      made.innerHTML = html;
      row = become(row, made.firstElementChild);
    }
    if (cell(row, 0) !== place) row.cells[0].textContent = place;
    if (row === at) at = at.nextElementSibling;
    else body.insertBefore(row, at);
  }
  for (const row of rows().slice(lines.length)) row.remove();
  shown.rows = byNumber(lines);
  shown.numbered = numbered();
}
// A row of the same competitor becomes as another one is. Cells that differ are marked for a while;
// by no animation, since each frame of one costs more than all else.
function become(row, now) {
  if (!row || row.cells.length !== now.cells.length) return now;
  Object.assign(row, { className: now.className }).dataset.was = now.dataset.was;
  const pairs = [...row.cells].map((old, place) => [old, now.cells[place]]);
  const differ = pairs.filter(([old, it]) => old.textContent !== it.textContent);
  for (const [old, it] of differ) old.replaceWith(it);
  const marked = differ.map(([, it]) => it).filter((it) => it.cellIndex > 2);
  const name = (className) => marked.forEach((it) => Object.assign(it, { className }));
  name('changed'), setTimeout(name, 4000, '');
  return row;
}
// The words of the bar are put anew only where they differ, since a screen reader says them then.
function replaceBar(now) {
  const bar = $('bar'), parts = [...bar.children];
  if (parts.length !== now.children.length) return bar.replaceWith(now);
  put(bar, { className: now.className });
  parts.forEach((it, place) => put(it, { textContent: now.children[place].textContent }));
}
// Says of each item that waited what became of it.
function announce() {
  for (const line of all('#recent li')) {
    const which = [...line.childNodes].filter((it) => !/^(EM|FORM)$/.test(it.nodeName));
    const key = which.map((it) => it.textContent).join(''), told = line.querySelector('em');
    if (states.get(key) === 'waits' && line.className !== 'waits') {
      $('spoken').textContent = key + told.textContent;
    }
    states.set(key, line.className);
  }
}
// What stands before the form of a card, where it changed.
function replaceFront(page) {
  const front = (root) => all('#card > :not(form, form ~ *)', root);
  const htmlOf = (them) => them.map((it) => it.outerHTML).join('');
  if (htmlOf(front(page)) === htmlOf(front(document))) return;
  for (const old of front(document)) old.remove();
  $('card').prepend(...front(page));
}
// ---- pages without a card's form
const controls = () => all('main :is(a, button, input:not([type=hidden]), select, textarea)');
// What each of them holds before anybody typed in it.
const held = (it) => it.value + ' ' + it.checked, first = new WeakMap();
const remember = () => controls().forEach((it) => first.set(it, held(it)));
const filled = () => controls().filter((it) => first.has(it) && first.get(it) !== held(it));
const isFilled = () => filled().length > 0;
// What a page shows, but for ids and tokens of forms, and what was entered of late.
function bare(main) {
  const it = main.cloneNode(true), recent = it.querySelector('#recent');
  if (recent) recent.remove();
  return it.outerHTML.replace(/name=\"(id|token)\" value=\"[^\"]*\"/g, '');
}
function replaceMain(page) {
  const now = page.querySelector('main'), main = document.querySelector('main');
  if (page.querySelector('form[data-unit]')) return location.reload();
  if (isFilled()) return;
  shown.position = positionOf(page);
  if (shown.main === bare(now)) return;
  const at = controls().indexOf(document.activeElement);
  shown.main = bare(now);
  shown.recent = '';
  main.replaceWith(now);
  if (at >= 0 && controls()[at]) controls()[at].focus();
  lookOver();
}
// A competition's file that is chosen may have numbers of persons who are not registered here: the
// one that is proposed for somebody new is after those too.
async function keepGreatest({ target }) {
  const text = target.type === 'file' && target.files[0] ? await target.files[0].text() : '';
  const found = [...text.matchAll(/\"registrantId\"\\s*:\\s*([0-9]{1,4})\\b/g)];
  const greatest = Math.max(...found.map(([, number]) => Number(number)));
  if (found.length > 0) localStorage.setItem('greatest', greatest);
}
function proposeNumber() {
  const field = document.querySelector('form:has([value=REG]) [name=number]');
  const free = Math.min(9999, 1 + Number(localStorage.getItem('greatest')));
  if (field && Number(field.value) < free) field.value = free;
}
// What is to be done for what a page without a card's form shows first. Its title says whose or
// which it is.
function lookOver() {
  const [{ textContent }] = [...all('h1'), document.body];
  if (!document.title.includes(textContent)) document.title = textContent + ': ' + document.title;
  proposeNumber(), remember();
  all('input[data-unit=time]').forEach(readRule);
}
// Beside a time limit or a cutoff stands what is read.
function readRule(field) {
  const told = field.nextElementSibling || make('output');
  const { wrong, result = '' } = field.value.trim() ? readTime(field.value.trim()) : {};
  say(told, wrong || result, wrong);
  field.after(told);
}
function maySend(it) {
  const limit = it.elements.limit && readTime(it.elements.limit.value.trim());
  const others = filled().filter((field) => !it.contains(field)).map((field) => field.value);
  return (!limit || !(limit.value < 6000)
    || confirm('The time limit is ' + limit.result + ', which is below a minute. Is it right?'))
    && (others.length === 0 || confirm('Typed and not sent: ' + others.join(', ') + '. Leave it?'));
}
// ---- what the table answers
// What the page of an answer says against what was sent.
const wordsIn = (page) =>
  all('#card strong, .hall strong', page).map((it) => it.textContent).join('; ');
// Sends what is no card of this page. What is said against it; nothing where it is taken.
async function post(action, pairs) {
  const body = new URLSearchParams(pairs), { value } = document.querySelector('[name=token]');
  body.set('token', value);
  const asks = { method: 'POST', body, redirect: 'manual' };
  const answer = await fetch(action, asks).catch(() => ({}));
  askOften();
  if (answer.type === 'opaqueredirect') return '';
  return wordsIn(pageOf(answer.text ? await answer.text() : '')) || 'not taken';
}
const positionOf = (page) => page.querySelector('#bar small').textContent;
// Asks for the page of a path, at most twice at once, and says in the bar where none comes. True
// where one came.
async function ask(path, take) {
  const turn = asked += 1, { under = 0, newest = 0 } = asks[path] || {};
  if (under > 1) return;
  asks[path] = { under: under + 1, newest };
  try {
    const signal = AbortSignal.timeout(3000);
    const answer = await fetch(path, { cache: 'no-store', signal });
    const text = await answer.text();
    if (!answer.ok || turn < asks[path].newest) return;
    asks[path].newest = turn;
    take(text, turn);
    return true;
  } catch (error) {
    if (turn < asks[path].newest) return;
    const told = 'The score table does not answer. Cards wait in this page: leave it open.';
    const bar = $('bar').firstElementChild || $('bar');
    if (bar.textContent !== told) bar.textContent = told;
    $('bar').className = 'lost';
  } finally {
    asks[path].under -= 1;
  }
}
// What was entered of late, and how the desks are doing.
function takeRecent(text, turn) {
  const page = pageOf(text), { value } = page.querySelector('[name=token]');
  replaceBar(page.getElementById('bar'));
  replaceRecent(page);
  for (const it of all('[name=token]')) it.value = value;
  waits = turn <= since || sending.length + all('#recent .waits').length > 0;
  shown.latest = positionOf(page);
}
function takePage(text, turn) {
  const page = form ? pageBeside(text) : pageOf(text);
  sent = sent.filter((it) => it.asked >= turn);
  if (!form) return replaceMain(page);
  const next = page.querySelector('form[data-unit]');
  shown.position = positionOf(page);
  replaceRound(page, text);
  if (!next) return;
  if (next.dataset.format !== rules.format && !isTyped()) return location.reload();
  Object.assign(form.dataset, next.dataset);
  if (spare.length < 8) spare = next.dataset.spare.trim().split(' ');
  replaceFront(page), keepUp(), mark(), markRecords();
}
// Looks what was entered of late, which each page has, and that of `/import` is small whatever the
// rounds are; and at the page itself where the log has grown: at once where all that was sent is
// decided, since the round has it then, and else each second, since a large round is dear.
let looked = 0, wanted = '', later = 0, often = 0;
async function look() {
  const came = await ask('/import', takeRecent);
  if (came && waits && often > 0) often -= 1, look();
  const left = looked + 1000 - performance.now(), { latest } = shown;
  if (latest === shown.position && (waits || sent.length === 0)) return;
  clearTimeout(later);
  if (left > 0 && (waits || sent.length === 0 || latest === wanted)) {
    return void (later = setTimeout(look, left));
  }
  [looked, wanted] = [performance.now(), latest];
  ask(location.pathname + (form ? '' : location.search), takePage);
}
// Looks since something was sent, until nothing waits: some times as soon as the last answer came,
// and then less and less often.
function askOften() {
  [waits, since, often] = [true, asked, 4];
  look();
  for (const after of [10, 20, 30, 40, 55, 75, 100, 130, 200, 350, 600]) {
    setTimeout(() => waits && look(), after);
  }
}
// ---- keys
function keys(event) {
  const at = fields.indexOf(event.target), step = { ArrowDown: 1, ArrowUp: -1 }[event.key];
  const inNumber = event.target === $('number'), rest = fields.slice(Math.max(at, 0));
  const on = event.key === 'Enter' || (event.key === 'Tab' && inNumber && !event.shiftKey);
  const more = rest[1] && !rest[1].disabled && rest.some((it) => it.value);
  if (event.isComposing) return;
  // a key that is held down answers nothing
  if (event.repeat && event.key === 'Enter') return event.preventDefault();
  if (event.key === 'Escape') { if (mayLeave()) empty(); }
  else if (step && inNumber) { chosen += step; suggest(candidates()); }
  else if (step && at >= 0) enter(fields[at + step] || $('number'));
  else if (on && inNumber) choose();
  else if (!on || at < 0) return;
  else if (more && !($('eye').checked && !isTyped())) enter(rest[1]);
  else submit();
  event.preventDefault();
}
// The newest card that can be taken back.
function takeBack() {
  const [it] = all('#recent form[action=\"/undo\"]');
  if (it) it.requestSubmit();
  else alert('No card can be taken back.');
}
// A link to a card of this round opens it here.
function follow(event) {
  const link = event.target.closest('a[href*=\"number=\"]');
  const row = link && link.pathname === location.pathname && rowOf(link.search.slice(8));
  if (!row) return;
  event.preventDefault();
  const line = link.closest('li.refused, li.changed');
  if (mayLeave()) open(row, line ? typedIn(line) : undefined);
}
// What a scoretaker answers to an item is sent from where it stands, and the page stays.
async function answer(event) {
  const it = event.target, what = it.closest('li').querySelector('a, code').textContent;
  event.preventDefault();
  if (it.matches('[action=\"/undo\"]') && !confirm('Take back the card of ' + what + '?')) return;
  const why = await post(it.action, new FormData(it));
  if (why) it.after(make('strong', why));
}
// What the script adds to a card's page.
function addOptions() {
  const eye = Object.assign(make('input'), { id: 'eye', type: 'checkbox' }), label = make('label');
  label.append(eye, ' read by eye: Enter opens the next card');
  $('blind').closest('p').append(' ', label, ' ', Object.assign(make('output'), { id: 'read' }));
  for (const it of all('.keys')) it.append(', ', make('kbd', 'Esc'), ' puts the card away, ',
    make('kbd', 'F9'), ' takes the last card back');
  const roles = { role: 'combobox', 'aria-controls': 'found', 'aria-autocomplete': 'list' };
  for (const [key, value] of Object.entries(roles)) $('number').setAttribute(key, value);
  $('found').role = 'listbox';
  fields.forEach((field, place) => {
    beside(field, 'output').id = 'reads' + (place + 1);
    field.setAttribute('aria-describedby', 'said' + (place + 1) + ' reads' + (place + 1));
  });
}
function begin() {
  shown.rows = byNumber(rowsIn($('round').outerHTML));
  shown.numbered = numbered();
  for (const it of all('[hidden]')) it.hidden = false;
  addOptions();
  const choice = ({ target }) => mayLeave() ? empty() : target.checked = !target.checked;
  for (const it of [$('blind'), $('eye')]) it.addEventListener('change', choice);
  $('filter').addEventListener('input', mark);
  $('number').addEventListener('input', nameIt);
  $('number').addEventListener('compositionend', nameIt);
  for (const it of fields) it.addEventListener('input', update);
  form.addEventListener('keydown', keys);
  document.addEventListener('click', follow);
  sure = form.elements.sure ? form.elements.sure.value : '';
  whose = $('number').value;
  if (rules.unit === 'moves') learn();
  update(), mark(), recheck(), markRecords();
}
// The scrambles of the round.
async function learn() {
  const page = await fetch('/rounds?round=' + form.elements.round.value).catch(() => null);
  for (const it of page ? all('p', pageOf(await page.text())) : []) {
    const [, attempt, moves] = /^Scramble ([1-5]): (.+)$/.exec(it.textContent) || [];
    if (moves) scrambles[attempt] = moves;
  }
}
let leaves = false;
document.addEventListener('input', narrow, true);
document.addEventListener('compositionend', narrow, true);
document.addEventListener('change', keepGreatest);
document.addEventListener('keydown', (event) => event.key === 'F9' && takeBack());
document.addEventListener('submit', (event) => {
  if (event.target === form) { event.preventDefault(); submit(); }
  else if (event.target.closest('#recent')) answer(event);
  else if (maySend(event.target)) leaves = true;
  else event.preventDefault();
});
document.addEventListener('input', (event) => {
  if (event.target.matches('input[data-unit=time]')) readRule(event.target);
});
addEventListener('beforeunload', (event) => {
  const back = form && $('back').children.length > 0;
  if (!leaves && (sending.length > 0 || back || isTyped() || isFilled())) event.preventDefault();
});
document.body.append(Object.assign(make('p'), { id: 'spoken', role: 'status' }));
shown.main = bare(document.querySelector('main'));
shown.position = shown.latest = positionOf(document);
if (form) begin();
else lookOver();
announce(), look();
setInterval(look, 500);
";

/// The style of all pages.
#[tactic(auto, unfolding(crate::specs::Looks::style))]
pub fn style() -> &'static str
    ensures { result.now ≡ style }
{
    STYLE
}

/// The script of all pages. Each page works without it.
#[tactic(auto, unfolding(crate::specs::Looks::script))]
pub fn script() -> &'static str
    ensures { result.now ≡ script }
{
    SCRIPT
}
