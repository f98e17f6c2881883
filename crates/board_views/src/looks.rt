//! How the pages look, and how they keep up.

ghost use Rattle.std.specs.Prelude.{◌≡◌};
ghost use Rattle.board_views.specs.Looks.{script, style};

/// The style of all pages: on a screen, on a phone, where a competitor has two lines, on a
/// projector and on paper.
const STYLE: &str = "\
:root { color-scheme: light dark; --ink: #111; --paper: #fff; --line: #bbb; --through: #d8f5d0;
  --new: #ffe9a8; }
@media (prefers-color-scheme: dark) {
  :root { --ink: #f2f2f2; --paper: #101418; --line: #48525c; --through: #17421f; --new: #5a4300; }
}
* { box-sizing: border-box; }
body { margin: 0; background: var(--paper); color: var(--ink);
  font: 1rem/1.3 system-ui, \"Noto Sans\", \"Noto Sans CJK SC\", sans-serif; }
main { padding: .6em; }
a { color: inherit; }
nav { display: flex; flex-wrap: wrap; gap: .4em; margin: .4em 0 .8em; }
nav a { border: 1px solid var(--line); border-radius: .3em; padding: .4em .6em; }
section { margin-bottom: 1.5em; }
h1 { margin: 0; font-size: 1em; font-weight: normal; overflow-wrap: anywhere; }
h2 { margin: .1em 0; font-size: 1.4em; overflow-wrap: anywhere; }
p { margin: .2em 0; }
.at { font-size: .7em; }
.none { font-size: 2.5em; text-align: center; margin: 25vh 0; }
.absent { font-style: italic; }
.lost { border: .2em solid currentColor; margin: 0; padding: .3em .5em; font-weight: bold;
  background: var(--paper); position: sticky; top: 0; }
[role=\"status\"]:empty { display: none; }
.find { margin: 0; padding: .6em .6em 0; font-size: 1.2em; }
.find input { font: inherit; width: 12em; max-width: 100%; }
caption { text-align: start; }
table { border-collapse: collapse; width: 100%; font-variant-numeric: tabular-nums; }
th, td { padding: .2em .45em; border-bottom: 1px solid var(--line); text-align: right;
  white-space: nowrap; }
thead th { font-weight: normal; font-size: .8em; vertical-align: bottom; }
tbody th { text-align: left; font-weight: bold; white-space: normal; overflow-wrap: anywhere;
  min-width: 8em; }
tbody th a { text-decoration: none; }
tbody th a:hover, tbody th a:focus { text-decoration: underline; }
thead th:nth-child(3), .person thead th:first-child { text-align: start; }
td:nth-child(4), .person td:nth-child(3) { font-weight: bold; }
.person td:nth-child(4), .person thead th:nth-child(3) { font-weight: normal; text-align: end; }
.people table { width: auto; }
.people thead th:last-child { text-align: start; }
.person td:nth-child(5) { white-space: normal; }
tr.yes > * { background: var(--through); }
tr.would:not(:has(+ .would)) > * { border-bottom: .12em dashed currentColor; }
tr.changed > * { background: var(--new); }
tr.changed > th::after { content: \" \\2731\"; }
th[data-country]::after { content: \" \" attr(data-country); font-size: .7em; font-weight: normal; }
tr.changed > th[data-country]::after { content: \" \" attr(data-country) \" \\2731\"; }
td.pr::before { content: \"PR \"; font-size: .6em; font-weight: normal; vertical-align: .4em; }
p.now { margin: 0; padding: .2em .8em; border-top: 1px solid var(--line); font-size: 3.2vmin; }
p.now:empty { display: none; }
@media screen and (max-width: 600px) {
  main { padding: .3em; }
  body.all section { display: none; }
  body.all nav { flex-direction: column; font-size: 1.2em; }
  nav a[href=\"/hall\"], body.hall tr > :last-child { display: none; }
  body.one section { font-size: .8rem; }
  body.one section[id] table, body.one section[id] thead,
  body.one section[id] tbody, body:not(.hall) section:not(.people) caption { display: block; }
  section:not(.people) td { white-space: normal; }
  body.one section[id] tr { display: grid; grid-template-columns: 1.8em repeat(10, 1fr);
    border-bottom: 1px solid var(--line); padding: .15em 0; align-items: baseline; }
  body.one section[id] tr > * { border: 0; padding: .1em; min-width: 0; }
  body.one section[id] tr > :nth-child(2) { display: none; }
  body.one section[id] tr > :nth-child(3) { grid-column: 2 / span 5; text-align: left; }
  body.one section[id] thead th:first-child { font-size: 0; }
  body.one section[id] tr > :nth-child(4) { grid-column: 7 / span 3; }
  body.one section[id] tr > :nth-child(5) { grid-column: 10 / span 2; }
  body.one section[id] tr > :nth-child(n + 6) { grid-column-end: span 2; grid-row: 2; }
  body.one section[id] tr > :nth-child(6) { grid-column-start: 2; }
  body.one section[id] tr > :last-child { grid-column: 1; grid-row: 2; font-size: 0; }
  body.one tr.yes > :last-child::before { content: \"\\2713\"; font-size: .8rem; }
  body.one tr.would > :last-child::before { content: \"?\"; font-size: .8rem; }
  body.one tr.yes { background: var(--through); }
  body.one tr.would:not(:has(+ .would)) { border-bottom: .12em dashed currentColor; }
  .person table, .person thead, .person tbody { display: block; }
  .person tr { display: grid; grid-template-columns: 1fr 2.8em 6em 6em;
    border-bottom: 1px solid var(--line); padding: .2em 0; align-items: baseline; }
  .person tr > * { border: 0; padding: .1em .2em; min-width: 0; }
  .person tr > :nth-child(5) { grid-column: 1 / span 3; grid-row: 2; text-align: left; }
  .person tr > :nth-child(6) { grid-column: 4; grid-row: 2; }
}
@media screen {
  body.hall { overflow: hidden; font-size: 2.2vmin; display: flex; flex-direction: column;
    height: 100vh; }
  body.hall main { flex: 1; min-height: 0; overflow: hidden; padding: .4em .8em; }
  body.hall nav { display: none; }
  body.hall section { margin: 0; }
  body.hall tbody th { width: 99%; max-width: 0; min-width: 9em; white-space: nowrap;
    overflow: hidden; text-overflow: ellipsis; }
  body.hall.turning section, body.hall.turning tbody tr { display: none; }
  body.hall.turning section.shown { display: block; }
  body.hall.turning tbody tr.shown { display: table-row; }
  body.hall h2::after { content: attr(data-turn); font-size: .6em; font-weight: normal;
    margin-left: 1em; }
}
@media print {
  @page { size: A4; margin: 12mm; }
  :root { color-scheme: light; --ink: #000; --paper: #fff; --line: #888; --through: #fff; }
  body, body.hall { font-size: 9pt !important; }
  th, td { padding: .15em .3em; }
  td:last-child { font-size: .85em; }
  main { padding: 0; }
  nav, .lost, .find, p.now, caption .together { display: none; }
  section[id] tr th[data-country]::after, section[id] td.pr::before { content: none; }
  a { text-decoration: none; }
  section { break-after: page; }
  section:last-of-type { break-after: auto; }
  thead { display: table-header-group; }
  section:has([data-title]) caption { display: none; }
  [data-title]::before { content: attr(data-title); display: block; width: 0; white-space: nowrap;
    text-align: left; font-size: 9pt; font-weight: bold; margin-bottom: .4em; }
  tr { break-inside: avoid; }
  tr.yes > * { font-weight: bold; }
}
";

/// Asks every 700 milliseconds for the page, and shows it where it has changed. Where the board
/// does not answer or is behind, or no desk or no majority of them has answered the board for 1,750
/// milliseconds, it says since when. A line of which a result has changed is marked for ten
/// seconds. The first line in sight that has not changed stays where it is on the screen.
///
/// On a projector the rounds that run, and those that it saw close in the last half hour, are shown
/// each once a minute, and after them one of the other finals: each for 15 seconds or, where there
/// are many, shorter. Of a long round as many lines are shown at once as there is room for, in the
/// largest type with which they are on the screen. Names are searched without regard to
/// accents and case.
///
/// Where the board has a competition's file, which `/schedule` shows, the script adds what the file
/// says: links to its pages; in a round, the countries after the names, `PR` at results that are
/// personal records by the file, and, below the settings, a limit that the file has for several
/// attempts together, which it asks for once for each change of a round in sight; and, below the
/// rounds on a projector, what runs now in each room and what comes next there.
/// Where the board has none, it asks once, and adds nothing.
const SCRIPT: &str = "\
\"use strict\";
const rows = (page) => [...page.querySelectorAll(\"section[id] tbody tr\")];
const keyOf = (row) => row.closest(\"section\").id + \" \" + row.cells[1].textContent;
const resultsOf = (row) => [...row.cells].slice(3, -1).map((cell) => cell.textContent).join(\" \");
const changed = new Map();
function mark(old, page) {
  const before = new Map(rows(old).map((row) => [keyOf(row), resultsOf(row)]));
  for (const row of rows(page)) {
    const key = keyOf(row);
    if (before.has(key) && before.get(key) !== resultsOf(row)) changed.set(key, Date.now() + 10000);
    if ((changed.get(key) || 0) > Date.now()) row.classList.add(\"changed\");
  }
}
function unmark() {
  for (const row of document.querySelectorAll(\"tr.changed\"))
    if ((changed.get(keyOf(row)) || 0) <= Date.now()) row.classList.remove(\"changed\");
}
const main = () => document.querySelector(\"main\");
const isHall = document.body.classList.contains(\"hall\");
const stateOf = (section) => section.querySelector(\".told strong\").textContent;
const seen = {};
try {
  Object.assign(seen, JSON.parse(localStorage.getItem(\"seen\")));
} catch (error) { /* it begins anew */ }
function look() {
  for (const section of document.querySelectorAll(\"section[id]\")) {
    if (stateOf(section) === \"running\") seen[section.id] = \"running\";
    else if (seen[section.id] === \"running\") seen[section.id] = Date.now();
  }
  try {
    localStorage.setItem(\"seen\", JSON.stringify(seen));
  } catch (error) { /* this page remembers it alone */ }
}
const isNow = (section) =>
  stateOf(section) === \"running\" || Date.now() - seen[section.id] < 1800000;
const countOf = (section) => {
  const most = Math.max(8, Math.floor(innerHeight / 54));
  return Math.max(1, Math.ceil(section.querySelectorAll(\"tbody tr\").length / most));
};
const turnsOf = (section) => Array.from({ length: countOf(section) }, (_, at) => [section.id, at]);
let turns = [], final = 0, seconds = 15;
function begin() {
  const all = [...document.querySelectorAll(\"section[id]\")], now = all.filter(isNow);
  const finals = all.filter((section) => !isNow(section) && stateOf(section) === \"final result\");
  turns = (now.length + finals.length > 0 ? now : all).flatMap(turnsOf);
  if (finals.length > 0) turns.push(...turnsOf(finals[final % finals.length]));
  final += 1;
  seconds = Math.max(3, Math.min(15, 60 / turns.length));
}
function turn() {
  turns.shift();
  show();
  setTimeout(turn, seconds * 1000);
}
function fit() {
  const style = document.body.style;
  let low = 8, high = innerHeight / 12;
  for (let step = 0; step < 9; step += 1) {
    const size = (low + high) / 2;
    style.fontSize = size + \"px\";
    const { scrollHeight, clientHeight, scrollWidth, clientWidth } = main();
    const fits = scrollHeight <= clientHeight && scrollWidth <= clientWidth;
    if (fits) low = size;
    else high = size;
  }
  style.fontSize = low + \"px\";
}
function show() {
  addLinks();
  markRecords();
  filter();
  if (!isHall) return;
  look();
  turns = turns.filter(([id]) => document.getElementById(id));
  if (turns.length === 0) begin();
  document.body.classList.toggle(\"turning\", turns.length > 0);
  for (const old of document.querySelectorAll(\".shown\")) old.classList.remove(\"shown\");
  if (turns.length > 0) {
    const [id, at] = turns[0], section = document.getElementById(id), count = countOf(section);
    const lines = [...section.querySelectorAll(\"tbody tr\")];
    const room = Math.ceil(lines.length / count);
    const shown = lines.slice(at * room, (at + 1) * room);
    for (const now of [section, ...shown]) now.classList.add(\"shown\");
    section.querySelector(\"h2\").dataset.turn = count > 1 ? at + 1 + \" / \" + count : \"\";
  }
  fit();
}
const letters = { \"\\u0142\": \"l\", \"\\u00f8\": \"o\", \"\\u0111\": \"d\", \"\\u0131\": \"i\",
  \"\\u00df\": \"ss\" };
const plain = (text) => [...text.toLowerCase().normalize(\"NFD\").replace(/\\p{M}/gu, \"\")]
  .map((letter) => letters[letter] || letter).join(\"\");
const find = document.createElement(\"p\");
function filter() {
  if (!find.isConnected) return;
  const words = plain(find.querySelector(\"input\").value).split(/\\s+/);
  let none = true;
  for (const row of document.querySelectorAll(\".people tbody tr\")) {
    const text = plain([...row.cells].map((cell) => cell.textContent).join(\" \"));
    row.hidden = !words.every((word) => text.includes(word));
    none = none && row.hidden;
  }
  find.querySelector(\"output\").textContent = none ? \"nobody\" : \"\";
}
if (document.querySelector(\".people\")) {
  find.className = \"find\";
  find.innerHTML = '<label>Name or number: <input type=\"search\"></label> <output></output>';
  document.body.prepend(find);
  find.addEventListener(\"input\", filter);
  find.querySelector(\"input\").focus();
}
let file = null;
const records = new Map(), limits = new Map(), asked = new Map();
async function pageAt(path) {
  const answer = await fetch(path, { cache: \"no-cache\", signal: within(20000) });
  if (answer.status === 404) return null;
  if (!answer.ok) throw new Error(path);
  return new DOMParser().parseFromString(await answer.text(), \"text/html\");
}
function link(path, words) {
  const nav = document.querySelector(\"nav\"), it = document.createElement(\"a\");
  const isIt = (other) => other.getAttribute(\"href\") === path;
  if (!nav || [...nav.children].some(isIt)) return;
  it.setAttribute(\"href\", path);
  it.textContent = words;
  nav.append(it);
}
function addLinks() {
  if (!file) return;
  const [, number] = /^[/]person[/](\\d+)$/.exec(location.pathname) || [];
  const { id } = document.querySelector(\"section[id]\") || {};
  link(\"/schedule\", \"schedule\");
  if (number) link(\"/today/\" + number, \"today\");
  if (id && location.pathname === \"/\" + id) {
    link(\"/psych/\" + id.replace(/-\\d+$/, \"\"), \"psych sheet\");
  }
}
function markRecords() {
  for (const row of rows(document)) {
    const found = records.get(row.closest(\"section\").id);
    const it = found && found.get(row.cells[1].textContent);
    if (!it) continue;
    row.cells[2].dataset.country = it.cells[1].textContent;
    for (const at of [3, 4]) {
      const cell = row.cells[at], its = it.cells[7 - at];
      const is = its.className === \"pr\" && its.textContent === cell.textContent;
      cell.classList.toggle(\"pr\", is);
      cell.title = is ? \"personal record by the competition's file\" : \"\";
    }
  }
  for (const section of document.querySelectorAll(\"section[id]\")) showLimit(section);
}
function showLimit(section) {
  const old = section.querySelector(\".together\"), it = document.createElement(\"p\");
  if (old) old.remove();
  if (!limits.get(section.id)) return;
  it.className = \"together\";
  it.textContent = limits.get(section.id);
  section.querySelector(\".told\").after(it);
}
const inSight = (section) => {
  const { top, bottom } = section.getBoundingClientRect();
  return bottom > Math.max(top, 0) && top < innerHeight;
};
async function askRecords(section) {
  const { id } = section, { textContent } = section.querySelector(\"tbody\");
  if (asked.get(id) === textContent) return;
  asked.set(id, textContent);
  const page = await pageAt(\"/records/\" + id).catch(() => null);
  if (!page) return;
  const found = [...page.querySelectorAll(\"tr[data-number]\")];
  const limit = page.querySelector(\".records .together\");
  records.set(id, new Map(found.map((row) => [row.dataset.number, row])));
  limits.set(id, limit && limit.textContent);
  markRecords();
  if (isHall) fit();
}
const apart = (text) => \"\\u2068\" + text + \"\\u2069\";
function clockOf(time, timeZone) {
  try {
    const parts = { timeZone, hour: \"2-digit\", minute: \"2-digit\" };
    return new Date(time).toLocaleTimeString(\"en-GB\", parts) + \" \";
  } catch (error) {
    return \"\";
  }
}
function nowWords(now) {
  const runs = [], comes = [];
  for (const table of file.querySelectorAll(\"table[data-room]\")) {
    const { room, zone } = table.dataset, where = \" (\" + apart(room) + \")\";
    const all = [...table.querySelectorAll(\"tr[data-start]\")].map(({ dataset }) =>
      ({ what: dataset.what, start: Date.parse(dataset.start), end: Date.parse(dataset.end) }));
    const run = all.filter(({ start, end }) => start <= now && now < end).pop();
    const later = all.filter(({ start }) => start > now && start < now + 86400000);
    const first = Math.min(...later.map(({ start }) => start));
    const next = later.filter(({ start }) => start === first).pop();
    if (run) runs.push(apart(run.what) + where);
    if (next) comes.push(clockOf(first, zone) + apart(next.what) + where);
  }
  const said = [[\"now: \", runs], [\"next: \", comes]].filter(([, them]) => them.length > 0);
  return said.map(([when, them]) => when + them.join(\", \")).join(\"; \");
}
const foot = document.createElement(\"p\");
foot.className = \"now\";
function keepBeside() {
  if (!file || document.hidden) return;
  [...document.querySelectorAll(\"section[id]\")].filter(inSight).forEach(askRecords);
  const text = isHall ? nowWords(Date.now()) : \"\";
  if (foot.textContent === text) return;
  foot.textContent = text;
  document.body.append(foot);
  fit();
}
async function askFile() {
  if (document.hidden && file) return;
  try {
    file = await pageAt(\"/schedule\");
  } catch (error) {
    return;
  }
  if (!file) return clearInterval(askingFile);
  asked.clear();
  addLinks();
  keepBeside();
}
let last = null, since = null, good = new Date();
const bar = document.createElement(\"p\");
bar.setAttribute(\"role\", \"status\");
document.body.prepend(bar);
function say(text) {
  if (bar.textContent === text) return;
  bar.textContent = text;
  bar.className = text ? \"lost\" : \"\";
  if (isHall) fit();
}
const from = (time) => \" since \" + time.toLocaleTimeString(\"en-GB\") + \": this may be old.\";
function tell(what) {
  if (since === null) since = good;
  say(what + from(since));
}
let heard = 0;
function tellHall(text) {
  const ageOf = (line) => (line === \"-\" ? Infinity : Number(line));
  const ages = text.trim().split(\"\\n\").map(ageOf).sort((one, other) => one - other);
  const any = ages[0], age = any >= 1000 ? any : ages[Math.floor(ages.length / 2)];
  if (age < 1000) return say(\"\");
  const what = any >= 1000 ? \"The hall has not been reached\" : \"The hall has had no majority\";
  if (age === Infinity) return say(what + \" since the board was started.\");
  const at = Date.now() - age;
  if (Math.abs(at - heard) > 1500) heard = at;
  say(what + from(new Date(heard)));
}
const positionOf = (page) => {
  const said = [...page.querySelectorAll(\".at\")];
  return Math.max(0, ...said.map((at) => Number(at.textContent.replace(/\\D/g, \"\"))));
};
function anchor(page) {
  const now = new Map(rows(page).map((row) => [keyOf(row), row]));
  for (const row of rows(main())) {
    const { top, bottom } = row.getBoundingClientRect(), same = now.get(keyOf(row));
    if (bottom > 0 && same && resultsOf(same) === resultsOf(row)) return [same, top];
  }
  return null;
}
function replace(page) {
  const focused = document.activeElement && document.activeElement.getAttribute(\"href\");
  const held = scrollY > 0 ? anchor(page) : null;
  mark(main(), page);
  main().replaceWith(page);
  show();
  if (focused) {
    const isIt = (link) => link.getAttribute(\"href\") === focused;
    const again = [...page.querySelectorAll(\"a\")].find(isIt);
    if (again) again.focus({ preventScroll: true });
  }
  if (held) scrollBy(0, held[0].getBoundingClientRect().top - held[1]);
}
const within = (time) => (AbortSignal.timeout ? AbortSignal.timeout(time) : undefined);
async function update() {
  if (document.hidden) {
    good = new Date();
    return;
  }
  try {
    const ages = await (await fetch(\"/heard.txt\", { signal: within(2000) })).text();
    const wanted = { cache: \"no-cache\", signal: within(20000) };
    const answer = await fetch(location.pathname, wanted);
    if (!answer.ok) return tell(\"The board has not had this page\");
    const text = await answer.text();
    const page = new DOMParser().parseFromString(text, \"text/html\").querySelector(\"main\");
    if (!page) return;
    if (positionOf(page) < positionOf(main())) return tell(\"The board was behind\");
    since = null;
    good = new Date();
    tellHall(ages);
    if (last === text) return;
    last = text;
    replace(page);
  } catch (error) {
    tell(\"The board has not answered\");
  }
}
setInterval(update, 500);
setInterval(unmark, 500);
setInterval(keepBeside, 1000);
const askingFile = setInterval(askFile, 60000);
if (isHall) setTimeout(turn, seconds * 1000);
addEventListener(\"resize\", show);
addEventListener(\"visibilitychange\", update);
show();
askFile();
";

/// The style of all pages.
pub(crate) fn style() -> &'static str
    ensures { result.now ≡ style }
{
    STYLE
}

/// What keeps the pages up to date.
pub(crate) fn script() -> &'static str
    ensures { result.now ≡ script }
{
    SCRIPT
}
