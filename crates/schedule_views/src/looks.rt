//! How times look, and how they keep up with the clock.

ghost use Rattle.std.specs.Prelude.{◌≡◌};
ghost use Rattle.schedule_views.specs.Looks.{times};

/// The end of a section with times: its style, and what puts its times into the time zone of the
/// venue, each day under a heading, and marks every 20 seconds, by the browser's clock, what is
/// over, what runs now and what comes next. Where the section is of one person, it puts first what
/// is left to do today, then what is to be done on other days, and last what is over.
const TIMES: &[u8] = b"\
<style>
.schedule table { margin-bottom: 1.5em; }
.schedule .group th { font-weight: normal; padding-left: 1.5em; }
.today td { text-align: start; white-space: normal; }
section tr.day th { text-align: start; padding-top: .8em; }
section tr.now > * { background: var(--new); }
section tr.next > * { background: var(--through); }
@media screen {
  tr.over > *, tr.later > * { opacity: .5; }
  .schedule th a { text-decoration: underline; }
}
</style>
<script>
\"use strict\";
{
  const section = document.currentScript.closest(\"section\");
  const forms = new Map();
  const made = (zone) => {
    const form = (options) => new Intl.DateTimeFormat(\"en-GB\", { timeZone: zone, ...options });
    return {
      zone,
      day: form({ weekday: \"short\", day: \"numeric\", month: \"short\" }),
      time: form({ hour: \"2-digit\", minute: \"2-digit\", hourCycle: \"h23\" }),
    };
  };
  const formsOf = (zone) => {
    if (!forms.has(zone)) {
      try {
        forms.set(zone, made(zone));
      } catch (error) {
        forms.set(zone, made(\"UTC\"));
      }
    }
    return forms.get(zone);
  };
  const lines = [...section.querySelectorAll(\"tr[data-start]\")].map((row) => {
    const of = formsOf(row.closest(\"[data-zone]\").dataset.zone);
    const ends = [row.dataset.start, row.dataset.end].map((text) => Date.parse(text));
    [...row.querySelectorAll(\"time\")].forEach((cell, at) => {
      if (!isNaN(ends[at])) cell.textContent = of.time.format(ends[at]);
    });
    const day = isNaN(ends[0]) ? \"\" : of.day.format(ends[0]);
    return { row, of, day, table: row.closest(\"table\"), start: ends[0], end: ends[1] };
  });
  const timed = lines.filter(({ day }) => day);
  const zones = [...new Set(timed.map(({ of }) => of.zone))].join(\", \");
  if (zones) section.querySelector(\".zone\").textContent = \"Times are those of \" + zones + \".\";
  const heading = (text) => {
    const row = document.createElement(\"tr\"), cell = document.createElement(\"th\");
    row.className = \"day\";
    cell.colSpan = 6;
    cell.textContent = text;
    row.append(cell);
    return row;
  };
  const byDays = (some) => some.flatMap((line, at) => {
    const isNew = line.day && (at === 0 || some[at - 1].day !== line.day);
    return isNew ? [heading(line.day), line.row] : [line.row];
  });
  const tables = [...section.querySelectorAll(\"table\")];
  const isPerson = section.classList.contains(\"today\");
  const put = (table, rows) => {
    if (lines.length > 0) table.tBodies[0].replaceChildren(...rows);
  };
  let before = \"\";
  const arrange = (now) => {
    const isToday = (line) => line.day === line.of.day.format(now);
    const over = lines.filter((line) => line.end <= now);
    const left = lines.filter((line) => !over.includes(line) && (isToday(line) || !line.day));
    const later = lines.filter((line) => !over.includes(line) && !left.includes(line));
    for (const { row } of later) row.classList.add(\"later\");
    for (const { row } of left) row.classList.remove(\"later\");
    const key = [left, later, over].map((some) => some.length).join();
    if (key === before) return;
    before = key;
    const today = left.length > 0 ? \"still to do today\" : \"nothing left to do today\";
    put(tables[0], [heading(today), ...left.map(({ row }) => row), ...byDays(later),
      ...(over.length > 0 ? [heading(\"over\")] : []), ...byDays(over)]);
  };
  const mark = () => {
    const now = Date.now();
    for (const table of tables) {
      const own = lines.filter((line) => line.table === table);
      const next = Math.min(...own.map(({ start }) => start).filter((start) => start > now));
      for (const { row, start, end } of own) {
        row.classList.toggle(\"over\", end <= now);
        row.classList.toggle(\"now\", start <= now && now < end);
        row.classList.toggle(\"next\", start === next);
      }
    }
    if (isPerson && lines.length > 0) arrange(now);
  };
  if (!isPerson)
    for (const table of tables) {
      const own = lines.filter((line) => line.table === table);
      if (own.length > 0) table.tBodies[0].replaceChildren(...byDays(own));
    }
  mark();
  setInterval(mark, 20000);
  const first = section.querySelector(\"tr.now, tr.next\");
  if (!isPerson && first && section.querySelector(\"tr.over\"))
    first.scrollIntoView({ block: \"center\" });
}
</script>
";

/// The end of a section with times.
#[tactic(auto, unfolding(crate::specs::Looks::times))]
pub(crate) fn times() -> &'static [u8]
    ensures { result.now ≡ times }
{
    TIMES
}
