//! The page.

/// The page, as a browser gets it. It asks this server for the state, and nobody else for anything.
pub const PAGE: &str = r##"<!doctype html>
<html lang="en">
<head>
<meta charset="utf-8">
<meta name="viewport" content="width=device-width, initial-scale=1, viewport-fit=cover">
<meta name="theme-color" content="#0b0d10">
<title>show</title>
<link rel="icon" href="data:,">
<style>
:root { --ground: #0b0d10; --card: #13171c; --line: #222931; --text: #b9c2cc; --faint: #6d7783; --strong: #e6ebf0;
  --go: #4fb286; --wait: #d7a64a; --bad: #e0645c; --curve: #5b9bd5; }
* { box-sizing: border-box; margin: 0; }
html { background: var(--ground); color: var(--text); font: 15px/1.35 system-ui, sans-serif; -webkit-text-size-adjust: 100%; }
body { min-height: 100vh; padding-bottom: env(safe-area-inset-bottom); }
body.dim { filter: brightness(.55); }
.num, .addr, time, .val { font-family: ui-monospace, Menlo, Consolas, "DejaVu Sans Mono", monospace; font-variant-numeric: tabular-nums; }
header { position: sticky; top: 0; z-index: 2; background: var(--ground); border-bottom: 1px solid var(--line);
  display: flex; align-items: center; gap: .4rem 1rem; flex-wrap: wrap; padding: .5rem .8rem; padding-top: max(.5rem, env(safe-area-inset-top)); }
#state { display: flex; align-items: center; gap: .5rem; font-weight: 600; color: var(--strong); }
#state::before { content: ""; width: .75rem; height: .75rem; border-radius: 50%; background: var(--go); }
body.still #state::before { background: var(--wait); }
body.lost #state::before { background: var(--bad); }
body.lost header { background: #3a1513; border-color: var(--bad); }
body.lost main { opacity: .35; }
#clock { font-size: 1.35rem; color: var(--strong); }
#facts { display: flex; flex-wrap: wrap; gap: .1rem .9rem; color: var(--faint); font-size: .82rem; }
#facts b { color: var(--text); font-weight: 500; }
#facts .bad, #facts .bad b { color: var(--bad); }
#facts a { color: inherit; text-decoration: none; }
#facts .wait b { color: var(--wait); }
.tools { margin-left: auto; display: flex; gap: .4rem; }
button, input { font: inherit; color: var(--text); background: var(--card); border: 1px solid var(--line); border-radius: .45rem; min-height: 2.5rem; padding: 0 .8rem; }
button { cursor: pointer; }
button[aria-pressed=true] { border-color: var(--wait); color: var(--wait); }
input { flex: 1; min-width: 0; width: 100%; }
input::placeholder { color: var(--faint); }
:focus-visible { outline: 2px solid var(--curve); outline-offset: 1px; }
main { display: grid; gap: .8rem; padding: .8rem; grid-template-columns: minmax(0, 1fr); }
section { min-width: 0; }
h2 { font-size: .78rem; font-weight: 600; letter-spacing: .06em; text-transform: uppercase; color: var(--faint); display: flex; gap: .6rem; align-items: center; padding: .1rem .1rem .4rem; min-height: 1.6rem; }
h2 .num { color: var(--text); letter-spacing: 0; }
.list { background: var(--card); border: 1px solid var(--line); border-radius: .6rem; overflow: hidden; }
.none { padding: .7rem .8rem; color: var(--faint); }
.group + .group h3 { margin-top: .8rem; }
section { scroll-margin-top: 6rem; }
h3 { font-size: .85rem; font-weight: 600; color: var(--faint); padding: 0 .1rem .25rem; }
.row { display: grid; grid-template-columns: minmax(0, 1fr) auto; gap: .05rem .7rem; align-items: center; padding: .42rem .8rem; border-top: 1px solid var(--line);
  border-left: 3px solid transparent; content-visibility: auto; contain-intrinsic-size: auto 3.2rem; }
.row:first-child { border-top: 0; }
.row .addr { color: var(--text); overflow-wrap: break-word; }
.row .val { color: var(--strong); font-size: 1.1rem; text-align: right; overflow-wrap: anywhere; }
.row .sub { color: var(--faint); font-size: .78rem; display: flex; gap: .8rem; min-width: 0; }
.row svg { width: 7.5rem; height: 1.05rem; display: block; }
.row .side { justify-self: end; min-height: 1.05rem; }
.row polyline { fill: none; stroke: var(--curve); stroke-width: 1.5; vector-effect: non-scaling-stroke; }
.row.hot { border-left-color: var(--go); }
.row.hot .addr { color: var(--strong); }
.row.never .addr, .row.never .val { color: var(--faint); }
.swatch { display: inline-block; width: 1.5rem; height: .9rem; border-radius: .2rem; vertical-align: -.05rem; margin-right: .4rem; border: 1px solid var(--line); }
.wait { grid-template-columns: 5.6rem minmax(0, 1fr); }
.wait .left { grid-row: 1 / span 2; }
.wait .left { color: var(--wait); font-size: 1.3rem; }
.wait.soon { border-left-color: var(--wait); }
.wait.soon .left { color: var(--strong); }
.find { display: flex; gap: .4rem; padding-bottom: .5rem; }
#waits .list { max-height: 26rem; overflow-y: auto; overscroll-behavior: contain; }
@media (max-width: 819px) {
  .tools { order: 1; } #facts { order: 2; width: 100%; }
  button { padding: 0 .7rem; min-height: 2.25rem; }
}
@media (min-width: 820px) {
  main { grid-template-columns: minmax(0, 1.35fr) minmax(0, 1fr); align-items: start; }
  #methods { grid-row: 1 / span 3; }
  #waits .list { max-height: max(14rem, calc(100vh - 16rem)); }
}
#rows.latest { display: flex; flex-direction: column; background: var(--card); border: 1px solid var(--line); border-radius: .6rem; overflow: hidden; columns: 1; }
#rows.latest .group, #rows.latest .list { display: contents; }
#rows.latest h3 { display: none; }
#rows.latest .row { border-top: 1px solid var(--line); }
@media (min-width: 1500px) { #rows { columns: 2; column-gap: .8rem; } #rows .group { break-inside: avoid; } }
@media (prefers-reduced-motion: no-preference) { .row { transition: border-color .6s; } .row.hot { transition: none; } }
</style>
</head>
<body class="lost">
<header>
  <div id="state" role="status">connecting</div>
  <time id="clock" class="num">--:--:--</time>
  <div id="facts"></div>
  <div class="tools"><button id="hold" aria-pressed="false">Hold</button><button id="dim" aria-pressed="false">Dim</button></div>
</header>
<main>
  <section id="methods">
    <div class="find"><input id="find" type="search" placeholder="find an address" autocomplete="off" autocapitalize="off" spellcheck="false" aria-label="find an address"><button id="sort" aria-pressed="false">Latest first</button></div>
    <div id="rows"></div>
  </section>
  <section id="waits"><h2>Waits <span class="num" id="waiting">0</span></h2><div class="list" id="wait_list"></div></section>
  <section id="lost"><h2>Not called <span class="num" id="lost_count">0</span></h2><div class="list" id="lost_list"></div></section>
</main>
<script>
"use strict";
const $ = id => document.getElementById(id);
const make = (tag, kind, text) => { const e = document.createElement(tag); if (kind) e.className = kind; if (text !== undefined) e.textContent = text; return e; };
const put = (e, text) => { if (e.textContent !== text) e.textContent = text; };
const EPOCH = 2208988800000, SPAN = 20000, POLL = 200;
let state = null, got = 0, moved = 0, held = false, latest = false, grown = false, empty = false;
const rows = new Map(), groups = new Map();

// ---- words of arguments
const view = new DataView(new ArrayBuffer(8));
const word = hex => { view.setUint32(0, parseInt(hex, 16)); return view; };
const long = hex => { view.setUint32(0, parseInt(hex.slice(0, 8), 16)); view.setUint32(4, parseInt(hex.slice(8), 16)); return view; };
const short = x => Number.isInteger(x) ? String(x) : Math.abs(x) >= 1e6 || Math.abs(x) < 1e-4 ? x.toExponential(3) : String(+x.toPrecision(5));
const plain = text => new TextDecoder().decode(Uint8Array.from(text.replace(/\\x([0-9a-f]{2})/g, (_, h) => String.fromCharCode(parseInt(h, 16))), c => c.charCodeAt(0))).replace(/[\u0000-\u001f\u007f]/g, "\u00b7");
const two = n => String(n).padStart(2, "0");
const wall = (ms, parts) => { const d = new Date(ms - EPOCH); return two(d.getHours()) + ":" + two(d.getMinutes()) + ":" + two(d.getSeconds()) + (parts ? "." + String(d.getMilliseconds()).padStart(3, "0") : ""); };
function argument(text) {
  const tag = text[0], rest = text.slice(2);
  switch (text.length > 1 ? tag : "") {
    case "i": case "h": return { text: rest, number: Number(rest) };
    case "f": { const x = word(rest).getFloat32(0); return { text: short(x), number: x }; }
    case "d": { const x = long(rest).getFloat64(0); return { text: short(x), number: x }; }
    case "s": case "S": return { text: plain(rest) };
    case "c": return { text: "'" + plain("\\x" + rest.slice(6)) + "'" };
    case "r": return { text: "#" + rest, colour: "#" + rest };
    case "t": { const ms = parseInt(rest.slice(0, 8), 16) * 1000 + Math.floor(parseInt(rest.slice(8), 16) * 1000 / 4294967296);
      return { text: ms === 0 ? "now" : wall(ms, true) }; }
    case "m": return { text: "midi " + rest };
    case "b": return { text: rest.length / 2 + " bytes" };
    default: return { text: ({ T: "true", F: "false", N: "nil", I: "bang" })[text] || text };
  }
}
const values = words => words === "" ? [] : words.slice(1).split(" ").map(argument);
// an address may be broken after a slash
const spaced = address => address.replace(/\//g, "/\u200b");

// ---- ages and countdowns; the show's clock goes on between two answers
const now = () => state.clock + (held ? 0 : performance.now() - got);
function ago(ms) { const s = ms / 1000; return s < 1 ? "now" : s < 60 ? Math.floor(s) + " s ago" : s < 3600 ? Math.floor(s / 60) + " min ago" : Math.floor(s / 3600) + " h ago"; }
function left(ms) { const s = Math.max(0, ms) / 1000; return s < 60 ? s.toFixed(1) : s < 3600 ? Math.floor(s / 60) + ":" + two(Math.floor(s % 60)) : Math.floor(s / 3600) + ":" + two(Math.floor(s / 60 % 60)) + ":" + two(Math.floor(s % 60)); }

// ---- methods
function new_row(method) {
  const e = make("div", "row"), r = { e, calls: -1, at: 0, points: [], address: method.address };
  e.append(r.addr = make("div", "addr", spaced(method.address)), r.val = make("div", "val"));
  e.append(r.sub = make("div", "sub"), r.side = make("div", "side"));
  r.sub.append(r.age = make("span"), r.count = make("span", "num"));
  let g = groups.get(r.group = "/" + method.address.split("/")[1]);
  if (!g) { g = { e: make("div", "group"), list: make("div", "list") }; g.e.append(make("h3", "", r.group), g.list); groups.set(r.group, g); $("rows").append(g.e); }
  g.list.append(e);
  grown = true;
  return r;
}
function show_value(r, words) {
  const list = values(words), one = list.length === 1 ? list[0] : null;
  r.val.replaceChildren();
  for (const v of list) { if (v.colour) { const s = make("span", "swatch"); s.style.background = v.colour.slice(0, 7); r.val.append(s); } }
  r.val.append(list.map(v => v.text).join("  ") || (r.calls ? "called" : "\u2013"));
  r.number = one && Number.isFinite(one.number) ? one.number : null;
}
function curve(r, t) {
  if (r.number === null || r.number === undefined) { if (r.svg) { r.svg.remove(); r.svg = null; } r.points = []; return; }
  r.points.push([t, r.number]);
  while (r.points.length > 1 && r.points[1][0] < t - SPAN) r.points.shift();
  if (!r.svg) { r.svg = document.createElementNS("http://www.w3.org/2000/svg", "svg"); r.svg.setAttribute("viewBox", "0 0 100 20"); r.svg.setAttribute("preserveAspectRatio", "none");
    r.svg.append(r.path = document.createElementNS("http://www.w3.org/2000/svg", "polyline")); r.side.append(r.svg); }
  let low = Infinity, high = -Infinity;
  for (const p of r.points) { low = Math.min(low, p[1]); high = Math.max(high, p[1]); }
  if (low >= 0 && high <= 1) { low = 0; high = 1; }
  const size = high - low || 1;
  let text = "", last = null;
  for (const p of r.points) { const x = Math.max(0, 100 + (p[0] - t) * 100 / SPAN).toFixed(1), y = (high === low ? 10 : 19 - (p[1] - low) * 18 / size).toFixed(1);
    if (last !== null) text += x + "," + last + " "; text += x + "," + y + " "; last = y; }
  r.path.setAttribute("points", text);
}
function show_methods(t) {
  const seen = new Set();
  for (const m of state.methods) {
    seen.add(m.id);
    let r = rows.get(m.id);
    if (!r) rows.set(m.id, r = new_row(m));
    if (r.calls !== m.calls || r.at !== m.at) { r.calls = m.calls; r.at = m.at; show_value(r, m.words); put(r.count, m.calls === 1 ? "1 call" : m.calls + " calls"); }
    r.e.classList.toggle("hot", m.calls > 0 && t - m.at < 700);
    r.e.classList.toggle("never", m.calls === 0);
    put(r.age, m.calls === 0 ? "never called" : ago(t - m.at));
    if (t - m.at < SPAN + 1000) curve(r, t);
  }
  if (grown) { grown = false; for (const r of [...rows.values()].sort((a, b) => a.address < b.address ? -1 : 1)) { const g = groups.get(r.group); g.list.append(r.e); $("rows").append(g.e); } }
  for (const [id, r] of rows) if (!seen.has(id)) { r.e.remove(); rows.delete(id); }
  arrange();
}
// what was called within two seconds keeps its order, so that rows don't jump
const late = r => r.calls ? Math.min(r.at, state.clock - 2000) : 0;
function arrange() {
  const wanted = $("find").value.trim().toLowerCase();
  for (const r of rows.values()) r.e.hidden = wanted !== "" && !r.address.toLowerCase().includes(wanted);
  for (const g of groups.values()) g.e.hidden = ![...g.list.children].some(e => !e.hidden);
  if (latest) { const order = [...rows.values()].sort((a, b) => late(b) - late(a) || (a.address < b.address ? -1 : 1)); let k = 0; for (const r of order) r.e.style.order = k++; }
}
// ---- lists that are written anew where they changed
function fill(list, items, none, row) { const e = $(list); e.replaceChildren(...(items.length ? items.map(row) : [make("div", "none", none)])); }
let last_waits = "-", last_lost = "-";
let timers = [];
function show_waits() {
  put($("waiting"), String(state.counts.waiting));
  const key = state.waits.map(w => w.unit).join();
  if (key === last_waits && (timers.length || !key)) return;
  last_waits = key; timers = [];
  fill("wait_list", state.waits, "nothing waits", w => { const e = make("div", "row wait"), n = make("div", "left num");
    e.append(n, make("div", "addr", spaced(w.first)), make("div", "sub", (w.messages > 1 ? "+" + (w.messages - 1) + " more, " : "") + "at " + wall(w.due)));
    timers.push([n, e, w.due]); return e; });
}
function show_lost() {
  const n = state.counts, lost = [["messages that no method heard", n.unheard], ["messages that came late and were discarded", n.discarded], ["messages for which there was no room", n.refused]].filter(x => x[1] > 0);
  put($("lost_count"), String(n.unheard + n.discarded + n.refused));
  const key = JSON.stringify(lost);
  if (key === last_lost) return;
  last_lost = key;
  fill("lost_list", lost, "all messages were called", x => { const e = make("div", "row"); e.append(make("div", "", x[0]), make("div", "val", String(x[1]))); return e; });
}
function show_facts() {
  const s = state, n = s.counts, lost = n.discarded + n.refused;
  const parts = [["", s.methods.length, " methods", "#methods", ""], ["", n.messages, " messages", "", ""], ["", n.calls, " calls", "", ""],
    ["", n.waiting, n.waiting === 1 ? " bundle waits" : " bundles wait", "#waits", n.waiting ? "wait" : ""],
    ["", lost, " refused or discarded", "#lost", lost ? "bad" : ""], ["", n.entries, " entries", "", ""]];
  $("facts").replaceChildren(...parts.map(p => { const e = make(p[3] ? "a" : "span", p[4], p[0]); if (p[3]) e.href = p[3]; e.append(make("b", "num", String(p[1])), p[2]); return e; }));
}
function show() {
  const t = now();
  show_methods(t); show_waits(); show_lost(); show_facts();
}
// ---- the clock, and whether what is seen is true
function beat() {
  const age = performance.now() - got, lost = !state || age > 2000, still = !lost && performance.now() - moved > 2000;
  document.body.classList.toggle("lost", lost);
  document.body.classList.toggle("still", still || held);
  put($("state"), empty && age < 2000 ? "nothing is recorded yet" : lost ? (state ? "no answer for " + Math.floor(age / 1000) + " s" : "connecting") : held ? "held" : still ? "clock stands" : "live");
  if (state && !lost) { put($("clock"), wall(now()));
    for (const [n, e, due] of timers) { const ms = due - now(); put(n, left(ms)); e.classList.toggle("soon", ms < 5000); } }
  requestAnimationFrame(beat);
}
async function poll() {
  const quit = new AbortController(), timer = setTimeout(() => quit.abort(), 3000);
  try {
    const answer = await fetch("/state.json", { cache: "no-store", signal: quit.signal });
    const next = await answer.json();
    if (next === null) { empty = true; got = performance.now(); } else if (!held) {
      empty = false;
      if (!state || next.clock !== state.clock) moved = performance.now();
      state = next; got = performance.now(); show();
    } else got = performance.now();
  } catch (_) {}
  clearTimeout(timer);
  setTimeout(poll, document.hidden ? 2000 : POLL);
}
const press = (b, on) => b.setAttribute("aria-pressed", String(on));
$("hold").onclick = () => { held = !held; press($("hold"), held); };
$("dim").onclick = () => press($("dim"), document.body.classList.toggle("dim"));
$("sort").onclick = () => { latest = !latest; press($("sort"), latest); $("rows").classList.toggle("latest", latest); if (state) arrange(); };
$("find").oninput = () => state && arrange();
requestAnimationFrame(beat);
poll();
</script>
</body>
</html>
"##;
