//! The page without a run, in three parts: `bindings/python/src/atomfs/run.html`, byte for byte. After a change there
//! `python3 tests/pages.py --write` writes this file.

/// What the page has before the picture.
pub const BEFORE: &[u8] = br##"<!DOCTYPE html>
<html lang="en">
<head>
<meta charset="utf-8">
<meta name="viewport" content="width=device-width, initial-scale=1">
<meta http-equiv="Content-Security-Policy" content="default-src 'none'; img-src data:; style-src 'unsafe-inline'; script-src 'sha256-Qy4YA0McmUOuJWllLKvoJG56+AnKTWMVaJFqfHwaH+k=' 'sha256-vym8heqAQz9qoDtyf71K0qQy57aQ5ySAscsxNlP22zA='">
<title>AtomFS: a run, event by event</title>
<style>
:root {
  color-scheme: light dark;
  --text: #1f2328; --dim: #59636e; --back: #fff; --line: #d8dee4; --walk: #bdd7f5; --edge: #2f5f98; --wait: #e8eef5;
  --help: #b04a00; --bad: #b3261e; --mark: #fff3c4;
}
@media screen and (prefers-color-scheme: dark) {
  :root {
    --text: #e6edf3; --dim: #9aa4af; --back: #0d1117; --line: #2b3138; --walk: #1c4a7d; --edge: #79b8ff; --wait: #18222d;
    --help: #ffa94d; --bad: #ff8f85; --mark: #4a3c00;
  }
}
* { box-sizing: border-box; }
body { font: 15px/1.5 system-ui, sans-serif; color: var(--text); background: var(--back); max-width: 1100px; margin: 0 auto; padding: 16px; }
h1 { font-size: 19px; margin: 0 0 8px; }
h2 { font-size: 14px; color: var(--dim); margin: 12px 0 4px; }
button, input { font: inherit; }
button { min-width: 36px; padding: 2px 8px; }
#controls { display: flex; flex-wrap: wrap; gap: 6px; align-items: center; }
#at { width: 100%; margin: 8px 0; }
#count { margin: 0 8px; color: var(--dim); font-variant-numeric: tabular-nums; }
#sentence { font-size: 17px; min-height: 3.2em; margin: 8px 0; padding-left: 12px; border-left: 4px solid var(--edge); overflow-wrap: anywhere; }
.rows { position: relative; overflow: auto; max-height: 340px; font: 13px/24px ui-monospace, "DejaVu Sans Mono", Menlo, Consolas, monospace; }
.rows ol { list-style: none; margin: 0; padding: 0; }
.rows li { height: 24px; white-space: pre; overflow: hidden; text-overflow: ellipsis; }
#lanes li { display: flex; height: 44px; line-height: 52px; border-bottom: 1px solid var(--line); }
#lanes b { flex: none; width: 100px; overflow: hidden; text-overflow: ellipsis; }
#lanes svg { flex: 1; min-width: 0; height: 44px; overflow: hidden; }
#lanes rect { stroke: var(--edge); fill: var(--back); }
#lanes rect.walk { fill: var(--walk); }
#lanes rect.wait { fill: var(--wait); }
#lanes rect.helped { fill: url(#hatch); }
#lanes rect.dense { fill: var(--edge); }
#lanes rect.open { fill: none; stroke-dasharray: 3 2; }
#lanes circle { fill: var(--back); stroke: var(--text); stroke-width: 1.8; }
#lanes circle.helped { fill: var(--help); stroke: var(--help); }
#lanes text { fill: var(--text); font-size: 11px; paint-order: stroke; stroke: var(--back); stroke-width: 4px; }
#lanes text.order { text-anchor: middle; stroke: none; }
#lanes text.order.helped { fill: var(--back); }
#lanes line { stroke: var(--bad); stroke-width: 2; }
#lanes .chosen rect { stroke: var(--text); stroke-width: 2; }
#lanes .wrong rect { stroke: var(--bad); stroke-width: 2; }
#lanes .met rect { stroke: var(--help); stroke-width: 3; }
#lanes g:focus-visible { outline: 2px solid var(--help); outline-offset: 0; }
#calls li { padding-left: 6px; }
li.met { box-shadow: inset 3px 0 var(--help); }
#source { margin: 0 0 8px; padding-left: 16px; font: 14px/1.5 ui-monospace, "DejaVu Sans Mono", Menlo, Consolas, monospace; overflow-wrap: anywhere; }
#met { min-height: 1.5em; margin: 0; overflow-wrap: anywhere; }
#parts { display: grid; grid-template-columns: minmax(0, 1fr) minmax(0, 1fr); gap: 0 24px; }
.mark { background: var(--mark); }
.dim { color: var(--dim); }
.bad { color: var(--bad); font-weight: 700; }
.holder { color: var(--help); }
summary { cursor: pointer; margin-top: 12px; }
img { max-width: 100%; }
body > svg { position: absolute; }
@media (max-width: 700px) { #parts { grid-template-columns: minmax(0, 1fr); } #lanes b { width: 70px; } }
@media print { #controls, #at, #keys, #met:empty, details { display: none; } #calls li, #events li { height: auto; white-space: pre-wrap; overflow-wrap: anywhere; } .rows { max-height: none; overflow: visible; } .rows ol { height: auto !important; padding: 0 !important; } body { max-width: none; } }
</style>
</head>
<body>
<h1 id="news">A run of AtomFS</h1>
<noscript>
"##;

/// What the page has between the picture and the text.
pub const BETWEEN: &[u8] = br##"</noscript>
<main id="player" hidden>
<div id="controls">
<button type="button" id="first" aria-label="before the first event">&#124;&#9664;</button>
<button type="button" id="back" aria-label="one event back">&#9664;</button>
<button type="button" id="next" aria-label="one event on">&#9654;</button>
<button type="button" id="last" aria-label="to the last event">&#9654;&#124;</button>
<button type="button" id="play" aria-pressed="false">Play</button>
<span id="count"></span>
<button type="button" id="wider" aria-label="show more events">&#8722;</button>
<button type="button" id="closer" aria-label="show fewer events">+</button>
<label>Find <input id="find" type="search" size="18" placeholder="a path, a thread, helps"></label>
<span id="found" class="dim" role="status"></span>
</div>
<input id="at" type="range" min="0" value="0" aria-label="event">
<p id="sentence" role="status" aria-live="polite"></p>
<p id="source" role="status" hidden></p>
<div id="lanes" class="rows" aria-label="threads"></div>
<p class="dim"><span id="axis"></span> Blue: not in effect yet, pale where the call waits. Circle: the call takes effect, and its place in the order. Hatched: another call helped it, and its change is still to come. White: in effect, not returned.<span id="legend"></span></p>
<p id="met" class="dim" role="status"></p>
<div id="parts">
<section><h2>The tree, and who has which node locked</h2><div id="tree" class="rows" tabindex="0"></div></section>
<section><h2>Calls, in the order in which they take effect</h2><div id="calls" class="rows" tabindex="0"></div></section>
</div>
<h2>Events</h2>
<div id="events" class="rows" tabindex="0"></div>
<p id="keys" class="dim">Keys: left and right arrow for an event, Page Up and Page Down for a change, Home, End, + and &#8722; for more or fewer events, / to search, space to play. Tab goes from call to call and says which calls each one met, and Enter goes to it.</p>
<details id="whole"><summary>The whole run as one picture</summary></details>
</main>
<svg width="0" height="0" aria-hidden="true"><pattern id="hatch" width="6" height="6" patternUnits="userSpaceOnUse" patternTransform="rotate(45)"><rect width="6" height="6" fill="var(--back)"/><rect width="3" height="6" fill="var(--help)"/></pattern></svg>
<pre id="run" hidden>
"##;

/// What the page has after the text.
pub const AFTER: &[u8] = br##"</pre>
<script>
"use strict";
// Reads the text of a run, an `atomfs trace` or a journal, and shows it event by event. Of long lists only what is seen is in the page.

// ---- Names and paths: a name is a string with a character for each of its bytes

const decoded = word => word.replace(/%([0-9A-Fa-f]{2})/g, (_, byte) => String.fromCharCode(parseInt(byte, 16)));
const escaped = name => name.replace(/[^!-$&-~]/g, one => "%" + one.charCodeAt(0).toString(16).toUpperCase().padStart(2, "0"));
const namesOf = path => path.split("/").filter(name => name).map(decoded);
const pathOf = names => "/" + names.map(escaped).join("/");

// ---- The tree: a directory has `names`, a file its `size`, and its bytes as `data` in hexadecimal digits if these are few

const FEW = 65536;
const directory = () => ({names: new Map()});
const isDirectory = node => Boolean(node && node.names);
const nodeAt = (root, names) => names.reduce((node, name) => isDirectory(node) ? node.names.get(name) : undefined, root);

function put(root, names, node) {
  const parent = nodeAt(root, names.slice(0, -1)), name = names[names.length - 1];
  if (!isDirectory(parent)) return;
  if (node) parent.names.set(name, node);
  else parent.names.delete(name);
}

function resized(file, size) {
  const known = size === 0 ? "" : file.data;
  return {...file, size, data: size <= FEW && known !== null ? known.slice(0, 2 * size).padEnd(2 * size, "0") : null};
}

function written(file, offset, hex) {
  const end = offset + hex.length / 2, longer = resized(file, Math.max(file.size, end));
  return longer.data === null ? longer : {...longer, data: longer.data.slice(0, 2 * offset) + hex + longer.data.slice(2 * end)};
}

// The nodes from the root down, names in the order of their bytes. No function calls itself, however deep the tree is.
function nodesOf(root) {
  const found = [], left = [{names: [], node: root}];
  while (left.length) {
    const one = left.pop();
    found.push(one);
    if (!isDirectory(one.node)) continue;
    for (const name of [...one.node.names.keys()].sort().reverse()) left.push({names: [...one.names, name], node: one.node.names.get(name)});
  }
  return found;
}

function copied(root) {
  const copy = {...root}, left = [copy];
  while (left.length) {
    const one = left.pop();
    one.names = new Map(one.names);
    for (const [name, node] of one.names) {
      const own = {...node};
      one.names.set(name, own);
      if (isDirectory(own)) left.push(own);
    }
  }
  return copy;
}

// The line of a node in a tree text; of a file with many bytes without them.
function lineOf({names, node}) {
  return isDirectory(node) ? `dir ${pathOf(names)}` : `file ${pathOf(names)} ${node.data === null ? "" : node.data || "-"}`;
}

// ---- What a call does to the tree, in the words of a trace

function canHappen(root, verb, one, other) {
  const node = nodeAt(root, one), target = nodeAt(root, other), isBelow = (inner, outer) => outer.every((name, at) => inner[at] === name);
  if (verb === "mkdir" || verb === "mknod") return one.length > 0 && isDirectory(nodeAt(root, one.slice(0, -1))) && !node;
  if (!node) return false;
  if (verb === "unlink" || verb === "write" || verb === "truncate") return !isDirectory(node);
  if (verb === "rmdir") return one.length > 0 && isDirectory(node) && node.names.size === 0;
  if (verb !== "rename" && verb !== "exchange") return true;
  if (!one.length || !other.length) return false;
  if (isBelow(one, other) || isBelow(other, one)) return one.length === other.length;
  if (verb === "exchange") return Boolean(target);
  if (!target) return isDirectory(nodeAt(root, other.slice(0, -1)));
  return isDirectory(node) === isDirectory(target) && !(isDirectory(target) && target.names.size);
}

// The effect of a call of a journal, which does not say it. Whether a limit was met, the reply alone says.
function effectOf(root, words, reply = "") {
  const [verb, path, second, third] = words.split(" "), one = namesOf(path), isMove = verb === "rename" || verb === "exchange";
  const other = isMove ? namesOf(second) : one, at = pathOf(one), to = pathOf(other);
  if (/^failed (ENOSPC|EFBIG|EOVERFLOW)$/.test(reply) || !canHappen(root, verb, one, other)) return `fails ${reply.replace("failed ", "")}`.trim();
  if ((isMove && at === to) || (verb === "write" && third === "-")) return "changes nothing";
  if (verb === "truncate" && nodeAt(root, one).size === Number(second)) return "changes nothing";
  if (verb === "rename") return `moves ${at} ${nodeAt(root, other) ? "over" : "to"} ${to}`;
  if (verb === "exchange") return `exchanges ${at} with ${to}`;
  const word = {mkdir: "adds", mknod: "adds", unlink: "removes", rmdir: "removes", write: "changes", truncate: "changes"}[verb];
  return word ? `${word} ${at}` : "answers";
}

function makeChange(root, effect, words) {
  const [verb, path, , second] = effect.split(" "), one = namesOf(path || ""), node = nodeAt(root, one), [call, , number, hex] = words.split(" ");
  if (verb === "adds") put(root, one, call === "mkdir" ? directory() : {size: 0, data: ""});
  if (verb === "removes") put(root, one, null);
  if (verb === "changes" && path !== "nothing") put(root, one, call === "write" ? written(node, Number(number), hex) : resized(node, Number(number)));
  if (verb !== "moves" && verb !== "exchanges") return;
  const other = nodeAt(root, namesOf(second));
  put(root, one, verb === "exchanges" ? other : null);
  put(root, namesOf(second), node);
}

// ---- What a reader sees of bytes

// Bytes as text if all are printable; of many the first.
function legible(hex) {
  const few = hex.slice(0, 120), bytes = (few.match(/../g) || []).map(byte => parseInt(byte, 16));
  const isText = bytes.every(byte => (byte >= 32 && byte < 127) || byte === 9 || byte === 10);
  return `${isText ? JSON.stringify(String.fromCharCode(...bytes)) : few}${few.length < hex.length ? "\u2026" : ""}`;
}

// The words of a call or a reply, with their bytes so.
const inText = words => words.replace(/^(write \S+ \d+|bytes) (-|[0-9A-Fa-f]+)$/, (_, before, hex) => `${before} ${legible(hex.replace("-", ""))}`);

// ---- Reading a text: `events` have a number, a call and what it did; `calls` have the events at which they begin, take effect, and so on

function emptyRun() {
  const lists = {lanes: [], events: [], calls: [], tree: [], ofLane: new Map(), byName: new Map()};
  return {...lists, orders: 0, unbegun: 0, fault: null, found: null, replies: "", start: directory()};
}

function addEvent(run, number, name, what) {
  const at = run.events.length + 1;
  if (what.startsWith("begins ")) {
    const lane = name.split("#")[0], ofLane = run.ofLane.get(lane) || run.ofLane.set(lane, []).get(lane);
    const words = what.slice(7).replace(/, call \d+$/, "");
    const call = {name: `${lane}#${ofLane.length + 1}`, lane, words, shown: inText(words), begin: at, waits: []};
    ofLane.push(Object.assign(call, {commit: null, change: null, end: null, order: 0, helper: null, reply: null}));
    run.byName.set(name, call);
    run.calls.push(call);
  }
  const call = run.byName.get(name) || null;
  run.events.push({number, call, what});
  if (call) followCall(run, call, what, at);
}

function followCall(run, call, what, at) {
  const [verb, ...rest] = what.split(" "), wait = call.waits[call.waits.length - 1];
  const helped = verb === "helps" && run.byName.get(rest[0].slice(0, -1));
  if (wait && wait.to === null) wait.to = at;
  if (verb === "waits") call.waits.push({from: at, to: null});
  if (verb === "commits,") Object.assign(call, {commit: at, change: at, order: ++run.orders});
  if (verb === "makes") call.change = at;
  if (verb === "returns") Object.assign(call, {end: at, reply: rest.join(" ")});
  if (helped) Object.assign(helped, {commit: at, helper: call, order: ++run.orders});
}

const treeOf = lines => lines.includes("tree") ? lines.slice(lines.indexOf("tree") + 1).filter(line => /^(dir|file) /.test(line)) : [];

function readTrace(lines) {
  const run = {...emptyRun(), tree: treeOf(lines)}, body = lines.slice(1, lines.includes("tree") ? lines.indexOf("tree") : lines.length);
  for (const line of body) {
    const [, number, who, what] = /^(\d+) (call \d+ on seat \d+|\w+#\d+|\w+) (.*)$/.exec(line) || [];
    if (who) addEvent(run, Number(number), who.replace(/^call (\d+) on (seat \d+)$/, "$2#$1"), /#|on/.test(who) ? what : `${who} ${what}`);
    else if (line.startsWith("thread ")) run.lanes.push(line.slice(7));
    else if (/^left \w+ unbegun /.test(line)) run.unbegun++;
    if (!line.startsWith("checkpoint,")) continue;
    addEvent(run, run.events.length ? run.events[run.events.length - 1].number : 0, "", line);
    run.orders = 0;
  }
  return run;
}

// The start tree of a journal, whose lines precede its entries; and the names of seats, which comments have.
function readHead(run, lines) {
  const names = new Map(), first = lines.indexOf("entries");
  for (const [kind, path, hex] of lines.slice(lines.indexOf("start") + 1, Math.max(0, first)).map(line => line.split(" "))) {
    if (kind === "dir" && path !== "/") put(run.start, namesOf(path), directory());
    if (kind === "file") put(run.start, namesOf(path), written({size: 0, data: ""}, 0, hex.replace("-", "")));
  }
  for (const [, seat, name] of lines.map(line => /^# seat (\d+) (\w+)$/.exec(line) || [])) names.set(seat, name);
  return names;
}

function readJournal(lines) {
  const run = emptyRun(), seats = new Map(), body = lines.slice(0, lines.includes("tree") ? lines.indexOf("tree") : lines.length);
  const names = readHead(run, body), root = copied(run.start), entries = body.slice(body.indexOf("entries") + 1).map(line => line.split(" "));
  const replies = new Map(entries.filter(words => words[0] === "return").map(words => [words[1], words.slice(2).join(" ")]));
  for (const [verb, number, ...rest] of entries.filter(words => /^(begin|commit|return)$/.test(words[0]))) {
    if (verb === "begin") seats.set(number, `${names.get(rest[0]) || `seat ${rest[0]}`}#${number}`);
    const name = seats.get(number) || `#${number}`, call = run.byName.get(name);
    const effect = verb === "commit" && call ? effectOf(root, call.words, replies.get(number)) : "";
    if (effect) makeChange(root, effect, call.words);
    const what = {begin: `begins ${rest.slice(1).join(" ")}`, commit: `commits, ${effect}`, return: `returns ${rest.join(" ")}`}[verb];
    addEvent(run, run.events.length + 1, name, what);
  }
  // A run text has the tree of the changes that were made: it may lack that of a call which takes effect and is left.
  if (run.calls.every(call => call.commit === null || call.end !== null)) run.tree = treeOf(lines);
  return run;
}

// A line of source, whose bytes are escaped; what could hide or turn the words beside it is shown by its number.
function sourceOf(words) {
  const text = new TextDecoder().decode(Uint8Array.from(decoded(words), one => one.charCodeAt(0)));
  return text.replace(/[\p{C}\p{Zl}\p{Zp}]/gu, one => `\\u{${one.codePointAt(0).toString(16)}}`);
}

// What a line before the text says: the verdict on a journal, what was found of a history, or which line of source made the nth call.
function readNote(run, note) {
  const [, kind, words] = /^# (\w+) ?(.*)$/.exec(note) || [], [place, ...rest] = (words || "").split(" ");
  if (kind === "fault") run.fault = {place: Number(place), kind: rest.join(" ")};
  if (kind === "history") run.found = place;
  if (kind === "reply" && words) run.replies += ` ${words[0].toUpperCase()}${words.slice(1)}.`;
  if (kind === "source" && run.calls[place - 1]) run.calls[place - 1].source = sourceOf(rest.join(" "));
}

function readRun(text) {
  const all = text.split("\n").filter(line => line), first = all.findIndex(line => line.startsWith("atomfs-")), lines = all.slice(first);
  const run = lines[0].startsWith("atomfs-journal") ? readJournal(lines) : readTrace(lines);
  for (const line of all.slice(0, first)) readNote(run, line);
  // A journal that ends with a return before its commit is what is found of a history: up to there an order explains it.
  if (run.fault && run.fault.kind === "ReturnUncommitted" && run.fault.place === run.events.length) run.found = run.found || "none";
  const lanes = [...new Set([...run.lanes, ...run.calls.map(call => call.lane)])];
  run.lanes = run.lanes.length ? lanes : lanes.sort(new Intl.Collator("en", {numeric: true}).compare);
  for (const lane of lanes) if (!run.ofLane.has(lane)) run.ofLane.set(lane, []);
  run.ordered = run.calls.filter(call => call.commit !== null).sort((one, other) => one.commit - other.commit);
  run.unordered = run.calls.filter(call => call.commit === null && call.end !== null);
  run.states = [{at: 0, root: run.start, pending: new Set(), waits: new Map()}];
  return run;
}

// ---- The state after an event: the tree with the calls that hold its nodes, the pending calls, and what they wait for

function goOn(run, state) {
  const {call, what} = run.events[state.at++], [verb] = what.split(" "), lock = /^(?:un)?locks (\S+?)(?:, (?:removed|locked as \S+))?$/.exec(what);
  if (!call) return;
  const node = lock && nodeAt(state.root, namesOf(lock[1])), effect = /^(?:commits|makes its change), (.*)$/.exec(what);
  state.waits.delete(call);
  if (verb === "begins") state.pending.add(call);
  if (verb === "returns") state.pending.delete(call);
  if (verb === "waits") state.waits.set(call, what.slice(10));
  if (verb === "locks" && node) node.holder = call;
  if (verb === "unlocks" && node && !what.endsWith(" removed")) delete node.holder;
  if (effect) makeChange(state.root, effect[1], call.words);
}

const copyOf = state => ({...state, root: copied(state.root), pending: new Set(state.pending), waits: new Map(state.waits)});

// Some states are kept, the next one after as many events as this one has nodes and calls: so all of them grow with the events alone.
function stateAt(run, at) {
  let place = run.states.length - 1;
  while (run.states[place].at > at) place--;
  const state = copyOf(run.states[place]);
  for (let due = state.at + 1000; state.at < at; ) {
    goOn(run, state);
    if (place < run.states.length - 1 || state.at < due) continue;
    due = state.at + Math.max(1000, nodesOf(state.root).length + state.pending.size);
    place = run.states.push(copyOf(state)) - 1;
  }
  return state;
}

// Whether the tree after the last event is the one at the end of the text, if that has one.
function isRight(run) {
  const lines = nodesOf(stateAt(run, run.events.length).root).map(lineOf);
  const isSame = lines.length === run.tree.length && lines.every((line, at) => run.tree[at].startsWith(line));
  return isSame || !run.tree.length || Boolean(run.fault);
}

// ---- Calls that met: each began before the other one returned

const meets = (one, other) => one !== other && (one.end === null || other.begin < one.end) && (other.end === null || one.begin < other.end);

// The first of them, and how many more there may be. The calls are in the order of their begins.
function metBy(run, call, most) {
  const met = [];
  for (const other of run.calls) {
    if (met.length > most || (call.end !== null && other.begin > call.end)) break;
    if (meets(call, other)) met.push(other);
  }
  return met;
}

function metWords(run, call) {
  const met = metBy(run, call, 12), names = met.slice(0, 12).map(titled).join(", ");
  return `${titled(call)} met ${names ? `${names}${met.length > 12 ? ", and more" : ""}` : "no other call"}.`;
}

// ---- Sentences

const nth = number => number + (/1[123]$/.test(number) ? "th" : {1: "st", 2: "nd", 3: "rd"}[number % 10] || "th");
const titled = call => `${call.name} (${call.shown})`;
const count = (number, what) => `${number} ${what}${number === 1 ? "" : "s"}`;
const inWords = effect => effect === "answers" ? "it reads, and changes nothing" : `it ${effect.replace(/^fails (\w+)/, "fails with $1")}`;

function sentenceOf(run, at) {
  if (at === 0) return run.events.length ? "Before the first event." : "Nothing happens in this run.";
  const {call, what} = run.events[at - 1], [verb, path] = what.split(" "), rest = what.slice(verb.length + 1);
  if (!call) return `${what.replace(/^checkpoint,/, "A checkpoint: the journal begins again here, and")}.`;
  const helped = verb === "helps" && run.byName.get(path.slice(0, -1));
  switch (verb) {
    case "begins": return `${call.lane} begins ${call.name}: ${call.shown}.`;
    case "locks": case "unlocks": return `${titled(call)} ${what.replace(/, (removed|locked as \S+)$/, ", which it has $1")}.`;
    case "waits": return `${titled(call)} waits for ${rest.slice(4).replace(" held by ", ", which ")} has locked.`;
    case "helps": return `${titled(call)} is about to move what ${titled(helped)} still works in, at ${what.split(" ").pop()}. So it helps: `
      + `${helped.name} takes effect now, ${nth(helped.order)} in order, before the move. Its change is still to come.`;
    case "makes": return `${titled(call)} took effect when ${call.helper.name} helped it. Now it makes its change: ${inWords(rest.slice(12))}.`;
    case "returns": return `${titled(call)} returns ${inText(rest)}.`;
    default: return `${titled(call)} takes effect, ${nth(call.order)} in order: ${inWords(rest)}.`;
  }
}

// What is wrong with an entry of a journal or a history.
const faultWords = run => run.found === "none" ? ` No order explains this reply.${run.replies}` : ` This is wrong: ${run.fault.kind}.`;

// The call of the first entry that is wrong, if one is.
const faulty = run => run.fault && run.events[run.fault.place - 1] ? run.events[run.fault.place - 1].call : null;

function verdictNews(run) {
  if (run.found === "lawful") return ["an order explains every reply"];
  const call = run.found === "none" ? faulty(run) : null;
  if (call) return [`no order explains that ${call.shown} returned ${inText(call.reply)}`];
  return run.fault ? [`entry ${run.fault.place} is wrong: ${run.fault.kind}`] : [];
}

// What is new in a run, for its headline.
function newsOf(run) {
  const helped = run.calls.filter(call => call.helper), left = run.calls.filter(call => call.end === null);
  const more = list => list.length > 1 ? ` and ${list.length - 1} more` : "";
  const news = [`${count(run.calls.length, "call")} on ${count(run.lanes.length, "thread")}`];
  if (helped.length) news.push(`${helped[0].helper.shown} helped ${helped[0].shown}${more(helped)}`);
  if (left.length) news.push(`${left[0].name} has not returned${more(left)}`);
  if (run.unbegun) news.push(`${run.unbegun} not begun`);
  news.push(...verdictNews(run));
  if (!isRight(run)) news.push("THE TREE OF THIS PAGE IS WRONG: it is not the one at the end of the run");
  return news.join("; ");
}

</script>
<script>
"use strict";
// Shows the run that the script above has read. Words of a run come to the page as text alone.

// ---- Parts of the page

const byId = id => document.getElementById(id);
const cut = (words, most) => words.length <= most ? words : `${words.slice(0, Math.max(0, most - 1))}\u2026`;

// An element of the page, or of a drawing in it.
function element(name, words = "", values = {}) {
  const isDrawn = /^(svg|g|rect|circle|line|text|title)$/.test(name);
  const one = isDrawn ? document.createElementNS("http://www.w3.org/2000/svg", name) : document.createElement(name);
  for (const [key, value] of Object.entries(values)) one.setAttribute(key, value);
  one.append(words);
  return one;
}

// A list with rows of one height, of which those are made that are seen.
class Rows {
  constructor(id, height) {
    Object.assign(this, {box: byId(id), list: element("ol"), height, count: 0, row: null});
    this.box.append(this.list);
    this.box.addEventListener("scroll", () => this.draw());
  }
  show(count, at, row) {
    Object.assign(this, {count, row});
    this.list.style.height = `${count * this.height}px`;
    const top = at * this.height, {scrollTop, clientHeight} = this.box;
    if (at >= 0 && (top < scrollTop || top + this.height > scrollTop + clientHeight)) this.box.scrollTop = top - clientHeight / 2;
    this.draw();
  }
  draw(more = 0) {
    const first = Math.max(0, Math.floor(this.box.scrollTop / this.height) - 4 - more);
    const most = Math.ceil(this.box.clientHeight / this.height) + 8 + 2 * more;
    this.list.style.paddingTop = `${first * this.height}px`;
    this.list.replaceChildren(...Array.from({length: Math.max(0, Math.min(most, this.count - first))}, (_, place) => this.row(first + place)));
  }
}

// From a long run 200 events are drawn at first; `from` and `to` say which.
const run = readRun(byId("run").textContent), end = run.events.length;
const view = {at: 0, from: 0, to: Math.min(end, 200), state: null, timer: null, near: null};
const rows = {lanes: new Rows("lanes", 44), tree: new Rows("tree", 24), calls: new Rows("calls", 24), events: new Rows("events", 24)};

function contentOf(file) {
  const shown = file.data !== null && file.size <= 60 ? legible(file.data) : "";
  return shown[0] === '"' ? shown : count(file.size, "byte");
}

function nodeRow({names, node}, isMarked) {
  const row = element("li", "  ".repeat(names.length)), name = names.length ? escaped(names[names.length - 1]) : "";
  row.append(element("span", isDirectory(node) ? `${name}/` : name, {class: isMarked ? "mark" : ""}));
  if (!isDirectory(node)) row.append(element("span", ` ${contentOf(node)}`, {class: "dim"}));
  if (node.holder) row.append(element("span", `  locked by ${node.holder.name}`, {class: "holder"}));
  return row;
}

function statusOf(call) {
  const has = event => event !== null && event <= view.at, wait = view.state.waits.get(call);
  if (has(call.end)) return `\u2192 ${inText(call.reply)}`;
  if (wait) return `waits for ${wait}`;
  if (!has(call.commit)) return "under way";
  return has(call.change) ? "has taken effect" : `helped by ${call.helper.name}; its change is still to come`;
}

function callRow(call, isMarked) {
  const place = call.commit !== null && call.commit <= view.at ? `${call.order}. ` : "   ", status = statusOf(call);
  const row = ofCall(element("li", place), call, "");
  row.append(element("span", `${call.name} ${call.shown}`, {class: isMarked ? "mark" : ""}));
  row.append(element("span", `  ${status}`, {class: /^. failed/.test(status) ? "bad" : "dim"}));
  if (call.source) row.append(element("span", `  ${call.source}`, {class: "holder"}));
  return row;
}

function eventRow({number, call, what}, at) {
  const row = element("li", `${String(number).padStart(6)}  ${call ? call.name : ""} ${what}`, {class: at === view.at ? "mark" : ""});
  row.addEventListener("click", () => show(at));
  return row;
}

// What shows a call, marked if this one met the call at which a reader looks.
function ofCall(one, call, kind) {
  one.call = call;
  one.setAttribute("class", `call ${kind} ${view.near && meets(view.near, call) ? "met" : ""}`);
  return one;
}

// Marks the calls that a call met, and says which these are; without a call none.
function look(call) {
  if (call === view.near) return;
  view.near = call;
  for (const one of document.querySelectorAll(".call")) one.classList.toggle("met", Boolean(call && meets(call, one.call)));
  byId("met").textContent = call ? metWords(run, call) : "";
}

// Of calls that are too small to be seen one by one, one in each three pixels is drawn.
function laneRow(lane, chosen) {
  const row = element("li"), drawing = element("svg", "", {role: "group", "aria-label": lane});
  const width = Math.max(200, rows.lanes.box.clientWidth - 120);
  const x = at => (at - 0.5 - view.from) / Math.max(1, view.to - view.from) * width;
  drawing.append(element("line", "", {x1: x(view.at), x2: x(view.at), y1: 0, y2: 44}));
  let last = -9;
  for (const call of run.ofLane.get(lane)) {
    const right = x(call.end === null ? end + 1 : call.end);
    if (call.begin > view.to) break;
    if (right >= 0 && right - last >= 3) drawing.append(bar(call, x, last = right, call === chosen));
  }
  row.append(element("b", lane), drawing);
  return row;
}

function bar(call, x, right, isChosen) {
  const left = x(call.begin), width = right - left, commit = call.commit === null ? right : x(call.commit);
  const isOpen = call.commit === null && call.end !== null, kind = `${isChosen ? "chosen" : ""} ${call === faulty(run) ? "wrong" : ""}`;
  const group = ofCall(element("g", "", {tabindex: 0, role: "button", "aria-label": titled(call)}), call, kind);
  const part = (from, to, kind) => group.append(element("rect", "", {x: from, y: 18, width: Math.max(1, to - from), height: 16, class: kind}));
  group.addEventListener("click", () => show(call.commit || call.begin));
  part(left, width < 4 ? right : commit, width < 4 ? "dense" : isOpen ? "open" : "walk");
  if (width < 4) return group;
  for (const {from, to} of width > 40 ? call.waits : []) part(x(from), to === null ? right : x(to), "wait");
  if (call.commit !== null) part(commit, right, "");
  if (call.helper) part(commit, call.change === null ? right : x(call.change), "helped");
  if (width < 30) return group;
  if (call.commit !== null) group.append(element("circle", "", {cx: commit, cy: 26, r: 9, class: call.helper ? "helped" : ""}));
  if (call.commit !== null) group.append(element("text", call.order, {x: commit, y: 30, class: call.helper ? "order helped" : "order"}));
  group.append(element("text", cut(call.shown, (Math.min(right, 2000) - Math.max(left, 0)) / 7), {x: Math.max(left, 0), y: 13}));
  return group;
}

// ---- What a reader does

function show(at) {
  view.at = Math.min(end, Math.max(0, at));
  view.state = stateAt(run, view.at);
  const width = view.to - view.from, number = view.at ? run.events[view.at - 1].number : 0, isFault = run.fault && run.fault.place === view.at;
  if (view.at < view.from || view.at > view.to) view.from = Math.min(end - width, Math.max(0, view.at - Math.floor(width / 2)));
  view.to = view.from + width;
  byId("at").value = view.at;
  byId("count").textContent = view.at ? `event ${number} (${view.at} of ${end})` : count(end, "event");
  byId("sentence").textContent = sentenceOf(run, view.at) + (isFault ? faultWords(run) : "");
  byId("sentence").className = isFault ? "bad" : "";
  byId("source").textContent = (view.at && run.events[view.at - 1].call || {}).source || "";
  draw();
  // A page within another one has no address to write to.
  try { history.replaceState(null, "", `#event=${number}`); } catch { return; }
}

function draw() {
  const {what, call} = view.at ? run.events[view.at - 1] : {what: "", call: null}, nodes = nodesOf(view.state.root);
  const touched = new Set(/^(begins|returns)/.test(what) ? [] : what.split(/[ ,]/).filter(word => word[0] === "/"));
  const marked = nodes.map(({names}) => touched.has(pathOf(names))), isDone = other => other.commit !== null && other.commit <= view.at;
  const open = run.unordered.filter(other => other.end <= view.at), focused = document.activeElement.call;
  const listed = [...run.ordered.filter(isDone), ...open, ...[...view.state.pending].filter(other => !isDone(other))];
  rows.tree.show(nodes.length, marked.lastIndexOf(true), place => nodeRow(nodes[place], marked[place]));
  rows.calls.show(listed.length, listed.indexOf(call), place => callRow(listed[place], listed[place] === call));
  rows.events.show(end, view.at - 1, place => eventRow(run.events[place], place + 1));
  rows.lanes.show(run.lanes.length, call ? run.lanes.indexOf(call.lane) : -1, place => laneRow(run.lanes[place], call));
  byId("axis").textContent = end ? `Events ${view.from + 1} to ${view.to} of ${end}, from left to right; the red line is now.` : "";
  // What had the focus is made anew.
  const again = focused && [...document.querySelectorAll("g.call")].find(one => one.call === focused);
  if (again) again.focus({preventScroll: true});
}

// Shows so many times as many events, around this one.
function zoom(times) {
  const width = Math.min(end, Math.max(10, Math.round((view.to - view.from) * times)));
  view.from = Math.min(end - width, Math.max(0, view.at - Math.round(width / 2)));
  view.to = view.from + width;
  draw();
}

// Goes to the next event of some kind, or to the one before; from the end to the begin.
function goTo(by, isWanted) {
  for (let step = 1; step <= end; step++) {
    const place = (((view.at - 1 + by * step) % end) + end) % end;
    if (isWanted(run.events[place])) return show(place + 1);
  }
  byId("found").textContent = "not found";
}

function find(words, by) {
  byId("found").textContent = "";
  const textOf = call => call ? `${call.name} ${call.words} ${call.shown} ${call.source || ""} ` : "";
  if (words) goTo(by, ({call, what}) => `${textOf(call)}${what}`.includes(words));
}

function play(goes) {
  clearInterval(view.timer);
  view.timer = goes ? setInterval(() => view.at < end ? show(view.at + 1) : play(false), 800) : null;
  byId("play").textContent = goes ? "Pause" : "Play";
}

// The picture that is in the place of this page where scripts are off.
function showWhole() {
  const picture = document.querySelector("noscript").textContent.trim();
  if (byId("whole").querySelector("img") || !picture) return;
  byId("whole").append(element("img", "", {alt: byId("news").textContent, src: `data:image/svg+xml,${encodeURIComponent(picture)}`}));
}

function goToHash() {
  const found = /^#event=(\d+)$/.exec(location.hash), later = found ? run.events.findIndex(event => event.number > Number(found[1])) : 0;
  show(later < 0 ? end : later);
}

const changes = ({what}) => /^(commits|makes|helps)/.test(what);
const steps = {first: () => show(0), back: () => show(view.at - 1), next: () => show(view.at + 1), last: () => show(end)};
const actions = {...steps, play: () => play(view.timer === null), wider: () => zoom(2), closer: () => zoom(0.5),
  before: () => goTo(-1, changes), after: () => goTo(1, changes), search: () => byId("find").focus()};
const keys = {ArrowLeft: "back", ArrowRight: "next", Home: "first", End: "last", PageUp: "before", PageDown: "after",
  "+": "closer", "-": "wider", " ": "play", "/": "search"};

function onKey(event) {
  const action = actions[keys[event.key]], {tagName, type} = event.target, call = callAt(event.target);
  if (call && event.key === "Enter") show(call.commit || call.begin);
  if (!action || type === "search" || event.ctrlKey || event.altKey || event.metaKey || (event.key === " " && tagName === "BUTTON")) return;
  event.preventDefault();
  action();
}

const callAt = one => one && one.closest && one.closest(".call") ? one.closest(".call").call : null;
for (const kind of ["pointerover", "focusin"]) document.addEventListener(kind, ({target}) => look(callAt(target) || callAt(document.activeElement)));
for (const button of document.querySelectorAll("button")) button.addEventListener("click", actions[button.id]);
byId("at").addEventListener("input", event => show(Number(event.target.value)));
byId("find").addEventListener("keydown", event => event.key === "Enter" && find(event.target.value, event.shiftKey ? -1 : 1));
byId("whole").addEventListener("toggle", showWhole);
addEventListener("keydown", onKey);
addEventListener("hashchange", goToHash);
addEventListener("resize", draw);
addEventListener("beforeprint", () => Object.values(rows).forEach(list => list.draw(200)));
addEventListener("afterprint", draw);
byId("news").textContent = newsOf(run);
byId("source").hidden = !run.calls.some(call => call.source);
byId("legend").textContent = run.unordered.length ? " Dashed: it has no place in the order. Red: what is wrong." : "";
byId("at").max = end;
byId("player").hidden = false;
goToHash();
</script>
</body>
</html>
"##;
