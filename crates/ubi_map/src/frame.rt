//! The frame of the page: what stands before the data, and what stands after them. It needs no other file.

/// The page before the data: what it looks like, and the places that the data fill.
pub const BEFORE: &str = r##"<!doctype html>
<html lang="en">
<head>
<meta charset="utf-8">
<meta name="viewport" content="width=device-width">
<title>UBI image</title>
<link rel="icon" href="data:,">
<style>
:root { --ground: #fbfbfa; --ink: #1d2429; --dim: #5d6870; --line: #dfe3e5; --card: #fff; --good: #1a7f4b; --bad: #b3261e; --mark: #1f5fa8 }
@media (prefers-color-scheme: dark) {
  :root { --ground: #14181b; --ink: #e6eaec; --dim: #9aa6ae; --line: #2c3439; --card: #1b2125; --good: #4cc38a; --bad: #ff8a80; --mark: #7db4f0 }
}
* { box-sizing: border-box }
body { margin: 0; font: 14px/1.45 system-ui, sans-serif; background: var(--ground); color: var(--ink) }
main { padding: 16px 20px; max-width: 1320px; margin: auto; display: grid; gap: 14px }
section { background: var(--card); border: 1px solid var(--line); border-radius: 8px; padding: 12px 16px; min-width: 0 }
h1 { font-size: 17px; margin: 0 } h2 { font-size: 14px; margin: 0 8px 0 0; display: inline } p { margin: 4px 0 0 }
.good { color: var(--good) } .bad { color: var(--bad) } .dim { color: var(--dim) }
.row { display: flex; flex-wrap: wrap; gap: 6px 12px; align-items: center; margin-bottom: 10px } .fill { flex: 1 }
.pair { display: grid; grid-template-columns: minmax(0, 1fr) 400px; gap: 14px } @media (max-width: 900px) { .pair { grid-template-columns: 1fr } }
button { font: inherit; font-size: 13px; padding: 3px 10px; border: 1px solid var(--line); border-radius: 6px; background: var(--ground); color: var(--ink); cursor: pointer }
button[aria-pressed="true"] { border-color: var(--mark); color: var(--mark); font-weight: 600 }
canvas { display: block; cursor: crosshair; outline-offset: 3px }
pre { margin: 8px 0 0; font: 12px/1.5 ui-monospace, monospace; white-space: pre-wrap; overflow-wrap: anywhere }
table { border-collapse: collapse; width: 100% } th { font-weight: 500; color: var(--dim); text-align: left; font-size: 12px }
td, th { padding: 4px 10px 4px 0; border-bottom: 1px solid var(--line); overflow-wrap: anywhere } td.number { font-variant-numeric: tabular-nums }
.legend span { display: inline-flex; gap: 6px; align-items: center } .legend i { width: 16px; height: 16px; border-radius: 3px; font: 11px/16px ui-monospace, monospace; text-align: center }
</style>
</head>
<body>
<main>
<section><h1 id="verdict"></h1><p class="dim" id="sizes"></p></section>
<div class="pair">
<section>
<div class="row"><h2>Eraseblocks</h2><span class="dim" id="count"></span><span class="fill"></span><span class="row" id="modes" style="margin: 0"></span></div>
<canvas id="grid" tabindex="0" role="img" aria-label="The eraseblocks, in rows"></canvas>
<div class="row legend" id="legend" style="margin: 10px 0 0"></div>
</section>
<section><h2 id="which">Headers</h2><pre id="headers">Click an eraseblock, or move with the arrow keys.</pre></section>
</div>
<section id="volumes"></section>
<section id="counts"></section>
</main>
<script type="application/json" id="data">"##;

/// The page after the data: how they are shown.
pub const AFTER: &str = r##"</script>
<script>
"use strict";
const $ = (id) => document.getElementById(id);
const text = $("data").textContent;
const data = JSON.parse(text);
const LAYOUT = 0x7fffefff;
const STATES = {
  t: ["table", "#7b4fbf", "#fff"], u: ["used", "#2f7dd1", "#fff"], v: ["volume", "#2f7dd1", "#fff"], s: ["stale", "#e0a13b", "#000"],
  o: ["orphan", "#d9573f", "#fff"], d: ["dropped", "#a8763e", "#fff"], f: ["free", "#bfe3c8", "#000"], b: ["blank", "#e4e7e9", "#000"],
  c: ["corrupt", "#1c1c1c", "#fff"], g: ["garbage", "#8c2f5b", "#fff"], "!": ["at fault", "#ff2d1a", "#000"],
};
const VOLUMES = ["#2f7dd1", "#2e9e6b", "#d98324", "#b0479a", "#4aa6b5", "#8a7a2c", "#d15b6b", "#5f6fd6", "#74a33a", "#a8763e"];
const NOTHING = ["#e4e7e9", "#000"];

// A header: its state, and its bytes as digits.
const header = (line) => { const [, state, digits] = line.split(" "); return { state, digits }; };
const number = (h, from, to) => BigInt("0x" + h.digits.slice(2 * from, 2 * to));
const blocks = data.blocks.map((text) => {
  const [first, second] = text.split("\n");
  const ec = header(first), vid = header(second);
  const counter = ec.state === "valid" ? Number(number(ec, 8, 16)) : null;
  const volume = vid.state === "valid" ? Number(number(vid, 8, 12)) : null;
  return { ec, vid, counter, volume, lnum: volume === null ? null : Number(number(vid, 12, 16)) };
});
const letters = [...data.states];
const refused = data.refusal && data.refusal.refused;
const marked = refused ? ["block", "earlier"].filter((key) => key in refused).map((key) => refused[key]) : [];
const most = blocks.reduce((most, b) => Math.max(most, b.counter ?? 0), 1);
const least = blocks.reduce((least, b) => Math.min(least, b.counter ?? Infinity), Infinity);

const volumeName = (volume) => volume === null ? "no volume" : volume === LAYOUT ? "volume table" : "volume " + volume;
const MODES = {
  state: (p) => { const [name, colour, ink] = STATES[letters[p]]; return { name, colour, ink, letter: letters[p] }; },
  volume: (p) => {
    const { volume } = blocks[p];
    const [colour, ink] = volume === null ? NOTHING : volume === LAYOUT ? ["#7b4fbf", "#fff"] : [VOLUMES[volume % VOLUMES.length], "#fff"];
    return { name: volumeName(volume), colour, ink, letter: volume === null ? "" : volume === LAYOUT ? "t" : String(volume) };
  },
  wear: (p) => {
    const { counter } = blocks[p];
    if (counter === null) return { name: "no counter", colour: NOTHING[0], ink: NOTHING[1], letter: "" };
    const part = counter / most, step = Math.min(9, Math.floor(10 * part));
    return { name: `${Math.ceil(step * most / 10)} and more`, colour: `hsl(${210 - 200 * part} 70% ${74 - 32 * part}%)`, ink: part < 0.5 ? "#000" : "#fff", letter: String(step), step };
  },
};
let mode = "state", cell = 8, columns = 1, chosen = null;

function drawBlock(pen, p) {
  const gap = cell > 4 ? 1 : 0, x = (p % columns) * cell, y = Math.floor(p / columns) * cell;
  const { colour, ink, letter } = MODES[mode](p);
  pen.fillStyle = colour;
  pen.fillRect(x, y, cell - gap, cell - gap);
  if (cell >= 12 && letter) { pen.fillStyle = ink; pen.fillText(letter, x + (cell - gap) / 2, y + (cell - gap) / 2 + 1, cell - gap); }
}
function frame(pen, p, colour, width, beyond) {
  const side = Math.max(cell, 5) + 2 * beyond - width;
  pen.strokeStyle = colour;
  pen.lineWidth = width;
  pen.strokeRect((p % columns) * cell - beyond + width / 2, Math.floor(p / columns) * cell - beyond + width / 2, side, side);
}
function draw() {
  const grid = $("grid"), width = Math.max(300, grid.parentElement.clientWidth - 32), count = blocks.length;
  cell = count > 40000 ? 3 : count > 9000 ? 5 : count > 2500 ? 8 : count > 400 ? 14 : 24;
  columns = Math.max(1, Math.floor(width / cell));
  if (columns >= 64) columns -= columns % 32;
  const rows = Math.max(1, Math.ceil(count / columns)), scale = count > 40000 ? 1 : window.devicePixelRatio || 1;
  grid.width = columns * cell * scale;
  grid.height = rows * cell * scale;
  grid.style.width = columns * cell + "px";
  grid.style.height = rows * cell + "px";
  const pen = grid.getContext("2d");
  pen.scale(scale, scale);
  pen.font = `${Math.floor(cell * 0.6)}px ui-monospace, monospace`;
  pen.textAlign = "center";
  pen.textBaseline = "middle";
  for (let p = 0; p < count; p++) drawBlock(pen, p);
  if (chosen !== null) { frame(pen, chosen, "#fff", 3, 1); frame(pen, chosen, "#000", 1, 0); }
  for (const p of marked) if (p < count) { frame(pen, p, "#fff", 5, 4); frame(pen, p, "#c00", 3, 3); }
}
function legend() {
  const kinds = new Map();
  for (let p = 0; p < blocks.length; p++) {
    const kind = MODES[mode](p), known = kinds.get(kind.name);
    if (known) known.count += 1; else kinds.set(kind.name, { ...kind, count: 1 });
  }
  const list = [...kinds.values()].sort((a, b) => mode === "wear" ? (a.step ?? -1) - (b.step ?? -1) : b.count - a.count);
  $("legend").replaceChildren(...list.slice(0, 40).map((kind) => {
    const item = document.createElement("span"), square = document.createElement("i"), count = document.createElement("span");
    square.style.background = kind.colour;
    square.style.color = kind.ink;
    square.textContent = kind.letter;
    count.className = "dim";
    count.textContent = kind.count;
    item.append(square, kind.name, count);
    return item;
  }));
}
function modes() {
  $("modes").replaceChildren(...Object.keys(MODES).map((name) => {
    const button = document.createElement("button");
    button.textContent = name;
    button.setAttribute("aria-pressed", name === mode);
    button.onclick = () => { mode = name; modes(); draw(); legend(); };
    return button;
  }));
}

function told(p) {
  const { ec, vid, counter, volume, lnum } = blocks[p], lines = [];
  if (!refused) lines.push("state      " + STATES[letters[p]][0]);
  if (refused && refused.block === p) lines.push("the image is refused because of this eraseblock");
  if (refused && refused.earlier === p) lines.push("the image is refused because of this eraseblock and " + refused.block);
  lines.push("", "erase counter header: " + ec.state);
  if (counter !== null) lines.push("counter    " + counter, "vid offset " + number(ec, 16, 20), "data at    " + number(ec, 20, 24), "image seq  " + number(ec, 24, 28));
  if (ec.state !== "blank") lines.push(ec.digits);
  lines.push("", "volume identifier header: " + vid.state);
  if (volume !== null) {
    lines.push(volume === LAYOUT ? "volume     the volume table" : "volume     " + volume, "LEB        " + lnum, "kind       " + (number(vid, 5, 6) === 2n ? "static" : "dynamic"),
      "sequence   " + number(vid, 40, 48));
    if (number(vid, 6, 7) === 1n || number(vid, 5, 6) === 2n) lines.push("data       " + number(vid, 20, 24) + " bytes, CRC 0x" + vid.digits.slice(64, 72));
    if (number(vid, 6, 7) === 1n) lines.push("a copy");
    if (number(vid, 5, 6) === 2n) lines.push("used LEBs  " + number(vid, 24, 28));
  }
  if (vid.state !== "blank") lines.push(vid.digits);
  return lines.join("\n").trim();
}
function choose(p) {
  if (p < 0 || p >= blocks.length) return;
  chosen = p;
  $("which").textContent = "Eraseblock " + p;
  $("headers").textContent = told(p);
  draw();
}
$("grid").onclick = (event) => {
  const place = $("grid").getBoundingClientRect();
  const x = Math.floor((event.clientX - place.left) / cell), y = Math.floor((event.clientY - place.top) / cell);
  if (x < columns) choose(y * columns + x);
};
$("grid").onkeydown = (event) => {
  const step = { ArrowLeft: -1, ArrowRight: 1, ArrowUp: -columns, ArrowDown: columns }[event.key];
  if (step) { event.preventDefault(); choose((chosen ?? 0) + (chosen === null ? 0 : step)); }
};

const cells = (kind, texts) => {
  const line = document.createElement("tr");
  for (const text of texts) { const one = document.createElement(kind); one.textContent = text; if (typeof text === "number") one.className = "number"; line.append(one); }
  return line;
};
function table(place, title, head, lines) {
  const h = document.createElement("h2"), t = document.createElement("table");
  h.textContent = title;
  t.append(cells("th", head), ...lines.map((line) => cells("td", line)));
  place.replaceChildren(h, t);
}
const sizes = data.geometry || data.list.geometry;
$("sizes").textContent = `eraseblocks of ${sizes.peb} bytes, pages of ${sizes.page}, headers at 0 and ${sizes.vid}, data from ${sizes.data} on`;
$("count").textContent = String(blocks.length);
if (refused) {
  const words = Object.entries(refused).filter(([key]) => key !== "code" && key !== "cause").map(([key, value]) => `${key} ${value}`);
  $("verdict").textContent = `Refused: ${refused.code} ${refused.cause}` + (words.length ? ", " + words.join(", ") : "");
  $("verdict").className = "bad";
  $("volumes").remove();
  $("counts").remove();
} else {
  $("verdict").textContent = "Accepted";
  $("verdict").className = "good";
  const reads = (v) => "bytes" in v ? `${v.bytes} bytes` : "lebs" in v ? `${v.lebs} LEBs that aren't blank` : v.state;
  table($("volumes"), "Volumes", ["id", "name", "kind", "reserved LEBs", "bytes of each", "reads", "alignment", "flags"],
    data.list.volumes.map((v) => [v.id, v.name, v.kind, v.reserved, v.usable, reads(v), v.alignment, v.flags]));
  const check = data.check;
  table($("counts"), "Counts", [...Object.keys(check.states), "mean counter", "top sequence number", "image sequence number"],
    [[...Object.values(check.states), check.mean_counter, /"top_sqnum":(\d+)/.exec(text)[1], check.image_seq]]);
}
modes();
draw();
legend();
if (marked.length && marked[0] < blocks.length) choose(marked[0]);
addEventListener("resize", draw);
document.documentElement.dataset.drawn = "yes";
</script>
</body>
</html>
"##;
