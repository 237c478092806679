//! The script of every page, as page.js has it: `tests/checks/page --write` makes this file of that.

/// The element of the script begins here, and goes on in `SHOW`; `FOOT` ends it.
pub(crate) const SCRIPT: &str = "\
<script>
\"use strict\";
// Walks a record. It computes nothing of the machine: for each step the page holds what that step changed, old and new, and
// here it is put in place, forwards or back. `tests/checks/page --write` puts this text into src/script.rt, and show.js, which
// goes on behind it, into src/show.rt.

const find = (name) => document.getElementById(\"page-\" + name);
// a part of the data, as lines; a byte that could be markup is written there as \\x3c
const lines = (name) => find(name) ? find(name).textContent.split(\"\\n\").slice(0, -1) : [];
const unescaped = (text) => text.replace(/\\\\x(..)/g, (all, two) => String.fromCharCode(parseInt(two, 16)));
const bytes = (digits) => (digits.match(/[0-9a-f]{2}/g) || []).map((two) => parseInt(two, 16));
const hex = (number, width) => number.toString(16).padStart(width, \"0\");
const NAMES = (\"zero ra sp gp tp t0 t1 t2 s0 s1 a0 a1 a2 a3 a4 a5 a6 a7 \" +
  \"s2 s3 s4 s5 s6 s7 s8 s9 s10 s11 t3 t4 t5 t6\").split(\" \");

// ---- the data

const first = +lines(\"first\")[0];
// the steps, a line each, as bytes: a long run has tens of millions of them. The browser keeps a long text in pieces, and here
// they are taken one by one, so that it never stands in one text as well
function takeSteps() {
  const pieces = [...find(\"steps\").childNodes].map((node) => node.data);
  find(\"steps\").textContent = \"\";
  const all = new Uint8Array(pieces.reduce((sum, piece) => sum + piece.length, 0)), encoder = new TextEncoder();
  let at = 0;
  for (const piece of pieces) at += encoder.encodeInto(piece, all.subarray(at)).written;
  return all;
}
const written = takeSteps();
const END_OF_LINE = 10, BLANK = 32, BYTE = 109, PUT_OUT = 111, REGISTER = 120; // a newline, a blank, m, o and x
const SHORTEST = 8; // bytes that a line has at least, as 0 0 0 4
function lineStarts() {
  const all = new Uint32Array(written.length / SHORTEST + 1);
  const length = written.length;
  let count = 0;
  for (let at = 0; at < length; at++) if (written[at] === END_OF_LINE) all[++count] = at + 1;
  return all.slice(0, count + 1);
}
const starts = lineStarts(); // where the line of each step begins
const count = starts.length - 1;
const last = first + count;
const ranks = [];
for (const line of lines(\"start\")) {
  const words = line.slice(2).split(\" \");
  const rank = ranks[ranks.length - 1];
  if (line[0] === \"r\") ranks.push({ harts: [], memory: new Uint8Array(+words[0]), output: [], put: 0 });
  if (line[0] === \"h\") rank.harts.push({ stand: words[0], registers: words.slice(1), step: -1 });
  if (line[0] === \"m\") rank.memory.set(bytes(words[1]), parseInt(words[0], 16));
  if (line[0] === \"o\") rank.output = bytes(words[0]);
}
const symbols = lines(\"names\").map((line) => line.split(\" \"))
  .map(([address, name]) => ({ address: parseInt(address, 16), name: unescaped(name) }))
  // farm.c.46 and farm.c.46.2 are of a line
  .map((one) => ({ ...one, line: /^(.*\\.[A-Za-z]{1,3})\\.([1-9][0-9]*)(\\.[1-9][0-9]*)?$/.exec(one.name) }))
  .sort((one, other) => one.address - other.address);
const lineNames = symbols.filter((one) => one.line);
const labels = symbols.filter((one) => !one.line);
// a line of the program, by its place among all: its address, or -1 at a name
const program = lines(\"program\").map(unescaped)
  .map((text) => ({ text, address: /^[0-9a-f]{8}: /.test(text) ? parseInt(text, 16) : -1 }));
const rows = new Map(program.map((line, row) => [line.address, row]));
const textEnd = 4 + program.reduce((most, line) => Math.max(most, line.address), 0);
const ways = lines(\"ways\").map((line) => line.split(\" \"))
  .map(([kind, sent, got, from, to, ...what]) => ({ kind, sent: +sent, got: got === \"-\" ? undefined : +got, from, to, what }));
const waits = lines(\"waits\").map((line) => line.split(\" \"));
const told = lines(\"told\").map(unescaped);
const marks = [...document.querySelectorAll(\"g[id^=step]\")].map((g) => +g.id.slice(4)).sort((one, other) => one - other);
const markOf = (step) => document.getElementById(\"step\" + step);
const titleOf = (step) => markOf(step) ? markOf(step).querySelector(\"title\").textContent : \"\";

// ---- places in the program

// the nearest at an address or before it, and of several at one address the first
function nearest(some, address) {
  let low = 0, high = some.length; // all before low are at the address or before it
  while (low < high) {
    const middle = (low + high) >> 1;
    if (some[middle].address <= address) low = middle + 1;
    else high = middle;
  }
  while (low > 1 && some[low - 2].address === some[low - 1].address) low -= 1;
  return some[low - 1];
}

// the source's line at an address, as [name, number], where one is known
function lineAt(address) {
  const line = nearest(lineNames, address);
  const label = nearest(labels, address);
  return line && address < textEnd && !(label && label.address > line.address) ? [line.line[1], +line.line[2]] : undefined;
}

// a place, as farm.c:46 in worker [0x344], or worker+0x24 [0x344] where no line is known
function named(address) {
  const at = \"0x\" + hex(address, 1);
  const line = lineAt(address);
  const label = nearest(labels, address);
  if (line) return line.join(\":\") + (label ? \" in \" + label.name : \"\") + \" [\" + at + \"]\";
  return label ? label.name + \"+0x\" + hex(address - label.address, 1) + \" [\" + at + \"]\" : at;
}

// ---- the line of a step

let cursor = 0; // the place up to which it was read
const DIGITS = Int8Array.from({ length: 256 }, (_, byte) => \"0123456789abcdef\".indexOf(String.fromCharCode(byte)));
const digit = (byte) => DIGITS[byte];

// the digits that come next, as a number
function digits(base) {
  let value = 0, at = cursor;
  for (let next; (next = DIGITS[written[at]]) >= 0; at++) value = base * value + next;
  cursor = at;
  return value;
}

// the byte of memory that stands at a place
function byteAt(place) {
  const low = digit(written[place + 1]);
  return low < 0 ? digit(written[place]) : 16 * digit(written[place]) + low;
}
// what stands there up to the first sign that isn't of it; a text from the start of the page stands for itself
function standing(place, isOf) {
  if (typeof place === \"string\") return place;
  let end = place;
  while (isOf(written[end])) end += 1;
  return String.fromCharCode(...written.subarray(place, end));
}
const standAt = (place) => standing(place, (byte) => byte > BLANK);
const valueAt = (place) => standing(place, (byte) => digit(byte) >= 0);

// of the step that was read last: its rank and hart, where the words stand that tell how the hart stood and stands, and
// the pc that it had and has
const read = { rank: 0, hart: 0, old: 0, now: 0, pc: 0, next: 0 };
function readStep(n) {
  // a cluster has eight ranks of four harts at most: a digit each
  const begin = starts[n];
  read.rank = digit(written[begin]);
  read.hart = digit(written[begin + 2]);
  read.old = cursor = begin + 4;
  read.pc = digits(16);
  while (written[cursor] !== BLANK) cursor += 1;
  read.now = ++cursor;
  read.next = digits(16);
  while (written[cursor] > BLANK) cursor += 1;
}

// and what else it changed: each register or byte, as x or m, with its number or address, and where its old and its new
// value stand; and what it put out, as o, with where that begins and ends
function eachEdit(tell) {
  while (written[cursor] === BLANK) {
    const kind = written[cursor + 1];
    cursor += 2;
    const place = kind === PUT_OUT ? 0 : digits(kind === REGISTER ? 10 : 16);
    const old = kind === PUT_OUT ? cursor : cursor + 1;
    let at = old;
    while (DIGITS[written[at]] >= 0) at += 1;
    const now = kind === PUT_OUT ? at : ++at;
    while (DIGITS[written[at]] >= 0) at += 1;
    cursor = at;
    tell(kind, place, old, now);
  }
}

// ---- what is known of all steps: whose each is, the last one of its hart, the point of the program that it is of, whether it
// begins a line, and the calls that its hart is within behind it

const owners = new Uint8Array(count);
const ownHarts = new Uint8Array(count);
const before = new Int32Array(count);
const points = []; // each address that is met, its line, as farm.c:46, and whether it calls or returns
const known = new Map(); // and its number among them
const pointOf = new Uint32Array(count);
const begins = new Uint8Array(count);
const calls = []; // each call: where it returns to, and the number of the one around it, or -1
const within = new Int32Array(count);
const own = new Set(); // names that the program's own lines wrote, or any instruction where no line is known

// the steps are in blocks: of each is kept how all harts are at its beginning, how much is written there, and each byte of
// the memory that it changes, as it is before and behind it. So a place far away is reached block by block
const BLOCK = 4096;
const blocks = [];
const blockOf = (place) => Math.floor((place - first) / BLOCK);

// the name of the data at an address, with the size up to the next name
const datas = labels.filter((one, n) => one.address >= textEnd && one.address < ranks[0].memory.length &&
  !(n && labels[n - 1].address === one.address));
datas.forEach((one, n) => one.size = (n + 1 < datas.length ? datas[n + 1].address : ranks[0].memory.length) - one.address);

// a call, a return, or neither
const kindOfPoint = (pc) => rows.has(pc) && /^\\S+ \\S+ +jalr? x1,/.test(program[rows.get(pc)].text) ? \"call\"
  : rows.has(pc) && /^\\S+ \\S+ +jalr x0, 0\\(x1\\)/.test(program[rows.get(pc)].text) ? \"return\" : \"\";

function pointAt(pc) {
  let number = known.get(pc);
  if (number === undefined) {
    number = points.push({ pc, line: (lineAt(pc) || []).join(\":\"), kind: kindOfPoint(pc) }) - 1;
    known.set(pc, number);
  }
  return number;
}

// the call that a hart is within behind a step that took it from a point to an address
function callBehind(call, point, to) {
  if (point.kind === \"call\" && to !== point.pc) return calls.push({ back: point.pc + 4, up: call }) - 1;
  if (point.kind !== \"return\") return call;
  for (let one = call; one >= 0; one = calls[one].up) if (calls[one].back === to) return calls[one].up;
  return call;
}

// bytes that are added one by one
class Bytes {
  constructor(some) { this.all = Uint8Array.from(some); this.count = some.length; }
  push(byte) {
    if (this.count === this.all.length) {
      const larger = new Uint8Array(2 * this.count + 64);
      larger.set(this.all);
      this.all = larger;
    }
    this.all[this.count++] = byte;
  }
}

// goes through all steps once, from the first place to the last
function lookThrough() {
  const lately = ranks.map((rank) => rank.harts.map(() => \"\"));
  const stamps = ranks.map((rank) => new Uint16Array(rank.memory.length)); // the block that changed a byte last, from 1
  const touched = new Uint8Array(ranks[0].memory.length); // by the program's own lines
  const outputs = ranks.map((rank) => new Bytes(rank.output));
  let places = [], olds = [], isOwn = false;
  const change = (kind, place, old, now) => {
    const rank = ranks[read.rank];
    if (kind === REGISTER) rank.harts[read.hart].registers[place] = now;
    else if (kind === PUT_OUT) for (let at = old; at < now; at += 2) outputs[read.rank].push(byteAt(at));
    else {
      if (stamps[read.rank][place] !== blocks.length) {
        stamps[read.rank][place] = blocks.length;
        places.push(read.rank * 1048576 + place);
        olds.push(byteAt(old));
      }
      rank.memory[place] = byteAt(now);
      if (isOwn) touched[place] = 1;
    }
  };
  const close = () => {
    if (blocks.length === 0) return;
    const news = places.map((at) => ranks[at >>> 20].memory[at & 1048575]);
    Object.assign(blocks[blocks.length - 1], { places: Uint32Array.from(places), olds: Uint8Array.from(olds), news: Uint8Array.from(news) });
    places = [];
    olds = [];
  };
  for (let n = 0; n <= count; n++) {
    if (n % BLOCK === 0) {
      close();
      blocks.push({ ranks: ranks.map((rank, r) => ({
        put: outputs[r].count, harts: rank.harts.map((hart) => ({ ...hart, registers: hart.registers.slice() })),
      })) });
    }
    if (n === count) break;
    readStep(n);
    const hart = ranks[read.rank].harts[read.hart];
    const number = pointAt(read.pc);
    const { line } = points[number];
    owners[n] = read.rank;
    ownHarts[n] = read.hart;
    pointOf[n] = number;
    before[n] = hart.step;
    within[n] = callBehind(hart.step < 0 ? -1 : within[hart.step], points[number], read.next);
    begins[n] = line && line !== lately[read.rank][read.hart] ? 1 : 0;
    if (line) lately[read.rank][read.hart] = line;
    isOwn = line !== \"\" || lineNames.length === 0;
    eachEdit(change);
    hart.stand = read.now;
    hart.step = n;
  }
  close();
  ranks.forEach((rank, r) => Object.assign(rank, { output: outputs[r].all, put: outputs[r].count }));
  for (const one of datas) {
    if (!/^(_|rvmc_)/.test(one.name) && touched.subarray(one.address, one.address + one.size).includes(1)) own.add(one.name);
  }
}
lookThrough();

// ---- the machine, and how a step is put in place

let place = last; // so many steps are done
let shown = { rank: 0, hart: 0 };

// puts a step in place: its new values, or its old ones
function put(n, isNew) {
  readStep(n);
  const rank = ranks[read.rank];
  const hart = rank.harts[read.hart];
  hart.stand = isNew ? read.now : read.old;
  hart.step = isNew ? n : before[n];
  eachEdit((kind, at, old, now) => {
    if (kind === REGISTER) hart.registers[at] = isNew ? now : old;
    else if (kind === BYTE) rank.memory[at] = byteAt(isNew ? now : old);
    else rank.put += (isNew ? now - old : old - now) / 2;
  });
}

// tells each change of the memories on the way from this place to another: the rank, the address, and the byte
function memoryTo(to, tell) {
  let n = place - first;
  const steps = (end) => {
    const isNew = n < end;
    while (n !== end) {
      readStep(isNew ? n++ : --n);
      eachEdit((kind, at, old, now) => kind === BYTE && tell(read.rank, at, byteAt(isNew ? now : old)));
    }
  };
  const whole = ({ places, olds, news }, isNew) => {
    for (let k = 0; k < places.length; k++) tell(places[k] >>> 20, places[k] & 1048575, (isNew ? news : olds)[k]);
  };
  const from = blockOf(place), there = blockOf(to);
  if (from < there) steps((from + 1) * BLOCK);
  if (from > there) steps(from * BLOCK);
  for (let k = from + 1; k < there; k++) whole(blocks[k], true);
  for (let k = from - 1; k >= there; k--) whole(blocks[k], false);
  if (from !== there) n = there * BLOCK;
  steps(to - first);
}

// to the beginning of a block
function toBlock(number) {
  memoryTo(first + number * BLOCK, (rank, address, byte) => ranks[rank].memory[address] = byte);
  blocks[number].ranks.forEach(({ put, harts }, r) => {
    ranks[r].put = put;
    ranks[r].harts = harts.map((hart) => ({ ...hart, registers: hart.registers.slice() }));
  });
  place = first + number * BLOCK;
}

function go(to) {
  to = Math.max(first, Math.min(last, Math.trunc(to) || 0));
  if (blockOf(to) !== blockOf(place)) toBlock(blockOf(to));
  while (place < to) put(place++ - first, true);
  while (place > to) put(--place - first, false);
  show();
}

// what is said of the last key or button
const say = (text) => find(\"said\").textContent = text;

// a step on or back
function move(to) {
  if (to < first) return say(\"this is the first place: there is no step before it\");
  if (to > last) return say(\"this is the last place: there is no step behind it\");
  say(\"\");
  go(to);
}

const harted = (step) => [owners[step - first], ownHarts[step - first]];

// to a place, with the hart of a step in view
function stand(step, to, text) {
  const [rank, hart] = harted(step);
  shown = { rank, hart };
  say(text || \"\");
  go(to);
}

// behind a step, with its hart in view; or says what isn't there
function visit(step, missing) {
  if (step === undefined) return say(missing);
  if (step < first || step >= last) return say(\"step \" + step + \" isn't of this page\");
  stand(step, step + 1);
}
const later = (list, at) => list.find((one) => one > at);
const earlier = (list, at) => list.findLast((one) => one < at);
const nextMark = () => visit(later(marks, place - 1), \"there is no mark behind this place\");
const lastMark = () => visit(earlier(marks, place - 1), \"there is no mark before this place\");

// ---- by lines

// the places before the steps of which this holds
function placesOf(holds) {
  const all = [];
  for (let n = 0; n < count; n++) if (holds(n)) all.push(first + n);
  return all;
}
// of places, those that are wanted: of the rank in view, or of all
const wanted = (places) => find(\"only\").checked ? places.filter((at) => owners[at - first] === shown.rank) : places;

const stops = new Set(); // lines, as farm.c:46
const pcBefore = (at) => points[pointOf[at - first]].pc;
const lineBefore = (at) => points[pointOf[at - first]].line;
const isBegin = (n) => begins[n] === 1;
const isStop = (n) => isBegin(n) && stops.has(lineBefore(first + n));

// to the next place before a step of which this holds, or to the last such place before this
function seek(holds, forwards, missing) {
  const on = forwards ? 1 : -1, only = find(\"only\").checked;
  let n = place - first + on;
  while (n >= 0 && n < count && !(holds(n) && (!only || owners[n] === shown.rank))) n += on;
  if (n < 0 || n >= count) return say(missing);
  stand(first + n, first + n);
}
const which = () => find(\"only\").checked ? \" of rank \" + shown.rank : \"\";
const nextLine = () => seek(isBegin, true, \"no line\" + which() + \" begins behind this place\");
const lastLine = () => seek(isBegin, false, \"no line\" + which() + \" begins before this place\");
const noStop = (where) => stops.size === 0 ? \"there is no breakpoint: click on a line of the source\"
  : \"no breakpoint\" + which() + \" is met \" + where + \" this place\";
const nextStop = () => seek(isStop, true, noStop(\"behind\"));
const lastStop = () => seek(isStop, false, noStop(\"before\"));

// ---- the search

// the steps at which a line, a function or an address is met, or those of marks that have this text, and 1 where a place
// behind the step shows it
function hits(text) {
  const line = /^(?:(.+):)?([1-9][0-9]*)$/.exec(text);
  const met = points.map((one) => one.line === text || one.line.endsWith(\":\" + text));
  if (line && lineNames.length) return [placesOf((n) => begins[n] && met[pointOf[n]]), 0];
  const label = labels.find((one) => one.name === text && one.address < textEnd);
  const address = label ? label.address : /^0x[0-9a-f]+$/i.test(text) ? Number(text) : -1;
  if (address >= 0) return [placesOf((n) => pointOf[n] === known.get(address)), 0];
  const tag = /^tag[ =]?(\\d+)$/.exec(text);
  const small = text.toLowerCase();
  const has = tag ? (told) => new RegExp(\"\\\\btag[ =]\" + tag[1] + \"\\\\b\").test(told) : (told) => told.toLowerCase().includes(small);
  return [marks.filter((mark) => has(markOf(mark).textContent)), 1];
}

function search(forwards) {
  const text = find(\"search\").value.trim();
  if (text === \"\") return say(\"type a line, as 24, a function, a tag, as tag 1, or a word of a mark\");
  const [found, behind] = hits(text);
  const places = wanted(found).map((step) => step + behind);
  const at = (forwards ? later : earlier)(places, place);
  const of = places.length + \" of \" + text + which();
  if (places.length === 0) return say(text + which() + \" isn't found\");
  if (at === undefined) return say(\"none of the \" + of + (forwards ? \" is behind this place\" : \" is before this place\"));
  stand(at - behind, at, \"number \" + (places.indexOf(at) + 1) + \" of \" + of);
}

// ---- messages

// the other end of a message: where its receive is shown its send, or else its receive
function crossed(way) {
  if (way.got === undefined) return place === way.sent + 1 ? say(\"nobody got it\") : visit(way.sent);
  visit(place === way.got + 1 ? way.sent : way.got);
}
const lastWay = () => ways.find((way) => way.sent === place - 1 || way.got === place - 1);
const otherEnd = () => lastWay() ? crossed(lastWay()) : say(\"the step that was done last neither sent nor got a message\");

// bytes of a rank's memory as they are at another place
function bytesAt(rank, from, size, at) {
  const all = ranks[rank].memory.slice(from, from + size);
  memoryTo(at, (whose, address, byte) => {
    if (whose === rank && address >= from && address < from + size) all[address - from] = byte;
  });
  return all;
}

// the bytes of a message, as its receive tells them, or else as its send's buffer held them
function carried(way) {
  if (way.value) return way.value;
  const [tag, count] = way.what;
  const telling = \"message from rank \" + way.from + \" tag \" + tag + \", \" + count + \" bytes: ((?:[0-9a-f]{2} ?)+)\";
  const got = new RegExp(telling).exec(titleOf(way.got));
  const buffer = /\\bbuf=(0x[0-9a-f]+) count=(\\d+)/.exec(titleOf(way.sent));
  way.value = new Uint8Array(got ? bytes(got[1]) : []);
  if (way.kind === \"m\" && buffer && way.sent >= first && way.value.length < count)
    way.value = bytesAt(+way.from, Number(buffer[1]), +buffer[2], way.sent);
  return way.value;
}

// ---- values

const MOST = 32; // so many items of one value are shown
const printed = (text) => text.replace(/[^ -~]/g, \".\");
const printedLines = (text) => text.replace(/[^ -~\\n]/g, \".\");
const integer = (sign) => (view, at, size) => size === 8 ? view[\"getBig\" + sign + \"64\"](at, true)
  : view[\"get\" + sign + 8 * size](at, true);
// how many bytes an item has at most, and how it is read
const READ = {
  int: [4, integer(\"Int\")], unsigned: [4, integer(\"Uint\")], long: [8, integer(\"Int\")],
  double: [8, (view, at, size) => size === 8 ? view.getFloat64(at, true) : size === 4 ? view.getFloat32(at, true) : \"-\"],
  bytes: [1, (view, at) => hex(view.getUint8(at), 2)],
};
// bytes, low byte first, as values of a kind; what is left over isn't shown
function valued(all, kind) {
  if (kind === \"text\") return \"\\\"\" + printed(String.fromCharCode(...all.subarray(0, 8 * MOST)).split(\"\\0\")[0]) + \"\\\"\";
  const [most, read] = READ[kind];
  const size = [8, 4, 2, 1].find((one) => one <= most && one <= all.length) || 1;
  const view = new DataView(all.buffer, all.byteOffset, all.length);
  const items = [];
  for (let at = 0; at + size <= all.length && items.length < MOST; at += size) items.push(read(view, at, size));
  return items.join(kind === \"bytes\" ? \" \" : \", \") + (all.length >= size * (MOST + 1) ? \" ..\" : \"\");
}

// what is remembered for the page, where the browser remembers anything
const kept = (() => {
  try {
    return localStorage || {};
  } catch (_) {
    return {};
  }
})();
const kindOf = (name) => kept[\"rvmc as \" + name] in READ || kept[\"rvmc as \" + name] === \"text\" ? kept[\"rvmc as \" + name] : \"int\";

// a choice of the kind that values of this name are shown as
function choice(name) {
  const select = document.createElement(\"select\");
  select.title = \"how \" + name + \" is read\";
  for (const kind of [...Object.keys(READ).slice(0, 4), \"text\", \"bytes\"]) select.append(new Option(kind));
  select.value = kindOf(name);
  select.onchange = () => { kept[\"rvmc as \" + name] = select.value; show(); };
  return select;
}

// whether a step changes bytes of the rank in view, and whether a block does
function touches(n, { address, size }) {
  let does = false;
  readStep(n);
  if (read.rank === shown.rank) eachEdit((kind, at) => does = does || kind === BYTE && at >= address && at < address + size);
  return does;
}
const blockTouches = (number, { address, size }) => blocks[number].places.some((one) =>
  one >>> 20 === shown.rank && (one & 1048575) >= address && (one & 1048575) < address + size);

// to the next step that changes bytes of the rank in view, or to the last one before this
function change(data, forwards) {
  const on = forwards ? 1 : -1;
  let n = (forwards ? place : place - 2) - first, looked = -1;
  while (n >= 0 && n < count) {
    const number = Math.floor(n / BLOCK);
    if (looked !== number && !blockTouches(number, data)) {
      n = forwards ? (number + 1) * BLOCK : number * BLOCK - 1;
      continue;
    }
    looked = number;
    if (owners[n] === shown.rank && touches(n, data)) break;
    n += on;
  }
  visit(n >= 0 && n < count ? first + n : undefined,
    \"rank \" + shown.rank + \" doesn't change \" + data.name + (forwards ? \" behind\" : \" before\") + \" this place\");
}

let watched; // the row that was used last: the keys [ and ] are for it
const watches = [];

// a row of the values: made once, and filled anew at each place
function valueRow(data) {
  const name = made(\"button\", data.name, \"link\"), value = made(\"span\", \"\");
  const use = (deed) => () => { watched = row; deed(); };
  const button = (text, title, deed) => {
    const one = made(\"button\", text);
    one.title = title;
    one.onclick = use(deed);
    return one;
  };
  const row = { data, value, line: made(\"div\", \"\") };
  name.title = \"0x\" + hex(data.address, 1) + \", \" + data.size + \" bytes: shows them below\";
  name.onclick = use(() => { find(\"address\").value = \"0x\" + hex(data.address, 1); show(); });
  row.line.append(name, value, choice(data.name), button(\"<\", \"to its previous change ([)\", () => change(data, false)),
    button(\">\", \"to its next change (])\", () => change(data, true)));
  row.name = name;
  return row;
}
const mine = datas.filter((data) => own.has(data.name)).map(valueRow);
const others = datas.filter((data) => !own.has(data.name)).map(valueRow);

function fillRow(row, fresh) {
  const { address, size } = row.data;
  const some = ranks[shown.rank].memory.subarray(address, address + Math.min(size, 8 * MOST + 8));
  row.value.textContent = valued(some, kindOf(row.data.name));
  const isFresh = fresh.rank === shown.rank && fresh.bytes.some((at) => at >= address && at < address + size);
  row.value.className = isFresh ? \"fresh\" : \"\";
  row.line.className = row === watched ? \"present\" : \"\";
}

function showValues(fresh) {
  for (const row of [...watches, ...mine, ...(find(\"others\").open ? others : [])]) fillRow(row, fresh);
}

// watches a name, or so many bytes at an address, as 0x8470 or 0x8470,8
function watch() {
  const text = find(\"watch\").value.trim();
  const data = datas.find((one) => one.name === text);
  const [, at, size] = /^(0x[0-9a-f]+|\\d+)(?:,(\\d+))?$/i.exec(text) || [];
  const address = Number(at);
  const room = ranks[shown.rank].memory.length - address;
  if (!data && !(room > 0)) return say(text + \" is no address and no name of data\");
  watched = valueRow(data || { name: \"0x\" + hex(address, 1), address, size: Math.min(+size || 4, room) });
  watches.unshift(watched);
  fill(\"watches\", ...watches.map((row) => row.line));
  find(\"watch\").value = \"\";
  say(\"\");
  show();
}
const watchedChange = (forwards) => watched ? change(watched.data, forwards) : say(\"no value is watched: click on its name\");
";
