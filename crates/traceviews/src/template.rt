//! What of the HTML page is the same for each trace: a style, a body, and the script that shows the turns. The colours are
//! those of the picture. A page of the ways through a script has `ways_template` too.

/// The page up to its title.
const HEAD: &str = "<html lang='en'>
<head>
<meta charset='utf-8'>
<meta name='viewport' content='width=device-width, initial-scale=1'>
";

/// The page between its title and its body.
const STYLE: &str = "
<style>
:root {
  color-scheme: light dark;
  --page: #ffffff; --ink: #1f2328; --faint: #57606a; --line: #d0d7de; --box: #f6f8fa;
  --now: #fff3bf; --change: #ffd29e; --blue: #005a9c; --fail: #9a3b00; --arrow: #6e7781;
  --row: 44px; --pitch: 14px; --graph: 60px; --bar: 0px;
}
@media (prefers-color-scheme: dark) {
  :root:not([data-theme='light']) {
    --page: #0d1117; --ink: #e6edf3; --faint: #a9b3be; --line: #30363d; --box: #161b22;
    --now: #3b3410; --change: #6b4500; --blue: #79c0ff; --fail: #ffa36b; --arrow: #8b949e;
  }
}
:root[data-theme='dark'] {
  color-scheme: dark;
  --page: #0d1117; --ink: #e6edf3; --faint: #a9b3be; --line: #30363d; --box: #161b22;
  --now: #3b3410; --change: #6b4500; --blue: #79c0ff; --fail: #ffa36b; --arrow: #8b949e;
}
:root[data-theme='light'] { color-scheme: light }
* { box-sizing: border-box }
body {
  margin: 0; height: 100vh; display: flex; flex-direction: column; background: var(--page); color: var(--ink);
  font: 12px/17px ui-monospace, SFMono-Regular, Menlo, Consolas, 'DejaVu Sans Mono', monospace;
}
header { flex: none; display: flex; flex-wrap: wrap; gap: 6px 8px; align-items: center; padding: 6px 12px; border-bottom: 1px solid var(--line) }
h1 { font-size: 14px; margin: 0 8px 0 0; max-width: 100%; overflow: hidden; text-overflow: ellipsis; white-space: nowrap }
h2 { font-size: 12px; margin: 0 0 4px } h3 { font-size: 12px; margin: 6px 0 2px; font-weight: normal; color: var(--faint) } p { margin: 4px 0 }
button, input { font: inherit; color: inherit; background: var(--box); border: 1px solid var(--line); border-radius: 4px; padding: 2px 7px }
button { cursor: pointer }
a { color: var(--blue) }
:focus-visible { outline: 2px solid var(--blue); outline-offset: -1px }
::placeholder { color: var(--faint); opacity: 1 }
#slider { flex: 1 1 160px; min-width: 90px; padding: 0 } #search { width: 200px; max-width: 100%; flex: 0 1 200px }
html { scroll-padding-top: calc(var(--bar) + 28px) }
#where, #found { white-space: nowrap } #where { min-width: 12em }
main { flex: 1; min-height: 0; display: grid; grid-template-columns: minmax(430px, 6fr) minmax(330px, 5fr) minmax(260px, 4fr); overflow: hidden }
section { min-width: 0 } .part { padding: 8px 12px; border-bottom: 1px solid var(--line); overflow-wrap: anywhere }
.column { min-width: 0; min-height: 0; overflow-y: auto; contain: strict; border-left: 1px solid var(--line) }
#middle { display: flex; flex-direction: column } #middle > *, #now > * { flex: none } #now { display: contents }
#now section { order: 2 } #now section:first-child { order: 0 } #call { order: 1 } #legend { order: 3 }
#spots, #returned { max-height: 38vh; overflow-y: auto }
#trail { display: flex; flex-direction: column; min-height: 0 }
#marks { flex: none; display: flex; flex-wrap: wrap; gap: 0 8px; margin: 0; padding: 4px 12px; color: var(--faint); white-space: nowrap }
#marks i { display: inline-block; width: 10px; height: 10px; margin-right: 4px; border-radius: 5px; vertical-align: -1px }
#marks .link { background: var(--blue) } #marks .failed { border: 2px solid var(--fail) }
.titles { flex: none; display: flex; padding: 4px 0; border-bottom: 1px solid var(--line); color: var(--faint); background: var(--page) }
.titles svg { flex: none }
#list { flex: 1; min-height: 0; overflow-y: auto; position: relative; contain: strict }
#rows { position: relative; margin: 0 } #graph { position: absolute; left: 52px; z-index: 1; pointer-events: none; overflow: hidden }
.turn {
  contain: strict; position: absolute; left: 0; right: 0; height: var(--row); display: flex; padding: 4px 0; cursor: pointer;
  border-bottom: 1px solid var(--line); border-left: 4px solid transparent;
}
.turn.now { background: var(--now) } .turn.match { border-left-color: var(--blue) } .turn:hover { border-left-color: var(--faint) }
.number { flex: none; width: 48px; padding-right: 6px; text-align: right; color: var(--faint) }
.gap { flex: none; width: var(--graph) }
.what { flex: 1 1 0; min-width: 0 } .values { flex: none; width: 128px; padding: 0 6px }
.what div, .values div { overflow: hidden; text-overflow: ellipsis; white-space: nowrap }
table { border-collapse: collapse; width: 100% } td, th { text-align: left; padding: 1px 10px 1px 0; vertical-align: top; border-bottom: 1px solid var(--line) }
th { color: var(--faint); font-weight: normal } td.right, th.right { text-align: right } tr.here td { background: var(--now) }
td, th { white-space: nowrap } td:last-child { white-space: normal } #chains td:first-child { width: 10em }
mark { background: var(--change); color: inherit; border-radius: 3px; padding: 0 2px; margin: 0 -2px; font-weight: bold } mark .state { box-shadow: 0 0 0 3px var(--change) }
.faint { color: var(--faint) } .fail { color: var(--fail); font-weight: bold } .reply { color: var(--blue) } .name { font-weight: bold }
.state { display: inline-block; min-width: 68px; padding: 0 6px; border-radius: 3px; color: #000000 }
.IDLE { background: #bbbbbb } .PRESENT { background: #009e73 } .MARKED { background: #e69f00 } .RETIRED { background: #d55e00 }
dl { margin: 0; display: grid; grid-template-columns: max-content 1fr; gap: 2px 8px } dt { font-weight: bold } dd { margin: 0 }
ol { margin: 0 0 8px; padding-left: 48px } li.done { background: var(--now) } li.later { color: var(--faint); font-style: italic }
#choice button { display: block; width: 100%; margin: 2px 0; text-align: left } #choice button.chosen { border-color: var(--blue) }
#choice code { font: inherit; user-select: all; overflow-wrap: anywhere } #ends td { white-space: normal; overflow-wrap: anywhere } #ends td.right { padding-right: 10px }
#ends tr.gone { color: var(--faint) } #ends h3 { margin: 0 } #ends button { white-space: nowrap }
#code { padding-left: 24px; margin: 0 } #code li.now { background: var(--now); font-weight: bold } #code li.not { color: var(--faint) } #code a { margin-left: 8px }
.lane { stroke: var(--line) } .arrow { stroke: var(--arrow); fill: none } .arrow.here { stroke: var(--blue); stroke-width: 2 }
.tip { fill: var(--arrow) } .tip.here { fill: var(--blue) }
.dot { stroke: var(--page) } .dot.failed { fill: var(--page); stroke: var(--fail); stroke-width: 2 } .dot.here { stroke: var(--ink); stroke-width: 2 }
.dot.IDLE { fill: #bbbbbb } .dot.PRESENT { fill: #009e73 } .dot.MARKED { fill: #e69f00 } .dot.RETIRED { fill: #d55e00 }
.dot.link { fill: var(--blue) } .dot.none { fill: var(--faint) } .lanes { fill: var(--faint); text-anchor: middle }
@media (max-width: 1050px) {
  main { grid-template-columns: minmax(380px, 1fr) minmax(300px, 1fr); grid-template-rows: minmax(0, 3fr) minmax(0, 2fr) }
  #trail { grid-row: 1 / 3 }
}
@media (max-width: 720px) {
  body { height: auto; min-height: 100vh } .wide { display: none }
  header { position: sticky; top: 0; z-index: 3; background: var(--page); padding: 4px 8px }
  .titles { position: sticky; top: var(--bar); z-index: 2 } #marks { padding: 4px 8px; gap: 0 6px } #marks i { margin-right: 3px }
  h1 { flex: 1 1 0; min-width: 0; margin: 0 } .break { flex-basis: 100% }
  #slider { flex: 1 1 100px } #search { flex: 1 1 80px; width: 80px }
  main { display: flex; flex-direction: column; overflow: visible } .part { padding: 6px 8px } .column { border-left: 0; overflow: visible; contain: none }
  #middle { display: contents } #now { display: block; order: 1 } #trail { order: 2 } #call { order: 3 } #commands { order: 4 } #legend { order: 5 }
  #commands.steered { display: contents } #choice { order: 0 } #ends { order: 2 } #told { order: 4 }
  #list { flex: none; height: 50vh } #spots { max-height: 150px } #returned { max-height: 90px } .values { width: 104px; padding: 0 4px }
  .number { width: 36px } #graph { left: 40px }
}
</style>
</head>
";

/// The body up to its data.
const BODY: &str = "<body>
<header>
<h1 id='name'></h1>
<output id='where'></output>
<span class='break'></span>
<button id='first' title='to the first turn (Home)' aria-label='to the first turn'>|&lt;</button>
<button id='back' title='one turn back (left arrow)' aria-label='one turn back'>&lt;</button>
<button id='next' title='one turn on (right arrow)' aria-label='one turn on'>&gt;</button>
<button id='last' title='to the last turn (End)' aria-label='to the last turn'>&gt;|</button>
<input id='slider' type='range' min='0' value='0' aria-label='turn'>
<span class='break'></span>
<input id='search' type='search' placeholder='search (/)' title='a step, command, reply or key; Enter and Escape leave the search, n and N go on' aria-label='search steps, commands, replies and keys'>
<button id='before' title='the one before that is found (N)' aria-label='the one before that is found'>&uarr;</button>
<button id='after' title='the next that is found (n)' aria-label='the next that is found'>&darr;</button>
<output id='found' class='faint'></output>
<button id='theme' title='light or dark'>light/dark</button>
</header>
<main>
<section id='trail' aria-label='turns'>
<p id='marks'><span><i class='IDLE'></i>IDLE</span><span><i class='PRESENT'></i>PRESENT</span><span><i class='MARKED'></i>MARKED</span><span><i class='RETIRED'></i>RETIRED</span><span><i class='link'></i>link</span><span><i class='failed'></i>failed</span><span class='wide'>&rarr; to who finds it</span></p>
<div class='titles'><span class='number'>turn</span><svg id='lanes' height='17' aria-hidden='true'></svg><span class='what'><span class='wide'>lane, </span>step, call, replies</span><span class='values'>found, left</span></div>
<div id='list' tabindex='-1'><div id='rows' role='listbox' aria-label='turns'></div><svg id='graph' aria-hidden='true'></svg></div>
</section>
<div id='middle' class='column'>
<div id='now'>
<section class='part'><h2 id='turn'></h2><div id='step'></div></section>
<section class='part'><h2>Places, and who holds them</h2><div id='spots'><table><thead><tr><th>place</th><th>state</th><th class='right'>count</th><th class='right'>generation</th><th>held by</th></tr></thead><tbody id='places'></tbody></table></div></section>
<section class='part'><h2>Returned places, and taken ones</h2><div id='returned'><table><tbody id='chains'></tbody></table></div></section>
</div>
<section id='call' class='part'><h2 id='called'></h2><ol id='code'></ol></section>
<div id='legend'>
<section class='part'><h2>Steps</h2><dl id='steps'></dl></section>
<section class='part'><h2>States, and other words</h2><dl id='words'></dl></section>
</div>
</div>
<div id='commands' class='column'><section id='told' class='part'><h2>Commands of each lane</h2><div id='scripts'></div></section></div>
</main>
<noscript>The turns of the trace are shown by a script, which is in this file.</noscript>
";

/// The page behind its data.
const SCRIPT: &str = "<script>
'use strict';
const at = id => document.getElementById(id);

// The turns are those of a way through the states of a script (`ways`), where the page has these; else those of a trace. Its data has a line for
// each turn, and a turn is read when it is wanted. The first may be a later one of the trace: turns are counted from there, and shown by their
// numbers in the trace.
const steered = typeof ways === 'undefined' ? null : ways;
const lines = steered ? [] : at('trace').textContent.split('\\n').filter(line => line.startsWith('{'));
const readLine = line => JSON.parse(line.endsWith(',') ? line.slice(0, -1) : line);
const readTurn = index => steered ? steered.turnAt(index) : readLine(lines[index]);
const whole = steered ? 0 : Number(at('trace').dataset.turns);
const first = lines.length > 0 ? readLine(lines[0]).turn : 0;
const numberOf = index => first + index;
let count = lines.length;

// What the words mean.
const STEPS = {
  ENTER: 'a get or a clear enters the place: one more in the count',
  LEAVE: 'a call goes, or a reference is given back: one less in the count',
  PUBLISH: 'a filling becomes an object, which gets find; with a downgrade its lane keeps a reference',
  MARK: 'a clear marks the key: no get finds it from here on; who refers to it may go on reading',
  CLAIM: 'a marked place with count 0 goes to one lane, which clears its object: the next generation, behind the last one it retires; it fails where the word has changed',
  LINK: 'a place to be returned gets as its link what its stack is expected to have',
  PUSH: 'the place becomes the first of the stack, if that has what was expected; else the push fails, and is made once more',
  TAKE: 'the lane of a shard takes all that another lane has returned',
  FOLLOW: 'it reads which place is next in the chain that it took',
};
const WORDS = {
  IDLE: 'not published: free, or a filling',
  PRESENT: 'published, and not cleared',
  MARKED: 'cleared, and someone may still refer to it',
  RETIRED: 'its generations are used up',
  count: 'references, and calls that have entered and not yet left',
  generation: 'which use of the place it is; in the list behind g',
  place: 'where an object lives, as shard/page/slot',
  key: 'a place, its generation and the tag of its pool, as one number',
  lane: 'a handle of one thread; it hands out the places of the shard of its number',
  filling: 'a created place and its object, until the publish',
  turn: 'a step of a lane, with the replies round it',
  'stack 0.1': 'the places of shard 0 that lane 1 returned, last one first',
  arrow: 'from the turn that left a word to the turn of another lane that finds it',
};

// Texts.
const short = value => value.state ? `${value.state} ${value.count} g${value.generation}` : value.link;
const long = value => value.state ? `${value.state} count ${value.count} generation ${value.generation}` : value.link;
const aim = step => step.at.includes('.') ? `stack ${step.at}` : step.at;
const stepText = step => `${step.kind} ${step.at} ${long(step.found)} -> ${long(step.left)}${step.failed ? ' failed' : ''}`;
const keyText = reply => `${reply.place} generation ${reply.generation}${reply.tag ? ' tag ' + reply.tag : ''}`;
const replyText = reply => reply.reply + (reply.key ? ' ' + keyText(reply) : '') + (reply.content === undefined ? '' : ' ' + (reply.content || 'no bytes'));

// The command that replied so: one that makes steps replies right behind its last one.
function commandOf(reply, own) {
  switch (reply.reply) {
    case 'filling': case 'full': return 'create';
    case 'key': return own && own.left.count > own.found.count ? 'downgrade' : 'publish';
    case 'some': case 'none': return 'get';
    case 'content': return 'read';
    case 'true': case 'false': return 'clear';
    case 'ok': return own ? 'release' : 'write';
    case 'memory': return own ? 'create' : 'a command';
    default: return 'a command';
  }
}
const withCommand = (reply, own) => `${commandOf(reply, own)} = ${replyText(reply)}`;

// What is learnt of the turns, one after another: the turn, its replies with their commands, the call that its step is of, the turn of another
// lane that left what it finds, and those that find what it left. Later turns are learnt while the page is seen already.
const laneIn = line => parseInt(line.slice(line.indexOf(',') + 8), 10);
const lanes = steered ? steered.lanes : Array.from(new Set(lines.map(laneIn))).sort((a, b) => a - b);
const turns = [], said = [], calls = [], places = [], source = [], finders = [];
const commands = new Map(lanes.map(lane => [lane, []]));
const isStack = step => step.at.includes('.');
const wordOf = step => step.found.state || isStack(step) ? step.at : `link ${step.at}`;
const writers = new Map(), calling = new Map(), seen = new Set();
let tag = null;
function learnReplies(turn) {
  const list = commands.get(turn.lane), number = list.length, split = turn.before.length;
  const replies = turn.before.concat(turn.after);
  const ofScript = (reply, place) => `${steered.commandName(turn.lane, number + place)} = ${replyText(reply)}`;
  const texts = replies.map((reply, place) => steered ? ofScript(reply, place) : withCommand(reply, place === split ? turn.step : null));
  replies.forEach((reply, place) => list.push({ index: said.length, text: steered ? steered.commandText(turn.lane, number + place, reply) : texts[place] }));
  for (const reply of replies) if (reply.key) tag = reply.tag;
  said.push({ before: texts.slice(0, split), after: texts.slice(split) });
}
// A call begins with the first step of its lane behind a reply, and ends with the step that has one behind it. One that was under way before the
// first turn that is here can lack steps; none goes on with an ENTER or a PUBLISH.
function learnCall(index, turn) {
  const cut = first > 0 && !seen.has(turn.lane) && turn.step && !['ENTER', 'PUBLISH'].includes(turn.step.kind);
  if (turn.step) seen.add(turn.lane);
  const name = steered && steered.commandName(turn.lane, commands.get(turn.lane).length - turn.after.length);
  const call = turn.step ? calling.get(turn.lane) || { lane: turn.lane, steps: [], reply: null, cut, name } : null;
  calls.push(call);
  places.push(call ? call.steps.push(index) : 0);
  if (!call) return;
  if (turn.after.length > 0) call.reply = turn.after[0];
  if (call.reply) calling.delete(turn.lane); else calling.set(turn.lane, call);
}
function learnSource(index, turn) {
  const step = turn.step;
  source.push(-1);
  finders.push([]);
  if (!step) return;
  const writer = writers.get(wordOf(step));
  if (writer !== undefined && turns[writer].lane !== turn.lane) {
    source[index] = writer;
    finders[writer].push(index);
  }
  if (step.found.word !== step.left.word || step.kind === 'LINK') writers.set(wordOf(step), index);
}
function learn() {
  const index = turns.length, turn = readTurn(index);
  turns.push(turn);
  learnReplies(turn);
  learnCall(index, turn);
  learnSource(index, turn);
}
function learnTo(end) {
  while (turns.length < Math.min(end, count)) learn();
}
const isLearnt = () => turns.length === count;
// Takes so many turns of a way in place of those that were learnt.
function learnAnew(turnCount) {
  for (const list of [turns, said, calls, places, source, finders, sought, ...commands.values()]) list.length = 0;
  for (const each of [writers, calling, seen, shown]) each.clear();
  at('rows').replaceChildren();
  marks.length = 1;
  tag = null;
  setCount(turnCount);
  learnTo(count);
  find();
}

// The call of a step: its name, its key as far as its steps tell it, and how far it has come. An ENTER tells the generation of a key only where it
// hits; a MARK and the LEAVE of a reference always do.
const stepsOf = call => call.steps.map(index => turns[index].step);
function nameOf(call) {
  if (call.name) return call.name;
  if (call.reply) return commandOf(call.reply, turns[call.steps[call.steps.length - 1]].step);
  const steps = stepsOf(call), has = kind => steps.some(step => step.kind === kind);
  if (has('MARK')) return 'clear';
  if (has('ENTER')) return 'get or clear';
  if (has('TAKE') || has('FOLLOW')) return 'create';
  return steps[0].kind === 'LEAVE' && !call.cut ? 'release' : 'a call';
}
function keyOf(call) {
  if (call.reply && call.reply.key) return call.reply;
  const steps = stepsOf(call), isGet = call.reply && call.reply.reply === 'some';
  const sure = steps.find(step => step.kind === 'MARK' || step.kind === 'ENTER' && isGet) || (nameOf(call) === 'release' && steps.find(step => step.kind === 'LEAVE'));
  if (sure) return { place: sure.at, generation: sure.found.generation };
  const enter = steps.find(step => step.kind === 'ENTER');
  return enter ? { place: enter.at } : null;
}
function keyNumber(key) {
  if (tag === null || key.generation === undefined) return null;
  const [shard, page, slot] = key.place.split('/').map(BigInt);
  return (BigInt(tag) << 56n) + (BigInt(key.generation) << 24n) + (shard << 16n) + (page << 12n) + slot;
}
function ofKey(key) {
  if (key === null) return '';
  if (key.generation === undefined) return ` of a key of ${key.place}`;
  const number = keyNumber(key);
  return ` of ${number === null ? 'the key' : `key ${number}`}, ${key.place} generation ${key.generation}`;
}
function progressOf(index) {
  const call = calls[index], step = places[index];
  if (call.cut) return `, step ${step} since turn ${numberOf(call.steps[0])}`;
  if (call.reply) return `, step ${step} of ${call.steps.length}`;
  return `, step ${step}` + (steered ? ', no reply yet' : !isLearnt() ? '' : numberOf(count) < whole ? `, no reply up to turn ${numberOf(count - 1)}` : ', unfinished');
}
const stepOfCall = index => nameOf(calls[index]) + progressOf(index);

// What is known behind a turn: of each place its word, who has entered and not left, who fills it, and with whom it is otherwise; the links of
// places, the first of each stack, and the first of the chain that each lane took.
const EVERY = 1024;
const nothing = () => ({ places: new Map(), links: new Map(), stacks: new Map(), taken: new Map() });
const copy = known => ({
  places: new Map(Array.from(known.places, ([place, of]) => [place, { ...of, held: new Map(of.held) }])),
  links: new Map(known.links), stacks: new Map(known.stacks), taken: new Map(known.taken),
});
function placeIn(known, place) {
  if (!known.places.has(place)) known.places.set(place, { word: null, held: new Map(), filling: null, keeper: null });
  return known.places.get(place);
}
function hold(of, lane, more) {
  const count = (of.held.get(lane) || 0) + more;
  if (count > 0) of.held.set(lane, count); else of.held.delete(lane);
}
function applyLife(of, turn) {
  const step = turn.step;
  of.word = step.left;
  if (step.kind === 'ENTER') hold(of, turn.lane, 1);
  if (step.kind === 'LEAVE') hold(of, turn.lane, -1);
  if (step.kind === 'CLAIM' && !step.failed && step.left.state !== 'RETIRED') of.keeper = turn.lane;
  if (step.kind === 'PUBLISH') {
    of.filling = null;
    if (step.left.count > step.found.count) hold(of, turn.lane, 1);
  }
}
function applyStep(known, turn) {
  const step = turn.step;
  if (step.left.state) return applyLife(placeIn(known, step.at), turn);
  if (step.kind === 'LINK') known.links.set(step.at, step.left.link);
  if (isStack(step)) known.stacks.set(step.at, step.left.link);
  if (step.kind === 'TAKE' && step.found.link !== 'end') known.taken.set(turn.lane, step.found.link);
  if (step.kind === 'PUSH' && !step.failed) placeIn(known, step.left.link).keeper = null;
  if (step.kind === 'FOLLOW') {
    known.taken.set(turn.lane, step.found.link);
    placeIn(known, step.at).keeper = turn.lane;
  }
}
function apply(known, turn) {
  const fills = reply => { if (reply.reply === 'filling') Object.assign(placeIn(known, reply.place), { filling: turn.lane, keeper: null }); };
  turn.before.forEach(fills);
  if (turn.step) applyStep(known, turn);
  turn.after.forEach(fills);
}
const marks = [copy(nothing())];
function knownBehind(turn) {
  const mark = Math.max(0, Math.floor(turn / EVERY));
  learnTo(turn + 1);
  while (marks.length <= mark) {
    const running = copy(marks[marks.length - 1]);
    for (const each of turns.slice((marks.length - 1) * EVERY, marks.length * EVERY)) apply(running, each);
    marks.push(running);
  }
  const known = copy(marks[mark]);
  for (let index = mark * EVERY; index <= turn; index++) apply(known, turns[index]);
  return known;
}

// Elements.
function add(parent, name, text, kind) {
  const made = document.createElement(name);
  if (text !== undefined) made.textContent = text;
  if (kind) made.className = kind;
  parent.append(made);
  return made;
}
function addLink(parent, turn, text) {
  add(parent, 'a', text).href = addressOf(turn);
}
function addState(parent, value) {
  add(parent, 'span', value.state, `state ${value.state}`);
}

// The list: of its rows only those are made that are seen, and the one that is shown, which the keyboard reaches.
const ROW = 44, AROUND = 4, AHEAD = 200;
const pitch = Math.max(5, Math.min(18, Math.floor((innerWidth > 720 ? 190 : 90) / Math.max(1, lanes.length))));
const columns = new Map(lanes.map((lane, index) => [lane, pitch * index + pitch / 2 + 2]));
const width = pitch * lanes.length + 6;
const shown = new Map();
// Before the first turn of a way there is a choice too.
const START = steered ? -1 : 0, NO_TURN = { lane: null, before: [], step: null, after: [] };
let now = START;
const turnNow = () => now < 0 ? NO_TURN : turns[now];
function addValue(parent, value, other) {
  const line = add(parent, 'div');
  const parts = value.state ? [[value.state, other.state], [value.count, other.count], [`g${value.generation}`, `g${other.generation}`]] : [[value.link, other.link]];
  parts.forEach(([text, was], index) => {
    if (index > 0) line.append(' ');
    add(line, text === was ? 'span' : 'mark', text);
  });
}
function addCall(parent, index) {
  const line = add(parent, 'span', nameOf(calls[index]), 'faint'), key = keyOf(calls[index]);
  if (key && key.generation !== undefined) add(line, 'span', ` ${key.place} g${key.generation}`, 'wide');
  line.append(progressOf(index));
}
function makeRow(index) {
  const turn = turns[index], step = turn.step;
  const row = document.createElement('div');
  row.className = 'turn';
  row.id = `turn${numberOf(index)}`;
  row.style.top = `${index * ROW}px`;
  row.setAttribute('role', 'option');
  row.setAttribute('aria-setsize', count);
  row.setAttribute('aria-posinset', index + 1);
  row.onclick = () => { go(index); row.focus({ preventScroll: true }); };
  add(row, 'span', numberOf(index), 'number');
  add(row, 'span', undefined, 'gap');
  const what = add(row, 'div', undefined, 'what');
  const first = add(what, 'div');
  add(first, 'span', 'lane ', 'wide');
  first.append(`${turn.lane} `);
  if (step) {
    add(first, 'span', step.kind, 'name');
    first.append(` ${step.at} `);
    if (step.failed) add(first, 'span', 'failed', 'fail');
  }
  const line = add(what, 'div');
  if (step) addCall(line, index);
  const replies = turn.after.map((reply, place) => step && place === 0 ? `= ${replyText(reply)}` : said[index].after[place]);
  if (turn.before.length > 0) replies.push((step ? 'before it ' : '') + said[index].before.join(', '));
  if (replies.length > 0) add(line, 'span', ` ${replies.join(', ')}`, 'reply');
  const values = add(row, 'div', undefined, 'values');
  if (step) {
    addValue(values, step.found, step.found);
    addValue(values, step.left, step.found);
  }
  return row;
}
function markRow(row, index) {
  const here = index === now;
  row.classList.toggle('now', here);
  row.classList.toggle('match', matching.has(index));
  row.tabIndex = here ? 0 : -1;
  row.setAttribute('aria-selected', here);
}
function rowsSeen() {
  const from = Math.max(0, Math.floor(at('list').scrollTop / ROW) - AROUND);
  const end = Math.min(count, Math.ceil((at('list').scrollTop + at('list').clientHeight) / ROW) + AROUND);
  return { from, end };
}
function drawRows() {
  const { from, end } = rowsSeen();
  learnTo(end + AHEAD);
  for (const [index, row] of shown) {
    if (index === now || index >= from && index < end) continue;
    row.remove();
    shown.delete(index);
  }
  for (let index = from; index < end; index++) showRow(index);
  if (now >= 0 && count > 0) showRow(now);
  for (const [index, row] of shown) markRow(row, index);
  drawGraph(from, end);
}
function showRow(index) {
  if (shown.has(index)) return;
  const row = makeRow(index);
  shown.set(index, row);
  at('rows').append(row);
}

// The lanes as lines, a dot for each turn, and an arrow from the turn that left a word to the one of another lane that finds it.
const middle = index => index * ROW + 14;
const RADIUS = Math.min(5, pitch / 3);
function arrow(from, to, top) {
  const left = columns.get(turns[from].lane), right = columns.get(turns[to].lane);
  const side = left < right ? -1 : 1;
  const path = right + side * (pitch / 2 + (from % 3 - 1) * pitch / 8), tip = right + side * (RADIUS + 1);
  const start = middle(from) - top, end = middle(to) - top;
  const turned = Math.min(start + ROW - 10, end - 4);
  const here = from === now || to === now ? ' here' : '';
  return `<path class='arrow${here}' d='M${left} ${start}C${left} ${turned} ${path} ${start + 10} ${path} ${turned}V${end}H${tip}'/>`
    + `<path class='tip${here}' d='M${tip} ${end}l${side * 5} -3.5v7z'/>`;
}
function dot(index, top) {
  const step = turns[index].step;
  const kind = !step ? 'none' : step.failed ? 'failed' : step.left.state || 'link';
  return `<circle class='dot ${kind}${index === now ? ' here' : ''}' cx='${columns.get(turns[index].lane)}' cy='${middle(index) - top}' r='${step ? RADIUS : 3}'/>`;
}
function drawGraph(begin, end) {
  const top = begin * ROW, height = Math.max(0, end - begin) * ROW;
  const parts = lanes.map(lane => `<path class='lane' d='M${columns.get(lane)} 0V${height}'/>`);
  for (let index = begin; index < end; index++) {
    if (source[index] >= 0) parts.push(arrow(source[index], index, top));
    for (const finder of finders[index]) if (finder >= end) parts.push(arrow(index, finder, top));
  }
  for (let index = begin; index < end; index++) parts.push(dot(index, top));
  const graph = at('graph');
  graph.setAttribute('width', width);
  graph.setAttribute('height', height);
  graph.style.top = `${top}px`;
  graph.innerHTML = parts.join('');
}
function drawTitles() {
  at('lanes').setAttribute('width', width);
  const every = pitch >= 14 ? 1 : pitch >= 9 ? 2 : 4;
  at('lanes').innerHTML = lanes.map((lane, index) => index % every === 0 ? `<text class='lanes' x='${columns.get(lane)}' y='13'>${lane}</text>` : '').join('');
}
// Scrolls the list so that the turn is seen: a little where it is near, else to the middle. Where the list goes on below the window, by what the
// window has of it.
function heightSeen(list) {
  const within = innerHeight - list.getBoundingClientRect().top;
  return within > 3 * ROW ? Math.min(list.clientHeight, within) : list.clientHeight;
}
function scrollTo(turn) {
  const list = at('list'), top = turn * ROW, height = heightSeen(list), edge = Math.min(ROW, height / 4);
  const above = list.scrollTop - (top - edge), below = top + ROW + edge - (list.scrollTop + height);
  if (above <= 0 && below <= 0) return;
  if (Math.max(above, below) > height) list.scrollTop = top - height / 2 + ROW / 2;
  else list.scrollTop += above > 0 ? -above : below;
}

// The turn that is shown: its step with what it found and left, one under the other, and its replies.
function addChange(parent, step) {
  const names = step.left.state ? ['state', 'count', 'generation'] : ['link'];
  const table = add(parent, 'table');
  const head = add(add(table, 'thead'), 'tr');
  add(head, 'th', `${step.kind} ${aim(step)}`);
  names.forEach(name => add(head, 'th', name));
  const body = add(table, 'tbody');
  for (const [title, value] of [['found', step.found], ['left', step.left]]) {
    const row = add(body, 'tr');
    add(row, 'th', title);
    for (const name of names) {
      const cell = add(row, 'td');
      const changed = value === step.left && value[name] !== step.found[name];
      const marked = add(cell, changed ? 'mark' : 'span');
      if (name === 'state') addState(marked, value); else marked.textContent = value[name];
    }
  }
}
function addReplies(parent, list) {
  for (const text of list) add(parent, 'p', text, 'reply');
}
function addSources(parent, index) {
  if (source[index] >= 0) {
    const line = add(parent, 'p', `It finds what lane ${turns[source[index]].lane} left in `);
    addLink(line, source[index], `turn ${numberOf(source[index])}`);
  }
  if (finders[index].length > 0) {
    const line = add(parent, 'p', 'Found by ');
    finders[index].slice(0, 5).forEach((finder, number) => {
      if (number > 0) line.append(', ');
      line.append(`lane ${turns[finder].lane} in `);
      addLink(line, finder, `turn ${numberOf(finder)}`);
    });
    if (finders[index].length > 5) line.append(` and ${finders[index].length - 5} more`);
  }
}
function drawTurn() {
  const turn = turnNow(), parent = at('step');
  parent.replaceChildren();
  at('turn').textContent = now < 0 ? 'Start: no lane has made a turn' : `Turn ${numberOf(now)}, lane ${turn.lane}` + (turn.step ? `: ${stepOfCall(now)}` : '');
  if (now < 0) return;
  addReplies(parent, said[now].before);
  if (turn.step) {
    addChange(parent, turn.step);
    const line = add(parent, 'p');
    if (turn.step.failed) add(line, 'span', 'failed. ', 'fail');
    add(line, 'span', `${turn.step.kind}: ${STEPS[turn.step.kind]}`, 'faint');
  }
  addReplies(parent, said[now].after);
  if (turn.before.concat(turn.after).some(reply => reply.reply === 'skip')) add(parent, 'p', skipReason(turn.lane), 'faint');
  if (turn.step) addSources(parent, now);
}

// Why a command was skipped. Which one it was no trace tells, but only a lane that has something can lack an empty register.
const has = (known, lane) => Array.from(known.places.values()).some(of => of.filling === lane || of.held.has(lane));
function skipReason(lane) {
  const full = first > 0 || has(knownBehind(now), lane) || now > 0 && has(knownBehind(now - 1), lane);
  return 'skip: the command did nothing, as its register had no filling (write, publish, downgrade), no reference (read, release) or no key to remember (get, clear)'
    + (full ? ', or was not empty (create, get)' : '');
}

// The call of the turn's step: what such a call does, a line for each kind of step, with the turns at which this one made it.
const RETURNS = [
  ['CLAIM', 'MARKED with count 0 is left: CLAIM the place'],
  ['LINK', 'it is of another shard: LINK it to what its stack has'],
  ['PUSH', 'PUSH it; where that fails, LINK and PUSH again'],
];
const CODE = {
  create: [
    ['TAKE', 'own list and taken chain are empty: TAKE what each lane returned, up to a stack with places'],
    ['FOLLOW', 'FOLLOW the taken chain to its next place'],
    ['reply', 'reply filling: a place of the list, of the chain or of a new page; else full'],
  ],
  publish: [['PUBLISH', 'PUBLISH the filling'], ['reply', 'reply the key']],
  downgrade: [['PUBLISH', 'PUBLISH the filling, with a reference'], ['reply', 'reply the key']],
  get: [['ENTER', 'ENTER the place'], ['hit', 'hit: reply the content, and keep the reference'], ['LEAVE', 'miss: LEAVE'], ...RETURNS, ['miss', 'reply none']],
  clear: [['ENTER', 'ENTER the place'], ['MARK', 'hit: MARK the key'], ['LEAVE', 'hit or miss: LEAVE'], ...RETURNS, ['reply', 'reply true where the MARK found PRESENT, else false']],
  release: [['LEAVE', 'LEAVE: the reference is given back'], ...RETURNS, ['reply', 'reply ok']],
  'get or clear': [['ENTER', 'ENTER the place'], ['hit', 'hit: a get replies, a clear goes on with MARK'], ['LEAVE', 'miss: LEAVE'], ...RETURNS, ['miss', 'reply none, or false']],
  'a call': [['LEAVE', 'LEAVE'], ...RETURNS],
};
function isReply(name, reply) {
  if (!reply) return false;
  return name === 'reply' || name === (reply.reply === 'some' ? 'hit' : 'miss');
}
function addCode(parent, call, [name, text]) {
  const line = add(parent, 'li', text);
  const made = call.steps.filter(index => turns[index].step.kind === name);
  if (isReply(name, call.reply)) made.push(call.steps[call.steps.length - 1]);
  for (const index of made) addLink(line, index, `turn ${numberOf(index)}`);
  line.className = turns[now].step.kind === name ? 'now' : made.length === 0 ? 'not' : made[0] > now ? 'later' : '';
}
function drawCall() {
  const call = calls[now];
  at('code').replaceChildren();
  at('called').textContent = call ? `${nameOf(call)}${ofKey(keyOf(call))}` : 'No step, and no call under way';
  if (call) for (const line of CODE[nameOf(call)] || []) addCode(at('code'), call, line);
}

// The places, the returned ones, and the commands.
const MOST = 200;
function holdersOf(place, of) {
  const holders = Array.from(of.held, ([lane, times]) => `lane ${lane}` + (times > 1 ? ` (${times})` : ''));
  const known = Array.from(of.held.values()).reduce((sum, times) => sum + times, 0);
  if (of.word && of.word.count > known) holders.push(`${of.word.count - known} since before turn ${first}`);
  if (of.filling !== null) holders.unshift(`lane ${of.filling} fills it`);
  if (of.keeper !== null) holders.unshift(Number(place.split('/')[0]) === of.keeper ? `lane ${of.keeper}, free` : `lane ${of.keeper} returns it`);
  return holders.join(', ');
}
function addPlace(body, place, of, step) {
  const row = add(body, 'tr');
  const changed = name => step !== null && step.found[name] !== step.left[name];
  if (step !== null) row.className = 'here';
  add(row, 'td', place);
  const state = add(row, 'td');
  if (of.word) addState(add(state, changed('state') ? 'mark' : 'span'), of.word); else state.textContent = 'fresh';
  for (const name of ['count', 'generation']) add(add(row, 'td', undefined, 'right'), changed(name) ? 'mark' : 'span', of.word ? of.word[name] : '');
  add(row, 'td', holdersOf(place, of));
}
function drawPlaces(known) {
  const body = at('places'), step = turnNow().step;
  const here = step && step.left.state ? step.at : null;
  body.replaceChildren();
  const rank = ([place, of]) => place === here ? 0 : of.filling !== null || of.keeper !== null || of.held.size > 0 ? 1 : 2;
  const sorted = Array.from(known.places).sort((a, b) => rank(a) - rank(b) || (a[0] < b[0] ? -1 : 1));
  for (const [place, of] of sorted.slice(0, MOST)) addPlace(body, place, of, place === here ? step : null);
  if (sorted.length > MOST) add(add(body, 'tr'), 'td', `and ${sorted.length - MOST} more`, 'faint').colSpan = 5;
}
// A chain from its first place on; one without an end, as in a trace that is none of a pool, is cut.
function chainText(known, first) {
  const parts = [];
  let place = first;
  while (place !== undefined && place !== 'end' && parts.length < 16) {
    parts.push(place);
    place = known.links.get(place);
  }
  if (place !== undefined) parts.push(place === 'end' ? 'end' : '..');
  return parts.join(' → ');
}
function drawChains(known) {
  const body = at('chains'), step = turnNow().step;
  body.replaceChildren();
  const addChain = (title, first, changed) => {
    if (first === 'end') return;
    const row = add(body, 'tr');
    add(row, 'td', title);
    add(add(row, 'td'), changed ? 'mark' : 'span', chainText(known, first));
  };
  for (const [stack, first] of Array.from(known.stacks).sort()) addChain(`stack ${stack}`, first, step && step.at === stack && !step.failed);
  for (const [lane, first] of Array.from(known.taken).sort((a, b) => a[0] - b[0]))
    addChain(`taken by lane ${lane}`, first, step && turns[now].lane === lane && (step.kind === 'TAKE' && step.found.link !== 'end' || step.kind === 'FOLLOW'));
  if (body.rows.length === 0) add(add(body, 'tr'), 'td', 'none is on a stack or in a taken chain', 'faint').colSpan = 2;
}
// How many of a lane's commands have replied up to this turn.
function repliesUpTo(list, turn) {
  let from = 0, end = list.length;
  while (from < end) {
    const middle = (from + end) >> 1;
    if (list[middle].index <= turn) from = middle + 1; else end = middle;
  }
  return from;
}
function addCommands(parent, lane) {
  const replied = commands.get(lane), done = repliesUpTo(replied, now), list = steered ? replied.concat(steered.commandsBehind(lane, replied.length)) : replied;
  const from = Math.max(0, done - 4), end = Math.min(list.length, done + 2);
  add(parent, 'h3', isLearnt() ? `lane ${lane}: ${done} of ${list.length} replies` : `lane ${lane}: ${done} replies`);
  if (from > 0) add(parent, 'p', `${from} earlier`, 'faint');
  const shownOnes = add(parent, 'ol');
  shownOnes.start = from + 1;
  list.slice(from, end).forEach((command, index) =>
    add(shownOnes, 'li', command.text, from + index >= done ? 'later' : command.index === now ? 'done' : ''));
  if (isLearnt() && end < list.length) add(parent, 'p', `${list.length - end} later`, 'faint');
}
function drawCommands() {
  at('scripts').replaceChildren();
  for (const lane of lanes) addCommands(at('scripts'), lane);
}
function drawLegend() {
  for (const [parent, words] of [[at('steps'), STEPS], [at('words'), WORDS]])
    for (const [word, line] of Object.entries(words)) {
      const title = add(parent, 'dt');
      add(title, 'span', word, ['IDLE', 'PRESENT', 'MARKED', 'RETIRED'].includes(word) ? `state ${word}` : '');
      add(parent, 'dd', line);
    }
}

// Goes to a turn.
function whereText() {
  const all = `${first} to ${numberOf(count - 1)}`;
  if (now < 0) return count > 0 ? `before turns ${all}` : 'at the start';
  return `turn ${numberOf(now)} of ${all}` + (count < whole ? `, of ${whole} turns` : '');
}
function focusTurn() {
  (shown.get(now) || at('list')).focus({ preventScroll: true });
}
function go(turn) {
  if (count === 0 && !steered) { at('where').textContent = whole > 0 ? `none of ${whole} turns` : 'no turns'; return; }
  const within = at('list').contains(document.activeElement);
  now = Math.max(START, Math.min(turn, count - 1));
  at('slider').value = numberOf(now);
  at('where').textContent = whereText();
  drawState();
  scrollTo(now);
  drawRows();
  if (within) focusTurn();
  tellFound();
  clearTimeout(keeping);
  keeping = setTimeout(keepTurn, 150);
}
function drawState() {
  learnTo(now + AHEAD);
  drawTurn();
  drawCall();
  const known = knownBehind(now);
  drawPlaces(known);
  drawChains(known);
  drawCommands();
  if (steered) steered.draw();
}
// Learns the rest of the turns bit by bit. What was drawn before is then drawn once more: an arrow, or the end of a call, may come much later.
function learnOn() {
  learnTo(turns.length + 2000);
  if (!isLearnt()) { setTimeout(learnOn); return; }
  const within = at('list').contains(document.activeElement);
  for (const row of shown.values()) row.remove();
  shown.clear();
  drawRows();
  if (within) focusTurn();
  drawState();
}
// The address keeps the turn, and the way: a little later, as browsers refuse many changes of it in a row.
let keeping = 0;
const addressOf = index => steered ? steered.addressOf(index) : `#${numberOf(index)}`;
const turnInAddress = () => steered ? steered.turnInAddress() : (Number(location.hash.slice(1)) || first) - first;
function keepTurn() {
  try { history.replaceState(null, '', addressOf(now)); } catch (refused) { }
}

// The search: the text of a turn that it looks through, and what it finds. A number is found whole: turn 1 isn't turn 12.
const sought = [];
const keysIn = list => list.filter(reply => reply.key).map(reply => `key ${reply.key}`);
function callSought(index) {
  const call = calls[index], key = call && keyOf(call), number = key && keyNumber(key);
  return call ? [stepOfCall(index), ...(number ? [`key ${number}`] : [])] : [];
}
function makeSought(index) {
  const turn = turns[index], step = turn.step;
  return [
    `lane ${turn.lane}`, ...said[index].before, ...(step ? [stepText(step)] : []), ...said[index].after, ...keysIn(turn.before), ...keysIn(turn.after),
    ...callSought(index), ...(step ? [step.found.word, step.left.word] : []),
  ].join(' ').toLowerCase();
}
let wanted = '', matches = [], matching = new Set(), origin = 0;
const isDigit = sign => sign >= '0' && sign <= '9';
function isFound(text) {
  for (let from = text.indexOf(wanted); from >= 0; from = text.indexOf(wanted, from + 1)) {
    const end = from + wanted.length;
    const cuts = isDigit(text[from]) && isDigit(text[from - 1]) || isDigit(text[end - 1]) && isDigit(text[end]);
    if (!cuts) return true;
  }
  return false;
}
function tellFound() {
  const index = matches.indexOf(now);
  at('found').textContent = wanted === '' ? '' : matches.length === 0 ? 'not found' : `${index < 0 ? '-' : index + 1} of ${matches.length}`;
}
function find() {
  matches = [];
  if (wanted !== '') {
    learnTo(count);
    for (let index = 0; index < count; index++) {
      sought[index] ??= makeSought(index);
      if (isFound(sought[index])) matches.push(index);
    }
  }
  matching = new Set(matches);
}
// Goes to what is found first from where the search began; where nothing is, back to there.
function search(words) {
  wanted = words.trim().toLowerCase();
  find();
  go(matches.find(index => index >= origin) ?? matches[0] ?? origin);
}
// The next that is found, or the one before; behind the last comes the first.
function seek(by) {
  if (matches.length === 0) return;
  const next = by > 0 ? matches.find(index => index > now) : matches.findLast(index => index < now);
  go(next ?? (by > 0 ? matches[0] : matches[matches.length - 1]));
}
// Leaves the search, which stays as it is, for the turn that is shown.
function leaveSearch() {
  at('search').blur();
  if (count > 0) focusTurn();
}

function isDark() {
  const theme = document.documentElement.dataset.theme;
  return theme ? theme === 'dark' : matchMedia('(prefers-color-scheme: dark)').matches;
}
const by = turns => () => go(now + turns);
const KEYS = {
  ArrowLeft: by(-1), ArrowRight: by(1), ArrowUp: by(-1), ArrowDown: by(1), PageUp: by(-10), PageDown: by(10),
  Home: () => go(START), End: () => go(count - 1), n: () => seek(1), N: () => seek(-1), '/': () => at('search').focus(),
};
// Whether a key is for the words of the search: all are but those that leave them, and arrows that don't move the caret.
function isWritten(event) {
  const { selectionStart, selectionEnd, value } = at('search');
  if (event.key === 'ArrowLeft') return event.shiftKey || selectionEnd > 0;
  if (event.key === 'ArrowRight') return event.shiftKey || selectionStart < value.length;
  return !['Enter', 'Escape', 'ArrowUp', 'ArrowDown', 'PageUp', 'PageDown'].includes(event.key);
}
function onKey(event) {
  if (event.ctrlKey || event.metaKey || event.altKey || event.isComposing) return;
  const searching = event.target === at('search');
  if (searching && isWritten(event)) return;
  const leaves = searching && (event.key === 'Enter' || event.key === 'Escape');
  const act = leaves ? leaveSearch : KEYS[event.key] || (steered && steered.actOf(event.key));
  if (!act) return;
  event.preventDefault();
  act();
  if (searching) origin = now;
}
function setCount(turnCount) {
  count = turnCount;
  at('slider').max = numberOf(Math.max(START, count - 1));
  at('rows').style.height = `${count * ROW}px`;
}
function begin() {
  if (document.title === '-') document.title = 'standard input';
  at('name').textContent = `${steered ? 'Outcomes' : 'Trace'}: ${document.title}`;
  at('slider').min = numberOf(START);
  setCount(count);
  at('slider').oninput = event => go(Number(event.target.value) - first);
  at('first').onclick = () => go(START);
  at('back').onclick = () => go(now - 1);
  at('next').onclick = () => go(now + 1);
  at('last').onclick = () => go(count - 1);
  at('before').onclick = () => seek(-1);
  at('after').onclick = () => seek(1);
  at('theme').onclick = () => { document.documentElement.dataset.theme = isDark() ? 'light' : 'dark'; };
  at('search').oninput = event => search(event.target.value);
  at('search').onfocus = () => { origin = now; };
  at('list').onscroll = drawRows;
  document.documentElement.style.setProperty('--graph', `${width}px`);
  document.onkeydown = onKey;
  onhashchange = () => { if (turnInAddress() !== now) go(turnInAddress()); };
  onresize = drawRows;
  drawTitles();
  drawLegend();
  if (steered) steered.begin();
  const bar = document.querySelector('header');
  new ResizeObserver(() => document.documentElement.style.setProperty('--bar', `${bar.offsetHeight}px`)).observe(bar);
  go(turnInAddress());
  setTimeout(learnOn);
}
begin();
</script>
</body>
";

/// The page up to its title.
pub(crate) fn head() -> &'static str {
    HEAD
}

/// The page between its title and its body.
pub(crate) fn style() -> &'static str {
    STYLE
}

/// The body up to its data.
pub(crate) fn body() -> &'static str {
    BODY
}

/// The page behind its data.
pub(crate) fn script() -> &'static str {
    SCRIPT
}
