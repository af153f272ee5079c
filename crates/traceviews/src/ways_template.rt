//! What a page of the ways through a script has besides that of a trace: the script that reads its states, and lets the reader choose whose turn is
//! next. The script of `template` shows the turns of the way that is chosen, and calls what is here by the name `ways`.

/// The script between the states and that of each page.
const WAYS: &str = "<script>
'use strict';
const ways = (() => {
// The states: of each the turns that its lanes may make, and the numbers of the outcomes that can still come. State 0 is the start, and each turn
// leads to a later state.
const graph = JSON.parse(document.getElementById('states').textContent);
const { states, outcomes } = graph;
const lanes = Array.from({ length: graph.lanes }, (_, lane) => lane);

// The commands of the script, if it is one.
function scriptsOf(text) {
  try { return JSON.parse(text).scripts || []; } catch (refused) { return []; }
}
const scripts = scriptsOf(graph.script);
const command = (lane, number) => (scripts[lane] || [])[number] || ['a command'];
const commandName = (lane, number) => command(lane, number)[0];
const asked = (lane, number) => command(lane, number).map(word => word === '' ? 'no bytes' : word).join(' ');
const shortReply = reply => reply.key ? `${reply.reply} ${reply.place} g${reply.generation}` : reply.reply === 'content' ? reply.content || 'no bytes' : replyText(reply);
const commandText = (lane, number, reply) => `${asked(lane, number)} = ${replyText(reply)}`;
const commandsBehind = (lane, number) => (scripts[lane] || []).slice(number).map((_, more) => ({ index: Infinity, text: asked(lane, number + more) }));

// The lines of a turn, read as a trace's.
const NAMES = ['IDLE', 'PRESENT', 'RETIRED', 'MARKED'];
const placeText = place => `${place >> 16}/${place >> 12 & 15}/${place & 4095}`;
function lifeOf(word) {
  const bits = BigInt(word);
  return { word, state: NAMES[Number(bits & 3n)], count: Number(bits >> 2n & 1073741823n), generation: Number(bits >> 32n) };
}
function linkOf(shard, word) {
  const number = Number(word);
  return { word, link: number === 0 ? 'end' : number > 65536 ? word : placeText(shard << 16 | number - 1) };
}
function stepOf([kind, at, before, after]) {
  const isLife = ['ENTER', 'LEAVE', 'PUBLISH', 'MARK', 'CLAIM'].includes(kind), isStack = at.includes('.');
  const shard = isStack ? Number(at.split('.')[0]) : Number(at) >> 16;
  const [found, left] = [before, after].map(word => isLife ? lifeOf(word) : linkOf(shard, word));
  return { kind, at: isStack ? at : placeText(Number(at)), found, left, failed: ['PUSH', 'CLAIM'].includes(kind) && before === after };
}
function replyOf([name, operand]) {
  if (name === 'filling' || name === 'key') {
    const bits = BigInt(operand);
    return { reply: name, key: operand, place: placeText(Number(bits & 16777215n)), generation: Number(bits >> 24n & 4294967295n), tag: Number(bits >> 56n) };
  }
  if (name === 'some') return { reply: name, content: operand === '-' ? '' : operand };
  const isContent = name === '-' || /^([0-9a-f]{2})+$/.test(name);
  return isContent ? { reply: 'content', content: name === '-' ? '' : name } : { reply: name };
}
function readTurn(turn, number) {
  const read = { turn: number, lane: turn.lane, before: [], step: null, after: [] };
  for (const line of turn.lines) {
    const [, first, ...rest] = line.split(' ');
    if (first !== '=') read.step = stepOf([first, ...rest]);
    else (read.step ? read.after : read.before).push(replyOf(rest));
  }
  return read;
}

// The way: the turns that were chosen, one after another. What stands behind the turn that is shown is kept until another is chosen there.
let way = [];
const stateBehind = position => position < 0 ? 0 : way[position].to;
const turnAt = index => readTurn(way[index], index);
const turnOf = (state, lane) => states[state].turns.find(turn => turn.lane === lane);
function take(chosen, position) {
  way = chosen;
  learnAnew(way.length);
  go(position);
}
function choose(lane) {
  const turn = turnOf(stateBehind(now), lane);
  if (!turn) return;
  if (way[now + 1] === turn) go(now + 1);
  else take([...way.slice(0, now + 1), turn], now + 1);
}
// From here, or from the start where it can't come from here: the first way to an outcome, by rising lanes.
function leadTo(outcome) {
  const begin = states[stateBehind(now)].ends.includes(outcome) ? now : -1;
  const chosen = way.slice(0, begin + 1);
  const next = state => states[state].turns.find(turn => states[turn.to].ends.includes(outcome));
  for (let turn = next(begin < 0 ? 0 : way[begin].to); turn; turn = next(turn.to)) chosen.push(turn);
  take(chosen, begin + 1);
}

// The address has the lanes of the way, and how many of its turns have been made.
const scheduleTo = position => way.slice(0, position + 1).map(turn => turn.lane).join(',');
const addressOf = position => `#${scheduleTo(way.length)}@${position + 1}`;
function turnInAddress() {
  const [schedule, made] = location.hash.slice(1).split('@');
  if (schedule !== scheduleTo(way.length)) {
    const chosen = [];
    for (const lane of schedule.split(',').map(Number)) {
      const turn = turnOf(chosen.length > 0 ? chosen[chosen.length - 1].to : 0, lane);
      if (turn) chosen.push(turn);
    }
    way = chosen;
    learnAnew(way.length);
  }
  return (made === undefined ? way.length : Number(made) || 0) - 1;
}

// How many schedules lead from each state to each outcome, where that is soon counted: those of later states come first.
const SOON = 1000000;
let counted = null;
function countSchedules() {
  counted = new Array(states.length);
  for (let state = states.length - 1; state >= 0; state--) {
    const { turns, ends } = states[state], sums = new Map(turns.length === 0 ? ends.map(end => [end, 1n]) : []);
    for (const turn of turns) for (const [end, some] of counted[turn.to]) sums.set(end, (sums.get(end) || 0n) + some);
    counted[state] = sums;
  }
}
const plural = (some, word) => `${some} ${word}${String(some) === '1' ? '' : 's'}`;

// The replies of outcomes that tell them apart; those of a single one all.
function repliesOf(outcome) {
  const replies = lanes.map(() => []);
  for (const line of outcome.replies) {
    const [lane, , ...rest] = line.split(' ');
    replies[Number(lane)].push(replyOf(rest));
  }
  return replies;
}
const told = outcomes.map(repliesOf);
const differs = (lane, number) => outcomes.length === 1 || new Set(told.map(replies => JSON.stringify(replies[lane][number] || null))).size > 1;
const apart = lanes.map(lane => Array.from({ length: Math.max(0, ...told.map(replies => replies[lane].length)) }, (_, number) => differs(lane, number)));
function outcomeLines(outcome) {
  return lanes.map(lane => {
    const texts = told[outcome][lane].map((reply, number) => apart[lane][number] ? `${commandName(lane, number)} = ${shortReply(reply)}` : null);
    return [lane, texts.filter(text => text !== null)];
  }).filter(([, texts]) => texts.length > 0).map(([lane, texts]) => `lane ${lane}: ${texts.join(', ')}`);
}

// What is drawn: the lanes to choose from, and the outcomes.
function addChoice(parent, turn) {
  const read = readTurn(turn, 0), step = read.step;
  const button = add(parent, 'button');
  if (way[now + 1] === turn) button.className = 'chosen';
  button.dataset.lane = turn.lane;
  const command = repliesUpTo(commands.get(turn.lane), now) + read.before.length;
  button.append(`lane ${turn.lane}, ${commandName(turn.lane, command)}: `);
  add(button, 'span', step ? `${step.kind} ` : 'no step ', 'name');
  if (step) button.append(`${step.at} ${short(step.found)} → ${short(step.left)} `);
  if (step && step.failed) add(button, 'span', 'failed ', 'fail');
  const replies = read.before.concat(read.after).map(shortReply);
  if (replies.length > 0) add(button, 'span', `= ${replies.join(', ')} `, 'reply');
  const ends = states[turn.to].ends.length;
  if (ends < states[stateBehind(now)].ends.length) add(button, 'span', `(then ${ends} of ${plural(outcomes.length, 'outcome')})`, 'faint');
  button.onclick = () => {
    choose(turn.lane);
    (document.querySelector(`#choice button[data-lane='${turn.lane}']`) || document.querySelector('#choice button') || document.body).focus({ preventScroll: true });
  };
}
function drawChoice() {
  const parent = document.getElementById('choice'), { turns, ends } = states[stateBehind(now)];
  parent.replaceChildren();
  add(parent, 'h2', turns.length > 0 ? 'Whose turn is next' : `No lane has a turn left: outcome ${ends[0] + 1}`);
  for (const turn of turns) addChoice(parent, turn);
  const line = add(parent, 'p', 'schedule ', 'faint');
  add(line, 'code', scheduleTo(now) || 'empty');
}
function addOutcome(body, outcome, ends) {
  const row = add(body, 'tr', undefined, ends.has(outcome) ? '' : 'gone'), here = counted && counted[stateBehind(now)].get(outcome);
  add(row, 'td', outcome + 1, 'right');
  const cell = add(row, 'td');
  for (const line of outcomeLines(outcome)) add(cell, 'div', line);
  const all = plural(outcomes[outcome].schedules, 'schedule');
  add(cell, 'div', !ends.has(outcome) ? `can't come any more; ${all}` : here === null || now < 0 ? all : `${here} of its ${all} ${String(here) === '1' ? 'begins' : 'begin'} so`, 'faint');
  const button = add(add(row, 'td'), 'button', ends.has(outcome) ? 'a way' : 'anew');
  button.title = ends.has(outcome) ? 'a way from here to this outcome' : 'a way from the start to this outcome';
  button.onclick = () => leadTo(outcome);
}
function drawOutcomes() {
  const parent = document.getElementById('ends'), ends = new Set(states[stateBehind(now)].ends);
  parent.replaceChildren();
  add(parent, 'h2', `${ends.size} of ${plural(outcomes.length, 'outcome')} can still come`);
  const body = add(add(parent, 'table'), 'tbody');
  const rank = outcome => ends.has(outcome) ? 0 : 1;
  const sorted = outcomes.map((_, outcome) => outcome).sort((a, b) => rank(a) - rank(b) || a - b);
  for (const outcome of sorted.slice(0, MOST)) addOutcome(body, outcome, ends);
  if (sorted.length > MOST) add(add(body, 'tr'), 'td', `and ${sorted.length - MOST} more`, 'faint').colSpan = 3;
}
function draw() {
  drawChoice();
  drawOutcomes();
}
function begin() {
  const parent = document.getElementById('commands');
  parent.classList.add('steered');
  for (const name of ['ends', 'choice']) {
    const section = document.createElement('section');
    section.id = name;
    section.className = 'part';
    parent.prepend(section);
  }
  if (states.reduce((sum, state) => sum + state.ends.length, 0) <= SOON) countSchedules();
}
// The digits choose lanes.
const actOf = key => key >= '0' && key <= '9' && key.length === 1 ? () => choose(Number(key)) : undefined;
return { lanes, turnAt, commandName, commandText, commandsBehind, addressOf, turnInAddress, actOf, begin, draw, schedulesFrom: state => counted[state] };
})();
</script>
";

/// The script between the states and that of each page.
pub(crate) fn ways() -> &'static str {
    WAYS
}
