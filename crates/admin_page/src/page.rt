//! The page to look at.

/// A page that asks `tenants` for all figures every two seconds. It has nothing from elsewhere, and puts names in as
/// text alone. Where a token is wanted it asks for one, and keeps it for as long as its tab is open.
pub const PAGE: &str = "<!doctype html>
<html lang='en'>
<head>
<meta charset='utf-8'>
<meta name='viewport' content='width=device-width, initial-scale=1'>
<title>Trace collector</title>
<style>
:root {
  color-scheme: light dark;
  --ground: #fff; --raised: #f4f5f7; --ink: #1c2330; --faint: #5b6475; --line: #d9dde4; --focus: #0b57d0;
  --undecided: #7c8db5; --pending: #4f9bd9; --queued: #c98a1b; --active: #0f8a80;
  --exported: #2e9d5b; --not_sampled: #aab2c0; --loss: #cf3b2e; --out: #8e44ad;
}
@media (prefers-color-scheme: dark) {
  :root {
    --ground: #12161d; --raised: #1b212b; --ink: #e6e9ef; --faint: #9aa4b5; --line: #2c3441; --focus: #8ab4f8;
    --undecided: #8394bd; --pending: #5ba9e6; --queued: #dba23a; --active: #2bb5a8;
    --exported: #3fb26d; --not_sampled: #5d6778; --loss: #ef6a5c; --out: #b57edc;
  }
}
* { box-sizing: border-box; }
body { margin: 0; background: var(--ground); color: var(--ink); font: 14px/1.45 system-ui, sans-serif; }
header, main { max-width: 1180px; margin: 0 auto; padding: 12px 16px; }
h1 { font-size: 18px; margin: 0 12px 0 0; }
h2 { font-size: 14px; margin: 16px 0 6px; }
.bar-line { display: flex; flex-wrap: wrap; gap: 8px 16px; align-items: center; }
.faint { color: var(--faint); }
input, select, button { font: inherit; color: inherit; background: var(--raised); border: 1px solid var(--line);
  border-radius: 6px; padding: 5px 9px; }
#tools label { display: flex; gap: 8px; align-items: center; }
#tools label[hidden] { display: none; }
#tools .wide { flex: 1 1 240px; }
input[type=search] { flex: 1; min-width: 100px; }
:focus-visible { outline: 2px solid var(--focus); outline-offset: 1px; }
#sums { display: grid; grid-template-columns: repeat(auto-fit, minmax(130px, 1fr)); gap: 8px; margin: 12px 0;
  padding: 0; }
#sums div { background: var(--raised); border-radius: 8px; padding: 8px 10px; }
#sums dt { color: var(--faint); font-size: 12px; }
#sums dd { margin: 0; font-size: 18px; font-variant-numeric: tabular-nums; }
#first { margin: 0; padding: 0 0 0 18px; }
#first.none { list-style: none; padding: 0; color: var(--faint); }
#first b { color: var(--loss); }
.key { display: inline-flex; align-items: center; gap: 5px; font-size: 12px; color: var(--faint); }
.key i { width: 11px; height: 11px; border-radius: 3px; }
#rows { list-style: none; margin: 8px 0; padding: 0; border-top: 1px solid var(--line); }
#rows li { border-bottom: 1px solid var(--line); }
summary, .heads { display: grid; grid-template-columns: minmax(90px, 1.1fr) 2fr 2fr minmax(190px, 1.2fr);
  gap: 2px 12px; }
summary { align-items: center; padding: 6px 4px; cursor: pointer; list-style: none; }
summary::-webkit-details-marker { display: none; }
summary:hover { background: var(--raised); }
.name { font-weight: 600; overflow: hidden; text-overflow: ellipsis; white-space: nowrap; }
.bar { display: flex; height: 14px; background: var(--raised); border-radius: 4px; overflow: hidden; }
.bar i { height: 100%; flex: none; min-width: 0; }
.rates { font-variant-numeric: tabular-nums; font-size: 12px; text-align: right; white-space: nowrap; }
.rates b { color: var(--loss); }
.full { grid-column: 1 / -1; font-size: 12px; color: var(--faint); font-variant-numeric: tabular-nums; }
.full * { white-space: nowrap; }
.full b { color: var(--loss); }
.heads { font-size: 12px; color: var(--faint); padding: 0 4px; }
.heads span:last-child { text-align: right; }
.all { display: grid; grid-template-columns: repeat(auto-fit, minmax(150px, 1fr)); gap: 4px 16px; margin: 0;
  padding: 4px 4px 12px; }
.all div { display: flex; justify-content: space-between; gap: 8px; }
.all dt { color: var(--faint); }
.all dd { margin: 0; font-variant-numeric: tabular-nums; }
@media (max-width: 720px) {
  .heads { display: none; }
  summary { grid-template-columns: 1fr; gap: 4px; }
  .rates { text-align: left; white-space: normal; }
}
</style>
</head>
<body>
<header>
<div class='bar-line'>
<h1>Trace collector</h1>
<span id='state' role='status' class='faint'>asking</span>
</div>
<dl id='sums'></dl>
<h2 id='first-head'>Losses to look at first</h2>
<ul id='first' class='none' aria-labelledby='first-head'><li>none so far</li></ul>
</header>
<main>
<form class='bar-line' id='tools'>
<label class='faint wide'>Tenant
<input type='search' id='find' placeholder='part of a name' title='the key / leads here' autocomplete='off'></label>
<label class='faint'>Order
<select id='order'>
<option value='loss'>losses first</option>
<option value='held'>most held first</option>
<option value='rate'>busiest first</option>
<option value='name'>by name</option>
</select></label>
<label id='pass' hidden>Token <input type='password' id='token' autocomplete='off'></label>
</form>
<p class='bar-line' id='keys'></p>
<div class='heads'>
<span>Tenant</span><span>Where its spans are now</span><span>What became of them</span>
<span>Spans a second: in, out, lost</span>
</div>
<ol id='rows'></ol>
<button type='button' id='more' hidden></button>
</main>
<script>
'use strict';
const WHERE = ['undecided', 'pending', 'queued', 'active'];
const LEFT_OUT = ['invalid', 'over_budget'];
const FAILED = ['queue_full', 'retry_exhausted', 'back_end_refused', 'back_end_rejected'];
const LOSSES = ['too_early'].concat(FAILED, LEFT_OUT);
const WORDS = {
  accepted: 'accepted', undecided: 'undecided', pending: 'pending', queued: 'queued', active: 'active',
  exported: 'exported', not_sampled: 'not sampled', too_early: 'pushed out too early', queue_full: 'queue full',
  retry_exhausted: 'retries exhausted', back_end_refused: 'refused by the back end',
  back_end_rejected: 'rejected by the back end', invalid: 'invalid', over_budget: 'over budget',
};
const LEVELS = [
  (tenant) => ['traces', tenant.undecided_rows, tenant.rows_limit, ''],
  (tenant) => ['spans', sum(tenant, ['undecided', 'pending']), tenant.spans_limit, ''],
  (tenant) => {
    const batches = ['queue', tenant.queued_batches, tenant.queued_batches_limit, ''];
    const bytes = ['queue', tenant.queued_bytes, tenant.queued_bytes_limit, ' bytes'];
    return bytes[1] / bytes[2] > batches[1] / batches[2] ? bytes : batches;
  },
];
const PAGE = 100;
const at = (id) => document.getElementById(id);
const rows = new Map();
let before = new Map();
let seen = 0;
let shown = PAGE;
let last = [];

const number = (n) => Math.round(n).toLocaleString('en');
const rate = (n) => n >= 100 ? number(n) : n >= 10 ? n.toFixed(0) : n > 0 ? n.toFixed(1) : '0';
const sum = (tenant, words) => words.reduce((n, word) => n + tenant[word], 0);
const tint = (word) => LEFT_OUT.includes(word) ? 'out' : LOSSES.includes(word) ? 'loss' : word;
const color = (word) => 'var(--' + tint(word) + ')';

function element(tag, className, text) {
  const made = document.createElement(tag);
  if (className) made.className = className;
  if (text !== undefined) made.textContent = text;
  return made;
}

function key(word, text) {
  const made = element('span', 'key');
  const mark = element('i');
  mark.style.background = color(word);
  made.append(mark, text || WORDS[word]);
  return made;
}

function bar(words) {
  const made = element('div', 'bar');
  made.setAttribute('role', 'img');
  made.parts = words.map((word) => {
    const part = element('i');
    part.style.background = color(word);
    made.append(part);
    return part;
  });
  made.words = words;
  return made;
}

function fill(made, tenant, whole) {
  const said = [];
  made.words.forEach((word, i) => {
    const share = whole > 0 ? 100 * tenant[word] / whole : 0;
    made.parts[i].style.width = (tenant[word] > 0 ? Math.max(share, 0.6) : 0) + '%';
    made.parts[i].title = WORDS[word] + ' ' + number(tenant[word]);
    if (tenant[word] > 0) said.push(number(tenant[word]) + ' ' + WORDS[word]);
  });
  made.setAttribute('aria-label', said.length ? said.join(', ') : 'no spans');
}

function level([word, now, most, unit]) {
  const text = word + ' ' + number(now) + ' of ' + number(most) + unit;
  if (5 * now <= 4 * most) return element('span', '', text);
  return element('b', '', text + ' (' + Math.floor(100 * now / most) + ' % full)');
}

function row(name) {
  const made = element('li');
  const details = element('details');
  const summary = element('summary');
  made.now = bar(WHERE);
  made.became = bar(['exported', 'not_sampled'].concat(LOSSES));
  made.rates = element('div', 'rates');
  made.full = element('div', 'full');
  const title = element('span', 'name', name);
  title.title = name;
  summary.append(title, made.now, made.became, made.rates, made.full);
  const all = element('dl', 'all');
  made.cells = new Map();
  ['accepted'].concat(WHERE, ['exported', 'not_sampled'], LOSSES).forEach((word) => {
    const pair = element('div');
    const cell = element('dd');
    made.cells.set(word, cell);
    pair.append(element('dt', '', WORDS[word]), cell);
    all.append(pair);
  });
  details.append(summary, all);
  made.append(details);
  made.details = details;
  return made;
}

function rates(tenant, seconds) {
  const old = before.get(tenant.tenant);
  const grown = (words) => old && seconds > 0 ? Math.max(0, sum(tenant, words) - sum(old, words)) / seconds : 0;
  return {
    come: grown(['accepted'].concat(LEFT_OUT)),
    out: grown(['exported']),
    lost: grown(LOSSES),
    each: (word) => grown([word]),
  };
}

function tell(state, isBad) {
  at('state').textContent = state;
  at('state').style.color = isBad ? 'var(--loss)' : '';
}

function showSums(tenants) {
  const all = (field) => tenants.reduce((n, tenant) => n + field(tenant), 0);
  const pairs = [
    ['tenants', number(tenants.length)], ['spans in, a second', rate(all((t) => t.rates.come))],
    ['spans out, a second', rate(all((t) => t.rates.out))],
    ['spans lost, a second', rate(all((t) => t.rates.lost))],
    ['spans held', number(all((t) => t.held))], ['spans lost in all', number(all((t) => t.lost))],
  ];
  at('sums').replaceChildren(...pairs.map((pair) => {
    const made = element('div');
    made.append(element('dt', '', pair[0]), element('dd', '', pair[1]));
    return made;
  }));
}

function showFirst(tenants) {
  const found = [];
  tenants.forEach((tenant) => LOSSES.forEach((word) => {
    const loss = { name: tenant.tenant, word: word, now: tenant.rates.each(word), all: tenant[word] };
    if (loss.all > 0) found.push(loss);
  }));
  found.sort((a, b) => b.now - a.now || b.all - a.all);
  const lines = found.slice(0, 5).map((loss) => {
    const made = element('li');
    const now = loss.now > 0 ? ', now ' + rate(loss.now) + ' a second' : ', none now';
    made.append(element('b', '', loss.name), ' ' + WORDS[loss.word] + ': ' + number(loss.all) + now);
    return made;
  });
  at('first').className = lines.length ? '' : 'none';
  at('first').replaceChildren(...(lines.length ? lines : [element('li', '', 'none so far')]));
}

function ordered(tenants) {
  const ways = {
    loss: (a, b) => b.rates.lost - a.rates.lost || b.lost - a.lost,
    held: (a, b) => b.held - a.held,
    rate: (a, b) => b.rates.come - a.rates.come,
    name: () => 0,
  };
  const way = ways[at('order').value];
  return tenants.slice().sort((a, b) => way(a, b) || (a.tenant < b.tenant ? -1 : 1));
}

function showRows() {
  const wanted = at('find').value.trim().toLowerCase();
  const found = ordered(last.filter((tenant) => tenant.tenant.toLowerCase().includes(wanted)));
  const most = Math.max(1, ...last.map((tenant) => tenant.held));
  const list = at('rows');
  const focused = document.activeElement;
  found.slice(0, shown).forEach((tenant, i) => {
    let made = rows.get(tenant.tenant);
    if (!made) rows.set(tenant.tenant, made = row(tenant.tenant));
    fill(made.now, tenant, most);
    fill(made.became, tenant, tenant.ended);
    made.rates.replaceChildren(rate(tenant.rates.come) + ' in, ' + rate(tenant.rates.out) + ' out, ',
      element(tenant.rates.lost > 0 ? 'b' : 'span', '', rate(tenant.rates.lost) + ' lost'));
    made.full.replaceChildren(...LEVELS.flatMap((it, i) => [i ? ', ' : '', level(it(tenant))]));
    made.cells.forEach((cell, word) => { cell.textContent = number(tenant[word]); });
    if (list.children[i] !== made) list.insertBefore(made, list.children[i] || null);
  });
  while (list.children.length > Math.min(shown, found.length)) list.lastChild.remove();
  if (focused && focused !== document.activeElement && document.contains(focused)) focused.focus();
  at('more').hidden = found.length <= shown;
  const left = found.length - shown;
  at('more').textContent = 'Show ' + number(Math.min(PAGE, left)) + ' more of ' + number(left);
}

function take(tenants) {
  const now = performance.now();
  const seconds = seen ? (now - seen) / 1000 : 0;
  tenants.forEach((tenant) => {
    tenant.rates = rates(tenant, seconds);
    tenant.held = sum(tenant, WHERE);
    tenant.lost = sum(tenant, LOSSES);
    tenant.ended = sum(tenant, ['exported', 'not_sampled']) + tenant.lost;
  });
  before = new Map(tenants.map((tenant) => [tenant.tenant, tenant]));
  rows.forEach((made, name) => { if (!before.has(name)) { made.remove(); rows.delete(name); } });
  seen = now;
  last = tenants;
  showSums(tenants);
  showFirst(tenants);
  showRows();
}

async function ask() {
  try {
    const token = sessionStorage.getItem('token');
    const headers = token ? { Authorization: 'Bearer ' + token } : {};
    const reply = await fetch('tenants', { headers, signal: AbortSignal.timeout(10000) });
    at('pass').hidden = reply.status !== 401;
    if (reply.status === 401) tell('it wants a token', true);
    else if (!reply.ok) tell('it answered ' + reply.status, true);
    else {
      take((await reply.json()).tenants);
      tell('as of ' + new Date().toLocaleTimeString(), false);
    }
  } catch (error) {
    tell('no answer: it may have ended', true);
  }
  setTimeout(ask, 2000);
}

at('keys').append(...WHERE.concat(['exported', 'not_sampled']).map((word) => key(word)));
at('keys').append(key('queue_full', 'lost on the way'), key('invalid', 'left out of posts'));
at('find').addEventListener('input', () => { shown = PAGE; showRows(); });
at('order').addEventListener('change', showRows);
at('more').addEventListener('click', () => { shown += PAGE; showRows(); });
at('tools').addEventListener('submit', (event) => event.preventDefault());
at('token').addEventListener('change', () => sessionStorage.setItem('token', at('token').value));
document.addEventListener('keydown', (event) => {
  if (event.key === '/' && event.target.tagName !== 'INPUT') { event.preventDefault(); at('find').focus(); }
  if (event.key === 'Escape') { at('find').value = ''; showRows(); }
});
ask();
</script>
</body>
</html>
";
