//! Made by tools/page of the files in page/: change those.

/// What stands between the title and the scene of a page: its style, and what its script fills.
pub const LOOKS: &[u8] = b"\
<meta name='viewport' content='width=device-width, initial-scale=1'>
<style>
:root{color-scheme:light dark;--ground:#f4f4f2;--panel:#fff;--ink:#1b1b1b;--soft:#585858;--edge:#c9c9c4;--floor:#fff;--wall:#4a4d52;--net:#e4e4e0;
--good:#00674c;--bad:#b03a00;--mark:#d04a00;--other:#333;--focus:#0060b0;
--c0:#0072b2;--c1:#e69f00;--c2:#009e73;--c3:#cc79a7;--c4:#56b4e9;--t0:#fff;--t1:#000;--t2:#000;--t3:#000;--t4:#000}
@media (prefers-color-scheme:dark){:root{--ground:#14161a;--panel:#1e2126;--ink:#ececec;--soft:#b0b3b8;--edge:#41454c;--floor:#101216;--wall:#5a606a;--net:#1d2026;
--good:#3ddca6;--bad:#ff9a5c;--mark:#ff7a2e;--other:#ddd;--focus:#6cb8ff;
--c0:#3a9ede;--c1:#f0b429;--c2:#1fbf92;--c3:#e09cc2;--c4:#8accf5;--t0:#000}}
*{box-sizing:border-box}
html,body{height:100%;margin:0}
body{display:flex;flex-direction:column;background:var(--ground);color:var(--ink);font:15px/1.4 system-ui,sans-serif}
header{display:flex;flex-wrap:wrap;align-items:baseline;gap:4px 20px;padding:8px 14px}
h1{font-size:19px;margin:0}
h2{font-size:15px;margin:0 0 6px}
p{margin:4px 0}
#about{color:var(--soft)}
#verdict{font-size:18px;font-weight:700}
#verdict.good{color:var(--good)}
#verdict.bad{color:var(--bad)}
main{flex:1;min-height:0;display:grid;grid-template-columns:minmax(0,1fr) 370px;grid-template-rows:minmax(0,1fr) auto;gap:8px;padding:0 10px 10px}
#stage{position:relative;min-height:240px;border:1px solid var(--edge);background:var(--ground);overflow:hidden}
#map{position:absolute;inset:0;width:100%;height:100%;touch-action:none;cursor:grab}
#map.dragged{cursor:grabbing}
#under{position:absolute;left:8px;bottom:6px;margin:0;padding:1px 7px;background:var(--panel);border-radius:4px;pointer-events:none}
#under:empty{display:none}
#zoom{position:absolute;right:8px;top:8px;display:flex;flex-direction:column;gap:4px}
#transport{display:flex;flex-wrap:wrap;align-items:center;gap:6px 12px;background:var(--panel);border:1px solid var(--edge);padding:6px 12px}
#clock{margin:0;white-space:nowrap;color:var(--soft)}
#time{display:inline-block;min-width:2ch;font-size:34px;line-height:1;font-weight:700;color:var(--ink);font-variant-numeric:tabular-nums;text-align:right}
#slider{flex:1 1 180px;min-width:120px;accent-color:var(--focus)}
aside{grid-column:2;grid-row:1/3;overflow-y:auto;display:flex;flex-direction:column;gap:8px}
aside>*{background:var(--panel);border:1px solid var(--edge);padding:8px 12px}
button,select,input{font:inherit;color:inherit}
button,select,input[type=number]{background:var(--ground);border:1px solid var(--edge);border-radius:4px;padding:3px 9px;min-height:30px}
button{cursor:pointer}
input[type=number]{width:92px}
:focus-visible{outline:3px solid var(--focus);outline-offset:1px}
#map:focus-visible{outline-offset:-3px}
table{border-collapse:collapse;width:100%;font-variant-numeric:tabular-nums}
th{text-align:left;font-weight:400;color:var(--soft)}
td{text-align:right;font-weight:600}
fieldset{border:1px solid var(--edge);margin:8px 0 4px;padding:2px 8px;display:grid;grid-template-columns:1fr 1fr}
legend{color:var(--soft);padding:0 4px}
fieldset label{display:flex;gap:5px;align-items:center;white-space:nowrap}
fieldset b{margin-left:auto;padding-right:10px;font-variant-numeric:tabular-nums}
.counts{color:var(--bad)}
#listed,#lit-count{font-weight:400;color:var(--soft)}
#found{flex:1 0 190px;display:flex;flex-direction:column}
#list{flex:1 1 110px;min-height:110px;overflow-y:auto;border:1px solid var(--edge);position:relative;font-size:14px;font-variant-numeric:tabular-nums}
#rows{position:relative}
.row{position:absolute;left:0;right:0;height:26px;line-height:26px;padding:0 8px;white-space:nowrap;overflow:hidden;text-overflow:ellipsis;cursor:pointer}
.row.now{font-weight:700;color:var(--mark)}
.row.chosen{background:var(--focus);color:var(--panel)}
.row i{font-style:normal;display:inline-block;min-width:64px}
#lit{margin:0;padding:0;list-style:none;font-size:14px;max-height:96px;overflow-y:auto;color:var(--mark)}
#picked{min-height:20px;white-space:pre-line}
#chosen:empty{display:none}
dl{display:grid;grid-template-columns:auto 1fr;gap:2px 12px;margin:6px 0;font-size:14px}
dt{font-weight:600}
dd{margin:0}
@media (max-width:820px){html,body{height:auto}main{display:flex;flex-direction:column}#stage{height:60vh}#list{height:250px;flex:none}}
</style>
</head>
<body>
<header>
<h1 id='title'></h1>
<p id='about'></p>
<p id='verdict' role='status'></p>
</header>
<main>
<section id='stage' aria-label='Map'>
<canvas id='map' tabindex='0' role='img' aria-label='Map with its agents'></canvas>
<p id='under' aria-live='off'></p>
<div id='zoom' role='group' aria-label='Zoom'>
<button type='button' id='closer' aria-label='Zoom in' title='Zoom in (+)'>+</button>
<button type='button' id='wider' aria-label='Zoom out' title='Zoom out (-)'>&minus;</button>
<button type='button' id='fit' aria-label='Fit the map' title='Fit the map (0)'>fit</button>
</div>
</section>
<section id='transport' aria-label='Time'>
<p id='clock'><span>time</span> <output id='time' for='slider'>0</output> <span id='horizon'></span></p>
<div role='group' aria-label='Play'>
<button type='button' id='first' aria-label='To the start' title='To the start (Home)'>&#124;&#9664;</button>
<button type='button' id='back' aria-label='A step back' title='A step back (left arrow)'>&#9664;</button>
<button type='button' id='play' aria-label='Play' aria-pressed='false' title='Play or pause (space)'>&#9654; play</button>
<button type='button' id='forth' aria-label='A step forth' title='A step forth (right arrow)'>&#9654;</button>
<button type='button' id='last' aria-label='To the end' title='To the end (End)'>&#9654;&#124;</button>
</div>
<input type='range' id='slider' min='0' max='0' value='0' step='1' aria-label='Time in steps'>
<label>speed <select id='speed'>
<option value='1'>1 a second</option><option value='2'>2</option><option value='4' selected>4</option><option value='8'>8</option>
<option value='16'>16</option><option value='40'>40</option><option value='100'>100</option><option value='400'>400</option>
</select></label>
<label><input type='checkbox' id='loop'> loop</label>
</section>
<aside>
<section aria-labelledby='counts-title'>
<h2 id='counts-title'>Report</h2>
<table id='costs'><tbody></tbody></table>
<fieldset id='kinds'><legend>Shown</legend></fieldset>
<label><input type='checkbox' id='paths'> paths of all agents</label>
</section>
<section aria-labelledby='agent-title'>
<h2 id='agent-title'>Agent</h2>
<p><label>number <input type='number' id='agent' min='0' step='1' inputmode='numeric'></label>
<button type='button' id='nobody'>all agents</button></p>
<p id='picked' role='status'></p>
</section>
<section id='found' aria-labelledby='list-title'>
<h2 id='list-title'>Found <span id='listed'></span></h2>
<p><label>from time <input type='number' id='from' min='0' step='1'></label>
<label>to <input type='number' id='to' min='0' step='1'></label></p>
<div id='list' role='listbox' tabindex='0' aria-labelledby='list-title'><div id='rows'></div></div>
<p id='chosen' role='status'></p>
</section>
<section aria-labelledby='lit-title'>
<h2 id='lit-title'>At this time <span id='lit-count'></span></h2>
<ul id='lit'></ul>
</section>
<details>
<summary>Keys</summary>
<dl>
<dt>space</dt><dd>play or pause</dd>
<dt>left, right</dt><dd>a step back or forth</dd>
<dt>home, end</dt><dd>the start, the end</dd>
<dt>n, p</dt><dd>the next or previous line of the list</dd>
<dt>+, -, 0</dt><dd>zoom in, out, fit</dd>
<dt>shift and arrows</dt><dd>move the map</dd>
<dt>l</dt><dd>loop</dd>
<dt>escape</dt><dd>all agents, no line marked</dd>
</dl>
</details>
</aside>
</main>
<noscript><p>This page needs JavaScript to show what stands in it as text.</p></noscript>
";
