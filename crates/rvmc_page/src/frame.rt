//! What is the same in every page: all but the picture, the data and the script.

/// Before the picture: that a browser fetches nothing for the page, and runs the one script with this hash, which
/// `tests/checks/page --write` puts here (W3C, Content Security Policy 3); and styles, in light and dark, and narrow. The
/// steps' numbers have a margin of their own, `--gutter`, which nothing beside the first lane covers.
pub(crate) const HEAD: &str = "\
<!doctype html>
<html lang=en>
<meta charset=utf-8>
<meta name=viewport content='width=device-width'>
<meta http-equiv=Content-Security-Policy content=\"default-src 'none'; style-src 'unsafe-inline';
 script-src 'sha256-kWLVOJYKeZbdOL5CORqfG6z82SFqr+5klWv1gGAo9os='\">
<title>rvmc: a record</title>
<style>
:root{color-scheme:light dark;font:13px system-ui,sans-serif;--ink:#1c1c1c;--dim:#666;--paper:#fff;--rule:#ccc;
--fresh:#a52312;--present:#ffe9a8;--r0:#0072b2;--r1:#b34e00;--r2:#007a58;--r3:#a6518a;--r4:#8a6d00;--r5:#2b76a5;--r6:#7a4a00;
--r7:#555}
:root.big{font-size:18px;--ink:#000;--dim:#000;--rule:#000;--fresh:#b00000;--present:#ffe14d}
@media (prefers-color-scheme:dark){:root{--ink:#e8e8e8;--dim:#a6a6a6;--paper:#16181b;--rule:#444;
--fresh:#ff9c8a;--present:#4a4013;--r0:#56b4e9;--r1:#ff8a3d;--r2:#2fd6a3;--r3:#e59ccb;--r4:#f0e442;--r5:#9fd3ff;--r6:#d9a066;
--r7:#bbb}
:root.big{--ink:#fff;--dim:#fff;--paper:#000;--rule:#fff;--fresh:#ffb3a6;--present:#665500}}
body{margin:0;display:grid;height:100vh;height:100dvh;background:var(--paper);color:var(--ink);
grid-template:'picture machine' minmax(0,1fr)/minmax(0,1fr) min(36.2rem,50vw)}
body.sourced{grid-template:'picture machine' minmax(0,1fr) 'source machine' minmax(0,1fr)/minmax(0,1fr) min(36.2rem,50vw)}
@media (min-width:2300px){:root:not(.big) body.sourced{
grid-template:'picture source machine' minmax(0,1fr)/minmax(0,1fr) minmax(0,1fr) 36.2rem}}
#page-picture{grid-area:picture;overflow:auto;position:relative;scroll-padding:70px 0 40px;
--column:calc(6.4px*var(--digits) + 5px);--gutter:calc(2*var(--column))}
#page-picture.narrow{--gutter:max(0px,8px*(var(--digits) - 4))}
#page-picture>svg,#page-lanes>svg{display:block;overflow:visible;margin-left:var(--gutter);max-width:calc(100% - var(--gutter))}
#page-picture>svg>text[x='3']{transform:translateX(calc(-1*var(--gutter)))}
#page-picture>svg>text[x='36']{transform:translateX(calc(var(--column) - var(--gutter) - 33px))}
#page-picture.narrow>svg,.narrow>#page-lanes>svg{min-width:0!important}
.narrow svg .wide{display:none}
#page-picture g[id^=step],#page-picture g:has(>.page-way){cursor:pointer}
#page-picture p{padding:12px;max-width:40em}
#page-lanes{position:sticky;top:0;height:44px;margin-bottom:-44px;z-index:1;background:var(--paper)}
#page-line{position:absolute;left:0;right:0;height:0;border-top:2px dotted #c62f1b;pointer-events:none}
.page-at use{stroke:#c62f1b;stroke-width:2.5px}
.page-way{stroke:transparent;stroke-width:12px;fill:none}
.big #page-picture{scroll-padding:105px 0 60px;--column:calc(7.7px*var(--digits) + 5px)}
.big #page-picture.narrow{--gutter:max(0px,8px*(var(--digits) - 2))}
.big #page-picture>svg,.big #page-lanes>svg{zoom:1.5;background:var(--paper)}
.big svg text{font-size:12px}
.big svg .dim,.big svg .ink{fill:var(--ink)}
#page-picture .again{display:none}
.big svg .lane{stroke:var(--ink)}
.big svg .a{stroke-width:2.5}
.big #page-lanes{height:66px;margin-bottom:-66px}
#page-source{grid-area:source;display:none;grid-template-rows:auto minmax(0,1fr);border-top:1px solid var(--rule);
border-left:1px solid var(--rule)}
.sourced #page-source{display:grid}
#page-source>div:first-child{padding:4px 8px;border-bottom:1px solid var(--rule)}
#page-text{overflow:auto;cursor:pointer;scroll-padding:1.4em 0}
#page-text div{min-width:max-content;padding-right:8px}
#page-text .at{display:inline-block;min-width:4.6em;text-align:right;padding-left:2px}
#page-text .at b{display:inline-block;min-width:1.1em;text-align:center;margin-left:1px;color:var(--paper);border-radius:2px}
#page-text .number{color:var(--dim);padding:0 3px}
#page-text .stop .number{background:#c62f1b;color:#fff}
#page-text .done{color:var(--fresh)}
.r0{background:var(--r0)}.r1{background:var(--r1)}.r2{background:var(--r2)}.r3{background:var(--r3)}
.r4{background:var(--r4)}.r5{background:var(--r5)}.r6{background:var(--r6)}.r7{background:var(--r7)}
#page-machine{grid-area:machine;overflow:auto;padding:0 12px 12px;border-left:1px solid var(--rule);scroll-padding-top:9rem}
#page-bar{position:sticky;top:0;z-index:1;padding:6px 0;background:var(--paper);border-bottom:1px solid var(--rule);
display:flex;flex-direction:column}
#page-walk{display:contents}
#page-bar .row{display:flex;flex-wrap:wrap;gap:3px 4px;align-items:center;margin-bottom:3px}
#page-said{display:block;min-height:1.3em;color:var(--fresh);order:1}
#page-search{flex:1;min-width:11em;box-sizing:border-box}
#page-machine h2{font-size:.92rem;margin:10px 0 2px;color:var(--dim)}
#page-machine h3{font-size:.85rem;margin:4px 0 0;color:var(--dim);font-weight:400}
#page-machine pre{margin:0;white-space:pre-wrap;overflow-wrap:anywhere}
.page-code,#page-machine pre{font:.92rem/1.35 ui-monospace,monospace}
.page-code{white-space:pre;overflow-x:auto}
#page-told-step div{overflow-wrap:anywhere;white-space:pre-wrap}
#page-harts,#page-ways-now,#page-step-ways,#page-outputs,#page-calls{max-height:16em;overflow:auto}
#page-harts button,#page-calls>*{display:block;width:100%;text-align:left;border:0;padding:1px 4px;background:none;color:inherit;
font:inherit;cursor:pointer;box-sizing:border-box}
#page-harts .chosen{background:var(--present)}
#page-harts .fresh{color:var(--fresh)}
.page-rows>div{display:grid;grid-template-columns:minmax(5em,11em) minmax(0,1fr) auto auto auto;gap:2px;align-items:baseline}
.page-rows span,.value{overflow-wrap:anywhere;font:.92rem/1.35 ui-monospace,monospace}
.value{padding-left:1.5em}
.link{border:0;padding:0;background:none;color:inherit;font:inherit;text-align:left;text-decoration:underline;cursor:pointer;
text-underline-offset:2px;text-decoration-color:var(--dim);overflow-wrap:anywhere}
.fresh{color:var(--fresh);font-weight:700}
.present{background:var(--present)}
.name{color:var(--dim)}
.stuck{color:var(--fresh)}
#page-registers{display:grid;grid-template-columns:1fr 1fr}
#page-registers i{color:var(--dim);font-style:normal}
#page-registers b{font-weight:400}
input,select{font:inherit;font-weight:400}
::placeholder{color:var(--dim);opacity:1}
.page-rows select{width:5.5em}
input[type=number]{width:5.5em}
#page-address{width:11em}
button{font:inherit}
#page-bar button{padding:1px 4px;font-size:.92rem}
@media (max-width:900px){body{grid-template:'picture' 42% 'machine' minmax(0,1fr)/minmax(0,1fr)}
body.sourced{grid-template:'picture' 30% 'source' 22% 'machine' minmax(0,1fr)/minmax(0,1fr)}
#page-machine{border-left:0;border-top:2px solid var(--rule);padding:0 6px 6px;scroll-padding-top:3.5rem}
#page-bar{display:contents}
#page-walk{display:block;position:sticky;top:0;z-index:1;background:var(--paper);border-bottom:1px solid var(--rule);
padding-top:3px}
#page-walk button{flex:auto;padding:3px 0;white-space:nowrap}
#page-said{min-height:0}}
@media (max-width:460px){.page-code,#page-machine pre{font-size:.85rem}#page-bar button{font-size:.85rem}
#page-bar .row{gap:3px 2px}.big #page-walk .row{display:grid;grid-template-columns:repeat(4,1fr)}
#page-registers,#page-memory{font-size:.77rem}#page-registers b+i{display:none}}
</style>
<div id=page-picture>
<div id=page-lanes></div>
<div id=page-line></div>
";

/// In the place of a picture.
pub(crate) const NO_PICTURE: &str = "\
<p>These steps have more marks than a picture may have, which is 5,000; so there is none, and what is on its way and who
waits for whom isn't told. A page of fewer steps has a picture: rvmc page --from N --to N.</p>
";

/// Between the picture and the data: the elements that the script fills.
pub(crate) const BODY: &str = "\
</div>
<section id=page-source>
<div><select id=page-file title='the source in view'></select>
<button id=page-last-stop title='to the previous breakpoint (C)'>&lt; breakpoint</button>
<button id=page-next-stop title='to the next breakpoint (c); a click on a line sets one'>breakpoint &gt;</button></div>
<div id=page-text class=page-code></div>
</section>
<main id=page-machine>
<div id=page-bar>
<div id=page-walk>
<div class=row>
<button id=page-home title='to the start (Home)'>start</button>
<button id=page-last-mark title='to the previous mark (Shift and left)'>&lt; mark</button>
<button id=page-last-line title='to the previous line (p)'>&lt; line</button>
<button id=page-back title='one step back (left)'>&lt; step</button>
<button id=page-step title='one step (right)'>step &gt;</button>
<button id=page-next-line title='to the next line (n)'>line &gt;</button>
<button id=page-next-mark title='to the next mark (Shift and right)'>mark &gt;</button>
<button id=page-end title='to the end (End)'>end</button>
</div>
<output id=page-said></output>
</div>
<div class=row>
<label>steps done <input id=page-place type=number></label> <span id=page-range></span>
<button id=page-play title='play, or pause (space)'>play</button>
<select id=page-unit title='what is played'><option>marks<option>lines<option>steps</select>
<select id=page-speed title='how many a second'><option value=1>1/s<option value=3 selected>3/s<option value=10>10/s<option
 value=30>30/s</select>
</div>
<div class=row>
<input id=page-search list=page-search-known placeholder='line, name, tag 1 (/)'
 title='search: a line, as 24, a function, an address, a tag, as tag 1, or a word of a mark'>
<datalist id=page-search-known></datalist>
<button id=page-last-hit title='the previous one (Shift and Enter)'>&lt;</button>
<button id=page-next-hit title='the next one (Enter)'>&gt;</button>
<label title='lines, breakpoints and searches of the rank in view alone'><input id=page-only type=checkbox>this rank</label>
<button id=page-other-end title='to the other end of the message that this step sent or received (m)'>message</button>
<button id=page-enlarge title='large letters, high contrast (+)'>projector</button>
</div>
</div>
<div id=page-told-step></div>
<div id=page-step-ways-head hidden><h2>got by this step</h2></div><div id=page-step-ways></div>
<h2>harts</h2><div id=page-harts></div>
<h2>on the way, as <select id=page-message-kind></select></h2><div id=page-ways-now></div>
<h2>output so far</h2><div id=page-outputs></div>
<h2>calls of <span id=page-whose></span></h2><div id=page-calls></div>
<h2>values of <span id=page-whose-values></span> <input id=page-watch list=page-watch-known
 placeholder='watch a name (w)' title='a name, an address, or an address and a size, as 0x8470,8'></h2>
<datalist id=page-watch-known></datalist>
<div id=page-watches class=page-rows></div><div id=page-values class=page-rows></div>
<details id=page-others><summary>other names</summary><div id=page-other-values class=page-rows></div></details>
<h2><label>memory of the rank at <input id=page-address value=0x0 list=page-names-known></label>
<datalist id=page-names-known></datalist></h2><div id=page-memory class=page-code></div>
<h2>registers</h2><div id=page-registers class=page-code></div>
<h2>program</h2><div id=page-program-lines class=page-code></div>
<h2>at the end</h2><div id=page-end-lines></div>
<h2><label>sources from the disk <input id=page-open type=file multiple></label></h2>
</main>
";

/// Behind the script.
pub(crate) const FOOT: &str = "\
</script>
</html>
";
