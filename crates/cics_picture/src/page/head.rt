//! What stands before the data of a page.
//!
//! `tools/page/join` writes this file.

/// The head, up to the title: the policy and the style.
pub const HEAD: &str = "\
<!DOCTYPE html>
<html lang=\"en\">
<head>
<meta charset=\"utf-8\">
<meta name=\"viewport\" content=\"width=device-width, initial-scale=1\">
<meta http-equiv=\"Content-Security-Policy\" content=\"default-src 'none'; style-src \
'sha256-mBep1qwvrp10HiVW43+CndMENTcB+aVPItenTDo73+Q='; script-src \
'sha256-StD8hacPmG/4UWHCydnrb9JTnMmM8pYdfL6fv62YsRE='; base-uri 'none'; form-action 'none'\">
<style>
:root{--bg:#fff;--ink:#1b1f24;--dim:#57606a;--rule:#d0d7de;--band:#f3f5f8;--unit:#1565a9;--open:#d\
becfb;--roll:#875400;
--bad:#b3261e;--wait:#6b3fa0;--wake:#116329;--now:#fff6d6}
@media screen and (prefers-color-scheme:dark){:root{--bg:#0d1117;--ink:#e6edf3;--dim:#a2acb6;--rul\
e:#3a424b;--band:#161b22;
--unit:#58a6ff;--open:#12304f;--roll:#e3b341;--bad:#ff7b72;--wait:#c297ff;--wake:#56d364;--now:#3a\
3113}}
*{box-sizing:border-box}
[hidden]{display:none!important}
html{color-scheme:light dark;-webkit-text-size-adjust:100%}
body{margin:0 auto;padding:0 16px 48px;max-width:1000px;background:var(--bg);color:var(--ink);
font:14px/1.45 system-ui,\"Segoe UI\",Helvetica,Arial,\"DejaVu Sans\",sans-serif}
code,samp,pre,.box small,li::before,del,ins,p b,p i,h2{font:12.5px/1.5 \
ui-monospace,SFMono-Regular,Menlo,Consolas,\"DejaVu Sans Mono\",monospace}
code,samp,pre,del,ins,p b,p i{white-space:pre-wrap;overflow-wrap:anywhere}
a{color:var(--unit)}
h1{font-size:18px;line-height:1.3;margin:14px 0 10px}
h2{font-weight:bold;margin:0}
ol{list-style:none;margin:0;padding:0;counter-reset:line}
ol>li{counter-increment:line;position:relative;padding:1px 0 1px \
56px;min-height:21px;break-inside:avoid}
ol>li::before{content:counter(line);position:absolute;left:0;width:42px;text-align:right;color:var\
(--dim)}
code,samp{display:block}
ol>li>code{color:var(--dim)}
ol>li>p{display:none}
ol div{padding-bottom:5px;scroll-margin:30vh 0}
html:not(.js) ol div:target{background:var(--now)}
samp{color:var(--dim)}
.wai samp{color:var(--wait)}.con samp,.ref samp{color:var(--roll)}.end \
samp{color:var(--unit)}.wok samp{color:var(--wake)}
.wok.con samp{color:var(--roll)}.abe samp,.dwn samp,.flt samp{color:var(--bad)}
p{margin:1px 0 1px 22px;font-size:13px}
p b,p i{font-style:normal;font-weight:normal}
del{color:var(--dim)}
ins{text-decoration:none;font-weight:bold}
.ring{color:var(--bad);font-weight:bold}
.bak{color:var(--bad)}
.beg.bak{color:inherit}
.ask{color:var(--wait)}
pre{margin:24px 0 0;padding:14px 0 0 56px;border-top:1px solid var(--rule)}
@page{margin:14mm}

/* with the script: the run at the left, the region at the right */
.js body{max-width:none;padding:0;height:100vh;display:flex;flex-direction:column}
.js h1{margin:10px 16px 0;font-size:16px}
#bar{display:flex;align-items:center;gap:10px;padding:6px 16px;background:var(--bg);border-bottom:\
1px solid var(--rule)}
#bar div{display:flex}
button{font:inherit;color:var(--ink);background:var(--bg);border:1px solid \
var(--rule);height:32px;min-width:36px;padding:0 8px;cursor:pointer}
button+button{border-left:0}
#bar button:first-child{border-radius:6px 0 0 6px}
#bar button:last-child{border-radius:0 6px 6px 0}
button:hover{background:var(--band)}
button:disabled{color:var(--rule);cursor:default}
button svg{display:block;margin:auto;fill:none;stroke:currentColor;stroke-width:1.8}
:focus-visible{outline:2px solid var(--unit);outline-offset:1px;border-radius:6px}
#way{position:relative;flex:1;min-width:80px;height:36px;display:block!important}
#way input{position:absolute;inset:0 0 auto 0;width:100%;margin:0;height:24px;accent-color:var(--u\
nit);cursor:pointer}
#way svg{position:absolute;left:8px;right:8px;bottom:0;width:calc(100% - \
16px);height:12px;overflow:visible}
#way path{fill:none;stroke-width:2;vector-effect:non-scaling-stroke}
.tw{stroke:var(--wait)}.tk{stroke:var(--wake)}.tb{stroke:var(--bad)}
#at{min-width:9ch;font-variant-numeric:tabular-nums;white-space:nowrap;text-align:right}
.js main{display:flex;flex:1;min-height:0}
#look{order:2;flex:1;min-width:0;overflow:auto;padding:12px 16px 32px;border-left:1px solid \
var(--rule)}
#run{order:1;flex:1;min-width:0;overflow:auto;padding:0 0 30vh;position:relative;--p:calc(8px + \
48px/max(4,var(--n)));--lanes:calc(var(--n)*var(--p) + 6px)}
.js ol>li,.js ol div{padding:0}
.js ol div,.js ol>li{position:relative}
.js ol>li::before{left:0;width:36px;z-index:1;padding-top:1px}
.js ol code,.js ol samp{padding-left:calc(48px + var(--lanes));padding-right:8px;white-space:pre;o\
verflow:hidden;text-overflow:ellipsis}
.js ol code{padding-top:1px}
.js ol>li>code{white-space:pre-wrap;max-height:7.5em;overflow:auto}
.js ol samp{padding-bottom:2px}
.js ol p,#run pre{display:none}
.js ol div{cursor:pointer;content-visibility:auto;contain-intrinsic-size:auto 41px}
.js ol div:hover{background:var(--band)}
.js ol .now,.js ol .now:hover{background:var(--now);box-shadow:inset 3px 0 var(--unit)}
.js ol.start code,.js ol .at~li code,.js ol .now~div code{color:var(--dim)}

/* the lanes beside the run */
.lane{position:absolute;left:calc(46px + var(--x)*var(--p) + var(--p)/2)}
i.lane{--b:calc(4px + var(--p)/5);top:0;bottom:0;width:var(--b);margin-left:calc(var(--b)/-2)}
i.lane.com{background:var(--unit)}
i.lane.bak{border:solid var(--bad);border-width:0 2px;background:var(--bg)}
i.lane.opn{background:var(--open);border:dashed var(--unit);border-width:0 1px}
i.lane.top{top:8px}
i.lane.bak.top{border-top-width:2px}
i.lane.end{bottom:calc(100% - 12px)}
i.lane.bak.end{border-bottom-width:2px}
i.lane.to{top:11px;bottom:auto;width:calc(var(--w)*var(--p));margin-left:0;border-top:1.5px \
dashed var(--wait)}
i.lane.to::after{content:'';position:absolute;top:-5px;border:4px solid \
transparent;border-left:7px solid var(--wait);border-right:0;right:5px}
i.lane.to.left::after{right:auto;left:5px;border-left:0;border-right:7px solid var(--wait)}
svg.lane{top:1px;width:20px;height:20px;margin-left:-10px;overflow:visible;fill:var(--ink);stroke:\
var(--bg);stroke-width:1}
svg.lane .att,svg.lane .stay{fill:var(--bg);stroke:var(--ink);stroke-width:2}
svg.lane .con,svg.lane .ref{fill:var(--bg);stroke:var(--roll);stroke-width:2}
svg.lane .abe{fill:var(--bg);stroke:var(--bad);stroke-width:2}
svg.lane .wai{fill:var(--bg);stroke:var(--wait);stroke-width:1.6}
svg.lane .wok{fill:var(--wake)}
svg.lane .end{fill:none;stroke:var(--ink);stroke-width:2}
#heads{position:sticky;top:0;z-index:2;background:var(--bg);height:var(--heads);border-bottom:1px \
solid var(--rule)}
#heads b{position:absolute;bottom:2px;font:bold 11px/1 ui-monospace,SFMono-Regular,Menlo,Consolas,\
\"DejaVu Sans Mono\",monospace;
writing-mode:vertical-rl;transform:translateX(-50%) rotate(180deg)}
#heads.flat b{writing-mode:horizontal-tb;transform:translateX(-50%)}

/* the step and the tasks */
.say{border-left:3px solid var(--unit);background:var(--now);padding:6px 10px;margin:0 0 14px}
.say code,.say samp{font-size:13px}
.say p{margin:2px 0 0}
.say em{font-style:normal;font-size:12px;color:var(--dim)}
.clip{max-height:11em;overflow:auto}

/* files and queues */
#boxes{display:grid;grid-template-columns:repeat(auto-fill,minmax(min(280px,100%),1fr));gap:0 \
12px;align-items:start}
.box{border:1px solid var(--rule);border-radius:6px;margin:0 0 12px;overflow:hidden}
.box h2{background:var(--band);padding:4px 10px;display:flex;flex-wrap:wrap;gap:2px \
12px;align-items:baseline}
.box h2.gone>:first-child{color:var(--dim);text-decoration:line-through}
.box ul{list-style:none;margin:0;padding:0;max-height:27em;overflow:auto}
.box li{display:flex;flex-wrap:wrap;justify-content:space-between;align-items:baseline;gap:0 \
12px;padding:2px 10px}
.box li.new{background:var(--now);box-shadow:inset 3px 0 var(--unit)}
.box li.back{box-shadow:inset 3px 0 var(--wake)}
.box li>div{min-width:0}
.box code,.box small{max-height:7.5em;overflow:auto}
.box small{display:block;color:var(--dim);white-space:pre-wrap;overflow-wrap:anywhere}
.box code.no{text-decoration:line-through}
.box .no,.box .key{color:var(--dim)}
.was{color:var(--dim);font-size:12px;display:flex;flex-wrap:wrap;align-items:baseline;gap:0 6px}
.was del{font-size:12px;max-height:6em;overflow:auto}
.tags{display:flex;flex-wrap:wrap;gap:4px;margin-left:auto}
.tag{font-size:12px;line-height:18px;padding:0 7px;border-radius:9px;border:1px solid \
transparent;white-space:nowrap;color:var(--dim);font-weight:normal}
.tag a{color:inherit}
.tag.past{padding:0}
.tag.mine{background:var(--open);border:1px dashed var(--unit);color:var(--ink)}
.tag.stay{border:1px solid var(--ink);color:var(--ink);border-radius:0}
.tag.hold{border-color:var(--unit);color:var(--ink)}
.tag.wait{border-color:var(--wait);color:var(--wait)}
.tag.back{color:var(--wake);border-color:var(--wake)}
.quiet .still{display:none}
.more{font:inherit;font-size:12px;color:var(--unit);background:none;border:0;height:auto;padding:2\
px 10px 4px;text-align:left;display:block}
dl{margin:0;padding:2px 10px;display:grid;grid-template-columns:max-content 1fr;gap:1px \
12px;align-items:baseline}
dt{font:bold 12.5px/1.6 ui-monospace,SFMono-Regular,Menlo,Consolas,\"DejaVu Sans Mono\",monospace}
dd{margin:0;min-width:0;font-size:13px}
dd.over{color:var(--dim)}
dt.over{font-weight:normal;color:var(--dim)}
dd.wait{color:var(--wait)}
dd small{display:block;font-size:12px;color:var(--dim)}
.dead{color:var(--bad);font-weight:bold;padding:3px 10px;margin:0}
details{font-size:12px;color:var(--dim)}
details dl{grid-template-columns:max-content 1fr;padding:4px 0}
details dd{font-size:12px}
summary{cursor:pointer}

/* a narrow window */
@media (max-width:860px){
.js body,.js main{display:block;height:auto}
#look{border:0;padding:10px 12px 16px;overflow:visible}
#bar{position:fixed;z-index:3;bottom:0;left:0;right:0;border:0;border-top:1px solid \
var(--rule);flex-wrap:wrap;gap:0 10px;padding:6px 12px}
#way{flex:1 0 100%;order:-1}
#bar button{height:38px;min-width:42px}
#at{flex:1}
body{padding:0 12px 32px}
#run{--p:calc(5px + 30px/max(3,var(--n)))}
#heads,#at span{display:none}
.js body{padding:0 0 96px}
#run{border-top:1px solid var(--rule);padding-bottom:24px;overflow:visible}
.box li>div{flex:1 1 auto}
ol>li{padding-left:40px}ol>li::before{width:30px}
pre{padding-left:0}
}

/* paper */
@media print{
html{color-scheme:light}
.js main{display:flex;flex-direction:column}
body,.js body{max-width:none;padding:0;font-size:9pt;display:block;height:auto}
code,samp,pre,li::before,del,ins,p b,p i,h2{font-size:8.5pt}
#bar,details,.more{display:none}
#look{overflow:visible;border:0;border-top:1px solid var(--rule);margin-top:12pt;padding:8pt 0 0}
#run{padding:0;overflow:visible}
.js ol div{content-visibility:visible}
.js ol code,.js ol samp{white-space:pre-wrap;max-height:none!important}
#look::before{content:attr(aria-label);font-weight:bold}
.js ol div>p,#run pre{display:block}
.js ol div>p{margin-left:calc(62px + var(--lanes))}
.js ol .now{background:none}
.js ol code{color:var(--ink)!important}
#heads{display:block;position:relative}
p{font-size:8.5pt}
.quiet .still{display:flex}
.box ul,.box code,.box small,.was del,.clip{max-height:none}
.lane,.tag,.box h2,.say,.box li{print-color-adjust:exact;-webkit-print-color-adjust:exact}
}
</style>
";
