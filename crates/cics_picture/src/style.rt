//! How a picture is painted, on light and on dark screens. Paper is always light.

/// The style sheet.
pub const STYLE: &str = "\n\
text{font:12px ui-monospace,SFMono-Regular,Menlo,Consolas,DejaVu Sans Mono,\
monospace;white-space:pre}\n\
text.h1,text.s{font-family:system-ui,Segoe UI,Helvetica,Arial,DejaVu Sans,sans-serif}\
text.h1{font-size:16px}\n\
.b,.h1{font-weight:bold}.e{text-anchor:end}.m{text-anchor:middle}.life{stroke-dasharray:2 3}\n\
.aw{stroke-width:1.6;stroke-dasharray:4 3}.ma,.mr,.mc,.mf,.uh,.uo,.dl,.st,.un{stroke-width:2}\
.clk{stroke-width:1.4}.dwn{stroke-width:3}.uo,.un{stroke-dasharray:3 2}.dl,.st,.un{fill:none}\n\
text,.mk{fill:#1b1f24}.paper,path.mr,path.mc,path.ma,path.mw,path.mf,.uh{fill:#ffffff}\
.band{fill:#f3f5f8}.uf{fill:#1565a9}.uo{fill:#bcdcf7}\n\
text.d,text.mr,text.mk{fill:#57606a}text.mc{fill:#875400}text.ma{fill:#b3261e}\
text.mw,.fw{fill:#6b3fa0}.mg{fill:#116329}text.dwn{fill:#b3261e}\n\
text.mf{fill:#1565a9}.life,line.clk,path.clk{stroke:#57606a}\
line.dwn,path.dwn,.uh,.dl{stroke:#b3261e}path.mr,path.mf,.st{stroke:#1b1f24}\
path.mc,.un{stroke:#875400}path.ma{stroke:#b3261e}path.mw,.aw{stroke:#6b3fa0}\
.uo{stroke:#1565a9}path.mk,path.mg{stroke:#ffffff}\n\
@page{size:A3 landscape;margin:10mm}\n\
@media screen and (prefers-color-scheme:dark){\n\
text,.mk{fill:#e6edf3}.paper,path.mr,path.mc,path.ma,path.mw,path.mf,.uh{fill:#0d1117}\
.band{fill:#161b22}.uf{fill:#58a6ff}.uo{fill:#163e63}\n\
text.d,text.mr,text.mk{fill:#a2acb6}text.mc{fill:#e3b341}text.ma{fill:#ff7b72}\
text.mw,.fw{fill:#c297ff}.mg{fill:#56d364}text.dwn{fill:#ff7b72}\n\
text.mf{fill:#58a6ff}.life,line.clk,path.clk{stroke:#a2acb6}\
line.dwn,path.dwn,.uh,.dl{stroke:#ff7b72}path.mr,path.mf,.st{stroke:#e6edf3}\
path.mc,.un{stroke:#e3b341}path.ma{stroke:#ff7b72}path.mw,.aw{stroke:#c297ff}\
.uo{stroke:#58a6ff}path.mk,path.mg{stroke:#0d1117}\n\
}\n\
";

/// The namespace of the elements.
pub const NAMESPACE: &str = "http://www.w3.org/2000/svg";
