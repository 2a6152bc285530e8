/// How the page looks: light or dark as its reader's machine has it, on A4, and 360 pixels wide. Signs of markup stand nowhere in
/// it.
pub(crate) fn style() -> &'static str {
    "\
:root{color-scheme:light dark;--ground:#fff;--text:#1c2430;--quiet:#556070;--line:#d5dbe3;--even:#f6f8fa;--held:#cfd8e6;--onheld:#26344a;\
--fine:#dff2e2;--onfine:#14552a;--codes:#fff3c4;--oncodes:#4a3a00;--protect:#2f66b5;--onprotect:#fff;--mil:#ff8a3c;--onmil:#2b1300;\
--amber:#ffb300;--onamber:#2e2100;--red:#c4241a;--onred:#fff;--changing:#b9bec8;--onchanging:#1c2430;--gap:#d9d4e6;--ongap:#33295a;--hatch:#a79dc2;--moved:#dfe3ff;--onmoved:#2b2f86;--shade:#0007;--doubt:#8c1d0d}\n\
@media screen and (prefers-color-scheme:dark){:root{--ground:#12161c;--text:#e6eaf0;--quiet:#a5b0bf;--line:#333d4a;--even:#1a2028;--held:#33435a;--onheld:#dfe8f5;\
--fine:#1d4429;--onfine:#c9f2d3;--codes:#54481a;--oncodes:#fff0b8;--changing:#59616e;--onchanging:#f0f2f5;--gap:#3a3352;--ongap:#e2dbf7;--hatch:#6a5f8c;--moved:#2d3268;--onmoved:#dfe3ff;--shade:#fff8;--doubt:#ffab9c}}\n\
*{box-sizing:border-box}body{font:16px/1.45 system-ui,'DejaVu Sans',sans-serif;margin:0;color:var(--text);background:var(--ground)}\
main{max-width:1180px;margin:0 auto;padding:16px}h1{font-size:1.4em;margin:0 0 4px}h2{font-size:1.1em;margin:24px 0 8px}h3{font-size:.95em;margin:10px 0 2px}\
p{margin:4px 0}.text{unicode-bidi:isolate;overflow-wrap:anywhere}.quiet,.past{color:var(--quiet)}.past,.quiet,.doubt,.silent{font-size:.85em}.doubt,.silent{color:var(--doubt)}\
ul.since{list-style:none;margin:0;padding:0}ul.since li{margin:2px 0}.chip{display:inline-block;min-width:76px;padding:1px 8px;border-radius:10px;font-size:.85em;font-weight:600;text-align:center}\
.vin{font-size:1.05em}table.values td:first-child{min-width:11em}.then{font-size:.85em;margin:0 0 4px 12px}.curve{display:block;max-width:100%}.curve polyline{fill:none;stroke:var(--protect);stroke-width:1.5}\
.name{font:12px monospace;color:var(--quiet);font-weight:400}.name.text{padding-left:1em;text-indent:-1em}.num{text-align:right;font-variant-numeric:tabular-nums;white-space:nowrap}\n\
ul.chips{list-style:none;margin:0;padding:0}ul.chips li{display:inline-block;padding:4px 12px;border-radius:14px;margin:0 8px 8px 0;font-weight:600}\
.bad,.red{background:var(--red);color:var(--onred);fill:var(--red)}.good,.fine{background:var(--fine);color:var(--onfine);fill:var(--fine)}\
.amber{background:var(--amber);color:var(--onamber);fill:var(--amber)}.mil{background:var(--mil);color:var(--onmil);fill:var(--mil)}\
.protect{background:var(--protect);color:var(--onprotect);fill:var(--protect)}.codes{background:var(--codes);color:var(--oncodes);fill:var(--codes)}\
.held{background:var(--held);color:var(--onheld);fill:var(--held)}.changing{background:var(--changing);color:var(--onchanging);fill:var(--changing)}\
.gap{background:var(--gap);color:var(--ongap)}.moved{background:var(--moved);color:var(--onmoved)}\
td span.fine{background:none;color:inherit}.lamp{display:inline-block;font-size:12px;font-weight:700;padding:2px 7px;border-radius:3px;margin:1px 4px 1px 0}\n\
table{border-collapse:collapse;width:100%}th{text-align:left;font-size:.8em;color:var(--quiet);border-bottom:2px solid var(--line);padding:4px 8px}th.num{text-align:right}\
td{border-bottom:1px solid var(--line);padding:6px 8px;vertical-align:top}tr.gone,tr.gone td{background:var(--even);color:var(--quiet)}details{margin-top:20px}summary{cursor:pointer;font-weight:600}\
details td,details th{font-size:.85em;padding:3px 8px}.handed{margin:0;padding-left:24px}.note{font-size:.85em;color:var(--quiet);margin-top:16px}\n\
svg.defs{position:absolute}svg.lane{display:block;background:var(--even);border:1px solid var(--line);border-radius:3px}svg.axis{display:block;overflow:visible}\
svg text{font:11px system-ui,'DejaVu Sans',sans-serif;fill:var(--text)}text.mark{text-anchor:middle;fill:var(--quiet)}text.left{text-anchor:start}text.right{text-anchor:end}line.mark{stroke:var(--line)}\
.held~text{fill:var(--onheld)}.fine~text{fill:var(--onfine)}.codes~text{fill:var(--oncodes)}.protect~text{fill:var(--onprotect)}.mil~text{fill:var(--onmil)}.amber~text{fill:var(--onamber)}\
.red~text{fill:var(--onred)}.changing~text{fill:var(--onchanging)}rect.doubt{fill:url(#doubt)}rect.many{fill:url(#many)}text.wide,text.middle{display:none}rect.gap{fill:url(#gap)}.ground{fill:var(--gap)}.hatch{fill:var(--hatch)}.shade{fill:var(--shade)}\
rect.doubt~text,rect.many~text{fill:var(--text);paint-order:stroke;stroke:var(--ground);stroke-width:3px}\n\
ul.key{list-style:none;margin:8px 0;padding:0;font-size:.8em;color:var(--quiet)}ul.key li{display:inline-block;margin-right:14px}.k{display:inline-block;width:22px;height:12px;border:1px solid var(--line);margin-right:5px;vertical-align:-1px}\
.gapped{background:repeating-linear-gradient(45deg,var(--gap) 0 3px,var(--hatch) 3px 6px)}.striped{background:repeating-linear-gradient(90deg,var(--red) 0 4px,var(--shade) 4px 5px)}.doubted{background:repeating-linear-gradient(45deg,transparent 0 3px,var(--shade) 3px 5px)}\n\
@media (max-width:640px){text.odd{display:none}main{padding:10px}table,thead,tbody,tr,td{display:block}thead{position:absolute;left:-9999px}tr{border-bottom:2px solid var(--line);padding:6px 0}\
td{border:0;padding:2px 0}td:empty{display:none}td.num{text-align:left}td.num[data-l^=DM]{display:inline-block;margin-right:14px}td[data-l]::before{content:attr(data-l) ': ';color:var(--quiet);font-size:.85em}}\n\
@media (min-width:800px) and (max-width:1179px){text.middle{display:inline}text.narrow{display:none}}@media (min-width:1180px){text.wide{display:inline}text.narrow{display:none}}\n\
@media (min-width:641px){td[data-l^=Faults],td[data-l^=Ever]{width:28%}}@page{size:A4;margin:12mm}\n\
@media print{:root{color-scheme:light}body{font-size:10pt}td,th{padding:3px 5px}td[data-l^=Ever]{width:36%}td[data-l^=Faults]{width:20%}.curve{min-width:28mm}\
table.values td{padding:2px 5px}table.values td:first-child{min-width:35mm}table.values td:nth-child(2){min-width:26mm}table.values .num{white-space:normal}\
*{print-color-adjust:exact;-webkit-print-color-adjust:exact}details{display:none}tr,h3{break-inside:avoid}h2,h3{break-after:avoid}}\n"
}
