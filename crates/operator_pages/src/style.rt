//! The style of the page.

/// The rest of the head, which is the style, and the beginning of the body.
///
/// Light or dark by the browser's setting, for a narrow window too; it names no file.
pub(crate) const STYLE: &str = "<style>
:root{color-scheme:light dark;--ink:#1c2430;--soft:#5c6673;--line:#dfe3e8;--paper:#fff;--back:#f5f6f8;--bar:#3f6fb5;--rest:#e4e8ee;--warn:#9a4a12}
@media(prefers-color-scheme:dark){:root{--ink:#dde3ea;--soft:#98a3b0;--line:#2c343e;--paper:#1a2028;--back:#12171d;--bar:#6d9be0;--rest:#2a323c;--warn:#e0a06a}}
*{box-sizing:border-box}
body{margin:0 auto;max-width:64rem;padding:2rem 1rem 4rem;background:var(--back);color:var(--ink);font:1rem/1.5 system-ui,sans-serif}
header{display:flex;flex-wrap:wrap;align-items:baseline;justify-content:space-between;gap:0 1rem;margin:0 .25rem 1.25rem}
h1{margin:0;font-size:1.6rem;font-weight:600}
header p{margin:0;color:var(--soft)}
section{margin:0 0 1.25rem;padding:1rem 1.25rem 1.25rem;background:var(--paper);border:1px solid var(--line);border-radius:.6rem}
h2{margin:0 0 .5rem;font-size:1.1rem;font-weight:600;overflow-wrap:anywhere}
.wide{overflow-x:auto}
table{width:100%;border-collapse:collapse;font-variant-numeric:tabular-nums}
th,td{padding:.4rem 1rem .4rem 0;text-align:left;vertical-align:baseline;border-top:1px solid var(--line)}
thead th,thead td{border-top:0;color:var(--soft);font-size:.85rem;font-weight:500;white-space:nowrap}
tbody th{font-weight:500}
td,th{overflow-wrap:anywhere}
.number{text-align:right;white-space:nowrap}
.number:last-child{padding-right:0}
.calls{width:auto}
.calls th::first-letter{text-transform:uppercase}
.share{white-space:nowrap}
.bar{display:inline-block;width:6rem;height:.5rem;margin-right:.6rem;border-radius:.25rem;background:var(--rest);overflow:hidden}
.bar span{display:block;height:100%;background:var(--bar)}
.tag{display:inline-block;margin:0 .3rem 0 0;padding:0 .5rem;border:1px solid var(--line);border-radius:1rem;color:var(--soft);font-size:.8rem;white-space:nowrap}
.withdrawn{border-color:currentColor;color:var(--warn)}
details{margin-top:1rem}
summary{cursor:pointer;color:var(--soft);font-size:.9rem}
.note{margin:.75rem 0 0;color:var(--soft);font-size:.9rem}
code{font:.95em ui-monospace,monospace}
.stuck{margin-top:1rem}
.stuck tbody th{color:var(--warn)}
.publishes{width:auto}
svg{display:block;margin:-1.75rem 0 0 -1.25rem}
svg .back,svg .name{fill:none}
svg .withdrawn .mark{fill:var(--paper)}
svg .bytes{stroke:var(--paper)}
@media(max-width:36rem){
body{padding:1rem .5rem 3rem}
section{padding:.75rem}
table{width:100%}
thead{display:none}
tbody tr{display:flex;flex-wrap:wrap;align-items:baseline;gap:.1rem .9rem;padding:.5rem 0;border-top:1px solid var(--line)}
tbody th{flex-basis:100%}
th,td{padding:0;border:0}
td:empty{display:none}
.number{text-align:left}
.cohorts td:nth-child(2)::before{content:\"target \"}
.cohorts td:nth-child(4)::before{content:\"held at \"}
.releases td:nth-child(3)::after{content:\" bytes\"}
.mirrors td:nth-child(2){flex-basis:100%}
.mirrors td:nth-child(4)::before{content:\"granted \"}
.mirrors td:nth-child(5)::before{content:\"of \"}
.calls th{flex:0 0 7rem}
.publishes th::before{content:\"edition \"}
.publishes td:nth-child(2)::after{content:\" seconds since 1970\"}
.publishes td:nth-child(3)::after{content:\" edits\"}
}
</style>
</head>
<body>
";
