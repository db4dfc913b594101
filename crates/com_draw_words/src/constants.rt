//! The constant texts of the page: its head with the style sheet, the key, and its tail.
//! They stand here as they stand in the page, line by line.

/// The document's type, its title, and the start of its style sheet.
pub const HEAD_FRONT: &[u8] = br#"<!DOCTYPE html>
<html xmlns="http://www.w3.org/1999/xhtml" lang="en">
<head>
<meta charset="utf-8"/>
<meta name="viewport" content="width=device-width"/>
<meta name="color-scheme" content="light dark"/>
<title>A history of COM calls</title>
<style>
"#;

/// The colours, of light and of dark, with a hue for each apartment.
pub const COLOURS: &[u8] =
    br#":root{--bg:#fff;--ink:#1b2230;--dim:#5d6675;--line:#d4d9e1;--bad:#c2141b;--n:14px;--r:22px;--s:min(37em,44vw)}
.k0{--c:#8a6d00;--f:#faf3c8}.k1{--c:#b45f06;--f:#fdeedb}.k2{--c:#0b7a75;--f:#d9f1ef}
.k3{--c:#1f5fd0;--f:#e0eafc}.k4{--c:#7a3fb8;--f:#f0e6fa}.k5{--c:#2f7d32;--f:#e2f2e2}
.k6{--c:#b0306f;--f:#fae3ee}.k7{--c:#7a4a2b;--f:#f3e6dc}.k8{--c:#2b6f8f;--f:#dceff6}.k9{--c:#5d6675;--f:#e9ecf1}
@media (prefers-color-scheme:dark){
:root{--bg:#14171c;--ink:#e7eaf0;--dim:#9aa3b2;--line:#353b46;--bad:#ff6b6b}
.k0{--c:#e3c94a;--f:#37300c}.k1{--c:#f0a04b;--f:#3a2a14}.k2{--c:#4cc4bd;--f:#12332f}
.k3{--c:#78a9ff;--f:#182a4a}.k4{--c:#c79bf2;--f:#31214a}.k5{--c:#79c97c;--f:#1a331b}
.k6{--c:#f08abb;--f:#401a2e}.k7{--c:#cf9d7c;--f:#38261b}.k8{--c:#74c4e6;--f:#133340}.k9{--c:#9aa3b2;--f:#262b34}
}
"#;

/// The page, its key, the names of the lanes, and the sections.
pub const PAGE_STYLE: &[u8] = br#"*{box-sizing:border-box}
html{background:var(--bg);color:var(--ink);font:13px/1.4 system-ui,"Segoe UI","DejaVu Sans",sans-serif;-webkit-print-color-adjust:exact;print-color-adjust:exact}
body{margin:0;display:flex;flex-direction:column;min-width:max-content}
footer,.key{padding:4px 12px;position:sticky;left:0;width:100vw;max-width:1150px}
footer{order:-2}
.key{order:-1;color:var(--dim)}
.key span{display:inline-block;margin-right:18px;white-space:nowrap}
.key b{color:var(--c)}
.key i,.key s{display:inline-block;position:relative!important;left:0!important;width:34px!important;vertical-align:-2px;margin-right:5px}
.key i{height:14px!important}
.key s{bottom:0!important;vertical-align:4px}
svg{display:none}
h1{font-size:17px;margin:6px 0}
footer>p,ul{margin:4px 0}
.stuck strong,.budget strong{color:var(--bad)}
a{color:inherit;text-decoration-color:var(--line)}
main{width:calc(var(--s) + var(--z))}
.top{position:sticky;top:0;height:26px;z-index:90;background:var(--bg);border-bottom:2px solid var(--line)}
.top u{position:absolute;left:calc(var(--s) + var(--a));width:calc(var(--w) - 26px);height:24px;padding:2px 2px 2px 4px;overflow:hidden;text-decoration:none;color:var(--c);border-bottom:3px solid var(--c)}
section{position:relative;content-visibility:auto;contain-intrinsic-size:auto 880px}
section>div{position:absolute;left:var(--s);top:0;height:100%}
section>.z{position:relative;height:0;width:0}
"#;

/// The line of an entry, and the columns beside it.
pub const ENTRY_STYLE: &[u8] =
    br#"section p{position:relative;height:var(--r);line-height:var(--r);margin:0;white-space:nowrap;scroll-margin-top:60px}
section p:hover,section p:target,p.on{background:var(--line)}
section p>b{position:sticky;left:0;z-index:60;display:inline-block;width:4em;padding-right:8px;text-align:right;font-weight:400;color:var(--dim);background:var(--bg)}
section p>span{position:sticky;left:4em;z-index:60;display:inline-block;width:calc(var(--s) - 4em);height:var(--r);overflow:hidden;text-overflow:ellipsis;vertical-align:top;background:var(--bg)}
p.bad>span,u.bad{color:var(--bad)}
p.tick,p.gap{border-top:2px dotted var(--dim)}
p>i{position:absolute;left:var(--s);top:0;height:100%}
p>i>*,section>div>i{position:absolute;font-style:normal;text-decoration:none;pointer-events:none}
.col{left:var(--a);width:calc(var(--w) - 4px);top:0;bottom:0;border-left:1px solid var(--line)}
"#;

/// Boxes and labels.
pub const BOX_STYLE: &[u8] =
    br#".home,.body,.wait,.call,.none,.pump,.live,.cut{--t:1px;--u:1px;bottom:var(--u);height:calc(var(--h)*var(--r) - var(--t) - var(--u));z-index:var(--d);background:var(--f);border:1px solid var(--c);font-size:9px;line-height:9px;color:var(--c);writing-mode:vertical-lr;overflow:hidden;padding-top:3px;border-radius:4px}
.home,.body,.wait,.call,.none,.pump{left:calc(var(--a) + var(--d)*var(--n));width:calc(var(--w) - 26px - var(--d)*(var(--n) + 3px));border-left-width:4px}
.home{border-width:0 0 0 3px;border-radius:0;opacity:.55}
.wait,.pump,.none{background:repeating-linear-gradient(135deg,var(--bg) 0 5px,var(--f) 5px 9px);border-style:dashed;border-left-style:solid}
.call{background:var(--bg);border-color:var(--line);border-left:2px solid var(--c)}
.none,.ring{border-color:var(--bad);color:var(--bad)}
.live,.cut{left:calc(var(--a) + var(--d)*var(--n) + 20px);width:16px;z-index:1;line-height:13px}
.cut{border-style:dashed;background:var(--bg)}
.up{--t:0px;border-top-style:none;border-top-left-radius:0;border-top-right-radius:0}
.dn{--u:0px;border-bottom-style:none;border-bottom-left-radius:0;border-bottom-right-radius:0}
.on{outline:2px solid var(--ink)}
p.on{outline:none}
section u{left:calc(var(--a) + var(--d)*var(--n) + 20px);max-width:calc(var(--w) - var(--d)*(var(--n) + 3px) - 48px);overflow:hidden;text-overflow:ellipsis;z-index:50;height:var(--r)}
.new{font-weight:600;color:var(--c)}
.end{color:var(--dim)}
"#;

/// Arrows, and the marks of objects that are touched.
pub const ARROW_STYLE: &[u8] =
    br#"s{height:0;bottom:10px;z-index:40;border-top:2px solid var(--e);--e:var(--ink)}
.r{left:calc(var(--a) + var(--i)*var(--n) + 2px);width:calc(var(--b) - var(--a) + (var(--j) - var(--i))*var(--n) - 2px)}
.l{left:calc(var(--b) + var(--v) - 26px - var(--j)*3px);width:calc(var(--a) + var(--i)*var(--n) + 28px - var(--b) - var(--v) + var(--j)*3px)}
s::after{content:"";position:absolute;top:-6px;border:5px solid transparent}
.go.r::after,.to.l::after,.re.l::after,.in.l::after{right:-1px;border-right-width:0;border-left:8px solid var(--e)}
.go.l::after,.to.r::after,.re.r::after,.in.r::after{left:-1px;border-left-width:0;border-right:8px solid var(--e)}
.re{border-top-style:dashed}
.to{border-top-style:dotted}
.no,.in{--e:var(--bad)}
.in{border-top-width:3px}
.no::after{content:"\2717";border:0;top:-12px;color:var(--e);font:bold 18px/20px sans-serif}
.no.r::after{right:-4px}
.no.l::after{left:-4px}
p>i>b{left:calc(var(--a) + var(--d)*var(--n) + 31px);bottom:9px;width:9px;height:4px;background:var(--ink);z-index:20}
"#;

/// What differs in print, and the start of the sheet with the first widths.
pub const PRINT_STYLE: &[u8] = br#"@media print{
section{break-inside:avoid;content-visibility:visible;padding-top:16px;counter-reset:k}
.col{counter-increment:k}
.col::before{content:"L" counter(k);position:absolute;top:0;left:4px;font-size:10px;color:var(--dim)}
.col:last-child::before{content:"objects"}
.top{position:relative}
a{text-decoration:none}
}
</style>
<style>"#;

/// The end of the head, and the start of the body.
pub const BODY_FRONT: &[u8] = br#"</style>
</head>
<body>
"#;

/// The key of the boxes of lanes.
pub const KEY_OF_BOXES: &[u8] =
    br#"<div class="key"><span><i class="home k3"></i>a thread is in an apartment</span><span><i class="body k3"></i>a method runs</span><span><i class="call k9"></i>a call in the same thread</span><span><i class="wait k9"></i>a call that waits for another thread</span><span><i class="pump k9"></i>a thread pumps</span><span><i class="body k3 ring"></i>it waits in a ring</span>"#;

/// The key of objects and of arrows.
pub const KEY_OF_MARKS: &[u8] =
    br#"<span><i class="live k1"></i>an object lives</span><span><i class="cut k1"></i>it is cut off</span><span><s class="go r"></s>a call</span><span><s class="re r"></s>its answer</span><span><s class="to l"></s>a word</span><span><s class="no r"></s>refused</span>"#;

/// The key of the colours.
pub const KEY_OF_COLOURS: &[u8] =
    br#"<br/><span>The colour is the apartment: <b class="k0">a0 NTA</b>, neutral: its methods run in the caller's thread; <b class="k1">a1 MTA</b>, of many threads; <b class="k2">a2 host STA</b>, <b class="k3">a3</b> <b class="k4">a4</b> <b class="k5">a5</b> .. STA, of one thread each</span></div>
"#;

/// The start of the drawing, and of the lanes' names.
pub const BODY_BACK: &[u8] = br#"<main aria-label="The history, an entry a line">
<div class="top" aria-hidden="true">"#;

/// The script, which lights up the call under the pointer, and the end of the page.
pub const TAIL: &[u8] = br#"<script>
document.addEventListener("mouseover",function(e){
var p=e.target.closest("p[data-call]"),c=p?p.getAttribute("data-call"):"";
document.querySelectorAll(".on").forEach(function(x){x.classList.remove("on")});
if(c!=="")document.querySelectorAll("p[data-call="+c+"],.body,.wait,.call,.none").forEach(function(x){if(x.textContent===c||x.getAttribute("data-call")===c)x.classList.add("on")})});
</script>
</body>
</html>
"#;
