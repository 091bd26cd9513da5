// The parts of a page that are the same of every run, made by bin/made of the app.

/// What a page begins with, up to the listing.
#[rattlefmt::skip]
pub const HEAD: &[u8] = b"\
<!doctype html>\n<html lang=\"en\">\n<head>\n<meta charset=\"utf-8\">\n<meta name=\"viewport\" content=\"width=device-width, initial-scale=1\
\">\n<meta http-equiv=\"Content-Security-Policy\" content=\"default-src 'none'; style-src 'sha256-325v0SHLQTwZkgYihlCb/IwjPlR5Pl/g8whN/B4mcU\
I='; script-src 'sha256-P6+c9tNchR5zHNwOBdkzDr9XkEaiNVcGDkBpas0mWIg=' 'wasm-unsafe-eval'; worker-src blob:; base-uri 'none'; form-action 'no\
ne'\">\n<meta name=\"generator\" content=\"vuthgal\">\n<title>Vuthgal</title>\n<style>:root {\n--zoom: 1;\n--paper: #f3f1ea;\n--pane: #fffef\
b;\n--ink: #1d1b17;\n--soft: #5f5a4f;\n--line: #d9d4c7;\n--hover: #ece8dc;\n--now: #ffe27a;\n--now-ink: #1d1b17;\n--red: #b3201a;\n--red-sof\
t: #fbe3df;\n--go: #1a7038;\n--go-soft: #ddf1e1;\n--later: #716b5f;\n--focus: #1747c4;\n--hue0: #1d4fc4;\n--hue1: #a0420a;\n--hue2: #7a2aa8;\
\n--hue3: #0b6868;\n--hue4: #a3195b;\n--hue5: #5a6008;\n--hue6: #3d4b8f;\n--hue7: #7a4a1e;\n--mono: ui-monospace, \"SF Mono\", \"Cascadia Mo\
no\", \"DejaVu Sans Mono\", Menlo, Consolas, monospace;\n--sans: system-ui, \"Segoe UI\", \"Noto Sans\", sans-serif;\n--motion: 0.2s;\n--pal\
e: 72%;\ncolor-scheme: light;\n}\n@media (prefers-color-scheme: dark) {\n:root:not([data-theme=\"light\"]) {\n--paper: #16171a;\n--pane: #1f\
2125;\n--ink: #f0ede6;\n--soft: #b1aca1;\n--line: #3a3c42;\n--hover: #2c2f35;\n--now: #5a4a08;\n--now-ink: #fff6d6;\n--red: #ff938a;\n--red-\
soft: #4a1f1c;\n--go: #74d795;\n--go-soft: #17381f;\n--later: #9a968c;\n--focus: #9dbcff;\n--hue0: #8fb4ff;\n--hue1: #ffab70;\n--hue2: #d5a2\
ff;\n--hue3: #6cd6d6;\n--hue4: #ff9cc7;\n--hue5: #d0d66a;\n--hue6: #b3bdff;\n--hue7: #e2b98d;\ncolor-scheme: dark;\n}\n}\n:root[data-theme=\"\
dark\"] {\n--paper: #16171a;\n--pane: #1f2125;\n--ink: #f0ede6;\n--soft: #b1aca1;\n--line: #3a3c42;\n--hover: #2c2f35;\n--now: #5a4a08;\n--n\
ow-ink: #fff6d6;\n--red: #ff938a;\n--red-soft: #4a1f1c;\n--go: #74d795;\n--go-soft: #17381f;\n--later: #9a968c;\n--focus: #9dbcff;\n--hue0: \
#8fb4ff;\n--hue1: #ffab70;\n--hue2: #d5a2ff;\n--hue3: #6cd6d6;\n--hue4: #ff9cc7;\n--hue5: #d0d66a;\n--hue6: #b3bdff;\n--hue7: #e2b98d;\ncolo\
r-scheme: dark;\n}\n.hue0 { --hue: var(--hue0); }\n.hue1 { --hue: var(--hue1); }\n.hue2 { --hue: var(--hue2); }\n.hue3 { --hue: var(--hue3); \
}\n.hue4 { --hue: var(--hue4); }\n.hue5 { --hue: var(--hue5); }\n.hue6 { --hue: var(--hue6); }\n.hue7 { --hue: var(--hue7); }\n* { box-sizin\
g: border-box; margin: 0; }\n[hidden] { display: none !important; }\nhtml { font: calc(clamp(15px, 0.66vw + 7.5px, 21px) * var(--zoom)) / 1.\
4 var(--sans); }\nbody {\nheight: 100vh;\nheight: 100dvh;\ndisplay: flex;\nflex-direction: column;\ngap: 0.5rem;\npadding: 0 0.75rem 0.5rem;\
\nbackground: var(--paper);\ncolor: var(--ink);\noverflow: hidden;\n}\nbutton, input, textarea, select { font: inherit; color: inherit; }\nb\
utton {\nborder: 0;\nborder-radius: 0.5rem;\npadding: 0.3rem 0.7rem;\nmin-height: 2.1rem;\nbackground: transparent;\ncursor: pointer;\nwhite\
-space: nowrap;\n}\nbutton:hover { background: var(--hover); }\nbutton:disabled { color: var(--later); cursor: default; background: none; }\n\
button.main { background: var(--ink); color: var(--pane); font-weight: 600; }\nbutton.main:hover { opacity: 0.88; }\nbutton.main:disabled { \
background: var(--line); color: var(--soft); opacity: 1; }\n:focus-visible { outline: 0.18rem solid var(--focus); outline-offset: 0.1rem; }\n\
kbd {\nfont: 0.8em var(--mono);\nborder: 1px solid var(--line);\nborder-radius: 0.3rem;\npadding: 0 0.35em;\nbackground: var(--paper);\ncolo\
r: var(--ink);\n}\n.clock {\ndisplay: inline-block;\nwidth: 0.85em;\nheight: 0.85em;\nborder: 0.1em solid;\nborder-radius: 50%;\nbackground:\
\nlinear-gradient(currentcolor 0 0) 50% 20% / 0.1em 0.3em no-repeat,\nlinear-gradient(currentcolor 0 0) 70% 50% / 0.25em 0.1em no-repeat;\n}\
\n.chip .clock { margin-right: 0.35em; vertical-align: -0.08em; }\ncode { font-family: var(--mono); font-size: 0.95em; }\n.who { color: var(\
--hue, inherit); }\n\n#head { flex: none; height: 3rem; display: flex; align-items: center; gap: 0.35rem; }\n.head-brand { font-weight: 800; \
letter-spacing: -0.02em; color: var(--soft); }\n.head-spring { flex: 1; }\n#head-title { font-size: 1.1rem; min-width: 0; }\n#pick { max-wid\
th: 26rem; overflow: hidden; text-overflow: ellipsis; }\n#pick::after, #more::after { content: \" \\25BE\" / \"\"; color: var(--soft); }\n#m\
odes { display: flex; background: var(--hover); border-radius: 0.6rem; padding: 0.15rem; margin-left: 0.5rem; }\n#modes button { min-height: \
1.9rem; padding: 0.1rem 0.8rem; }\n#modes [aria-pressed=\"true\"] { background: var(--pane); font-weight: 650; box-shadow: inset 0 -0.16rem \
var(--ink); }\n#again { color: var(--soft); }\n\n#check {\nflex: none;\noverflow: hidden;\ntext-overflow: ellipsis;\nwhite-space: nowrap;\nf\
ont-size: 0.82rem;\nline-height: 1.1rem;\ncolor: var(--soft);\n}\n#check.is-wrong {\npadding: 0.4rem 0.7rem 0.4rem 1rem;\nborder-radius: 0.6\
rem;\nbackground: var(--red-soft);\ncolor: var(--ink);\nbox-shadow: inset 0.5rem 0 var(--red);\nfont-size: 1rem;\nline-height: 1.4;\nwhite-s\
pace: normal;\noverflow: visible;\noverflow-wrap: anywhere;\n}\n#check strong { color: var(--red); }\n\n#texts { display: none; }\n@media (s\
cripting: none) {\nbody { display: block; height: auto; overflow: auto; }\nbody > :not(#texts) { display: none; }\n#texts { display: block; \
}\n#texts pre { font: 0.9rem var(--mono); }\n}\n\n#panes {\nflex: 1;\nmin-height: 0;\ndisplay: grid;\ngrid-template-columns: minmax(17rem, 1\
fr) minmax(20rem, 1.1fr) minmax(20rem, 1.05fr);\ngap: 0.5rem;\n}\n.pane {\nmin-width: 0;\nmin-height: 0;\nbackground: var(--pane);\nborder-r\
adius: 0.7rem;\ndisplay: flex;\nflex-direction: column;\noverflow: hidden;\ncontain: strict;\n}\n.scroll { overflow: auto; scrollbar-width: \
thin; flex: 1; min-height: 0; }\n.is-refused #time, .is-refused #picture { filter: grayscale(1); }\n.is-side #code { display: none; }\n.is-s\
ide #panes { grid-template-columns: minmax(0, 2fr) minmax(20rem, 1fr); }\n.is-alone #code, .is-alone #picture, .is-alone #runs { display: no\
ne; }\n.is-alone #panes { grid-template-columns: minmax(0, 1fr); }\n#tabs { display: none; }\n\n#note {\nposition: fixed;\nleft: 50%;\nbotto\
m: 6.2rem;\ntransform: translate(-50%, 1rem);\nbackground: var(--ink);\ncolor: var(--pane);\nborder-radius: 0.6rem;\npadding: 0.5rem 1rem;\n\
opacity: 0;\nvisibility: hidden;\nz-index: 30;\nmax-width: 90vw;\n}\n#note.is-shown { opacity: 1; visibility: visible; transform: translate(\
-50%, 0); }\n#note button { text-decoration: underline; color: inherit; }\n#note button:hover { background: none; }\n#paper { display: none; \
}\n.end { white-space: nowrap; font-weight: 600; }\n.end-stuck, .end-died { color: var(--red); }\n.end-ended { color: var(--go); }\n.end-ope\
n { color: var(--soft); }\n.meter {\nflex: 1;\nmin-width: 6rem;\nheight: 0.9rem;\nborder-radius: 0.5rem;\nbackground: var(--line);\noverflow\
: hidden;\ndisplay: block;\n}\n.meter i { display: block; height: 100%; width: calc(var(--part) * 100%); background: var(--go); }\n.hint { c\
olor: var(--soft); padding-bottom: 0.6rem; }\n@media (prefers-reduced-motion: no-preference) {\n#note { transition: opacity var(--motion), t\
ransform var(--motion); }\n.seat { transition: background var(--motion); }\n}\n#card {\nflex: none;\nheight: 7.1rem;\ndisplay: grid;\ngrid-t\
emplate-columns: minmax(0, 1.05fr) minmax(0, 1.2fr) auto;\ngap: 1.5rem;\nbackground: var(--pane);\nborder-radius: 0.7rem;\npadding: 0.6rem 1\
rem;\nborder-left: 0.4rem solid var(--ink);\n}\n[data-mode=\"quiz\"] #card {\nheight: 8.8rem;\ngrid-template-columns: minmax(0, 1.2fr) minma\
x(0, 1.3fr) minmax(11rem, 0.85fr);\n}\n.card-small { color: var(--soft); font-size: 0.85rem; }\n.card-large { font-size: 1.5rem; line-height\
: 1.22; font-weight: 650; text-wrap: balance; overflow-wrap: anywhere; }\n[data-mode=\"quiz\"] .card-large { font-size: 1.3rem; }\n.card-lar\
ge.is-long, [data-mode=\"quiz\"] .card-large.is-long { font-size: 1.16rem; }\n.card-large.is-longer, [data-mode=\"quiz\"] .card-large.is-lon\
ger { font-size: 1rem; font-weight: 600; }\n.card-ask, .card-reply { overflow: auto; scrollbar-width: thin; }\n.card-answer { font-size: 1.2\
rem; line-height: 1.35; }\n.card-answer.is-long { font-size: 1.1rem; line-height: 1.28; }\n.card-answer.is-longer { font-size: 1rem; line-he\
ight: 1.25; }\n.card-show { background: var(--hover); margin-left: 0.5rem; font-size: 1rem; }\n.card-turn {\ndisplay: flex;\nflex-direction: \
column;\nalign-items: stretch;\njustify-content: flex-end;\ngap: 0.35rem;\nmin-width: 9rem;\nmax-width: 24rem;\nmin-height: 0;\n}\n.card-tur\
n .main { min-height: 2.5rem; font-size: 1.1rem; flex: none; }\n.card-verdict { overflow: auto; scrollbar-width: thin; font-size: 0.95rem; l\
ine-height: 1.28; margin-bottom: auto; }\n.is-yes { color: var(--go); }\n.is-no { color: var(--red); }\n.dots { display: flex; gap: 0.35rem; \
justify-content: center; margin-bottom: auto; padding-top: 0.3rem; }\n.dot { width: 0.6rem; height: 0.6rem; border-radius: 50%; box-shadow: \
inset 0 0 0 0.1rem var(--later); }\n.dot.is-done { background: var(--later); }\n.dot.is-here { background: var(--ink); box-shadow: none; }\n\
#card:has(.votes) { grid-template-columns: minmax(0, 1fr) minmax(0, 1.35fr) auto; }\n.votes-head { display: flex; gap: 1rem; align-items: ce\
nter; justify-content: space-between; padding-bottom: 0.3rem; }\n.votes-list { display: flex; flex-wrap: wrap; gap: 0.4rem; padding: 0.2rem; \
}\n.vote {\ndisplay: flex;\ngap: 0.6rem;\nalign-items: center;\nfont-size: 1.2rem;\nfont-weight: 650;\ncolor: var(--hue);\nbackground: color\
-mix(in srgb, var(--hue) 9%, var(--pane));\nmin-height: 2.6rem;\npadding: 0.1rem 0.7rem;\n}\n.vote b {\nfont-size: 1.4rem;\nmin-width: 2.3ch\
;\ntext-align: right;\nfont-variant-numeric: tabular-nums;\ncolor: var(--ink);\n}\n.vote-place { display: flex; gap: 0.15rem; }\n.vote-less \
{ min-width: 2.3rem; font-size: 1.35rem; padding: 0; color: var(--soft); background: var(--hover); }\n.votes .main { min-width: 9rem; max-wi\
dth: 60%; overflow: hidden; text-overflow: ellipsis; }\n.options {\ndisplay: grid;\ngrid-template-columns: repeat(2, minmax(0, 1fr));\ngap: \
0.35rem;\nalign-content: center;\npadding: 0.2rem;\n}\n.option {\ntext-align: left;\nwhite-space: normal;\nbackground: var(--hover);\ndispla\
y: flex;\ngap: 0.5rem;\nalign-items: baseline;\nline-height: 1.2;\npadding: 0.35rem 0.6rem;\n}\n.option kbd { white-space: nowrap; flex: non\
e; }\n.option.is-right { background: var(--go-soft); outline: 0.14rem solid var(--go); outline-offset: -0.14rem; }\n.option.is-wrong { backg\
round: var(--red-soft); outline: 0.14rem solid var(--red); outline-offset: -0.14rem; }\n.option.is-rest { color: var(--soft); }\n#stage { fl\
ex: none; border-radius: 0.7rem; overflow: hidden; background: var(--pane); }\n#said {\nheight: 4.1rem;\ndisplay: flex;\nalign-items: center\
;\ngap: 0.8rem;\npadding: 0 1rem;\nbackground: var(--now);\ncolor: var(--now-ink);\nfont-size: 1.28rem;\nline-height: 1.25;\noverflow: hidde\
n;\n}\n#said .who { color: inherit; }\n.said-badge {\nflex: none;\nmin-width: 2.2rem;\ntext-align: center;\nfont-weight: 700;\nfont-size: 1.\
1rem;\nborder: 0.12rem solid;\nborder-radius: 0.5rem;\npadding: 0.15rem 0.35rem;\n}\n.said-text { overflow: hidden auto; max-height: 100%; s\
crollbar-width: thin; overflow-wrap: anywhere; }\n.is-longer .said-text { font-size: 0.76em; }\n#said[data-kind=\"would\"] { background: var\
(--hover); color: var(--ink); }\n#said[data-kind=\"wrong\"], #said[data-kind=\"stuck\"], #said[data-kind=\"died\"] {\nbackground: var(--red-\
soft);\ncolor: var(--ink);\nbox-shadow: inset 0.5rem 0 var(--red);\n}\n#said[data-kind=\"wrong\"] .said-badge, #said[data-kind=\"stuck\"] .s\
aid-verdict, #said[data-kind=\"died\"] .said-verdict {\ncolor: var(--red);\n}\n#said[data-kind=\"ended\"] { background: var(--go-soft); colo\
r: var(--ink); box-shadow: inset 0.5rem 0 var(--go); }\n#said[data-kind=\"ended\"] .said-verdict { color: var(--go); }\n#controls { height: \
3.1rem; display: flex; align-items: center; gap: 0.9rem; padding: 0 0.6rem; }\n#steps { display: flex; gap: 0.15rem; flex: none; }\n#steps b\
utton { min-width: 2.5rem; padding: 0.2rem; }\n#steps svg { width: 1.1rem; height: 1.1rem; display: block; margin: auto; fill: currentColor; \
}\n#steps .main { min-width: 3.4rem; }\n#where {\nflex: none;\nmin-width: calc(var(--digits, 2) * 2ch + 2.6rem);\ncolor: var(--soft);\nfont-\
variant-numeric: tabular-nums;\n}\n#where b { color: var(--ink); font-size: 1.15rem; }\n#next {\nflex: 1;\ndisplay: flex;\nalign-items: cent\
er;\ngap: 0.4rem;\noverflow: auto hidden;\nscrollbar-width: thin;\nheight: 100%;\nmin-width: 0;\npadding: 0 0.2rem;\n}\n.next-label { color: \
var(--soft); flex: none; padding-right: 0.2rem; min-width: 3.2rem; }\n.chip {\ncolor: var(--hue);\nbackground: color-mix(in srgb, var(--hue) \
9%, var(--pane));\n}\n.chip, .next-place {\nflex: none;\nfont-weight: 650;\nfont-size: 1.08rem;\nmin-height: 2.35rem;\npadding: 0.15rem 0.9r\
em;\n}\n.next-place, .is-out { visibility: hidden; }\n.chip:hover { background: color-mix(in srgb, var(--hue) 20%, var(--pane)); }\n.chip-ow\
n { box-shadow: inset 0 0 0 0.14rem var(--hue); }\n.chip-late { font-weight: 500; border: 0.1rem dashed var(--hue); }\n#ends {\nflex: 0 1 au\
to;\nmax-width: 34%;\noverflow: hidden;\ntext-overflow: ellipsis;\nwhite-space: nowrap;\npadding-right: 0.4rem;\n}\n.code-sheet {\n--high: 1\
.72rem;\nposition: relative;\ndisplay: grid;\ngrid-template-columns: 1.9rem 3.6rem 1fr;\nmin-height: 100%;\nfont: 0.98rem/1.72rem var(--mono\
);\npadding-top: 0.3rem;\n}\n.code-over {\nposition: relative;\nmin-height: calc(var(--lines) * var(--high));\nmin-width: calc(var(--columns\
) * 1ch);\n}\n.code-copy, .code-typed {\nposition: absolute;\ninset: 0;\nfont: inherit;\nwhite-space: pre;\ntab-size: 8;\npadding: 0;\nborde\
r: 0;\nbackground: none;\noverflow: hidden;\n}\n.code-copy, .code-typed { contain: strict; }\n.code-copy { pointer-events: none; z-index: 1; \
}\n.code-typed {\ncolor: transparent;\ncaret-color: var(--ink);\nresize: none;\nwidth: 100%;\nheight: calc(var(--lines) * var(--high));\nz-i\
ndex: 2;\n}\n.code-typed:focus-visible { outline: none; }\n.pane:has(.code-typed:focus-visible) { box-shadow: inset 0 0 0 0.16rem var(--focu\
s); }\n.code-typed::selection { background: color-mix(in srgb, var(--focus) 30%, transparent); color: transparent; }\n.code-word { font-weig\
ht: 650; }\n.code-directive, .code-option { color: var(--hue2); }\n.code-label { color: var(--hue1); font-weight: 650; }\n.code-register { c\
olor: var(--hue3); }\n.code-object { color: var(--hue0); }\n.code-talk { color: var(--soft); font-style: italic; }\n.code-asked { color: var\
(--hue4); font-weight: 600; }\n.code-java { color: var(--soft); font-family: var(--sans); font-size: 0.9em; }\n.code-numbers {\nposition: re\
lative;\nz-index: 3;\nmargin: 0;\nfont: inherit;\nfont-size: 0.85em;\ntext-align: right;\npadding-right: 0.2rem;\ncolor: var(--soft);\npoint\
er-events: none;\n}\n.code-margin { position: relative; z-index: 3; pointer-events: none; }\n.places {\nposition: absolute;\ntop: calc(var(-\
-line) * var(--high));\nright: 0.35rem;\nheight: var(--high);\ndisplay: flex;\ngap: 1px;\nalign-items: center;\n}\n.place {\nfont: 700 0.72r\
em/1.2rem var(--sans);\nbackground: var(--hue, var(--soft));\ncolor: var(--pane);\nborder-radius: 0.3rem;\npadding: 0 0.25rem;\n}\n.code-mar\
ks span { position: absolute; left: 0; top: calc(var(--line) * var(--high)); height: var(--high); }\n.code-marks .code-now, .code-marks .cod\
e-bad { left: -5.5rem; right: 0; }\n.code-now { background: var(--now); opacity: 0.85; }\n.code-bad { background: var(--red-soft); }\n.code-\
marks .code-wave {\nleft: calc(var(--from) * 1ch);\nwidth: calc(var(--wide) * 1ch);\nborder-bottom: 0.2rem solid var(--red);\n}\n.code-told \
{\nflex: none;\nmax-height: 40%;\noverflow: auto;\nbackground: var(--red);\ncolor: var(--pane);\npadding: 0.4rem 0.7rem;\nline-height: 1.3;\n\
overflow-wrap: anywhere;\n}\n.code-told:empty { display: none; }\n.code-mend {\nbackground: var(--pane);\ncolor: var(--red);\nfont: 650 0.95\
rem var(--mono);\nmin-height: 1.6rem;\npadding: 0 0.5rem;\n}\n.plan {\nflex: none;\ndisplay: flex;\nalign-items: center;\ngap: 0.6rem;\nheig\
ht: 2.9rem;\npadding: 0 0.7rem;\nborder-top: 1px solid var(--line);\ncolor: var(--soft);\n}\n.plan-typed {\nflex: 1;\nmin-width: 0;\nborder: \
0;\nbackground: var(--hover);\nborder-radius: 0.4rem;\npadding: 0.3rem 0.6rem;\nfont-family: var(--mono);\ncolor: var(--ink);\n}\n.plan-type\
d::placeholder { color: var(--soft); opacity: 1; }\n.plan-typed[aria-invalid=\"true\"] { box-shadow: inset 0 0 0 0.14rem var(--red); }\n.tim\
e-two { flex: 1; min-height: 0; display: flex; gap: 0.5rem; }\n.time { flex: 1; min-width: 0; display: flex; flex-direction: column; }\n.tim\
e-head {\nflex: none;\nheight: 2.2rem;\npadding: 0.3rem 0.7rem;\ndisplay: flex;\ngap: 0.7rem;\nwhite-space: nowrap;\noverflow: hidden;\nback\
ground: var(--hover);\n}\n.time-head .end { overflow: hidden; text-overflow: ellipsis; }\n.time-scroll { position: relative; scrollbar-gutte\
r: stable; }\n.time-names {\nposition: sticky;\ntop: 0;\nz-index: 3;\nheight: 2.3rem;\nbackground: var(--pane);\nborder-bottom: 1px solid va\
r(--line);\nmin-width: 100%;\n}\n.time-corner {\nposition: sticky;\nleft: 0;\ndisplay: block;\nwidth: var(--number);\nheight: 2.2rem;\nbackg\
round: var(--pane);\nz-index: 1;\n}\n.time-name {\nposition: absolute;\ntop: 0;\nheight: 2.25rem;\ncolor: var(--hue);\nfont-weight: 700;\nte\
xt-align: left;\npadding: 0 0.2rem 0 0.35rem;\noverflow: hidden;\ntext-overflow: ellipsis;\nborder-radius: 0.3rem;\n}\n.time-name[aria-press\
ed=\"true\"] { box-shadow: inset 0 -0.2rem var(--hue); }\n.time-name[data-doing=\"over\"], .time-name[data-doing=\"dead\"] { color: var(--la\
ter); text-decoration: line-through; }\n.time-body { position: relative; min-width: 100%; cursor: pointer; isolation: isolate; }\n.lane { --\
lane: var(--hue); position: absolute; width: 0.16rem; margin-left: 0.72rem; background: var(--lane); }\n.lane-waits {\nwidth: 0.56rem;\nmarg\
in-left: 0.52rem;\nborder-radius: 0.2rem;\nbackground: repeating-linear-gradient(\n-45deg,\nvar(--lane) 0 0.17rem,\ncolor-mix(in srgb, var(-\
-lane) 25%, var(--pane)) 0.17rem 0.4rem\n);\n}\n.lane-free {\nwidth: 0.56rem;\nmargin-left: 0.52rem;\nborder-radius: 0.2rem;\nbackground: no\
ne;\nbox-shadow: inset 0 0 0 0.13rem var(--lane);\n}\n.lane-held { background: none; border-left: 0.16rem dotted var(--lane); }\n.lane-throw\
s { --lane: var(--red); width: 0.26rem; margin-left: 0.67rem; }\n.lane.is-later { --lane: color-mix(in srgb, var(--hue) var(--pale), var(--p\
ane)); }\n.lane-runs.is-later { width: 0.13rem; margin-left: 0.735rem; }\n.lane-throws.is-later { --lane: color-mix(in srgb, var(--red) var(\
--pale), var(--pane)); }\n.line { position: absolute; left: 0; right: 0; height: var(--row); }\n.line:hover { background: color-mix(in srgb, \
var(--ink) 5%, transparent); }\n.line.is-here { box-shadow: inset 0 0 0 0.12rem var(--now); }\n.line.is-here::before {\ncontent: \"\";\nposi\
tion: absolute;\ninset: 0;\nz-index: -1;\nbackground: color-mix(in srgb, var(--now) 62%, var(--pane));\n}\n.line-number {\nposition: sticky;\
\nleft: 0;\ndisplay: inline-block;\nwidth: var(--number);\npadding-right: 0.6rem;\ntext-align: right;\nline-height: var(--row);\ncolor: var(\
--soft);\nfont-variant-numeric: tabular-nums;\nfont-size: 0.9rem;\nbackground: var(--pane);\nz-index: 2;\n}\n.line-number.is-start { font-si\
ze: 0.8rem; padding-right: 0.3rem; }\n.line:hover .line-number { background: inherit; }\n.line.is-here .line-number { background: var(--now)\
; color: var(--now-ink); font-weight: 700; }\n.line.is-other .line-number { border-right: 0.22rem solid var(--focus); }\n.line-part {\nposit\
ion: absolute;\nright: 0.5rem;\ntop: -0.65rem;\nfont-size: 0.8rem;\nfont-weight: 650;\nbackground: var(--focus);\ncolor: var(--pane);\nborde\
r-radius: 0.35rem;\npadding: 0 0.5rem;\nz-index: 2;\n}\n.line-far {\nposition: sticky;\nleft: calc(var(--number) + 0.3rem);\nline-height: va\
r(--row);\ncolor: var(--hue);\nbackground: color-mix(in srgb, var(--pane) 80%, transparent);\npadding: 0 0.3rem;\n}\n.event {\nposition: abs\
olute;\ntop: 0;\nheight: var(--row);\ndisplay: flex;\nalign-items: center;\ncolor: var(--hue);\nwhite-space: nowrap;\n}\n.event-dot {\nflex: \
none;\nwidth: 0.78rem;\nheight: 0.78rem;\nmargin: 0 0.3rem 0 0.41rem;\nbackground: var(--hue);\nborder-radius: 50%;\n}\n.event-throw .event-\
dot, .event-die .event-dot {\nbackground: var(--red);\ntransform: rotate(45deg);\nborder-radius: 0.1rem;\n}\n.event-end .event-dot { border-\
radius: 0.1rem; background: var(--pane); box-shadow: inset 0 0 0 0.16rem var(--hue); }\n.event-idle .event-dot { background: none; box-shado\
w: inset 0 0 0 0.1rem var(--hue); }\n.event-throw .event-tag, .event-die .event-tag { color: var(--red); }\n.event-tag {\nfont-weight: 600;\n\
font-size: 0.95rem;\nbackground: color-mix(in srgb, var(--pane) 78%, transparent);\nborder-radius: 0.3rem;\npadding: 0 0.2rem;\n}\n.event.is\
-onleft { flex-direction: row-reverse; transform: translateX(calc(-100% + 1.5rem)); }\n.line.is-later .event-dot { opacity: var(--pale); }\n\
.line.is-later .event-tag { font-weight: 400; color: color-mix(in srgb, var(--hue) 90%, var(--pane)); }\n.line.is-here .event-tag { backgrou\
nd: none; font-weight: 750; }\n.mark {\nposition: absolute;\nleft: var(--number);\nright: 0.4rem;\nbottom: -0.06rem;\nborder-bottom: 0.14rem \
solid var(--go);\npointer-events: none;\nz-index: 1;\n}\n.mark span {\nfloat: right;\nbackground: var(--go);\ncolor: var(--pane);\nfont-size\
: 0.82rem;\nfont-weight: 650;\nline-height: 1.25rem;\nborder-radius: 0.35rem 0.35rem 0 0;\npadding: 0 0.5rem 0.2rem;\n}\n.mark.is-left span \
{ float: left; position: sticky; left: var(--number); }\n.mark.is-under span { transform: translateY(100%); border-radius: 0 0 0.35rem 0.35r\
em; padding: 0.2rem 0.5rem 0; }\n.mark-dot {\nposition: absolute;\nbottom: -0.4rem;\nwidth: 0.66rem;\nheight: 0.66rem;\nmargin-left: 0.47rem\
;\nborder-radius: 50%;\nbackground: var(--go);\nbox-shadow: 0 0 0 0.13rem var(--pane);\n}\n.mark-broke { border-color: var(--red); border-bo\
ttom-style: dashed; }\n.mark-broke span { background: var(--red); }\n.line.is-later .mark { border-color: color-mix(in srgb, var(--go) var(-\
-pale), var(--pane)); }\n.line.is-later .mark-dot { background: color-mix(in srgb, var(--go) var(--pale), var(--pane)); }\n.line.is-later .m\
ark span { background: var(--go-soft); color: var(--go); }\n.line.is-later .mark-broke { border-color: color-mix(in srgb, var(--red) var(--p\
ale), var(--pane)); }\n.line.is-later .mark-broke span { background: var(--red-soft); color: var(--red); }\n.ends { flex: none; max-height: \
40%; overflow: auto; border-top: 1px solid var(--line); padding: 0.3rem 0.7rem; }\n.ends:empty { display: none; }\n.views { flex: none; disp\
lay: flex; gap: 0.15rem; padding: 0.25rem 0.4rem 0; }\n.views button { color: var(--soft); min-height: 1.9rem; }\n.views [aria-pressed=\"tru\
e\"] {\ncolor: var(--ink);\nfont-weight: 650;\nbox-shadow: inset 0 -0.16rem var(--ink);\nborder-radius: 0;\n}\n.scene, .values, .orders { di\
splay: none; padding: 0.6rem 0.8rem; }\n[data-tab=\"picture\"] .scene, [data-tab=\"values\"] .values, [data-tab=\"orders\"] .orders { displa\
y: block; }\n.scene.is-roomy { font-size: 1.1rem; }\n.scene.is-roomy .token, .scene.is-roomy .seat { min-height: 2.6rem; height: 2.6rem; }\n\
.scene.is-roomy .seat { min-width: 4.6rem; }\n.space { position: relative; }\n.edges { position: absolute; inset: 0; pointer-events: none; z\
-index: 1; }\n.edges path { fill: none; stroke: var(--later); stroke-width: 0.16rem; stroke-dasharray: 0.35rem 0.3rem; }\n.edges .edge-full \
{ stroke: var(--go); stroke-width: 0.24rem; stroke-dasharray: none; }\n.edges .edge-loose { opacity: 0.4; }\n.cards { display: flex; flex-wr\
ap: wrap; gap: 0.9rem; align-items: flex-start; justify-content: center; }\n.branch { display: flex; flex-direction: column; align-items: ce\
nter; gap: 1.7rem; }\n.kids { display: flex; justify-content: center; gap: 0.9rem; align-items: flex-start; }\n.thing {\nposition: relative;\
\nbackground: var(--paper);\nborder-radius: 0.8rem;\npadding: 0.4rem 0.7rem 0.6rem;\nmin-width: 8rem;\nbox-shadow: inset 0 0 0 0.1rem var(--\
line);\n}\n.thing.is-child { min-width: 6.5rem; }\n.thing.is-terminated { box-shadow: none; outline: 0.1rem dashed var(--later); outline-off\
set: -0.1rem; }\n.thing-head { display: flex; gap: 0.7rem; align-items: baseline; padding-bottom: 0.35rem; }\n.thing-name { font-size: 1.15r\
em; font-weight: 700; }\nbutton.thing-name { padding: 0 0.3rem; margin-left: -0.3rem; min-height: 1.7rem; }\nbutton.thing-name[aria-pressed=\
\"true\"] { box-shadow: inset 0 -0.16rem var(--ink); border-radius: 0; }\n.thing-phase { color: var(--soft); }\n.thing-phase b { color: var(\
--ink); font-size: 1.2rem; }\n.thing-count { margin-left: auto; color: var(--soft); }\n.seats { display: flex; flex-wrap: wrap; gap: 0.4rem; \
}\n.seat {\nmin-width: 3.8rem;\nheight: 2.3rem;\nborder-radius: 1.3rem;\nborder: 0.13rem dashed var(--later);\ndisplay: flex;\nalign-items: \
center;\njustify-content: center;\n}\n.seat.is-full { border-style: solid; border-color: transparent; }\n.seat.is-gone { border: 0.13rem sol\
id var(--line); color: var(--soft); }\n.seat-been { color: var(--hue); padding: 0 0.6rem; }\n.seat-child { border-radius: 0.4rem; padding: 0 \
0.6rem; color: var(--soft); }\n.seat-child.is-full { background: var(--go-soft); color: var(--go); border-color: var(--go); font-weight: 650\
; }\n.token {\nposition: relative;\nz-index: 2;\nbackground: var(--hue);\ncolor: var(--pane);\nfont-weight: 700;\nborder-radius: 1.3rem;\nmi\
n-height: 2.3rem;\npadding: 0 0.85rem;\n}\n.token:hover { background: color-mix(in srgb, var(--hue) 82%, var(--ink)); }\n.token-over, .token\
-dead {\nbackground: none;\ncolor: var(--later);\nbox-shadow: inset 0 0 0 0.1rem var(--line);\ntext-decoration: line-through;\n}\n.token-ove\
r:hover, .token-dead:hover { background: var(--hover); }\n.token-dead { color: var(--red); }\n.token-throws { box-shadow: 0 0 0 0.22rem var(\
--red); }\n.token-free { background: var(--pane); color: var(--hue); box-shadow: inset 0 0 0 0.16rem var(--hue); }\n.token-free:hover { back\
ground: color-mix(in srgb, var(--hue) 12%, var(--pane)); }\n.token[aria-pressed=\"true\"] { outline: 0.2rem solid var(--ink); outline-offset\
: 0.12rem; }\n.token.is-able { outline: 0.2rem dashed var(--hue); outline-offset: 0.15rem; }\n.cards.is-stuck .seat:not(.is-full) { border-c\
olor: var(--red); background: var(--red-soft); }\n.visitors { display: flex; flex-wrap: wrap; gap: 0.4rem; align-items: center; padding-top: \
0.5rem; }\n.is-roomy .visitors { min-height: 3.1rem; }\n.visitors > span, .crowd-label { color: var(--soft); font-size: 0.88rem; min-width: \
4.6rem; }\n.barrier.is-broken { box-shadow: inset 0 0 0 0.14rem var(--red); background: var(--red-soft); }\n.is-broken .thing-phase { color: \
var(--red); font-weight: 700; }\n.gateway { display: flex; gap: 0.6rem; align-items: center; }\n.gate { width: 3.4rem; flex: none; }\n.gate \
path { fill: none; stroke: var(--soft); stroke-width: 3; stroke-linecap: round; }\n.gate .gate-post { stroke-width: 6; stroke: var(--ink); }\
\n.is-broken .gate .gate-bar { stroke: var(--red); stroke-width: 4; }\n.crowd { padding-top: 0.8rem; display: grid; gap: 0.4rem; }\n.crowd-g\
roup { display: flex; flex-wrap: wrap; gap: 0.4rem; align-items: center; }\n.crowd-one { display: inline-flex; align-items: center; gap: 0.2\
5rem; }\n.crowd-output { font: 600 0.95rem var(--mono); background: var(--hover); border-radius: 0.3rem; padding: 0 0.35rem; }\n.crowd-flag \
{ color: var(--red); }\n.whys { list-style: none; padding: 0.7rem 0 0; display: grid; gap: 0.35rem; font-size: 1rem; }\n.why {\nbackground: \
var(--paper);\nborder-radius: 0.5rem;\npadding: 0.35rem 0.7rem;\nborder-left: 0.3rem solid var(--later);\nline-height: 1.35;\n}\n.why-stuck, \
.why-dead { border-color: var(--red); background: var(--red-soft); }\n.why-free { border-color: var(--go); }\n.why-hint { border-color: var(\
--line); color: var(--soft); background: none; }\n.why.is-selected { box-shadow: inset 0 0 0 0.14rem var(--ink); }\n.why-number { display: b\
lock; padding-top: 0.25rem; }\ntable { border-collapse: collapse; }\nth { text-align: left; font-weight: 600; }\ntbody th { color: var(--hue\
, inherit); }\n.values-table { margin-bottom: 1rem; width: 100%; }\n.values-table caption { text-align: left; color: var(--soft); font-size: \
0.88rem; }\n.values-table thead th, .beside thead th { color: var(--soft); font-weight: 500; font-size: 0.88rem; }\n.values-table td, .value\
s-table th, .beside td, .beside th {\npadding: 0.25rem 0.55rem 0.25rem 0;\nborder-bottom: 1px solid var(--line);\nfont-variant-numeric: tabu\
lar-nums;\n}\ntd.is-new { background: var(--now); color: var(--now-ink); font-weight: 700; }\n.beside { width: 100%; }\n.beside .is-other td \
{ font-weight: 600; }\n.beside .is-other td:last-child { background: var(--now); color: var(--now-ink); }\n.outcomes { display: grid; gap: 0\
.45rem; }\n.outcome {\ndisplay: grid;\ngrid-template-columns: 3.2rem 1fr;\ngap: 0.3rem 0.7rem;\nalign-items: center;\ntext-align: left;\nove\
rflow: hidden;\nwhite-space: normal;\nbackground: var(--paper);\npadding: 0.5rem 0.7rem;\n}\n.outcome-count { font-size: 1.35rem; font-weigh\
t: 700; text-align: right; }\n.outcome .meter { grid-column: 1 / 3; grid-row: 2; height: 0.4rem; }\n.outcome-stuck .meter i, .outcome-died .\
meter i { background: var(--red); }\n.outcome-said { display: grid; }\n.outcome code { color: var(--soft); font-size: 0.85em; }\n.outcome-st\
uck b, .outcome-died b { color: var(--red); }\n.outcome-ended b { color: var(--go); }\n#runs {\nflex: none;\nheight: 4.9rem;\nbackground: va\
r(--pane);\nborder-radius: 0.7rem;\ndisplay: flex;\ngap: 0.6rem;\npadding: 0.3rem 0.6rem;\ncontain: strict;\n}\nbody:not([data-mode=\"explor\
e\"]) #runs { height: 3.4rem; }\nbody[data-mode=\"quiz\"] #runs { display: none; }\n.tracks { position: relative; flex: 1; min-width: 0; }\n\
.runs-tools { flex: none; display: flex; flex-direction: column; justify-content: center; }\nbody:not([data-mode=\"explore\"]) .runs-tools { \
flex-direction: row; align-items: center; }\n.runs-tools button { min-height: 1.9rem; }\n.runs-tools [aria-pressed=\"true\"] { background: v\
ar(--hover); font-weight: 650; }\n.track {\ndisplay: grid;\ngrid-template-columns: 9.5rem 1fr 5rem;\ngap: 0.6rem;\nalign-items: center;\nhei\
ght: 1.6rem;\nborder-radius: 0.3rem;\n}\n.track.is-here { background: var(--hover); }\n.track-name {\nmin-height: 1.6rem;\npadding: 0 0.4rem\
;\ntext-align: left;\nfont-size: 0.9rem;\noverflow: hidden;\ntext-overflow: ellipsis;\n}\n.track .end { font-size: 0.88rem; }\n.rail { posit\
ion: relative; height: 100%; cursor: pointer; }\n.rail i { position: absolute; }\n.rail-bar { top: calc(50% - 0.18rem); height: 0.36rem; bor\
der-radius: 0.2rem; background: var(--later); }\n.rail-stuck, .rail-died { background: var(--red); }\n.rail-ended { background: var(--go); }\
\n.rail-fork {\ntop: calc(0.8rem - var(--up) * 1.6rem);\nheight: calc(var(--up) * 1.6rem);\nwidth: 0.3rem;\nborder-left: 0.14rem solid var(-\
-later);\nborder-bottom: 0.14rem solid var(--later);\nborder-bottom-left-radius: 0.3rem;\n}\n.rail-at {\ntop: 50%;\nwidth: 0.95rem;\nheight: \
0.95rem;\nmargin: -0.475rem;\nborder-radius: 50%;\nbackground: var(--now);\nbox-shadow: 0 0 0 0.16rem var(--ink);\n}\n.sheet {\nposition: fi\
xed;\nz-index: 20;\ndisplay: flex;\ngap: 1.2rem;\nbackground: var(--pane);\nborder-radius: 0.8rem;\npadding: 0.8rem;\nbox-shadow: 0 0.6rem 2\
.2rem #0005;\nmax-width: calc(100vw - 16px);\noverflow: auto;\n}\n.sheet-column { display: grid; align-content: start; }\n.sheet h2 { font-s\
ize: 0.85rem; color: var(--soft); font-weight: 550; padding: 0.3rem 0.6rem; }\n.sheet-row { display: flex; }\n.sheet-row [aria-pressed=\"tru\
e\"] { background: var(--hover); font-weight: 650; }\n.sheet-key { padding: 0.1rem 0.6rem; color: var(--soft); }\n.entry {\ndisplay: flex;\n\
gap: 1rem;\njustify-content: space-between;\ntext-align: left;\nalign-items: center;\nmin-height: 2rem;\n}\n.entry[aria-current] { font-weig\
ht: 700; background: var(--hover); }\nlabel.entry { justify-content: flex-start; gap: 0.6rem; padding: 0.3rem 0.6rem; cursor: pointer; }\n.e\
ntry-file input { width: 12rem; font-size: 0.8rem; }\n.entry select { background: var(--hover); border: 0; border-radius: 0.4rem; padding: 0\
.2rem; }\n.help-list {\ndisplay: grid;\ngrid-template-columns: 5.2rem minmax(9rem, 17rem);\ngap: 0.3rem 0.6rem;\nalign-items: center;\npaddi\
ng: 0 0.6rem;\n}\n.help-list dt { display: flex; justify-content: center; align-items: center; min-height: 1.4rem; color: var(--soft); }\n.h\
elp-list dd { line-height: 1.25; }\n.help-list .event-dot { display: inline-block; margin: 0; }\n.help-list .lane { position: static; margin\
: 0; height: 1.5rem; }\n.help-list .mark { position: relative; inset: 0; width: 100%; }\n.help-list .mark-dot { margin: 0 0 0 -0.33rem; left\
: 50%; }\n.help-list .token, .help-list .seat {\ndisplay: flex;\njustify-content: center;\nalign-items: center;\nmin-width: 3.4rem;\nheight: \
1.8rem;\nmin-height: 1.8rem;\nfont-size: 0.9rem;\n}\n.help-colour { width: 1.6rem; height: 1.1rem; border-radius: 0.3rem; background: var(--\
now); }\n.help-stuck { background: var(--red); }\n.help-ended { background: var(--go); }\n.help-later { background: color-mix(in srgb, var(-\
-hue0) var(--pale), var(--pane)); }\n.help-thread { background: linear-gradient(90deg, var(--hue0) 33%, var(--hue1) 0 66%, var(--hue2) 0); }\
\n.help-last .main { margin: 0.8rem 0.6rem 0; justify-self: start; }\n.copied {\nwidth: min(40rem, 80vw);\nfont-family: var(--mono);\nbackgr\
ound: var(--paper);\nborder: 1px solid var(--line);\n}\n[data-columns=\"2\"] #panes, .is-side[data-columns=\"2\"] #panes {\ngrid-template-co\
lumns: minmax(0, 1.1fr) minmax(0, 1fr);\n}\n.is-alone[data-columns=\"2\"] #panes { grid-template-columns: minmax(0, 1fr); }\n[data-columns=\"\
2\"] #code { display: none; }\n[data-columns=\"2\"][data-pane=\"code\"] #code { display: flex; }\n[data-columns=\"2\"][data-pane=\"code\"] #\
picture { display: none; }\n[data-columns=\"2\"] #tabs {\ndisplay: flex;\nalign-self: flex-end;\nbackground: var(--hover);\nborder-radius: 0\
.6rem;\npadding: 0.1rem;\nmargin: -0.2rem 0;\n}\n[data-columns=\"2\"] #tabs button { min-height: 1.7rem; padding: 0 0.8rem; }\n[data-columns\
=\"2\"] #tabs [data-pane=\"time\"] { display: none; }\n[data-columns=\"2\"] #again, [data-columns=\"2\"] .head-brand { display: none; }\n[da\
ta-columns=\"2\"] #runs { height: 3.6rem; }\n[data-columns=\"2\"] .runs-tools { flex-direction: row; align-items: center; }\n[data-columns=\"\
2\"] .card-large { font-size: 1.2rem; }\nbody[data-columns=\"2\"] { height: auto; min-height: 100dvh; overflow-y: auto; }\n[data-columns=\"2\
\"] #panes { flex: 1 0 17rem; height: 17rem; }\n[data-columns=\"2\"]:not([data-mode=\"explore\"]) #runs { display: none; }\n[data-columns=\"\
2\"]:not([data-pane=\"code\"]) #tabs [data-pane=\"picture\"],\n[data-columns=\"2\"] #tabs [data-pane=\"code\"][aria-pressed=\"true\"] {\nbac\
kground: var(--pane);\nfont-weight: 650;\nbox-shadow: inset 0 -0.16rem var(--ink);\n}\n\n@media (min-width: 901px) and (min-height: 521px) a\
nd (max-height: 800px) {\nbody:not([data-mode=\"explore\"]) { gap: 0.35rem; }\nbody:not([data-mode=\"explore\"]) #head { height: 2.7rem; }\n\
body:not([data-mode=\"explore\"]) #said { height: 3.5rem; font-size: 1.16rem; }\nbody:not([data-mode=\"explore\"]) #controls { height: 2.8re\
m; }\nbody:not([data-mode=\"explore\"]) .plan { height: 2.5rem; }\nbody:not([data-mode=\"explore\"]) .code-sheet { --high: 1.55rem; line-hei\
ght: 1.55rem; }\nbody:not([data-mode=\"explore\"]) .scene { padding: 0.3rem 0.8rem; font-size: 1rem; }\nbody:not([data-mode=\"explore\"]) .i\
s-roomy :is(.token, .seat) { min-height: 2.1rem; height: 2.1rem; }\nbody:not([data-mode=\"explore\"]) .is-roomy .visitors { min-height: 2.5r\
em; padding-top: 0.3rem; }\nbody:not([data-mode=\"explore\"]) :is(.crowd, .whys) { padding-top: 0.4rem; }\nbody:not([data-mode=\"explore\"]) \
.why { padding: 0.2rem 0.7rem; }\n}\n@media (max-width: 900px), (max-height: 520px) {\nhtml { font-size: calc(15.5px * var(--zoom)); }\nbody \
{ padding: 0 0.4rem 0.3rem; gap: 0.35rem; }\n.head-brand, #again, .head-size, .runs-tools, #ends, .head-spring { display: none; }\n#head { h\
eight: auto; flex-wrap: wrap; padding-top: 0.3rem; }\n#head-title { flex: 1; font-size: 1rem; }\n#pick { width: 100%; text-align: left; padd\
ing: 0.2rem 0.3rem; }\n#modes { margin: 0; order: 3; flex: 1 0 100%; }\n#modes button { padding: 0.1rem 0.3rem; flex: 1; min-height: 2.1rem; \
}\n#more { padding: 0.3rem 0.4rem; }\n.help-list { grid-template-columns: 5.2rem minmax(0, 1fr); }\n.vote { font-size: 1.05rem; padding: 0.1\
rem 0.45rem; gap: 0.4rem; }\n.vote b { font-size: 1.15rem; }\n.vote-less { min-width: 2.1rem; }\n.votes .main { min-width: 6.5rem; }\n.votes\
-list { display: grid; grid-template-columns: repeat(2, max-content); }\n.vote-place.is-out { display: none; }\n#said { height: 5.8rem; font\
-size: 1.06rem; padding: 0 0.6rem; gap: 0.5rem; }\n.is-long .said-text { font-size: 0.86em; }\n#next.is-many .next-place { display: none; }\n\
#controls { height: 6rem; flex-wrap: wrap; gap: 0 0.6rem; padding: 0.2rem 0.4rem; }\n#steps { flex: 1; order: 2; }\n#steps button { flex: 1; \
min-height: 2.7rem; }\n#where { order: 3; min-width: 4.2rem; text-align: right; }\n#next { order: 1; flex: 1 0 100%; height: 2.9rem; }\n.chi\
p { min-height: 2.6rem; }\n#tabs { display: flex; flex: none; background: var(--hover); border-radius: 0.6rem; padding: 0.15rem; }\n#tabs bu\
tton { flex: 1; min-height: 2.1rem; }\n#tabs [aria-pressed=\"true\"] { background: var(--pane); font-weight: 650; box-shadow: inset 0 -0.16r\
em var(--ink); }\n#panes, .is-side #panes { grid-template-columns: minmax(0, 1fr); }\n.pane { display: none; }\n[data-pane=\"time\"] #time, \
[data-pane=\"picture\"] #picture, [data-pane=\"code\"] #code { display: flex; }\n.is-side[data-pane=\"code\"] #code { display: flex; }\n#car\
d:has(.votes) { grid-template-columns: 1fr; }\n#card, [data-mode=\"quiz\"] #card {\ngrid-template-columns: 1fr;\nheight: auto;\nmax-height: \
40vh;\noverflow: auto;\ngap: 0.4rem;\npadding: 0.5rem 0.7rem;\n}\n.card-large, [data-mode=\"quiz\"] .card-large { font-size: 1.12rem; }\n.ca\
rd-turn { flex-direction: row; align-items: center; max-width: none; flex-wrap: wrap; }\n.card-ask, .card-reply { overflow: visible; }\n.car\
d-reply:not(:has(.card-answer, .votes, .option, p:not(.card-small))) { display: none; }\n.dots { margin: 0 auto 0 0; padding: 0; }\n.card-ve\
rdict { flex: 1 0 100%; overflow: visible; }\nbody:not([data-mode=\"explore\"]) #runs { display: none; }\n#runs { height: 3.6rem; }\n.track \
{ grid-template-columns: 6.5rem 1fr 4.4rem; }\n.sheet { flex-direction: column; left: 8px !important; right: 8px; gap: 0.3rem; }\n.entry { m\
in-height: 2.4rem; }\n.sheet-keys { display: none; }\n}\n@media (min-width: 480px) and (max-height: 520px) {\nbody {\ndisplay: grid;\ngrid-t\
emplate:\n\"head head\" auto \"check check\" auto \"stage panes\" max-content \"tabs panes\" 1fr\n/ minmax(15rem, 44%) minmax(0, 1fr);\n}\nb\
ody:not([data-mode=\"explore\"]) {\ngrid-template:\n\"head head\" auto \"check check\" auto \"card stage\" max-content \"card tabs\" auto \"\
card panes\" minmax(0, 1fr)\n/ minmax(15rem, 46%) minmax(0, 1fr);\n}\n#head { grid-area: head; flex-wrap: nowrap; padding: 0; height: 2.4rem\
; }\n#check { grid-area: check; }\n#check:not(.is-wrong) { display: none; }\n#modes { order: 0; flex: none; }\n#modes button { padding: 0.1r\
em 0.5rem; }\n#stage { grid-area: stage; min-height: max-content; }\n#panes { grid-area: panes; min-height: 0; }\n#tabs { grid-area: tabs; a\
lign-self: end; min-width: 0; }\n#tabs button { padding: 0 0.2rem; min-width: 0; }\n#card, [data-mode=\"quiz\"] #card { grid-area: card; max\
-height: none; min-height: 0; align-content: start; }\n#runs { display: none; }\n#said { height: clamp(5.8rem, 100dvh - 13.5rem, 11rem); }\n\
body:not([data-mode=\"explore\"]) #said { height: clamp(3.6rem, 100dvh - 20rem, 5.8rem); font-size: 0.98rem; }\n.card-turn { position: stick\
y; bottom: -0.5rem; background: var(--pane); padding-bottom: 0.3rem; }\nbody:not([data-mode=\"explore\"]) #controls { height: auto; }\nbody:\
not([data-mode=\"explore\"]) .next-label { display: none; }\nbody:not([data-mode=\"explore\"]) .chip { padding: 0.15rem 0.6rem; }\nbody:not(\
[data-mode=\"explore\"]) #steps button { min-height: 2.3rem; }\n.is-veiled #next { display: none; }\n.options { grid-template-columns: 1fr; \
}\n}\n@media (forced-colors: active) {\n.chip, .token, .seat, .thing, .pane, .vote, .option, #card, .why, .sheet, #check.is-wrong { border: \
1px solid; }\n.chip-own { border: 3px solid; }\n.line.is-here { background: Highlight; color: HighlightText; forced-color-adjust: none; }\n.\
code-now { border: 2px solid Highlight; }\n.places { border: 1px solid; background: Canvas; }\n.line.is-here .event, .line.is-here .line-num\
ber, .line.is-here .event-tag {\ncolor: HighlightText;\nbackground: none;\n}\n.lane, .event-dot, .mark-dot, .rail-bar, .rail-at, .meter i, .\
dot { forced-color-adjust: none; }\n#modes [aria-pressed=\"true\"], .views [aria-pressed=\"true\"], #tabs [aria-pressed=\"true\"] {\noutline\
: 2px solid Highlight;\n}\n.code-typed { color: transparent; forced-color-adjust: none; caret-color: CanvasText; }\n.code-wave { border-colo\
r: Highlight; }\n}\n@media print {\nhtml { font-size: 11pt; color-scheme: light; }\nbody { display: block; height: auto; overflow: visible; \
background: #fff; color: #000; padding: 0; }\nbody > *:not(#paper) { display: none !important; }\n#paper { display: block; }\n#paper h1 { fo\
nt-size: 16pt; }\n#paper p { margin: 4pt 0; }\n#paper pre { font: 9.5pt var(--mono); border: 1pt solid #999; padding: 6pt; white-space: pre-\
wrap; }\n#paper table { width: 100%; font-size: 9.5pt; }\n#paper td, #paper th { border-bottom: 0.5pt solid #999; padding: 2pt 5pt; text-ali\
gn: left; vertical-align: top; }\n#paper .is-own { font-weight: 700; }\n#paper small { display: block; color: #555; }\n#paper .paper-number \
{ color: #555; }\n#paper tr { break-inside: avoid; }\n.paper-rule { display: block; height: 18pt; border-bottom: 0.5pt solid #999; }\n}\n</s\
tyle>\n</head>\n<body data-mode=\"explore\" data-pane=\"time\" data-tab=\"picture\">\n<section id=\"texts\">\n<p>This page plays a run of a \
program. It needs its script, which it holds itself. Without it, the run stands here as text. In the trace t0, p0, b0 and c0 are the first t\
hread, phaser, barrier and cell of the program.</p>\n<h2>Program, in canonical form</h2>\n<pre id=\"listing\">\n";

/// What stands between the listing and the program's text.
#[rattlefmt::skip]
pub const BEFORE_SOURCE: &[u8] = b"\
</pre>\n<h2>Program, as it was written</h2>\n<pre id=\"source\">\n";

/// What stands between the program's text and the schedule.
#[rattlefmt::skip]
pub const BEFORE_SCHEDULE: &[u8] = b"\
</pre>\n<h2>Schedule</h2>\n<pre id=\"schedule\">\n";

/// What stands between the schedule and the trace.
#[rattlefmt::skip]
pub const BEFORE_TRACE: &[u8] = b"\
</pre>\n<h2>Trace</h2>\n<pre id=\"trace\">\n";

/// Part 1 of what a page ends with: the app, and the machine in it.
#[rattlefmt::skip]
pub const TAIL_1: &[u8] = b"\
</pre>\n</section>\n<header id=\"head\">\n<span class=\"head-brand\" aria-hidden=\"true\">Vuthgal</span>\n<h1 id=\"head-title\"><button id=\"\
pick\" type=\"button\" aria-haspopup=\"true\" aria-expanded=\"false\"><b id=\"title\">Vuthgal</b></button></h1>\n<div id=\"modes\" role=\"gr\
oup\" aria-label=\"What to do\">\n<button type=\"button\" data-mode=\"explore\" aria-pressed=\"true\">Explore</button>\n<button type=\"butto\
n\" data-mode=\"lesson\" aria-pressed=\"false\">Lesson</button>\n<button type=\"button\" data-mode=\"quiz\" aria-pressed=\"false\">Quiz</but\
ton>\n<button type=\"button\" data-mode=\"challenge\" aria-pressed=\"false\">Challenge</button>\n</div>\n<span class=\"head-spring\"></span>\
\n<button id=\"again\" type=\"button\" title=\"The program and its plan as they were at first\">Start again</button>\n<button id=\"smaller\" \
type=\"button\" class=\"head-size\" title=\"Smaller (-)\" aria-label=\"Smaller\">A&#8722;</button>\n<button id=\"larger\" type=\"button\" cl\
ass=\"head-size\" title=\"Larger (+)\" aria-label=\"Larger\">A+</button>\n<button id=\"help\" type=\"button\" aria-haspopup=\"dialog\" aria-\
expanded=\"false\" title=\"Help (?)\" aria-label=\"Help\">?</button>\n<button id=\"more\" type=\"button\" aria-haspopup=\"true\" aria-expand\
ed=\"false\">Menu</button>\n</header>\n<p id=\"check\" role=\"status\" hidden></p>\n<section id=\"card\" aria-label=\"Lesson or quiz\" hidde\
n></section>\n<section id=\"stage\" aria-label=\"This choice\">\n<p id=\"said\" role=\"status\" aria-live=\"polite\"><span class=\"said-badg\
e\">0</span><span class=\"said-text\">The machine is being unpacked.</span></p>\n<div id=\"controls\">\n<div id=\"steps\" role=\"group\" ari\
a-label=\"Steps\">\n<button type=\"button\" id=\"first\" title=\"To the start (Home)\" aria-label=\"To the start\"><svg viewBox=\"0 0 16 16\" \
aria-hidden=\"true\"><path d=\"M2 2h3v12H2zM14 2v12L6 8z\"/></svg></button>\n<button type=\"button\" id=\"back\" title=\"One choice back (le\
ft arrow)\" aria-label=\"Back\"><svg viewBox=\"0 0 16 16\" aria-hidden=\"true\"><path d=\"M13 2v12L3 8z\"/></svg></button>\n<button type=\"b\
utton\" id=\"forth\" class=\"main\" title=\"One choice forward (right arrow)\" aria-label=\"Forward\"><svg viewBox=\"0 0 16 16\" aria-hidden\
=\"true\"><path d=\"M3 2v12l10-6z\"/></svg></button>\n<button type=\"button\" id=\"last\" title=\"To the end (End)\" aria-label=\"To the end\
\"><svg viewBox=\"0 0 16 16\" aria-hidden=\"true\"><path d=\"M11 2h3v12h-3zM2 2v12l8-6z\"/></svg></button>\n</div>\n<output id=\"where\"></o\
utput>\n<div id=\"next\" role=\"group\" aria-label=\"May go next\"></div>\n<output id=\"ends\"></output>\n</div>\n</section>\n<nav id=\"tabs\
\" aria-label=\"Panes\">\n<button type=\"button\" data-pane=\"time\">Timeline</button>\n<button type=\"button\" data-pane=\"picture\">Pictur\
e</button>\n<button type=\"button\" data-pane=\"code\">Program</button>\n</nav>\n<main id=\"panes\">\n<section id=\"code\" class=\"pane\" ar\
ia-label=\"Program\"></section>\n<section id=\"time\" class=\"pane\" aria-label=\"Timeline\"></section>\n<section id=\"picture\" class=\"pan\
e\" aria-label=\"Picture\"></section>\n</main>\n<footer id=\"runs\" aria-label=\"Runs\"></footer>\n<div id=\"sheet\" class=\"sheet\" role=\"\
dialog\" aria-label=\"Menu\" hidden></div>\n<div id=\"note\" role=\"status\" aria-live=\"polite\"></div>\n<div id=\"paper\" aria-hidden=\"tr\
ue\"></div>\n<script type=\"application/json\" id=\"programs\">[{\"group\": \"Lessons\", \"name\": \"lost-meeting\", \"title\": \"Lost meeti\
ng\", \"program\": \"; A lost meeting: ann and bob are the two parties of `meet`, and each waits there for the other. Cem isn't registered, \
and\\n; arrives all the same.\\n.phaser meet 2\\n.thread ann party\\n.thread bob party\\n.thread cem stray\\nparty: paaa r0 meet ; arriveAnd\
AwaitAdvance\\n       out r0       ; the phase that begins with it\\n       halt\\nstray: parr r0 meet ; arrive\\n       halt\\n\", \"plan\"\
: \"t0 t2*2 t0*3 t1*2\"}, {\"group\": \"Lessons\", \"name\": \"broken-barrier\", \"title\": \"Broken barrier\", \"program\": \"; A broken ba\
rrier: ann, bob and cem meet at `gate`, and eve interrupts ann while she waits there. Each puts out what it got:\\n; 3 is InterruptedExcepti\
on, 4 is BrokenBarrierException.\\n.barrier gate 3\\n.thread ann runner\\n.thread bob runner\\n.thread cem runner\\n.thread eve judge\\nrunn\
er: try failed\\n        cawait r0 gate ; await\\n        out r0\\n        halt\\nfailed: out r7         ; r7 holds the exception\\n        \
halt\\njudge:  intr ann       ; ann.interrupt()\\n        halt\\n\", \"plan\": \"t0*2 t1*2 t3*2 t1 t0 t1 t0*3 t1*3 t2*5\"}, {\"group\": \"Le\
ssons\", \"name\": \"two-orders\", \"title\": \"Two orders\", \"program\": \"; Two meetings in different orders: ann goes to `left` and then \
to `right`, bob goes to `right` and then to `left`. Both\\n; phasers have two parties.\\n.phaser left 2\\n.phaser right 2\\n.thread ann one\\\
n.thread bob other\\none:   paaa r0 left\\n       paaa r0 right\\n       halt\\nother: paaa r0 right\\n       paaa r0 left\\n       halt\\n\"\
, \"plan\": \"t0 t1 t0 t1\"}, {\"group\": \"Lessons\", \"name\": \"late-team\", \"title\": \"Late team\", \"program\": \"; A team that joins \
late: ann and bob are team `red`. Team `blue` is empty until cem registers there, and no party of `both`\\n; before that.\\n.phaser both 0\\\
n.phaser red 2 parent both\\n.phaser blue 0 parent both\\n.thread ann reds\\n.thread bob reds\\n.thread cem joins\\nreds:  paaa r0 red  ; ar\
riveAndAwaitAdvance\\n       out r0       ; the phase that begins with it\\n       halt\\njoins: preg r0 blue ; register\\n       out r0       \
; the phase for which he did\\n       paaa r0 blue ; arriveAndAwaitAdvance\\n       out r0\\n       halt\\n\", \"plan\": \"t0 t1*3 t0*3 t2*3\
\"}, {\"group\": \"Tutorial\", \"name\": \"late\", \"title\": \"Late\", \"program\": \"; Lunch: Ann waits for Bob, but not for ever.\\n.phas\
er table 2\\n.thread ann waiter\\n.thread bob guest\\nguest:  paaa r0 table\\n        halt\\nwaiter: try alone\\n        parr r0 table\\n        \
ldi r1 10\\n        pawaitt r2 table r0 r1\\n        out r2\\n        halt\\nalone:  out r7\\n        halt\\n\", \"plan\": \"ann. xann ann. \
bob.\"}, {\"group\": \"Tutorial\", \"name\": \"lunch\", \"title\": \"Lunch\", \"program\": \"; Lunch: nobody begins to eat before both are a\
t the table.\\n.phaser table 2\\n.thread ann guest\\n.thread bob guest\\nguest:  paaa r0 table\\n        out r0\\n        halt\\n\", \"plan\"\
: \"ann. bob. ann.\"}, {\"group\": \"Examples\", \"name\": \"advance-routine\", \"title\": \"Advance routine\", \"program\": \"; A routine a\
s `onAdvance`: the last to arrive runs it, with the phase in r0 and the registered parties in r1, and has its\\n; own registers back afterwa\
rds. Where r0 isn't 0 at `ret` the phaser terminates: here at the end of phase 1.\\n.cell ends\\n.phaser p 2 onadvance count\\n.thread a mai\
n\\n.thread b main\\nmain:  paaa r2 p\\n       paaa r3 p\\n       halt\\ncount: lds r5 ends\\n       ldi r6 1\\n       add r5 r5 r6\\n       \
sts r5 ends\\n       ret\\n\", \"plan\": \"t0 t1*7 t0*7 t1*2 t0\"}, {\"group\": \"Examples\", \"name\": \"barrier-action\", \"title\": \"Bar\
rier action\", \"program\": \"; A barrier with an action: the last of three to arrive runs it, before the others go on, and has its own regi\
sters back\\n; afterwards. `await` answers how many were still to arrive: 2, 1 and 0.\\n.cell message\\n.barrier gate 3 action act\\n.thread \
a meet\\n.thread b meet\\n.thread c last\\nmeet: cawait r0 gate\\n      halt\\nlast: ldi r1 7\\n      cawait r0 gate\\n      lds r2 message\\\
n      halt\\nact:  sts r1 message ; the registers are those of the thread that runs it\\n      ldi r1 0       ; undone at `ret`\\n      ret\
\\n\", \"plan\": \"t0 t1 t2*2 t0 t2*3 t1*2 t2*2 t0*2\"}, {\"group\": \"Examples\", \"name\": \"exception\", \"title\": \"Exception\", \"prog\
ram\": \"; An arrival for which no party is registered: IllegalStateException, 1, which nobody catches.\\n.phaser p 0\\n.thread a main\\nmai\
n: ldi r0 -5\\n      out r0\\n      parr r1 p ; throws\\n      halt\\n\", \"plan\": \"t0*5\"}, {\"group\": \"Examples\", \"name\": \"excepti\
ons\", \"title\": \"Exceptions\", \"program\": \"; An exception in an advance routine: it unwinds the routine and a call, and the handler be\
low them catches it. The phase\\n; doesn't end, and nobody is left to arrive: the next arrival is an IllegalStateException, caught as well.\\\
n.phaser p 1 phase 3 onadvance fail\\n.thread a main\\nmain:   try caught\\n        call arrive\\n        endtry\\n        halt\\narrive: pa\
rr r0 p\\n        ret\\nfail:   ldi r3 100\\n        throw r3\\ncaught: out r7         ; 100\\n        pphase r1 p    ; still 3\\n        tr\
y again\\n        parr r0 p\\nagain:  out r7         ; 1\\n        halt\\n\", \"plan\": \"t0*15\"}, {\"group\": \"Examples\", \"name\": \"ha\
ndler\", \"title\": \"Handler\", \"program\": \"; An exception that is caught: a thread arrives where nobody is registered, catches the Ille\
galStateException, 1, and\\n; reports its code by a call.\\n.phaser p 0\\n.thread a main\\nmain:   try caught\\n        parr r0 p      ; Ill\
egalStateException: 1\\n        endtry\\n        halt\\ncaught: call report    ; r7 holds the code\\n        halt\\nreport: out r7\\n        \
ret\\n\", \"plan\": \"t0*7\"}, {\"group\": \"Examples\", \"name\": \"interrupt\", \"title\": \"Interrupt\", \"program\": \"; An interrupted \
status: one thread interrupts another, which waits for a flag and then looks at its status twice. The\\n; first look clears it.\\n.cell flag\
\\n.thread a main\\n.thread b other\\nmain:  intr b\\n       ldi r0 7\\n       sts r0 flag\\n       halt\\nother: lds r0 flag\\n       beq r\
0 r1 other ; until the flag is set\\n       intrd r2        ; 1\\n       intrd r3        ; 0\\n       halt\\n\", \"plan\": \"t1*2 t0*4 t1*5\"\
}, {\"group\": \"Examples\", \"name\": \"interrupted-waits\", \"title\": \"Interrupted waits\", \"program\": \"; What an interrupt does to a \
wait: `awaitAdvance` goes on and the status is kept; `awaitAdvanceInterruptibly` throws\\n; InterruptedException, 3; a wait at a barrier doe\
s so too and breaks it, so that the other throws BrokenBarrierException, 4.\\n.phaser p 1\\n.barrier gate 3\\n.thread a plain\\n.thread b op\
en\\n.thread c party\\n.thread d party\\n.thread e waker\\nplain: pawait r0 p r1  ; r1 is 0, the phase\\n       intrd r2        ; 1\\n       \
halt\\nopen:  pawaiti r0 p r1\\n       halt\\nparty: cawait r0 gate\\n       halt\\nwaker: intr a\\n       intr b\\n       intr c\\n       c\
broken r0 gate\\n       parr r1 p       ; ends the phase\\n       halt\\n\", \"plan\": \"t0 t1 t2 t3 t4*3 t0 t1*2 t2*2 t4 t3*2 t4*2 t0*3\"}, \
{\"group\": \"Examples\", \"name\": \"meeting\", \"title\": \"Meeting\", \"program\": \"; Two threads meet at a phaser: the first to arrive \
waits, the last to arrive ends the phase and goes on at once.\\n.phaser p 2\\n.thread a main\\n.thread b main\\nmain: paaa r0 p\\nout r0\\nh\
alt\\n\", \"plan\": \"t0 t1 t0*3 t1*2\"}, {\"group\": \"Examples\", \"name\": \"open-door\", \"title\": \"Open door\", \"program\": \"; Ann \
opens a door and waits at `meet` for bob. Bob looks once: if the door is open he comes, too; if not he goes home, and ann\\n; waits for ever\
. The schedule is the one in which bob looks too early.\\n.phaser meet 2\\n.thread ann opens\\n.thread bob looks\\nopens: ldi r0 1\\n       \
sts r0 #0\\n       paaa r1 meet\\n       halt\\nlooks: lds r0 #0        ; the door\\n       beq r0 r2 gone\\n       paaa r1 meet\\ngone:  ha\
lt\\n\", \"plan\": \"t1*3 t0*3\"}, {\"group\": \"Examples\", \"name\": \"policies\", \"title\": \"Policies\", \"program\": \"; A first phase\
, two policies, and the view that a terminated phaser shows. The last choice names a thread that isn't\\n; there, and so ends the run.\\n.ph\
aser p 1 phase 2147483647 never  ; the phase after 2147483647 is 0\\n.phaser q 1 phase 6 until 7         ; terminates as phase 7 ends\\n.thr\
ead t main\\nmain: parr r0 p\\n      parr r1 q\\n      parr r2 q\\n      paaa r3 q                     ; terminated: answers the view, a neg\
ative number\\n      halt\\n\", \"plan\": \"t0*5 t1\"}, {\"group\": \"Examples\", \"name\": \"stray-arrival\", \"title\": \"Stray arrival\", \
\"program\": \"; A stray arrival. The reader and the writer are the two parties of `done`: the reader waits there until the writer has\\n; s\
tored its number. A third thread, which isn't registered, arrives all the same, and the phase ends too early: under\\n; stray-arrival.schedu\
le the reader puts out 0. stray-arrival.commands is a session of the debugger that finds out why, and\\n; stray-arrival.session what it answ\
ers.\\n.phaser done 2\\n.cell total\\n.thread reader read\\n.thread writer write\\n.thread stray arrive\\nread:   paaa r0 done ; row 0\\n        \
lds r1 total ; row 1, where the number has to be there\\n        out r1\\n        halt\\nwrite:  ldi r0 7\\n        sts r0 total\\n        p\
arr r1 done\\n        halt\\narrive: parr r0 done ; row 8\\n        halt\\n\", \"plan\": \"t0 t2*2 t0*4 t1*4\"}, {\"group\": \"Examples\", \"\
name\": \"stuck\", \"title\": \"Stuck\", \"program\": \"; Two threads wait for a third party that never arrives. Both have arrived, and no c\
hoice can make either of them go on.\\n.phaser gate 3\\n.thread a main\\n.thread b main\\nmain: paaa r0 gate\\n      halt\\n\", \"plan\": \"\
t0 t1 t0 t1\"}, {\"group\": \"Examples\", \"name\": \"three-phases\", \"title\": \"Three phases\", \"program\": \"; Two threads pass three p\
hases. The last to arrive never waits, whoever it is.\\n.phaser p 2\\n.thread left meets\\n.thread right arrives\\n\\nmeets:   paaa r0 p      \
; waits for the other\\n         paaa r1 p      ; is the last, and goes on at once\\n         paaa r2 p\\n         halt\\narrives: parr r0 p      \
; is the last: the phase ends here\\n         paaa r1 p\\n         parr r2 p\\n         halt\\n\", \"plan\": \"t0 t0 t1 t0 t1 t0*2 t1 t0 t1*\
2 t0*2\"}, {\"group\": \"Examples\", \"name\": \"tiers\", \"title\": \"Tiers\", \"program\": \"; A tree of phasers: each child is one party \
of the root, arrives there once all of its own parties have arrived, and\\n; leaves it with its last party. The phase ends for the whole tre\
e at once.\\n.phaser root 0\\n.phaser left 2 parent root\\n.phaser right 1 parent root\\n.thread a meet\\n.thread b meet\\n.thread c alone\\\
nmeet:  paaa r0 left\\n       halt\\nalone: pparties r1 root ; 2, the two children\\n       paaa r0 right    ; its last party, so the child \
arrives at the root\\n       pphase r2 left   ; the tree has one phase\\n       pdereg r3 right  ; its last party, so the child leaves the r\
oot\\n       pparties r4 root\\n       halt\\n\", \"plan\": \"t0 t2*2 t1 t2*5 t0*2 t1\"}, {\"group\": \"Examples\", \"name\": \"timed-wait\"\
, \"title\": \"Timed wait\", \"program\": \"; Timed waits: time is a choice of the schedule, `x0` where thread 0's wait expires. At a phaser \
an expiry is\\n; TimeoutException, 5, and nothing else; at a barrier it breaks the barrier too. Of a thread that has no timed wait it is idl\
e.\\n.phaser p 1\\n.barrier gate 3\\n.thread a first\\n.thread b second\\nfirst:  ldi r1 10          ; the time, which has to be above 0\\n        \
try late\\n        pawaitt r0 p r2 r1 ; r2 is 0, the phase\\n        halt\\nlate:   out r7\\n        cawaitt r0 gate r1\\n        halt\\nsec\
ond: ldi r1 10\\n        cawaitt r0 gate r1\\n        halt\\n\", \"plan\": \"t0*3 x1 t0 x0 t0*3 t1*2 x1 t0*2 t1\"}, {\"group\": \"From Java\"\
, \"name\": \"awaiting\", \"title\": \"Awaiting\", \"program\": \"; Awaiting without arriving, for some time; then everybody is released.\\n\
.phaser work 2\\n.thread ann works\\n.thread guard waits\\nworks: paaa r0 work         ; work.arriveAndAwaitAdvance()\\n       out r0               \
; prints -2147483648: phase 0, terminated\\n       halt\\nwaits: ldi r1 100\\n       try late             ; try {\\n       pawaitt r0 work r\
7 r1 ; work.awaitAdvanceInterruptibly(0, 100, MILLISECONDS);\\n       halt\\nlate:  out r7               ; } catch (TimeoutException e) { pr\
ints 5\\n       pforce work          ;   work.forceTermination(); }\\n       halt\\n\", \"plan\": \"..\"}, {\"group\": \"From Java\", \"name\
\": \"breakage\", \"title\": \"Breakage\", \"program\": \"; A third party never comes: the first to lose patience breaks the barrier for bot\
h.\\n.barrier three 3\\n.thread ann hurried\\n.thread bob patient\\nhurried: ldi r1 100\\n         try late\\n         cawaitt r0 three r1 ; \
three.await(100, MILLISECONDS)\\n         halt\\nlate:    out r7              ; catch (TimeoutException e): prints 5\\n         cbroken r0 t\
hree    ; three.isBroken()\\n         out r0              ; prints 1\\n         halt\\npatient: try broke\\n         cawait r0 three     ; t\
hree.await()\\n         halt\\nbroke:   out r7              ; catch (BrokenBarrierException e): prints 4\\n         halt\\n\", \"plan\": \".\
.\"}, {\"group\": \"From Java\", \"name\": \"merge\", \"title\": \"Merge\", \"program\": \"; A barrier with an action: the last to arrive me\
rges the two parts.\\n.barrier both 2 action merge ; new CyclicBarrier(2, merge)\\n.cell left\\n.cell right\\n.cell total\\n.thread ann one\\\
n.thread bob two\\none:   ldi r1 3\\n       sts r1 left          ; left = 3\\n       jmp meet\\ntwo:   ldi r1 4\\n       sts r1 right         \
; right = 4\\nmeet:  cawait r0 both       ; both.await()\\n       lds r2 total\\n       out r2               ; prints 7\\n       halt\\nmerg\
e: lds r1 left          ; the action: total = left + right\\n       lds r2 right\\n       add r1 r1 r2\\n       sts r1 total\\n       ret\\n\
\", \"plan\": \"..\"}, {\"group\": \"From Java\", \"name\": \"rounds\", \"title\": \"Rounds\", \"program\": \"; Three rounds: the phaser ter\
minates after the last, and each thread counts its rounds.\\n.phaser rounds 2 onadvance ends\\n.thread ann work\\n.thread bob work\\nwork: l\
di r1 1\\nagain: add r2 r2 r1     ; do { got++;\\n      paaa r0 rounds    ;   rounds.arriveAndAwaitAdvance();\\n      pterm r0 rounds   ; } \
while (!rounds.isTerminated());\\n      beq r0 r7 again   ; r7 is 0\\n      out r2            ; prints 3\\n      halt\\nends: ldi r1 2          \
; boolean onAdvance(int phase, int parties) {\\n      blt r0 r1 no      ;   return phase >= 2;\\n      ldi r0 1          ; }\\n      ret\\nn\
o:   ldi r0 0\\n      ret\\n\", \"plan\": \"..\"}, {\"group\": \"From Java\", \"name\": \"start-gate\", \"title\": \"Start gate\", \"program\
\": \"; A start gate: two threads begin their work when a third one lets them.\\n.phaser gate 3         ; new Phaser(3)\\n.thread opener ope\
n\\n.thread ann work\\n.thread bob work\\nopen: pdereg r0 gate   ; gate.arriveAndDeregister()\\n      out r0           ; prints 0\\n      ha\
lt\\nwork: paaa r0 gate     ; gate.arriveAndAwaitAdvance()\\n      out r0           ; prints 1\\n      halt\\n\", \"plan\": \"..\"}, {\"grou\
p\": \"From Java\", \"name\": \"tree\", \"title\": \"Tree\", \"program\": \"; A tree for many threads: at most two at a phaser, and one phas\
e for all.\\n.phaser root 0              ; new Phaser()\\n.phaser left 2 parent root  ; new Phaser(root, 2)\\n.phaser right 1 parent root ; \
new Phaser(root, 1)\\n.thread ann pair\\n.thread bob pair\\n.thread cem alone\\npair:  paaa r0 left         ; left.arriveAndAwaitAdvance()\\\
n       out r0               ; prints 1\\n       halt\\nalone: pparties r0 root     ; root.getRegisteredParties()\\n       out r0               \
; prints 2\\n       paaa r0 right        ; right.arriveAndAwaitAdvance()\\n       halt\\n\", \"plan\": \"..\"}]</script>\n<script type=\"tex\
t/plain\" id=\"machine\">H4sIAAAAAAACA+y9a5gdx3UY2FXVr3v73js9DwADDEBWNyhqIAgDUCQH0Iws4XYEkDK16yFF0Qg3jqkHbZqkRBKEuPT6YmZIgNDIkaORJVJwHNtwYmf\
gB9aw4rURR1mPsspnxFEUKPZaiK2VYEtew469Qix7gySMmPOq7r7zAKin/UMg73RVdXU9Tp2qOufUqXO8tz35LuV5nvqI//oH9OysmnvAzM7Oehj2HlAY92cpgR4QDWY5ruBnOMmfnZN\
P1Cz8naNC5vARUmZXKrzFUuak0DnvgXh2tswRSZCKhXfN2dnaWyVle9wAfs5Jw+boMTfHFbkH5Zmbwye0A55SNFePyfSgPs25zs1RmSEmzEllc9TQubIpXBgkqjlqNkZmXQuoT3NzXFt\
AQakes3Afueo5VxgnhK733O85jghQXEtmpfsIDMk3R/kC17jWrGspxxvUcYl48EvK0l1+KYTjHY5XKebnzJLRHU+pMFJmKBgKtjc85fsbo7iZeOamIPaMMb7nbRpVjVEIbn6F7xmtYg/\
/GR201M3K1+GQ0uaVWg80Vao97XlNg+8jE0E4Ut6WsbHUV8p0xtMdr9qstm5TWivAzBt2vnrrcOJtC+IBb9h4ESQqb1caaOUpLAf/o5J8/4ZIaw3FKWid0v6wwn++0Q2lgrYXBkEc3Og\
1Gh5U4w2pWLXbAXQkDJXaCJ3TCutTcaw84+vAC0IV+rrTCVKoCsr0Op4Z8PyBxBoVNsMQehoaPRHELQNlhKGnowiK9hra1xr7Rf3HRiqvZW400MfE8+LdAJe2yvxgTzDQuiV5jc5sqxV\
tuhUaHKoAcww3AaCep6EXt6nboQeTUWT2Dg4OjowEg/tGTNT24mCk/do8yNXUlunXfccgjMyGKGxu2ABtVkPz8ypswHQp5ueXvSS64t8YvuvBdz12+Ae1lzz1niMPff/bHv1emPXes6b\
lom9/7MhD3jEz4OLveOixH3jHg096x2tJj73r8bcdftB7zrRd0jsffPt7vt87YTou4cGnH3/wHUe891YFP/oDTx7xFqpS3gXxtz3yoPc+Uzbl8Hve7f2wGXHRJx988skfeOzd3/v2t73\
jEe/vmQ0r09/x6GNPPui932xa9eKxd73rbe9+p/cjq8t6x2OP/6D391d/8uC73/b2Rx98p/eB1dV8/2Pfe+Qxb3F1WY8+9tgj3gdXpz/2+IPv9n50dUEA2QcPex9aXflj7zny+HuOPOl\
9ePU3hx98/NEf9J5f/QKAB1B5oYLnUw8exhfeR8zGFUnf++73vOvtUPPJ1U198siDj3s/Vg3SOw+/7X/1/kEVf/zRt73b+/FqnJ988MF3Pun9w6pWGOdH3/YD7/Z+wviHH3vsXd5PmwY\
+ecz+kWkp1Tz28yNL5j8FOoYVZLtXzGdHc32TZ/VS4e01V6wELrvAJRe46ALnXGAZA1YXL9neXnMWIsWe3lIXirRLLyZQYnHO9jLDGTK/eGZ+Ps4CvV/vN/CzivJD5lTl4UzePND2rIf\
levAs4h6UvLQDiuV4CnEDcS8POWFUEuI84gQrX1yUL8YlfknieyR+WeL7JH6F4tCRcK85Tz2K9poLtmUSvR8m6nxMuc7ZPDpqw/vbXjfOmi0NL21Ib5ZtHtvo6KG2B0m6OGt7Nkw15As\
hn0mkF5kvmTNXXhYlNrJhL2sgSKxvo14eEUy4HttsKxstMVRtuPRi0/NaKoFkb2UyVmJjNyCN2hC5cY3lmcpzVJ4u37gNirleHszAKCRUHqf25xpdUYorlXpOvZtpe9Lh9BT0HcZTMbQ\
biBmT5dA2pyjYqlJTGQ6vGl6Mxv2Dm/aP7Wj/0K4Y2fG9BBpA8d5NXnJKq3BWM+Z5hEnmKLcGwzA8MAT63rE8QNgHhTmWhYWX+ZA/KPx7Ke3Fl9SxLMJUg6X4vRzAbfAZL+3yPOyTLhT\
UHuPfMkVTiq6lGEoxZUpk/QJK8e8B6Ntwpq0TKj7TVDpVBzX59UrgnY8P34Y4ctBW+BjwEgoIcBQUTg8bCH54S9hn+DToufmFbdecdhTTguRzsNPxomBpTeh6WcjgclAyxdxz90Hhxqp\
erorYwu++sVzx+BEcC3UiD+CbANLx6eMcon/LHkBXFd5bcKYgxhOywIc8HFhoodKfMjzQS131xIG25mHODGK+hiFQ6U9yBo8zKMaSDJGNcEgh0kN3DTy7KgsRASyMvw2T54xKZqF3y/p\
obiDFFBcVLViXPVqwDHYTohdUGcVVKvUpCP8jNkDDDYxDjFCAmudVFlDg8Syk50NZRM9DMNHxOZM16Lk/a9JzPEvouS9rcQMA7aASSrug8nahLPzuG0sD66cI/haCKcHpBJEGRpoSiTA\
SS4QGPZRZB6Xd4l1U1VJKNWGouOSVK4mbnQZRC6eLWdAuYvea+TIyutdcVS6Swi5RRmDRuVxGcLdQ61UIvQbA40T81HY9MNtGNDvlu4G4zAOxSJDHCQZl8gpjZB3j5yWDgS//1qf/zdL\
7/8NH/xK3JUr5gy8+/+Xf/bP/8LE/g5QLlPLnn/vgl1/45Gd/7YuQcp5S/uq3/u2xz/zi7//al3HrMlLgZYPtMjzQOHI0EJcAe84rF7sMsQtKPtgjz33yvFOeM/J8SJ4P0NfFSb+H62g\
V3l8LH6Lil42g0HkjOHTBCBJdNIRFLv/jUva8a8zTtZcLLvGUC5x0gUXqCm4QFID97RwFYMc7S4FgrzntMl9ygYuqVnoqiVaeozgT+D+rcdfgjHkDNj2FYz1verAuI7JjetagQdWA9Cq\
LCAi8ofAaBi/btpWFZj+EAtxaZ3CRgHwRrFiAyx5Mufn5/V39JpjxIa4DsFnxapkFjP7QBvwYaqcpCihs2/dQu9JeGmdDlDaateHtUBvXtuFuOxtqRTwd06yR2AZMPf8EruYAES+2McK\
KJ0gba2xDi5Oy29CMo3lMDaVm5h1saN4sLCyRMI2bJ4r5T8zPp8dwaYZpifkJDgH0q4MfNKue4VLXqPVLaIOmBZIJVnUb2Ph+6HoTt4Bu82BbQQeGsBMtWOFi2AEAdToIywgAgBBo2fg\
o1FHM60PSWwW99cvewrPrTasFnwJT3g/7kvKilpSvaCimXXh3w/c6G8LVB7aLGIg1HO521sHS2lh1xzYAyFmLwIKZvBxbD68IIgPFFA/Egt+Dv+O45MF7aGInxXbs9t7n50Pd+KlsmNb\
WBT8b4WGMsLv5SHfiDoFyWMz/6LJXRClRQRB9L0bjMvqB/rcvYDRIgbYknHxRr6o/ofr/u67X/6J29YeFuV/6Slg2ULRnoWN25EzPRjhWKTVw+EwRzPaKl7xjxfwHlz3X6x2H+r8dn80\
Hi8VnMQPud+Hd5Ws7WCy49GzA4Vdh7qZuD2AlduSgZI+5NKYwui+pJ+ww/l3xWlevo1qkygV5TD2PqeVRlCdKysppINy3Ub0BNu1/VVZdVuuKA0QdAKgD5NNWHTAd6P089R5hueFMAVQ\
WwmqgOOVggihoYArzN4DNG6vlp/6f7cgyEBWXPrIM5Atk3QS/Ufhthh8OK+AqEJeAo7DGtugZyscDxUlXYd5izIN6fagXunJPexCobYTQX3h3YNgNwMzDgKAAtW78Xe1BmGSbpWpsBVZ\
NyyHzSwYqGemqO2gywKbTRbLo6e5L8A/xMUrbhH/Lph3gl/V+6GwzvBvXnzDUoRFYE7oRtmymnTK2UGO2c9mw+EKphhoJjZ/rpR0qed4gxYShZwCcraGEah04AA1HIPnZZmhtvVpD1e5\
Wz5psFOG+KcFV5h6YThDZQuuPjxAdZ4gOQtBycKA2Ki2BVT4MrRtEWPqMVwRLI6vTlr6RHKjg24nbkae08YM4AUAMt1oJNGy4lSTQ4uFWM+kG8GgkwHENA2IDXIZ5WXdApwKH1wP8gB2\
sAK+oMTrbUkIbC0ZID860lZsPK+GMjYWOIZyFPkRIexWkDbZ4SwlK2LUGbJQNYmt9SMcmDLQjRpVd3sfhE1xaZ2FpbaUJwgZ+w7hQSGJUhsIyFFQfA2jsIOD3ANK/HVzEaMDG4LcVftu\
QL20gn+QGbc+qQZOB4ymcb11v4LZCw8bWH7hWfeC24ogZeDSx11sRsAE8Yhy4rdAlAPNW7M+Kgdv6sgduK1QyVg1c/I0auLHVAxdhF8Zk4MKVA3cUx6ONAzcGv628UVJiFTJlSFeDhUt\
YYe6hHVtG6bwnYwPhZQl3+saIV+78Bmj3AI9RpzZGKtvWv0SuO7E28sTayBNrI0+sjTyxNjI0N64xsW5Yb3w6dqA+PjrbVl/CNrqJNcDj01lrfLCx0KnrjM+2+vh0YHwGeGJtoyasMbF\
6CPYEx2cb/DbyxOrJWEhIuRCWNIR42QEaawAG6oZsI9OYu9VFBYQDNBRa3W2VGxTDAhma88xZJsLMJCUzYzdOeb+ETIjdNuX97xTYOuWdocDYlPeLFBie8n6BAlumvJ+nwMiU93MU2Dz\
lnTZCqC1RyoYp759QYHRa/QwFNk3qU0YI/pNGCP5FCvjALxALBJT/vKGu/J7KRijwWUV00G71OUBdClxS2SZhk4h8ovFJ05IZXsYxAUCOIEVNKecB7+6irQaZGOBKeQTspmlF/IXdOg3\
FUx+noULq2jQ0AXukprw/pJShrnp4GkAspO4ILmHDiaXdtu3jEMQ2uDsHap62K9tEZBkagxGKUZz1XC9vzSDllwjj3cSBuQXJVWbMI2HEQ2ryHiJxiXFAVrpBrDR2F9mYmEOjPWDVKiE\
lyhuGpiqhFqcOQrCzNO6JYGtEogaiiF4doG/oz71jS9Ad2G1Dx9Y5pnTBBRbLFMcQL/oMfZIZ+OlgOStkEkLzFx0bucBsZFHyxCUrXJ++QwROj8ROwpz0M13ImtRYLphywHYRyQnArfF\
r9Y9xKk8fXItXEzyCXAXQgHaYyL2jeQg52/eNpUOO6T5vpNfCEXPXoVXALocAx0Ix3JR0DnnY8y7A4FL4DRM0YQ18AtDElb3os5yBYeazOLPEA2KXSlxIGbInndRnQQk2zStBp8dFzvO\
QyH8OEcdJCOeK2y8iG+QdbbsuzGnWhTmdFSLUwX5haQ3x/L0O0zgDyVOyGAk5a7IAWe9EZKphJU8NcCup5KkYjSt5alTJUuMlEsw0KeG8chWa4pSP8pzffLVuzMYoz1n0j+YByQ2BvaW\
2PMlP/bg8H5L0R1ByyOxOaBU9ASN4ZJQEFl3glAucdoFzLrDsAhdc4KKSKn5IqnwanoBs70cpxryqRU7WI2frkfOqYvKFoTDwQ4BqQibKh7IOiDG97GXKNrIW/BDjIMOCIYlhC4LnOdi\
E4GkOYobLHGy7A5E1uJmIJmEH9+hGw/geLoADXdr+gaoXiWuM44r7f3pABKsxDi/OQFoS4iLvwRoOdB6s0B1uXArrR9fAK6bbIcAEYDoOUNithoAmDKCEFDY/2yE5a2AHu/GR7vxXzBO\
4I0Jp0sa4cJzbEE3lpQ4esiqNUolPwJtxDXmJm6bM572+pv2Wx20bIPqW2oZC166Gdxc817iLXr11TSCFsHUxrJ7YEKTssYVY4z6ucBiCKZc8gtMJZ7mix4LKG/eQMH9e9dIdB9qJJKP\
8J6CJDHTWyCwJgYYnvRSwv+tNex0UBo1Mey18Dk6ycGhg2gvxSUvotOdjuGPTwzgHAZsasPIhPhNLvuaQdYjQq4Fn3YEbYOCMOuCsPXBbZOBGswFgtgksflLBYkBgcZphcUrlcQkLKDp\
91YF2U95kMYMDJklchACOBnUX9sXChwVgkIN4stGZ5t7G1NtTisQD1Nt6Z6I1sNByZyLXmai/M7l0xlZYqKUDy9yBc30d2NNLdx5oN+SN68BZ7IA64dpcNvScApIO5xIxfITP0IBXy1F\
ODlR+MSHz6jDvddjA3ZRE5AgMNKbng9lw36Qd7AQBEtUkpxi2MJcwMxL+BBFCT6yPUg2m3sSQEajAdILNfUiwhcAyWoFll7efh5VAVGSIl9iigUTKHMYSd3Ez04opk7kZ+ETvJzSbAVM\
B90y9YUigrGzQPmxPum579slBDbZnCocqKnZy9XURQFS8ikmKFU0YeFlN2INNGFi3CXtqTXgNN2HHWk0YX6sJsKa9FD3xMhsyfu2GjNca8ipsyGA3fSrbgPU8BdQxjEh3FZO9etUvbpY\
FtTv3cGcHNnXYD8LhweHBKIrjaDiKG3EcN5PhWP5hoNWmZbkDrOSAHc5SFO4QpQwYrpELhiVkMLEbEOiUfhheGHmRrnzhy4sBnHnA3zyRpWVpobzrrPEuknftNd7F8q5VthM4TPfgTGl\
3g2RqVEmbJSmukrZIUtTf7rQ7Li/CKu8OSQrcbMfJO4CM48rJ/7r65H/96sn/hq9v8u9Zc/Lf1odfl8rJbx2CjdcR7AFCMEMI9vZ1Jv93fLWTf08fwvc36KLnZv/aDTokp7DYoPt56k2\
vNfWmrjP7r9WGC56bdWu3YabWhnu4Da9dqw37Xtb0v1ZLzl+nJXfWWvKdX/v8n1w5/4dg/g+lQynN/yE3/4fc/B9aa/4Prp7/6Xrzf2C9+d+5xvxvX2P+t64x/5Nq/jeSlZN9w+rJvrm\
a7Cvnf7je/A9Wz3+/pJ5xDUD5uUcEBvII81qYhmMS0FeZjZhWLyKLGwtzcclxGZdd4IqC8RJOxncvtXvpAlddYN5I4LxLueACF13gkgucdoGzLnDOBZZdYMEFFl3gpAucQn2Jy5q4jLB\
IWc/omlxG4PtGe0mdVG0IqcpUHMwAzawDyvnTVxM5tss7r+U1Hp3rjGnIixrZHHh7QcPUaiZlmUBpCw/TcLxD13DppzWThCT1TF9Nn5/WOJHCJSb8NB5FS+ScRsZdImch4skif60OLJR\
VWFfDQr2GU/UaTtZrWKQa/KSwxCsgWweLQWQbQBxbVw0ENlMg3YWErgOQ6aqD3EP6CPNvcfnHavltQtCDXpdfLJRfbHVfbKt/0ZIvFsovLpdf3OC+uFG+oJyXDXzWRnEY9KzJKh2pC8f\
S4yYrdHg8UUgwStgkJHsJvMuayXM8AYP6SdqCU8bIbBuiL5GxMoIYVx1iXAHEwFKvKmxvYpvpBKX/VwWrBgauKmT1ikvwHjWh3ERLiYeAHdhDHufgGAnuMP8lRSBwLeAzXKzyCqoYCoJ\
eVnQIH5F6QcNGfcIqOtSNRFgVYV/chL3sAldc4KqTCSgU3ig6Z0MVBhmBBp10uqZdNm6K2CbMYyzDJjCzTaG4CgXznQJzDCSTM49zxeSoqwUAUPeOwTM+WuDZtr4/T8dI+wUZTRv3IBU\
TLlBCeoaEYYyjhHTpblJBYFWxOdIwqEk1cHNDJB+HBZAlJxiBZXFSP13yzw6A88pJqYiVdMkn68nLZfLZevLFMvk8Jbtaf4glRVTp0ygtGuRT4PiE7VDoOBIx6YnjloUMxeiJ41kEOwo\
eZMuSTkRQWtVEjwt1dp8WlT1MPuErx/KfR5bfsN4HSdVi4nHTSQqWPC4p9dmBqTpzf0HhugarWBYJcGfauoUqlN9ksPUJ12i6tbOOG01EbzftLjJ+UX9jKSNrSG2ZdtxyKLXKHD2tssR\
JAiLpSKZ4nVEk3SMhaEt6hvJFGcr3q2osvfcpFv2J0tJ6Aj6WxHWmPJpbeDhBs43Q4fFJ7z+5iPfkpPeXFFE4/XhUebqlt8hEm1dEq3/cQ8WNUJ5xMT/v38/TD8v5oGJRJEU+rFAeKT1\
yUiLYzFnMimUuqpWy1vIIYLDHzXyoEvZjmY9wFMh51ESkMAqxrAhYUbRlGxxGiZjVHMbt0Ilo91UnCiiPTSpJbU3huVVpy6KUmPU/ueGd1W1W/W1+vL/NT066el3nanLgcalB6o1rSth\
V091352vhC7XwxVr4kgvjDrBIguR3KjNLaqppplhdNUOBj0daR4a0RTOPdMc93tHvaoswHClwEpbTVETRNExFQyqxpAxF80djluS4VsEsThhSXGtz30jDltRruxER8B5sSHysmg7j3oP\
bgqFtQWc0LQkinB+LtuZo7hfxvW0BEOxSVDvBCM+MsBLaG5iWkPJJU+o50lhNR1BvM2JdWEoKUb0bC4p7dGaIdJyxfvF0D6qK7pOuQdWoZoTFZaRHejQzUA8qAHPrFWqFqX6QJH+qdFC\
q+qpS1bdU9NXF3N2knYvq++a+Mer/Ki1fI1q+ZqWWrylekn/YzkrbV1XavrrwT0Cj/BNFjDq/qq7zq0hTTyPPpVD7GvP8JOcp1X4Vqf1qh+1G1H51qfarnNrv74zqeLaDfV1WR/MI0xA\
ksZC/0HhovnfPGRjBdKANI0rCVlJ8hnfpBjzbbEjaCtKZTwd8WnWRqGgKizfotPPw2BJ+G/C8e4Uu0hYoEDizAT54QUVCkW4CTjSE/0O9N9zdK623iKKl1htHP9D/1mm9tSOU/Zp7AaI\
xbJw92rNYr4kU1phuYCW9or1Kga1Z7LgPPm2iLlazprcW30OppcJanhCvvUVE2DhN7BZSKhu6o+3bxCmKEUPGKdrRpaWGGIpIyo9M+RGlyIem/JBSG7UIvzT1l6b/JUAAepu2YPdnxT6\
YDUBx1hTPhkrFs3il4plIi/oVlBI5GWqyrlSjNvTDTtUscKpmLTp0oWDJhgGsKn2zdk3fbIA1b3ACJlkMjDxpVbJGx8EysRzNmgYaasfi2xSJuyZwdqShXGmdRbg09+loNGwrbYum5Z1\
0GjHi+qOzYUge12/mfpEQC3K9icQCOEtQNb0tOp+l7gYS6aS6gc2DbpDuGX4XH6D7LLs8mEtlF6D2gQPtDsHNh/padLemDlVDrcBTHzwmwWMieSPTbZDJPsQYUUujyYbQD1EvKiapbTk\
IdoUCDSn2Euw3MuwR8ve0OzUVmg5NXpVtWF+NpiFqNCOsRhOzGk3EajQhq9EErEbjsxoNiprK0dm43uh0Vo3ORqhggxuWdYekrkxTDkinGhApMia5Jg9JawAbvcHB2jaAymtmLWT/fEj\
GlgzANCWlpg2kNAMQRt6zg2R0UuqYlUscj8BRHoF91QjsWT0ComQ2Wh+BVm0EWlSmyjZdfwSGcARGeQRGeQRGeQRGeQRGeQRG+0dg9OWPwChUsGmtEWiVI5B8bSPQxkZvWnsENpUjQGp\
Lm+A3Wh8BXJCc4piAvsegd/pjcrZE4aAEveiOjQnoEwQ9c+cMeqxscx/Yg7XAPohg38Jg38Jg38Jg38Jg38Jg39IP9rH1wB7YpA/sqP5arUVb6mBPGOzJTLspLMBKsGOLoWfrgZ2U3jb\
XwB4A2BMG+2ZqCYK9SZBAVUxa2IGFQlHNWLYFKY2zisTEWBvsZUWIh4/UqZoOGPd6vzz3yXOPPMflaeU5Ks9UnrGohBNRWVaYj2VbiUqqErrq4WwrQgeVxu7A5+Yp7yA+R6e8A/jcNOW\
9EZ8bp7y/hc8NU0AFRqRb1sXn8JSHrUTNsjdgHFji1+NzcFq9Dp/ppMbWoxwDW4/3DbH1yLZh65EUG6Ubitx6SxIlVZzDFuLxCYR/VcIjEP4VCW+B8EclvJGhZ1m4KppmggtS1UkldQE\
XqYgPjIpF1Us3AuemGOkNIDqEL0gYGzGKly4wYog+FAUUKIg+JlWTiNTkzrnizyqiD+3Cc7m/BOhBeU9h3tNKdHi6yg52R5/KByAAv7vG8vQI7Fo+3cvI9TEihgeO5Q2kzBFHge4NT/T\
y0KbppnzgADGqKTMhUXGaroQNPNTVR870lm7XXh6no+0YSn7pxoftwBP5AF0PCYFja9lhooWRPbH6GFDoDb470kw3Y3rTYntJ9yEi9rar7VhKM1JlA6SsF/H5yV1QAWZ5AFX1YBbDK8x\
CWjq5z0oLM0Be+kvcqRjJbcXkIPXFl5sasw93gzdhRkfu4AXKkY72kNHzsXRYHFqongCTBKexog2BytF4Sj/WTY90NapQ4Ltfx3thxH0zAtmhaQojAqE6hicIZLdwGBHIbuQwTgm7FcK\
lJBLWHiQ8FFXebWIrYtTGi1kbj06k+CSBek836QaYjS7rjoCLQGb1Xyml5rrcPxiBe+imhgJeidWFSLroCQ+JbBkF7kDGpc5NKry4CLh4P1VGWTmf1OnoWV2L8Etdf6lXvDT1l6b/JWk\
OqrSFMhs/+WSuo9kWMkdnfWaOZHVesV6N19YrlDm59esheT4uzxl5HpJ8D5T7Bg9mKYkPi68o+oOAhzWrg+OBQxOV5yosZXWBiy5wSUnZl13KeRe44AJnXeCcy7zsUk65wGkXWHSBky7\
zgkuZd4Gn1z2uI+ZXGDDeVuTwJXKHOJE7qYncSQ3XclLTkq7wRm0oQDB8sMZsoC+8oUEiGdfC49rtaKJ/4BiMcmc7rqkJu9UJjZrQTnQdOdG1ANUF5n3XOhdYdIGTLnDeNfyCC5x1gXO\
uK8t4JoAabT8OkOi+gZV7kP5OX0HNumzahpciYJapff/VZCm9umpoVb3Fu2JgU6V1yod1OxItVVeTC5x1gdOmTpTQVVhWiUKQFT/teGAiSocIsejwBZWh6LJ7ejNVf9q0eXWka5gYOGe\
oieP6LGqL0zk+d3LR1LiqKw4GV11g3rVsoWriykaX3Sg7dt4FLhip5qJ29xlxVwKY+kDIEVLgAQMpjhJ2tLirebv4J+U1N6/WwnK48HgOOpFkAZ7nIgBQ+GFbQP79QvUlVHZFA3yA3mH\
IXNEoi6HUQh3PQiCU5Kuz+FWDb9kVF3XVQgIxYSgW80rBydOGi0flRymItlGCteCXDIG0+hbvrCnsCQjdqj5qij0njgOvx5wg3Y4NqDIgFX7OwK6LSol4wN7B7q3CWeFjb9dXNYGG9KI\
DvCEjpyEv4TrE6tjMqT6niSqUue1kLdXcPrlqrpSzp5xPV1fNucvmq5ntpgbLNWa7Q12f5tLP44Eez79/hvOPP1o1AwMaD5xfOc2XALseuK53E26MjMU8ZHL0EAHNzxuyZpKqtRLSb60\
lF6UI1bLbKQdoQ32elzOf1wIiNyLctHEaopoxbNGVFK1PetZK3OB8oFp4CbqaD3tE6hL3SV1Wg5kYiw4J/Jh9FoJupUTjsqmJNOI6IwFQRXEjnrw0qCt/CqwEHsPQgTdk+BNDuq2dFh1\
PbSbNBxREDbTjhNLbyRpboREEZIy5hw9/VrRd4efU9msUQYIVCBaVgGrEtQO1J/qxn0pr8sz6E5xZNKkaa2aL158/P2dYW6O/mDBZc7vla+y13Vb2X1imFpZgi4iB9F4CdIqB+EZxaYm\
gJ5Ugn5C4Dicx9rSgI2OycuQ8LuoLCpESMWsNbFuJaRuQZAyRJXG9gHiMbdWxPL3VK06pwb/GBNNl+8/rvfpXyqXvAsQ+xrFi3u/lMM5I+QshgcOuY5yQp8svUOFhoYyhLsSidp1c1kh\
dyFQlCgq5sCslEE5qoZ4YdlqIKp7ommit+qxt4hiQOs0mCO+B8Ri1zSWC1AjuAALFKwLFzXQaS5Vis5k4pLAQjNQdIRa5a0ww0qlUSkQjWg6xhoTvK7GPZfGoh3UmD1C1l9lG5RXL8/P\
Pzi/Mp3RmAC2+5D1B9gJWTQ5iQDo1er/jVKwFCI8zBUzhh5gKpvCM8LoYPiT8LwL0AaCIV1GGwVLH91QQegmxscUlj84xeKXD4ws8y4B5LBenUZe02NefZbSWhSbQDpPmIbA+k95NeEC\
UTns5PgenPYvPxl4P8XYAdxhv0hvBtM3T3hA+gc/HK8x4MEjaHgZNHIRyOhhyn/bv9cZd+M693h4Mj05734nPTdPenfjcOOm9EZ/Dk95+qed1GB+a9Pbxt+N636T3d1w5e/Z697rw+F7\
vzbyg1iQjyg1g3sHhGXLCAgUT0AkLILzJCQsUTk7D9wWwUPsthcjq1v9KvfWj12i9dBM2NZ9vfrnZ4lQDB3GdZsXD/kpIv4b48V+tV7ZpRWVOljJak6UM4e1oizStn+FFVaxqjU6cq5e\
7JthXlRtmw7KvDLjya/0ZdOv9JUPSpUn9WQqk0+r3jMiTLhpHRTji95OUsnla/RYFBqYVEchkvMQ42YwR8RKR1WS8xFTsJfROxGF0tzkSdSgip9K0pvXGu7eIeU4akSstmkqcZFCcFNb\
ESbomTvLXEScFIk4yPdLp4wYSb4D1XMW7dCGJk8IlopKYhEaGQk5Ju8qO9IuTNh/JNsJnPu63jVKcFIs4SYs4KbCbnTgJyR46bmaaPuwTJ/npaDtcKU4KSJy0sRInNVCcFK8QJ43wfsG\
sHIBs2HZSFOmKOIm3/yt099MIFYkiH4MCpU4lUAr5EHkGLxYucbf8SqDks3CM1a9FoKRJQuasNdhUBEpo7winSylE8lmI1OmmR+xwXYhk05oQaUNNiLSpJkQarQmRhmpCpMFKiNRZKRT\
qsFDoLGkwzPs6Ko/V/Zs8lJeRONQXcahPqisxPtluGglGYuQJEJ/8dGuWyOEzmZHB1HRblfZx716S/+4/Rtf6Qov35jSyc2Z/l++i4ek/Wo8xPT5GBlbMIJqiWOlweWhIl2U5jWz0aFQ\
OWCbtAJvQnlPqNdENL5SewhhAKA+PFm9A7QMb8IV1SD9a2HtJDSLEDzx8xGTLB7UAE2pQXDUoetkNstgePNro0hVVVDukBlnXHkvNsfe3FaABomHCzbnxPrShBtOV2yOESVI8IOD5mlp\
TWVjDsbI4VgmKhlHNIOnOPQmNTD5vdDAXzEJlAay7IbQocsoPqP/oZ4nc2AXirrsL2QtC/2RG5l3WTEh0SAkJMfxs9Af4iya9t43uzMN03Nt8k7QHVuIQxc3dXQfzxpm8dTRvF00WRGJ\
1bbpnihbtOnJfsckqGcVc4dnGGOoAoJoAmmBroUW5dtE6lrVdXmxN0ZyFCpo9PuuHBtBheQ+Tk+o8qJ6o10o0/YnQtzb0CsjdJiFeZ4bs9MBC0+r1qoqbKz8SQHQQch1RaSk1Tl6CwSj\
o99Yx/PuWsSyhhKM47gCisRyQ5BffggfpVp95Kz6XMjS4grtXRPM74vmNWoDBZDnVQ0hNfkJpNatxiqduitP5DI44QDTudQHdSPUdF+aUz8d9thjXxdzjupUH3RvfY4MnUcWzC0QV5b/\
rcK7GoB0hFjDGWzXqo/l0TBVSu0QPDVUSg+m+dpHAHVagh7WeU4h+mtYLGNgbSQOHpcu56X6eVAjgCQj0G3OMSJvvArijScOZXKOEGtEONbBuQfk9VZJ51A4ywXUX7Qk6ed5XAZrT2yN\
G3JbImB9dKjYSHZVozFEr0ZSj4xId5egeiVqO7pPoOIRjOUuwmtoUlCJl1keq7yoRHZClN5COkNPMh1HlvSWivUWTfS+PC2ZqT1cWRjla2hflqJVoytFxiY5ydI9E2ZQoqe4ZMUBJtCP\
pioo2Xs14QFEZu3RBWwXH+xTxXLCmnldTuaPTOjHq1xUsSaub4djNoN9ualVf1U2v7FdaKQCays7mvno3RVvRlIY2DWQHDPwkThA1h8sci1JQyw4tviFWGTapKeYzS2Nmlo1ZigFMnZF\
xByMadKXe4ooOYeoALvL+3XnQVmwDAotF8iUYy7hUNAOhZY0Qvc1UnrHT4xxY903ye0r5s9IJMfypeeutGbINWWFKO8tvum75jYy3ocZZHmIj8A457JwR7p58Tq9Eefg5G/QyNizLgDM\
zB1b1P9zbp9WJNq8JrrjvRThrYRHqWX0U58p1ep38IOlbwpiLKVAy8KmEFkPUwHRFqy7UYk6c4EzHc8M2EvwiOlZpOea+WIG0ptRodEZo2fyoe5UkR1U8S4n4nRKNw/R9MGDYy5zwE2p\
/LvfZVGnAln+5kF4OdMD7yjNIaMaG99mY6gyWkAYp2u+z0XM5ZERrlIPve07WI9iz34fV/7LW/qw/1790ySLF5kOJATBA/CvRZmWC3yuJf80ziel9p/GZUUlG1jdP7D4GsqKhHUJY67p\
09YDwqYsrlF2wCtq6hBR/DCkxUfyNI7C/4VKCRnlLij/MtGFbwZrWMWUbQPGTMgMuhaIca/CWOJB9FcmfjrJ9lggPXGMi/OMn8piQQxHh32RTqjRzjuUAQ8YcntI2Sn7ElGs9G4smrdx\
xNhFMYctmgik8yqaCWZeXzQWzFi+bDGbdXjJOjMuyR4S/F6cR41fmbLqyKeHxjA2+OhPKowBxshALNI/m9gUoKyr2nTiOKGMQkQzMydwA/iBu+EQB5oqwxn8uDzAHaq16iCmKMQVeAqI\
/R18F+BUWqp+zgkI5UIAeFaCw1JRL1VAAvEIKkl/Wq9T8HVa98kv8znorvsTvyq8wA36KQUigE2RcYDD4XPIzypPjYkXXUNVBigI+HeyqI4cpYjBijlBYY1gfOcxvgHrl/EE9f1TLH7r\
8XV/exu6bRv2bpPZNs/wmPnIYcOyJ5Fe1hn3AESM0d3mRIRm2X2obI+MD2EwYwis+bvZkKwWeilYassBMKs3ccTpJr5+Qe30n5PhS11/qFS9N/aXpf0mj56etgYRId5o7A4nojPe1AbK\
RSra6G9d9kgII/+CaU+UhfU54lC0rW3VwjLUA/PtRn1knDzLYFHa9kF2ZlshKAdsgQtB9IAdEWMmgCH0fp13y+vLJKp3eSJeZ8bqPSv4QdzYmY0PSiY57vOPvMLLXc+ACLrg8TOlN1XJ\
I7D2asjAneqyoTiRE5OwriI5/LsJSD1Yy3gl2CCGUuwJw7BsifGvIVYi+YkZdUywhCRJ5zOYHyOb7JMElKr2itEKmhr+0gh/vMkPE+hrCjF+POTdMPyvCA48Uw/pUNXBxKdRCvlLV4zC\
9QKX7lS8qdv5lMv5/M1n/kvFXf72Mv0kc03+IDsVohEoOnQ2Hf8PlAAnB6sk+CQCw/3+kdQjcIazirztGrg+A6fbLOypkPIxkWAAhRKYGXUGEocTZgNUFGIylEZFrRFw2ojSqWhqUpzT\
j0koUa9D2Bpy1J5AkEQQWj8QmPjyq26vMu9JXwuxFTJWyaM51WBevP4buCwqFnULj7vpoHmH2EGlPtHaKPHuTi5M1stYNr4Jlkxa/jI3E0siixZ2ir7ErysH7qg3bPIxg/ne+CvmqEK6\
KCq/EmAJttMWwJvpIUu7yqqtBuYcm+n2erSgtTfGHpv5FzGjRLn4eSHtpq5WqMWgkXdEOi8WoO8jcKt+HU9hFihmO0e6oaAfGzIYzG8psJLOhzBDD3VPRDo15NefVlFdLXk15IcY7uKI\
dHHP7nNun3L7k9im3L+0NKGPAGQPKGEjGgDIGtfZGlDnizBFljiRzRJmjqr0h5Q05b0h5Q8nL5vRCaS9SECRkQNj34YVehRelJlu5Nd5x+HCpwVZu1JjPd0l+rywucGlBmS10SaErDjN\
GLjWS1G/dfSi1/n2o8AQJ8q9/Hyr8+u5Dfcq4vi571FlqT0UzMN+IHxE9kFoyEKiqHMyk9lEjlR8NdIRC3zLzfV8bySlYNoP6lTDFmnMMgj0OBD5eCQvclTAqBHu1Z0mMniiy1uizwrP\
tVTfDyqy2DrFxtnpHlzgFGsjZ4gFYSK0fr1pv12u9x63XZetvdANoqgF0FAqePiAOnyh0vQMrxpE74PLVWr9iLKn15OmkJIOoA9h+hABsyDSe/09QI3JkOGlArRtPxMMGjylpv9b8eTR\
m2akF8Y2YTzGeo81GJGwX7murpGJ2hQUnm48EAMTYPOLryV3cSF4kDyTIgFmdZgi9o2SUXwQ8xFbBLMlgVyBzkQFNHpKdNmaBxY/u5S0gxM0lqEYJaB3xsROWYzFwSPrEN6WRXX6unuT\
MKvaPEkzgE1DbeW8WyC4aprg+TL4MU8TD5DL+ZJXRqyNkTCJjGqewGqeoFPfR6WBChLyPt0TR0KUPq0RYTh9IlY6hLKfWAaoQN1fTS3PEn74CGf5OpGhYsiRyfRGc0YjRZXCiLP3ajD1\
EqsB+uh077JKzaiLTSsIF0FzXuIVG97f5eC6n1StkMcQSibVp3L0SCNUaRLIqhAcZG+8n58maQ5aIpDFg5I7LtSoegELfqvRsKW2XboupUZ94FlwTYWsZ1x7wJ9r5JdEs3iUXOnW3CiI\
nP6u0XuHrhjS5y3Vb3992CyMDZ4W3GgcoXLYVLsn+tV3XSJ6vznuNX3qv8ZMH6sz0Gj55Sq88xE/0e+UxuD+hnxlIJwX0+u6U5sx2nlHazJlZYKhGn8qDLp5NqLvGxAUQSaKANTpzLMd\
BzxtAK3e9dFMekBwrPEJePRQZQ1kCNg6FShFwZS0rYqV41YcH+GzZBg/lwZm8PMhoIoN8oscY9HrNu9gSkBE2eHhS+7SMT2ov+YKvDY/goiKzo2yZk2/RdNlmD2oUvFPSxuW5R5775Ll\
fnndK/lapIiDziF47MwZoNqD4osc+S1CNTJcORzyWWOA1k5B0Y0Uq3y/rr50AkM+b6WucAOypBN7j7qZ9IOr1/JxBhTRS9SS6tkcUe/pKtpvYVu66+Z69OnXhfXv1aEGGDgo67CO7dWI\
I4k6xA7E/M2LDLk5q3RjCm//Tlbuu6T5ZfH+P0KqAT0ps8m6rJJQO226ihHGd5vFkfx+55+FesddI+oABLSJswBVmydP9Zx39UMW2e9n013zMQiYJ6JbHRzQsE0ZO+8xNfa6J+v3fdE0\
W4E7eFWuwrGkT0rX9rifX2urSzrb4kVIsu+UpRqWP6xYxUwEvqFNetfuXsBegtvrdqkW1w0rUbgsOT688FbruCRR+rFHjTle3YrClDSwrISwDwHzAwOwzc7WFuboQIZISBSCJcA/D1br\
g49WGGJ3BWdON2BeeF6M6Mm9d5JAsr/my8KGLxPAr0drvEOPRIsP25EwH4rtVh4yeiHoTTkvkqgNSpE5o1cZ9gA5Kuqx1xee88dRKxLOVMY7R6tCsdvLSROBXiN+ojmFjhFREEEcBBLS\
yLdNHrbUKuHG7LlYqcqf1kqI/MiAxCb1oQGRDe7p2LM02mEOxYNaShS0W47pk1WBCziHIkK4zTTSumnnYTZ+CDV2TaDQkdzB5OObOxaeVLnEy4Iq/6azT//vJH/un+AvXZ51GZgE4I0z\
PXZN1GmFS7mtlnb7pff2/f57/23ANNhH7Gs4Si3FtNnGW2Iu/sX11VPwb1u+rQpZYnbh+X9WJr6uv57WjBi94tJzJwoJT8A7R8Ngvz33ytPIcl3y7acr5MtXo6ZXKPizQpU2ajzM9dkz\
GtiNLHRG+G4eVd3k1Q1m02GkfcOE4h7VqE6uWebutL9sqt4jCKbQK2SursZec6O3mrjhXf/td2EKXaHIH1dGy7DkN3rKBZCjtBvmsElvuSFDwHXtJ/eQCsqPJ/9UHyT6qDKrvp7gcBWb\
7KTSCZFQtWhUkSY7k01pFpzTsvpK2EAFiUAci7cUttm2mHRAlHOcagRjQar9baCMGooQFiDCkuPhxIgNRCKnxvZU9nxKItfP5qAJi0A/EoB+IgQNiIED8PEqRjRxQV2qEsZxUeKKh6qc\
bSSN1rcvOhrRTnYF9d0BNF3h9OeuIGHeRY2PM4QPqchcnwl7jAbV+Ltd0QN2ElCYdUCdHspblPTWPazecQ7nhHNIBdWQToPTldhlswoaYttEe6njVNFJ1OgpcaJMOpptP5E32f0c8RIt\
mcigcRCgXnLts+yNhUdAex9fjodA4mjqA6d2k4WhOlwpTySShKemo/A5gKTBTfJgnXLNXok4XwafZouEdbVXJkX3ROPKAL3DaRXhCKYsiHlpWh5VyPsuHgLr/Oq/qO6zU/dd5Vd9hpe6\
/zqv6Diu15XVlrcPKwPXJtQEPIoPqsDIom1Q2p8pTHla6lpWtOjiGdCnkwSvLDkh0fvmt2zEG1t8xzAlSVbk+JWBOfF2UwKeVCmaJkk8z0WLI0JYjCRGYpi2WPT46dL4pSfBnkPMiT5d\
oY46G5kAfPnSXvTcdZsQjbBtH3eM7yUWSEml3V9/RZqU3ejv3ZnIYDCxXppwVwgOsauQnLPasfCpXBG1tvUfiN3mINZ0qwQKfuPLt/4A8OJbSm5w8VKPohbxgBuibF70np7duqdRhAtx\
7ijl818sxN2RAOdBfaN0gDbG1pMiuPpHEtvCz9LYDbbWmlCpg5y6+6BmJLia2pYfkrVM7yGNsQsOqoxblOnwu1yR/3TRXddE7RieoIR/IseYTPv1+x87+KsfO/irHzn7NsTPqd/mi+WW\
b4tg5RG4EGxn2WEs/XOKjEfyC9MFC5+K5iaPZrGkek8m6xhLqPenKt3O8rtAN5mArsa2XLz1aw6fztaVHt7P06KfWE6jNfffLE6Rd3/uz+qq9P9flZ2cMcEgRNvCKRy2sVv2cLih7RYc\
vjfjMWO/mA9si4WslITN/u8hxJG3ru+iKKbWfFbRRtanUW32Io06r9QGOOp3XQxx1GrEzHHX6sndy1GnT7qf+i70FLe6FtQiCtNhd0CLF4ud+p88s/C7e0vFZpqCJoELQWUNYS3GfRKf\
TqoPPALlGTXQg+ZYHUqZJPuanPOplY8ojRS5NhAwreGm6IMWKX5qvylkXPiSKYhh+AEVwEn4IiUC0RrGXDsuv0IkGkXnJj7EaqZxS9Q2XbK5K8GK1blld56yui1bXUavrru2RJmF4HzW\
JGOV03xYKpa/NSIrABy4m+UhDmz5MKndSp5ncdw2QUSzsNEP4x+aSaCc5/aFlr/gQ/LEBKXGFY8VQscGGY+lrWpThj/By80aIBRj7b3zV+TVsNOVZ/DiEGGp+Fgsfomv8r+G7MD/i3tH\
Jjc+YHJV0BOGs7sPZkPLkzWn1ehputPTDwz0twz1FaDHlvVbQYh9/GDsM7UfYO/vReaYf2Q/1T4UH+ifKQwx91KJOp0gkVEooNKnCB3UDjB2y5e+x4sw/x463GCvTaXHcgBs3Xq9UxW/\
ia+Vgdh5jHQez38VYm2Gmii9gbDB9jZt1e+Q5Lk8rz1F5pu7GJw1k0v2Cdxctcnt7RBEm3QbGg+6ew1mAemJYpy4me6TSaAO2PAiLLPKKf/mh/VPeJLGNf/Wh/ZBfu/y390glEk1Sdb/\
ovTvHv48+4j6GEYRPp9UkvKV6DC2LQgIEdP2J7tS+hqdqxvDcvxJnEaYGgYqdv1UVmcGjgCPdP1ZPoGcTNNVuSmBaz8GZhJ94Kzw6k7kjyEan6flAautQ+T7egnV3is9kppoe4jWKxxF\
K/tjziMy2CR17yRxz5Teo/BZm+DhmiKEn8iqmV6gFVPzrFa8ietXEV5/GV43qVUivGhVi2JhAuapDVV/7GuQ7xAKQHCRybCVI6GSXpzLqpheeQzbJWDZFUUY/4ZNgIA2g2Q+nr6Nzd8L\
VX3eYq+orQcInwW7dDJO/LO+myMk+kgm8/GhcsTFWEjANjmqa+tOqyVGfSMpJ3eJoXN7YUPX5PcrR0fLGhqrP73GOuvm9h6Nufu/rmtroa/FN0kQ0McbzlCLDa4jy3YBXeGa10qmu0Mu\
PkLp7uRx/mntd8WO6y/pnfg2pFTs5aNL6S/8I11LW3Mdif+NH9wtB/hkI4aXF4pnj7z91YfmZ+ZgYi+IqcLhqYSnzi2eePb6weGp+HloGcbmCqKuy/m1Z1u9TWSrpPnMcF6auOdK9OvB\
Ebp6C3fiZZ2E6PkWzFLbeKU8R5YKXjL5PqVkZRWT/yWYTzNt+AdSefgFUKZAa5XNR5rPT70AWEYkk+ptiKQy5rpd8B5qwUqTW6jmkVLVJQESRpOtaOrN7vw0DBnAvxtmWcrH4KdRQxCi\
dBBrUHOshywHsQYBv53PKNHt0KQ/phhStYtGZavEiDn0WBVAwBWRxgynXl8GgYUM8033p45/ZLVaQqf4vCLuli8Z9bBFZtC8R7nsOT7FcHpNnJbleLiOa6VH1egnP6as2hus0hmr748h\
Vd5TLDaU2LhGay6l9/aRbGePWHEWyBW92Wbwv7CUnQhXOlpalSh0OWNIs6rZVrA+ZkanUcXM88GjcO1aq8B5qk/SQ+KIiImYnoJXjKLAYeN8kwuLubbsjdZS94Wu80cN8RbRUEAfhD5D\
B+T9H9gRmJklj7qazxe4feYi1IYoLlMuj2XE9xb8EcfRC7kv8LyDuQzyQ+H+BOMmKJN6c8sJ6vY5FpB42j1pzP6mcGGbWGqS0QgycQQauVbBGpcZTaLNkm/hsO8bKEAPXrjFwhhi4do2\
BM8TAtWsMXIsc3pETgQQvZdKt0gYiIJZO1ZklthbjKsnYUAxaiKSrnTXujY2Yo3ONEso+c2+OgKhpex/tG98mxJo4ZP0gYABoBoAnAAgEAPobAACvAkDZB81SVOmD2IKEKTBAIEKBK4N\
If1UgIpmflJT8aqATWFzqJ6zi0sOi3ESz7hBLZ0t7e5GoWPOdsrBuaC9kFfvw3qzjXsRH6VgS/XTE7C21WWo1QZ7OGJ1UNqncZs1LiCGlYLmyalDQiK5sITva1qJLaBD2ySpClLVsM2t\
DEQNZx4jZWlJpJs8ibQAWyUtb2HDcPGJ3hSyuXyFDV+G1ztBFeoYfaz41yEaQu6GODc6q0+lafU1XX+zqa7v62ivqa1b1scNfmNZHM20TGIMm3dG9n1R0UX6Ad3GxRNIZ7rKzLGpjTOe\
/aMWW3Of6pPgHyNAJlEYnoQn7L0Mz56pUciYZ2F94nFRJQrt/JUmV/LP7/1HSAPpBK/zi95DA89OW821iCa1My09kNW3fn3eYIRiwbcaltnSgTUOAHWjxLE0cgNGXh5ewzWkmpc1eb1S\
kailLBz1ewlGI9tGNemC2jSTYpQl35WAYNrWLpBpRnFNkbsMnlYrfUXJcdEHRbr0qw4i8T/F4BS8jq6XikseTzi/OBj1OT7uVygrA5mxAsttzdEewOBf0lop54z5a/oznlNlGVnGqfiV\
ZEaKB7h8XV2FSnne7yXIiFyXOlSkTEjjvAhdc4OKEdOFnWpKy4AKLLnDSBa64Aq+6wLx7dcGlXHSBSy5w2QXOuUrPusBpFzjlAichUJzsEKjnLYO6OE1aFMWyA31x9tLyM8dOvP/kHmh\
TGxOWobuX2yteXW27nqBOAjrwWei4LAba3inmP/wfP2uQv6JNiSqGWlOVK7zd7xdXEhzBkxM9fkfahueSXlrguNK7c0TI/UyrV+Y+R3+hyUDb/S0a7wtJ2+fDvF3e7yRT3lKLY7vVv0+\
mvZ9tuXefhnc/0yItijxwAuKQrF6Zfg8FpDKI5kGLhVbVQmzZGxGFJla2jHOtbtnyBIroEJEuTtDZ0y3ehQkS1+5Wn5rIRinwyYlsE+X+NxPZRgr81gROGXSbNUEWuGQKnTSrZ8iHjeD\
XokHD6M6kDjUeCvjERLaZKvmXE9kWSvn4BOeq4UM/hpyusAhKGqvQo6/eTzi8Xp6o4AM8ygGq5OREW1O3z07QRQwMnprIQwqcnsgjosIx/8FsKxm7xzMrL9sGvxtgHm5wZ0+e3WI3d9M\
jh/Mx1CCKnsi3oUPBG+w2NMy1rcLlCncRVS8OcE0JqcJsZtcFlHShaceIkM+DQzLHz6Nf6sveLFv72YJWrhOHj7TP2TG7zW62W9I7KP/JTsa8xMWBLBHwwOMUNIRgROtMCRuBVmI3nMG\
1hNorH9Vyy2DBkijH1ePwMayLiTT7fDIjrT2XkKMXhX2AzXUrsSMbBDuk/JUF46QgRKGCLySELWikSBFs+oy+tejQ4hbvUpLxcF1OCHN3q88lgrCfTQRhfz8RhP29RBD2YpJtWK/NOBL\
Xx2KyHai/vjJqM4E8ZNfnNakDJ+KupFXDvTGHfwnVt9zIeOaebWRtxqYGqUQAAqBhegwsNjLG7Xl06YCBq3HGiH85zlIKXIqzQca8mNy0Ua/islexeLkaxJQhidAZRyoRoscGnDMsjHQ\
kQk592oQOWNZCIg292pS6rzSloZea2RCjbFMaer5JPl95SrA1zEG83pAp5F2Lx0WQ4A72SLp4iBL5xPHO0ueQa6IWvLzs0S18WmQrB0QDVIPk79Q72y47K1SCjO9KJP6wEYKBkHjRENW\
wGQ20wrCE4uxOKICPom4tYkEfZrNzDELhc4Hg8q8Ggsv/RyC4/CsBIg1QB6K1Z3jqdkMqbUxcjPWtWG6NceglRsG2wu9GxLIVVIYSb7SeilHiJ+0cW1mq3QS4Ptpfqh3OttqN2Y04Sw0\
tAaHsXWPrNQptLeAeEq+fDSHToNeb15wQ9b4l9c5hpMV3G0gZhsZv1eqjmJDjxUcBNVczwrmlLErMa8SV/muz0vxtVcqJjeosN1qlnNhxltDpAAvt3Hl8gGVvnCq1F7eWeilOrxcpxQ1\
TfIN25EzNuAf1q+yQVzyL/OIN/NEzGN7G4XkMj3H4qqq8lR3TTseXdR3fy/Fd3gibrLk0gdoYx/BkjtRd5hN3dojHQZdCWuZO8jJHd74g+hUt0fmwnyKmDzg9vVO0SXd5l0KSxF+N6OM\
FIx9DnD9AyeKbIOduNR+TOH6XdxWnlC6eZRkR5ESwUb1NEvkEbWmNZHKv8KI3C9sr/VAz7W6pOX3PmvGeJhXhVyWwLjm24Q/D3HQbB1mLXE26O2x0z+GL4aS75kZ5vxBW5opMOc4lqET\
/95l5f7JqS3Hc8JUNgFeCg/Dbvm7MBk52HLDsWIndDZJNsT9TZ3anNOSunE+diFWO0EBPzILqFl4GQIUctPuWyO1ass/XQEtSbKCPbPe06E2n1DzCZYaIZuDM28LGskCyjZKwo9ZPH85\
hSbi7ZHvT0q02spV8H7nN/rpRWjEwqV9HnjHxSCsgk26vFaeD66ihlRcFnPPfVJ6kIQXr9yNsaS/ukX8bC1RC+n3Q7japd8Fey7q1eWcs47uU6K+0M8aGHNk5lC0/HUofZUV9yjuux8k\
v2O36Jipul2dLJ6tt4GOLUTKN2y7iBXRJ0V7KOoVCLTWUZKCs8F6SpjSw23ijQqzfJWzJzrbYOaCQCB25IMQDyYsKjTCbnaExZTOpZ3JcnRANCMs7lZmhqFIliVmRjUTMya+9Qd/E3DA\
iVUQzeydZepxWN4mPkZtJJ5IOKV5NpGkWl6qRSD3TGO4q57NgnbsUCsWRZgbi0oTmK0FOycDvuxtFZw52l6DRhN2JdHW2E7qD+oYTZHmTpt+rifpGj8SwNSETsBN+u+U9ZMek3dSRWOb\
7zmlP0zWJaQ9veNvdIsvfNVXaZopkfkKtT03JRC+vmYguRlMU53ez4ifqtyCW9HrkNwltFAMyoDVDIGsU+kqmebUIcZxSJyGOs2kRnmhC9Qo8h3Ek4P0IPP8FPDfA8/fhuRFJfnhuYu+\
6ZNfzIuTfjAQMPNEXy1V4juHRFTy3spZhtq0gBkUMHyX2BnKbeiOdGmkv33OAVT1g5t5IB/Q7kbQj5Y4baYB3n8lR3oTwBmZ3N0ADbaIB/ZK+Cw9lhwgMmbXIj+Q5yjCRJ0HXnsPuKuO\
pD//sj2xDNbJbWByfbb+2O3X4Fsb4ifw1bL+97rui8r1DbSFn7um7GQk2U6vR7DGhy/AS34m8CT0iw9Qaw/7aLfj3YHvAGrKO8ApCyFvF1Nh2go2WAzboMOEpro43VadfBJXbunMP57c\
T1kV4Tnyr21/GCb8NmtfXdqI0yDwJ8LsVEPG2vl7e3onRGVNs/CBCouo2WD1vYjsZ+LE+0n0xeuIMD9Stk9D6W9DS60RrdeZJ1szEHq788uG+T8Pr1NNX1iN9n5ILmtsA6BgvS1iryoN\
jkN3n7JR55/Wzm5dd+p2YXSM1+QnAb9YEvbVjPF/5id3q/Hgiu3h7oextZ/KbT6Aa4l+9hL4S8Q3kv7nYeDeJFW8XSaMcwcyQ2utoz6aw3Nj0MbodP+pUGchO8lYACqwRr+A9vnRa3Te\
wA4T6r7ATzLjfXIzj+RVaznqlGEB4BeyJtIgCdpFDR8SqnZx9HD0a7ujJWS2aGao0KPHK0VsJ2dDG+q32lmwnDAzhJZ195QCrN7XZDBWfck4caKNu2vz8iy8NHJuhML1iPohLM7XSyJC\
bLtKF/FU0W5c6OtRMdVARokx2hew2HjtuX4UWCzHjcVxaXynXcqREdO/Qlx+9+h7PTLWU3mzH7y6nec21FkxsANLN6eME9FdD49ARwfhSx0+VCdLVNSm23r/DQRGBnu1IZCwMFHUXWiy\
DvLd1aeMpj+x24Ni0enzc7HtaoVLDbQTOA4BqqozwJjfuCfj5htgTbz6cTUA1gLoT6RO8IFpcCBmFaQsZEGNAGuvSbMTQDTx68gT0cKNNJdtb7e1jPPnQDBk5KlMPTyuPly2EkSJ6Gv4\
9fgywOT5xHP10oBzhttZAUrYCGnWrvc1uo+jNaHkdy0oPi7mXW4FHvA3HyC3jOYuUdiYWw7mu9YFao3E7pJYUTPCXraGaW1JSlnEB/PoZaCVaJ6RKVXYragnchmocmpfL2sS5rfMqf51\
/sFD2xY1PmLqzBtwJWpDHHz2zLpC30vDlt5JBzZWdA1Dfwp3D85JXcMP37PV48zPiHA5JgfibV3Pj2jVH37ya42vXHH7zao6uXXPAh1myY+2stiTaynYCQmFhE1ASEvnl/CvETSwRL5O\
Fkk3eLN0K2IsmsKCZuDP8xlde2nPM8SW34wAAbQaL/5P4GSWhitTLIEMStqOfTdJCdHt2Oz1vg95g+h5awnApu40Xqmyv2DQfFwKXCKbsJmgBUrF2L8FX39FGPukWpF5bI+j38FaaPop\
gRjPPY0ig0ON2bDOu+g4MQkPffoC8Rd4G+WBFIHqYVsyVq8uKQcJiqXhaEmjDBUBPem4dgsHgaZ3IMjyJmxo8b4diYVXkOd0NEQEmRHGKPSsgjNMH2KcCLCRb2eQY2TDdzAs7i1Rv48t\
DKYzHEewAk3rrDPLEdQeZbHvK8CK8YOEGOpEA72hFIBSZVgSY4KV17gPrPOW3dRLl+YEJ6B/0hXrV9ouPKVJw+RieGZ763JnfRskBirwmnEZYBwYLqMo/fH7/tOdzbNz73PP7EYC/rmg\
/lszK5b3cl/eLtbza5fWK3+CKfwMrbiLzcqu9tXvje/KdT9qdj8BemOVETi9+ynuT5CZtA9PLM1L1yWnykqpP7lR9dlZqNBP9qj4Z6drATncdVR+9QtUnL1V9clb1CSpVn7ym6hNUqj7\
5SlWfwKn65NBCW2vjzvVVfXJR9QkqVZ+dlapPUKn67OxX9UGSsjv3nfDlyJK0lIyV4iF8l3jEEbHqURWdo2Ip4OKfPb8fVWo0D+KfPi/t55EaWYInFVUNWW3/mxDdOt7uEjsJ1HjfYFI\
p3x7Rr2lEJ1/+iCIXCBtZ18rwWOL1oF2kJkzwZ/3gqne39/dZ2nb7Cl3f1c3EDvOnAOOjkvL4Cs2zVUj2V31I9mVGMp1cq63YwGxn8c8BYYr/U2UaW7qh1sJKldkrVZl30nrD2RVlX92\
6sguQ+59hblgLCQgoNt1J185t1fAv9TX8z93s+OY3/HZuZ4Vb/cNCWPSyevAXfT248jyP0AjfYEnWFWnA1iE3CaK40fTqSND9k/O//AsoIUa6s0Kp7pd+F80WIEVyrUXdsDJSnn31U19\
/ezFfvZgL8P/FMppFQdrv28D/1gFfJsSX/vTTx/Qk8Tv15P/8L3/2H6PBFNTQ//aofOtG5X+rtp7d3g+/QGSpZrL0xAv7hdTFjD9U36MWX9g/VWV8P2f01yjx+b4SP8gZzbeH+K9tiH+\
8b0A+wgOivz0gfw0r4Rf//fO8Eqo1qMB//EKdFPnpFypikeFA9GuNJLG3sJDYjZmrCAfgFh7Jd/PLRx/JJypo3NI/YiXUJqDAteGEzWVCTjMZp6zJNAqYE7b62A+4/mHavu4w3SJE3MT\
6w7Oz+8fRXf3DM7Hm8EysHB74ePcqsn539+yyd7jWjj7OAF7zxcFabfYa1P5ukukwgtVp/t12HbK0jyQ5dUV1T11W9jVj057nKE4Z2Y18gtDdh625yW4SkcbdbVKZvil9j8MubNGmJUu\
ijo0szkUksW06vc3pGWcZw/xRulbfhkUgnfTogm62l+8R53ulCXZUbNmTEXf+bBlG+2j6GrsHj8n2HGijGQU839mbyBmigpGkM0SRcqVHUBSzE+1k7T5sJw5nuyH3LV0/m4DnTtwLbkD\
5zA2WVPjpgFfTu1swsjuRM1l2Q0LXAeQU2d6CIqeVZ8nXOT2mo+J1T4/dGbicibe4eMqjsl3uUzpl3s2nzMhD1E+Xye3wTXLyjBLAm6vT5t182sw2/Ca9JmaZmCZ1dTys7mC8IersBtX\
ZIzm4/wPl7N5Z5yKlED9OhThwIlUIaGQg9+tQwYEVQvCmNenO7fJG2YoRBhO0TwOo2CBrt7sALcQeHtm8Yz8kaN/R0GVVNJBtw2myqs2WdPCAC3VprU6/j50SZWwZGx2BkCk9MZgXVHo\
JumbSiGaDnPFgF39pQMd8WdI6pybcRbnSy0foYnAC76sXN/acVwBdfPQFvGNtTfqsEoGrLm/Q4dE5uV1Z9S49VqZYlR4kpYrCnCBMO3X2jdSthbNvrGVzVz9dSqlDd1L3nBdFtlbFJ/9\
oTkIXn3iBWhLQ2VXZRl21MWTBJp2zRz2Ub67O5OrUkjtCCSkKbfGcpdnHjrLklI68Qh8vcWqyvPC5F+haOpeDEzfC1C/0p5oW3WG9/ALf+k2PS7pGMlAXn8H0qEyn2Q/Jv/0CXfaQJtL\
1/H+FSZ+EP2V7SewPK9lYEVWdWQGDqCfaC66CtXLE183Rum6O9Lo5Rq6bY/S6ObZeN4ddlePPCZdLCOEVcJd5j1w/RCTT7G+0uifuMo2LGeNe3sB9VU4+jeKD3v+MpWvbqCMZWjeGV/9\
NXskxj7zFoSdE+e/rvFaMMf9ljYJJL3QcCbyYLFPNHBDPBV/uw5d6HwGpL8odu4gtWpc2tGguucvadaj5rJRhYL2EWqKyll9fMXECsaPt1IBVcVambYP1iFGJh/RKqaqXeNpG/dPWrBj\
EPMbbVqQFAKH1j8pcY82qaZ/etQQbw7Xe5+R+HS31olkupPKaNmalgEfyxCa2edcY1O29ZYzSVhfV9WqFGSwpfQo+LAuD4JvG0MXbW8bqH/cD0NgGeY8gp34CwPM1ABZs52xZk9cR9DB\
O5s50Mf8RHjMCZLQWIKHcAL3Myp3xH6rneQa/Po4X+ULRMhsrTL1N1VW8RBSwFHtfoY0QFWzI5Jku3ivtWKMFzWt0OyFLT5mSitgbSs0Ob9wTf22VArCufPiNShTPv1gxg2J89RQNbp8\
yL98gLB+cfT0FqK+zAGfCJ/m7ZGAI3sjWh/fz0CjDokTRVQ37RyO3O+KwB62UkV4WwhmV84Fo6H4F7QgepKuUXaCp0veqseSzWvmzlvz0oIn69Bkse1n1SiPoSm64QzKwkBHdCw3RW4t\
VeQNWKWJRlWNRg4rh8fsZnphVgK2/HosaYvkhlNjPoqqSRVXMonpi7IvUoCveB5NnJXkl94Aeeoj3UUt4K79qY7A+D6SERcVyj3K5QcUDcXM5deUNdwIfWYRPPjimb5htkCaoInKLVT6\
E1Oq3pmKJLjxEFhR2eHcS3bjD289eErw9QjeOszV+IDEbYoetKfRkUtp82OHty1uiVWm7wIjAM4ffdiZKd3gzWVvo1Q6bbcsGpBGLSgILiqm/c+hZal5dT9uwUtuayW/iVeAcamhCfwe\
ZdPkDDxU0E1ozhum6iRibykuDb9n20rpb9orSOlx2sxgszGq24HJLzAawZQoVxG/1vEO4gGxHq3AJTbcFlY+g2yZjc1GZNPZmWJ8zOiDJuurgWHYzNTnD9o7Ym1nnacOhdsNub5ONZuh\
4ntoNtOkMOnXd7aiuyFbWcl7XX9n21rNHJc99qyzqDNKYDYopp+1THpliotR8EDOk5G/Vbj/TVel3tqOvtgI8ot+Q3lXXG0PVqxPH7SuBc3wlWrM8cxxAsh21QF5poXcn7MjxbKSyufW\
yqwJu6JVUtoMHpNhxrgHaX9gTqK2G+GeHaDHX9Jz2HNSeplv1e83jbJRLP4rxV8BY2a4+ODapyaaYRZv28HzllEemk0bIohKCSJNZUI30TPpmUS8d5+u83UaJ/LaFPqZ5sLmdB1ghUcb\
ZIQDrGZZOeJcqPe0cB2mE68wpLwzN/1SaIByww7hvDbMzV7wopsSH44LKBqWaLE2uixpUQSf9n7Hh3Bk09sM92U49GUSVC5jamnpG6UgcQhq975osRyFxGVcQN7U4fIdLZhn3Ia5q8SD\
L0bt2lsAIxEcyK1vZonJ72byizcza/HCGXgdyPHWrLKM95ML7xM6VJmv85tCKxYK9WLN9tGyYbaZlG7ApDbqJNQRQGiEbXdsBBHbEXYxXB3MLU39ErHzx/D4Es5pIXDKxxoXSaDBqAKH\
xXQfagauMh+hQvgFGDUkiRdsuGsaEXmVPIpJCcPs0GRLFV4k8h+VJ5tV4xLGTI7AMZSO2Y4cwaUhch2FLsiHoyYiN6JIdrrtAuB9CfyvoA0zZFnwKX4yIl9wRG5AVfZwi8ZGuYfjyEDd\
liWe7Y7Tq79XjznDYeC+doRs9TZQp16CM3qNjYFEDMjYFvAKjf9e+CVoxQrpG2wHMPJAw9hnyIS23bOIKuiqTD5lCVNgsM+nVmTRkgto6VSa1OpOBTD6K1yTTITbqGSNo2gKau4FbRnM\
E+FWJ8IiouODHRyy5agJAodaX4gkPhEYbdZeKp92iffjh7tbvamuaPzGtRjKlLA/TTLuJp8QjBHYlaI2Vob43TSK7/Uj3c3uB24Jh2siz1fuIWnPjpFv8asXM3lfbUcehjE0cyUfpAt4\
WexOxpePId2djsoHiG7wrvYlyJHJRk9abLXbr0YyuKKNOanYDIo94Rcy1XOfEyWL4utJhVksFbmSbHenhTfwblmyOGmtS3g2IjzfAmFb4CHXAqy04QND0TdKFrWI3cDN0g6RCsFyNoCP\
ngV5+Q3o3LqsDqB+9jZcA7Cfd8RmwYyJrGhPDpeToNt8M2VGrllpTeHYTxnv5lpmxbKu9AT6DBt8D7K8vM2rfTJvX1XFYhNhMxxCuXBEPJ7cWB+exa1uP9N6w/hLMl+LdCJ6tE0OnkIL\
ZhtdZ0U70KdU3XqMyXhspT0PGi7iabTheN9hRu43Ga2DVeM3Wr5e5wbpBBmugHKyQNpuC7sF06oOF45ptIxnDkt3oWr1V+mFHsek0XtBmHrBOOWCyGHVw3G4k4J5VhOQ74Ot1Ru6Uykd\
XDN1GHrptMnQdeyMPnUkcO3S23ENO8R7CQ/FeAbX3AVXNrE2YdbPcGB7CyIb63WN3V7qJkUQidMm6IZGQ7iJIhF1BlkxYaSK725hyXva6XvE8XbskUQuBjAT228SaJgDVrl+h8zCOt0F\
RsXOIw1cwPMzhyxjewGF0KwdzisIoirFbOIxyGJhbFD7vVT46SFl0sHJJn67wGbPqzmy0dy0XKu1KOCymkOdVjXWG+IKLj3J80cXtXjql7hsMIusMzsiUZ6NbTZXssASZb9h4hYRr5b1\
PO+2GDklod880m6q8jUDr3Y3PZfJtc35YD7OF1StNkYAXz/DYf95duWWjNJfdldtLYoRmUW4EM5W6EIsN2b/nhOeXHZV+xQWuusC8y3PepVxwgYsS8D4foVHDgOq+KE3Bi/2+kJHzQea\
7b1xxl8q6JeB9yaWcbEjgVINXr8tNWL0WGyut38zInZjFBtrWP+RmZ2NGiKVFHB2SSi/JG/Rt9KXSEu7JRg6I9MdlfLGRAz5+nuLABF+lQAAgoGagvRgIFCcbyOw7MzEBLXcb3Lrb1/K\
+viw2uKXp3ybKeLFBxpBJ6JYCTGMXiQHSZQSN9cSy/mDlZLuBpGt40Tnupfc7wnC+gfdJCeqxjcg+iFCGRA5uqMjBpjyH5LlFnpZtVO+AGvd64y5yHiJ7XOQCRPZJ9v3yvFOeD8jzEGW\
mIfPIjiy7eAYYBrhSB+KjFpl8MVRFHflfZKv+Bo1TWdYClfVT5bfzVNZHyvjVGMv6gCvrtCvrbCxlnUNjkpfp9vli0Ev/Do3e5UhMWS8HmfDbccbjczXKmhS4EmU8IOeDTK2J9A6zL8Y\
s/pjJNzDNT8aMv0fw+XI8I5VdROsbwnfzmxwWzaWGi1+KsW8/VcYvUt8+0lgbTi2EE1cMNDPZb+exgLr/rjPVvdDIWg6/6HjnAzHdakXPzB1BTADhAAxucCJPe/kgXvZWGAnQ4NiGNnq\
zMMfIHATbF2fP8Gj+bkiMNPgoC0bRnFjvEMnOsIiJRuwgvgyYcRhFBiZALtojF2nDeCQdyF5T3m1HMTPbM8VixJYpXavdR2I2MfpNV59xHxrh4Ljb8ALah6RM3L9coee9qtQLXlUs7YO\
KTyZcwbQfSsnnvaroZa8q+1Kt7Mu1sq/Uyr7KZV+tl32lVvblWtmXyrJD3B5hpRpCBxcw44jSimbaEV6392mEmPkHMPZ6ZJ+P4R8K/H2Bv7ErQG8E9L6APnQQo1NNi6XyOQtbUozIwyg\
uyoNLNkb3KWQ6IRBpV8ORVVedcZlGuc0Cwp2mxUELuaV+lHB3w7RalIVV/QMX+Ecu8PMucLacCrCmmXNlDBY1s1zGLuCS65bpCy5w0QUuu8CV+m50yS3n31suYKpsriMZr/iub5d8Zys\
Hu0z2a0wt5VTgMi4GteRzZfLpevKFMnm5nny5TL4YrJbYowE148xLVIsfLI7/Drdx29nrfSbidYH2c1Q0MOfIinwTlkMKJLBANmVdXG7yV2iPileTCxRosz33U2UEoHuyjOBG2GTIUYs\
csUCLY9OBvukkA7izExWTlsKYVDLKCQpnvkKmNahUIkDYvMiCwSVFXtfS6cCFaKOKMIJEJhdVlXPFAQ6dcFzWzrbKX+rq7AMVD7pkPY5NdrxYe3fciC0RsvzcREruHyqt5tSsuFzQTMc\
YNBtM56Z3wVrXnXuymz5FykV0AfgDKA6dO4aGI8XzIPlXYANIeoY8y5Rfy2Vdfty98oOVJd4tlkLZ/4KfzChFfkVwCUUqorycSnaN1TWur3rPkdQ2pUMXq9O3sKuJ/6iVmWXnSKyaQh6\
dLLKrEh7FQwQJp8iySDhm1RXxBuVcOIpXH8MuVeoOT1R674HS0w97NOErYQF1hUygoiMoz1oJW5GHGeYaUhdORdPJuHM6dOZFlMzLcsq4pmdAudG40r1jVYd4BKkYmtFe2TLHG0mjSze\
I3B9y9Eiukn6JrWtXeCV4kfvpXSsxiSxVFySCnuuxSBh9DONVae8ttJbIsdgBusNJF6jzEFETE+9il8QOAdBM68NyIJWekPvJ5UXxAA+Y6bOxMttxbHfya4qNZ6+j1aN55jlNHmbCYaD\
fysT/13XQ+TUd0Zbnm988B79v5XnzY0qRmXSxSKHZ9He/bS7W3ngV3UgMPc8LgxDvJqpAB6b/n9ybDviwmktEsw7orsDHq6XIA/dbcu+KbXZS09LiS5IMnn83WyKHnhdzbHYQZt1MvYs\
lPI6y62qVEkxWviUkLOAld3ldN8+/Il4lzct18zw+S+sXuaa/po8ayvO1u6n5IYWekSAf2VLw3K18JWvwcTzqTZ/KNfpm45OlAVaMqGwI4MxeWGKfBGJmweufPavKyPA8NLkX1tW6Byh\
VzN0jZ+hYFtKU4rarhnqaLk0h0hHq6X7Uu+f6nrb9lzsEwQniBK4/BJTnb6Kn7e9mrPzl64Fk2Xu5MFEn6JCfPWRe03WSeMj8GmHyT9dr8sf+8FMXP/T/f+In1Mtt8WVvlniTlzGVONP\
X0+hyK2BnGLwVKKfgiVzQ1morAEYqfRsrWLhtQH0DtgHVvw2o/m1AldsA+5b7ZkzCQ8kR5c+KvyKEhCd+67zSvCW5UCJlUmsyj2T12HYPKFTPUaioPcM0EnApLHapLFzqkgdhbhN68vc\
DFWCtF1jjoyKjxOteKca4c8VB+6EVxxTu2OJxeZ5zHy7LccR5JKTOqj4n1IR+ZxVaI77HSVfUjCDZWRS5Mxcob5BzWVQufk6hk9WFMn5W5cCd0kEW+s88qeSg/pQS9uW06i/NX1FasKK\
00JUWutICV5rP5xTFjh5OMXLUyjoCvugMsNT1jfK8rToCZe9WSo7pp7xxjrLG56Tmw9LSa8s+jqbi8WUPR1v07aR+NYLVQ1LuJBF0tpe+mWRVdxJBPM7qaXjzYsYdSvIZiaOeTvKpRn2\
+rOUJuz5vBDyncTAqR2KncCwqH2MnEbgmXjHJanJ9U5tcQl9dIIH3t3eiakn4Ht6JJpWepbn/AKrSkUKUltVg30ybF4rxur1dMnOb/OtQx7P+nCybC0pqdH4uUR+dLQrOO/05hgDZiIQ\
5iapbiFfswR39wYvYLrKhM7Yh1iLXvANtQ2eqI2/hkBXKJmf6LHN4tuno3LZNuo8+3NkYmrj+Dx0OwV90kFzMWv2+Y5mPHJnVJ45D6xtJvYBWd+7hThBqE6DrNtIztW3hTVBnoukcc6o\
7UH4OnwbEzN7dDpAW3pDhVZU2evDAjLcDl6tPFC9Gx5zuOYD17agfb9BfpFOx73CvoHCg2n7zpc+zwTEcniaO5aj0s2Mb4iCkaduVFR2Irq8afEcbvbCIdjzX+7UVQ2to0t3+JkBrAYi\
7GgDJ3/NwJ/KIT1DsoQ1goNN3OMds27MEpXZVQxQlmTWy7oB0stBUZu6qg5IOXMaOzI1KE8ejNhrEfWxf5/XBNq7a3REeHqSGcRjINCdjRMB2OgUpEgqQl5AWShRJjXTkDvKD4R9n964\
+uux87hjO4pA2zJAYXZikmjVhyHEE+/wJUDHyG8+h+C+DQ/G/jkXpbzsnY6lzcBGQJMek7yQ9WY3uaoE7FwucqLCrRLxCumIA5QfJCHDc1QfJSSzUCCUHyfeTfAEXiDK7m2HOFRkOARZ\
yItfOzBLxP843mXXJSpJH+5P1AOxULygRSbn1iVSDUaDjLjwI+cA3G5BQqvpQzQ2Bfc3oHhl3ZRcrunLUq0s/y3dww6jkTLxnG6Ghul7yrNZ+HbRymqJJBkf8YECGkdDhXWnw21TJ4jA\
eQcTiKdrnSdakne4euu5En6BUsm8brOsJbUm/EyeaYYNAPo4kSwLJ8TAsyywLjGBIjvE+Mndshs2MI79f+a0lyWC0SiSYJK6VSSkCiPG+l4gABAuSRXQgX/qw82/iy02lZ7M+T2fO8xl\
2KKx8pSyxmixa9vWXWHsWXdx5r+Wo8200zVHn8e517DHNR4O8Ov3+0pj6KHEEGNpKesQRwWeJDLRa8sImF9MAd9KHuqbrMXLn4RjZ1SWnfph5nPqBtnwjdhU/tZYr5qi8pyZ+2pIPaB3\
Mmdmy5blxZnKdT248Wik9kJKddMU+R+mYrLnCu6MJPEW6C355f5HdJGpsa1TMPzs/n7Lg1QawOozZ+HjWZD8clJE9tPJNyKbVWYMvCThQ5oZEavFR2N01fIjgYoXS+IT4ujxuDWvDNrF\
G8WOIIJksQdL4H+y9DZRdV3UmeM/9ee++d9/PLVmleqVXsu67lm1JlmXJJJIjkcTvrlgW42Qie7yI40Wv5V7Ts5oxrG7/EEJDSSpaQi2IkyjBxkpCEtEhU+oOTpRfBIFQkEx3dQKJyA8\
oHZoUYIKgnUbBkGjNdMPs/e197s+rV6WSHSCdQV7ld865957fffbZe5/9U0yJOkJn3QP21xC9QQwBXPHRP0aC64ll3H1wyhkkJv4/K1Jc30pxfTj1EitBT4I7c7Q0kVJVjAl9fe3/VzH\
OzxLg5RaSImnnHdYrG4ECTMBUS7hFQTTSTxkzX9si1LkNtR3Pwr16yOjCgOpDiMrhlxHNyQaoHB56OA2Ba9neOw+k66aNYUJoNPPEaXWD32vY91y84/EbbtJIwmHz1baW76anmc9bz0N\
gW3EyzdYezM++UixJOWxLUj9MvRXjpUAGQL1K6sz7+hmzCFGkNqSMQQ/zgXKXMTZUmUSmevzhznrjLPtnYG5M1Q1/+GGJ8UJj410H8dt7fBMezbf5wC/2d1Ds79p4iS1HbEXlHLa0rsG\
ebeDn5lDpaNm5wyeYmjX1et2pyy1NJtJgfr9OuF/Dink0t7ARCGHIXkS4pXObD3ckm69OwofTJketh6aT7vDD2EOhdqaBjjnY7hGrkVJbSY0AklBVwHr3gW46fpmJQvutdng7Q0YgoSc\
r1bGHbO8upma5sqIWl2PUADGVajrE/QSkfF8bD1BPZCvKI2jIuER+quR68wji0ZpjzGy9kS/m7pfR+vlo3UFUmnJ0D+cxD491ZAYyy67Ock2tuut7xlkrR1JaZ+xXYKBwX+73P2B1X8A\
9uxOIPm5McEQvDoXPCpgMYATDhkziPdyB7oyEhhNH4DglfDHzr4tP8LRhxegNjSsvb2Iguc1PGP9QpNKjUGRHvJLibZwYN0Z1EQz+6yxDUoP/OrB6yL8QgDVpnOKAXIz+HWv078Do3zk\
c3x79j1e4ExJr+5zJaaJr+Y8l3I8KJ8u3eoW9WFpTejSFelMa8tBvM046qWQneFDlAdMNz6SRsDcthP/DzE3JQdxOGsK0GWfQS4RtdUVdcNBh/UZdlC7rN2o6rvSxUbKfRuhlFqc0rQv\
w6Wsdsx15Z3uBeXJnYVFL/7U73Xhi3XWTU73pja0NYNBcdrEwVXgi59CPBLwbctfjvWWNTHVCW7mDkAOT6v6zyYEl+XidFt+frLjdbN1RfodLi/e4nYqXcv4QH+1d7aNe4a18tIaHiyr\
2rL3dSp2vKqr4dlSxgb83g6nWSxiLTXHRNOrNKxzXkwN9dk17e/4JPphewye7r6WVg/hkF8cu3JWbSDJ0Kh/TVMf9beY72qDemwgOND30Bz0m1AR4aXKYQWkmU2BxmYnhK7ypYZ3eNIN\
epABPS+s4CrxJT7y3Nls7JCTlLmuVCVxSOG9egrRvp8ayAkXxLgNKEsS8+4RERdxvThotedIm3m4T77TvvMtgeny7tG/hGGMXnVmMmSPTmdn4h+2ytW4r9yzV2Fr59CQRuKZm9goOmqq\
R6v1c6eQhm45ZIK3pHgulm+wp8zbFB4wiWM7zg4IieooidLc0OYpUxUCe+tbMHtQg3I70DlFRhRJtYnUY3nZHEom1ySvNcY3YOhkmzEoZcMCiyUxZtbQGP/V/87Xvgpgo4fITTK2dnPu\
gA174Vqp1snVrlFdk0RpvcjZQtt5utRJxadxDj6ekq/6ssEEP7HVGek65lj58SB6u1+wrJTuj2UfER/M0q3ULaiToZIa/IXFq9uPtEIcKSwOpWyI5btCRSQg74f7Qk+Oqoa11MDJPZO6\
tD2IGNBxqjZKP4kbJA3qb+JPMZZ6E0APBShloLzvicrzJW6DVXwuE71gdwhki32Khd2jWCu4rgLciNlrOMoSzfrmgDwviTUjvHijZV5QwtqxgU1aQ+r9sAiwO0G1usUBDUJKNAlJCCoh\
qwF/hi1ukc9bbQjObS0Zmbs7YVkJt5ZZopHo+DemTJUcHJDVcgFnbv7qrPV00wJF5G9aZA0tz7WGkr+AcB6xWYGLoaXe3V5pOOknLIt50WkFpMndf3yyDEgBoW5R/MjIEPg95VargWul\
E6+Zq45A6ranZmyElpYYh0GpYOXlu8k4fwBm63sQUxFAoZlGTcuAgn4PVjZF8pjJ5Orj08qXcx7X07kYbrPWQ/h7USGu9sZTbqx/uTDomrNVdLxiU/vmOrech/X1AzCiTDUk9/md3VaE\
qFn2r7E3Cqz4gEdt4G3WSKTpCDX3z+lym85B0ThGbd5CX4kW1xfCaTOcHdb5NxH1b6duk9G2yvJ9EAazaz5v4bb6y6yCqjv3iDZh0fWAqD7YUD1z0sfbaSh9Lr97A8oKzLh03Gm0+Aun\
cjO9hAoP+a8rhWb0uKIhkjkLSZL0uAXSW5FrBx9xRRt6uECbOD+KYmS5FLUxsk9TILDwtrHghMehJ+NKRnSUmFYxm97gHyxjPZ7LFvZ9/p/Y59/Lv9D7nUCvlTdAT4R2gM1IyfVcpuFQ\
yqzDwL0Wsp/hUcCIHvduSTo2gwtxNWAXOZWInlEGRiV2H6WxYTcgmh1SvjpzndloYmOt4dtfnapNRJcZLUyTHTQhfp8RqqanxXaYkvgvfML0hO5r0+rMir5viMC/NUpiX6huQDkRSb6T\
14namyZFempVIL815aoW4imkCpl6/0OeLqhpJ06rCJ0i7Z6V+ttcEfpUPMgYfnyrkD3Qa1yXX3du2sWere7WHgNbYSkGyLn5tsbM4+0iE5XrFYAqC3t3OA0Se3eh4wY0SRfgH7Tzzooh\
jgOVdjCTQFcHnuvietInYMJNlxEbrt55XdDQ2zKTGhgGoawbUDWLDNKuxYYj8mqAd2YsfHSV2CjwMcMrv8taveIdnQQsxYqaSfp/AdXUKqWm10dbZGDENwurTjEfEQo97s84GhiFeOO/\
joJETQiC50WfetLDcfqcUMo2I/Ns139L8k5r3lQwsMQlvMbpp34wSd59zUl7mHqxCMPVkbHLI8Zzz0Js0D8LtNYY1wUGC+Mackjgh02Zp3qe0iuL8Y6xYPv+mW4NSbSxr5UqWxbVp8An\
MDNd06/poZDk3rPFqlr6tlb4VrCJ+n+hRMOaRwCxtVkL7ih0sniAmmIBu6p4+tWhdPiHI9tAZVw9XEr+Wd7yth5Iv04/pO29M69l3036Zhvua/FF5rBxObnhURgza9Z4+Areu8PqyY4h\
PhWslVnpyg2j5ktayq369DZTrfr3+u3s5PdBaL7jRLZPdV+EeNjL30GNt6FladaNUG3/uxLNjaCXGU1s13kMIGZLfC2rVk5AOKzHIldHY+E2Hcd7WaMC1SFmx8ZjlahwUxCob2GuAS5i\
qNdJ6McIF8BI+NRrgQBppsHhxlzB6efAeIs2npQGPGsDX/kqNXACXWHkZO8pb6YNYYltKp9xlndJT/TazXdBFcbCzjYbKUKYiYZF7VhWCWMVxxB9Omr8PyLru2iFrmomaaVxXViGLtqs\
5uCJw7aoC19Q/bOBiSvAfJIA5Wu0qAHb7NQHYRvBrfz/ghDEY5bz7sl5NcQewD7RIyAJ9ictaVzlMk2n6Jh/pzfFyGHrWLJY0y6fsmezYV71jSeNQH6NIqiRMZSz24nttSJtJd6WrV5k\
RO9YxM3OAr3aaqnDCTZREJKVONt8wn1rZtkrGZBF746SiU6uOEBcPaxnehionAhHPiHgnbVoBDxyeFC1BKLkbJJ9I2AK7sg0sssmFbW0VtrVzYVtvmbAN6glVFNCLj/C8nci84xB2bXW\
/BxKwW507qeugue8gUozfU3HYVvel+sYdTELj6oFenYjKlxitFf4RIqrkvVaL0WHvBZJM6TTEI9dMJCSrIJRW5xvfo6nVe9T+xvdow+o9+ias2uTqPYpK8PcMbZQb7sUu23ZfO1Ke/3+\
H/K6yhwkpAn47nsdXeKu9aO/O5HWXADmyUm5Bo9mRpP7mtHksl3RHtPmgyGbLSpIULVuRIewtP1lHJ4XDdq7egbYa3K6xAyMHMgfzVCSzryrRb1cl+uPbl7bain3Gjndth7ocOhBhfJM\
nPPo6T3jjH9aE4/6wtY61b4Zv9CUQh2+tABAwV6wApiIxMY2PttUQOnXm5fJepPX6Bnyss4iSvdMgdTcc9Q/f6K5Wea4za0eiKgANqAB0eTqs+nndXv2raGoQwrv++Kv9+kpX+zkeaeY\
a61OiPjM19Fj/mDaeK6ju7nbbygsK+nK0v9TFbt7FUPvTLepusyZ9k7Vkq/rwRtzO3gbpPQTrG+p+s/yPbTrp/3Xbn213t1slzBUqCZWDVIkaDEvUYAydj7qCVOPNaeNYmUwMlUxMGiM\
g1V1GWvuEQZ34IeKeKpAEgTcHD/BFsMQ7qY6mjlFhTENvnDhOxc2oGLJJpqDBz/cIQT0qDWt6BS3+2li6sCba/C71bDrpUv3jtfkbrEYeMI7p5tr807ImV9Pmnx45Bs2aVfEDaswq0qP\
tF16VD1sm0eo3I1r97jKt/g4zkWWtfhceESta/a7IjEde3QaLYfaVO6rV74pWv1uhXqua/b5o9q/8ygG4Wxuul+UaGlkWNwKEDLoEKoDP5jGrJ4YLdDqpUE6AJrCUdo+zqlYzqR+jees\
mdUKHNAvQ/T/QT6b6omQbKTawzsYYG1glVsZigrotFhMEJqgtjw4rqEqkyoLA3pRvBk/uwgmDqiqGr2xaMwJn3CPOsyFPPH0SRhV+rl7lOIUISfoSy3eaKuklU5BYg1IfZcRH5JwszOT\
ZqvA9k8v5ngauqxp6VUVffi/EtXvcgxH27yHlAr4XXMBW9yBxATny+toHvvY/ZJtAw7xZUjZo5roFoU2/kr0tNHOtgl5JT6GsmCCXLaqilrTjewj3FyJ2vV0+Kt4AJvnagL3dt+U2ZtW\
rp2XXTkm/on+Q06WrUAWgTT0Gtl6ycejcvVzMP1Jns7DZGXf/NlbUP51M9tPptYr621bUL2oRrgBVTYEKNv3TAv9N9AxYTFTIOFKzYr1G9rW/+5VzcnNzH/vQz+ZOLvyRKKLQ+QUneWw\
AoCjfhx5zA7/xoA5nesN1B2Bd1hUL2+qxaK+786OxbTVZlh3E+ZV46qrpWG/UdKxtz43JpLe66ViXcEWLDp4ukEWLDp6YKa+8gg1QqStMxwpcNVk6eBoV87ENkP8kDT15Dlgbsh5NziR\
24vhTp5XbkDXyU2dShpe2l5067fKpM1k6KtpE9pWYrzZDwGp2ZI2qHVm5Kr6yLVW16v5RW7KenDob9NSxelO9MafOBhpx6dTpsaCvUTl1evbUqby6jcp9UUUZOXV6cur0RpWRltuTrfx\
KblOG5aJTpyU2ZQAPAulYISZmMBagSRsENlC/pKXoFVZl3YQeANy7jJPeRGC2HPLDMtQrQbgq1G9QqHdHoT6nlnpKIK4K9XUaQwMDqBPU1xnqS+TWhhWgvrci1Au51aiQW0FBbvX4znA\
FwK+PAfyeIp7OMsDvlAG/LHXoMHlSQCtlrwnweyOAb64N8EfIrXBVcqteJbeWAX6J3KpXya3xgD+G3ArHA/7Kr+SAj+WCUo0F/PoJYpZi4TAbx2C4gUwOQGnnOFtmEJgTK0Y/HeIPSjT\
Whj6U5YW+apToq/qLoK9Cq7/qKVVTUFl8Fp2DyfhPq2cta90CnXoo/QwlGLTE4lID6ICjERbLzvrwY5a9VQhn6Rx1Cytpicc1W9zfcLw99Znji88cNZjz2WfOXwdu40jAqvEXnNwT1oj\
t353wdmVt/1r7nIP6UtJ6JvXH0QgBOwbwYJy6S3+36m+ivz39jfU31F9m/C3Cbt2VmyV2kqCsupHWWHXjOFtkDEImEUUpWacXkcSSxrJuuUlQaLUk8CcVwMpSrphbosgi1odCzXe5Dwg\
GlGux4DEUXAKuwE/gW5N1VqL5NLY1MSQv/x4EpOioJLXjbD8VitEU7SYzC/OZVktKm3uxOUI2c/fxOG1opMFW4sPwfoDOZ+YYjLt01AhkGVSGzpZiMFITFyKRfHUv5pbNwGazR8SQlL7\
PjkgYJGL1k4DRq6lWZS2z4CiSNkvlmX3gSoUBR5AJcstUXlYsKealM2jRb8xIz3bdz1WSus/ohT4rwMQ0K21+X5cEU8DfAprbhfuGuPBk3BLTFzY56UrcvwviTYSNdvX4M0WACvZilnr\
zEp9L9zlb/absH0JMVFKnROGnhrXojeQO9NkMEd6R4Fwpg5OK+LX8Er3DrpESt3+8pKpGb1ABL8WvGuOyd5Ml2nwBmy/jCvMV7MDSyTVb7pesVWz5XslavZbvkawPrToueClq2W/2wUX\
mPuc7OO+yISu/KCot1AJVAHdtcD8a/zAwAhPw6v4t12epAWOoG0+awvcHrn/EP6rWj8usn72cjvCt7Kuux5FYrsLYh51pQOrDtnqLmh61SvNycqOh98Y1JzCu72to1LCzvTbmn28qWTZ\
cof+DgrBG4QFoB2/E4YJXcbjA5nqwrRQDmtHb95K3BS833GGZWUgEg7+MYPDLBEOzMAVPfTYWLNC9D0vgVQgGr0owlKvyqLulqjw5n1YlGEIQDDKbQiTALZtxZPjqPKHtFc2yhejIRI4\
c8JUv3eJLfm5W/FZOfv625EKhpi4U4HWgpi4UcDfOMGOdtFyAi0x5NYXzQH6PDczywx9Gbn3ecRsd+bqQCB9JzJuPsReFZzzXPeofyc1E16WuWLVx5jpM7HdI9IcI7oLF+aGQC3AZNz/\
ctc+5Dmcs7NzWMY2ynm0wgapt7C9bxEarCe9bNv1IgrSe1CX+V2Djf7lFbC3vmZHwXhyAi8OQrRD/y+f4Xz7b0FfifwV5/K/Axv8SJ0zcg0r8L5+xN4qXx//yJf5XMM9htYs+uivH/wr\
y+F8+x/+CKXQ5/hd3V0qXxf9i5z7rE/8wgueKv0l2LBF9sObWjtSuhXRplEiXxteHdLESzkZBukRV0gV+2uuZwWnf8EYMce0pPq5rYYV84cCJHDjLhlS05EuoWrYNtrqnw1xOzTafvBz\
p0RIy4fIXPSVpaokEbmxJvR1LzPD53WFnMYOIOTX2Z0OcfUsqKJRy1YULKJwwEkNNmIWzhFR1bvGJvuAnLl8t2Peg5in0TbgSfROO0jfhePomHEvf1EHf1JnrDVanb4JV6ZuQd0hYpW8\
aQt+wxVWLWarltE27TNsQoUi0pC+zpNKyzBwn4qtRrNWjaaOPKCGgEWlLE1FYh7csbpT/B5II5FCzIIdaBTkUFeRQu0wOfd5zPTrLy8b51Io/a31+IKuEhoC5a8kQ9YFriRT2tJVtEc6\
d6V1l4uu53xK4pOffxlX95WYmft1VPOY2JFA52DdEPsPYQin11QWtrlWr7M0W/S+82aL/hTdbDIEjRo+41vULV2OtIrm+SM4UyS2rutat2R6LBXZY2GU3qr53narv3bDqezeu+t5VV7z\
brbGbuOGt7RcXvF9nx7D/VLyA/dOvWwNzRlr4W5eg1brNqLF3CXaaUnDO9UScmhCi9OP/gwjXrW5r4NEvh/VuFIqIsLbR2NhE3RIikDi4Fq5r8xIRV4+MHjsUY7GyUKFU9/fl5heJpUx\
9zzWOV/JWBhf4hGzMMIAutg93O37kLH8nZSlTRSLvMcHNniVLxlzmBX7IVzsNYf6N6gfuySMISFoi7cCdlLfHgXCgsQdEBkDnN3zXHDHqqC0JrMFS0RsJ7bFMC7ZGQw+seKP6blpnhiX\
UgOq5SVxNzJlC6+sFdm81HlNdQtTbW4Z65bpDG6mVYMEk6utBaOEVXISr9k/jwLJGG1dvNGkgLn3Z1kyBQfxo0Pti2chTKd8O3T02nG4dpnCmUK6sj+hCGEUf7soVuddUkRF3HOYg3lm\
pxvLnF9ReUxbSZX/Mdk3ZZc3QF/82OfDUFHgCdrDzBZeoafeI4vqy0mR9yCslMloRdR3ow9dFzVbswVmJKGyKH3oBuFxvwIzTG2CvlOxbX0K6QsGQu2ghUFQx0/ob2IE4s+/Ql2QJGh6\
X1Z/Ru8Td56jvH+gWG10NUzij5DMsNeo5M6mjxRwcfelz6eVS93vLvgusu0M4cMrs1j4BPUmPgPno4w/T1FifQjX1fM2+haKn1UftklP2sfMKPqHLYgSvKkbwqmIET8QIVojgqRDBUyE\
C5T0WInglIYKXCxG8XIjg8lbxVFjwRXZG5lkfj7tyr0rCBys+cgt8NGTQGTaYbhBPZPCoxPzJXlAKqqLqS1hRdizBHLHSHY1hfVAvpAfA32HH5ziNPp+DSpOE2hYbRQNZhhIJLpkVScc\
w1OY9XC8jDooP7yQBfmN2OWRtz52eLO16GzcMzk/FF5cRlKx+Sf+eqmJSKGmwibHDxHPJAVqdIeFdBrtOj+Fcn8iqKPkn50ueTEo3QL6gZT+X3gQg1gwCJHFAYPYJJOq64j7sNcOXPCp\
bU/zT6U3FgW6kyW1VveERScFVPKvb8z9Zq99Cl52puieu7rfQPfGi/BZ+2rc9jg9vzN7D2MGhn1kRXjF6RVyCGkEXHS3zb7tzj+PZ3Ds552hEa/pIfUZbf0HMa3lD4vxfhvUhvgi5fyG\
Fr35V6hecdr3MJf8mU1LvhnudpL4CC579hhH84g0/47CPK62M/WJl53kYPsafBBD+CWcuDvb8ZbW921BzOBGKhvMBoHsrCwK84efqIlOhvnIzv2Wy37KVwXNdeWDZb2q3dQp/uTKhv4Q\
J1cDmMG734WSKhwHZM4zezy04jw2/9kHn0Vx8EbDMhciAYbIPffIxJ/LZYf1MaIFlko+A5RSBNaaXyOwyWwhszrKFPCR79fuo1KvhmctmeOYSPOc/2t+fA4V48zwMcqtwXjgU8ZEDL47\
HjFKuvgbb9DXYZtWbYVJ4O2QiGV4Jvfg7WdLCsC5KEVqZuM+En8AkiJ533Yal9twSiY69Zvk0jp/AlxWIqPImc1e7IOYHXr4r2dupOFXM1IWk+E4PEndWMLV6VJK7hsQcTtwHxfEddMW\
YlxN3b7PH4Pmq5rEFbA0soOFfX7wwWgbQV2az4A59PdelxEOJl5ewUJEFcAhD1TyEYLlULfP27NFkdhYtsgTcfpF7qAQrzm4u0qZElHLhvfqQeMNAbDr2eC4YWrjIwlOenPEi7SC+vRU\
d+bot+QmzhjX/JJ2QI3i4Np6LUx6Oz9CwysOpV0KjXgnNqFdCg/AthTfCEhb3wPOviriJF79GrF3LsXYt+poLyW7C0srNP5R6jyfeq1LvmUGQbcVALdrlLIRDNeZQRCrLgrKqVNYr8LB\
flcrWIRb1ChQwKpVlUe+A5WtXkcpSDxi0aiNSWQO5rxSP4ibutJXKekmpj97VpbIGyAv1eoVU1qC7UlqVyoqXr/+l0tHhrfsE3LOtSe2weifmTjFKe7sh1t09ypcVro1IgB2UUyAMixx\
EABF8fRHzseNYoePofPLgCZkJYeuFhDGCV9A4lqbk21v4nWU6OD6a+m1cuN+HOgyqgPtF4sgfl+BSf+ER+IdHlYDmKANOEbPPOgXWy3tHnKLe1VYpy62OKG6LjBbkQMfSmaCuQZlSMpJ\
3+cKmKUkG3IYkW7LTboVqvTsvMWkRV+8HJLtbxWyHJLtNswdbcKAaaLTSHxiJgXAQQQwKkaS9Om2rl0Q4GuRZZM/pIFLjM0jrs3Hf2PcRKo9jiEkox32ODeDaQoDNfc4uDW+wVQMTJBq\
XAD75iebegHhu+816hHPjixOO5rbPWYfQbfucCcRn2+fkTvsP7nV22/ShvcSSSNr5AQ78ieBsJt4L5Azmg0M7mUejL5VxWxHBo1eK4FGO6CHxboL4LUY9Y+LOCwhZXcznkyWOUn34roZ\
D1FScp8apBMClahBJjsVZway6K1ZfsEkleMGYyANh4cuxCNbFWh02eUeRVG5GY00S2/VrawhftTmPWcKRq779mx656iMe0R3Wb7W3Rbg9+C/dNYu5B4UtASE9OdKImc89UYpw6TBREbX\
DrIR/v5w1NopnBL6jeaDtw+uIuoeFf87Isv6Ucynn5TkP5AE8sc3CbOGBNi+89VMtnvbdWXg9Zv9ns5BgJLWkQVSMtmzrMky4sBaHEBsNOp/gif6Ncxp7FDGmOUuvCBj2LJHgQvcBEq7\
Gg/nLtaS+7FXtGW4fqE8e6IcnjGWHBZDbeMwX17wkcn+hdVgOO42kXm4n4vmryaHaiuSVpCbESxswTZvV5LoYnrjgvuy6ETtYLnP9+DYNxAvGYaYAiXGo3WtD5LAohym/hvibpgH6h7N\
Z3HUxUcaiKaIDW/wUk9tk+o+611RNXXEAjkuOEh0IClCUafMSDyUFHdiCn8y0KUsDRWKuHu2wbZOuo1ismFnoWx9l7Ri5+4EGdpCjD9nbdl0ye5NSlynsgMG9w5LS7QwhGsXpDDouX+7\
C9a7Aen2WMIiJTdqkpEx8R2579Jjt8NH7hI/LHNnSh6Dm7MFpsqthoUEsDw+I0+C/NawpqAcizxoiV7DuEJHB9nIJnvgT7+W5z3J4nWWP81nr5bgTrKGEKhJAT+6WwxYeqw+nrt7czQ7\
ouJc4cdyP/G3eFoG+ndPQHk5woaVtC+Js3uJj9T3seZ7jwQ2wXPkhlpDRzsLjQMfFG3Pu0MmdH6c19uErehLNlw1ZWaGe1O7pU9GC87JH01qfysI+cae0m/qP2WHLQNkdN427WmFdXRx\
TdbkcEa1o4aPcCNjTOhxNEyao39NXx8dDPafkWY139T199I/pt5Ee8Se2VybvVdkRvNH7pejpPJynq2FXMkfoK6aLSvNvivmnzT2APktwn2o9OMPnHZHjmFylFj62NTi8LfqUFnnL3wq\
yJ59eoJ+4JTKfy8byOjFucXIX1Ln0taYe9Vlaa3BuQa3XzMuqMYixokv42sdZlmVUXPTIMeE3Fn7tI/vvLZXqpRD7jReJ6nFRxYoJKIEjRx/L0+P0FKE4AlwzDZP4lFnl3fLh52vQINw\
aESr8DG9M72j2AWxGdkLDkDS/1fGLS1Hq7geg0iLiYUiIFkRClITQsE1C5lc+gPiGVKQMC+fBsbiFHgnrEFU5lvAqeiThynokLnMsLtV4VY5FSPZlHIvLHIs7nmNxc46FuKyij+FaOBa\
XORauNyxzLNxdKR3RI9H+sSB/ezHHTI+qAKmhXsohCsIUQ5RkRP4MpeHysHw7rMZYSZERPRfpn4xJpETGKs80knAlQVHeV465e4Wd2rNW1KP9kX5DoPRBepl9XO+Q4Je+lRoQ679fxQZ\
O9t63LnA8y9vlGtCP/ip0m6I6c9ktk4iXXBv22CYu2sQFm1i0iQWbOG8T51zRnxiyErsEUc7OuUyW213O0H7OVQJz0R14GlSZ45u5qS+Bz9z4rQZvhsrkn3UHkjjtgtXZ5l00Gg1qUfY\
Sh0vToPfnjAa9P2s06P1pg6D3t5mbEDf+NrMFTNatzg2DDn7TQRe/g0GM32QwocTwqTwS2ZzRCFbNPBA4AwnkPZqpcaZeDnQVaLzwi44IjTjgmY0r5yt5bQnpTqGywWL/tiSjWTndhWs\
UZVZwjUlcUNoT+8qBAR2nEhjQCQtdAcROL+L0GnvpAMYC2SRnLpDdKlkEcK8Vjy/avH59wea18kWbDwsGJalp10TSm5m9FU7hvFtlFRbcKq+w6BbDQLzxgjkSiHCLgSC4uVuMBIHI3WI\
odsovltIXSulFZwxvJaHUw1kOPWEARhsUnNYrOF2n4LROwWlCwSkGOFUX3fzPsegvaKYQU9zlk+/Jm9x1R9ZBsOKDqWNzT+aHTQlJMDut0UBep7+P6O9D+vtK/T2kvw/o7x36e6f+HtT\
frfq7S39ttJFEf0MbfcTaY2Q+ZM39+EnTdqSDYJ2eAl/jze925krwiufgh8+IlLfQB3Gz1oMgQDcIgTYpt9+ol9AzSt3BBpA7CL/ACT+deszSezhzqKxuH9bSHiI0jL7QsC+E6TSOro3\
lV7RpN5l6hsiA1hGiLHs2UIF3Ig3ZgoQoUfVJyX6N04iGPP8Sp5m2xPixGIe4VYVsfhigpLRmC54mFm3igk1ctImzNnHOJs5zCI5+TvddcOTavURlfkiLSlTmx7WoRGXeLiV+9vNMZPp\
EZPYj2zHbw/M2cc4mzvKt8Vl/lhD028ywRuvB7PFZH94fwBYv0AF72bO585S7lOfOUW7JW3MEhSnUShjII/zAFgbPerwJCHF82kPLt5klDwbTNKttzyqCtpmbaam5HY31bizHjAUtM5h\
JNgy/+/uIBmwNgtZ1UdbmS7ysbf1DePe012UxysQNaLqJY6qto/x6teusRGDwEDNCDZaz9VQn/IRNqhPd61vVhxu4C9fbF4RHmiLQvj6hgv+1bfDSelZ/DrjkYPs6+tn8Q8nk4yk8Ot7\
Tvm7oSQV8E9GBUg5NkJ91JdmF0GKbrALPnmgHetmSx266nzZ3te0TlkVyaslLYyKJ1uMiO9kEs4zO8aTL1sd7nRY8/O9xQliR73f4Xiq5fr/jw5E676aZx8R+C5p/aQdrXiOenLZKG+x\
RDKXNDfTLir2TSQyfrdLLQVzeFGuAvXp8OrdRZb3ZKas3OylhrSbKgNm5NsBMekr76QS1LeBtsoB3vQW8zfbyAC4IAsR2qPN9HBblJayxmpkHaNXdQbvVjXJwsuCTtInN1qBEGxgIGEZ\
oR9LbccQ/svzdfPk3yPJ34aA0h1j2razgzhbXI0vvl5f+pwzbVOnI/Hzpu1RB7Qh83kzyavY4qI0YOicbJMnk+NT+IlBX2sb0hbCxA3yxXSqv8fX0y2u8KenODzbnaxxc4xo345+u4Je\
QjaZYfrTm1UymJU6aHW/NrmRiV3JgVzKFfvXA1wa5w4faE7QKOHWbiJLlAxPoEgTL5rlWnuefoXkO8nYjmMJg9JjukGWNJ+zcUp9FuokRsNesVFziJhtfxrMKjXLqaohZTZJwfpDms1r\
XabtiT4fLNnHJJpY86VbSit8ud0JL3l2QQE3ycFvh8pE3WUld5/KKt9c75dvcZcqdzHOXKDfnl3BhS26S+NlJZtF5wo/7g2nM87/2Bz0k5nxxctGaH9yQNJNoFjcBk3x/xdH7MmuDd0J\
MiDhNu5phVDK7kKlL5o4TafM4nEikIXu+pZ0yRTtFzPity9zBFmIaIbzkT3onjtO53Ts5T6tp/daGL+sPbuRAogzp/FKMl+JlL92El1T3PcRL4bKXYOfQhDNrh97Y653x9QRitx0brzG\
QUHM+laqPPtzZtqHebE60Wq0Jh44dE8fGN92w2+2GYdCVf51ap9NphIDoUM+gGTrmOKlF6AmffKU34BtTENE0e4raYk2hhxFBSbdcsI4KOuWCPhW0ywVbqKAVJTfhwnwmb5npt5uo+rZ\
9NJVsob4RJrpR5u41Uv4YP8gr20pf8WuGXytembG9j7jO5MbBRnY6tEXcI0/Ztku9QtP1UgFL8ouMW86Y8mjUIT53Ak7xEYvRZqf1BOdspJM4zYmN2ENCJ/IpFfKh2rNysOPHk42SJnD\
EYWaOHd/rnQYiDC2ODBU10hY+488qwqTMac6c9WHqR9gyC4mAm7lLt94p2no8FTad9IdHHyfo/CrUzB5tN5j91k0KyT2T5T7jrZ/NSQPavlrDnJ+yI23xb5BsYN4pLEy24XQgmdmPJIt\
XevsEp7G0Pw2BLVipgrBfGbXdANTWAGrrJXABQ0vYAFHA1hv+g2z/Jv1vqp8cNDAA5Z2UzvxeTgccT1vA1HLDcKjtqdXkZNGDr4qnL8QQJJ6QqWlOdJS+TiaE4s4WPFbMPOvNxruBMhc\
86k87+6DD/arp7/UFBQKK6Xiy2brR76DzF72BzOEFj/rNiUUP4blblvDHIj//+x/9g/kn/vzXvpwfjZ969qnnP/bcn7/vufyM/OtP/sTzb/vwJ979bH5YfuX3P3Ls4+/6i3c/r6emMBB\
6fGZLTNQ7cd2i6kU/7aohCjrkp+s0hGSJaXzdGpnHgyPM4x16Ig+u08N4sF7P4cEEEmf9AYxe1qlpWLdgNJOc0RwU05nIdKZ2OrswE2e60WS76LfPd0X0u5kvikBzGDzfxMo19DuTuPN\
gFQcbaT4u+myVvi6yR54C1qF22KpLYZ0Km4fadTojz3hU6Cw7E+8SI0vrNsY9wcSIP/RKp6ax9JTKsQIWW6wMI/wWyIuYD9xaNPSprjCvZs7Xaupczcpzs/bGQIBRY/Dn0yaylUhVoht\
XG4XtHyHoCZ4ZtnMj9upqnwhHYwYb2b9AZnDxyM13mE3TkPNdvpfO5IKqp16MQjjPE10B5gkm6G89/V2n59Mm5qbUUxgoS/YAcMUA3RDpgwShnEtITO9xn0Wit998Gomp/WbJ6H3iRSS\
I5rpgFCAXjRojLiBB9O15Y3EDEhHtMyQadJ4jQWTmaaMq40+iZHK/+UkkNuw3p5Do7zc/hsTm/eYJJK7f5/wIEpv2OW9BYgbxEyixEfETZFynXE2ctYkF127f1xFezTOPEBGWZ15Jfcs\
zD1H/8swDEDdr5hBEzpo5CGG1Zu6EwFozd0BoTZnraJ6RWE/z7CqmvOQqEl3KP9hFHcvJ8K3UMc+OJi9NqId5pkc99HARvoqMiO/VlnyWih03xjtqL+YysDb25kzuSPXq7YJzd3Hx9iH\
n7seKO7ePUy6FuAIUx24OZvszhCztpZWnwpHHiBP7eZSzshEsr+w93O9f594gQTHPBNZqgFEYFpwTJ21izqwgnlsJsz40ghVHxXErie3CclBgEdtliy5EhReMqtIsiejwkqP5RVckdcK\
XXHGVQbnMNwWg7t2B8IpL7ohxwKKrlAYdZ0JILNgD7rwHFo1wvz37zno47rbRqoOZ3kYrrufjKY8wO6gND+cDYT1PT4yL7mCdnFQunyrceba9dGfT9XJHAxSesoMt+nt5P90Qa6/FHTv\
4HKPdXHBBkbOoHLwI9c7lk0EuSPrSO5dODU9uSjZJ9S5YfeqdSwcNeueCd6TJMuAdabLMIM3PVE/O33k9+2lX5bklyi1V+KZLFZ7qsl/mt64wjbDeAlNgwStQ2i8g2m8ukKA7h0C9URG\
xUtcRsl432AI5xCSA/Q15mGOHpklVi29U3pXqW6/EXzAb/5zhOL4YZUB1YdzBYH2U3JCslzjdN6o2xnqm7NZzx+g8hPLhZLKFSa4trC8X5ZzjqWCvs5iP6yTlFvLcHOWElq3bga3ToTK\
umQu0V7WCYLFoGJPrW+yMyfUt0sbk+haXY3J9i+Ixub7F/JRzzlv8jRwLFM7kuUXfYnu0Z3R3S1+MbnHZA0b3uYCakc0u4GZkxwvIGdn2AnZG9rqAnhEEIOBnBCvIFBrZ4jKDRq3yMYF\
Gre31ONhVOg22lg6DpHQW9EpHQVw6CcJkiqimnLi6SYmrm5W42qrE1TYlrrYzXXVLMjU/2AEwJaZO3IjKoh/STTcnV3iyxCBQeYnP+LrEzOgwGxPXrFpzTUmZLmcmNNPiTEczjfIF4oA\
zU5q5njOJZvqc2aSZHmc2KmVyc8YERJs6bkBYbKI/ZiP79MfEChMhPSVMILBSIiRWgsUSMJagaWai1cmEyyT9pfQ3oL+E/jaLg5O/E1EBLm++YsQgaIvFL5stfkksfhlY/JIChRF+2UG\
Jb3f+hg1N1o9MFm275AStwGS26wQuLYqpSyaT9cdRVswg0W6TUtbgnZpM0cLRgcYTijTouG93/py1kP7StbIWyvwXMWRiivI4BPC3OoSfd1j8vCGpU3dr1PeABuITaWan+u97mrnim+j\
vFvrbTn/b6G8rlHjWC/2wmf2gEhS/FLlNyCUnvxO5ac59l1zKwea95ANFvZrBN0pzb2FVEkn6PKeVRDkHNTlJn+V0R9Jn4DJJ0mxLm+jN4SlOT0j6pCk0VueMNVGTwC1iueZkl+G/VdK\
XEOW3dJO8sXSL3C/dIM+Ubo83lW6Ory/uJzcXN5dJcac5KG470+IedEdxQ7qhuG69qbhuvbm4bt1aXLduK65btxfXrbdI8qQ7a8lNGb/N36lzYGYt0SnzYPO7dC5s3l6y2nxSeLIuG/y\
fdqsW/2fcssm/R7QbU5Tn16DvO5Pr+4pOQ2LinzffdK3fr5/XgJ9XrwFrmZvrl8/NmX/Mc3Pmxc3NO/4xz807rmFuxuypf/uPeW7+rc7NF4wblG0qVFU4b8nNjt4rdnzQmO1DwXSZqZi\
npmLeqKmYBy9HRfhRSy6YwmTMhWcf+l8WsuGYKRuOiV2GK/eagbzzc/JObjsGe42BG1XM8sQXo9iOGWs7tqKN8uc+/FO//lf0V1urjfL6I2zdfeTqNsp454XbKK/Y44/9+z/Df5Nr7XG\
Ne1w7krlX6zHeeeE9/tWr2YEvOGvtsmFDcHPi6l3GO1+HSbZdjtfaY4977K3BdN17cabr/8/1bnwkgsDHwMhU7UVfORqZesTO9E4bZXsk6nYyYn+6S708fMlXR4E2Wq5oo77TlLBabzb\
3t2+xGl8zPlTIzxBCd29JtWqVq0Wu/scM9GPWI6TrPue1Gtr1NdSHL7PbMHrlRw2uUl4DR4To6mVfXYyw55hABAsGSg5U/FqEe77V+SFiDXwrCPNVEEbr7M3CNchlG9aV73Xq4srXBhN\
Vd0RikjDFrnOSDawOMXTiu/n60ORBYdndF0ePabKpEgeHnYJ10NyZJ3/xRzfdq5A0qd4FJAruadubUzZxkrX5qQGNUfsvrOcT6wQitN4fpNfWArlnb3RVKA0hNV+NmjxAjrEBcmAxgMg\
1rSSy3iAGM2qootdZuGarWX8bG6EZAPaxnS9ZDVpKm4ZHRbYDlwAzzBGqu81Bj6r3aUKTjcO5r3qPDsPXoo99VnyqLD7X0QnrjnFDzw/qrF43Q/PcFj8+/L313AkXQ3127DM1NA8PNra\
Wv8xBNp9Rh+AjXz5c+bR2lXYqdb2q8mkgyls95PMaxjV5oE+v+/I6Xu5d/XVvzbUf5NddUe6b6XiOb+AiaqmwpmUdvZnMJJueSWuIpfGVPPgCoHPDvVBqnJE6okpg895s0ko2JqEGNu+\
JaUdUBDafoUlhE/xKYPP68sDmBrE2OhprQ26b0y4cwNStZ8RaErEZz2hkc3055sjmE7kbxXWVyOY1iUBeg7Con0wNZkQMVFOvin3xqshWzmLn12flo1rJIbQ+gpxmndS2rlSbL3Z+8cn\
0ukpMc1sFvVwJYn5d7iKayRAMUZhq7WLruqj6iXjCrhXR5rpJXMQwLyMHoAWaqm78CJbgCUN9ZER70sx3/EnjBZNjWzSCEN9s0tL0DyaipKN+17rxPWlNrsEZd+Q9qScTvEqj0cp7Gq1\
8E9esGWpXo5XXqtHKN3EQvI3JpvjRAl2yyV+9FE3G5E7z2YCK2qzBaGelECZoIeknM33ZmCv7+cIqwYqoa0OY1Hnjt9ZHld5QB/u050wewLybB699TK8H+8MaFFgqSL8pkcBnOK5nk7t\
djKmvzpdn8igv7Iau7IFspjVRqo2923MlyyKB12mL9jniygzj9CiPbjBTRqKd7f4K/9h7Uvmf5wOiZ0qTXgduyZ2tjezEEWdrfdjcjg40mgfC4umPSgHuupHNWndmDF9UNhKK8hvTm87\
Ve9P6xvWmffXeRN+43rSu3psmW3fmJ2avOBJxlPZYc5sq30g1i7Pk0l63lAYIqU2ZsYax1l0Vd70SiaQe0fFj6Ph5HMQMay+ukWiKgBpPGw6cTpvzbYZGwdjvKaNBZp80RNLwO6cEfQK\
PziiGHFyvoa5PWqctOYVIhxst2fWYffdAG5JsoQdNMhXfDTXqloa3NfFdWs8d4mkxUIL5oFj5X4FtmLi/C+TJnfLkZGCf1O2TQ3thOgcVjBCiCCHSrS+6U4G1UvaJV1iNXN9VJde3Vsl\
1FmG24msQdLCvsILuztyBy1bCNEtsqkpYaz0HJhO6dBoqazV2QdgHKoN1xSaGnOorbhUxq5uhGYlQNjPkG9M+VDBwrI1i/hFg5+pVY2Nj7oZxU+E0MdmoZAs/TKAFVlcVnjpumaapevp\
U+oBYVrL97pJYVSETSUZjVbHbOSG/xFOPrGceokSI+Zmhz3RUixbyNRi3j7lYfcNsXMOGMeUNszESsNUojPBwntbFMJ1DooTzSViESkB4NtrOx3lLJZv2m3+NxPQ+541IbNzngHPiKZ3\
l35k97uss8CdTNA9XnNn4Fw0UwnmqsgVmMhZ8xVmH0zDx4AeKRUbs9SAgAO2zolHiHc4MX/9ugL/tpPDdYCqwJdqN66nob3wbr1rYv2RK0vSqemS04V8YCCPV42G1CobNDAIwvqkpNoY\
pSeZK+h97JQTMGYSAeaMLJyRK0M4F1vPxqUAlYofTQCRcV3x1yDcrikWw2GZXD4UjiYDdQ9J6QF09YOCzJZy4v8+OcO101TBTIYcy0JkK4Z+uOlMqO7DzlY9CzdTkF7uVO0yV+eqlgGe\
tBCMifODNHZf8gopR2PxNbu2oLxLVjWw1LKxjDZEoQJDUJdSNOIsOLCPYqHADcEuYNjuRcTxfCRP21tD2sveJMz6YTr9P5CD0y87WPvnMnzjs3dTnF9nn0O/wOw5xp59+Cs7x3iufvle\
KtzqffKrsqe+9XBnfg4Zwc5Z/fGn8x8+O+ZhDLYi1Nr/Klt5D9dRdWHoT9dZg71Th40n4qjR8ZtAaMfSWgAE0420YercQXQqG3q0xht5R1dC7rYbe0UqG3uzZjnrXGTH0buWG3i0bMCD\
QEDNJqxIwIHe51xrjNk9snltrN/Ru5QEDcp98YTlgQO6IL1zmmqohrqkwt8Q4an/VYFodVQnrAl+qtgF6NWPFq+eeunOf4yYdWeQvYJHL/vng4gV80KBrVxSr+AEFunx5S3Bb+CElmqu\
6yqjjW0v9gpa6fq1LTW+VPD8yZz7e7L80xlp15NrD7iq+IWHxr/b+HXiF5JJHnlnuDrICeF+pAN7zADwroFmhm9y3QZj9Nnun+h0z6KgXzS4uWKhKamuf834DtPmVt95Jr743fxV4//1\
mbO/yIdAX7OSUkSu7nEk6udP6pOj4Fysd/+undEq+/h2v5c4VxnpSABitaQRfqozg8lM29kjhlHNlu5ZOxJaTflCrh42mUwaE4ecXf/WXanvA+pS9f37xY2a/RldfBeVT87RNux4LdAK\
YtV0rGnC/hfFXwvi6Eu9fQEDk8Fsr8U1bCd0qX/zCR4/BBX29Uvx3H/rFX6hzce1bS/RNW6LXF6fUbc5b3nYn20x3hNg9ARfMLX3xDeXj7NTbCKfmLz5Rdn4tdJQ/pvanKrX/xPKPvG/\
BwT8MOPiZyko9vXyl3G+t1DcbqT77x08BqY6yL8tIz194W5n+ecfbRnmeqDRLoJ1XoI2sG/hikaUzHfiID8Wffaj+7KMV/Sjn8xut6EqZhxEu92WfBOxDApERko5d1nDsqvrjK83b9ov\
BAPxWXtrQ+rQvljYau7TR6NLCkbIQyKNshzvecX2ZfdEJqDTsXs1xvZs7rg8rLIq7sj8y7VWn5LjeG3Fc3xFXdTbEIRW/fpadmSRt7nRrPjHF5jZX39yta97c6CJR+Cpis3vc2D2eA4O\
p7PFOHidg+ZR1BA7M2ve4yfd4Z+we76ywxyu76c3GBIhR68QcHhWyfFdc5Tth6oka0ZIzO2AXs072iHqn1jfhNj57AIWHsBAHkS5bWKoXKjjUduBvM/XUlWmuysivRE9OupvFT9yZSNU\
gs9M1GGCdFoMsUYc8VdPESZu4rC6pvSs2MWcfXbAlF21iySYuUQKq4KMNHNTfO/V3q/7u0t87xuhnigWZq7pKrqhem3maOtjjUQnbjqE8Hpa1iaxtGKtWnQkGonB1OhiIe7pTgfqgOxm\
oD7q5QH3QXfHVB91FT33QXfDUB92iBx90sDFricMzD27DYGPWEYd1HhyHwcYslkbZkMwVG7N10qg3uE4a9dhoRUzeJpG4zDYM4upsMKU+0AY9dZamDvQusumYm12pL5/iy3W7CDZxwSY\
u2sSSTZyzifM2sWATi+wl9WQTsRRpgtmKIN04j7Yw6/JZw35mE4s2ccEmLlIiO9+YTabjs0bX5XxD1+ViY9CXoTVgJ00z3BhskhluDK5nyxULd00LibbiyzZxySaWuKmlxmz2xiT+d8b\
6GL/U2OucbtjcZcqdyXNXKHc2z8019zrnGujhUoM192ZgyFw23rHuAyfLBj8wfFt/DRZDPLXRbPzvjXU3iPu8zAw2D53BQEwb2SqGryzYRIXRTiA+3dlcBS6m2GaFHVlsUHMf2CbT37p\
rMBOqj9i9eLCTKdnIMJ3O0/H7LmKDlN39DWu5gQXB4Ac8hkF5nbFLYzZNxEPd1zC9iXiv+7s8E+51vphnnL3O5xoK0EkFyqjwbMCQx18IcCcbxWk+AJxhS59bUE/05Yt5JlaQh5v5zzU\
U7pH7YkOBH7m/a+gOQO5rDd4GQzMYiC63HXwL2tpbzR8qTYZNMn+b+bC7P58cTcaYnPMyOfA8CAsZGWllmAyadcGQArV1QZOyO+rqfx97pi4IU3BDXbCmoKC6oE5BTHWr386bqa4O+7H\
FKJMQoKW6w3MUwhZRoxv6fHlzVbdbvgGvWKQxZxH3SZs4Jf6eB21nWIM12jcEbGlwN9DfFvq7ka20ZOoVm8Hx4cjUH9QRI3OnjhqZrTpyZHbp6JG5Q2dAFfllFlSNX2ZCNH91NpBJeEb\
UdDFVU8Yb1LRxi5o63liYPrKrpWm+xpXzWscw2vmFhh7dsu4NPb8FPhp6iFtUKCe5RYVynAsqrOuZLqgw1INdjqtQT3c5xUIc8WpN1ihZkzVL1mRRyZqsVbIma5esyTola7JuyZosLlm\
TTZSsydaVrMmuK6zJ1hfWZJOFNdmGwppsqjCz6BXXvBvHWpPdWFiTbSmsyW4orMnSwqJjgGRuzgZLO1mqfI0krkke49wtbO4W3cLmjsOrWZu781ZVgO373MI2ECoFWA198ZItOGWt9Wz\
BZWvKZwuuaMGcpwVz+slJW3BB3zhlCy5qwWlbsKQFZ2zBJdt5rzAAPO8VBoDnvMIA8KynBoAMy2civkx/2jX+Msuc3gjlZ/GIWOX8kslJO0cpiJ4SdrHSdeEgyDVODVxMz3dc17iiW0E\
ksnj0TaA/kADtwc3zLCvZa7GNQMBFhfbMSKwPr6REU+gLBHtHQwWvrjxTqjc3/HmSuntEna26W9QwKbty+VO/+29+/Ode+nIwDoiYe8o9IjYxGPi8qpXLbHiWDuNpYXuCRd8SZL5GdFl\
gb6k94P9T1s/zWdDSC/4sHsXPmDE2TAt+1Yhp0a9aMV3wqz5+L/ovblLE3cY/IH7q/DXFZcltyt71zbcp+/mVzF2O/sDazFyuHuLLXHOIr7J1y496psZTuxCqMxN2NcYDAYg2HQmKqvC\
qO0Ot1XzYkXvZudrIB1yCyBUambU3m9ZEk09kXRL/NZSQeIhTorI5F04mxJjXyOOkzi763czhePeJf3//MO/C2aK1gKM3zuLr0kupL6/pePK3a+oCHo0P1J8at2ff0F5nGpyIEZNWX0f\
19Wr17opVRxKpHXgNw5JgB/YACoWpLuZsIWR4uWRcT4wQvUzjiGRQShJ/v58TT74cC4FjhkjSlZgRuSflw9xXoOI6R/IwYH9ont3cBXDq2ygbjXtQLPY8aVApppkdNl/9MMfPpKILzvd\
DZPjIwxrFyboTPmTfYDliZKNBa4CH2tBoACdvTx7kgY/C6PMTtDPcUuw+1SuN83CHefhDjed3zqi+n1uITUVBXgNH4wNn79Xj/EHN5Luzm+FV3lXZG2fZaItNMIj3DqBB4qY4o1n85lr\
xW22FeKIi7kOAoZXEb4bFb6wMVZWtu7nczRW5m3QCpyeArBC96ZMj+mRU+qa9zwQ2WZ+/6GxtZQGcqwI4rf2w1F4rZHD6YFYfjIjhbKscuUEE47/2NATjrgjGzz2N0bNV6y2JORzfjpF\
8a7W+uavFET/mh5/9xE/IXQevzg5ZndwtO++vuLS/2DRwDXE05W7rPU/fucfsk9xtzvsJBsx3ZWl1FdNvreKLXMXX6567zXn307hZdGX2f/3pO+2q7iztOaZl1ryCiLz8HTaHqMwvzQb\
VFRx8awW/YStoorWs3Jn//NR//duPfOJ9zb3eHVlSXa3kW6v1jVqtPFAwsS+un4do9LeobYsE9EMospCozrrGOtGQcxCIChmEoEjhbPyrRm1bnLQhsuo6X3E/TDSe60mQlYGrbBST5hI\
WzkfgrDBzofCOJjU8tarz5bIPsDccgxbcOEJwfbTnbhbbdw1EouKArY6fpndB8Z4Y2AHRuCIjSG8QQ8fgxKAmRhjQTr/kHBmEav/cUBvwpthEDKAd77FdtGHhyKDN6vH0KzFhTLqFWBq\
I6GjKBl36PU8PY26Yfifo9wz9rhNL68F1YgkCi4VF9k1HcxmxxcXgJmZLxCfiaVd9ICazVdZmjJZiS1kza5+ebgBTFohp+s1Dd3ADLL6tXQK9MSU247O5yQgr5m9NmmAmOurnw0naSPV\
oxnuWqUkRBUpEX7YWjowyG/+ayGG2Vuy+7SuFzQoHkHFm0574ETBJD+MzVhjeYL8e8k7867Di2QaLcVfcM9Vt/BtX3DP1xP7pRqxzckN8lEbRhcWCNa931f3pxbIHYuvbmD5JtrCnSZ9\
N6sNIrB2SAMb0tqq0l1fG0C2v1I6JJ/ku9UG4J9Zuwzom11lreow+nabxUx00A+lGTPTNuhY9Nk9Kt5UM6/vWsH570reG9TPLFrwPML6FJjrdUUz1zfTXt5YVN1Ov/NlBP9mem9jfUql\
jh9jVN2BXz/ayYrnHH5QNyfe4GFfp+S2FGf3oy2wwxMp8K9ZW+fxV/HYQJTcn29ic3X40ruID/cF2fhUv3nz1V/011XqQXyWk1GPbLw5YQ9NyM9GRoSFAWG8N5etwFWeSW55JN1UN5Rk\
bbrKG8jfjNrBkJu8xLm4k25Mg/pdwSKdm8v15BB2YYUS8UYzjYVlaWR2JH7ox2S6o6nqYxPdYSLEZVs79ZGPSo+ZGjOJ3yOub2Cg+yU2iexWj+L6YsfdxrbBdDOL7ahC/XQzi+2z1DnO\
77WwQ3y8ZxOsjufuUmnpaE0yH+2wMP6gYw9vP6cWKMfygMIbvRclmlcLb2rpR9X2xhO8VlvDXJ+w7Qzd3eU9jN9P8XB8/gpn+sE+7icM8LfrzHX/CeMHE8ubgWfBW5z/55TkcsI6SosB\
N8T1pH1cz7Npvm3ailyS8LmUjeD7PblEj+G1cr2aoKTWC71eN4LexU98dybb40RxbUnszubGi9KBP4Ett0c/KVr0EbDfDjrc3L7hFTR97JVveRlTCSjBQp/anR9vcrrVsG1NDW2sYTMu\
HVaP0VkQrLigoX6pbOtujFf4RCqrkPfqjvVuMeXth0bzq2NPtB9phstoYNub9533+Aptw1tgEJ62xNM3eiBH517f11sqtR1//1qOVW2+WjoabYVzKHw+2R1zPdq6k2AA5wRDmBq69FQx\
c722HOVgzNbKD9sEtySSymwpfDezrNGSUzEa5cMNIZMX6kgfGuuAEPu9WGgEiEq2RmmAn/Sz2Z/eTfEBwvbaPCIN08wozutLWNXpU8ZuOfTSEXKRBp8xrGGGPmUDnqhMIC2EQXvHjEVM\
03ZLNZzQvVI21B9YRFRiTaA243GY0qw8FrOB2v0LACn2bNFHM90ixjQxsEiVaH7BkEw/CzQdhkgnxDcdDSF1+a50UzBZVCPV1E1FeNN98138ze9hh8pdO+ZTJpZRZPRDFzuAGiHxv1vj\
mN0h8c7lW+oTn1uyNyICdztEbtCa8II5GLx54cjWs90kcdw1XSkRg046hgplZG7nR8EORqRvcJvuS9IsLQ+tsKdQQ7I548jDOHsNvbmFGSJI78HTRyYOWm+xWFNlQ7C9V4zeJy+7JvZZ\
EfqfxMR3hM0d9G1rzs1fgM6cnLtWdWDyqOyECN8k4TfZtuCN4AJhgj6MhzEG6INy5DsPIHXxd0ou5x1gjd/Y6AbjLD/eLpgJ887nwVgV1iJpelQV7vZ4I8HcxK5uHj3ZZuueohqCT6K/\
eDzt6P+zorRvC7WafcDA9F8V5y3caWt06sboBr+6cp7yuXmexjoLc6LjMD3LTumNSDlbIdx1g0nep9fqhlC2uCZYa9NcUhRKd6rp6MfpBWdgmFTwgSUJVNUx/JBcmrDk/3vUZ5hOERc0\
xxD+zrnakMX9cYf3Kvl0c/D/wa77hf75v9EGzif/DRNrToMZErHheLfRYAnBa/O6fFJXBaMDBPmAQjbjJQ4/3VhPBiiJGYq0hB8ehn3/ycKdec/hfrSbYwJHobQVHx+UAdObYlBCHCAJ\
KwJGEFxsa/Gp4YekGk/s+XOIOHah1Rk5il0UeEMM5Uo0r1fjqheqMiIzVh8U2952u+NWNNf8uzasHDPc3NJ9o/n2a36r539P8Ls1/WPN3aP5PNb/gaMEntGDRFjyrBRdswXNacNEWfFk\
Llqwrrf+ug3gCayTp48beAnvZf3eK9JdL6edK6WfzOLf+suXWAlFUSZrxbyAghLe3mDm8j7ebIvpSUIgkqB/V9IQAjnieZuBXIM2CE7yFGLvgYhuX9C6wS01kR5AFlZfQ51+WLO11+ZK\
NEILL8sLE7HVZfpg4e92tdom5dbTdFNnXnMe4+zcDty6CrFOejX0x5K2NPhp7pwo9paKcY6VY/XreuEa9FaRNG/BEAvF6cwbXrhr5ACHsjEYRgdabqyWIQaJxt6VkyZZctCUXbMmiLVm\
wJedtyTlbctaWnLElp23JKVZ5aN4F9q4pAeWbz9AQzDFIuPwT2dLmY1CQCyUMpNwn8wlrOEQj41R7Nkl83GA2bWD4rhwx3cKxxqbi/c1FKZ95DY1nkkZSBugpT2qDt5YIFfhMbSiDKu4\
msAsBOePexqYtfxAwPuab95BeS0P4y6hJpB+MLaBhs9cP7mubW7MDs8NqsbUA9b7LDyvdDPKGQ34WFK1GCjf2Pn7OWPUDfZCXILJwKcdb940gNJrwmCIlxxmDnQLYfqjhukc8qOO75ZA\
tSzZAy0WbuGATizZx1ibO2cR5m1iwidM2ccasEENrNMbWaASXlQI07xqJBJMwxtMYy79l8qAsHJVCvJQgIoYZuBq4YmBGzj2JWYFD/+eOPtxZ53v1et3Qn0t/9aBWd+q8EKe1jXebYX0\
QqJtiPoROGyEWOP12I/FF7tZ2zxjWbUEAEvdQWpfTO2Cs5rJkw9UjuYZ4xYStasPtHIyNW5CbqaTeH9Si8nwntf3Ov5PQTPucs2NWoIXuzmkwm/OmFKdmzk1rGpiY5ZupKopKxChVIb2\
cZxibGEt4n3SH3oG2beWKTVy2iUumiJBZCQ5yuRIc5JIpggA5T1nUcsomTtrEnEtzwBKvWhFI+ZTRT2z0D+dH3VL4D+dNLtHhdWGZ7BzVdY5AXb7JLcVMoY9LMVOoYjt3Fa2nhkU/olI\
tWk+5ptQYZTHMPmb+PZW1ybuUbxNhCjMBHCI4H01rfe3f0BvWk1qf+86ECdMQa6+yp1XG1Sr9okphKwkpPcTB8RBIaEmc68bvNYjSMT8k4Lozf7pQPHXxtLbPSfKnSf4QMDDEnJeVxBo\
INHAbdXZ/4dSIo9iaIqyCRoQpVBslXEyuxKexZCT41RmEhH/aGPeIql772GG4AeKIh6xMybMavwqqXxKh1wfWdqGHxMqWuAVMfKLJ5UMPH3r6IX3H5za7G8d3vlXaEU9E6quJcbl3mHk\
CLqKPiS2IvuYTTYB4WHMGyLUU6teiLfZu2VTu3ga3ckaDVw1F79xqk7oi6CVyLmM3nfS0RX9t+usMRWMdcZf5KwxFPD1JpMEWO8ziMG77nDcgitt+518h0Ns+53VXwdCHtJsPXCXmlnh\
tjnnOlaak/19xODz1P8d6P9TWeEe3Ov+sqO7Q0NFgV68kFrE2aACM2HWdfk1Vvhof3YFYnNyVb5N6trp37nF3MaEBOhkht7a6Lx3EEs1yj4sIPw0idJ20sdedSYg9HxLjDjvJuE8nPES\
+m48dSlv9ARv+OUmY0APKSfSsXiphhlt08LOCfJt+WXG+w2GHuwQ+Jf9ZEmxvK+9/puJpS/xzHRpECpkcCWHRfIBHPrftE+pqonNUTjxPH0RvLGp3HCu3yVVF1kXe3lxxLN4jYNgUWn0\
OPsJ+zDPekQL8Vj45V4qVtmostlH4KMOBsAiAEcYLAFZxA0gLGmf5SZQUZ+ZWy/U5ehgftBGT7lDF1Mws00ZlHVVvuWIqRG7SKBr8Hm1wtxPyDaMlBw4OJAj2nRri7Q6r4CjFPRTvdmI\
FgmUdst7ZRny2jehgR/l6POW7gTAJySg+6I1MfljgAiVp+DJcZyZMWSc081+u/ekpVRNrx8UkhXFhwHJKR3xjlzQYOYiBwQMbDLD6zJVn7rhnnjzzxj3z77UOt5c/C1jehyt8wl+mSvg\
0LOHTIIQrt/O0EULRhaYmj8H2zBfvddzO/Sj3j+V2N3XobjSPwLGdym4OPQzqepaL3WKg5UJ3XKFXLaQ1Ym94vt3fBvQ+tzNwbavu6BfcHg8PShyquY1jgpfWUQUDTzSh/9i4HhHhwo2\
IZA+ch5XshZIU6hAynLrOW4j55FCjUG6Apr3Mp7aP+WSzdkYjDaKlOGhz3Z4lSUO2Xx45yxozyS6oAelEeXfVa2cB6CWFXbXhYC6lzkohH6y57tHoyBB0ttpySDQQV4y5Wc3D12sm6ro\
Ye4tViMjCYO4h2tEpsCsts1iJqH50g87cxv39tKkqAn4usCtfacLSB9KswIdXJbaa9rMvOaKFwFJw8FZw6m/vnqEebp1fFi+rFIhejN9nRB3nijKfBkaJ0KPg/cffq4dcmI1xaGkjPLJ\
5hnhM4pHbgCrqedLk/x/m1WtkXzXCMjfALDDqeFKis6fBA/DSGSizCOIINjMq7w2EPsJMyzAireGdq9VwenkNZ4oaAKLUsTp1jRasgQ3QPtTm8GjiZZMeMMvr6W1k2mAheYtKhZlWGk4\
aaGgDYT7RRmsBgHMoeshCIaWE81zdA2KVVF0MlvKw/ATLhwZ6EqjWiSUqrRNKUFqxhi9WU26b7GK2eC25YbcQsIvHVKh+aM9LplNDBypc7LRUiQ9i7BN36NzNqgWjoA7PYjBk8gTKWRm\
+Zh2gOpkqxXMsm8S7v39Y4iewDDo65cHDJ2sYOWLdwbSlvREwxY2AKW4ETHEjgLsAkZHkg1hfbNpWlX5QUfpWiP8J1ahlGy4BCL734A4Ct0A1SS/K4x35jYALimwXdvEu3o2i93OrgAX\
TQs59z9Cx9wAcyUMGL4ZQu2bLknaR+7PE321J9g4ZgBtLdsHRfE/yizafSP6CzW+VPAs5CWfuN7sIKX7bLK4lRHXohyN0ll5IHe3tJwS4UsO9dMQ8JBJjHkLUf5avyC5I8MXoQ+JnMO1\
x81ht0ariPmts35bdDCsgr9DYDnCShJCB1aB76MGXNnQPPat7aEo+I6q6hzVxLJGEV3FvUR/RPfRy3UPP6h5yJ6xrC6+ie4gn6t3CW657iN6jHx51NSl11qyse+jluoeoXX1cmLLuIR6\
omwuzTPdQWn09vMa69MRnzUOk9dqIb0V2JoFqiTrZn3EIeFe0EHfxsv6I2lDtKlPJo9SxszKVrASakrpMhwlVFr/biESO6NzCxIOzW/aUGGCN3OdJZz7kETHgHy1dxxxm7Oq+PDdj8Vj\
r3DWOXuQMP+Xc3Yaba6EPuOg5LkqMJW+QbfmFZQpoCXkIF9Fm1pITUmfaGH4W9jQgHIb/Dem6unm5G84WOS3vMC33mbfRnAZxi5Uv2eE2tdUYPu/wFY5U8WWkpYqvIC1VfAZpruK38yo\
M/CI/y0Gm/axG1Ihvh/qcNGiHyRV8Xovcouhvtcgrij7LinFR2U6bILqcRRcWuAt+0YUvSBcCIYiWJOfDI1LF6LJEBzFKjT7pW63WXava7+gODO4D5uO+yoy65QH+Ny0qDfBZLaoMUIq\
C8lIweqN5eJIBPkD/aXQflLBGoXirMfGHiC55nLKI8s1+2j+QK9MKTi6qECMj8SVO9eCjnJa0XiJqLUvmq9h7mEBgyCwH7WFhkWkO+VW8Vau8xRxJWtO3apEMgevCm+yIOqkdTmvU/F3\
QgAsL1e9lKt88TGZj7oPBFxoBINvp3XU32AimSMUVtLwqS/EZ7CF3hEFqfn8bYeCIKXl525Retf5EDO2dl9yttbjDr9I3u+6WbxrD78/jTpsy81G2EWP9PR1x/Lsmj3TD/qcEXSVh9Hu\
evWxiA7EaB5VTXFRTQKspoHHMEq3Oo+ryQEmhLG0Nog1YhXIyTtkhFGMEQpdpyCcGR5F6/SxcHjB34IIsZQFXEjAdz6wRa0NQZ/sCcGHi3pu2eZatkgTNOUNE9hWFIXr39wgGs79mQK0\
V+eex+/L8kB2zIlRRJ2m3PdQ3kEOLcPBs2spq96PfWY3lDDUm+bxdmt/Kv9wAQ0ON8HJGXGk8wzfK1L92kERZregdC1dbzFQyXzef+SP1+Vrf8+X6fNTHOjBUn4fQUhaMEd8Y3JgB/KT\
ufaoA0okk4AqtWCd6rWtG7F89NdGVSZbxuRgPaB1ri15TC98vPr0g5ug6OJ4yD9uamT/H2phL8HE1a/WiL7umdiQPcwZO2hNNeruEVHov8LpfWkC2/gTnrvvW2H3bpAHz3sz3rbyJ0EY\
qrhTEYLlKonndw+zfiOcohAo/IwaGtYCfND1ZY3SNm1F2Htvvbu0uz2vR4ya9dQiLUVrVJCTmVTojwgVicz3pvZTSy3Z30yACFPplBOTTIFh9AR3FBWxdH88qS2894NTKBqxxwQ+HKhm\
KHjTqq9+z60vQcb9gV1hk9wWd8UJ492JGTRmglJ8vTBgAT3yxHh22cKTWokNx/i2Wof/BBg2pRuBbxUqGMQawkBd/J7PKJZQvleFOSqE4iJ533YaNQ+CWon5i8MIFpMHhBzC4FuOK+D8\
pryxvDrzcoFsPhcK6VZFYwDtfDKRBp6chbooTczhxH5SD8NigCVoJMONms8cG9nxpCAAJIPk5s5IZNUAuSoTpc0slHkq8vCSCbEuBowkumKuldeFO1ghdcou1eTkW9jkiX2OtA1m9Jq9\
eE6AjFiiQ5DeYq0tcVShwID12KlFEAUYaWq9FqIqg2hwd4k6RHv7HtxLeNMVKjyy8kx07zQQvref/LesHqDlShhoPUOMrvVAvPr7qnaulgUXg2mNp9wmTWBG3VwYbvm5SsPGjTxrLSuX\
YrzY+tqxGloWrmmpkWQ36ajToqxkN+kqo6n8rB3st+RDwru48ILhm5wG1HMvWol/8CeOmR2Ie4IUJJQKz0+Ik7ZwofyB8kPPWug2rZhMnNeH8SF23wGW7J67YxFydI2EGZZ9rfnbWr1S\
fLXplNSap83c9bWXBJs5rwvltTys/YxNnbeKcffm0fflnbMkpW/JW+/IV13bSlpzkeLznxL3TWbfUm19qai1nbeKMJpxfaNqPbeKUTZxuslgvrAwe3/zXUGu5ZBNLmnA+Y4nuRZu4YBM\
XWSHxkmvDFP2B2NJfdgdC715yVQHP5BcUMpqkRpTKU0Z4VJt/K6jRb3c+yn38eFNETbtOUObPKPMSyiQnjh8f1FH1YnMgqPVSk4VffNXZHDSRWGoOxArgYpPQJuOtC83BTShZaErUS5S\
ea6Y3i0DFZ+/GkU4lck9GOsPI/VSks4vc2yOd4ludy83BViT+pjnYhsSXmoPtSDzfHNwCfbAvNwc70PiVJntD5Zv2aNBF4mQ0iPHyqWhwKxKno8FOPDoTDSYSFfKej2ThJHcu0vVE7mw\
ky4xF5bMlKnktas8Pbkvqg3VEoYUnaeKatC5tmqVw0E5uGuxKWuyeKqJJagwiuHDl19axrPHk4DpW3jk5WE8/bEOxnX7Dk+nkPI2zMU+jDucHuwjz3Gqhu22hu22h25a8lR2AdSyEtyy\
Ety2Q2sRF+2jJJi611I0YX+PuZNdiTLDMp7flBzPX/3xLW7ycf2ervGwTV2ziQt6aTSzZxHmbWLCJRZs4YxNnbeJcmyG/jVi2STueYLfEdLAe0uW70ma/HrSgl9pDcyC9pT+YECZYIOB\
yG7mEyjE8GtZNuNK8BcxF5mRH+Qpzln2dJhHh4zBpHU4mkvD+dEd/EMvHXXohoWwnorcbyU6OLETfHxC7MWzIDxcSNu+y5aEv2cSSTVy0iQuUyC7Es9nCB+nc+2U+/J5z4o8YC21Lsc6\
gbL1Yp1HGFOtc3upcjAHytPHiwU4be4IpMFYH8O/vx0++qH799E/R//5gtF/nK/1aqPRrcXy/bMMWOC/nUGoTc13bFZtYsolLXYaAziytw0T8hyZHK5c6bSH95rqIVUzA0BlMSVc6HMe\
O5eH46I8EXS65iGUHf6Cl+ErJLkDEzuHhh4fRy/Qw3tnxjOMgxBijzAtGiPgNfEb34H3yszQ5g0b2ksEUq/LukgB3TNJTu10gWg5Hm3SSOP6o8MgXuzQrVAP4n7ZofOUvx39ceYlOcsu\
bxIfS3ewWM4mtNdtgJx5MZ3zZl+xE0zvuBpnG1PhO7kWjLJ8RyVajLJ+5pEUl+cyXtKie/fhP0sLXIWQCQvix31rgeGp/ri4u8xYRjm5n9jl5/B2ILpd9V4bOZmfeveDEf2JS2i/97B2\
UoXJKb6TPzeODnSvEFkl2qRJ2p9FosG53WK81fEpHGPEbZtOZXNCYzORixpVG/pnlI//s8pE/p0VB9rafLCR8ewYz2ZX3LnAkPDPYweY7eSvO8vl1ls+vs3x+nZH5BW7dt482SjLFBPh\
U0mPYJBJ9ignxqUPoVzg7mGHdEI+DS9I5wXzoJhq9XBbRfqV5Zn4r+3326PjL5T7zos3IAkpRkydyCnBMtUwNpsHpNfQGN71ezKUbyGwW28nhDXwpeD1fx5tkx/A2nqzNVqWV8geocPu\
Bx3jOpqmxC2/PG2tHIyVSSyvZDCdIhViJWAYd1zSPe9peR9Ps7ODZyY4iWKZOTTLDh8DMvXZyNunkTOeVJJuWT853UE8+V54InQH2gbmJGG4nmTnMNsXUgtQvA1ZMFb8ANCrTmE9u/Kf\
GdlCQIw6hSBtmi6xZRAeOYD7L9zvZfl7P3y73mWbkO0fgBSuo8CJyDAyJipz7FHDXDkLveh+3lm3n6NvyvW491i3THfDXTmULfBHZ3aNbQGTcHWooHsygjzPo3j7q3l++u7yvZlh6MSO\
VE4xwxekm+m7H8FaGPEla6ebLIFigLwU365YFov0zHkL2uzz+z2PS2PptzIS98A1G06IzxFXvbhf34HHCN89AGh+TF5ocw7nBTfKAGNSwYXbLoHZXBpR0RJDyGLBEndDnUaZyKNVBr2W\
THkp38ABfQm088X7bRoMnTysf7NaF528YDqrNUJ9pDDcOZnT66IDKfuYnIeLk6fsYpu8DUnPIq46DBz27gcklHv2zpccVoHiuChTPVnEi7kCyH/ud4mNu/B3F2knjG6mFXx956ZdGX7q\
JXvqIfSmbpNzJD3CO+hPeR1OWo+l6FU1/2pGiEox+SotG0HQ9e57qR7UMHdm/4S6EcatPTdZ1YrI/YTj7qfMWkKm0owv8Tx7uNEJH/oW0uOVFqEfJNICuOLGqEFrgOd4W6cyha8FydDz\
TCt9OHXsu7xjTJ9zfEUxsO0vIPSB4g67VbkbuDmBOnxJy383IvR2suJPGIh8EQnkhWCeyaMcX8meE9hnuw6UA7Xs5REFqHJ2lrc+ScZBEXjG33vJz2lt+TnvLAcAbOac9EHQMgh+nDhP\
594c8zqX35HPsMSm0GxNbo7EGjPEIcU3xCMTTaPYh/uTn8AkNLsuDfMJvOo61Rine6YygwUYuiGskMyxJ5PKjb+J55fdxZHDLHBrYDHbTcUbzO2hEL/jY4vAAVDOIZpxhkAK4+Lng8hF\
mz64DbbflsBqcM7jdFSiA4lQPLkbhvr0HMmImJ5sQmLuRzcm8NnU4urts9serT5UkayJ6cE/1z5L4PjhYUBU01l2KRbKKtRfgHqUGc7jmzChdSA/dkYde+aFXfUj4nqGhNcCN/W7cOcy\
AcCo17/DJp3sr43DZtjd5T4p3oM9IP3mn8g4d6POuoHceHNweYaDGEsDxfMd1iP7NziyAvr6dEFT2UU3NJLdjGykG/3+BgT/MQPizHyjBrT2hGX+N7LMhn8a9AdF6HOHbU/8o6jh3s6g\
/TxFJd3T2gbbLqcOEFTZTgX9ilmEQpyvjBpyBtPs3s+txbBKmjEJZRRBJg2kZEN9ZOnKoEn5r6ExogpUIRkhcPnfzfRLyPpmuAsD0agAwvRoATK8CAMu6MW0Bgjm3WoUSL8acxAShrYB\
7qZMOHOcBBZixZNBUQQZNLSODktvl1vZ2Ri97meoZs7BCO0wp7fBH3K+/WVAklC+OEA/SJKGPRIgUEBMzcCQ/SkngnPkoV3ZmIW8T90yMjnbwF1GyA7zeYzgbC9aZQLnPnOAUHQUbOdH\
gw0IeQazQVTZ+qctAtMPaKeVyhGuWZNDMT41IMc5UpBhnK1KMc6tKMc5amcU5mzifSzFs4qRNnLKJ0zZxplNhd7cWVlgqC7MjWLCJ8yy22j763pWKMIXlc+/oauKdXXUVeMbKUE53Mb5\
scWLWimGaVMqSz+xPP8hXtKeQrtkT4w9RKBMd2mn9Dyi8APPTSRgFeidSPt2Xfvl7aMyQo3L29K9Qdg7Z9ctew5oVr2Hlhsked0577z6hnXaPI3GU+taFlizLgIRouJjfGGrh0rjCy+M\
K5ybGFJ7KC/lsVy9DVzqHVMB0qaOwudLyM8TTBtjJFxwdwnxMca0mzpJ1s4krNrFga1y0iQs2cdEmllaWoV1YtgmWlm2U0zZxxibOxhXQ4MtBRJawxElwKMfHExUCJVhOoAQPwlm8ECg\
B3sflIkuJhEDZmUxw8HMQKKAu6J34z602j3LEIt6LgXe3CcLF1RQTI7JiLMSLdS/H/1lIktOxyOhWWbvzy/bWYsyKFTvvwlW6iBAbKpSTr9NAJYrpBPD7X5jcERUL67SzS13uuGvR14R\
8001rSXwvdDdsPJug1JtxOx2vFsTMRPksowld+SzjhyueZfxwxbOM1yk/u+DzO5Yl511X6QDTMF0hZ0zelzIpk7l47srzUTKGEXiXj0D/BSPy7JP8v+8elZR3KpLyTkVS3lmOy7lC2qY\
To4sCTyqxLgwyoS6O+FjJF4gGBwOdF4qJc+y2HPFVkbRRtJq9/0OMeoFTs59FeqmKhrmDl5/5HsXf6O9ZRreX8yyw78U8C+wrKCOxC6C49gVhW16iZFWEexd0rMbuz2vYHnab1qykv6P\
1YNe9MPKAtvaLBCkbmWpCBvCi4ItvFzuz2e/QMmcdQqcT8SeMrRINLna05YUOWr72RuDt4nz1emSBQ6rhGtRltnUlsbznwZsKe6YPPM97YQedTSzaxAWbOGsT52zifHf1s2utJ+dabp9\
O2sQpm5izTZy0iVOxLFB+H6VLoQB9UU6Q85ZztifIhU78X4rLq/P2pJNTjadfzrPFOP6kGV1T2sux3r6fiXHnz8edXvmVXlUrnljkCZZrGm7l47rEJxGGlwOYdyi9RUw9V0MMpj17OyV\
qU4UAtzqXO/Ff6k1arLeuF+J0J9+77uhr9y7yE8oFonIwF8/iZPmkfHfKjuKkHcUcjcJeKGlzfPYSDREv6YbkY3afM6dbcDedtUpf62mrRLYeuUppC5boMrnNZu5rh5JVgOxcvCpMjDk\
LBOzyPYQwJh3rvoFmrnMP65wlO18zPDYnTLXIfTP/gRyD8vFKs/FJY1dGKSQgwYkcCcp8XzIy359SBRGT1jLWe3Tv76eNpMa6XicPp0HGms7e/ayR1GDNJHB4Mbh9zKnBbfnkUG8aYff\
BULCTAGCUVMsuGkuQKaQvxUQrdZNa/Gm90jRKGS1xONTGg9Cz20FEYEzE4CRzqTkE8KQwhbLzAAsF64MgW/i/PujwMNlxBjJZHaPLzmuzizLUC6bc5Hljlapgi19qFvQNVThJANjgK/2\
QBv8fuRHe1mepEc5koTRyWhs5K42cqzRyutzIGZPSUEqNTFCFROfS8CZlJH9kR3KSGvmj0kjYQg2bQjdJpZHXldqY44FMjgykQQOZ5IFQY9nH7EAuObPIZIG0cVHbeCX+/0i5hQdKLTy\
02iB84gv+ghvo8HJQA5zJfGngDqn/IP5/qFz/Hahup7ZwZzqVTN4PqRctCvV/B9Fjk4MpSJebe9xPdJRikh3524HdpMd/ZSHfuewPqAOoBJplbBx/xpQQq6u4VNHNgqCbCobPcf64Lat\
7j9HQs8s33snuILaaB5MltkG2YqADOCeMruWwAotSjCAZ4Eag//izRnEhmvDsYpyKCROICjvbgwnepA1bmtutbQ/lu2h3T8m68Wx2FDKmopXbMZDd2rgrglHZWcjcaqILvm/a+eLkMR8\
msoZw1MQIwbXQLRNci90ywQXiYDcTXI0ReYzQK119RfZot/z52S5XnYkfup2RrogcHzuLU4VApHKOLFbOkQtyjsDWePLqZ8n51Zht5atwFMRVgeuBZw4PutFYBvwby3zziiTd+yxBE4O\
o6H5jxetdmpuuSFPp/O4eatdULW1EwN5lbrROjOnEeOF6l7nROjGmE2ME63wZR0fVg+1aRJwUTdZkLgoo9oRTBpPTcRlMzsRlMDkbA0zAIMpRX1ldMZ2Z6/D1yiRRNy1/fDsr7j1v5Ht\
Yh01fI167msYC1/1XJl94hQal1oR5Rtxz0PtJLPQ+NjZ05Vg9LmW3PgEnNsSfM1YmwH+gQmKWIIylQjbpjs+JSyYtd/atkquq41HBDMM0X3dxCFYmW+zlROHEXS8pZgYTatLBSdpG9Nm\
jbddur2Wb603qov+vzMuquwz7R+ntlbbaRGmrRWqFgX0URdKugxbllrQh69dYqXW3ssc98UfIK9RLeForU1KZrVoxi5SbsFMCvBKU8MpEIdgLxg9/YjmSmeCRT+jIJ/DhMiTDEcInBg0\
RZDUyNkVIgtwM1IGRXUVBS3zWjWhTBeUrWbGgpKqzWvYeKCzErXTHY6wQv+Mu6Nyddmezc/ykAQLYkmhuW/inM26y6cG2l9UGG1HBYJq3304WSURiRq/1lr8+6bZF9/kUvqa66etz8jV\
f+g3Fk6/PsVFVsjJd2kpgZeJLL1QFEwfldLJx5KC8UpFMzFUOSiABSCZ22v26QxmDHG0oK6dvXOoMdmAEO8pY7kqnjOXmKofhSRyGOD8hEmD0xfLuFXfFTBU2CIb4ashH7Ex6pzzhZ13\
co3bBH+Awd2kH8dTzFTd9OE1EzUa+YG9dO+ki5MpRIHpCQ41D/dJRXV0HFt29eUITT0wodj5pBUxzmnCfs5cXl/Qr98tWjnalLFYXMdtWi6U/S3SzRdSBxc9LKLwk88x0LS+1yuIuWMl\
3Wbz2XMyuKLkbfCoP4ZSx1Ju8E0QgCSKvCGWWygq37CIkUbl3/HnBLXOuYv8rRq1nUWoln+gT08dfEMsZIcjy0v+qpbTHChlCNtcdIwtciq0s8EJcEv9dy6rmRxQOrQmtLB/0C7kvXEa\
fVrbdYkUgCMoP9OlEWSAIz0CNXCw3nuys7LTFToXs7PAIeVZPdazO4Ekr+pujHSwUBLgPe0uhg7/U+Xsd/Pm4ovIdV1S+47HS0OrghRvTm1JlyfQGTSFULtb0+sx74ZzFBDFH38TbAWh\
E7xACYGRs48Zt50TGHdmbUXsHjUxor6cb0sqZdl71ubaq3Av92S6r459ps6p+MftttRqQXrTLFgXn22xtwGYpYimRRJLI1/n/Y+/do+y4zjrRep06dV7d1a1Ht9SyXVV+tfxSOw9LyAT\
rnDW27Mncoe2rERqvuwbNX+PlsBjb5N7rO9Ot7liyIl4TEUIiCCFi4E4biILyGBAMQ9qZMFGGAAICmLkMCAjgwEA0JIDuJMT3+/2+b1fVOd0tyXbIzVpEa7XO3lV779rv/e3v8fsu9oo\
WrERc/IVe0TDzEZ2pvWLC7EpoinOpa4YqtOP5XNesVbAGaJeCy/Byz13Gepl6FpG524P58aYVGY3NKzTrYQHv7pndFAs/1TPjKcZO9syCiim/t2dmVLouumZLpVtXzwyq9BjrqVWV5vu\
zpGaGJKXXTZT+MDEzJL67mFQmStIRSd1i6EJStxg6n8BiCBa7HVfUT7TNmI5FPdc2izrF5G6bWR1T/kjbbOu0sm0zsFNqpG1WdnojaddM7cw+yRkmGaVXWl9JJzRlNpXlXo5lOpWxSxI\
7hZLONlkSCixNnCRN8xu834aV3O/B5rQ5mDvx9XQ19t80mp14gyab/AbvV5Hst/B8skz2Gxotk9251zsZ2R3iBANCWCxHdr24HJIokQOVgdv3ep9j4La93l8ysHOv9z8YmN3rXWKgIzO\
UARn1iwzcstd7gYG5vd4FBrBelGOyCtssrqHEjMQuNc2c7WLT2DsvNM327Xwz36y5mkZen23mm3TRNU0AdapJ3gC291ORTfbTUTkxm/d474jKSSux7yljJyT2/WXK75TYD0ZqKqkGkmq\
Vmf53o5Ginh7Q5xp2QD/XoPmdLPmGnQMnG3YOnGiYrd7lyJnGRLl2wMUo36GtjJypX2Q3sAuNHAy0Xf4vN2CSLoFPNoxe/MUGLfzu9P5LwwzxPtHI51Qq1aCNnnRSI590rNfIne1nI5P\
zNfHkOovQCcMOi7QRmaq7GJ+oywa7FqHocItFKHTbZJEEkc0W6ZDDYpEeIuMmIpkATmPNNb0hJG6Ftey9JQbVXRrctMB5hODkAqcdghMLnFTOBHq28jA+qfBbdykWbN8bPO8ZBPynDbj\
e+0/mTPn3HZL9Kh9E9IVH2ZH8Enm5wpPcVVtyHv1auBXnDXYucG0ieGttyXmDm2srzhvkC1ybCBJD/06tNAH2U/0K0ffHNUzwrDENE1TrDq31f0L4ds37Ubpc0fDzXtU9xOWyToEPgI4\
WA/cAXQ3OVt2aVX2J0ehVo9GWlryhHJB22ZJNjE1bKycZSy02wVhiMQzOrr1DUJf1kcCqHBqJk00diUuxjsSJ5oITZX08MqdzEv6FiHayWC6DX7HnMDj7JXu+lYV9Gg5gsDL+MOJZdqf\
3B5HRGb8fmR2qrMJdbhWqcdqFSG44kbqNuVtFi1H+Gl3xUT7D5fhTEY1fd/kfjmzxfSgyA9kPRrYuPxDlr1Xz24hL9vXe81F+PQOfiPIbzCNm3Zw4s01jOs84g/VGc8FdiH7d3XFedGo\
Ofza2gQ3XLbCEA3OhK5EsmxhE+HP2iPJ8Uv6mwNjbSUYynWEaWecsqC+4wHkXWHWBcy5wFpgvk3IvbGdZ3g33Zd0hDkd7HQ4HuafttYyNNi6vbbu8tkvGBlCLfb28+hn22bZyTxO95lB\
JGnbVdQiKT/lyy5wsb5nFJNzO0w667z8wA+ia+0uOzrCh+ql1LNbRi1ewWnediX0NJimzMnBzhCLl4zVDs3Os7UWh/Av8rlyis7nSC+Jd2W3SRifnj4LI92QL0kt+3u5H+evIMnHxUOJ\
CF/vmdaXdD/LXSS/dog2764w8aeSvAzl8C/57fWVef8EZ/6PjZHakkXWPHWwX23ZWnW/nuTM5n6zEee2iazy0JpbmpKzULsHpVIvVKWjdQs+X/X+tHK3gIVpUSrXvKvvCH2uGnt8IgiD\
sSPvuwvuG8ioCXl2z1ykuUKaAGGbIFcqHpaWvR/MBl5HTCEf2PIpRm4ZMV1mwwXjcjupTnbzQE7pjR/VyJ7/RWa23naH9TboTtPObQRXkMuAtI2wuk2SdFHIwUVovjZ053831Y/Sm+jF\
6Y/0YLewU7Lopkr3+/h7NESavsM6q0cqa6URp2E+4UCtsyl1HZYDks0EJFqArMgQEji3Ce0dEGB0VSrQUuqdhic0jhU/eOfhLJTjXwHBYYEK/ZM+lqTMDDPjeB2aKqUPg8ULtdxFvstb\
BGazdbGqhqo5uEagSgUcH2UE6BGscHyx/bHk5dd6/dIRxGnetwg/3QrKfrJrdWgH+cAEPsz2ABZAZ0Z3vRcw3WKId+dSCVu3ATFl/DAg+s4idI+sehI50M+/qfXhk67VFjyFEAgQ7SIz\
nnTJVlW9nP8GeTH5xkE0sZGE2caDwpc+A9p1N6DfDgzOZP5P+eY1peW0bsU4QVdL7xAeeh6FB7R6+2tYZazejtpvIOs0xv531eliyx33HHg+Gxsh18X8vuzgL6zMpdJxnebqogEvhItC\
xs2CBlnLcKFBcG8UFUly7XlzgDOp0WlXL+JX1xfd9UPriUy+7L9xG77g4lx0SyKWEsg89lVTi3c59W44l10FutGN2ruiNdswOF8YupHbCMOWvpwaMoveDxM4Z3ZQSO2x0r2oRJ8W327p\
skrdcgSDPtg6y49KP04O549L/1yHWznYgFg4R61gExwCIn7WPERaqIt2zG/TV9VlDX1WE/Ahx3BoijltDxHGrIo4bQ8RxY4g4blTEsXMHQeJ4qkYcT9aI426NOL51A+L4jhpxfGeNON5\
VEcfbKuJ4e0Uc310Rx6+piOOZiji+rbqqzFVXldl1ryqvra4qt5TUsOu9khp+9+i95JTdS+DoG9QwHH0DWBLaJbzoIvVn6MGuBDKley3GrTRgW8tdmGGgKKu5j8aBpKyWQBo/4eKpejG\
/MAG40XcY9qlhh10BuLZErMThXhIyXuATGjYjiEj6b/RkmrV7cJYHFa7kfUrI2SsvDwxGUwHRAyJ+mVv49/iBXwLl17DxBuEBRbXkSXc30SnrAi/AOwIET56qzKuI+p/3Hsii/mXvgac\
UUiG8BmS9D75zCFkPmAphDULvvwTrddoVUH9B0spX0y/VFdyTinOUKTKb3hAUnU3pXSK0EbBYOlClAT2/5lKlNtXMv5yCyXrOvVw4V/lOQXTPbgXzrZzXJJU3hZpjhfVc2pRShT2O8TB\
rm8XLLqtEkOv8SImpbEBkV3GIMFvDIqNzB+n4jR2/KDW0xvELqAugWbrRKDEXgVm5McUSdAx5UBEd4WYIGIGZr/dY4tjiZoMPPlo0KVwH2qHce7LmDIHguBbktgZnM5WjCrrOiWBsAXT\
g5P7SB8acczmRvayexgjH8Fsgp1eTShdDU0ZL3D3kdGd22OfOnDmu0EH6HXgocMDX6zuyyUbGbR28ZLsUD7z0s74CCTXMDch05Sors4dSI+kjpVciIq7KkA7ZKRu8phSmOHOVC6UHinj\
GXHokSpRJvDHkf6HBGirk8j9bH4gTYHIJEOgC4uSeM7RX7hz0tUHEV1mw8/Yo4RjB28PQbvHRVpAciaz85k2AotWOalrH6K/WFBjMQ+4LgHBYI9nUTWoWmwsT+PhUUFdqECGFFZO1qY7\
TUF0dOf7rykSNIWUivAzqL4ORl2H9ZTj8krbbcdrt0WNUbFwB+eN1qV4HWLhQcwNkpatOWRW1cMH7QN8H7n1l4eKaJqkOYDGGzmFGS/1rIpigCF4oG8pjUH3bnvyaG5027xaNrF0pD0k\
jUKGirQ795NI5AHbjkj2Vax/cTBRwehDLxaHH3HLpkWwH8nF694mB092urIfbK2OB72HeVlgEQ8oZigg0pJzxV/YoHEZ/Bhh1W/2eDP7r9zmIaiG+uTxO/cAq3EP9jUe43JFE/uBt7+b\
rr8vH1Iwemsi4Y2q1CJuDJ1Xd/oqPlvo1xZG/gJn0BLBUQX77D+M2C4glP5tQYMTBef0K9FcVKh6JOq7e0jlWpf9BHtW3/yBTf9yjarVT4JYXF/TFtnxM61ekQFAIOb+JoZAqhoKrrLz\
f9YA8JEAO5lebyAYE48S1sFNhCiVZK/1LwAx/Rr+xKx+z9Jy/AKHyB6few3evtXchXUGteYcWdsp9aPCL+mKPZSLWMTedbjaOW3NPfuTTqODRH2LS11u7s8n7ew7dOk4/xyTnNMlNLgn\
5Ckn1tf+m79/g3mu7kPMH3ss3d6m+epMnCwGa4/TzcgzA+REcApMJOcbfNFenNO3qKBircGvJWG6qi5r3hPQTuY6z4PCAwa8X3HxzwOhGFaR8bIDyzf5nfUV9/w/8bXB2f4QMyk/KSTz\
4fz68intXExtnAJwJ9XDTVPfGoToPgoiDGZ858jiWV6jA8H7/S9BL7pbRl4if4A/BYElOy4XDEdpNMbM18M34fkOkf6BHyN8m4z0rMDTMbyO/gCwvZGQMJ4PNvml1/a33xp47gOzRl7y\
HZJeSe8tAQfKXI/53YGbw6bcrfJeQCMHgF/894QUkLKN0Rg67AAsnwhwIBiv/fpXuQLwhxzvBCLrwd7aDaCk6orQ5rfyJJK1+JhUSmptpoDTxA4R59U/oDhs98BTi7nBFnBioLIsH4Gh\
mt3czp9uoNRIOl1kE8GWhT+jKoHwbwFFEFam+Xft49io+bnjcFmnUI3E90hyq8OBpeM9OsHoOzBjwtFbdr9c2qEfCeiSqRxr1SFyPVF99iv4pUvx9Jb/4lfmSYenqxsAhXfUUgqLJm1h\
DgYHhw2q4Uk9dY63gmoieuQYZj27MOfq4igeHwS0uy49lo3wl5ceufE8ZYFlsjfIH+46Szmm7r2Tmj6uvUPlNtip5da1atc9SGzJLyAgHZHobIXi+ug+uXLJWTuQ5eb44yBRVvI2EZft\
dj3856sSeBo1OrVt6QrY6ZaxS9iilAR2tzg2HDJfer41OODI6r7pOxkhElTrf1Qgald+koduKd98GiNbu9jJrXvbsXIN/OrkOLuh5BijfxpEFveUtabx3ZGHwknd0sPw9q567Ou48SBJ\
l9kgRD04+Q39F4CU8Qt94J9wDU/wL1KEeyR0982BhU6cUh/yd6Mug/jIYeRnWX4bDL9GiLCC1Tg3p0qVe/fMgpJplFcrPK4XeLD9ffpra981MvV3BM/Fg+RnrDXQCXK6ffGZfISfVN5l\
PYe/EM/t2e9+oXjy9N5o3TzqOlFRT5sI2mNfrP8MPSn5eJoG6Peec3KY6lLwKTenw8ip2Wsrn1ZSxU4hl3IeWn9mXJzxea0cqztGk7qO2ZJtMWHTP0O3Yu2/YIW1WsRZr7nzUZ9T7Sl8\
dJ33z1SG3ToB3wZfANEPw03HZY7AlwYsabBuXwhHIvt6tYMTiZZ2axNXPOrimdEqJqyy9R0lYdihx9ZneSVx7KnHtZZB9+qAAY3PArb/LvgVOIAD+3CFC2sMRaGyLJrZFFJvjT1YfX+H\
dXu4+Tp/Oc+GE3khooPWgukC723t6d3iYpD1cxMbg+6a77u9pB7Ew3u2TFdKqLMzCVhgu8XB1opd6Ldxzhc/hht3NQX6jm4UI3lWMPaXQr/ocfBHnk+Okrz45PgI617wZ+Iq4Rc+UMdl\
DnmFNZkTm84i/5VfkyahvoiE/PqNeioY8+oz6Kxry7aM+lkKyAHnv8xxOFx0Hee7m61euMbVSkTMkGqpUNGJINFSpaMSQaKhS0YghEcSM8NZCKFt/vHTZGdqmMlQLT12ORtxb/HJ7r1k\
T0e1oxC3GL3f8cosBUQ4teAPfz3k/h6+04KA5w5Cbf9L5mdC5XsrMRRuWCzUX4uF1FId6T6yvo9L3h66j2K2j2NZRQ12G5OpAybcWw9VKXqLSbMD+xSUYi8Mxfyt7sOmCch02R5XF0qJ\
R43M1Od24UGiw2KjPuGGmwsiMG2YvjMy4YUbDyIzz6dHC5lzRgjFIN+yUDkxGuq904oQzpu7CCR1EjWNZnln4KAviAkxs8bVUdiBrr9X5Ft8/ol4La+zMvnlOu2mBR4Vts4MluisEK4w\
+ZN30p6QHvhXJAFJHGMo1H+9YVJXnOz8aD3M0Xx03s3bLHGFngonZU++8WTHCwvRrYrZtVfvQ6qASKkXwGzmqZbXDknd5jg089TyO39R+E6eIZ+NGZmJ80M0fc9Mlz5qVCRFAHdVyi7f\
ok0uPjzUASOFHysYKDNER4ZAGRxqO6OpNww1iQGs4VrjHfihfa9SLCKyIvyzDEbMFVsTvl+GYWKdBv6GueKzuWFIHSzd0d7nEPlFIffvQ75fh0DHb+KEq3KDtk28f+qMy3NQ0ffj/AVP\
TfUUWfAwjT1hbOBxFboIVyqJG3zb81qEs0hvoVUYLJFTJ2Lb55ByxbTBbsnjvECs/3T3E6E9GpszVK9FxnPEf8P3AcRXU6QrdETu3Ppg5fvoX9OfjV058sCBD+mc+viDnIzzlJXRxs1u\
1k7FjlX5tbK2X4gknzRivSzvShdLfXmLsj87vBjUPMg1S+TI0tmobbgseQPYD20jZWXHanIBfM7lu0DZSLh1ZcnDGfAtBfNR3Gm3cU0rfy2CkpX/ghHcNEwM06IpbCnmU80b3I/265pc\
aYAPMkrz5SmVukeySWQvXo4dnaEUUHZjBronxyNWLtnk0l1ug6g7Eo9KeuOapsJoe0xadrmjZJse+oSy/d8X1a1QDzp5si2zYFjnc2UnZ6Q0M8e95HGNZQoNEO5hHcXOeykPxogxWOHi\
CvoWhEtIkFYlzA1RCyO1Vzlaw9YuWJKKX3HlqM0nbfxPWKOz++aI9g4Mta8+U8lFXPlExQ2hAcD46BTNLd7/eYtkj8zaa3iuVZ9KfwJerLN+VlRQhh3bDor1XUjR3/ZZ6UH/ho2TLl5L\
lhnNw1FA38jam8/b7oP3us9899jsH3Q+zcJJxhUJOQ2fXPlsPCD+ok4bheZ1Id3t7cj0r5lRU4JoZWxOzdk1qOTyPp4fncVbN44ZdwqqefPWjgnWhN7rP+bwjrMdf0MtoYBdUn/QEXak\
J0ZL+rV8nECrvWofsd75bCYSZXDdzeH0Dwai+SkfzZA0zxraLdaLvGMZ7verabflQEWAMLTaPG/W+kWuwP8JkdtfYjwd+dOQaqCVqOgiZ9fs+W05kkcF/aAz5A/trfyNqKSsio5oag49\
8mKbIX+DpEnDbAAlfdz04q8L9mse+QJ1wLTkD8Xh+poiBn1vm2fmAlATImF+AwCEyS4B1j2KK+xuDT36Yh/kXfBPWDH79w+TeQ+byKRaC8uo6U+v5hHVH6m+aws0lX316BysDGZQn8Hv\
xh2Cl+hiCcrM9jN9Tb3+eoy3BJkZbfi888zxXogRP//kq55xmmMPvi3+wyoFRZRbwPAYnf3PVUz2XQcv0XC7+p1XPVF0SzIGA9/dAajtomnJP+u0B1XJ4T69OXuNTrAwueWq7FEhL0K7\
PJOWq8OtzZNW3wDkXOIupcdbXefLHiFBahnE/pwoQZ/2iMTPQR5K/MZP+iV+bMF41YaZVh8Mmj6+SeHDhokEKp1vJ8WNZdGzw/t85B6kzFgJseN/nX71y4eB9VOTw079xlSIqd8cSXnA\
5zl+9MN0YUdYv+W71XfCxGE+X8fM+luOpMr7qF9Fu4BXpt+nQXSm6u71zOs9kktWuCdVu6Fc7YVCp+7yCs8Kasezac0JrN/g90G9PV4tYZ0/m9730OwLnOZAz5S3QVo2r86VK6rukgT7\
sX/TS79QnITtgGVYBCDzNHfDL0eervvWo9Xi9vy/4Nhro3rzqdptcJ3RuuVOpsXe9HTMkwtSwIs0pf5hXeNpXsm6oXDbzFdML4ZezsODLWZj/ZSwMO+hFbjX/Tg/ggerpBHSqE6pX4vq\
xEOIICO1YMIs41SeiMCKEzhhxrkBCO2+rdzGvnLP0WqtsoJBK3JHs1yj14AwiB2SHoiohfSDPLJiM1mkzghPZ+XQv2KaKPxf80StKjXJal6r21qGqecSuYxEkV5xF6JUtInRwhhwxUvH\
cYd8SyB3ketJYWS8hEbQHXHwwufNAaaVcuT2RJLbbjSaADx+ST9AlI2nYrrXhCft9zH4PK4kEF9DY15HhCfvCY7nerA+zJlfK3JZa/DEuvlrlw9gRnjLi7QmrxmOkGS3XUCmu1KdHCNU\
HRwjZQ3LRu14ttOR7X/DRXn4ePfZM1WOHrSOezjtWg67VoCcZVj2qWEgGuxXus4oeogKLULz5uFK7uRu/c74FVl3gtAs85wInXOAkjJ1S6hvKfJxh6+Wz57H9nvVrkVP1yLKvjroljoM\
sSI/qttqQB6fqDyIyjJdlr/Ts0f3lXeOk7yjmZd+ZuxCrzz0+xcfoKJsR2F5lzTS7ybCWpKWm0lGXhqe4lk1a2cUmxDYTmxE2voMjR2HhN5B77JSM0Q1MJvvwtLVp04oWvQ1LpIeb3/E\
FU/4sMqJhLCyszAaSs9QrskVPnf5N4F7EQCqBDrZXXJ+N43f/GelhAg0sFPBADoYBqMgJuzJSezSLhJh06pt4u23NY2pIO38vMa9QUTYus3Va5v+krIXN0lVb8u3hPsl+fRYWMxBfhqx\
KLpXYIQ16ekHrcR2cuciXdkjSwFVCHsrX5EV2nb2K6pXYgUqwO9AX12c5fYtlM2yjBPPsBkjxlpRDQ38E2Q7JKflc3o4JVJT5QRZDAt/F8CQvld+O3XJ7zft1tkmaOE1UosA5PzZpTaA\
qxwzHRj4maK49C1fIGnfRCDMB/rdTdZmc4rNbVbfI50yaos7sNKQSxwu4a57IAmNGqb/obBMUeDXaybZJ/m1ZV0XDE3B/cVxZVPG1THLaR3ObsLndIxOzMy9TPC41s9o8zmh3TfXPwRL\
xmq5XT0avaiX5FVPhFZbR8zu2furm3Wrh0eHbXt16rWyLz7ZQi6xsGE612E636/dSMfMCT+NPBkFcctKDm7zKArAi1X0nowpLlhqVxKYXCuXo8iriLi6eXVz01kI++2DHgkzRELR44K6\
M6o55FnOFesMQOSV2GzYV0BC894AezdPLmj4tmrgj+nZZ85Vwy+LF3Y7fBx/wCxoDKx50ylVuib4RK7698i1pw6icEJpiw9fD5uj1MNDr4W+PB12VX5k6fE3VjuJIisr91+D3Z1e9e/0\
5PrnXvwf0r19xIGbJGyTDANRIxpvr/yn9LYsL8jn5S8xOL8qai4MmiAYJHeqFpgrfBARSKYVqjdpZZE0Dk8ma2EggRhCy1uvAUzfzIoMM9OD06vJbnjl24mT2rJqnDH728y/+6o98/N+\
8Z++zxyTVS1/62y/8zWd/7yPQoqjCC1nr2EDzSf6lo5Kwij37rwbhiaz+5OEZfpJaj2oiEmUt1YUhZdiCksja+jTX1Ke9YX3ax6T01toibD5fcylHJcvEOsWkL7+YbesUM722mOaGxTS\
PHa13ci0M5d5ILRNa+C9K/6dfSI/ecFAt9qR3seDA0QUvUUZcDq68ycFvURF6Td3aL6t9Q4PfXjP47aHBL2BqSgZvASziDk1PUSGqzSfkBo1WJ35Z/TRUneaa6jSH52KDgEOtLHq4Rys\
BzEVVJkC9gsFbwBULQHdG9Hs8eIuqmautZfPAjDxMBpM0cs8SSCrkI2wYGOKWXW7bX/SNC4Khsqe+PK3x1yCoiZXxVsAOH6xymKO2YZd/cEZt+qU7X3L/PDV1gSUni1woqH0sVH204Iw\
JWoNnNnxzdMM3xzZ4g2ZHzsS0TckkgLUXiardosY9pOejNVSeIqmd2Gi8uDJsdZVXE4T2OpVf783RDd8c2+BNXKu87OLYSmWkA4rz1dzhWN6FFGoxhwvxhsPShPAcfwdnsFMeNPTXt/y\
k7bzt0isXcWDVx1mrsuLICBGMpHLV6DgYBnn7KNxawjNm23WBHK5mdatd31aFCg8KFRHUkHpqvtSVwpCxSQtwa8qjDk2hTc6qNQ9n4xK+LM07KHec2L6k5h15WjYSPlxi+XJHFcbQsqj\
UFfCp8+/T/HGoWWNoVoKMIUmTBrTccZbJls/vtF2L2pWKibVIlh51xpsygQxnollrTMcd5NlVJbEBTL5bowd3aw2vnHw2AuAWzcUaF04aMWRE9WNR0KobNZL2KMKSGEpADO2sdObzDik\
QFZ4RYTTJOiU+tJxdSNPl8o1UuYUytAS7cYzNT8KD088/8+x3vOO5C6eX2IdUWRradhfX7LW6v85vvKnGtOmEgC2LHjXLORZ+h4xg/o8xlSUNuec123HJ4ByyxQVz+iTymdVRZ9MY55i\
GVbNBWnT6X5Ll/mS/i3tMp5+9kRbqnTPHB8vfVZqo06WvEXxdo/8CIVqtyKRo1Qm+kPTdYkGbB7k0yzSTGyGAhWCd1DR6Tw2FNiTsLFkf9hZUR8A8aWOCzqux3QYzJtldl7+vI3dXo7H\
OTydBciTEVElLIpCMLlJxT8siWlCVJpWGFE1cajll1rCGmhB4BweKLnpwte89aEuORyIGTJ4ERjM69UrQTwkpQvSspvrHpPhi3O6bKlsJHu61VK5ixTTlTbDhm3DDN9GGbxobvonXf9N\
t8bjn0V6f1DEndTxPMjE2MpHzTOZCRSbG1P5XkT9pw2MlYXaspK2GlguBLDLVeoINdHosKOKSTELpFG2TSArqRFK8sKaSCSuZzEMxIV7glbmIufIQ15XHm6eM49I/onlqU5/RMqvT/6j\
/EJg6SNH/PR/2KN1eVI500e1/ZOkf9gAa3SqVgpj2s0wLnYieam/R2KK3ajlQRKB9rNFOP35z1nu8v/y2pceLXj+Trw5CmVO9/sX4IYCJD0IJLzcfmlE3lgm0Ev01FRkuFtGwHuVXutj\
w5EtvlS91++lDUn2Y1Hb7J4OHZhTXBAgrkvjz0ogY3wrYCqgD5d1O//RS/+RSf3lJUlzyH5iRn4vy0z/rP6llF903Sou6/fcu9d+2JF9mSUz350gnKfA+gW5iYKshkGTo/rdEeQBns2+\
RFqP3hE6BltyATNYNJ2C0oKpMLR08oovwqCFoufwM3hKwHKEPcNSSzdIetdMasQAiXSgbx3vjoKeX8bNDUrjnnHjktAuccoGTQ9IdJ+9ByX2AChBOKASXkLzRT/kwpCxFccu+yeIotga\
Gqg8/Niqwpr1llEeDMz/2PFQwZfug3pTp29Ak6u2VbHXww34eDD6AtP7gRbmeDn7huedhSzqTtwc/jmBn8CmceL+5IuHe4BNePjb4boTHSeVL6W+10lm26WRp2X8IG7NT72PZ10nRX/g\
JFl1I0b/9Eyz6T1D0X/44i86k5F/7cVcy6v22eslvq9f6dVLw8vtZ8C1S8H89w4K3SsEfO8OC75Vyv/0Myx2Tcr/wPlduQ8p9Z71c0xPTcj+OGr/9J1nwHVLwH7+fBW+Xgj/5fhY8JgX\
//PtZcFsK/vD7XcE3msGZGV1+wS9SGJr97tnnYWgmYfSvhpLBX/+ke9oaXKeB7uC3y4c9LQXhopmPc/VJMAbxJ1XB0OoTgC7FpmwQgAOvZ8kTPHHBoQ+psH0Yv05LoQWOfIiJrWoJHXD\
sQ4IxkY/RM02KMVPmH1ddgyxWzcysuTtMuTJShcuuVEUgyq6LqSkThOwoCPyl4Eifxv9U4U6KUDW3qM2mqqSq253TCl81qr26gYQ/hDoxYp/hl1Zp69hn+KWV2jr2GdDTh+5fmHbzwGR\
ntOHzGTWUg6GagLeEu59dEKLKPK5mtWFp6ARZfiqrOb9yggx4qSx8FDuRXCG/rfNZWPwHS4Nps4X/tAfz8mlaEMlpJxQI7PcyH9hK8nK5QJIjiyuFKku2v7Vo9uee2ksV7iXooGXNfvt\
b3mTPQskMGc7gbb/s6UnprygJK59qq+VNCIAgfGNNiY0NS6S1mYSXhK5mTr7suNIkW1+BYlYGMn8Wa1gAnc8FQp2b5n9gSvVydQ45oZzC46IaM3UziIKXg/s5npoyD808IDT8rNhhppR\
64I0sMGoe80vKk0e44vuLGa4mUME+Si2oQOdcMFg4qgQmrkEgToIVJVJ44dlL7QufKsI61vok4JOg9iTkk7B8gmta5FRm2vNQakCxeUCt73iB9g7KyrccMY0g+DlJBdiuQmHbVEJK0rS\
1QiVPrjcuykSVPFV50+l7Ys2CcO7KhbPzIZ+8Y5XkOgQPn1ZJoV6W1Yo/5gZpSvFtwh/KSgnJGmjSyjmk9CKhumWMseD9S1qTLEoBfT99q+kW0DidcoYc1lCqpk7TT0/13Q/MLAw4/xa\
hP5QFB2f6nuUmvdH5mSSY1nvcxcDOWNiP4Lg8peh76yOXKN4EOmlwsdyVTlLVZG4hfbA8U0/6Jio/HRiIxakgVw2qk0GuvJwTsJIIFUle1aou+woOEV4CLRiqp7EOAxcxYxF4AWY/quw\
g27fqQMjtXVUj8pSBs/D2ElK4kE+axkK+yVQZ8s2mppNvceoWTjfjXKC6IS8EC0JuqFbOFgr98SjfKkM+A19UkBlxk6dCh8t93gVWsXxXA6Gk+41sJv0uVX5bDfIdWvEgn9aKB3BqrrU\
JMp/Mfng9SL9bVqUqkDwX5Fu1SQGk85AkQSF5+0oGHyo7ABOyYwa3L3myTXWQdszYFRG7J/RxpHkzff9xqTqceRdT2I47pT7ducDOJf2KHU76bZxQHueFU80hAFOjBs4U14CbTB5AQCd\
T2CYQlF0eCSpr5B9xszo13KxuDTfLEF5XawCzeyrc2bkKjhbGalsqBsZExbiYrKjMTdWJullVjpxWxnP+MG7MaX/YFu6Ui08PKZWcC5weyHOBiZ4m68DCaR2ZuMIjc8iL3TrOccsiUV1\
f1F28Qb7GpUmfLM23+QYVXNY8Hal5MlJzr7qsW6FdvpkN3uGr7n2b8V3+2w3aGB8N7nW910fZ+Cg1VwJQHz8PWVmNBWQWfuGwZVJIC79wyDKpUmaB6VFGjpGy7ZASmEOkHQ4UyQy3z5h\
5lp7FzWRGmQVNEhfJTEHBoNpo8UtNNVwNHQJgOIwA6FcCng4MneSPHDafDB2cw4uDpgFqNU3RsGnahaCUTRSM71CPBYh6OTjAwaAJdK2iBc2wFkC2EnCNygTW2BJKJ+n8qe900qX/fEL\
1xKVdnhyowWDpYT1I8XeQ4I9hdZjLzn+8gKJL4+AMfyNg/PDfqndgRnrAsZibDsaFkwuMOj2ycTQfB014XG4W7yXhGKYrZDrRDgkKiQoF1dA0P6RpPE3jM5IQ+qx2Lir6WZ9GZL62Ne7\
8YOAHR0zJOKLuUKPCuGqEtQPRMK4qCM8sUFx8Z46mhpIR6XEH5fag/c7b7yH7nbPfPfa7rzT6kt6aW6DEPr2koIhzDqLUOQCcdVBoCut83qunV++FipPG8CHNcLf3oIEz1XVmhxGqSmC\
zyPSR/0xngvJQFWCgGdaxPqiEqOR8SMVp0vgAT/VDRbBUbOkidlBfcR3qi8iJJWqYssA34NqNU02YhoIrzLT07IJZvOAjMHYhqxBYYQ01GmzKgiAHsUMQ2SvoDkPnvfNu3wf2Cpb0w7B\
RGe/YdqGXg0jxCJYWeLLyflA0+tnjUplG/yMGRrL9ITIzwDW7coLGAyCOsoaaf3qPUPMUNo+O+tMvZQ0VBHYu+A4+a67UaF5fkm9UUWBUUWBUkcJrfUq144NSacBAAxSxb95dwQjmgyU\
PfC6zsrq/TGwvnDVW9UJBAeVVaZlF88DSMksBu+YUsOt3GkFTua8XHMCfHKLQf2nQWpGaMLZ1N4e37qbbUGtbdyUeJ63cdEalzdI4u0kxBYAROlrXDrAksM92RldjtXrhFRTQIbS4jtX\
owTMD6IYzko64xXAPCMwk1fYALrw9Mj40B8lsoe5S+C47YtmYOqxws87QbxIMlua17VpPtByYXtsdLJ5bYd4ImF5rbd9A0sDn6JsWy3AGt13tG8CEQ8LQrDiYaiGrV/XAZEKlRXb7Shb\
Z7StZZLc3so8l4EFX6EwoBAH62BnK9mgoC+VStVdolhhoZXV4Vw9pBV1ioAX1uzru6SGtoEsMtKC0gg4ppoMpLT4F/2pJjvtc76m+ISDBtJ8WtnhuVrY9eo/Cvpn1Or8LeIxwrV3Xvg0\
0U6dHNFNnN9JQ7VNiglsisUZM2FNjM2NLxjjK3IJ2U6OjAQ5t1AE3exGgCNBLQZmhqWt+6jRoCL0fJVBy9Jzjt8Sd+zF1lnhAxw6aQzb2Nyg9g42d/75jOTOREfCW8LEEWmZCeijYF2O\
JTUpaq6srNLVQU800XC+Tzjr147Jt5fFIHRlG3SD0xhGU/pXPWYyk7VxNWh/kjtcx3dHEdEabyvShqk6HFlbUNv0r35R4Vc9rH3V0YUCFNGqUnP43+YZMi+5MDuFBCwEYO8YIOLwPs7t\
pqPWUKgKrf/RGuQkbbgyqAXt3lT8SVK8DWdsDVD/r377Xe1BPh0SFgbgrJZTJ/yL4uN9+GkxOakop8IVv1mVmxRgrwoP1Gy1rOgMg/Q0+AUyzpqOWkupcbJoFRKdk/DnzrM9AOzy4umV\
3XanKpx6hmWY7j2wGUFXE/dvZTzwlb+faj/t3ViBmd+5XJM/phcFvS0MHz40Nfus09Tv+2i9Nuuo2UZZqxCZK9cdl5k7vvipOp9kS/UGNRKwWMu3tAjPE9G2B+rpg4QV6h0lhdWY24Ny\
5nIO+TcHApqB/lc2hprbu9M0/rcVlNrs4QwObsb6pm8fODHBOiwJDd9aqmY186tCoDWJVdfkk/C6P1H5e28C1QrzBDvHUdDFhV4Z+dHQVSLVyOl1uOjPjOQOUKNUbobWb9F8i8JtiwsM\
7CJBkZu3Anbbnd9hBnJGh3FQILB+nRKgnQ5bouRJmYe5XZ4RqO/qjb+2E0LfB6NsQb0N7G46+jfA2srfR6NsG3jbsbWP0bYy3caZ1ju3tTO6rBUqge9yZgRN7+UeKxrOFv6FWlT+seOD\
Xdah46xrRsuKHBgmRHsLBLBjSCUleWG8UsUKiPHtFNS7VQ76GhEe5219ryukyZbxhyviKunah+YzBKgrT/9cv/FKILOTvojJkVYjsdDvY7Gup4cvSXStkd15QbRT/UVWp8Sl7NsQov2Z\
H05DxoAVNQpsuanEQvwQ4Xw2q2CdZgvnTIHgKMLV4lWLlQygyVC1obNiCxnALGmta0BjWvvNpjUOuyYEzhqrOaxXFYiF4JLXFTg6JnSbJGb1jcnf9oB9ES/4RWeiQWSsDGIuSagP9pX9\
oODt+/74n1QKh/82EgOzHb+6vjj+ZRU/lWKXUlvGJSCEJeYfv/0tuGZBvh/3um/vLF8Mnn8oaSB9q+gbeRfJOEkxKguVL3pNPPaVglFIMUkZq6F8qZYf3BF7np0I/PEIJBsS/coYecAh\
BAOOqFmYemIgr4vKJsID44MrjUEpGrpbwqLIVMbTB1VPOXXPK5JpTTl9zytlrTrmnTOltmNK74jL3ieCHvXTfgozPfSb86nw08uO140ZtrcgaE3oLvIpPrDeW64ywx5FtlFvjs5mn40z\
FlmePFcmGbUiOVbtfUOkmZ1fLdZRKMFW27NqzzdWyzV17tqSWLbn2bNO1bNPXnm22lm322rPtqWXbU2V7pUfFRnPo3A4n2o6UV6TIEb5T5PKdJPv1RCnccxz75pfCo4PZ48fIDFngdvx\
6ZQUfL2RXPobNdvmLzaODaaZeXr48fhRG1cdAyR63B6Bwj2s6PE9OsFislxPHJGWw7gd5eJXfCl7ltwL91sPjHccXg+udhxX1aeCfgDgY6yM5Lu1HILU2w5sUXx2jkNglCspEQWbvrWw\
HSssRxf8PO9xYqQ1qdGAGJfJ1poGHn8yooIO/jd66Z6E9Gy9R/wbP62aQh2Dr4oKtQomKq8BIyki6X2FsnwCQSoblyA8qNjM/qQY3TBYvOPQ66kC656Q4SXdqyROMTMirkK+ItLRfDyN\
fFa32P9X336xZlTgMNesmRjZZVgOOsqyqoyWxfvhmJg6UnNWck4xMWk61Sg0sZ8CcEusHb37qqb4ctR5pWVK0mn0zI5ste6TIT5Y9YvbImtpQUlezbWFki2VrKEiUZWswW6PW1CZTNzX\
rFCNTlrWpOFKWtcmszaqpyoSNNedWRrZazlj";

/// Part 2 of what a page ends with: the app, and the machine in it.
#[rattlefmt::skip]
pub const TAIL_2: &[u8] = b"\
RqCxnzJyxa2r05qfIjEK2LrN1tYwdjOywMroso2tldFlG19rbY8qeZruOkessW4/Zepatx2y9WnvHmXpcs97AyA2WdZxZxy3rOLOOV+0dY+IxzXk9I9dbTkV6H7OcY8w55trb1ewJcyS\
afVotwCx7wuyJZU+YPbGmtpiypdm2MbLNsinLpGXZWszWqjVVQYs7mnWGkRnLqhybjmXtMGunamqbiduaczsj2y1nmznblrPNnO1qFvcT/L70Uvhk39vP+2q4D9z9vsKKp8yd7lcIjMw\
tY8QyvXFbbE7ZQfufelNfrsWaeYLPJvaPLGHEcsZyi93N2N2WWbrDCtjE55v2jyxkxG5k7EaLvZax11oB4Zst/yQfT+4fWc6IFYwVFnsNY6+x/OwaLWEzX2zeP7KiEbuJsZss9jrGXjf\
U/i18tmX/yLpG7GbGbrbY6xl7/Zr2T/H51P6R1Y3YrYzdarHdjO0ebf9WPt66f2SNI3YLY7dY7B7G7qm3PyprsYMvd+wfWeWI3cHYHRb7esa+fqgPruOz6/aPrHXE7mTsTou9gbE3rOm\
DG/j8hv0jKx6xXYztsth9jN032gdqUn/9/pF1j9hdjN1lsW9g7BvqfdB1hUwr73L/yOpHbJaxWYvtYWzPUBds47Nt+0f2AMR2MrbTYl/H2Net6YIZPp/ZP7ITIHY7Y7db7F7G7h3tgu1\
8vH3/yH6A2G2M3WaxvYztrXdBuT0QRwU0YKgYBLSO2ocT/3nvUXL8SQPsW3Anf1qd/F/bP762f3xt//j7vX+QvOhkETRu8Ns5rmpJTiKiHqeA1EwFI4Dq520wvtxTSC/VfhxC4BJbDYL\
6LJJb78KoLVLWJmMM6gWhypCKzkO9IJPCH1LHUfbQJXqILNHON0JKnKgZHxA8F6nIlKiHFLV31JpkLWPwZwmSJhDCPVyEkHqB6xfO0LARzMyEhkMHzBIQmjGJ+QXzOr9eujlLzUKPCMN\
hxfMHJ0TBP6FkrP4UoHMUZDWcU1/5NpJ2N+9oKnKXX1iXqh4o8gJnJH3RV0dyDS1brc/CDlmsVH5oOP9n+AChgNd+A/mHvZup3i9NQr5Q4qReqjvYI8r+BmqqQxCDh1Wv87PA85yvDNF\
CCJSlAS/5pbO6w063b/7lOavzS4XKw8A8m6vgChs1/cr5Iq60//eYNcE+sy4w7VnoRFSYz4qKGBJ5snQqEO7b7Y278J7dHsSbTaeVw7SuFXsc7EVzyHGe1xwSyHnjw64Bpszm8xKlR+8\
tsSJL33JkzgyWvskUzJxyGuHFKj0zp9IG7gUUzYK6ohktJZ22OxL8kCYotcwCB+Op1fRNyyxULbOo1KiLOv+8bg7hV5p00B0kowPih4XCh83aIDk4U/g13Xio00VY83BsDCOhmjKdTAw\
aE3T+qMQHya7Fv6P59TNXmUqslGB/5tOvRGVLC3M4F1QuwmJgB0FYf+RonjgkJMh3uWog0G1B9amVteqqT3vNZOLqqRKqYxi2UVMxVlB8YOryG2Wsg/BNLwzJHuNhfG/l71zb4ukQo0F\
m2nc1gqTyMzHs9eTWDVDNre+9/Rbft4F3lKdHgAC9f1HbG4bhSLlXfBdgqJ6ojFDnCVCKx2q1qlLxyx5UAarHifkjMWR5Ijupb3OZEbTm1dEv2ovQQoOHG5/quB6VHGLoqrZWss49gUe\
bfDNyhUIKsdyow6fbxhNmhPS0bR/Lvp58J2iDMfAeOYNTIsqSRUKuYDGzrPTZwFTpl32bjE/LEdMldEryiEsrK/LZUg29nrJjvh6dD0iV/j9RNGBgeHxBK09IOR5j8TwOsKD0bmN1tT3\
w6XpjGuZcRabSN2tC71/U9cm0Jm5re4Jbm/lN+SaYP7vt0fvmItgtlJrF/gW8ttxKRYt18aSDEdTJUD1pdL65cqPhtgs1pAl053hEFRczLz1uVjRmOsMddyfPSKA16dYVrFD/WQ1HSLG\
8Cyiq68pLctVao+sxJ8JQ+93A5BHHqOnnQkkZmi5Ds2Voz0YWvxsx4T/r11DJg1JDeZ2d1fZVWP5Hw/uqqSn7pqbsj6op+6Wa8g1Dasq14yOU6QTzruOD6MqnR0PTvLwDJC4PkPgrp5I\
9vrFKdnic0+XqKtnhq1PJ/g6fp6Xb0qCIi1ls03yP8dYNrN9cUegJ9WuKs30Ckx3z0z0wQiUwZyZmXtKQWvBAknMQWYZdWegKeG9gHhmdGvB4R8/BcJ/QxiE1YdW6uohMWK3IeSHgkCl\
xuINqwPIukLvAAPR4o78Pf9AE9p6Ud/e9kUbPUf/wN9L5k3o+0wNwqByabKMY1C9mFsq4Y7BwIcx+vL+8/ODjUuRy+hDVU+D8bfksCf2o/63fqLcAn2qW6xYd9ydRUpclffGf4/9VT+4\
HgwjTNOQJnPkHSE3LsICYV+UoAC2rDu+yGmldUpvmaMjEuTqo0IsOJz0s3RoUVPCOzKzUPBxgsz9SGZkOfHN3ru6+0wVCcGFuLwJNOaIHTnpHXVarvbTK29EpV+m/M01pvhoZyvJqVPe\
WXfkeT0b0hNO69n9gHsV9U9CnkhUrGakGlfNJU6hXGplBQR5At2Zw4gPPmz6cuS0nzWVua5qDtwLe1zeD5ZNIa25FALGw/K7V6uXbR16+tf7yHe4lenAQU8cEid5ZL/49TDR4F2tUFfR\
D9TSRZP9RTdeQ2r/XpUW5lv65evqX3rmKtD+2TrqfrKdDUyQdjPPPlmnDMu1P19P+vH7/nEvHFM9XKfzBf9YUkZT2UaZSP0JeP6sQkD2iA8m9FZROWPo2MDd6UmTlxQCZ1eluNaLVeD6\
gavqKQZMlnX92rSezVHd5o7MZK4BXzDUH8y/6fniEF2i76Ljlo5v29ILT/OSvrHfuGIFqClMiIqWqd2+iQ+zyPYJuw2C1UhhtUG473wtUP1ev6XHNertmBlYHaI7NA0lsOvA418Y3hmP\
5+2Ru9MOGS39tl7QSwCGisfJM+g5fnRDQjtLc9tURZUq/Nul9puhK08BpF061/50hXuLCnlKVvOJ8YHPQPdJ1V5xK4RXgv9Cy/Nf6Gzw9opw6twEY8BMjGqaHmX+v95iC6Z7AxM5q4T2\
18LwGoMkKixDANAERE2hbgNdx/k6GjpV23f+47/yPt9V6q+Z/PFBvnu3hbB3L1qnZY7Qrz3/AH+oQ1hPeyLo1xftu1klPBkVPb8pjLKabjWkxt6GYXjaGYsZYTA8e8eT94E8/yD2rLVM\
N0T9DNEDUAYl2WcJ9ZpUwlo7T5uEqH9Br2FjWg5fQZgcuCoEb1qV7Qvrmy3qDz7hPq29yeVT6zbprfy9mmqWFdPz+XtzRT5pO88afDcrPvrxewJOFfBzmqNkYVvs4c8yphdJEl5r56cK\
gOVg99oZsHKkW0+8BgvSkadKn3ITLxHJhnc43qWXTpPxt6lxzfRpE+jzm2zw97tuTZffkmbonMtS+6sjhIYUKdFzuRj592G8uc5VDret8jAjrbrjVVd/mwRLHTFLLQHxP4GwGZLPuB9L\
ScfZefdSQ65ivPsm7mu3tmu1ZmJwjcMzvjUk/bZHKqLzjuF9MyU5WTPZ6fS+byCZnCAQNhN0J+duGWsvfdkwkIlm70l3Rb3FFL/u9Hv3NPONDv2fTGVMpSqTMbIJGBMeOsRsmpQaAnt5\
EW1Tun1VPBTloy3yqk40PloOj8/kWCew5sSL1HR9My6/U8f58RiYJK7dd/qbNJb1U4rFisj/+v8hcaEgPcY1PUkUeOChPgAiAjCqTCjwum5C1c2utrdtRNefUBsVtlrJiKavFO8Pm/hI\
yIlG2qe+jt7azlIC9VJbUsT6eRmCGU9AAhedUP/8Rw49PvzeQDyTygdileFA1+pGimb5jzevDqnv/CFGDv696LR/Z0e9iSaxBr988FnqRT19MU4betqUHBt+Erpswn4RZU5BPZtvyHex\
M5tsq+fxAyP0ISAEz+SSWUTaNjso24cGEzIp+3G+WL7UX3UupVNJvSbjf7nfkB25rgwPFZiYWCksCY3wmoZV6xgZasy3bjur5/TGp1/Z8QqdKVqhNzmwhS/f4QjEuowk6aZwwHdv2KuT\
cGEmmWVQJ/r163AZ2XEsJO9YpQTbfCSwOId0LGfGJgadbRb2scZaVWlnpUG3GtSzMlzf3f7X9pAON3qMjLXnJmZoAW61Mvo+Ttz/2JNE46mYXkp6MmzE1OLH0h+CUtreYc3tfAPhHx7h\
aNBQkNA2lOS13FHaVydddIHC7Vumwoe/Pw+k24fV7ZljSMX8GY6WDtsd0Zcl26+1UkoDhO4RMoO0FRX0GQ+8MVA4BylIhyxTsv+WOurgOSdCxSLcCzR4hQDjbmjKRfBqbOMMTAIDCVHJ\
8QPwTb4g2nawYbK3K+TCOi6cVbWCzRr1/fU8F99CtwT2MV3AP7QruoVfBPQQV3EOn4tuNKUADNofRXh4b6WXnoWvOwY5n9W5p17tlbASPYWKIi51NrGnstipBXgV3VsG7q+DXVcHnvSp\
83qv56lI+5IcA9xQeKTcbNY4O+l/yn4SbEK/SFh3H5U+hrwPFuH4jbVYDng3DpuGlKTaZFArARIHecOkNTlxfSzZdUxgqBv2d+2GYmIf926i8bTapt6nJ9REaBcvlR3Fw7Gp0lUoFtUp\
FqJTnKjXS5EBXE5kmkmC8Y9JI+bVw5/sjd+25oIZlfRKtgfpKIZPF/CmoPQhMQDL4VyJPk7c0n2Z9bNW8CkHaD8GoT7PZVcf8MjiJQAT4o6Z9J3q0eukkoBHwkJL6U5qCrdJtRzyQlZX\
+SKh2krp1xTTAVyVXqQc7DYBLepC1svjAmYUqW6bZ5oq4QvQaybRnTaZ0odxqS6SvkUyzo5mIc9owVkoJAVbm8pmahqQRYJqimqQJ7aHUuTHUZBoSNkqs5/WLs/nQpJ9hJ1PwFSruUBb\
PA4B6pmjPmCsb32TJbQP7pzzzS/CP3TBrON7AZGcp/ai8E2Rvs9yCZ50J4J3eTl7zEydrDfOEV926U6+i1b9sfqBTKxL0JaacFKyUdNEGak8HN9t2P3mzKiX1w6xD6IKn7AOK8fRw0ZG\
bS6v/efqSjRS0IDQ0qZAW+77DMlDw1LaTF7Xrk1YvLLCsHQSD+2qVEiI/ssH3V6iW66xqUftHnyqaM44x4z/MuxkOOWvkq6hPoPVZU5l613tKO0kZ/Ug9VZsDH8o3pXasHEIHgC3Jzky\
sD+sybxAKyb2cALSJ+opxRO7bmCPigyPiH1e5+JU4IkzzyjkiX7G23rBxW4PjFOWoFOdKbXVSnK/2tn4VSHF+JQgCoQn6JWPbgeo06V4X8ueScwl2YYULmYBFiasN2ZShA4NM6ggT4Qg\
YZFJHmAhHwCCTOsJEuMYDO2Ht0i7AEsBcne+FBs4xVAGPG0wvIqyzq0tZD30f4H3A94F77zAliEUr521YeRWuIT6BMOTx3FyRm6RTNIr3er5TNPp7xSZ90a+Zg5u3G+fpRnfc2AiU0NQ\
ZGorOk1QOcMwXjn/tSDkQO9GfYaj+DNXxTWSOb0IT6fo0W0pzNWlJnH3o3pLqr/mIrPnS9Ue8y5snmvd0gkS91532F4vmTU5nYZ/97rHfOfudtd9MJs9Fc4x2TpV4mvSk5jG0M3wag4f\
AY2vdGPcBkwd5nM44urYrEnjDYI4nipYq97UOzMiDu73HivYgfBj+MYj5/mgxPgN+blPtehGZR2T8jFMRA8RlQJcaHdKfft4dADGFtCxYtz08AlyJahN1oE00Jj9HFIqzTAIx6yDIerK\
MgKq2UPSMmytVkKe+Y+4Cercnt97xMwtZKnRYNyNGtTSDZN0Ysdh85mA5VSkuG66KTQIeYGV20wl2xbwiFjYV+4BfxeNDbDb6CFosshyznpTNIOZ/B+oDC3nHWEEp7z/FJBtq6BcplGn\
8RbtKJ8RW7CuwsLpxIDN0bEDMxfH+dy093v8CVxG4SRPy5PeEUKlUnzjs4/1HHh+b9L2Rf750wLhdTOT26ahBmTh/TlHaj/zc8+jxj7pbA199kq/+SF99zO4hP/YfGf0Elp6vPmHV/0T\
/4HofbsiHJ+maJWU1b9vPtjyglf5r/yE635KXRne13iibRNlWubt96Of5vU96iknwl/y81nGMkCIKeUO6drz/vqXHxxq+HDvaYFCk1pl+SdlBwP7xnyqLwUlj8j0pkfDpsrwi4nY3CZR\
80j05wQBQmqkc1KRHvwjIelLRl7Siv6wVzSbQd7/0ET77NU9t+j8FjaMJgEK/d/V5CyfZxBnZM+Ut8KcpF+1oyRyDX2MlmvRMlqkrCiCBP8DlN+3encAZhidwmIBbKyMJDYNpr5ueCpQ\
1AOaJQ00MK7U3c3PrNOE2Vwlnh/yDOh7C9BDrwyXYUwVXa9wCQmqaH1dAajpOxYUajGadx/Jpr/r875dhbEJwn4kuyPJxefffa+k+UwsTznN87xqYT8KCNlUxtYQGbapyagUPSqwUj1h\
Ep8nZWHSoa6YI0Fdftaoo8m7nhXdYK2BuFKav0hJQ2TFcladvgKE4b5QU91thRBQ0KXIDeq2+0xjHaBROT9PZqpen/yKVrXWc9JSU8E300Xg/dw34L6MzDX+8UzbgtVZ/ZKs0KyPtyZu\
AVSDzYhb6K1mj7+1/Ux9wCv4DM/d41MrxOvf5/lLf9GAGH/9eKBs4x9Y/EJSF24ug/oKskL9XNM3HTfR70i8RboZd5QZWIXOGufpDH6scopufRsdEMt2XMQKivZcuxKn3UtdsMWh2B4J\
sSwPJnqih4GLyPV1bAhE1GGtrJOIWo4Adyu17X+j090+Gjj1xNiBVcZFaPjXntc8Fzv+qC5yCNlydBjEAN6q7k6Foaj9OqYFb4emgvHSf9CuGx2WfpgemLsTcQ402/KOTgbl7ZexEwB3\
cYstA0R+YvXdjVKcoQu82qFKk5kBPKEgY2ksWyppvSV9pq82RpDVd/duy+QnXgTorHFJKZqmjA1aHLKYPyqA2Wg3iV9dGq6GoyGQlnAwxWqfL0TobuNG64K8/WufXuM2FI92rj5ZnNhz\
ssB9ef6hO6VClw9Dc1jFn/foAPefXB+i0v3aAQPmWI3R63RG64F9phM779RFa9WsjJE3eeIRQ6tVGyPzGVyO06o+M0HnDvjpLuOK3lCN0yRt1YP3YiAfmQyPKFnuu4oF5jWPrUZjB4fG\
cW3fx/dtqROfcgCrv12DQyOl1WhwKPzuLEVPbLsW0W2dp/fDwwKWK+KfcXG26Mv60+crRRRdsNDw1kxHKmSpyhQKXipChb2kdAjUguQi1fg7B8hof4g9eIzibd7Uur/kYpRetEV/Z5Uh\
H87wp8caLU65Z6XclTmlAleCqSo7Oj/m+Xrf6Kg6LK+VlOnQjB6Kt7FH1dsjbWKJ3RnMRp/5m9ByeNzV7TwEsANAXGsa8P/j+D/3xJ/G37WBPUR+8olej6aF73T6CO9KZwfhRAAA+e9A\
cJhFAO1L/x/APr/zyrEG/idCo+bdguPaGwBINb+9BuhXTYYG3gz3cIoJrdzxHfQFgU34cBy20BtH4TI0FqrarNmFHWfBVtThz52zmzgL7s1oHh2vr45AL75FB6axV7dflMjRRDw1P1MO\
GmtVzGIyVa7OrNtL0NWSGfyJwJlKY4Y6l4ik92TfRD/DDUUHilKs1XYlEpZySEvJJGSgl/pTyVUqYJ2W3lJhTWCyM7rHoHo3iosD4PnUf7Kc/qvAk01RrDDkd+lE/VJXnfgIXKlbRaK8\
3nwXqBzvFdGB41tt2j/ewC++4xzvg0mQYCwvPYowsPIedxsJ7oK1m4X0w/QgIlfl1asvFjswi7NdBtV/DgNEzg0UqdDoWVL2DZW566yhlRGOtpucHYdSIk2ZnEOQevIyF8tOASyfM0UE\
jh2xkEOcQSQyauademKCPOfgcbpK99DXGwnrMfg/b7yH7nbdf6SNtEa8fviM4QcFKGb6j0730e/ztCiP6BcVxfk3V5xz1sJwMcquU+8E9xP3QuyOjO4anSjY8VWaHp8rc8FTZMzxV9qn\
BhZ/u2Y5B0P36L0L/+iPGM/NvUpuUE77BrT1NcexOIQQi/h4GoJf8HpLVit8H8yZ/90EbWH7nZEPE76zsiPidzjtm5NLlb5r3zGW1epqg/xGe//LybJSPMXA6wr1UAqeiPNUKRfkEA8t\
RPsnApTDfxMCLYb6ZgRfCfAsDF8J8KwOrYT6lJYf5tJYc5tu0nDDfromDfEYTw2MHAueC/DoGngvy62UET4dOX6Bb9+zgdCqSumeHmLt+3c1DwyJqgkr+oY8bdPrvoJV4HZ5eb0lmENn\
BJNv1q9N4ss1eb0VkyiKbEdlSd0ixaT2HFDX36b5dw7/d9xtHbDCc26iaZyk92YQoVLOkwRPO97mm5I19cIgPCXE+eJBh5+OdqPvKJQVFl3vm26jSnaFJF11pfPXbmv7FhEPmHTZeSEe\
MGKDBoGyAs4onmdQ4ergmeium+6UZvN1X52+s9Nt7vfsGt+Zq6Xfyl+nP6lbSCYq8CQdRC9CSKdAjkmC5YDpzagW7+U9731o0z8jVfmWX9/nv3ady0SPmi+rT3re8SQ7Cl8KjQwkAq0Z\
9jpee/61dB3XUWIU/9BSWLRi06Hpd4T+XiMEG9wB0XaXiY745Ym/qpatWBGvPegQr8FlUVTbeoFb87J80a99d1NLNY1ZVroHCZfFQs6uvLoI9M8Bh8sF37dtLDC+J7fLOvoutB3fk9sx\
fTH8sYFO+Nlz//w7XAoar/0e/8z1Hg3tseO6w4fE7tRWW1lYYNIyvgYOIcZ/1fuZd++7x92psl/cfZRb43zAohoex+Nowvsph/Fe26nZ5P411Fumqm/U+JL1vw3pXfdVBwnbNQ/ij75R\
Cvs7FVhD7+kE+PIT514bwKzeEfudahu70f/2+P/vrX/qdn2vjxpkND1f2teH6ig1XKSbpfHsY+EttKJqoGGLaHDeSWTDsZrKhNnixslXgZpIuJn982MVko7LFa1IYncVGMMVGQDXhYrJ\
VczEJByqQ/NZdTHZHXEz2DMunkyXmYjIxONDKxWS8xsVkvMbFZFxzMdmD02cn5O6ai8mEziMJwkNXEVlSczGZ0H+EczLUxQzpjrqY7Iy6mGxXLiYblYvJltKeEEeoJfXfIczJSqAwJ78\
VrvUTkFFCEhkGx3rb7TDxC6Jnl1A5hDepiJ6Gw1iHO3Su3bCAD3Su3dCtXb9aDsnw2o3VVWuWbLR2sSHI5GqOrN2wXLuhW7uohGHmQm5XW7t8c8TerF27rD3rEUpVs1pl/Y3XbliuXZa\
+qKX79bXLFwv2Ys3a1a/+K2Bey6zZ5UVYuU1lwahYVhp9F+yzdZv1Br/xLnru0GVMPZhPTQRbK2CV0sEVAVDXV9fxS4NZM3ONrs7+MObHO33HiYVeB33q8YJ1GFBIe1zsEKCQ5lwMPG1\
TnGhkMfcOQFhIae/y3QVtD5WCYCERm6uGcLYASM7mI0UCReVoUXpbIm3sEvRLEWKrwC7Trbwgh267GMNz6n2PLRRt3mXHszbNcNOshYcTsjill9N7vDSboNfJBL80UmiDHWN5Bjs0KKk\
gFpYHNy240ZnAS3VYOUHzB8s9W+Weq3LT8AH/l7nnqtyzVe6vr3J/zKuyf5IuNvlTFoD3roSvdyWM0cxzTLa4Lra4Lre4znyPLpS76MQJsLDBsJ2QdTUR7su0h8ash7rZSOd0rXPGXEv\
zCfZR3qZaTqG2Mt2oY+56AXMToQjsg1h+HGLe6unEZw36VilSU100s8LuUgTM4Pg1ztDx9JS//vzsDc3P1nrzE8aRrWp+jqffX5ufPZufrWp+TmatQSxbSpp1F7NxCersHFc9SKQbVyW\
tcShpJfJz5ChV7jA7O2ZPKbNzl/T9dOlNK9+WpZygMngYcPlfEtzLnse5to3BlWz6Xs6WeKHMn7j8E/T82cb/ZdakzIosmnts0MVEiWQUA2elm3CidOVRjImyfvUmrq160OjhfEhlDl1\
5PjhuUvOqk0NhS2RJ+OR0voztK0p/YIPJsWlocmxeb3JE2aZsczU5ovTdtcmxySbH5mpybMk241zeCn3AdDGjwgWnB9Rk1ZbEbV6Rbl40H5kyEyxsXknW5j6V4ndsuJvHCD7gnkR8Uh+\
KmE/i8glmhyzXqbV7Qgo72eO6J2zJtpZ7AveA2je55oON17zQSulVx5iM1cmXN+BQcsIwj0n4goXb1zjk7fQHNxjyDqUUbsgnavKLecgDpJXZhAy3XlNeZFHvUYUSQmVp+57IJ1xTn3Z\
Nfcxat6nOs3357bbKPEaBvkQmMAm6FPZToCIPZL9OzwRlyqK929uFWHc30d5hRAciACpn405ZbFPNIG9zFi1UNnlb1rXJa2XjC5VUbbImb6uhVmThwhrPZ05plupqQYVD+IKLT9XU3BC\
/gVK3wFRl/oPvR0eqewLMkI7L9SQLFqmET98/oAN85/JHd9oQO21DfmSnjU3JmVdLqSKUsuDAQB2M1CpsgidFckhhg6TGUoWvMlXeDiJWAX4aSi8I6luVHG6g2ID2J+Hf+c0bgzvUCul\
Cq+5z9GJggRcgTlod8skewKxQou+16Iaq1qvQHEl/MhiSh2F6r/o2Ay8EpnJ9PjAd7NXA6KtzcNAeqM/xJgPPwUF7oN7cWwycCri86M1d5/YJoMoF6s1dz8HLcNAeqDf3cQZehIP2QL2\
5TzDwAhy0B+rNXTfI87Agt65wm/aLLnDJBVZd4LwLXLCA91vuyWkXeM4FzrrAORdYdoETLnDSlfMuwIK8GAz3/+WI7pYoqFo2QZVEA91xtkj4lIW3uprGrqYucCF2NXVPXnSOZC9RKCz\
bUmtBmp9AwKOby0W5BWxNzwY2epdwAmtPJrJHwLLCVvilpJiykrXLk2J6t/crZfxiUmzb7X2c8W3yDQampQoMTEkVYjQzXhg0F/Lt+mXs6DMSPNXk0x1YgAmD16Gu1A/Lr5fgC00Gb5A\
FlUG0qPO46YbTBV50gUsucMoFTrvAcxbwfrLMnqzbWwhcRoAgEi33xHXtsst+whX4tqbWNP2n5ap4oam7/g20Z8wlceKiSVFIIWUURTflCMxkuxeq7kaS8TLaN9kau9Ehpt2c5VlhpMD\
l5kJ2c/q0IwVOJHmuKyXJC+MwYbk0i1uyYjArxd6a3bSY3SzBYgpb2M26hW3Lbs5npVtvyrYtFFM4yUGQ78ym4NMdwdskaJeS2yVol5I7silcBvK7sluRcZo3lCn8bwf39Ep2F64K07y\
p3LGbQdxUbtcgPMbfpkHM/p0KCCy/4Un2y20yfgzcLuPHwB0yfkm2TTpHKj0LSmC2xgWZwmZ460p2k1TDuCCS50ZrkCzOpsa7Fl+1+GaLn7f4DotfaEoEh9WdbOWNvPHM+l6+S8Ln7fm\
chB1hcLuEX7DwVHYj8Jnyu7PrjQ11fena2S3E8wkHaWq+eA3HU2Z8NpUuu630hWTeRvY8F6MczNet2BtojVjkAiGBLHI+sV68TttwNnERrNfwXBlNi5ukB6wCMvTTNqfOsg7/l5tTq0l\
+k27eST7dyaazqYX8RptYZxOZUNOD4Hhx50JxR3b7ooy+RKYxtV7TiyUmdOZOmWC34RtKZ06BzoT6GmjN22TSySySuSNjjN9t0HwGloLOiG34v3zCSwT+L590+aRbPpnCATqVzWa3gc6\
8jQfozvlesyOl38aq4fWt2Z3ZtNCZ0/L1aUyV2jflroEFIKl2Ynbt1NnVxOyanu81sjukorKtKZ3Z6FgXOerrbEK6KqcHXyPNTpSDeLmZ39LJbmES2f7ihfQDAcoospsxnXesWBkYQIn\
ciFGV35sw1DM21M3d/rSLnJdI+WZVIomLnJOIl21fkexGWliYM8XCBJXi5r1Ltrd7/XPlVn45kXkTVxu/LLrati9rsbbpyxJ1MdkAZRMs351oynZXxpYltlx9IZbtrlHuUJeULHgxLqY\
fUZ0A6ZwPBm4Ovhhj6vF7sYwSN8iplexu7DFTWuCpeLcXuMhpibRd5DmJTLrIWYls18guafC9XoHIHDz0yu+ue7x/gF/ZtPbhN9/t7cGvnGtz+L1ltzcrv7BZuMlKlPbu9g674k9I5J+\
6yLJEHnaRy0KxPsQTkYgfcihmUIrPsq2P0H6RO9Xd9/oXE9dF0iL/D8qYNMn/0zImbfL/soxJo/z/mbihlFb5z+C0QrOeY2DXPcGPMnDXPcFpBuQkOtWyk/okA7fIYLV42N0THGuV4yT\
V/rEyhhZ9oIyhsT/TKsdeYqstPdbTDwXVBF/nnrEc8p7xZaUtqrJilhWVZcUsq4xfjFlW5MqKXFmRKwvk2ekIYo/ngoX0f7Oj/HREC4RVo8Juwt0wcFs9F12UFzoeUX6zDlME6kbJD0c\
22ErS/f9U7Pb/uzjtT8XYez/siLHnYrd1nIpt/y8nQHHdbu9vatMDjfxsbfKgkX+SuCFOrJF6nF6H49Q2/uvKjf8kN/5/X6660wmoMBTGnV9o/0hIs2NCpfEQuMHW7smkyGVWN44XmZA\
toC+mEOEhcJfsmBseAreC8rBDQCkPR2CQD3gHf9N8NruR1MUK40TFk/AsNq9pEhUJfklRTJmqGomU2ZJIcWzQWanmHpIoe8or1zSvnLManK2olGyhLNO0HVnoea8q9YJXFct75ZSe/a5\
g3j2tZN5+rWjefq3si7WyX6yVfalW9mUt+3K97Eu1sl+slX2xLHsbrulyqtw6chbKQrlJHjXsLMyzrDwLtf+3Wf/fZv1/ezbS9bdb199mXb/N9RjPzmz07Izt7IyEHgJlZmdn1LFJ5s7\
Ok4kxKAo8mXGnZMRNxK/CpRLaZks/XldCq+B1JNKq685RXc59IyzV5TbanKq1dlIOzbdyc7hBjrdIF1B1ibO7W3lpC9zpGl4OXUROyUtlBBeNkHw8HGJaSKmbaLvpuyJT1OXWGpneJiJ\
vjVSIglwAd79LwpdsH5qW8GV7vgvmFsGCDak/eCFwVL1qQzobZxrYRXVDh5oVRFwzkTAt/Rdrxnmcba0aZ6VdMxLs7F4fiKlXMX3GKqbPeMX0SSuOz0TF8ZmsOD6bKu7J5jq7R68OLwR\
uZ4cE+RSaNFXT/eQGnhVaxDmEb9YwTYPM9fGxsLJMXAbTZZeG0bmZeaD/fFClwQDoVcfjoaBqf9YZLm7tesHFrZyLLv6CGQS96B5cDIwpdaEFptTfTATXD6mCv3wRmzOmVwbz4IvwWpI\
NsXJMJ5N+tn/KnUNz7hjKhk+huYLA+k47G0j531jqbRdNuE4IqORPre3YNLYb5v1gSCJHm/j0p8vD5wljGT2WVyf74SIxnWTw/CBFmdWqwhlBCGZkKbxpV8KbzpXannXmiwx6nCimk54\
LTKdzTn3PW4tD47e6rerwuhvHSTXND2vd0x3qnt5Q94TWPaF1T8+6p+u6h2hwte7ppD9T656udU/PMf0PF2Owkz9ejEMm1F6Ecf7xIsQxnEljOsSPkuN2gub7PIY7OIYnjVEJrnuKfo1\
lHeM3ctd46jIAJmOhehLxSVR7EvNJxfOHIYZMwEkKCIoJB9Mk+35bHknVYrwey8azWM4fenCH+Lv2TaIyBSOoTMrzD02u00aWOs9/eIwcuzu50oD5bobsq9j3Q+z8QyMQFPWZpJZFgcJ\
syU5Wkov7rB6HjDE5b1zIB8GWxGwrRQuVYCH92cByZ+D1p1h2k+WSg6hns4l6thjIxdaqCkNVqlAzfKUxSKX6SmPwpNhQcuG6gk2aTv9xycvaVwkwDgl1WRNZFNtrxhgwpLHNZDrblm2\
vzeDp9BurCbzNJvD2agLPZNtBmOxYKK7LphaVqOQEnsZwT9dn8LTO4GnM4OsNSwQzeAqQZiFPujZ9dCT5OH/T/AahdSNO79BRMzHP9BS/47vpH1WPsNARklJGJU8PHSF5g7qtpkclR5P\
RSTdK89QVtp5o9PjtynSEJAp1hOS4uooqi+UxGtYJyViPUyv5vFcVvepVZV+slf1irexLtbIva9mX62VfqpX9Yq3si2XZxNqXE+T6kYUsC2pKHjVsIc9kO8qFHJoav/b/hPV/Oxvp+rZ\
1/YR1feR6jAs/G134oS18H6yuqXLh++XC98uFr/QiF9nlcpGButFF5paYn20raU1n57C1btowuR5VefUdJejULJOmaxZLac2SKXFE1rYakbVdiPEanTVTo7M21+isLTU6a2uNzkprdNa\
mis6arOisbkVn9bJOTbg2tq5wrVWRWsmwZG3ZHyZzTvjDZM5Jv0bmqFnky+vF0nSr86GNTDd+7g9++YXv/euPvQfiuGsx4QDniJvgEUUNuJIphyZ65eYc/7sfHTFTM2fplJqhk2k8kiV\
Lu52Q9i9mq7Qin67ZKedq1AuWCsw+i6iybhky81EDq3/iA86z0uDzB0uPqCsWOj0FvpLBMdRU+AISClDeowpfMKzCdzbo3OMHR8wkS6145ksrHsrYaYVl41ozuTm70bi58qNrHbcG3PU\
0jl991BrHX9WgXbMi5Dp+ia6sCPlhU4S8ap+k19on4XHKhK/mwsjSfDX2yU9Zn3zgan2y6l1rp/joFP/4ILiqpRbSfDV2yjnrlB9vBJ0vg2PKv6g7pizGaq4pv+mrxjMllb2jrEFKkV4\
qg/QgxoMOJ80/3D5A7MCVoOF40gdlkRDIErhnbWpxE1gGFONYz1d1bqfmNKrSHZiaUxu+kRqE/QRtuMv37vWh81sqcZdPIj6Jak9iPonLJzCGlj1+VPWR2t1Uc2rgdZK1sgZUitUGPqh\
/E7de/ARDak6KaUoUaap4N0y4aX2I36b1qfPbqc/Ul6fQVYDsH1Nvd2Mb+PEce+V+PP84CroVJDJdw27EgZjbGNZP8ZV+oq7jO11dOcBrcNbiymvgfc3ZiO9Zw1HYg9J+rrwxP2gMhX1\
gKIB/oPgZNotip+VLxR7Mm7YpUdZ1e7umOdkSyqlAx+K351T0iSlZgtvtdSiSBMGrnoR8UpkCQNcxKp2UmJ5sB7Sv1EoCC/xiZ0XxLJEDTk3yjgMsbmOetEevxqoCO3w1ftBdjW3Ia8u\
7XPHrLHOlD8sV7wjbIjTfg00TaTewJ5EBcye1eYeQC+uIis01lGZecdJIiu41ICt9Sg4Y59nfnZ3C+8wd6xebQbtEcOamS3wD2ZDO+WtgAOgj25ZRZttUWnpfnS7i+aLX051DtpsL44A\
uzpt0UxOsvD7wiuQAuEy6afhZspj7duFRT3eAMx3Z7ad1V9+1gE7v4VxDZDB3YiXvaTCT4JgG4XFjXIOpBFMGV+gDgTDQIUwZhfoLH+nh+hz0I+6MPlAMEA2I4FEikUNUDZY5w1GHpXG\
ZtFCgLg3rmQbYTcd5zZTRyE4UAQxtkoz2Cs0sOUjxODj0WdNsb9jRQfrzsmAb5r2W5jqJObVtm5PblsF/PErcWTXxZ5ObCoUiBcryLUiGNgG43oVNDTw80NctGG2V3c6YM9jBANDqyiF\
/yxcWBwuobpJ1MTBt7uCjhTSrQnAY2NNG9TSqnob1D65XDZ0HtLWqOTVtyah3zCNrmiU5vQLBrVEWc88I5fwYw+jLb5e7+51eh0yPO702Bl2eJ8SPrIEEOKARW4etNatzDDW8l0EoWYx\
psFOB9EHHO63W94QqXLu5706XZA08Qc3rQbvaYXDxi/Qbk+tQGgEOrp7NAL9exvSwCzNjoXerDaWN4L1lPdmmkFsTHOZK3OdBRmOWr6x70vs2dk/qyFj/au5JHYj3K3RP+u6pYLy+3Rm\
N/YMhZUiEXDgdmt91OP/Re7znVBENM7CIDvaGXp8MHcrhCQ2p27xJlaakq2a350oZzW7irKIxWD79jv/7u697pPZ6WO/UPOKE1FqYXePH2TOg/OmF9Ftd4S+4j55Ad/VK6U1DPfWpN55\
Jk/VIJ5hARkIP9GLla+T8tUoCFvtFj3ZCjVJXbJONZAO0XbHZzLegQ9wyLno+SY8ugGtQ7xG1ZrUIxbSlbyixTbgK3dRTt81UuNukZ0orm+wvfyl8sp/8H/nWoRKQdywBRk0SRo0mIKz\
b6qgGeYI397/YfPJMqTW1ue8/Lt07nGyrJNMka/I8XssUX6HsoVLeVMskB8kmhsu8633mgRlJKucME266etLwmkp9EEkDVY7cNBZ6TR94ZCoqlQukTFX4ldo08LMtZ4rWcazWv3rpJY9\
uRLAZtAZbH+ZsVrdQppXJ/Q4rOM4msyj9l9x9U8O9UkMp+OLefA/tCTFN+r6E6eZqaOQ86JwUHU6tbjap66tH3c2G4fIUwLJqKL6fTB/nRazYoonHoN05vuASp88OKmR5qf3SP+FMApm\
AgeB0o7lhIf30EN8BagxE4+T9MuNbsn198aXxo/MM85XyR7Wk1EoiKldL6IxigpN9ZSyIAZDgsktCbIGXUBfv6LFsQopiwmN5S/1H2CnkqtbrDGeRcHSMp7/1lDmc07Vf892Oa0Q366V\
PsMd3yEIDnTO9MhaN+2FjfN2P8SZ7p7fN9SE6PB8HCLGaH/fSNxYtElFbnSs4UjnjGJXugoKuRF7gt6XJW9md9+ebUaxFFNFw1n2yT2zTJ//RU/lmuH7akm1On6z2FBgYN3QKk37gnGB\
NWrSIwE998OUXEwRqq/jCZLZpxtxRcf+RFaHXS8P39T142qvvYAlvsKhLc/Tbk1bS5nVK6dRKAVmCzPr6LWBk4eDm2H7Ms22rvkON3RZt8E92raF4GEVY2cO9MMmtcfZbzlylN4rJB3p\
Jdq0t6tJ05lV8ynsZn3JRdNacohqeJyIyzHc7X7madK5ck/ZXribtK9ekhettedpsqg4UgvhNorThNeTO415z4Jcn8mt9j3cTqSh294986aU52dwf7jWHVoXkl2U5mW010QoeQbrOlZI\
+BV9DQgWkhxV1kNgDVOQIK4kIFT1ww8UheaV28Sp2dQrG9ihuaPCkQ/zzyIYieEDP1XoDeBXdtEH/b7Q1+G7FSsrqsCIeTiwn25sJ1bh+L3tX7eVHevT4DNiub+so5VUYzqKn9JcSXvp\
QTmup4D04RlQNhz1dHpRCWxaJzsiaL9jMV2dDMivD40V7YfC0mVwV8Yr6DoGMEQfLE0eLrtLmqx/8pXuJVy1v5DL5bUoYNlfkHFHw60FyfCGLFpg6XTBOSAM+aqsEWXRM3x/D+CYrpO+\
kRaj8KfqEpudKz8jLHwwdTnfg0eTf2/8mNlXvItnkV5XXmegavM68Gg87P98M0iPNpdLDspL39/OOT4IaAOXGWSM9jVvHcVl2znXI4MyXfuPTn3r2b597wTsyeH8ZVlGyLIVmH0ZUvHM\
APhCLE/CBGAbAB+Kak9tI1d0Dl2Qi0Z4SvTkcIom4VTYfOc51vmNuF1Mz0IDsRerwU6dmL+sSltMHU7KllqThvgzWpNIGvYOEWY+NU4u/Dsvukd7S9GpkSDdYQ/n8oXzmPQ5MkWmSaCH\
h4leK6XSplvThXkK34DIAWwFQCVZd0yQITZMoJGb1Tl7TDQvm0do5jZjnlUue5ymcqcJzIwkoPJkwP44EmJWKlDcaFcG7qt/PG91Wddcu9ZPJgvo49kGa9R6haPOjAXY43WInjBEkhOG\
EbsXF5Eq2Fa525Hea3FVlv8LaXvby8VrnaLHz+ZQVlso2RMvNLfSoeiafrE0gOqgZG/jSGj8f117Pxo4I5ZVNDvyj88X0DM2B/YVsXMhETM1seiabOCJ1lPCR3Ee6E8WkweJOZPERcC1\
6MAsxZ7XTbH9QttgxTAhuyLFpwjjahy2+P7jzhHxu5sSzsBC898TK02ey3jN6GMnUmub9T/Jso5dYEOVktGzrBbg+YRg4p9R/wHS2Nf1IYM4zbBIAZlIv/Jx7dMwhs3KLbFjFliyAvw8\
pr4raJO2Y6/Fs698rz2dfTaCWJaTtBa/cN+sMEkWsXiMpHPyKlByYAM93gK2hSWhCUynj8v8VCBBnqQalKkzpL6iHCDUfhUaCjkSivFEk7GfpfwZvhmuXWsuKo+1KycpCSrZnZCWpA04\
KpmS1RCBpWI1Z2H8Wgc4W5Ycrn6sIjCseqQwUI6Y841kdzelhqswEWiH4inByRk62ggVYhzBsIWo1gBk+LBBxYpLS41ej4oQGqpClEot/GQRL/pE+IG59oYcjysPA84GA2+tf9vqf1yN\
O9r8nZ6zXPBJI562HIO7IQuclXSrSv62WLjxjCVV+8c84H4ZE5YqdpT0XKiMOcMd++nFjwzlJXcexH0GrmD51qDQMJPKdLOr87stlkK4jiLk6g9T7XzdijF4dg7XxqvihvxG4bcypWLP\
zwiER5qFh9IfgH8BqKruH0kRQ8f8Iz5dUp1K3CcP3COu4yRWkMsp62n6fqCChqYkjO0D6GV9BP+qwz59QA3oTxfmmFl3KSaeH5KSp+VJOVfiusORQ7YckBXOnaN7vjh/Dv2bPR+owV3b\
jAz26MD3UC2wk5CZxh0z/jyz9QzV05Evf4aRHJHsd8naz87kgaLlpWYN1C7V3I2WyQGwrw9EltNvHh6HdwmqaUjYVV1i4Dru/0gxQaLcEeGCtYWi39ogeAIuiPDc2aLfYQOgq2Uy0Bto\
tWgPtFtXkuR3qCBSxk+dS+B+r3L9RV3Uuod0MUN+g3ery3ArarTUK7ZZU0G5hBe3W1LXa7WTdzr7A162HWw3mk7Kh9ZzNwgMz6S9Wvn5+lhji9kQX+8sftU9+bdRe7aj93Ym4f8kUi77\
qgbC/eGdww5Fxaj7JJhzfRMNIx2U0LMen7fcJ+33Mfg+r6vLgXe/9mDeI018JRgiiWH0tYiRjdRsz58JPYDe28GNDZjEDSJLDRbpWbEqXA4b+tV4AeTZ9JbaUeM9vVp1sEDS4YkYqHW8\
SyVHnfWLzXit71rfAORdYdYHztYO5w1oNPouTeJ9+Iuv0G9nN6QVdv2BbnJXLSFtq5RUQD8OjIRuyD2Ji6H6kvxqw+TvD+dIojr1x1hdKP1Z4lA61r6VVbfBvjkAiH9MxTtFlYNVPf00\
/iRnTKWHqs5vBhrsZ0vzKMypzzAFGTbprl+8xnsmFOCZd9V+0oFgo3vt7DZmEN4P/VlaQlbdKwhznfqcxUPtqbKZJGsrs5nQzzfLBrQRIDOV141Cip4spufPHsAlDMAUfSIMTOsVomnF\
SfjfBY4H8bgagh/xuUTM9mFuAPQWDX7D7YEYBPh7NWLebq/ftvJrCG4vURb2y5LfYsO6x3zn7nbXfbK2TCU7XSa63W5TfkRzqOSjTQ/Y7b78P2i/ybFZkU5OdPmw6P162ic9nsoTiyh0\
QMkE4eWtNONm0XTOflYE0WeNOCZrI8jZtTXH7GduzZdifLO64n9UC5bO6ZkKfBfvyluxmnaFOCrtFeYdOArsZSG4yb2Z0H7xT/u6Sv13yNyd/d0MWRJCGbKvKYf1sVl0JXSdzXZZDcT1\
r/Zqy327vLz1evLaSngJd4zZck19Dbat8hkX7+d3ZbfnNQz3+2rrYtB9IipnsOmU4z0gRdUliMQdW6q2c+t21iV9TCVBHcz4+lDW+yneGynrTUNZGh43YyXhZwnqffGBGkkf/H3vvHmV\
ZVtYJnn3Oufeee8+9N05kvPNGRu5zIjMjEkkrq7Azyyxs8p5lZVUOs4YspppVw8wf9FrzB6twaRWUDt0dkRlQRXZol20oFoSKEDRihkpqqHQbCEqUgITdIgGCRreOhuIjRB0D8REqwnz\
P87g38lVQLTNN1cq433nt57e//e39ffv38ev08slbv+7dduoP4usuSp4PO3QyHFrynrbn+AYE+7gaVj1o9XtSY2tlqyo6w9fUqnoPW2bDgl21iha9AfsCG0TfRiJrnO2qR1FWz7qT0CI\
OgquQRRXdkPodBdrE+0ftC3gkWbKnhgg5HNPW8JQ9arH0PRbV4/w6Quck05lFNSxZVKfYDjpFlsTTbFGdEovqDFtUpyhcE7bPDFpUpwoWVXlES/+QUwolJbKoTqFF9VjJoqqfw4sli+q\
x3KIKwjeWA7ia2mBYfp/NqWFuTrU2eSgbyMXxy3PLUWujx6i932tiFF93w8xxre0PGa8y1J+d4cnlp422ITZ5PB1KT4SQ2kuTDllUXwRcMZMVI7TT2DNFmyquJV4kNtUZTFkuIDOxqXb\
KNtUZyAZEzkz0OAs9i8KOuZexCkUSdjAv+DnIfCV9TSnb0/aeDo+7EOpZMJyEueEEkmGjgrVpcPWp1EDr4rhuHgqzUkChTtsX2Qm6tLk1CZmWJFIV3h8MM1E9yXZZqA/SSadQBypN5xo\
NTSgJpgAlyEpDOQ9ISnGHEyjbZilT6EtQJeBdUD6PkrwviEP7dXdmpMUZodC4L8hthDdoZLERnkYbYdhbuTCrHMr/qdx2hlMDtHyPrfT5ybl585wbz1/O4c1zrj9/OTdunnOAy5tssjq\
Zz0Y0i50EhsLEjkNKaDrJxl9uJcQUU41iFd7QUljBHXxYf0Wvww9wm+52lYyQ5NSGiU+REPoF1MOQ+ICBquCjdRZhJMvuFkEVz4g6zFvjDagUNijMNAOhKN24iPbsia6Jft2ll8+32qR\
6PkK+5EU990H0KacTFaLn0l5LduSN1N2IjlG26Q7prQOif2s+DuTT1cJbyete0b2Kuc1Kbqez3DADWyOtmbOBtAlCrE15o5aFeocHMgdHvwkZnMxQ52BH5q+5ufyKeXK+By0Hfnw3vAc\
CLZ5B0cXxz8vCsYfHMFmU9ZiyqArAdGccFaP2uMzfoUwjp3BGXsR1VXgtvovzvrtbRf69i3sJpxlcpQCjRK+iJghiwiSp6kHEET64yHrn3V2fQplDUzxBFfWp7l8en5oSn4aozQ4X7Nl\
jAjCmluzjtMHy9aTxomC+1Xp2UJaMg7KEpM2XIwJyUEPNBJ2UVt6IUdGQWgaqRtQSUJNELQJVXEUuoBXqHunh0vx7wBoEJoGmY3y/XqlU6s16MwhqtaAe1Nxarea69Zr8h4TnNpFvXgR\
S4B47CxzdwEsiQdF+EXoDnYSnL4hPoj3pJCrkM3DFL8ATXAGSmj5T+qwW4g9+gPM+FXyGkq9wbpJC08ty4wia+PU99Ar+mdEIPrTqA+6czPe/oGlmzjk/gwLFvugcSAMkjp8DaaBB1+4\
BHfzotyfHX2ePv4aQi3Jnd14UHe9efrRbuUgD/XjbdbCvw9R7iCJm4jLzPcuInS/qVEh8FH2KC1CRMx041vjljxa34zQJ2yCtRlb9FFCx+La9J/o0P/JCWojHGCXzylwS8HEC2pJIJnG\
TgPZRMIZuzIJj0dDp7FtvSmBgBdxcYCEEVX0hau0wsCDbJ7rfOUDuuJGwapTtdijjITw6L8Dt3fZ09BtZ+1OjcKGWTdIgYsVEn3CJWjUIvddA+UUrnuPZXSOf8LGEKTrZAI1YlxLU+0q\
wZUgOiGjPck5/+B0fRlf/F3bSKjTzCzv8fupEv+mSJi6cs2XQuLWdy3S6VajM/bJ3sWOg0Qn8jK9ob+VGWRFKrdR620CWuMtR5QpXNYVso2PL6E5HKAcvpkJa9rj8fIlai/tXpxZJhfd\
4aCcnnpK9HeIFnPggPdkiWjL54ezjzFE5C/QwRXEWvnmz30TG3EWLBFT3jeuSb8JxqNGRlHELIIUkiBtwdwaVE25yEoFdz359Nh60pbUd4yPSXMDkNyuZPdV1/hfkJNojWsOdw6aOPJc\
2pQoZ+lmGuOuZ9bSPso0T+AAmENhT12V039/Ku/D+lseKzHMqKDYUca53gTgXc3sXb3T+F8mqkjGLT7xH7/zYOygivb7jH8igl1DhythLS8m8JhDreN/FC9KV6CMZilCHo1qHhnB66tA\
2qZNYSzKHN00vz6ND1qSdtPYVHRgFR2AIHAWOR6mJ5xvFDD6T8Z/sUTrKvwHv8IqS1AG9r2aVlWUIbZjov7oquDXFMIc9p01gVI0qjEJPt3XnkLaFYUwU9atXi371mOpXpqTN4ZbfXHL\
YVnDfk1Q7j3Quk6t2Lout5qWWJzTF/UGnEC5Suke2suPhx1zX8Pb8TvHcb2aev7fHTD/bY90vnhTjQCxkdHej/+aWDq7N0p41H63lU8NydtS7pPRpOltKSPZ4Ak6GhMmO+VLicsiXDyb\
z0dKzzgBFJnbv4CwxNQq7+jyivjAP6tFUv3w0daB8NHWsfDT1qBxN3SED/FVjzGW2deQhNQ+ILiTH/KwXPe1KnL9TTsBzhENhNiP6O64mMo+dl8T9z7uKzP9T3wyzsKcDnyIssVHDC9/\
sFbs1L8oNAx7JeVaTRfjBsn3c5XLFlTzs2Xn5PSCCHXU8uiTRnC3WEEphllHjfe19oan3hT5Np7MhEej/7hedbNLT5w9yYYl+hCtC9CWGkrAGbfmSHvyOk7MFHwbTTvazTr5BY+S17Hs\
UHuR74ef4I5Fcjufc4dNRYYK0YeZ4JfAGYZ7dzxgZRY8l3xLIP/zMo6MYuvLkM78R1zL0GWFnOgLYwC5i9gh/vmKCy+JHUKW49LVb7d2rLaDHNnC6x3aQhzOrCsdUpWVo8WhAyvpoqqI\
+T38ZZX+brD+ZAcyKNL0XrSFkpGG5ORuHPcuPx3j++RL6ACmoUyVTc/B+HGA/sCqKhrdPYX7QaTQsVL9lLe2xSzFPT68W9fNVMU2uDpUZj7tQ2emvzBMtPEtP80SNdUFcmPG0O46JMOw\
WzQSuHhtDtzzfIsoYrQfFdBXxlFArhlauFAAhc6hIco7AxX3OVlWWalnEiXLs96rEfmfmrioIWbUAQlZK/bYl4p0gMdysOreXiCwmYFjMq6iSQMTYw+RDUJgFnBtLnd7xisLL58P93yS\
yNOCRqrK0kkUFtJXw8vOW+1VzG9n/o3FuoKQaUVJDCf0Oq+AGeXf/zTOw/PIlNRQE6d8/Q3HSCne+QHegBp/O732Rvivfe+NbetO6ineq5beexnuV4lvfS28V77z1gO9++C39Ob4T72V\
y66pn3MsyS6Hp/fZk1gGySGUZtD+OcFuZx6h8MJ91SEyWBFKQW+QtCzoe4gXrfEQCkWIf2UquiqgE4F2wiuyCZbbue4vHjp/jqL7jcZhlXD043NgtxiBPTXfiyPerd+7It1M1NYWnahx\
DXBEePg3ptoZ0Y0O6tYFuIAb3wAp6JLkNn3IixiVpMKzZeaWpJ4WmnmzI1NKQna2GsFZDWKshrNWA3Dhg1jfRx2jaaLAoTyuvaCGUyr+ei33MKT1dWI575PXDTqQ4Kd9+t+EKB5JCxM1\
slWTYKxr0I8ZdQb66Q3SclDxr0oL/CkxG3jx6aOCshoFHyY+kidegLVGYpgqLJDxYLg4MLjowsB9CRIpINXYF7YBcpdGSjx9dwAM4cTP9MEzBGhLeDvDuJdngQkLOpw1OMq5VPcfAets\
L04/QJ8DqlMDmO0Ai/PbbN3AHh75eRK/3DjkMI2pOuvPWDXidGgibzbftzF/EhSb8pArplvTIQ+zW+2U2qCvtFTeznJvUTKg9UOawfM4zL+OPUH75YG8wTI4OdipWNoC/jEIiIzEmznq\
+8MiheoMCVC90aXa0Qny6rYk+5nLwWz0T4OqZgDuCZSrX3RV3Z8VIyJ2hxwuYfeqBFS67xrucz783ichadOabzabi3OmPlgTpS4ogw7QiQr8/mAO2ssk82ytw0pfj+dOKdfCMwCKr7An\
P2rOoApKfH8gAUu1jch8m0VDNpnQC1yM3+iq1m8drMV7TyJ4Hhr+VGy2XM4kdhkfK7mMz8tpEdAMv/HHDPpU0rslnTiIAwKKPTO8MZOAxG2WxAqAIlSe6Oy95/Do57vF5JSNLx6tJhY4\
fUkhe/TCid2z+xJenXbfrCMqxo8eOvA7KdF4mG/Kpw5i+/6sxV/AjmkC+gFp55gGqajlywBfxiU9l6XnyxhV4Us+Wu9CQ4duy+nOySyUYCI7L4asBpes+QF2rp39N9tmafCaZUjjn7HQ\
phXbObZnCwwfbMqlU1jzApfsqOpfx0abbuFwlF8ZgPqmgYpmuVAjcco0DflXSLQSMMdfSFfYPxZOWHAIMx/SOozfhM36Ef2tz0Z8ZvomRbgyd4vzJCswPSLynEkdAnHJ+ohIPEvHjlfg\
QET9WQdAIIFYr+fF1DGqBi4bKNTtwn2njb3SfaeLv4DmHD9Wecxr4O3TOqdOp3XNOgL+GI1ZFSgcoIISOUIEQehwFg9AWhYPQs6gc4LHPzWpcJWKjCgs6JNarWC+2CFbSHWi1dDtrDbQ\
cVHivpkbLPj/6PZdqsmxahr7fDWKXiG20BVY4foVHxGIQ14lYQDwhJPZqcchfwYTKX9XiFjer0WY12qxGm9VosxptVowtVyGjRdymtsVYPTSfU2yeIo5sSy4axegExJ514i+otMFDiRX\
cRaUh4xaxUlXejyIWDwPbYEitiMmhOeo8AdLB/kNycI66UGeA4XxuaJc3z3LALwbvzdFiPY4YpDiyguOrCLN4aQvgs3g9WwCmBd1ux1VU03UvDy2w5uWYQ6uegPngVC9d6WlXNrQrXe3\
KpnZlTbuyrV1Z1a4MbtwXpXgQtSI0rVvcJPCyTeQC6tBXpO1LEEbltjfltjfltjfltjc9bW/Kbd/FE9UKdP5cGftuZ4XnEmo1Ngr0Drash8zz3kMmdwLmUWK0256XnlL0uv9ePYW12gt\
QF/u/I3eMJ5KNYVhAI7IifLOIZhAkFgwINCRejxEP4PexOKTfV6PfNQH2tuj3ETywSsC9A/T7IEYwht/zeGQVYXyh3/H3NHQ7lQp6nUqLkSexEvEo1w1R5AnVe5xbgqb1KVvTeJbbVAG\
4jkqXBMcV8q8bwON9guhKtxx5Ha5xZU964fcUV5hoXd9v3k/n8U85i61u8EDLdGHWgKWKRzB1TnwU/ln4F8O/BIVHDeeRVjxBxFoLgcTRYNzChRMK6VZ8mIjlFqiQSGy0QBFAYqkVd4h\
YbMWTRCy04iN5gVc9KfDn6nT9b728gu5uXY5Q76An/Ha13CIblWLEzxqdBlkdRKJ+1lshonHWWyYiPOstEYExd4lonfUWiGif9fYjJAbOentEwIS7S8Qg5EzEobPeNhFDZ70tIobPept\
EjJz1NogYPeutEzF21lsjAibrVSIMlAeIdG2QSryodYZr+LsSzUUXpWfWBlvUe3XQbDGW7fogRsJh3ElpNNRxsjscOTMSYjGShlvSO8uUf/WM+/1ETEA9sE3xmMgWEYehHkRUoB5ETEI\
9iDgC9SCiln5gGNYc+wNA7dTnhLug+PW56PddKvdO/f4WM8VCG1EXUTq1YKwgsduC0YXEdiuOiNhqxaGyyZAyV1t5alR5alA5qE7EfhMGobDSsPQ//Cy2C+F+8PHmAAwqSnQARidx7AD\
69mCiA/EhBabXCWkw0xTQsbkIWU8mziG5IONnVJSXbGmEclTnog+5qoAoxD3FzhzgV7DMtPqkagzIGx28c6Q4R1aK6H5ej+QdLK1Su9W+eW8ifyHOyZM5eXdOfmNOio9rrluQrKFhxuo\
FIdbJ8vedpF5cm3UDRgP8Ebl2wjO074OxT7SPkDPuMldb8VEinmqhXANeebIVJ0S8sRXHRLyhFVsiQDZUs8YzB4URGCz2SbvYJ2FRFwwOmrvGc0BDnMaO5tPYVD6NJfk0FufTmM2nsWr\
fNGYLoxqVAqzJckS1Ja4NsrppbY9q/a22SKxtlGirTWs7hjoM2ipjB3WEDOuYGVPJ3BAxg7KjBd244erA4GGLuC+JrCoWhkk48XJjf0gvMF7vkMhbSS3jBp6X5KHevTEv26kurHWn+li\
6wHoa44oCyeUz/XCuAwweGFQhzDtyOu/IJO/IOO9Im3fk0QM7MiixPwUQy/n/nYXgVTgW7NS5jPcFUBeEwDCqFz8ZwDqVYFeW3KKzQT8Q0Q1Bx2HF+xmcg1uIMA3/BsS/wGHbOe4p4cl\
pXK5iZHRY2miADzwqZ9FJje9GhPVKdyM8p2UEm8UwNgurA17uwnC3E1xDYBaf0D1m3RcK9uksYZ7ijk5TAJMGGTCJgJNm3WEQ4RhmaFAwUiMCFqVZG7VIROwdItAIO2AHusF34BmnSCA\
z6KBaG7FIPd3/ZpxMhsyo2JYdusiOJUC9DMGc2+gb3bYt/GlRolGOv8HB8Tya5nfJsQK00t8jAnRSKk/EvmoXaDuS/UjjdkjHO6HVQCN+VjesGckAp9PcR4Q+gXwDAllixVXoQKOuZMF\
gmKb7OWzDeaUDQRr3KO56wU1k3xT8RxZchZ6nyO2434+ARmS8+32XGvw0zLz4+w3MIVREjF11gdw+Zt17Y2WzLSMV2jbQDniWBjGJ6TwlQ8rwmUqiA/GWqul9oQPmVnV0WTG5m4q3aoo\
VWjPFGq2bYpU2TLFOm9nVpkGnRr3agKul7GodrhazqzWDfrd6tWrQ51cuVgxa2j3yMjMMqq5ttWVavrTQgG1fIByf6CJwsPDTALDWECMF00DUoXeBPZFwQLbYt4ZIat9mPIC3hJGRGKD\
tw1YuXwZYetBhmTMEZ7Hkorz4s8CtXx64ghoFbaq5hAXEAnJWfq38jstvJL+BCtKBkMV24imgU8in+fw8fltFNkGBRKylJpYUB1zXcA2T9hPdT3/WESChlhjABQaM3RGI85uI2yIBnGo\
SEw7IQFCr8Wh5u/tFGOED3cYDjCEmjl3sYY2tgyhHg4jahbigCP+IUFKIfwP/xgTKZ+Jm7o3lo2jtgYL9OBxqtsjfERMcpMwQHizkjNhbv++2bcYjzRZ+Ndz3GFJqNg98RF+FnKChykS\
9FYLXxvjrQ4WvD3zlRqkgoFD9xikYbjV0DHeJvFFZxqwf15sBp6Sv3uS1W6XWgNeqt05NXsPONvDYpdeG2J18CC+hFalFQ/2MkZDw41B5gQ0J4/DqREgAAOmVOeR/c40iAqCsHaJN9bY\
d7gZPIC4mYrk7vSxcwcOBFUImQJSSIdt+LeFOZcj5hvUCRvJgDqadEk6jRrodpoF+4HgoXQYD77fRYFBN4nCuMkygYnMu01tGz2XKysgZVVZUvR7MocGjfB8FF33RmRwanMhMq53KAbl\
fiNGvzmSK03geAgDRWcMlX9FY1BRlFFCaBIRCAlZJvZAx7oqBJQ4YqwE0ibJPyGyPz8i9fagUZUPXeBGZmacssmHh6f8qqI1/SLBBPtEf7jVQufwu26gqYqP6I7eocvoSi4wtfPf991k\
7sWMduoDRJrp4T5DlK7oHuFTgQO6BVl5mlIy4XtaUSyZGTR+hN+q3E0mCe1zJ0zl57wGFzUxw4TszvCvkiIrgBHJILFBqBFREurOSvgRUz64MhEoBf6ciDFERhkC0STJTZn1NIMHkWYY\
Iz9Ef55bKK3NJ9RLFXYAR5XPK0Hp4q0L+oeQkTXZ6TKNro111VqmosuVF5RyiUg6YLgx6zsgjPKyDstCbJr/J1cSEM4QWagh2fURNCFuD36eyo4dCb7uB6KqRPlAr+FXm1uNKbkwel8v\
grAKFQhf9g6sQUV9W3KK/KMYtKkQt+qz7VRO2iEMVoWL7p9p5uQf0WK5zchAeDcwj/IitfINAPLXnHojnbxpucLlO+FUuS0yPUMd4JcQhFDg6C8u2BSPEomFb/ZfQS+j1BYnXEoh9H2M\
Vdvcd4eb7xXt3EY+lUMhb2+aD3pVHUPjh24S1518V+CwaMOTM8Ke6YNEUYLVF8R2QqflWzOb8BTXHo0M+pVnYM/bFQ9UXtyJf2McXdvLFrcgXt6KyG8OtZoPzUocaGpihi/M9aRLYr8/\
9oFHN3zN6tWYwSPFudo26/U52tWwwavF2dr1oaJEjVwsmadDiwucTOuyZsGpivrOEh3d8do1KN80cqPuFEj0oUxOovf8HrGzx1ivjiH7/N1Bb8PcRUATxF0PRkkukJkN3CVXB1Y2pRnH\
nkO2S7iVeZN70FTx7JgdFGCkd1JZDr5XhMUjQvG1yVrKRbb2ue+V1j4PiYi48Hg/fJN2yCXQYWacGrVONDbPMKWfRdIMLwEYE1efr4pGJ7SJvbxYOInH9BYSvRQB8u2X/0mVNY6k0UEp\
D5/Wq2NNC/TPOS2m0vENMt3y3jjfb3dOvjVupIUcreOXtaLfColEIM1RW/urN5885bzekuPz1m8/Dy66+/MMU7AlebkuSf+B8a9KCv9/yGna+MFev3YUJ3GcggRZn5SHikxezwKPlHdW\
4KLMMRQTz+QwP89mWjrpNLKpPK0V5Q71lNg1PN6VHTv6I+iGUwNIms+XV5OBay7bvb3l8oJe95v80P7eMMYeaCnfYIrjD59Ir6vmLg7gZ/Znb4/rLGSKYrBG2ptwMMbArDIx3qjjD1mR\
2JVnEZ3pa2CsLuCq2rTvy1vyTO/fWfP5AwT77/xVQsDsHo/uTr4HRfblgdNusy1n3OgzkWeIIt7v0a85FWF/OkgeuQffTSjqHaSRVKAc8XQCeg5/L89cSl05sk6yqXc9FFKmLl9G6YWs\
qwhCDqviCD4mSHvylZ3/zrlewixXpXJ9xGHjHS+vI+0agY0kfArF3TjxF4fZluV1MlzGA/TnK3oMS2kIZ3RsUhnL745pmN8/pupIbp4hhu3zGgy98SdYD0DHmKd7zNcoawTF/zjfVy8V\
4icqjtHQVn9DsKBKMaUVElWiEWANo9H/mwIC9CvUA4imC/y4FbDMEzJmaRXacC67StrnzFH8v7nTR1adiHqDWeVOKDW+ups/s/9jfv/XnfueH3n4FbkXv8mSkChpCzOtH63CIAT8dfDg\
r37fNpf5iYqQM3Dp0Vio1TwKLmvSLguR8lIO5O1mseah9wT+yVAL2NbAVLQztKIsXZO+b6jxJIQ855OOb5Dtcf8YSA5HBUt+E9n9klJpgdVfJ8ZNih99BeXAlxpEo3xQT+lw0x238+oM\
+9qiVH8MYzCSW5/oSG5eWjuI8+iH1T/gBtzgXkJwSMZ+dWyuI5HGomV6+nAM1Y+8J1KvJGYpQ9uEx/H2glUPtk77mFC74oVt86PY89IoPvfJD5BnrR82BjE/x5FzKjqGlMsBrMfHuQ+T\
V7mVFyoqTv+M+RCqXm5UsK9WFDruI+q/kae7jXnFHyWQBz3YchSmXUGVV2pWI9nTpnr3Cbu99MxA3vcw/VUt41m/Cswo+hZdNP/3j/D+eX2A5xqDZp3UeBX38Mq7cOTI5JYIy4TTPlIx\
Vfi/vNxjyoOZX356/aoto57PkEswLdplUCZS3S7tlvPuipbc3Kr3DpXdTKfynXRVDXg6+Ljv28MnpyzgweyrQg8HOFdD3CqXvwWGn0s/OMf66Ht/kmYmg2Nkjuxr+bsWtFXHns+AgVjs\
UVZ06d2rQVIRiHjH1y+zHTeId3zOMUW/QBR3F5isY0nhctxkdjUDCDeCl1auJuK110WTNrlsUGsaNYmy9eTmpS8cg4JGPqNcg9wxH/yUwbPSTh7LA9FmDoUjKMnyYVPJeqsH1IwI3kQX\
teETqxO7JuMn8puItdZkr9xJF9MA15GUK6dEVRzLtJl+6qaaTGr/49vxFp8iQFIyS+6ma91PtbEEvjLEsKWFJz6OCgPIuqeZasqcVQ3fqQgUoQ4cC9Uafc5GBSilyB+hWj0fRL9ziZiB\
3VVW2wfF+Ycg+IhDrf0nhJQ5SEd1QU6DR7qKaU6PzwNjn5ByA6lb1Ku5IgAb5BT5vpM1wgE6FcW9qeUcoh0YUdeS0jFNg7yCLNBAMQKK3jBfv3m5o9CrGlKzeRrz46ldrvPjPyWJl0TV\
+QXkSZWmA1LPUfZhmoStzNGcA/8Isnq5fmSPr4uU5GNWoJFc4RokgaXmvlEAEiMsO34gnBe7KZFf+NX5Db7ByZfIvy++W0yl9GdLJAZq5uFzkyBFjmKYsYAnr7Q6dejUYS8Sbx7rgKda\
/cvOAyI/yGSNoiNgjKNrL0LSUqqFQDP01MvkVmaMK5YKM6MusPBTdwZUDDp/y3GoWaoKRGuTUhKutII29d5kWKLy2p1KDdrWOOETI/AgfWhMiabyM99FqjJL/oNIBwxoQLZtyRE+yeYb\
oY4I/gPQLeWOP6G8QLAKkX8wbfOTx9c1n3NPkdZlVWEJkKEKSmsyquAik8ms5bQNhPAOOilgTt5u83ah2pMzWBXBJw/fWsfokJDH+cU2BExxybmTwBSdQms6joRPoGWdc7wVnnUmlo7P\
OMaXHzzovVNqedb5B6dmzzouZnnVPn3G+GZeSm46uDWG1Y7K4wmhBDLdYvJBdMpsMDYF+aMRJrH+F1B+gLtIWTRWntleSEURYDo/VeLQ9jq8TZkji8Qee9ZA5ZQ5U3qaJn1Ixt5HKyzC\
vcipQCVfOPVXPkXMBazhPDrvty76GRKlkKoFJY+RSLLyhfqYe9lo8xvxon7BwQH1dhO6rXaaudK9ybFa4jXFnUowm2oD3g3TFZYxQZOIhlupIDl9MRuj5vpc/H7VDF1/XsSN21A4DQfi\
0FhNrQHJB9HduBsOKQ+lhgoBFtmmQtSiKm+yWEwdsPeJoSzd4ZOXjpIGhZvMCykCUOxf50E9dR5fQNAKFphFItIwcuT/JliKij8kBoLqOQKG/QQ4A1WUEMrCrDLE6m53qPGEj8NlDVGN\
aHYbp5Scp3tWAvkJBrFATGMAtDWHHoZclwx1oPNfW5+1wh6pGZ0wyQQefNJRn8fURfH2YohXiR4gRMZJ9RwM6+7ZuR66j/9mAQIe3ac8mcQvLQy6RyLbbLxWVAMOd1mmfhmsPCZD8JOx\
bM69BiSmHxoE5uPDiDXIIcRg34A3MCHdBYMazITYwJUWhxzjp9lwy0JssfFhIdqDcnAM9zUl5JPxRqTkHys3pUnO6tk3NiZG0GticDR7CDotI6Bc2JZJsFJpko9AkG+sY9BFkYz0zO04\
qTbJRaJKNQpNsFJpkY50DC6JsdAtTVBLNgVYazOPaZD6p0a06hZi3sLo0IOK9J4kp2zxKJTZ8TbcAkVexcau2TtuAAf4WOsaVY1A9bYNtgnfxp3B3m+9uF+/WQeYgW4bQkqCMtokdB2h\
zMIBbWGAOaWcjWLTJIUccg3kvyrRep19k8CvIBPk2YZ1BC9ijjjUVH10THZpnyS/Qx4MI6BDWvfJorAZn4C7swFsIE5Qk43SqqE+ovFiM8L3CoyhUisJmUvGR7kyo1EWwqFAZKouVi7c\
hVIZysXLxeRAqQ/1i5eJtC5V+iVKQKWiwrXPIL81IpItbzqhRysjtky31W8mWobJ0uXgbsmUoly4Xv3KyJSA5mQx+dQiYQ7chYJBJw34BEwnvhipgGiJgCs3I/NbbQCxZmOuKd7f57oE\
CJqIQCUlIrNkWAaNKBQmYQzDegRUY6qPeUwZkEREwbRQw7ecmYAgNgcRMgod8/9a1g7hLbQj6woCOjm2DGl3IC2s/+nt0iZF10TczsJfqfGTw/HuXMLp4NQXX+2gSZEUXc5rXW4Zcab/\
ghn9rXB9WsrSnEHBXoQbao0vhPg0vNLM71YsYIkbS1pugNaEWWIPGrALBZUGzz2Lig6KJdiY0V9Yu4+hF8BPQCw01Awx+hH515SZt1ENJ6tbD2x7fTr5yRQvfVXWbfOiwEIzVpFHelv8\
ggoQa06cb1uHtImxMf55vuaSkVth9HNcg4qN3q0MF0NBonsDzAOi+R2F0gFVQ3UUbLYkaGGctG6q+m9VlwGKc5uKd6GIy2Hkx+703QfA6tsnPL/HzQyivSneGUGZdA9ZD01ob46m/7Po\
8iJcmiKX5GNFaBmz0susYMLZlB+G3xRodr/7ioGiAYzwH8+QlsdpcsyGVu/kwlinkOPavIET2JkP9LZnLHF30Sao/zmstGvituaSJk21IZhsSiNnQa/Lwpzlv7oDnJLwxLEILRUHSkpI\
FvJHVmrtBumqir84zHyUhjQOSVbjXsogLIfKmDkn6h5A0rMfwt5ln3uLCNcuyqcWyqVmWTS2WTc2ybEIBBNIpF0qGMuH1TqbrtPp1Hcoa/Q16RRF5mhAmFNSbRZFLa2KCZqmiKHLZUTb\
jdODpv3Y15mn4byM3vDLKUiZ4mDYjMbqpk64aVpMxfJVMaV4naeeLRF+sCTRCX3YdZkpYfVt4J6Ji02ZpBT9SFkadrrR8S/wOLiDhni291S6/VenI5Cd3cAfbeteB4yPg4ErH+p1kqPS\
CJ0N2WIbqCA/dZPQa6ZWH4IsexhqlRfoYPh+EedwDCQIl73sJmW4cXxqC1w54Dr2dTOBzVI0qvc+dtJri3ummp0275OdNO5D6KW6Wr7v6dMHL2imJ0lpatdIDldTHSpdapb/dvE5vi2P\
Benugp+kq1AJtaCXoHMjuUE/LjxIDH8Y6tg9ug1143uE2OoTexAc25JqHEN40CQ8dlMi+h+jw1FsDfb1FwcywsUa1XqPaai9LiAFHmQFzrgJuHS23RQIFq4F61oYHwKgvu44sNYUKX/E\
l/Kzd+1kAnw3CgwH+cC45WnqjDo9KXZM0Libh9bk0gN4f1eGE3OQXegGuPe7WQyUpDrW0Q6U7VRDjiYXbh9CN4mLShMu47xvb/00Ct2P+pgWX033fJH3foCw/iuo0VNNO87cVvg1SZxQ\
G7wqO+bkekXUNW9tO2Vr/ECBpCY2K4Qv6n27z00EMZNT/dMWlp9M2wcGFcYLMk30v7fJLsbW2dcOXCK9jlLivecOX9uklKBNQ0DH5szSII4nOBCw6Op9+0NcW6WuIsb7Kj/dVeKKvkof\
7atTpK/5kX1mPlLb1uTgbPs8LqY/Rwl064kmTw6hMDiOspxpccMPMMIDgaaM0H/j/f5sPrMwH8W3OB9HtzAeHbjEfDN5oPsjZ5x3uDdkn6mOfQ33sM3hAt6+4uTpge3o8xrBJPgY+x24\
fZYXg/xly25e9K6QOoS78CGIGkwH3kcfx9L5oz2+wyBSH7if96Q0LwCLkvGrSBfsKe6hrXve4xJyG5q6KdaUmR12xyQPrqBLmkxJ2ib0tnswOsgnfGd2T8vE+HpZE4yVpjj6qZ706Y6u\
slrE+JtpZ4e423y2pZT4tGQlsF5eMtO7GRR4tGWlXIGmSgcvCT5NNOs3i56ic+VwQ0KvrqKTVC0qazyfx2BLHg9GRHXm3cFAq2ziXazrFx0vmJhoJLJ3XxRUDNAVo8YGuAMZ1BRDI2iX\
bMccVQA9T+rTxgcbXJi8JoFHZMdC3LVkaYQWM7FUAx4BuH+iS7FKeV6t/tcF31q8UNWFdeLRoP2Qe91woaEyDikA560obSgD8BEvhJlXQfZgSjCsqabkv2hgGjZwaB3AfojGf+LxvyIv\
bxkPkuQ8c1Ur5uE8j24fwkakM7p3hIw/3lVz0c8TQNyVd3z9Q1/cP1PX9A3V9l5gKV7l1ZKo6MVWLmApVpzoPgTl1h0QKPRHdkgWWw3K6GYu1sGdavS6RIe5EZS6RdNSDg2TrGegaH1f\
lUdnmkZjZPiMx2VTEK4adDOZlv6fJe/rKp9ikTTooURyyvZ6kTRmy0IlzCTI+/haGbHDgkA0OHLLBgUO2Sa3bPGjI+sImwRx50OKBQShKs2gxzYYqFQTDVfQO2Sb7geOQbWZDtlVoiKa\
AiIrZWJsGxmlAS0hei/rW7xmkQ5arn98ZvpgcQmhwGI69Y1WXfU2YX4azkWrg5UNwEZCwIMw+zC9paGYJDI1wHjFM51mdTWjfB64farmwAvB4DNR5AMrQGMDOGygMjQYPCR4iQZ+8DQ6\
Ut8GB8jY4eGgMFIcGu6yjvKiLxCXGh6GBVJOHRrN/aGhXitCiLvSwCwOcWRq4Loael8lRuJtZO8StTFrsN+dthW4NFrYyKypCBkpbmRVsJzSSD1iHd3WorWirABTl8CvcVrqd2aDfhq1\
BR0GbDRTEic+LOsr6Dni+T5YMyrZmEzWKfNtEjbnxAHvtFXxRYFZA/F5GMnCU/fCpTgryvp/dYW5vQt7UY/08b5jX52ODIwKWKU2KQCL5Qd+QEzXnhChgpKLQxSCPhAE0ZFTnbV9fGhn\
CeB459R7WvmwIz9PcKjxffd54vgHt7svOFfI8TQcDPJdmPA9y7Y55Pu/COm0HDebTQVumA1+mA4LJ/Qi6HPrqQ5qDZ98rne6/XMCHzzh1CU8h3gmO3m8KFMKEPB+X5wqVYPlozSBwCZ1\
F53TnyT8QGFpClfjR37iCVhzAxO5Dj1vyUasB2/CHfNDwEMN0ixXI6D5tM/o8qhRUohgHPJTEyvUx+b0b7x8655yW62/Aa5+RwRGkbJZ+IT8bXCbtypu7/KZ/dS0Z6ppHk2FEImmkd6M\
kbqTxHEFWV+3QS3kvnUpBe7kNPQrrJwz1PUslPm2HaVO6Hv2jyzDigruLD20ybCuvlQDSqgZW+LoNRfJAhNuB7heBSf7Vta554jWQzN9SiGLif8Rp4pcNMD4GjJiH9VaE70fF9zH6AL0\
CEwKPRKuWrZdRTujYSNnB+1+A9JtykJ5/vaxdqwTjcS+MYzrVAfSLoYOpmtRBFH4jPIBhsPmJQUJmEDxPfwx/h88Q1gbkNOsosyHtMYPZFt+fUBruT+K0z+d0/6XxbgWWi/uqmWOhoOI\
qJC4tX28Ogvt/3joHSuOmmZy+RSafNerRzQ7AXXbZzLwO3fQKO/Wif5yHoNJz5PQc6dEKczVBj93KKzr065dcDiFT9betZUcwcq9acan1r0IJ/avk+HyQ07PL3rQVfuft3kEOz25Ycht\
lx2d0ksrcQavhUTW/3EMGIB9/s5P6XSf8wQE3YjSnLeD+4BitnQyeiQ3E0BKI4SWQs66BnIENKF8r1+fl9xLer6IdH2cpWKgiTPelzhyerg1QUH/cm0OzTU6fli93jRB7SuwrseAKsaj\
EkhLLSqwosUpfGTzeW+H8K5A/zOouX7l41YDcT6N1I0h3zRzOH85cxH0VwPDaNQLnsuDSJL7tztHlnklaROybyMve3nbl7XUPFH4k1jyQAEiseDBtIrHs4doDT+R6cUTEogdjmfLwYsO\
JujCqKRs3HiJi142Hidhx45H0SjxKF6teMobnfWgQ4MYs8OcouqvfHY9z6Ak8rz1ODA0jYRzBarqzDyBozD3xeIhtP37O+WUPiO5vOuecjxC19ZS5z/mQR1BPL3Y+xkQaLL7Y+TWi3Rc\
7/4UJuvmrRJsXO7/CBN38z0QPv9j5KBN0c9MjKBH48yFvLm1G9yje3YiganNE7niCYUDukrLziY34MIzOTuai7zP4z6TG/nNdx7jioI9pdNhPrsrJdLQtjmBpOmecNewDhA95DxGT55w\
fc6U5fpyJbvAd55yfIPpw94o9IkhanXPOqqvVWHWpGoRwAu07jJJmuEfSHKK6IUdyqV/Ep67okMndUIPhSx34MLr6FIaMg+vx7sIXvcevPwUlgByvPwV8XMovoPyqmF9BEQmzY86R5Mf\
JnXHLX/Owd/scdBWkfEx6wudWnOJyYhNO5j1xpMu9gXg1nZvjF0EpsJLutTuOA9uxU/FhewQYmXCUiLST0K/1EJ50gJxqEuZe8B3AMJPyAjzBoIuTdLf0WS3EH/yA4sBi+Sco+QrnJil\
wHFgmSY/Crw/TK/hnggbNRHf8CdshjoieeO31BB3qv1B70o7zaergqnWfeord7PcHnrSHr0OPP3WDnqSRicox6NPi+CviS+XYmhLrSmwosanEFk6OQzSWitiRis85kGFHUo3IBjomx5J\
JAG+7hPrhMLr6lssMRLDrm9nFuORMF5GUhy4CKSXPalh2xDDSmqwZGVokkVlyuQSSJldrDJImV+sMkiZXGy6dxperTZeO5MvVlkv4CAFuk9swOkOnsscpNiKBY2r1BKPtMb3YJwA1uUC\
EtoUsSURoW8yullw6Jy5Xyy4dH5erFZcA4QIE9IfMz3LmIffwODpXgHpXR/+S6J/H4zRDQBMqPBijEYzzR/LwvD7ksCEBzMQ4d4+HP1MDPYV8KpZqxbn5EWngoGeO1pnUytzcO2c/KHP\
z+b65+RKzw/fU5gQdT+hZZUpP+1SJdSU2lNhUYkuJbSV2PJmSX1Wakp3SlAwTZjpLO3QI6o7NUJqSVz1ppQ3075DZ1uhs29Asq5qlErtK7FUJzQ46zmMsU8ZYDhDmE3cto5cwx1RRK8C\
5t0pT/16Fp35KGSbiaoTT2X6F8MOlbHsV3nOGxc1CjXxGQHmpclYWeWUfsggifPluZ5eLfZf5G9YW7jJ/xUrCKefzHsEunnL+kpWEU87nWEmALDxamREH8Ghd8fUCRutydgGjdSm7gNG\
6mF3AaF3ILlC98lJDUNwEwSnQZgRaR9m07zM/SVw/cJ95DxEtmBmJiGC6JGIQJlAiDukoNzI6Vgid8xq3AUHq7BvdY4RnoJAuGkZTwJ1Ew3GL83G75qH+ppLBKwziDa8wiDe94iDe8oq\
DeNsrDuIdjwcxxYF1Zdi2cGu7xRGR6OAYjtmWDMsog/SjYdniL+ThvfpwVsbsUo1RHf7bEIxZj1b6leKYXTaFQaiKMoPRBAJCw4NWB/frVeU1MmoXTM9wPl1QxXXYF1X1qG+YS3OkH6z\
MiRQQ+tXPSdHOZiEt2bYSO+bWSv2KKSnsOmFIfOhAI0YHGkOaCHcFR98W48ZvMqhPQHCfm32zJE1N+GjdvYXY2XVY7kC60XfePOo0jsUt1vdFnYeMKtk0Aler2dUCXK1kV/s4jWRXezj\
FZFe7OP1kVzs4NWVX23C177NUxFpvmEKt30aSFTFEd31VMvZxZwW3yaJ/Z0rlDqjYp5x6LIsYXwToUkVE6nKFJCmitP2lT8R9Zs8n/96kAXqN/4oW4gLu+SjW6rj314i+27CA8hELCEt\
9l/M5P2mjKjZAYFAaNz114zrG4g4wxhH8fRsIR/JMoJP8VL/oezixDbflSf3dD7tJyP0Oq1+scerhbjoZKcuVpU8x1mcgwFW9lWxoJZsHVLKJxq0mV9JklWzgVn8TKqmi3hdcXbj5783\
9lBnK/T2/WA/+vNuIlgwqrqU20Ra50LrdpqjcsCnIhzCpp0+ufP+7v/sIbXMSG1Y0TvctCke2GALD1O9aJmu1UGJ2HLwRYHukj0qje7tB3Go28wQb3AJ3lkYV0gBWQf7CVjZc/mzjIhQ\
xvFjJQ4t8BTUVR3RheqTEjhK7Suwpsa/Egn6+qISO3NhAfWC+recNQ1s8AUa2ujkHrLnMZcgB73Vv1ptZH0rXCTISt93iW6HtmrYefS9NvEn7/lyKISTxfq57G5HXPPsaEeM8MRuR7qz\
Pm6JevkLIZN06zau5yn1vURk/nYk8I5tIJPGMaK0k8AxzCM/pJmebr8K+bbdIgphzzidkAokJybu3J4qrjqi46BgvrjlscckxW1xxnC6uoO7VJv7qbJSQ5ybnDRVRGmkuwzba9+XRU9n\
sFhUnvvHinGiL0+VscSY9XZxk7+X5FyeCmMaThHdmFe8Gut0lVd/OH6DbvV4fvlp0u40K63af+N/dUUZKXBlRK45lwO4G6W6v74mJeronTikdfqhwjNNiHFOMb4rQShjftKyxLVDSBX0\
FFUYMkJq+Y2SOg64q/aAktu4KsaHEphJbSmwrsaPErhJ7SiwpsazEihKrSqxlKRtNWYkdJXaV2FNiX4kF/XwxK6o+2lBiXYk1JVaVWFFiWYklPM2zj0cfMCx19H09uhyZTvbdlprf1nz\
NRIkNJTaV2FJiUYklJZaVWFFiVYkdT2uvxJ4S+0osoPPEtl8M8NNIl0O6XqnI9WKtqOo2cDlaen+rRpWF2aKb1XCrRia/dQpaim/QiX2Np0MPyN05VyY5X/lGvRixmGs7G2948urTyzD\
kdgbwBs4N2wM9j3YHxNT3nRESMNIXI60kEYYi68hHMFD29IOn9b1lJVaUWNUv16ICly9F3Cigp1NdF2ugKTbSnYE5ivhLRrHNGryXXW3A1WJ2tQ5XC9nVGlztN/RqFa72sqsVuNrNrpb\
haie7Wqol2A4YdXhrAI3DjfSTA2yy3GjhqbJGutrEM3vUsNjYBLG2B+/gwaxBnPmx9J+k0t/ZcLvLbNdiS8Rv1OKY0vl0LU6I+FQtnu668bFmNVSm984LVhI+/65IQtQustF0IUyc+eR\
Quu+QmRgbNLf5wqpoiILdHIqHPTYaL7YRlGtO0Mbw/c8PJLZ7L5tnKcXo5RzbWTvf2q559By8h5XG+KjfjrDk0CIjlsuwPwBlwK10I5v8c3MpufhCpX2KRcVidjOSOxt0Z4RiUTE3+6k\
fTXJTZl9E/V+gs8TcXO939xMaLZsXsBVGCA7KMF6UZ0eKuFamhGuFD93iQ7fnoVd86JUfkl3OiZqMhYtGTGhr9AUu5U/YVQ+1DPoJZ0XJisHP0esCFlejWWmyklxABWTUQue6oR220Mw\
VhDrBhkjIMtK1DxBSlRT80qNJQsphjPCjhjbyYSkFPfz0lUfbFcd1XYfArPC2l0x3La6FYlwGTePHsSKXuvSGj8m7NrZJt/EtknT3JS9tudzxay2bMADw2CMtk/PXAq1m0JXEdvedC/E\
xHp2tZNSOYcDYZBhLf5dxkmnG3YvHbxlCAVPiyCG0WaBCZkMJYgkYqzaxx5g5om/NIzvvtezYohyzR2YkqM3FdjNkq/xSm34W2hdaEYOQJxNkMolZdoR2PPWuotFGrCqWe/ButG9lRaQ\
eT47j8cUT1FI1HFUxWY7FMDNDNpoYGwbNRbienAUl/3jXxHGpuifaQc0xbuD5lRoGOoiB1w6n7lWE4YGP3Se6X6g9fp29hI6fcR3oPvNobJv9L8/Cy/xi35ePlj6t3iKfUlqvKX1aQZe\
J2M7QdZbCQVle6MDrPr9OL8/c+nXvtlN/EF8nc+KHHRVHcdtzfOOLqCIXLg/DBqbGHr+edK6isf+vv/Ql50l6gmGi0lGOvxyLJy0iNQnGEjmtDFhrx6JvI+k5zgjM5hox0CS0CozeCVz\
dOwqF2KfCYEi5ZMJaHjodjG2coGdFMok+EImxE7YnAjLylbx+BF5PpuYEBzFx3kTOCgMMj2nSK/+C2M0uXouP22nqGuJMsp4Bb2I8HUZKIsTM4/e3qmTw+sKXBp68RDQ9EnFKqTmF1Hw\
JVb2YHKWBe63tVl0nzJJA5Rf+28MyOU8+ZY/SaRF48SkENcQzTBISAFNs4nnY4vu4d4MvZm3VsUceysZ8eajDAId26kSPUcN/IIICNqC91qNrbX/QeJXB/uxkzn5flBSaPp4KtUscSO6\
lCdbuWjwDLHIit4baKeyiJvUIZOC4BsG9ZqhV749PYNJykZnDuRe65Eby+P/82vgEnsS09kT0uEhDi1KQmZmC7kgpEDFximAiD4qBLd1OadvjNu7wOHTIbmwwUNR9phBHwTiCGvbYk8D\
XwdWnUgMNjOO8GYV5OaBcx2F84fVOCC8aGF+QWvRaZGGST1X4YiDM5fgwvRBbnJ2GsbR5PahAhtUGKAwmweB9XCDKvKVJ4bkKTIGfvwFKiv52lK2Jj4fdCrzcwIAqKD0LItIeb7/Av8F\
/IDdL155PbBsXW9jm0cZv0NIcbTw5foG8/HuqB+09zdXDKWSCS34aSo5BSbPIrggUW38es27cPOvgecy6fvOsa89j1sHNs6boatkkNpPPUjS7zQBTYWIWUhJhLCNRQ9gT2JVNjc78zrU\
XARPD7I8Fxdnig1/80mmeLPBMOCsdY9Hr8Kum+lbepoLC2sdmFLPv40ei+AQRH45ogTALMo/kGgm4WKRXPEPEesQRFQKUPNC07gOtgeYgbhmegH+zOJ17MHBxABlqMRp8DrdD/ppbEAO\
yKogRotWPY3gR5AK9d1zOSpWETE8fYbqSrJUp+Jo9cSYPomhlTgxFIs/iJAe/JyBZ+ITz7lax/61EiwjZ81WaOXqVrt9gbbDf0osAVn0SDSzu+jgdD0CHPEF19an6X25Pm76ezlagi23\
RJfkG6pLQPmfgRyrEnk7JTDs0jl/xKvQfJEhVpEBv3ZXfuf7rwDOfGkg/YGDyrehD3NmCfgON8/efOX+f4/PVrPM7z5zHpvx5QzO1vGz03d3Su39QeNfVd2lKbZxzfnMA5P7x7tFvT+z\
rrH0NzIvxcPpBg3wAbwro9y/65FzE1QfNeDSdx9iXNIwJ+XtYkb9tjqodl5G/R3GgwywT3wj5GxeNNE8o8jfcecP8nCgDdjhDAB9mBHCEBr0CfYklKSCA4+3LcrsXAdzF1eNl+iCxtlB\
We2ME8GFBAMd05zldmyOAu1RsvltGAMcJqnvlf5KFNJWUtl2wDNe6p845vIjfHiCsZ008Mdhnp5w/e+b8OQcdSak/P/uM1IB6BqXJB3UPh/uwuEpSvzqaBEM7Cyr713r3eejd2TvpXVw\
4Qgt1McQrr+5ojW45cAj1BgULKdTvRLnWUroTPWE/+guKVeZPobXn5c5jPfD0fQz31yWG+zwznBverKwNLeNvDKTvF+HSOKCEnx5g2UPKd6F8nxrQ61Lp4PX3mbzZuHh/USren+t4eJ6\
Kl9hCAU9Ye1C8lYPL+Zelcu49w63NW2nbA+EN9zZgbiiEh3SKPdr9k82f/okqxq1uFPm/+xe/gVHjUA3rE+CF0V0e2F9wn8PI/qJ7h0P7fxCBLf3wCxsY1hB10q/1wz9JP8gw+YvPfuJ\
J9wytPIq3//aX3v2u2hlaFXytg/5pOuhf5xPNXc53vYV0U8O66dW3oG6K+i6++G+KM9LSW0CUZi8+zS/6B6T4TCnF7+UXva/19ldDb/9QqW/eyn3jfq1v/mlF5R988hkWleYATfBdbym\
qMO98S64wckuQDlvQZOw07yxr92lGeKh3mjv1W/nht7wGrUvaHtPlTsvaDa0CB7dUk9bMqOa5rOQZ68QGd6U5gsEVztT2dRShCN2wo6ZF6Ytv3EG2+8e1l+YdhOnFfR1Ed3s7CD5O8li\
ALsGnUlcm3bUN57XdLz3rPJ4VyGjvj/U0jZnLVg9ZpUbnEuDJlT3TXdk19ljnPuptO0ocMKJm2TExgrjn01+C5ppPRgi2DlRevBinEFO4oAzU5jqsNtdAba6mYG0NyErrlr5o9n9hx+f\
6P+JdmJFi5KFhtoC65chDwyULrVuOPES8XXroFb/0yg+hIYbtCFlogR1G0w0KLOTw0Tuyj3M5hHiALavokekUwjGMPNwyucNBRNs9a5EdsyPwHgZHRDBJby7x5kE8oR3epfC9IR1+NfQ\
bxFCS9FvQ6gnXs050hk/1jpzlU78U4BmW8wvufYY8L+yodOE8rRw0d7T2q4sD5emoM4TDfhDokNJAh5I9Bx1qu0bcChzqNXSqtVKNmJlkuxHz/tdeI2Z5sd+IM5eGEXWdUWJBif1hDJU\
1Hw+zm8Fo2VYruxAerGpwAZTuD8+JVB+1w9G72PNjYeR+sa8ujVBpTjmLI/E0+/gMk7FJXXh0D/WgXdXMMYItcVCql4uLBLmknPRW0aFBDBkWLX+oHrABqVgmSWc9Suz92fsxW8LwwQZ\
nQPvNmOxWFLPDxWZUfA0dNMjE4equ43KUOFIQsSvKYpROHr5pTjxlsFMSnJycl1+fJ/NHLFvKkNw0B6jPOg+DOiFoWyeeRlczJEZATjkPxHG+HxhjyJ5BZOfB9A1iknebTkgRoRIt3m7\
jkrTXNgVhZd+ZpnDDUjMe433OZszn8ffDmN/ZC4V1dkI5zL4dEuuc9DbDeIg3/0Phs7UwHpd91li6JQTmYX8ohIZeNuqzBEVqxcz/2y10ycHGbtG5ebQmEKDAcHYwDoUKXozLBZ0xHyp\
Gkz1UjCYbygVZc8e4vuledS76UaOH75ryyihetOSCGiXSllqirG1CMUSlFaXBViJpp6VIagy18bQ2kdZmWGvT0vYe1fZuansPansf1vYe0/ae0PYOtb3b2t6HtL072t6T2t5D4q9WaG8\
9fjgp9TyEFx25ILzUtlyM4cVE8ZTi4WJDNaUttyvSlsPF5vOK/eUW+8vJHMCLSoUKEM84lKrN3J9HxP2Zgtjapj5dxadB/tShp24uOX3xvuI29cQpixvWE18t7i5PXLi4rfEQktutk0c\
WZ/UuzKqCh+/FDAAT8ycM2X3OOehHmW6hgxWuRNUvrZT5il/MfNkvZr7kFzNf9CnzID6GAzYTX35eK0+8RNFlbz3/zhOfUU7TE8dRzs8T71EuiycupFxOT/xImYU8diZFtFC2SvwTSAb\
yw/vqlg4HywZpxK1S12+Wun6j1PXrpa5f466vxsdC7XcS2vBnOiy6z6Il8+1ExPeZtxGRnHN+iIjpc84PKmP+AN05ds4hX1vklyWTcYgrTrncD6746nLFXHHh5a5xxbOXC8knfglwPnZ\
4eAjw3Jy4b/vs+exf6swhHqqt8XUNrxHk5Z/HVqTraW1AS+1Hk1j28BF9+KB0ysoIunTb8G33usOXW+jSvTZUdOn+yntyi9v2Tw3lbttEP9jr8Jy5QD9Hn2olFotO0WU36ZU+V+q1ors\
1AR5hKy24qguWPalZ/8r9qPfqWgolFhpaCiWWlFhGLXOtyu7Hnrgf77LPNh1Hj66xgrfrYgy5wlG9pnzI75NT84aXuSpj0hlrK7GqxJoS60psZOqhlmxbiR0ldpXYU2JfiRUlVpVYU2J\
diQ0lNrNW0EzFI5l5YIFmvoAdiBfr7EAMNZXAH0DX0XF44fv/9Lfx8DB9FQ8yAMgt/B4N+5VqC602tbBKrCuxocSmEltK7GupF/TOohJLSiwrsZKlkzWwEttK7Cixq8Re3jCpsWYeBH8\
TqurFQ+rFLIJoASFih1DLTVyMYGcwAneTuTJdGJzLQm/TIjGeEqxP9r6D56WI1qC7eMzMg/EUvjdFy+3GA6QAHGV/NRJxIa0LOJNwLjURcD+IVwKj4KWVzCGLIYqyQVwT2ineRJE1IXW\
6VMoewlvwB8/swQw9Ffby114fD+708elWA92woH8fah0CyX60VBTqr5Z+op2yo8SuEntZL+P4ero1h4WPflIXNE+3eGHEMttdanGqyJ7YFq05dIAAwR39FGpUU+QXlm43OZX/aDJxsd0\
sLH52m7Q8murzbbzb2WleawdOFe1ZoxUyf93l/F4zIcCPWFlMq7Us6m8dGTxdbZXONMi52DY1f6ywZ5uBnWL3PUO7F/iVde2UhQmy60QPNIfFoS+whpyNh9hVLRH2wcMXrh7GaNP1klz\
jV/VLrTpPblVybsbtIHQJOeVkyy9+vllPKJ4bTt31ZBhXcw935iEtDb+s3ENFGZojcJzoZ4x4M195NHcRzt7JPVMQOdrBPR64wuOTw1ROapimeKNgBxp+L/pZuNemDQcoSLqIG6BtisF\
E250LtIt61nEKXRXLKQFOZyq6IrVbqWfu2674Mq0OabcpsTyk36GTV7o8xM7WPH7q1ixeS6a7OH1Lkslw7hNOe4bqiD1MuykrdeAlgjfDPS7yN2Q/IvTCnCY3pTF2lVqt089y/YL4m28\
EyQg0HGSATtuj1E3T2n/D5GM+m/diMqYO3Cdwl40duDPfcztGjrYz6MB9LO+dadQF1YH7OBTZnwPN90TmwH2SCmri6dJQONbjwD1tx+w4+6ThxyUHbnJSm0UntRPN/pdP5g7cvV8+Wvq\
0eot8Smm9pvQpOXBP2+N0naVwUJYXOvC6z6/Ty8dv/bp326k/iK/jUQdy4B7jxWDRgXuprg7c0yC3Zq4nE/0O3BPqwD2tG/t9DtwnYMlZcuAeUwfuGXRYG80cuIcPduDeDpJRcSZIJsi\
BexgduA+Tc+4Y7ighdlbZgftE7nScTGaevMMlB+4xdrkeI/+4GXbeHhPn7Rl23h5DD+1hbKQZdN4eKzhvyyNanwxzSsOSEk2EY+i4faTkuK2fw4slx+0jueM2yNPDLD6y1CbD8vvsuD2\
cO25P2E7uuF0WGyAsoH0mxHH7bUPkzni3szx0re1PGa8y1Z+dOG7/wFBSaPJ4MtSuGIbkXpqMkeM2LpVns3IM20nsml7H7WPiuD2LScsFonmx4/ZY2XF7FoP3nLCz4rhNghqyHC85bkM\
pxoCbITf4uYnjNqWNRxk6PP6Gr7GUEp/K4YLj9pg6bk+o4/Yw7QQeCQuTyglIi4/X7FfhxaLj9jDJpSp8MRkWZSXNhlApkptjhXpQgWAgzGaO28NQiKLj9nTzsCYVj3AKfY7bwzDwZtB\
xexqF9hhJzemCq8sLhm/wH0jL0rU3jAxlp4vteyL3Ir5BO4sX8Qx6kQ73Vm44qxyWbbTkRTwLjZ97EY88j1mP3jzr57PWIzfPeuh5zHr45lkfCvOJ63g+M9GMdhwYCpM6kTtt8ygcKrn\
yzoorL8z8Qzd05Y0KyhO58s7yuYbbV3REExmiY213mR8dEu/tdw+Rr/Yp50eGyI17FgQfCTeSctMiwuIXELE8FJ9UhQdmZdrQxN6RW4zha+0L2LX7QmskLGm6xiag6VJ3Ufmi95vMsZf\
UaTlx6rxDVxLLSiwpsZgtMgbFlfTaYDpD3qEumtnRUDgjzqG4LnOwvecwPmRuj3fVHj91Q3v8EJlZp+7YHO9m5niXzfFSCjXJuwWTvD4S66rba+3VCqQc3jKZsoXyTt3Y8uuKaV7TFwP\
tVG791Sdiop/q8bTMMv43mYX9Q28terZ88K3oFME7ZyY9ZZ356B7aOcad5g/jTnMIN6q6jN2uQ9s7j0g/b9XJ1G94nYG/u3XZhYO3XpF+HL6HRdwvGFYkbpiAc85xit/9ZvZdZoK7Bft\
QNZkT70fG1S2mQTXFDcZSSVoiDCY8UpcGeRu9YAXAY0Ovg2XooLTBp7ENXGgDOaiw36QNFByTnDQuf/PlK6VmLrUGLKJ+0dCmsuFi9hfzxSwXrJQ+jzhd1JJO8tQg2TAHqXFwO2cHX3Y\
0v2ZmFnYXB2Ed3s5W1bCuzFfVtIEb0tq6RVuXDWB33DLAHQrZnLjUGobR7OixDFz/HOMTHDM0kxoSnnKCYxaFYvlVt6AToDsNinE+xYGnyUFJoGOmpEn1ahw9IhvTpjwcPLE2zKc4Zs8\
4qpvQiQ6c5kNRz46h4kSnOYbpNAeskK7Bp+IcQqc5TvSf5kBOKZ7mWKoXTnMs1nnTZ1pPcxg6zXECq5Of5jhoCjhxO1OA6Z0CTmTb9St1WZDqaY7VOp3mWK2rZA77tw2IwSK+H13nffY\
z7o/Q+ZTZ+8x/IOL4OeedRJw459D2B7b224iYPuPiPkgu3i3uVSy35qJ3GxmW/JB2XtogaNINQ5KCTVA8YsLs0AxvTG6G+Nk+/KU9sWSqozChDJggMKF72cW4wiUITOhOdhHIlpXChG4\
1uvVu1U51IFdk4myP7RLvKGw11P7FZLarBXIIhs+h+TgzIWw1iwAOm80igMNGswjgsN4sAjisNbVMZJZo0i7wUTv1uKDi5uXBfTU29POWFS5eC7eystGz3GAogKIsVhdKppKlkqlkuWQ\
qWSmZSlZLppLcqLIuRhUEOckwSKcKhr09saxQ7rnBZd8Vq0Jm/ds2RaPfjika/XZN0ei3Z4pGv31yiRlUU5VwxnKRM5aKnLFY5IyFImeQyUA5Y4/3xhbqYsXeC8SmtxuoJTBQo10gG66\
bQax7OWIkXK9Jv6zWxFC+UlOrek2tjjUxJO5XxX64VxUj+E5VDYRV3HzHLKrxiEqNqpqS1qpFlF3F323jxahcDBVth25mFFQL4XDRkOghMqXAMD9Giz0oYAEBP30kx7pPH5xTuHtNeEi\
w73edgyCiyfToFW30allvZrZO2ZwEUqq6U7+UzfPyAkK2/AoxwtQ5hxjMHhUGw0e/mvHIXr3Iafv1IqctNIqcttgoctpSo8hpyw3kNIo/UED6nRKhNnUb1sGpg62DU5zQjayDa0NoHZw\
K/8i4bhYowD+GQYoYvs4XODtfcHh9nJcKpioMCxB90GiEJ8ReZNhA71LLcMB5MmlUrDinWdyQxHADhgO8ZwGn3JBfv9nLofViFyf7Kt6dT12C+yhYHzGQABRow6Ckr6Kq4mGQAF+DBPz\
MiDvIQQCW/CJo6WIv5Oj5Alhphvbv5aCmry6AlyJm6WN9EKSC1pp+jz+nqGZMP/JlgYn2AJcakrI3h//fdhj/f4nw93rhogh5b0mB/fcoDAAD8rcUkL8t8JyC8L/lCrD/pivA/huK57+\
ueP5riue/6sYjgvQmoP4rLkimg0DVtIH2Xd1mZpNexY4eiJ//IpQYOSL+YYbDf5Gg6jOAftxhWPe7ycWQMfInEUTNnUv/HpXUuq1EH+E1oSv3P0rYi9bN7kNRJlllcOSVH/o+eKUKWtF\
HjRxAxb28/PmbljfQB2gzf6pADW3fM65DaGv44tr3URnGJSEEs6zos6eXMZPolzkRn0EU8cH3YeqH89TltmBG/rLWRlD7x4A9YPxUGHt9iMdlxQ6Ld6eC9sc5Og42sLQup/wDWJJG3lL\
mBi2FNouJcku9r6el3INLaxTzf0hK+1DLIw88QZsFBcVr+tkVXJDbYKRG38G4wqKjVO53LVPrOr3lfhLvu4Vy36BMFYwkULGR2DXVK7C3FC0uxTjk3xYAnCzCwJE8wsBUHmHgqMQNGMM\
9bkSpXnnj+ZgjoiwDVSFqCSiHqEWgjAYjgH+T3QKczgG28LE7D0cwaY/AWDkaT3A4AiLtVDyJJ+eOwNOp+AhagI+gIecwBSg4SvEFJvFIF9ksD5c+q2EUg0n8gMIRdCjoACZf4dwkBQ5\
HwCQtAPFrikQwSXEKwl48x80+zMf1PlzIDClyRYllT1WRIF322DQuQdwpAMY5562exMl4CxET55xnPFU5Ot3Tr40PQw+PAVl/aTzJ7gjAbGiumOhefrRbuSgBcCbarmPIXuA9hJCZmB3\
tHaz8geFNHFfhA4L0GXg2NiepkOt79j6MI9o7QeRyhgsXJL1AsfUCRdsLFH8vB7pE+G9IZyK6ylipQWIulVInuG9sBm4DtPFB7chFmTaK8nLTxpsjUGh2spTKYSpg/tEdlRGDBHExO1B\
MjR9wUEGjvKCSmSmWcOWXnZ6WPaiUz6UZUfnKi8j4nAcV0PYWMCQpBuOYg5Dg8iosFrmBjRrk/hLbHvHDPs3Q9JIKIQePZMwl47b1kPjLF4WPxtdxKMqPoG8nFQHlpgA0xPWVAnAwqRv\
igvmc9I5mjvJ6cMSIHMB1tRQCY60UAmO9FAJjoxQCA1HQ0ScoW/NNcKZYvbwqzn+lqlTPOVwnk9fJ+T0l/kSJzynxd0q8QerkLBLHb7HqjeFe2BlytLiOGC4ugng9OMFF46VFWzBUTyP\
cUjk4xsTB8S/kc3n4an34iALt+6izToQf/xfuCIOxLiBuN0Xxim0TeDPHy8RAgxjSj2D2m6KZNtUXrqluck0M2oqaaVO945rqFAePGtRfTYw5u18nrPycXjIcs80FlY2Dtz3pycfbrhA\
7SuwqsafEvhLrSmwosanElitZrAnh/Kw+WlViRYllJZaUWFRiIctUq7enxK7UwvmMVmdHH20rsaXEphIbSgDHVohfxuU3kt9AfjFM43Iwl7ugwLWA2eu1zktSDSWWlFhEqHPS3+uov7d\
tla+qeDXAwSE5uG4WPHthYSHgMMRvAIoO4RTaL2vRUiMt9TXkSl9j7/a1X9aiC+hsnSDKN3oP4M5q0RkFuBF1TF+2R9HvgyDAqXGs24W1CZlr/IudxC2umpI6KIr/+YC4BJDtKWc5oN0\
DetvD5hiE2yBZcMcEiZWAfeisq+AeoAKhFRvGb0j7BohBhW+uBmT0xVG0xDCzW450D7bbv6tIuy1WlLV9bRMl9pTYV2JBv9r2JZ3f0kcbSmwqsSXvuOv68vt9Lo0dBMkxBOLme1yp9xI\
GXcFib2P0AiQ2KxjHFCVnBZbC1AgVQnWmyhFUfJPw/0VmVYsbIfXMhEC2xWa6JmFiiEO1v8SR+liPkxE610+jytfkcIrvrMAYqujVj1RgaFWo0CsVjCjKQQhGtBVrOthqGiqwme5W0ME\
V1oZut3IhngFN3lg/riIcK2pcWA4Cdq3nMK8ckqFFWwQN3CKoSniAbD8BbjzS0tG2r724p8RuJb0CnIRzL/JdjGPuypssLEBgnsWJe4KdI+C2g+4Z9biKk+04NPZETBuCt065jgM49mB\
8zFrceTPxRMjVkApQ8e/rKT4UHZHzyYbhOfIbFATxbkW7kG6QWtpJr8Q4BUxyvFlUgGxLgA5ta87WoyU3mbxEN7BLoNidl2vjR29172816f5uBXR0JPYqGEnssO2kPqxljoBejDIOfls\
k465ZihTZwXqHkJeD/x7uQFao8TuEjMjt2JIY2KQASd6wDpLMcD+8g1U5SqGhx6ASaDjC1iEfECh6FZqzTuEqMRgexqMm75GHO8nYw8nJTnyEzmziIrc1b092ksOXkpO4+ATOISQucY0\
6Qo39yKNtjqJXx3C6NdCyLiXTkBLtPVqs1xj5AjKjWouM2jV41LYTx1AQ0tYgf+hXTl0PoY3RkQk78nKNdQ5fuU903+Gh/jZDi1t0ubIn4R8X5eQFDltBXVAUQHhtj0Dbl0TAroqAtSp\
N9CDsqrCIovFVjfnRYhVbg8iFqoqAvUpxH/YIg8CjLzCeY6IC4CHCSnKy+3+Rn2Uy3f2CwZPDIATsdPcfzcUOnyfFc6LaEZAzdVCMYGKwdhjEOQd9iqkvKQ8WCCAaRIiSePhMBWUrNGS\
rd4BMxuNo86vDmgBEXAd5ppNv6mbp4uijUThrxy+9VrYESvfQSY0aVsaqncUdh6oo4G63hpFbblI4lrO1uEXFwoudWjxJbqBZdJdy+ansNZKluAeAcgtPQEmqPx3I7EtX7w1kUqaU1wO\
ZkFmUBzIrs4QPZGqmq61A5mcuXiCT9CkH5j4k7jI/GeBsBsR7gvgYPfqJID5OxI8H8QkifiwA8YoETH8JEHc7MGPWNdX9QFQn5ptAZnseq4EoAdwigegG5EDB7LhclxlpqR77lMlinRr\
wlLNQhxnFyKyRLsLipk4xyEg1QpoT8DhBj5yTfwCjUe95czS73WV+0ZPafcCT2r3fk9r9vCe1e58ntVv3pHZrHtUOI6qhYxWr8UMF9nSe9Yq982Gv2DsYcSvvnS2v2DvbXrF3drxi7+x\
60ju2yqYeaiq6yFqxKsh82cU4tj2rSNgoqALAv67bNf9jNgXLpQ0vZjZf9oWXlvz4JI55nklUyO1WbiVzZHSiRtGSiXI8LGpprLfh/KxTe1XVOlVaFpXY0kfbSuwosavEnhLrSmwosVn\
FqbvKvTwSDdKcBwoP/Rg+dW9n6Wg1iBqa80DU0JxXx1mOZH0tdVh0V7vmQjLbSUCHoAmxzlMozQI1puEphgVpPQzvQQZ0z0G9AF4HPcu24A08KG3YHxTLFf2qwQJ8HJT49M9/5lkONyu\
P/pwenYUnH/hZeSLTFj79pJEJC8olEhSmfD9XK0TBjLMjrTbz/IVZMY5RScrWa336VaZxbdd6lcrdWkpRgO78f+u264grVsX/CqjK9dRDEIYqle33DcIeVAugC90FuZXjLnR/FG9BS55\
MP4+N00rviikwFmlAWDOUhAh/jzCFDoJOeBj1XRJ9AWqDdYJ5SOjADGie8N5EPJFuvW2D932nuTwwY09faLVJfsK/hzsMLYCa5EOk6J3s3oU+IVrgZKZ71wU7A1m8tjVICnL66+/dcKJ\
fx6BT6d2Qw+LPQYEnm1FYuKL8TnZf8Wjbc80AdPRJKiMdruTWhuKP4t4UarGg/02o3jchMPt8zOhiC/F/aXus/soWnmI4me5RDqmNJ5rNEPhpIn0fl4Cai6wuUMrMKzzufj1Ovh/5eWr\
WF1JLnmR/rVJlHC56C2qhr8Dk/QJQC9LfeT89+GfywGdWq+PZJFfWrC3p7Zdg5AJenLzrvc866Yqbfug/wa8f/Y1RpjbK1C1heUjTw9BXrYx/DGvh9Wtt13Pg2ZUY4xtoJu/BUAPGdV3\
QSfERVkX6Nn/kYKPvE+YGPjTdv0I6vRxjJIQWtSji5FPrtzyysVcYnRyBTtHYcFL75GSxP3ApjEqw1g9bkSt3ygEFKJbmoW4G2WBPopQ4ifHOYLg9S+MNqY/+p2dpEBIMfCb4KWrIfiW\
bFmpJCwcxgzxPZ2Pq3Vce7f4ubnKmn3Cg/5fWqf8NLoJayPq8VsJQbbdRIWh7wst0Xm5j9O4hJuMkKXkEiMDFq5slj4nD6/FJck1A1vk9fv2X+PVyrrHmGpeaMcWSo7lCanaSXK9SVo7\
7h/jXHzzE4XURirBgkqdQpk5i8ITfNDQ8Fptrr7yFSzjyiMWRYdKXAEe8633I4XSIoSC/1Oo0U3hdwJC/vk+CUVogtUSA4fDJEwg5/kKejpOn46TH4KvfpxJQiSskZmChjt6kVHd8v6X\
CPvsMC37157PP6AQGtNAjMtrTz8GfoozEaQ4kQPp1OIFJRBMuEEW+wN4z6dtorON4lHSx83lyYQ/GmG6SizAkg+EcJig9mA4nkSCmj4npYd3gPaCNzWJcN0518llVYkWJZSWWareezRZ\
UOVis3mR+08+V2FdiXYkNJTYzZaUm+wV3woryXqs0K9GipyXv4WINWgpbC+aeROegTBWA1StmFP2WqgMgTnGIkYxlVcfnfRRQgmCV1mG96JrtkDoi6pI9STt5rEWlW6AzNdP16ly0zGr\
hdlXUwq0qsxuO11SFy76DihEKWyi4akKxKI+LumpeqMYdFegTlBgI9FnZH8Ba+LaltdiuUTNq+bs0FukJCLiYFoeEeKsrRU63Zp1XwvoY5X76g/yhQc6jyaMmxditxaNYOcgUM/wiZ7h\
eo0RY7cZYT0GmkmOsp+wKIz8tBHpgEVbCJzuFQqQLAZ0kgrug93XgJ/qsWrj5IbIE9uC8PLi/xQrbUiDhNWVfAa6lVgsc37uJ4YDTN38ARmlEOxa/zQVfrqnCXssVdvzahKXPb61GY1s\
p/jonIjuei4FMwAtBprRnoycbTwft0Mm8/qu/BByBS9GPZSvb/YoMYGENGdfCMTLclUNkyufN1Xq+AuFgW7QA4P3YmlSIF7gYXquavbpXlb1g5oKqbBHzrFmVnWPrnoO1kK5vFmFF86x\
ewdrmDKzWsk98spBrcj4ZzjUrn6IhalV9MnFqVSto+aTDh00Oa0b5jpOptEmeT/v08giZSiXv3/LPOE/7Wq5tuPpOujp5DhZq+tL74fb3Zy+tw9X30tWsDO3lrL4EAZJdEQRIdkUQILB\
cSk8vXgNhPSIe1SPpOHlSj5Bn9Qn4Rc/qGTtyLU5CWTfXi+vd/uVkttIMD1r8lhfGX4mlcL24FK4Xl8L14lK4rkthXJOGiB7ILsvEX77suqz6MgZWfBZsVOKfdcU6Ry2+5orRjrnYFYM\
dDyZXrHa8BeOK6Y6TdMV+xzm5YsTj2hix5DFjGTHnMWMZsekxY7lk2DtxPfEIGDq6apPriYP0U3aGwaKDq0/ZY3ysJJlI7VUbX09G09NXn0rG7XF+ZRwuOk/F1UyxJuwytiIFD7RkSx7\
HyQoJRRg5y0GhBZx3BsXW+ZGg2B6rQbE91oJie6wHxfbYCIrtsRmwRSv6RioHqAgCtS16QmkmQH9VnOqie5jOIvzispuW0KwsqJhaVmJFiVUl1tTQRJoFbmG8uZZbD3vsiZmFkepF6Si\
xosSyVCSFJdR3mdzWpuIsAG3euZZJwtUgmTzrvCO7XgmSwbPOW+l6UNQcOyki15qCEGb5vFEU0EvlPkU/jYOX6GLTq9cEATyohbAAMs1qmHoUijaFwYCLlgrphGmVDDVpjfS9FCYLVvp\
Y9n9+A2asVvRDrk6DrEYFt9lWwZzYMqvRN4nCgw0R0N+okCxlJl5yJvrB8n3hAHmb9rL5wT+gz1xNHuCyKiYOP6BVHG6UBkbvqVaoZQ5MpBXgqpofvPHN5FYoD2q8LYsPFt9MeF3yoIo\
uXPzgu0tfVGR7+59gsI1Lu0fnRO8aVz3rlDMRz/Q2C8Z28Jxiv7//zYSNxlyr/VEr9VPeMFWt/yY+aMuD+1uVrik222/g01b2FLS7Ytt9Bp8OZk9hjpUGPKinM4tQ+of4YDRPNH+yigm\
+Gf7wyiuJO+mhdMTGHS0425XUWa6pznJNdZZrqrOcsLinJ44lHiIFCIDMPu4RKKqN2TNtBp3gYhifkyRs01/z2ACvUtxcTSahG/7qzefPOb/mWaT/+s3n4QtXv/gYJkhf0BnHApRsMWK\
AgY9jzstDc6KJBzGslY0R8SLrSTtoJ7XCjtr0zcGjw0d4TWqTF5n/ECBiJM8cycwT3T8mT9kZFN7ewcO10N8d0DZidMiyi4m5VuA3T4ahU/HgP+NWEM9lAnQRLZI0EpQFNxqzofjsMwT\
Gl2dVx+gF/OxXep8VhvAnniG/1vwZFq/QOA60cdc8Gr1NHhf4UWpHTZPXMOdIrT1Nx9kLPmGP8zR3ITPb97VUQYbxCcCMgXNjZ1aC7CsD7Vv48gNYuYodLZagpQvLHqFJE398vy4r0CR\
gcpNAU26Dvq6GAjIBmBs6c+zdYkWtVvjMH2SnzxawpUtVD6r4R5SVyZbzotfLohXGri7rs017SAfv4qqfVoO0EI3+0EjvosnfyTxi1mtskaQq0bOOd17Wh1LljRqFxOUFgDVs9t/x56I\
fdhH1lBcNsgTe9XEB38EonFfnknGKChjYcVT/2ezPWwXccKXSZaW5oHb+Pf8SGaooebqHwMd7tFJb/tKHsPWJxsNqRGx+Em9u680tIlav4c3Nuny+QcTiEt5cJxoXZURsvxFvrhId0sF\
EIBZ+95dwyia6RmcnUf34GN5c1DQXuEjvxZv7NMvjGTAiFn4Cb+4GktEOEfvfjze3A0lzi4jVN+LNTaJ16kp3/u7ZTKmoqVKx8cfPZnpFS/WKhWefVdUCzX+sW6CTzttdtdrNoCRGxwZ\
ZaOICI84NtMDWshNnLgBbJar5WbH3wCzB3grEc6QdgprNCiN5HZFlNlp2MxeRPuMaOSKJdlhRzdao95ERFZem1koiMrnSp+7ydq7DozNjTM1sx8+q11eCiqy5XPa/YzZ32QmPWd1lTzw\
2rsOFky2JnvTE5490lAVPHP94xLEvqi7bXHH446xd8QPkcrriHsgFdMlrUDAJcmXfoIOFsT5XEcZmVcCZZCnHqtO9ojmdpsUe4i82CYfSZmZMc8b5xsyKCRcvzvwGzFka5Vxpg4eSdHV\
q8KSSLk4NnjXSSsLFq7C5uZPQsTmK3kVC1A7Ymg1s2zZsGP1zmhhdlvK3cHbU7nu9dtSr9agd8oDRu0tGtooWGujQ6oZ/5LmGD5ut+UUoSgKO9BhSkk+dNeQUWkPOZuVQlQhJaQsQlQp\
ZiZCUD/ZBUhJYZeFYFMNYIrwgnjcKCvRphHE17A+nYGcpwWQWjtzFTvFAHgU8Pz0X1/D0nodniXczHEkGxPY4Sr3BZ5v0xrYzR0e8o/PyoBYt0s5bHOaH5WmzIT9Ri5sNi9kVbjbk52t\
xsyE/X4ubDfn5WkTtzc/XIqIvnq9N9x3Mlb2rQzlwjqj5eLzQkUOFekB4XM8N8rZdyB/Jw/P68LQeKiTH5TB8zPWgm+VoJx6+YhdZh3DeXbkO6JAFHj+uDoCeF73fxH7xFcPI75iElyH\
A+1QAX89neNG7QQ3ww7uNe/m2siMHSPgmfN/XuYOXm8SKtfmkesyRz2s9nwf557cwJdMOaZVW5R3+dcfhV5ygq3rsrQqDP/2p2hzusaDZL91z8bB6dM2lz9F7/1KrTdQeerw32yF9Q9d\
JcNY5qpf7blI/68zo5YKXNM46d+FlgEOmStIFDYvo3/2gFO0h+X0Yf80555KWzAjxiPy+Sn5fLb+Pye/rochPG4TioHFg0Hk3sC6jKeL++9OGl2ZcLHfJUOI1dGc2iPlQTe+di1ZdBJ6\
o0nDAr/+jqsuYwiPSEq+Oe1od7t7tvCoDTxxHZbsKq4d/mYzhOSRt7hWtCwyMGrYvbrxBT1bTVVOET6wKfCIeGhP4xFq6zK/bsQKCIn0II2TMjucIijU8Vpk06GWGUawzcNQEVrVShFG\
kTi7gIcCnnuCtBbZGKUz0ACkeRrHjzSUUIwGLxR8kAUoinLHpqgmN18wwFQPCVBxTTEXH1vFQCUEqYpZGQUQPl6AVqR7yegFdMSB0xYaiKzbK6IpN6FDD7xCyYi3ddtExF4cQnjwlfMV\
auuOS2yAOp4AxFhtljMVxwVis2bHoClVauqsAschjabWmvavEcg0/s9Dr6XJN4BVb3B2L15IOoisWEkwaJYDFDgMs8mMQXYhp4dD5ND4VhvQRBDxAJAQ5gGcREquGZ3UIma+GEL2E4Nc\
yeSsmbbR8NrQlQcHmDm4Q0uJkAWmxlR8PbOlJ1SxSJZuekzIKZoesqNn5wgbiLLbsVIazGFNhTdwpx5qANHqgFtHWNsBIUvh9CWrxKEJLTSK01FSz/+U4h1rs/fLR0qfVW+RTSus1pU8\
JarFjj9B1lsJBWV74f9l7F/A6r6tA9H+d9znSkWzZsuTHPidOLNuyo7dsKS+dxG4ySTNqEkKmXLiSpRNbtSypkvwIKK7a5AaV28uo9DEq9AMVCnZpQ0XLZQzcmVEfQz3AZcyjMy4tVFA\
e4m0GLpiBqe96/uf/f72c0q9z7/fh5Ojf+3/svfbaa6+91tprr93I0SrwdXp5z9avu3dd+uONFO9Ctu9KiEUhatfSKIuNwNPM68Xc2iiLOY2y2JiR4L2VKItx3ASXNXspyiIyPTmcI83\
hZOJQ/3ZACgU+WqYQRhxUJr022mKidBXGXp6Ir0Yjv9ZSyMW0BtXLmRo6+iQScFFe3oabUbf7EfjqQgEXcxwmMUcLL/vY7yYnARf3ccBFXNkv5FAj34cBF3OBgIvyiOPMc0l1UhIt9+c\
w4OKOUMBF/RxeDAVc3FEJuEhRgupnxC1dQdudCX/CMRdzFbeuWrPtLTpJO0E+QhwEUFSbnyDUfzhR2EeTzUKiEnNxnRptds34UKIYQDsG/uHeSEOBTxZztESFHlWmEiETj1lOr4m6uFu\
iLhosWTJQr0RdzIWjLoLQlgcCMvm3h3g41Frtxysi2iBYcoaOdobLJrEXqQazzzQ28oAk0bESCSkdiL2Y09iLtRp7MY0DHmMvBqEBAPeZ3XAL49jhrdpQBMY0caw4fLc7E+GhNJfCXeK\
nuUCbCLLcFRq/HIQxDdAEgzA2YhBGv7RCFReyJg5jGiPzYBzGRgqeSyMPOWtjhXVWHdq2wT9gp6G8u41izTVGUL63Eh1wA9RLdMB9qHelo81M+80MIp/B9ZvjH/KejoZn/NZAs2NraLZ\
/66Cp2xqab2FPbd8amtpMZZbcU5kGafrcwxHPzV6O6xga56k1p7SzpJHaLLIjCW58QDtJ4HcpW2WILV5NgHwUx4iOCWgDcr4fT4AcgomPJkCMwXcWmXUSD20U7lgoUmIhUSioeMXbKji\
io9xi76wGOQ/OOZnbkQlJ3rbZRREdQXmVWI7xgHgvKpb1IzFtgibmNTGniVlMUDjHWOlAIRkO55hEnQkFeJNEHG8UzrGhEh5xZzicY4piKDaYnRuFc0xiOMfk1uEcBQrcE5OMhHPUR5f\
lUTScozZAwzk2mAC8DVuHc9TyX+byGyrhHPXJjDyJhHP0K94inCNqgRTOMfly/mMOsBAWZESvAdXiBZLOF/mGSWoQx0TpmivpjBRikhLHMZn/uMN8b4uSrMjX/9X/envm7qiHWpmgSI4\
NRNuzsVwNKa0LMdI0oWjMzcWKNiXmY9BMCoWR7Ic30TKGARzxRQ2wCGiozdDLlwo2WeYwPaEKM9pPa0zS/5DwDKrzv1fFezaWs6IFVtGQ8nXnV2MUrjFvkRzLoRpVH/ftDM5cjBxAEmK\
cqKjsOQFYom5+DJV4jHjAexZhGm/ACllpQuVpNwdo3EdTLEd5RK4WfsUJCwyFNMvbHJuxEd4HCYKiTu7zDWQBiSTChrF4OQ1or07pxlTEaLNXxGgKsIViGYpXcEWWjB5EoFVdoXMySEe\
k2Ix7/diMcWSf+QHe1IJ9RLqAbGsh4ryJebRUsY27kcMzZiU8415sET/ZhJPvvQtObgc5+d4M80EYcBQ0xmJtllVVvgnaDEVptJTZZtYYJZii5D4GaQRq2N3lfJQSptf+UUrs6bE+Qom\
9PRbZWRDtH6ZEY5ezYAc5tkFLyILNQRp5SNDDONnXi0kK0kjjXyK+NJzI8Wh5vF9MQMdkAYA3xQZMcgHrIFr8TAJnVo+Hl002PhbOoawCD6Rj5A+GA6WfdH812aVCVSTgSywHv67sOC9\
mMKBWAm24Rdmt9Egxx11+w0UcUxA7XK0WQliGu0kBL4mWOGavugOb7OOWBNrCxQHRClIvoxco/p5rLCbfSnYY95WCxz68kKHDQYH7vlLI4j00gRsbq0KHxpmig1REIUbQokDx0yp3HLr\
jBO64dMf172RxBVB9gj0MzUbFAgZdoAwbpi1ynb9CocPoC1wYxCaW6C0P5yqvVDkbNMkmYqBk+ITjpMRQh7qLzhReKQZbIJ2lBFqXGzK/U+00yypC/OWi45tu3Yjp1guabqE1ZGouHGV\
GdBTafYxtdGwMdOQQLEdWGhyMCoLPV3l/LuWBJG66M/lPaJwyRPcNGx3SOPJZjBJXnUKcEotOIUGJBQca6pDrC4ZpI48YICiH/OQKGUrctgtZStzCfSIOOdsVqiixYheqKXHTLuQBkts\
8cOfcAOQ3HUnc0MR1TSxr4prDHxs3/1OOgH/bEfBvxAo1lLgeK9RSYjlW2EaJa7HCdm4ibumnJsZw3z4dwFfYye3wCvXcDrewi9vhQg9SO1yQBB1euNzN7XCB0VKlLrB3qhSmCa7UBV5\
MleJ+R6oU9zJSpW7hHsYr7oAkvOIOSMIr7oB0OCTOAYbHLTRJsxfjkljQxLwm5jQxG8dlIly8V+Nq/mM2POPS4+QtKbmFONmMJbcYZ0u+oHM2Luici+P2ATwZEIoE4SP/Cw69cM1BH+u\
DHIPyPqTvJlk8uwcz90rGYKYomT3+9mq03gYPo6wcOYkibGwm/5P+wZIUw8bUoOs9Byv7VlSGE9O2YJzQfPCgTA1EwVyB+S4mE5jEuCF0zDOOS6zAC5xqiMjGgzOLHvvN4jg1HjvUNvH\
TVXkqncmPk9LFlMlLxzMtOrjOKBlc7a3XDC72MgkuO4VDTJ1O4TDTq1NoZgp2Ckewe71SMv/D6D99lAgAY2uJSduh6FveFbOz25qzAQBT341hciGxq9u6hNeGbmsCr43d1hm87u62BvC\
6p9t6Aa97u61+vO7rth7Hq+m2MNSmKXRbx/Ba7LZa8HpPt9WE1/3dlsHrvbh2C9f7cO0WrgeQv8K1iZbQcCXgCqPZx6+HDpwWsA5I1HZb1ymxrdtapsT2bjw606PTmJcosaPbukqJg9A\
mFxMOxce1bjqaAV13xc/MxrutVT83B7lbfg5GF3AhzeUBW36BgLF5PwOtX6DMEQCHEs0ADiUOAziUONRtLbocs9S6rokb9CgGL3uYgOquUgKmmUVKwJy9QAmYpucpke5GR3hIZKB9lMg\
CkFQOTPu3KFEFTaJENbSUEgD7TQa39Mn4DGBPXB2+uSPvGkhUP+GERp7Gv+WN3cJcmvHOoTcwGCVyz9HAoJSpNBaZpelIbpdlGno5iXM0ZI6S1I5zLEqi8CWGMeQvbZmkQXrweH4/yvu\
AeRHXwWjjMJcfzbzTcZKV5WN02/IiM3ssNLPHeI9TnNzxZPmumOCAwzd18Q8jX+JLWJr7CEjYsdeKKRN/FeSKyyb27mL6FRBxYlfy72iEudszkPVM6lVQsGJo150r2a/0NwIciVBITWq\
KS9wpXhFposjyFFnQZGJ46CICUqaFy94idjq+CoXnomd+cKez57KHIs5KNYfl5aJiEUTEQ4iI9xcLLOQU5EjA0jvxPEUUGSsg4UCwQCPDd4AZ5ENLuaBPXvOdKSmqbx7jS+FQBFHGJSR\
jzhST/cWiiqd43l+cQ9yoiJoo7Z6haJwgqab1MYbz4f8MTrdnZq50OtbLxQxqHc/jTnYH40KvuXdp7b3QDZS2SobcMUwK5VeOp2PTbJQC/ckkUEMsOFi/8b/GvfX6dRK/DoWUpmY20aI\
w7vMBxbLoOyywV89+dI3EUeLnKW76PYBUCQUmoqNX+iUWJX/RlXxLUPKk14GuWLKEivYT4heSOQeZNShlXmkxOZPvo9vzMbzNG8filFhJgODoSfQSStxIYCgldgasosRyAiRIj6PHpCi\
xEC/kKTEfB7nPY4mFWz0bBwHQ451x2yhxKwad6LEf5XauFCVBj0NT7eBKYyAJeiw/1nOluLHOY/mxgRIgPzZSAuTH3QxPDCRBj+0mGO16OR08NdXTw0Y9PX7U0wNJPT2i1NMjV73SbCq\
C1yqY6AiFqIYW9wXnOxKVqyVxXRPLmrimiSVIlJaqsYMCgqHHEsVyNQgbVZq7Drk5P3cDcvNVMoqWqk+QxomxmMxe4by7gieJ7wgGUk8H461ngicypypBCKF91SKDkctV9ZqYX0hL6H5\
LfVBdMArafBXoCznNzUHuhp+bhdz1HE+GeL4pTWt4kiyJCHi2LM2KeNosyQp4/izJCngiLc2ceEYtCQ14pCgJDXgqKAkNeAwsSUR4ogFJRHiYAUlEeI4BiUR4hAHJRHh6AQlFeHABSUV\
4yCyJRXjsrFe6kYGhDtJRSIwBRjyf4wnbncvxhI3HeXq8ISXLMzeeiUIzNx4SSpKVu5yTHr+tiVuaWPWxcytBJ3JK7naCDupUzGF0ngpWIbfk5+Yhd41zpa9Wox9xDvsvjWQlygGN+TR\
aQDw+BZxH97WMDKKljAzqxYyMnYWMDNi5jAz8WTxEnOBMy3hfTcvIvZmWYb6clkF9I00aOw4a0M8DOARwc8IlZnMyzG9nZZivZvE4SJYatgXJtSZ4gHj1epKGHRRp4hWRxkMHQSbk0Ch\
I+aOAAcdyhD1CC3P9wghX8L7s8e/DGIMe7Q9xTxaLjYX9fS4eBdVYKKKhkRCalpYspQV9V9OC4kVGFvGTKpkDcZIDTuuS4I1rH1avvUCDPI5WR5hJihipHn64G/oh58NVHCqfWBnzoPx\
P2xoiv1hE1aCIHhmOh1t24jj1YFB7G0/6ZVu/xKzitlGn46hayUm7iTBwCBJ94qgiiqUxlFPM2oLZG8D34leEsfpnScdAepizCzYlLgGp4HUC+hyvA0AoeH0BpRW4Pg70gtdHCi5dW4A\
k8NoEyMJrfaGerujrgtc8kRVMcUDbqGr4lBVjIzx5vOCLoNjvoMQsmgwwAerVbkosYzR6TFzDaPSYuIrR6GNXyGmLW6FU2BikwtAx9ltw0BDjRC6vgnXOD+uqLDvLcVtZsN7hM3GKi0j\
nmrJpLyE3hesesVKF/Vp/2ifkfx7b649tf1zbgXFt45lPZAGKKiXxiJzNnp4mhtsoiDoIDEc0k3tYcEOpF4VfHd26RwiqKCAPsfmN753PGz7g1p2+gBvxPJDEUT0pZD6RcRKXq1A2z7M\
PM9eeiYjm2ZBonu0v1rBoXotid8ZftsxCWhzKQOjKoP5SzLHXAuSWIFdNubzJ5E9C54LKkSld548fsKown3/AyuG16gEri9faLtK2UGNF7avPMduwJWd7rGoKVpiThTGXAjiQYhg8OAI\
DNSBU885MIQ9sj1xZTJb2aq1al2eKLnmybef1Q8C6iwGJEf46SO7m5A5I1nNyJyS3c7IeknlO7oJklpMNkExyshGSHid3Q1IdMvZQXEVXV0mKtdN9R99O3bkng8uaGP3V1PZ9HZeN5SD\
vDEHt0OIJeiA6SfF/yvfTApLT9w5y0bboK+9kY2EbGvxvWrqa7IqzFow+lxbr6ah1XLJEGbOXTN/NeoS1XToMyVpOHkIvoQco2YSGlgcpeR8kt/Fn+/GsaU4aWvOnJGDO1HES/Yx2cHI\
7enRyEjBn6jmZxTDxnKRFWE7iIlgjJXHlhm7dL6udkGxBO30VdCTMCFkNsBgz1UINMaIGPFYh5OJuAyVcxbMQkCromAV83WF6KObyTwJTckyOvM3QZdEGKsbT503Fh6JYFfWi6LSshwi\
mNGINeqKqZD/f2Os3wsUluaJgi1QpJGF0OKs1rrie7TG1Zs8TSDDWs8Xt8nEckQxvw6Oz8Aa882Sj0YdZbE0+goBEZTgVcdEVkeCwg14l+rILLy0DEnKCBPeKOJpmSysPv4I6o8vta3k\
N6olx2rwmvmgPc6uQ1uyTja9ykw7a1veU8q9BDtf4XuUI0qDDZmkwIFIpfrwoowBIxtQ0YvhnDulCsCX7GwsxUHAN/lD6QF0c95pQ5BdZKjIx9BG1UQ+H1pWc10oTrxSqZO0oh2tG0Bp\
c2ylShGkce7hMSOMQQHp/8FaSbi0Eb2Xp1ocrt6qIUmUJySEVPAG1FgGHM+SDbCNMxp2BRjIqbf0U0YS2BLxEECBM1V5vY0CeTSu1csgUWZPQZw5Yc23mXXudw3zuz2zmrvz8ZZH/mFw\
fkevjcu3fwk0+L1f1RTdybZJri7+myNYSntQQZBcXv5PiCcLxvPW0CNyf/TIMyxj+oKMtsujgPJm8Qg/1TAs+6KDvv9GQ9yggHOb/APIwp5Ycyf8u5NG24Er+9yEPs2/Jk3y6x/JoSTS\
GNqlYoZUdP5bsoHrN7blqR53u5zQxH3DDX7OHwN90ULrBtpKrugq9mgjaTuKlRY/D3buSn3PXQkH7KkI7LVY0saqJW5q4rokbmrjpMBwRS9j77MDGgyPWjaQsSoMAxsvUKyiAxVlxcNj\
NA3UKcvxIFxK8SwMPeqOvUhT+DQ8dK1RRkXjWqC50X0+JYBSSPRO+7KkSZoYEIMBSkjcs2BXREotZTgloSykB5GpKAFlQQOYVkNlUgTea3E5KO1aTIFpSF0Dz/VVObPxqQgFNSjHLeHB\
dnKLZFtj1ZSkp5V3FwOxxCczOlVPBHMVnOyMoCfJCnKP47GAo8OC6OMdGqueOByiucPS7n/QKbZS46hXaSQ/7Ka/QQYlPeIVOevRxr9BFiY95hW5KLHrFVnEpWEJjVJxNTw0MXIwc1Mj\
0tFucdMibDd12yJsNw+OQNxtGzSGPN9yyWCgwrjxya6Ntrvdwb3qC6huekMN1TxC77AnOr3naQR52EFEzt5X4qi+p66aehNA0g5XwtxDRQX9C5tyIhNA6ty0hBM+1J5jGOXctIaTPcCR\
4RJTupGdAtY7zmYL3cqPjhfu40fHCAW40Bt6K8wmCB7nR8cIhbnS8cJgfJQrN/ChROMKPEoWjjI9E4X5ejEwHNYkNaB6k5XYkcI+oHveJf0NYjqoeaw8zFF2H5HSO1omROovwK5TQs9I\
q7CuhXw7ImxJDthF+DRIA8DD8DpUw5iDHmsVTEO6D373wux9+R+F3BH7NGP0TfnV4Niz8quG3DX618MMJuQZ+eZQwMPo9xqlFroual0SX/p8OEy4Q7deJQGh3DcG6MifIFjWZGJgwHJk\
dxANIpgjZ2ybzBPeow5MF97PDMwb3vkPTRmsOhoGuvpq21zXEULcGFjLtlHr1VdPlBxIyneLzaCDdIemW114ttAg7prVbjp6PZNESZLyq6BZ9NRQy+zBTCBoK1tp2EV+OGBYO4t3D8kp\
lVZCWA+HOEbxz/3oG4Q1olkZIFg1hNWwDY1+0Iq8x86pzg646N8qq825Zdd4jq857ZdV5n6w6G1l1Lsiqc1FWne+RVeeErDo7suqcllXnnKw627LqnJFV55bAqjPTTtBee58uOx/QZec\
mXXY+qMvOh3TZ+bAuO9+ry87E7GxddybuZevCM7FMWxeeiWXauvBMLNPWhWdytNSFZ/LA1IVnomlbV57345qurDxf07VoXoI+qkvQ92+8BF2v68M7dcV4h64h1+mq8nZdZ67WledtuhZ\
dq6vTVbpeXaMr2Hld087SKvf622jJt8oLeaKh4KnumxbIecJj51RoABHBCYsIt5LCY1eTKgUlSdS43/6dpMzIX0nKjPzlpMzIv5WU6ftLSZmabyYL7Vk6+hMNZt3ww7Oau+DXCb8Ojcq\
Lvpol3kGfYM+tbkzKrbS8YksxoSLInzXBojkQK4nqaEhF0R0XBVCUNzaL9mhOpa2yHb32Q3jt7LUfwGtXj9WL17Yeqwev3T3Wcby240b+taI+z6MVNaAF73kk/qMP7fFCq1TyE57U8lF\
PqvkxT+r5UU8q+ognNS16yv4eodB4knmcouZJpr8bZj3NvEDxAyUzQKEFJXOGog6ycIV70PLHGtA2Tc9aimlc+n6Ooobjku8LvgaC4YpQA0ngL6qB4MOIBvLnW2ggfx7RQP4yooGgBuO\
htiP5v4c8aj/xioYSJ8pNIOV6hNaDrukXYS+vUSYQeL5TTLyM4TgxFgauWKMfAAUKIi3ZQvU4x74B8IE3U0QvRLz6DpXWGodKa41DpbXGoRJXeaAUTxek0dkZii1YqO5BYoZq9K7wAaW\
Csxl0GaBz94JL0uxQyUcZAnCVYwxjRNWWYkCNpHHQeFEHbs38u1pnx2WHHCZTLxdTvg6cjujAmZDJMtNf3IeykEmbfY00uvYFNh2m/Y3SNs2vz/MmFI57kUWbM3vXpdS7LqVROVMSlbP\
P5v1weIatnGOVKt2i1e7Akcf5f+fAFxh5E8MFOX025W7HyGRnCKoSh/ulwIlzcbSI8Bp2lhK3Y6CUcJ0wPlJ6KlNKT2VK6alMKdVvxa0yhWa4iqKZEvU+JQfzpMRzgz4DDYwcKhG2JVt\
bcgUuGFKiNCvLLoID/Xg2BQk6bSold+YxYdy+5Vcf5L9PNHY576GbqdInMP7QLf14Ub9ZSAXC1iP+JMhVn/Wm/H/QOFlQgN1jfYgr7LEWUvJuqrSQmun7mpX/jLyp52VXFdJ0nhAhNcm\
m0iJ3ddFTvpDWEPP7+qQW1A+NR+4y7HeoMOXfcYK9MRjCfQoaHuiOxzemTRZJPStrX9q0YGNx00cYcLjZBOgB4Cma+2wCy0mx4sK9v4rnm6dYX/EocQP9HlJ84nmOEtfQASLFR+zUUmI\
xDmprip0ktitd1Sld7aDELXR30AN3UzxV1lMCFONdXF4SNM0U68ONXF6ST9DB6XQPF5METZNIDeONqFwEdOPh1sk9+c87Kgrquerbg6JgbXCpJhdcqvGCDl/ZyjJXiiKMWiAlETFTBgQ\
oomjKgFSEZM0Ca2NwWYdk2gbJ1PvSLlH9NS8n+PUEidc9wS9oZVnak2GDLh3DkAeo6mFYNemqtHZVXrsqq11Vo13laVdt067KaVfVaVfValft1B7aq30GvVi66dGIBCoJIJr7a4f2V73\
2V7X21y5F+d4gyncGUV4XRPm2IMprgotofAR9Ct1Y859zVKjftUbcF2qSAMz/jKQtkCRchgBPrwE6vQbovUGgv6kjqwL03iDQ6TVAEyekwS9eOrS9CcYG8kjRtumErSrW/mndAR/UqiE\
8HRHt0TEQFS5L64vJsue+E8KrK+sZxaqZYsxkXwZJJIc/FOd8wQgl63REMMLdJ2lc+zFpEoyyeM2EBaPMGsEos0YwygQEI4+iVxTTJBglSDDCYgvon1cFiRmqMR0QjHCywXazYJTA2SI\
RFYwoBFjwfOccKzY2dqdDVqXKccVW3/e+ljeGVngDRwTjIi3NVEspFJ/szCddO315awdMPmsMgxmRTOM7ooqAVKR9iB45RTjok0GbESVujK47Iud12RSB+8I8vV9ED5E4dFTcX/xx+hs\
L5AQlK5Yo8EH/pZBUqLup/xzEKQbCn+FFn7isYMEtWfiJo9d8aNHHkyXYypqPJ+uzlSUfTxZv8Q6qEYU4LS16srJmmMYx9hcu/eBjdM4MLPrEK1975ADDiz58aGB40Se+3qJPLLDET0s\
+fVYf7llOPt+YecV1UhUH4q2dh/U0VTH9FwElqOcsa8idlw2qKtclm4JcClcJ30oL54Bz1EJjtGzDOEdk42iNubi+GEMlgtbhilmlZVIjaCWycsehO07gjkt3KmMGz5b2xPkYRzlSMi7\
vOQZPgYkBcmO0Qmt8pcU/i9rmYGXvwKATlTHDLhW4NQs+4THjkt+ftYEFIaYWhD5cF8fVPWI05Mrs+qMnlzG5zN86TqLSCZuPm2JWRg65b2QbaQGzMoSSOoRSoSEkMY5oCGVmZLmeRxA\
/8m8Cu3MNLpy5UWeHWMlB366KWqMfNrFyE8clSD7ERKRfDNZh2RinxKEIFdksOa9zQBXI2cEcxy7spZ5wdSk+Rl1Nu5njUA/gArsVUORi/7hh4o86k8d1f5x63sd94gcJDoj/P9q2exl\
PPJNAuJUjdoGEf/jzoMXbpf9s0R9ASAyJOIZETFZPJuBY6R8tVpFxsHrGpSV5/JjcMcizgAZs0SVStJAU17wpJIhHouKQxbZZAdoj4L0r9DL0qJCfcwXggj7MxK2+xQ/bmZ/e42y7nCR\
HeO+NOMKzr43NFqOd6zPk+AvUVt2HGyfvFurTneQN5gRDeHly6jZvlt0gBFysEteLojWYOKrFGIg8k2FnuEKSPSiEhFOVmovpGX+3L9JOPerFfgCwmB8ADM9/iwUCgCUCAcASxK2Jsrj\
k9AxMlBQATKJtBaNJ6SuBoF8JCvqV0qBfqXDQrySFCEz4Qb9iFPQrSx2SwqhkDvn8BYJ+JTjoV8oP+mUk8i+Oc9AJgcHEaOdyKhLzy9PzlD1Vzz1V2OHDPjQlXfck5leWkTh3pYjRxMJ\
FFrOhqF/1qqcS76X9vhSTE/nZrkgfMwmYDN3G/dBUYCFODke0lV/CgtXj0VgxPyxYLBgWzCevYg6FpmwgLBjTQZacqQLR34pVGhasHt1iomHBqogVNawJC1alYcFsmoYLVdBWDQu2m/b\
aR8OCNawXFqxKA5Hg96GwYBSZZBdGJqnPrn15dyUsWPTLt4U+jW9RT6iss6FPJSyYTXm/hPWqPNkIr0tYMHrZ3vp1965Lfxxfj4YFi60XFqzh9WLV2rBgVZGwYNlAWDAPI90nMe5Kflz\
8mOUUCYpkgJLa7iI5jGVDYcGya8OCxUJhweqDYcGyGu+pytSA2J2NhgWz7yIsWBUH86qiKAp7OCxYlfhm1XNYsCqM/VVF52djWLCqQFgwebQ2LNgeDgtWtTYsWNXWYcGqMnRUAC2QVED\
LrxsWrGpNWDDmOUFWQ0xGwoIh6n/Fo80qrdZ1D8SAWtuN1a5bo83Ov//JU0yGw4JlKSxYFcWdQCZSXznsHkN0ZdeEBWuQsGC0IiwZqFfCglWFw4LVY1gwGxTOtwcmN+Q9gVAZMT/yURW\
QN9QJl03CglENZg+GBaMBSaGFK0E4soGwYFVrwoJlKSBXTSYEDQCIR13HNggLliWOhWHB8pkID+UQmxgyKY1gV9pEkFVdofHLYcGyAE04LFhVoDQSU3X6C4YFy8LQ3MNhweioRPVCrXg\
DNVQdSm3wD4P8B/+5KTr50I6gvL4SbGoD1EuwqT0UdD/azKzfzCDyGdxosKl6uFcJNvUthCa9NTTJbx00qa2hSXzroEluDU08U5kl7co0SNMnEigd08VhwULjPL0mmExMApCuH0zmLfR\
ePcXiyYiQR2Fl6BYWgT25hUBmqUCWIUZ508PNfADEFz3az3DE+k2PNgU2AX8lHkrMtFHYJO0OPAJcFWPqsEBm5Di6FLniN/iu+CRKq9CWhGya9wfsqcQYqtcYQwy8E+Y8EgM3EF8IWBG\
1dQ8Lk2HWFulPiS+Er9vKG9gpm7vT6HyMD3Ey2IuzK8UZyl4B1hyMK1TvxxWiDUOA+PwABy0glZBCC3HYAlIAKLRQPBpaKAmdNU0Q+aGFNqGG+i2pgUILBWggI9K0LB9raCESd/lmJbS\
QdEvmDQjT5NhPRxZO9/1GCmXzPcjcCTWFBha1WXVR5duxbNuh4Jgo6wOrrjd7OVyP3sJQQmTzc8lRfwfaNOp7rDq8NvZY2/Hq9FroSm529lp5vDZ0WVm87sK9Ey7jeSP7U0LtT2x9Yu9\
dD4/WIHPhwmGn+nKaPI5rXy5m9vNMlBFXgYy4CmTEuzgjbgIZ2rnYJPnH5foC3k+hq0LSd/lGe16MczHMVeE7mdKdGnI7qKSPQeLYTKEaRklDRfhHO5estrp+KlO6mQk64VI+aDsAXe1\
9uBPg+7OkpIIWi/sr5rMFeBeI691ZoG9MzGVhcOOj2Syo6Ji4jTubMHErQ1g46K5mcDMLjLE/zMDowMTvZwr76POvZQqGEr+XKRQo8buZQpESKxlgEpi4mSncA4lO+/uyhRoAacUiy/I\
CQFZaFdt/DaDLvPYqRfbDfT8mCwIyhq+ndQ1o5ywv8QKykg/Zn0L3/p9F0wV8NfegbQny511JzGliVhO3HUmsaGJVE7c0cV0TNzRxExOGz2KCxO4e66cpsacHfYgydLTBVUrY3e4iJbJ\
0mkeG97MM0HFOkjlDhzxJZoKOe5TMJTrtUTKzNp32KLk5DHfu5zA0+y1s/GyacYhr1UuCw0zptjuDN92ZfN8Woe+xX267REiIYLx4gWVv2uEUNLsZF5f16SuHT4bNS+TqIsbekvBwhT7\
2c0Ria7WgsKqY4ya9mKhe+Pl/d3lXF4aQDX2GM4EjFPOPrhDT/3CJvO63v+4Swd1vz3oYPC3DW+iYqK+nhWCX00LCS2kic9onyiS8kKadGIRDWm0hTKeDS0K6PkRmLisYasOWUBvYZHT\
nTAp/gPIz/XLYU4ZDGtVyp7mFbVyDW9iuxJWRxDVNLGPCeL02PaLWLaQo7qP1prN8xdMTaOtM38jbirvNbrPnycbi7r5tY3AHJsE++8nGMWDl9NJY0UCyuKfX/iUqD17mjwtj8AlG225\
8orHX/hXQR0xhjIY/ExJQYibAhZYoyolpQH1wj2wZqzMSBr2wA0WLdW7juM7MkBeshUxS+ZO4ZjB/ImLL/5QjbCGH43sFd/zv9EkP5wLsqNJ1en+J/sI7BtTNy2a72Zb/VfWQ4KeeHl/\
1S+xDYU9hXDpiW9VCIDercT8QbfAXAlmuLjiUuFatPVmNvAlXXquFmuarC/Xcm9XE/oAzVtEKJPHGKiWiFfWCzgdXEO2gK2hozTTGWxwD5OXyQR1ItzUC6GKN1L1QI4DO1cAMTSRVI4D\
eyvskfTtfpGLzyFspHGoSw3JoLDu8Zskp7AW6SQ5JpccpHQSRdyDjChdZPdH+GxPbtoaryQcdbHcF95jycmnDiVyGFvyKltnxllw6a2Us3nOrY/tdOrZf0bH9qo7t11yODY/cwaXXWy0\
YSnkdXEnhF0WfZ8jLMRInlKtkoq/h2E0yhueSOsslBLG3EkIBKwlB7M2EUMD1hPTCckL4yVJCeuFqQnpqIVHYrowl4TOWRBAz2yVjvVEC8bl+SuYmrjElExRTSkpmKaDulFJ3ShpwNSV\
wX0vRBtHrzkz+q45WaAUrtH0ivKlc9Lpy0WXlosBXXeWrtvJVZ2O+agdpPevTeojJmmSFl9IKJG2lxr3FSV5Bj4legLFHPZYJgrwBOIrZEeUNAhKwUwLB83e+Ai+pmcHtehazFUzmmTv\
RJj6kFFfak4KhgKagLG+ijflmBTxxArlUH2qeIqxPA0fe9vbcmnUGYMJZsp7nxfssL95olh8hk/MicOjksKKJVU3cyghtgT4gmkAxRpbp3bxAdT8dMVFh5CtBOXOlxscbNLsvxgpa/st\
yNl9FMCCsfPVHPm+V0vlfVla75/VCDSgiu19/DdBw586dL9zZS5pHUp0Br82aV/ig32AtntmjNXhMUilT80IupVSKMCW1Exvg5a/w1JBEE6ojEkNK9AjXtTxXZozSHwcBxLMYvUyoZrd\
SM1PsEtWcpBZqbb/jnMgpHfzvi5/HQzyDBYIYXtBhtAu0HOM8AqSxyxi2ENblnyzWl6xnc7apR8MgT7a70enRgsm3nm+cLRZN0ex+EuZfPG5sl6kje249miVwf6nzBH5P23CNKfS9421\
FDrPNPNfQEV80k9tvP+kD+xEENqfd40VavjuAcyL3d34SgwtLUwR8AL4GLbb1V0A4sOTkAqipRsEGEYDAroEmNvL4yf9muNyvYyd40Pr1Hv7Jpz6Dh8hFeghn8l1QZgWCUP2mUn/BAEK\
0fmjTb/tHawqfwim4Cs0yXGoNICk23bfy8Ntfn4GCkzS7fc8VKBBNlL+tZ1DGlYL+GoFP+fCRNZyKrfFn9hqfJ2JdGQweJUvmck0GBtjNTEBsAXYSHWIiA5W+iH23TfuOiJzuS2zn3fk\
v+gturHv157KEO1bEYir2MK/OFGXyyoj8A9Mm8NYEOc6YBgA6mfHLSaNlRZuTUjziE3npJu3aSmRCisJBOuiRHERp9RWG/1dl+Ls6/Bcrw3/taLZwNHsyowOh++PZc9xMaDjmXHyLt5v\
JffRCtYSkPouoy/pdFmeSQpHye23oQXnrV/GtRKVjcZ3II5mQHv8UPk5BwV9UknD10b/FRxn/S2dLkohnKiIgUgdLuY7cLPI0uloln0pXrdbk/6sTKlm3i1YEy5hUQ1Kyp9p4uO9XtO9\
Xw31vad9TbM6GHIl0GHCYThTNMMjLqttfU93+Z1W3/xnV7T+tuv2nVLf/adXtlzKkvO2m6ZmjqRCMKahl21sFWQspmJOTuEpQtGmRao/6nXPw4Zixie/txhLg53FEIJ7nbUXIckaRv5S\
RDVRY9T3idJeX0572iqSwR6QFX/jD0nzvwO1+980lRTm4rWLfLRX7VlTsu6li33UV+5ZV7ANBcLsKgo4Kgts2FgSdoG/iXUqFyUrgsIAguBISBFdDguAtXxBM6hRr6QzmqiCIVqEVFQT\
toFCWrAhlUQXbVUHQVkHQUUHQUkGwZmNB0FoTwWetBuSzm6t+j7MceA+61QIp30OW1wzGPyz6mwYbeNOgKeiGwldlgqPtg/sC2wf3vo47B4FA8/m2ys7RPt6FmZUtSTG1Kic5SuAeWdp\
q1OcZIfu82AEsobGC0FwDBa16nV6m57xjyg6S50afq+KyLyN2ru/LigUvYOfCowC/RC809lgkLuKdr2TEUDWfFUPVu7NiqJrLiqFqNiuGqtsZMVSRSInB4kjIxCNL/pAS+3rt36eE6bG\
+RolCj/V7lCj2WL9LiYYea0V6g9leNR9QaarQ48TkTMqk8w+xMq/bXDKy0SfDU6P/8HF9yMHjgafXcuDwX613cuxMNF/1cjG735KDmx+Xa79cJ+Q6gKsBCT5LlcMWZDXCQZb23MzqedL\
H5Noi1ya5GrnWyzXPJ0n/66oZPciV02f08GktcEkTVzWxqIkFTczTnge0qaXYKhwMWRLnA18LqcDsGzT9coAJO/NGGwBi7K6A74uqUntp7aS0bEfNxt/vyPm0BVtOrS1Q2JR40N5MeTr\
2+H2VI3fjcoo9H7kbJwun5HBX/E0/h7viV/wc7opf9XO4K/6WS0s6fwGsnhJ/FqdTr49YfxqnZZkj1p/EQdXBxB/HccEGwx3EgUdjYiUO8xfAx/6ai4mKlRmdq6Ohk4xHW3c83rrDG6Z\
MTCQwOvgHcJTjeBYc3wLgbOi1fxFPFTeNvfbnKQED7nOUgAH3WUrs7bE+Q4ldPday55/669ICnB7769K6nJ77C7mbfg6PiV3xKodGyxHojGmXz0Ev3eaQL9hW35TOXQNQe7hm75p9+RU\
M/nMrPiMdCpiqHEu+Eqejfw1H5szKcRQUr1MySYriKZk8xfaUTD1FdZSMoViPkmmiCJCSaaG4kFmeJPgchbm0wDKPEwlAnOZ2xGdoORXmJ2kLbQO9Rg23ae8kH9F+1eNuwQ5O49+r3gy\
v5+V/39EZ1vbPp76VlepWsoUqxnVWILmeLVTz+deZAhP+AkpEBFsGJIMsx3GrZZrGYG1ZjuO2nQtMF+q4KzFGYZYny5189HOaQrPRmdvpoL1lZ3CSrwtGhN4WFAxINKwNyg95OZz5dlJ\
m71BwNzsYkoFqzemxzos5+fJGjongiPWZHJI2LuHmCh4llnOFGPIE60rBA2kslgkQwG03QACzXoAA5rwAAcx7AQJY8AIEsIinCd1v44DGKy4ko/CHpwvg1YHRzMLgXrpahV1y+sw6w08\
2Bgrb9f55QH7jA3JOB+QCDchNxiHNbFuMuoow+c+j7v+noy6jFL3oFW2Rbrh/vKIKOdxNXtEVWYcpySs6IvJwp7kqO9FJIyyPGIflEzw5vkmIvEV4+zGedXPoDeAZQ0cy4O6SVVbK24Q\
Gib4lxHRWQ0xnNcR0VkNMZ4VG9+X/zAFJNCueu3gqehsU+tdkBMi3kdbpZoLD+FhwhLcEB39TkC+YIMuoD3KTPLqlehlhS38RF7b0Z3FhS38aF7b0J3FhS38cF7a0GteCoMNv+Rno8Nt\
+Bjp8NqEZ6PA5PwMdPu9njtGJgJDxSBsC1hUXRpTKf9Qh0rsVp+Usj81TfV6fa3bRElryZCMf7MFQMedhRqVMKXulyarpsj7mZ7Z3WZ9IBwBeSgcAvpYOALycDgB8PR0AGDkU9lr+OOE\
PGQvGOaCD1XImbTKgT3gyzPp1lD3CEUn9U+bx3iV9eEZG4HwV6hNe5v39zgGOLbe86+Vi1X70fpyzg9NLFZvhbUmsaGLWkcQtvIMeHqv6aE4fLWAC9ap5SlSVru3CxVU7kLltbybZUzH\
Wh/CDvmSPtUA12KQ3VNFm6jmpE0/04sTHNPHTmvg5TXxGE9dpr1xVadFZR9av4uOPbEosOgVCSV1Q1qe8yvr41nIdcG9MXKsDpo2JpTr8Dkuq05LqgI1jYqEO2HgVcJ8P1hU6KfH+ukI\
XecW/r67QTYkfqCsco8R76wrHKTFfV+ihxFxdoRedQtGVqqp0vS4ozQMaezH4k01eRXFqpDq9UcL6sidds6yJ65q4oYmrmljSBAgXUBWfB79kC1lgcV+Tcp0VTGAs8qsJTOTpHM4q4mc\
LlLBpLFZRAPY5StTSuK2iCCJfj2Oiq9f+R0p091j/QIljPdZ/p8TxHuvvKdHTY91G3+vbMCMfIxQgJnzRgoGYiwkQszEB4rYnQNzyBIhVSlDvOXREouQwbtOCn8PATYt+DiM3XfVzGAt\
qyc9hLKhrfg5jQS3HGGvwd9Wjv4mZ/J8BNZS+FJsRgrkVEzpZjQmdrMSYTqxfixGdHLFuxAqdG/qt4AvX8dTEKo5xto1Lw53QVbzHug4dmvlIgsVg3/1DSvrudkpHsiZWNXFNE8uauK6\
JG5q4qYkVLXBJEtan9c5VvfNxfXlREwspooEeazHDVGF9JCNdtJSRTruWkW5cpkQ1sFcX2KufgYI/lmGmcjtGR9m57GBS5YsON2i8Z5RooFvYd/WmpYRDrctq6zSxoolVTdzWxGxO26K\
JBU3M56Th17LS8F/IKnL0zqezATa4HMzcDGZuBTNzVMFvvPc9r8/92m/9yH4K1k+PCjtYT6fIbzvNDoq2tktCDNkYTgjuNcCvkXf3VRT+3SZOCn9cFH7gMqWrIJ/twaGVRf959IN9Hfd\
29y3+H3H++0Tj6yC3VZVWamcKBeaHuFpchOSNPGG2cA+kfzeP8fj4nv1q4V5M1s0U7oPrR+DaANf3wnUXXG9toxIOQPJm/QwfZkItKzYWmkwjtWen+wgXRrTsBmj5l/OC3et5fIP1oxU\
n+Ib2yHVNLEvC+pz22jVNLOUCPF/qQQgDsVSE9uuVTDSxqolb9dwUsxs0gD90aKDerM8Rx+NDoty5XZoBAp31M0hjlf0UQNKAj39E+czJ/6kunQmVamXXNbGsiWuaWEI4blvIf5YAmp1\
m30zxYP5BLpd4xCX6O2tr6Y6Jn6CtZlz1h3Adzo5WvbRLZwtNLGpiQRPz2LGrVPX8rhnTg6Jnpdoz9HdCCsbVJboxt6v/RC6NLtKSg0xKM8IsZ3fJXHq7Hrkmdg2P7vwnGdG3tuHeP6s\
/l+JjalOBshO4AshT+AFTZ7aDClqDtJ//XUcN82wo0emhrngI8JmnjRnEbIjKOOMK7ZkGfrLsZ+DJ5/I6dXfp1M3T+wLP/AetD7EsQGJCjQoOtooSlj8n1RVhVltS2jb3+YooQNx9gvY\
pXcvTnFJayqMDB4xduLrom3YvltEEMKOLN2cA5i7LNfv5yTI94QzAjE+qKJzXjbxw5C/lhUffzOsMi9AawMtsjc6weZ1h8zrD5s09VwRkX3G+O6KBMZ4/STgieXK7clxN3N6mo2yb3/3\
4zQnp/VyM+3u7oHd2u8y3t7eRgEZV12nVmpjXxFyd8LRPfRBoP67Dd64u55lO8kA49nrJfY0mmsWlxwqHaZaZgxSJtkUe3jQWKZOU8UgZGpPRWZzGJhQTGGZ4qy+dX+UbMXqvup/FO5u\
DVNnkgJE3vAe/L43bNavpPFMJXl2NLv58vmnGryaP7+AP423PYOJlfxDy+Fquh3oyuCeUc4VmJsn6whEm0no6K7C2Yg0QSaJeZYt6GfMkQ7FMcnNb/vOMx/ldOY+pflfhfhaOdxVaWDj\
eVWhFRDUr+o4o6o4SK9vDbcj/OQvonGMy4FMgDvtjJltsk77Fg3iob5lWsH8B+sP9xeO4hxFD2M8Z+3+D3uyrv1DshDud6Eda7JqG4Wqbw+j21/4Kbxx8pdiBJwqgN7/Jl+KvzRRrTVd\
+Z7ETUVeLUSRsmqSQu0A5Z3gfKJ6wUp3/CwfIEshn39tM59uLnbT0XAtDLmu6cQ8FlAe90f5KMW86eF2a8UBEj3ggokc8QGv3cFMCeKCG0XxkIu3mFmL7iP3wtCRIYAx0r2n4cW52s7H\
9hh/9pzQ8vn7Dj1ca3owNPyq+lSURirNFZoY3skWiWaRY0/YyZCD7fKM8XczpU3a5IMEl/5fqfhOgDLLB1fusfXa7Yop5g08m+OI25gM4sHM0y6zATFZvuJj5XNEy3fn9UC1vQaG7A7S\
DEodMttioVFhTqr9MR1hTUXV8ogUXUseHCopaiDFHaaBki00svEOrSy34cSnhH4JAG0LQU4D2zQaOJsRYo3m8tmIQU5uClhq83o9BTm1Spkjn4Q0wJKIK+qCrRYo1NfSQ5GBTTemVLO3\
jYrbAk3GTEbhC53IDbdyPHKFVOAJ/4AnHkPDHgU8VPoFb26HtY3gr7cTTeqxAe/DUnppKe30UkVKEfduvWhEfKQkzu8sxZjkC7Xrv3I+hvVoltFczug0dZQegClv00K+limfO2/UiT9L\
U+Q/1ImYCSrfJLD6/rXCIO36byC63a4Wb3qyRKf96TeEol18js9RSjTDaqzViT1ioEU45X6NTWk3hIBeYF9JezRdapWEreW3YDXVQPux3jXLug0E/7fuDUXqPBG2/RwkzBTb1knjUHDT\
1+qdzYrXb/Gq3VUQoEDdyvrqDkkhOtCDKLWVFS6I3P50lVWknTmE7jaFJTMbvTn/8Cm9AvYGN6WS0sf5TlpAO+nCWxSs0rzf4QPxmVnReyv1aVhRfOsCNEjtF8WX05kT7FQ4gKrAMftG\
DuWtyogzLYBKNmPsvJ2ox1fkLWVGJqeHXsqIpY7Thd6dFwppLC+OepUQDHQtYRYbiRUrsIrsuw72UFrivpX0iTHVZ70/7BAq596Z9g0WKjqhTY0aKzqlTQ0eK1kB08kyR8VEl4BTZJSV\
3LUUmyyoabbMZlcjSKpH5oHwaKn/VHytLkHunvr2giXlNzGUiZg1ciylSpOpi6Qtf+6trH/7+L3zNfj6HjPgGMOJi6bp1mUNn47v9fGSxDffrL5vGmdKZGTwKHFiNaZgp9dO5MSTR1c/\
IOHyhuKPgmmKh2sWoR9ZbcmReqsHDv3RSwExS54QaCgiCU4J1hQ+C5dAtfEisnEtq0+fAziRdj6xJ0gbZnaSbkIWxKiuaJplbUUB2r8iDyh1cegJYa7hRNjcHI/QA4VfjNF3NmxKCdEI\
4Bel/hynm/5qMAKozpmXtBy8wkbNDeD0eUEOabQbupi4XbLW9CImI6Tanh06V6p7jmdZCb/Niycr/LQt3jxe6pP8egVm5+AyFieg0XdQ/jsDDjm2d3IsYU+dZ6tgWNMdKnzY5LdKlQnf\
HirVAoqRcFAGsPHxszxXyAIEoSgJiXgBcttCYXG3y6H4H1Zpi39eBmF4CSpk+K/rC3zksSNeoXlJ3N8oBFf9O8xzGMcM99xRjqMZAD80ASCAYwH+XTfH5YmdjEedTg/GcII2n2GagG5c\
t+vN8YwFFdJDHLfxRzOJqg7drqFz8B68WZzn8EDx6KxoCMYG475JDuneYasAoIbm6UKOqLfUJANXZZ1H13N7/IQJ4HQeR2SEyCYKMyLEiyMnQwh8WjVYjLNJmfS7//3CFRRw4pGK8A7X\
OBhpxNMJKq+kZCuHvmh0yF15PF/fD5AXNQ0lRBwseClilowiP9KzS4YUneh6W+kDOrQ5+kw9+kw9+wxky7tGNpTq+cUzyVyXfIvlFyTdJfkHyRvLzkq+f8RlAFbwMkuBOg51SjbL1FZA\
Ea5lM6YDyGmG4xAskczOPTEIyN/LCPSqinxUUCiWzWCcMhG0EwkHYToAsxApKlVVXKFIVmgqYd6OenhZLOA9jx7gzJNQBj7CJrdgY5WIGuqUGWWMNjL8W7L88dyjuEyuaamIuuDpsOnE\
MA9cB1kMTM0xcBZW4ljI6+y9mAkLBdf/2teDtFf/2jeDt2/7t1eDt+azenuVzDKtK7wUCs+XxVf/xQlYFD5uNMF/zNKPLFOS2WSskKbLTzbTIF/MpodbZlIhey0k1zSTRmMkROHnWWUi\
iTZOPhGHJbTZZOKQtSfgtSQSFq0NBp9d7g5LWfgK9eIVGuR1Urmk+/Zon6zfEHVc8Wdah3E149t46NsVY767TT74Mt99fp6JFnRAY2mmJagpqj6GFGGJuieDaXNxQLCC02t2wZ/g2cPq\
2rMj3gL79GcWfrai1eMEh/3WHE0BY+Tu+8FgfFB73B7r4W0w+iym2ly2k2NR8NcW7nWr74gVQg/1Z7Kqep1IjXqtWNpcJZTGaA622diFvI5Zn0bGDIhCpwWlVEyuauKkJ5FoYNokYL7B\
RFxUkUKzyf+aoETjOxhQWfk3QToRLYV94X8RISx/QoW0Y48N9jc5gXFx6jA7Lm1t6LFrA19HAjFsuUNBxcYJK8knRn7VhGivFYDLpbNyiVlrFlW08FPKJDvzDzZbV8sGP/sxnAh/Yb2j\
WpcglMrtVswFbcJKkv/lAsetAR7OU4bA51cLP3YpYtKq2/xVN3NQECz2mCyfb6tLX78g/EC8c3+BRLWfOq53Q0jVfmTDJ0Myjr7hfmH7+Dxz54EZOiTanqOJRlSsyf1nJQTN48ve5Bls\
iYRLGmPw0kpA7k3pKBw7tF41bJnz3ZM5VsgBwfas7juVOCUEcfUxL8ITLnw/iEt3OVUb3mdzteNB7qE4ZV1EWlo0uNaNug4vP6P1FLIJUmmueCK+05oxqD65Coz8Vs45an3Xg4nYpjrE\
h2YPpsOxFrxYnckvGZQ2NZVwFr87o5IYHYsLoxMmtmPdlZmwF95M9I00pMsefTeTbmFHVrGmc8rNGNHwR5ef9vcS2biQmOsNDSyqhIzP+CTyNQaeqBnpx05JaVOz3jxSMBjSvYKmPApM\
Qjph7OUEUoTR3mOMyh55lgrhDRpbNZgRF8ymZ82Be3KnzYl7nxXqdFx2dFw/rvFjUebFx43lxLToOB20ToQORdyplySowz4i8CgzTIJIH1xhXk3+skNcFoCXelB0yXIetNUW11rhqrdm\
p1ppqtdbUq7Umr9aaw2qtqVVrTaNaa5yNTTKhTSBOUDaoDSIkH0RIdWVreSHgfbczOKsWZVsQTWM4a+dkaSgnS0NwdTcw2WDvZ2Up7nZ9xbbPi1m0bpoPKEzXdAZbygcrXG8tSonL4iD\
gKK1yD7JlyOUeXMryca44TIVXszkXWMVe4AVichHUz+V8/M7mfFteNog4JyhCfTpoAyLTE9uAXLUBVaMN6H+OQHJLBJJVEUhuo0DiS7d2JiLeukHx1vXFWz1q2WHkRflxeCDX60B2dCA\
f1oFc1IHcqAN5pw7kho0H8s4gN9p4VAfiI2wm2/KxZ6xpRKTc2ruQcmtVykUNNo5HI7fMgWyNhz3DtQuPd57DJRE6qrdwDAOFw/U4ILPQkxFiuG6L/rRsyyR2zRbDyJIt65xXbXFnWrT\
FnemHbXFn+rAt7kw/ZIs70w/a4s5ETm3ozkRObcYRpzYTR6e2jC9xz9Hf2/ZM/sdo7g1GUcIdRbg3CPMZzGdNLv8QiQlEkbZPkXZQYNCp2/GnblnvLi3vQq/Azsyr253ayzZ6Bd6KvVx\
M7rckrvxVRxJLmrihiWVM4Di6pnduamKVHsVpp15SXQY5cVsTs/poThPzmligRJL8CyGxcOdz7IYI6Sw5JkLi+q/jzRt68zolrl7Bm8u2fH6Nj5qd/xy77UI6Tn0HiZvv+hxvT4J0hrY\
nQWL2q5/lHUpJOqJpjhLL//dn+dBXLvMSQfQzn6UdV5B0cR8Ufvvxz9LmK67kBbzefv9naX8Wl/Y4Afiuz1IALUg66GcL15W//wy5APNbTVTlH32GdjFBMoeetVj8Zz5DO7GSuA9uNYb\
6vBPIXFfUYcwI7jhNLGnimiaWNXFdE7f089uamNVHc5qY18SCG4rklQr5FqUBouvOTCET2sH1zlk+1jnQu8H+9inApwmfSm7ZGAmscs7BbR9kTay6iAQ36tb5hyycJ3FblEt1o0N2waH\
ELZd3I2qhntavd2Y9Ci8v9Rlb6+NIVDIQNHFTEytuoEtuQRGlGwAXQZf/A1uguQG86STt/110ZkqvfASUsP8znW+jfZPxDH/N4f6ITtDvmiPYQD1keEnSCa8GA+rD27dAXp510UaT5HN\
es9xUj/zoTQwkR4+iZBhabIuRuYAO48L4+sUYtz4EaBDMjFRXsLR8DPiBAfeiDUDDwVtycY6pyx/15/QrjnJyhXKLrrADyl11pbcpt+QKEVDumiu0QbllV0iGcuhmvuDgTuism9Ew3Sj\
5Mk54y4icWg467R9xq255rKYm2e0yx3jFw7YwcSMG0zEVDgIk14mumQQKumYm+UTebQx4rLCd2xMr1FFiIVbYQYn5GJEWncjrCBlilxR3CmKK2dJvfQDUKy//DzYK61c+8XkMc2hoy0/\
pDzh3L27mI0mP1OujAHfpC/xoLzzaabKl2R9Yxn3+aXwJst+L2aSf/df+U/qOyqUHH8QHsXy62IBedntL9xpI7MpIj0oUBsfE8u90ZUGdn1z7OAYfwFAz0Sef5ycYfyby5AY/qQWpN/L\
kK/wkD7pn5MkqP6k3u6JP/oaelGaxOQeiDwXwKpgS+QnquF5G2EMSt+niyQ8/7AhXQFLgkbXqSReueNKFNz3qZhgHGOczySdD7WKa8JQmPKGAJQwTSjShw2/RK3BfL3hCCvN47m8ITiI\
Fj+nE07a48s73vY5bPoKd4Er8cwrwVWEgEvmrjVgk3fnZ1ykuTBtnzTazA9PMcZW/zcWiHM/ngci3ZAzV5R+UMtmwQrAy4Ekf+VrtBxhioK9oWxb5Sb3ZHn3ycX5SU+loXLVH9kJGjYB\
nXqa0jO8eAkbpwJD3MmHHPWEKC65ML4zyEMOYCzGT2RCjwRN/K0wIPblh3knhSnKSNKG/Isbe0GOFZwF89Deu/5mt0wUVaessQtU5tGFJQXFox5KC6dCWJW2CQ3uWmGYzvJ+cd9TbouU\
3CMZNAx5OYzyQCeMmIfvMiRwdZbyLTmSnOZG2//i6I9HObsV4r/l/sx0XpEA+iMPgCS14soxTwhjk7vPAR4D9l24tfZ7P2HA5XJQt7mevFb3SxIxxcMmLaNWlcMRUm+s7vaIl4mHr9UK\
MKynd+BR0a/VMaeKVkoUgfeqxooOiBPzFIyhhssm/VozRESom9jKGMphB4f0R6/UG40FB8Pj5HMYXoBNL4XOoCOdrPJajREooLpm4pWWA2uAxJcV4I8eeMvHX8bUvOnb8cskusLudBxh\
18TQdatbETDGBjXgNU4gAg2f+OHMIjl1IIrPGcimMQczEg3jy1sETnpJZ9F4rphBP8Qie4oKneBhPckzPengSSPHMJdekEU901IxrUhE8uWE8uYwnPuPVyvBRSEnV2FDcqZysY5cuzeC\
5nRhE132tiKDeWHqMw/9glAHIlGjLHpSbFLzGsNQjtn0ZhjJ+bSH2LC3CrhRhk3oFmcyv2LZ3md0b4fUAGh1GI3qa4VwO5Gez4IInNCEaLR+NNOMXxYaGUW+DaPS48PXQSCIj/HURjR6\
i0WM0eneFRovkRIy7Sy5xgLI32Pb7aFXQM/CNY9zLtEE2/1F3RrDpwgMs/+fxiBzQz1peLjowWB36vkmo3eAVR1hT/sddShhIXEblwX/wE4EHlKqHWxR+d+23PyGv5OEWAaJFFCz/DTR\
N0iuQ5O+SmPRwRZi2mgHo0M7LMzOZDB6mxk6FmQSmzVwm87klz7b6cME7c23Js/SfLb/IP9sJ/3P9f44duRH9R0+3eG79f+XfJxN5unqRfBA9+O/Tct+V/OuS15bo9Wcj73088p7e/7n\
Ie1cjeYXn/9rivZhc/0Pk/hXJK/xxuX428t5HI/mEXP/jFu8l5Xp9i/dScv3lCJ6j8KXl+p8j30f7IyPXX9+ivVm5flHuxzcoLyfXL8t9xeePRcqrkutKpN7oe9Vy/VrkvY9E6ECh+MM\
t3quR6x9H8Bett1aufx55bzHy3ja5/tUW7d0u17+NlPfDEfjq5PrfI+X9UKRdO+R6Z4vyduo4SYb7LfpevdJXcvPydmk/R8qLwteg+JH3Ehu816jvR8r7wQj+dsvVbNGOPXK9T95LbvD\
eXrke3eK9fXLt2qJeI9cHkuF+i75XkGtfBC/R94pyfXyL8u6R65sj8C1E3tsv12cj7/2bCJ7vleu/isAXLe8+uQ5E8Bd974Bcz2zxXpNcJyL1vi9C3wflejHy3nyErvADF/96Ll7dGLV\
YJ0r7zODo9OjwyLnxC4PDw1PnT73t3MSp8ttPjZVPjU4PDY6OTpanpydfKo8Nw9/pM5PjF8fPw/tTU9NTU+XRF0fGpifxNzwxWT49cer86NmJwcnJieEyZgcHBycGLw6OTPPfkYkXxye\
HyhMTZwan4O/g5PRIeQpfH7lQHp44P4YfTpcnz+Gj8tj0xOT4OECAXw5NlqfK00OnJsfPlseGqKyx00N+CXhD3pwGPsD/9t/Zd6eQw1T+TvFOI1ydO/E7d2qqILXjzs47d7bhiUX4vOG\
eg3es7B3bq4ZMbFfTHQPX+t0pKqYOfmn4ZbjUWik9Cb/t995xMb33AN+7j/7uOUrtmzx6ClsGV0BaeXD46FB5dFQahs/HyhfKk+fHpkdGx8cGhy8Mjg2VB4emR8bHQHHzYvFEMpXOZHO\
Wn7Ps4D9rsvzi+anysJk6M37RtHZ1d3e3tXalz5XPjU++lEaUjKWx1vTFyZHpcjr8dgv9828OTw5eNG14x781OHXOGM2MnBs8XfZzo+ODw35mauhMefj8aNnA160tbS3tLR0tnS1dLd0\
tx1qOt7a0tra2tba3drR2tna1drceaz3e1tLW2tbW1t7W0dbZ1tXW3Xas7Xh7S3tre1t7e3tHe2d7V3t3+7H24x0tHa0dbR3tHR0dnR1dHd0dxzqOd7Z0tna2dbZ3dnR2dnZ1dnce6zz\
e1dLV2tXW1d7V0dXZ1dXV3XWs63h3S3drd1t3e3dHd2c3YuZY9/FjLcdaj7Udaz/WcazzWNex7mPHjh0/DiAeh+qPQ9HH4bPjcMsAfRvDPWYMd6Qx0pPmKHSYGRkeLacN0lraPGjM4VP\
myClzeAJvj5990MDooIc0VAz0NvbyxZGx4aHB6aEzZnikDDcBjSPnoIAjZmx8rJyemh6cLhsYa1PT54fOjsJwmDatgOTTU6aFLlDEFBU41YNlA/UMl4ehqOEeA98OnaVaHzWPmz7zwsQ\
p05o2LemhsfFpM2imJweHyoZqOHSpv/TtrfBrmxo8V04Pj7z4YnlyygxOmxcHz49OGwbmFJY3Nm7OjExNIzGdAlycNQ+nh0bLg5PI2xFQQ5AaBNUwHAimUL6ZMPcw7qBIJHNDdG50RJh\
TMibMtJmchnoM/C+QNptBwM70mbKB4X96cvCcGRo/V54yL45MTk33moEL56fPnB4cNUNnxkeG4P5zz/Q9esLMGL2PPXTyiadOmCMDZmJ08CUoe3pK3/brGhOiHhxFMF7qMc8+86gAUb4\
0zTD4VY0CIqjMAUOjacoAmqio0fHxs/B35CyU5I+Fno2gp09eHBnFaqcAv4NToa8GFPQK4M1mgEYs38Uk3gUsDJdPnT89wGBiHwwAnsuCNmCKZvDUOHTMANLrAP+l1gGrKZuRMULJ6Mh\
YANn+QIbXTpVHoU6k4DK9BTemL5bLYwCttgo/w0KCn3E9zebiyPQZeHV4/BstAACcOoc0NgozDxDoICLxHIwkKOf0yNgU1zDQO7C2DwBxYxviv4Js8+L46Cgic5Dh05q55YHP5Tl2FaJ\
udBDe6DETMNjwpXH4MwkPtJjxF6lN4xfH8I1BcwqgOQuFnhkRLA+NQw8A0qewjQPnBkcAWJwkzWSLmRgY5PKpKxG0dd4e6IGBqcXCZFquFIu1Swn/lBoCb98zAGKBmWw1rQPY5ClgSTD\
Tj8Mdn27gKxAa8HX8H95DEQKQYPC1FoQN+mt68jxNbGZEOqKZP8XHwDVgdCEWGXcwzwMn8kEiAFpM58BY+eLhw8xdYKRU+EzbgBkuD43CtIrtkdtQVpsR4SA99NLQ6MiQz3n4imX4tyK\
F6P1QKcyv8DPhXINjYwYRFvpUudqZQZ9WISVdlwbkAbWOnTanxseBl46ZC8BPQYAaBJLyv0VSCyJmCtuP2OyOIqV9ABgBSRXmUggKukUwDFICy4WRdgYepwenx8+NDAEk5dOMBXp56vy\
5gZ61b0OPpKfK5wYnziClDY0DFx8G4h6liYz/njsPDBNaBXPBJIxwYOFj05SbemlsCCassZHvBr40ND42PEIkUL40dGZwjOrGwQNjFn7jY6MvSd9NNSv+p4jGELypSI83RzqvWZsxNJC\
GMWEunkEeOzyOrGGiB6cyTEz1rBkeg6epY5iaB83bzp+bMDT7Ab5HKkQIcjCTt6EPoCNfNOVRmNymgBENnQHoQF5GKEBmFp4Mnwwg60F5z0xfHK90J1dGVUEtAlH61GkgGJiPTo0is3z\
7dxso6rvfWME9AmgrwvrUAFUB8L+I2RGmqdPQtzTWYJYfQ9RwF8BTwNHUeehOkDB6gO0OXsC+R6EiLSxPOQfNkWMgPSibX49JpU+PQ9tYboCuB1n9PM5voFgIBgU4eEn7ACTP6fOTwH4\
GUB0ZQBGpMqCAzuHxgOF3gIlMjsMMYgZQO8HeA7DPTxMDnsSpncXoNMtbNL5GYYYfAPUF5BwgjeEBmRWYhfYAwcBYIRxB+8e4eEYNUOzp8TJBSpMZ4WCASwGgp0bL5Qnz0kh5dJjobHr\
kHE7AoBhN9YSn1Smc0C+eGefixsegSZeAhQwg1njakiaPjR2YwpaRCDmQxguUPD3y4ktygdZQXedgbIF8RhXxmKV3oSUykohgdDD5PVRh7+m3jeNMO43yAkx/b4S3oTjqo4mL6PWrJTB\
wHNL0OJUG1k0AIw8HLiNFBgfYZoMb+3QtYGlfZ+qpdP965Rn/RTM5kJ44fwrmApjcRy6gwI1CMWQBnqkpc2F8BFWdiXFAxwQwARQPv8e8TKDTG2XGKE7AKKgC4olvcXsGkeQAy0Qh/GJ\
g5ptKHz5sjhwxhx80Rx6EB0P4FfDOUZCdL/RU5lAYu20y0EERD96aJPUArjDqzpUB6l6z4eyc7jEPKluA+RySadTLA7cwm2a9u8LWceqfnJTbAAOp8Dw5V5LwEmUqrxGlKo79TkEySwc\
f4S3SmYI3cR6anDw/MT1yCoeoWAnSZCVAQwCMXUQfPKFb6dNl1p3hBl3xhkJWHpa52gSvWKrO4fCy2hr4DrcYb+Azsj+En9KtNBVPsKCeQxYKgoR0eS4fEgTL+DjewAu3s8fwSE6T/QJ\
ydIUS2ZIBNziBH4+dP3eqPCm2DXgiKamKIVKTR9rHXA/2+mQlj/r6VCDHz4fDYlCPr4qlJ9B6Y+jv6BhfX+whzk/8E7gLqICosJYvwbAGjRCmDWTRMAn24FSVHjo/ic1XAQltQsz/kcf\
3GGD6aTIZIIscHZ5Ko1KJQw8116n0OdBTeoCXXUgTfoCk02LxYQ4oJNEsNh5kN6RBBTWBQfNtz508csycemkapwCgT2ASk2dN04mTplQypZMHoS6Z0vAD1JVJg5OygPNjAa1dldeAkfQ\
9++gTTwTfOQUUMPlSj+iIeIdeiSiLg1PnBqD6s0B/pGJOiW7gc1LUIxhZIOq8REIvzaeqifEcc5FnZhUj12POyJdALxqcYoWEtIIpX9UanyiDLDa8HuMvViQvnLOgMSQbqcZEzARxxAR\
ZKQHvTbYMDEBv4Qw6MULzQoUzVKR1LmNQSmC+BO0GHABOkOmdxmaTOurriwOgsFd0mnMouSA6tAhVS1sq9UCPDQwGXkDlfBqaDrByDetOMEHlEIVtQAHZVcgoEFZWxgNzCitHJJzoXHh\
Aem5EJQnWq0Mi5toplaglVBr3OJsDRJXDiUX0dJRIkILWI4HmSEkkBbOyCgWwoMb0WdFGWnypf3p8enB0gE0ClXYPSm2q5E6VUXpfV8uFjiD1ZAhFM5RASBklSVzmohYZHVPT+qJYUFi\
pGZlGueBB1D3WdpRYN5SmFJ4gTVWoTxXLoIqEU2NYlUKSV3UKSZ7NDJNUE+KByGbQMENnWVcAIoNKs7mHPr6nq12U+nsqIrRPiSQX0XtdnZ3tnQjLgJkmjnCkrRVNme1dHcfwuZ/rlnq\
wnJbwkwEynWkB8l5z9K3+vmeee+LEs/h9q19z4GYFnID4EpKIkVSmAgxonIcfKGvDo+VJ6UZeBBDpHDEVEH5CLFm52rojUBQIpFOx8DT7LAFr+V8HQjRLBQLY9MoGBW4FRy+ObmGJFR2\
mGYXLe0T7497rMfe0nimPkm7EtkKGhZSkMnCwYbpfGfdqMArZkZh7RzkNGW0rBflGFFXBaIwTxXJnEIMuDwJM+K8Z/jt6VLhFZdQrhQbw4ZswgoK0Mq0oD2GmIWaEynhiXq9Y0UHIK0Y\
37g2vQ0XzvxnJ35S8rkuvSr5d1z3vC6/rGcnret6j94XXs07eF17verPkH5b8e+4Lr+v9gOR1Pf5HIvV9VPLSPOtLkfq+Eqnva5LX9d9/jNTnHMiH1uuj9dUcCMPbfyBc37OSV/+G/0X\
yuu57SfLq1/AuybdtUN/PyPMndZ08Up/TtHl9maZwfXVN4f6L1vd4U7i+9zWF6/tgU2Q9X/K63rosefU7+HXJ+34STWH6+n3J9+o69cFwfcWD4fYdlvwjkj97MFz+SwfD7Y/W9wF5/i8\
k/9VIfb+3RX1/Gqnv7yW/f4P69hzi/Hdo/x8K1/c9hzav79VDYfp/r+SLG9T36Uh9yGaQO7H5pRfZL7C5poM0CyC7UisN2TLWs8WwZWXKdOMMskaMSVe4WRoZaHq6BRgO8hxk0z2BWb7\
Zn717zViPz7SbN5tYHzRjvSSOjonMMPCgubARDMro0sz/0kGYDrWD4Av/k4kYZPeeoFFP4cL6TvWKcHxKatysslaoDAslXX/dajsGh4fRQADVgjYJFTeboY3rNofNELf3lJkYPT+loth\
gL6k/k4MTLBb/i8ELgwdwKp02w+Plqc1BbEtTos20p4OminXB7Zw6fwqNFwwugXSkAhKo0d98mIK2kvVhAi0UrY9PPcXmoovNFVF9rQzAM/EgWY0P0LTtmytxSfepgfGzG9EPVjKM5lW\
BYpiKCsHShs4V5bcTfp7akI56zV2BCkpSE+AYkHwQhIMwmKhBDZry288Pjk5VVlzXR2ZLGkFiHG4Bfzt6hoyVGX6uv7BJ/SNTYwemGQp8sgUc7dqprWk2DJvA8lJbGusNWOLDnXz81Og\
0WsADgD2wGVwgfE4h/wIu9U+EKrw+EIHKspaOhPnrzxwJyws/fyQ8/331SFh++AvJf7vkTxwNl/eE5J9QeedoeH6I5j8Q+f5DR8PyzaLk36r+d5LPbFBf7P6I/+b94fk92r7c/WF5cI/\
kyxu0713y/C2S/437w/iL5qPt+5I8V7/NP5D8gQ3qy7Zw/jn162oJt6fcEsbXqOR3bvD+K5J/Sv1QW8LzdbR9N1vC+PxypLxofSuSVz/Iv20Jy2cHW8PwtrSG5V1cRsHfXbLHQXOuPH1\
mHM0f+FV4cImiGFqukcWTMbSawUu9Kg10qY2HXVhQRerqQI8Z0FmmNmGyBOuLIxfKIV6PNwITOFReYf+QCQgwEbgQ7sEX0YaAOV1Ugmb78k1ApMEsyzR+M7ppMZBUPgS62ZCAgc5yoF4\
/hX++B3iQedmQQZWsA7q2NEgLouUJkpGiiKwosGrxoHnhbpC3AeIq+n5a8HQ8zW5KgERZ1CLL32R3mIl1qfdfGZqBlgHyB1RzwdQ0mRIG1sPIG4CE65DO3ASYDqqF4R7cQDwUQEL2IgP\
vknHkGGnW+Ozc4NAZ6NgDbGVrGihfmhgF+AKd0jpwcICruoD2T4Rn8NmXoLJzRyF9VOzmTYMHeym5pkofJ8eExjpajnepZZUsqt+gLIp+o+1hPvFD7eFx/qOSf0j5RHuY7/xxe1jP+of\
2MJ+xOsJ6wHd0hOv7ro7N6yt3hOsb6wjXN9sR5rvR+l6NPJ/rCPP57+8I88Ef7wjzwV+QvNmgfV/uCOtx93ZG/Gs7w/Xd3xmeN57vDOtVQ5Jv2aB975Png5L/m84wPH/fGcZntH1WVz7\
kP7+9Kwx/tH3f1RXuj9HhqVFaVX90Q6Xq0R7xH2muLEysMwE8SO+wTE+Wo0c31a0C5uYobYthmJ+ROblVMkT1rVHdYhr9jrEJVOSDMMBkqYHqZ1iQC+MyFP425BDPiVMur15xrukgFUY\
WvoqJP2hvXts0uXFq/FRw7FLVMGbXHbpmuvVQu/pNm+eeq3j/bIb16aP+ql7TQT+pgJrnms35MZJoQaWqWBuhGHTP3BRuWqcXwAkkuMkg0xNZQdyoOW1+c4b5vUFBbWARUhDbqlZ7mrp\
8JJuLZNP1325m75qWXkMup+zB6T/fgFsS4HAvvSmwHcQPesLjcn9P2B+/uSdsPxntCdu/Lki+Q/I/2RMed5+U/L9Sebg3/DzXG5an6yVfkvxbe8Py/4jkT25Unzx/Ue1zD4Tbt+uBzdt\
XiDw/KPnjkj/1QNheNSH575L8rz4Q5pO/+UAYX9H6fkee6/6ev34g3P5ofZ0PhueF+QfD7Xv/g5u378MPhvnopyXfLfk/eTA8b1gPhfn04EPh9p1+KKxPRPtv6qFw/73roXB9P/dQeN7\
4RcnPqn374Yh9++Hw+2vo5eGwvfKC5Hs2qG9Jnn9A9Z9Hwu178pEwPp99JDzvffcj4Xn8PY+E4fnVR8L98+uS/26lH9waAj9gBP0bzkT9Pf7i22ZcUT9tOlhZ5cOVPPL96IXXTpdFKOM\
FNnJfAg6Jvk/lYZ6uZOVkeBxKb01vwF8IYAAP30qrSwmbS+DGepNVB++GwT/Y0k2MhnfdWizrGW3xqUCTgYGeGxx7yXd9GURbG/qcbYQCyL4kSLi79vumEG6QYAIbXUFGWwAZbZGZm3Y\
FwY86nfxsmg7ylVf90OCHliJ081gHaFmOpC8GR6nfmnE9Elof7sC29N3O0QSN9ujGE7VsZaK/FeD7xoYfK1eIL9SS8t2RYrhJWzVCYGYw3iAd0jaswcEQ9H2I6D52wwrDTxtMyIHP93E\
PkxEp8gSu9gN+8k3oD3ZQ2ag/qDcM9ktwT5kMrWBrTh3kJvCmE0b2qYpMFGqLyH/rNGerYbGRBCVgBQZIsC0iUYVoL9rItkAjR+SytplPBH3noM20A2KAX8etDKipjlXEpoo1g7FGS8+\
kmbZ/oy1FJf4iea8pkIFGU6MuspNbUIsPiJQkrq2VJan5HbJVkP6a/rvkj/T2cxXHwaaDvufeFPlPqo+q+LBMT5bL7LirgugI0wW6RwE7PTfONp03QtFhWtiApJUMuHmbUAHZEx8Lz88\
vPhaWryYeC8s7S5HnP/9Y2N73l4+F5ce/kfwzKn+cCM//T58IyzvR+t56Iiw/TUj+vg3q++CJsD309yL1/ckW9f2tPNf95qmT4fXTaH1HTobl8ddOhvH5npOb4/ODJ8Py6sclf3iD+v7\
LybC9/sibws/b3hS2i0Tr631TWP59QvLNG9R3Xp5/m+R/6U1h+fHX3hTWN6L1fSXy/I8kf/8G9e14nPNnJH/58Yi9+/HN2/eeyPMPSL5+g/pefzys3+j+YWLs3wQZEiaDfnwJpsHIHK0\
7wlrU2Cp8AFVX3yV4HSFSJp3uDadxfr6p8OHvj/ZlOtMP0D3juzv3830fatwoGBYCJyu+bxExr31jyFSi2BS2iqc0XQW2Ps5tCdgZ9LKVT+9S7gnOl36tm0s9vJ+c/gp836Ye3ncFIUq\
jWtNL5em7xF8IUK58czBpwzv+QSBHpp7z6cqHrnUz6lNjyV3iMTDhcKWb9XOHbsQXh0jGYj9lwoOFbvnGsmZzRGGu+LYpgGfGzwO8IGZIfnJ8/ByOGK6Cnm5GnPgSLrbCVxvQJnrf0x8\
dMZAMQYvPfFi/GWBRZZsCxX5RT4bnnaefDM87L0i+T9dln4ysyz4Z1rN/78nwvHtb8sPqx/VUuL5TT4Xn2bdJXuNN/MBT4fo+9FTYDvTrT4X1+v8i+X8j+XNvDn8//ebwvBJt3zveHG7\
/uyWvcS0+9ebwPPBv3xyWG9ynw+3JPB2WG6L17Xw6bLc4+HTYDypa35Py/GWNRxSp78YW9X0l8nz16bAdJVpf9b/k/Jv9ddnKRgig5dKG81ypp7JtdVPDPZbUdHBTBc9nhRdx7J4bmZo\
aGTuN/sb6Pq73baD3qbvpadxcdfeK35CvMeGHm6t+EgiE/prS3TacXkcT0ZTyAH8jTHlw6Exob1tQBxANqYN0gDfSuqiaJLt8Ii2lJupOoHWUJGlm5d119CSNicIXJJORqRKl184f2gJ\
0XKZXdPJgEWarBkpvSU2bdBd0k4ZokSvCBbA8Tb3x7Xxv7ewb2shIPfANI309TCtWFaatCE43Ww1VJLASz3+bCw9BVMNkcrd4DUheGyOW5Oj+MJ99U3/Y3vy85E/ounB/2J/630v+WfV\
HfkvYPrxX8hfUvv6WSNyqyPtXJf+o+re+Jcz3/k7yI+of80x43rog+WmV74Nbv8TAs7nn412L+psYUKBsdLAP2VFG1JCiJEnsoBPH0xBvq4AaaNENd6leelq28/q7fmWfxBuyK1WYxih\
SgXieHU8rOio2Ft/Iii+u7yvRbi61MN8MxUhCSt7UHv3GZpRTAcQNhQxQEbzRrg7cFh4eJIDOU98oOu9+9lkPsa2A2KEKYulTFdHvAqtMr488GxmPz4blhH8Zef78s+F5/zueDctVm8S\
PQggs2moigSJkL0qPOY17ecfH1KyMEVaI3ym5Pd335hNGdwR9h4i1/d8JSVJFn4YUh+qZEbvp05CqbJ5+6juxgJ7Ahhopqyewt6jZ3145dGZkdBiq6DXfcfTodwIWyZtmcJSCuxDUtE9\
zrHzRkOo92cQQNSsTPchbKMPm5sle3EQOQGKvC5SyTSwA6QAufOAWnDEKRBIwAPIGMtzMSrFSOAzXGtWkRbT39kDzT0+W0Z9sM90gbABg6I5vpSaSxkC0RTX4jhEtIf+1Dp+2w70ozvW\
b9E1lM1hv4PWeiuMWLsfzPnDa0y/+cLK5/ylxkRuZZI8+7K5HaR9xieFpkt5qFp+4aK/xpuM125FomLXq3gDB7Ua+fmvncUGVzI9hREkphKenomh5ijO0VZDdHAc39AGHpopTCLC2oxT\
ioCnaPN33wLuEsVBUzVs2aMqmPiHsIoMAh4EehILLo8O6aBcIzhKBhe4Ni+8OuQ7iowuDo+fROPCNeuSEgcSxQi77fiyp8UosKX99Qba89YbjO0nEJdx12DIgobbOT44xuyLgWprx2aH\
2AbpRpsdAWQOX8H0UyUfOldHnbuvdI7SZYGDwmRNveuLZ5048M9ky2TrZNvb0t725dOKZ1qee6iudeAo/6u9/vO/ZE8+USn3PPPPEiWeee+7xZ070PQblPvroiaeemjp/LriBj6NzTEf\
3+nFPqcvTAD0SAxd6u5clEheIEoS18rmJ6ZeCm61516/fpGEafQz/1luHmw4ePRoJn9bzzYqQphD2aHgShPQicO0pjhRDGB4bO4qS99GBgaNHB3hGujiOkb+mEC9SejCsEHJ/6NaHL9G\
qC21Z7/EjoTD5lC9NjMAcjRyaYqFQ+ARipz1co0KNeGE2OyJaWzP3Evs8YcwmVIjGhnkvM22JjmySp+UwahNPCPA0PYWB1HCf6Di0feDh7oHKrCYRvZp9AF4KaY5DgCUNd0N7+3n7NBT\
XnUYkkKqJ0xdGozlaacda/BAQawcIBUmD4VMJ21ZBlo4QXsSiUbN5gIB12h6NLTbIwUEq8ZLGxnB4Ehk2Ger9g3CDQ5Cd5x3TOKtEPtDwOpPlCYw/RFtg4SlPn2dAxZWgSESGVE4lPBs\
y3h6pjZQ8rFBZiOKlVyENfOjHVOAyIiBtjv7erQhtcF04K3uTjx7qpH31MBIiIAXhOEoBvI4KN8S+COytpwB6GqCAautR4Mk5PdgB60Sbo89DlfFAHaPhKb7I5H6OBOSPwVG1j1Ako9A\
YJL4Bo2D9tq8dIyF8V3YJTonz9TpsJhgLcJCjLiLxk6++z3NEN18n9t+m/M8PPBCclAJVwtg9MM18W4INkklM2TRF/IB3mn1+PhWcBaI4oUqYIiRiEPUNbRifGhku+2GTemTKC/egDFB\
gpTIHCi6p7QPrUXuwrEC8Rz9gg9+SA1PUljC6UcmiKCcV8hPKGyvzAliwTP877JynqYWXnu7VaYKja7K8DxAdOUJ3D/gUeGAgUALNGGuKoKp5BzxymoefPXHisQG/rCMEaTBOJu3s4Hi\
09P3i2yJxus+G7b6Hz4bt2sNnw/aSj50N22lvnA3biVsi5f91pPzYKOcf0PjWo+H19wuS37tB+csj4fI/MBou/4rkuyT/26PhdYF958L706Pl90fKP34uXP6T58L2nO8/F/Z3/azkGzc\
of+VMuPzfiZR/61zYP2DHWD4UD7xb8ns2KH8iUv63jYXLPz0W9n/8yFgYP18b2xz/VqR8Zzxc/vbxMH6+fTy8H25xPNy+aPnzp8PlfyFS/pfGw/D93XjYj79zIh+KKx8t30TK75/4f3v\
7Fii5qipRRkdNwt8Z18Q3T710ZNJAdVvV/3SLIZ+WRkInk4SPkpFbXXW7u0h1VaVudboakGSpQAcVEz7SeT40fA2fIIpg80viE0IQAgFm1jQqkI9Aq28kQoDmAfGdvc8+996969dlXBM\
WXbXrnLvPPp97zt777A/H35Ph43FLhq//32e434TEf08vx3/kKm6P8elV3A+iexX3z19H8Mkl8J8m8N8n8O9cxeMnfCzL22vNcnwS/26H4z8/y/GnCG4j+LYsH58/ZsvvD7bA/48uxz/\
b5fvBCpffG93g8vehYPwF/rUO98s5biWH/3El1zd93BX5IkR9WW6J+ThQZXtfzpZvT5avF+3ZvdW1d++q8u3J8iPE+7K7yvamV2hPlmdEe6f1Vdfe4gzPUyDry/I9or17qmxvR7p8e7J\
8idg/rf7q2vu7Cu3J8u2ivfVVtrc8Vb49WR4W5+cRierae3GgfHuyfJNoL1Nle20V2isoF/zNnirbuzZZvj1Zvla0t+TC6tp7Y2X59mT5AdHe9irb+4cK7cnyqDsQQU48mF1h0RndnVZ\
kfjQ+fziH0SYweqF2T0BD+Cjw9mDfA2H8ndU6rp0XCh29TaMQLpiCELoZCOqlFQPRHiW8KKmjUlhEHe3Rmg3KJKtDyTe9KxrDjSsamiMrUrN9jVE8HXM/t2he9+lnzzu9s35AkVRzZiK\
lFQeYOKCmoaBnDYvSqb5FGEjO05gBXz+g4/spLr2huQVJcwOeztS5KIS6z4KESj+gxFsQfi5gkqCkFNOZExvDYRfon90R6ENjAYWNZ6dWphSWc9XQoDYqGAQPVUhZRwGrHX7TIqMEpiy\
YJkUpmgtG/ce0lI7aXFvHOycBzxAKsTTZODcV0Ni0WIcsW6Dl/1w6bfU6Q+iHrr7ipbMf5xGGKNs3iLIrjJKWwVzjGmIqWhRgvFx3DYlaKcyIbC4gslkt4qVeEEijVjKr2LtfDIQxLx5\
3jzXaZvE12FLQbItqtptithU0auzQVMfUzJrAfCQuzzLRIXHdpYO6izp9b6meOaXDsinYT5Fgl3yArFOaGbGtBcS2Lh7MLe5dCpHP20VYS4xG2gsaxz69ZvhrAgEtNb0lYxzhe6Ao6Qh\
cxeFv3u0MXul44dQF8T5a1om2gk60wYjjZWPheKuf8a6psaFoTL8L9DYW1b+ZZB6zNJngXd9siIIIOnw05xQQModeXU0M3HOCOQf506zUyRa0ylFH2tPxFthrbKLssawJ6awGKVZr3DM\
o8G7CSeOoKmI2nwDNih5ohVEeCRfu+GEgevlQAiNXpywnmk3ClZi3QcadXnDKCm44Os2EvsIKxJf2qMTuu6TC0oH79YwY+ii634qUuVLIW7P4Wx2JFFIaOSvhZpLqVIkvNHtDe3CDM0p\
E/wqN741eRZeUZv41mX5CBMkOnkaKVB1HlFNZeM5EGtSiXEzaJnMHq0jx7hoDij0cUly2MFPmCjxE173dIe2tlU4mYsPinroD12nUtxozV6neCAciLeqUN5zwwuMn0rg8nT5LbcztBXE\
ivb2dJjZN3tKwstWyHkirEWxp8hMmqO9+mHcFkKI1BC8jvvAh2hNgG3CdVVadtyZiJ9aHe2dbjY0+rRBgjvMvLXluX9SZ5/qJWJ7L898huM74n+SFPmqI4/93gX9/nuub/mmY2xPNIri\
+BP5NAv/SYY4/Osz1BRuGuX7k5mGuX5D4w0Ocf5wY5nEZ3h/m+o7Wi7j+4JKLuH+IxL99Ncc/fhHXH/zxIq6/qbuY6wu6CV5cAv/61Xx8fnAxH58tBJt8f09dzPVNr17M9VESvy3wn3g\
Jx99E8KkEr7qEz+cPRbnEnxHjE85z/vyzlwj5qUL9Gy4W/LyY3z2rOX8vn3/+IrGeL+L2PJXqrxXtLRkq396+Yf78/mFeXqn+PUPlx+NfRf09Feo/L/aL4/Ll6zeL+hgnPcKzzUWWgQT\
QbnkB2LV5gdoZ4cQcjjQY2UFz1sTjUvgjYnGHwRDI7NCQ+Wy29QUrWo8NdFgsuxf9ipLOFxcvPWve8mVa0DkDY7j7Ao6mruGsaF8i1h440XrTg1lNEtxvwZGjWEqXrtD0U0ABHE2Qf41\
CDAJbjoc73sfjFSlc+Lvi5qmRt95I4oDPJAZPAy99DgpHeBIEDg1FD1xDB0dlRSQcWREO/ldxnJqwq5yqJmv+l5d3flHnQtEDA4YraDIBF18ohfb6E6otH4aykBAJzVT0gWxiVTcC/Q3\
NzSF9IsOsYkEjnddkohQm5tbwvbxjvFsrGltbVzStaBC/TqXDeHby/jZbSxefuxTy5UCX2vjkUxQ1FMnwbtK/mUcpHtcC4tGsuSsSCNBlJRjysR4FqQYo0tRYZU9aeC9aOvO5bLTdUO+\
FQUPjMMiGQ8x1YUlJutR/+YpktHEy2s5RKxZ5OBRN8bdgHG94ZzzRDOQFspvRJkE4mppDM6+NEek8I2IQfsiu2Ce8oeqFgPvbpXw/u28NP/+fIDhi4ieu4fdRTWv5/cH5azk/telrfP+\
8aC2/b7tuLb9femgt9+PZv5afzxL/AYF/+9f4ebN2DT+/htfy/fqHa7g9a6X69hqhDxb191wq8koL2BawbO+ba3h7twn6tqzh9riVnt+4hvtNVeqvfP7b4vmrq3z+sjV8PkbWVNd/SLc\
Swah+GCZP2yfBhwkRjx8iIx5L7xqxliyat6BzeRR8YykUPoqC5l4e30EUsk3cDiefgAyL8Dvt8vQqhmij7rBk9kE/8KKv/PETg86asyKlRUGpimQH9CKgF7WQbk0r60Srpe37rC/OO3v\
R8oVaWjad0SOhhcMeLztL3NuFTSRAk60KcdgmjZfHVfhR9z1zYJCsA70IF+kFzVPt5Xze/u1y7ve98nLOF2+8nO8b2y/nfuh/vJy/52OX8ffumCu4nGNdwe0gvnwF31fWXMHvKSX+LoH\
/PoH/8Su4HPShEU7/SSM8br3EP/5Njn/FCMefGuH0/2iE079rhMt5En+/wH9I4D9uHZdDF67jcti563icVYl/8hsc/zXruN/L7ev4/P37Ot7+q+vKj//Ob4i88Ffy9XPyldzv5yxRfv6\
VXK4qGH9B/3mX833nn6/k7XeJ8Zz5Tb6PyeevXMef/9Y6vk9Xqj8m2hup0N4HI/z5GVfw8kr1a8V6n6zQ3vlVtifrj4r2+i8r397PrqiuPVl/2uVC71ChvelVtifrt11efn2tuLzwXGt\
gW3zDFyFn9uLe3kAC1Vh6UIkdYKyYQQeHAMsKG3EIYrSHIDYxCUhwCLlFOVu+ixsD+SrOo8ag1IAEN4LQ0J1eNhjrX0LJbPE8AirM0UpHSuAq0JxOUU/Diepi4HghWBZzP5gVLk6+H3K\
i6JHUxMhs8smcb1SeBXQaBqI4oaa0ekrJ67Uomc2MzGafzOWUfq6AyqCBdgGRVFg9jRi+aFakCIUtjMIWn8IFDiTuLKDPT9bLOCmTScs1KacaI6WWJbprzGpsKEJMW1Hurs0ijwea2yU\
mu6AW1H3PVRC26A7JdyQyvxRRfVfmfOYwQuZ0p/15K8jKpjHxWeJ3BIKlyq/n+9WiDTzuY2wDP6+/t4Gft5s3cLnthQ2Cn/ouxz8p8B97NecXFlzNz+88wd0l8E9exfE/fjXH/9LVnF+\
Yfg2Po/9JgvMl8LcJ/Fdfw/Hffg2PM/Qf1/Dxee0a3r7En/+OsIO4luM/+Vo+Pl+9luuV89fyOFQF4/9tjv9JgX/ftfze4djrOPz567hcXDA+3+Hnz8zvCD2/aL9zA5frThXwr67l51d\
nhfK2Dbz9z2/g5ZXwTwr6xwX9m79THf0fr0D/xw+Tfvn82FX8+dGrBP9zVXX0b7imPP2yvFr65fP57wr+57uc/trvVkf/jqvL0y/Lq6W/4Pn1Yv2vF+u/Svrf2VCeflleLf3y+UlB/7i\
gf/P66uhfWIH+hYdJv3wezsRWYv8ixKUU12iA3Zh3avc6Q5oLS2kH+sC1QPC8Dhec4CbPETq30PU9al4Dd+ba74bMVcpzuw3FaW3w7rl5Mk1Ms5uEk31YZ68Ikqb7FAioAZob9J9Dz3K\
tFPbCcsTj6AQilTJZjVMxJfRD3tfSZCuyKo3FuwPX9gsdJ4MOjkMoa/SgH2zSWe0krTnB0JLm3qVNF7oXW06sP+0x8VFQiiHbCZcCF4fr61u/1qHYQFHrswlwSddkr5j12UQHZmjqoFp\
eJ1bMCtNv0JUO62ulmHuvK000M1oS0RnrKS+wmRj/YqnQ8GBKy0dbMjQXJ6AZW16cWgBzipkHcHK1bl/z4BQqFy/J9BK3yVzDttIpL5wXencWzn+k+NwT1kjFNdBSnO6W7vQSSv4NU+2\
liw1KF35KYBYgDUUNYw5DF4Ta/VYHTPhbKBbXXi/0WtdzPukTo9w/6V9HuZ5xzSjn0+4d5fYAxwn8z49y/H8Y5fYJoY08vuPCjVzvJ/Fv+h7HP7SR479qI7eneH4jty/Yt5Hz+RL/AYF\
/+/f4uXDgeq6HWr2R79PvXs/vfyrVt8V4ha8v395zo9W1J+vvFu1tqtDe5PXVtSfrG3e+CLsV9pz8IngxXMHMGU2yQp4RWSw9kEk6UBNiTeW6Q1Ze/Z/rPvlMchZUX/AMKHRqHiguJ5N\
VWXYwtSKVC4dyRUyc0VGUDrZlhnrY3fyjzetUA3bK2J9GC9OFGKO3lsZiRp1DlM7YzeGxnINa2DEE8y2NU+hES1Px88qjsRFpXIpe1+2e06iJs6PJi4TNv7K2pyj++3WnMsQnh+XWVLu\
Jr8ubNnF9+n2beBzfFzbx9/zTN/I8GPEb+b3o2A+FX9SNHP81N3K/ySdu5PL5oQr4uwT+zps4/vNu4nFuR2/i+9yvbuL9kfjHfyD8iG7m+GfdzO28Ft7M9/G1BC8sgb9f4H9M4B+/md8\
XvHcz38dPvaU8/ZM3cPzfuIXj/94tPK7wY7dw+fyNW3hcYYl/ROA//1bht3crzzN4za1cv7Dl1vLzO1PgPyjwf+w2bhf4xdv4/OZvK4+/X+Bvu4Hvy6ObuPxwwya+D795q7gfEPVl+bh\
ob3OV7X2lQnuyvEusr5k/qK69r99Svj1ZPibaG6myvUdvLt+eLK8V7/9kle0dW6G9gnLRXv8Pq2tv4U3l25Pl08T+PF5le2tuLN+eLM+L9ro2Vdfe/95Uvj1ZDsEBuCMWhgvwPLG0JxC\
FptBWXCYoh45MAIFA1IGNIS109A2ImgHJHSHihzW31fKDcoSC/In2ftDBWMqdndr8KJfPkSQ3O3dKQ+AM1fRihQKGZUkSD+wgs+L3DozkyWgw4A6TxShm/sHuOciY6BRgD6+KXfQ+M04\
z/v0I9AliLZFkGKnMGxT27+Rw8f41FnaiUXVimePEg33Q0SkaTCrPliY15MFerBp0XLTUB8836o7iFFO5Ya8/HvltTU0trU1N4dbG1vCc5uZIS6S5qr7MzRfvSlNhV5q60znwA4kHk08\
U90/RBjJegCkTCwSXmWLYYAHqxOtG+s51V0V1tDjRzYVEN/u3NcWI1knqAjFe9C8KhTHUTGh5XbsiaiOhRFbGzqpu+USKU99SSH2Lp7eJ+pGHdBCaRApjsriJfA5kCB0Q2SwL82sgWpF\
5APVRWLsqomvlP1X9JPmveL9aC/vVqpbS4oyTclCBYp9km+szu9b2dRBRDhrHOFW9uvG2ShDWVkhYmyJsQTLtEmG1PmEn2fqWVVuUYRynaM5YjaUHIWJjGmzJoDN6+csIUuYtCIaFaqh\
u51GjXrwrSl6+g59L793B7TuPvZPzsV+4k/OdMYLPJPjuO0V+lDv4ufTUnTy/yN47OV//qbu4nLL0rvL4LUH/rVT/eILvv4vzrRN3cb6+bouGuwge3CL8U27n+K/awu0d/9cWHh/4R1u\
4/mWHgF/ZwuWaTbfz8fno3fzcP/JuHg+j7m5uB1YJ/1qBv/duzjdceDcfjx/fze1r//NuPh4Svy3wHxD0v3U3lyOafszvXe0fc7lF4s9UwL++Qv/uqTC+x4n1ued24b+/hdffuIXXl+t\
BwrbAf5pYrzfcxem9UcCyfK14/sAdgo+/k+uv9oj2t1d4/uAd/N5Glrv96SFifjwdDAQFp9+QmwpGvEIFi4lOhooWOJL6HB3OigfYEsyVeWxKChj9TIRtfma/QwJLcJKKlJpIS2tra0O\
khXeIfsRobhBtzWzaYG3l9Uy7EgT7BUUYM1cdP75vv+lmu4ndxvpLTWlsVXQ3XKm72ehQQ2CmALYapjxNiVhuUP0M+ErMVENgmjRnRoeLCKaoRAZV1Z5S1xpKTSNSX2IaNak1A47qyDD\
e0V1Avub6J+yf/krxFczMJFKZwZy+3knAjUZGh9VMBXOmY3sLFp911rzuhdRiZ17VVgd3Tg2sW+NmokMpHFRMl67t8tBDGWLpeipTc3tJLqugg0z09aPh2EAC4ojag/jNqhvEqM8ErLa\
1cZAOW5cFpKl4FDzSgXbfsFtnVWamVdhIQjuTJdOpPoyCqH4HNxcTBW8wg3IRW4TMHSSVroOrUQxGp511DAFqjDHcaNZafPZynxColIOMC1RA0U6xwWVLF/RCxFuM4RGyMhCy2gV3GCA\
CsYdMOG941hBSV9fvJDNqUXwu7qz+XO9gku5/dv+c72epMW4ndOkY14P+bIzbab8+xvmL9gd4PLa1Av9XH+D+uRc+wO2ovv8A5192P8D9UyX+JT/n+/NJD3L+69QH+fn89Qf5fdX9Av7\
Dg/z83HM/p7/mIX7efv4hHs/tsoc4P7TrId7+xx/mer4l9/Pz8rSHOb/w5Yc5v3L1w/z+bfvDvP3pj/D8vtvv4/jrHuH3YwsJPt3YVT/C88qMP8LnR47Pkvv4+By9ld/fnbiVz+dXtvL\
4Zd/fyu38Jf2bfsbp/z9b+Xn61FbOnx7ayvXqX9jG6Zf4D9zL8ae3cX4lt43Hd7trG7dz27qN848S/+57+fp8cRuHX9rG+ff/sZ3Pb9d2Hj/wW9u5/LBJ4H9gO8+T9MvtnL592zn/eMw\
vyuO/514RD2w7h3+6nfM7eyr0d/3PxH2nmF/rZ3x+Wx/m9SvBcv52bOVwpfoSPu0+4a8s3qfdVdL75FYOy/VciV5ZX8L3CHoz9/HyhofL45fwdIFfwqfdz+sfcT8vPyDoqX1E5Leskp4\
TH+HjL+Hdgp71gp61orztYc7vV0tPnagv4dPE+XTEzzk9Rz4k7BwfEvEgRfk/C1g+b4vz9jMP8v7NflDYMwj6Nonnz32A40+M8f7J8vCYsB8Q/bVFeWyMtx8X+GV71T6vOKGoFhhAY6j\
jCmkYFE86MDRFCtOx7402H39FZZN5QKsvHcUl0g9BT2wMeeyFjW43TD3FHCAlec6pRu2kGLZkOqB2AjsHtLeCOlZdEaZ6AdZQvGlNPNHb62Rd+ijfVxLKZkM8ADC4ACsz+GLLhjHwgH6\
yrg6kGq/HPYrfrF4lG4ELkrCVXlm6k04+48RyTry+3nyzli2ft7yznbqkxcl4AoUFSNai5gQroPelrmWZUdCsPATm0uKcniPDLBv5LGRRpDiNR4lfQ/2JWL8nu4J8U76Xfm/qqANguVJ\
UCKI+Ac4aiPGWceLRHAmntIToZ5AZhWBPetEUOckGZdB2ncLAv38xj8LYkngB/QQtAni3aHMPc39QD9LTXBuD0p1ks1D1YbtDX1apFQCthiDUtpazukvIpxDxala4cPrr66u9rXJzg7G\
V+B5dEFf4k2mCrAVdi89Q9dWUdS5ZZulq6QE/jLxJ0Yo53U2g9UD+o2A2BjsoL9taercwXhfL/0fTUmiD1yAt70xi74wU1ctbFS3HPQb7rVYPUl6ss1AGaSKClyxYmVJbxDtghmgZYoF\
taYh06SkdVA9WgdkdvO2Kem/r53SUQqjabntZJehyjZ5y8jEnEwzQVU5VwfqfhOBfRfoHvwfVRjSFEN4hMMU4g0oshzBVNI/B14FyJxQkdYKVVTKzwxRfchg/1JjURak5jTzoTBb0WDL\
6BViTf8UVWNDDaSq6rmYxygPayJQ0M/pQi64MxMVx1SmFe6VRZ8Hbj1qSQnWcp/fJYYIh3+hLY5nrhfM0pypea+vht+NOz2CfbbZbk/xXW5FjNALHVKeV6r+Z8CSpNGzUsVR17lwU2Hc\
0Kn/j4Rv0Qijto9iiQEhNKq2O0Vw6O6wopW9B4mkBwM2xGhGrJxpbaffYNDwAeao/z4m0KTynZSqqWtmLnuK9MPYtj3K+aNujnA98/FEup+5/lPtrHfMYvwf6zGNc7j9P4J/3GMd/xmN\
c73HVY1wO3/YY1xtJ/LUC/5E7OP5/2MHv1ebv4P7qS3ZwO1+Jf/KXQg4V+Pt3cLn8lh3c/uzZHVxPI/HvFPj/KPC/uYPrKRofF3qtx7ncLvGPCvyZxzn+/ON8/B95nOtJXn+8PP2bf8n\
lgLFH+b1M+nFhP1ah/h92CPuhR8vXv0DUb6tQf4ao31+h/mmPCXugCvW3ivWoVddh/WGF49q/QR0ipNIdggxYms8yYZEgoCREsApRhOZeluUGmRafb1ytYxxV1JxHiIKIEUoYswubrqI\
MwugS6wq3GFjDSeWSwyFzCBI3AzlyzCmZdTKw2euTRiv9gxnN8Ky2/4byTAP1pCGw8ZvDwwycZtz0cMIIQ5tcw+1Dbkbxp42EtFFHMYaZQdMAFADa/ZsAJ5sli2bigmwjJCi+QQZ6sf2\
ceV5SLDygynodNxEpTexiJRB5rSg5tq6meXG8JrHlXQy7FalwE9NMRDTTbQi7+8DwxnrNFqdFm94AJSj3FQyMpStgJh5ZpJ8oeS8y/hR//07fxfPBL93F9ZTX7eL71f27uB78L7v4/jk\
i8Lc+zfHPf5rv95c+zc+/7xL8lRL42wT+QwL/9Gc4/s5nuF1C3zPl8U88Kewtn+H49z/D7a9P3M3Pk/kEp0rgHxX4f7Gb439qN8d/zLMaPsmMJ8FLSuDvf5LvnyPPcvzXPMvt0f/zWc6\
PfOg5HuezYPwF/tOe4/jPfI7T9/3neLyfJwUs8U8T+N8X+D/2PL8nmPs890+IPc/Pe4l/phj/WiqfbuyKnhP20xXqzxX18xXqX/Esr79T1B8T/f/Jbn5PKPHds5vXnynej2lPCb32M9w\
uSeL7xTPifBf4zhP4/vA0vweU+H7/tLAPF/g2C3yfeZrfa0l8nxb4pu0S9t8CX8Mubscl8UV28fqeYB05Qwn8agtdBudvp/nVK7aKl7eb8BzDVtLpDaTyDbEEAeQla2LXZ6OIkkwB4Rj\
Bh6LJQq1HuFDrobMWT0HrMb+za945Zyw+e6lhcIhot6aBOjOPchUU6W/JKu1Wz2BypUk2oI/sKLcFDvs+0DJQie9SKTtGucDrVEEGWsBOql8KDTG4y5WXQt6JF+lG0eJ27eBGBWYeQK8\
zCFpezYFAYnNIVL7IDk4Uhg+NRXNKUHeDIfNK90uHqcGZw3T20EnVr4YK/WqanwW3OwoPU6RnJSq086zuSjrGargeKe07xLMf6lfMgU1hfubbFn5hGeGLhVWXfTPQIMbhCSRx78GJ8xN\
H98jeWsL5r3m5DiNapKMFRe08mKv+qipooxLKwcpy2ev65G4X9jJC5ruNMsgoXqbS6YJulnkPW/xutCjOL7bSAhMRdASMQpJokC6GyeOS9gD9RrU0eYGU0949R2xlFINmwU2CdsTXSFA\
CAURegQJKBHYCWaqIdVOLyJ7h093aox5WrQ5m1cBD615+eWycWjY/5oh5xnQ2aHiVVT+j/jNLEft1381LheQqtGYsgj9r3MU7oh4pMeZtPu1tJDXqQfcToGqJhPzrEb9aQagw0vuYZ3k\
e/C0wujqSZ1G6dGZxXzvvjXBbZE5joaN418v8PNsp4F0vc/3OIQF/bg+3Y+nfw/VPO1/i+C7bw+8Vv72H8/f/sYfbMfzdXm6XJPH3v8TP07l7+XnbtZef7/Ze3t7te7k+ReLf/CK/5/z\
TXg4f2svjOS3ax+MX/WAfb0/in/ytyFO1j9t5vL+Py0dz93N++hv7Of6n9nP+8zyB/4/7+T3q2/t5/zt+x/GvIfj8EvSP/Ybj//XvuH7ltd9xu6DaV/j8Ln+F88+S/mkC/6ZX+PjcQfA\
i059XePzP//kq75/EP/kCpzfzqtC3vcrXt6T/J1TeWgJ//gW+/v/vq7w/r7/K7cZmvMb1n3Ne4+9bwfoZ5/gvfI2vzxTBWWPHI/AdP8HjJEj8teN8fM6Z4O/XBRN8vf9kgr8Pf5kov/4\
nxoW+UcA7BbxZ9HdUlI8IeNkEH+8lAj5LwL96mT8vy7smhH/lBB/v/heEfPQCry/xV4LlfD75cvn5nhDtjx5m+3K9yvYnXuXtT/6aPz8h4HEB7xTw5l8L+e/Xh0d/tAL9slw+nxT96xd\
wXMAS3+bfiPX5G+H//ZvD69/3X+HPy/7Jcvn8ta/w87jrt0I/L+CJw6RXng+S3j2/4/TI+hOCnnEBj/z28OiT56Ok78B+To+sP/qi0M+8KPQzLx4eff+1rzx9slw+/9o+Tv95gn/qEnC\
bgCcOk37JP0n639nL5/+Nvbw9+Xz+pcOj5/N7y+8PbaL+xGG29809wm5UtCfLx8Tz/S8fXvuSv3+yAv+fXnlBfT3e3Ogb8BjKpSjuBjMA9GGKN88nW9ragCUG3BXgrQo6clIcN8QZT8T\
LWBhF/mrzmlNPtc6Zt+jszgD5IIzhb6B+SQeSOUL2E5TdvZwtwqYEZW7P7IoSaXq+T2ocyJlDZocsFUC6TJ/U2KYNnYJ29rs2q9GiZNKzadTNUeVQIGkLxjGw1Y82zAX0NXivVYpOI0+\
WVRbB4MD/LmqYUn0BSbfHAeca8GGJgs8x0uin6PMjSNcGzS3sxT0XOrFcPSrBTkqo9ZXWighwAc5BSsd8zgyL30Ed0Y0ZSgV1UWgSk038Ta27MHa4i391GPEFixd2mhUB+Ia4+RSWk6c\
VaiHwG6qRNM2UBrfgmi2gCLZhNO2AkgFfMP1aRbEB1LC5/13KXAcUmfjHLTbvcEGtvtnp1Lz46mgq5thGJRNiK2C2S/oZO+vkpE2XHlKtyNFZwMx8a0W3mtbiysNACL10KqoJsGY1VBy\
I0uqdwdRQIhXXf91ocGYGonEnqORJOhD+0Fe1BTVRKdPZQhUvLB2j4Z2C7Z3WqKldUi/AbFDnwxU+hBQ/8A8ulqh6MVLxpIPXBSuLLFemuDIvYk7HasPliksObolbTW90YHMvLbOZQWq\
oeD/gUZgYvxtiy+GdAXPFhOPCB9iMqk+kA8y3yncnBAEpAz1KQL7VUtq0ImPKdz5YjKAm9PEZQ8Zhy4YO2OWtNJmNZyUT5KLrMaE6Gzgl1GFqTCl0ZErfkHJ2zjOihFS1IS/IekCXjfZ\
4+W6bUigoiryYcMz6lOxLBtAAzlj3GctCXBU2hCcho4H6+in6uLKeQbwW+N89JRM+pSdc1xNWXwqORU1W1EQJ7bUy4XbL7nNyGFjUhp6S+tjVz3ZYtsJma/tGfR5YClboiVPxTDupBbz\
BCO4uOCT66gICwMJVhmfzA8NY7ICJ/HV7b/4NIV+/wfm/Y97k999ffZPrY+55k+t79r4p9Jt/FvlO3uT4P36Q6wPPIfhsgu88yP38JP6JA1zeeO4g16+9e5Dr7zrf4vpOSf/IW1y/tvk\
A51d/9Jbwm3qL66MOvSX8CN/m/fv621wfV3tAxB14m8P3vs3tHQ+9zfVdp7/D8X/rHe6XOvE6p3/bO4K/f4fj/8Qk1w8uJHiN8Quc5H6sI69z+ebFSSFPTXK/0I53uT4z+y6Pl3/Pu9y\
+cNrrfDyeeJfDr4nnT/x/ZL9JAknTe3w+cu9xP8WJPwl9x3vcvuYRghME/8v73F7jq+/z+ZDrc6fAf/v73D7owfd5PMKaD3h/7A/4+i14vwT+uz/g6//+D3hewAMfcD/RTx/i73cB/f/\
F5eVLDnH97GUE95j5IHi5me+/8Pft0r/w+R0V9I8IOC/gfgGfJ+AuAbdJfIdEXI1DfL1mD/H6qwScEXBawCkBj4n27/pA2GOJ8h+9L+w/RPnG93h5/nUxPgI+T8BdAv7tu9weafe73M9\
+17v8/Zbv37jAt1PAYwKemOT79T4By/1j5gFhHyPgR9/hz8v9bVTUHxFwXsD9Ar7rbb7+b3ubt3fj2yLPs9i/xwW+nQK+8y3+vDxfRv8s6BdwXsD9Aj5PwF0CPnhQxGE+yNv//UHe//0\
Hef9/fZDvB/L87X9D0CPgLgFP/JnjP/YgL68W/pDoz3EH+fvzUUG/rC/5lQlB77iAdwp4TMDT3uT9+7DA/8EbvFzyY2isjX8wYmIO/7gkm4MorD0r2409sm9Kgbwm+uTZDVYuYoWtU5X\
QChxvxJbupuBCFQoIMSFfdTUkmFclD2h7k4yT7Y9mwBAaeOp20CBo1QIIEHbVYkc5xRvSmHX6XKMMc0mJ6GnTcIQKB8H0RnPNXh5rnbnXSSYDMbaTxssp0HMHHT7B4mcw5YaAuQb9Q6s\
eHW3+Aph0JLmc0ZFN0R/MmOgEPmGAjc+mki9QxjBOpRoVike6a2i/YqPl0cmNVr7B7lB/jNbQU3PgYw2ztQ0R2q+YcDTQh/SQNqTSOi9j0l6PTsra9C3okQZzUSGoOQhx8H8wjpFq1dW\
J10mEI0+6VMoaVNJjEmWeKMbN1N53hS52Qfdp7V5cV4fy4myMWdmT7lFDUF8/m1wPdSHai0PS2e6puh8EWyFvA2pG4S7nbwoervA/6HDTA27/YG9v0vGMCFH+Qzt5bXMTTQWc9WCOtUb\
EhdCc+pGQ/wPWtJn7Kw0AtmhF6uvBnc7Wrrmu1U+TBksWGoiglx1WVYvisAdibisNROey5Wd0n24ytqRX8p5pJT7odtAjowZsRIf1n4BlWM9w0WR65i0HzwvPZ9AP7ggvvPbFVvPq9KH\
Ma3sPuToWZ27Yj0xJJqxuWS1tlBkA9jAohoqkAg1uSYnbyjVYhSaBOG4624cetnlAFnjhY5BV/OP2JFLR7LCfc1y9ABgoqp0lc4foThC1KRBKQG/KuDXg+gBHV0wiI5wpoDCYC5693Xp\
sddDXKpcKUKWXCmQ17ytM63MG9q8G9Nvq/0RKrYZBVFm6ge9Rc/WBBq3ez+SGqyntsHR++0Jf2AIt99LF59rt2nYPbiAG0qshsY/lDvZAxk41PqusHrXj9SS19R+aA4LekIwAtbYObiw\
gI6ILm76T7LXQAhb+qEMQFqA278XVkIk7+AssFW0faxkzWZM1PqNWJdy+aP1SxiQcyuhFCjctKcQEIUuxGPK0ZDAhDdmfGoNNsnaNaYtYK0aXJVZMGilPbQZxedTV6cH1HF3V9nn62fN\
O76RJDMxJLtqTdGoyYcVR4Kq2lsxbuvyMzmUWJII8p3OhdXY3ffNuaPAAwtO8XZ+aAb0a6dT0OqYUONCLEG5paHaO6X/MOEE1VqK2DrXlOn3RnConkgKBYHkSVLy8gZhoqWhuivc3U1G\
v9YR7wta5886AvdGav3TxmZ3d/pVUsPce5cHQA17f0IpX0d7npBxtXB8iTsNjSQKW0GgWHIkSHMihqqeSLkf1fZk+cclQ2jOTDhh+VzQULmr+zO8FwjFSq1Iq0mDHYWbV3j/odLBEpWj\
dTPpj4ELsJKZzX2Bb5Pqo66L2F15ELPI2P496rBQraoqPt4/wqPoWq6ApvmRW+wmXuom+lAt/LrFmWe3WCdal2A+4gk6gk6E5uoAX1wcS8FmaL7vEJqbRnmV73E07fdX8p9ri+tIWTK1\
9gk2zxY/DAi25GSGgqsOyL7XR51Fn2MK4g7h9QhxmYB3A8zFWnh8Nzt9fEwjyiK6PHc/0CZunHc/klyOmH8/0T/UEG/3pJQQb/dMowcbfZedHj2fy2ZbpHP+zBJv8GP80Q8Nxgi8m2Og\
vryPY6ANrP8rxPTiDt/cCwUaf+Mkjj2f6U4k/TuUm/+foRzi+r1O5kZc3E2z0cZMEf2GK+Cf/nuM/86jjmT/7Vwg2+surCTb+cc8cxcf7d0fx8ZlJ+I0+4Lij+XjVE/wlo58guKME/fc\
ezeH8hzm+XUfz/kwQbPTJzceUH/+1VG786UY/xOm/5RiOfxvBFsEvH8PH/1PHanhWifXTT/R7+g4Bdwm4TcC1Ap4p4GkCfvAYPl73i/78VMD3EGz0H3eK5zcT/OES4zPt73n7k4KeCQG\
PC3ingPeL9fOSgMcJNvqQZ4/m81ewPgR94wLeKeAxAW8W8KiARwR8smi/5mj+Pn9K9OeTov4nBCzfp+mivyMf4e33f4TPZ5eA20T9LxzFx7PlKE7vwqN4e7K80vMzPyrWq4AnBT3jgt4\
bjuT4";

/// Part 3 of what a page ends with: the app, and the machine in it.
#[rattlefmt::skip]
pub const TAIL_3: &[u8] = b"\
bz6Sj8d6gk3c9ytFfbmfjon2Nwt4VMAjAs4L+NkZHP8TAv7lDE7P1hnlz5O2j4n3X8AzBTxNwE9M5+1vJ9joM39K8DElzsvRaaL/As4LuF/A5wm4S8BtAq4V8EwBTxPwpOjvO9N4//4k\
4L3T+PoYF+XPCPiJaXy+HhX8yiPT+PvwE4LN/ciWaXw+Jb+Dscbwz3Aqpli6VOIiJz6gPnLp7MCgkrEVo5joHdZ/5yWTsXQqngAGf6kD/nHRVG6ReniZMxDN9Kez4JjbH031KSFAZrLH\
NkIWocY4Hq55yg0aD+gIb9GcSbGKzCdx+a4Xs81TbpCFRYDXt3WsCNUmyeZ+RDRXh+z+0rxz5lFkQSVFuzVJMAbC3EAL00OpRWgfZCAl8GGJJ46RogKDaGBcDf6gSdFrfiTlAKmQbF9i\
a7Q7oBskpXn6sLh6BgtMf8AH1/DhWhrSkng2gtaE2h4zHPKZb9Z9llBnSgLyhWlQZChZNh511GwtHUyl4PfOvKN483Q2qO0EdRtqMkyyJNLqeFFZXGPP53rqVdtTYKXAfAaijlC6WNeT\
UDq8SN+6273kV4qBEH0DyiLdWZjIOjGQp92a1Wk1rYmkE82lBxKxefgXnJHV4jSx3+NOEicLgnqR3OZdH2AMKyzw9XJD2TSIhCC0aX2OGlzTjJoIR8mAthbp3MEBmF4QCtUUAkT4jeLL\
JskOizy50M0MZhPpQXcoutIZzOi/rvnR0nAq7dlLup7bJxjyRl1wzXUdsqIDFb0xPANlURRFvcIYbrhC0ubVg+Vq442Icc3FqwpvTflNu+kCBeG5pNBB1aqepJqcem3BIhbeXvgDOaEx\
0a/J9guaIvOqw7ulFQuUa8hPiMyyXdNLrfWmdDegH/BeMP1Ug5fvWLVihwKXBMGYgLpOMTPP5UB2DdxF5LQTtJPPJLLDbtJxMsMw4WQ+plC4rmMU4+YmAa2phvrTxmrQKEXwhoQ7ULug\
trOFa7OOSZPxf4S9wMrC1YmfU8GG9Fe2nhP1bbbeRSvMDTRZk0ynQbmH9lvxtJN0nb50Lo0WiyCdpzM6rOiFg6B6hMsjtBjHcjvap17ddqveWLiBSlIRqMjDEgi02ZNy8MNZpfsBGkxd\
qFdTgfZT4dAJktJedroLGurD9eEZbnowC4Z1jW1N4ZZYT2u4N9ISa23raWubM6etcU5bT2vMiTY2tDjx1ubeWDg+pyHcEm9RNSNtPfFIbE5T3AlH2pw5M/RtlZ5EsprVTvntAe1aO+2w\
l5zgBVTC+IJ+xq+c0YvkLKuWbOhOsmq1Qkt9gYVllGMKxOXJjbPVr55iMGe1G+VXu69m0V+RVKddh9HSOhWF27foDERRNeaHM2bMPQUqmmEFTXcEopLil0Yr+C/K1ek5L8cU9nuGd0WK\
WdUQif7aFkDhJV0r8TDmDcdn8ducEu379ylQLfA8HQ8ahQFa9PND/cNW8GTWQZ+8/OO1Omf5SR6uQEJmhSyQJRhp8eBSXcEXDh/Fb22iK3jBVuJRiDga0iqqgn8Vs6x4WEx4LIyYFaLM\
Hnh8WJQgHsNaGeNaimVKY+xhCYSLDnmB1SwzoqDmphhmNkVL8wkw4YpD3srz/+lHjbkvbQwwKGSgDzu4CesWoAUM4XWkXfnPCzwqBjWktz/sgIcIjczxNQlhcNUgIsx84zElM4I3/yFS\
NKs3JgQTyzoT5VYEruc1EiAAd3kPJQ0qKo9DVkbxZTAAGvOQDJlKqmI4E5AD8LDMhWSZJg6nGBQ1I8mEPtop1Ki/xihqH65tCogWeE0dP8LejCJ+FfBUwKuCHiFYxy8ZRjay3ZIRQfwX\
RLHlIRPLlY2nVXBFBudQ3PBrHgbcBkv80ydn8CqOIqyqpRrYblDQQJ4+ZAE369OBM/Cl6Gqw+aebG1ga+noCMM2wrMXatUmdCBZWbafGzwKfEgI6VyNvon9Pw/5Mv+ejkLO9HZYubqgF\
7G8ID2Bz9NlFWNglgQ25pjyLOyV+nlHe5SQz9NWnNdiFJUk0TNHbiG8kY3vhfVemNAPlUpBACkRg5FMj55v4BEbPbuRRE1fLyKuPnqB/eY4+Y/Q5SJ/r6PMG+rz3BB7/YJrAZ+DpAjb0\
PUjP/4o+V9DnAH2upc/r6HMLfe48tvjnmiPpOfpcSJ9XHMntEo287elVqLyDPk+jz/8PBojKb6UzBgA=</script>\n<script type=\"module\" id=\"script\">\"use stric\
t\";\n// app/language.js\nconst m0 = (() => {\nconst KINDS = {\n__proto__: null,\nhalt: [\"\"],\nldi: [\"rn\"],\nmov: [\"rr\"],\nadd: [\"rrr\
\"],\nsub: [\"rrr\"],\njmp: [\"L\"],\nbeq: [\"rrL\"],\nbne: [\"rrL\"],\nblt: [\"rrL\"],\ncall: [\"L\"],\nret: [\"\"],\ntry: [\"L\"],\nendtry\
: [\"\"],\nthrow: [\"r\"],\nout: [\"r\"],\nlds: [\"rC\"],\nsts: [\"rC\"],\nself: [\"r\"],\nintr: [\"T\", \"@.interrupt()\"],\nintrd: [\"r\", \
\"Thread.interrupted()\"],\npreg: [\"rP\", \"register()\"],\npbulk: [\"rPr\", \"bulkRegister($)\"],\nparr: [\"rP\", \"arrive()\"],\npdereg: \
[\"rP\", \"arriveAndDeregister()\"],\npaaa: [\"rP\", \"arriveAndAwaitAdvance()\"],\npawait: [\"rPr\", \"awaitAdvance($)\"],\npawaiti: [\"rPr\
\", \"awaitAdvanceInterruptibly($)\"],\npforce: [\"P\", \"forceTermination()\"],\npphase: [\"rP\", \"getPhase()\"],\npparties: [\"rP\", \"ge\
tRegisteredParties()\"],\nparrived: [\"rP\", \"getArrivedParties()\"],\npunarr: [\"rP\", \"getUnarrivedParties()\"],\npterm: [\"rP\", \"isTe\
rminated()\"],\npparent: [\"rP\", \"getParent()\"],\nproot: [\"rP\", \"getRoot()\"],\ncawait: [\"rB\", \"await()\"],\ncreset: [\"B\", \"rese\
t()\"],\ncbroken: [\"rB\", \"isBroken()\"],\ncwaiting: [\"rB\", \"getNumberWaiting()\"],\ncparties: [\"rB\", \"getParties()\"],\npawaitt: [\"\
rPrr\", \"awaitAdvanceInterruptibly($, $, unit)\"],\ncawaitt: [\"rBr\", \"await($, unit)\"]\n};\nconst DIRECTIVES = [\".phaser\", \".barrier\
\", \".thread\", \".cell\"];\nconst THROWN = {\n1: \"IllegalStateException\",\n2: \"IllegalArgumentException\",\n3: \"InterruptedException\"\
,\n4: \"BrokenBarrierException\",\n5: \"TimeoutException\"\n};\nconst ARRIVES = new Set([\"parr\", \"pdereg\", \"paaa\"]);\nconst KIND_OF = \
{ \".phaser\": \"P\", \".barrier\": \"B\", \".thread\": \"T\", \".cell\": \"C\" };\nconst wordsOf = text => text.split(/[ \\t\\r]+/).filter(\
Boolean);\nfunction readListing(listing) {\nconst read = { phasers: [], barriers: [], threads: [], rows: [] };\nfor (const line of listing.s\
plit(\"\\n\")) {\nconst words = wordsOf(line);\nif (!words.length) continue;\nconst behind = word => (words.includes(word) ? Number(words[wo\
rds.indexOf(word) + 1].slice(1)) : -1);\nif (words[0] === \".phaser\") {\nread.phasers.push({ parties: Number(words[2]), parent: behind(\"pa\
rent\"), routine: behind(\"onadvance\") });\n} else if (words[0] === \".barrier\") read.barriers.push({ parties: Number(words[2]), action: b\
ehind(\"action\") });\nelse if (words[0] === \".thread\") read.threads.push({ row: Number(words[2].slice(1)) });\nelse read.rows.push({ word\
: words[0], kinds: KINDS[words[0]][0], operands: words.slice(1) });\n}\nreturn read;\n}\nfunction readWritten(text) {\nconst read = { names: \
{ P: [], B: [], T: [], C: [], L: {} }, lineOf: [], questions: [], head: [] };\nlet count = 0;\nlet isHead = true;\ntext.split(\"\\n\").forEa\
ch((line, number) => {\nconst cut = line.indexOf(\";\");\nconst code = wordsOf(cut < 0 ? line : line.slice(0, cut));\nconst talk = cut < 0 ? \
\"\" : line.slice(cut + 1);\nconst asked = talk[0] === \"?\" ? talk.slice(1).trim() : \"\";\nif (code.length) isHead = false;\nelse if (isHe\
ad && talk && talk[0] !== \"?\") read.head.push(talk.trim());\nif (code.length && code[0].endsWith(\":\")) {\n(read.names.L[count] = read.na\
mes.L[count] || []).push(code.shift().slice(0, -1));\n}\nif (code.length && KIND_OF[code[0]]) read.names[KIND_OF[code[0]]].push(code[1]);\ne\
lse if (code.length) read.lineOf[count++] = number;\nif (asked) read.questions.push({ row: code.length ? count - 1 : count, text: asked });\n\
});\nreturn read;\n}\nfunction readProgram(text, listing) {\nconst { names, lineOf, questions, head } = readWritten(text);\nconst program = \
{ text, ...readListing(listing), names, lineOf, questions };\nconst about = head.join(\" \").replace(/`/g, \"\");\nconst cut = /^([^:.]{1,60\
})[:.]\\s*(.*)$/s.exec(about);\nconst isName = cut && names.T.some(name => cut[2].startsWith(name));\nprogram.title = cut ? cut[1] : about.s\
lice(0, 60);\nprogram.about = cut ? (isName ? cut[2] : cut[2].replace(/^[a-z]/, sign => sign.toUpperCase())) : \"\";\nconst registers = p => \
program.rows.some(row => /^(preg|pbulk)$/.test(row.word) && operandOf(row, \"P\") === p);\nprogram.children = program.phasers.map(\n(_, p) =\
> program.phasers.flatMap((one, n) => (one.parent === p ? [n] : []))\n);\nprogram.everParties = program.phasers.map(\n({ parties }, p) => (p\
rogram.children[p].length || registers(p) ? Infinity : parties)\n);\nreturn program;\n}\nconst nameOf = (program, kind, n) => program.names[\
kind][n] || { P: \"p\", B: \"b\", T: \"t\", C: \"c\" }[kind] + n;\nfunction operandOf(row, kind) {\nconst at = row ? row.kinds.indexOf(kind) \
: -1;\nreturn at < 0 ? -1 : Number(row.operands[at].slice(1));\n}\nfunction rootOf(program, p) {\nwhile (program.phasers[p].parent >= 0) p = \
program.phasers[p].parent;\nreturn p;\n}\nreturn { KINDS, DIRECTIVES, THROWN, ARRIVES, readProgram, nameOf, operandOf, rootOf };\n})();\n// \
app/names.js\nconst m1 = (() => {\nconst { KINDS, THROWN, nameOf, operandOf } = m0;\nconst PHASES = 2147483648;\nconst phaseOf = view => (vi\
ew < 0 ? view + PHASES : view);\nconst threadName = (program, t) => nameOf(program, \"T\", t);\nconst labelOf = (program, row) => (program.n\
ames.L[row] ? program.names.L[row][0] : \"row \" + row);\nconst strong = text => ({ strong: String(text) });\nconst hueOf = t => \"hue\" + (\
t % 8);\nfunction listed(list, and = \"and\") {\nreturn list.length < 2 ? list.join(\"\") : list.slice(0, -1).join(\", \") + \" \" + and + \" \
\" + list[list.length - 1];\n}\nfunction spread(list, and = \"and\") {\nreturn list.flatMap((one, k) => (k === 0 ? [one] : [k === list.lengt\
h - 1 ? \" \" + and + \" \" : \", \", one]));\n}\nconst OF_ROWS = {\n6: [\"the stack is full\", /^(call|try|paaa|parr|pdereg|cawait|cawaitt)\
$/],\n7: [\"a return to nowhere\", /^ret$/],\n8: [\"the output is full\", /^out$/]\n};\nfunction thrown(code, row) {\nif (THROWN[code]) retu\
rn code + \" (\" + THROWN[code] + \")\";\nconst [text, words] = OF_ROWS[code] || [];\nreturn row && text && words.test(row.word) ? code + \" \
(\" + text + \")\" : String(code);\n}\nfunction objectOf(program, row) {\nconst p = operandOf(row, \"P\");\nconst b = operandOf(row, \"B\");\
\nreturn p >= 0 ? nameOf(program, \"P\", p) : b >= 0 ? nameOf(program, \"B\", b) : \"\";\n}\nconst hasSeveral = program => program.phasers.l\
ength + program.barriers.length > 1;\nfunction callOf(program, row, thread) {\nconst call = KINDS[row.word][1];\nif (!call) return \"\";\nle\
t at = row.kinds.indexOf(\"P\") + row.kinds.indexOf(\"B\") + 2;\nconst object = objectOf(program, row);\nconst filled = call.replace(/\\$/g, \
() => {\nconst register = row.operands[at++];\nreturn thread ? thread.registers[Number(register[1])] : register;\n});\nreturn (object && obj\
ect + \".\") + filled.replace(\"@\", () => threadName(program, operandOf(row, \"T\")));\n}\nfunction operandNames(program, row) {\nreturn ro\
w.operands.map((operand, k) => {\nconst kind = row.kinds[k];\nif (kind === \"r\" || kind === \"n\") return operand;\nconst n = Number(operan\
d.slice(1));\nreturn kind === \"L\" ? labelOf(program, n) : nameOf(program, kind, n);\n});\n}\nconst rowText = (program, row) => [row.word, \
...operandNames(program, row)].join(\" \");\nconst STATEMENTS = {\nhalt: \"return\",\nldi: \"$0 = $1\",\nmov: \"$0 = $1\",\nadd: \"$0 = $1 + \
$2\",\nsub: \"$0 = $1 - $2\",\njmp: \"goto $0\",\nbeq: \"if ($0 == $1) goto $2\",\nbne: \"if ($0 != $1) goto $2\",\nblt: \"if ($0 < $1) goto \
$2\",\ncall: \"$0()\",\nret: \"return\",\ntry: \"try { // catch: $0\",\nendtry: \"}\",\nthrow: \"throw $0\",\nout: \"System.out.println($0)\"\
,\nlds: \"$0 = $1\",\nsts: \"$1 = $0\",\nself: \"$0 = Thread.currentThread().getId()\"\n};\nfunction javaText(program, row) {\nconst call = \
callOf(program, row, null);\nif (call) return (row.kinds[0] === \"r\" ? row.operands[0] + \" = \" : \"\") + call;\nconst operands = operandN\
ames(program, row);\nreturn STATEMENTS[row.word].replace(/\\$(\\d)/g, (_, k) => operands[k]);\n}\nfunction entryText(program, entry) {\ncons\
t n = Number(entry.slice(1));\nconst said = {\nC: \"call\",\nH: \"handler\",\nA: \"onAdvance of \" + nameOf(program, \"P\", n),\nX: \"action \
of \" + nameOf(program, \"B\", n)\n};\nreturn said[entry[0]];\n}\nfunction plain(program, parts) {\nconst said = part => (\ntypeof part === \
\"string\" ? part : part.strong !== undefined ? part.strong : threadName(program, part.thread)\n);\nreturn parts.map(said).join(\"\");\n}\nr\
eturn { phaseOf, threadName, labelOf, strong, hueOf, listed, spread, thrown, objectOf, hasSeveral, callOf, rowText, javaText, entryText, pla\
in };\n})();\n// app/ending.js\nconst m2 = (() => {\nconst { listed, threadName } = m1;\nfunction endKind(end) {\nif (end.word === \"stuck\"\
) return \"stuck\";\nif (end.word !== \"all\") return \"open\";\nreturn end.threads.some(thread => thread.status === \"died\") ? \"died\" : \
\"ended\";\n}\nconst KIND_TEXT = { stuck: \"\\u25A0 stuck\", ended: \"\\u25CF all end\", died: \"\\u2716 dies\", open: \"\\u25CB open\" };\n\
const few = list => (list.length > 4 ? listed([...list.slice(0, 3), list.length - 3 + \" more\"]) : listed(list));\nfunction endText(program\
, end) {\nconst who = status => end.threads.flatMap((one, t) => (one.status === status ? [threadName(program, t)] : []));\nconst waits = who\
(\"waits\");\nconst died = who(\"died\");\nconst parts = [];\nif (end.word === \"all\" && !died.length) parts.push(\"all threads end\");\nif \
(end.word === \"live\") parts.push(\"open: threads could go on\");\nif (end.word === \"stuck\") {\nparts.push(\nwaits.length ? \"stuck: \" + \
few(waits) + (waits.length === 1 ? \" waits\" : \" wait\") + \" for ever\" : \"stuck\"\n);\n}\nfor (const code of new Set(end.threads.flatMa\
p(one => (one.status === \"died\" ? [one.code] : [])))) {\nconst its = end.threads.flatMap((one, t) => (one.status === \"died\" && one.code \
=== code ? [threadName(program, t)] : []));\nparts.push(few(its) + (its.length === 1 ? \" dies of \" : \" die of \") + code);\n}\nreturn par\
ts.join(\"; \");\n}\nconst lastOf = list => (list.length > 5 ? \"\\u2026 \" : \"\") + list.slice(-5).join(\" \");\nfunction outputText(progr\
am, end) {\nconst said = (thread, t) => (thread.out.length ? [threadName(program, t) + \" \" + lastOf(thread.out)] : []);\nreturn end.thread\
s.flatMap(said).join(\", \");\n}\nfunction threadEnd(end, t) {\nconst { status, code, out } = end.threads[t];\nconst word = {\nwaits: end.wo\
rd === \"stuck\" ? \"waits for ever\" : \"waits\",\ndied: \"died of \" + code\n}[status] || status;\nreturn word + (status === \"throws\" ? \
\" \" + code : \"\") + (out.length ? \", output \" + lastOf(out) : \"\");\n}\nreturn { endKind, KIND_TEXT, endText, outputText, threadEnd };\
\n})();\n// app/elements.js\nconst m3 = (() => {\nconst { hueOf, threadName } = m1;\nconst byId = name => document.getElementById(name);\nco\
nst childrenOf = list => list.flat(Infinity).filter(\none => one !== null && one !== undefined && one !== false && one !== \"\"\n);\nfunctio\
n dress(element, classes, given, children) {\nif (classes.length) element.setAttribute(\"class\", classes.join(\" \"));\nfor (const [name, v\
alue] of Object.entries(given)) {\nif (value === false || value === null || value === undefined) continue;\nif (name.startsWith(\"on\")) ele\
ment.addEventListener(name.slice(2), value);\nelse if (name === \"vars\") for (const [key, one] of Object.entries(value)) element.style.setP\
roperty(key, one);\nelse element.setAttribute(name, value === true ? \"\" : value);\n}\nelement.append(...childrenOf(children));\nreturn ele\
ment;\n}\nfunction h(kind, given = {}, ...children) {\nconst [tag, ...classes] = kind.split(\".\");\nreturn dress(document.createElement(tag\
), classes, given, children);\n}\nfunction s(kind, given = {}, ...children) {\nconst [tag, ...classes] = kind.split(\".\");\nreturn dress(do\
cument.createElementNS(\"http://www.w3.org/2000/svg\", tag), classes, given, children);\n}\nconst fill = (element, ...children) => element.r\
eplaceChildren(...childrenOf(children));\nfunction arrange(element, list) {\nconst wanted = new Set(list);\nfor (const one of [...element.ch\
ildNodes]) if (!wanted.has(one)) one.remove();\nlet next = element.firstChild;\nfor (const one of list) {\nif (one === next) next = next.nex\
tSibling;\nelse element.insertBefore(one, next);\n}\n}\nfunction renew(element, ...children) {\nconst old = [...element.childNodes];\narrang\
e(element, childrenOf(children).map((one, k) => (old[k] && old[k].isEqualNode(one) ? old[k] : one)));\n}\nfunction makeShelf() {\nlet last = \
new Map();\nlet now = new Map();\nreturn {\nbegin() {\nlast = now;\nnow = new Map();\n},\ntake(key, make) {\nconst one = last.get(key) || ma\
ke();\nnow.set(key, one);\nreturn one;\n}\n};\n}\nfunction button(text, onclick, given = {}) {\nconst { kind = \"\", ...rest } = given;\nret\
urn h(\"button\" + kind, { type: \"button\", onclick, ...rest }, text);\n}\nconst sizeOf = text => (text.length > 130 ? \".is-longer\" : tex\
t.length > 60 ? \".is-long\" : \"\");\nconst who = (program, t) => h(\"b.who.\" + hueOf(t), {}, threadName(program, t));\nfunction shown(pro\
gram, parts) {\nreturn parts.map(part => {\nif (typeof part === \"string\") return part;\nreturn part.strong !== undefined ? h(\"strong\", {\
}, part.strong) : who(program, part.thread);\n});\n}\nconst MOTION = 200;\nconst isCalm = () => matchMedia(\"(prefers-reduced-motion: reduce\
)\").matches;\nfunction pulse(element, frames) {\nif (element && !isCalm()) element.animate(frames, { duration: MOTION, easing: \"ease-out\" \
});\n}\nfunction placesIn(root) {\nconst places = new Map();\nif (isCalm()) return places;\nfor (const one of root.querySelectorAll(\"[data-\
fly]\")) places.set(one.dataset.fly, one.getBoundingClientRect());\nreturn places;\n}\nfunction fly(root, before) {\nconst now = before.size \
? placesIn(root) : before;\nfor (const one of before.size ? root.querySelectorAll(\"[data-fly]\") : []) {\nconst from = before.get(one.datas\
et.fly);\nconst to = now.get(one.dataset.fly);\nif (!from || (Math.abs(from.left - to.left) < 2 && Math.abs(from.top - to.top) < 2)) continu\
e;\npulse(one, [{ transform: `translate(${from.left - to.left}px, ${from.top - to.top}px)` }, { transform: \"none\" }]);\n}\n}\nreturn { byI\
d, h, s, fill, arrange, renew, makeShelf, button, sizeOf, who, shown, MOTION, pulse, placesIn, fly };\n})();\n// app/beside.js\nconst m4 = (\
() => {\nconst { threadEnd } = m2;\nconst { h } = m3;\nconst { hueOf, threadName } = m1;\nconst SHOWN = 12;\nfunction endsBeside(program, le\
ft, right) {\nconst all = program.threads.map((_, t) => t);\nconst differ = all.filter(t => threadEnd(left.end, t) !== threadEnd(right.end, \
t));\nconst row = t => {\nconst other = h(\"td\", {}, h(\"b\", { \"aria-label\": \"differs: \" }, \"\\u2260 \"), threadEnd(right.end, t));\n\
return h(\n\"tr.is-other\",\n{},\nh(\"th.\" + hueOf(t), { scope: \"row\" }, threadName(program, t)),\nh(\"td\", {}, threadEnd(left.end, t)),\
\nother\n);\n};\nconst isAlike = left.end.key === right.end.key;\nconst said = isAlike\n? \"Both runs end alike: each thread, each output, e\
ach phaser and barrier.\"\n: differ.length\n? \"The other threads end alike.\"\n: \"The threads end alike; registers, phasers, barriers or c\
ells differ.\";\nconst heads = [\"End\", \"Run \" + (left.id + 1), \"Run \" + (right.id + 1)].map(text => h(\"th\", { scope: \"col\" }, text\
));\nconst rows = [...differ.slice(0, SHOWN).map(row), h(\"tr\", {}, h(\"td\", { colspan: 3 }, said))];\nreturn h(\"table.beside\", {}, h(\"\
thead\", {}, h(\"tr\", {}, heads)), h(\"tbody\", {}, rows));\n}\nreturn { endsBeside };\n})();\n// app/check.js\nconst m5 = (() => {\nconst \
{ byId, fill, h } = m3;\nconst LINE = 80;\nfunction differenceOf(there, here) {\nif (there === here) return null;\nlet k = 0;\nwhile (k < th\
ere.length && there.charCodeAt(k) === here.charCodeAt(k)) k++;\nconst from = k ? there.lastIndexOf(\"\\n\", k - 1) + 1 : 0;\nlet number = 1;\
\nfor (let at = 0; (at = there.indexOf(\"\\n\", at) + 1) > 0 && at <= from; ) number++;\nconst start = k - from > LINE / 2 ? k - LINE / 2 : \
from;\nconst lineOf = text => (start > from ? \"\\u2026\" : \"\") + text.slice(start, start + LINE).split(\"\\n\", 1)[0];\nreturn { number, \
there: lineOf(there), here: lineOf(here) };\n}\nfunction checkOf(page, listing, trace) {\nconst isOther = page.source && differenceOf(page.l\
isting, listing);\nif (isOther) return { what: \"listing\", ...isOther };\nconst difference = differenceOf(page.trace, trace);\nreturn diffe\
rence ? { what: \"trace\", ...difference } : { what: \"\" };\n}\nconst shown = line => (line ? h(\"code\", {}, line) : \"nothing\");\nfuncti\
on drawCheck({ check, item, text, plan }) {\nconst isShown = Boolean(check) && text === item.program && plan === item.plan;\nbyId(\"check\")\
.hidden = !isShown;\nif (!isShown) return;\nbyId(\"check\").classList.toggle(\"is-wrong\", Boolean(check.what));\nif (!check.what) {\nfill(b\
yId(\"check\"), \"Played again in this page: the trace is the same.\");\nreturn;\n}\nconst told = \"This page isn\\u2019t what the machine p\
lays. Line \" + check.number + \" of its \" + check.what + \": \";\nfill(byId(\"check\"), h(\"strong\", {}, told), shown(check.there), \" \\\
u2014 the machine: \", shown(check.here));\n}\nreturn { differenceOf, checkOf, drawCheck };\n})();\n// web/bytes.mjs\nconst m6 = (() => {\nc\
onst encoder = new TextEncoder();\nconst decoder = new TextDecoder();\nfunction bytesOf(input) {\nif (typeof input === \"string\") return en\
coder.encode(input);\nif (input instanceof ArrayBuffer) return new Uint8Array(input);\nif (ArrayBuffer.isView(input)) return new Uint8Array(\
input.buffer, input.byteOffset, input.byteLength);\nif (input?.bytes instanceof Uint8Array) return input.bytes;\nif (typeof input?.text === \
\"string\") return encoder.encode(input.text);\nthrow new TypeError(\"an input is a text, bytes, a trace or a schedule\");\n}\nfunction text\
Of(bytes) {\nreturn decoder.decode(bytes);\n}\nfunction writeText(text, room) {\nreturn encoder.encodeInto(text, room).written;\n}\nreturn { \
bytesOf, textOf, writeText };\n})();\n// web/faults.mjs\nconst m7 = (() => {\nclass Fault extends Error {\nget name() {\nreturn this.constru\
ctor.name;\n}\n}\nclass Refused extends Fault {\nconstructor(told, output, explained) {\nconst said = (word) => explained.match(new RegExp(`\
^  ${word}: +(.*)$`, \"m\"))?.[1] ?? \"\";\nsuper(`${told}\\n${explained}`.trimEnd());\nconst [, group, ...numbers] = told.split(\" \");\nth\
is.told = told;\nthis.group = group;\nthis.line = group === \"asm\" || group === \"plan\" ? Number(numbers.shift()) : null;\nthis.kind = Num\
ber(numbers.shift());\nthis.place = numbers;\nthis.word = null;\nthis.means = said(\"Means\");\nthis.help = said(\"Helps\");\nthis.output = \
output;\nthis.mistake = null;\n}\n}\nclass Differs extends Fault {\nconstructor(told) {\nsuper(told);\nthis.line = Number(told.split(\" \").\
pop());\n}\n}\nclass NotATrace extends Differs {\nconstructor(told, before = \"\") {\nsuper(told);\nthis.before = before;\n}\n}\nclass NoLin\
e extends Fault {\nconstructor(words, told) {\nsuper(words);\nthis.told = told;\n}\n}\nclass OutOfMemory extends Fault {\nconstructor(output \
= new Uint8Array()) {\nsuper(\"memory\");\nthis.output = output;\n}\n}\nclass TooLong extends Fault {\nconstructor() {\nsuper(\"an input has \
more bytes than it may have\");\n}\n}\nclass Malformed extends Fault {}\nclass NoHistory extends Fault {\nconstructor() {\nsuper(\"no choice \
is kept that could be taken back\");\n}\n}\nclass Closed extends Fault {\nconstructor() {\nsuper(\"the session is closed\");\n}\n}\nreturn { \
Fault, Refused, Differs, NotATrace, NoLine, OutOfMemory, TooLong, Malformed, NoHistory, Closed };\n})();\n// web/library.mjs\nconst m8 = (() \
=> {\nconst { bytesOf, textOf, writeText } = m6;\nconst { OutOfMemory } = m7;\nconst ROOM = 1 << 16;\nconst KEPT_ROOM = 1 << 24;\nconst LINE\
_ROOM = 1 << 12;\nconst INPUTS = [\"program\", \"plan\", \"schedule\"];\nconst COMMAND_ROOM = 512;\nconst REPLY_ROOM = 512;\nconst HANDLE = \
16;\nconst STRUCTS = 8 + 4 * 4096;\nclass Room {\n#library;\nconstructor(library, size) {\nthis.#library = library;\nthis.size = size;\nthis\
.at = library.take(size);\nthis.lengthAt = library.take(8);\nthis.words = [BigInt(this.at), BigInt(size), BigInt(this.lengthAt)];\n}\nget le\
ngth() {\nreturn this.#library.number(this.lengthAt);\n}\nget bytes() {\nreturn this.#library.bytes.slice(this.at, this.at + Math.min(this.l\
ength, this.size));\n}\nget text() {\nreturn this.#library.text(this.at, Math.min(this.length, this.size));\n}\nfree() {\nthis.#library.give\
(this.at);\nthis.#library.give(this.lengthAt);\n}\n}\nclass Library {\n#exports;\n#bytes = new Uint8Array();\n#view;\n#output;\n#line;\n#com\
mand;\n#reply;\nstruct;\nconstructor(instance) {\nthis.#exports = instance.exports;\nthis.#line = new Room(this, LINE_ROOM);\nthis.#command \
= new Room(this, COMMAND_ROOM);\nthis.#reply = new Room(this, REPLY_ROOM);\nconst at = this.take(STRUCTS);\nthis.struct = { at, word: BigInt\
(at) };\n}\nget bytes() {\nif (this.#bytes.length === 0) {\nthis.#bytes = new Uint8Array(this.#exports.memory.buffer);\nthis.#view = new Dat\
aView(this.#exports.memory.buffer);\n}\nreturn this.#bytes;\n}\nnumber(at) {\nconst { view } = this;\nreturn view.getUint32(at, true) + view\
.getUint32(at + 4, true) * 2 ** 32;\n}\ntext(at, length) {\nreturn textOf(this.bytes.subarray(at, at + length));\n}\ntake(size) {\nconst at \
= Number(this.#exports.room(BigInt(size)));\nif (at === 0) throw new OutOfMemory();\nreturn at;\n}\ngive(at) {\nthis.#exports.room_back(BigI\
nt(at));\n}\nroom(size) {\nreturn new Room(this, size);\n}\ncall(name, ...words) {\nreturn this.#exports[`vuthgal_${name}`](...words) & 255;\
\n}\nwith(inputs, use) {\nconst taken = [];\ntry {\nconst words = [];\nfor (const input of inputs) {\ntaken.push(this.take(input.length));\n\
this.bytes.set(input, taken.at(-1));\nwords.push(BigInt(taken.at(-1)), BigInt(input.length));\n}\nreturn use(words);\n} finally {\nfor (cons\
t at of taken) this.give(at);\n}\n}\n#outputRoom(size) {\nif (this.#output && this.#output.size < size) this.freeRoom();\nreturn (this.#outp\
ut ??= new Room(this, size));\n}\nfreeRoom() {\nthis.#output?.free();\nthis.#output = undefined;\n}\ncalled(name, inputs, { first = [], more \
= [], hasLine = true, arrange = (words) => words } = {}) {\nreturn this.with(inputs, (taken) => {\nconst words = arrange(taken);\nconst line \
= hasLine ? this.#line.words : [];\nconst ask = (room) => this.call(name, ...first, ...words, ...more, ...room.words, ...line);\nlet room = \
this.#outputRoom(ROOM);\nlet status = ask(room);\nwhile (room.length > room.size) {\nroom = this.#outputRoom(room.length);\nstatus = ask(roo\
m);\n}\nconst told = { status, output: room.bytes, line: hasLine ? this.#line.text : \"\" };\nif (room.size > KEPT_ROOM) this.freeRoom();\nr\
eturn told;\n});\n}\nmistaken(program, kind, input) {\nconst { at, word } = this.struct;\nconst arrange = ([where, length, ...rest]) => [whe\
re, length, kind, ...rest, word];\nconst told = this.called(\"mistake\", [program, input], { arrange });\nconst [line, column, length] = [0, \
8, 16].map((offset) => this.number(at + offset));\nconst place = { input: INPUTS[this.view.getUint8(at + 24)], line: line || null, column: c\
olumn || null, length };\nreturn { ...told, place };\n}\nversion() {\nthis.call(\"version\", ...this.#line.words);\nreturn this.#line.text;\n\
}\nget view() {\nif (this.#bytes.length === 0) this.bytes;\nreturn this.#view;\n}\nhandle() {\nconst at = this.take(HANDLE);\nthis.bytes.fil\
l(0, at, at + HANDLE);\nreturn at;\n}\nclose(handle) {\nthis.call(\"session_close\", BigInt(handle));\nthis.give(handle);\n}\nopen(handle, p\
rogram) {\nreturn this.with([program], (words) => {\nconst status = this.call(\"session_open\", BigInt(handle), ...words, ...this.#line.word\
s);\nreturn { status, line: this.#line.text };\n});\n}\ncommand(handle, text) {\nconst words = this.#written(text);\nreturn words ? this.#co\
mmanded(handle, words) : this.with([bytesOf(text)], (long) => this.#commanded(handle, long));\n}\n#written(text) {\nif (text.length * 3 > CO\
MMAND_ROOM) return undefined;\nconst room = this.bytes.subarray(this.#command.at, this.#command.at + COMMAND_ROOM);\nreturn [this.#command.w\
ords[0], BigInt(writeText(text, room))];\n}\n#commanded(handle, words) {\nconst status = this.call(\"session_command\", BigInt(handle), ...w\
ords, ...this.#reply.words);\nif (this.#reply.length <= REPLY_ROOM) return { status, reply: this.#reply.text };\nconst room = new Room(this, \
this.#reply.length);\ntry {\nreturn { status: this.call(\"session_reply\", BigInt(handle), ...room.words), reply: room.text };\n} finally {\n\
room.free();\n}\n}\n}\nreturn { Library };\n})();\n// web/page.mjs\nconst m9 = (() => {\nconst NAMES = [\"listing\", \"source\", \"schedule\"\
, \"trace\"];\nconst ESCAPED = { \"&\": \"&amp;\", \"<\": \"&lt;\", \">\": \"&gt;\", \"\\r\": \"&#13;\" };\nconst MOST_CHOICES = 1_000_000;\n\
const MOST_TRACE = 16_777_216;\nfunction pageWith(app, texts) {\nconst put = (page, name) => {\nconst begin = `<pre id=\"${name}\">`;\nconst \
text = texts[name].replace(/[&<>\\r]/g, (sign) => ESCAPED[sign]);\nreturn page.replace(new RegExp(`${begin}\\n?</pre>`), () => `${begin}\\n$\
{text}</pre>`);\n};\nreturn NAMES.reduce(put, app);\n}\nconst TOKEN = /([tx])(\\d{1,2})(?:\\*(\\d{1,10}))?/g;\nfunction choicesIn(schedule) \
{\nlet count = 0;\nfor (const [, , , times] of schedule.matchAll(TOKEN)) count += Number(times ?? 1);\nreturn count;\n}\nfunction tokensIn(s\
chedule) {\nconst tokens = [...schedule.matchAll(TOKEN)].map(([, letter, thread, times]) => {\nconst count = Number(times ?? 1);\nreturn `${\
letter}${Number(thread)}${count === 1 ? \"\" : `*${count}`}`;\n});\nreturn tokens.join(\" \");\n}\nreturn { MOST_CHOICES, MOST_TRACE, pageWi\
th, choicesIn, tokensIn };\n})();\n// web/values.mjs\nconst m10 = (() => {\nconst { textOf } = m6;\nconst { Malformed } = m7;\nconst VALUED \
= new Set([\"=\", \"out\", \"throw\", \"catch\", \"die\"]);\nclass Line {\nconstructor(step, choice, row, what, value = null, mark = null, v\
iew = null) {\nthis.step = step;\nthis.choice = choice;\nthis.thread = Number(choice.slice(1));\nthis.row = row;\nthis.what = what;\nthis.va\
lue = value;\nthis.mark = mark;\nthis.view = view;\n}\nstatic parse(text) {\nconst [step, choice, row, what, ...rest] = text.split(\" \");\n\
const isOne = /^[1-9][0-9]*$/.test(step) && /^[tx][0-9]+$/.test(choice) && what;\nif (!isOne) throw new Malformed(`no line of a trace: ${tex\
t}`);\nconst value = VALUED.has(what) ? Number(rest.shift()) : null;\nconst [mark = null, view = null] = rest;\nreturn new Line(Number(step)\
, choice, row === \"-\" ? null : Number(row), what, value, mark, view && Number(view));\n}\nget text() {\nconst words = [this.step, this.cho\
ice, this.row ?? \"-\", this.what, this.value, this.mark, this.view];\nreturn words.filter((word) => word !== null).join(\" \");\n}\ntoStrin\
g() {\nreturn this.text;\n}\n}\nfunction threadOf(words) {\nconst [status, exception] = words[2].split(\":\");\nconst stack = words.indexOf(\
\"stack\");\nconst out = words.indexOf(\"out\", stack);\nreturn {\nnumber: Number(words[0].slice(1)),\nrow: Number(words[1]),\nstatus,\nexce\
ption: exception === undefined ? null : Number(exception),\ninterrupted: words[3] === \"1\",\nregisters: words.slice(5, stack).map(Number),\n\
stack: words.slice(stack + 1, out),\nout: words.slice(out + 1).map(Number),\n};\n}\nfunction phaserOf([name, ...numbers]) {\nconst [view, pa\
rties, arrived, unarrived] = numbers.map(Number);\nreturn { number: Number(name.slice(1)), view, parties, arrived, unarrived };\n}\nfunction \
barrierOf([name, waiting, broken]) {\nreturn { number: Number(name.slice(1)), waiting: Number(waiting), broken: broken === \"1\" };\n}\nclas\
s State {\nconstructor(text, values) {\nthis.text = text;\nObject.assign(this, values);\n}\nstatic parse(text) {\nconst [head, ...lines] = t\
ext.trimEnd().split(\"\\n\").map((line) => line.split(\" \"));\nif (head[0] !== \"state\" || head.length !== 4) throw new Malformed(`no stat\
e: ${text}`);\nconst of = (letter) => lines.filter((words) => words[0][0] === letter);\nreturn new State(text, {\nchoices: Number(head[1]),\n\
steps: Number(head[2]),\nword: head[3],\nthreads: of(\"t\").map(threadOf),\nphasers: of(\"p\").map(phaserOf),\nbarriers: of(\"b\").map(barri\
erOf),\ncells: new Map(of(\"c\").map(([name, value]) => [Number(name.slice(1)), Number(value)])),\n});\n}\ntoString() {\nreturn this.text;\n\
}\n}\nclass Trace {\n#text;\n#lines;\n#state;\nconstructor(bytes) {\nthis.bytes = bytes;\n}\nget text() {\nreturn (this.#text ??= textOf(thi\
s.bytes));\n}\n#end() {\nconst at = this.text.lastIndexOf(\"\\nstate \") + 1;\nif (at === 0 && !this.text.startsWith(\"state \")) throw new \
Malformed(\"a trace has a line that begins with `state`\");\nreturn at;\n}\nget lines() {\nreturn (this.#lines ??= this.text.slice(0, this.#\
end()).split(\"\\n\").slice(0, -1).map(Line.parse));\n}\nget state() {\nreturn (this.#state ??= State.parse(this.text.slice(this.#end())));\n\
}\n[Symbol.iterator]() {\nreturn this.lines[Symbol.iterator]();\n}\ntoString() {\nreturn this.text;\n}\n}\nclass Schedule {\nconstructor(tex\
t, stopped = false) {\nthis.text = text;\nthis.stopped = stopped;\n}\nget choices() {\nreturn [...this.text.matchAll(/\\S+/g)].reduce((sum, \
[token]) => sum + Number(token.split(\"*\")[1] ?? 1), 0);\n}\n*[Symbol.iterator]() {\nfor (const [token] of this.text.matchAll(/\\S+/g)) {\n\
const [choice, count = 1] = token.split(\"*\");\nfor (let i = 0; i < count; i++) yield choice;\n}\n}\ntoString() {\nreturn this.text;\n}\n}\n\
class Went {\nconstructor(text) {\nconst [what, choices, why] = text.split(\" \");\nthis.text = text;\nthis.what = what;\nthis.choices = Num\
ber(choices);\nthis.why = why ?? null;\n}\ntoString() {\nreturn this.text;\n}\n}\nclass Ending {\nconstructor(text) {\nconst [runs, word, se\
ed, ...schedule] = text.split(\" \");\nthis.text = text;\nthis.runs = Number(runs);\n[this.word] = word.split(\"+\");\nthis.died = word.ends\
With(\"+died\");\nthis.seed = Number(seed.slice(1));\nthis.schedule = new Schedule(schedule.join(\" \"));\n}\ntoString() {\nreturn this.text\
;\n}\n}\nreturn { VALUED, Line, State, Trace, Schedule, Went, Ending };\n})();\n// web/looks.mjs\nconst m11 = (() => {\nconst { Line, VALUED \
} = m10;\nconst EVENT_SIZE = 24;\nconst STATE_SIZE = 16;\nconst THREAD_SIZE = 48;\nconst PHASER_SIZE = 12;\nconst BARRIER_SIZE = 8;\nconst E\
NTRY_SIZE = 4;\nconst NUMBER_SIZE = 4;\nconst NOTHING = 65535;\nconst MOST_ENTRIES = 64;\nconst MOST_OUTPUTS = 4096;\nconst MOST_OBJECTS = 6\
4;\nconst MOST_CELLS = 32;\nconst WHATS = [\"idle\", \"ok\", \"=\", \"out\", \"wait\", \"throw\", \"enter\", \"unwind\", \"catch\", \"die\", \
\"end\"];\nconst HAS_VALUE = WHATS.map((what) => VALUED.has(what));\nconst MARKS = [null, \"+p\", \"+b\", \"-b\"];\nconst STATUSES = [\"runs\
\", \"throws\", \"waits\", \"waits\", \"ended\", \"died\"];\nconst STANDINGS = [\"live\", \"stuck\", \"all\"];\nconst ENTRIES = [\"C\", \"H\"\
, \"A\", \"X\"];\nfunction listed(count, one) {\nconst list = [];\nfor (let n = 0; n < count; n++) list.push(one(n));\nreturn list;\n}\ncons\
t numbered = (number) => (number === NOTHING ? null : number);\nfunction lineAt(view, at, choice) {\nconst step = view.getUint32(at, true) + \
view.getUint32(at + 4, true) * 2 ** 32;\nconst what = view.getUint8(at + 20);\nconst value = HAS_VALUE[what] ? view.getInt32(at + 8, true) : \
null;\nconst mark = view.getUint8(at + 21);\nif (mark === 0) return new Line(step, choice, view.getUint16(at + 16, true), WHATS[what], value\
);\nconst name = MARKS[mark] + view.getUint16(at + 18, true);\nconst after = mark === 1 ? view.getInt32(at + 12, true) : null;\nreturn new L\
ine(step, choice, view.getUint16(at + 16, true), WHATS[what], value, name, after);\n}\nconst LOOK = (() => {\nconst parts = [\n[\"threads\", \
THREAD_SIZE, MOST_OBJECTS],\n[\"phasers\", PHASER_SIZE, MOST_OBJECTS],\n[\"barriers\", BARRIER_SIZE, MOST_OBJECTS],\n[\"cells\", NUMBER_SIZE\
, MOST_CELLS],\n];\nlet size = STATE_SIZE;\nconst rooms = parts.map(([name, each, most]) => ({ name, each, most, at: (size += each * most) - \
each * most }));\nreturn { rooms, size };\n})();\nconst [THREADS, PHASERS, BARRIERS, CELLS] = LOOK.rooms;\nfunction threadAt(view, at, numbe\
r) {\nconst status = STATUSES[view.getUint8(at + 43)];\nconst value = view.getInt32(at + 32, true);\nconst awaits = view.getUint8(at + 43) =\
== 2 ? \"p\" : \"b\";\nconst object = numbered(view.getUint16(at + 38, true));\nreturn {\nnumber,\nrow: view.getUint16(at + 36, true),\nstat\
us,\nexception: status === \"throws\" || status === \"died\" ? value : null,\nawaits: status === \"waits\" && object !== null ? `${awaits}${\
object}` : null,\nphase: status === \"waits\" && awaits === \"p\" ? value : null,\ninterrupted: view.getUint8(at + 44) === 1,\nregisters: li\
sted(8, (register) => view.getInt32(at + 4 * register, true)),\nentries: view.getUint8(at + 42),\noutputs: view.getUint16(at + 40, true),\n}\
;\n}\nconst phaserAt = (view, at, number) => ({\nnumber,\nview: view.getInt32(at, true),\nparties: view.getUint16(at + 4, true),\narrived: v\
iew.getUint16(at + 6, true),\nunarrived: view.getUint16(at + 8, true),\nparent: numbered(view.getUint16(at + 10, true)),\n});\nconst barrier\
At = (view, at, number) => ({\nnumber,\nparties: view.getUint16(at, true),\nwaiting: view.getUint16(at + 2, true),\nrunner: numbered(view.ge\
tUint16(at + 4, true)),\nbroken: view.getUint8(at + 6) === 1,\n});\nfunction lookAt(view, at) {\nconst all = (count, room, one) => listed(co\
unt, (n) => one(view, at + room.at + room.each * n, n));\nconst cells = all(CELLS.most, CELLS, (_, place) => view.getInt32(place, true));\nr\
eturn {\nchoices: view.getUint32(at, true) + view.getUint32(at + 4, true) * 2 ** 32,\nsteps: view.getUint32(at + 8, true),\nword: STANDINGS[\
view.getUint8(at + 15)],\nthreads: all(view.getUint8(at + 12), THREADS, threadAt),\nphasers: all(view.getUint8(at + 13), PHASERS, phaserAt),\
\nbarriers: all(view.getUint8(at + 14), BARRIERS, barrierAt),\ncells: new Map(cells.some(Boolean) ? [...cells.entries()].filter(([, value]) \
=> value !== 0) : []),\n};\n}\nfunction entriesAt(view, at, count) {\nconst one = (place) => ENTRIES[view.getUint8(place + 2)] + view.getUin\
t16(place, true);\nreturn listed(count, (n) => one(at + ENTRY_SIZE * n));\n}\nfunction numbersAt(view, at, count) {\nreturn listed(count, (n\
) => view.getInt32(at + NUMBER_SIZE * n, true));\n}\nfunction bitsAt(view, at) {\nconst bits = [];\nfor (let first = 0; first < 64; first += \
32) {\nfor (let word = view.getUint32(at + first / 8, true); word !== 0; word &= word - 1) {\nbits.push(first + 31 - Math.clz32(word & -word\
));\n}\n}\nreturn bits;\n}\nreturn { EVENT_SIZE, MOST_ENTRIES, MOST_OUTPUTS, lineAt, LOOK, lookAt, entriesAt, numbersAt, bitsAt };\n})();\n/\
/ web/session.mjs\nconst m12 = (() => {\nconst { bytesOf, textOf } = m6;\nconst { NoHistory } = m7;\nconst { bitsAt, entriesAt, lineAt, LOOK\
, lookAt, MOST_ENTRIES, MOST_OUTPUTS, numbersAt } = m11;\nconst { Line, Schedule, State, Went } = m10;\nconst NONE_KEPT = 1;\nconst FEWER = \
1;\nconst NOT_READ = 3;\nconst NO_THREAD = 7;\nconst LIMIT = 8;\nfunction namesOf(program) {\nconst text = textOf(program);\nif (/^PBW[12]/.\
test(text)) return [];\nconst lines = text.split(\"\\n\").map((line) => line.split(\";\")[0].trim().split(/\\s+/));\nconst end = lines.findI\
ndex(([word]) => word === \".run\");\nconst head = end < 0 ? lines : lines.slice(0, end);\nreturn head.filter(([word, name]) => word === \".\
thread\" && name).map(([, name]) => name);\n}\nconst forgotten = new FinalizationRegistry(({ library, handle }) => library.close(handle));\n\
class Session {\n#library;\n#handle;\n#word;\n#calls;\n#rooms;\nconstructor(library, calls, threads, fill) {\nconst handle = library.handle(\
);\ntry {\ncalls.answer(fill(handle));\n} catch (fault) {\nlibrary.close(handle);\nthrow fault;\n}\nthis.#library = library;\nthis.#handle = \
handle;\nthis.#word = BigInt(handle);\nthis.#calls = calls;\nthis.threads = threads;\nforgotten.register(this, { library, handle }, this);\n\
}\nstatic of(library, calls, program) {\nreturn new Session(library, calls, namesOf(program), (handle) => library.open(handle, program));\n}\
\nget isOpen() {\nreturn this.#handle !== 0;\n}\n#check(status) {\nif (status !== 0) this.#calls.answer({ status, line: \"\" });\n}\n#open() \
{\nif (this.#handle === 0) this.#check(6);\nreturn this.#word;\n}\n#number(thread) {\nconst number = typeof thread === \"number\" ? thread : \
this.threads.indexOf(thread);\nif (Number.isInteger(number) && number >= 0 && number < 256) return number;\nthrow new RangeError(`there is n\
o thread ${thread}`);\n}\n#choice(thread, letter, expiry) {\nconst session = this.#open();\nconst number = this.#number(thread);\nconst { at\
, word } = this.#library.struct;\nconst status = this.#library.call(\"session_step\", session, number, expiry, word);\nif (status === 0) ret\
urn lineAt(this.#library.view, at, letter + number);\nif (status === NO_THREAD || status === LIMIT) return Line.parse(this.command(`s ${lett\
er}${number}`).slice(0, -1));\nreturn this.#check(status);\n}\nstep(thread) {\nreturn this.#choice(thread, \"t\", 0);\n}\nexpire(thread) {\n\
return this.#choice(thread, \"x\", 1);\n}\ngo(schedule) {\nconst tokens = String(schedule).trim().split(/\\s+/).join(\" \");\nconst reply = \
this.command(`g ${tokens}`).slice(0, -1);\nif (reply === \"?\") throw new RangeError(`no schedule: ${tokens}`);\nreturn new Went(reply);\n}\n\
back(count = 1) {\nfor (let i = 0; i < count; i++) {\nconst status = this.#library.call(\"session_back\", this.#open());\nif (status === NON\
E_KEPT) throw new NoHistory();\nthis.#check(status);\n}\n}\ngoTo(played, number) {\nconst status = this.#library.with([bytesOf(String(played\
))], (words) =>\nthis.#library.call(\"session_go_to\", this.#open(), ...words, BigInt(number)),\n);\nif (status === FEWER) throw new RangeEr\
ror(`fewer than ${number} choices were played`);\nif (status === NOT_READ) throw new RangeError(`no schedule: ${played}`);\nif (status === N\
O_THREAD) throw new RangeError(`there is no such thread: ${played}`);\nthis.#check(status);\n}\nplayPlan(plan, options = {}) {\nconst schedu\
le = this.#calls.plan(plan, { most: options.most });\nthis.goTo(schedule, schedule.choices);\nreturn schedule;\n}\nget enabled() {\nconst { \
at } = this.#library.struct;\nconst words = [BigInt(at), BigInt(at + 8)];\nthis.#check(this.#library.call(\"session_enabled\", this.#open(), \
...words));\nreturn { turns: bitsAt(this.#library.view, at), expiries: bitsAt(this.#library.view, at + 8) };\n}\nlook() {\nconst { at, word \
} = this.#library.struct;\nthis.#rooms ??= LOOK.rooms.flatMap((room) => [BigInt(at + room.at), BigInt(room.most)]);\nthis.#check(this.#libra\
ry.call(\"session_look\", this.#open(), word, ...this.#rooms));\nreturn lookAt(this.#library.view, at);\n}\n#listed(name, thread, most, read\
) {\nconst { at } = this.#library.struct;\nconst words = [this.#open(), this.#number(thread), BigInt(at + 8), BigInt(most), BigInt(at)];\nco\
nst status = this.#library.call(`session_${name}`, ...words);\nif (status === NO_THREAD) throw new RangeError(`there is no thread ${thread}`\
);\nthis.#check(status);\nreturn read(this.#library.view, at + 8, this.#library.number(at));\n}\nstack(thread) {\nreturn this.#listed(\"stac\
k\", thread, MOST_ENTRIES, entriesAt);\n}\noutputs(thread) {\nreturn this.#listed(\"outputs\", thread, MOST_OUTPUTS, numbersAt);\n}\ncopy() \
{\nconst from = this.#open();\nconst fill = (to) => ({ status: this.#library.call(\"session_copy\", from, BigInt(to)), line: \"\" });\nretur\
n new Session(this.#library, this.#calls, this.threads, fill);\n}\nother(thread, { expires = false, rest = \"\", most = 1_000_000 } = {}) {\n\
const words = [this.#open(), this.#number(thread), expires ? 1 : 0, most];\nconst told = this.#library.called(\"session_other\", [bytesOf(re\
st)], { first: words, hasLine: false });\nif (told.status === NOT_READ) throw new RangeError(`no schedule of at most 2,000 choices: ${rest}`\
);\nif (told.status === NO_THREAD) throw new RangeError(`there is no thread ${thread}`);\nthis.#check(told.status);\nreturn new Schedule(tex\
tOf(told.output).trimEnd());\n}\nsetBreakpoint(row) {\nthis.#row(\"k\", row);\n}\nclearBreakpoint(row) {\nthis.#row(\"c\", row);\n}\n#row(le\
tter, row) {\nif (this.command(`${letter} ${row}`) === \"?\\n\") throw new RangeError(`there is no row ${row}`);\n}\nget state() {\nreturn S\
tate.parse(this.command(\"p\"));\n}\ncommand(line) {\nthis.#open();\nconst { status, reply } = this.#library.command(this.#handle, line);\nt\
his.#check(status);\nreturn reply;\n}\nclose() {\nif (this.#handle === 0) return;\nforgotten.unregister(this);\nthis.#library.close(this.#ha\
ndle);\nthis.#handle = 0;\n}\n[Symbol.dispose ?? Symbol.for(\"Symbol.dispose\")]() {\nthis.close();\n}\n}\nreturn { Session };\n})();\n// we\
b/vuthgal.mjs\nconst m13 = (() => {\nconst { bytesOf, textOf } = m6;\nconst { Closed, Differs, Fault, NoLine, NotATrace, OutOfMemory, Refuse\
d, TooLong } = m7;\nconst { Library } = m8;\nconst { choicesIn, MOST_CHOICES, MOST_TRACE, pageWith, tokensIn } = m9;\nconst { Session } = m1\
2;\nconst { Ending, Line, Schedule, State, Trace, Went } = m10;\nconst MOST_PLANNED = 1_000_000;\nasync function fetched(url) {\nif (url.pro\
tocol === \"file:\" && globalThis.process?.versions?.node) {\nconst files = \"node:fs/promises\"; // named here, so that a bundler for brows\
ers doesn't look for it\nreturn (await import(files)).readFile(url);\n}\nconst response = await fetch(url);\nif (!response.ok) throw new Fau\
lt(`${url} has the status ${response.status}`);\nreturn response.arrayBuffer();\n}\nasync function load(source = new URL(\"vuthgal.wasm\", s\
elf.location.href)) {\nconst what = typeof source === \"string\" ? new URL(source, globalThis.location?.href ?? self.location.href) : source\
;\nconst code = what instanceof URL ? await fetched(what) : what;\nconst made = await WebAssembly.instantiate(code).catch((error) => {\nthro\
w error instanceof RangeError ? new OutOfMemory() : error; // no memory was to be had for the module\n});\nreturn new Vuthgal(new Library(ma\
de instanceof WebAssembly.Instance ? made : made.instance));\n}\nclass Vuthgal {\n#library;\nconstructor(library) {\nthis.#library = library\
;\n}\ncall(name, inputs, ...more) {\nreturn this.#library.called(name, inputs.map(bytesOf), { more });\n}\n#answer(told) {\nif (told.status \
< 2) return told;\nif (told.status === 3) {\nconst line = told.line.trimEnd();\nthrow new Refused(line, told.output ?? new Uint8Array(), thi\
s.#explained(line));\n}\nif (told.status === 4) throw new OutOfMemory(told.output);\nif (told.status === 5) throw new TooLong();\nif (told.s\
tatus === 6) throw new Closed();\nthrow new Fault(`the library returns status ${told.status}`);\n}\n#explained(words) {\nconst { status, out\
put } = this.call(\"explain\", [words]);\nreturn status === 0 ? textOf(output) : \"\";\n}\n#bytes(name, inputs, ...more) {\nreturn this.#ans\
wer(this.call(name, inputs, ...more)).output;\n}\n#text(name, inputs, ...more) {\nreturn textOf(this.#bytes(name, inputs, ...more));\n}\nrun\
(program, schedule) {\nreturn new Trace(schedule === undefined ? this.#bytes(\"both\", [program]) : this.#bytes(\"run\", [program, schedule]\
));\n}\nasm(text) {\nreturn this.#bytes(\"asm\", [text]);\n}\nlist(program) {\nreturn this.#text(\"list\", [program]);\n}\ncompare(program, \
trace) {\nconst told = this.#text(\"compare\", [program, trace]).trimEnd();\nif (told !== \"same\") throw told.startsWith(\"not\") ? new Not\
ATrace(told) : new Differs(told);\n}\nchoices(trace) {\nconst { status, output } = this.#answer(this.call(\"choices\", [trace]));\nconst lin\
es = textOf(output).trimEnd().split(\"\\n\");\nif (status === 1) throw new NotATrace(lines.at(-1), lines.length > 1 ? lines[0] : \"\");\nret\
urn new Schedule(lines[0]);\n}\nplan(program, plan, { most = MOST_PLANNED, names = false } = {}) {\nif (!(most >= 0 && most < 2 ** 32)) thro\
w new RangeError(`no number of choices: ${most}`);\nconst told = this.call(\"plan\", [program, plan], most, names ? 1 : 0);\ntry {\nreturn n\
ew Schedule(textOf(this.#answer(told).output).trimEnd(), told.status === 1);\n} catch (fault) {\nif (fault instanceof Refused) fault.mistake \
= this.mistake(program, { plan });\nthrow fault;\n}\n}\nseeds(program, { plan = \"\", first = 1, count = 1000, limit = 0, names = false } = \
{}) {\nif (!(first >= 0 && first + count <= 2 ** 32)) throw new RangeError(\"a seed is from 0 to 4294967295\");\nconst told = this.#text(\"s\
eeds\", [program, plan], first, count, limit, names ? 1 : 0);\nreturn told.split(\"\\n\").slice(0, -1).map((line) => new Ending(line));\n}\n\
page(program, schedule, app) {\nconst tokens = textOf(bytesOf(schedule));\nif (choicesIn(tokens) > MOST_CHOICES) throw new TooLong();\nconst \
trace = this.#text(\"run\", [program, schedule]);\nif (trace.length > MOST_TRACE) throw new TooLong();\nconst source = textOf(bytesOf(progra\
m));\nreturn pageWith(app, {\nlisting: this.list(program),\nsource: /^PBW[12]/.test(source) ? \"\" : source,\nschedule: tokensIn(tokens),\nt\
race,\n});\n}\nmistake(program, { plan, schedule } = {}) {\nconst text = bytesOf(program);\nconst isWhole = plan === undefined && schedule =\
== undefined && /^\\.run\\s*$/m.test(textOf(text));\nconst kind = plan !== undefined ? 1 : schedule !== undefined ? 2 : isWhole ? 3 : 0;\nco\
nst told = this.#library.mistaken(text, kind, bytesOf(plan ?? schedule ?? \"\"));\nif (told.status !== 3) return this.#answer(told) && null;\
\nreturn { told: told.line.trimEnd(), ...told.place, hint: textOf(told.output).trimEnd() };\n}\ndraw(program, schedule, { width = 80 } = {}) \
{\nconst isFit = Number.isInteger(width) && width >= 60 && width <= 1000;\nif (!isFit) throw new RangeError(\"the width is from 60 to 1000\"\
);\nreturn this.#text(\"draw\", [program, schedule], width);\n}\nexpect(state, expectation) {\nconst inputs = [bytesOf(String(state)), bytes\
Of(expectation)];\nconst status = this.#library.with(inputs, (words) => this.#library.call(\"expect\", ...words));\nif (status === 3) throw \
new RangeError(`no expectation: ${expectation}`);\nreturn this.#answer({ status }).status === 0;\n}\ndebug(program, commands) {\nconst lines \
= Array.isArray(commands) ? commands.map((line) => `${line}\\n`).join(\"\") : commands;\nreturn this.#text(\"debug\", [program, lines]);\n}\n\
explain(words = \"\") {\nconst told = this.call(\"explain\", [words]);\nif (told.status === 2) throw new NoLine(words, told.line);\nreturn t\
extOf(this.#answer(told).output);\n}\nsession(program) {\nconst text = bytesOf(program).slice();\nconst answer = (told) => this.#answer(told\
);\nreturn Session.of(this.#library, { answer, plan: (plan, options) => this.plan(text, plan, options) }, text);\n}\nget version() {\nreturn \
this.#library.version();\n}\nget memory() {\nreturn this.#library.bytes.length;\n}\n}\nreturn { ...m7, load, Ending, Line, Schedule, Session\
, State, Trace, Went };\n})();\n// app/machine.js\nconst m14 = (() => {\nconst { load, Refused } = m13;\nlet machine = null;\nasync function \
startMachine(bytes) {\nmachine = await load(bytes);\n}\nconst listProgram = program => machine.list(program);\nconst playRun = (program, sch\
edule) => machine.run(program, schedule).text;\nconst planSchedule = (program, plan) => machine.plan(program, plan).text.trim();\nconst open\
Session = program => machine.session(program);\nconst mistakeIn = (program, input) => machine.mistake(program, input);\nconst versionOf = () \
=> machine.version.split(\"\\n\")[0];\nreturn { startMachine, listProgram, playRun, planSchedule, openSession, mistakeIn, versionOf, Refused \
};\n})();\n// app/schedule.js\nconst m15 = (() => {\nfunction choicesOf(schedule, most = Infinity) {\nconst out = [];\nconst known = new Map\
();\nfor (const word of schedule.split(/\\s+/)) {\nif (!word) continue;\nconst [name, count] = word.split(\"*\");\nconst token = known.get(n\
ame) || name;\nknown.set(name, token);\nfor (let n = Math.min(Number(count || 1), most + 1 - out.length); n > 0; n--) out.push(token);\nif (\
out.length > most) break;\n}\nreturn out;\n}\nfunction scheduleOf(choices) {\nconst out = [];\nfor (let i = 0, n; i < choices.length; i += n\
) {\nfor (n = 1; choices[i + n] === choices[i]; n++);\nout.push(choices[i] + (n > 1 ? \"*\" + n : \"\"));\n}\nreturn out.join(\" \");\n}\nfu\
nction commonOf(left, right) {\nlet n = 0;\nwhile (n < left.length && n < right.length && left[n] === right[n]) n++;\nreturn n;\n}\nreturn { \
choicesOf, scheduleOf, commonOf };\n})();\n// app/plan.js\nconst m16 = (() => {\nconst { Refused, planSchedule, playRun } = m14;\nconst { ch\
oicesOf, scheduleOf } = m15;\nconst { nameOf } = m0;\nconst MOST = 20000;\nconst LONGEST = 1000000;\nconst OPEN = /;[^\\n]*|(\\.\\.|\\?[0-9]\
{1,20})(?=[\\s();]|$)/g;\nconst bounded = plan => plan.replace(OPEN, (whole, open) => (open ? open + \"*\" + (MOST + 1) : whole));\nconst TO\
KEN = /^([tx]\\d{1,2}(\\*\\d{1,10})?)?$/;\nconst isSchedule = plan => plan.trim().split(/\\s+/).every(word => TOKEN.test(word));\nconst LONG \
= 20000;\nconst isHeavy = plan => plan.length > LONG || /\\*\\s*\\d{5,}|\\)\\*\\d{3,}/.test(plan);\nfunction choicesOfPlan(text, plan) {\nle\
t all;\nif (isHeavy(plan) && isSchedule(plan)) all = choicesOf(plan, MOST);\nelse {\ntry {\nall = choicesOf(planSchedule(text, bounded(plan)\
), MOST);\n} catch (fault) {\nif (!(fault instanceof Refused) || !isSchedule(plan)) throw fault;\nall = choicesOf(plan, MOST);\n}\n}\nreturn \
{ choices: all.slice(0, MOST), isCut: all.length > MOST };\n}\nfunction playedPlan(text, plan, schedule) {\nconst all = schedule ? choicesOf\
(schedule, LONGEST) : null;\nconst found = all ? { choices: all.slice(0, LONGEST), isCut: all.length > LONGEST } : choicesOfPlan(text, plan)\
;\nreturn { ...found, trace: playRun(text, scheduleOf(found.choices)) };\n}\nconst STOPS = /^(wait|end|die|idle)$/;\nfunction turnsFrom(even\
ts, i) {\nconst { token } = events.at(i);\nlet k = i;\nlet event = events.at(k);\nwhile (event && event.token === token && !STOPS.test(event\
.what)) event = events.at(++k);\nconst isDone = Boolean(event) && event.token === token && event.what !== \"idle\";\nreturn { count: isDone \
? k + 1 - i : Math.max(1, k - i), isDone };\n}\nfunction planOf(program, events, most = 60) {\nconst out = [];\nfor (let i = 0; i < events.l\
ength; ) {\nconst { thread, isLate } = events.at(i);\nconst name = nameOf(program, \"T\", thread);\nconst { count, isDone } = isLate ? { cou\
nt: 1, isDone: false } : turnsFrom(events, i);\nif (isLate) out.push(\"x\" + name);\nelse out.push(name + (isDone ? \".\" : count > 1 ? \"*\" \
+ count : \"\"));\ni += count;\nif (out.length >= most && i < events.length) return out.join(\" \") + \" \\u2026\";\n}\nreturn out.join(\" \"\
);\n}\nfunction readablePlan(program, run, plan) {\nif (run.choices.length > 300 || !/^[tx\\d*\\s]+$/.test(plan)) return plan;\nconst named \
= planOf(program, run.events, Infinity);\ntry {\nconst again = choicesOfPlan(program.text, named).choices;\nreturn scheduleOf(again) === sch\
eduleOf(run.choices) ? named : plan;\n} catch (_) {\nreturn plan;\n}\n}\nreturn { MOST, LONGEST, isHeavy, choicesOfPlan, playedPlan, planOf, \
readablePlan };\n})();\n// app/trace.js\nconst m17 = (() => {\nconst EVENT = new RegExp(\n\"^(\\\\d+ )?([tx])(\\\\d+) (\\\\d+|-) (idle|ok|wa\
it|enter|unwind|end|none|limit|(=|out|throw|catch|die) (-?\\\\d+))\" +\n\"(?: ([+-])([pb])(\\\\d+)(?: (-?\\\\d+))?)?$\"\n);\nfunction readEv\
ent(line) {\nconst m = EVENT.exec(line);\nif (!m) throw new Error(\"no line of a choice: \" + line);\nreturn {\ntoken: m[2] + m[3],\nisLate: \
m[2] === \"x\",\nthread: Number(m[3]),\nrow: m[4] === \"-\" ? -1 : Number(m[4]),\nwhat: m[6] || m[5],\nvalue: m[7] === undefined ? null : Nu\
mber(m[7]),\nmark: m[8] ? { kind: m[8] + m[9], on: Number(m[10]), view: m[11] === undefined ? null : Number(m[11]) } : null\n};\n}\nclass Ev\
ents {\n#text;\n#places;\nconstructor(text) {\nconst places = [];\nfor (let at = 0; at < text.length; at = text.indexOf(\"\\n\", at) + 1) pl\
aces.push(at);\nthis.length = places.length;\nthis.#text = text;\nthis.#places = Uint32Array.from([...places, text.length]);\n}\n#line(i) {\n\
return this.#text.slice(this.#places[i], this.#places[i + 1] - 1);\n}\nat(i) {\nreturn i >= 0 && i < this.length ? readEvent(this.#line(i)) \
: undefined;\n}\ntoken(i) {\nconst [, token] = this.#line(i).split(\" \", 2);\nreturn token;\n}\nisIdle(i) {\nreturn this.#text.endsWith(\" \
idle\", this.#places[i + 1] - 1);\n}\n*[Symbol.iterator]() {\nfor (let i = 0; i < this.length; i++) yield this.at(i);\n}\nfindIndex(test) {\n\
for (let i = 0; i < this.length; i++) if (test(this.at(i))) return i;\nreturn -1;\n}\n}\nfunction readTrace(trace) {\nconst cut = trace.star\
tsWith(\"state \") ? 0 : trace.lastIndexOf(\"\\nstate \") + 1;\nconst events = new Events(trace.slice(0, cut));\nconst last = events.at(even\
ts.length - 1);\nconst refused = last && isRefused(last) ? last : null;\nif (refused) events.length--;\nreturn { events, refused, end: readS\
tate(trace.slice(cut)) };\n}\nfunction readThread(words) {\nconst stack = words.indexOf(\"stack\");\nconst out = words.indexOf(\"out\");\nco\
nst [status, code] = words[2].split(\":\");\nreturn {\nrow: Number(words[1]),\nstatus,\ncode: code === undefined ? null : Number(code),\nisI\
nterrupted: words[3] === \"1\",\nregisters: words.slice(5, 13).map(Number),\nstack: words.slice(stack + 1, out),\nout: words.slice(out + 1).\
map(Number)\n};\n}\nfunction readState(text) {\nconst key = text.replace(/^state \\d+ \\d+/, \"\");\nconst state = { threads: [], phasers: [\
], barriers: [], cells: {}, word: \"\", key };\nfor (const line of text.trimEnd().split(\"\\n\")) {\nconst words = line.split(\" \");\nconst \
[, first, second, third, fourth] = words;\nif (words[0] === \"state\") state.word = third;\nelse if (words[0][0] === \"t\") state.threads.pu\
sh(readThread(words));\nelse if (words[0][0] === \"p\") {\nstate.phasers.push({\nview: Number(first),\nparties: Number(second),\narrived: Nu\
mber(third),\nmissing: Number(fourth)\n});\n} else if (words[0][0] === \"b\") state.barriers.push({ waiting: Number(first), isBroken: second \
=== \"1\" });\nelse state.cells[Number(words[0].slice(1))] = Number(first);\n}\nreturn state;\n}\nfunction doingOf(moment, t) {\nconst { sta\
tus } = moment.state.threads[t];\nif (status === \"ended\") return \"over\";\nif (status === \"died\") return \"dead\";\nif (status === \"th\
rows\") return \"throws\";\nif (moment.isVeiled) return status === \"waits\" ? \"waits\" : \"runs\";\nif (status === \"waits\") return momen\
t.next[t] ? \"free\" : \"waits\";\nreturn moment.next[t] ? \"runs\" : \"held\";\n}\nconst veiled = moment => ({ ...moment, next: {}, late: {\
}, isVeiled: true });\nconst isRefused = event => event.what === \"none\" || event.what === \"limit\";\nreturn { readEvent, readTrace, readS\
tate, doingOf, veiled, isRefused };\n})();\n// app/player.js\nconst m18 = (() => {\nconst { openSession } = m14;\nconst { commonOf } = m15;\n\
const { isRefused, readEvent, readState } = m17;\nconst BACK = 40;\nconst EVERY = 50000;\nfunction makePlayer(program) {\nlet session = null\
;\nlet led = [];\nlet at = 0;\nlet base = 0;\nconst marks = new Map();\nfunction dropMarks(behind) {\nfor (const [i, mark] of marks) {\nif (\
i <= behind) continue;\nmark.close();\nmarks.delete(i);\n}\n}\nconst markBefore = i => Math.max(0, ...[...marks.keys()].filter(one => one <= \
i));\nfunction startFrom(i) {\nif (session) session.close();\nsession = i ? marks.get(i).copy() : openSession(program.text);\nat = base = i;\
\n}\nfunction goOn(i) {\nwhile (at < i) {\nconst next = Math.min(i, at - (at % EVERY) + EVERY);\nsession.command(\"g \" + led.slice(at, next\
).join(\" \"));\nat = next;\nif (at % EVERY === 0 && !marks.has(at)) marks.set(at, session.copy());\n}\n}\nfunction lead(choices, i) {\ncons\
t common = choices === led ? Infinity : commonOf(led, choices);\ndropMarks(common);\nled = choices;\nconst kept = Math.min(at, i, common);\n\
const mark = markBefore(i);\nif (!session || kept < base || at - kept > BACK || mark > kept + BACK) startFrom(mark);\nelse for (; at > kept; \
at--) session.command(\"b\");\ngoOn(i);\n}\nfunction tried(token) {\nconst event = readEvent(session.command(\"s \" + token).trim());\nif (!\
isRefused(event)) session.command(\"b\");\nreturn isRefused(event) || event.what === \"idle\" ? null : event;\n}\nfunction momentAt(choices, \
i) {\nlead(choices, i);\nconst moment = { i, state: readState(session.command(\"p\")), next: {}, late: {} };\nconst { turns, expiries } = se\
ssion.enabled;\nfor (const t of turns) moment.next[t] = tried(\"t\" + t);\nfor (const t of expiries) moment.late[t] = tried(\"x\" + t);\nfor \
(const all of [moment.next, moment.late]) for (const t in all) if (!all[t]) delete all[t];\nreturn moment;\n}\nfunction close() {\nif (sessi\
on) session.close();\ndropMarks(-1);\nsession = null;\nled = [];\nat = base = 0;\n}\nreturn { momentAt, close };\n}\nreturn { makePlayer };\n\
})();\n// app/run.js\nconst m19 = (() => {\nconst { listProgram, planSchedule, playRun } = m14;\nconst { readProgram } = m0;\nconst { LONGES\
T } = m16;\nconst { makePlayer } = m18;\nconst { choicesOf, commonOf, scheduleOf } = m15;\nconst { readTrace } = m17;\nconst MORE = 100;\nco\
nst KEPT = 3000;\nconst openProgram = text => readProgram(text, listProgram(text));\nfunction makeRun(tree, parent, fork, choices, trace = p\
layRun(tree.program.text, scheduleOf(choices))) {\nconst { events, refused, end } = readTrace(trace);\nconst played = choices.length === eve\
nts.length ? choices : choices.slice(0, events.length);\nconst kept = { moments: new Map(), folds: [] };\nreturn { id: tree.runs.length, par\
ent, fork, choices: played, trace, events, end, refused, kept };\n}\nconst withRun = (tree, run) => ({ tree: { ...tree, runs: [...tree.runs, \
run] }, run });\nfunction plantTree(program, choices, trace) {\nconst tree = { program, runs: [], player: makePlayer(program) };\nreturn wit\
hRun(tree, makeRun(tree, -1, 0, choices, trace)).tree;\n}\nconst lengthOf = run => run.choices.length;\nconst eventTo = (run, i) => run.even\
ts.at(i - 1) || null;\nfunction ownerOf(tree, id, i) {\nwhile (id > 0 && i <= tree.runs[id].fork) id = tree.runs[id].parent;\nreturn tree.ru\
ns[id];\n}\nfunction runBy(tree, id, i, token) {\nif (tree.runs[id].choices[i] === token) return tree.runs[id];\nconst owner = ownerOf(tree, \
id, i);\nif (owner.choices[i] === token) return owner;\nreturn tree.runs.find(run => run.parent === owner.id && run.fork === i && run.choice\
s[i] === token) || null;\n}\nfunction turnsOf(text, before, token) {\nconst again = Array(99).fill(\"t\" + token.slice(1));\nconst { events \
} = readTrace(playRun(text, scheduleOf([...before, token, ...again])));\nconst made = [];\nfor (let k = before.length; k < events.length && \
!events.isIdle(k); k++) {\nmade.push(events.token(k));\nif (/^(wait|end|die)$/.test(events.at(k).what)) break;\n}\nreturn made;\n}\nfunction \
restOf(text, before, rest) {\nconst { events } = readTrace(playRun(text, scheduleOf([...before, ...rest])));\nconst own = [];\nfor (let k = \
before.length; k < events.length; k++) if (!events.isIdle(k)) own.push(events.token(k));\nreturn own;\n}\nfunction forkRun(tree, id, i, toke\
n) {\nconst found = runBy(tree, id, i, token);\nif (found) return { tree, run: found };\nconst owner = ownerOf(tree, id, i);\nconst { text } \
= tree.program;\nconst before = owner.choices.slice(0, i);\nconst rest = owner.choices.slice(i);\nconst most = Math.min(rest.length + MORE, \
LONGEST - i);\nlet made = turnsOf(text, before, token).slice(0, most);\nif (!made.length) throw new Error(\"this choice would do nothing her\
e\");\nmade = [...made, ...restOf(text, [...before, ...made], rest)].slice(0, most);\nif (made.length < most) {\nconst plan = scheduleOf([..\
.before, ...made]) + \" ..*\" + (most - made.length);\nmade = choicesOf(planSchedule(text, plan)).slice(i);\n}\nreturn withRun(tree, makeRun\
(tree, owner.id, i, [...before, ...made]));\n}\nfunction graftRun(tree, choices) {\nlet best = tree.runs[0];\nlet most = -1;\nfor (const run \
of tree.runs) {\nconst common = commonOf(run.choices, choices);\nif (common === choices.length && lengthOf(run) === common) return { tree, r\
un };\nif (common > most) [best, most] = [run, common];\n}\nreturn withRun(tree, makeRun(tree, ownerOf(tree, best.id, most).id, most, choice\
s));\n}\nconst firstAlone = tree => ({ ...tree, runs: tree.runs.slice(0, 1) });\nfunction depthOf(tree, run) {\nlet depth = 0;\nfor (let one \
= run; one.parent >= 0; one = tree.runs[one.parent]) depth++;\nreturn depth;\n}\nfunction inOrder(tree, from = 0, level = 0) {\nconst forks \
= tree.runs.filter(run => run.parent === from).sort((a, b) => a.fork - b.fork);\nreturn [{ run: tree.runs[from], level }, ...forks.flatMap(r\
un => inOrder(tree, run.id, level + 1))];\n}\nconst hasMoment = (tree, id, i) => ownerOf(tree, id, i).kept.moments.has(i);\nfunction momentO\
f(tree, id, i) {\nconst run = ownerOf(tree, id, i);\nconst { moments } = run.kept;\nif (moments.has(i)) return moments.get(i);\nif (moments.\
size > KEPT) moments.clear();\nconst moment = tree.player.momentAt(run.choices, i);\nmoments.set(i, moment);\nreturn moment;\n}\nfunction cl\
oseTree(tree) {\nif (tree) tree.player.close();\n}\nreturn { openProgram, plantTree, lengthOf, eventTo, ownerOf, runBy, forkRun, graftRun, f\
irstAlone, depthOf, inOrder, hasMoment, momentOf, closeTree };\n})();\n// app/link.js\nconst m20 = (() => {\nconst { forkRun, lengthOf } = m\
19;\nconst MODES = { e: \"explore\", l: \"lesson\", q: \"quiz\", c: \"challenge\" };\nconst LONGEST = 2000000;\nconst MOST_LINK = 60000;\nfu\
nction addressOf(tree, run, at) {\nlet path = \"\";\nfor (let one = run; one.parent >= 0; one = tree.runs[one.parent]) {\npath = one.fork + \
1 + one.choices[one.fork] + \".\" + path;\n}\nreturn path + at;\n}\nconst ADDRESS = /^(\\d{1,7}[tx]\\d{1,2}\\.)*\\d{1,7}$/;\nfunction walkTo\
(tree, address) {\nlet run = tree.runs[0];\nconst parts = address.split(\".\");\nlet at = Number(parts.pop()) || 0;\nlet isWhole = true;\nfo\
r (const part of parts) {\nconst m = /^(\\d+)([tx]\\d+)$/.exec(part);\nconst i = Number(m && m[1]) - 1;\ntry {\nif (i < 0 || i > lengthOf(ru\
n)) throw new Error(\"no such choice\");\n({ tree, run } = forkRun(tree, run.id, i, m[2]));\n} catch (_) {\nisWhole = false;\nat = i;\nbreak\
;\n}\n}\nreturn { tree, run, at: Math.min(lengthOf(run), at), isWhole };\n}\nasync function through(bytes, stream) {\nconst reader = new Blo\
b([bytes]).stream().pipeThrough(stream).getReader();\nconst parts = [];\nfor (let all = 0, one; !(one = await reader.read()).done; parts.pus\
h(one.value)) {\nall += one.value.length;\nif (all > LONGEST) throw new Error(\"the link holds too much\");\n}\nreturn new Uint8Array(await \
new Blob(parts).arrayBuffer());\n}\nfunction base64(bytes) {\nlet signs = \"\";\nfor (const byte of bytes) signs += String.fromCharCode(byte\
);\nreturn btoa(signs).replace(/\\+/g, \"-\").replace(/\\//g, \"_\").replace(/=/g, \"\");\n}\nconst unbase64 = text => Uint8Array.from(atob(\
text.replace(/-/g, \"+\").replace(/_/g, \"/\")), sign => sign.charCodeAt(0));\nasync function linkOf({ text, plan, name, address, mode }) {\n\
const packed = await through(\nnew TextEncoder().encode(JSON.stringify([text, plan, name])),\nnew CompressionStream(\"deflate-raw\")\n);\nre\
turn \"#\" + [mode[0], address, base64(packed)].join(\"/\");\n}\nasync function readLink(hash) {\nif (hash.length < 2) return null;\nif (ADD\
RESS.test(hash.slice(1))) return { address: hash.slice(1) };\nconst [sign, address, packed] = hash.slice(1).split(\"/\");\nif (!Object.hasOw\
n(MODES, sign) || !packed || !ADDRESS.test(address)) throw new Error(\"it isn\\u2019t whole\");\nconst bytes = await through(unbase64(packed\
), new DecompressionStream(\"deflate-raw\"));\nconst read = JSON.parse(new TextDecoder().decode(bytes));\nif (\n!Array.isArray(read) || read\
.slice(0, 2).some(one => typeof one !== \"string\")\n) throw new Error(\"it holds no program\");\nreturn { text: read[0], plan: read[1], nam\
e: String(read[2] || \"\"), address, mode: MODES[sign] };\n}\nreturn { MOST_LINK, addressOf, walkTo, linkOf, readLink };\n})();\n// app/file\
.js\nconst m21 = (() => {\nconst NAMES = [\"listing\", \"source\", \"schedule\", \"trace\"];\nconst unixText = text => text.replace(/\\r\\n/\
g, \"\\n\").replace(/\\r/g, \" \");\nfunction runIn(page, name) {\nconst [listing, source, schedule, trace] = NAMES.map(one => page.getEleme\
ntById(one)?.textContent || \"\");\nreturn listing || source ? { name, listing, source: unixText(source), schedule, trace } : null;\n}\nfunc\
tion takePage() {\nfor (const name of NAMES) document.getElementById(name).textContent = \"\";\nconst page = \"<!doctype html>\\n\" + docume\
nt.documentElement.outerHTML + \"\\n\";\ndocument.getElementById(\"texts\").remove();\nreturn page;\n}\nfunction itemOf(page) {\nconst { nam\
e, listing, source, schedule, trace } = page;\nconst item = { group: \"This file\", name, title: name, program: source || listing, plan: sch\
edule };\nreturn trace ? { ...item, schedule, page } : { ...item, plan: schedule || \"..\" };\n}\nconst bareName = path => path.split(\"/\")\
.pop().replace(/\\.\\w+$/, \"\") || \"run\";\nfunction save(name, text, type = \"text/plain\") {\nconst link = document.createElement(\"a\")\
;\nlink.href = URL.createObjectURL(new Blob([text], { type }));\nlink.download = name;\nlink.click();\nsetTimeout(() => URL.revokeObjectURL(\
link.href), 1000);\n}\nfunction readProgramFile(text) {\nconst cut = /^[ \\t]*\\.run[ \\t\\r]*(;.*)?$\\n?/m.exec(text);\nif (!cut) return { \
program: text, plan: \"..\" };\nreturn { program: text.slice(0, cut.index), plan: text.slice(cut.index + cut[0].length).trim() || \"..\" };\n\
}\nreturn { runIn, takePage, itemOf, bareName, save, readProgramFile };\n})();\n// app/keys.js\nconst m22 = (() => {\nconst isField = elemen\
t => /^(INPUT|TEXTAREA|SELECT)$/.test(element.tagName);\nconst isButton = element => element.tagName === \"BUTTON\" || element.tagName === \"\
A\";\nconst KEY_TEXTS = [\n[\"\\u2190 \\u2192\", \"a choice back, forward\"],\n[\"Page Up, Down\", \"the same: a presenter\\u2019s keys\"],\n\
[\"Home End\", \"start, end\"],\n[\"Space\", \"play\"],\n[\"1 \\u2026 9\", \"that name is next\"],\n[\"[ ]\", \"the run before, after\"],\n[\
\"Esc\", \"close this; back to the fork\"],\n[\"+ \\u2212 0\", \"size\"],\n[\"p v o\", \"picture, values, orders\"],\n[\"f\", \"timeline alo\
ne\"],\n[\"e\", \"edit the program\"],\n[\"s\", \"side by side\"],\n[\"a \\u2026 d\", \"an answer of the quiz\"],\n[\"?\", \"this help\"]\n]\
;\nfunction listenToKeys(act, hasLetters) {\ndocument.addEventListener(\"keydown\", event => {\nif ((event.ctrlKey || event.metaKey) && even\
t.key === \"p\") return act.print();\nif (event.ctrlKey || event.metaKey || event.altKey) return;\nif (event.key === \"Escape\") return act.\
escape(isField(event.target) ? event.target : null);\nif (isField(event.target)) return;\nif (isButton(event.target) && (event.key === \" \" \
|| event.key === \"Enter\")) return;\nif (event.target.closest(\".sheet\")) return;\nconst go = act.keys[event.key];\nif (go) {\nevent.preve\
ntDefault();\nreturn go();\n}\nif (!hasLetters()) return;\nif (/^[1-9]$/.test(event.key)) return act.number(Number(event.key));\nif (act.let\
ter(event.key)) event.preventDefault();\n});\n}\nreturn { KEY_TEXTS, listenToKeys };\n})();\n// app/help.js\nconst m23 = (() => {\nconst { b\
utton, h } = m3;\nconst { KEY_TEXTS } = m22;\nconst { javaText, rowText } = m1;\nconst dot = kind => h(\"span.event-\" + kind + \".hue0\", {\
}, h(\"i.event-dot\"));\nconst lane = kind => h(\"i.lane.lane-\" + kind + \".hue0\");\nconst token = kind => h(\"span.token.token-\" + kind \
+ \".hue0\", {}, \"ann\");\nconst rule = (kind, dot) => h(\"span.mark\" + kind, {}, dot);\nconst swatch = kind => h(\"i.help-colour.help-\" \
+ kind);\nconst timelineSigns = () => [\n[dot(\"value\"), \"a choice that did something\"],\n[dot(\"throw\"), \"it throws, or dies\"],\n[dot\
(\"end\"), \"it ends\"],\n[dot(\"idle\"), \"its turn, but it can\\u2019t go on\"],\n[lane(\"runs\"), \"it runs\"],\n[lane(\"waits\"), \"it w\
aits\"],\n[lane(\"free\"), \"it waited, and may go on\"],\n[lane(\"held\"), \"it has to wait for a routine\"],\n[rule(\"\", h(\"i.mark-dot\"\
)), \"a phase ends, or a barrier trips; dots: who arrived for it\"],\n[rule(\".mark-broke\"), \"a barrier breaks\"]\n];\nconst pictureSigns \
= () => [\n[\"card\", \"a phaser; each of its seats is a party\"],\n[h(\"span.seat\"), \"an arrival is missing\"],\n[h(\"span.seat.is-full\"\
, {}, token(\"waits\")), \"ann arrived here, and waits\"],\n[h(\"span.seat.is-full.is-gone\", {}, h(\"span.seat-been.hue0\", {}, \"\\u2713 a\
nn\")), \"ann arrived, and went on\"],\n[h(\"span.seat.seat-child\", {}, \"red\"), \"the seat of a child, with a line from its card\"],\n[h(\
\"span.seat.seat-child.is-full\", {}, \"red\"), \"the child is complete, and has arrived\"],\n[token(\"free\"), \"released: ann waited, and \
may go on\"],\n[token(\"over\"), \"ann has ended; the number beside a name is its output\"],\n[\"gate\", \"a barrier; its bars break with it\
\"],\n[\"\\u26A1\\uFE0E\", \"interrupted\"],\n[h(\"i.clock\"), \"the time-out of a wait\"]\n];\nconst programSigns = () => [\n[\"0 1 2\", \"\
the number of a row, as the trace has it\"],\n[h(\"i.place.hue0\", {}, \"ann\"), \"ann is at this row\"]\n];\nconst coloursSigns = () => [\n\
[swatch(\"now\"), \"now: the choice that is shown\"],\n[swatch(\"stuck\"), \"stuck, thrown, broken or refused\"],\n[swatch(\"ended\"), \"end\
ed\"],\n[swatch(\"later\"), \"pale: it comes later\"],\n[swatch(\"thread\"), \"a thread has a colour, and always its name\"]\n];\nconst plan\
Signs = () => [\n[\"ann\", \"ann has one turn\"],\n[\"ann.\", \"ann goes on until she waits or ends\"],\n[\"ann*3\", \"three turns\"],\n[\".\
.\", \"all go on in turn, to the end\"],\n[\"?7\", \"a random order, the seventh\"],\n[\"xann\", \"the time of ann\\u2019s wait runs out\"]\n\
];\nfunction wordsOf(program) {\nconst rows = program.rows.filter((row, n, all) => all.findIndex(other => other.word === row.word) === n);\n\
return rows.map(row => [h(\"code\", {}, rowText(program, row)), javaText(program, row)]);\n}\nfunction part(title, list) {\nconst one = ([si\
gn, text]) => [h(\"dt\", {}, sign), h(\"dd\", {}, text)];\nreturn [h(\"h2\", {}, title), h(\"dl.help-list\", {}, list.map(one))];\n}\nconst \
keySigns = () => KEY_TEXTS.map(([sign, text]) => [h(\"kbd\", {}, sign), text]);\nconst helpSheet = (program, close) => [\nh(\"div.sheet-colu\
mn\", {}, part(\"Timeline\", timelineSigns()), part(\"Colours\", coloursSigns()), part(\"Plan\", planSigns())),\nh(\"div.sheet-column\", {}, \
part(\"Picture\", pictureSigns()), part(\"Program\", programSigns())),\nh(\n\"div.sheet-column.help-last\",\n{},\npart(\"Words of this progr\
am\", wordsOf(program)),\nh(\"div.sheet-keys\", {}, part(\"Keys\", keySigns())),\nbutton(\"Close\", close, { kind: \".main\" })\n)\n];\nretu\
rn { helpSheet };\n})();\n// app/menu.js\nconst m24 = (() => {\nconst { byId, fill, h } = m3;\nfunction makeSheet() {\nconst sheet = byId(\"\
sheet\");\nlet opener = null;\nfunction close(isBack) {\nif (sheet.hidden) return;\nsheet.hidden = true;\nopener.setAttribute(\"aria-expande\
d\", \"false\");\nif (isBack) opener.focus();\n}\nfunction open(button, label, content) {\nconst isSame = !sheet.hidden && sheet.getAttribut\
e(\"aria-label\") === label;\nclose(false);\nif (isSame) return;\nopener = button;\nfill(sheet, content);\nsheet.setAttribute(\"aria-label\"\
, label);\nsheet.hidden = false;\nbutton.setAttribute(\"aria-expanded\", \"true\");\nconst box = button.getBoundingClientRect();\nconst left \
= Math.max(8, Math.min(box.left, innerWidth - sheet.offsetWidth - 8));\nsheet.style.setProperty(\"left\", left + \"px\");\nsheet.style.setPr\
operty(\"top\", box.bottom + 6 + \"px\");\nsheet.style.setProperty(\"max-height\", innerHeight - box.bottom - 14 + \"px\");\nconst current = \
sheet.querySelector(\"[aria-current]\");\n(current || sheet.querySelector(\"button, input, textarea\"))?.focus();\nif (!current) sheet.scrol\
lTop = 0;\n}\ndocument.addEventListener(\"pointerdown\", event => {\nif (!sheet.contains(event.target) && !event.target.closest(\"[aria-expa\
nded]\")) close(false);\n});\nsheet.addEventListener(\"keydown\", event => {\nconst list = [...sheet.querySelectorAll(\"button, input, selec\
t, textarea\")];\nconst by = { ArrowDown: 1, ArrowUp: -1 }[event.key];\nif (!by || event.target.tagName === \"TEXTAREA\" || event.target.tag\
Name === \"SELECT\") return;\nevent.preventDefault();\nlist[(list.indexOf(document.activeElement) + by + list.length) % list.length].focus()\
;\n});\nreturn { open, close, isOpen: () => !sheet.hidden };\n}\nconst column = (title, ...content) => h(\"div.sheet-column\", {}, h(\"h2\", \
{}, title), content);\nfunction entryOf(sheet) {\nreturn (text, act, key) => {\nconst onclick = () => {\nsheet.close(true);\nact();\n};\nret\
urn h(\"button.entry\", { type: \"button\", onclick }, h(\"span\", {}, text), key ? h(\"kbd\", {}, key) : null);\n};\n}\nfunction programsMe\
nu(sheet, menu, current, act) {\nconst entry = entryOf(sheet);\nconst groups = new Map();\nfor (const item of menu) groups.set(item.group, [\
...(groups.get(item.group) || []), item]);\nconst one = item => {\nconst made = entry(item.title, () => act.open(item));\nif (item === curre\
nt) made.setAttribute(\"aria-current\", \"true\");\nreturn made;\n};\nconst chosen = event => {\nconst [file] = event.target.files;\nsheet.c\
lose(true);\nif (file) act.file(file);\n};\nconst input = h(\"input\", { type: \"file\", accept: \".asm,.txt,.html,text/plain\", onchange: c\
hosen });\nreturn [\n[...groups].map(([group, items]) => column(group, items.map(one))),\ncolumn(\n\"Yours\",\nentry(\"My own program\", act\
.own),\nentry(\"Keep this as my own\", act.keep),\nh(\"label.entry.entry-file\", {}, h(\"span\", {}, \"Open a file\\u2026\"), input)\n)\n];\n\
}\nconst SPEEDS = [0.5, 1, 2, 4, 8];\nfunction mainMenu(sheet, state, settings, act) {\nconst entry = entryOf(sheet);\nconst box = (text, na\
me) => {\nconst onchange = event => act.set(name, event.target.checked);\nreturn h(\n\"label.entry\",\n{},\nh(\"input\", { type: \"checkbox\"\
, checked: state[name], onchange }),\nh(\"span\", {}, text)\n);\n};\nconst speed = h(\n\"select\",\n{ \"aria-label\": \"Speed of Play\", onc\
hange: event => act.speed(Number(event.target.value)) },\nSPEEDS.map(\none => h(\n\"option\",\n{ value: one, selected: one === settings.spee\
d },\n\"every \" + (one === 1 ? \"second\" : one + \" seconds\")\n)\n)\n);\nconst theme = name => {\nconst given = { type: \"button\", \"ari\
a-pressed\": String(settings.theme === name), onclick: () => act.theme(name) };\nreturn h(\"button\", given, name);\n};\nreturn [\nh(\n\"div\
.sheet-column\",\n{},\nh(\"h2\", {}, \"Show\"),\nbox(\"Hide what comes later\", \"isHidden\"),\nbox(\"Fold idle choices\", \"isFolded\"),\nb\
ox(\"Java\\u2019s words\", \"isJava\"),\nbox(\"Timeline alone\", \"isAlone\"),\nbox(\"Keys of one letter or sign\", \"hasLetters\"),\nh(\"h2\
\", {}, \"Play\"),\nentry(\"Play, a choice after another\", act.play, \"Space\"),\nh(\"label.entry\", {}, h(\"span\", {}, \"Speed\"), speed)\
,\nh(\"h2\", {}, \"Colours\"),\nh(\"div.sheet-row\", {}, [\"auto\", \"light\", \"dark\"].map(theme))\n),\nh(\n\"div.sheet-column\",\n{},\nh(\
\"h2\", {}, \"Run\"),\nentry(\"Start again\", act.again),\nentry(\"Side by side\", act.side, \"s\"),\nentry(\"Make it the run\", act.makeFir\
st),\nentry(\"Only run 1\", act.onlyFirst),\nentry(\"Larger\", act.larger, \"+\"),\nentry(\"Smaller\", act.smaller, \"\\u2212\"),\nh(\"h2\", \
{}, \"Print\"),\nentry(\"Handout: all choices\", act.handout, \"Ctrl P\"),\nentry(\"Worksheet\", act.worksheet)\n),\nh(\n\"div.sheet-column\"\
,\n{},\nh(\"h2\", {}, \"Take with you\"),\nentry(\"Copy a link\", act.copyLink),\nentry(\"Copy the plan\", act.copyPlan),\nentry(\"Copy the \
schedule\", act.copySchedule),\nentry(\"Copy the command\", act.copyCommand),\nentry(\"Save the program\", act.saveProgram),\nentry(\"Save t\
he trace\", act.saveTrace),\nentry(\"Save this page with the run\", act.savePage),\nh(\"h2\", {}, \"Help\"),\nentry(\"Keys, signs, colours\"\
, act.help, \"?\"),\nh(\"p.sheet-key\", {}, settings.version)\n)\n];\n}\nconst copySheet = text => column(\n\"Copy this\",\nh(\"textarea.cop\
ied\", { rows: 4, readonly: true, \"aria-label\": \"The text to copy\" }, text)\n);\nreturn { makeSheet, programsMenu, mainMenu, copySheet }\
;\n})();\n// app/sentence.js\nconst m25 = (() => {\nconst { ARRIVES, KINDS, nameOf, operandOf } = m0;\nconst { callOf, entryText, hasSeveral\
, labelOf, listed, objectOf, phaseOf, rowText, strong, threadName, thrown } = m1;\nfunction markText(program, mark, before) {\nconst barrier \
= mark.kind[1] === \"b\" ? nameOf(program, \"B\", mark.on) : \"\";\nif (mark.kind === \"+b\") return \"Barrier \" + barrier + \" trips: all \
who wait there may go on.\";\nif (mark.kind === \"-b\") return \"Barrier \" + barrier + \" breaks.\";\nconst name = nameOf(program, \"P\", m\
ark.on);\nconst old = phaseOf(before.phasers[mark.on].view);\nif (mark.view < 0) return \"Phase \" + old + \" of \" + name + \" was its last\
: it is terminated.\";\nreturn \"Phase \" + old + \" of \" + name + \" ends, phase \" + mark.view + \" begins.\";\n}\nfunction countText(pro\
gram, row, state) {\nconst b = operandOf(row, \"B\");\nif (b >= 0) {\nreturn state.barriers[b].waiting + \" of \" + program.barriers[b].part\
ies + \" wait at \" + nameOf(program, \"B\", b) +\n\".\";\n}\nlet p = operandOf(row, \"P\");\nlet child = -1;\nwhile (program.phasers[p].par\
ent >= 0 && state.phasers[p].parties && !state.phasers[p].missing) {\nchild = p;\np = program.phasers[p].parent;\n}\nconst one = state.phase\
rs[p];\nconst name = nameOf(program, \"P\", p);\nif (one.view < 0) return \"\";\nif (!one.parties) return name + \" has no parties now.\";\n\
if (child < 0) return one.arrived + \" of \" + one.parties + \" parties of \" + name + \" have arrived.\";\nreturn nameOf(program, \"P\", ch\
ild) + \" is complete and arrives at \" + name + \": \" + one.arrived + \" of \" +\none.parties + \".\";\n}\nfunction valueText(program, eve\
nt, row, thread, who) {\nconst call = callOf(program, row, thread);\nconst into = row.operands[0] || \"\";\nconst value = strong(event.value\
);\nif (thread.status === \"waits\") return [\"The wait of \", who, \" at \" + call + \" is over: it returns \", value, \".\"];\nif (row.wor\
d === \"ret\") {\nconst entry = entryText(program, thread.stack[thread.stack.length - 1]);\nreturn [who, \" ends the \" + entry + \"; its ow\
n call returns \", value, \".\"];\n}\nif (call) return [who, \" calls \" + call + \", which returns \", value, \".\"];\nif (row.word === \"a\
dd\" || row.word === \"sub\") {\nconst [left, right] = row.operands.slice(1).map(register => thread.registers[Number(register[1])]);\nreturn \
[who, \": \" + into + \" = \" + left + (row.word === \"add\" ? \" + \" : \" \\u2212 \") + right + \" = \", value, \".\"];\n}\nconst from = { \
mov: \" from \" + row.operands[1], self: \", its own number\" }[row.word] || \"\";\nconst cell = row.word === \"lds\" ? \" from \" + nameOf(\
program, \"C\", operandOf(row, \"C\")) : \"\";\nreturn [who, \" puts \", value, from + cell + \" into \" + into + \".\"];\n}\nfunction plain\
Text(program, event, row, thread, who) {\nconst call = callOf(program, row, thread);\nconst there = row.kinds.includes(\"L\") ? labelOf(prog\
ram, operandOf(row, \"L\")) : \"\";\nif (call) return [who, \" calls \" + call + \".\"];\nconst said = {\njmp: \" goes on at \" + there,\nca\
ll: \" calls the rows at \" + there,\ntry: \" sets a handler: what is thrown from here on is caught at \" + there,\nendtry: \" takes its han\
dler away\",\nret: \" comes back from its call\"\n};\nif (said[row.word]) return [who, said[row.word] + \".\"];\nif (row.word === \"sts\") {\
\nconst value = thread.registers[Number(row.operands[0][1])];\nreturn [who, \" stores \", strong(value), \" in \" + nameOf(program, \"C\", o\
perandOf(row, \"C\")) + \".\"];\n}\nif (there) {\nconst both = row.operands.slice(0, 2).map(register => register + \" = \" + thread.register\
s[Number(register[1])]);\nreturn [who, \" compares \" + both.join(\" with \") + \".\"];\n}\nreturn [who, \": \" + rowText(program, row) + \"\
.\"];\n}\nfunction idleText(event, thread, call, who) {\nif (event.isLate) return [\n\"The time-out of \",\nwho,\n\" would come now, but it \
has no wait that can time out: nothing happens.\"\n];\nconst why = {\nwaits: \", which still waits at \" + call,\nended: \", which has ended\
\",\ndied: \", which is dead\"\n}[thread.status];\nreturn [\"It is the turn of \", who, (why || \", which can\\u2019t go on yet\") + \": not\
hing happens.\"];\n}\nfunction throwText(program, event, row, thread, who, call) {\nconst waited = thread.status === \"waits\";\nconst cause \
= event.isLate\n? [\"The time of \", who, \"\\u2019s wait at \" + call + \" is up: it \"]\n: waited\n? [\"The wait of \", who, \" at \" + ca\
ll + \" ends: it \"]\n: [who, call ? \" calls \" + call + \", which \" : \" \"];\nreturn [...cause, strong(\"throws \" + thrown(event.value, \
row)), \".\"];\n}\nfunction eventText(program, event, before) {\nconst who = { thread: event.thread };\nif (event.what === \"none\") return \
[\"There is no thread \" + event.thread + \".\"];\nif (event.what === \"limit\") return [\"No more choices are allowed.\"];\nconst row = pro\
gram.rows[event.row];\nconst thread = before.threads[event.thread];\nconst call = callOf(program, row, thread);\nconst top = thread.stack[th\
read.stack.length - 1] || \"\";\nswitch (event.what) {\ncase \"idle\":\nreturn idleText(event, thread, call, who);\ncase \"=\":\nreturn valu\
eText(program, event, row, thread, who);\ncase \"ok\":\nreturn plainText(program, event, row, thread, who);\ncase \"wait\":\nreturn [who, \" \
calls \" + call + \" and \", strong(\"waits\"), \".\"];\ncase \"out\":\nreturn [who, \" puts out \", strong(event.value), \".\"];\ncase \"en\
d\":\nreturn [who, \" \", strong(\"ends\"), \".\"];\ncase \"die\":\nreturn [\"Nothing catches \" + thrown(event.value) + \": \", who, \" \", \
strong(\"is dead\"), \".\"];\ncase \"catch\":\nreturn [\n\"A handler of \",\nwho,\n\" \",\nstrong(\"catches \" + thrown(event.value)),\n\" a\
t \" + labelOf(program, Number(top.slice(1))) + \".\"\n];\ncase \"unwind\":\nreturn [who, \", throwing \" + thrown(thread.code) + \", leaves \
the \" + entryText(program, top) + \".\"];\ncase \"enter\": {\nconst routine = operandOf(row, \"P\") >= 0 ? \"enters onAdvance\" : \"enters \
the action\";\nreturn [who, \" calls \" + call + \", and as the last to arrive it \", strong(routine), \".\"];\n}\ndefault:\nreturn throwTex\
t(program, event, row, thread, who, call);\n}\n}\nconst BRANCHES = { beq: [\"equal\", \"not equal\"], bne: [\"not equal\", \"equal\"], blt: \
[\"less\", \"not less\"] };\nfunction branchText(program, event, after) {\nconst row = program.rows[event.row];\nif (event.what !== \"ok\" |\
| !row || !BRANCHES[row.word]) return \"\";\nconst target = operandOf(row, \"L\");\nconst [is, isNot] = BRANCHES[row.word];\nconst there = \"\
it goes on at \" + labelOf(program, target);\nif (target === event.row + 1) return \"Either way it goes on below.\";\nif (!after) return \"I\
f \" + is + \", \" + there + \", else below.\";\nconst isThere = after.threads[event.thread].row === target;\nconst they = row.word === \"bl\
t\" ? \"The first is \" : \"They are \";\nreturn they + (isThere ? is + \": \" + there : isNot + \": it goes on below\") + \".\";\n}\nfuncti\
on refusedText({ what, thread }, number) {\nconst why = what === \"none\" ? \"there is no thread \" + thread : \"no more choices or steps ar\
e allowed\";\nreturn \"Choice \" + number + \" is refused: \" + why + \". The run stops here.\";\n}\nfunction sentenceOf(program, event, bef\
ore, after) {\nconst said = eventText(program, event, before.state);\nconst row = program.rows[event.row];\nconst branch = branchText(progra\
m, event, after.state);\nif (branch) return [...said, \" \" + branch];\nif (event.mark) return [...said, \" \", strong(markText(program, eve\
nt.mark, before.state))];\nconst isCall = row && before.state.threads[event.thread].status !== \"waits\";\nconst arrived = event.what === \"\
wait\" || (event.what === \"=\" && event.value >= 0 && row && ARRIVES.has(row.word));\nconst count = isCall && arrived ? countText(program, \
row, after.state) : \"\";\nreturn count ? [...said, \" \" + count] : said;\n}\nfunction wouldText(program, event, moment) {\nconst [first, .\
..rest] = eventText(program, event, moment.state);\nconst branch = branchText(program, event);\nconst said = [typeof first === \"string\" ? \
first[0].toLowerCase() + first.slice(1) : first, ...rest];\nif (branch) return [...said, \" \" + branch];\nreturn event.mark ? [...said, \" \
\", strong(markText(program, event.mark, moment.state))] : said;\n}\nfunction tagOf(program, event, isJava) {\nconst row = event.row < 0 ? n\
ull : program.rows[event.row];\nconst object = row ? objectOf(program, row) : \"\";\nconst call = row ? KINDS[row.word][1] : \"\";\nlet head \
= row ? row.word + (hasSeveral(program) && object ? \" \" + object : \"\") : \"\";\nif (row && row.word === \"intr\") head = rowText(program\
, row);\nif (row && row.kinds.includes(\"C\")) head += \" \" + nameOf(program, \"C\", operandOf(row, \"C\"));\nif (call && isJava) {\nconst \
name = call.split(\"(\")[0].replace(\"@\", () => threadName(program, operandOf(row, \"T\")));\nhead = (hasSeveral(program) && object ? objec\
t + \".\" : \"\") + name;\n}\nconst said = {\nnone: \"refused\",\nlimit: \"refused\",\nidle: \"can\\u2019t go\",\nend: \"ends\",\nwait: head \
+ \" waits\",\nenter: head + \" enters\",\nout: (isJava ? \"println \" : \"out \") + event.value,\n\"=\": head + \" = \" + event.value,\ndie\
: \"dies of \" + event.value,\ncatch: \"catches \" + event.value,\nunwind: \"unwinds\",\nthrow: (event.isLate ? \"time is up: \" : \"\") + \"\
throws \" + event.value,\nok: head\n};\nreturn said[event.what];\n}\nfunction shortMark(program, mark) {\nconst name = hasSeveral(program) ? \
nameOf(program, mark.kind[1] === \"p\" ? \"P\" : \"B\", mark.on) : \"\";\nif (mark.kind === \"+b\") return (name && name + \" \") + \"trips\"\
;\nif (mark.kind === \"-b\") return (name && name + \" \") + \"breaks\";\nreturn (name && name + \": \") + (mark.view < 0 ? \"terminated\" : \
\"phase \" + mark.view + \" begins\");\n}\nfunction metText(program, { mark, row }, met) {\nif (!met.length) return \"\";\nconst names = \": \
\" + listed(met.map(t => threadName(program, t))) + \" arrived\";\nconst back = program.rows[row].word === \"pforce\" ? 0 : 1;\nreturn mark.\
kind === \"+b\" ? names : names + \" for phase \" + phaseOf((mark.view - back) | 0);\n}\nreturn { markText, eventText, refusedText, sentence\
Of, wouldText, tagOf, shortMark, metText };\n})();\n// app/paper.js\nconst m26 = (() => {\nconst { endText, outputText } = m2;\nconst { fill\
, h } = m3;\nconst { nameOf } = m0;\nconst { phaseOf, plain, threadName } = m1;\nconst { planOf } = m16;\nconst { lengthOf, momentOf } = m19\
;\nconst { sentenceOf, tagOf } = m25;\nconst LONGEST = 500;\nconst COLUMNS = 10;\nconst ASKED = [\n\"Beside each line: what does the call re\
turn, and who waits behind it?\",\n\"How does the run end? Who waits for ever, and for whom?\",\n\"Before which choice could another have go\
ne, so that it ends otherwise? Who, and how does it end then?\"\n];\nfunction standing(program, { phasers, barriers, cells }) {\nconst phase\
r = ({ view, parties, arrived }, p) => {\nconst stands = view < 0 ? \"terminated\" : \"phase \" + phaseOf(view) + \", \" + arrived + \" of \" \
+ parties + \" arrived\";\nreturn nameOf(program, \"P\", p) + \": \" + stands;\n};\nconst barrier = ({ waiting, isBroken }, b) => {\nconst s\
tands = isBroken ? \"broken\" : waiting + \" of \" + program.barriers[b].parties + \" wait\";\nreturn nameOf(program, \"B\", b) + \": \" + s\
tands;\n};\nconst cell = ([c, value]) => nameOf(program, \"C\", Number(c)) + \" = \" + value;\nreturn [...phasers.map(phaser), ...barriers.m\
ap(barrier), ...Object.entries(cells).map(cell)];\n}\nfunction changedText(program, before, after) {\nconst was = standing(program, before.s\
tate);\nreturn standing(program, after.state).filter(text => !was.includes(text)).join(\"; \");\n}\nfunction lineOf(tree, run, k, columns, i\
sBlank, isJava) {\nconst { program } = tree;\nconst event = run.events.at(k);\nconst after = momentOf(tree, run.id, k + 1);\nconst cell = t \
=> {\nif (event.thread === t) return h(\"td.is-own\", {}, isBlank ? \"\\u25CF\" : tagOf(program, event, isJava));\nreturn h(\"td\", {}, afte\
r.state.threads[t].status === \"waits\" && !isBlank ? \"\\u2502\" : \"\");\n};\nconst before = momentOf(tree, run.id, k);\nconst said = isBl\
ank ? \"\" : plain(program, sentenceOf(program, event, before, after));\nconst changed = isBlank ? \"\" : changedText(program, before, after\
);\nconst words = [said, changed ? h(\"small\", {}, changed) : null];\nreturn h(\"tr\", {}, h(\"td.paper-number\", {}, k + 1), columns.map(c\
ell), h(\"td\", {}, words));\n}\nfunction drawPaper(paper, { tree, run, at, isJava, title, asked }, isSheet) {\nconst { program } = tree;\nc\
onst columns = program.threads.map((_, t) => t).slice(0, COLUMNS);\nconst last = Math.min(lengthOf(run), LONGEST);\nconst from = isSheet && \
at < lengthOf(run) ? at : 0;\nconst rows = [];\nfor (let k = 0; k < last; k++) rows.push(lineOf(tree, run, k, columns, isSheet && k >= from, \
isJava));\nconst heads = [\"\", ...columns.map(t => threadName(program, t)), isSheet ? \"What happens?\" : \"What happens\"];\nconst questio\
ns = program.questions.length\n? program.questions.map(one => one.text)\n: asked && asked.length ? asked : ASKED;\nconst rest = lengthOf(run\
) > last\n? h(\"p\", {}, \"The run has \" + lengthOf(run) + \" choices; the first \" + last + \" are printed.\")\n: null;\nconst output = ou\
tputText(program, run.end);\nconst end = h(\"p\", {}, h(\"b\", {}, \"End: \"), endText(program, run.end), output ? \"; output: \" + output : \
\"\");\nconst blanks = h(\"ol\", {}, questions.map(text => h(\"li\", {}, text, h(\"i.paper-rule\"), h(\"i.paper-rule\"))));\nfill(\npaper,\n\
h(\"h1\", {}, title),\nisSheet ? h(\"p\", {}, \"Name ____________________________   Date ______________\") : null,\nh(\"p\", {}, program.abo\
ut),\nh(\"pre\", {}, program.text),\nh(\"p\", {}, h(\"b\", {}, \"Order: \"), planOf(program, run.events, 200)),\nh(\"table\", {}, h(\"thead\"\
, {}, h(\"tr\", {}, heads.map(text => h(\"th\", {}, text)))), h(\"tbody\", {}, rows)),\nrest,\nisSheet ? blanks : end\n);\n}\nreturn { drawP\
aper };\n})();\n// app/quiz.js\nconst m27 = (() => {\nconst { button, h, shown, sizeOf } = m3;\nconst { plain } = m1;\nconst letter = k => S\
tring.fromCharCode(97 + k);\nfunction optionsOf(question, chosen, act) {\nconst kind = option => {\nif (chosen === null) return \"\";\nretur\
n option === question.right ? \".is-right\" : option === chosen ? \".is-wrong\" : \".is-rest\";\n};\nconst sign = option => {\nif (chosen ==\
= null) return \"\";\nreturn option === question.right ? \" \\u2713\" : option === chosen ? \" \\u2717\" : \"\";\n};\nconst one = (option, k\
) => {\nconst given = { type: \"button\", \"aria-disabled\": String(chosen !== null), onclick: () => act.answer(option) };\nreturn h(\"butto\
n.option\" + kind(option), given, h(\"kbd\", {}, letter(k) + sign(option)), h(\"span\", {}, option));\n};\nreturn question.options.map(one);\
\n}\nfunction verdictOf(question, chosen, program) {\nconst word = chosen === question.right ? h(\"b.is-yes\", {}, \"Right. \") : h(\"b.is-n\
o\", {}, \"Not here. \");\nreturn h(\"p.card-verdict\", { role: \"status\" }, question.own ? null : word, shown(program, question.why()));\n\
}\nconst plainCard = (small, large, text, ...turn) => [\nh(\"div.card-ask\", {}, h(\"p.card-small\", {}, small), h(\"p.card-large\", {}, lar\
ge)),\nh(\"div.card-reply\", {}, h(\"p\", {}, text)),\nh(\"div.card-turn\", {}, turn)\n];\nfunction quizCard(quiz, program, act) {\nif (!qui\
z) return plainCard(\n\"Quiz\",\n\"Random orders are being played.\",\n\"Wrong answers come from them.\",\nbutton(\"Stop\", act.stop)\n);\nc\
onst { list, k, chosen, right, answered, isOpen } = quiz;\nif (!list.length) {\nconst text =\n\"Every order does the same here, so there is \
nothing to ask. Take another program, \" +\n\"or write a question: a comment that begins with ;?\";\nreturn plainCard(\"Quiz\", \"This run h\
as only one way.\", text);\n}\nconst question = list[k];\nif (!question) {\nconst text = right === answered\n? \"Now make a run that ends ot\
herwise.\"\n: \"Step through the run again, and look at the picture.\";\nreturn plainCard(\n\"Quiz\",\nright + \" of \" + answered + \" righ\
t.\",\ntext,\nbutton(\"Again\", act.again, { kind: \".main\" })\n);\n}\nconst isDone = chosen !== null || isOpen;\nconst score = answered ? \
\" \\u2014 \" + right + \" right\" : \"\";\nconst hint = question.own && !isDone ? h(\"p\", {}, \"Say it aloud, then show what happens.\") : \
null;\nconst turn = isDone\n? button(\"Next\", act.next, { kind: \".main\" })\n: question.own\n? button(\"Show\", act.show, { kind: \".main\" \
})\n: button(\"Skip\", act.next);\nreturn [\nh(\n\"div.card-ask\",\n{},\nh(\"p.card-small\", {}, \"Question \" + (k + 1) + \" of \" + list.l\
ength + score),\nh(\"p.card-large\" + sizeOf(plain(program, question.ask)), {}, shown(program, question.ask))\n),\nh(\"div.card-reply.option\
s\", {}, optionsOf(question, chosen, act), hint),\nh(\"div.card-turn\", {}, isDone ? verdictOf(question, chosen, program) : null, turn)\n];\n\
}\nfunction optionAt(quiz, sign) {\nconst question = quiz && quiz.list[quiz.k];\nif (!question || quiz.chosen !== null) return null;\nreturn \
question.options[sign.charCodeAt(0) - 97] || null;\n}\nfunction challengeCard(challenge, act) {\nif (!challenge) return plainCard(\n\"Challe\
nge\",\n\"Random orders are being played.\",\n\"What is asked for is an end to which one of them came.\",\nbutton(\"Stop\", act.stop)\n);\nc\
onst { goal, tried, changes, isDone } = challenge;\nif (!goal) return plainCard(\n\"Challenge\",\n\"None was found.\",\n\"No order that ends \
otherwise came in \" + tried + \" tries. A rare one may exist. Change a row, or take another program.\",\nbutton(\"From the start\", act.aga\
in)\n);\nconst count = changes === 1 ? \"one change\" : changes + \" changes\";\nconst aim = goal === \"stuck\"\n? \"Get it stuck: let someb\
ody wait for ever.\"\n: \"This run is stuck. Get all threads to end.\";\nif (isDone) {\nconst done = goal === \"stuck\" ? \"Stuck, with \" + \
count + \".\" : \"All end, with \" + count + \".\";\nreturn plainCard(\n\"Challenge\",\ndone,\n(changes > 1 ? \"Is there a way with fewer ch\
anges? \" : \"\") + \"Why does it end so? Click a thread.\",\nbutton(\"Again\", act.again, { kind: \".main\" })\n);\n}\nconst text = \"At an\
y choice, click another name after \\u201CNext\\u201D, and step to the end. Your changes: \" +\nchanges + \".\";\nreturn plainCard(\"Challen\
ge\", aim, text, button(\"From the start\", act.again));\n}\nreturn { quizCard, optionAt, challengeCard };\n})();\n// app/lessons.js\nconst \
m28 = (() => {\nconst LESSONS = {\n\"lost-meeting\": {\ntitle: \"A meeting lost to a stray arrival\",\naim: \"A phaser counts arrivals, and \
doesn\\u2019t know who arrives.\",\nlast: \"A phaser counts, so each arrival needs a registration.\",\nsteps: [\n{\nat: 1,\nask: \"Ann waits\
. Who should be next, and what will happen?\",\nanswer: \"If Cem is next, the phase ends without Bob: the phaser only counts two arrivals.\"\
,\nvotes: true\n},\n{\nat: 2,\nask: \"Whom does Ann believe to have met, and what does the phaser know?\",\nanswer: \"She believes that she \
met Bob. The phaser only counted two arrivals, and phase 1 began.\"\n},\n{\nat: 7,\nask: \"Which phase does Bob wait for, and how many arriv\
als are missing?\",\nanswer: \"He waits for the end of phase 1, and one is missing.\"\n},\n{\nat: 1,\nask: \"Choose a plan in which Cem arri\
ves, and no thread waits at the end. Is the program right, then?\",\nanswer: \"Let Bob go at 1: all threads end. At 0 with Cem first, and th\
en Ann, Bob is stuck again. It only works by luck.\",\nfork: [1, \"t1\"],\nvotes: true\n},\n{\nat: 0,\nask: \"Let Cem call preg r0 meet befo\
re he arrives. Which plans lose the meeting now?\",\nanswer: \"None. Write the row into the program, behind stray:, and try random orders.\"\
,\ntab: \"orders\"\n}\n]\n},\n\"broken-barrier\": {\ntitle: \"A barrier broken by an interrupt\",\naim: \"An interrupt ends one wait, and th\
e barrier then breaks for all.\",\nlast: \"One interrupted thread breaks the meeting for all.\",\nsteps: [\n{\nat: 9,\nask: \"Why can Bob co\
ntinue in choice 9, and not in choice 7?\",\nanswer: \"The interrupt ends only Ann\\u2019s wait. The barrier breaks at her next turn, in cho\
ice 8.\"\n},\n{\nat: 6,\nask: \"Can Bob continue now?\",\nanswer: \"No: his name isn\\u2019t among those who may go next. He continues befor\
e Ann if Cem arrives first.\"\n},\n{\nat: 6,\nask: \"What if Cem arrives between Eve\\u2019s interrupt and Ann\\u2019s next turn?\",\nanswer\
: \"The barrier trips, and they put out 2, 1 and 0. Ann\\u2019s interrupted status stays set.\",\nfork: [6, \"t2\"],\nvotes: true\n},\n{\nat\
: 0,\nask: \"What would the three get if Eve interrupted Cem before he arrived?\",\nanswer: \"Write intr cem. Cem gets 3 when he calls await\
, and the others get 4.\"\n},\n{\nat: 9,\nask: \"Which call repairs the barrier, and what does it do to a waiting thread?\",\nanswer:\n\"res\
et(), which is creset gate. The waiting thread gets BrokenBarrierException. \" +\n\"Later calls use the repaired barrier.\"\n}\n]\n},\n\"two\
-orders\": {\ntitle: \"Two phasers in different orders\",\naim: \"Two meetings in different orders deadlock in every run. Two locks deadlock \
only in some runs.\",\nlast: \"Meet in the same order everywhere, or arrive first and wait later.\",\nsteps: [\n{\nat: 0,\nask: \"Is there a \
plan with which this program ends?\",\nanswer:\n\"No: each thread waits at its first phaser, and the other never arrives there. \" +\n\"Both \
runs end in the same state.\",\nfork: [0, \"t1\"],\nvotes: true\n},\n{\nat: 2,\nask: \"With two locks in different orders, some schedules en\
d. What is the difference?\",\nanswer: \"A lock may be free again before the second thread needs it. A meeting needs both threads.\"\n},\n{\n\
at: 0,\nask: \"Change as few rows as you can so that every schedule ends.\",\nanswer: \"Swap the two rows of other, or of one.\",\ntab: \"or\
ders\"\n},\n{\nat: 0,\nask:\n\"Let Bob arrive at both and then wait (parr r1 right, paaa r0 left, pawait r0 right r1). \" +\n\"Does every sc\
hedule end now?\",\nanswer: \"Yes: he arrives at right and doesn\\u2019t wait there for Ann.\",\ntab: \"orders\"\n}\n]\n},\n\"late-team\": {\
\ntitle: \"A team that joins late\",\naim: \"When all parties of a child have arrived, it arrives once at its parent.\",\nlast: \"Register b\
efore the others meet, or leave when you are done.\",\nsteps: [\n{\nat: 2,\nask: \"In choice 2 Bob arrives at red. Why does a phase of both \
end?\",\nanswer: \"He is the last party of red, so red arrives at both. It is the only party there.\"\n},\n{\nat: 10,\nask: \"At which phase\
r is a party missing at the end, and who would have to arrive?\",\nanswer: \"At both: Ann and Bob would have to arrive at red again.\"\n},\n\
{\nat: 1,\nask:\n\"Cem\\u2019s preg returns 1. What does it return if he registers before Bob arrives, \" +\n\"and how does the run end?\",\n\
answer: \"It returns 0, and all threads end.\",\nfork: [1, \"t2\"],\nvotes: true\n},\n{\nat: 2,\nask: \"After which choice is it too late fo\
r Cem?\",\nanswer: \"After choice 2: if he is next now, he is stuck.\",\nfork: [2, \"t2\"]\n},\n{\nat: 0,\nask: \"Let Cem call pdereg r0 blu\
e, arriveAndDeregister(), instead of paaa r0 blue. Is anybody stuck?\",\nanswer: \"No: blue leaves both with its last party.\",\ntab: \"orde\
rs\"\n}\n]\n}\n};\nfunction lessonOf({ group, name }, program, run) {\nif (group !== \"Yours\" && Object.hasOwn(LESSONS, name)) return LESSO\
NS[name];\nconst steps = program.questions.flatMap(one => {\nconst at = run.events.findIndex(event => event.row === one.row);\nreturn at < 0 \
? [] : [{ at, ask: one.text, answer: \"Step on, and see.\", next: true }];\n});\nreturn {\ntitle: program.title || name,\naim: program.about \
|| \"Step through the run, and say before each step what it will do.\",\nlast: \"Which order would end otherwise?\",\nsteps\n};\n}\nreturn { \
LESSONS, lessonOf };\n})();\n// app/mistake.js\nconst m29 = (() => {\nconst { mistakeIn } = m14;\nconst plainly = text => text.replace(/`/g, \
\"\").replace(/^\\w+: /, \"\");\nconst sentence = text => plainly(text).replace(/^[a-z](?=[a-z]* )/, sign => sign.toUpperCase());\nfunction \
mistakeOf(fault, text, plan) {\nconst isProgram = fault.group !== \"plan\" && fault.group !== \"schedule\";\nconst none = { line: null, colu\
mn: null, length: 0, hint: \"help: \" + fault.help };\nconst { line, column, length, hint } = mistakeIn(text, isProgram ? {} : { plan }) || \
none;\nconst helps = hint.replace(/^\\w+: /, \"\");\nconst form = fault.group === \"asm\" && fault.kind === 3 ? /^(\\w+) [A-Z]/.exec(helps) \
: null;\nreturn {\nisProgram,\nline,\nword: column ? [column - 1, column - 1 + length] : null,\nnear: hint.startsWith(\"near: \") ? helps : \
form ? form[1] : \"\",\nmeans: sentence(fault.means || fault.told),\nhelps: sentence(helps)\n};\n}\nreturn { mistakeOf };\n})();\n// app/arr\
ivals.js\nconst m30 = (() => {\nconst { ARRIVES, operandOf, rootOf } = m0;\nconst { ownerOf } = m19;\nconst EVERY = 256;\nconst LISTS = [\"a\
rrived\", \"ended\", \"stand\", \"tripped\"];\nconst copyOf = fold => ({\ncame: fold.came.map(all => new Set(all)),\nwaits: new Map(fold.wai\
ts),\n...Object.fromEntries(LISTS.map(name => [name, fold[name].map(list => list.slice())]))\n});\nconst emptyOf = ({ phasers, barriers }) =\
> ({\ncame: phasers.map(() => new Set()),\nwaits: new Map(),\narrived: phasers.map(() => []),\nended: phasers.map(() => []),\nstand: barrier\
s.map(() => []),\ntripped: barriers.map(() => [])\n});\nfunction isArrival(row, event, isOfWait) {\nif (isOfWait || !row || !ARRIVES.has(row\
.word)) return false;\nreturn event.what === \"wait\" || event.what === \"enter\" || (\nevent.what === \"=\" && (event.value >= 0 || Boolean\
(event.mark))\n);\n}\nfunction step(program, fold, event) {\nif (event.what === \"idle\" || event.row < 0) return;\nconst row = program.rows\
[event.row];\nconst isOfWait = fold.waits.delete(event.thread);\nif (isArrival(row, event, isOfWait)) {\nconst p = operandOf(row, \"P\");\nf\
old.arrived[p].push({ thread: event.thread, row: event.row });\nfold.came[p].add(event.thread);\n}\nif (!isOfWait && /^cawait/.test(row.word\
) && /^(wait|enter|=)$/.test(event.what)) {\nfold.stand[operandOf(row, \"B\")].push(event.thread);\n}\nif (event.what === \"wait\") fold.wai\
ts.set(event.thread, event.row);\nif (!event.mark) return;\nconst { kind, on } = event.mark;\nif (kind[1] === \"b\") {\nfold.tripped[on] = k\
ind === \"+b\" ? fold.stand[on] : [];\nfold.stand[on] = [];\nreturn;\n}\nprogram.phasers.forEach((_, q) => {\nif (rootOf(program, q) !== on) \
return;\nfold.ended[q] = fold.arrived[q];\nfold.arrived[q] = [];\n});\n}\nfunction arrivalsOf(tree, id, i) {\nconst run = ownerOf(tree, id, \
i);\nconst { folds } = run.kept;\nconst start = Math.min(Math.floor(i / EVERY), folds.length);\nconst fold = start ? copyOf(folds[start - 1]\
) : emptyOf(tree.program);\nfor (let k = start * EVERY; k < i; k++) {\nstep(tree.program, fold, run.events.at(k));\nif ((k + 1) % EVERY === \
0 && folds.length < (k + 1) / EVERY) folds.push(copyOf(fold));\n}\nreturn fold;\n}\nfunction metOf(tree, id, i, { kind, on }) {\nconst { pro\
gram } = tree;\nconst { ended, tripped } = arrivalsOf(tree, id, i);\nconst isIn = q => rootOf(program, q) === on;\nconst met = kind[1] === \"\
b\" ? tripped[on] : ended.flatMap((list, q) => (isIn(q) ? list.map(one => one.thread) : []));\nreturn [...new Set(met)].sort((a, b) => a - b\
);\n}\nreturn { isArrival, arrivalsOf, metOf };\n})();\n// app/reason.js\nconst m31 = (() => {\nconst { nameOf, operandOf, rootOf } = m0;\nc\
onst { callOf, phaseOf, spread, strong } = m1;\nconst { arrivalsOf } = m30;\nconst { eventTo, momentOf } = m19;\nconst COUNTS = {\npparties: \
\"how many parties are registered now\",\nparrived: \"how many parties have arrived in this phase\",\npunarr: \"how many parties are still t\
o arrive\",\npphase: \"the number of the phase that goes on\",\npterm: \"1 if it is terminated, else 0\",\ncwaiting: \"how many wait there n\
ow\",\ncparties: \"how many parties it has\",\ncbroken: \"1 if it is broken, else 0\"\n};\nfunction phaserNumber(program, event, row, before\
, after) {\nconst p = operandOf(row, \"P\");\nconst name = nameOf(program, \"P\", p);\nconst was = before.state.phasers[p].view;\nconst is = \
after.state.phasers[p].view;\nif (event.value < 0 && event.value === is) {\nreturn \"It is negative, since \" + name + \" is terminated: its \
last phase was \" + phaseOf(is) + \".\";\n}\nif (before.state.threads[event.thread].status === \"waits\" && event.value === was) {\nreturn e\
vent.value + \" is the phase of \" + name + \" now: the phase for whose end it waited is over.\";\n}\nif (/^(parr|pdereg)$/.test(row.word) &\
& event.value === was) {\nreturn event.value + \" is the phase in which it arrived.\";\n}\nif (/^(preg|pbulk)$/.test(row.word) && event.valu\
e === was) {\nreturn event.value + \" is the phase for which it registered.\";\n}\nif (row.word === \"paaa\" && event.mark && event.value ==\
= is) {\nreturn event.value + \" is the phase that begins: it was the last to arrive, so it didn\\u2019t have to wait.\";\n}\nif (/^pawait/.\
test(row.word) && event.value === was) {\nreturn event.value + \" is the phase of \" + name +\n\" now: the one that it named is over, so it \
didn\\u2019t have to wait.\";\n}\nreturn \"\";\n}\nfunction barrierNumber(program, event, row, before) {\nconst b = operandOf(row, \"B\");\n\
const { parties } = program.barriers[b];\nconst came = parties - event.value;\nconst waited = before.state.threads[event.thread].status === \
\"waits\";\nif (!/^cawait/.test(row.word) || came < 1) return \"\";\nconst turn = event.value === 0 ? \"the last\" : came === 1 ? \"the firs\
t\" : \"number \" + came;\nreturn event.value + \": of \" + parties + \" it was \" + turn + \" to come\" + (\nwaited || !came ? \"\" : \", s\
o it didn\\u2019t have to wait\"\n) + \".\";\n}\nfunction throwReason(program, event, row, before) {\nconst p = operandOf(row, \"P\");\ncons\
t b = operandOf(row, \"B\");\nconst thread = before.state.threads[event.thread];\nif (event.isLate) return \"Nobody brought what it waited f\
or before its time was up.\";\nif (\nevent.value === 3 && thread.isInterrupted\n) return \"Somebody had interrupted it: its interrupted stat\
us was set.\";\nif (b >= 0 && event.value === 4) {\nconst when = thread.status === \"waits\" ? \" broke while it waited.\" : \" was broken b\
efore it came.\";\nreturn \"The barrier \" + nameOf(program, \"B\", b) + when;\n}\nif (p >= 0 && event.value === 1 && /^(parr|p";

/// Part 4 of what a page ends with: the app, and the machine in it.
#[rattlefmt::skip]
pub const TAIL_4: &[u8] = b"\
dereg|paaa)$/.test(row.word) && before.state.phasers[p].missing === 0) {\nconst name = nameOf(program, \"P\", p);\nreturn \"No party of \" + \
name + \" is still to arrive, so there is no place for one more arrival.\";\n}\nreturn \"\";\n}\nfunction reasonOf(tree, id, i) {\nconst { p\
rogram } = tree;\nconst event = eventTo(tree.runs[id], i);\nif (!event || event.row < 0 || !/^(=|throw)$/.test(event.what)) return \"\";\nco\
nst row = program.rows[event.row];\nconst before = momentOf(tree, id, i - 1);\nif (event.what === \"throw\") return throwReason(program, eve\
nt, row, before);\nif (COUNTS[row.word]) return event.value + \": \" + COUNTS[row.word] + \".\";\nif (operandOf(row, \"P\") >= 0) return pha\
serNumber(program, event, row, before, momentOf(tree, id, i));\nif (operandOf(row, \"B\") >= 0) return barrierNumber(program, event, row, be\
fore);\nreturn \"\";\n}\nfunction strayText(tree, id, i, p) {\nconst came = arrivalsOf(tree, id, i).came[p].size;\nconst parties = tree.prog\
ram.everParties[p];\nif (came <= parties) return \"\";\nconst name = nameOf(tree.program, \"P\", p);\nconst its = \" for its \" + parties + \
(parties === 1 ? \" party\" : \" parties\");\nreturn came + \" threads have arrived at \" + name + its + \": one took the place of another.\"\
;\n}\nfunction strayOf(tree, id, i) {\nconst event = eventTo(tree.runs[id], i);\nconst p = event && event.row >= 0 ? operandOf(tree.program.\
rows[event.row], \"P\") : -1;\nconst text = p < 0 ? \"\" : strayText(tree, id, i, p);\nreturn text === \"\" || strayText(tree, id, i - 1, p) \
=== text ? \"\" : text;\n}\nconst BACK = 400;\nfunction lastNumberOf(tree, run, i, t) {\nfor (let k = i; k > Math.max(0, i - BACK); k--) {\n\
const event = eventTo(run, k);\nif (event.thread !== t || !/^(=|throw)$/.test(event.what) || event.row < 0) continue;\nconst row = tree.prog\
ram.rows[event.row];\nif (operandOf(row, \"P\") < 0 && operandOf(row, \"B\") < 0) continue;\nconst reason = reasonOf(tree, run.id, k);\ncons\
t call = callOf(tree.program, row, null);\nconst got = event.what === \"=\" ? \" returned \" : \" threw \";\nconst then = reason.replace(\" \
now\", \" at that moment\");\nreturn reason ? [\"In choice \" + k + \" \" + call + got, strong(event.value), \". \" + then] : null;\n}\nretu\
rn null;\n}\nconst namesOf = list => spread(list.map(one => ({ thread: one.thread })));\nconst COUNTED = \"A phaser counts arrivals, and doe\
sn\\u2019t ask who arrives. \";\nfunction arrivalsText(tree, run, i, p) {\nconst { program } = tree;\nconst { arrived, ended } = arrivalsOf(\
tree, run.id, i);\nconst { state } = momentOf(tree, run.id, i);\nconst name = nameOf(program, \"P\", p);\nconst one = state.phasers[p];\ncon\
st view = phaseOf(state.phasers[rootOf(program, p)].view);\nconst said = [\nstrong(name),\n\" is in phase \" + view + \" and has \" + one.pa\
rties + (one.parties === 1 ? \" party\" : \" parties\") + \". \"\n];\nif (one.view < 0) said.splice(1, 1, \" is terminated. \");\nif (arrive\
d[p].length) said.push(\n\"In this phase \",\n...namesOf(arrived[p]),\narrived[p].length > 1 ? \" have arrived. \" : \" has arrived. \"\n);\n\
if (ended[p].length) said.push(\"In the phase before it was \", ...namesOf(ended[p]), \". \");\nconst stray = strayText(tree, run.id, i, p);\
\nif (stray) said.push(COUNTED + stray + \" Nobody can know which.\");\nelse if (arrived[p].length || ended[p].length) {\nsaid.push(COUNTED \
+ \"If one of them was surplus, nobody can know which.\");\n}\nreturn said;\n}\nreturn { reasonOf, strayOf, lastNumberOf, arrivalsText };\n}\
)();\n// app/why.js\nconst m32 = (() => {\nconst { ARRIVES, nameOf, operandOf, rootOf } = m0;\nconst { callOf, listed, phaseOf, spread, stro\
ng, thrown } = m1;\nconst { wouldText } = m25;\nconst { doingOf } = m17;\nconst reached = new WeakMap();\nfunction rowsFrom(program, start) \
{\nif (!reached.has(program)) reached.set(program, new Map());\nconst known = reached.get(program);\nif (known.has(start)) return known.get(\
start);\nconst seen = new Set();\nconst open = [start];\nwhile (open.length) {\nconst at = open.pop();\nconst row = program.rows[at];\nif (!\
row || seen.has(at)) continue;\nseen.add(at);\nconst there = operandOf(row, \"L\");\nif (there >= 0) open.push(there);\nif (!/^(halt|jmp|ret\
|throw)$/.test(row.word)) open.push(at + 1);\n}\nconst rows = [...seen].sort((a, b) => a - b);\nknown.set(start, rows);\nreturn rows;\n}\nfu\
nction startsOf(program, thread) {\nconst starts = [thread.status === \"waits\" ? thread.row + 1 : thread.row];\nfor (const entry of thread.\
stack) {\nconst n = Number(entry.slice(1));\nif (entry[0] === \"C\" || entry[0] === \"H\") starts.push(n);\nelse return program.rows.map((_, \
at) => at);\n}\nreturn starts;\n}\nfunction couldCall(program, moment, t, isWanted) {\nconst thread = moment.state.threads[t];\nif (/ended|d\
ied/.test(thread.status)) return null;\nfor (const start of startsOf(program, thread)) {\nfor (const at of rowsFrom(program, start)) if (isW\
anted(program.rows[at])) return program.rows[at];\n}\nreturn null;\n}\nfunction missingIn(program, state, p) {\nconst out = [];\nconst look \
= q => {\nconst isOpen = child => state.phasers[child].parties > 0 && state.phasers[child].missing > 0;\nconst open = program.children[q].fi\
lter(isOpen);\nopen.forEach(look);\nconst own = state.phasers[q].missing - open.length;\nif (own > 0) out.push({ phaser: q, count: own });\n\
};\nlook(rootOf(program, p));\nreturn out;\n}\nconst countText = count => (count === 1 ? \"one arrival is missing\" : count + \" arrivals ar\
e missing\");\nfunction missingText(program, missing, p) {\nreturn listed(\nmissing.map(one => countText(one.count) + (one.phaser === p ? \"\
\" : \" at \" + nameOf(program, \"P\", one.phaser)))\n);\n}\nfunction findIn(program, moment, t, isWanted) {\nreturn program.threads.flatMap\
((_, n) => {\nconst found = n === t ? null : couldCall(program, moment, n, isWanted);\nreturn found ? [[n, found]] : [];\n});\n}\nfunction r\
unnersOf(program, moment, t, entry) {\nconst { threads } = moment.state;\nreturn threads.flatMap((one, n) => (n !== t && one.stack.includes(\
entry) ? [[n, null]] : []));\n}\nconst once = list => list.filter(([n], k) => list.findIndex(([other]) => other === n) === k);\nfunction hel\
persOfPhaser(program, moment, t, p) {\nconst root = rootOf(program, p);\nconst running = runnersOf(program, moment, t, \"A\" + root);\nconst \
isPlace = q => q >= 0 && rootOf(program, q) === root && moment.state.phasers[q].missing > 0;\nconst { word } = program.rows[moment.state.thr\
eads[t].row];\nconst find = isWanted => findIn(program, moment, t, isWanted);\nconst helpers = [\n...running,\n...find(row => ARRIVES.has(ro\
w.word) && isPlace(operandOf(row, \"P\"))),\n...find(row => row.word === \"pforce\" && rootOf(program, operandOf(row, \"P\")) === root)\n];\n\
const isInterruptible = word === \"pawaiti\" || word === \"pawaitt\";\nif (isInterruptible) helpers.push(...find(row => row.word === \"intr\" \
&& operandOf(row, \"T\") === t));\nreturn once(helpers);\n}\nfunction helpersOfBarrier(program, moment, t, b) {\nconst { threads } = moment.\
state;\nconst waitsHere = n => threads[n] && threads[n].status === \"waits\" &&\noperandOf(program.rows[threads[n].row], \"B\") === b;\ncons\
t find = isWanted => findIn(program, moment, t, isWanted);\nreturn once([\n...runnersOf(program, moment, t, \"X\" + b),\n...find(row => /^ca\
wait/.test(row.word) && operandOf(row, \"B\") === b),\n...find(row => row.word === \"intr\" && waitsHere(operandOf(row, \"T\"))),\n...find(r\
ow => row.word === \"creset\" && operandOf(row, \"B\") === b)\n]);\n}\nfunction releaseText(program, moment, helpers, isStuck) {\nconst said \
= (n, row) => (row ? callOf(program, row, null) : \"it runs the routine\");\nconst call = ([n, row]) => [\n{ thread: n },\n\" (\" + said(n, \
row) + (doingOf(moment, n) === \"waits\" ? \", but waits itself\" : \"\") + \")\"\n];\nif (!helpers.length) return [strong(\"Nobody is left \
who could\"), \": it waits for ever.\"];\nif (!isStuck) {\nconst others = helpers.length > 4 ? [[\"others\"]] : [];\nreturn [\"What could re\
lease it is still ahead of \", ...spread([...helpers.slice(0, 4).map(call), ...others]).flat(), \".\"];\n}\nconst names = spread(helpers.sli\
ce(0, 4).map(([n]) => ({ thread: n })));\nconst wait = helpers.length > 1\n? \" could bring that, and they wait themselves: \"\n: \" could b\
ring that, and waits itself: \";\nreturn [strong(\"Only \"), ...names, wait, strong(\"for ever\"), \".\"];\n}\nfunction phaserText(program, \
moment, t, p) {\nconst { state } = moment;\nconst missing = missingIn(program, state, p);\nconst text = [{ thread: t }, \" waits at \" + nam\
eOf(program, \"P\", p) + \" for the end of phase \"];\ntext.push(String(phaseOf(state.phasers[rootOf(program, p)].view)), \": \" + missingTe\
xt(program, missing, p) + \". \");\nreturn text;\n}\nfunction routineText(program, moment, t, p, b) {\nconst entry = p >= 0 ? \"A\" + rootOf\
(program, p) : \"X\" + b;\nconst runner = moment.state.threads.findIndex((thread, n) => n !== t && thread.stack.includes(entry));\nconst rou\
tine = p >= 0\n? \"onAdvance of \" + nameOf(program, \"P\", rootOf(program, p))\n: \"the action of \" + nameOf(program, \"B\", b);\nif (runn\
er < 0) return [{ thread: t }, \" can\\u2019t go on yet.\"];\nreturn [\n{ thread: t },\n\" may not go: \",\n{ thread: runner },\n\" runs \" \
+ routine + \", and this call has to wait until that is done.\"\n];\n}\nfunction goesText(program, moment, t, doing) {\nconst [head, ...rest\
] = wouldText(program, moment.next[t], moment);\nconst isWho = head.thread === t;\nconst would = isWho ? [{ thread: t }, ...rest] : [head, .\
..rest];\nreturn [\n{ thread: t },\ndoing === \"free\" ? \" waited, and may go on. If it\\u2019s next: \" : \" may go. If it\\u2019s next: \"\
,\n...would\n];\n}\nfunction waitText(program, moment, t, p, b, doing) {\nconst isStuck = moment.state.word === \"stuck\";\nif (doing === \"\
held\") return { text: routineText(program, moment, t, p, b), helpers: [] };\nif (p >= 0) {\nconst text = phaserText(program, moment, t, p);\
\nconst helpers = helpersOfPhaser(program, moment, t, p);\nreturn { text, helpers, release: releaseText(program, moment, helpers, isStuck) }\
;\n}\nconst need = program.barriers[b].parties - moment.state.barriers[b].waiting;\nconst come = need === 1 ? \"one more has to come\" : nee\
d + \" more have to come\";\nconst helpers = helpersOfBarrier(program, moment, t, b);\nconst text = [{ thread: t }, \" waits at \" + nameOf(\
program, \"B\", b) + \": \" + come + \". \"];\nconst timed = Object.keys(moment.late).map(Number);\nconst others = timed.filter(n => n !== t \
&& operandOf(program.rows[moment.state.threads[n].row], \"B\") === b);\nconst breaks = others.length\n? [\"The time of \", { thread: others[\
0] }, \"\\u2019s wait may run out, which breaks the barrier. \"]\n: [];\nconst breaker = Object.values(moment.next).find(\nevent => event.ma\
rk && event.mark.kind === \"-b\" && event.mark.on === b\n);\nif (breaker) breaks.push({ thread: breaker.thread }, \" breaks the barrier at i\
ts next turn. \");\nconst release = breaks.length && !helpers.length ? [] : releaseText(program, moment, helpers, isStuck);\nreturn { text: \
[...text, ...breaks], helpers, release, isSoon: breaks.length > 0 };\n}\nfunction whyOf(program, moment, t) {\nconst thread = moment.state.t\
hreads[t];\nconst doing = doingOf(moment, t);\nif (doing === \"over\") return { thread: t, kind: \"over\", could: [], text: [{ thread: t }, \
\" has ended.\"] };\nif (doing === \"dead\") {\nconst text = [{ thread: t }, \" is dead: nothing caught \" + thrown(thread.code) + \".\"];\n\
return { thread: t, kind: \"dead\", could: [], text };\n}\nif (moment.next[t]) {\nconst kind = doing === \"free\" ? \"free\" : \"runs\";\nre\
turn { thread: t, kind, could: [], text: goesText(program, moment, t, doing) };\n}\nconst row = program.rows[thread.row];\nconst p = operand\
Of(row, \"P\");\nconst b = operandOf(row, \"B\");\nif (p < 0 && b < 0) return { thread: t, kind: \"waits\", could: [], text: [{ thread: t }, \
\" can\\u2019t go on yet.\"] };\nconst { text, helpers, release, isSoon } = waitText(program, moment, t, p, b, doing);\nconst isLate = Boole\
an(moment.late[t]);\nconst said = !release || (isLate && !helpers.length) ? text : [...text, ...release];\nif (isLate) said.push(\" Its time \
may run out.\");\nconst isStuck = moment.state.word === \"stuck\" || (doing === \"waits\" && !helpers.length && !isLate && !isSoon);\nconst \
could = moment.state.word === \"stuck\" ? [] : helpers.map(([n]) => n);\nreturn { thread: t, kind: isStuck ? \"stuck\" : \"waits\", could, t\
ext: said };\n}\nconst RANK = { stuck: 0, waits: 1, free: 2, runs: 3, dead: 4, over: 5 };\nconst told = new WeakMap();\nfunction whysOf(prog\
ram, moment) {\nif (!told.has(moment)) {\nconst all = program.threads.map((_, t) => whyOf(program, moment, t));\ntold.set(moment, all.sort((\
a, b) => RANK[a.kind] - RANK[b.kind]));\n}\nreturn told.get(moment);\n}\nreturn { couldCall, whyOf, whysOf };\n})();\n// app/questions.js\nc\
onst m33 = (() => {\nconst { callOf, listed, plain, rowText, strong, threadName, thrown } = m1;\nconst { endText, outputText } = m2;\nconst \
{ planOf } = m16;\nconst { reasonOf } = m31;\nconst { eventTo, lengthOf, momentOf } = m19;\nconst { whyOf } = m32;\nconst LONGEST = 200;\nco\
nst MOST_OPTIONS = 4;\nconst ASKED = /^(p|c[awrb])/;\nconst PLAIN = /^(idle|ok|end|out|catch|unwind|none|limit)$/;\nfunction optionOf(progra\
m, event, isOfWait) {\nconst row = program.rows[event.row];\nconst said = {\n\"=\": (isOfWait ? \"its wait ends: it returns \" : \"it return\
s \") + event.value,\nwait: \"it waits\",\nthrow: \"it throws \" + thrown(event.value, row),\ndie: \"it dies of \" + thrown(event.value, row\
),\nenter: \"it is the last, and enters the routine\"\n};\nconst mark = event.mark && {\n\"+p\": event.mark.view < 0 ? \", and the phaser is \
terminated\" : \", and phase \" + event.mark.view + \" begins\",\n\"+b\": \", and the barrier trips\",\n\"-b\": \", and the barrier breaks\"\
\n};\nreturn said[event.what] + (mark ? mark[event.mark.kind] : \"\");\n}\nconst keyOf = (row, isOfWait) => row + (isOfWait ? \" wait\" : \"\
\");\nfunction happenedIn(program, outcomes) {\nconst happened = new Map();\nfor (const one of outcomes) {\nconst waits = new Set();\nfor (c\
onst event of one.events) {\nif (event.row < 0 || event.what === \"idle\") continue;\nconst isOfWait = waits.delete(event.thread);\nif (even\
t.what === \"wait\") waits.add(event.thread);\nif (PLAIN.test(event.what)) continue;\nconst key = keyOf(event.row, isOfWait);\nif (!happened\
.has(key)) happened.set(key, new Set());\nhappened.get(key).add(optionOf(program, event, isOfWait));\n}\n}\nreturn happened;\n}\nfunction sh\
uffled(list, seed) {\nconst keyed = list.map((one, k) => [Math.sin(seed * 97 + k * 131 + one.length * 17) * 1e4 % 1, one]);\nreturn keyed.so\
rt((a, b) => a[0] - b[0]).map(one => one[1]);\n}\nfunction optionsOf(right, others, seed) {\nconst wrong = [...new Set(others)].filter(one =\
> one !== right).slice(0, MOST_OPTIONS - 1);\nreturn wrong.length ? shuffled([right, ...wrong], seed) : null;\n}\nfunction reasonAt(tree, ru\
n, i) {\nconst reason = reasonOf(tree, run.id, i);\nif (reason) return [reason];\nconst { what, thread } = eventTo(run, i);\nif (what !== \"\
wait\") return [\"The line below says what happened.\"];\nconst { text } = whyOf(tree.program, momentOf(tree, run.id, i), thread);\nreturn t\
ext.slice(0, text.findIndex(part => typeof part === \"string\" && part.endsWith(\". \")) + 1);\n}\nfunction callQuestion(tree, run, i, happe\
ned) {\nconst { program } = tree;\nconst event = run.events.at(i);\nconst row = program.rows[event.row];\nif (event.row < 0 || PLAIN.test(ev\
ent.what) || !ASKED.test(row.word)) return null;\nconst thread = momentOf(tree, run.id, i).state.threads[event.thread];\nconst isOfWait = th\
read.status === \"waits\";\nconst right = optionOf(program, event, isOfWait);\nconst options = optionsOf(right, happened.get(keyOf(event.row\
, isOfWait)) || [], i + 1);\nif (!options) return null;\nconst call = callOf(program, row, thread) || rowText(program, row);\nconst who = { \
thread: event.thread };\nconst ask = event.isLate\n? [\"Choice \" + (i + 1) + \": the time of \", who, \"\\u2019s wait at \" + call + \" is \
up. What happens?\"]\n: isOfWait\n? [\"Choice \" + (i + 1) + \": \", who, \" was waiting at \" + call + \". What happens?\"]\n: [\"Choice \" \
+ (i + 1) + \": \", who, \" calls \" + call + \". What happens?\"];\nreturn { at: i, leads: i + 1, ask, right, options, why: () => reasonAt(\
tree, run, i + 1) };\n}\nfunction whoQuestion(tree, run, i) {\nconst { program } = tree;\nconst event = run.events.at(i);\nif (event.what !=\
= \"wait\" && !event.mark) return null;\nconst say = k => {\nconst names = Object.keys(momentOf(tree, run.id, k).next).map(t => threadName(p\
rogram, Number(t)));\nreturn names.length ? listed(names) : \"nobody\";\n};\nconst near = [];\nfor (let k = Math.max(0, i - 4); k <= Math.mi\
n(lengthOf(run), i + 6); k++) near.push(say(k));\nconst right = say(i + 1);\nconst options = optionsOf(right, near, i + 7);\nif (!options || \
options.length < 3) return null;\nconst moment = momentOf(tree, run.id, i + 1);\nconst why = () => {\nconst waits = program.threads.map((_, \
t) => t).filter(\nt => !moment.next[t] && moment.state.threads[t].status === \"waits\"\n);\nreturn waits.length ? whyOf(program, moment, wai\
ts[0]).text : [\"Nobody waits.\"];\n};\nreturn { at: i + 1, leads: i + 1, ask: [\"Who may go next, after choice \" + (i + 1) + \"?\"], right\
, options, why };\n}\nfunction ownQuestions(tree, run, i) {\nconst { program } = tree;\nconst { row } = run.events.at(i);\nconst isFirst = r\
un.events.findIndex(event => event.row === row && event.what !== \"idle\") === i;\nif (!isFirst) return [];\nconst asked = program.questions\
.filter(one => one.row === row);\nreturn asked.map(\none => ({ at: i, leads: i + 1, ask: [one.text], own: true, options: [], why: () => reas\
onAt(tree, run, i + 1) })\n);\n}\nfunction endQuestion(tree, run, outcomes) {\nconst { program } = tree;\nconst say = end => {\nconst output \
= outputText(program, end);\nreturn endText(program, end) + (output ? \" \\u2014 output: \" + output : \"\");\n};\nconst right = say(run.end\
);\nconst options = optionsOf(right, outcomes.map(one => say(one.end)), 3);\nif (!options) return null;\nconst ask = [\"The order is \", str\
ong(planOf(program, run.events, 24)), \". How does it end?\"];\nreturn { at: 0, leads: lengthOf(run), ask, right, options, why: () => [\"It \
ends so: \", strong(right), \".\"] };\n}\nfunction questionsOf(tree, run, outcomes) {\nconst happened = happenedIn(tree.program, outcomes);\n\
const out = [];\nfor (let i = 0; i < Math.min(lengthOf(run), LONGEST); i++) {\nout.push(...ownQuestions(tree, run, i), callQuestion(tree, ru\
n, i, happened), whoQuestion(tree, run, i));\n}\nreturn [...out, endQuestion(tree, run, outcomes)].filter(Boolean);\n}\nconst askText = (pro\
gram, question) => plain(program, question.ask);\nreturn { questionsOf, askText };\n})();\n// app/state.js\nconst m34 = (() => {\nconst { en\
dKind } = m2;\nconst { lessonOf } = m28;\nconst { walkTo, addressOf } = m20;\nconst { Refused } = m14;\nconst { mistakeOf } = m29;\nconst { \
playedPlan, readablePlan } = m16;\nconst { questionsOf } = m33;\nconst { depthOf, firstAlone, forkRun, graftRun, inOrder, lengthOf, openProg\
ram, plantTree } = m19;\nconst OWN = {\ngroup: \"Yours\",\nname: \"own\",\ntitle: \"My own program\",\nplan: \"..\",\nprogram:\n\"; My own: \
two threads meet.\\n.phaser meet 2\\n.thread ann main\\n.thread bob main\\n\" +\n\"main: paaa r0 meet ; arriveAndAwaitAdvance\\n      out r0\
\\n      halt\\n\"\n};\nfunction firstState() {\nreturn {\nitem: null,\ntext: \"\",\nplan: \"..\",\nitsPlan: \"..\",\ntree: null,\nid: 0,\na\
t: 0,\nisCut: false,\nmistake: null,\nmode: \"explore\",\ntab: \"picture\",\npane: \"time\",\nselected: null,\npreview: \"\",\norders: null,\
\nisJava: false,\nisHidden: false,\nisFolded: false,\nisAlone: false,\nhasLetters: true,\nother: null,\nzoom: 1,\nlesson: null,\nquiz: null,\
\nchallenge: null,\ncheck: null\n};\n}\nconst runOf = state => state.tree.runs[state.id];\nconst otherOf = state => (\nstate.other === null \
|| state.other === state.id ? null : state.tree.runs[state.other] || null\n);\nfunction planted(state, program, text, plan, { choices, isCut\
, trace }) {\nconst tree = plantTree(program, choices, trace);\nconst next = { ...state, text, plan, tree, id: 0, isCut, mistake: null, orde\
rs: null };\nreturn { ...next, selected: null, preview: \"\", other: null, challenge: null };\n}\nconst scheduleIn = (item, plan) => (item &\
& plan === item.plan && item.schedule) || \"\";\nconst rowsOf = text => text.split(\"\\n\").map(line => line.split(\";\")[0].trim().replace(\
/\\s+/g, \" \")).filter(Boolean);\nfunction isOther(item, text) {\nconst old = rowsOf(item.program);\nconst all = new Set(rowsOf(text));\nre\
turn old.filter(row => all.has(row)).length * 2 < old.length;\n}\nfunction planFor({ item, itsPlan }, text, plan) {\nreturn plan === itsPlan \
&& isOther(item, text) ? OWN.plan : plan;\n}\nfunction edited(state, text, plan, played) {\nconst isSamePlan = state.tree && plan === state.\
plan;\nconst place = isSamePlan ? addressOf(state.tree, runOf(state), state.at) : String(state.at);\nconst isNew = isOther(state.item, text)\
;\nlet next;\ntry {\nconst program = openProgram(text);\nplan = planFor(state, text, plan);\nnext = planted(state, program, text, plan, play\
ed || playedPlan(text, plan, scheduleIn(state.item, plan)));\nif (!played && isSamePlan && !isLive(state) && isLive(next) && !next.isCut) {\n\
const on = plan + \" ..\";\nconst itsPlan = plan === state.itsPlan ? on : state.itsPlan;\nnext = planted({ ...state, itsPlan }, program, tex\
t, on, playedPlan(text, on));\n}\n} catch (fault) {\nif (!(fault instanceof Refused)) throw fault;\nreturn { ...state, text, plan, mistake: \
mistakeOf(fault, text, plan) };\n}\nconst { tree, run, at } = walkTo(next.tree, place);\nnext = { ...next, tree, id: run.id, at };\nif (isNe\
w) next = { ...next, item: { ...OWN, program: text, plan: next.plan }, itsPlan: next.plan };\nif (!next.lesson) return next;\nconst begun = \
begunLesson(next);\nconst { step, isOpen } = next.lesson;\nreturn { ...next, lesson: isNew ? begun : { ...begun, step: Math.min(step, begun.\
lesson.steps.length), isOpen } };\n}\nconst isLive = ({ tree: { runs: [run] } }) => run.end.word === \"live\" && !run.refused;\nconst begunL\
esson = state => ({\nlesson: lessonOf(state.item, state.tree.program, state.tree.runs[0]),\nstep: -1,\nisOpen: false,\nisPlayed: false,\nvot\
es: {}\n});\nfunction opened(state, item, mode, played) {\nconst fresh = { ...state, item, at: 0, id: 0, tree: null, check: null, mode: \"ex\
plore\", quiz: null };\nlet next = edited(fresh, item.program, item.plan, played);\nif (!next.tree) {\nconst stand = edited(fresh, OWN.progr\
am, OWN.plan);\nreturn { ...stand, text: item.program, plan: item.plan, mistake: next.mistake };\n}\nif (!next.mistake) next = { ...next, pl\
an: readablePlan(next.tree.program, runOf(next), next.plan) };\nif (item.schedule) next = { ...next, item: { ...item, plan: next.plan } };\n\
next = { ...next, itsPlan: next.plan, lesson: begunLesson(next) };\nreturn inMode(next, mode || \"explore\");\n}\nfunction lastOf(state) {\n\
const { quiz } = state;\nconst last = lengthOf(runOf(state));\nif (state.mode !== \"quiz\" || state.id || (quiz && !quiz.list[quiz.k])) retu\
rn last;\nreturn quiz ? quiz.list[quiz.k][isVeiled(state) ? \"at\" : \"leads\"] : 0;\n}\nfunction at(state, i) {\nreturn { ...state, at: Mat\
h.max(0, Math.min(lastOf(state), i)), preview: \"\" };\n}\nfunction walked(state, id, i) {\nconst other = state.other === id ? state.id : st\
ate.other;\nreturn at({ ...state, id, other }, i);\n}\nfunction forked(state, i, token) {\nconst { tree, run } = forkRun(state.tree, state.i\
d, i, token);\nconst isOn = runOf(state).choices[i] === token;\nconst lesson = state.lesson && { ...state.lesson, isPlayed: true, votes: {} \
};\nreturn at({ ...state, tree, id: isOn ? state.id : run.id, lesson }, i + 1);\n}\nfunction addressed(state, address) {\nconst { tree, run, \
at: i } = walkTo(state.tree, address);\nreturn at({ ...state, tree, id: run.id }, i);\n}\nfunction ordered(state, outcome) {\nconst { tree, \
run } = graftRun(state.tree, outcome.choices);\nconst from = run.parent < 0 ? 0 : run.fork + 1;\nreturn at({ ...state, tree, id: run.id }, M\
ath.min(from, lengthOf(run)));\n}\nfunction backToFork(state) {\nconst run = runOf(state);\nreturn run.parent < 0 ? state : walked(state, ru\
n.parent, Math.min(run.fork, state.at));\n}\nfunction besideInTree(state, by) {\nconst list = inOrder(state.tree).map(one => one.run);\ncons\
t run = list[list.findIndex(one => one.id === state.id) + by];\nif (!run) return state;\nreturn walked(state, run.id, Math.max(state.at, run\
.parent < 0 ? 0 : run.fork + 1));\n}\nfunction madeFirst(state) {\nconst run = runOf(state);\nif (run.parent < 0) return state;\nconst plan \
= readablePlan(state.tree.program, run, run.choices.join(\" \"));\nreturn at(planted(state, state.tree.program, state.text, plan, { choices: \
run.choices, isCut: false }), state.at);\n}\nfunction firstOnly(state) {\nconst run = runOf(state);\nconst i = run.parent < 0 ? state.at : M\
ath.min(state.at, run.fork);\nreturn at({ ...state, tree: firstAlone(state.tree), id: 0, other: null }, i);\n}\nfunction sideBySide(state) {\
\nif (state.other !== null) return { ...state, other: null };\nif (state.tree.runs.length < 2) return state;\nconst run = runOf(state);\nret\
urn { ...state, other: run.parent >= 0 ? run.parent : state.tree.runs.length - 1 };\n}\nfunction selectedThread(state, thread) {\nconst isSa\
me = state.selected && state.selected.thread === thread;\nreturn { ...state, selected: isSame ? null : { thread }, tab: isSame ? state.tab : \
\"picture\" };\n}\nfunction selectedPhaser(state, phaser) {\nconst isSame = state.selected && state.selected.phaser === phaser;\nreturn { ..\
.state, selected: isSame ? null : { phaser } };\n}\nconst VEIL = \"This stands here after the answer.\";\nfunction inMode(state, mode) {\nco\
nst next = { ...state, mode, pane: \"time\", preview: \"\", quiz: null, challenge: null };\nif (mode === \"quiz\") return quizOf(next);\nif \
(mode === \"lesson\") return atStep({ ...next, tab: \"picture\" });\nreturn mode === \"challenge\" ? challengeIn({ ...at({ ...next, id: 0 }, \
0), other: null }) : next;\n}\nfunction challengeIn(state) {\nif (!state.orders) return state;\nconst found = [\"stuck\", \"ended\"].filter(\
kind => state.orders.all.some(one => endKind(one.end) === kind));\nconst own = endKind(state.tree.runs[0].end);\nreturn { ...state, challeng\
e: { goal: found.find(kind => kind !== own) || \"\", tried: state.orders.tried } };\n}\nfunction quizOf(state) {\nconst next = at({ ...state\
, id: 0, other: null, tab: \"picture\" }, 0);\nif (!state.orders) return { ...next, quiz: null };\nconst list = questionsOf(state.tree, stat\
e.tree.runs[0], state.orders.all);\nconst quiz = { list, k: 0, chosen: null, isOpen: false, right: 0, answered: 0 };\nreturn at({ ...next, q\
uiz }, list.length ? list[0].at : 0);\n}\nfunction withOrders(state, orders) {\nconst next = { ...state, orders };\nif (state.mode === \"cha\
llenge\" && !state.challenge) return challengeIn(next);\nreturn state.mode === \"quiz\" && !state.quiz ? quizOf(next) : next;\n}\nfunction a\
nswered(state, option) {\nconst { quiz } = state;\nconst question = quiz.list[quiz.k];\nif (!question || quiz.chosen !== null) return state;\
\nconst right = quiz.right + (option === question.right ? 1 : 0);\nreturn at({ ...state, quiz: { ...quiz, chosen: option, right, answered: q\
uiz.answered + 1 } }, question.leads);\n}\nfunction shownOwn(state) {\nconst question = state.quiz.list[state.quiz.k];\nreturn at({ ...state\
, quiz: { ...state.quiz, isOpen: true } }, question.leads);\n}\nfunction nextQuestion(state) {\nconst { quiz } = state;\nconst question = qu\
iz.list[quiz.k + 1];\nconst next = { ...state, quiz: { ...quiz, k: quiz.k + 1, chosen: null, isOpen: false } };\nreturn question ? at({ ...n\
ext, id: 0 }, question.at) : next;\n}\nfunction openStep({ mode, lesson }) {\nconst isOpen = mode === \"lesson\" && lesson && !lesson.isOpen \
&& !lesson.isPlayed;\nreturn (isOpen && lesson.lesson.steps[lesson.step]) || null;\n}\nfunction isVeiled(state) {\nconst { quiz } = state;\n\
if (state.mode !== \"quiz\") return Boolean(openStep(state));\nreturn !quiz || (Boolean(quiz.list[quiz.k]) && quiz.chosen === null && !quiz.\
isOpen);\n}\nfunction isNextHidden(state) {\nreturn isVeiled(state) && !(openStep(state) || {}).votes;\n}\nfunction isGuessed({ mode, lesson\
, quiz }) {\nif (mode === \"quiz\") return !quiz || Boolean(quiz.list[quiz.k]);\nreturn mode === \"lesson\" && !lesson.isOpen && (lesson.ste\
p < 0 || Boolean(lesson.lesson.steps[lesson.step]));\n}\nconst isLaterHidden = state => state.isHidden || isGuessed(state);\nconst isPlanHid\
den = state => isGuessed(state) && state.plan === state.itsPlan;\nfunction lessonStep(state, by) {\nconst { lesson, isOpen } = state.lesson;\
\nconst to = state.lesson.step + (isOpen && by < 0 ? 0 : by);\nconst step = Math.max(-1, Math.min(lesson.steps.length, to));\nreturn atStep(\
{ ...state, lesson: { ...begunLesson(state), ...{ lesson, step } } });\n}\nfunction atStep(state) {\nconst { lesson, step } = state.lesson;\n\
return at({ ...state, id: 0 }, lesson.steps[step] ? lesson.steps[step].at : 0);\n}\nfunction lessonAnswer(state) {\nconst one = state.lesson\
.lesson.steps[state.lesson.step];\nif (!one) return state;\nconst next = { ...state, lesson: { ...state.lesson, isOpen: true } };\nreturn on\
e.next ? at(next, one.at + 1) : next;\n}\nfunction voted(state, thread, by) {\nconst count = Math.max(0, (state.lesson.votes[thread] || 0) + \
by);\nreturn { ...state, lesson: { ...state.lesson, votes: { ...state.lesson.votes, [thread]: count } } };\n}\nfunction challengeOf(state) {\
\nif (!state.challenge) return null;\nconst { goal, tried } = state.challenge;\nconst run = runOf(state);\nconst changes = depthOf(state.tre\
e, run);\nconst isDone = changes > 0 && state.at === lengthOf(run) && endKind(run.end) === goal;\nreturn { goal, tried, changes, isDone };\n\
}\nreturn { OWN, firstState, runOf, otherOf, scheduleIn, isOther, planFor, edited, opened, lastOf, at, walked, forked, addressed, ordered, b\
ackToFork, besideInTree, madeFirst, firstOnly, sideBySide, selectedThread, selectedPhaser, VEIL, inMode, quizOf, withOrders, answered, shown\
Own, nextQuestion, isVeiled, isNextHidden, isLaterHidden, isPlanHidden, lessonStep, lessonAnswer, voted, challengeOf };\n})();\n// app/comma\
nds.js\nconst m35 = (() => {\nconst { MOST_LINK } = m20;\nconst { button, byId, fill } = m3;\nconst { bareName, readProgramFile, runIn, save \
} = m21;\nconst { pageWith } = m9;\nconst { helpSheet } = m23;\nconst { listenToKeys } = m22;\nconst { listProgram } = m14;\nconst { copyShe\
et, mainMenu, programsMenu } = m24;\nconst { drawPaper } = m26;\nconst { planOf } = m16;\nconst { optionAt } = m27;\nconst { lengthOf } = m1\
9;\nconst { scheduleOf } = m15;\nconst change = m34;\nconst ZOOM = 1.12;\nconst STORE = \"vuthgal\";\nconst KEPT = { hasLetters: \"letters\"\
, isHidden: \"hidden\" };\nfunction stored() {\ntry {\nreturn JSON.parse(localStorage.getItem(STORE)) || {};\n} catch (_) {\nreturn {};\n}\n\
}\nfunction keep(more) {\ntry {\nlocalStorage.setItem(STORE, JSON.stringify({ ...stored(), ...more }));\nreturn true;\n} catch (_) {\nreturn \
false;\n}\n}\nfunction makeCommands(app, given) {\nconst settings = { speed: 1, theme: \"auto\", version: given.version };\nlet playing = 0;\
\nconst state = () => app.get();\nconst run = () => change.runOf(app.get());\nconst go = i => app.set(change.at(state(), i));\nfunction setZ\
oom(zoom, isKept = true) {\nconst next = Math.max(0.7, Math.min(2.5, zoom));\ndocument.documentElement.style.setProperty(\"--zoom\", next);\n\
if (isKept) keep({ zoom: next });\nsetColumns();\nif (state().tree) app.set({ ...state(), zoom: next });\napp.fitted();\n}\nconst zoomBy = b\
y => setZoom(state().zoom * by);\nfunction setTheme(theme) {\nsettings.theme = theme;\nif (theme === \"auto\") delete document.documentEleme\
nt.dataset.theme;\nelse document.documentElement.dataset.theme = theme;\nkeep({ theme });\n}\nfunction setColumns() {\nconst rem = parseFloa\
t(getComputedStyle(document.documentElement).fontSize);\nconst isTwo = innerWidth > 900 && innerHeight > 520 && innerWidth / rem < 62;\nif (\
isTwo) document.body.dataset.columns = \"2\";\nelse delete document.body.dataset.columns;\n}\nfunction play() {\nclearInterval(playing);\nco\
nst step = () => (state().at >= change.lastOf(state()) ? play() : go(state().at + 1));\nplaying = playing ? 0 : setInterval(step, settings.s\
peed * 1000);\nif (playing) step();\n}\nasync function copy(text) {\ntry {\nawait navigator.clipboard.writeText(text);\napp.note(\"Copied.\"\
);\n} catch (_) {\napp.sheet.open(byId(\"more\"), \"Copy this\", copySheet(text));\nbyId(\"sheet\").querySelector(\"textarea\").select();\n}\
\n}\nasync function copyLink() {\nif (state().mistake) return app.note(\"The program is refused now, so there is no link to it. Mend it firs\
t.\");\nconst link = location.href.split(\"#\")[0] + (await app.linkNow());\nif (link.length > MOST_LINK) return app.note(\"This program is \
too long for a link. Save the page with the run.\");\nreturn copy(link);\n}\nfunction savePage() {\nconst { text: source } = state().tree.pr\
ogram;\nconst { choices, trace } = run();\nconst texts = { listing: listProgram(source), source, schedule: scheduleOf(choices), trace };\nre\
turn save(state().item.name + \".html\", pageWith(given.page, texts), \"text/html\");\n}\nfunction copyCommand() {\nconst plan = planOf(stat\
e().tree.program, run().events, Infinity);\ncopy(\"vuthgal show \" + state().item.name + \".asm --plan '\" + plan + \"' > \" + state().item.\
name + \".html\");\n}\nlet isSheet = false;\nfunction drawForPaper() {\nconst { tree, at, isJava, lesson, item } = state();\nconst asked = l\
esson ? lesson.lesson.steps.map(one => one.ask) : [];\nconst title = (lesson && lesson.lesson.title) || tree.program.title || item.title;\nd\
rawPaper(byId(\"paper\"), { tree, run: run(), at, isJava, title, asked }, isSheet);\n}\nfunction print(sheet) {\nisSheet = sheet;\nwindow.pr\
int();\n}\nwindow.addEventListener(\"beforeprint\", () => state().tree && drawForPaper());\nwindow.addEventListener(\"afterprint\", () => {\n\
isSheet = false;\nfill(byId(\"paper\"));\n});\nfunction startAgain() {\nconst { text, plan, item } = state();\napp.open(item, state().mode);\
\nif (text !== item.program) app.note(\"As it was at first. \", button(\"Undo\", () => app.edit(text, plan)));\n}\nfunction openOwn() {\ncon\
st { own } = stored();\napp.open(own && own.program ? { ...change.OWN, ...own } : change.OWN, \"explore\");\n}\nfunction keepOwn() {\nconst \
{ text, plan } = state();\nconst isKept = keep({ own: { program: text, plan } });\napp.note(\nisKept ? \"Kept in this browser: \\u201CMy own \
program\\u201D.\" : \"This browser keeps nothing. Save the program.\"\n);\n}\nasync function openFile(file) {\nconst text = await file.text(\
);\nconst name = bareName(file.name);\nif (/\\.html?$/i.test(file.name)) {\nconst found = runIn(new DOMParser().parseFromString(text, \"text\
/html\"), name);\nreturn found ? app.openRun(found) : app.note(\"There is no run in this page.\");\n}\nreturn app.open({ group: \"Yours\", n\
ame, title: file.name, ...readProgramFile(text) }, \"explore\");\n}\nbyId(\"pick\").onclick = () => {\nconst act = {\nopen: item => app.open\
(item, item.group === \"Lessons\" && state().mode === \"explore\" ? \"lesson\" : state().mode),\nown: openOwn,\nkeep: keepOwn,\nfile: openFi\
le\n};\napp.sheet.open(byId(\"pick\"), \"Programs\", programsMenu(app.sheet, given.menu, state().item, act));\n};\nconst acts = {\nset: (nam\
e, value) => {\nif (KEPT[name]) keep({ [KEPT[name]]: value });\napp.set({ ...state(), [name]: value });\napp.fitted();\n},\nspeed: speed => \
(settings.speed = speed),\ntheme: setTheme,\nplay,\nagain: startAgain,\nside: app.setSide,\nmakeFirst: () => (run().parent < 0 ? app.note(\"\
This is run 1.\") : app.set(change.madeFirst(state()), true)),\nonlyFirst: () => app.set(change.firstOnly(state()), true),\nlarger: () => zo\
omBy(ZOOM),\nsmaller: () => zoomBy(1 / ZOOM),\nhandout: () => print(false),\nworksheet: () => print(true),\ncopyLink,\ncopyPlan: () => copy(\
planOf(state().tree.program, run().events, Infinity)),\ncopySchedule: () => copy(scheduleOf(run().choices)),\ncopyCommand,\nsaveTrace: () => \
save(state().item.name + \".trace\", run().trace),\nsaveProgram: () => save(state().item.name + \".asm\", state().text),\nsavePage,\nhelp: (\
) => app.sheet.open(byId(\"help\"), \"Help\", helpSheet(state().tree.program, () => app.sheet.close(true)))\n};\nbyId(\"help\").onclick = ac\
ts.help;\nbyId(\"more\").onclick = () => app.sheet.open(byId(\"more\"), \"Menu\", mainMenu(app.sheet, state(), settings, acts));\nbyId(\"aga\
in\").onclick = startAgain;\nbyId(\"first\").onclick = () => go(0);\nbyId(\"back\").onclick = () => go(state().at - 1);\nbyId(\"forth\").onc\
lick = () => go(state().at + 1);\nbyId(\"last\").onclick = () => go(lengthOf(run()));\nbyId(\"smaller\").onclick = () => zoomBy(1 / ZOOM);\n\
byId(\"larger\").onclick = () => zoomBy(ZOOM);\nfor (const one of document.querySelectorAll(\"#modes button\")) one.onclick = () => app.setM\
ode(one.dataset.mode);\nfor (const one of document.querySelectorAll(\"#tabs button\")) {\none.onclick = () => {\napp.set({ ...state(), pane: \
one.dataset.pane });\napp.fitted();\n};\n}\nconst moves = {\nArrowRight: () => go(state().at + 1),\nPageDown: () => go(state().at + 1),\nArr\
owLeft: () => go(state().at - 1),\nPageUp: () => go(state().at - 1),\nHome: () => go(0),\nEnd: () => go(lengthOf(run()))\n};\nconst letters \
= {\n\" \": play,\n\"+\": () => zoomBy(ZOOM),\n\"=\": () => zoomBy(ZOOM),\n\"-\": () => zoomBy(1 / ZOOM),\n0: () => setZoom(1),\n\"[\": () =\
> app.set(change.besideInTree(state(), -1)),\n\"]\": () => app.set(change.besideInTree(state(), 1)),\np: () => app.setTab(\"picture\"),\nv: \
() => app.setTab(\"values\"),\no: () => app.setTab(\"orders\"),\nf: () => acts.set(\"isAlone\", !state().isAlone),\ne: () => {\napp.set({ ..\
.state(), pane: \"code\", isAlone: false });\napp.program.focus();\n},\ns: app.setSide,\n\"?\": acts.help\n};\nconst keys = {\nkeys: moves,\n\
number: n => byId(\"next\").querySelectorAll(\".chip, .next-place\")[n - 1]?.click(),\nletter: sign => {\nconst option = state().mode === \"\
quiz\" ? optionAt(state().quiz, sign) : null;\nif (option !== null) app.set(change.answered(state(), option));\nelse if (letters[sign]) lett\
ers[sign]();\nreturn option !== null || Boolean(letters[sign]);\n},\nescape: field => {\nif (app.sheet.isOpen()) return app.sheet.close(true\
);\nif (field) return field.blur();\nif (state().isAlone) return acts.set(\"isAlone\", false);\nreturn app.set(change.backToFork(state()));\n\
},\nprint: () => (isSheet = false)\n};\nlistenToKeys(keys, () => state().hasLetters);\nwindow.addEventListener(\"resize\", () => {\nsetColum\
ns();\napp.fitted();\n});\nconst kept = stored();\nif (kept.theme) setTheme(kept.theme);\napp.set({ ...state(), hasLetters: kept.letters !== \
false, isHidden: kept.hidden === true });\nsetColumns();\nif (kept.zoom) {\ndocument.documentElement.style.setProperty(\"--zoom\", kept.zoom\
);\napp.set({ ...state(), zoom: kept.zoom });\nsetColumns();\n}\n}\nreturn { makeCommands };\n})();\n// app/stage.js\nconst m36 = (() => {\n\
const { endKind, endText, outputText } = m2;\nconst { byId, fill, h, shown } = m3;\nconst { hueOf, plain, threadName } = m1;\nconst { reason\
Of, strayOf } = m31;\nconst { eventTo, lengthOf, momentOf } = m19;\nconst { refusedText, sentenceOf, wouldText } = m25;\nconst { isLaterHidd\
en, isNextHidden, isVeiled, lastOf, runOf } = m34;\nconst PLACES = 8;\nconst FEW = 4;\nlet rest = \"\";\nconst placeOf = event => event.clie\
ntX + \" \" + event.clientY;\nconst eventOf = (moment, token) => (token[0] === \"x\" ? moment.late : moment.next)[Number(token.slice(1))];\n\
function saidOf(state) {\nconst { tree, at, mistake } = state;\nconst run = runOf(state);\nconst { program } = tree;\nif (mistake) {\nconst \
where = mistake.isProgram\n? \"The program has a mistake\" + (mistake.line ? \" in line \" + mistake.line : \"\")\n: \"The plan has a mistak\
e\";\nreturn { badge: \"!\", kind: \"wrong\", parts: [where + \". The run below is the last that could be played.\"] };\n}\nconst moment = m\
omentOf(tree, run.id, at);\nconst tried = state.preview && eventOf(moment, state.preview);\nif (tried) return {\nbadge: \"?\",\nkind: \"woul\
d\",\nparts: [\"If it\\u2019s next: \", ...wouldText(program, tried, moment)]\n};\nconst word = isVeiled(state) ? \"\" : moment.state.word;\n\
const kind = word === \"all\" ? endKind(moment.state) : word === \"stuck\" ? word : \"\";\nconst end = { stuck: \" Stuck: no thread can ever \
go on.\", all: \" All threads are over.\" }[word] || \"\";\nconst isRefused = run.refused && at === lengthOf(run);\nconst verdict = isRefuse\
d ? \" \" + refusedText(run.refused, at + 1) : end;\nif (!at) return {\nbadge: 0,\nkind,\nverdict,\nparts: [program.about || \"Each thread i\
s at its first row. Who goes first?\"]\n};\nconst parts = sentenceOf(program, eventTo(run, at), momentOf(tree, run.id, at - 1), moment);\nco\
nst reasons = isVeiled(state) ? [] : [reasonOf(tree, run.id, at), strayOf(tree, run.id, at)];\nconst reason = reasons.filter(Boolean).join(\" \
\");\nreturn { badge: at, kind, verdict, parts, reason };\n}\nfunction drawSaid(state) {\nconst { badge, kind, parts, verdict, reason } = sa\
idOf(state);\nconst text = plain(state.tree.program, parts) + (verdict || \"\") + (reason || \"\");\nbyId(\"said\").dataset.kind = kind;\nby\
Id(\"said\").className = text.length > 210 ? \"is-longer\" : text.length > 130 ? \"is-long\" : \"\";\nconst end = verdict ? h(\"strong.said-\
verdict\", {}, verdict) : null;\nconst why = reason ? h(\"span.said-reason\", {}, \" \" + reason) : null;\nfill(\nbyId(\"said\"),\nh(\"span.\
said-badge\", {}, badge),\nh(\"span.said-text\", {}, shown(state.tree.program, parts), end, why)\n);\n}\nfunction drawNext(state, act) {\nco\
nst { tree, at } = state;\nconst run = runOf(state);\nconst { program } = tree;\nconst moment = momentOf(tree, run.id, at);\nconst own = isL\
aterHidden(state) ? \"\" : run.choices[at];\nconst isHidden = isNextHidden(state);\nconst all = isHidden ? [] : [...Object.values(moment.nex\
t), ...Object.values(moment.late)];\nconst key = [program.text.length, at, run.id, own, isHidden, ...all.map(one => one.token)].join(\" \");\
\nif (byId(\"next\").dataset.key === key) return;\nconst hadFocus = byId(\"next\").contains(document.activeElement);\nbyId(\"next\").dataset\
.key = key;\nbyId(\"next\").onpointermove = moved => (rest = placeOf(moved));\nconst places = program.threads.length > PLACES ? [] : program\
.threads.map((_, t) => t);\nconst blank = t => h(\"span.next-place\", { \"aria-hidden\": \"true\" }, threadName(program, t));\nconst chip = \
(event, k) => {\nconst isOwn = event.token === own;\nconst kinds = \".chip.\" + hueOf(event.thread) + (event.isLate ? \".chip-late\" : \"\") \
+ (isOwn ? \".chip-own\" : \"\");\nconst given = {\ntype: \"button\",\n\"data-token\": event.token,\ntitle: (isOwn ? \"The run goes on so\" \
: own ? \"Another run\" : \"Next\") + (k < 9 ? \" (key \" + (k + 1) + \")\" : \"\"),\nonclick: () => act.choose(event.token),\nonpointerente\
r: moved => placeOf(moved) !== rest && act.tryOut(event.token),\nonpointerleave: () => act.tryOut(\"\"),\nonkeyup: pressed => pressed.key ==\
= \"Tab\" && act.tryOut(event.token),\nonblur: () => act.tryOut(\"\")\n};\nconst name = threadName(program, event.thread);\nif (event.isLate\
) given[\"aria-label\"] = \"the time-out of \" + name;\nreturn h(\"button\" + kinds, given, event.isLate ? h(\"i.clock\") : null, name);\n};\
\nconst nobody = moment.state.word === \"stuck\" ? \"Nobody may go\" : \"All are over\";\nconst label = isHidden ? \"Next: after the answer\" \
: all.length ? \"Next:\" : nobody;\nconst list = places.length ? [...places.map(t => moment.next[t] || t), ...Object.values(moment.late)] : \
all;\nconst chips = all.length ? list.map((one, k) => (one.token ? chip(one, k) : blank(one))) : null;\nbyId(\"next\").classList.toggle(\"is\
-many\", places.length > FEW);\nfill(byId(\"next\"), h(\"span.next-label\", {}, label), chips);\nif (hadFocus) (byId(\"next\").querySelector\
(\".chip-own, .chip\") || byId(\"forth\")).focus();\n}\nfunction drawStage(state, act) {\nconst { tree, at } = state;\nconst run = runOf(sta\
te);\ndrawSaid(state);\nconst isCut = state.isCut && run.parent < 0;\nconst isQuiet = isLaterHidden(state);\nconst all = isQuiet ? \"\" : \" \
of \" + lengthOf(run) + (isCut ? \"\\u2026\" : \"\");\nfill(byId(\"where\"), h(\"b\", {}, at), all);\nbyId(\"where\").style.setProperty(\"--\
digits\", String(lengthOf(run)).length);\nbyId(\"where\").title = isCut ? \"The plan goes on; the first \" + lengthOf(run) + \" choices are \
shown\" : \"\";\ndrawNext(state, act);\nbyId(\"first\").disabled = byId(\"back\").disabled = at === 0;\nbyId(\"forth\").disabled = byId(\"la\
st\").disabled = at === lastOf(state);\nconst kind = endKind(run.end);\nconst end = \"Run \" + (run.id + 1) + (kind === \"open\" ? \" stays \
open\" : \": \" + endText(tree.program, run.end));\nfill(byId(\"ends\"), isQuiet ? \"\" : h(\"span.end.end-\" + kind, { title: outputText(tr\
ee.program, run.end) }, end));\n}\nreturn { PLACES, drawStage };\n})();\n// app/lesson.js\nconst m37 = (() => {\nconst { button, h, sizeOf } \
= m3;\nconst { hueOf, threadName } = m1;\nconst { PLACES } = m36;\nfunction votesOf(program, moment, votes, act) {\nconst able = Object.keys\
(moment.next).map(Number);\nconst places = program.threads.length > PLACES ? able : program.threads.map((_, t) => t);\nconst most = Math.max\
(0, ...able.map(t => votes[t] || 0));\nconst first = able.filter(t => (votes[t] || 0) === most && most > 0);\nconst name = t => threadName(p\
rogram, t);\nconst one = t => {\nconst count = votes[t] || 0;\nconst given = {\ntype: \"button\",\n\"data-key\": \"vote\" + t,\n\"aria-label\
\": name(t) + \", \" + count + (count === 1 ? \" vote\" : \" votes\"),\nonclick: event => act.vote(t, event.shiftKey ? -1 : 1)\n};\nconst le\
ss = button(\"\\u2212\", () => act.vote(t, -1), {\nkind: \".vote-less\",\n\"data-key\": \"less\" + t,\n\"aria-label\": \"one vote less for \" \
+ name(t),\n\"aria-disabled\": String(!count)\n});\nconst vote = h(\"button.vote\", given, h(\"span\", {}, name(t)), h(\"b\", {}, count));\n\
return h(\"span.vote-place.\" + hueOf(t) + (able.includes(t) ? \"\" : \".is-out\"), {}, vote, less);\n};\nconst play = button(first.length =\
== 1 ? \"Play \" + name(first[0]) : \"Play\", () => act.choose(\"t\" + first[0]), {\nkind: \".main.votes-play\",\ndisabled: first.length !== \
1\n});\nconst head = h(\"div.votes-head\", {}, h(\"p.card-small\", {}, \"Votes: who is next?\"), play);\nreturn h(\"div.votes\", {}, head, h\
(\"div.votes-list\", {}, places.map(one)));\n}\nfunction answerOf(one, act) {\nconst run = one.fork ? button(\"Show this run\", () => act.sh\
owFork(...one.fork), { kind: \".card-show\" }) : null;\nconst tab = one.tab ? button(\"Random orders\", () => act.tab(one.tab), { kind: \".c\
ard-show\" }) : null;\nreturn [h(\"p.card-small\", {}, \"Answer\"), h(\"p.card-answer\" + sizeOf(one.answer), {}, one.answer, run, tab)];\n}\
\nfunction dotsOf(step, count) {\nconst label = step < 0 ? \"start\" : step >= count ? \"end\" : \"question \" + (step + 1) + \" of \" + cou\
nt;\nconst dot = (_, k) => h(\"i.dot\" + (k === step ? \".is-here\" : k < step ? \".is-done\" : \"\"));\nreturn h(\"span.dots\", { role: \"i\
mg\", \"aria-label\": label }, Array.from({ length: count }, dot));\n}\nfunction edgeOf(lesson, step, act) {\nconst isStart = step < 0;\ncon\
st count = lesson.steps.length;\nconst text = isStart\n? \"Step through the run first. Let the class say what each choice does, before you s\
tep.\"\n: \"Ask for the quiz, or change a row, and look again.\";\nconst next = isStart && count ? button(\"First question\", () => act.step\
(1), { kind: \".main\" }) : null;\nconst back = isStart ? null : button(\"Back\", () => act.step(-1));\nconst head = isStart ? \"Aim\" : \"T\
o remember\";\nconst large = isStart ? lesson.aim : lesson.last;\nreturn [\nh(\"div.card-ask\", {}, h(\"p.card-small\", {}, head), h(\"p.car\
d-large\" + sizeOf(large), {}, large)),\nh(\"div.card-reply\", {}, h(\"p.card-small\", {}, isStart ? lesson.title : \"End of the lesson\"), \
h(\"p\", {}, text)),\nh(\"div.card-turn\", {}, dotsOf(step, count), next, back)\n];\n}\nfunction lessonCard({ lesson, step, isOpen, votes }, \
program, moment, act) {\nconst one = lesson.steps[step];\nconst count = lesson.steps.length;\nif (!one) return edgeOf(lesson, step, act);\nc\
onst reply = isOpen\n? answerOf(one, act)\n: one.votes ? votesOf(program, moment, votes, act) : h(\"p.card-small\", {}, \"\\u00a0\");\nconst \
next = isOpen\n? button(step + 1 < count ? \"Next question\" : \"End\", () => act.step(1), { kind: \".main\" })\n: button(\"Answer\", act.an\
swer, { kind: \".main\" });\nreturn [\nh(\n\"div.card-ask\",\n{},\nh(\"p.card-small\", {}, \"Question \" + (step + 1) + \" of \" + count),\n\
h(\"p.card-large\" + sizeOf(one.ask), {}, one.ask)\n),\nh(\"div.card-reply\", {}, reply),\nh(\"div.card-turn\", {}, dotsOf(step, count), but\
ton(\"Back\", () => act.step(-1)), next)\n];\n}\nreturn { lessonCard };\n})();\n// app/outcomes.js\nconst m38 = (() => {\nconst { playRun } \
= m14;\nconst { choicesOfPlan } = m16;\nconst { openProgram } = m19;\nconst { scheduleOf } = m15;\nconst { readTrace } = m17;\nconst SEEDS = \
300;\nconst LONGEST = 2000;\nconst outcomeKey = end => JSON.stringify([end.word, end.threads.map(one => [one.status, one.code, one.out])]);\n\
function outcomesOf(text, seeds, told = () => {}) {\nconst program = openProgram(text);\nconst found = new Map();\nfor (let seed = 1; seed <\
= seeds; seed++) {\nconst plan = \"?\" + seed + \"*\" + LONGEST;\nconst { choices } = choicesOfPlan(program.text, plan);\nconst { events: re\
ad, end } = readTrace(playRun(program.text, scheduleOf(choices)));\nconst events = [...read];\nconst key = outcomeKey(end);\nconst one = fou\
nd.get(key) || { key, count: 0, plan, end, choices, events };\nfound.set(key, one);\none.count++;\nif (choices.length < one.choices.length) \
Object.assign(one, { plan, choices, events, end });\nif (seed % 10 === 0) told(seed);\n}\nreturn { tried: seeds, all: [...found.values()].so\
rt((a, b) => b.count - a.count) };\n}\nreturn { SEEDS, outcomeKey, outcomesOf };\n})();\n// app/orders.js\nconst m39 = (() => {\nconst { end\
Kind, endText, outputText } = m2;\nconst { button, h } = m3;\nconst { SEEDS } = m38;\nconst { planOf } = m16;\nconst SHOWN = 40;\nfunction o\
utcomeOf(program, one, most, take) {\nconst output = outputText(program, one.end);\nreturn h(\n\"button.outcome.outcome-\" + endKind(one.end\
),\n{ type: \"button\", onclick: () => take(one), title: \"Show this run\" },\nh(\"span.outcome-count\", {}, one.count),\nh(\"span.meter\", \
{ vars: { \"--part\": one.count / most } }, h(\"i\")),\nh(\n\"span.outcome-said\",\n{},\nh(\"b\", {}, endText(program, one.end)),\nh(\"span\"\
, {}, output ? \"output: \" + output : \"no output\"),\nh(\"code\", {}, planOf(program, one.events, 8))\n)\n);\n}\nfunction ordersOf(program\
, orders, working, act) {\nif (working) {\nreturn [\nh(\"p.hint\", { role: \"status\" }, working.done + \" of \" + SEEDS + \" random orders \
are played.\"),\nh(\"span.meter\", { vars: { \"--part\": working.done / SEEDS } }, h(\"i\")),\nbutton(\"Stop\", act.stop)\n];\n}\nif (!order\
s) {\nreturn [\nh(\n\"p.hint\",\n{},\n\"Plays \" + SEEDS + \" random orders of this program, and groups them by how they end and what they p\
ut out.\"\n),\nbutton(\"Play \" + SEEDS + \" random orders\", act.play, { kind: \".main\" })\n];\n}\nconst most = Math.max(...orders.all.map\
(one => one.count));\nconst said = orders.all.length === 1\n? \"one outcome. Others may be rare.\"\n: orders.all.length + \" outcomes. Click \
one to see such a run.\";\nconst rest = orders.all.length - SHOWN;\nreturn [\nh(\"p.hint\", {}, orders.tried + \" random orders: \" + said),\
\nh(\"div.outcomes\", {}, orders.all.slice(0, SHOWN).map(one => outcomeOf(program, one, most, act.take))),\nrest > 0 ? h(\"p.hint\", {}, res\
t + \" more outcomes\") : null\n];\n}\nreturn { ordersOf };\n})();\n// app/program.js\nconst m40 = (() => {\nconst { DIRECTIVES, KINDS } = m\
0;\nconst { byId, fill, h } = m3;\nconst { hueOf, javaText, threadName } = m1;\nconst { isPlanHidden } = m34;\nconst LONG = 20000;\nconst MA\
RGIN = 2;\nconst OPTIONS = /^(parent|phase|never|until|onadvance|action)$/;\nfunction kindOf(word) {\nif (word.endsWith(\":\")) return \"lab\
el\";\nif (DIRECTIVES.includes(word)) return \"directive\";\nif (KINDS[word]) return \"word\";\nif (OPTIONS.test(word)) return \"option\";\n\
return /^(r[0-7]|-?\\d+)$/.test(word) ? \"register\" : \"object\";\n}\nfunction coloured(line) {\nconst cut = line.indexOf(\";\");\nconst co\
de = cut < 0 ? line : line.slice(0, cut);\nconst parts = code.split(/(\\s+)/).map(part => (part.trim() ? h(\"span.code-\" + kindOf(part), {}\
, part) : part));\nconst talk = cut < 0 ? null : h(\"span.code-\" + (line[cut + 1] === \"?\" ? \"asked\" : \"talk\"), {}, line.slice(cut));\n\
return [...parts, talk];\n}\nfunction makeProgram(changed, planned) {\nconst margin = h(\"div.code-margin\", { \"aria-hidden\": \"true\" });\
\nconst numbers = h(\"pre.code-numbers\", { \"aria-hidden\": \"true\" });\nconst copy = h(\"pre.code-copy\", { \"aria-hidden\": \"true\" });\
\nconst marks = h(\"div.code-marks\", { \"aria-hidden\": \"true\" });\nconst told = h(\"div.code-told\", { role: \"status\", id: \"mistake\" \
});\nconst plainly = { spellcheck: \"false\", autocapitalize: \"off\", autocomplete: \"off\" };\nconst text = h(\"textarea.code-typed\", {\n\
...plainly,\nwrap: \"off\",\n\"aria-label\": \"Program. It is played again as you type\",\n\"aria-describedby\": \"mistake\",\noninput: () =\
> {\ngrow();\npaint();\nchanged(text.value);\n}\n});\nconst sheet = h(\"div.code-sheet\", {}, numbers, margin, h(\"div.code-over\", {}, mark\
s, copy, text));\nconst scroll = h(\"div.scroll.code-scroll\", {}, sheet);\nconst plan = h(\"input.plan-typed\", {\n...plainly,\ntype: \"tex\
t\",\nid: \"plan\",\n\"aria-describedby\": \"mistake\",\ntitle: \"ann. is ann until she waits or ends, ann is one turn, .. is all until the \
end, ?7 a random order\",\noninput: () => planned(plan.value)\n});\nfill(byId(\"code\"), scroll, told, h(\"div.plan\", {}, h(\"label\", { fo\
r: \"plan\" }, \"Plan\"), plan));\nlet shown = null;\nlet numbered = null;\nlet brought = -1;\nlet wrong = null;\nfunction grow() {\nconst l\
ines = text.value.split(\"\\n\");\nsheet.style.setProperty(\"--lines\", lines.length + 1);\nsheet.style.setProperty(\"--columns\", lines.red\
uce((most, line) => Math.max(most, line.length), 20) + 2);\n}\nfunction paint() {\nfill(copy, text.value.split(\"\\n\").map((line, n) => h(\"\
span\", {}, coloured(line), javaOf(n), \"\\n\")));\n}\nfunction javaOf(line) {\nif (!shown || !shown.isJava || shown.mistake) return null;\n\
const row = shown.tree.program.lineOf.indexOf(line);\nreturn row < 0\n? null\n: h(\"span.code-java\", {}, \"  \" + javaText(shown.tree.progr\
am, shown.tree.program.rows[row]));\n}\nfunction show(what, moment, event) {\nconst isOther = text.value !== what.text;\nconst wasJava = sho\
wn && shown.isJava;\nconst isMended = Boolean(shown && shown.mistake) !== Boolean(what.mistake);\nshown = what;\nif (isOther) {\ntext.value \
= what.text;\nscroll.scrollTop = 0;\n}\nshowPlan(what);\nif (isOther || !copy.firstChild || wasJava !== what.isJava || (what.isJava && isMen\
ded)) {\ngrow();\npaint();\n}\nshowNumbers();\nshowPlaces(moment, event);\nshowMistake(what.mistake);\n}\nfunction showPlan(state) {\nconst \
isLong = state.plan.length > LONG;\nconst isHidden = isPlanHidden(state);\nconst written = isLong || isHidden ? \"\" : state.plan;\nplan.pla\
ceholder = isHidden ? \"after the answer\" : isLong ? \"the schedule of this page\" : \"\";\nif (plan !== document.activeElement && plan.val\
ue !== written) plan.value = written;\n}\nfunction showNumbers() {\nconst { program } = shown.tree;\nconst isLines = Boolean(shown.mistake) \
&& shown.mistake.isProgram;\nconst what = isLines ? shown.text : program;\nif (numbered === what) return;\nnumbered = what;\nconst lines = i\
sLines ? shown.text.split(\"\\n\").map((_, n) => n + 1) : [];\nif (!isLines) program.lineOf.forEach((line, row) => (lines[line] = row));\nnu\
mbers.textContent = Array.from(lines, row => row ?? \"\").join(\"\\n\");\n}\nfunction showPlaces(moment, event) {\nfill(margin);\nfill(marks\
);\nif (shown.mistake && shown.mistake.isProgram) return;\nconst { program } = shown.tree;\nconst at = new Map();\nmoment.state.threads.forE\
ach((thread, t) => {\nif (/ended|died/.test(thread.status)) return;\nconst line = program.lineOf[thread.row];\nat.set(line, [...(at.get(line\
) || []), t]);\n});\nconst sign = (t, list) => {\nconst room = list.length > MARGIN ? 1 : list.length > 1 ? 2 : 4;\nreturn h(\"i.place.\" + \
hueOf(t), { title: threadName(program, t) }, threadName(program, t).slice(0, room));\n};\nconst places = ([line, list]) => {\nconst some = l\
ist.length > MARGIN ? list.slice(0, 1) : list;\nconst more = list.length > some.length ? h(\"i.place\", {}, \"+\" + (list.length - 1)) : nul\
l;\nreturn h(\"span.places\", { vars: { \"--line\": line } }, some.map(t => sign(t, list)), more);\n};\nfill(margin, [...at].map(places));\n\
const line = event && event.row >= 0 ? program.lineOf[event.row] : -1;\nif (line < 0) return;\nfill(marks, h(\"span.code-now\", { vars: { \"\
--line\": line } }));\nif (document.activeElement !== text) brought = line;\n}\nfunction settle() {\nconst line = brought;\nbrought = -1;\ni\
f (line < 0) return;\nconst high = text.offsetHeight / (text.value.split(\"\\n\").length + 1);\nconst top = line * high;\nconst isIn = top >\
= scroll.scrollTop && top + high * 2 <= scroll.scrollTop + scroll.clientHeight;\nif (!isIn) scroll.scrollTop = Math.max(0, top - scroll.clie\
ntHeight / 2);\n}\nfunction showMistake(mistake) {\nconst isProgram = Boolean(mistake) && mistake.isProgram;\ntext.setAttribute(\"aria-inval\
id\", String(isProgram));\nplan.setAttribute(\"aria-invalid\", String(Boolean(mistake) && !isProgram));\nconst line = isProgram && mistake.l\
ine !== null ? mistake.line - 1 : 0;\nif (wrong !== mistake) {\nwrong = mistake;\nfill(told, mistake ? toldOf(mistake) : null);\nconst typed \
= text.value.slice(0, text.selectionStart).split(\"\\n\").length - 1;\nif (isProgram) brought = document.activeElement === text ? typed : li\
ne;\n}\nif (!isProgram) return;\nmarks.append(h(\"span.code-bad\", { vars: { \"--line\": line } }));\nif (mistake.word) {\nconst [from, to] \
= mistake.word;\nmarks.append(\nh(\"span.code-wave\", { vars: { \"--line\": line, \"--from\": from, \"--wide\": Math.max(1, to - from) } })\n\
);\n}\n}\nfunction toldOf(mistake) {\nconst where = mistake.isProgram && mistake.line !== null ? \"Line \" + mistake.line + \": \" : \"\";\n\
const mend = mistake.isProgram\n? h(\"button.code-mend\", { type: \"button\", onclick: () => mended(mistake) }, mistake.near)\n: h(\"b\", {}\
, mistake.near);\nconst helps = mistake.near ? [\" Did you mean \", mend, \" ?\"] : mistake.helps ? \" \" + mistake.helps + \".\" : \"\";\nr\
eturn [h(\"b\", {}, where, mistake.means + \".\"), helps];\n}\nfunction mended(mistake) {\nconst lines = text.value.split(\"\\n\");\nconst l\
ine = lines[mistake.line - 1];\nlines[mistake.line - 1] = line.slice(0, mistake.word[0]) + mistake.near + line.slice(mistake.word[1]);\ntext\
.value = lines.join(\"\\n\");\ngrow();\npaint();\nchanged(text.value);\ntext.focus();\n}\nreturn { show, settle, focus: () => text.focus() }\
;\n}\nreturn { makeProgram };\n})();\n// app/scene.js\nconst m41 = (() => {\nconst { arrivalsOf } = m30;\nconst { fill, fly, h, placesIn, pu\
lse, renew, s, shown } = m3;\nconst { nameOf, operandOf, rootOf } = m0;\nconst { hueOf, phaseOf, threadName } = m1;\nconst { arrivalsText, l\
astNumberOf } = m31;\nconst { eventTo } = m19;\nconst { doingOf } = m17;\nconst { whyOf, whysOf } = m32;\nconst MANY = 12;\nconst SHOWN = 24\
;\nfunction makeScene(act) {\nconst edges = s(\"svg.edges\", { \"aria-hidden\": \"true\" });\nconst cards = h(\"div.cards\");\nconst crowd = \
h(\"div.crowd\");\nconst whys = h(\"ul.whys\", { \"aria-label\": \"Who waits, and for whom\" });\nconst space = h(\"div.space\", {}, edges, \
cards, crowd);\nconst label = \"Phasers, barriers and threads\";\nconst element = h(\"div.scene.scroll\", { tabindex: 0, role: \"group\", \"\
aria-label\": label }, space, whys);\nlet last = null;\nlet places = new Map();\nlet isStep = false;\nlet answered = null;\nnew ResizeObserv\
er(() => drawEdges(space, edges)).observe(space);\nfunction show(what) {\nconst before = last;\nlast = what;\nisStep = before && before.tree\
.program === what.tree.program && before.run === what.run &&\nbefore.at + 1 === what.at;\nplaces = placesIn(space);\ndraw(what);\n}\nfunctio\
n settle() {\nfly(space, places);\ndrawEdges(space, edges);\nif (isStep) move(space, last.tree.program, eventTo(last.run, last.at));\n}\nfun\
ction draw(what) {\nconst { program } = what.tree;\nconst { state } = what.moment;\nconst things = program.phasers.length + program.barriers\
.length;\nconst scene = {\n...what,\nprogram,\nstate,\nseated: new Set(),\nfold: arrivalsOf(what.tree, what.run.id, what.at),\nkeepsRoom: pr\
ogram.threads.length <= 8 && things <= 2,\nact\n};\nconst roots = program.phasers.flatMap((one, p) => (one.parent < 0 ? [p] : []));\nrenew(c\
ards, roots.map(p => branchOf(scene, p)), program.barriers.map((_, b) => barrierCard(scene, b)));\ncards.classList.toggle(\"is-stuck\", stat\
e.word === \"stuck\" && !what.moment.isVeiled);\nelement.classList.toggle(\"is-roomy\", program.threads.length + things <= 8);\nrenew(crowd, \
crowdOf(scene));\ndrawWhys(scene);\n}\nfunction drawWhys({ program, moment, selected, tree, run, at }) {\nif (moment.isVeiled) return renew(\
whys, h(\"li.why.why-hint\", {}, \"Who waits, and for whom: after the answer.\"));\nconst all = whysOf(program, moment);\nconst isTold = one \
=> /stuck|waits|free|dead/.test(one.kind);\nconst chosen = selected && selected.thread !== undefined ? whyOf(program, moment, selected.threa\
d) : null;\nconst lines = [];\nif (selected && selected.phaser !== undefined) {\nlines.push(h(\"li.why.is-selected\", {}, shown(program, arr\
ivalsText(tree, run, at, selected.phaser))));\n}\nif (chosen) {\nconst number = lastNumberOf(tree, run, at, chosen.thread);\nconst more = nu\
mber ? h(\"span.why-number\", {}, shown(program, number)) : null;\nlines.push(h(\"li.why.is-selected.why-\" + chosen.kind, {}, h(\"span\", {\
}, shown(program, chosen.text)), more));\n}\nconst rest = all.filter(one => isTold(one) && (!chosen || one.thread !== chosen.thread));\nfor \
(const one of rest.slice(0, SHOWN)) lines.push(h(\"li.why.why-\" + one.kind, {}, shown(program, one.text)));\nif (rest.length > SHOWN) lines\
.push(h(\"li.why\", {}, \"and \" + (rest.length - SHOWN) + \" more\"));\nif (!lines.length) lines.push(\nh(\"li.why.why-hint\", {}, \"Nobody \
waits. Click a thread or a phaser: its line stands here.\")\n);\nrenew(whys, lines);\nif (selected !== answered) {\nanswered = selected;\nwh\
ys.querySelector(\".is-selected\")?.scrollIntoView({ block: \"nearest\" });\n}\nfor (const t of chosen ? chosen.could : []) {\nspace.querySe\
lector('[data-fly=\"t' + t + '\"]')?.classList.add(\"is-able\");\n}\n}\nreturn { element, show, settle };\n}\nfunction tokenOf({ program, mo\
ment, selected, act }, t, kind = \"\") {\nconst doing = doingOf(moment, t);\nconst isSelected = Boolean(selected) && selected.thread === t;\n\
const given = {\ntype: \"button\",\n\"data-fly\": \"t\" + t,\n\"aria-pressed\": String(isSelected),\ntitle: threadName(program, t) + \": why\
?\",\nonclick: () => act.thread(t)\n};\nreturn h(\"button.token.\" + hueOf(t) + \".token-\" + doing + kind, given, threadName(program, t));\n\
}\nconst standsAt = ({ program, state }, t, kind) =>\nstate.threads[t].status === \"waits\" ? operandOf(program.rows[state.threads[t].row], \
kind) : -1;\nfunction visitorsOf(scene, label, list) {\nif (!list.length && !scene.keepsRoom) return null;\nconst more = list.length > 16 ? \
\"+\" + (list.length - 16) : null;\nconst said = list.length ? h(\"span\", {}, label) : null;\nreturn h(\"div.visitors\", {}, said, list.sli\
ce(0, 16).map(t => tokenOf(scene, t, \".is-visitor\")), more);\n}\nfunction seatOf(scene, p, k, taken, who) {\nconst { program, seated, mome\
nt } = scene;\nif (k >= taken) return h(\"span.seat\", { role: \"img\", \"aria-label\": \"an arrival is missing\" });\nconst t = who[k] ? wh\
o[k].thread : undefined;\nconst isHere = t !== undefined && !seated.has(t) && standsAt(scene, t, \"P\") === p && doingOf(moment, t) === \"wa\
its\";\nif (isHere) {\nseated.add(t);\nreturn h(\"span.seat.is-full\", {}, tokenOf(scene, t));\n}\nif (t === undefined) return h(\"span.seat\
.is-full.is-gone\", { title: \"arrived\" }, \"\\u2713\");\nconst name = threadName(program, t);\nreturn h(\n\"span.seat.is-full.is-gone\",\n\
{ title: name + \" arrived, and went on\" },\nh(\"span.seat-been.\" + hueOf(t), {}, \"\\u2713 \" + name)\n);\n}\nfunction phaserCard(scene, \
p) {\nconst { program, state, fold, seated, moment, selected, act } = scene;\nconst one = state.phasers[p];\nconst isRoot = program.phasers[\
p].parent < 0;\nconst kids = program.children[p].filter(child => state.phasers[child].parties > 0);\nconst kidsIn = kids.filter(child => sta\
te.phasers[child].missing === 0);\nconst taken = Math.max(0, one.arrived - kidsIn.length);\nconst own = Math.max(0, one.parties - kids.lengt\
h);\nconst who = taken ? fold.arrived[p].slice(-taken) : [];\nconst kid = child => {\nconst given = { \"data-child\": child };\nreturn h(\"s\
pan.seat.seat-child\" + (kidsIn.includes(child) ? \".is-full\" : \"\"), given, nameOf(program, \"P\", child));\n};\nconst seats = kids.map(k\
id);\nif (own > MANY) seats.push(h(\"span.meter\", { vars: { \"--part\": taken / own } }, h(\"i\")));\nelse for (let k = 0; k < own; k++) se\
ats.push(seatOf(scene, p, k, taken, who));\nconst visitors = program.threads.map((_, t) => t).filter(t => !seated.has(t) && standsAt(scene, \
t, \"P\") === p);\nvisitors.forEach(t => seated.add(t));\nconst isOver = one.view < 0;\nconst name = nameOf(program, \"P\", p);\nconst phase \
= isOver ? \"terminated\" : h(\"span\", {}, \"phase \", h(\"b\", {}, phaseOf(one.view)));\nconst isSaid = isRoot || one.view !== state.phase\
rs[rootOf(program, p)].view;\nconst isSelected = Boolean(selected) && selected.phaser === p;\nconst given = {\ntype: \"button\",\n\"aria-pre\
ssed\": String(isSelected),\ntitle: name + \": who arrived?\",\nonclick: () => act.phaser(p)\n};\nconst head = h(\n\"p.thing-head\",\n{},\nh\
(\"button.thing-name\", given, name),\nisSaid ? h(\"span.thing-phase\", {}, phase) : null,\nh(\"span.thing-count\", {}, one.parties ? one.ar\
rived + \" of \" + one.parties : \"empty\")\n);\nconst label = visitors.some(t => doingOf(moment, t) === \"free\") ? \"released\" : \"waitin\
g\";\nconst kinds = (isOver ? \".is-terminated\" : \"\") + (isRoot ? \"\" : \".is-child\");\nconst group = { \"data-phaser\": p, role: \"gro\
up\", \"aria-label\": \"Phaser \" + name };\nreturn h(\"div.thing.phaser\" + kinds, group, head, h(\"div.seats\", {}, seats), visitorsOf(sce\
ne, label, visitors));\n}\nfunction branchOf(scene, p) {\nconst kids = scene.program.children[p];\nconst card = phaserCard(scene, p);\nretur\
n h(\"div.branch\", {}, card, kids.length ? h(\"div.kids\", {}, kids.map(child => branchOf(scene, child))) : null);\n}\nfunction barrierCard\
(scene, b) {\nconst { program, state, seated, moment } = scene;\nconst { isBroken, waiting } = state.barriers[b];\nconst { parties } = progr\
am.barriers[b];\nconst name = nameOf(program, \"B\", b);\nconst here = program.threads.map((_, t) => t).filter(t => standsAt(scene, t, \"B\"\
) === b);\nconst inside = here.filter(t => doingOf(moment, t) === \"waits\");\nconst freed = here.filter(t => doingOf(moment, t) !== \"waits\
\");\nconst keeps = isBroken ? [] : [...inside, ...freed].slice(0, waiting);\nconst out = here.filter(t => !keeps.includes(t));\nhere.forEac\
h(t => seated.add(t));\nconst seats = [];\nif (parties > MANY) seats.push(h(\"span.meter\", { vars: { \"--part\": waiting / parties } }, h(\"\
i\")));\nelse {\nfor (let k = 0; k < parties; k++) {\nconst missing = { role: \"img\", \"aria-label\": \"one has to come\" };\nseats.push(k \
< keeps.length ? h(\"span.seat.is-full\", {}, tokenOf(scene, keeps[k])) : h(\"span.seat\", missing));\n}\n}\nconst head = h(\n\"p.thing-head\
\",\n{},\nh(\"b.thing-name\", {}, name),\nh(\"span.thing-phase\", {}, isBroken ? \"broken\" : \"barrier\"),\nh(\"span.thing-count\", {}, wai\
ting + \" of \" + parties)\n);\nconst group = { \"data-barrier\": b, role: \"group\", \"aria-label\": \"Barrier \" + name };\nconst gateway \
= h(\"div.gateway\", {}, h(\"div.seats\", {}, seats), gateOf(isBroken));\nconst visitors = visitorsOf(scene, isBroken ? \"will throw\" : \"r\
eleased\", out);\nreturn h(\"div.thing.barrier\" + (isBroken ? \".is-broken\" : \"\"), group, head, gateway, visitors);\n}\nfunction gateOf(\
isBroken) {\nconst whole = [\"M16 10V52\", \"M26 10V52\", \"M36 10V52\", \"M46 10V52\"];\nconst bars = isBroken ? [\"M14 12L22 40\", \"M23 9\
L40 26\", \"M30 48L47 32\", \"M44 8L50 18\"] : whole;\nconst given = { viewBox: \"0 0 62 60\", role: \"img\", \"aria-label\": isBroken ? \"a \
broken gate\" : \"a gate\" };\nconst rail = isBroken ? null : s(\"path.gate-rail\", { d: \"M5 16H57M5 46H57\" });\nreturn s(\n\"svg.gate\",\n\
given,\ns(\"path.gate-post\", { d: \"M5 4V56M57 4V56\" }),\nrail,\nbars.map(d => s(\"path.gate-bar\", { d }))\n);\n}\nfunction crowdOf(scene\
) {\nconst { program, state, moment, seated } = scene;\nconst rest = program.threads.map((_, t) => t).filter(t => !seated.has(t));\nconst is\
Over = t => /over|dead/.test(doingOf(moment, t));\nconst member = t => {\nconst { out, isInterrupted } = state.threads[t];\nconst output = o\
ut.length ? h(\"span.crowd-output\", { title: \"its output\" }, out.slice(-4).join(\" \")) : null;\nconst flag = isInterrupted\n? h(\"span.c\
rowd-flag\", { title: \"interrupted\", role: \"img\", \"aria-label\": \"interrupted\" }, \"\\u26A1\\uFE0E\")\n: null;\nreturn h(\"span.crowd\
-one\", {}, tokenOf(scene, t), output, flag);\n};\nconst group = (label, list) => {\nif (!list.length) return null;\nconst more = list.lengt\
h > SHOWN ? \"and \" + (list.length - SHOWN) + \" more\" : null;\nreturn h(\"div.crowd-group\", {}, h(\"span.crowd-label\", {}, label), list\
.slice(0, SHOWN).map(member), more);\n};\nreturn [group(\"on the way\", rest.filter(t => !isOver(t))), group(\"over\", rest.filter(isOver))]\
;\n}\nfunction drawEdges(space, edges) {\nif (!space.querySelector(\".is-child\")) return edges.firstChild ? fill(edges) : undefined;\nconst \
frame = space.getBoundingClientRect();\nconst list = [];\nfor (const card of space.querySelectorAll(\".thing.is-child\")) {\nconst parent = \
card.closest(\".kids\").previousElementSibling;\nconst seat = parent.querySelector('[data-child=\"' + card.dataset.phaser + '\"]');\nconst f\
rom = card.getBoundingClientRect();\nconst to = (seat || parent).getBoundingClientRect();\nconst x1 = from.left + from.width / 2 - frame.lef\
t;\nconst y1 = from.top - frame.top;\nconst x2 = to.left + to.width / 2 - frame.left;\nconst y2 = to.bottom - frame.top;\nconst middle = (y1 \
+ y2) / 2;\nconst kind = !seat ? \"loose\" : seat.classList.contains(\"is-full\") ? \"full\" : \"open\";\nlist.push(s(\"path.edge-\" + kind, \
{ d: `M${x1} ${y1}C${x1} ${middle} ${x2} ${middle} ${x2} ${y2}` }));\n}\nedges.setAttribute(\"width\", frame.width);\nedges.setAttribute(\"h\
eight\", frame.height);\nfill(edges, list);\n}\nfunction move(space, program, event) {\nif (event.mark) {\nconst isBarrier = event.mark.kind\
[1] === \"b\";\nconst things = isBarrier\n? [...space.querySelectorAll('[data-barrier=\"' + event.mark.on + '\"]')]\n: [...space.querySelect\
orAll(\"[data-phaser]\")].filter(\ncard => rootOf(program, Number(card.dataset.phaser)) === event.mark.on\n);\nconst shakes = [{ transform: \
\"rotate(-1.2deg)\" }, { transform: \"rotate(1deg)\" }, { transform: \"none\" }];\nconst grows = [{ transform: \"scale(1.05)\", boxShadow: \"\
0 0 0 .4rem var(--go)\" }, { transform: \"none\" }];\nfor (const thing of things) pulse(thing, event.mark.kind === \"-b\" ? shakes : grows);\
\n}\nif (/^(throw|die)$/.test(event.what)) {\nconst shift = x => ({ transform: \"translateX(\" + x + \"rem)\" });\npulse(\nspace.querySelect\
or('[data-fly=\"t' + event.thread + '\"]'),\n[shift(-0.4), shift(0.4), shift(-0.2), shift(0)]\n);\n}\n}\nreturn { makeScene };\n})();\n// ap\
p/timeline.js\nconst m42 = (() => {\nconst { metOf } = m30;\nconst { arrange, fill, h, makeShelf } = m3;\nconst { hueOf, threadName } = m1;\n\
const { eventTo, hasMoment, lengthOf, momentOf } = m19;\nconst { metText, shortMark, tagOf } = m25;\nconst { doingOf, veiled } = m17;\nconst \
BUDGET = 8;\nconst ROOM = 100000;\nconst EDGE = 1000;\nconst AROUND = 6;\nconst DOING = {\nruns: \"runs\",\nwaits: \"waits\",\nfree: \"may g\
o on\",\nheld: \"can\\u2019t go on\",\nthrows: \"throws\",\nover: \"is over\",\ndead: \"is dead\"\n};\nfunction makeTimeline(go, select) {\n\
const names = h(\"div.time-names\", { role: \"row\" });\nconst lanes = h(\"div.time-lanes\", { \"aria-hidden\": \"true\" });\nconst lines = \
h(\"div.time-lines\", { role: \"rowgroup\" });\nconst body = h(\"div.time-body\", { role: \"presentation\" }, lanes, lines);\nconst label = \
\"Timeline: a column for each thread, a row for each choice\";\nconst scroll = h(\n\"div.scroll.time-scroll\",\n{ tabindex: 0, role: \"table\
\", \"aria-label\": label, onscroll: () => scrolled() },\nnames,\nbody\n);\nconst head = h(\"p.time-head\");\nconst element = h(\"div.time\"\
, {}, head, scroll);\nlet shown = null;\nlet rows = null;\nlet whole = 0;\nlet origin = 0;\nlet size = { row: 30, number: 50, column: 80, re\
m: 16 };\nlet view = { top: 0, left: 0, height: 0, width: 0 };\nlet drawn = \"\";\nlet pending = 0;\nlet isAhead = false;\nlet shelf = makeS\
helf();\nbody.addEventListener(\"click\", event => {\nconst k = Math.floor((event.clientY - body.getBoundingClientRect().top) / size.row);\n\
if (shown && k >= 0 && k < count()) go(choiceAt(k));\n});\nnew ResizeObserver(() => redraw()).observe(scroll);\nfunction scrolled() {\nview \
= { ...view, top: scroll.scrollTop, left: scroll.scrollLeft };\ndraw();\n}\nfunction scrollTo(top, left) {\nconst most = bodyHeight() + 2.3 \
* size.rem - view.height;\nview = { ...view, top: Math.max(0, Math.min(top, most)), left: Math.max(0, left) };\nisAhead = true;\n}\nfunction \
settle() {\nif (isAhead) scroll.scrollTo(view.left, view.top);\nisAhead = false;\n}\nconst bodyHeight = () => (count() + 0.6) * size.row;\nc\
onst count = () => Math.min(ROOM, whole - origin);\nconst choiceAt = k => (rows ? rows[origin + k] : origin + k);\nconst rowOf = i => (rows \
? rows.indexOf(i) : i) - origin;\nfunction fold() {\nconst { run, at, isFolded, isHidden } = shown;\nconst last = isHidden ? at : lengthOf(r\
un);\nrows = isFolded ? [] : null;\nif (isFolded) for (let i = 0; i <= last; i++) if (!i || i === at || !run.events.isIdle(i - 1)) rows.push\
(i);\nwhole = rows ? rows.length : last + 1;\nconst here = rows ? rows.indexOf(at) : at;\nconst most = Math.max(0, whole - ROOM);\nconst isB\
elow = here < origin + EDGE && origin > 0;\nconst isAbove = here > origin + ROOM - EDGE && origin < most;\nif (isBelow || isAbove || origin \
> most) origin = Math.max(0, Math.min(most, here - ROOM / 2));\n}\nfunction measure() {\nsize.rem = parseFloat(getComputedStyle(document.doc\
umentElement).fontSize);\nview = { top: scroll.scrollTop, left: scroll.scrollLeft, height: scroll.clientHeight, width: scroll.clientWidth };\
\ndivide();\n}\nfunction divide() {\nconst { rem } = size;\nconst threads = shown.tree.program.threads.length;\nconst number = Math.max(2.6, \
String(lengthOf(shown.run)).length * 0.62 + 1.2) * rem;\nconst least = (threads <= 8 ? 5.4 : 3.2) * rem;\nconst column = Math.max(least, (vi\
ew.width - number - 4) / threads);\nconst isWide = number + column * threads > view.width + 4;\nsize = { row: Math.round(2.1 * rem), number, \
column, rem, isWide };\nelement.style.setProperty(\"--number\", number + \"px\");\nelement.style.setProperty(\"--row\", size.row + \"px\");\n\
body.style.width = names.style.width = number + column * threads + \"px\";\nscroll.setAttribute(\"aria-rowcount\", lengthOf(shown.run) + 2);\
\nscroll.setAttribute(\"aria-colcount\", threads + 1);\n}\nfunction show(what) {\nconst isNew = !shown || shown.zoom !== what.zoom || !view.\
height;\nconst isOther = isNew || shown.run !== what.run || shown.tree.program !== what.tree.program;\nconst isMoved = isOther || shown.at !\
== what.at;\nif (isOther) shelf = makeShelf();\nshown = what;\nfold();\nif (isNew) measure();\nelse if (isOther) divide();\nconst part = who\
le > count() ? \"Choices \" + choiceAt(0) + \" to \" + choiceAt(count() - 1) + \" stand here.\" : \"\";\nhead.hidden = !what.title && !part;\
\nif (!head.hidden) fill(head, what.title || \"\", part);\nbody.style.height = bodyHeight() + \"px\";\nif (isMoved) follow();\ndraw(true);\n\
}\nfunction follow() {\nconst place = rowOf(shown.at) * size.row;\nconst room = view.height - 2.3 * size.rem;\nlet { top, left } = view;\nif \
(place < top + size.row || place + size.row * 2.5 > top + room) top = place - room * 0.55;\nconst event = eventTo(shown.run, shown.at);\ncon\
st column = event ? placeOf(event.thread) : 0;\nconst isOut = column < left + size.number || column + size.column * 2 > left + view.width;\n\
if (event && size.isWide && isOut) left = column - view.width / 2;\nif (top !== view.top || left !== view.left) scrollTo(top, left);\n}\ncon\
st placeOf = t => size.number + t * size.column;\nfunction draw(isForced) {\nif (!shown || !view.height) return;\nconst from = Math.max(0, M\
ath.floor(view.top / size.row) - AROUND);\nconst to = Math.min(count() - 1, Math.ceil((view.top + view.height) / size.row) + AROUND);\nconst \
threads = shown.tree.program.threads.length;\nconst left = Math.max(0, Math.floor((view.left - size.number) / size.column) - 1);\nconst righ\
t = Math.min(threads - 1, Math.ceil((view.left + view.width) / size.column) + 1);\nconst key = [from, to, left, right].join();\nif (!isForce\
d && key === drawn) return;\ndrawn = key;\nshelf.begin();\ndrawNames(left, right);\nconst isWhole = drawLanes(from, to, left, right);\ndrawL\
ines(from, to);\nif (!isWhole && !pending) {\npending = requestAnimationFrame(() => {\npending = 0;\ndraw(true);\n});\n}\n}\nfunction drawNa\
mes(left, right) {\nconst { program } = shown.tree;\nconst moment = momentIn(shown.at);\nconst corner = { role: \"columnheader\", \"aria-col\
index\": 1, \"aria-label\": \"choice\" };\nconst list = [shelf.take(\"corner\", () => h(\"span.time-corner\", corner))];\nfor (let t = left; \
t <= right; t++) {\nconst doing = doingOf(moment, t);\nconst name = threadName(program, t);\nconst isSelected = Boolean(shown.selected) && s\
hown.selected.thread === t;\nconst number = program.names.T[t] ? \" (t\" + t + \") \" : \" \";\nconst given = {\ntype: \"button\",\nvars: { \
left: placeOf(t) + \"px\", width: size.column + \"px\" },\ntitle: name + number + DOING[doing] + \": why?\",\n\"aria-pressed\": String(isSel\
ected),\n\"data-doing\": doing,\nonclick: () => select(t)\n};\nconst cell = () => h(\n\"span.time-namecell\",\n{ role: \"columnheader\", \"a\
ria-colindex\": t + 2 },\nh(\"button.time-name.\" + hueOf(t), given, name)\n);\nlist.push(shelf.take([\"name\", t, doing, isSelected, size.n\
umber, size.column].join(), cell));\n}\narrange(names, list);\n}\nfunction momentIn(i) {\nconst moment = momentOf(shown.tree, shown.run.id, \
i);\nreturn shown.isVeiled && i === shown.at ? veiled(moment) : moment;\n}\nfunction drawLanes(from, to, left, right) {\nconst until = perfo\
rmance.now() + BUDGET;\nconst { tree, run } = shown;\nconst moments = [];\nlet isWhole = true;\nfor (let k = from; k <= to && isWhole; k++) \
{\nconst i = choiceAt(k);\nisWhole = hasMoment(tree, run.id, i) || performance.now() < until || !moments.length;\nif (isWhole) moments.push(\
momentIn(i));\n}\nconst list = [];\nfor (let t = left; t <= right; t++) {\nfor (let k = 0, n; k < moments.length; k += n) {\nconst doing = d\
oingOf(moments[k], t);\nconst isLater = moments[k].i >= shown.at;\nconst isSame = one => one && doingOf(one, t) === doing && one.i >= shown.\
at === isLater;\nfor (n = 1; isSame(moments[k + n]); n++);\nif (doing === \"over\" || doing === \"dead\") continue;\nconst isLast = k + n ==\
= moments.length && from + k + n === count();\nconst vars = {\nleft: placeOf(t) + \"px\",\ntop: (from + k + 0.5) * size.row + \"px\",\nheigh\
t: (n - (isLast ? 0.45 : 0)) * size.row + \"px\"\n};\nconst kind = \"i.lane.lane-\" + doing + \".\" + hueOf(t) + (isLater ? \".is-later\" : \
\"\");\nlist.push(shelf.take([kind, vars.left, vars.top, vars.height].join(), () => h(kind, { vars })));\n}\n}\narrange(lanes, list);\nretur\
n isWhole;\n}\nfunction drawLines(from, to) {\nconst list = [];\nconst { isJava, isSide, differs } = shown;\nconst common = [isJava, isSide, \
differs, view.left, view.width, ...Object.values(size)].join();\nfor (let k = from; k <= to; k++) {\nconst i = choiceAt(k);\nconst isHere = \
i === shown.at;\nconst isOther = differs && i > differs;\nconst kinds = (isHere ? \".is-here\" : i > shown.at ? \".is-later\" : \"\") + (isO\
ther ? \".is-other\" : \"\");\nlist.push(shelf.take([k, i, kinds, common].join(), () => lineOf(k, i, kinds, isHere)));\n}\narrange(lines, li\
st);\n}\nfunction lineOf(k, i, kinds, isHere) {\nconst event = eventTo(shown.run, i);\nconst number = h(\"span.line-number\" + (i ? \"\" : \"\
.is-start\"), { role: \"rowheader\" }, i || \"start\");\nconst inside = [number];\nif (event) inside.push(eventOf(event), event.mark ? markO\
f(event, i) : null);\nif (shown.isSide && shown.differs === i - 1 && i > 0) inside.push(h(\"span.line-part\", {}, \"they part here\"));\ncon\
st given = {\nrole: \"row\",\n\"aria-rowindex\": i + 2,\n\"aria-current\": isHere ? \"step\" : null,\nvars: { top: k * size.row + \"px\" }\n\
};\nreturn h(\"div.line\" + kinds, given, inside);\n}\nfunction eventOf(event) {\nconst { program } = shown.tree;\nconst at = placeOf(event.\
thread);\nconst tag = tagOf(program, event, shown.isJava);\nconst name = threadName(program, event.thread);\nconst given = { role: \"cell\", \
\"aria-colindex\": event.thread + 2, \"aria-label\": name + \": \" + tag };\nif (at < view.left + size.number - size.column || at > view.lef\
t + view.width) {\nconst sign = at < view.left + size.number ? \"\\u25C2 \" : \"\\u25B8 \";\nreturn h(\"span.line-far.\" + hueOf(event.threa\
d), given, sign + name + \" \" + tag);\n}\nconst isOnLeft = size.column < 5 * size.rem && at - view.left > view.width * 0.6;\nconst kinds = \
\".event.event-\" + (\nevent.what === \"=\" ? \"value\" : event.what\n) + \".\" + hueOf(event.thread) + (isOnLeft ? \".is-onleft\" : \"\");\n\
return h(\"span\" + kinds, { ...given, vars: { left: at + \"px\" } }, h(\"i.event-dot\"), h(\"span.event-tag\", {}, tag));\n}\nfunction mark\
Of(event, i) {\nconst { program } = shown.tree;\nconst text = shortMark(program, event.mark);\nconst met = metOf(shown.tree, shown.run.id, i\
, event.mark);\nconst isIn = t => placeOf(t + 1) > view.left && placeOf(t) < view.left + view.width;\nconst dot = t => h(\"i.mark-dot\", { v\
ars: { left: placeOf(t) - size.number + \"px\" } });\nconst at = placeOf(event.thread);\nconst wide = (text.length * 0.47 + 1.3) * size.rem;\
\nconst own = (tagOf(program, event, shown.isJava).length * 0.55 + 2) * size.rem;\nconst hasRight = view.width - at - own > wide;\nconst sid\
e = size.isWide\n? \".is-left.is-under\"\n: hasRight ? \"\" : at - size.number > wide ? \".is-left\" : \".is-under\";\nreturn h(\n\"span.mar\
k\" + (event.mark.kind[0] === \"-\" ? \".mark-broke\" : \"\") + side,\n{ role: \"note\", \"aria-label\": text + metText(program, event, met) \
},\nh(\"span\", {}, text),\nmet.filter(isIn).map(dot)\n);\n}\nfunction redraw() {\nif (!shown) return;\nmeasure();\nbody.style.height = body\
Height() + \"px\";\ndraw(true);\nsettle();\n}\nreturn { element, show, settle, redraw };\n}\nreturn { makeTimeline };\n})();\n// app/tree.js\
\nconst m43 = (() => {\nconst { endKind, endText, KIND_TEXT, outputText } = m2;\nconst { fill, h, who } = m3;\nconst { threadName } = m1;\nc\
onst { inOrder, lengthOf } = m19;\nfunction runName(tree, run) {\nif (run.parent < 0) return \"Run 1\";\nconst event = run.events.at(run.for\
k);\nconst old = tree.runs[run.parent].events.at(run.fork);\nif (!event) return \"Run \" + (run.id + 1);\nconst name = threadName(tree.progr\
am, event.thread) + (event.isLate ? \"\\u2019s time-out\" : \"\");\nreturn \"Run \" + (run.id + 1) + \": at \" + run.fork + \" \" + name + (\
\nold ? \", not \" + threadName(tree.program, old.thread) : \"\"\n);\n}\nfunction makeTree(walk) {\nconst element = h(\"div.tracks.scroll\", \
{ role: \"list\", \"aria-label\": \"Runs\" });\nlet shown = {};\nlet isMoved = false;\nfunction show(what) {\nconst isSame = [\"tree\", \"ru\
n\", \"isQuiet\"].every(name => shown[name] === what[name]);\nisMoved = !isSame;\nshown = what;\nif (!isSame) return draw(what);\nconst most \
= Math.max(1, ...what.tree.runs.map(lengthOf));\nelement.querySelector(\".rail-at\").style.setProperty(\"left\", (100 * what.at) / most + \"\
%\");\n}\nfunction draw({ tree, run, at, isQuiet }) {\nconst most = Math.max(1, ...tree.runs.map(lengthOf));\nconst part = i => (100 * i) / \
most + \"%\";\nconst all = inOrder(tree);\nconst track = ({ run: one }, lane) => {\nconst isHere = one === run;\nconst begins = one.parent < \
0 ? 0 : one.fork;\nconst kind = endKind(one.end);\nconst event = one.events.at(one.fork);\nconst first = Math.min(begins + (one.parent < 0 ? \
0 : 1), lengthOf(one));\nconst name = {\ntype: \"button\",\n\"aria-current\": isHere ? \"true\" : null,\ntitle: runName(tree, one) + (isQuie\
t ? \"\" : \" \\u2014 \" + endText(tree.program, one.end)),\nonclick: () => walk(one.id, isHere ? shown.at : first)\n};\nconst said = one.pa\
rent < 0 || !event\n? \" the run\"\n: [\" at \" + one.fork + \" \", who(tree.program, event.thread), event.isLate ? \" late\" : \"\"];\ncons\
t click = pressed => {\nconst box = pressed.currentTarget.getBoundingClientRect();\nconst i = Math.round(((pressed.clientX - box.left) / box\
.width) * most);\nwalk(one.id, Math.max(begins, Math.min(lengthOf(one), i)));\n};\nconst up = lane - all.findIndex(other => other.run.id === \
one.parent);\nreturn h(\n\"div.track\" + (isHere ? \".is-here\" : \"\"),\n{ role: \"listitem\" },\nh(\"button.track-name\", name, h(\"b\", {\
}, one.id + 1), said),\nh(\n\"div.rail\",\n{ onclick: click },\nh(\n\"i.rail-bar.rail-\" + (isQuiet ? \"open\" : kind),\n{ vars: { left: par\
t(begins), width: part(lengthOf(one) - begins) } }\n),\none.parent >= 0 ? h(\"i.rail-fork\", { vars: { left: part(begins), \"--up\": up } }) \
: null,\nisHere ? h(\"i.rail-at\", { vars: { left: part(at) } }) : null\n),\nisQuiet ? h(\"span\") : h(\"span.end.end-\" + kind, { title: ou\
tputText(tree.program, one.end) }, KIND_TEXT[kind])\n);\n};\nfill(element, all.map(track));\n}\nfunction settle() {\nconst here = isMoved && \
element.querySelector(\".is-here\");\nif (here) element.scrollTop = Math.max(0, here.offsetTop - element.clientHeight + here.offsetHeight + \
2);\n}\nreturn { element, show, settle };\n}\nreturn { runName, makeTree };\n})();\n// app/values.js\nconst m44 = (() => {\nconst { h } = m3\
;\nconst { nameOf } = m0;\nconst { hueOf, labelOf, phaseOf, rowText, thrown, threadName } = m1;\nconst { doingOf } = m17;\nconst DOES = {\no\
ver: \"ended\",\ndead: \"died of\",\nthrows: \"throws\",\nheld: \"can\\u2019t go on\",\nwaits: \"waits\",\nfree: \"may go on\",\nruns: \"run\
s\"\n};\nconst cell = (text, was) => h(\"td\" + (was !== undefined && String(was) !== String(text) ? \".is-new\" : \"\"), {}, text);\nfuncti\
on tableOf(caption, heads, rows) {\nconst head = h(\"thead\", {}, h(\"tr\", {}, heads.map(one => h(\"th\", { scope: \"col\" }, one))));\nret\
urn h(\"table.values-table\", {}, h(\"caption\", {}, caption), head, h(\"tbody\", {}, rows));\n}\nconst rowHead = (text, kind = \"\") => h(\"\
th\" + kind, { scope: \"row\" }, text);\nfunction entryOf(program, entry) {\nif (entry[0] === \"H\") return \"try \" + labelOf(program, Numb\
er(entry.slice(1)));\nif (entry[0] === \"C\") return \"call \" + entry.slice(1);\nreturn (entry[0] === \"A\" ? \"onAdvance \" : \"action \") \
+ nameOf(\nprogram,\nentry[0] === \"A\" ? \"P\" : \"B\",\nNumber(entry.slice(1))\n);\n}\nfunction threadsOf(program, moment, old) {\nconst { \
threads } = moment.state;\nconst isUsed = r => program.rows.some(row => row.operands.includes(\"r\" + r)) ||\nthreads.some(one => one.regist\
ers[r]);\nconst used = [0, 1, 2, 3, 4, 5, 6, 7].filter(isUsed);\nconst row = (thread, t) => {\nconst was = old && old.threads[t];\nconst doe\
s = DOES[doingOf(moment, t)] + (thread.code === null ? \"\" : \" \" + thrown(thread.code));\nconst out = thread.out.slice(-6).join(\" \");\n\
return h(\n\"tr\",\n{},\nrowHead(threadName(program, t), \".\" + hueOf(t)),\ncell(does + (thread.isInterrupted ? \", interrupted\" : \"\")),\
\nh(\"td\", {}, h(\"code\", {}, rowText(program, program.rows[thread.row]))),\nused.map(r => cell(thread.registers[r], was ? was.registers[r\
] : undefined)),\ncell(out, was ? was.out.slice(-6).join(\" \") : undefined),\ncell(thread.stack.map(one => entryOf(program, one)).join(\", \
\"))\n);\n};\nreturn tableOf(\n\"Threads\",\n[\"thread\", \"does\", \"row\", ...used.map(r => \"r\" + r), \"output\", \"stack\"],\nthreads.m\
ap(row)\n);\n}\nfunction phasersOf(program, state, old) {\nconst phase = one => (one.view < 0 ? \"terminated in \" + phaseOf(one.view) : one\
.view);\nconst row = (one, p) => {\nconst was = old ? old.phasers[p] : {};\nconst cells = [cell(phase(one), old ? phase(was) : undefined), c\
ell(one.parties, was.parties)];\nreturn h(\n\"tr\",\n{},\nrowHead(nameOf(program, \"P\", p)),\ncells,\ncell(one.arrived, was.arrived),\ncell\
(one.missing, was.missing)\n);\n};\nreturn tableOf(\"Phasers\", [\"phaser\", \"phase\", \"parties\", \"arrived\", \"missing\"], state.phaser\
s.map(row));\n}\nfunction barriersOf(program, state, old) {\nconst broken = one => (one.isBroken ? \"yes\" : \"no\");\nconst row = (one, b) \
=> {\nconst was = old ? old.barriers[b] : null;\nconst cells = [cell(program.barriers[b].parties), cell(one.waiting, was ? was.waiting : und\
efined)];\nreturn h(\"tr\", {}, rowHead(nameOf(program, \"B\", b)), cells, cell(broken(one), was ? broken(was) : undefined));\n};\nreturn ta\
bleOf(\"Barriers\", [\"barrier\", \"parties\", \"waiting\", \"broken\"], state.barriers.map(row));\n}\nfunction cellsOf(program, state, old) \
{\nconst row = ([c, value]) => h(\n\"tr\",\n{},\nrowHead(nameOf(program, \"C\", Number(c))),\ncell(value, old ? old.cells[c] || 0 : undefine\
d)\n);\nreturn tableOf(\"Cells that aren\\u2019t 0\", [\"cell\", \"value\"], Object.entries(state.cells).map(row));\n}\nfunction valuesOf(pr\
ogram, moment, before) {\nconst { state } = moment;\nconst old = before ? before.state : null;\nreturn [\nthreadsOf(program, moment, old),\n\
program.phasers.length ? phasersOf(program, state, old) : null,\nprogram.barriers.length ? barriersOf(program, state, old) : null,\nObject.k\
eys(state.cells).length ? cellsOf(program, state, old) : null\n];\n}\nreturn { valuesOf };\n})();\n// app/app.js\nconst m45 = (() => {\ncons\
t { endsBeside } = m4;\nconst { checkOf, drawCheck } = m5;\nconst { endKind, endText } = m2;\nconst { button, byId, fill, h } = m3;\nconst { \
makeCommands } = m35;\nconst { itemOf } = m21;\nconst { lessonCard } = m37;\nconst { addressOf, linkOf, MOST_LINK, readLink } = m20;\nconst \
{ makeSheet } = m24;\nconst { ordersOf } = m39;\nconst { SEEDS } = m38;\nconst { listProgram } = m14;\nconst { isHeavy } = m16;\nconst { mak\
eProgram } = m40;\nconst { challengeCard, quizCard } = m27;\nconst { closeTree, eventTo, momentOf, lengthOf } = m19;\nconst { makeScene } = \
m41;\nconst { choicesOf, commonOf } = m15;\nconst { veiled } = m17;\nconst { drawStage } = m36;\nconst change = m34;\nconst { makeTimeline } \
= m42;\nconst { makeTree, runName } = m43;\nconst { valuesOf } = m44;\nconst TYPING = 250;\nconst SAVING = 300;\nconst KEPT = 40;\nfunction \
makeApp(given) {\nlet state = change.firstState();\nlet working = null;\nlet typing = 0;\nlet typed = {};\nlet saving = 0;\nlet noteTimer = \
0;\nconst past = new Map();\nlet entry = 0;\nconst sheet = makeSheet();\nconst timeline = makeTimeline(i => set(change.at(state, i)), t => s\
et(change.selectedThread(state, t)));\nconst second = makeTimeline(\ni => set(change.walked(state, state.other, i)),\nt => set(change.select\
edThread(state, t))\n);\nconst scene = makeScene({\nthread: t => set(change.selectedThread(state, t)),\nphaser: p => set(change.selectedPhas\
er(state, p))\n});\nconst tree = makeTree((id, i) => set(change.walked(state, id, i)));\nconst program = makeProgram(\ntext => later({ text \
}),\nplan => later({ plan })\n);\nconst ends = h(\"div.ends\");\nconst tabs = { picture: \"Picture\", values: \"Values\", orders: \"Random o\
rders\" };\nconst viewButton = name => button(tabs[name], () => setTab(name), { \"data-tab\": name });\nconst views = h(\n\"div.views\",\n{ \
role: \"group\", \"aria-label\": \"What the pane shows\" },\nObject.keys(tabs).map(viewButton)\n);\nconst values = h(\"div.values.scroll\", \
{ tabindex: 0 });\nconst orders = h(\"div.orders.scroll\", { tabindex: 0 });\nconst side = button(\"Side by side\", () => setSide());\nconst \
only = button(\"Only run 1\", () => set(change.firstOnly(state), true));\nfill(byId(\"time\"), h(\"div.time-two\", {}, timeline.element, sec\
ond.element), ends);\nfill(byId(\"picture\"), views, scene.element, values, orders);\nfill(byId(\"runs\"), tree.element, h(\"div.runs-tools\"\
, {}, side, only));\nfunction set(next, isNew) {\nconst before = state;\nstate = next;\nif (before.text !== next.text || before.plan !== nex\
t.plan) {\nclearTimeout(typing);\ntyped = {};\n}\nif (before.tree && next.tree && before.tree.program !== next.tree.program) closeTree(befor\
e.tree);\nif (isNew && before.tree) {\npast.set(entry, before);\npast.delete(entry - KEPT);\nentry++;\nconst made = entry;\nsetTimeout(() => \
{\nif (history.state?.entry !== made - 1) remember(\"replaceState\", undefined, made - 1);\nremember(\"pushState\", undefined, made);\n});\n\
}\ndraw();\n}\nfunction later(what) {\ntyped = { ...typed, ...what };\nclearTimeout(typing);\ntyping = setTimeout(() => edit(typed.text ?? s\
tate.text, typed.plan ?? state.plan), TYPING);\n}\nasync function edit(text, plan) {\nconst { mode } = state;\nconst its = change.planFor(st\
ate, text, plan);\nconst played = await playedInWorker(text, its, change.scheduleIn(state.item, its));\nif (played === null) return;\nset(ch\
ange.edited(state, text, plan, played));\nif (state.plan === its + \" ..\") note(\"The plan ended before the threads did: all go on in turn \
(\\u201C..\\u201D).\");\nif (!state.mistake && (mode === \"quiz\" || mode === \"challenge\")) setMode(mode);\n}\nasync function open(item, m\
ode, isNew = true) {\nconst { program: text, plan } = item;\nconst played = await playedInWorker(text, plan, item.schedule);\nif (played === \
null) return;\nset(checked(change.opened(state, item, mode, played)), isNew);\nif (isUnasked()) playOrders();\nfitted();\n}\nconst isUnasked \
= () => !state[state.mode] && (state.mode === \"quiz\" || state.mode === \"challenge\");\nfunction checked(next) {\nconst { page } = next.it\
em;\nif (!page || next.mistake) return next;\nreturn { ...next, check: checkOf(page, listProgram(next.text), next.tree.runs[0].trace) };\n}\n\
function openRun(run, isNew = true, isOfPage = false) {\nconst item = { ...itemOf(run), isOfPage };\ngiven.menu.unshift(item);\nreturn open(\
item, \"explore\", isNew);\n}\nasync function playedInWorker(text, plan, schedule = \"\") {\nif (!isHeavy(schedule || plan)) return undefine\
d;\nconst played = await inWorker(\"plan\", { text, plan, schedule });\nreturn played && { ...played, choices: choicesOf(played.schedule) };\
\n}\nasync function inWorker(task, what) {\nworking = { task, done: 0 };\nif (!state.tree) fill(byId(\"said\").lastChild, \"The machine play\
s the run.\");\ndraw();\ntry {\nreturn await given.work.ask(task, what, done => {\nworking = { task, done };\nif (state.tab === \"orders\") \
drawOrders();\n});\n} catch (fault) {\nif (fault.message === \"stopped\") return null;\nif (!fault.told) note(\"The worker stopped: \" + fau\
lt.message);\nreturn undefined;\n} finally {\nworking = null;\ndraw();\n}\n}\nasync function playOrders() {\nconst { tree: asked } = state;\n\
const found = await inWorker(\"orders\", { text: asked.program.text, seeds: SEEDS });\nif (found && state.tree.program === asked.program) se\
t(change.withOrders(state, found));\n}\nfunction stopWork() {\ngiven.work.stop();\nif (isUnasked()) set(change.inMode(state, \"explore\"));\n\
}\nfunction setTab(tab) {\nset({ ...state, tab, pane: \"picture\" });\nif (tab === \"orders\" && !state.orders) playOrders();\n}\nfunction s\
etMode(mode) {\nset(change.inMode(state, mode));\nif (isUnasked()) playOrders();\nfitted();\n}\nfunction setSide() {\nif (state.tree.runs.le\
ngth < 2) return note(\"There is only one run: choose another name first.\");\nset(change.sideBySide(state));\nfitted();\n}\nfunction choose\
(token) {\ntry {\nconst isNew = change.runOf(state).choices[state.at] !== token;\nset(change.forked(state, state.at, token), isNew);\n} catc\
h (fault) {\nnote(fault.message);\n}\n}\nfunction fitted() {\nrequestAnimationFrame(() => {\ntimeline.redraw();\nsecond.redraw();\n});\n}\nf\
unction note(...what) {\nfill(byId(\"note\"), what);\nbyId(\"note\").classList.add(\"is-shown\");\nclearTimeout(noteTimer);\nnoteTimer = set\
Timeout(() => byId(\"note\").classList.remove(\"is-shown\"), 6000);\n}\nconst moment = i => momentOf(state.tree, state.id, i);\nfunction dra\
w() {\nif (!state.tree) return;\nconst { at } = state;\nconst run = change.runOf(state);\nconst { program: model } = state.tree;\nconst isVe\
iled = change.isVeiled(state);\nconst now = isVeiled ? veiled(moment(at)) : moment(at);\nconst event = eventTo(run, at);\nconst title = mode\
l.title || state.item.title;\nif (state.tab === \"picture\") scene.show({ tree: state.tree, run, at, moment: now, selected: state.selected }\
);\nObject.assign(document.body.dataset, { mode: state.mode, tab: state.tab, pane: state.pane });\ndocument.body.classList.toggle(\"is-refus\
ed\", Boolean(state.mistake));\ndocument.body.classList.toggle(\"is-side\", Boolean(change.otherOf(state)));\ndocument.body.classList.toggle\
(\"is-veiled\", isVeiled);\ndocument.body.classList.toggle(\"is-alone\", state.isAlone);\ndocument.body.classList.toggle(\"is-working\", Boo\
lean(working));\nbyId(\"title\").textContent = title;\ndocument.title = title + \" \\u2014 Vuthgal\";\npressed(\"#modes button\", one => one\
.dataset.mode === state.mode);\npressed(\"#tabs button\", one => one.dataset.pane === state.pane);\npressed(\".views button\", one => one.da\
taset.tab === state.tab);\ndrawStage(state, { choose, tryOut: token => tryOut(token) });\ndrawCheck(state);\nprogram.show(state, now, event)\
;\ndrawTime(run);\nif (state.tab === \"values\") fill(values, valuesOf(model, now, at ? moment(at - 1) : null));\nif (state.tab === \"orders\
\") drawOrders();\ntree.show({ tree: state.tree, run, at, isQuiet: change.isLaterHidden(state) });\nside.disabled = only.disabled = state.tr\
ee.runs.length < 2;\nside.setAttribute(\"aria-pressed\", String(Boolean(change.otherOf(state))));\ndrawCard(model);\nfor (const one of [tree\
, program, timeline, second]) one.settle();\nif (state.tab === \"picture\") scene.settle();\nclearTimeout(saving);\nsaving = setTimeout(keep\
Link, SAVING);\n}\nfunction pressed(which, isPressed) {\nfor (const one of document.querySelectorAll(which)) one.setAttribute(\"aria-pressed\
\", String(isPressed(one)));\n}\nfunction drawTime(run) {\nconst other = change.otherOf(state);\nconst parts = other ? commonOf(run.choices, \
other.choices) : run.parent >= 0 ? run.fork : 0;\nconst { isJava, isFolded, selected, zoom, tree: all } = state;\nconst isHidden = change.is\
LaterHidden(state);\nconst isVeiled = change.isVeiled(state);\nconst common = {\n...{ tree: all, isJava, isFolded, selected, zoom, isHidden, \
isVeiled },\n...{ differs: parts, isSide: Boolean(other) }\n};\nconst head = one => {\nconst end = h(\"span.end.end-\" + endKind(one.end), {\
}, isHidden ? \"\" : endText(all.program, one.end));\nreturn other ? [h(\"b\", {}, runName(all, one)), end] : \"\";\n};\nsecond.element.hidd\
en = !other;\ntimeline.show({ ...common, run, at: state.at, title: head(run) });\nif (other) second.show({ ...common, run: other, at: Math.m\
in(state.at, lengthOf(other)), title: head(other) });\nfill(ends, other && !isHidden ? endsBeside(all.program, run, other) : null);\n}\nfunc\
tion drawOrders() {\nconst act = { take: one => set(change.ordered(state, one), true), play: playOrders, stop: stopWork };\nif (change.isVei\
led(state) && !working) return fill(orders, h(\"p.hint\", {}, change.VEIL));\nfill(orders, ordersOf(state.tree.program, state.orders, workin\
g, act));\n}\nfunction drawCard(model) {\nconst card = byId(\"card\");\nconst key = card.contains(document.activeElement) ? document.activeE\
lement.dataset.key : \"\";\ncard.hidden = state.mode === \"explore\";\nif (state.mode === \"lesson\") fill(card, lessonCard(state.lesson, mo\
del, moment(state.at), lessonActs));\nif (state.mode === \"quiz\") fill(card, quizCard(state.quiz, model, quizActs));\nif (state.mode === \"\
challenge\") fill(\ncard,\nchallengeCard(change.challengeOf(state), { again: () => setMode(\"challenge\"), stop: stopWork })\n);\nif (key) c\
ard.querySelector('[data-key=\"' + key + '\"]')?.focus({ preventScroll: true });\n}\nconst lessonActs = {\nstep: by => focused(() => set(cha\
nge.lessonStep(state, by))),\nanswer: () => focused(() => set(change.lessonAnswer(state))),\nvote: (t, by) => set(change.voted(state, t, by)\
),\nchoose,\nshowFork: (i, token) => set(change.forked({ ...state, id: 0 }, i, token), true),\ntab: setTab\n};\nconst quizActs = {\nanswer: \
option => focused(() => set(change.answered(state, option))),\nshow: () => focused(() => set(change.shownOwn(state))),\nnext: () => focused(\
() => set(change.nextQuestion(state))),\nagain: () => setMode(\"quiz\"),\nstop: stopWork\n};\nfunction focused(what) {\nwhat();\nconst card \
= byId(\"card\");\n(\ncard.querySelector(\".card-turn .main\") || card.querySelector(\".card-turn button\")\n)?.focus({ preventScroll: true \
});\n}\nfunction tryOut(preview) {\nif (change.isVeiled(state) || state.preview === preview) return;\nstate = { ...state, preview };\ndrawSt\
age(state, { choose, tryOut });\n}\nfunction remember(how, hash, of = entry) {\ntry {\nhistory[how]({ entry: of }, \"\", hash);\n} catch (_) \
{\npast.clear();\n}\n}\nconst linkNow = () => {\nconst { text } = state.tree.program;\nconst address = addressOf(state.tree, change.runOf(st\
ate), state.at);\nif (isOfPage()) return \"#\" + address;\nreturn linkOf({ text, plan: state.plan, name: state.item.name, address, mode: sta\
te.mode });\n};\nconst isOfPage = () => {\nconst { item, mode, text, plan } = state;\nreturn item.isOfPage && mode === \"explore\" && text =\
== item.program && plan === item.plan;\n};\nasync function keepLink() {\nif (!state.tree || state.mistake) return;\nconst saved = state;\nco\
nst hash = await linkNow();\nif (state === saved && hash.length < MOST_LINK) remember(\"replaceState\", hash);\n}\nwindow.addEventListener(\"\
popstate\", event => {\nconst kept = event.state && past.get(event.state.entry);\nif (!kept) return openLink();\npast.set(entry, state);\nen\
try = event.state.entry;\nstate = kept;\ndraw();\nfitted();\n});\nasync function openLink() {\nlet link;\ntry {\nlink = await readLink(locat\
ion.hash);\n} catch (fault) {\nnote(\"This link can\\u2019t be read: \" + fault.message.replace(/\\.$/, \"\") + \". A program that is here i\
s shown.\");\nreturn false;\n}\nif (!link) return false;\nif (link.text === undefined) {\nif (!state.tree) return false;\nset(change.address\
ed(state, link.address));\nreturn true;\n}\nconst named = given.menu.find(one => one.name === link.name);\nconst known = named && !change.is\
Other(named, link.text) ? named : null;\nconst item = {\ngroup: \"Link\",\nname: (!named || known) && link.name ? link.name : \"link\",\ntit\
le: known ? known.title : \"From a link\",\nprogram: link.text,\nplan: link.plan\n};\nconst isKnown = known && known.program === link.text;\n\
set(change.opened(state, isKnown ? { ...known, plan: link.plan } : item, \"explore\"));\nif (isKnown) state = { ...state, item: known };\nif \
(state.mistake) return true;\nif (link.mode === \"quiz\" || link.mode === \"challenge\") setMode(link.mode);\nelse set({ ...change.addressed\
(state, link.address), mode: link.mode });\nfitted();\nreturn true;\n}\nconst app = {\nget: () => state,\nset,\nopen,\nopenRun,\nedit,\nopen\
Link,\nsetTab,\nsetMode,\nsetSide,\nchoose,\nnote,\nlinkNow,\nplayOrders,\nstopWork,\nfitted,\nsheet,\nprogram\n};\nmakeCommands(app, given)\
;\nreturn app;\n}\nreturn { makeApp };\n})();\n// app/work.js\nconst m46 = (() => {\nconst { startMachine } = m14;\nconst { outcomesOf } = m\
38;\nconst { playedPlan } = m16;\nconst { scheduleOf } = m15;\nconst packed = ({ choices, isCut, trace }) => ({ schedule: scheduleOf(choices\
), isCut, trace });\nconst TASKS = {\norders: ({ text, seeds }, told) => outcomesOf(text, seeds, told),\nplan: ({ text, plan, schedule }) => \
packed(playedPlan(text, plan, schedule))\n};\nfunction startWorker() {\nlet ready = null;\nself.onmessage = async ({ data }) => {\nif (data.\
machine) {\nready = startMachine(data.machine);\nreturn;\n}\ntry {\nawait ready;\nself.postMessage({ answer: TASKS[data.task](data.given, do\
ne => self.postMessage({ done })) });\n} catch (fault) {\nself.postMessage({ fault: { message: fault.message, told: fault.told || \"\" } });\
\n}\n};\n}\nfunction makeWork(spawn, bytes) {\nlet worker = null;\nlet current = null;\nfunction stop() {\nif (!current) return;\nworker.ter\
minate();\nworker = null;\ncurrent.refuse(new Error(\"stopped\"));\ncurrent = null;\n}\nfunction ask(task, given, told = () => {}) {\nstop()\
;\nif (!worker) {\nworker = spawn();\nworker.postMessage({ machine: bytes });\n}\nreturn new Promise((answer, refuse) => {\ncurrent = { answ\
er, refuse };\nworker.onmessage = ({ data }) => {\nif (data.done !== undefined) return told(data.done);\ncurrent = null;\nif (data.fault) re\
fuse(Object.assign(new Error(data.fault.message), data.fault));\nelse answer(data.answer);\n};\nworker.onerror = event => {\ncurrent = null;\
\nworker = null;\nrefuse(new Error(event.message || \"the worker can\\u2019t be started\"));\n};\nworker.postMessage({ task, given });\n});\n\
}\nreturn { ask, stop };\n}\nreturn { startWorker, makeWork };\n})();\n// app/start.js\nconst m47 = (() => {\nconst { makeApp } = m45;\ncons\
t { bareName, runIn, takePage } = m21;\nconst { byId } = m3;\nconst { startMachine, versionOf } = m14;\nconst { makeWork, startWorker } = m4\
6;\nasync function unpacked(text) {\nconst zipped = Uint8Array.from(atob(text.trim()), sign => sign.charCodeAt(0));\nconst stream = new Blob\
([zipped]).stream().pipeThrough(new DecompressionStream(\"gzip\"));\nreturn new Response(stream).arrayBuffer();\n}\nfunction spawn() {\ncons\
t address = URL.createObjectURL(new Blob([byId(\"script\").textContent], { type: \"text/javascript\" }));\nconst worker = new Worker(address\
);\nsetTimeout(() => URL.revokeObjectURL(address), 10000);\nreturn worker;\n}\nfunction nameOfPage() {\ntry {\nreturn location.protocol === \
\"about:\" ? \"run\" : bareName(decodeURI(location.pathname));\n} catch (_) {\nreturn \"run\";\n}\n}\nasync function startPage() {\nconst ru\
n = runIn(document, nameOfPage());\nconst page = takePage();\nconst menu = JSON.parse(byId(\"programs\").textContent);\nconst bytes = await \
unpacked(byId(\"machine\").textContent);\nawait startMachine(bytes);\nconst app = makeApp({ menu, work: makeWork(spawn, bytes), page, versio\
n: versionOf() });\nif (run) await app.openRun(run, false, true);\nconst isOpen = await app.openLink();\nif (!isOpen && !run) await app.open\
(menu[0], \"explore\", false);\nwindow.vuthgal = { get: app.get, ready: performance.now() };\n}\nif (typeof document === \"undefined\") star\
tWorker();\nelse {\nstartPage().catch(fault => {\nbyId(\"said\").dataset.kind = \"wrong\";\nbyId(\"said\").textContent = \"This browser can\\\
u2019t start the machine: \" + fault.message;\n});\n}\nreturn {  };\n})();\n</script>\n</body>\n</html>\n";
