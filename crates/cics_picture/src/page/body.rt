//! What stands right behind the data of a page.
//!
//! `tools/page/join` writes this file.

/// The elements of the player, and the start of its script.
pub const BODY: &str = "\
<template>
<div id=\"bar\" role=\"group\" aria-label=\"Step through the run\">
<div>
<button value=\"-3\" title=\"start\" aria-label=\"start\"><svg viewBox=\"0 0 16 16\" width=\"16\" \
height=\"16\" aria-hidden=\"true\"><path d=\"M3 3v10M12 3l-6 5 6 5\"/></svg></button>
<button value=\"-2\" title=\"the wait, resumption or backout before (P)\" aria-label=\"the wait, \
resumption or backout before\"><svg viewBox=\"0 0 16 16\" width=\"16\" height=\"16\" \
aria-hidden=\"true\"><path d=\"M8 3L3 8l5 5M13 3L8 8l5 5\"/></svg></button>
<button value=\"-1\" title=\"back (left arrow)\" aria-label=\"back\"><svg viewBox=\"0 0 16 16\" \
width=\"16\" height=\"16\" aria-hidden=\"true\"><path d=\"M10 3L5 8l5 5\"/></svg></button>
<button value=\"1\" title=\"on (right arrow)\" aria-label=\"on\"><svg viewBox=\"0 0 16 16\" \
width=\"16\" height=\"16\" aria-hidden=\"true\"><path d=\"M6 3l5 5-5 5\"/></svg></button>
<button value=\"2\" title=\"the next wait, resumption or backout (N)\" aria-label=\"the next \
wait, resumption or backout\"><svg viewBox=\"0 0 16 16\" width=\"16\" height=\"16\" \
aria-hidden=\"true\"><path d=\"M3 3l5 5-5 5M8 3l5 5-5 5\"/></svg></button>
<button value=\"3\" title=\"end\" aria-label=\"end\"><svg viewBox=\"0 0 16 16\" width=\"16\" \
height=\"16\" aria-hidden=\"true\"><path d=\"M4 3l6 5-6 5M13 3v10\"/></svg></button>
</div>
<div id=\"way\"><input id=\"step\" type=\"range\" min=\"0\" value=\"0\" aria-label=\"step\"><svg \
preserveAspectRatio=\"none\" aria-hidden=\"true\"></svg></div>
<output id=\"at\" aria-live=\"off\"></output>
</div>
<section id=\"look\" aria-label=\"What stands after this step\">
<div id=\"say\" class=\"say\" aria-live=\"polite\"></div>
<section id=\"tasks\" class=\"box\"></section>
<div id=\"boxes\"></div>
<details><summary>Keys and signs</summary>
<dl>
<dt>arrows</dt><dd>a step on, a step back; Home and End of the slider: the start, the end</dd>
<dt>N, P</dt><dd>the next wait, resumption, abend or backout, and the one before</dd>
<dt>a click</dt><dd>on a line of the run goes there; a link goes to that line</dd>
<dt><span class=\"tag mine\">T1, line 9</span></dt><dd>changed by an open unit: its backout puts \
back what stands under it</dd>
<dt><span class=\"tag stay\">T1, line 9</span></dt><dd>changed by an open unit in an \
unrecoverable file or queue: the change stays</dd>
<dt><span class=\"tag hold\">T1 holds</span></dt><dd>held, not changed</dd>
<dt><span class=\"tag wait\">T2 waits</span></dt><dd>a command of T2 waits for it</dd>
<dt><span class=\"tag back\">put back</span></dt><dd>this step's backout did that</dd>
<dt>ticks</dt><dd>under the slider: short and high a wait, short and low a resumption, long a \
backout or an abend</dd>
<dt>bars</dt><dd>a unit of work: filled if it is committed, hollow if it is backed out, light if \
it stays open</dd>
</dl>
</details>
</section>
</template>
<script>
";
