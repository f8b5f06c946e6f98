//! The head of a picture: its colours, what it is for who listens to it, and its headline.

use crate::news::Heading;
use fs_draw_ink::Ink;
use fs_draw_layout::{heading_room, label_room, less};
use fs_draw_scene::{Scene, push_cut};
use std::alloc::{AllocError, Global};

/// The colours, on light ground, on dark ground and in print; the hatch; and the ground.
const STYLE: &[u8] = b"<style>\n\
text{fill:#1f2328}.a text,.v,.s,.s text{fill:#59636e}.B,.c,.j,.f,.u{fill:#fff}.g{stroke:#d8dee4}\n\
.w,.p,.f,.i{stroke:#2f5f98}.w{fill:#bdd7f5}.P{fill:#f0a04b}.c,.j{stroke:#1f2328}.k,.y{fill:#b04a00}.k,.x{stroke:#b04a00}\n\
.h,.H{fill:#e6eaef}.h,.d,.G{stroke:#6e7781}.Y,.s .Y{fill:#b04a00;font-weight:700}.e{fill:#b3261e}.r{stroke:#b3261e}.m,.b text{stroke:#fff}\n\
.g,.i,.x,.d,.r{fill:none}.p{fill:url(#z)}.u{opacity:.6}.c,.k,.j,.x{stroke-width:1.8}.h{stroke-width:.8}\n\
.d{stroke-width:1.5;stroke-dasharray:2 3}.r{stroke-width:2;stroke-dasharray:6 3}\n\
.m,.b text{paint-order:stroke;stroke-width:3px;stroke-linejoin:round}\n\
.q,.t,.m,.o,.e{font-weight:700}.q{font-size:13px}.s{font-size:11px}.m,.n,.v,.a{font-size:10px}.a{text-anchor:middle}.A{text-anchor:start}.N{stroke:none}\n\
.l,.b{pointer-events:none}.G{fill:none}\n\
@media (prefers-color-scheme:dark){\n\
text{fill:#e6edf3}.a text,.v,.s,.s text{fill:#9aa4af}.B,.c,.j,.f,.u{fill:#0d1117}.g{stroke:#2b3138}\n\
.w,.p,.f,.i{stroke:#79b8ff}.w{fill:#1c4a7d}.P{fill:#b86a12}.c,.j{stroke:#e6edf3}.k,.y{fill:#ffa94d}.k,.x{stroke:#ffa94d}\n\
.h,.H{fill:#2a313a}.h,.d,.G{stroke:#8b949e}.Y,.s .Y{fill:#ffa94d}.e{fill:#ff8f85}.r{stroke:#ff8f85}.m,.b text{stroke:#0d1117}}\n\
@media print{\n\
text{fill:#000}.a text,.v,.s,.s text{fill:#333}.B,.c,.j,.f,.u{fill:#fff}.g{stroke:#ccc}\n\
.w,.p,.f,.i{stroke:#000}.w{fill:#bbb}.P{fill:#777}.c,.j{stroke:#000}.k,.y{fill:#000}.k,.x{stroke:#000}\n\
.h,.H{fill:#eee}.h,.d,.G{stroke:#444}.Y,.s .Y{fill:#000}.e{fill:#000}.r{stroke:#000}.m,.b text{stroke:#fff}}\n\
</style>\n\
<pattern id=\"z\" width=\"6\" height=\"6\" patternUnits=\"userSpaceOnUse\" patternTransform=\"rotate(45)\"><rect class=\"B\" width=\"6\" height=\"6\"/><rect class=\"P\" width=\"3\" height=\"6\"/></pattern>\n\
<rect class=\"B\" width=\"100%\" height=\"100%\"/>\n\
";

/// The names of the letters, the best first.
const FONT: &[u8] =
    b"font-family=\"ui-monospace,'DejaVu Sans Mono',Menlo,Consolas,monospace\" font-size=\"12\">\n";

/// The head of the file from its first attribute on, up to the heading.
pub(crate) fn write_head(
    alloc: Global,
    scene: &Scene,
    width: u64,
    height: u64,
    heading: &Heading,
    ink: &mut Ink,
) -> Result<(), AllocError> {
    ink.with(b"xmlns=\"http://www.w3.org/2000/svg\" width=\"", width)?;
    ink.with(b"\" height=\"", height)?;
    ink.with(b"\" viewBox=\"0 0 ", width)?;
    ink.with(b" ", height)?;
    ink.raw(
        b"\" role=\"graphics-document document\" aria-labelledby=\"T\" aria-describedby=\"D\" ",
    )?;
    ink.raw(FONT)?;
    ink.raw(b"<title id=\"T\">AtomFS: ")?;
    ink.words(heading.news.as_slice())?;
    ink.raw(b"</title>\n<desc id=\"D\">")?;
    ink.words(heading.news.as_slice())?;
    if !heading.counts.is_empty() {
        ink.raw(b". ")?;
        ink.words(heading.counts.as_slice())?;
    }
    ink.raw(
        b". Time runs from left to right. A bar is a call from its begin to its return; the dot is its commit, and the number beside it is its place in the order of commits.",
    )?;
    if !scene.checkpoints.is_empty() {
        ink.raw(
            b" A line across all lanes is a checkpoint: there the journal begins again, and so do the numbers of calls and commits.",
        )?;
    }
    ink.raw(b"</desc>\n")?;
    ink.raw(STYLE)?;
    write_heading(alloc, width, heading, ink)
}

/// The headline and the line below it, cut where the picture ends.
fn write_heading(
    alloc: Global,
    width: u64,
    heading: &Heading,
    ink: &mut Ink,
) -> Result<(), AllocError> {
    let room = less(width, 16);
    let mut news = Vec::new(alloc);
    push_cut(heading.news.as_slice(), heading_room(room), &mut news)?;
    ink.text_at(b"q", 10, 21, news.as_slice())?;
    if !heading.counts.is_empty() {
        let mut counts = Vec::new(alloc);
        push_cut(heading.counts.as_slice(), label_room(room), &mut counts)?;
        ink.text_at(b"s", 10, 38, counts.as_slice())?;
    }
    ink.raw(b"\n")
}

/// Where the heading ends.
pub(crate) fn heading_end(heading: &Heading) -> u64 {
    if heading.counts.is_empty() { 32 } else { 48 }
}
