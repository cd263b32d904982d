//! A picture of the rounds: the pages that were sent and that were left in each, with the pause marked.

use crate::report::{Rounds, Row, millis_text};
use std::alloc::{AllocError, Global};

// Where the field of the bars lies in the picture.
const LEFT: u64 = 64;

const RIGHT: u64 = 704;

const WIDTH: u64 = 640;

const TOP: u64 = 84;

const BOTTOM: u64 = 334;

const HEIGHT: u64 = 250;

// Up to so many rounds, numbers stand above the bars.
const NUMBERED: usize = 8;

const HEAD: &str = r#"<svg xmlns="http://www.w3.org/2000/svg" viewBox="0 0 720 384" role="img">
<style>
text { font: 12px system-ui, sans-serif; fill: #59636e }
text.title { font-size: 16px; font-weight: 600; fill: #1f2328 }
text.mark { font-weight: 600; fill: #7d4e00 }
text.count { font-size: 10px }
.paper { fill: #ffffff }
.grid { stroke: #d1d9e0 }
.axis { stroke: #59636e }
.sent { fill: #0969da }
.left { fill: #bc4c00 }
.pause { fill: #fff1b8 }
.edge { stroke: #9a6700; stroke-dasharray: 4 3 }
@media (prefers-color-scheme: dark) {
text { fill: #9198a1 }
text.title { fill: #f0f6fc }
text.mark { fill: #e3b341 }
.paper { fill: #0d1117 }
.grid { stroke: #30363d }
.axis { stroke: #9198a1 }
.sent { fill: #4493f8 }
.left { fill: #f0883e }
.pause { fill: #3a2d0a }
.edge { stroke: #d29922 }
}
</style>
<rect class="paper" width="720" height="384"/>
"#;

const LEGEND: &str = r#"<rect class="sent" x="64" y="46" width="12" height="12"/>
<text x="82" y="56">pages sent in the round</text>
<rect class="left" x="234" y="46" width="12" height="12"/>
<text x="252" y="56">pages dirty behind it</text>
<text x="384" y="372" text-anchor="middle">round</text>
"#;

// The height of a number on a scale on which each doubling is a step of 256, and 1 lies a step above 0. Between powers
// of two it goes straight.
fn level(number: u64) -> u64 {
    if number == 0 {
        return 0;
    }
    let power = 63u32.saturating_sub(number.leading_zeros());
    let rest = number.saturating_mul(256).wrapping_shr(power);
    u64::from(power).saturating_mul(256).saturating_add(rest)
}

// How high a number stands in the field, of which the greatest one takes all.
fn height_of(number: u64, most: u64) -> u64 {
    let scaled = level(number).saturating_mul(HEIGHT);
    scaled.checked_div(level(most)).unwrap_or(0).min(HEIGHT)
}

// The greatest number that is drawn.
fn most_of(rows: &[Row]) -> u64 {
    let mut most = 1u64;
    for row in rows {
        most = most.max(row.pages as u64).max(row.left as u64);
    }
    most
}

// What is drawn of each round.
#[derive(Clone, Copy)]
struct Scale {
    // The greatest number.
    most: u64,
    // What of the width one round has.
    slot: u64,
    // Whether numbers stand above the bars.
    is_numbered: bool,
    // Of so many rounds one has its own number below it.
    step: usize,
}

fn scale_of(rows: &[Row]) -> Scale {
    Scale {
        most: most_of(rows),
        slot: WIDTH.checked_div(rows.len() as u64).unwrap_or(WIDTH),
        is_numbered: rows.len() <= NUMBERED,
        step: rows.len() / 25 + 1,
    }
}

impl Scale {
    // Where a round begins.
    fn start_of(&self, number: usize) -> u64 {
        LEFT.saturating_add(self.slot.saturating_mul(number as u64))
    }

    // How far from the top a number stands.
    fn top_of(&self, number: u64) -> u64 {
        BOTTOM.saturating_sub(height_of(number, self.most))
    }

    // A line across the field.
    fn draw_line(&self, text: &mut String, class: &str, y: u64) -> Result<(), AllocError> {
        write!(text, "<line class=\"{class}\" x1=\"{LEFT}\" y1=\"{y}\" ")?;
        write!(text, "x2=\"{RIGHT}\" y2=\"{y}\"/>\n")
    }

    // The lines of the powers of 16, with their numbers.
    fn draw_grid(&self, text: &mut String) -> Result<(), AllocError> {
        let mut number = 1u64;
        for _ in 0..12 {
            if number > self.most {
                break;
            }
            let y = self.top_of(number);
            self.draw_line(text, "grid", y)?;
            let base = y.saturating_add(4);
            write!(
                text,
                "<text x=\"56\" y=\"{base}\" text-anchor=\"end\">{number}</text>\n"
            )?;
            number = number.saturating_mul(16);
        }
        self.draw_line(text, "axis", BOTTOM)
    }

    // A number, of which the middle of the base stands at a place.
    fn draw_number(
        &self,
        text: &mut String,
        class: &str,
        place: (u64, u64),
        number: u64,
    ) -> Result<(), AllocError> {
        let (x, y) = place;
        write!(text, "<text class=\"{class}\" x=\"{x}\" y=\"{y}\" ")?;
        write!(text, "text-anchor=\"middle\">{number}</text>\n")
    }

    // A bar with its number.
    fn draw_bar(
        &self,
        text: &mut String,
        class: &str,
        place: (u64, u64),
        number: u64,
    ) -> Result<(), AllocError> {
        let (x, width) = place;
        let y = self.top_of(number);
        let height = BOTTOM.saturating_sub(y);
        write!(
            text,
            "<rect class=\"{class}\" x=\"{x}\" y=\"{y}\" width=\"{width}\" "
        )?;
        write!(text, "height=\"{height}\"><title>{number}</title></rect>\n")?;
        if self.is_numbered && number > 0 {
            let middle = x.saturating_add(width / 2);
            self.draw_number(text, "count", (middle, y.saturating_sub(4)), number)?;
        }
        Ok(())
    }

    // The two bars of a round, and its number below them.
    fn draw_round(&self, text: &mut String, number: usize, row: &Row) -> Result<(), AllocError> {
        let width = (self.slot.saturating_mul(2) / 5).min(40);
        let middle = self.start_of(number).saturating_add(self.slot / 2);
        let first = middle.saturating_sub(width);
        self.draw_bar(text, "sent", (first, width), row.pages as u64)?;
        self.draw_bar(text, "left", (middle, width), row.left as u64)?;
        if number.checked_rem(self.step) == Some(0) {
            self.draw_number(text, "round", (middle, BOTTOM + 18), number as u64)?;
        }
        Ok(())
    }

    // The place of the last round, in which the guest stands.
    fn draw_pause(&self, text: &mut String, rounds: usize) -> Result<(), AllocError> {
        let x = self.start_of(rounds.saturating_sub(1));
        let width = self.slot;
        write!(
            text,
            "<rect class=\"pause\" x=\"{x}\" y=\"{TOP}\" width=\"{width}\" "
        )?;
        write!(text, "height=\"{HEIGHT}\"/>\n")?;
        write!(
            text,
            "<line class=\"edge\" x1=\"{x}\" y1=\"68\" x2=\"{x}\" y2=\"{BOTTOM}\"/>\n"
        )
    }
}

// The words on the pause.
fn name_pause(
    alloc: Global,
    text: &mut String,
    rounds: &Rounds,
    times: bool,
) -> Result<(), AllocError> {
    let pages = match rounds.rows.last() {
        Some(row) => row.pages,
        None => 0,
    };
    write!(
        text,
        "<text class=\"mark\" x=\"{RIGHT}\" y=\"56\" text-anchor=\"end\">"
    )?;
    write!(text, "pause: {pages} pages")?;
    if times {
        let millis = millis_text(alloc, rounds.pause)?;
        write!(text, ", {} ms", millis.as_str())?;
    }
    write!(text, "</text>\n")
}

/// The picture of the rounds of a guest with this many pages, as SVG.
pub fn picture_of(
    alloc: Global,
    rounds: &Rounds,
    pages: usize,
    times: bool,
) -> Result<String, AllocError> {
    let count = rounds.rows.len();
    let scale = scale_of(rounds.rows.as_slice());
    let mut text = String::from_str(alloc, HEAD)?;
    write!(text, "<text class=\"title\" x=\"{LEFT}\" y=\"28\">")?;
    write!(
        text,
        "Live migration of {pages} pages in {count} rounds</text>\n"
    )?;
    scale.draw_pause(&mut text, count)?;
    scale.draw_grid(&mut text)?;
    text.push_str(LEGEND)?;
    for (number, row) in rounds.rows.iter().enumerate() {
        scale.draw_round(&mut text, number, row)?;
    }
    name_pause(alloc, &mut text, rounds, times)?;
    text.push_str("</svg>\n")?;
    Ok(text)
}
