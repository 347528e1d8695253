// A sheet's text, part by part: the outline's line, the box line, and one part for each view.
ghost use Rattle.std.specs.Prelude.{◌≡◌, ◌<◌, ◌≤◌, length};
ghost use Rattle.real.specs.Reply.{given};
ghost use Rattle.plane.specs.Grade.{double};
ghost use Rattle.view.specs.Answers.{written};
ghost use Rattle.view.specs.Validation.{cut, verdict_of, validate_of};
ghost use Rattle.text.specs.Wrote.{Filled};
ghost use Rattle.job.specs.Extent.{last_segment_of};
ghost use Rattle.job.specs.Lines.{refused_line};
ghost use Rattle.job.specs.Views as views;
ghost use Rattle.job.specs.Parts as spec;

use crate::header::Sheet;
use crate::line::{put_box, put_no_box, put_outline, put_refused, put_refused_view, put_view_line};
use crate::row::put_rows;
use crate::size::{LIST_NUMBERS, PART_BYTES};
use plane::LINE_LIMIT;
use record::record_of;
use view::{Mark, PlineViewData, ViewDataValidation};

// The last segment of n vertices: the closing one only if closed.
fn last_segment(closed: bool, n: usize) -> usize
    requires { 2 ≤ n }
    ensures { (result ≡ last_segment_of closed n) × (result < n) }
{
    if closed { n - 1 } else { n - 2 }
}

// View k of a sheet's text: its record, over the outline that opening the sheet gave.
#[derive(Clone, Copy)]
struct View<'a> {
    k: usize,
    d: PlineViewData,
    outline: &'a [f64],
    closed: bool,
    ghost few: { k < 10000 },
}

impl View<'_> {
    // The line and the rows of a cut view, which lists without refusal.
    fn put_cut(&self, number: u8, list: &mut [f64; LIST_NUMBERS], out: &mut [u8]) -> usize
        requires { views.Lists self.now.outline.now self.now.d (length list.old) }
        ensures text { views.Part out.old (views.mark_text self.now.outline.now self.now.d self.now.k number cut) out.new result }
        ensures list { list.new ≡ written double self.now.outline.now self.now.d list.old }
    {
        let count = self.d.list(self.outline, list).unwrap();
        let e = put_view_line(out, self.k, number, Mark::Cut, count, self.d.cut_number);
        put_rows(out, e, list, count)
    }

    // A view with a verdict.
    fn put_marked(
        &self,
        verdict: ViewDataValidation,
        list: &mut [f64; LIST_NUMBERS],
        out: &mut [u8],
    ) -> usize
        requires { validate_of double double.line self.now.outline.now self.now.d ≡ given (verdict_of verdict) }
        ensures text { views.Part out.old (views.view_text self.now.closed self.now.outline.now self.now.k self.now.d) out.new result }
        ensures list { list.new ≡ views.view_buffer self.now.closed self.now.outline.now self.now.d list.old }
    {
        let number = verdict.number();
        match verdict.mark(self.d, self.outline, self.closed) {
            Mark::Cut => self.put_cut(number, list, out),
            Mark::Hold => put_view_line(out, self.k, number, Mark::Hold, 0, self.d.cut_number),
        }
    }

    // The view's line, and its rows where it is cut.
    fn put(&self, list: &mut [f64; LIST_NUMBERS], out: &mut [u8]) -> usize
        ensures text { views.Part out.old (views.view_text self.now.closed self.now.outline.now self.now.k self.now.d) out.new result }
        ensures list { list.new ≡ views.view_buffer self.now.closed self.now.outline.now self.now.d list.old }
    {
        match self.d.validate_for_source(self.outline, LINE_LIMIT) {
            Err(refusal) => put_refused_view(out, self.k, u8::from(refusal)),
            Ok(judged) => self.put_marked(judged.value, list, out),
        }
    }
}

impl Sheet<'_> {
    // The box line.
    fn put_extent(&self, out: &mut [u8]) -> usize
        ensures { views.Part out.old (spec.box_part self.now.bytes.now) out.new result }
    {
        let n = self.header.vertices;
        let retired = self.header.is_retired();
        if !self.vertices_are_sound() {
            return 0;
        }
        if n < 2 {
            return put_no_box(out, retired);
        }
        let last = last_segment(self.header.is_closed(), n);
        put_box(out, self.outline_box(last), retired)
    }

    // View k, over an outline.
    fn put_view(
        &self,
        k: usize,
        outline: &[f64],
        list: &mut [f64; LIST_NUMBERS],
        out: &mut [u8],
    ) -> usize
        requires { k < self.now.header.views }
        ensures text { views.Part out.old (spec.view_part self.now.bytes.now outline.now k) out.new result }
        ensures list { list.new ≡ spec.view_buffer_of self.now.bytes.now outline.now k list.old }
    {
        let view = View {
            k,
            d: record_of(self.record(k)),
            outline,
            closed: self.header.is_closed(),
        };
        view.put(list, out)
    }

    // Part k, over an outline.
    fn put_part(
        &self,
        k: usize,
        outline: &[f64],
        list: &mut [f64; LIST_NUMBERS],
        out: &mut [u8],
    ) -> usize
        ensures text { views.Part out.old (spec.part_text self.now.bytes.now outline.now k) out.new result }
        ensures list { list.new ≡ spec.part_buffer self.now.bytes.now outline.now k list.old }
    {
        if k >= self.header.views + 2 {
            return 0;
        }
        let h = self.header;
        match k {
            0 => put_outline(out, h.vertices, h.views, h.is_closed()),
            1 => self.put_extent(out),
            _ => self.put_view(k - 2, outline, list, out),
        }
    }
}

// Part k of a sheet's text, over the outline that opening the sheet gave, from the buffer's start: how many bytes. A cut
// view is listed in `list`.
pub fn sheet_part(
    bytes: &[u8],
    outline: &[f64],
    k: usize,
    list: &mut [f64; LIST_NUMBERS],
    out: &mut [u8; PART_BYTES],
) -> usize
    ensures { (Filled (spec.part_text bytes.now outline.now k) out.old out.new result) × (list.new ≡ spec.part_buffer bytes.now outline.now k list.old) }
{
    let Ok(sheet) = Sheet::read(bytes) else {
        return 0;
    };
    sheet.put_part(k, outline, list, out)
}

// All that a refused sheet prints, from the buffer's start: how many bytes.
pub fn refused_sheet(number: u8, out: &mut [u8; PART_BYTES]) -> usize
    ensures { Filled (refused_line number) out.old out.new result }
{
    put_refused(out, 0, number)
}
