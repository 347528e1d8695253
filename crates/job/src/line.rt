// The lines of a sheet's text.
ghost use Rattle.std.specs.Prelude.{cond, [], ◌∷◌, ◌++◌};
ghost use Rattle.view.specs.Validation.{mark_case};
ghost use Rattle.text.specs.Digits.{decimal};
ghost use Rattle.text.specs.Wrote.{Put, Piece};
ghost use Rattle.job.specs.Lines as spec;

use seg::Bounds;
use text::{put_byte, put_decimal, put_float, put_text};
use view::Mark;

// A word, a number and a byte.
fn put_worded(out: &mut [u8], at: usize, word: &[u8], number: u64, end: u8) -> usize
    ensures { Piece out.old at (word.now ++ decimal number ++ end ∷ []) out.new result }
{
    let a = put_text(out, at, word);
    let b = put_decimal(out, a, number);
    put_byte(out, b, end)
}

// All that a refused sheet prints, and the end of a refused view's line.
pub(crate) fn put_refused(out: &mut [u8], at: usize, number: u8) -> usize
    ensures { Piece out.old at (spec.refused_line number) out.new result }
{
    put_worded(out, at, b"refused ", number as u64, b'\n')
}

// The one text where the flag is set, the other where it is clear.
fn put_either(out: &mut [u8], at: usize, flag: bool, set: &[u8], clear: &[u8]) -> usize
    ensures { Put out.old at (cond flag set.now clear.now) out.new result }
{
    put_text(out, at, if flag { set } else { clear })
}

pub(crate) fn put_outline(out: &mut [u8], vertices: usize, views: usize, closed: bool) -> usize
    ensures { Piece out.old 0 (spec.outline_line vertices views closed) out.new result }
{
    let a = put_text(out, 0, b"outline ");
    let b = put_decimal(out, a, vertices as u64);
    let c = put_byte(out, b, b' ');
    let d = put_decimal(out, c, views as u64);
    put_either(out, d, closed, b" closed\n", b" open\n")
}

// Two numbers, a space before each.
fn put_floats(out: &mut [u8], at: usize, x: f64, y: f64) -> usize
    ensures { Piece out.old at (spec.floats x y) out.new result }
{
    let a = put_float(out, at, x);
    put_float(out, a, y)
}

fn put_box_end(out: &mut [u8], at: usize, retired: bool) -> usize
    ensures { Put out.old at (spec.box_end retired) out.new result }
{
    put_either(out, at, retired, b" retired\n", b"\n")
}

pub(crate) fn put_box(out: &mut [u8], b: Bounds, retired: bool) -> usize
    ensures { Piece out.old 0 (spec.box_words b ++ spec.box_end retired) out.new result }
{
    let a = put_text(out, 0, b"box");
    let c = put_floats(out, a, b.min_x, b.min_y);
    let d = put_floats(out, c, b.max_x, b.max_y);
    put_box_end(out, d, retired)
}

pub(crate) fn put_no_box(out: &mut [u8], retired: bool) -> usize
    ensures { Piece out.old 0 (spec.no_box_words ++ spec.box_end retired) out.new result }
{
    let a = put_text(out, 0, b"box none");
    put_box_end(out, a, retired)
}

fn put_head(out: &mut [u8], k: usize) -> usize
    ensures { Piece out.old 0 (spec.view_head k) out.new result }
{
    put_worded(out, 0, b"view ", k as u64, b' ')
}

pub(crate) fn put_refused_view(out: &mut [u8], k: usize, number: u8) -> usize
    ensures { Piece out.old 0 (spec.view_head k ++ spec.refused_line number) out.new result }
{
    let a = put_head(out, k);
    put_refused(out, a, number)
}

fn put_mark(out: &mut [u8], at: usize, mark: Mark) -> usize
    ensures { Put out.old at (spec.mark_word (mark_case mark)) out.new result }
{
    match mark {
        Mark::Cut => put_text(out, at, b" cut "),
        Mark::Hold => put_text(out, at, b" hold "),
    }
}

// The line of view k, with its verdict, its mark, its count and its cut number.
pub(crate) fn put_view_line(
    out: &mut [u8],
    k: usize,
    verdict: u8,
    mark: Mark,
    count: usize,
    cut_number: u32,
) -> usize
    ensures { Piece out.old 0 (spec.view_line k verdict (mark_case mark) count cut_number) out.new result }
{
    let a = put_head(out, k);
    let b = put_decimal(out, a, verdict as u64);
    let c = put_mark(out, b, mark);
    let d = put_decimal(out, c, count as u64);
    put_worded(out, d, b" ", cut_number as u64, b'\n')
}
