// The segment calls, for C.
ghost use Rattle.plane.specs.Grade.{double};
ghost use Rattle.seg.specs.Arc.{seg_circle};
ghost use Rattle.seg.specs.Split.{seg_split};
ghost use Rattle.seg.specs.Tangent.{seg_tangent};
ghost use Rattle.seg.specs.Closest.{seg_closest};
ghost use Rattle.seg.specs.Distance.{seg_far};
ghost use Rattle.seg.specs.Bounds.{seg_box};
ghost use Rattle.seg.specs.Middle.{seg_mid};
ghost use Rattle.lent.specs.Lent.{Answered};
ghost use Rattle.lent.specs.Values as values;
ghost use Rattle.bisquefern.specs.Calls.{of_segment, point};

use bisquefern::code;

// Radius and centre of an arc. 3, 1, 2, 6, 8.
#[unsafe(no_mangle)]
pub extern "C" fn bf_seg_arc_radius_and_center(seg: &[f64], line_limit: f64, out: &mut [f64]) -> u8
    ensures { Answered values.circle_numbers (of_segment seg.now (seg_circle double line_limit)) out.old result out.new }
{
    code(bisquefern::bf_seg_arc_radius_and_center(seg, line_limit, out))
}

// The updated start and the split vertex. 3, 1, 2, 8.
#[unsafe(no_mangle)]
pub extern "C" fn bf_seg_split_at_point(
    seg: &[f64],
    x: f64,
    y: f64,
    tolerance: f64,
    line_limit: f64,
    out: &mut [f64],
) -> u8
    ensures { Answered values.split_numbers (of_segment seg.now (λ v1 v2. seg_split double line_limit v1 v2 (point x y) tolerance)) out.old result out.new }
{
    code(bisquefern::bf_seg_split_at_point(seg, x, y, tolerance, line_limit, out))
}

// 3, 1, 2, 8.
#[unsafe(no_mangle)]
pub extern "C" fn bf_seg_tangent_vector(
    seg: &[f64],
    x: f64,
    y: f64,
    line_limit: f64,
    out: &mut [f64],
) -> u8
    ensures { Answered values.point_numbers (of_segment seg.now (λ v1 v2. seg_tangent double line_limit v1 v2 (point x y))) out.old result out.new }
{
    code(bisquefern::bf_seg_tangent_vector(seg, x, y, line_limit, out))
}

// 3, 1, 2, 8.
#[unsafe(no_mangle)]
pub extern "C" fn bf_seg_closest_point(
    seg: &[f64],
    x: f64,
    y: f64,
    tolerance: f64,
    line_limit: f64,
    out: &mut [f64],
) -> u8
    ensures { Answered values.point_numbers (of_segment seg.now (λ v1 v2. seg_closest double line_limit v1 v2 (point x y) tolerance)) out.old result out.new }
{
    code(bisquefern::bf_seg_closest_point(seg, x, y, tolerance, line_limit, out))
}

// 1 where the point is farther than the distance, else 0. 3, 1, 2, 8.
#[unsafe(no_mangle)]
pub extern "C" fn bf_seg_distance_is_greater_than(
    seg: &[f64],
    x: f64,
    y: f64,
    distance: f64,
    tolerance: f64,
    line_limit: f64,
    out: &mut [u8],
) -> u8
    ensures { Answered values.flag_byte (of_segment seg.now (λ v1 v2. seg_far double line_limit v1 v2 (point x y) distance tolerance)) out.old result out.new }
{
    code(bisquefern::bf_seg_distance_is_greater_than(
        seg, x, y, distance, tolerance, line_limit, out,
    ))
}

// Least x and y, greatest x and y. 3, 1, 2, 8.
#[unsafe(no_mangle)]
pub extern "C" fn bf_seg_bounding_box(seg: &[f64], line_limit: f64, out: &mut [f64]) -> u8
    ensures { Answered values.box_numbers (of_segment seg.now (seg_box double line_limit)) out.old result out.new }
{
    code(bisquefern::bf_seg_bounding_box(seg, line_limit, out))
}

// 3, 1, 2, 8.
#[unsafe(no_mangle)]
pub extern "C" fn bf_seg_midpoint(seg: &[f64], line_limit: f64, out: &mut [f64]) -> u8
    ensures { Answered values.point_numbers (of_segment seg.now (seg_mid double line_limit)) out.old result out.new }
{
    code(bisquefern::bf_seg_midpoint(seg, line_limit, out))
}
