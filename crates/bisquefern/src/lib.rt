// The calls of the C face over lent buffers, which `bisquefern_c` exports. One that is refused has written nothing.
#![tactic(auto)]

mod drawing;
mod number;
mod returned;
mod segment;
mod view_call;

pub use drawing::bf_dxf_outline;
pub use number::{bf_sqrt, bf_vertex};
pub use returned::code;
pub use segment::{
    bf_seg_arc_radius_and_center, bf_seg_bounding_box, bf_seg_closest_point,
    bf_seg_distance_is_greater_than, bf_seg_midpoint, bf_seg_split_at_point, bf_seg_tangent_vector,
};
pub use view_call::{
    bf_view_count, bf_view_create, bf_view_from_new_start, bf_view_get, bf_view_list, bf_view_mark,
    bf_view_reverse, bf_view_trim, bf_view_validate,
};
