// Document 01's cases that are run, and a traced arc at two line limits: each is a line of the stored output.
#![tactic(auto)]

use plane::{LINE_LIMIT, PlineVertex, Vector2, fuzzy_eq_eps};
use real::Refusal;
use seg::{
    SplitResult, seg_bounding_box, seg_closest_point, seg_distance_is_greater_than,
    seg_split_at_point,
};
use view::PlineViewData;

fn say(rt: &impl Print, text: &str) {
    let _ = rt.print(text);
}

// The end of a line: the words of an answer, or the refusal.
fn say_answer(rt: &impl Print, answer: Result<&str, Refusal>) {
    let _ = match answer {
        Ok(words) => println!(rt; "{words}"),
        Err(refusal) => println!(rt; "{refusal}"),
    };
}

fn whether(yes: bool) -> &'static str {
    if yes { "yes" } else { "no" }
}

// H is (0,0,1) to (1,0).
fn start_of_h() -> PlineVertex {
    PlineVertex::new(0.0, 0.0, 1.0)
}

fn end_of_h() -> PlineVertex {
    PlineVertex::new(1.0, 0.0, 0.0)
}

// A view with offset 0 from (0,0) to (0,0), which lists over any outline.
fn short_view() -> PlineViewData {
    PlineViewData {
        start_index: 0,
        end_index_offset: 0,
        updated_start: PlineVertex::new(0.0, 0.0, 0.0),
        updated_end_bulge: 0.0,
        end_point: Vector2 { x: 0.0, y: 0.0 },
        inverted_direction: false,
        cut_number: 0,
    }
}

fn position_2(rt: &impl Print) {
    say(rt, "position 2 with offset 0: ");
    let answer = short_view().get_vertex(&[0.0; 6], 2);
    say_answer(rt, answer.map(|_| "a vertex"));
}

fn tolerance_0(rt: &impl Print) {
    say(rt, "tolerance 0: ");
    let p = Vector2 { x: 0.0, y: 0.0 };
    let answer = seg_closest_point(start_of_h(), end_of_h(), p, 0.0, LINE_LIMIT);
    say_answer(rt, answer.map(|_| "a point"));
}

fn say_count(rt: &impl Print, outline: &[f64]) {
    let answer = short_view().vertex_count(outline);
    say_answer(rt, answer.map(|_| "pass"));
}

fn most_vertices(rt: &impl Print) {
    let outline = [0.0f64; 6003];
    say(rt, "2,000 vertices: ");
    say_count(rt, &outline[..6000]);
    say(rt, "2,001 vertices: ");
    say_count(rt, &outline);
}

// tan(pi/8), to the nearest f64.
fn is_tan_of_eighth(b: f64) -> bool {
    fuzzy_eq_eps(b, 0.41421356237309503, 1e-8)
}

fn split_of_h(rt: &impl Print) {
    say(rt, "H split at (0.5,-0.5), both bulges fuzzily tan(pi/8): ");
    let p = Vector2 { x: 0.5, y: -0.5 };
    let answer = seg_split_at_point(start_of_h(), end_of_h(), p, 1e-5, LINE_LIMIT);
    say_answer(
        rt,
        answer.map(|split| {
            let SplitResult {
                updated_start,
                split_vertex,
            } = split;
            whether(is_tan_of_eighth(updated_start.bulge) && is_tan_of_eighth(split_vertex.bulge))
        }),
    );
}

fn say_distance(rt: &impl Print, d: f64) {
    let p = Vector2 { x: 0.5, y: 0.0 };
    let answer = seg_distance_is_greater_than(start_of_h(), end_of_h(), p, d, 1e-5, LINE_LIMIT);
    say_answer(rt, answer.map(whether));
}

// An arc whose centre lies 10 km off: its box, and its point that is closest to (1,1).
fn traced_arc(rt: &impl Print, limit: f64) {
    let start = PlineVertex::new(0.0, 0.0, 1e-7);
    let end = PlineVertex::new(4.0, 0.0, 0.0);
    say(rt, ", box down to 0: ");
    let answer = seg_bounding_box(start, end, limit);
    say_answer(rt, answer.map(|b| whether(b.min_y == 0.0)));
    say(rt, "closest to (1,1) is (1,0): ");
    let p = Vector2 { x: 1.0, y: 1.0 };
    let answer = seg_closest_point(start, end, p, 1e-5, limit);
    say_answer(rt, answer.map(|q| whether(q == Vector2 { x: 1.0, y: 0.0 })));
}

fn main(rt: HostRuntime) {
    let rt = &rt;
    position_2(rt);
    tolerance_0(rt);
    most_vertices(rt);
    split_of_h(rt);
    say(rt, "distance from (0.5,0) to H over 0.5: ");
    say_distance(rt, 0.5);
    say(rt, "over 0.25: ");
    say_distance(rt, 0.25);
    say(rt, "(0,0,1e-7) to (4,0), limit 1e-8");
    traced_arc(rt, 1e-8);
    say(rt, "limit 1e-6");
    traced_arc(rt, 1e-6);
}
