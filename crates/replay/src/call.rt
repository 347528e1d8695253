// The calls of the C face, by the number that a case has. No stored case has another number: 0 is answered as the midpoint, and
// what is above 18 as a trim, but in neither's room.
#[derive(Clone, Copy, Debug, PartialEq, Eq)]
pub enum Call {
    Sqrt,
    Vertex,
    ArcRadiusAndCenter,
    SplitAtPoint,
    TangentVector,
    ClosestPoint,
    DistanceIsGreaterThan,
    BoundingBox,
    Midpoint,
    Create,
    FromNewStart,
    Validate,
    Mark,
    Count,
    Get,
    List,
    Reverse,
    Trim,
    Zero,
    Above,
}

impl From<u64> for Call {
    fn from(number: u64) -> Call {
        match number {
            1 => Call::Sqrt,
            2 => Call::Vertex,
            3 => Call::ArcRadiusAndCenter,
            4 => Call::SplitAtPoint,
            5 => Call::TangentVector,
            6 => Call::ClosestPoint,
            7 => Call::DistanceIsGreaterThan,
            8 => Call::BoundingBox,
            9 => Call::Midpoint,
            10 => Call::Create,
            11 => Call::FromNewStart,
            12 => Call::Validate,
            13 => Call::Mark,
            14 => Call::Count,
            15 => Call::Get,
            16 => Call::List,
            17 => Call::Reverse,
            18 => Call::Trim,
            0 => Call::Zero,
            _ => Call::Above,
        }
    }
}
