// The crate's `PlineView`: a record with the outline that it is over.
ghost use Rattle.std.specs.Prelude.{◌≡◌};
ghost use Rattle.real.specs.Reply.{reply};
ghost use Rattle.plane.specs.Grade.{double};
ghost use Rattle.view.specs.Answers.{get_vertex_of, vertex_count_of};

use plane::PlineVertex;
use real::Refusal;
use view::PlineViewData;

#[derive(Clone, Copy)]
pub struct PlineView<'a> {
    pub source: &'a [f64],
    pub data: PlineViewData,
}

impl<'a> PlineView<'a> {
    // Puts an outline and a record together, and checks neither.
    pub fn new(source: &'a [f64], data: PlineViewData) -> PlineView<'a>
        ensures { (result.source ≡ source.entry) × (result.data ≡ «data») }
    {
        PlineView { source, data }
    }

    // The vertex at a position of the view.
    pub fn get(self, index: usize) -> Result<PlineVertex, Refusal>
        ensures { reply result ≡ get_vertex_of double self.entry.source.now self.entry.data index }
    {
        self.data.get_vertex(self.source, index)
    }

    // How many vertices the view has.
    pub fn vertex_count(self) -> Result<usize, Refusal>
        ensures { reply result ≡ vertex_count_of double self.entry.source.now self.entry.data }
    {
        self.data.vertex_count(self.source)
    }
}

// The vertex at a position, by a `PlineView` that is put together for it.
pub fn vertex_through_view(
    source: &[f64],
    data: PlineViewData,
    index: usize,
) -> Result<PlineVertex, Refusal>
    ensures { reply result ≡ get_vertex_of double source.now «data» index }
{
    PlineView::new(source, data).get(index)
}
