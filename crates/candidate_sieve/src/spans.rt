// Rows of one class whose placements are sieved at once.
ghost use Rattle.std.specs.Prelude.{◌≡◌, ◌+◌, ◌<◌, ◌≤◌, ℕ, IsTrue, length};
ghost use Rattle.pattern_images.specs.ImageList.{grid_at};
ghost use Rattle.ready_images.specs.Rows.{row_at};
ghost use Rattle.ready_images.specs.Wants.{AreWantsOf};
ghost use Rattle.candidate_sieve.specs.BlockGames.{AreEverEmpty, IsSieve, IsSpanOf};

use crate::candidates::SpanSieve;
use final_index::Planes;
use ready_images::{ReadyImages, Row};

// Rows of one class, whose bases ascend: from the number `first` among the rows of the images to the one
// before `end`.
#[derive(Clone, Copy, Debug)]
pub(crate) struct Span {
    pub(crate) first: usize,
    pub(crate) end: usize,
}

// As many rows as there are of the class of the first, each not far behind the other on the board.
pub(crate) fn span_from(rows: &[Row], first: usize) -> Span
    requires { first < length rows.now }
    ensures begin { result.first ≡ first }
    ensures are { IsSpanOf rows.now first result.end }
{
    let mut end = first + 1;
    while end < rows.len() && is_behind(&rows[end], &rows[end - 1]) {
        end += 1;
    }
    Span { first, end }
}

// Whether a row is of the class of another one and begins behind it, but not far behind: else the words
// of the points between them would take more than a sieve for each row.
fn is_behind(row: &Row, other: &Row) -> bool
    ensures { IsTrue result → (row.now.class ≡ other.now.class)
        × (other.now.base + other.now.count ≤ row.now.base) }
{
    if row.class != other.class || row.base < other.base {
        return false;
    }
    let step = usize::from(row.base - other.base);
    other.count <= step && (step - other.count) / 8 < other.count
}

// The sieve of the placements behind each point from the base of the first row to that of the last
// placement of the last row. Where the rectangle would go over the edge of the board, what is asked
// leads to points of the board too.
pub(crate) fn span_sieve<'a>(
    planes: &'a Planes,
    ever_empty: u64,
    ready: &'a ReadyImages,
    span: Span,
) -> SpanSieve<'a>
    requires shape { ready.now.images.shape ≡ planes.now.shape }
    requires ever_empty { AreEverEmpty planes.now ever_empty }
    requires span { IsSpanOf ready.now.rows span.first span.end }
    ensures sieve { IsSieve result }
    ensures planes { result.planes.now ≡ planes.now }
    ensures base { result.base ≡ (row_at ready.now.rows span.first).base }
    ensures to_end { (q : ℕ) → span.end ≡ q + 1 → result.base + result.count
        ≡ (row_at ready.now.rows q).base + (row_at ready.now.rows q).count }
    ensures wants { AreWantsOf ready.now.images.shape
        (grid_at ready.now.images.grids (row_at ready.now.rows span.first).class) result.wants.now }
{
    let rows = ready.rows();
    let base = rows[span.first].base;
    let last = &rows[span.end - 1];
    SpanSieve {
        planes,
        ever_empty,
        base,
        count: usize::from(last.base - base) + last.count,
        wants: ready.wants_of(last),
    }
}
