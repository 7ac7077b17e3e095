// The placements by their upper left points.
ghost use Rattle.std.specs.Prelude.{◌≡◌, ◌≤◌, ◌<◌, ℕ, length, IfOk};
ghost use Rattle.pattern_images.specs.ImageList.{AreImages, placement_at};
ghost use Rattle.line_matcher.specs.Begins.{AreStarts, SplitsAt, corner_of};

use kb_geometry::{NoMemory, Point};
use pattern_images::{Images, Place};
use std::alloc::Global;

// For each number of a point, and for the number of points, how many placements have their upper
// left points before it.
pub(crate) fn starts(alloc: Global, images: &Images) -> Result<Vec<usize>, NoMemory>
    ensures starts { IfOk result (λ starts. AreStarts images.now.shape images.now.placements
        starts.items) }
    ensures images { AreImages images.now }
{
    let points = images.shape().count();
    let mut starts = Vec::with_capacity(alloc, usize::from(points) + 1)?;
    let mut next = 0;
    for p in 0..points + 1 {
        next = next_start(images, next, p);
        starts.push(next)?;
    }
    Ok(starts)
}

// How many placements have their upper left points before the point p. So many are known to.
fn next_start(images: &Images, known: usize, p: u16) -> usize
    requires in_range { known ≤ length images.now.placements }
    requires known { (i : ℕ) → i < known
        → corner_of images.now.shape (placement_at images.now.placements i) < p }
    ensures { SplitsAt images.now.shape images.now.placements p result }
{
    for i in known..images.len() {
        if corner_of(images, i) >= p {
            return i;
        }
    }
    images.len()
}

// The number of the upper left point of a placement.
fn corner_of(images: &Images, i: usize) -> u16
    requires { i < length images.now.placements }
    ensures { result ≡ corner_of images.now.shape (placement_at images.now.placements i) }
{
    let Place { x, y, .. } = images.place(i);
    images.shape().number(Point { x, y })
}
