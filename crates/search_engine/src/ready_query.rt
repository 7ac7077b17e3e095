// What is looked for on each board: the images of a query are made ready once for each shape of a
// board, and read by all pieces of a search.
ghost use Rattle.std.specs.Prelude.{
  ◌≡◌,
  ◌≢◌,
  ◌∷◌,
  [],
  All,
  Contains,
  IfNone,
  IfOk,
  IfSome,
  OnOk,
};
ghost use Rattle.pattern_images.specs.Placements.{ArePlacements};
ghost use Rattle.pattern_images.specs.Query.{IsForBoard};
ghost use Rattle.search_engine.specs.Items.{games_of_items};
ghost use Rattle.search_engine.specs.Searching.{AreCovered, AreShapesAdded};

use crate::item::Item;
use kb_geometry::{NoMemory, Shape};
use pattern_images::{Query, images};
use ready_images::ReadyImages;
use std::alloc::Global;
use std::marker::Model;

// The images of a query on boards of several shapes, on which it looks, made ready to be looked for.
#[derive(Debug, Drop)]
pub(crate) struct ReadyQuery<'a> {
    query: &'a Query,
    // Those on boards of each shape, each once. Mostly there is one shape.
    ready: Vec<ReadyImages>,
}

impl<'a> Model for ReadyQuery<'a> {
    ghost use Rattle.std.specs.Prelude.{All, map};
    ghost use Rattle.search_engine.specs.ImagesMade.{AreReadyOn, QueryOnShapes};

    ghost Value = { QueryOnShapes };

    ghost view = { λ q. record {
      query = q.query.now;
      shapes = map (λ r. r.images.shape) q.ready.items;
    } };

    ghost invariant = { λ q. All (AreReadyOn q.query.now) q.ready.items };
}

impl<'a> ReadyQuery<'a> {
    // The images of a query on all boards of the games of blocks on which it looks.
    pub(crate) fn of(
        alloc: Global,
        query: &'a Query,
        items: &[Item],
    ) -> Result<ReadyQuery<'a>, NoMemory>
        ensures same_query { IfOk result (λ made. made.query ≡ query.now) }
        ensures covered { IfOk result (λ made.
            AreCovered made.query made.shapes (games_of_items items.now)) }
    {
        let mut made = ReadyQuery {
            query,
            ready: Vec::new(alloc),
        };
        for item in items {
            made.add_shapes(alloc, item.block.shapes())?;
        }
        Ok(made)
    }

    // Makes the images ready on boards of those of these shapes that aren't there yet and on which the
    // query looks.
    fn add_shapes(&mut self, alloc: Global, shapes: &[Shape]) -> Result<(), NoMemory>
        ensures query { self.new.query ≡ self.old.query }
        ensures added { OnOk result
            (AreShapesAdded self.old.query shapes.now self.old.shapes self.new.shapes) }
    {
        for shape in shapes {
            self.add_shape(alloc, *shape)?;
        }
        Ok(())
    }

    // Makes the images ready on boards of a shape, unless they are or the query doesn't look there.
    fn add_shape(&mut self, alloc: Global, shape: Shape) -> Result<(), NoMemory>
        ensures query { self.new.query ≡ self.old.query }
        ensures added { OnOk result
            (AreShapesAdded self.old.query (shape ∷ []) self.old.shapes self.new.shapes) }
    {
        if !self.query.is_for(shape) {
            return Ok(());
        }
        if self.find(shape).is_some() {
            return Ok(());
        }
        let images = images(alloc, self.query, shape)?;
        self.ready.push(ReadyImages::new(alloc, images)?)?;
        Ok(())
    }

    // The query.
    pub(crate) fn query(&self) -> &Query
        ensures { result.now ≡ self.now.query }
    {
        self.query
    }

    // The images on boards of this shape, if there are some.
    pub(crate) fn find(&self, shape: Shape) -> Option<&ReadyImages>
        ensures shape { IfSome result (λ found. found.now.images.shape ≡ shape) }
        ensures for_board { IfSome result (λ found. IsForBoard self.now.query shape) }
        ensures placements { IfSome result (λ found.
            ArePlacements self.now.query shape found.now.images.placements) }
        ensures among_shapes { IfSome result (λ found. Contains self.now.shapes shape) }
        ensures none { IfNone result (¬ Contains self.now.shapes shape) }
    {
        ready_on(&self.ready, shape)
    }
}

// Those of the images that are on boards of this shape, if there are some.
fn ready_on(ready: &[ReadyImages], shape: Shape) -> Option<&ReadyImages>
    ensures some { IfSome result (λ found.
        (found.now.images.shape ≡ shape) × Contains ready.now found.now) }
    ensures none { IfNone result (All (λ r. r.images.shape ≢ shape) ready.now) }
{
    for found in ready {
        if found.images().shape() == shape {
            return Some(found);
        }
    }
    None
}
