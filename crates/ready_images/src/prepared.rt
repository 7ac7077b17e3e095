// A placement that is looked for.
ghost use Rattle.std.specs.Prelude.{◌≡◌, ◌+◌, ◌<◌, All, length};
ghost use Rattle.kb_geometry.specs.Board.{point_count};
ghost use Rattle.pattern_images.specs.ImageList.{IsPlacedOn, placement_at};
ghost use Rattle.ready_images.specs.Prepared.{IsPreparedAs};
ghost use Rattle.ready_images.specs.declared.want.Want.{Want};
ghost use Rattle.ready_images.specs.Wants.{AreWantsOf, base_of};

use crate::class_wants::ClassWants;
use crate::ready_images::ReadyImages;

/// A placement of images, made ready to be looked for in many games.
#[derive(Clone, Copy, Debug)]
pub struct Prepared<'a> {
    /// The images among which it is.
    pub ready: &'a ReadyImages,
    /// Its number among the placements of the images.
    pub number: u32,
    // The number of its upper left point.
    pub(crate) base: u16,
    // The number of its class.
    pub(crate) class: u8,
    pub ghost is: { IsPreparedAs ready.now.images number base class },
}

impl<'a> Prepared<'a> {
    /// The number of its upper left point, behind which the points stand of which it asks something.
    pub fn base(&self) -> u16
        ensures { result ≡ base_of self.now.ready.now.images.shape
            (placement_at self.now.ready.now.images.placements self.now.number) }
    {
        self.base
    }

    /// What it asks of points, all of them points of the board.
    pub fn wants(&self) -> ClassWants<'a>
        ensures is_among { self.now.number < length self.now.ready.now.images.placements }
        ensures few { self.now.number < 65536 }
        ensures placed { IsPlacedOn self.now.ready.now.images.shape
            (placement_at self.now.ready.now.images.placements self.now.number) }
        ensures are { AreWantsOf self.now.ready.now.images.shape
            (placement_at self.now.ready.now.images.placements self.now.number).grid
            result.wants.now }
        ensures on_board { All (λ (w : Want). base_of self.now.ready.now.images.shape
            (placement_at self.now.ready.now.images.placements self.now.number) + w.offset
            < point_count self.now.ready.now.images.shape) result.wants.now }
    {
        self.ready.class_wants(usize::from(self.class))
    }
}
