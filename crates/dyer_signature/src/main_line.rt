// The signature of a game, by one walk down its main line.
ghost use Rattle.std.specs.Prelude.{
  ◌≡◌,
  ◌≢◌,
  ◌⊎◌,
  ◌<◌,
  ℕ,
  Option,
  Some,
  None,
  IfSome,
  IfNone,
  length,
  slice_index,
};
ghost use Rattle.kb_geometry.specs.declared.shape.Point.{Point};
ghost use Rattle.dyer_signature.specs.Signatures.{
  IsSignatureOf,
  IsSignatureOn,
  TellsAt,
  move_numbers,
};

use crate::Signature;
use crate::places::with_point;
use game_tree::GameTree;
use kb_geometry::Point;

// The last move that a signature tells of.
const LAST_MOVE: u32 = 71;

/// The signature of a game, after Dyer: the points of moves 20, 40, 60, 31, 51 and 71 of its main
/// line. Moves and passes are counted from 1.
///
/// The main line is the first nodes of a tree. No node behind that of move 71 is read, and nothing
/// is allocated.
pub fn signature(tree: &GameTree) -> Signature
    ensures value { IsSignatureOf tree.now result.bytes }
    ensures on_board { IsSignatureOn tree.now.shape result.bytes }
{
    let mut signature = Signature { bytes: [b'?'; 12] };
    for n in 0..tree.node_count() {
        if !tree.is_main(n) {
            return signature;
        }
        if let Some(played) = tree.played(n) {
            let number = tree.move_number(n);
            signature = with_move(signature, number, played.point);
            if number >= LAST_MOVE {
                return signature;
            }
        }
    }
    signature
}

// The signature with the point of one more move, where the move's number is that of a place and it
// is no pass.
fn with_move(signature: Signature, number: u32, point: Option<Point>) -> Signature
    requires { IfSome point (λ (p : Point). (p.x < 52) × (p.y < 52)) }
    ensures twelve { length result.bytes ≡ 12 }
    ensures here { (place : ℕ) → place < 6 → slice_index move_numbers place ≡ number →
        IfSome point (λ (p : Point). TellsAt result.bytes place (Some p)) }
    ensures others { (place : ℕ) (told : Option Point) → place < 6 →
        (slice_index move_numbers place ≢ number) ⊎ (point ≡ None) →
        TellsAt signature.bytes place told → TellsAt result.bytes place told }
{
    let Some(point) = point else {
        return signature;
    };
    let Some(place) = place_of(number) else {
        return signature;
    };
    with_point(signature, place, point)
}

// The place of the move with a number in a signature, if it has one.
fn place_of(number: u32) -> Option<usize>
    ensures some { IfSome result (λ place.
        (place < 6) × (slice_index move_numbers place ≡ number)) }
    ensures only { IfSome result (λ place. (other : ℕ) → other < 6 →
        slice_index move_numbers other ≡ number → other ≡ place) }
    ensures none { IfNone result ((other : ℕ) → other < 6 →
        slice_index move_numbers other ≢ number) }
{
    match number {
        20 => Some(0),
        40 => Some(1),
        60 => Some(2),
        31 => Some(3),
        51 => Some(4),
        71 => Some(5),
        _ => None,
    }
}
