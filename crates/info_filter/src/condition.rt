// What a filter asks of a game's information.
ghost use Rattle.std.specs.Prelude.{◌≡◌, IfOk};

use game_tree::Bytes;
use kb_geometry::{Items, NoMemory, Outcome};
use std::alloc::Global;

/// What is asked of the information of a game. Bytes are compared as they stand, so upper and lower
/// case differ. The empty text is found in every text, in an absent name too. Days are numbers, and
/// 1970-01-01 is 0.
#[derive(Debug, Drop)]
pub enum Condition {
    /// These bytes stand in the name of one of the players (property PB or PW).
    Player(Bytes),
    /// These bytes stand in the name of the player of the black stones (property PB).
    Black(Bytes),
    /// These bytes stand in the name of the player of the white stones (property PW).
    White(Bytes),
    /// These bytes stand in the event (property EV).
    Event(Bytes),
    /// These bytes stand in the place (property PC).
    Place(Bytes),
    /// The game ended so (property RE).
    Result(Outcome),
    /// The game has a day, which is this one or a later one (property DT).
    From(i32),
    /// The game has a day, which is this one or an earlier one (property DT).
    To(i32),
}

impl Condition {
    /// An equal condition. The only error is `NoMemory`.
    pub fn copy(&self, alloc: Global) -> Result<Condition, NoMemory>
        ensures { IfOk result (λ copied. copied ≡ self.now) }
    {
        Ok(match self {
            Condition::Player(bytes) => Condition::Player(bytes.copy(alloc)?),
            Condition::Black(bytes) => Condition::Black(bytes.copy(alloc)?),
            Condition::White(bytes) => Condition::White(bytes.copy(alloc)?),
            Condition::Event(bytes) => Condition::Event(bytes.copy(alloc)?),
            Condition::Place(bytes) => Condition::Place(bytes.copy(alloc)?),
            Condition::Result(outcome) => Condition::Result(*outcome),
            Condition::From(day) => Condition::From(*day),
            Condition::To(day) => Condition::To(*day),
        })
    }
}

/// Conditions. Contracts see them as a list.
pub type ConditionList = Items<Condition>;
