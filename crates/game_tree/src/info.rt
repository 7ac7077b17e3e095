// The information of a game: names, event, place, date and result.
ghost use Rattle.std.specs.Prelude.{◌≡◌, length, IfOk};
ghost use Rattle.game_tree.specs.Result.{outcome_of};

use kb_geometry::{NoMemory, Outcome};
use std::alloc::Global;
use std::marker::Model;
use std::mem::size_of;

/// The names of the players, and the event, place, date and result of a game, as bytes.
#[derive(Debug, Drop)]
pub struct Info {
    // The texts one behind the other, in one block: black, white, event, place, date, result.
    texts: Vec<u8>,
    ends: TextEnds,
}

const _: () = prove!(size_of::<Info>() == 48);

// Where each text ends in the block, but for the result, which ends with it.
#[derive(Clone, Copy, Debug)]
pub(crate) struct TextEnds {
    pub(crate) black: u32,
    pub(crate) white: u32,
    pub(crate) event: u32,
    pub(crate) place: u32,
    pub(crate) date: u32,
}

impl Model for Info {
    ghost use Rattle.std.specs.Prelude.{length};
    ghost use Rattle.game_tree.specs.Information.{Information};
    ghost use Rattle.game_tree.specs.StoredInfo.{shown_info, AreTextEnds};

    ghost Value = { Information };

    ghost view = { λ i. shown_info i.texts.items i.ends };

    ghost invariant = { λ i. AreTextEnds i.ends (length i.texts.items) };
}

impl Info {
    ghost use Rattle.game_tree.specs.Information.{no_information};
    ghost use Rattle.game_tree.specs.Line.{told_result};
    ghost use Rattle.game_tree.specs.StoredInfo.{shown_info, AreTextEnds};

    // The information of a game of which this text of its result alone is told.
    pub(crate) fn of_result(alloc: Global, text: &[u8]) -> Result<Self, NoMemory>
        ensures { IfOk result (λ info. info ≡ told_result text.now) }
    {
        let ends = TextEnds {
            black: 0,
            white: 0,
            event: 0,
            place: 0,
            date: 0,
        };
        Ok(Info::new(text.to_vec(alloc)?, ends))
    }

    // The information whose texts stand in this block and end there.
    pub(crate) fn new(texts: Vec<u8>, ends: TextEnds) -> Self
        requires { AreTextEnds ends (length texts.items) }
        ensures { result ≡ shown_info texts.items ends }
    {
        Info { texts, ends }
    }

    /// The name of the player of the black stones (property PB).
    pub fn black(&self) -> &[u8]
        ensures { result.now ≡ self.now.black }
    {
        &self.texts[..self.ends.black as usize]
    }

    /// The name of the player of the white stones (property PW).
    pub fn white(&self) -> &[u8]
        ensures { result.now ≡ self.now.white }
    {
        &self.texts[self.ends.black as usize..self.ends.white as usize]
    }

    /// The event at which the game was played (property EV).
    pub fn event(&self) -> &[u8]
        ensures { result.now ≡ self.now.event }
    {
        &self.texts[self.ends.white as usize..self.ends.event as usize]
    }

    /// The place where the game was played (property PC).
    pub fn place(&self) -> &[u8]
        ensures { result.now ≡ self.now.place }
    {
        &self.texts[self.ends.event as usize..self.ends.place as usize]
    }

    /// The date on which the game was played (property DT).
    pub fn date(&self) -> &[u8]
        ensures { result.now ≡ self.now.date }
    {
        &self.texts[self.ends.place as usize..self.ends.date as usize]
    }

    /// The text of the game's result (property RE).
    pub fn result(&self) -> &[u8]
        ensures { result.now ≡ self.now.outcome_text }
    {
        &self.texts[self.ends.date as usize..]
    }

    /// Who won, by the text of the game's result.
    pub fn outcome(&self) -> Outcome
        ensures { result ≡ outcome_of self.now.outcome_text }
    {
        class_of(self.result())
    }

    /// An equal information. The only error is `NoMemory`. For the library's callers
    /// and tests: the program copies none.
    pub fn copy(&self, alloc: Global) -> Result<Info, NoMemory>
        ensures { IfOk result (λ copied. copied ≡ self.now) }
    {
        let texts = Vec::from_slice(alloc, self.texts.as_slice())?;
        Ok(Info {
            texts,
            ends: self.ends,
        })
    }
}

// The class of a result's text.
fn class_of(text: &[u8]) -> Outcome
    ensures { result ≡ outcome_of text.now }
{
    if text.starts_with(b"B+") {
        Outcome::Black
    } else if text.starts_with(b"W+") {
        Outcome::White
    } else if text == b"0".as_slice() || text == b"Draw".as_slice() {
        Outcome::Draw
    } else if text == b"Void".as_slice() {
        Outcome::Void
    } else if text == b"?".as_slice() {
        Outcome::Unknown
    } else {
        Outcome::Other
    }
}
