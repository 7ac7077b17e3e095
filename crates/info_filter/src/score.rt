// What is counted for a name.
ghost use Rattle.std.specs.Prelude.{◌≡◌, ◌≤◌};

// How many sides of games are of a name, and how many of these won and lost.
#[derive(Clone, Copy, Debug)]
pub(crate) struct Score {
    pub(crate) games: u32,
    pub(crate) wins: u32,
    pub(crate) losses: u32,
    ghost fewer_wins: { wins ≤ games },
    ghost fewer_losses: { losses ≤ games },
}

impl Score {
    ghost use Rattle.info_filter.specs.Seats.{IsOneSideMore};

    // The score of no side.
    pub(crate) fn none() -> Self
        ensures games { result.games ≡ 0 }
        ensures wins { result.wins ≡ 0 }
        ensures losses { result.losses ≡ 0 }
    {
        Score {
            games: 0,
            wins: 0,
            losses: 0,
        }
    }

    // The score with one side more.
    pub(crate) fn with(self, won: bool, lost: bool) -> Self
        requires { self.games ≤ 4294967294 }
        ensures { IsOneSideMore won lost self result }
    {
        Score {
            games: self.games + 1,
            wins: self.wins + u32::from(won),
            losses: self.losses + u32::from(lost),
        }
    }
}
