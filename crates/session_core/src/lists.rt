// The texts of the statements that list games and players.
ghost use Rattle.std.specs.Prelude.{
  ◌≡◌,
  ◌<◌,
  ◌≤◌,
  ◌++◌,
  ℕ,
  All,
  IfOk,
  List,
  OnErr,
  OnOk,
  length,
  map,
};
ghost use Rattle.std.specs.List.{flat_map};
ghost use mathlib.Core.List.{IsPrefix};
ghost use Rattle.info_filter.specs.Players.{IsPlayersTable};
ghost use Rattle.session_core.specs.Answers.{IsDoublesText, IsPlayersText, IsSignatureText};
ghost use Rattle.session_core.specs.Grouping.{entries_of, entry_of, group_in, group_text};
ghost use Rattle.session_core.specs.Listing.{
  AreFormsOf,
  borrowed_games,
  found_at,
  found_text,
  infos_of,
};
ghost use Rattle.session_core.specs.Signed.{AreGamesFound};
ghost use Rattle.session_core.specs.Stores.{view_of};

use crate::doubles::{GamesByKey, Numbers, StoredKey, are_group, games_by_key};
use crate::forms::canonical_forms;
use dyer_signature::{SigPattern, Signature, matches};
use info_filter::Players;
use kb_geometry::NoMemory;
use query_script::{
    print_double, print_doubles_head, print_found_game, print_players, print_signature_head,
};
use search_engine::game_count;
use segment_store::{FinishedGame, Segment, games};
use std::alloc::Global;
use version_publisher::Version;

// Appends the text of the games whose signature matches a pattern.
pub(crate) fn append_signature(
    alloc: Global,
    line: u32,
    pattern: &SigPattern,
    version: &Version<Segment>,
    out: &mut Vec<u8>,
) -> Result<(), NoMemory>
    ensures ok { OnOk result ((text : List ℕ)
        × IsSignatureText line (view_of version.now) pattern.now.bytes text
        × (out.new.items ≡ out.old.items ++ text)) }
    ensures refused { OnErr result (IsPrefix out.old.items out.new.items) }
{
    let count = game_count(version);
    let games = games(alloc, version)?;
    let forms = canonical_forms(alloc, games.as_slice())?;
    let found = found_by(alloc, pattern, games.as_slice(), forms.as_slice())?;
    print_signature_head(line, version.number(), count, found.len(), out)?;
    append_found(forms.as_slice(), found.as_slice(), out)
}

// Appends a line for each game with one of these numbers, with its canonical form.
fn append_found(forms: &[Signature], found: &[u32], out: &mut Vec<u8>) -> Result<(), NoMemory>
    requires { All (λ (number : ℕ). number < length forms.now) found.now }
    ensures ok { OnOk result (out.new.items
        ≡ out.old.items ++ flat_map (found_text forms.now) found.now) }
    ensures refused { OnErr result (IsPrefix out.old.items out.new.items) }
{
    for number in found {
        let form = &forms[*number as usize];
        print_found_game(*number, form, out)?;
    }
    Ok(())
}

// The numbers of the games whose signature matches a pattern, ascending, from the games and their
// canonical forms. The only error is `NoMemory`.
fn found_by(
    alloc: Global,
    pattern: &SigPattern,
    games: &[&FinishedGame],
    forms: &[Signature],
) -> Result<Vec<u32>, NoMemory>
    requires most { length games.now ≤ 400000 }
    requires forms { AreFormsOf games.now forms.now }
    ensures found { IfOk result (λ found. AreGamesFound pattern.now.bytes (borrowed_games games.now)
        (map (found_at forms.now) found.items)) }
    ensures in_range { IfOk result (λ found.
        All (λ (number : ℕ). number < length forms.now) found.items) }
{
    let mut found = Vec::new(alloc);
    for number in 0..games.len() {
        let (game, form) = (games[number], &forms[number]);
        if matches(form, game.tree().shape(), pattern) {
            found.push(number as u32)?;
        }
    }
    Ok(found)
}

// Appends the text of the players.
pub(crate) fn append_players(
    alloc: Global,
    line: u32,
    version: &Version<Segment>,
    out: &mut Vec<u8>,
) -> Result<(), NoMemory>
    ensures ok { OnOk result ((text : List ℕ)
        × IsPlayersText line (view_of version.now) text
        × (out.new.items ≡ out.old.items ++ text)) }
    ensures refused { OnErr result (IsPrefix out.old.items out.new.items) }
{
    let count = game_count(version);
    let games = games(alloc, version)?;
    let players = players_of(alloc, games.as_slice())?;
    print_players(line, version.number(), count, &players, out)
}

// The table of the players. The only error is `NoMemory`.
fn players_of(alloc: Global, games: &[&FinishedGame]) -> Result<Players, NoMemory>
    requires { length games.now ≤ 400000 }
    ensures { IfOk result (λ players. IsPlayersTable (infos_of games.now) players) }
{
    let mut players = Players::new(alloc);
    for game in games {
        players.add(alloc, game.tree().info())?;
    }
    Ok(players)
}

// Appends the text of the groups of double games.
pub(crate) fn append_doubles(
    alloc: Global,
    line: u32,
    version: &Version<Segment>,
    out: &mut Vec<u8>,
) -> Result<(), NoMemory>
    ensures ok { OnOk result ((text : List ℕ)
        × IsDoublesText line (view_of version.now) text
        × (out.new.items ≡ out.old.items ++ text)) }
    ensures refused { OnErr result (IsPrefix out.old.items out.new.items) }
{
    let count = game_count(version);
    let games = games(alloc, version)?;
    let forms = canonical_forms(alloc, games.as_slice())?;
    let by_key = games_by_key(alloc, games.as_slice(), forms.as_slice())?;
    let groups = count_groups(&by_key);
    print_doubles_head(line, version.number(), count, groups, out)?;
    for (key, numbers) in by_key.iter() {
        append_group(key, numbers, out)?;
    }
    Ok(())
}

// Appends the line of the games with a key, if they are a group of double games.
fn append_group(key: &StoredKey, numbers: &Numbers, out: &mut Vec<u8>) -> Result<(), NoMemory>
    ensures ok { OnOk result (out.new.items
        ≡ out.old.items ++ group_text (entry_of (key.now, numbers.now))) }
    ensures refused { OnErr result (out.new.items ≡ out.old.items) }
{
    if !are_group(key, numbers) {
        return Ok(());
    }
    print_double(&key.form, numbers.first, numbers.others.as_slice(), out)
}

// How many groups of double games there are.
fn count_groups(by_key: &GamesByKey) -> usize
    ensures { result ≡ length (flat_map group_in (entries_of by_key.now.entries)) }
{
    let mut groups = 0;
    for (key, numbers) in by_key.iter() {
        if are_group(key, numbers) {
            groups += 1;
        }
    }
    groups
}
