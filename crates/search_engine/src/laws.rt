// Laws. Each stands as a contract of a function that does nothing.
ghost use Rattle.std.specs.Prelude.{◌≡◌, ◌≤◌, ◌+◌, ◌++◌, ◌↔◌, ℕ, All, Contains, List, length};
ghost use Rattle.game_tree.specs.Tree.{IsTree, Tree};
ghost use Rattle.info_filter.specs.declared.filter.Filter.{Filter};
ghost use Rattle.node_position.specs.Games.{Game};
ghost use Rattle.pattern_images.specs.declared.hit.Hit.{Hit};
ghost use Rattle.pattern_images.specs.declared.query.Query.{Query};
ghost use Rattle.search_engine.specs.Hits.{AreGameHits, AreHits, AreHitsFrom};
ghost use Rattle.search_engine.specs.KeptGames.{
  AreKept,
  AreNumbersOfKept,
  HaveKeptNodes,
  IsKeptGame,
};
ghost use Rattle.segment_store.specs.Nodes.{nodes_of};
ghost use Rattle.search_engine.specs.Triples.{AreHitsOfAllTriples};

/// The hits of a search are exactly the triples of a game, a node and a placement where the filter
/// accepts the game, the query looks at its board and at the node, and the placement begins to hold
/// at the node: each once, by game, then by node, then in the order of placements. So
/// [`search`](crate::search) lists all of them and nothing else.
pub fn the_hits_are_those_of_all_triples()
    ensures { (query : Query) (filter : Filter) (games : List Game) (hits : List Hit) →
        All (λ (g : Game). IsTree g.tree) games →
        AreHits query filter games hits ↔ AreHitsOfAllTriples query filter games hits }
{}

/// The hits of games in two parts are those of the first part, and then those of the second one,
/// whose games are numbered on.
pub fn hits_of_two_parts_are_those_of_each()
    ensures { (first : ℕ) (query : Query) (filter : Filter) (games more : List Game)
        (hits others : List Hit) →
        AreHitsFrom first query filter games hits →
        AreHitsFrom (first + length games) query filter more others →
        AreHitsFrom first query filter (games ++ more) (hits ++ others) }
{}

/// Games have a list of hits, and one only.
pub fn games_have_one_list_of_hits()
    ensures some { (first : ℕ) (query : Query) (filter : Filter) (games : List Game) →
        All (λ (g : Game). IsTree g.tree) games →
        (hits : List Hit) × AreHitsFrom first query filter games hits }
    ensures one { (first : ℕ) (query : Query) (filter : Filter) (games : List Game)
        (a b : List Hit) →
        All (λ (g : Game). IsTree g.tree) games →
        AreHitsFrom first query filter games a → AreHitsFrom first query filter games b → a ≡ b }
{}

/// A game with a hit is kept for the query, whatever the filter.
pub fn a_game_with_a_hit_is_kept()
    ensures { (query : Query) (filter : Filter) (number : ℕ) (tree : Tree) (hits : List Hit)
        (hit : Hit) → AreGameHits query filter number tree hits → Contains hits hit →
        IsKeptGame query tree }
{}

/// So many games are kept for a query, and no other number of them.
pub fn games_have_one_count_of_kept()
    ensures some { (query : Query) (games : List Game) →
        All (λ (g : Game). IsTree g.tree) games → (k : ℕ) × AreKept query games k }
    ensures one { (query : Query) (games : List Game) (a b : ℕ) →
        AreKept query games a → AreKept query games b → a ≡ b }
{}

/// So many games are kept for a query as there are numbers of games that are kept, each taken once.
pub fn kept_games_are_counted_by_their_numbers()
    ensures numbers { (query : Query) (games : List Game) (k : ℕ) → AreKept query games k →
        (numbers : List ℕ) × AreNumbersOfKept query games numbers × (length numbers ≡ k) }
    ensures count { (query : Query) (games : List Game) (numbers : List ℕ) →
        All (λ (g : Game). IsTree g.tree) games → AreNumbersOfKept query games numbers →
        AreKept query games (length numbers) }
{}

/// The games that are kept for a query have so many nodes, and no other number of them: at most as
/// many as all these games.
pub fn games_have_one_count_of_kept_nodes()
    ensures some { (query : Query) (games : List Game) →
        All (λ (g : Game). IsTree g.tree) games → (n : ℕ) × HaveKeptNodes query games n }
    ensures one { (query : Query) (games : List Game) (a b : ℕ) →
        HaveKeptNodes query games a → HaveKeptNodes query games b → a ≡ b }
    ensures most { (query : Query) (games : List Game) (n : ℕ) →
        HaveKeptNodes query games n → n ≤ nodes_of games }
{}
