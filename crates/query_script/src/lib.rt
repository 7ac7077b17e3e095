//! The script: its grammar, and the printed texts of its statements; and the words of the command
//! line.
//!
//! Stands on kb_geometry, game_tree, pattern_images, pattern_syntax, continuation_table,
//! info_filter, dyer_signature and the libraries bstr, which splits the lines, and clap, which reads
//! the words of the command line. The layer above uses that `read_script` gives the statements of a
//! script in the grammar, or else its least bad line, that `print_hits` and the other printers
//! append the texts, and that `read_words` tells what lawful words say.
#![tactic(auto)]

mod command_words;
mod conditions;
mod head;
mod kept_words;
mod laws;
mod line;
mod list_text;
mod number;
mod opening_text;
mod pieces;
mod print;
mod progress;
mod script;
mod search_text;
mod search_words;
mod statement;
mod statements;
mod watch_text;
mod word;
mod words;

pub use command_words::{Words, WordsError, read_words};
pub use laws::{
    a_script_has_its_statements_or_a_bad_line, lawful_words_say_one_thing,
    the_longest_script_has_1048576_bytes,
};
pub use list_text::{
    print_double, print_doubles_head, print_found_game, print_kept, print_players,
    print_signature_head,
};
pub use opening_text::{NodeCounts, print_next_move, print_opening_head, print_position};
pub use print::{
    print_game, print_import, print_make, print_no_game, print_no_retire, print_report_head,
    print_retire, print_until, print_wait,
};
pub use script::read_script;
pub use search_text::{print_hit_lines, print_hits, print_rows, print_search_head, print_totals};
pub use statement::{MAX_SCRIPT, Placed, PlacedSearch, ScriptError, SearchList, Statement};
pub use watch_text::{Heading, print_no_watch, print_taken, print_watch, print_watched};
