//! Closing the box at a place.
use crate::search::Search;
use crate::stop::Stop;
use dense_board::Closing;
use joins::Found;
use qc_model::ScopeId;

/// Closes the box for the constraints in force at the scope, and puts `c` where that takes something. Where nothing is left it puts
/// `e`, and says so; at an unrestricted scope of the opponent that is a lost leaf.
pub fn close_here(search: &mut Search, scope: ScopeId) -> Result<bool, Stop> {
    match search.board.close(scope) {
        Closing::Same => Ok(true),
        Closing::Narrowed => {
            search.lines.put(b"c\n")?;
            Ok(true)
        }
        Closing::Lost => {
            nothing_left(search, scope)?;
            Ok(false)
        }
    }
}

/// Puts `e`, where no box within is closed, or a move has no answer.
pub fn nothing_left(search: &mut Search, scope: ScopeId) -> Result<(), Stop> {
    search.lines.put(b"e\n")?;
    if is_open_move(search, scope) {
        search.board.add_node(scope, Found::Lost);
        search.hints.note(&search.board, scope);
    }
    Ok(())
}

/// Whether it is a scope of the opponent without a restriction.
pub fn is_open_move(search: &Search, scope: ScopeId) -> bool {
    match search.board.level(scope) {
        None => false,
        Some(level) => !search.board.is_players(scope) && level.rules.is_empty(),
    }
}
