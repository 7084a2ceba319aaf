//! Why two games without wishes show an optimum.
ghost use Rattle.zero_sum.specs.Laws.{OptimumByTwoGames};

/// A value can be had exactly where the player wins the game in which it has to keep to this value, and
/// wishes nothing. So the value is the optimum where the player wins this game, and doesn't win the one
/// for the next better value. This needs that against an opponent without a move the aggregates are at
/// least as good as the value; that what can be had is won needs nothing.
pub fn optimum_by_two_games()
    ensures { OptimumByTwoGames }
{}
