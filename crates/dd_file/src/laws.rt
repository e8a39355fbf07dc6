ghost use Rattle.dd_file.specs.Again.{AddsNothingAgain, AsksNothingAgain};
ghost use Rattle.dd_file.specs.Lacking.{TellsWhatLacks};
ghost use Rattle.dd_file.specs.Woven.{KeepsTheFile};

/// A filled file is the file with lines put in: taken out, they leave it.
pub fn filling_keeps_the_file()
    ensures { KeepsTheFile }
{}

/// A filled file is filled: where each game that asks was answered, none asks again, and nothing is added.
pub fn filling_again_adds_nothing()
    ensures none_asks { AsksNothingAgain }
    ensures none_added { AddsNothingAgain }
{}

/// Of a game it is told why it lacks a line exactly where it lacks one in the filled file, game by game: of no game where none of
/// them lacks one, and of none that has all.
pub fn it_is_told_of_games_that_lack_a_line()
    ensures { TellsWhatLacks }
{}
