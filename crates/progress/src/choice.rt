//! Whether lines are wanted.

ghost use Rattle.std.specs.Prelude.{◌≡◌};
ghost use Rattle.std.specs.Option.{option_map};
ghost use Rattle.progress.specs.Choice.{is_wanted};

/// Whether lines are wanted: as the environment's word says, `1` for lines and `0` for none, and
/// else where standard error is a terminal.
pub fn is_wanted(word: Option<&str>, terminal: bool) -> bool
    ensures { result ≡ is_wanted (option_map (λ text. text.now) word.entry) terminal }
{
    let Some(word) = word else {
        return terminal;
    };
    word == "1" || terminal && word != "0"
}
