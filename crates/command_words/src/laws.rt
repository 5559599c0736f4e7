//! Laws of reading commands: empty functions whose clauses are the laws.
ghost use Rattle.command_words.specs.Limits.{KeepsLimits};
ghost use Rattle.command_words.specs.Prefixes.{IsFirstBad, NamesOneFile, begin_a_form, have_a_form};
ghost use Rattle.command_words.specs.Read.{form_of, read};
ghost use Rattle.command_words.specs.declared.command.Command.{Command};
ghost use Rattle.command_words.specs.declared.refusal.WordRefusal.TheVariants.{BadWord, UnknownCommand, WordCount};
ghost use Rattle.std.specs.Prelude.{◌≡◌, ◌≢◌, ◌≤◌, ◌⊎◌, true, false, ℕ, List, ◌++◌, Ok, Err};

/// The numbers of a command that was read keep to their limits.
pub fn commands_keep_their_limits()
    ensures { (words : List (List ℕ)) (c : Command) → read words ≡ Ok c → KeepsLimits c }
{}

/// A bad word is told exactly at the first word with which the words so far begin no form, or at the
/// number of words where one is missing; never at the command's own word. Of words that are of a form, the
/// second name of `restart` alone is a bad word, where it is the first name.
pub fn bad_words_are_told_at_the_first_word_that_begins_no_form()
    ensures first { (words : List (List ℕ)) (i : ℕ) → form_of words ≡ Err (BadWord i) → IsFirstBad words i }
    ensures behind { (words : List (List ℕ)) (i : ℕ) → form_of words ≡ Err (BadWord i) → 1 ≤ i }
    ensures read { (words : List (List ℕ)) (i : ℕ) → read words ≡ Err (BadWord i) → IsFirstBad words i ⊎ NamesOneFile words i }
    ensures told { (words : List (List ℕ)) (i : ℕ) → form_of words ≢ Err UnknownCommand → form_of words ≢ Err WordCount
        → IsFirstBad words i → form_of words ≡ Err (BadWord i) }
{}

/// Words begin a form exactly where they are of one with some further words.
pub fn words_begin_a_form_where_further_words_give_them_one()
    ensures some { (words : List (List ℕ)) → begin_a_form words ≡ true
        → (more : List (List ℕ)) × (have_a_form (words ++ more) ≡ true) }
    ensures none { (words more : List (List ℕ)) → begin_a_form words ≡ false → have_a_form (words ++ more) ≡ false }
{}
