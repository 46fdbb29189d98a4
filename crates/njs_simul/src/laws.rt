// Laws about the definitions, each the contract of a function that does nothing.
ghost use Rattle.njs_meaning.specs.State.{State};
ghost use Rattle.njs_simul.specs.Asking.{KeepsEverywhere, NothingMore, RepliesStay, SaysOfDictionaries};
ghost use Rattle.njs_simul.specs.Counts.{SmallCode};
ghost use Rattle.njs_simul.specs.Found.{NamesAreFound};
ghost use Rattle.njs_simul.specs.Program.{CodeMeans};
ghost use Rattle.njs_simul.specs.Sizes.{SizesAreTrue};
ghost use Rattle.njs_simul.specs.Sound.{SoundCode, AcceptedCode};

use std::marker::Brand;

/// The code of scripts does what they mean (ECMA-262 5.1 §10.4, §11 to §14): whatever calls in it mean, a run of the code of a
/// function or of a module's body ends in the outcome, and the state, that the definition of what scripts mean gives; and the
/// calls of a program lead from states whose functions stand in scopes with their names to such states.
pub fn code_does_what_scripts_mean()
    ensures { CodeMeans }
{}

/// The code of a script is valid where its numbers, and the lengths of its arrays, are safe and no function of it has two
/// parameters of one name.
pub fn sound_scripts_have_valid_code()
    ensures { SoundCode }
{}

/// The code of a script is valid that some text spells and in which nothing is refused early (ECMA-262 5.1 §16), whatever the names
/// of the outermost scope are: its numbers are safe by the grammar (§7.8.3), an array has no more elements than its text has
/// characters, and a function with two parameters of one name is refused (§13.1).
pub fn accepted_scripts_have_valid_code()
    ensures { AcceptedCode }
{}

/// What is written for a part of a tree stands in front of what stands behind it, which stays, and has as many operations as its
/// size says: for every expression, statement, list of statements, function body and module body. So code has more operations than
/// a bound exactly where its size is greater.
pub fn writing_keeps_what_stands_behind()
    ensures { SizesAreTrue }
{}

/// The code of a script has at most 16 operations for each expression and statement of its tree, and two more: that of all its
/// functions and of its body together. So a script of at most 262,144 nodes has code of at most 2^24 operations.
pub fn sizes_are_small()
    ensures { SmallCode }
{}

/// Once no dictionary has a reply that is still to come, no further call on one is answered, and it stays so: of every run of code
/// whose calls and built-in functions are so, and of every call of a program, however many calls may be active. Of calls, `new` and
/// the bodies of modules it is so from every state, where it is of the built-in functions; and where it is so of those
/// from good states alone, it is so of calls from good states.
pub fn stopped_runs_answer_nothing_more()
    ensures { NothingMore }
{}

/// The replies that were given and those that are still to come are together the same at the end of a run as at its start, where
/// the built-in functions keep them: of calls, `new` and the bodies of modules from every state.
pub fn runs_keep_their_replies()
    ensures { RepliesStay }
{}

/// What is said of a state.
pub trait Saying {
    ghost says: { State → Type 0 };
}

/// Here the caller's proof picks what is said.
impl Saying for Brand {
    ghost says = { λ s. Unit {0} };
}

/// Whatever is said of states alone by their dictionaries and the calls on them that were answered: where the built-in functions of
/// a program keep it as the calls in them do, each call and `new` of the program keeps it, from every state, however many calls may
/// be active; and so does the body of a module (ECMA-262 5.1 §10.4.1) as the calls in it do.
pub fn calls_keep_what_dictionaries_say<S: Saying>()
    requires stays { SaysOfDictionaries S.says }
    ensures { KeepsEverywhere S.says }
{}

/// A name is found in the scope, and the slot, that its place by the names of the scopes around says, and where the place is
/// nowhere it isn't found (ECMA-262 5.1 §10.2.2.1).
pub fn names_are_found()
    ensures { NamesAreFound }
{}
