//! States how commands can be written.

ghost use Rattle.std.specs.Prelude.{◌≡◌, ◌≤◌, ℕ, Bool, List, length, Ok, IsTrue};
ghost use Rattle.cics_script.specs.Options.{Entry};
ghost use Rattle.cics_script.specs.Lines.{command_line, label_in, line};
ghost use Rattle.cics_script.specs.Layout.{is_word, laid_out};
ghost use Rattle.cics_script.specs.Spelling.Spelling.{Written, verb_tokens, command_tokens, options_of};
ghost use Rattle.cics_script.specs.Spelling.Spelling.{AreWritten, AllCanBeGiven, go_together};
ghost use Rattle.cics_script.specs.Spelling.Spelling.{Spells, Spelling};
ghost use Rattle.cics_script.specs.Spelling.WrittenOut.{written_out};

use crate::Line;
use crate::words::CommandWord;
use cics_names::Command;

/// States that a command is read from its options in any order. It is a law: the call does nothing.
///
/// No option may stand twice, no two may exclude each other, and END-EXEC must be last. TS may be
/// left out, and so may options that are read without effect.
///
/// `first` is the command's word, and `left_out` says that TS is left out. `written` has the
/// options as tokens, `entries` has what they give. `padded` is the label, filled up with blanks.
///
/// - `read`: tokens that spell a command are read as that command.
/// - `bytes`: so are the bytes of a line that has a space after each token, if it isn't too long.
/// - `each`: a command has a spelling if its options go together and can be written.
/// - `back`: the line that `write_out` writes of such a command is read back, if it isn't too long.
pub fn commands_in_any_order()
    ensures read { (label : List ℕ) (command : Command)
        (first : CommandWord) (left_out : Bool) (written : List Written) (entries : List Entry)
        → Spells command first written entries
        → command_line label (verb_tokens first left_out written) ≡ Ok (Line.Issue label command) }
    ensures bytes { (label padded : List ℕ) (command : Command)
        (first : CommandWord) (left_out : Bool) (written : List Written) (entries : List Entry)
        → IsTrue (is_word label) → label_in label ≡ Ok padded
        → Spells command first written entries → AreWritten written
        → length (laid_out (command_tokens label first left_out written)) ≤ 70000
        → line (laid_out (command_tokens label first left_out written))
        ≡ Ok (Line.Issue padded command) }
    ensures each { (command : Command)
        → IsTrue (go_together command.verb) → AllCanBeGiven (options_of command.verb)
        → Spelling command }
    ensures back { (label padded : List ℕ) (command : Command)
        → IsTrue (is_word label) → label_in label ≡ Ok padded
        → IsTrue (go_together command.verb) → AllCanBeGiven (options_of command.verb)
        → length (written_out label command) ≤ 70000
        → line (written_out label command) ≡ Ok (Line.Issue padded command) }
{}
