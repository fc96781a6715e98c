// Laws of the words of commands.
ghost use Rattle.tool_words.specs.Forms.{AcceptedAsk, AskForOne, LieInRanges, OutOfRangeAskForNone, PlainAsk, StartWithNames};

/// Does nothing. Its contract says what the words of a command are, in their own terms: they ask for one command at most, and
/// for one exactly where the command line has no fault for them; they begin with the command's name, so that neither no
/// words nor `help`, `--help` or `--version` ask for one; its numbers lie in their ranges; the plain words of each
/// command ask for it, and for none where one of their numbers lies outside its range.
pub fn words_law()
    ensures one { AskForOne }
    ensures accepted { AcceptedAsk }
    ensures names { StartWithNames }
    ensures ranges { LieInRanges }
    ensures plain { PlainAsk }
    ensures refused { OutOfRangeAskForNone }
{}
