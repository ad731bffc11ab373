//! What holds of the definitions: closed theorems, each a clause of a function without a body.

ghost use Rattle.grammar.specs.Machine.{Complete, Sound, OneReading, Completion, Viable, StopsThere, SignsMet, OneSign, InOrder, SignsBefore, EndsMet, FaultsMet, SignsRead, FaultlessGrows, GivesAll, GivesKind, GivesSign, Computed, GivesSome, GivesFront};
ghost use Rattle.grammar.specs.Lists.{ReadExactly, ViableExactly};
ghost use Rattle.grammar.specs.Progress.{StandsFirst, PassesSpace, PassesComment, PassesSign, SignAtFault, StopsAtByte, StopsAtEnd, StopsInWord, StopsBeforeComment, StopsInComment, EndsWhole, GivesMore, StandsBetween};
ghost use Rattle.grammar.specs.Tried.{Limits, Shown, Tried};
ghost use Rattle.grammar.specs.Notations.Notation.{dtd};
ghost use Rattle.grammar.specs.Faults.{GivesOne};

/// Texts are read exactly, a start is kept exactly while some text begins so, and each text gives
/// one thing.
pub fn texts_read()
    ensures complete { Complete }
    ensures sound { Sound }
    ensures one { OneReading }
    ensures completion { Completion }
    ensures viable { Viable }
    ensures stops { StopsThere }
    ensures signs { SignsMet }
    ensures sign { OneSign }
    ensures order { InOrder }
    ensures before { SignsBefore }
    ensures ended { EndsMet }
    ensures faults { FaultsMet }
    ensures computed { Computed }
    ensures read { SignsRead }
    ensures grows { FaultlessGrows }
    ensures gives_all { GivesAll }
    ensures gives_kind { GivesKind }
    ensures gives_sign { GivesSign }
    ensures gives_some { GivesSome }
    ensures gives_front { GivesFront }
    ensures gives { GivesOne dtd }
{}

/// Lists and groups are read exactly, sign by sign, and a start is kept exactly while some list
/// begins so.
pub fn lists_read()
    ensures read { ReadExactly }
    ensures viable { ViableExactly }
{}

/// Texts that were worked out from the definition of the notation by other means are read so.
pub fn texts_worked()
    ensures tried { Tried }
    ensures shown { Shown }
    ensures limits { Limits }
{}

/// Reading goes on over white space, comments and signs, and where it stops, what the text gives is
/// known: its first fault is there, or it ends whole.
pub fn steps()
    ensures first { StandsFirst }
    ensures space { PassesSpace }
    ensures comment { PassesComment }
    ensures sign { PassesSign }
    ensures fault { SignAtFault }
    ensures byte { StopsAtByte }
    ensures end { StopsAtEnd }
    ensures word { StopsInWord }
    ensures before_comment { StopsBeforeComment }
    ensures in_comment { StopsInComment }
    ensures whole { EndsWhole }
    ensures more { GivesMore }
    ensures between { StandsBetween }
{}
