//! Laws, as functions without code: each contract is a statement of `specs/`.
ghost use Rattle.command_words.specs.Asked.{EachJobIsAskedFor, EachSampleIsAskedFor, EachKeyIsAskedFor, EachGraphIsAskedFor, EachKeyStands, EachValueIsSaid, NoChainsStandTwice, NoGraphWithout, NoLargerGraph, EachNoticeIsAskedFor, EachCommandIsAskedFor, NoOtherWordsAsk};
ghost use Rattle.command_words.specs.Positions.{PositionsTellTheFirst};

/// Which words ask for a command or a notice, and which don't.
pub fn laws_of_words()
    ensures each_job { EachJobIsAskedFor }
    ensures each_sample { EachSampleIsAskedFor }
    ensures each_alone { EachKeyIsAskedFor }
    ensures each_graph { EachGraphIsAskedFor }
    ensures each_key { EachKeyStands }
    ensures each_value { EachValueIsSaid }
    ensures chains { NoChainsStandTwice }
    ensures without { NoGraphWithout }
    ensures larger { NoLargerGraph }
    ensures each_notice { EachNoticeIsAskedFor }
    ensures each_command { EachCommandIsAskedFor }
    ensures no_other { NoOtherWordsAsk }
{}

/// The position that is told is that of the first word that cannot stand: the words before it can go
/// on to a request, and with it none can. Where a word is missing it is the position behind all words.
pub fn positions_tell_the_first()
    ensures { PositionsTellTheFirst }
{}
