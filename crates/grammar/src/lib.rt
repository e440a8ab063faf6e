//! The grammar of scripts: how terms and statements are read, and how terms are printed.
#![tactic(auto)]

ghost use Rattle.grammar.specs.Misfit.{Misfits};
ghost use Rattle.grammar.specs.Phrases.{ReadPhrases, PhrasesRead};
ghost use Rattle.grammar.specs.Reader.{OneReading};
ghost use Rattle.grammar.specs.RoundTrip.{RoundTrip};
ghost use Rattle.grammar.specs.Sentences.{ReadSentences, SentencesRead};
ghost use Rattle.grammar.specs.Statements.{OneStatement};

/// The laws of reading and printing: words have one reading, and so has a statement; what is read
/// is a phrase of the grammar, and a phrase that nothing goes on with is read; so it is with
/// statements; refusal 3 lies at the first word with which no statement can begin; printed terms
/// read back as themselves.
pub fn reading_laws()
    ensures reading { OneReading }
    ensures statement { OneStatement }
    ensures read { ReadPhrases }
    ensures phrases { PhrasesRead }
    ensures said { ReadSentences }
    ensures sentences { SentencesRead }
    ensures misfit { Misfits }
    ensures trip { RoundTrip }
{}
