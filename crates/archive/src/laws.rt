ghost use Rattle.archive.specs.Laws.{RunsFormed, SpellsOneBook, LineByLine};
ghost use Rattle.archive.specs.Sample.{SampleText};

// What the text of a book tells, for the layers above to cite.
pub fn text_laws()
    ensures sample { SampleText }
    ensures formed { RunsFormed }
    ensures one { SpellsOneBook }
    ensures lines { LineByLine }
{}
