ghost use Rattle.sets.specs.Laws.{Extensional, Order, Members, DecisionsListed, BetweenListed};

// The laws of sets, for the layers above to cite.
pub fn set_laws()
    ensures extensional { Extensional }
    ensures order { Order }
    ensures members { Members }
    ensures decisions { DecisionsListed }
    ensures between { BetweenListed }
{}
