// The law, the contract of a function without parameters.
ghost use Rattle.lemma_check.specs.Claims.{EntriesTold, ListsTold, WrongStays};

/// In every game: the items of an entry say whether it is in place, and what is known after it; and those of a list, one
/// after the other, say what it proves. Once something is out of place, it stays so.
pub fn items_tell_of_lists()
    ensures entries { EntriesTold }
    ensures lists { ListsTold }
    ensures wrong { WrongStays }
{}
