// Laws of the texts, each the contract of a function without parameters.
ghost use Rattle.std.specs.Prelude.{◌≡◌, ◌++◌, [], flat_map, IsTrue, List, ℕ};
ghost use Rattle.std.specs.List.{list_all};
ghost use Rattle.qc_model.specs.declared.problem.Kind.{Kind};
ghost use Rattle.lemma_list.specs.Lemmas.{Entry};
ghost use Rattle.lemma_text.specs.Text.{list_text};
ghost use Rattle.lemma_text.specs.Ranges.{has_text};
ghost use Rattle.lemma_text.specs.declared.item.Item.{Item};
ghost use Rattle.lemma_text.specs.States.{Place, allows};
ghost use Rattle.lemma_text.specs.Standing.{standing};
ghost use Rattle.lemma_text.specs.Telling.{Tells};
ghost use Rattle.lemma_text.specs.Places.{IsTextOrFault, NeverBoth, IsOneList, IsOneFault};
ghost use Rattle.lemma_text.specs.Items.{item_text, item_fits, list_items};

/// The pieces of a list, one after the other, are its text, and their numbers have a text where the list does.
pub fn items_spell_lists()
    ensures text { (loser : Kind) (entries : List Entry) → flat_map item_text (list_items loser entries) ≡ list_text loser entries }
    ensures fits { (loser : Kind) (entries : List Entry) → list_all item_fits (list_items loser entries) ≡ has_text entries }
{}

/// Each text is one list's.
pub fn each_text_is_of_one_list()
    ensures { (k l : Kind) (es fs : List Entry) → IsTrue (has_text es) → IsTrue (has_text fs) → list_text k es ≡ list_text l fs → (k ≡ l) × (es ≡ fs) }
{}

/// Any bytes are the text of one list, or they have one fault, at one place.
pub fn bytes_are_one_list_or_have_one_fault()
    ensures either { IsTextOrFault }
    ensures not_both { NeverBoth }
    ensures list { IsOneList }
    ensures fault { IsOneFault }
{}

/// Of two pieces that may stand at one place no text begins the other's.
pub fn no_piece_begins_another()
    ensures { (p : Place) (i j : Item) (rest : List ℕ) → IsTrue (allows p i) → IsTrue (allows p j) → IsTrue (item_fits i) → IsTrue (item_fits j) → item_text i ++ rest ≡ item_text j → (i ≡ j) × (rest ≡ []) }
{}

/// What any bytes say of the texts of lists, byte by byte: while they begin a text, which pieces they have
/// spelled, what is read of another, and whether they are a text; and else that they have a fault.
pub fn each_standing_is_right()
    ensures { (bytes : List ℕ) → Tells (standing bytes) bytes }
{}
