// The law, the contract of a function without parameters.
ghost use Rattle.lemma_boxes.specs.Claims.{BoxesTell};

/// In a valid game a constraint that a box and the sums of a lemma refute holds on no declared values in the box on
/// which the sums hold, and one that they keep holds on all of them.
pub fn boxes_tell_of_values()
    ensures { BoxesTell }
{}
