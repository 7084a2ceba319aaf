//! Cases of a branch.
ghost use Rattle.std.specs.Prelude.{◌≡◌, ◌<◌, true, IsTrue, Option, ℤ, length};
ghost use Rattle.qc_model.specs.Domains.{Box, is_sub_box, values_left};
ghost use Rattle.qc_model.specs.Valid.{is_number};
ghost use Rattle.check_box.specs.Cases.{IsCase};
ghost use Rattle.fd_store.specs.Held.{Follows, values_from};
ghost use Rattle.proof_tree.specs.Cover.{box_to, covered};
ghost use Rattle.dense_tree.specs.Read.{is_narrower};

use check_box::{Ends, Remains};
use qc_model::VarId;

/// Leaves x the values of a case alone, and says whether they are fewer than it had: only then the case may be gone into.
pub fn keep_case(remains: &mut Remains, x: VarId, ends: Ends) -> bool
    requires var { x.0 < length remains.old.box }
    requires first { IsTrue (is_number ends.first) }
    requires last { IsTrue (is_number ends.last) }
    ensures narrower { (from : ℤ) (upto : Option ℤ) → IsCase (values_left remains.old.box x.0) from upto ends.first ends.last → result ≡ is_narrower (covered upto (values_from from (values_left remains.old.box x.0))) (values_left remains.old.box x.0) }
    ensures content { (from : ℤ) (upto : Option ℤ) → IsCase (values_left remains.old.box x.0) from upto ends.first ends.last → remains.new.box ≡ box_to remains.old.box x.0 (covered upto (values_from from (values_left remains.old.box x.0))) }
    ensures past { Follows remains.old remains.new }
    ensures fewer { (large : Box) → is_sub_box remains.old.box large ≡ true → is_sub_box remains.new.box large ≡ true }
{
    let before = remains.store().size(x);
    remains.keep(x, ends.first, ends.last);
    if remains.store().size(x) == before {
        return false;
    }
    true
}
