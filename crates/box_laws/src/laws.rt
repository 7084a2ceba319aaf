//! The laws, each the contract of a function that does nothing.
ghost use Rattle.std.specs.Prelude.{◌≡◌, ◌<◌, ◌-ℤ◌, ◌+ℤ◌, true, false, not, ℕ, Some, None, length, take, slice_get, ℤ, pos, negsuc, int_le};
ghost use Rattle.std.specs.List.{list_all};
ghost use Rattle.qc_model.specs.declared.problem.Variable.{Variable};
ghost use Rattle.qc_model.specs.Content.{Game};
ghost use Rattle.qc_model.specs.Domains.{Box, Values, box_values, box_within, box_without, declared_box, domain_values, has_empty, is_none_left, is_sub_box, values_left, values_within};
ghost use Rattle.qc_model.specs.Valid.{is_domain, is_number};
ghost use Rattle.model_arguments.specs.Asked.{is_box_of};
ghost use Rattle.fd_store.specs.Held.{Held, Follows, IsUndone, least_of, trail_len, values_from};

/// The declared domains are a box of the game, and leave each variable a value. A variable of which as many values are left
/// as it has declared has its declared values left.
pub fn declared_boxes()
    ensures declared { (g : Game) (box : Box) → list_all (λ x. is_domain x.domain) g.variables ≡ true → box ≡ declared_box g → is_box_of g box ≡ true }
    ensures full { (g : Game) → list_all (λ x. is_domain x.domain) g.variables ≡ true → has_empty (declared_box g) ≡ false }
    ensures whole { (g : Game) (box : Box) (y : ℕ) (x : Variable) → list_all (λ x. is_domain x.domain) g.variables ≡ true → is_sub_box box (declared_box g) ≡ true → slice_get g.variables y ≡ Some x → length (values_left box y) ≡ length (domain_values x.domain) → values_left box y ≡ values_left (declared_box g) y }
{}

/// A box of a game leaves values to as many variables as the game has, and what is read from it are numbers.
pub fn values_are_numbers()
    ensures sized { (g : Game) (box : Box) → is_box_of g box ≡ true → length box ≡ length g.variables }
    ensures numbers { (g : Game) (box : Box) (n : ℕ) → list_all (λ x. is_domain x.domain) g.variables ≡ true → is_box_of g box ≡ true → has_empty box ≡ false → list_all is_number (box_values (take n box)) ≡ true }
{}

/// Whether there is a value between two numbers is told by the least one from the lower number on. Where there is none,
/// taking those values away changes nothing. Once the values below one number and those above another are gone, the
/// values between them are left.
pub fn ranges_are_told()
    ensures some { (vs : Values) (lo hi v : ℤ) → Some v ≡ least_of (values_from lo vs) → int_le v hi ≡ not (is_none_left (values_within lo hi vs)) }
    ensures none { (vs : Values) (lo hi : ℤ) → None ≡ least_of (values_from lo vs) → false ≡ not (is_none_left (values_within lo hi vs)) }
    ensures stays { (box : Box) (x : ℕ) (lo hi : ℤ) → is_none_left (values_within lo hi (values_left box x)) ≡ true → box ≡ box_without box x lo hi }
    ensures between { (box one two : Box) (x : ℕ) (lo hi : ℤ) → x < length box → list_all is_number (values_left box x) ≡ true → one ≡ box_without box x (negsuc 999999999) (lo -ℤ pos 1) → two ≡ box_without one x (hi +ℤ pos 1) (pos 1000000000) → two ≡ box_within box x lo hi }
{}

/// A store that was led on and then undone to where it began is the store that it was.
pub fn stores_come_back()
    ensures content { (s m t : Held) (n : ℕ) → trail_len s ≡ n → Follows s m → IsUndone n m t → t.box ≡ s.box }
    ensures past { (s m t : Held) (n : ℕ) → trail_len s ≡ n → Follows s m → IsUndone n m t → t.past ≡ s.past }
{}
