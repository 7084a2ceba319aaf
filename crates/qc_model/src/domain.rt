//! The values of a declared domain, one by one and without a list of them.
ghost use Rattle.std.specs.Prelude.{◌≡◌, ◌<◌, length, slice_get, Some, IsTrue};
ghost use Rattle.qc_model.specs.Domains.{domain_values};
ghost use Rattle.qc_model.specs.Valid.{is_domain};

use crate::problem::Domain;

impl Domain {
    /// How many values there are, at most 1,048,576.
    pub fn size(&self) -> u32
        requires { IsTrue (is_domain self.now) }
        ensures { result ≡ length (domain_values self.now) }
    {
        match self {
            Domain::Bits => 2,
            Domain::Range(low, high) => (*high - *low) as u32 + 1,
            Domain::Listed(numbers) => numbers.items().len() as u32,
        }
    }

    /// The value with k smaller ones.
    pub fn value_at(&self, k: u32) -> i64
        requires valid { IsTrue (is_domain self.now) }
        requires place { k < length (domain_values self.now) }
        ensures { slice_get (domain_values self.now) k ≡ Some result }
    {
        match self {
            Domain::Bits => k as i64,
            Domain::Range(low, _) => *low + k as i64,
            Domain::Listed(numbers) => numbers.items()[k as usize],
        }
    }
}
