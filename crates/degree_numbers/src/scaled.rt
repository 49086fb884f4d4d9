// The scaled size of a multiindex.
ghost use Rattle.std.specs.Prelude.{◌≡◌, ◌≤◌, ◌*◌, sum};
ghost use Rattle.std.specs.List.{AllByRecursion};
ghost use Rattle.degree_numbers.specs.Multi.{scaled_size};

use crate::multi::Multi;

impl Multi {
    /// The scaled size |m|_s: the sum of `s_i * m_i`.
    #[tactic(auto, using(crate::proofs::ScaledSizes::scaled_size_most))]
    pub fn scaled_size(&self, scaling: &[u32; 5]) -> u64
        requires scaling { AllByRecursion (λ s. s ≤ 10) scaling.now }
        ensures value { result ≡ scaled_size scaling.now self.now.entries }
        ensures most { result ≤ 10 * sum self.now.entries }
    {
        let s = scaling;
        let m = &self.entries;
        s[0] as u64 * m[0] as u64
            + s[1] as u64 * m[1] as u64
            + s[2] as u64 * m[2] as u64
            + s[3] as u64 * m[3] as u64
            + s[4] as u64 * m[4] as u64
    }
}
