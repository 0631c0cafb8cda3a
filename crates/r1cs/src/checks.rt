// The check of a rule vector.
ghost use Rattle.std.specs.Prelude.{◌≡◌};
ghost use Rattle.r1cs.specs.Product.{rule_vector};

// 16: 2^n field numbers. The loop over the vector tests its numbers in place.
#[tactic(auto, using(verifier::proofs::Branches::branches), unfolding(crate::specs::Product::rule_vector))]
pub(crate) fn vector_fits(p: u32, xs: &[u32], size: usize) -> bool
    ensures { result ≡ rule_vector p size xs.now }
{
    xs.len() == size && vector::slice::all_reduced(p, xs, size)
}
