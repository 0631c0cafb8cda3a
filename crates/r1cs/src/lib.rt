// The R1CS check: the products of matrix files and a vector, and the claim that stands in for the total.
#![tactic(auto)]

ghost use Rattle.std.specs.Prelude.{◌≡◌};
ghost use Rattle.refusal.specs.Refusal.{outcome};
ghost use Rattle.field.specs.Modulus.{modulus};
ghost use Rattle.r1cs.specs.Product.{product_call, product_leaves};
ghost use Rattle.r1cs.specs.Claim.{claim_call};

use field::Field;
use refusal::{Refusal, require};

mod checks;
mod entries;

// The matrix of a file times z, into the first 2^n places of `out`; the matrix's n.
pub fn product(matrix: &[u8], z: &[u32], out: &mut [u32]) -> Result<u32, Refusal>
    ensures { (outcome result ≡ product_call modulus matrix.now z.now out.old) × (out.new ≡ product_leaves modulus matrix.now z.now out.old) }
{
    product_in(field::modulus(), matrix, z, out)
}

// For a call whose modulus is p.
#[tactic(auto, using(crate::proofs::ProductRows::product_rows), unfolding(crate::specs::Product::after_shape, crate::specs::Product::product_in))]
pub fn product_in(p: u32, matrix: &[u8], z: &[u32], out: &mut [u32]) -> Result<u32, Refusal>
    ensures { (outcome result ≡ product_call p matrix.now z.now out.old) × (out.new ≡ product_leaves p matrix.now z.now out.old) }
{
    let shape = wire::matrix::read_matrix_in(p, matrix)?;
    let size = vector::sizes::size_of(shape.rounds, 0) as usize;
    require(checks::vector_fits(p, z, size), Refusal::Vector)?;
    require(size <= out.len(), Refusal::Buffer)?;
    entries::sum_rows(p, matrix, size, shape.count, z, out);
    Ok(shape.rounds)
}

// The sum of (Cz)_i v^i.
pub fn claim(cz: &[u32], rounds: u32, v: u32) -> Result<u32, Refusal>
    ensures { outcome result ≡ claim_call modulus cz.now rounds v }
{
    claim_in(field::modulus(), cz, rounds, v)
}

#[tactic(auto, using(crate::proofs::Vectors::rule_rows), unfolding(crate::specs::Claim::claim_call))]
pub fn claim_in(p: u32, cz: &[u32], rounds: u32, v: u32) -> Result<u32, Refusal>
    ensures { outcome result ≡ claim_call p cz.now rounds v }
{
    require(rounds <= refusal::MAX_ROUNDS, Refusal::Count)?;
    let x = Field::nonzero_in(p, v).ok_or(Refusal::Argument)?;
    let size = vector::sizes::size_of(rounds, 0) as usize;
    require(checks::vector_fits(p, cz, size), Refusal::Vector)?;
    Ok(vector::slice::evaluate(p, cz, size, u32::from(x)))
}
