// The field of document 01: numbers modulo P = 2^31 - 1. The arithmetic is in `modular`, over any modulus; `Field` passes its own.
#![tactic(auto)]

ghost use Rattle.std.specs.Prelude.{◌≡◌, ◌<◌, pos, nat_abs};
ghost use Rattle.algebra.specs.Mod.{add_mod, sub_mod, neg_mod, mul_mod, half_mod, inverse_mod};
ghost use Rattle.field.specs.Integer.{image, by_sign};
ghost use Rattle.field.specs.Modulus.{modulus};
ghost use Rattle.field.specs.Number.{checked, checked_nonzero};

pub mod integer;
pub mod modular;
pub mod total;

use std::ops::{Add, Mul, Neg, Sub};

#[derive(Clone, Copy, Debug, PartialEq, Eq, Hash)]
pub struct Field {
    value: u32,
}

impl Field {
    pub const MODULUS: u32 = 2147483647;

    pub const ZERO: Field = Field { value: 0 };

    pub const ONE: Field = Field { value: 1 };

    // None for a number of the modulus or more.
    pub fn new(x: u32) -> Option<Field>
        ensures { result ≡ checked 2147483647 x }
    {
        Field::new_in(Field::MODULUS, x)
    }

    // A number handed in to a call whose modulus is p.
    pub fn new_in(p: u32, x: u32) -> Option<Field>
        ensures { result ≡ checked p x }
    {
        if x < p {
            Some(Field { value: x })
        } else {
            None
        }
    }

    // A challenge, a twist, v or a point: from 1 to p - 1.
    pub fn nonzero_in(p: u32, x: u32) -> Option<Field>
        ensures { result ≡ checked_nonzero p x }
    {
        if x == 0 {
            return None;
        }
        Field::new_in(p, x)
    }

    // A reading as its image modulo P: by its sign wherever it is less than P in absolute value, so over either version's range.
    pub fn from_reading(r: i32) -> Field
        ensures { (result.value ≡ image 2147483647 r) × (nat_abs r < 2147483647 → pos result.value ≡ by_sign 2147483647 r) }
    {
        Field::from_reading_in(Field::MODULUS, r)
    }

    pub fn from_reading_in(p: u32, r: i32) -> Field
        ensures { result.value ≡ image p r }
    {
        Field {
            value: integer::image(p, integer::widen(r)),
        }
    }

    pub fn half(self) -> Field
        ensures { result.value ≡ half_mod 2147483647 self.value }
    {
        Field {
            value: modular::half(Field::MODULUS, self.value),
        }
    }

    pub fn invert(self) -> Field
        ensures { result.value ≡ inverse_mod 2147483647 self.value }
    {
        Field {
            value: modular::invert(Field::MODULUS, self.value),
        }
    }
}

impl Add for Field {
    type Output = Field;

    ghost add_gives = { λ a b r. r.value ≡ add_mod 2147483647 a.value b.value };

    fn add(self, other: Field) -> Field {
        Field {
            value: modular::add(Field::MODULUS, self.value, other.value),
        }
    }
}

impl Sub for Field {
    type Output = Field;

    ghost sub_gives = { λ a b r. r.value ≡ sub_mod 2147483647 a.value b.value };

    fn sub(self, other: Field) -> Field {
        Field {
            value: modular::sub(Field::MODULUS, self.value, other.value),
        }
    }
}

impl Mul for Field {
    type Output = Field;

    ghost mul_gives = { λ a b r. r.value ≡ mul_mod 2147483647 a.value b.value };

    fn mul(self, other: Field) -> Field {
        Field {
            value: modular::mul(Field::MODULUS, self.value, other.value),
        }
    }
}

impl Neg for Field {
    type Output = Field;

    ghost neg_gives = { λ a r. r.value ≡ neg_mod 2147483647 a.value };

    fn neg(self) -> Field {
        Field {
            value: modular::neg(Field::MODULUS, self.value),
        }
    }
}

impl From<Field> for u32 {
    ghost from_gives = { λ a r. r ≡ a.value };

    fn from(number: Field) -> u32 {
        number.value
    }
}

// The modulus of every call.
pub fn modulus() -> u32
    ensures { result ≡ modulus }
{
    Field::MODULUS
}
