// A gas record: no cell, a zero, or a zero and a span.
ghost use Rattle.std.specs.Prelude.{◌≡◌, ◌++◌, length, drop, Some};
ghost use Rattle.records.specs.declared.class.Class.TheVariants as classes;
ghost use Rattle.records.specs.Gases.{gas_of, gas_bytes, gas_text, Held};

use crate::delivered::Delivered;
use std::fmt;

#[derive(Clone, Copy, PartialEq, Eq, Debug)]
pub enum Gas {
    NoCell,
    Zero(i32),
    ZeroSpan { zero: i32, span: u32 },
}

impl Delivered for Gas {
    ghost class = { classes.Gas };

    ghost said = { gas_of };

    ghost spelled = { gas_bytes };

    ghost held = { Held };

    #[tactic(auto, using(crate::proofs::Gases::reads_back, crate::proofs::Gases::one_spelling, crate::proofs::Gases::read_where_it_fits))]
    fn from_bytes(bytes: &[u8]) -> Option<Gas> {
        match bytes {
            [0, 0] => Some(Gas::NoCell),
            [1, 0, z0, z1, z2, z3] => Some(Gas::Zero(i32::from_le_bytes([*z0, *z1, *z2, *z3]))),
            [2, 0, z0, z1, z2, z3, s0, s1, s2, s3] => Some(Gas::ZeroSpan {
                zero: i32::from_le_bytes([*z0, *z1, *z2, *z3]),
                span: u32::from_le_bytes([*s0, *s1, *s2, *s3]),
            }),
            _ => None,
        }
    }
}

impl Gas {
    // Writes the record's bytes at the front, and answers how many; the rest stays as it was.
    // Not `to_bytes`, as a response has: a gas record is of one of three lengths.
    pub fn put(&self, out: &mut [u8; 10]) -> usize
        ensures value { result ≡ length (gas_bytes self.now) }
        ensures after { out.new ≡ gas_bytes self.now ++ drop (length (gas_bytes self.now)) out.old }
    {
        match *self {
            Gas::NoCell => {
                out[0..2].copy_from_slice(&[0, 0]);
                2
            }
            Gas::Zero(zero) => {
                let [z0, z1, z2, z3] = zero.to_le_bytes();
                out[0..6].copy_from_slice(&[1, 0, z0, z1, z2, z3]);
                6
            }
            Gas::ZeroSpan { zero, span } => {
                let [z0, z1, z2, z3] = zero.to_le_bytes();
                let [s0, s1, s2, s3] = span.to_le_bytes();
                out[0..10].copy_from_slice(&[2, 0, z0, z1, z2, z3, s0, s1, s2, s3]);
                10
            }
        }
    }
}

impl fmt::Display for Gas {
    ghost output = { λ x. Some (gas_text x) };

    fn fmt<W: fmt::Write>(&self, f: &mut fmt::Formatter<W>) -> fmt::Result {
        match *self {
            Gas::NoCell => f.write_str("-"),
            Gas::Zero(zero) => write!(f, "{zero}"),
            Gas::ZeroSpan { zero, span } => write!(f, "{zero}/{span}"),
        }
    }
}
