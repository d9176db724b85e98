// Numbers that stand as so many bytes, the low byte first.
ghost use Rattle.std.specs.Prelude.{◌≡◌, ◌^◌, ◌<◌, ℕ, List};
ghost use Rattle.std.specs.Int.{w32};
ghost use Rattle.std.proofs.Common.{SFits};
ghost use Rattle.fields.specs.Numbers.{two, four, signed_four, le2, le4, signed_le4};
ghost use Rattle.fields.specs.Laws.{FieldLaws};
ghost use Rattle.fields.specs.Lawful.{two_laws, four_laws, signed_laws};

// A number that takes N bytes.
pub trait Field<const N: usize> {
    // the number that a part begins with
    ghost front: { List ℕ → Self };

    // the bytes of a number
    ghost spelled: { Self → List ℕ };

    // the numbers that N bytes can spell
    ghost fits: { Self → Type 0 };

    // The number of these bytes.
    fn read(bytes: &[u8; N]) -> Self
        ensures { result ≡ front bytes.now };

    // The bytes of this number.
    fn spell(self) -> [u8; N]
        ensures { result ≡ spelled self };

    // Spelling and reading undo each other.
    ghost laws: { FieldLaws N front spelled fits };
}

impl Field<2> for u16 {
    ghost front = { λ bs. two bs 0 };

    ghost spelled = { le2 };

    ghost fits = { λ x. x < 2 ^ 16 };

    ghost laws = { two_laws };

    fn read(bytes: &[u8; 2]) -> u16 {
        u16::from_le_bytes(*bytes)
    }

    fn spell(self) -> [u8; 2] {
        u16::to_le_bytes(self)
    }
}

impl Field<4> for u32 {
    ghost front = { λ bs. four bs 0 };

    ghost spelled = { le4 };

    ghost fits = { λ x. x < 2 ^ 32 };

    ghost laws = { four_laws };

    fn read(bytes: &[u8; 4]) -> u32 {
        u32::from_le_bytes(*bytes)
    }

    fn spell(self) -> [u8; 4] {
        u32::to_le_bytes(self)
    }
}

impl Field<4> for i32 {
    ghost front = { λ bs. signed_four bs 0 };

    ghost spelled = { signed_le4 };

    ghost fits = { λ x. SFits w32 x };

    ghost laws = { signed_laws };

    fn read(bytes: &[u8; 4]) -> i32 {
        i32::from_le_bytes(*bytes)
    }

    fn spell(self) -> [u8; 4] {
        i32::to_le_bytes(self)
    }
}
