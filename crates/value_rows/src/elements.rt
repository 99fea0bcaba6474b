// Numbers in 1, 2, 4 or 8 bytes, of which rows are made.

ghost use Rattle.std.specs.Prelude.{◌≡◌, ◌<◌, ℤ, pos};
ghost use Rattle.dk_base.specs.declared.ty.Ty.{Ty};
ghost use Rattle.dk_base.specs.declared.ty.Ty.TheVariants.{Unsigned, Signed};
ghost use Rattle.dk_base.specs.Types.{IsType, IsIn, IsWithin, width_of};
ghost use Rattle.dk_base.specs.Operators.{scaling_value as scaling_worth};
ghost use Rattle.dk_base.specs.declared.operator.Scaling.TheVariants.{ShiftRight};

use dk_base::Ty;

/// A number in as many bytes as a type needs: `ty` is the type whose numbers it holds, and `worth` the number that it is.
pub trait Element: Copy + Default + Drop {
    ghost ty: { Ty };

    ghost worth: { Self → ℤ };

    /// The type whose numbers it holds.
    fn element_type() -> Ty
        ensures is { result ≡ ty }
        ensures typed { IsType ty }
        ensures narrow { IsWithin ty (Signed 64) };

    /// The number in 64 bits.
    fn widen(self) -> i64
        ensures value { result ≡ worth self }
        ensures fits { IsIn ty (worth self) };

    /// The element of a number of its type.
    fn narrow(value: i64) -> Self
        requires { IsIn ty value }
        ensures { worth result ≡ value };

    /// The quotient by 2 to the power `by`, rounded down.
    fn down(self, by: u8) -> Self
        requires { by < width_of ty }
        ensures { worth result ≡ scaling_worth ShiftRight (worth self) by };
}

impl Element for u8 {
    ghost ty = { Unsigned 8 };

    ghost worth = { pos };

    fn element_type() -> Ty {
        Ty::Unsigned(8)
    }

    fn widen(self) -> i64 {
        i64::from(self)
    }

    fn narrow(value: i64) -> u8 {
        value as u8
    }

    fn down(self, by: u8) -> u8 {
        self >> by
    }
}

impl Element for u16 {
    ghost ty = { Unsigned 16 };

    ghost worth = { pos };

    fn element_type() -> Ty {
        Ty::Unsigned(16)
    }

    fn widen(self) -> i64 {
        i64::from(self)
    }

    fn narrow(value: i64) -> u16 {
        value as u16
    }

    fn down(self, by: u8) -> u16 {
        self >> by
    }
}

impl Element for u32 {
    ghost ty = { Unsigned 32 };

    ghost worth = { pos };

    fn element_type() -> Ty {
        Ty::Unsigned(32)
    }

    fn widen(self) -> i64 {
        i64::from(self)
    }

    fn narrow(value: i64) -> u32 {
        value as u32
    }

    fn down(self, by: u8) -> u32 {
        self >> by
    }
}

impl Element for i8 {
    ghost ty = { Signed 8 };

    ghost worth = { λ v. v };

    fn element_type() -> Ty {
        Ty::Signed(8)
    }

    fn widen(self) -> i64 {
        i64::from(self)
    }

    fn narrow(value: i64) -> i8 {
        value as i8
    }

    fn down(self, by: u8) -> i8 {
        self >> by
    }
}

impl Element for i16 {
    ghost ty = { Signed 16 };

    ghost worth = { λ v. v };

    fn element_type() -> Ty {
        Ty::Signed(16)
    }

    fn widen(self) -> i64 {
        i64::from(self)
    }

    fn narrow(value: i64) -> i16 {
        value as i16
    }

    fn down(self, by: u8) -> i16 {
        self >> by
    }
}

impl Element for i32 {
    ghost ty = { Signed 32 };

    ghost worth = { λ v. v };

    fn element_type() -> Ty {
        Ty::Signed(32)
    }

    fn widen(self) -> i64 {
        i64::from(self)
    }

    fn narrow(value: i64) -> i32 {
        value as i32
    }

    fn down(self, by: u8) -> i32 {
        self >> by
    }
}

impl Element for i64 {
    ghost ty = { Signed 64 };

    ghost worth = { λ v. v };

    fn element_type() -> Ty {
        Ty::Signed(64)
    }

    fn widen(self) -> i64 {
        self
    }

    fn narrow(value: i64) -> i64 {
        value
    }

    fn down(self, by: u8) -> i64 {
        self >> by
    }
}
