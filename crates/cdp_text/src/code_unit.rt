//! What texts are made of: bytes of UTF-8, and code units of UTF-16.
ghost use Rattle.std.specs.Prelude.{◌≡◌, ℕ};

/// What a text is made of: a byte of UTF-8, or a unit of UTF-16.
pub trait CodeUnit: Copy {
    ghost code: { Self → ℕ };

    /// The unit as a number.
    fn code(self) -> u16
        ensures { result ≡ code self };
}

impl CodeUnit for u8 {
    ghost code = { λ byte. byte };

    fn code(self) -> u16 {
        u16::from(self)
    }
}

impl CodeUnit for u16 {
    ghost code = { λ unit. unit };

    fn code(self) -> u16 {
        self
    }
}
