ghost use Rattle.std.specs.Prelude.{◌≡◌};
ghost use Rattle.idx_fields.specs.Base.{base_bytes, base_text};

/// A base of the types of samples: what one number of a sample is.
#[derive(Clone, Copy, Debug, PartialEq, Eq)]
pub enum Base {
    Int8,
    Uint8,
    Int16,
    Uint16,
    Int32,
    Uint32,
    Float32,
    Int64,
    Uint64,
    Float64,
}

impl Base {
    pub(crate) const ALL: [Base; 10] = [
        Base::Int8,
        Base::Uint8,
        Base::Int16,
        Base::Uint16,
        Base::Int32,
        Base::Uint32,
        Base::Float32,
        Base::Int64,
        Base::Uint64,
        Base::Float64,
    ];

    /// The bytes of one number.
    pub fn bytes(self) -> u64
        ensures { result ≡ base_bytes self }
    {
        match self {
            Base::Int8 | Base::Uint8 => 1,
            Base::Int16 | Base::Uint16 => 2,
            Base::Int32 | Base::Uint32 | Base::Float32 => 4,
            Base::Int64 | Base::Uint64 | Base::Float64 => 8,
        }
    }

    /// The name of the base, as `uint8`.
    pub fn text(self) -> &'static [u8]
        ensures { result.now ≡ base_text self }
    {
        match self {
            Base::Int8 => b"int8",
            Base::Uint8 => b"uint8",
            Base::Int16 => b"int16",
            Base::Uint16 => b"uint16",
            Base::Int32 => b"int32",
            Base::Uint32 => b"uint32",
            Base::Float32 => b"float32",
            Base::Int64 => b"int64",
            Base::Uint64 => b"uint64",
            Base::Float64 => b"float64",
        }
    }
}
