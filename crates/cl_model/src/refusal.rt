//! Why a model or an edit is refused.
ghost use Rattle.std.specs.Prelude.{◌≡◌, Some};
ghost use Rattle.cl_model.specs.Refusal.{code_text, refusal_text};

use crate::place::Place;
use std::fmt;

/// What is wrong: M1 to M10 with a model file, M20 to M47 with a model, E1 to E3 with an edit.
#[derive(Clone, Copy, PartialEq, Eq)]
pub enum Code {
    M1,
    M2,
    M3,
    M4,
    M5,
    M6,
    M7,
    M8,
    M9,
    M10,
    M20,
    M21,
    M22,
    M23,
    M24,
    M25,
    M26,
    M27,
    M28,
    M29,
    M30,
    M31,
    M32,
    M33,
    M34,
    M35,
    M36,
    M37,
    M38,
    M39,
    M40,
    M41,
    M42,
    M43,
    M44,
    M45,
    M46,
    M47,
    E1,
    E2,
    E3,
}

/// A refusal: what is wrong, and where.
#[derive(Clone, Copy, PartialEq, Eq)]
pub struct Refusal {
    pub code: Code,
    pub place: Place,
}

impl Code {
    /// Returns the code as it is printed.
    pub fn word(self) -> &'static str
        ensures { result.now ≡ code_text self }
    {
        match self {
            Code::M1 => "M1",
            Code::M2 => "M2",
            Code::M3 => "M3",
            Code::M4 => "M4",
            Code::M5 => "M5",
            Code::M6 => "M6",
            Code::M7 => "M7",
            Code::M8 => "M8",
            Code::M9 => "M9",
            Code::M10 => "M10",
            Code::M20 => "M20",
            Code::M21 => "M21",
            Code::M22 => "M22",
            Code::M23 => "M23",
            Code::M24 => "M24",
            Code::M25 => "M25",
            Code::M26 => "M26",
            Code::M27 => "M27",
            Code::M28 => "M28",
            Code::M29 => "M29",
            Code::M30 => "M30",
            Code::M31 => "M31",
            Code::M32 => "M32",
            Code::M33 => "M33",
            Code::M34 => "M34",
            Code::M35 => "M35",
            Code::M36 => "M36",
            Code::M37 => "M37",
            Code::M38 => "M38",
            Code::M39 => "M39",
            Code::M40 => "M40",
            Code::M41 => "M41",
            Code::M42 => "M42",
            Code::M43 => "M43",
            Code::M44 => "M44",
            Code::M45 => "M45",
            Code::M46 => "M46",
            Code::M47 => "M47",
            Code::E1 => "E1",
            Code::E2 => "E2",
            Code::E3 => "E3",
        }
    }
}

impl fmt::Display for Code {
    ghost output = { λ code. Some (code_text code) };

    fn fmt<W: fmt::Write>(&self, f: &mut fmt::Formatter<W>) -> fmt::Result {
        f.write_str(self.word())
    }
}

impl fmt::Display for Refusal {
    ghost output = { λ refusal. Some (refusal_text refusal) };

    fn fmt<W: fmt::Write>(&self, f: &mut fmt::Formatter<W>) -> fmt::Result {
        let code = self.code;
        let place = self.place;
        write!(f, "{code} {place}")
    }
}
