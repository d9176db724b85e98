// The classes of records: their numbers, their names, and how bytes compare with a class.
ghost use Rattle.std.specs.Prelude.{◌≡◌, Some};
ghost use Rattle.records.specs.Classes.{class_number, class_name, class_named};
ghost use Rattle.records.specs.Shapes.{shape_of};

use std::fmt;

#[derive(Clone, Copy, PartialEq, Eq, Debug)]
pub enum Class {
    Response,
    Gas,
}

// A number that no class has.
#[derive(Clone, Copy, PartialEq, Eq, Debug)]
pub struct UnknownClass(pub u16);

// Why bytes are no record of a class.
#[derive(Clone, Copy, PartialEq, Eq, Debug)]
pub enum Misfit {
    WrongLength,
    UnknownForm,
}

impl TryFrom<u16> for Class {
    type Error = UnknownClass;

    ghost try_from_gives = { λ n r. r ≡ class_named n };

    fn try_from(number: u16) -> Result<Class, UnknownClass> {
        match number {
            1 => Ok(Class::Response),
            2 => Ok(Class::Gas),
            _ => Err(UnknownClass(number)),
        }
    }
}

impl From<Class> for u16 {
    ghost from_gives = { λ c n. n ≡ class_number c };

    fn from(class: Class) -> u16 {
        match class {
            Class::Response => 1,
            Class::Gas => 2,
        }
    }
}

impl fmt::Display for Class {
    ghost output = { λ c. Some (class_name c) };

    fn fmt<W: fmt::Write>(&self, f: &mut fmt::Formatter<W>) -> fmt::Result {
        f.write_str(match self {
            Class::Response => "response",
            Class::Gas => "gas",
        })
    }
}

impl Class {
    // Whether bytes are a record of the class, or why they are none.
    pub fn shape(self, bytes: &[u8]) -> Result<(), Misfit>
        ensures { result ≡ shape_of self bytes.now }
    {
        match self {
            Class::Response if bytes.len() == 8 => Ok(()),
            Class::Response => Err(Misfit::WrongLength),
            Class::Gas => match bytes {
                [f0, f1, ..] => match (u16::from_le_bytes([*f0, *f1]), bytes.len()) {
                    (0, 2) | (1, 6) | (2, 10) => Ok(()),
                    (0..=2, _) => Err(Misfit::WrongLength),
                    (3.., _) => Err(Misfit::UnknownForm),
                },
                _ => Err(Misfit::WrongLength),
            },
        }
    }
}
