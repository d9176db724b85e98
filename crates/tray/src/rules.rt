// The rule by which a station's copies leave.
ghost use Rattle.std.specs.Prelude.{if◌then◌else◌, Some, None, nat_eq};

use rack::sift::Trim;

// Every copy for one station goes.
#[derive(Clone, Copy)]
pub(crate) struct Leaving {
    pub(crate) station: u8,
}

impl<B: Copy> Trim<B> for Leaving {
    ghost trimmed = { λ l q v. (if nat_eq q l.station then None else Some v) };

    fn trim(&self, station: u8, content: &B) -> Option<B> {
        if station == self.station {
            None
        } else {
            Some(*content)
        }
    }
}
