// A response: a gain and a corner period.
ghost use Rattle.std.specs.Prelude.{◌≡◌, Some};
ghost use Rattle.records.specs.declared.class.Class.TheVariants as classes;
ghost use Rattle.records.specs.Responses.{response_of, response_bytes, response_text, Within};

use crate::delivered::Delivered;
use std::fmt;

#[derive(Clone, Copy, PartialEq, Eq, Debug)]
pub struct Response {
    pub gain: u32,
    pub corner: u32,
}

impl Delivered for Response {
    ghost class = { classes.Response };

    ghost said = { response_of };

    ghost spelled = { response_bytes };

    ghost held = { Within };

    #[tactic(auto, using(crate::proofs::Responses::reads_back, crate::proofs::Responses::one_spelling, crate::proofs::Responses::read_where_it_fits))]
    fn from_bytes(bytes: &[u8]) -> Option<Response> {
        match bytes {
            [g0, g1, g2, g3, c0, c1, c2, c3] => Some(Response {
                gain: u32::from_le_bytes([*g0, *g1, *g2, *g3]),
                corner: u32::from_le_bytes([*c0, *c1, *c2, *c3]),
            }),
            _ => None,
        }
    }
}

impl Response {
    // The bytes of the response.
    pub fn to_bytes(&self) -> [u8; 8]
        ensures { result ≡ response_bytes self.now }
    {
        let [g0, g1, g2, g3] = self.gain.to_le_bytes();
        let [c0, c1, c2, c3] = self.corner.to_le_bytes();
        [g0, g1, g2, g3, c0, c1, c2, c3]
    }
}

impl fmt::Display for Response {
    ghost output = { λ x. Some (response_text x) };

    fn fmt<W: fmt::Write>(&self, f: &mut fmt::Formatter<W>) -> fmt::Result {
        write!(f, "{}/{}", self.gain, self.corner)
    }
}
