// The frame of a schedule record: length, kind, body.
ghost use Rattle.std.specs.Prelude.{◌≡◌};
ghost use Rattle.schedule.specs.Framing.{parts_of, frame_of};

use crate::fault::Flaw;

// The number of a kind, and the body as a part of the file.
#[derive(Clone, Copy, Drop)]
pub(crate) struct Frame<'a> {
    pub kind: u16,
    pub body: &'a [u8],
}

// The frame at the front of the bytes.
pub(crate) fn read_frame<'a>(bytes: &'a [u8]) -> Result<Frame<'a>, Flaw>
    ensures { parts_of result ≡ frame_of bytes.now }
{
    match bytes {
        [l0, l1, k0, k1, rest @ ..] => {
            let n = u16::from_le_bytes([*l0, *l1]) as usize;
            if rest.len() + 2 < n {
                return Err(Flaw::Short);
            }
            if n < 2 {
                return Err(Flaw::Length);
            }
            Ok(Frame {
                kind: u16::from_le_bytes([*k0, *k1]),
                body: &rest[0..n - 2],
            })
        }
        [l0, l1, rest @ ..] => {
            let n = u16::from_le_bytes([*l0, *l1]) as usize;
            if rest.len() < n {
                Err(Flaw::Short)
            } else {
                Err(Flaw::Length)
            }
        }
        _ => Err(Flaw::Short),
    }
}
