// The debt of a copy that was taken: it ends only where the copy is applied to its station.
ghost use Rattle.std.specs.Prelude.{◌≡◌, IsTrue, true, length, if◌then◌else◌, Ok, Err, nat_lt, slice_index_or, slice_set};
ghost use Rattle.carrier.specs.Owing.{owed_to, owing};
ghost use Rattle.carrier.specs.Waits.{without};
ghost use Rattle.carrier.specs.declared.message.Held.{Held};

use crate::fault::CarrierFault;
use crate::interface::Carrier;
use crate::message::Held;

// What a carrier's `take` asks for: made here only, so no copy leaves a carrier but as one that is owed.
#[derive(Drop)]
pub struct Key(());

// A copy that was taken, and is owed to its station.
pub struct Owed<B: Copy> {
    station: u8,
    held: Held<B>,
    // a mark, since the gate refuses a `drop` that asks for what cannot be; never set: applying a debt takes it apart, and nothing makes one that is forgiven
    forgiven: bool,
}

impl<B: Copy> Drop for Owed<B> {
    // Nobody may let a debt go, since none is ever forgiven.
    fn drop(self)
        requires { IsTrue self.forgiven }
    {
        let Owed {
            station: _,
            held: _,
            forgiven: _,
        } = self;
    }
}

// What a copy is applied to.
pub trait Receiver<B: Copy> {
    type Answer;

    // The receiver afterwards.
    ghost turned: { Self → Held B → Self };

    // What it answers.
    ghost answer: { Self → Held B → Self.Answer };

    fn receive(&mut self, held: Held<B>) -> Self::Answer
        ensures value { result ≡ answer self.old held }
        ensures after { self.new ≡ turned self.old held };
}

// A debt that is not forgiven.
fn owe<B: Copy>(station: u8, held: Held<B>) -> Owed<B>
    ensures { result ≡ owed_to station held }
{
    Owed {
        station,
        held,
        forgiven: false,
    }
}

// Takes the copy out of the carrier: its station is owed it.
pub fn take_owed<B: Copy, C: Carrier<B>>(
    carrier: &mut C,
    number: u32,
    station: u8,
) -> Result<Owed<B>, CarrierFault>
    ensures value { result ≡ owing station (C.waits carrier.old number station) }
    ensures after { C.waits carrier.new ≡ without number station (C.waits carrier.old) }
    ensures same { C.room carrier.new ≡ C.room carrier.old }
{
    let held = carrier.take(&Key(()), number, station)?;
    Ok(owe(station, held))
}

impl<B: Copy> Owed<B> {
    // Applies the copy to its station, or gives the debt back where there is no such station.
    pub fn apply<R: Receiver<B>>(self, stations: &mut [R]) -> Result<R::Answer, Owed<B>>
        ensures value { (d : R) → result ≡ (if nat_lt self.station (length stations.old) then Ok (R.answer (slice_index_or stations.old self.station d) self.held) else Err self) }
        ensures after { (d : R) → stations.new ≡ slice_set stations.old self.station (R.turned (slice_index_or stations.old self.station d) self.held) }
    {
        let Owed {
            station,
            held,
            forgiven,
        } = self;
        let at = station as usize;
        if at < stations.len() {
            Ok(stations[at].receive(held))
        } else {
            Err(Owed {
                station,
                held,
                forgiven,
            })
        }
    }
}
