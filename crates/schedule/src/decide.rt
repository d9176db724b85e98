// What a schedule record of a kind and a body says, or its smallest flaw.
ghost use Rattle.std.specs.Prelude.{◌≡◌, ◌≤◌, length, Ok};
ghost use Rattle.schedule.specs.Items.{shown};
ghost use Rattle.schedule.specs.Kinds.{Settings, Start as start_kind, Write, Deliver};
ghost use Rattle.schedule.specs.Rules.{shown_of, decided, judged, in_steps, station_step};
ghost use Rattle.records.specs.Classes.{class_of};
ghost use Rattle.fields.specs.Numbers.{two};

use crate::fault::Flaw;
use crate::frame::Frame;
use crate::stage::Stage;
use crate::{Record, Start};
use records::{Class, UnknownClass};
use settings::Choice;

// The four steps that name a station alone. A kind stays the number that the file has.
fn station_step<'a>(kind: u16, station: u16) -> Record<'a>
    requires { (4 ≤ kind) × (kind ≤ 7) }
    ensures { shown result ≡ station_step kind station }
{
    match kind {
        4 => Record::Enter(station),
        5 => Record::Leave(station),
        6 => Record::Crash(station),
        _ => Record::Read(station),
    }
}

impl Stage {
    // The record of a frame. A kind stays a number, as the file has it: the project wants ranges and guards to tell kinds apart.
    pub(crate) fn decide<'a>(self, frame: Frame<'a>) -> Result<Record<'a>, Flaw>
        ensures { shown_of result ≡ decided self frame.entry.kind frame.entry.body.now }
    {
        let body = frame.body;
        match frame.kind {
            1 => self.settings(body),
            2 => self.start(body),
            3 if body.is_empty() => self.step(Record::Tick),
            3 => Err(Flaw::Length),
            4..=7 => match body {
                [p0, p1] => self.step(station_step(frame.kind, u16::from_le_bytes([*p0, *p1]))),
                _ => Err(Flaw::Length),
            },
            8 => self.write(body),
            9 => self.deliver(body),
            _ => Err(Flaw::Kind),
        }
    }

    // A step, where steps may stand.
    fn step<'a>(self, step: Record<'a>) -> Result<Record<'a>, Flaw>
        ensures { shown_of result ≡ in_steps self (shown step.entry) }
    {
        match self {
            Stage::Steps(_) => Ok(step),
            _ => Err(Flaw::Order),
        }
    }

    fn settings<'a>(self, body: &[u8]) -> Result<Record<'a>, Flaw>
        ensures { shown_of result ≡ judged self Settings body.now }
    {
        let [a0, a1, d0, d1, b0, b1, g0, g1, n0, n1, t0, t1] = body else {
            return Err(Flaw::Length);
        };
        if !matches!(self, Stage::Settings) {
            return Err(Flaw::Order);
        }
        Ok(Record::Settings(Choice {
            alpha: u16::from_le_bytes([*a0, *a1]),
            delta: u16::from_le_bytes([*d0, *d1]),
            beta: u16::from_le_bytes([*b0, *b1]),
            gamma: u16::from_le_bytes([*g0, *g1]),
            nmin: u16::from_le_bytes([*n0, *n1]),
            d: u16::from_le_bytes([*t0, *t1]),
        }))
    }

    fn start<'a>(self, body: &'a [u8]) -> Result<Record<'a>, Flaw>
        ensures { shown_of result ≡ judged self start_kind body.now }
    {
        let [c0, c1, ..] = body else {
            return Err(Flaw::Length);
        };
        match Class::try_from(u16::from_le_bytes([*c0, *c1])) {
            Ok(class) => self.start_of(class, body),
            Err(UnknownClass(_)) if matches!(self, Stage::Start) => Err(Flaw::Range),
            Err(UnknownClass(_)) => Err(Flaw::Order),
        }
    }

    // A start whose class is known.
    fn start_of<'a>(self, class: Class, body: &'a [u8]) -> Result<Record<'a>, Flaw>
        requires held { 2 ≤ length body.now }
        requires known { class_of (two body.now 0) ≡ Some class }
        ensures { shown_of result ≡ judged self start_kind body.now }
    {
        let [_, _, t0, t1, k0, k1, first @ ..] = body else {
            return Err(Flaw::Length);
        };
        let start = Start {
            class,
            table: u16::from_le_bytes([*t0, *t1]),
            present: u16::from_le_bytes([*k0, *k1]),
            first,
        };
        start.judge(self)?;
        Ok(Record::Start(start))
    }

    fn write<'a>(self, body: &'a [u8]) -> Result<Record<'a>, Flaw>
        ensures { shown_of result ≡ judged self Write body.now }
    {
        let Stage::Steps(class) = self else {
            return Err(Flaw::Order);
        };
        let [p0, p1, value @ ..] = body else {
            return Err(Flaw::Length);
        };
        class.shape(value)?;
        Ok(Record::Write {
            station: u16::from_le_bytes([*p0, *p1]),
            value,
        })
    }

    fn deliver<'a>(self, body: &[u8]) -> Result<Record<'a>, Flaw>
        ensures { shown_of result ≡ judged self Deliver body.now }
    {
        match body {
            [m0, m1, m2, m3, p0, p1] => self.step(Record::Deliver {
                message: u32::from_le_bytes([*m0, *m1, *m2, *m3]),
                station: u16::from_le_bytes([*p0, *p1]),
            }),
            _ => Err(Flaw::Length),
        }
    }
}
