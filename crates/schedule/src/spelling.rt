// The bytes of a schedule record.
ghost use Rattle.std.specs.Prelude.{◌≡◌, ◌+◌, ◌≤◌, ◌++◌, length};
ghost use Rattle.fields.specs.Numbers.{le2, le4};
ghost use Rattle.schedule.specs.Framing.{framed};
ghost use Rattle.schedule.specs.Items.{start, write, shown};
ghost use Rattle.schedule.specs.Kinds.{choice_bytes, spell};
ghost use Rattle.schedule.specs.Writing.{at_front};
ghost use Rattle.records.specs.Classes.{class_number};

use crate::{Record, Start};
use settings::Choice;

// Puts bytes that fit at the front, and answers how many; the rest stays as it was.
fn put(out: &mut [u8], bytes: &[u8]) -> usize
    requires { length bytes.now ≤ length out.old }
    ensures value { result ≡ length bytes.now }
    ensures after { out.new ≡ at_front bytes.now out.old }
{
    out[..bytes.len()].copy_from_slice(bytes);
    bytes.len()
}

fn settings_bytes(c: &Choice) -> [u8; 16]
    ensures { result ≡ framed 1 (choice_bytes c.now) }
{
    let [a0, a1] = c.alpha.to_le_bytes();
    let [d0, d1] = c.delta.to_le_bytes();
    let [b0, b1] = c.beta.to_le_bytes();
    let [g0, g1] = c.gamma.to_le_bytes();
    let [n0, n1] = c.nmin.to_le_bytes();
    let [t0, t1] = c.d.to_le_bytes();
    [14, 0, 1, 0, a0, a1, d0, d1, b0, b1, g0, g1, n0, n1, t0, t1]
}

// A step that names a station alone, by the low byte of its kind, which stays the number that the file has.
fn station_bytes(kind: u8, station: u16) -> [u8; 6]
    ensures { result ≡ framed kind (le2 station) }
{
    let [p0, p1] = station.to_le_bytes();
    [4, 0, kind, 0, p0, p1]
}

fn deliver_bytes(message: u32, station: u16) -> [u8; 10]
    ensures { result ≡ framed 9 (le4 message ++ le2 station) }
{
    let [m0, m1, m2, m3] = message.to_le_bytes();
    let [p0, p1] = station.to_le_bytes();
    [8, 0, 9, 0, m0, m1, m2, m3, p0, p1]
}

// A write up to its record bytes, of which there are `len`.
fn write_head(station: u16, len: u16) -> [u8; 6]
    requires { len ≤ 65530 }
    ensures { result ≡ le2 (4 + len) ++ (le2 8 ++ le2 station) }
{
    let [l0, l1] = (4 + len).to_le_bytes();
    let [p0, p1] = station.to_le_bytes();
    [l0, l1, 8, 0, p0, p1]
}

// Puts two parts that fit, one after the other.
fn put_both(out: &mut [u8], head: &[u8], rest: &[u8]) -> usize
    requires { length head.now + length rest.now ≤ length out.old }
    ensures value { result ≡ length head.now + length rest.now }
    ensures after { out.new ≡ at_front (head.now ++ rest.now) out.old }
{
    let at = put(out, head);
    at + put(&mut out[at..], rest)
}

// Puts a write that fits, its record bytes after its head.
fn put_write(out: &mut [u8], station: u16, value: &[u8]) -> usize
    requires fits { 6 + length value.now ≤ length out.old }
    requires short { length value.now ≤ 65530 }
    ensures value { result ≡ 6 + length value.now }
    ensures after { out.new ≡ at_front (spell (write station value.now)) out.old }
{
    put_both(out, &write_head(station, value.len() as u16), value)
}

impl Start<'_> {
    // The bytes up to those of the first record, of which there are `len`.
    fn head(&self, len: u16) -> [u8; 10]
        requires { len ≤ 65526 }
        ensures { result ≡ le2 (8 + len) ++ (le2 2 ++ (le2 (class_number self.now.class) ++ (le2 self.now.table ++ le2 self.now.present))) }
    {
        let [l0, l1] = (8 + len).to_le_bytes();
        let [c0, c1] = u16::from(self.class).to_le_bytes();
        let [t0, t1] = self.table.to_le_bytes();
        let [k0, k1] = self.present.to_le_bytes();
        [l0, l1, 2, 0, c0, c1, t0, t1, k0, k1]
    }

    // Puts a start that fits, the bytes of the first record after its head.
    fn put(&self, out: &mut [u8]) -> usize
        requires fits { 10 + length self.now.first.now ≤ length out.old }
        requires short { length self.now.first.now ≤ 65526 }
        ensures value { result ≡ 10 + length self.now.first.now }
        ensures after { out.new ≡ at_front (spell (start self.now.class self.now.table self.now.present self.now.first.now)) out.old }
    {
        put_both(out, &self.head(self.first.len() as u16), self.first)
    }
}

impl Record<'_> {
    // How many bytes the record takes.
    pub(crate) fn size(&self) -> usize
        ensures { result ≡ length (spell (shown self.now)) }
    {
        match self {
            Record::Settings(_) => 16,
            Record::Start(start) => 10 + start.first.len(),
            Record::Tick => 4,
            Record::Enter(_) | Record::Leave(_) | Record::Crash(_) | Record::Read(_) => 6,
            Record::Write { value, .. } => 6 + value.len(),
            Record::Deliver { .. } => 10,
        }
    }

    // Puts a record that fits at the front, and answers how many bytes it takes; the rest stays as it was.
    pub(crate) fn put(&self, out: &mut [u8]) -> usize
        requires fits { length (spell (shown self.now)) ≤ length out.old }
        requires short { length (spell (shown self.now)) ≤ 65536 }
        ensures value { result ≡ length (spell (shown self.now)) }
        ensures after { out.new ≡ at_front (spell (shown self.now)) out.old }
    {
        match self {
            Record::Settings(c) => put(out, &settings_bytes(c)),
            Record::Start(start) => start.put(out),
            Record::Tick => put(out, &[2, 0, 3, 0]),
            Record::Enter(p) => put(out, &station_bytes(4, *p)),
            Record::Leave(p) => put(out, &station_bytes(5, *p)),
            Record::Crash(p) => put(out, &station_bytes(6, *p)),
            Record::Read(p) => put(out, &station_bytes(7, *p)),
            Record::Write { station, value } => put_write(out, *station, value),
            Record::Deliver { message, station } => put(out, &deliver_bytes(*message, *station)),
        }
    }
}
