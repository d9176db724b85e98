// What a carrier means, held plainly: the copies that wait, by message number and station.
use carrier::message::{Held, Post};
use std::alloc::{AllocError, Global};
use std::collections::BTreeMap;

// What the room rule counts: a record for each message, or for each copy.
#[derive(Clone, Copy)]
pub(crate) enum Record {
    PerMessage,
    PerCopy,
}

#[derive(Drop)]
pub(crate) struct Plain {
    waiting: BTreeMap<(u32, u8), Held<u32>>,
    record: Record,
    records: usize,
}

impl Plain {
    pub(crate) fn new(heap: Global, record: Record, records: usize) -> Plain {
        Plain {
            waiting: BTreeMap::new(heap),
            record,
            records,
        }
    }

    pub(crate) fn look(&self, number: u32, station: u8) -> Option<Held<u32>> {
        self.waiting.get(&(number, station)).copied()
    }

    // Whether a copy of the message with this number waits.
    fn holds(&self, number: u32) -> bool {
        self.waiting
            .range((number, 0)..=(number, u8::MAX))
            .next()
            .is_some()
    }

    // How many messages wait: keys rise, so each counts where its number comes first.
    fn messages(&self) -> usize {
        let (count, _) = self
            .waiting
            .keys()
            .fold((0usize, None), |(count, last), key| {
                let first = last != Some(key.0);
                (count.wrapping_add(first as usize), Some(key.0))
            });
        count
    }

    // How many records are in use.
    fn used(&self) -> usize {
        match self.record {
            Record::PerMessage => self.messages(),
            Record::PerCopy => self.waiting.len(),
        }
    }

    // How many records a message takes.
    fn needed(&self, item: &Post<u32>) -> usize {
        let receivers = item.to.count() as usize;
        match self.record {
            Record::PerMessage => receivers.min(1),
            Record::PerCopy => receivers,
        }
    }

    // Whether a message fits: one for nobody always does.
    pub(crate) fn fits(&self, item: &Post<u32>) -> bool {
        let needed = self.needed(item);
        needed == 0
            || (!self.holds(item.number) && self.used().saturating_add(needed) <= self.records)
    }

    // Whether two messages fit, both together.
    pub(crate) fn fit_both(&self, first: &Post<u32>, second: &Post<u32>) -> bool {
        let (one, other) = (self.needed(first), self.needed(second));
        let both = one.saturating_add(other);
        self.fits(first)
            && self.fits(second)
            && (one == 0
                || other == 0
                || (first.number != second.number
                    && self.used().saturating_add(both) <= self.records))
    }

    pub(crate) fn post(&mut self, item: &Post<u32>) -> Result<(), AllocError> {
        for station in (0..16u8).filter(|q| item.to.contains(*q)) {
            self.waiting.insert((item.number, station), item.held)?;
        }
        Ok(())
    }

    pub(crate) fn take(&mut self, number: u32, station: u8) -> Option<Held<u32>> {
        self.waiting.remove(&(number, station))
    }

    pub(crate) fn drop_for(&mut self, station: u8) {
        self.waiting.retain(|key, _| key.1 != station);
    }

    pub(crate) fn clear(&mut self) {
        self.waiting.clear();
    }

    pub(crate) fn oldest(&self) -> Option<u16> {
        self.waiting.values().map(|held| held.sent).min()
    }
}
